// What measuring an export gives.

// The days of a span, as a count and as a length.
pub const MOST_COUNT: u16 = 366;

pub const MOST_DAYS: usize = MOST_COUNT as usize;

// The file's length, its descriptors and its appointments, and whether a block would start at block 32,768 or later.
#[derive(Clone, Copy)]
pub struct Measure {
    pub length: usize,
    pub descriptors: usize,
    pub appointments: usize,
    pub past_last_block: bool,
}
