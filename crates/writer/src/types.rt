// The writing state, document 01 "Writing": the bytes used, and whether the book is closed.
use prelude::refusals::Refusal;

// Kept: `used` stands beside the lent buffer, and `closed` beside `used`, as in `apptbook_writer` of the C interface, where any state comes in and is answered.
#[derive(Clone, Copy)]
pub struct Writer {
    pub used: usize,
    pub closed: bool,
}

// Why a call is refused, with the state as it came.
#[derive(Clone, Copy)]
pub struct WriteRefusal {
    pub refusal: Refusal,
    pub writer: Writer,
}
