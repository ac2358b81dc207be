// A word of the command line, what the words ask for, and the room for the answer.
use falls::types::ShortMonth;

// "Its Calendar room is 65,536 bytes"
pub const PROGRAM_ROOM: usize = 65536;

// Numbers past 65,535 are all 65,536.
// Kept: that number for too large ones, as the definition `word_of` has it by `capped`.
#[derive(Clone, Copy)]
pub enum Word {
    Number(u32),
    Skip,
    Last,
    Other,
}

// The page of a day; the export of a first day and a count of days; or anything else.
#[derive(Clone, Copy)]
pub enum Command {
    Page(u32, ShortMonth),
    Export(u32, u32, ShortMonth),
    Unknown,
}
