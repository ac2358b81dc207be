// The short-month choice, and when a record is on.
use days::types::Minute;

// Document 01 "short-month choice": what becomes of a day that its month does not have.
#[derive(Clone, Copy, PartialEq, Eq, Debug)]
pub enum ShortMonth {
    Skip,
    Last,
}

// Document 02, R-7: whether a record falls on a day: not, on its own day, or moved to the month's last day.
#[derive(Clone, Copy, PartialEq, Eq, Debug)]
pub enum Falling {
    No,
    Own,
    Moved,
}

// A record's times and its alarm mark.
#[derive(Clone, Copy)]
pub struct Times {
    pub start: Minute,
    pub end: Minute,
    pub alarm: bool,
}
