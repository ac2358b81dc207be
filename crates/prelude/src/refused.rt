// Whole refusals: those whose place is always 0, since no byte, entry or record is meant.
use crate::refusals::{Fault, Refusal};

// Constants cost the proofs of their callers nothing (DECISIONS, "Days"). A macro writes them, since a constant's value may not be a call, as `at(0)`.
macro_rules! whole {
    ($fault:ident) => {
        Refusal {
            number: Fault::$fault as u32,
            place: 0,
        }
    };
}

pub const BOOK_TOO_LONG: Refusal = whole!(BookTooLong);

pub const NOT_A_BOOK: Refusal = whole!(NotABook);

pub const NO_SUCH_NUMBER: Refusal = whole!(NoSuchNumber);

pub const OUT_OF_RANGE: Refusal = whole!(OutOfRange);

pub const NO_ROOM: Refusal = whole!(NoRoom);

pub const TOO_MANY_BLOCKS: Refusal = whole!(TooManyBlocks);

pub const CALENDAR_TOO_LONG: Refusal = whole!(CalendarTooLong);

pub const NOT_A_CALENDAR: Refusal = whole!(NotACalendar);

pub const BAD_ARRAYS: Refusal = whole!(BadArrays);
