// The counts of document 01, kept apart: a day of one count is no day of another, and a minute is neither.

// The years of the calendar.
pub const FIRST_YEAR: u16 = 1980;

pub const LAST_YEAR: u16 = 2099;

// 31 December 2099.
pub const LAST_DAY: u16 = 43829;

// How many days the calendar has: the number past its last day.
pub const DAYS: u16 = 43830;

pub const LAST_MINUTE: u16 = 1439;

// A Calendar day: 1 January 1980 = 0 to 31 December 2099 = 43,829.
#[derive(Clone, Copy, PartialEq, Eq, PartialOrd, Ord)]
pub struct CalendarDay(pub u16);

// A Psion day: 1 January 1970 = 0; in use are 3,652 (1 January 1980) to 29,219 (31 December 2049).
#[derive(Clone, Copy, PartialEq, Eq, PartialOrd, Ord)]
pub struct PsionDay(pub u16);

// A minute from midnight, 0 to 1,439.
#[derive(Clone, Copy, PartialEq, Eq, PartialOrd, Ord)]
pub struct Minute(pub u16);

// A date with its full year. Any numbers can stand here: `is_real` judges them.
#[derive(Clone, Copy, PartialEq, Eq, PartialOrd, Ord)]
pub struct Date {
    pub year: u16,
    pub month: u16,
    pub day: u16,
}

// What the layers above ask of a day, at once. The weekday is 1 = Sunday to 7 = Saturday.
#[derive(Clone, Copy, PartialEq, Eq)]
pub struct DayFacts {
    pub day: CalendarDay,
    pub date: Date,
    pub weekday: u16,
    pub length: u16,
}
