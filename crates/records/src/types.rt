// The six kinds, document 01 "The book". A record's text and note stand beside it, not in it.
use days::types::{Date, Minute};

// Type 1.
#[derive(Clone, Copy)]
pub struct Dated {
    pub alarm: bool,
    pub date: Date,
    pub start: Minute,
    pub end: Minute,
    pub lead: u16,
}

// What types 2 to 5 share: shown only from the first date to the last.
#[derive(Clone, Copy)]
pub struct Repeat {
    pub alarm: bool,
    pub start: Minute,
    pub first: Date,
    pub end: Minute,
    pub last: Date,
    pub lead: u16,
}

// Type 2. The weekday is 1 = Sunday to 7 = Saturday.
#[derive(Clone, Copy)]
pub struct Weekly {
    pub weekday: u16,
    pub repeat: Repeat,
}

// Type 3.
#[derive(Clone, Copy)]
pub struct MonthlyByDate {
    pub day: u16,
    pub repeat: Repeat,
}

// Type 4. Week 1 to 5 of the month.
#[derive(Clone, Copy)]
pub struct MonthlyByPosition {
    pub week: u16,
    pub weekday: u16,
    pub repeat: Repeat,
}

// Type 5.
#[derive(Clone, Copy)]
pub struct Yearly {
    pub month: u16,
    pub day: u16,
    pub repeat: Repeat,
}

// Type 6.
#[derive(Clone, Copy)]
pub struct ToDo {
    pub carry_forward: bool,
    pub priority: u16,
    pub start: Date,
    pub check_off: Option<Date>,
}

#[derive(Clone, Copy)]
pub enum Record {
    Dated(Dated),
    Weekly(Weekly),
    MonthlyByDate(MonthlyByDate),
    MonthlyByPosition(MonthlyByPosition),
    Yearly(Yearly),
    ToDo(ToDo),
}
