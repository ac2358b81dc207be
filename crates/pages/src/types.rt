// What the questions about a book and a day give.
use days::types::{CalendarDay, DayFacts, Minute};
use falls::types::Times;
use prelude::slices::Stretch;

// An accepted book's number of records, and the facts of a day in range.
// Kept: no file in it, and `ReadyBook file a` in contracts: `validate` promises `≡ validated file n`, whose `Ready` is made from a list of bytes, which gives no reference.
#[derive(Clone, Copy)]
pub struct Ready {
    pub records: usize,
    pub facts: DayFacts,
}

// What a page lists of a record: its times, its alarm mark, the day of the month that it names or 0, and where its text lies.
// Kept: 0, no Option, for no named day: the clause `named_value` of `listed_at` says `result.named ≡ named_day ..`, which is a number.
#[derive(Clone, Copy)]
pub struct Listed {
    pub times: Times,
    pub named: u16,
    pub text: Stretch,
}

// A line of a page: the record's number, its times, its alarm mark, whether it was moved to this day, and where its text lies.
#[derive(Clone, Copy)]
pub struct Line {
    pub number: usize,
    pub start: Minute,
    pub end: Minute,
    pub alarm: bool,
    pub moved: bool,
    pub text: Stretch,
}

// The next occurrence, or none up to the last day; and how many days were looked at, from the asked day through the found one.
#[derive(Clone, Copy)]
pub struct Search {
    pub day: Option<CalendarDay>,
    pub looked: u32,
}
