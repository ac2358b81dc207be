// A record across C: one struct for all six kinds. What a kind does not have is 0.
ghost use Rattle.std.specs.Prelude.{◌≡◌};
ghost use Rattle.marshal.specs.RecordAnswers.{no_date, record_with, refused_out};

use book::types::Entry;
use days::types::Date;

#[repr(C)]
#[derive(Clone, Copy, Default)]
pub struct RecordOut {
    pub number: u32,
    pub place: usize,
    pub at: usize,
    pub text_at: usize,
    pub text_length: usize,
    pub note_at: usize,
    pub note_length: usize,
    pub kind: u16,
    pub weekday: u16,
    pub week: u16,
    pub month: u16,
    pub day: u16,
    pub priority: u16,
    pub start: u16,
    pub end: u16,
    pub lead: u16,
    pub first_year: u16,
    pub first_month: u16,
    pub first_day: u16,
    pub last_year: u16,
    pub last_month: u16,
    pub last_day: u16,
    pub check_off_year: u16,
    pub check_off_month: u16,
    pub check_off_day: u16,
    pub flag: bool,
    pub checked_off: bool,
}

// The numbers that some kinds of records have and others have not.
#[derive(Clone, Copy, Default)]
pub struct Numbers {
    pub weekday: u16,
    pub week: u16,
    pub month: u16,
    pub day: u16,
    pub priority: u16,
    pub start: u16,
    pub end: u16,
    pub lead: u16,
}

// Kept: the arguments are those of the definition `record_with`: a check-off date goes beside the flag that it is there.
#[tactic(auto, unfolding(crate::specs::RecordAnswers::record_with))]
pub fn record_with(
    e: Entry,
    kind: u16,
    n: Numbers,
    first: Date,
    last: Date,
    on: Date,
    flag: bool,
    checked_off: bool,
) -> RecordOut
    ensures { result ≡ record_with e kind n first last on flag checked_off }
{
    RecordOut {
        number: 0,
        place: 0,
        at: e.place,
        text_at: e.text.place,
        text_length: e.text.length,
        note_at: e.note.place,
        note_length: e.note.length,
        kind,
        weekday: n.weekday,
        week: n.week,
        month: n.month,
        day: n.day,
        priority: n.priority,
        start: n.start,
        end: n.end,
        lead: n.lead,
        first_year: first.year,
        first_month: first.month,
        first_day: first.day,
        last_year: last.year,
        last_month: last.month,
        last_day: last.day,
        check_off_year: on.year,
        check_off_month: on.month,
        check_off_day: on.day,
        flag,
        checked_off,
    }
}

// Kept: zeros for no date, as include/apptbook.h says.
pub fn no_date() -> Date
    ensures { result ≡ no_date }
{
    Date {
        year: 0,
        month: 0,
        day: 0,
    }
}

#[tactic(auto, unfolding(crate::specs::RecordAnswers::refused_out))]
pub fn refused_out(number: u32, place: usize) -> RecordOut
    ensures { result ≡ refused_out number place }
{
    RecordOut {
        number,
        place,
        ..RecordOut::default()
    }
}
