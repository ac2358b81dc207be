// Day pages and the next occurrence. The short-month choice comes as a flag: whether a missing day shows on the month's last day.
ghost use Rattle.std.specs.Prelude.{◌≡◌};
ghost use Rattle.marshal.specs.PageAnswers.{choice_of, falling_out, falls_out, page_line_out, search_out, next_out};

use days::types::CalendarDay;
use falls::types::{Falling, ShortMonth};
use pages::types::{Line, Search};
use prelude::refusals::Refusal;

#[repr(C)]
#[derive(Clone, Copy, Default)]
pub struct FallsOut {
    pub number: u32,
    pub place: usize,
    pub falls: u16,
}

#[repr(C)]
#[derive(Clone, Copy, Default)]
pub struct PageLineOut {
    pub number: u32,
    pub place: usize,
    pub record: usize,
    pub text_at: usize,
    pub text_length: usize,
    pub start: u16,
    pub end: u16,
    pub alarm: bool,
    pub moved: bool,
}

#[repr(C)]
#[derive(Clone, Copy, Default)]
pub struct OccurrenceOut {
    pub number: u32,
    pub place: usize,
    pub looked: u32,
    pub day: u16,
    pub found: bool,
}

// Kept: functions, no `From`, since neither bool nor ShortMonth is of this crate.
pub fn choice_of(last: bool) -> ShortMonth
    ensures { result ≡ choice_of last }
{
    if last {
        ShortMonth::Last
    } else {
        ShortMonth::Skip
    }
}

// The flag that names a choice.
pub fn last_of(c: ShortMonth) -> bool
    ensures { choice_of result ≡ c }
{
    match c {
        ShortMonth::Skip => false,
        ShortMonth::Last => true,
    }
}

// Kept: a function, no `From`, since neither u16 nor Falling is of this crate; and no `as`, since the header's numbers would hang on the order of variants in falls.
#[tactic(auto, unfolding(crate::specs::PageAnswers::falling_out))]
fn falling_out(f: Falling) -> u16
    ensures { result ≡ falling_out f }
{
    match f {
        Falling::No => 0,
        Falling::Own => 1,
        Falling::Moved => 2,
    }
}

impl From<Result<Falling, Refusal>> for FallsOut {
    ghost from_gives = { λ a r. r ≡ falls_out a };

    #[tactic(auto, unfolding(crate::specs::PageAnswers::falls_out))]
    fn from(a: Result<Falling, Refusal>) -> FallsOut {
        match a {
            Ok(f) => FallsOut {
                falls: falling_out(f),
                ..FallsOut::default()
            },
            Err(e) => FallsOut {
                number: e.number,
                place: e.place,
                ..FallsOut::default()
            },
        }
    }
}

impl From<Result<Line, Refusal>> for PageLineOut {
    ghost from_gives = { λ a r. r ≡ page_line_out a };

    #[tactic(auto, unfolding(crate::specs::PageAnswers::page_line_out))]
    fn from(a: Result<Line, Refusal>) -> PageLineOut {
        match a {
            Ok(l) => PageLineOut {
                record: l.number,
                text_at: l.text.place,
                text_length: l.text.length,
                start: l.start.0,
                end: l.end.0,
                alarm: l.alarm,
                moved: l.moved,
                ..PageLineOut::default()
            },
            Err(e) => PageLineOut {
                number: e.number,
                place: e.place,
                ..PageLineOut::default()
            },
        }
    }
}

// Found, or none with the days looked at.
#[tactic(auto, unfolding(crate::specs::PageAnswers::search_out))]
fn search_out(looked: u32, day: Option<CalendarDay>) -> OccurrenceOut
    ensures { result ≡ search_out looked day }
{
    match day {
        Some(n) => OccurrenceOut {
            looked,
            day: n.0,
            found: true,
            ..OccurrenceOut::default()
        },
        None => OccurrenceOut {
            looked,
            day: 0,
            found: false,
            ..OccurrenceOut::default()
        },
    }
}

impl From<Result<Search, Refusal>> for OccurrenceOut {
    ghost from_gives = { λ a r. r ≡ next_out a };

    #[tactic(auto, unfolding(crate::specs::PageAnswers::next_out))]
    fn from(a: Result<Search, Refusal>) -> OccurrenceOut {
        match a {
            Ok(s) => search_out(s.looked, s.day),
            Err(e) => OccurrenceOut {
                number: e.number,
                place: e.place,
                ..OccurrenceOut::default()
            },
        }
    }
}
