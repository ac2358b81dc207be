// Days. Each answer begins with the refusal's number, 0 where there is none, and its place; on a refusal its values are 0.
ghost use Rattle.std.specs.Prelude.{◌≡◌};
ghost use Rattle.marshal.specs.DayAnswers.{length_out, day_out, psion_out, date_out, weekday_out};

use days::types::{CalendarDay, Date, PsionDay};
use prelude::refusals::Refusal;

#[repr(C)]
#[derive(Clone, Copy, Default)]
pub struct LengthOut {
    pub number: u32,
    pub place: usize,
    pub length: u16,
}

#[repr(C)]
#[derive(Clone, Copy, Default)]
pub struct DayOut {
    pub number: u32,
    pub place: usize,
    pub day: u16,
}

#[repr(C)]
#[derive(Clone, Copy, Default)]
pub struct DateOut {
    pub number: u32,
    pub place: usize,
    pub year: u16,
    pub month: u16,
    pub day: u16,
}

#[repr(C)]
#[derive(Clone, Copy, Default)]
pub struct WeekdayOut {
    pub number: u32,
    pub place: usize,
    pub weekday: u16,
}

impl From<Result<u16, Refusal>> for LengthOut {
    ghost from_gives = { λ a r. r ≡ length_out a };

    #[tactic(auto, unfolding(crate::specs::DayAnswers::length_out))]
    fn from(a: Result<u16, Refusal>) -> LengthOut {
        match a {
            Ok(length) => LengthOut {
                length,
                ..LengthOut::default()
            },
            Err(e) => LengthOut {
                number: e.number,
                place: e.place,
                ..LengthOut::default()
            },
        }
    }
}

impl From<Result<CalendarDay, Refusal>> for DayOut {
    ghost from_gives = { λ a r. r ≡ day_out a };

    #[tactic(auto, unfolding(crate::specs::DayAnswers::day_out))]
    fn from(a: Result<CalendarDay, Refusal>) -> DayOut {
        match a {
            Ok(n) => DayOut {
                day: n.0,
                ..DayOut::default()
            },
            Err(e) => DayOut {
                number: e.number,
                place: e.place,
                ..DayOut::default()
            },
        }
    }
}

// Kept: beside the one above: a trait over both kinds of day, with its law, would be longer than both.
impl From<Result<PsionDay, Refusal>> for DayOut {
    ghost from_gives = { λ a r. r ≡ psion_out a };

    #[tactic(auto, unfolding(crate::specs::DayAnswers::psion_out))]
    fn from(a: Result<PsionDay, Refusal>) -> DayOut {
        match a {
            Ok(p) => DayOut {
                day: p.0,
                ..DayOut::default()
            },
            Err(e) => DayOut {
                number: e.number,
                place: e.place,
                ..DayOut::default()
            },
        }
    }
}

impl From<Result<Date, Refusal>> for DateOut {
    ghost from_gives = { λ a r. r ≡ date_out a };

    #[tactic(auto, unfolding(crate::specs::DayAnswers::date_out))]
    fn from(a: Result<Date, Refusal>) -> DateOut {
        match a {
            Ok(d) => DateOut {
                year: d.year,
                month: d.month,
                day: d.day,
                ..DateOut::default()
            },
            Err(e) => DateOut {
                number: e.number,
                place: e.place,
                ..DateOut::default()
            },
        }
    }
}

impl From<Result<u16, Refusal>> for WeekdayOut {
    ghost from_gives = { λ a r. r ≡ weekday_out a };

    #[tactic(auto, unfolding(crate::specs::DayAnswers::weekday_out))]
    fn from(a: Result<u16, Refusal>) -> WeekdayOut {
        match a {
            Ok(weekday) => WeekdayOut {
                weekday,
                ..WeekdayOut::default()
            },
            Err(e) => WeekdayOut {
                number: e.number,
                place: e.place,
                ..WeekdayOut::default()
            },
        }
    }
}
