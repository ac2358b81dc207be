// The facts of a day, as they come back and as a caller hands them over.
ghost use Rattle.std.specs.Prelude.{◌≡◌};
ghost use Rattle.marshal.specs.DayAnswers.{facts_out, facts_in};

use days::types::{CalendarDay, Date, DayFacts};
use prelude::refusals::Refusal;

#[repr(C)]
#[derive(Clone, Copy, Default)]
pub struct FactsOut {
    pub number: u32,
    pub place: usize,
    pub calendar_day: u16,
    pub year: u16,
    pub month: u16,
    pub day: u16,
    pub weekday: u16,
    pub month_length: u16,
}

impl From<Result<DayFacts, Refusal>> for FactsOut {
    ghost from_gives = { λ a r. r ≡ facts_out a };

    #[tactic(auto, unfolding(crate::specs::DayAnswers::facts_out))]
    fn from(a: Result<DayFacts, Refusal>) -> FactsOut {
        match a {
            Ok(f) => FactsOut {
                calendar_day: f.day.0,
                year: f.date.year,
                month: f.date.month,
                day: f.date.day,
                weekday: f.weekday,
                month_length: f.length,
                ..FactsOut::default()
            },
            Err(e) => FactsOut {
                number: e.number,
                place: e.place,
                ..FactsOut::default()
            },
        }
    }
}

// On the way in number and place are not read.
impl From<FactsOut> for DayFacts {
    ghost from_gives = { λ a r. r ≡ facts_in a };

    #[tactic(auto, unfolding(crate::specs::DayAnswers::facts_in))]
    fn from(facts: FactsOut) -> DayFacts {
        DayFacts {
            day: CalendarDay(facts.calendar_day),
            date: Date {
                year: facts.year,
                month: facts.month,
                day: facts.day,
            },
            weekday: facts.weekday,
            length: facts.month_length,
        }
    }
}
