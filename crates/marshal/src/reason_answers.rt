// Why a record is on a day or not: the reason as one of the header's numbers, 0 only on a refusal.
ghost use Rattle.std.specs.Prelude.{◌≡◌};
ghost use Rattle.marshal.specs.ReasonAnswers.{reason_number, reason_out};

use prelude::refusals::Refusal;
use reasons::types::Reason;

#[repr(C)]
#[derive(Clone, Copy, Default)]
pub struct ReasonOut {
    pub number: u32,
    pub place: usize,
    pub reason: u16,
}

// Kept: a function, no `From`, since neither u16 nor Reason is of this crate; and no `as`, since the header's numbers would hang on the order of variants in reasons.
#[tactic(auto, unfolding(crate::specs::ReasonAnswers::reason_number))]
fn reason_number(q: Reason) -> u16
    ensures { result ≡ reason_number q }
{
    match q {
        Reason::OwnDay => 1,
        Reason::Moved => 2,
        Reason::IsToDo => 3,
        Reason::BeforeStart => 4,
        Reason::AfterEnd => 5,
        Reason::WrongMonth => 6,
        Reason::MonthTooShort => 7,
        Reason::WrongDay => 8,
        Reason::WrongWeekday => 9,
        Reason::WrongWeek => 10,
    }
}

impl From<Result<Reason, Refusal>> for ReasonOut {
    ghost from_gives = { λ a r. r ≡ reason_out a };

    #[tactic(auto, unfolding(crate::specs::ReasonAnswers::reason_out))]
    fn from(a: Result<Reason, Refusal>) -> ReasonOut {
        match a {
            Ok(q) => ReasonOut {
                reason: reason_number(q),
                ..ReasonOut::default()
            },
            Err(e) => ReasonOut {
                number: e.number,
                place: e.place,
                ..ReasonOut::default()
            },
        }
    }
}
