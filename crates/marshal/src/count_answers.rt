// How many there are, were written or were stored.
ghost use Rattle.std.specs.Prelude.{◌≡◌};
ghost use Rattle.marshal.specs.CountAnswers.{count_out, list_out};

use prelude::refusals::{Fault, ListRefusal, Refusal};

#[repr(C)]
#[derive(Clone, Copy, Default)]
pub struct CountOut {
    pub number: u32,
    pub place: usize,
    pub count: usize,
}

impl From<Result<usize, Refusal>> for CountOut {
    ghost from_gives = { λ a r. r ≡ count_out a };

    #[tactic(auto, unfolding(crate::specs::CountAnswers::count_out))]
    fn from(a: Result<usize, Refusal>) -> CountOut {
        match a {
            Ok(count) => CountOut {
                count,
                ..CountOut::default()
            },
            Err(e) => CountOut {
                number: e.number,
                place: e.place,
                ..CountOut::default()
            },
        }
    }
}

// Where a list is too short, the refusal comes with the number needed.
impl From<Result<usize, ListRefusal>> for CountOut {
    ghost from_gives = { λ a r. r ≡ list_out a };

    #[tactic(auto, unfolding(crate::specs::CountAnswers::list_out))]
    fn from(a: Result<usize, ListRefusal>) -> CountOut {
        match a {
            Ok(count) => CountOut {
                count,
                ..CountOut::default()
            },
            Err(ListRefusal::Short(count)) => CountOut {
                number: Fault::NoRoom as u32,
                place: 0,
                count,
            },
            Err(ListRefusal::Refused(e)) => CountOut {
                number: e.number,
                place: e.place,
                ..CountOut::default()
            },
        }
    }
}
