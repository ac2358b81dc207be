// Books and the lines of notes; settings go in as a book's answer has them. What an answer shows of a file are places in it.
ghost use Rattle.std.specs.Prelude.{◌≡◌};
ghost use Rattle.marshal.specs.BookAnswers.{book_out, line_out, settings_in};

use book::types::{Book, Settings};
use days::types::Minute;
use prelude::refusals::Refusal;
use prelude::slices::Stretch;

#[repr(C)]
#[derive(Clone, Copy, Default)]
pub struct BookOut {
    pub number: u32,
    pub place: usize,
    pub records: usize,
    pub start: u16,
    pub granularity: u16,
    pub lead: u16,
    pub alarm: bool,
    pub carry_forward: bool,
}

#[repr(C)]
#[derive(Clone, Copy, Default)]
pub struct LineOut {
    pub number: u32,
    pub place: usize,
    pub at: usize,
    pub length: usize,
}

impl From<Result<Book, Refusal>> for BookOut {
    ghost from_gives = { λ a r. r ≡ book_out a };

    #[tactic(auto, unfolding(crate::specs::BookAnswers::book_out))]
    fn from(a: Result<Book, Refusal>) -> BookOut {
        match a {
            Ok(b) => BookOut {
                records: b.records,
                start: b.settings.start.0,
                granularity: b.settings.granularity,
                lead: b.settings.lead,
                alarm: b.settings.alarm,
                carry_forward: b.settings.carry_forward,
                ..BookOut::default()
            },
            Err(e) => BookOut {
                number: e.number,
                place: e.place,
                ..BookOut::default()
            },
        }
    }
}

impl From<Result<Stretch, Refusal>> for LineOut {
    ghost from_gives = { λ a r. r ≡ line_out a };

    #[tactic(auto, unfolding(crate::specs::BookAnswers::line_out))]
    fn from(a: Result<Stretch, Refusal>) -> LineOut {
        match a {
            Ok(s) => LineOut {
                at: s.place,
                length: s.length,
                ..LineOut::default()
            },
            Err(e) => LineOut {
                number: e.number,
                place: e.place,
                ..LineOut::default()
            },
        }
    }
}

impl From<BookOut> for Settings {
    ghost from_gives = { λ a r. r ≡ settings_in a };

    #[tactic(auto, unfolding(crate::specs::BookAnswers::settings_in))]
    fn from(b: BookOut) -> Settings {
        Settings {
            start: Minute(b.start),
            granularity: b.granularity,
            alarm: b.alarm,
            lead: b.lead,
            carry_forward: b.carry_forward,
        }
    }
}
