// The writing state, as it goes in and as it comes back.
ghost use Rattle.std.specs.Prelude.{◌≡◌};
ghost use Rattle.marshal.specs.WriterStates.{writer_out, writer_in};

use writer::types::{WriteRefusal, Writer};

#[repr(C)]
#[derive(Clone, Copy)]
pub struct WriterOut {
    pub number: u32,
    pub place: usize,
    pub used: usize,
    pub closed: bool,
}

impl From<Result<Writer, WriteRefusal>> for WriterOut {
    ghost from_gives = { λ a r. r ≡ writer_out a };

    #[tactic(auto, unfolding(crate::specs::WriterStates::writer_out))]
    fn from(a: Result<Writer, WriteRefusal>) -> WriterOut {
        match a {
            Ok(w) => WriterOut {
                number: 0,
                place: 0,
                used: w.used,
                closed: w.closed,
            },
            Err(e) => WriterOut {
                number: e.refusal.number,
                place: e.refusal.place,
                used: e.writer.used,
                closed: e.writer.closed,
            },
        }
    }
}

// On the way in number and place are not read.
impl From<WriterOut> for Writer {
    ghost from_gives = { λ a r. r ≡ writer_in a };

    #[tactic(auto, unfolding(crate::specs::WriterStates::writer_in))]
    fn from(state: WriterOut) -> Writer {
        Writer {
            used: state.used,
            closed: state.closed,
        }
    }
}
