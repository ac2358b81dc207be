// All that an export decides before its first byte is written: the span's range, then the two sizes.
ghost use Rattle.std.specs.Prelude.{◌≡◌};
ghost use Rattle.export.specs.Export.{span_ok, sized};

use calendar_writer::types::{MOST_COUNT, Measure};
use days::types::{DAYS, LAST_DAY};
use prelude::refusals::Refusal;
use prelude::refused::{NO_ROOM, TOO_MANY_BLOCKS};

pub fn span_ok(first: u16, count: u16) -> bool
    ensures { result ≡ span_ok first count }
{
    if LAST_DAY < first || MOST_COUNT < count {
        return false;
    }
    first + count <= DAYS
}

// The answer for a file of that measure.
pub fn answer_for(m: Measure, room: usize) -> Result<usize, Refusal>
    ensures { result ≡ sized room m.past_last_block m.length }
{
    if m.past_last_block {
        return Err(TOO_MANY_BLOCKS);
    }
    if room < m.length {
        return Err(NO_ROOM);
    }
    Ok(m.length)
}
