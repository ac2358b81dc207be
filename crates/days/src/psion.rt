// Calendar days from Psion days and back, document 01: Psion counts ten years off.
ghost use Rattle.std.specs.Prelude.{◌≡◌};
ghost use Rattle.days.specs.Answers.{calendar_of_psion, psion_of_calendar};

use crate::types::{CalendarDay, PsionDay};
use prelude::refusals::Refusal;
use prelude::refused::OUT_OF_RANGE;

// The Psion days of 1 January 1980 and of 31 December 2049.
const FIRST: u16 = 3652;

const LAST: u16 = 29219;

// Kept: here and below "conversion is a named function" (document 01, of the counts that are kept apart): no `TryFrom`.
pub fn calendar_of_psion(p: PsionDay) -> Result<CalendarDay, Refusal>
    ensures { result ≡ calendar_of_psion p }
{
    if (FIRST..=LAST).contains(&p.0) {
        Ok(CalendarDay(p.0 - FIRST))
    } else {
        Err(OUT_OF_RANGE)
    }
}

pub fn psion_of_calendar(n: CalendarDay) -> Result<PsionDay, Refusal>
    ensures { result ≡ psion_of_calendar n }
{
    if n.0 <= LAST - FIRST {
        Ok(PsionDay(n.0 + FIRST))
    } else {
        Err(OUT_OF_RANGE)
    }
}
