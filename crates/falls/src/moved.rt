// Whether a record falls on a day, and if so whether it was moved there because its own day is missing from the month.
ghost use Rattle.std.specs.Prelude.{◌≡◌, true, false};
ghost use Rattle.prelude.specs.Choice.{if_lt};
ghost use Rattle.records.specs.Fields.{record_of};
ghost use Rattle.falls.specs.Moved.{named_day, day_missing, falling};

use crate::rules::falls_on;
use crate::types::{Falling, ShortMonth};
use days::types::DayFacts;
use prelude::slices::byte;

// The day of the month that the record of a type 1 to 6 with that body names, or 0.
// Kept: `t` is a byte here and below, since the contracts speak of every byte (`record_of` takes all but 1 to 5 for a to-do); `t` and `p` are no struct, which would be built at each call, from `kind` and `body` of a `RecordRef` or from `byte` and `body_from`.
// Kept: 0 for no named day, which no month lacks, so that nobody tests for it (`named_day`, `lacks`).
#[tactic(auto, using(crate::proofs::Laws::Tests::choices, crate::proofs::Laws::Moved::named_type))]
pub fn named_day(t: u8, p: &[u8]) -> u16
    ensures { result ≡ named_day (record_of t p.now) }
{
    match t {
        3 => u16::from(byte(p, 1)),
        5 => u16::from(byte(p, 2)),
        _ => 0,
    }
}

// Whether the month has no such day.
#[tactic(auto, using(crate::proofs::Laws::Tests::choices))]
pub fn lacks(f: DayFacts, day: u16) -> bool
    ensures { result ≡ if_lt f.length day true false }
{
    f.length < day
}

// Whether the day that the record names is missing from the month.
#[tactic(auto, unfolding(crate::specs::Moved::day_missing))]
pub fn day_missing(f: DayFacts, t: u8, p: &[u8]) -> bool
    ensures { result ≡ day_missing f (record_of t p.now) }
{
    lacks(f, named_day(t, p))
}

// Whether that record falls on a day: not, on its own day, or moved.
#[tactic(auto, using(crate::proofs::Laws::Tests::choices), unfolding(crate::specs::Moved::falling))]
pub fn falling_on(c: ShortMonth, f: DayFacts, t: u8, p: &[u8]) -> Falling
    ensures { result ≡ falling c f (record_of t p.now) }
{
    if !falls_on(c, f, t, p) {
        Falling::No
    } else if day_missing(f, t, p) {
        Falling::Moved
    } else {
        Falling::Own
    }
}
