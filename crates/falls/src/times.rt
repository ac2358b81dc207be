// A record's times and alarm mark, read from its body.
ghost use Rattle.std.specs.Prelude.{◌≡◌};
ghost use Rattle.records.specs.Fields.{record_of};
ghost use Rattle.falls.specs.Times.{dated_times, repeat_times, times_of};

use crate::types::Times;
use days::types::Minute;
use prelude::slices::word_high;
use records::fields::{dated_of, monthly_by_date_of, monthly_by_position_of, weekly_of, yearly_of};
use records::types::{Dated, Repeat};

impl From<Dated> for Times {
    fn from(d: Dated) -> Times
        ensures { result ≡ dated_times d }
    {
        Times {
            start: d.start,
            end: d.end,
            alarm: d.alarm,
        }
    }
}

impl From<Repeat> for Times {
    fn from(p: Repeat) -> Times
        ensures { result ≡ repeat_times p }
    {
        Times {
            start: p.start,
            end: p.end,
            alarm: p.alarm,
        }
    }
}

// The times of the record of a type 1 to 6 with that body.
// Kept: `t` is a byte here and below, since the contracts speak of every byte (`record_of` takes all but 1 to 5 for a to-do); `t` and `p` are no struct, which would be built at each call, from `kind` and `body` of a `RecordRef` or from `byte` and `body_from`.
// Kept: zeros for a to-do, here and below, as the clauses say (`times_of`): it falls on no day, so that nobody reads them.
#[tactic(auto, using(crate::proofs::Laws::Tests::choices, crate::proofs::Laws::Falls::times_type))]
pub fn times_of(t: u8, p: &[u8]) -> Times
    ensures { result ≡ times_of (record_of t p.now) }
{
    match t {
        1 => Times::from(dated_of(p)),
        2 => Times::from(weekly_of(p).repeat),
        3 => Times::from(monthly_by_date_of(p).repeat),
        4 => Times::from(monthly_by_position_of(p).repeat),
        5 => Times::from(yearly_of(p).repeat),
        _ => Times {
            start: Minute(0),
            end: Minute(0),
            alarm: false,
        },
    }
}

// The start minute alone.
#[tactic(auto, using(crate::proofs::Laws::Tests::choices, crate::proofs::Laws::Falls::start_type))]
pub fn start_of(t: u8, p: &[u8]) -> Minute
    ensures { result ≡ (times_of (record_of t p.now)).start }
{
    match t {
        1 => Minute(word_high(p, 4)),
        2 | 3 => Minute(word_high(p, 2)),
        4 | 5 => Minute(word_high(p, 3)),
        _ => Minute(0),
    }
}
