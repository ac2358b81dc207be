// The rules of a list of cancelled days, judged in one pass beside a walk over the records.
#![tactic(auto, using(falls::proofs::Laws::Tests::choices, crate::proofs::Laws::Judging::is_seventeenth, crate::proofs::Laws::Judging::rises_up_next), unfolding(crate::specs::Cancelled::rises_at, crate::specs::Judging::out_of_order, crate::specs::Judging::repeated_type))]

ghost use Rattle.std.specs.Prelude.{◌≡◌, false, ◌+◌, ◌<◌, ◌≤◌, length};
ghost use Rattle.prelude.specs.Choice.{if_lt};
ghost use Rattle.days.specs.Days.{last_day};
ghost use Rattle.days.specs.Facts.{facts_of};
ghost use Rattle.records.specs.Fields.{record_of};
ghost use Rattle.book.specs.Books.{entry_at, places_of};
ghost use Rattle.book.specs.Settings.{first_record};
ghost use Rattle.falls.specs.Falls.{falls};
ghost use Rattle.cancelled.specs.Cancelled.{rises_at, is_beyond, may_cancel, list_verdict};
ghost use Rattle.cancelled.specs.Judging.{RisesUpTo, out_of_order, repeated_type};

use crate::codes::{cancelled_day, cancelled_number};
use book::entries::place_from;
use book::located::RecordRef;
use book::settings::FIRST_RECORD;
use days::facts::facts_of_day;
use days::types::CalendarDay;
use falls::rules::falls_on;
use falls::types::ShortMonth;
use prelude::refusals::{Fault, Refusal};

// So many days may be cancelled of a record.
const MOST_CANCELLED: usize = 16;

// Whether an entry is above the one before it.
// Kept: the list and a place in it, here and below: a struct of both would be built at each entry, for three calls that index.
fn rises_at(list: &[u32], i: usize) -> bool
    requires { i < length list.now }
    ensures { result ≡ rises_at list.now i }
{
    i == 0 || list[i - 1] < list[i]
}

// Whether it is a record's seventeenth: then the entry 16 places before it is of that record, too.
fn is_beyond(list: &[u32], i: usize) -> bool
    requires i_in_bounds { i < length list.now }
    requires rises_up_to { RisesUpTo list.now (i + 1) }
    ensures { result ≡ is_beyond list.now i }
{
    i >= MOST_CANCELLED && cancelled_number(list[i - MOST_CANCELLED]) == cancelled_number(list[i])
}

// What is asked of an entry before its record is looked at, in a book of that many.
fn out_of_order(list: &[u32], i: usize, records: usize) -> bool
    requires i_in_bounds { i < length list.now }
    requires rises_up_to { RisesUpTo list.now i }
    ensures { result ≡ out_of_order records list.now i }
{
    !rises_at(list, i) || cancelled_number(list[i]) >= records || is_beyond(list, i)
}

// Whether a record's type is one that repeats.
fn repeats(t: u8) -> bool
    ensures { result ≡ repeated_type t }
{
    matches!(t, 2..=5)
}

// Whether the record of a type 1 to 6 with that body falls on a day under last.
// Kept: `t` is a byte here and above, since the contracts speak of every byte (`record_of` takes all but 1 to 5 for a to-do); `t` and `p` are no struct, which would be built at each call, from `kind` and `body` of a `RecordRef` or from `byte` and `body_from`.
fn falls_under_last(n: CalendarDay, t: u8, p: &[u8]) -> bool
    ensures { result ≡ if_lt last_day n.0 false (falls ShortMonth.Last (facts_of n.0) (record_of t p.now)) }
{
    match facts_of_day(n) {
        Ok(f) => falls_on(ShortMonth::Last, f, t, p),
        Err(_) => false,
    }
}

// Whether a day of a record may be cancelled.
fn may_cancel(here: RecordRef<'_>, day: u16) -> bool
    ensures { result ≡ may_cancel (entry_at here.entry.file.now here.entry.at).«record» day }
{
    let t = here.kind();
    repeats(t) && falls_under_last(CalendarDay(day), t, here.body())
}

// The verdict on a list beside a book of that many records: 43 at the first entry that is bad.
pub fn judge_list(file: &[u8], records: usize, list: &[u32]) -> Result<(), Refusal>
    requires first_record_in_bounds { first_record ≤ length file.now }
    requires records_value { records ≡ length (places_of file.now) }
    ensures { result ≡ list_verdict file.now list.now }
{
    let mut n: usize = 0;
    let mut at: usize = FIRST_RECORD;
    for (i, &entry) in list.iter().enumerate() {
        if out_of_order(list, i, records) {
            return Err(Fault::BadCancelled.at(i));
        }
        let k = cancelled_number(entry);
        at = place_from(file, n, at, k);
        n = k;
        if !may_cancel(RecordRef { file, at }, cancelled_day(entry)) {
            return Err(Fault::BadCancelled.at(i));
        }
    }
    Ok(())
}
