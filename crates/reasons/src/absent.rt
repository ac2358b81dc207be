// Why a record is not on a day, by its kind: the tests that its kind can fail, in the request's order.
#![tactic(auto, using(falls::proofs::Laws::Tests::choices), unfolding(crate::specs::Kinds::outside_or, crate::specs::Kinds::weekday_reason, crate::specs::Kinds::ends_before, crate::specs::Kinds::too_short, crate::specs::Kinds::day_reason, crate::specs::Kinds::month_reason))]

ghost use Rattle.std.specs.Prelude.{◌≡◌};
ghost use Rattle.records.specs.Fields.{record_of};
ghost use Rattle.reasons.specs.Kinds.{outside_or, weekday_reason, ends_before, too_short, day_reason, month_reason};
ghost use Rattle.reasons.specs.Reasons.{absent_for};

use crate::types::Reason;
use days::dates::before;
use days::types::{Date, DayFacts};
use falls::moved::lacks;
use falls::types::ShortMonth;
use records::fields::{dated_of, monthly_by_date_of, monthly_by_position_of, weekly_of, yearly_of};
use records::types::{MonthlyByDate, MonthlyByPosition, Weekly, Yearly};

// Before the first date or after the last, or else the other reason.
fn outside_or(f: DayFacts, first: Date, last: Date, other: Reason) -> Reason
    ensures { result ≡ outside_or f first last other }
{
    if before(f.date, first) {
        Reason::BeforeStart
    } else if before(last, f.date) {
        Reason::AfterEnd
    } else {
        other
    }
}

fn weekday_reason(f: DayFacts, weekday: u16) -> Reason
    ensures { result ≡ weekday_reason f weekday }
{
    if f.weekday == weekday {
        Reason::WrongWeek
    } else {
        Reason::WrongWeekday
    }
}

// Whether the day stands at the end of a month that lacks the wanted one.
fn ends_before(f: DayFacts, day: u16) -> bool
    ensures { result ≡ ends_before f day }
{
    f.date.day == f.length && lacks(f, day)
}

// The same under skip, and never under last.
fn too_short(c: ShortMonth, f: DayFacts, day: u16) -> bool
    ensures { result ≡ too_short c f day }
{
    match c {
        ShortMonth::Skip => ends_before(f, day),
        ShortMonth::Last => false,
    }
}

fn day_reason(c: ShortMonth, f: DayFacts, day: u16) -> Reason
    ensures { result ≡ day_reason c f day }
{
    if too_short(c, f, day) {
        Reason::MonthTooShort
    } else if f.date.day == day {
        Reason::WrongWeek
    } else {
        Reason::WrongDay
    }
}

fn month_reason(c: ShortMonth, f: DayFacts, month: u16, day: u16) -> Reason
    ensures { result ≡ month_reason c f month day }
{
    if f.date.month == month {
        day_reason(c, f, day)
    } else {
        Reason::WrongMonth
    }
}

// Why the record of a type 1 to 6 with that body is not on a day.
// Kept: `t` is a byte here and below, since the contracts speak of every byte (`record_of` takes all but 1 to 5 for a to-do); `t` and `p` are no struct, which would be built at each call, from `kind` and `body` of a `RecordRef` or from `byte` and `body_from`.
#[tactic(auto, using(crate::proofs::Laws::Kinds::absent_by_type))]
pub fn absent(c: ShortMonth, f: DayFacts, t: u8, p: &[u8]) -> Reason
    ensures { result ≡ absent_for c f (record_of t p.now) }
{
    match t {
        1 => {
            let date = dated_of(p).date;
            outside_or(f, date, date, Reason::WrongWeek)
        }
        2 => {
            let Weekly { weekday, repeat } = weekly_of(p);
            outside_or(f, repeat.first, repeat.last, weekday_reason(f, weekday))
        }
        3 => {
            let MonthlyByDate { day, repeat } = monthly_by_date_of(p);
            outside_or(f, repeat.first, repeat.last, day_reason(c, f, day))
        }
        4 => {
            let MonthlyByPosition {
                weekday,
                repeat,
                ..
            } = monthly_by_position_of(p);
            outside_or(f, repeat.first, repeat.last, weekday_reason(f, weekday))
        }
        5 => {
            let Yearly { month, day, repeat } = yearly_of(p);
            outside_or(f, repeat.first, repeat.last, month_reason(c, f, month, day))
        }
        _ => Reason::IsToDo,
    }
}
