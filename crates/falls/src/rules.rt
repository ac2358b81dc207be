// The rules of the six kinds, each asked of a record and the facts of a day.
#![tactic(auto, using(crate::proofs::Laws::Tests::choices), unfolding(crate::specs::Falls::dated_falls, crate::specs::Falls::in_span, crate::specs::Falls::weekly_falls, crate::specs::Falls::by_position_falls, crate::specs::Falls::on_missing_day, crate::specs::Falls::on_day, crate::specs::Falls::by_date_falls, crate::specs::Falls::yearly_falls, crate::specs::Agrees::agrees))]

ghost use Rattle.std.specs.Prelude.{◌≡◌, ◌+◌, ◌-◌, ◌/◌};
ghost use Rattle.records.specs.Fields.{record_of};
ghost use Rattle.falls.specs.Agrees.{agrees as agrees_of};
ghost use Rattle.falls.specs.Falls.{dated_falls, in_span, weekly_falls, by_position_falls, on_missing_day, on_day, by_date_falls, yearly_falls, falls};

use crate::types::ShortMonth;
use days::dates::before;
use days::types::DayFacts;
use prelude::slices::byte;
use records::fields::{dated_of, monthly_by_date_of, monthly_by_position_of, weekly_of, yearly_of};
use records::types::{Dated, MonthlyByDate, MonthlyByPosition, Repeat, Weekly, Yearly};

fn dated_falls(f: DayFacts, d: Dated) -> bool
    ensures { result ≡ dated_falls f d }
{
    f.date == d.date
}

fn in_span(f: DayFacts, p: Repeat) -> bool
    ensures { result ≡ in_span f p }
{
    !before(f.date, p.first) && !before(p.last, f.date)
}

fn weekly_falls(f: DayFacts, w: Weekly) -> bool
    ensures { result ≡ weekly_falls f w }
{
    f.weekday == w.weekday && in_span(f, w.repeat)
}

// The week of the month that a day of the month lies in.
fn week_of_month(day: u16) -> u16
    ensures { result ≡ (day - 1) / 7 + 1 }
{
    day.saturating_sub(1) / 7 + 1
}

fn by_position_falls(f: DayFacts, m: MonthlyByPosition) -> bool
    ensures { result ≡ by_position_falls f m }
{
    f.weekday == m.weekday && week_of_month(f.date.day) == m.week && in_span(f, m.repeat)
}

// Where the month is too short for the day asked for.
fn on_missing_day(c: ShortMonth, f: DayFacts) -> bool
    ensures { result ≡ on_missing_day c f }
{
    match c {
        ShortMonth::Skip => false,
        ShortMonth::Last => f.date.day == f.length,
    }
}

fn on_day(c: ShortMonth, f: DayFacts, day: u16) -> bool
    ensures { result ≡ on_day c f day }
{
    if f.length < day {
        on_missing_day(c, f)
    } else {
        f.date.day == day
    }
}

fn by_date_falls(c: ShortMonth, f: DayFacts, m: MonthlyByDate) -> bool
    ensures { result ≡ by_date_falls c f m }
{
    on_day(c, f, m.day) && in_span(f, m.repeat)
}

fn yearly_falls(c: ShortMonth, f: DayFacts, y: Yearly) -> bool
    ensures { result ≡ yearly_falls c f y }
{
    f.date.month == y.month && on_day(c, f, y.day) && in_span(f, y.repeat)
}

// Whether the record of a type 1 to 6 with that body falls on a day.
// Kept: `t` is a byte here and below, since the contracts speak of every byte (`record_of` takes all but 1 to 5 for a to-do); `t` and `p` are no struct, which would be built at each call, from `kind` and `body` of a `RecordRef` or from `byte` and `body_from`; choice and facts (c, f) go side by side, as each test of a rule takes one or both.
#[tactic(auto, using(crate::proofs::Laws::Tests::choices, crate::proofs::Laws::Falls::falls_type))]
pub fn falls_on(c: ShortMonth, f: DayFacts, t: u8, p: &[u8]) -> bool
    ensures { result ≡ falls c f (record_of t p.now) }
{
    match t {
        1 => dated_falls(f, dated_of(p)),
        2 => weekly_falls(f, weekly_of(p)),
        3 => by_date_falls(c, f, monthly_by_date_of(p)),
        4 => by_position_falls(f, monthly_by_position_of(p)),
        5 => yearly_falls(c, f, yearly_of(p)),
        _ => false,
    }
}

// Whether the byte agrees on which most days fail.
fn agrees(c: ShortMonth, f: DayFacts, t: u8, p: &[u8]) -> bool
    ensures { result ≡ agrees_of c f t p.now }
{
    match t {
        1 => f.date.day == u16::from(byte(p, 3)),
        2 => f.weekday == u16::from(byte(p, 1)),
        3 => on_day(c, f, u16::from(byte(p, 1))),
        4 => f.weekday == u16::from(byte(p, 2)),
        5 => f.date.month == u16::from(byte(p, 1)),
        _ => false,
    }
}

// As `falls_on`, for one who asks often: the body is read whole only where that byte agrees.
#[tactic(auto, using(crate::proofs::Laws::Agrees::agrees_no))]
pub fn falls_quickly(c: ShortMonth, f: DayFacts, t: u8, p: &[u8]) -> bool
    ensures { result ≡ falls c f (record_of t p.now) }
{
    agrees(c, f, t, p) && falls_on(c, f, t, p)
}
