// When a record's fields are in range: one judge a kind, for reading and for writing.
ghost use Rattle.std.specs.Prelude.{◌≡◌};
ghost use Rattle.records.specs.Ranges.{times_ok, dated_ok, repeat_ok, weekly_ok, monthly_by_date_ok, monthly_by_position_ok, yearly_ok, check_off_ok, to_do_ok, record_ok, check_off_clean};

use crate::fields::bit_1;
use crate::types::{Dated, MonthlyByDate, MonthlyByPosition, Record, Repeat, ToDo, Weekly, Yearly};
use days::dates::{before, is_real, month_days};
use days::types::{Date, LAST_MINUTE};
use prelude::slices::byte;

pub const MOST_LEAD: u16 = 30;

fn times_ok(start: u16, end: u16, lead: u16) -> bool
    ensures { result ≡ times_ok start end lead }
{
    start <= LAST_MINUTE && end <= LAST_MINUTE && start <= end && lead <= MOST_LEAD
}

pub fn dated_ok(d: Dated) -> bool
    ensures { result ≡ dated_ok d }
{
    is_real(d.date) && times_ok(d.start.0, d.end.0, d.lead)
}

// Kept: `before` and no `<=`, here and in falls: crates above know the order of dates by the contract of days alone.
fn repeat_ok(r: Repeat) -> bool
    ensures { result ≡ repeat_ok r }
{
    is_real(r.first)
        && is_real(r.last)
        && !before(r.last, r.first)
        && times_ok(r.start.0, r.end.0, r.lead)
}

pub fn weekly_ok(w: Weekly) -> bool
    ensures { result ≡ weekly_ok w }
{
    (1..=7).contains(&w.weekday) && repeat_ok(w.repeat)
}

pub fn monthly_by_date_ok(m: MonthlyByDate) -> bool
    ensures { result ≡ monthly_by_date_ok m }
{
    (1..=31).contains(&m.day) && repeat_ok(m.repeat)
}

pub fn monthly_by_position_ok(m: MonthlyByPosition) -> bool
    ensures { result ≡ monthly_by_position_ok m }
{
    (1..=5).contains(&m.week) && (1..=7).contains(&m.weekday) && repeat_ok(m.repeat)
}

pub fn yearly_ok(y: Yearly) -> bool
    ensures { result ≡ yearly_ok y }
{
    (1..=month_days(2000, y.month)).contains(&y.day) && repeat_ok(y.repeat)
}

// A date is taken out of a check-off; otherwise it is not checked off, which is always fine.
#[tactic(auto, unfolding(crate::specs::Ranges::check_off_ok))]
fn check_off_ok(c: Option<Date>) -> bool
    ensures { result ≡ check_off_ok c }
{
    let Some(date) = c else {
        return true;
    };
    is_real(date)
}

pub fn to_do_ok(t: ToDo) -> bool
    ensures { result ≡ to_do_ok t }
{
    (1..=9).contains(&t.priority) && is_real(t.start) && check_off_ok(t.check_off)
}

pub fn record_ok(r: Record) -> bool
    ensures { result ≡ record_ok r }
{
    match r {
        Record::Dated(d) => dated_ok(d),
        Record::Weekly(w) => weekly_ok(w),
        Record::MonthlyByDate(m) => monthly_by_date_ok(m),
        Record::MonthlyByPosition(m) => monthly_by_position_ok(m),
        Record::Yearly(y) => yearly_ok(y),
        Record::ToDo(t) => to_do_ok(t),
    }
}

// A to-do that is not checked off has three zeros for its check-off date.
pub fn check_off_clean(p: &[u8]) -> bool
    ensures { result ≡ check_off_clean p.now }
{
    bit_1(p) || [byte(p, 5), byte(p, 6), byte(p, 7)] == [0; 3]
}
