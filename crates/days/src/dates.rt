// Month lengths, real dates and their order.
ghost use Rattle.std.specs.Prelude.{◌≡◌};
ghost use Rattle.days.specs.Dates.{leap, month_length, real, before as before_of};
ghost use Rattle.days.specs.Answers.{length_answer};

use crate::types::{Date, FIRST_YEAR, LAST_YEAR};
use prelude::refusals::Refusal;
use prelude::refused::OUT_OF_RANGE;

fn is_leap(year: u16) -> bool
    ensures { result ≡ leap year }
{
    year % 4 == 0 && (year % 100 != 0 || year % 400 == 0)
}

// The days of a month of any year; 0 for a number that is no month.
// Kept: the guard, since with `1..=12 => 31` or all months of 31 days in a pattern the compiler asks for these first, and a date takes 0.28 mispredicted branches more (cachegrind, docs/SPEED.md).
// Kept: that 0, as the clause says (`month_length`), for any number of a month; `is_real` and the call `month_length` test the month first.
pub fn month_days(year: u16, month: u16) -> u16
    ensures { result ≡ month_length year month }
{
    match month {
        2 => 28 + u16::from(is_leap(year)),
        4 | 6 | 9 | 11 => 30,
        _ if (1..=12).contains(&month) => 31,
        _ => 0,
    }
}

// The days of a month of the years 1980 to 2099.
pub fn month_length(year: u16, month: u16) -> Result<u16, Refusal>
    ensures { result ≡ length_answer year month }
{
    if (FIRST_YEAR..=LAST_YEAR).contains(&year) && (1..=12).contains(&month) {
        Ok(month_days(year, month))
    } else {
        Err(OUT_OF_RANGE)
    }
}

// Whether a date is real, 1980 to 2099.
pub fn is_real(d: Date) -> bool
    ensures { result ≡ real d }
{
    (FIRST_YEAR..=LAST_YEAR).contains(&d.year)
        && (1..=12).contains(&d.month)
        && (1..=month_days(d.year, d.month)).contains(&d.day)
}

// Whether a comes before b, field by field.
// Kept: a name for `<`, since docs/PROMISES.md names it, and the edit order_reversed is on it.
pub fn before(a: Date, b: Date) -> bool
    ensures { result ≡ before_of a b }
{
    a < b
}
