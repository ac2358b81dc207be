// Day numbers: the day of a date, the date and the weekday of a day.
ghost use Rattle.std.specs.Prelude.{◌≡◌, ◌+◌, ◌-◌, ◌*◌, ◌/◌, ◌<◌, ◌≤◌, Ok, Err};
ghost use Rattle.prelude.specs.Choice.{if_lt};
ghost use Rattle.prelude.specs.Refusals.{out_of_range, refusal};
ghost use Rattle.days.specs.Days.{day_number, date_of, weekday_of, last_day};
ghost use Rattle.days.specs.Dates.{RealDate};
ghost use Rattle.days.specs.Answers.{day_answer, date_answer, weekday_answer};

use crate::dates::is_real;
use crate::search::month_of;
use crate::types::{CalendarDay, Date, FIRST_YEAR, LAST_DAY};
use prelude::refusals::Refusal;
use prelude::refused::OUT_OF_RANGE;

// The days from 1 March 1976 to the first of a month, 3 = March to 14 = February. So counted each fourth year is a leap year up to 2099, and its leap day is its last.
fn days_from_march(years: u16, month: u16) -> u16
    requires years_bound { years < 124 }
    requires le_month { 3 ≤ month }
    requires month_bound { month ≤ 14 }
    ensures { result ≡ 365 * years + years / 4 + (979 * month - 2919) / 32 }
{
    365 * years + years / 4 + (979 * month - 2919) / 32
}

// The day of a real date, by that count. Day 0 is day 1,401 of it.
fn day_of(d: Date) -> u16
    requires { RealDate d }
    ensures { result ≡ day_number d }
{
    if d.month < 3 {
        days_from_march(d.year - 1977, d.month + 12) + d.day - 1402
    } else {
        days_from_march(d.year - 1976, d.month) + d.day - 1402
    }
}

// The Calendar day of a date.
// Kept: here and below "conversion is a named function" (document 01, of the counts that are kept apart): no `TryFrom`.
pub fn day_of_date(d: Date) -> Result<CalendarDay, Refusal>
    ensures { result ≡ day_answer d }
{
    if !is_real(d) {
        return Err(OUT_OF_RANGE);
    }
    Ok(CalendarDay(day_of(d)))
}

// 11 for a day that is out of range.
pub(crate) fn in_range(n: CalendarDay) -> Result<(), Refusal>
    ensures { result ≡ if_lt last_day n.0 (Err (refusal out_of_range)) (Ok tt) }
{
    if LAST_DAY < n.0 {
        return Err(OUT_OF_RANGE);
    }
    Ok(())
}

// The date of a day in range: its month by the table, and the days from the month's start.
// Kept: `n.0 ≤ last_day` stands in clauses here, below and in search: a type of days in range beside `CalendarDay`, which comes from C, would be taken apart at each use.
pub(crate) fn date_of(n: CalendarDay) -> Date
    requires { n.0 ≤ last_day }
    ensures { result ≡ date_of n.0 }
{
    let m = month_of(n.0);
    let i = m.number;
    Date {
        year: FIRST_YEAR + (i / 12) as u16,
        month: (i % 12 + 1) as u16,
        day: n.0 - m.start + 1,
    }
}

// The date of a Calendar day.
pub fn date_of_day(n: CalendarDay) -> Result<Date, Refusal>
    ensures { result ≡ date_answer n }
{
    in_range(n)?;
    Ok(date_of(n))
}

// The weekday of a day in range, 1 = Sunday to 7 = Saturday. 65,536 is 2 past a multiple of 7: beyond 16 bits the remainder costs fewer instructions.
pub fn weekday_of(n: CalendarDay) -> u16
    requires { n.0 ≤ last_day }
    ensures { result ≡ weekday_of n.0 }
{
    ((u32::from(n.0) + 65536) % 7 + 1) as u16
}

// The weekday of a Calendar day.
pub fn weekday_of_day(n: CalendarDay) -> Result<u16, Refusal>
    ensures { result ≡ weekday_answer n }
{
    in_range(n)?;
    Ok(weekday_of(n))
}
