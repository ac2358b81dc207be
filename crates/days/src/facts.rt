// The facts of a day, and those of the day after, stepped without the table.
ghost use Rattle.std.specs.Prelude.{◌≡◌, ◌≤◌, ◌<◌};
ghost use Rattle.days.specs.Days.{next_weekday, last_day};
ghost use Rattle.days.specs.Facts.{stepped, next_facts, first_of_month};
ghost use Rattle.days.specs.Answers.{facts_answer, next_answer};

use crate::dates::month_days;
use crate::numbers::{date_of, in_range, weekday_of};
use crate::types::{CalendarDay, Date, DayFacts, LAST_DAY, LAST_YEAR};
use prelude::refusals::Refusal;
use prelude::refused::OUT_OF_RANGE;

// The facts of a Calendar day.
// Kept: "conversion is a named function" (document 01, of the counts that are kept apart): no `TryFrom`.
pub fn facts_of_day(n: CalendarDay) -> Result<DayFacts, Refusal>
    ensures { result ≡ facts_answer n }
{
    in_range(n)?;
    let date = date_of(n);
    let length = month_days(date.year, date.month);
    Ok(DayFacts {
        day: n,
        date,
        weekday: weekday_of(n),
        length,
    })
}

fn next_weekday(w: u16) -> u16
    ensures { result ≡ next_weekday w }
{
    if w < 7 { w + 1 } else { 1 }
}

// The first of a month, as the day after f.
fn first_of(f: DayFacts, year: u16, month: u16) -> DayFacts
    requires { f.day.0 < last_day }
    ensures { result ≡ first_of_month f year month }
{
    DayFacts {
        day: CalendarDay(f.day.0 + 1),
        date: Date {
            year,
            month,
            day: 1,
        },
        weekday: next_weekday(f.weekday),
        length: month_days(year, month),
    }
}

fn step(f: DayFacts) -> DayFacts
    requires day_lt_last_day { f.day.0 < last_day }
    requires year_bound { f.date.year ≤ 2099 }
    ensures { result ≡ stepped f }
{
    if f.date.day < f.length {
        DayFacts {
            day: CalendarDay(f.day.0 + 1),
            date: Date {
                day: f.date.day + 1,
                ..f.date
            },
            weekday: next_weekday(f.weekday),
            length: f.length,
        }
    } else if f.date.month < 12 {
        first_of(f, f.date.year, f.date.month + 1)
    } else {
        first_of(f, f.date.year + 1, 1)
    }
}

// The facts of the day after, for loops over days: past the last day the facts stay.
pub fn next_facts(f: DayFacts) -> DayFacts
    ensures { result ≡ next_facts f }
{
    // Kept: with `next_day(f).unwrap_or(f)` `pack_days` took 45 % more instructions, which the rows of `export` over 366 days in docs/measured/bench.md would show.
    if LAST_DAY <= f.day.0 || LAST_YEAR < f.date.year {
        return f;
    }
    step(f)
}

// The facts of the day after, refused past the last day.
pub fn next_day(f: DayFacts) -> Result<DayFacts, Refusal>
    ensures { result ≡ next_answer f }
{
    if LAST_DAY <= f.day.0 || LAST_YEAR < f.date.year {
        return Err(OUT_OF_RANGE);
    }
    Ok(step(f))
}
