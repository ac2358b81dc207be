// The facts of a later day: so many days on, or a date's.
ghost use Rattle.std.specs.Prelude.{◌≡◌, ◌+◌, ◌≤◌};
ghost use Rattle.days.specs.Days.{day_number};
ghost use Rattle.days.specs.Facts.{facts_of};
ghost use Rattle.days.specs.Dates.{RealDate};
ghost use Rattle.day_steps.specs.Moves.{FactsAt, moved_to};

use days::dates::month_days;
use days::facts::next_facts;
use days::numbers::{day_of_date, weekday_of};
use days::types::{CalendarDay, Date, DayFacts};

// So many days on in the same month.
// Kept: `FactsAt` stands in clauses here and below, not in `DayFacts`: those come from C, too (`facts_in`), where it need not hold.
fn in_month(f: DayFacts, k: u16) -> DayFacts
    requires facts_at { FactsAt f (f.day.0 + k) }
    requires k_bound { f.date.day + k ≤ f.length }
    ensures { result ≡ facts_of (f.day.0 + k) }
{
    DayFacts {
        day: CalendarDay(f.day.0 + k),
        date: Date {
            day: f.date.day + k,
            ..f.date
        },
        weekday: (f.weekday + 6 + k) % 7 + 1,
        length: f.length,
    }
}

// So many days on, over the ends of months.
pub fn days_later(f: DayFacts, k: u16) -> DayFacts
    requires { FactsAt f (f.day.0 + k) }
    ensures { result ≡ facts_of (f.day.0 + k) }
{
    let mut g = f;
    let mut left = k;
    loop {
        let rest = g.length - g.date.day;
        if left <= rest {
            return in_month(g, left);
        }
        g = next_facts(in_month(g, rest));
        left -= rest + 1;
    }
}

// The facts of a real date's day.
fn facts_at(d: Date, n: CalendarDay) -> DayFacts
    requires real_date { RealDate d }
    requires d_value { day_number d ≡ n.0 }
    ensures { result ≡ facts_of n.0 }
{
    DayFacts {
        day: n,
        date: d,
        weekday: weekday_of(n),
        length: month_days(d.year, d.month),
    }
}

// On to a date; the facts stay where it is not real or not ahead.
pub fn moved_to(f: DayFacts, d: Date) -> DayFacts
    ensures { result ≡ moved_to f d }
{
    let Ok(n) = day_of_date(d) else {
        return f;
    };
    if f.day < n { facts_at(d, n) } else { f }
}
