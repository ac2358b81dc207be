// The days of a span as codes.
ghost use Rattle.std.specs.Prelude.{◌+◌, ◌≤◌, ◌≡◌, length};
ghost use Rattle.days.specs.Days.{last_day};
ghost use Rattle.days.specs.Facts.{facts_of};
ghost use Rattle.day_steps.specs.Codes.{Spanned};

use crate::codes::day_code;
use days::facts::next_facts;
use days::types::DayFacts;

// The days from that of f on, as many as the lent list has room for.
pub fn pack_days(f: DayFacts, days: &mut [u32])
    requires f_value { f ≡ facts_of f.day.0 }
    requires days_bound { f.day.0 + length days.old ≤ last_day + 1 }
    ensures { Spanned f.day.0 days.new }
{
    let mut g = f;
    for day in days {
        *day = day_code(g);
        g = next_facts(g);
    }
}
