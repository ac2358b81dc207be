// The next day of the calendar on which a rule shows.
ghost use Rattle.std.specs.Prelude.{◌≡◌};
ghost use Rattle.days.specs.Facts.{facts_of};
ghost use Rattle.day_steps.specs.Codes.{day_code};
ghost use Rattle.day_steps.specs.Moves.{FactsAt};
ghost use Rattle.occurrences.specs.Next.{NextDay};
ghost use Rattle.occurrences.specs.Rules.{rule_shows, start_from};

use crate::asking::rule_shows;
use crate::types::Rule;
use crate::waiting::wait_for;
use day_steps::codes::{date_code, date_in, date_of_code, day_code};
use day_steps::moving::{days_later, moved_to};
use days::types::{CalendarDay, DayFacts, LAST_DAY};
use falls::types::ShortMonth;

// On to the rule's first date, where it is ahead.
#[tactic(auto, using(std::proofs::lemmas::Bool::Decides::nat_tests), unfolding(crate::specs::Rules::start_from, prelude::specs::Choice::if_lt))]
fn start_from(r: Rule, f: DayFacts) -> DayFacts
    ensures { result ≡ start_from r f }
{
    if date_code(f.date) < r.first {
        moved_to(f, date_of_code(r.first))
    } else {
        f
    }
}

// The first day from that of f on, on which the rule shows; `None` where it shows on none up to the last day of the calendar.
// Kept: `FactsAt` is a clause, as in day_steps: `DayFacts` come from C, too (`facts_in`), where it need not hold. Choice and rule stand apart, as `rule_shows` takes them.
pub fn next_shown(c: ShortMonth, r: Rule, f: DayFacts) -> Option<CalendarDay>
    requires { FactsAt f f.day.0 }
    ensures { NextDay (λ d. rule_shows c r (day_code (facts_of d))) f.day.0 result }
{
    let mut g = start_from(r, f);
    loop {
        let p = day_code(g);
        if r.last < date_in(p) {
            return None;
        }
        if rule_shows(c, r, p) {
            return Some(g.day);
        }
        let wait = wait_for(r, p);
        let ahead = u32::from(LAST_DAY - g.day.0);
        if ahead < wait {
            return None;
        }
        g = days_later(g, wait as u16);
    }
}
