// One record asked alone: whether it falls on a day or was moved there, and when it falls next.
ghost use Rattle.std.specs.Prelude.{◌≡◌};
ghost use Rattle.days.specs.Facts.{facts_of};
ghost use Rattle.day_steps.specs.Codes.{day_code};
ghost use Rattle.day_steps.specs.Moves.{FactsAt};
ghost use Rattle.occurrences.specs.Rules.{rule_shows};
ghost use Rattle.pages.specs.Answers.{next_occurrence, record_falls};
ghost use Rattle.pages.specs.Next.{next_of};
ghost use Rattle.pages.specs.Pages.{falls_on};

use crate::places::{falling_at, rule_at};
use crate::types::Search;
use crate::validating::validate;
use book::entries::place_of;
use book::located::RecordRef;
use days::types::{CalendarDay, DAYS, DayFacts};
use falls::types::{Falling, ShortMonth};
use occurrences::finding::next_shown;
use occurrences::types::Rule;
use prelude::refusals::Refusal;
use prelude::refused::NO_SUCH_NUMBER;

// Whether the record of a number falls on a day: not, on its own day, or moved.
#[tactic(auto, unfolding(crate::specs::Answers::falls_in))]
pub fn record_falls(
    file: &[u8],
    k: usize,
    n: CalendarDay,
    c: ShortMonth,
) -> Result<Falling, Refusal>
    ensures { result ≡ record_falls file.now c n k }
{
    let a = validate(file, n)?;
    if a.records <= k {
        return Err(NO_SUCH_NUMBER);
    }
    let at = place_of(file, k);
    Ok(falling_at(RecordRef { file, at }, c, a.facts))
}

// The first day from the given one on, on which the rule shows.
fn search_on(c: ShortMonth, r: Rule, from: DayFacts) -> Search
    requires { FactsAt from from.day.0 }
    ensures { result ≡ next_of (λ d. rule_shows c r (day_code (facts_of d))) from.day.0 }
{
    let day = next_shown(c, r, from);
    let looked = match day {
        Some(found) => u32::from(found.0 - from.day.0) + 1,
        None => u32::from(DAYS - from.day.0),
    };
    Search { day, looked }
}

// The next occurrence of the record of a number, from a day on.
#[tactic(auto, unfolding(crate::specs::Answers::next_in))]
pub fn next_occurrence(
    file: &[u8],
    k: usize,
    n: CalendarDay,
    c: ShortMonth,
) -> Result<Search, Refusal>
    ensures { result ≡ next_occurrence (falls_on c) file.now n k }
{
    let a = validate(file, n)?;
    if a.records <= k {
        return Err(NO_SUCH_NUMBER);
    }
    let at = place_of(file, k);
    Ok(search_on(c, rule_at(file, at), a.facts))
}
