// Whether a rule shows on the day of a code.
#![tactic(auto, using(std::proofs::lemmas::Bool::Decides::nat_tests), unfolding(crate::specs::Rules::missing_shows, crate::specs::Rules::day_shows, crate::specs::Rules::on_date, crate::specs::Rules::in_dates, crate::specs::Rules::rule_shows, prelude::specs::Choice::if_lt, prelude::specs::Choice::if_eq, prelude::specs::Choice::if_b))]

ghost use Rattle.std.specs.Prelude.{◌≡◌, ◌+◌, ◌/◌, true, false};
ghost use Rattle.prelude.specs.Choice.{if_eq};
ghost use Rattle.day_steps.specs.Codes.{day_in, weekday_in};
ghost use Rattle.occurrences.specs.Rules.{missing_shows, day_shows, on_date, in_dates, rule_shows};

use crate::types::Rule;
use day_steps::codes::{date_in, day_in, month_in, month_length_in, weekday_in};
use falls::types::ShortMonth;

// Where the month is too short for the day asked for.
// Kept: this, `day_shows`, `position_shows` and `in_dates` are twins of `on_missing_day`, `on_day`, `by_position_falls` and `in_span` in falls, whose day is `DayFacts`: a trait for both, with a getter and a law for the day and for the month's length, would be longer than all; rule and code go side by side here and in waiting, as in the definitions.
fn missing_shows(c: ShortMonth, p: u32) -> bool
    ensures { result ≡ missing_shows c p }
{
    match c {
        ShortMonth::Skip => false,
        ShortMonth::Last => day_in(p) == month_length_in(p),
    }
}

fn day_shows(c: ShortMonth, p: u32, day: u32) -> bool
    ensures { result ≡ day_shows c p day }
{
    if month_length_in(p) < day {
        missing_shows(c, p)
    } else {
        day_in(p) == day
    }
}

fn position_shows(r: Rule, p: u32) -> bool
    ensures { result ≡ if_eq (weekday_in p) r.a (if_eq ((day_in p + 6) / 7) r.b true false) false }
{
    weekday_in(p) == r.a && (day_in(p) + 6) / 7 == r.b
}

fn on_date(c: ShortMonth, r: Rule, p: u32) -> bool
    ensures { result ≡ on_date c r p }
{
    match r.kind {
        2 => weekday_in(p) == r.a,
        1 => true,
        3 => day_shows(c, p, r.a),
        4 => position_shows(r, p),
        5 => month_in(p) == r.a && day_shows(c, p, r.b),
        _ => false,
    }
}

fn in_dates(r: Rule, p: u32) -> bool
    ensures { result ≡ in_dates r p }
{
    let date = date_in(p);
    r.first <= date && date <= r.last
}

pub fn rule_shows(c: ShortMonth, r: Rule, p: u32) -> bool
    ensures { result ≡ rule_shows c r p }
{
    on_date(c, r, p) && in_dates(r, p)
}
