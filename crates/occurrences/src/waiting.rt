// How many days on from the day of a code a rule can show again.
#![tactic(auto, using(std::proofs::lemmas::Bool::Decides::nat_tests), unfolding(crate::specs::Rules::to_day, crate::specs::Rules::to_date, crate::specs::Rules::wait_for, prelude::specs::Choice::if_lt, prelude::specs::Choice::if_eq))]

ghost use Rattle.std.specs.Prelude.{◌≡◌};
ghost use Rattle.occurrences.specs.Rules.{to_month, to_day, to_weekday, to_date, wait_for};

use crate::types::Rule;
use day_steps::codes::{date_in, day_in, month_in, month_length_in, weekday_in};

const LONGEST_WAIT: u32 = 366;

fn to_month(p: u32) -> u32
    ensures { result ≡ to_month p }
{
    month_length_in(p).saturating_sub(day_in(p)) + 1
}

fn to_day(p: u32, day: u32) -> u32
    ensures { result ≡ to_day p day }
{
    let length = month_length_in(p);
    let today = day_in(p);
    if length < day {
        if today < length { length - today } else { 1 }
    } else if today < day {
        day - today
    } else {
        to_month(p)
    }
}

fn to_weekday(p: u32, weekday: u32) -> u32
    ensures { result ≡ to_weekday p weekday }
{
    let today = weekday_in(p);
    if today < weekday {
        (weekday - today - 1) % 7 + 1
    } else if weekday + 6 < today {
        7
    } else {
        weekday + 7 - today
    }
}

fn to_date(p: u32, date: u32) -> u32
    ensures { result ≡ to_date p date }
{
    let today = date_in(p);
    if today < date {
        (date - today).min(to_month(p))
    } else {
        1
    }
}

// Kept: a number of days where it shows no more, too, as the clause says (`wait_for`): callers only step by it.
pub fn wait_for(r: Rule, p: u32) -> u32
    ensures { result ≡ wait_for r p }
{
    if r.last <= date_in(p) {
        return LONGEST_WAIT;
    }
    match r.kind {
        2 | 4 => to_weekday(p, r.a),
        1 => to_date(p, r.first),
        3 => to_day(p, r.a),
        5 if month_in(p) == r.a => to_day(p, r.b),
        5 => to_month(p),
        _ => LONGEST_WAIT,
    }
}
