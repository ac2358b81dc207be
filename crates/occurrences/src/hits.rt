// The days of a span on which a rule shows: where its dates begin, the first from a place on, and the next after one.
ghost use Rattle.std.specs.Prelude.{◌≡◌, ◌+◌, ◌<◌, true, length, slice_index};
ghost use Rattle.day_steps.specs.Codes.{Spanned, Days};
ghost use Rattle.occurrences.specs.Rules.{rule_shows, gap_of};
ghost use Rattle.occurrences.specs.Next.{Next, DatesAhead};

use crate::asking::rule_shows;
use crate::types::Rule;
use crate::waiting::wait_for;
use day_steps::codes::{date_in, day_of_code, month_of_code, year_of_code};
use falls::types::ShortMonth;

// What `count_to` gives for 1 January 1980, day 0.
const COUNT_TO_DAY_0: usize = 723502;

// Kept: beside the closed form of days, which asks for a real date: this takes any code, and no clause is on it.
// Days up to a date, counted by years that begin in March. It tells `on_to` where to look, and nothing rests on it.
fn count_to(date: u32) -> u32 {
    let year = year_of_code(date);
    let month = month_of_code(date);
    let day = day_of_code(date);
    if month < 3 {
        365 * year + (year + 3) / 4 + (979 * month + 8829) / 32 + day
    } else {
        365 * year + year / 4 + (979 * month + 8793) / 32 + day
    }
}

// The place of a date in a span from day `first` on, or one before it: no day that is passed has that date or a later one.
// How far it goes is no part of the promise.
// Kept: `days` with `Spanned` or `Days` apart from choice and rule, here and below: `Span` of export has them in one, but this crate lies below it and its other functions ask for less.
pub fn on_to(date: u32, first: usize, days: &[u32]) -> usize
    requires { Spanned first days.now }
    ensures { DatesAhead days.now date result }
{
    if days.is_empty() {
        return 0;
    }
    if date <= date_in(days[0]) {
        return 0;
    }
    let last = days.len() - 1;
    if date_in(days[last]) < date {
        return days.len();
    }
    let count = count_to(date) as usize;
    let n = count.wrapping_sub(first + COUNT_TO_DAY_0);
    if n <= last && date_in(days[n]) <= date {
        n
    } else {
        0
    }
}

// The first day from a place on, on which the rule shows, by its waits; the number of days where there is none.
// Kept: that number for none, here and below, as the clauses say (`Next .. (length days)`): the callers loop while it is below the length.
pub fn next_from(c: ShortMonth, r: Rule, days: &[u32], from: usize) -> usize
    requires { Days days.now }
    ensures { Next (λ k. rule_shows c r (slice_index days.now k)) from (length days.now) result }
{
    let mut j = from;
    while j < days.len() {
        let p = days[j];
        if rule_shows(c, r, p) {
            return j;
        }
        j += wait_for(r, p) as usize;
    }
    days.len()
}

// The first such day after one, of a weekly rule: a week later or never.
fn week_after(c: ShortMonth, r: Rule, days: &[u32], j: usize) -> usize
    requires days { Days days.now }
    requires j_in_bounds { j < length days.now }
    requires kind_value { r.kind ≡ 2 }
    requires j_value { rule_shows c r (slice_index days.now j) ≡ true }
    ensures { Next (λ k. rule_shows c r (slice_index days.now k)) (j + 1) (length days.now) result }
{
    let k = j + 7;
    if days.len() <= k {
        return days.len();
    }
    if r.last < date_in(days[k]) {
        days.len()
    } else {
        k
    }
}

// The gap of a rule that is not weekly, dated or of months.
#[tactic(auto, using(std::proofs::lemmas::Bool::Decides::nat_tests), unfolding(crate::specs::Rules::gap_of, prelude::specs::Choice::if_eq))]
fn gap_of(kind: u32) -> usize
    ensures { result ≡ gap_of kind }
{
    if kind == 1 { 1 } else { 28 }
}

// The first such day after one.
pub fn next_after(c: ShortMonth, r: Rule, days: &[u32], j: usize) -> usize
    requires days { Days days.now }
    requires j_in_bounds { j < length days.now }
    requires j_value { rule_shows c r (slice_index days.now j) ≡ true }
    ensures { Next (λ k. rule_shows c r (slice_index days.now k)) (j + 1) (length days.now) result }
{
    if r.kind == 2 {
        return week_after(c, r, days, j);
    }
    if r.last <= date_in(days[j]) {
        return days.len();
    }
    next_from(c, r, days, j + gap_of(r.kind))
}
