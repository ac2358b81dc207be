// The rule of a record, read from its body.
ghost use Rattle.std.specs.Prelude.{◌≡◌};
ghost use Rattle.records.specs.Fields.{record_of};
ghost use Rattle.occurrences.specs.Rules.{repeated, rule_of};

use crate::types::Rule;
use day_steps::codes::date_code;
use records::fields::{dated_of, monthly_by_date_of, monthly_by_position_of, weekly_of, yearly_of};
use records::types::Repeat;

fn repeat_rule(kind: u32, a: u16, b: u16, r: Repeat) -> Rule
    ensures { result ≡ repeated kind a b r }
{
    Rule {
        kind,
        a: u32::from(a),
        b: u32::from(b),
        first: date_code(r.first),
        last: date_code(r.last),
    }
}

// The rule of the record of a type 1 to 6 with that body.
// Kept: `t` is a byte here and below, since the contracts speak of every byte (`record_of` takes all but 1 to 5 for a to-do); `t` and `p` are no struct, which would be built at each call, from `kind` and `body` of a `RecordRef` or from `byte` and `body_from`; a rule of no record that repeats is kind 6 with zeros, as the definition `rule_of` has it.
#[tactic(auto, using(std::proofs::lemmas::Bool::Decides::nat_tests), unfolding(crate::specs::Rules::rule_of, records::specs::Fields::record_of, prelude::specs::Choice::if_eq))]
pub fn rule_of(t: u8, p: &[u8]) -> Rule
    ensures { result ≡ rule_of (record_of t p.now) }
{
    match t {
        1 => {
            let date = date_code(dated_of(p).date);
            Rule {
                kind: 1,
                a: 0,
                b: 0,
                first: date,
                last: date,
            }
        }
        2 => {
            let w = weekly_of(p);
            repeat_rule(2, w.weekday, 0, w.repeat)
        }
        3 => {
            let m = monthly_by_date_of(p);
            repeat_rule(3, m.day, 0, m.repeat)
        }
        4 => {
            let m = monthly_by_position_of(p);
            repeat_rule(4, m.weekday, m.week, m.repeat)
        }
        5 => {
            let y = yearly_of(p);
            repeat_rule(5, y.month, y.day, y.repeat)
        }
        _ => Rule {
            kind: 6,
            a: 0,
            b: 0,
            first: 0,
            last: 0,
        },
    }
}
