// Rising lists of numbers: where a number belongs in one, and whether it stands there.
#![tactic(auto)]

pub mod searching;
