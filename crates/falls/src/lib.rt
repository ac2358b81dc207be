// When a record falls on a day, document 01: the rules of the six kinds and the short-month choice.
#![tactic(auto)]

pub mod choice;
pub mod moved;
pub mod rules;
pub mod times;
pub mod types;
