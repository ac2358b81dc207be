// The six kinds of records of a 95LX book: their fields in a record's body, the ranges, and the judgement of a body.
#![tactic(auto)]

pub mod bodies;
pub mod fields;
pub mod ranges;
pub mod types;
