// The program's command line and its answers, as functions on slices.
#![tactic(auto)]

pub mod parsing;
pub mod responding;
pub mod types;
