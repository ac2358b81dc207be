// The vocabulary of the whole project in code: refusals, and total helpers on slices.
#![tactic(auto)]

pub mod refusals;
pub mod refused;
pub mod slices;
