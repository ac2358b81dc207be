// The printed page of a day: measured, then put into a lent buffer.
#![tactic(auto)]

pub mod calls;
mod measures;
mod puts;
mod types;
