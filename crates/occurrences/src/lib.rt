// The days on which a record falls, from one to the next: its rule as numbers, so that asking a day reads no file.
#![tactic(auto)]

mod asking;
pub mod finding;
pub mod hits;
pub mod reading;
pub mod types;
mod waiting;
