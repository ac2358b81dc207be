// The Windows Calendar file: reading it, with document 01's refusals 20 to 24, and what it shows.
#![tactic(auto)]

mod appointments;
mod head;
mod lists;
pub mod reading;
pub mod shown;
pub mod types;
