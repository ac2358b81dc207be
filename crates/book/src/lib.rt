// Reading a 95LX book: identification, settings, records until the end record, with document 01's refusals 1 to 9.
#![tactic(auto)]

pub mod entries;
mod fillers;
pub mod lines;
pub mod located;
pub mod reading;
pub mod settings;
mod steps;
pub mod types;
