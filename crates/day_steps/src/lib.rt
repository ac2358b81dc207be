// From a day's facts on: so many days later, on to a date; dates and days as one number each.
#![tactic(auto)]

pub mod codes;
pub mod moving;
pub mod packing;
