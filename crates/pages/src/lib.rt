// Day pages: which records fall on a day and in which order, the next occurrence of a record.
#![tactic(auto)]

pub mod codes;
pub mod collecting;
pub mod lines;
pub mod next;
pub mod ordering;
pub mod places;
pub mod types;
pub mod validating;
