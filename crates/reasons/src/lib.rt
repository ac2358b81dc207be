// Why a record is on a day, or is not: document 02, R-8. It stands above the pages, of which it speaks.
#![tactic(auto)]

pub mod absent;
pub mod calls;
pub mod types;
