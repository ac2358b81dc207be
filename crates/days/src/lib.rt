// Day arithmetic, document 01 "Days": the layer under the file layers, which know it only by its contracts and laws.
#![tactic(auto)]

pub mod dates;
pub mod facts;
pub mod numbers;
pub mod psion;
mod search;
mod table;
pub mod types;
