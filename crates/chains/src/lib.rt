// HP 200LX day chains: the Single Occurrence Table and the chains of records, checked as request R-2 says.
#![tactic(auto)]

pub mod checking;
mod heads;
mod links;
mod order;
mod records;
mod table;
