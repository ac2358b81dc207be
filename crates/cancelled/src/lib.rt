// The list of cancelled days that is lent beside a book: its entries, its rules, and the book that is read with it.
#![tactic(auto)]

pub mod codes;
mod judging;
pub mod reading;
