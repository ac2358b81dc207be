// Numbers as text: printed into a lent buffer, and read from a word of the command line.
#![tactic(auto)]

pub mod puts;
pub mod words;
