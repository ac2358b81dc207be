// The rules of a record's text and note, document 01 "Ranges", and the lines of a note.
#![tactic(auto)]

pub mod lines;
pub mod rules;
