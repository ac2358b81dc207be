// Answers and arguments as they cross C: one repr(C) struct an answer, number 0 and the values, or the refusal with every value 0.
// Kept: the structs, LengthOut and WeekdayOut each its own, with number, flag and kind as fields, are those of include/apptbook.h.
#![tactic(auto)]

pub mod book_answers;
pub mod calendar_answers;
pub mod count_answers;
pub mod day_answers;
pub mod day_facts;
pub mod page_answers;
pub mod reason_answers;
pub mod record_answers;
pub mod record_arguments;
pub mod record_kinds;
pub mod writer_states;
