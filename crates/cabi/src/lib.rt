// The static library: the calls that C and Rust link. include/apptbook.h is its header; how answers cross is in crate marshal.
// Kept: names, numbers, flags and pointers with lengths are those of that header, a function a call.
#![tactic(auto)]

pub mod book_calls;
pub mod calendar_calls;
pub mod chains_calls;
pub mod days_calls;
pub mod export_calls;
pub mod page_calls;
pub mod reason_calls;
pub mod writer_calls;
