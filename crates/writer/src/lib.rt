// Writing a 95LX book: open, add, close, on a state that goes in and comes back with each call.
#![tactic(auto)]

mod bytes;
pub mod calls;
mod deciding;
mod heads;
mod puts;
pub mod types;
