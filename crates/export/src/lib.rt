// The export: a book and a span of days into a lent buffer as a Calendar file, measured before it is filled.
#![tactic(auto)]

pub mod calls;
mod collecting;
mod deciding;
mod filling;
mod requests;
mod scattering;
mod settings;
mod spans;
mod working;
mod writing;
