// Writing a Calendar file: measured from the sums of its days, and put into a lent buffer piece by piece.
#![tactic(auto)]

pub mod bytes;
pub mod measuring;
pub mod placing;
pub mod puts;
pub mod sums;
pub mod types;
