//! A list that is written: every entry checked, then every value stored.
#![tactic(auto)]

mod checking;
mod keeping;

pub use checking::check;
pub use keeping::keep;
