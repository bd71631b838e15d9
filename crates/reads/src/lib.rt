//! A list that is read: every entry checked, then every value told.
#![tactic(auto)]

pub mod any;
mod checking;
mod openings;
mod telling;
#[cfg(test)]
mod tests;

pub use checking::check;
pub use openings::Readable;
pub use telling::{tell, tell_any};
