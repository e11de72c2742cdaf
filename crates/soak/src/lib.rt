//! A soak: generated lines through an engine, with no output kept. It counts what they bring about.
#![tactic(auto)]

mod soak;
mod tally;

pub use soak::{Soak, append_soaked};
pub use tally::Tally;

#[cfg(test)]
mod tests;
