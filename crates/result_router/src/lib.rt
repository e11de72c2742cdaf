//! Merging what the parts of an engine answer to an advance of the watermarks into pieces of output text.
#![tactic(auto)]

mod bodies;
mod lent;
mod pieces;
mod router;
mod rows;

pub use router::{Router, Unsettled};

#[cfg(test)]
mod tests;
