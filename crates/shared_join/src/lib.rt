//! The pairs of records of two streams that joins want, kept by pair of slices: each pair of slices is joined once, for all
//! queries at once.
#![tactic(auto)]

mod count;
mod joins;
mod lanes;
mod pair;
mod side;
mod walk;
mod window;

pub use joins::Joins;
pub use pair::Pair;

#[cfg(test)]
mod tests;
