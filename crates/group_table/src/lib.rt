//! Sums and counts of the records of one slice, by query slot and group.
#![tactic(auto)]

mod cells;
mod large;
mod numbers;
mod row;
mod small;
mod sums;
mod table;

pub use sums::add_up;
pub use table::Table;

#[cfg(test)]
mod tests;
