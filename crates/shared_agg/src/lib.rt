//! What the records of slices add up to, for each query that sums or counts: stream by stream, slice by slice.
#![tactic(auto)]

mod aggs;
mod duties;
mod fill;
mod laws;
mod slices;

pub use aggs::Aggs;
pub use laws::appended_changes_alter_no_duty;

#[cfg(test)]
mod tests;
