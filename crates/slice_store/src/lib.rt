//! The slices of one stream: what was placed in each, by rising start, until nobody waits for it any more.
#![tactic(auto)]

mod placements;
mod slices;
#[cfg(test)]
mod tests;

pub use slices::Slices;
