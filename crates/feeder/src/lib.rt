//! A feeder: it reads a source, cuts its bytes into lines and offers their items to an inbox, and ends with one last load
//! that says how the source ended.
#![tactic(auto)]

mod feeder;
mod maker;
mod next_load;
mod patience;
mod waiting;

pub use feeder::{Feeder, LaterOf};
pub use maker::{Maker, Phase};
pub use patience::Patience;

#[cfg(test)]
mod tests;
