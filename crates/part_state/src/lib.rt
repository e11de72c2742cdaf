//! What a part keeps of the messages that it took.
#![tactic(auto)]

mod cut;
mod drop;
mod entries;
mod reader;
mod state;
mod tagger;
mod waiting;

pub use state::State;

#[cfg(test)]
mod tests;
