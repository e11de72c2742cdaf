//! Which queries want a record: the slots whose owners read its stream, and whose bounds hold it.
#![tactic(auto)]

mod selector;
#[cfg(test)]
mod tests;

pub use selector::Selector;
