//! The plain engine: a session, and for each query the records that its windows still want, of a join on each side, which
//! are folded or paired window by window as watermarks pass. It is the reference for an engine that shares work between
//! queries.
#![tactic(auto)]

mod cells;
mod engine;
mod holding;
mod marks;
mod pairs;
mod pieces;
mod rows;
mod store;
mod waiting;
mod windows;

pub use engine::PlainEngine;
pub use store::Store;

#[cfg(test)]
mod tests;
