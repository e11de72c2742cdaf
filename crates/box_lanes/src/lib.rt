//! The bounds of up to 512 query slots. Which slots hold a record is looked up in an index of each field; where an index
//! has no room for the bounds, it is computed from columns, two slots at a time.
#![tactic(auto)]

mod block;
mod blocks;
mod boxes;
mod columns;
mod field;
mod index;
mod indexes;
mod start;
mod starts;
#[cfg(test)]
mod tests;

pub use columns::Columns;
