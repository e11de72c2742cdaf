//! The text of rows, as outputs have it, written and read.
#![tactic(auto)]

mod laws;
mod reading;
mod row;

pub use laws::{alike_queries_have_equal_texts, texts_only_grow};
pub use reading::read_row;
pub use row::append_row;

#[cfg(test)]
mod tests;
