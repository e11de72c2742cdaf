//! The texts of queries, read as trees.
#![tactic(auto)]

mod ast;
mod cursor;
mod parse;
mod reader;
mod rules;
mod tree;
mod words;

pub use ast::{Ast, Cond, Conds, Op, TextFault};
pub use reader::{faults_have_one_place, read, texts_have_one_tree};
pub use tree::Window;

#[cfg(test)]
mod tests;
