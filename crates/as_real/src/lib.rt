//! The real outside of the service: a desk on standard input, standard output and files of the current folder, sources
//! that are files, a shelf with a journal, and how a program gets its words and ends.
#![tactic(auto)]

mod bytes;
mod desk;
mod fault;
mod outlets;
mod output_faults;
mod output_file;
mod program;
mod shelf;
mod source;
#[cfg(test)]
mod tests;

pub use desk::RealDesk;
pub use program::{end, words};
pub use shelf::RealShelf;
pub use source::RealSource;
