//! Words between single spaces, and numbers in their one spelling, read and written.
#![tactic(auto)]

mod append;
mod number;
mod words;

pub use append::{
    append_decimal, append_signed, append_spaced, append_spaced_decimal, append_spaced_numbers,
    append_spaced_signed, whole_or_none,
};
pub use number::{LEAST, parse_below, parse_integer, parse_natural, parse_wide};
pub use words::{Words, is_word, is_words};

#[cfg(test)]
mod tests;
