//! Lines both ways: the bytes of the input cut into lines and read as items, and answers written as text.
#![tactic(auto)]

mod answer;
mod digits;
mod front;
mod item;
mod lines;
mod reading;
mod spelling;

pub use answer::{answer_text, append_word};
pub use item::{LINE_MAX, item_of};
pub use lines::{Lines, Step};
pub use spelling::{each_item_has_one_spelling, item_text, written_lines_are_read};

#[cfg(test)]
mod tests;
