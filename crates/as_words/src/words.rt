ghost use Rattle.std.specs.Prelude.{◌≡◌, ◌↔◌, ◌==◌, [], ◌∷◌, drop, length, MatchOption, IsTrue};
ghost use Rattle.std.specs.List.{position, list_all};
ghost use Rattle.as_words.specs.Parts.{parts_of, words_of};
ghost use Rattle.as_words.specs.Words.{is_word_byte, is_word, is_words};

use std::marker::Model;

/// The words of a line that are left to be read, between single spaces. Contracts see them as a list.
#[derive(Drop)]
pub struct Words<'a> {
    // What is left of the line; `None` where no word is left.
    rest: Option<&'a [u8]>,
}

impl<'a> Model for Words<'a> {
    ghost use Rattle.std.specs.Prelude.{List, ℕ};
    ghost use Rattle.as_words.specs.Parts.{words_of};

    ghost Value = { List (List ℕ) };

    ghost view = { λ w. words_of w.rest };
}

// Where the first space is.
fn space_in(bytes: &[u8]) -> Option<usize>
    ensures { result ≡ position (λ b. b == 32) bytes.now }
{
    bytes.iter().position(|byte| *byte == b' ')
}

// How many words there are between the spaces.
fn count_words(rest: &[u8]) -> usize
    ensures { result ≡ length (parts_of 32 rest.now) }
{
    let mut spaces = 0;
    for byte in rest {
        if *byte == b' ' {
            spaces += 1;
        }
    }
    spaces + 1
}

// What is left after the first word.
fn after_word(rest: &[u8]) -> Option<&[u8]>
    ensures { words_of result ≡ drop 1 (parts_of 32 rest.now) }
{
    let at = space_in(rest)?;
    Some(&rest[at + 1..])
}

impl<'a> Words<'a> {
    /// The words of a line: one more than it has spaces, so that the empty line has one, which is empty.
    pub fn new(line: &'a [u8]) -> Words<'a>
        ensures { result ≡ parts_of 32 line.now }
    {
        Words { rest: Some(line) }
    }

    /// No words.
    pub fn empty() -> Words<'a>
        ensures { result ≡ [] }
    {
        Words { rest: None }
    }

    /// No word is left.
    pub fn is_empty(&self) -> bool
        ensures { IsTrue result ↔ (self.now ≡ []) }
    {
        self.rest.is_none()
    }

    /// How many words are left.
    pub fn count(&self) -> usize
        ensures { result ≡ length self.now }
    {
        match self.rest {
            Some(rest) => count_words(rest),
            None => 0,
        }
    }

    /// The next word, which stays; `None` where no word is left.
    pub fn peek(&self) -> Option<&'a [u8]>
        ensures { MatchOption result (self.now ≡ []) (λ word. self.now ≡ word.now ∷ drop 1 self.now) }
    {
        let rest = self.rest?;
        match space_in(rest) {
            Some(at) => Some(&rest[..at]),
            None => Some(rest),
        }
    }

    /// Goes past the next word, if there is one.
    pub fn advance(&mut self)
        ensures { self.new ≡ drop 1 self.old }
    {
        if let Some(rest) = self.rest {
            self.rest = after_word(rest);
        }
    }

    /// Takes the next word; `None` where no word is left, and then nothing changes.
    pub fn next(&mut self) -> Option<&'a [u8]>
        ensures { MatchOption result
            ((self.old ≡ []) × (self.new ≡ []))
            (λ word. self.old ≡ word.now ∷ self.new) }
    {
        let rest = self.rest?;
        match space_in(rest) {
            Some(at) => {
                self.rest = Some(&rest[at + 1..]);
                Some(&rest[..at])
            }
            None => {
                self.rest = None;
                Some(rest)
            }
        }
    }
}

// The byte may stand in a word: it is one of 33 to 126.
fn is_word_byte(byte: u8) -> bool
    ensures { result ≡ is_word_byte byte }
{
    byte.is_ascii_graphic()
}

// Each of the bytes may stand in a word.
fn are_word_bytes(bytes: &[u8]) -> bool
    ensures { result ≡ list_all is_word_byte bytes.now }
{
    bytes.iter().all(|byte| is_word_byte(*byte))
}

/// The bytes are one word.
pub fn is_word(bytes: &[u8]) -> bool
    ensures { result ≡ is_word bytes.now }
{
    !bytes.is_empty() && are_word_bytes(bytes)
}

/// The bytes are words, one or more, with one space between two.
pub fn is_words(bytes: &[u8]) -> bool
    ensures { result ≡ is_words bytes.now }
{
    let mut words = Words::new(bytes);
    while let Some(word) = words.next() {
        if !is_word(word) {
            return false;
        }
    }
    true
}
