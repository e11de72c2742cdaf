use crate::{Bytes, Pieces};

/// What a line is answered.
#[derive(Clone, Copy, Debug, PartialEq, Eq)]
pub enum Word {
    /// A query was created, with number `n`, at changelog time `at` in ticks.
    Created { n: u64, at: u64 },
    /// Query `n` was deleted at changelog time `at` in ticks.
    Deleted { n: u64, at: u64 },
    /// The line has more than 4,096 bytes.
    Long,
    /// The line is in none of the forms.
    Form,
    /// A named stream is not configured.
    Stranger,
    /// The stream has ended.
    Ended,
    /// The record's time is below its stream's front.
    Late,
    /// The watermark is below the greatest accepted one of its stream.
    Back,
    /// The query text is outside the grammar from this word on, counted from 1.
    Syntax(u32),
    /// A join names one stream twice.
    Twin,
    /// The window's numbers break a limit.
    Window,
    /// As many queries are live as there are slots.
    Full,
    /// No live query has that number.
    Unknown,
}

/// The answer to a line: its number, from 1, and the word.
#[derive(Clone, Copy, Debug, PartialEq, Eq)]
pub struct Answer {
    pub line: u64,
    pub word: Word,
}

/// Bytes to be appended to the output of query `n`: whole rows.
#[derive(Debug, PartialEq, Eq, Drop)]
pub struct Piece {
    pub n: u64,
    pub bytes: Bytes,
}

/// What one item brings about: its answer, if it has one, and the pieces that it makes due, by rising query number.
#[derive(Debug, PartialEq, Eq, Drop)]
pub struct Fed {
    pub answer: Option<Answer>,
    pub pieces: Pieces,
}
