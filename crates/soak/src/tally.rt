ghost use Rattle.std.specs.Prelude.{◌≡◌, ◌++◌, ◌∷◌, [], ◌+◌, List, IfOk, OnOk};
ghost use Rattle.as_base.specs.declared.config.Config.{Config};
ghost use Rattle.as_base.specs.declared.item.Item.{Item};
ghost use Rattle.session.specs.Outcome.{IsFed, only_told};
ghost use Rattle.soak.specs.Tally.{feeds_in, with_word, with_answer, with_pieces, IsTallyOf};

use as_base::{Answer, Fed, NoMemory, Piece, Word};

/// What a soak counts: the queries that were created and those that were deleted, the lines that were refused, and the
/// rows and the bytes of all outputs.
#[derive(Clone, Copy, Debug, PartialEq, Eq)]
pub struct Tally {
    pub created: u64,
    pub deleted: u64,
    pub refused: u64,
    pub rows: u64,
    pub bytes: u64,
}

// The sum. One beyond 2^64 - 1, which no machine comes to, is told as want of memory.
fn sum(count: u64, more: u64) -> Result<u64, NoMemory>
    ensures { IfOk result (λ sum. sum ≡ count + more) }
{
    count.checked_add(more).ok_or(NoMemory)
}

// How many rows the bytes are: each ends with a line feed, and has no other.
fn feeds_in(bytes: &[u8]) -> u64
    ensures { result ≡ feeds_in bytes.now }
{
    bytes.iter().filter(|byte| **byte == b'\n').count() as u64
}

impl Tally {
    /// Nothing is counted yet.
    pub fn new() -> Tally
        ensures { (c : Config) → IsTallyOf c [] result }
    {
        Tally {
            created: 0,
            deleted: 0,
            refused: 0,
            rows: 0,
            bytes: 0,
        }
    }

    // Counts an answer's word.
    fn count_word(&mut self, word: Word) -> Result<(), NoMemory>
        ensures { OnOk result (self.new ≡ with_word word self.old) }
    {
        match word {
            Word::Created { .. } => self.created = sum(self.created, 1)?,
            Word::Deleted { .. } => self.deleted = sum(self.deleted, 1)?,
            _ => self.refused = sum(self.refused, 1)?,
        }
        Ok(())
    }

    // Counts an answer, if there is one.
    fn count_answer(&mut self, answer: &Option<Answer>) -> Result<(), NoMemory>
        ensures { OnOk result (self.new ≡ with_answer answer.now self.old) }
    {
        match answer {
            Some(answer) => self.count_word(answer.word),
            None => Ok(()),
        }
    }

    // Counts the rows and the bytes of a piece.
    fn count_piece(&mut self, piece: &Piece) -> Result<(), NoMemory>
        ensures { OnOk result (self.new ≡ with_pieces (piece.now ∷ []) self.old) }
    {
        let bytes = piece.bytes.as_slice();
        self.rows = sum(self.rows, feeds_in(bytes))?;
        self.bytes = sum(self.bytes, bytes.len() as u64)?;
        Ok(())
    }

    // Counts the rows and the bytes of pieces.
    fn count_pieces(&mut self, pieces: &[Piece]) -> Result<(), NoMemory>
        ensures { OnOk result (self.new ≡ with_pieces pieces.now self.old) }
    {
        for piece in pieces {
            self.count_piece(piece)?;
        }
        Ok(())
    }

    /// Counts what an item brought about. The one refusal is `NoMemory`: a count would be beyond 2^64 - 1.
    pub fn count(&mut self, fed: &Fed) -> Result<(), NoMemory>
        ensures { (c : Config) (h : List Item) (x : Item) → IsTallyOf c h self.old → IsFed c h x fed.now →
            OnOk result (IsTallyOf c (h ++ x ∷ []) self.new) }
    {
        self.count_answer(&fed.answer)?;
        self.count_pieces(fed.pieces.as_slice())
    }

    /// The same of an item that made nothing due.
    pub fn count_told(&mut self, answer: &Option<Answer>) -> Result<(), NoMemory>
        ensures { (c : Config) (h : List Item) (x : Item) → IsTallyOf c h self.old → IsFed c h x (only_told answer.now) →
            OnOk result (IsTallyOf c (h ++ x ∷ []) self.new) }
    {
        self.count_answer(answer)
    }
}
