ghost use Rattle.std.specs.Prelude.{◌≡◌, ◌≤◌, ◌<◌, ◌==◌, List, ℕ, [], ◌∷◌, ◌++◌, Option, Some, IfOk, IfSome, IsTrue, ◌↔◌, OnErr, length, take, position};
ghost use Rattle.std.specs.Option.{option_to_list};
ghost use Rattle.as_base.specs.Range.{IsSpelled};
ghost use Rattle.as_base.specs.declared.item.Item.{Item};
ghost use Rattle.as_lineform.specs.Item.{IsCreation};
ghost use Rattle.as_lineform.specs.Lines.{lines, items};
ghost use Rattle.as_lineform.specs.Cutter.{HasRead, keep, keep_all, items_in, kept_item, EndsCreation, StepIsSpelled};

use crate::front::first_record;
use crate::item::{LINE_MAX, item_of};
use as_base::{Cause, Given, Item, NoMemory};
use std::alloc::Global;
use std::marker::Model;

/// What a byte brought about.
#[derive(Debug, Drop)]
pub enum Step {
    /// The byte ended a line, which says this item.
    Line(Item),
    /// The line goes on.
    More,
}

/// Cuts bytes into lines at line feeds. It keeps the line that has begun, of which at most 4,096 bytes, whatever comes;
/// contracts see `None` where the line is longer.
#[derive(Debug, Drop)]
pub struct Lines {
    // Where the texts of creations are allocated.
    alloc: Global,
    // The line so far, or its first 4,096 bytes.
    line: Vec<u8>,
    // The line has more than 4,096 bytes.
    is_long: bool,
}

impl Model for Lines {
    ghost use Rattle.std.specs.Prelude.{List, ℕ, Option, Some, None, ◌≤◌, if◌then◌else◌, vec_len, vec_capacity};

    ghost Value = { Option (List ℕ) };

    ghost view = { λ c. if c.is_long then None else Some c.line.items };

    ghost invariant = { λ c. (vec_len c.line ≤ 4096) × (4096 ≤ vec_capacity c.line) };
}

// Where the first line feed is.
fn feed_in(bytes: &[u8]) -> Option<usize>
    ensures { result ≡ position (λ b. b == 10) bytes.now }
{
    bytes.iter().position(|byte| *byte == b'\n')
}

impl Lines {
    /// A cutter with room for 4,096 bytes and nothing taken. The one refusal is `NoMemory`.
    pub fn new(alloc: Global) -> Result<Lines, NoMemory>
        ensures { IfOk result (λ cutter. HasRead cutter []) }
    {
        let line = Vec::with_capacity(alloc, LINE_MAX)?;
        Ok(Lines {
            alloc,
            line,
            is_long: false,
        })
    }

    /// Takes one byte. `NoMemory` comes only at the line feed of a creation, leaves the cutter as it was, and the byte
    /// is not taken.
    pub fn feed(&mut self, byte: u8) -> Result<Step, NoMemory>
        ensures reads { (bytes : List ℕ) → HasRead self.old bytes → IfOk result (λ step.
            HasRead self.new (bytes ++ byte ∷ []) × (lines (bytes ++ byte ∷ []) ≡ lines bytes ++ items_in step)) }
        ensures range { IfOk result StepIsSpelled }
        ensures cause { OnErr result ((byte ≡ 10) × IsCreation (kept_item self.old)) }
        ensures err { OnErr result (self.new ≡ self.old) }
    {
        if byte == b'\n' {
            let item = self.kept_item()?;
            self.clear();
            return Ok(Step::Line(item));
        }
        self.keep(byte);
        Ok(Step::More)
    }

    /// Takes bytes from the front: a line with its line feed, or a part of one. Gives how many were taken, at least one
    /// where there are any, and the item of the line that was ended. `NoMemory` comes only at the line feed of a
    /// creation, leaves the cutter as it was, and no byte is taken.
    #[tactic(auto, using(crate::proofs::CutterLaws::rest_read, crate::proofs::CutterLaws::rest_lines))]
    pub fn take(&mut self, bytes: &[u8]) -> Result<(usize, Option<Item>), NoMemory>
        ensures within { IfOk result (λ taken. taken.0 ≤ length bytes.now) }
        ensures some { IfOk result (λ taken. 0 < length bytes.now → 0 < taken.0) }
        ensures reads { (before : List ℕ) → HasRead self.old before → IfOk result (λ taken.
            HasRead self.new (before ++ take taken.0 bytes.now)
            × (lines (before ++ take taken.0 bytes.now) ≡ lines before ++ option_to_list taken.1)) }
        ensures range { IfOk result (λ taken. IfSome taken.1 IsSpelled) }
        ensures cause { OnErr result (EndsCreation self.old bytes.now) }
        ensures err { OnErr result (self.new ≡ self.old) }
    {
        match feed_in(bytes) {
            Some(at) => self.take_to(bytes, at),
            None => {
                self.keep_all(bytes);
                Ok((bytes.len(), None))
            }
        }
    }

    /// A record whose line stands whole at the front of the bytes, and how many bytes that is with its line feed, which
    /// are then taken. It is read in place. `None` takes nothing; it also comes where the reader gives up.
    #[tactic(auto, using(crate::proofs::CutterLaws::record_read, crate::proofs::CutterLaws::record_lines))]
    pub fn take_record(&self, bytes: &[u8]) -> Option<(usize, Given)>
        ensures within { IfSome result (λ taken. (0 < taken.0) × (taken.0 ≤ length bytes.now)) }
        ensures reads { (before : List ℕ) → HasRead self.now before → IfSome result (λ taken.
            HasRead self.now (before ++ take taken.0 bytes.now)
            × (lines (before ++ take taken.0 bytes.now) ≡ lines before ++ Item.Rec taken.1 ∷ [])) }
        ensures range { IfSome result (λ taken. IsSpelled (Item.Rec taken.1)) }
    {
        if !self.is_empty() {
            return None;
        }
        let (used, given) = first_record(bytes)?;
        Some((used, given))
    }

    /// The item of the last line, if it has a byte; the cutter is empty then. `NoMemory` comes only for a creation, and
    /// changes nothing.
    pub fn finish(&mut self) -> Result<Option<Item>, NoMemory>
        ensures reads { (bytes : List ℕ) → HasRead self.old bytes → IfOk result (λ last.
            HasRead self.new [] × (items bytes ≡ lines bytes ++ option_to_list last)) }
        ensures range { IfOk result (λ last. IfSome last IsSpelled) }
        ensures cause { OnErr result (IsCreation (kept_item self.old)) }
        ensures err { OnErr result (self.new ≡ self.old) }
    {
        if self.is_empty() {
            return Ok(None);
        }
        let item = self.kept_item()?;
        self.clear();
        Ok(Some(item))
    }

    // Takes bytes up to the first line feed, which is at this place, and that too where no byte of its line was kept
    // before these, or none stands before it here. Else it is left to the next call, so that nothing is to be undone.
    #[tactic(auto, using(crate::proofs::CutterLaws::taking))]
    fn take_to(&mut self, bytes: &[u8], at: usize) -> Result<(usize, Option<Item>), NoMemory>
        requires { position (λ b. b == 10) bytes.now ≡ Some at }
        ensures within { IfOk result (λ taken. taken.0 ≤ length bytes.now) }
        ensures some { IfOk result (λ taken. 0 < taken.0) }
        ensures reads { (before : List ℕ) → HasRead self.old before → IfOk result (λ taken.
            HasRead self.new (before ++ take taken.0 bytes.now)
            × (lines (before ++ take taken.0 bytes.now) ≡ lines before ++ option_to_list taken.1)) }
        ensures range { IfOk result (λ taken. IfSome taken.1 IsSpelled) }
        ensures cause { OnErr result (EndsCreation self.old bytes.now) }
        ensures err { OnErr result (self.new ≡ self.old) }
    {
        let line = &bytes[..at];
        if self.is_empty() {
            let item = item_of(self.alloc, line)?;
            return Ok((at + 1, Some(item)));
        }
        if at == 0 {
            let item = self.kept_item()?;
            self.clear();
            return Ok((1, Some(item)));
        }
        self.keep_all(line);
        Ok((at, None))
    }

    // The line has no byte yet.
    fn is_empty(&self) -> bool
        ensures { IsTrue result ↔ (self.now ≡ Some []) }
    {
        !self.is_long && self.line.is_empty()
    }

    // The item of the line, as if it ended here.
    fn kept_item(&self) -> Result<Item, NoMemory>
        ensures item { IfOk result (λ item. item ≡ kept_item self.now) }
        ensures range { IfOk result IsSpelled }
        ensures cause { OnErr result (IsCreation (kept_item self.now)) }
    {
        if self.is_long {
            return Ok(Item::Bad(Cause::Long));
        }
        item_of(self.alloc, self.line.as_slice())
    }

    // Begins a new line.
    fn clear(&mut self)
        ensures { self.new ≡ Some [] }
    {
        self.line.clear();
        self.is_long = false;
    }

    // Adds bytes to the line.
    fn keep_all(&mut self, bytes: &[u8])
        ensures { self.new ≡ keep_all self.old bytes.now }
    {
        for byte in bytes {
            self.keep(*byte);
        }
    }

    // Adds a byte to the line, in the room that stands ready, or notes that there are too many.
    fn keep(&mut self, byte: u8)
        ensures { self.new ≡ keep self.old byte }
    {
        if self.line.len() < LINE_MAX {
            self.line.push_reserved(byte);
        } else {
            self.is_long = true;
        }
    }
}
