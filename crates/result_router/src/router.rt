ghost use Rattle.std.specs.Prelude.{◌≡◌, ◌<◌, ◌↔◌, ℕ, Some, None, Err, is_some, length, replicate, slice_set, slice_index_or, IfOk, IfErr, OnOk, OnErr, true};
ghost use Rattle.as_base.specs.Pieces.{ArePieces};
ghost use Rattle.result_router.specs.Held.{fragments_of, is_missing, first_missing};
ghost use Rattle.result_router.specs.Merge.{pieces_of};
ghost use Rattle.result_router.specs.Sound.{AreSound};

use crate::pieces::pieces_of;
use as_base::{NoMemory, Pieces, Reply};
use std::alloc::Global;
use std::marker::Model;

/// Why there are no pieces yet.
#[derive(Clone, Copy, Debug, PartialEq, Eq)]
pub enum Unsettled {
    /// No reply of this part is held, and one of each part before it is.
    Waiting(u16),
    /// There was no memory.
    NoMemory,
}

/// What the parts answered to the current advance of the watermarks: seen as what is held of each part.
#[derive(Drop)]
pub struct Router {
    alloc: Global,
    held: Vec<Option<Reply>>,
}

impl Model for Router {
    ghost use Rattle.std.specs.Prelude.{List, Option, length, ◌<◌, ◌^◌};
    ghost use Rattle.as_base.specs.declared.fragment.Reply.{Reply};
    ghost use Rattle.result_router.specs.Held.{fragments_of};
    ghost use Rattle.result_router.specs.Sound.{AreSound};

    ghost Value = { List (Option Reply) };

    ghost view = { λ r. r.held.items };

    ghost invariant = { λ r. AreSound (fragments_of r.held.items) × (length r.held.items < 2 ^ 16) };
}

// No reply is held.
fn is_missing(held: &Option<Reply>) -> bool
    ensures { result ≡ is_missing held.now }
{
    held.is_none()
}

// The first part of which no reply is held.
fn first_missing(held: &[Option<Reply>]) -> Option<usize>
    ensures { result ≡ first_missing held.now }
{
    held.iter().position(|reply| is_missing(reply))
}

// As many parts without a reply.
fn none_held(alloc: Global, parts: u16) -> Result<Vec<Option<Reply>>, NoMemory>
    ensures { IfOk result (λ held. held.items ≡ replicate parts None) }
{
    let mut held = Vec::with_capacity(alloc, usize::from(parts))?;
    for _ in 0..parts {
        held.push(None)?;
    }
    Ok(held)
}

// Lets each reply go.
fn empty_each(held: &mut Vec<Option<Reply>>)
    ensures { held.new.items ≡ replicate (length held.old.items) None }
{
    for part in 0..held.len() {
        held[part] = None;
    }
}

// Lets all replies go. What is held then is sound.
fn forget_all(held: &mut Vec<Option<Reply>>)
    ensures gone { held.new.items ≡ replicate (length held.old.items) None }
    ensures sound { AreSound (fragments_of held.new.items) }
    ensures len { length held.new.items ≡ length held.old.items }
{
    empty_each(held);
}

impl Router {
    /// Room for one reply of each of the parts, none of them held. The one refusal is `NoMemory`.
    pub fn new(alloc: Global, parts: u16) -> Result<Router, NoMemory>
        ensures { IfOk result (λ r. r ≡ replicate parts None) }
    {
        Ok(Router {
            alloc,
            held: none_held(alloc, parts)?,
        })
    }

    /// Whether a reply of the part is held.
    pub fn holds(&self, part: u16) -> bool
        requires { part < length self.now }
        ensures { result ≡ is_some (slice_index_or self.now part None) }
    {
        self.held[usize::from(part)].is_some()
    }

    /// Holds the reply as the part's answer to the current advance. Where one of the part is held, that one stays, and
    /// the reply is handed back. Takes no memory.
    pub fn gather(&mut self, part: u16, reply: Reply) -> Result<(), Reply>
        requires part { part < length self.old }
        requires sound { AreSound (fragments_of (slice_set self.old part (Some reply))) }
        ensures ok { OnOk result ((slice_index_or self.old part None ≡ None) × (self.new ≡ slice_set self.old part (Some reply))) }
        ensures err { IfErr result (λ back. (is_some (slice_index_or self.old part None) ≡ true) × (back ≡ reply) × (self.new ≡ self.old)) }
    {
        let place = usize::from(part);
        if self.held[place].is_some() {
            return Err(reply);
        }
        self.held[place] = Some(reply);
        Ok(())
    }

    /// Merges the replies of all parts into pieces by rising query number, none of them empty, and holds no reply then.
    /// After an error nothing has changed.
    pub fn settle(&mut self) -> Result<Pieces, Unsettled>
        ensures pieces { IfOk result (λ pieces. pieces ≡ pieces_of (fragments_of self.old)) }
        ensures order { IfOk result ArePieces }
        ensures gone { OnOk result (self.new ≡ replicate (length self.old) None) }
        ensures waiting { (p : ℕ) → (result ≡ Err (Unsettled.Waiting p)) ↔ (first_missing self.old ≡ Some p) }
        ensures err { OnErr result (self.new ≡ self.old) }
    {
        if let Some(part) = first_missing(&self.held) {
            return Err(Unsettled::Waiting(part as u16));
        }
        match pieces_of(self.alloc, &self.held) {
            Ok(pieces) => {
                forget_all(&mut self.held);
                Ok(pieces)
            }
            Err(NoMemory) => Err(Unsettled::NoMemory),
        }
    }
}
