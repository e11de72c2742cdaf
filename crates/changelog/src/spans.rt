ghost use Rattle.std.specs.Prelude.{◌≡◌, ℕ, ◌≤◌, ◌++◌, [], ◌∷◌, drop, vec_len, OnOk, OnErr};
ghost use Rattle.changelog.specs.Spans.{holder_at, BeginAfter};

use as_base::{NoMemory, Plan};
use std::alloc::Global;
use std::marker::Model;

/// Who owns a slot from an epoch on: the number and the plan of a query, or none.
#[derive(Clone, Copy)]
pub struct Span {
    pub epoch: u64,
    pub holder: Option<(u64, Plan)>,
}

/// The owners of one slot, in the order of their epochs. Seen as the list of them.
#[derive(Drop)]
pub struct Spans {
    items: Vec<Span>,
}

impl Model for Spans {
    ghost use Rattle.std.specs.Prelude.{List};
    ghost use Rattle.changelog.specs.declared.spans.Span.{Span};

    ghost Value = { List Span };

    ghost view = { λ s. s.items.items };
}

impl Spans {
    /// No owner yet.
    pub fn new(alloc: Global) -> Spans
        ensures { result ≡ [] }
    {
        Spans {
            items: Vec::new(alloc),
        }
    }

    /// The owner in an epoch.
    pub fn at(&self, epoch: u64) -> Option<(u64, Plan)>
        ensures { result ≡ holder_at self.now epoch }
    {
        holder_at(&self.items, epoch)
    }

    /// Adds an owner. The one refusal is `NoMemory`, after which nothing has changed.
    pub fn push(&mut self, span: Span) -> Result<(), NoMemory>
        ensures ok { OnOk result (self.new ≡ self.old ++ span ∷ []) }
        ensures err { OnErr result (self.new ≡ self.old) }
    {
        self.items.push(span)?;
        Ok(())
    }

    /// Lets those go that were owners in no epoch from this one on.
    pub fn trim(&mut self, epoch: u64)
        ensures same { (e : ℕ) → epoch ≤ e → holder_at self.new e ≡ holder_at self.old e }
        ensures freed { BeginAfter epoch (drop 1 self.new) }
    {
        trim(&mut self.items, epoch);
    }
}

// What the last span that began by the epoch has.
fn holder_at(spans: &[Span], epoch: u64) -> Option<(u64, Plan)>
    ensures { result ≡ holder_at spans.now epoch }
{
    // The latest is asked for most.
    let mut left = spans.len();
    while left > 0 {
        left -= 1;
        let span = spans[left];
        if span.epoch <= epoch {
            return span.holder;
        }
    }
    None
}

// Cuts so many spans off the front.
fn cut(spans: &mut Vec<Span>, count: usize)
    requires { count ≤ vec_len spans.old }
    ensures { spans.new.items ≡ drop count spans.old.items }
{
    spans.drain(..count);
}

// Cuts the spans off that end before the epoch.
fn trim(spans: &mut Vec<Span>, epoch: u64)
    ensures same { (e : ℕ) → epoch ≤ e → holder_at spans.new.items e ≡ holder_at spans.old.items e }
    ensures freed { BeginAfter epoch (drop 1 spans.new.items) }
{
    let mut left = spans.len();
    while left > 0 {
        left -= 1;
        if spans[left].epoch <= epoch {
            cut(spans, left);
            return;
        }
    }
}
