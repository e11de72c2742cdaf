ghost use Rattle.std.specs.Prelude.{◌≡◌, ◌<◌, ◌≤◌, [], ℕ, List, Option, Some, length, take, drop, IfOk, OnOk, OnErr, IsTrue, ◌↔◌};
ghost use Rattle.as_outside.specs.Sources.{Pulls};

use as_base::NoMemory;
use as_outside::{Failed, Source};
use std::alloc::Global;
use std::marker::Model;

/// How many bytes a pull asks for at most.
pub const PULL_MAX: usize = 4096;

/// The bytes that were pulled and not yet taken.
#[derive(Drop)]
pub struct Waiting {
    buf: Vec<u8>,
    at: usize,
    upto: usize,
}

impl Model for Waiting {
    ghost use Rattle.std.specs.Prelude.{List, ℕ, ◌≡◌, ◌≤◌, take, drop, length};

    ghost Value = { List ℕ };

    ghost view = { λ w. drop w.at (take w.upto w.buf.items) };

    ghost invariant = { λ w. (w.at ≤ w.upto) × (w.upto ≤ length w.buf.items) × (length w.buf.items ≡ 4096) };
}

impl Waiting {
    /// None, with room for a pull. The one refusal is `NoMemory`.
    pub fn new(alloc: Global) -> Result<Waiting, NoMemory>
        ensures { IfOk result (λ w. w ≡ []) }
    {
        let mut buf = Vec::new(alloc);
        buf.resize(PULL_MAX, 0)?;
        Ok(Waiting {
            buf,
            at: 0,
            upto: 0,
        })
    }

    /// None waits.
    pub fn is_empty(&self) -> bool
        ensures { IsTrue result ↔ (self.now ≡ []) }
    {
        self.front().is_empty()
    }

    /// All of them.
    pub fn front(&self) -> &[u8]
        ensures { result.now ≡ self.now }
    {
        &self.buf[self.at..self.upto]
    }

    /// So many were taken from the front.
    pub fn skip(&mut self, count: usize)
        requires { count ≤ length self.old }
        ensures { self.new ≡ drop count self.old }
    {
        self.at += count;
    }

    /// Pulls at most so many bytes, and says how many came: 0 at the end only. None waits after `Failed`.
    pub fn fill<F: Source>(&mut self, source: &mut F, room: usize) -> Result<usize, Failed>
        requires none { self.old ≡ [] }
        requires room { (0 < room) × (room ≤ 4096) }
        ensures size { IfOk result (λ k. (length self.new ≡ k) × (k ≤ room)) }
        ensures ok { OnOk result (Pulls (F.seen source.old) (F.seen source.new) self.new 0) }
        ensures end { OnOk result (length self.new ≡ 0 → (rest : List ℕ) → (F.seen source.old).left ≡ Some rest → rest ≡ []) }
        ensures err { OnErr result (Pulls (F.seen source.old) (F.seen source.new) [] 1) }
        ensures none { OnErr result (self.new ≡ []) }
    {
        self.at = 0;
        self.upto = 0;
        let pulled = pull_into(source, self.buf.as_mut_slice(), room)?;
        self.upto = pulled;
        Ok(pulled)
    }

    /// Only the first so many still wait.
    pub fn keep_front(&mut self, count: usize)
        requires { count ≤ length self.old }
        ensures { self.new ≡ take count self.old }
    {
        self.upto = self.at + count;
    }
}

// Pulls into the front of the buffer.
fn pull_into<F: Source>(source: &mut F, buf: &mut [u8], room: usize) -> Result<usize, Failed>
    requires { (0 < room) × (room ≤ length buf.old) }
    ensures size { length buf.new ≡ length buf.old }
    ensures count { IfOk result (λ k. k ≤ room) }
    ensures ok { IfOk result (λ k. Pulls (F.seen source.old) (F.seen source.new) (take k buf.new) 0) }
    ensures end { IfOk result (λ k. k ≡ 0 → (rest : List ℕ) → (F.seen source.old).left ≡ Some rest → rest ≡ []) }
    ensures err { OnErr result (Pulls (F.seen source.old) (F.seen source.new) [] 1) }
{
    source.pull(&mut buf[..room])
}
