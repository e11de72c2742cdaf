ghost use Rattle.std.specs.Prelude.{◌≡◌, ◌<◌, ◌≤◌, ℕ, List, [], ◌∷◌, Some, length, take, OnOk, OnErr, IfOk};
ghost use Rattle.as_words.specs.Prefix.{IsPrefix};
ghost use Rattle.as_outside.specs.Makes.{Seen, Makes};
ghost use Rattle.as_outside.specs.declared.entry.Entry.{Entry};
ghost use Rattle.as_outside.specs.declared.entry.Entry.TheVariants.{Pulled, PullFailed, Said, SayFailed, Noted, NoteFailed, Begun, BeginFailed, Put, PutFailed};

/// A call on a shelf, a desk or a source failed.
#[derive(Clone, Copy, Debug, PartialEq, Eq)]
pub struct Failed;

/// Where answers, journal notes and outputs go. A call answers `Failed` only where its own count of faults rose, or
/// stands at a counter's last value.
pub trait Shelf {
    /// All calls in order and the bytes that are left to be pulled, where they are told, and the counts of faults.
    ghost seen: { Self → Seen };

    /// Writes to the answers. After `Failed` a prefix of the bytes was written.
    fn say(&mut self, bytes: &[u8]) -> Result<(), Failed>
        ensures ok { OnOk result (Makes (seen self.old) (seen self.new) (Said bytes.now ∷ [])) }
        ensures err { OnErr result ((front : List ℕ) × IsPrefix front bytes.now ×
            Makes (seen self.old) (seen self.new) (SayFailed front ∷ [])) };

    /// Writes to the journal. After `Failed` a prefix of the bytes was written.
    fn note(&mut self, bytes: &[u8]) -> Result<(), Failed>
        ensures ok { OnOk result (Makes (seen self.old) (seen self.new) (Noted bytes.now ∷ [])) }
        ensures err { OnErr result ((front : List ℕ) × IsPrefix front bytes.now ×
            Makes (seen self.old) (seen self.new) (NoteFailed front ∷ [])) };

    /// Makes output `n` empty. After `Failed` nothing was added to it.
    fn begin(&mut self, n: u64) -> Result<(), Failed>
        ensures ok { OnOk result (Makes (seen self.old) (seen self.new) (Begun n ∷ [])) }
        ensures err { OnErr result (Makes (seen self.old) (seen self.new) (BeginFailed n ∷ [])) };

    /// Appends to output `n`. After `Failed` a prefix of the bytes was appended.
    fn put(&mut self, n: u64, bytes: &[u8]) -> Result<(), Failed>
        ensures ok { OnOk result (Makes (seen self.old) (seen self.new) (Put n bytes.now ∷ [])) }
        ensures err { OnErr result ((front : List ℕ) × IsPrefix front bytes.now ×
            Makes (seen self.old) (seen self.new) (PutFailed n front ∷ [])) };
}

/// A shelf that bytes can be pulled from.
pub trait Desk: Shelf {
    /// Moves bytes into the front of the buffer, and says how many: 0 at the end of input only. `Failed` moved none.
    fn pull(&mut self, buf: &mut [u8]) -> Result<usize, Failed>
        requires { 0 < length buf.old }
        ensures room { IfOk result (λ k. k ≤ length buf.old) }
        ensures size { length buf.new ≡ length buf.old }
        ensures ok { IfOk result (λ k. Makes (Self.seen self.old) (Self.seen self.new) (Pulled (take k buf.new) ∷ [])) }
        ensures end { IfOk result (λ k. k ≡ 0 → (rest : List ℕ) → (Self.seen self.old).left ≡ Some rest → rest ≡ []) }
        ensures err { OnErr result (Makes (Self.seen self.old) (Self.seen self.new) (PullFailed ∷ [])) };
}
