ghost use Rattle.std.specs.Prelude.{◌≡◌, ◌<◌, ◌+◌, ◌++◌, ◌^◌, [], ◌∷◌, ℕ, List, length, IfOk, OnOk};
ghost use Rattle.as_base.specs.declared.config.Config.{Config};
ghost use Rattle.as_base.specs.declared.item.Item.{Item};
ghost use Rattle.as_base.specs.Range.{InRange, IsTime};
ghost use Rattle.session.specs.Acceptance.{is_open};
ghost use Rattle.session.specs.Outcome.{IsFed, ArePieces, only_told};

use as_base::{Answer, Fed, Given, Item, NoMemory, StreamId};

/// What decides items: the answer to each, and the pieces of text that it makes due on the outputs of queries.
///
/// An implementor may hold what its work needs beside the items, such as the runtime and the gate. Its one refusal is
/// `NoMemory`, to which an engine with faults of its own (`EngineFault`) maps them. After a refusal it is of no more use.
pub trait QueryEngine {
    /// What it is configured for.
    ghost config: { Self → Config };

    /// It has taken these items, from the first on, in this order.
    ghost stands: { Self → List Item → Type 0 };

    /// How many items it has taken.
    ghost count: { Self → ℕ };

    /// Takes an item whose numbers are in their ranges, where fewer than 2^62 came before it.
    ///
    /// `stands`: for any items that it stood for, it now stands for one more, and what it tells is what that item brings
    /// about by the rule: its answer, if it has one, the query that it creates, and for each query the whole text that it
    /// makes due. `order`: the pieces stand by rising query number, and none is empty. `count`: it has taken one item
    /// more. `config`: what it is configured for stays, also after a refusal.
    fn feed(&mut self, item: Item) -> Result<Fed, NoMemory>
        requires range { InRange item }
        requires few { count self.old < 2 ^ 62 }
        ensures stands { (h : List Item) → stands self.old h → IfOk result (λ fed.
            stands self.new (h ++ item ∷ []) × IsFed (config self.old) h item fed) }
        ensures order { IfOk result (λ fed. ArePieces fed.pieces) }
        ensures count { OnOk result (count self.new ≡ count self.old + 1) }
        ensures config { config self.new ≡ config self.old };

    /// Takes a record whose time is in range, where fewer than 2^62 items came before it, as `feed` does. It makes nothing
    /// due: what it tells is its answer alone, if it has one.
    fn feed_record(&mut self, given: &Given) -> Result<Option<Answer>, NoMemory>
        requires range { IsTime given.now.time }
        requires few { count self.old < 2 ^ 62 }
        ensures stands { (h : List Item) → stands self.old h → IfOk result (λ answer.
            stands self.new (h ++ Item.Rec given.now ∷ []) × IsFed (config self.old) h (Item.Rec given.now) (only_told answer)) }
        ensures count { OnOk result (count self.new ≡ count self.old + 1) }
        ensures config { config self.new ≡ config self.old };

    /// Whether an end of the stream would be accepted, for any items that it stands for: the stream is configured and has
    /// not ended.
    fn is_open(&self, stream: StreamId) -> bool
        ensures { (h : List Item) → stands self.now h → result ≡ is_open (config self.now) h stream };

    /// How many items it has taken: its count (`value`), and the length of any items that it stands for (`stands`).
    fn items(&self) -> u64
        ensures value { result ≡ count self.now }
        ensures stands { (h : List Item) → stands self.now h → result ≡ length h };
}
