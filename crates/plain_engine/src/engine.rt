ghost use Rattle.std.specs.Prelude.{◌≡◌, ◌<◌, ◌+◌, ◌++◌, ◌^◌, [], ◌∷◌, List, Err, false, true, IfOk, IfErr, OnOk, OnErr};
ghost use Rattle.as_base.specs.declared.item.Item.{Item};
ghost use Rattle.as_base.specs.declared.memory.EngineFault.{EngineFault};
ghost use Rattle.as_base.specs.Config.{is_configured};
ghost use Rattle.as_base.specs.Range.{InRange};
ghost use Rattle.as_base.specs.Pieces.{ArePieces};
ghost use Rattle.views.specs.View.{View};
ghost use Rattle.views.specs.IsView.{IsView};
ghost use Rattle.views.specs.Message.{after, Follows};
ghost use Rattle.session.specs.Acceptance.{has_ended};
ghost use Rattle.session.specs.Outcome.{IsFed};
ghost use Rattle.plain_engine.specs.Store.{StandsFor as StoreStands, GrowsBy};

use crate::store::Store;
use as_base::{Answer, Config, EngineFault, Fed, Given, Item, Msg, NoMemory, Pieces, StreamId};
use service::QueryEngine;
use session::{Decision, Session};
use std::alloc::Global;

/// The plain engine: a session decides each item, and a store with a list of records for each query prints what its
/// message makes due.
#[derive(Drop)]
pub struct PlainEngine {
    alloc: Global,
    pub config: Config,
    pub session: Session,
    pub store: Store,
    /// There was no memory for an item; nothing is taken from there on.
    pub stopped: bool,
}

// The stream is among the configured ones.
fn is_configured(config: &Config, stream: StreamId) -> bool
    ensures { result ≡ is_configured config.now stream }
{
    (stream as u8) < config.streams
}

// An answer, and what a message makes due beside it.
fn print(store: &mut Store, answer: Option<Answer>, message: &Msg) -> Result<Fed, NoMemory>
    ensures stands { (v : View) → IsView v → Follows v message.now → StoreStands store.old v → IfOk result (λ fed.
        StoreStands store.new (after v message.now) × GrowsBy v (after v message.now) fed.pieces) }
    ensures order { IfOk result (λ fed. ArePieces fed.pieces) }
    ensures answer { IfOk result (λ fed. fed.answer ≡ answer) }
{
    let pieces = store.take(message)?;
    Ok(Fed { answer, pieces })
}

impl PlainEngine {
    ghost use Rattle.as_base.specs.Config.{fits};
    ghost use Rattle.plain_engine.specs.Engine.{StandsFor};

    /// An engine that has taken nothing, for a configuration whose numbers are in their ranges; it has one part, whatever
    /// that says of parts. The one refusal is `NoMemory`.
    pub fn new(alloc: Global, config: Config) -> Result<PlainEngine, NoMemory>
        requires { fits config ≡ true }
        ensures stands { IfOk result (λ e. StandsFor e []) }
        ensures config { IfOk result (λ e. e.config ≡ config) }
        ensures count { IfOk result (λ e. e.session.items ≡ 0) }
    {
        Ok(PlainEngine {
            alloc,
            config,
            session: Session::new(alloc, config.streams, config.slots)?,
            store: Store::new(alloc),
            stopped: false,
        })
    }

    // Takes an item.
    fn take(&mut self, item: Item) -> Result<Fed, NoMemory>
        requires range { InRange item }
        requires few { self.old.session.items < 2 ^ 62 }
        ensures stands { (h : List Item) → StandsFor self.old h → IfOk result (λ fed.
            StandsFor self.new (h ++ item ∷ []) × IsFed self.old.config h item fed) }
        ensures order { IfOk result (λ fed. ArePieces fed.pieces) }
        ensures count { OnOk result (self.new.session.items ≡ self.old.session.items + 1) }
        ensures config { self.new.config ≡ self.old.config }
        ensures going { self.new.stopped ≡ self.old.stopped }
    {
        match self.session.accept(&item)? {
            Decision::Pass(message) => print(&mut self.store, None, &message),
            Decision::Told(answer) => Ok(Fed {
                answer: Some(answer),
                pieces: Pieces::from_vec(Vec::new(self.alloc)),
            }),
            Decision::Acted(answer, change) => {
                print(&mut self.store, Some(answer), &Msg::Change(change))
            }
        }
    }

    /// Takes an item whose numbers are in their ranges, where fewer than 2^62 came before it: its answer by the rule, if it
    /// has one, and what it makes due, by rising query number and no piece empty. `NoMemory` stops the engine: every later
    /// call, and none before, answers `Stopped`, and changes nothing.
    pub fn feed(&mut self, item: Item) -> Result<Fed, EngineFault>
        requires range { InRange item }
        requires few { self.old.session.items < 2 ^ 62 }
        ensures stands { (h : List Item) → StandsFor self.old h → IfOk result (λ fed.
            StandsFor self.new (h ++ item ∷ []) × IsFed self.old.config h item fed) }
        ensures order { IfOk result (λ fed. ArePieces fed.pieces) }
        ensures stopped { IfErr result (λ fault. fault ≡ EngineFault.Stopped → self.old.stopped ≡ true) }
        ensures refused { self.old.stopped ≡ true → (result ≡ Err EngineFault.Stopped) × (self.new ≡ self.old) }
        ensures stops { OnErr result (self.new.stopped ≡ true) }
        ensures goes { OnOk result (self.new.stopped ≡ false) }
        ensures count { OnOk result (self.new.session.items ≡ self.old.session.items + 1) }
        ensures config { self.new.config ≡ self.old.config }
    {
        if self.stopped {
            return Err(EngineFault::Stopped);
        }
        match self.take(item) {
            Ok(fed) => Ok(fed),
            Err(NoMemory) => {
                self.stopped = true;
                Err(EngineFault::NoMemory)
            }
        }
    }

    /// The stream has ended, for any items that the engine stands for.
    pub fn ended(&self, stream: StreamId) -> bool
        ensures { (h : List Item) → StandsFor self.now h → result ≡ has_ended self.now.config h stream }
    {
        self.session.ended(stream)
    }
}

impl QueryEngine for PlainEngine {
    ghost use Rattle.plain_engine.specs.Engine.{StandsFor};

    ghost config = { λ e. e.config };

    ghost stands = { λ e. StandsFor e };

    ghost count = { λ e. e.session.items };

    fn feed(&mut self, item: Item) -> Result<Fed, NoMemory> {
        match PlainEngine::feed(self, item) {
            Ok(fed) => Ok(fed),
            Err(_) => Err(NoMemory),
        }
    }

    #[inline(always)]
    fn feed_record(&mut self, given: &Given) -> Result<Option<Answer>, NoMemory> {
        if self.stopped {
            return Err(NoMemory);
        }
        match self.session.accept_record(given) {
            Ok(_) => match self.store.take_record(given) {
                Ok(()) => Ok(None),
                Err(NoMemory) => {
                    self.stopped = true;
                    Err(NoMemory)
                }
            },
            Err(refusal) => Ok(Some(refusal)),
        }
    }

    fn is_open(&self, stream: StreamId) -> bool {
        is_configured(&self.config, stream) && !self.session.ended(stream)
    }

    fn items(&self) -> u64 {
        self.session.items()
    }
}
