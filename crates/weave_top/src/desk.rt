use as_outside::{Shelf, Source};
use inbox::Inbox;
use service::QueryEngine;
use std::sync::Wait;
use taker::Gather;
use team::{Five, Hall};

/// A taker at a shelf, and where the feeders are kept once all have ended: all of it is lent.
pub struct Desk<'k, 'g, 'f, K: Shelf, E: QueryEngine, F: Source + Send + Drop> {
    pub shelf: &'k mut K,
    pub gather: &'g mut Gather<E>,
    pub five: &'f mut Option<Five<F>>,
}

impl<'k, 'g, 'f, K: Shelf, E: QueryEngine, R: Wait, F: Source + Send + Drop> Hall<R, F>
    for Desk<'k, 'g, 'f, K, E, F> {
    ghost use base.Fml.{GName};
    ghost use Rattle.std.specs.Prelude.{◌≡◌, List, Some};
    ghost use Rattle.as_base.specs.declared.config.Config.{Config};
    ghost use Rattle.as_outside.specs.declared.entry.Entry.{Entry};
    ghost use Rattle.taker.specs.Gather.{Keeps, StandsAfter};

    ghost name = { λ d. (d.shelf.ghost_name, d.gather.ghost_name, d.five.ghost_name) };

    ghost seen = { λ d. K.seen d.shelf.now };

    ghost stands = { λ d c calls. StandsAfter E.QueryEngine c d.gather.now calls };

    ghost pass = { λ d. d.gather.now.pass };

    ghost keeps = { λ d. Keeps E.QueryEngine d.gather.now };

    ghost kept = { λ d. d.five.now };

    fn take(&mut self, rt: &R, inbox: &Inbox) -> bool {
        self.gather.take(rt, inbox, self.shelf)
    }

    fn is_over(&self) -> bool {
        self.gather.is_over()
    }

    fn keep(&mut self, feeders: Five<F>)
        ensures name { ◌≡◌ {A = GName × GName × GName} (self.new.shelf.ghost_name, self.new.gather.ghost_name, self.new.five.ghost_name)
            (self.old.shelf.ghost_name, self.old.gather.ghost_name, self.old.five.ghost_name) }
        ensures pass { self.new.gather.now.pass ≡ self.old.gather.now.pass }
        ensures seen { K.seen self.new.shelf.now ≡ K.seen self.old.shelf.now }
        ensures keeps { Keeps E.QueryEngine self.old.gather.now → Keeps E.QueryEngine self.new.gather.now }
        ensures stands { (c : Config) (calls : List Entry) →
            StandsAfter E.QueryEngine c self.old.gather.now calls → StandsAfter E.QueryEngine c self.new.gather.now calls }
        ensures kept { self.new.five.now ≡ Some feeders }
    {
        *self.five = Some(feeders);
    }
}
