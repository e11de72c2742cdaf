ghost use Rattle.std.specs.Prelude.{◌≡◌, ◌⊎◌, ◌∷◌, [], ◌++◌, MatchBool, MatchOption, ⊤, IsTrue, ◌↔◌};
ghost use Rattle.inbox.specs.Passes.{id_of, inbox_of, offered};
ghost use Rattle.feeder.specs.Maker.{IsOver};
ghost use Rattle.feeder.specs.Going.{GoesOn, IsSame};

use crate::maker::{Maker, Phase};
use crate::next_load::NextLoad;
use crate::patience::Patience;
use as_outside::{Gate, Place, Source};
use inbox::{FeedPass, Full, Inbox};
use std::snapshot::Snapshot;
use std::sync::Wait;
use std::sync::atomic::{AtomicBool, Ordering};
use std::thread::Promise;

/// A feeder: its source, the maker of its loads, and its pass at an inbox.
#[derive(Drop)]
pub struct Feeder<F: Source + Drop> {
    /// What it reads.
    pub source: F,
    /// What it has made of that.
    pub maker: Maker,
    /// Its right to offer, with what it has offered.
    pub pass: FeedPass,
    // Its number, 1 to 5, by which its gate knows it.
    number: u8,
}

/// The promise of a thread that runs a feeder: what it gives is a later state of the one in the snapshot.
#[derive(Drop)]
pub struct LaterOf<F: Source + Drop>(pub Snapshot<Feeder<F>>);

impl<F: Source + Drop> Promise<Feeder<F>> for LaterOf<F> {
    ghost use Rattle.feeder.specs.Going.{IsLater};

    ghost kept_by = { λ p r. IsLater F.Source p.0.value r };
}

impl<F: Source + Drop> Feeder<F> {
    /// The feeder with this number, which its gate is told.
    pub fn new(source: F, maker: Maker, pass: FeedPass, number: u8) -> Feeder<F>
        ensures { (result.source ≡ source) × (result.maker ≡ maker) × (result.pass ≡ pass) }
    {
        Feeder {
            source,
            maker,
            pass,
            number,
        }
    }

    /// The last load was offered.
    pub fn is_over(&self) -> bool
        ensures { IsTrue result ↔ IsOver self.now.maker }
    {
        matches!(self.maker.phase, Phase::Ended(_)) && self.maker.next.is_none()
    }

    /// Offers the load that waits, if one does, once its gate lets it; else makes what comes next, with at most one pull.
    /// False where the inbox had no room, and nothing was changed then.
    pub fn step<R: Wait, G: Gate>(&mut self, rt: &R, inbox: &Inbox, gate: &G) -> bool
        requires inbox { inbox_of self.old.pass ≡ id_of inbox.now }
        ensures same { IsSame self.old.pass self.new.pass }
        ensures goes { GoesOn (F.seen self.old.source) (F.seen self.new.source) self.old.maker self.new.maker
            (offered self.old.pass) (offered self.new.pass) }
        ensures offers { MatchOption self.old.maker.next (offered self.new.pass ≡ offered self.old.pass)
            (λ load. MatchBool result (offered self.new.pass ≡ offered self.old.pass ++ load ∷ []) ⊤) }
        ensures full { MatchBool result ⊤ ((self.new.source ≡ self.old.source) × (self.new.maker ≡ self.old.maker)
            × (offered self.new.pass ≡ offered self.old.pass)) }
    {
        match self.maker.next.take() {
            None => {
                self.maker.make(&mut self.source);
                true
            }
            Some(load) => {
                gate.enter(Place::Feeder(self.number));
                match inbox.offer(rt, &mut self.pass, load) {
                    Ok(()) => true,
                    Err(Full(load)) => {
                        self.maker.next = NextLoad::new(Some(load));
                        false
                    }
                }
            }
        }
    }

    /// Steps until the last load was offered, and waits where the inbox has no room; where the flag is set it makes no
    /// step.
    pub fn run<R: Wait, G: Gate>(
        mut self,
        rt: &R,
        inbox: &Inbox,
        gate: &G,
        skip: &AtomicBool,
    ) -> Feeder<F>
        requires inbox { inbox_of self.pass ≡ id_of inbox.now }
        ensures same { IsSame self.pass result.pass }
        ensures goes { GoesOn (F.seen self.source) (F.seen result.source) self.maker result.maker
            (offered self.pass) (offered result.pass) }
        ensures over { (result ≡ self) ⊎ IsOver result.maker }
    {
        if skip.load(Ordering::SeqCst) {
            return self;
        }
        let mut patience = Patience::new();
        for _ in rt.forever() {
            if self.is_over() {
                return self;
            }
            let got_on = self.step(rt, inbox, gate);
            patience.turn(rt, got_on);
        }
        unreachable!()
    }
}
