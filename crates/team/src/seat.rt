ghost use Rattle.std.specs.Prelude.{◌≡◌, ⊤};
ghost use Rattle.inbox.specs.Passes.{id_of, inbox_of};
ghost use Rattle.feeder.specs.Going.{IsLater};

use as_outside::{Gate, Source};
use feeder::{Feeder, LaterOf};
use inbox::Inbox;
use std::marker::Model;
use std::snapshot::Snapshot;
use std::sync::Wait;
use std::sync::atomic::{AtomicBool, Ordering};
use std::thread::{PromisedHandle, Scope, Threads};

/// Where a feeder is.
#[derive(Drop)]
enum Place<F: Source + Send + Drop> {
    /// In a thread of its own.
    There(PromisedHandle<Feeder<F>, LaterOf<F>>),
    /// Here, since no thread could be started for it.
    Here(Feeder<F>),
}

/// A feeder that runs in a thread of its own, or is stepped here where none could be started for it. Contracts see it as
/// it was before.
#[derive(Drop)]
pub struct Seat<F: Source + Send + Drop> {
    base: Snapshot<Feeder<F>>,
    place: Place<F>,
}

impl<F: Source + Send + Drop> Model for Seat<F> {
    ghost use Rattle.std.specs.Prelude.{◌≡◌};
    ghost use Rattle.feeder.specs.declared.feeder.Feeder.{Feeder};
    ghost use Rattle.feeder.specs.Going.{IsLater};
    ghost use Rattle.team.specs.Seat.{IsSeated};

    ghost Value = { Feeder F };

    ghost view = { λ s. s.base.value };

    ghost invariant = { λ s. IsSeated F.Source s.base.value s.place };
}

/// Starts the thread of a feeder; where that is refused, the feeder is seated here.
pub fn start<'s, E: 's, F: Source + Send + Drop + 's, R: Wait + Sync + 's, G: Gate + 's>(
    scope: &Scope<'s, E>,
    rt: &'s R,
    inbox: &'s Inbox,
    gate: &'s G,
    skip: &'s AtomicBool,
    feeder: Feeder<F>,
) -> Seat<F>
    requires inbox { inbox_of feeder.pass ≡ id_of inbox.now }
    ensures { result ≡ feeder }
{
    let base = Snapshot::of(&feeder);
    let was = Snapshot::of(&feeder);
    match scope.spawn_with(
        LaterOf(was),
        move || -> Feeder<F>
            requires inbox { inbox_of feeder.pass ≡ id_of inbox.now }
            ensures { IsLater F.Source feeder result }
        { feeder.run(rt, inbox, gate, skip) },
    ) {
        Ok(handle) => Seat {
            base,
            place: Place::There(handle),
        },
        Err(refused) => {
            skip.store(true, Ordering::SeqCst);
            Seat {
                base,
                place: Place::Here((refused.value)()),
            }
        }
    }
}

// Steps a feeder that is not over; whether it got on.
fn step_on<F: Source + Drop, R: Wait, G: Gate>(
    feeder: &mut Feeder<F>,
    rt: &R,
    inbox: &Inbox,
    gate: &G,
) -> bool
    requires { inbox_of feeder.old.pass ≡ id_of inbox.now }
    ensures { IsLater F.Source feeder.old feeder.new }
{
    if feeder.is_over() {
        return false;
    }
    feeder.step(rt, inbox, gate)
}

impl<F: Source + Send + Drop> Seat<F> {
    /// Steps the feeder if it is here and not over; whether it got on.
    pub fn nudge<R: Wait, G: Gate>(&mut self, rt: &R, inbox: &Inbox, gate: &G) -> bool
        requires inbox { inbox_of self.old.pass ≡ id_of inbox.now }
        ensures { self.new ≡ self.old }
    {
        match &mut self.place {
            Place::There(_) => false,
            Place::Here(feeder) => step_on(feeder, rt, inbox, gate),
        }
    }

    /// The feeder, when its thread has ended.
    pub fn finish<R: Threads>(self, rt: &R) -> Feeder<F>
        ensures { IsLater F.Source self result }
    {
        let Seat { base: _, place } = self;
        match place {
            Place::Here(feeder) => feeder,
            Place::There(handle) => handle.join(rt),
        }
    }
}
