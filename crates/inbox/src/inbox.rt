ghost use Rattle.std.specs.Prelude.{◌≡◌, ℕ, ◌++◌, [], ◌∷◌, ◌<◌, ◌≤◌, ◌+◌, length, map, take, IfOk, OnOk, IfErr, IfNone, IfSome, ⊤};
ghost use Rattle.crossbeam_queue.specs.Fifo.{Held};
ghost use Rattle.inbox.specs.Roles.{from, AllFed, StaysAtOffer, StaysAtTake, Saw, WasFront};
ghost use Rattle.inbox.specs.Sound.{IsSound};
ghost use Rattle.inbox.specs.Passes.{id_of, room_of, inbox_of, taker_inbox, feeder_in, offered, taken, closed_offered, closed_taken, offered_in_all, five_times};

use crate::load::{Full, Load};
use crate::passes::{Closed, FeedPass, Inbox, TakePass};
use crate::rule::Queue;
use crate::seats;
use crate::watch::{Unwatched, Watch};
use as_base::NoMemory;
use std::alloc::Global;
use std::sync::Wait;

impl Inbox<Unwatched> {
    /// An empty inbox with room for `room` loads, 1 to 65,536, the passes of feeders 1 to 5 in this order with nothing
    /// offered, and the taker's with nothing taken; `NoMemory` where there is no memory for them.
    pub fn new(alloc: Global, room: u32) -> Result<(Inbox, [FeedPass; 5], TakePass), NoMemory>
        requires { (1 ≤ room) × (room ≤ 65536) }
        ensures inbox { IfOk result (λ made. room_of made.0 ≡ room) }
        ensures feeds { IfOk result (λ made. (map inbox_of made.1 ≡ five_times (id_of made.0))
            × (map feeder_in made.1 ≡ 1 ∷ 2 ∷ 3 ∷ 4 ∷ 5 ∷ []) × (map offered made.1 ≡ five_times [])) }
        ensures taker { IfOk result (λ made. (taker_inbox made.2 ≡ id_of made.0) × (taken made.2 ≡ [])) }
    {
        Inbox::watched(alloc, room)
    }
}

impl<W: Watch<Load>> Inbox<W> {
    /// The same under a watch that holds of no load taken and none in the queue.
    pub fn watched(
        alloc: Global,
        room: u32,
    ) -> Result<(Inbox<W>, [FeedPass; 5], TakePass), NoMemory>
        requires room { (1 ≤ room) × (room ≤ 65536) }
        requires watch { W.sees [] [] }
        ensures inbox { IfOk result (λ made. room_of made.0 ≡ room) }
        ensures feeds { IfOk result (λ made. (map inbox_of made.1 ≡ five_times (id_of made.0))
            × (map feeder_in made.1 ≡ 1 ∷ 2 ∷ 3 ∷ 4 ∷ 5 ∷ []) × (map offered made.1 ≡ five_times [])) }
        ensures taker { IfOk result (λ made. (taker_inbox made.2 ≡ id_of made.0) × (taken made.2 ≡ [])) }
    {
        let (queue, pass) = Queue::<W>::ruled(alloc, room as usize)?;
        let (feeds, taker) = seats::split(&queue, pass);
        Ok((Inbox { queue }, feeds, taker))
    }

    /// Adds a load at the back, as the feeder of the pass. `Full` hands the load back and changes nothing of the pass;
    /// it comes only where the queue was found to hold as many loads as it has room for, at a moment of this call. A line's
    /// item has its numbers in the ranges that a line may spell.
    #[tactic(auto, using(crate::proofs::Moves::loads_added))]
    pub fn offer<R: Wait>(&self, rt: &R, pass: &mut FeedPass, load: Load) -> Result<(), Full>
        requires inbox { inbox_of pass.old ≡ id_of self.now }
        requires sound { IsSound load }
        requires watch { StaysAtOffer W.sees (room_of self.now) (feeder_in pass.old) (offered pass.old) load }
        ensures same { (inbox_of pass.new ≡ inbox_of pass.old) × (feeder_in pass.new ≡ feeder_in pass.old) }
        ensures ok { OnOk result (offered pass.new ≡ offered pass.old ++ load ∷ []) }
        ensures full { IfErr result (λ back. (back.0 ≡ load) × (offered pass.new ≡ offered pass.old)
            × Held (room_of self.now) (Saw W.sees (feeder_in pass.old) (offered pass.old))) }
    {
        let feeder = pass.feeder;
        match seats::push(&self.queue, rt, &mut pass.pass, feeder, load) {
            Ok(()) => Ok(()),
            Err(load) => Err(Full(load)),
        }
    }

    /// Takes the load at the front, with its feeder's number. `None` changes nothing of the pass; it comes only where the
    /// queue was found empty, at a moment of this call.
    pub fn take<R: Wait>(&self, rt: &R, pass: &mut TakePass) -> Option<(u8, Load)>
        requires inbox { taker_inbox pass.old ≡ id_of self.now }
        requires watch { StaysAtTake W.sees (taken pass.old) }
        ensures same { taker_inbox pass.new ≡ taker_inbox pass.old }
        ensures none { IfNone result ((taken pass.new ≡ taken pass.old) × Held 0 (W.sees (taken pass.old))) }
        ensures some { IfSome result (λ x. (0 < x.0) × (x.0 < 6) × IsSound x.1 × (taken pass.new ≡ taken pass.old ++ x ∷ [])
            × WasFront W.sees (taken pass.old) x) }
    {
        seats::pop(&self.queue, rt, &mut pass.pass)
    }

    /// Ends the inbox, with its six passes; the loads left in the queue are dropped. Of each feeder, what was taken is
    /// a prefix of what it offered, each load once, and every load taken carries a feeder's number.
    pub fn close<R: Wait>(self, rt: &R, feeds: [FeedPass; 5], taker: TakePass) -> Closed
        requires feeds { map inbox_of feeds ≡ five_times (id_of self) }
        requires taker { taker_inbox taker ≡ id_of self }
        ensures offered { map offered feeds ≡ map (λ pass. closed_offered result (feeder_in pass)) feeds }
        ensures taken { closed_taken result ≡ taken taker }
        ensures fed { AllFed IsSound (closed_taken result) }
        ensures prefix { (feeder : ℕ) → 0 < feeder → feeder < 6 →
            let mine = from feeder (closed_taken result) in mine ≡ take (length mine) (closed_offered result feeder) }
        ensures left { offered_in_all result ≡ length (closed_taken result) + result.left }
    {
        let Inbox { queue } = self;
        let mut pass = seats::joined(&queue, feeds, taker);
        let left = seats::count(&queue, rt, &mut pass);
        Closed { left, pass }
    }
}
