// The steps of a pass at the queue, each for a role's number.
ghost use Rattle.std.specs.Prelude.{◌≡◌, ◌<◌, ◌+◌, [], ◌∷◌, Some, map, MatchOption, MatchResult};
ghost use Rattle.crossbeam_queue.specs.Fifo.{Held};
ghost use Rattle.crossbeam_queue.specs.Passes.{view, IsPassOf, IsSamePass, ruled_capacity};
ghost use Rattle.inbox.specs.Roles.{added, everything, loads, list_of, part, roles_in, IsOnly, KeepsRoles, Moment, Saw, StaysAtOffer, StaysAtTake, WasFront};
ghost use Rattle.inbox.specs.Sound.{IsSound};
ghost use Rattle.inbox.specs.Passes.{five_times, inbox_of, taker_inbox, feeder_in, offered, taken};

use crate::load::Load;
use crate::passes::{FeedPass, TakePass};
use crate::rule::{Cut, Offers, Pass, Queue, Rejoin, Sees, Takes};
use crate::watch::Watch;
use std::sync::Wait;

// Adds a load at the back, as the feeder.
pub fn push<W: Watch<Load>, R: Wait>(
    queue: &Queue<W>,
    rt: &R,
    pass: &mut Pass,
    feeder: u8,
    load: Load,
) -> Result<(), Load>
    requires queue { IsPassOf queue.now pass.old }
    requires feeder { (0 < feeder) × (feeder < 6) × IsOnly feeder (view pass.old) }
    requires sound { IsSound load }
    requires watch { StaysAtOffer W.sees (ruled_capacity queue.now) feeder (loads (list_of (view pass.old) feeder)) load }
    ensures same { IsSamePass pass.old pass.new }
    ensures only { IsOnly feeder (view pass.new) }
    ensures step { MatchResult result
        (λ _. view pass.new ≡ added (view pass.old) feeder (feeder, load))
        (λ x. (x ≡ load) × (view pass.new ≡ view pass.old)
        × Held (ruled_capacity queue.now) (Saw W.sees feeder (loads (list_of (view pass.old) feeder)))) }
{
    match queue.push_as::<Offers<W>, R>(rt, pass, (feeder, load)) {
        Ok(()) => Ok(()),
        Err((_, load)) => Err(load),
    }
}

// Takes the parcel at the front, as the taker.
pub fn pop<W: Watch<Load>, R: Wait>(queue: &Queue<W>, rt: &R, pass: &mut Pass) -> Option<(u8, Load)>
    requires queue { IsPassOf queue.now pass.old }
    requires taker { IsOnly 0 (view pass.old) }
    requires watch { StaysAtTake W.sees (list_of (view pass.old) 0) }
    ensures same { IsSamePass pass.old pass.new }
    ensures only { IsOnly 0 (view pass.new) }
    ensures step { MatchOption result
        ((view pass.new ≡ view pass.old) × Held 0 (W.sees (list_of (view pass.old) 0)))
        (λ x. (view pass.new ≡ added (view pass.old) 0 x) × (0 < x.0) × (x.0 < 6) × IsSound x.1
        × WasFront W.sees (list_of (view pass.old) 0) x) }
{
    queue.pop_as::<Takes<W>, R>(rt, pass)
}

// Gives each role of a pass that has done nothing to a pass of its own: feeders 1 to 5, and the taker.
pub fn split<W: Watch<Load>>(queue: &Queue<W>, mut pass: Pass) -> ([FeedPass; 5], TakePass)
    requires queue { IsPassOf queue.now pass }
    requires all { view pass ≡ everything }
    ensures inbox { (map inbox_of result.0 ≡ five_times queue.now.table.shared.table_id)
        × (taker_inbox result.1 ≡ queue.now.table.shared.table_id) }
    ensures feeders { map feeder_in result.0 ≡ 1 ∷ 2 ∷ 3 ∷ 4 ∷ 5 ∷ [] }
    ensures none { (map offered result.0 ≡ five_times []) × (taken result.1 ≡ []) }
{
    let first = queue.another::<Cut<1>>(&mut pass);
    let second = queue.another::<Cut<2>>(&mut pass);
    let third = queue.another::<Cut<3>>(&mut pass);
    let fourth = queue.another::<Cut<4>>(&mut pass);
    let fifth = queue.another::<Cut<5>>(&mut pass);
    let feeds = [
        feed(first, 1),
        feed(second, 2),
        feed(third, 3),
        feed(fourth, 4),
        feed(fifth, 5),
    ];
    (feeds, TakePass { pass })
}

// The pass of a feeder.
fn feed(pass: Pass, feeder: u8) -> FeedPass
    requires { (0 < feeder) × (feeder < 6) × IsOnly feeder (view pass) × (pass.me.1 ≡ []) }
    ensures { (result.pass ≡ pass) × (result.feeder ≡ feeder) }
{
    FeedPass { pass, feeder }
}

// Joins the passes of the feeders into the taker's.
pub fn joined<W: Watch<Load>>(queue: &Queue<W>, feeds: [FeedPass; 5], taker: TakePass) -> Pass
    requires feeds { map inbox_of feeds ≡ five_times queue.now.table.shared.table_id }
    requires taker { taker_inbox taker ≡ queue.now.table.shared.table_id }
    ensures queue { IsPassOf queue.now result }
    ensures offered { map offered feeds ≡ map (λ p. loads (list_of (view result) (feeder_in p))) feeds }
    ensures taken { list_of (view result) 0 ≡ taken taker }
    ensures all { roles_in (view result) ≡ 6 }
{
    let TakePass { mut pass } = taker;
    let (first, second, third, fourth, fifth) = apart(feeds);
    bring(queue, &mut pass, first);
    bring(queue, &mut pass, second);
    bring(queue, &mut pass, third);
    bring(queue, &mut pass, fourth);
    bring(queue, &mut pass, fifth);
    pass
}

// The five passes one by one.
pub fn apart(feeds: [FeedPass; 5]) -> (FeedPass, FeedPass, FeedPass, FeedPass, FeedPass)
    ensures { feeds ≡ result.0 ∷ result.1 ∷ result.2 ∷ result.3 ∷ result.4 ∷ [] }
{
    let [first, second, third, fourth, fifth] = feeds;
    (first, second, third, fourth, fifth)
}

// Joins a feeder's pass into another. The rule tells that they held no role twice.
fn bring<W: Watch<Load>>(queue: &Queue<W>, into: &mut Pass, feed: FeedPass)
    requires into { IsPassOf queue.now into.old }
    requires feed { inbox_of feed ≡ queue.now.table.shared.table_id }
    ensures same { IsSamePass into.old into.new }
    ensures kept { KeepsRoles (view into.old) (view into.new) }
    ensures gained { part (view into.new) (feeder_in feed) ≡ Some (list_of (view feed.pass) (feeder_in feed)) }
    ensures count { roles_in (view into.new) ≡ roles_in (view into.old) + 1 }
{
    let FeedPass { pass, feeder: _ } = feed;
    queue.absorb::<Rejoin>(into, pass);
    queue.learn_as::<Sees<W>>(into);
}

// How many loads the queue holds when every role is with this pass.
pub fn count<W: Watch<Load>, R: Wait>(queue: &Queue<W>, rt: &R, pass: &mut Pass) -> u64
    requires { IsPassOf queue.now pass.old }
    ensures same { view pass.new ≡ view pass.old }
    ensures count { Held result (Moment IsSound W.sees (view pass.old)) }
{
    queue.len_as::<Sees<W>, R>(rt, pass) as u64
}
