ghost use Rattle.std.specs.Prelude.{◌≡◌, ◌<◌, []};
ghost use Rattle.crossbeam_queue.specs.Passes.{view};
ghost use Rattle.inbox.specs.Roles.{IsOnly, IsTally};

use crate::load::Load;
use crate::rule::{Pass, Queue};
use crate::watch::{Unwatched, Watch};

/// The loads of feeders 1 to 5 to one taker, in a queue of fixed room that threads share. Contracts see which inbox it
/// is, and its room. Only `Inbox::new` takes memory. No clause says that a call returns.
#[derive(Drop)]
pub struct Inbox<W: Watch<Load> = Unwatched> {
    pub(crate) queue: Queue<W>,
}

/// The right to offer as one feeder, 1 to 5. Contracts see its inbox, the feeder's number and the loads that it has
/// offered, in order. Only `Inbox::new` makes one.
#[derive(Drop)]
pub struct FeedPass {
    pub(crate) pass: Pass,
    pub(crate) feeder: u8,
    ghost own: { (0 < feeder) × (feeder < 6) × IsOnly feeder (view pass) × (pass.me.1 ≡ []) },
}

/// The right to take. Contracts see its inbox and what it has taken, in order, each load with its feeder's number. Only
/// `Inbox::new` makes one.
#[derive(Drop)]
pub struct TakePass {
    pub(crate) pass: Pass,
    ghost own: { IsOnly 0 (view pass) × (pass.me.1 ≡ []) },
}

/// What is left of an inbox that was closed. Contracts see the lists of its six passes. Only `Inbox::close` makes one.
#[derive(Drop)]
pub struct Closed {
    /// The number of loads that the five feeders offered less the number taken.
    pub left: u64,
    pub(crate) pass: Pass,
    ghost tally: { IsTally left (view pass) },
}
