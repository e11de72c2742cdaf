ghost use Rattle.std.specs.Prelude.{IfOk};
ghost use Rattle.weave_top.specs.Loom.{IsFresh, IsFreshMaker};
ghost use Rattle.weave_top.specs.Weaving.{IsWeaving};
ghost use Rattle.std.specs.List.{AllByRecursion};

use crate::weaving::Weaving;
use as_base::NoMemory;
use feeder::Maker;
use inbox::{FeedPass, Inbox};
use plain_engine::PlainEngine;
use service::QueryEngine;
use std::alloc::Global;
use taker::{Gather, Taker};

/// All that a weave takes memory for before it begins: what the feeders and the taker start from.
#[derive(Drop)]
pub struct Loom<E> {
    pub inbox: Inbox,
    /// The passes of the feeders, in their order.
    pub passes: [FeedPass; 5],
    /// What makes their loads, in the same order.
    pub makers: [Maker; 5],
    pub gather: Gather<E>,
}

// The makers of five feeders, each for at most so many bytes.
fn makers(alloc: Global, limit: u64) -> Result<[Maker; 5], NoMemory>
    ensures { IfOk result (AllByRecursion (IsFreshMaker limit)) }
{
    let limit = limit as usize;
    Ok([
        Maker::new(alloc, limit)?,
        Maker::new(alloc, limit)?,
        Maker::new(alloc, limit)?,
        Maker::new(alloc, limit)?,
        Maker::new(alloc, limit)?,
    ])
}

/// Makes what a weave starts from. The one refusal is `NoMemory`.
pub fn make_loom(alloc: Global, weaving: Weaving) -> Result<Loom<PlainEngine>, NoMemory>
    requires { IsWeaving weaving }
    ensures { IfOk result (IsFresh ⟦<PlainEngine as QueryEngine>⟧ weaving) }
{
    let (inbox, passes, pass) = Inbox::new(alloc, weaving.room)?;
    let engine = PlainEngine::new(alloc, weaving.config)?;
    Ok(Loom {
        inbox,
        passes,
        makers: makers(alloc, weaving.limit)?,
        gather: Gather::new(Taker::new(alloc, engine), pass),
    })
}
