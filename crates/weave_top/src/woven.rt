ghost use Rattle.std.specs.Prelude.{◌≡◌, ◌++◌, [], ◌∷◌, List, map};
ghost use Rattle.as_base.specs.declared.config.Config.{Config};
ghost use Rattle.as_outside.specs.declared.entry.Entry.{Entry};
ghost use Rattle.as_outside.specs.Makes.{Does};
ghost use Rattle.inbox.specs.Passes.{id_of, inbox_of, taker_inbox, taken, closed_taken, five_times};
ghost use Rattle.inbox.specs.Roles.{AllFed};
ghost use Rattle.inbox.specs.Sound.{IsSound};
ghost use Rattle.feeder.specs.Loads.{AllEnded};
ghost use Rattle.service.specs.Processor.{broken_in};
ghost use Rattle.taker.specs.Gather.{Keeps, StandsAfter, Ends};
ghost use Rattle.team.specs.Team.{all_of, AllAt, AreKept};
ghost use Rattle.weave_top.specs.declared.weaving.Weaving.{Weaving};
ghost use Rattle.weave_top.specs.Fed.{WentThrough};
ghost use Rattle.weave_top.specs.Loom.{IsFresh};
ghost use Rattle.weave_top.specs.Sources.{all_sources};

use crate::desk::Desk;
use crate::loom::Loom;
use crate::sources::Sources;
use as_outside::{Gate, Shelf, Source};
use feeder::{Feeder, Maker};
use inbox::{Closed, FeedPass, Inbox};
use service::{Processor, QueryEngine};
use std::sync::Wait;
use std::thread::Threads;
use taker::{Gather, Halt, Taker};
use team::{Five, Skips, run_team};

/// What a weave leaves.
#[derive(Drop)]
pub struct Woven<F, E> {
    /// The sources, as they were left.
    pub sources: Sources<F>,
    /// Why it did not come to its end, if it did not.
    pub outcome: Result<(), Halt>,
    /// What has processed the lines.
    pub processor: Processor<E>,
    pub closed: Closed,
}

// The five one by one.
fn each_of<T>(five: [T; 5]) -> (T, T, T, T, T)
    ensures { five ≡ result.0 ∷ result.1 ∷ result.2 ∷ result.3 ∷ result.4 ∷ [] }
{
    let [one, two, three, four, five] = five;
    (one, two, three, four, five)
}

// The feeders of the sources, with their makers and passes.
fn feeders_of<F: Source + Send + Drop>(
    sources: Sources<F>,
    makers: [Maker; 5],
    passes: [FeedPass; 5],
) -> Five<F>
    ensures sources { map (λ f. f.source) (all_of result) ≡ all_sources sources }
    ensures makers { map (λ f. f.maker) (all_of result) ≡ makers }
    ensures passes { map (λ f. f.pass) (all_of result) ≡ passes }
{
    let makers = each_of(makers);
    let passes = each_of(passes);
    Five {
        one: Feeder::new(sources.one, makers.0, passes.0, 1),
        two: Feeder::new(sources.two, makers.1, passes.1, 2),
        three: Feeder::new(sources.three, makers.2, passes.2, 3),
        four: Feeder::new(sources.four, makers.3, passes.3, 4),
        five: Feeder::new(sources.five, makers.4, passes.4, 5),
    }
}

// The sources and the passes of the feeders.
fn apart<F: Source + Send + Drop>(feeders: Five<F>) -> (Sources<F>, [FeedPass; 5])
    ensures sources { all_sources result.0 ≡ map (λ f. f.source) (all_of feeders) }
    ensures passes { result.1 ≡ map (λ f. f.pass) (all_of feeders) }
{
    let Five {
        one,
        two,
        three,
        four,
        five,
    } = feeders;
    let sources = Sources {
        one: one.source,
        two: two.source,
        three: three.source,
        four: four.source,
        five: five.source,
    };
    let passes = [one.pass, two.pass, three.pass, four.pass, five.pass];
    (sources, passes)
}

// Runs the feeders and the taker to their end.
fn run<
    'k,
    'g,
    'f,
    F: Source + Send + Drop,
    K: Shelf,
    E: QueryEngine,
    R: Threads + Wait + Sync,
    G: Gate,
>(
    rt: &R,
    gate: &G,
    skips: &Skips,
    inbox: &Inbox,
    feeders: Five<F>,
    desk: &mut Desk<'k, 'g, 'f, K, E, F>,
)
    requires inbox { taker_inbox desk.old.gather.now.pass ≡ id_of inbox.now }
    requires keeps { Keeps E.QueryEngine desk.old.gather.now }
    requires feeders { AllAt inbox.now (all_of feeders) }
    ensures shelf { desk.new.shelf.ghost_name ≡ desk.old.shelf.ghost_name }
    ensures gather { desk.new.gather.ghost_name ≡ desk.old.gather.ghost_name }
    ensures five { desk.new.five.ghost_name ≡ desk.old.five.ghost_name }
    ensures inbox { taker_inbox desk.new.gather.now.pass ≡ taker_inbox desk.old.gather.now.pass }
    ensures keeps { Keeps E.QueryEngine desk.new.gather.now }
    ensures ended { AllEnded (taken desk.new.gather.now.pass) }
    ensures stands { (c : Config) (calls : List Entry) → StandsAfter E.QueryEngine c desk.old.gather.now calls →
        Does (K.seen desk.old.shelf.now) (K.seen desk.new.shelf.now) (λ more.
        StandsAfter E.QueryEngine c desk.new.gather.now (calls ++ more)) }
    ensures kept { AreKept F.Source (all_of feeders) desk.new.five.now }
{
    run_team(rt, inbox, gate, skips, feeders, desk)
}

// The same at a shelf that is lent.
fn run_at<F: Source + Send + Drop, K: Shelf, E: QueryEngine, R: Threads + Wait + Sync, G: Gate>(
    rt: &R,
    gate: &G,
    skips: &Skips,
    inbox: &Inbox,
    feeders: Five<F>,
    gather: &mut Gather<E>,
    five: &mut Option<Five<F>>,
    shelf: &mut K,
)
    requires inbox { taker_inbox gather.old.pass ≡ id_of inbox.now }
    requires keeps { Keeps E.QueryEngine gather.old }
    requires feeders { AllAt inbox.now (all_of feeders) }
    ensures inbox { taker_inbox gather.new.pass ≡ taker_inbox gather.old.pass }
    ensures keeps { Keeps E.QueryEngine gather.new }
    ensures ended { AllEnded (taken gather.new.pass) }
    ensures stands { (c : Config) (calls : List Entry) → StandsAfter E.QueryEngine c gather.old calls →
        Does (K.seen shelf.old) (K.seen shelf.new) (λ more. StandsAfter E.QueryEngine c gather.new (calls ++ more)) }
    ensures kept { AreKept F.Source (all_of feeders) five.new }
{
    let mut desk = Desk {
        shelf,
        gather,
        five,
    };
    run(rt, gate, skips, inbox, feeders, &mut desk);
    let Desk {
        shelf: _,
        gather: _,
        five: _,
    } = desk;
}

/// Weaves the lines of five sources into one journal, and processes them.
pub fn weave_on<
    F: Source + Send + Drop,
    K: Shelf,
    E: QueryEngine + Drop,
    R: Threads + Wait + Sync,
    G: Gate,
>(rt: &R, gate: &G, loom: Loom<E>, sources: Sources<F>, shelf: &mut K) -> Woven<F, E>
    requires inbox { taker_inbox loom.gather.pass ≡ id_of loom.inbox }
    requires keeps { Keeps E.QueryEngine loom.gather }
    requires passes { map inbox_of loom.passes ≡ five_times (id_of loom.inbox) }
    ensures ends { (w : Weaving) → IsFresh E.QueryEngine w loom → Does (K.seen shelf.old) (K.seen shelf.new)
        (Ends w.config result.outcome result.processor.lines (broken_in result.processor) (closed_taken result.closed)) }
    ensures through { (w : Weaving) → IsFresh E.QueryEngine w loom →
        WentThrough w.limit (map F.seen (all_sources sources)) (map F.seen (all_sources result.sources)) result.closed }
    ensures fed { AllFed IsSound (closed_taken result.closed) }
{
    let Loom {
        inbox,
        passes,
        makers,
        mut gather,
    } = loom;
    let feeders = feeders_of(sources, makers, passes);
    let skips = Skips::new();
    let mut kept = None;
    run_at(
        rt,
        gate,
        &skips,
        &inbox,
        feeders,
        &mut gather,
        &mut kept,
        shelf,
    );
    let outcome = gather.finish(shelf);
    let Some(five) = kept else { unreachable!() };
    let (sources, passes) = apart(five);
    let Gather { taker, pass, .. } = gather;
    let Taker { processor, .. } = taker;
    Woven {
        sources,
        outcome,
        processor,
        closed: inbox.close(rt, passes, pass),
    }
}
