ghost use Rattle.std.specs.Prelude.{◌≡◌, ◌++◌, List};
ghost use Rattle.as_base.specs.declared.config.Config.{Config};
ghost use Rattle.as_outside.specs.declared.entry.Entry.{Entry};
ghost use Rattle.as_outside.specs.Makes.{Does};
ghost use Rattle.inbox.specs.Passes.{id_of, taker_inbox, taken};
ghost use Rattle.feeder.specs.Loads.{AllEnded};
ghost use Rattle.team.specs.Team.{all_of, AllAt, AreLater, AreKept};

use crate::hall::Hall;
use crate::seat::{Seat, start};
use as_outside::{Gate, Source};
use feeder::{Feeder, Patience};
use inbox::Inbox;
use std::marker::Model;
use std::sync::Wait;
use std::sync::atomic::AtomicBool;
use std::thread;
use std::thread::{Scope, Threads};

/// The five feeders, in their order.
#[derive(Drop)]
pub struct Five<F: Source + Drop> {
    pub one: Feeder<F>,
    pub two: Feeder<F>,
    pub three: Feeder<F>,
    pub four: Feeder<F>,
    pub five: Feeder<F>,
}

/// A flag for each of the five: it is set where no thread could be started.
#[derive(Drop)]
pub struct Skips {
    one: AtomicBool,
    two: AtomicBool,
    three: AtomicBool,
    four: AtomicBool,
    five: AtomicBool,
}

impl Skips {
    /// None is set.
    pub fn new() -> Skips {
        Skips {
            one: AtomicBool::new(false),
            two: AtomicBool::new(false),
            three: AtomicBool::new(false),
            four: AtomicBool::new(false),
            five: AtomicBool::new(false),
        }
    }
}

/// The five seats. Contracts see the feeders as they were before.
#[derive(Drop)]
pub struct Team<F: Source + Send + Drop> {
    one: Seat<F>,
    two: Seat<F>,
    three: Seat<F>,
    four: Seat<F>,
    five: Seat<F>,
}

impl<F: Source + Send + Drop> Model for Team<F> {
    ghost use Rattle.std.specs.Prelude.{List, ◌∷◌, []};
    ghost use Rattle.feeder.specs.declared.feeder.Feeder.{Feeder};

    ghost Value = { List (Feeder F) };

    ghost view = { λ t. t.one ∷ t.two ∷ t.three ∷ t.four ∷ t.five ∷ [] };
}

// Starts the five threads.
fn start_all<'s, E: 's, F: Source + Send + Drop + 's, R: Wait + Sync + 's, G: Gate + 's>(
    scope: &Scope<'s, E>,
    rt: &'s R,
    inbox: &'s Inbox,
    gate: &'s G,
    skips: &'s Skips,
    feeders: Five<F>,
) -> Team<F>
    requires { AllAt inbox.now (all_of feeders) }
    ensures { result ≡ all_of feeders }
{
    let Five {
        one,
        two,
        three,
        four,
        five,
    } = feeders;
    let one = start(scope, rt, inbox, gate, &skips.one, one);
    let two = start(scope, rt, inbox, gate, &skips.two, two);
    let three = start(scope, rt, inbox, gate, &skips.three, three);
    let four = start(scope, rt, inbox, gate, &skips.four, four);
    let five = start(scope, rt, inbox, gate, &skips.five, five);
    Team {
        one,
        two,
        three,
        four,
        five,
    }
}

impl<F: Source + Send + Drop> Team<F> {
    // Steps those that are here; whether one got on.
    fn nudge<R: Wait, G: Gate>(&mut self, rt: &R, inbox: &Inbox, gate: &G) -> bool
        requires { AllAt inbox.now self.old }
        ensures { self.new ≡ self.old }
    {
        self.one.nudge(rt, inbox, gate)
            | self.two.nudge(rt, inbox, gate)
            | self.three.nudge(rt, inbox, gate)
            | self.four.nudge(rt, inbox, gate)
            | self.five.nudge(rt, inbox, gate)
    }

    // The five, when their threads have ended.
    fn finish<R: Threads>(self, rt: &R) -> Five<F>
        ensures { AreLater F.Source self (all_of result) }
    {
        let Team {
            one,
            two,
            three,
            four,
            five,
        } = self;
        Five {
            one: one.finish(rt),
            two: two.finish(rt),
            three: three.finish(rt),
            four: four.finish(rt),
            five: five.finish(rt),
        }
    }
}

// Takes until the last loads of all five were taken, and steps between takes the feeders that have no thread. It waits
// where nothing was done in many turns.
fn take_all<F: Source + Send + Drop, R: Wait, G: Gate, H: Hall<R, F>>(
    rt: &R,
    inbox: &Inbox,
    gate: &G,
    team: &mut Team<F>,
    hall: &mut H,
)
    requires inbox { taker_inbox (H.pass hall.old) ≡ id_of inbox.now }
    requires keeps { H.keeps hall.old }
    requires feeders { AllAt inbox.now team.old }
    ensures same { team.new ≡ team.old }
    ensures name { H.name hall.new ≡ H.name hall.old }
    ensures inbox { taker_inbox (H.pass hall.new) ≡ taker_inbox (H.pass hall.old) }
    ensures keeps { H.keeps hall.new }
    ensures ended { AllEnded (taken (H.pass hall.new)) }
    ensures stands { (c : Config) (calls : List Entry) → H.stands hall.old c calls →
        Does (H.seen hall.old) (H.seen hall.new) (λ more. H.stands hall.new c (calls ++ more)) }
{
    let mut patience = Patience::new();
    for _ in rt.forever() {
        if hall.is_over() {
            break;
        }
        let took = hall.take(rt, inbox);
        let stepped = team.nudge(rt, inbox, gate);
        patience.turn(rt, took || stepped);
    }
}

// Takes until all five have ended, and keeps the feeders when their threads have.
fn work<F: Source + Send + Drop, R: Threads + Wait, G: Gate, H: Hall<R, F>>(
    rt: &R,
    inbox: &Inbox,
    gate: &G,
    mut team: Team<F>,
    hall: &mut H,
)
    requires inbox { taker_inbox (H.pass hall.old) ≡ id_of inbox.now }
    requires keeps { H.keeps hall.old }
    requires feeders { AllAt inbox.now team }
    ensures name { H.name hall.new ≡ H.name hall.old }
    ensures inbox { taker_inbox (H.pass hall.new) ≡ taker_inbox (H.pass hall.old) }
    ensures keeps { H.keeps hall.new }
    ensures ended { AllEnded (taken (H.pass hall.new)) }
    ensures stands { (c : Config) (calls : List Entry) → H.stands hall.old c calls →
        Does (H.seen hall.old) (H.seen hall.new) (λ more. H.stands hall.new c (calls ++ more)) }
    ensures kept { AreKept F.Source team (H.kept hall.new) }
{
    take_all(rt, inbox, gate, &mut team, hall);
    hall.keep(team.finish(rt));
}

/// Starts the five in threads of their own, takes until all have ended, joins them, and has them kept. A feeder whose
/// thread could not be started is stepped here, between takes.
pub fn run_team<
    'e,
    F: Source + Send + Drop + 'e,
    R: Threads + Wait + Sync + 'e,
    G: Gate + 'e,
    H: Hall<R, F>,
>(rt: &'e R, inbox: &'e Inbox, gate: &'e G, skips: &'e Skips, feeders: Five<F>, hall: &mut H)
    requires inbox { taker_inbox (H.pass hall.old) ≡ id_of inbox.now }
    requires keeps { H.keeps hall.old }
    requires feeders { AllAt inbox.now (all_of feeders) }
    ensures name { H.name hall.new ≡ H.name hall.old }
    ensures inbox { taker_inbox (H.pass hall.new) ≡ taker_inbox (H.pass hall.old) }
    ensures keeps { H.keeps hall.new }
    ensures ended { AllEnded (taken (H.pass hall.new)) }
    ensures stands { (c : Config) (calls : List Entry) → H.stands hall.old c calls →
        Does (H.seen hall.old) (H.seen hall.new) (λ more. H.stands hall.new c (calls ++ more)) }
    ensures kept { AreKept F.Source (all_of feeders) (H.kept hall.new) }
{
    let _back = thread::scope(
        thread::scope_env::<'e>(),
        rt,
        move |scope| -> &mut H
            requires inbox { taker_inbox (H.pass hall.now) ≡ id_of inbox.now }
            requires keeps { H.keeps hall.now }
            requires feeders { AllAt inbox.now (all_of feeders) }
            ensures same { result.ghost_name ≡ hall.entry.ghost_name }
            ensures name { H.name result.now ≡ H.name hall.entry.now }
            ensures inbox { taker_inbox (H.pass result.now) ≡ taker_inbox (H.pass hall.entry.now) }
            ensures keeps { H.keeps result.now }
            ensures ended { AllEnded (taken (H.pass result.now)) }
            ensures stands { (c : Config) (calls : List Entry) → H.stands hall.entry.now c calls →
                Does (H.seen hall.entry.now) (H.seen result.now) (λ more. H.stands result.now c (calls ++ more)) }
            ensures kept { AreKept F.Source (all_of feeders) (H.kept result.now) }
        {
            let team = start_all(scope, rt, inbox, gate, skips, feeders);
            work(rt, inbox, gate, team, hall);
            hall
        },
    );
}
