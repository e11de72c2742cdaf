ghost use Rattle.std.specs.Prelude.{ℕ, ◌≡◌, ◌<◌, ◌≤◌, ◌^◌, ◌+◌, ◌-◌, ◌++◌, [], ◌∷◌, None, true, length, if◌then◌else◌, slice_set, List};
ghost use Rattle.std.specs.List.{list_all};
ghost use Rattle.as_base.specs.declared.config.Config.{Config};
ghost use Rattle.as_base.specs.Range.{IsSpelled};
ghost use Rattle.as_outside.specs.declared.entry.Entry.{Entry};
ghost use Rattle.as_outside.specs.Makes.{Does};
ghost use Rattle.inbox.specs.declared.load.Load.{Load};
ghost use Rattle.inbox.specs.Passes.{id_of, taker_inbox, taken};
ghost use Rattle.service.specs.Processor.{broken_in};
ghost use Rattle.feeder.specs.Loads.{AllEnded};
ghost use Rattle.taker.specs.Gather.{halt_by};

use crate::halt::Halt;
use crate::taker::Taker;
use as_base::Item;
use as_outside::Shelf;
use inbox::{Ending, Inbox, Load, TakePass};
use service::{QueryEngine, Stop};
use std::sync::Wait;

/// How many lines are woven at most: more than any run of the service comes to.
const LINES_MAX: u64 = 1 << 61;

/// Takes loads, and weaves their lines until something halts it; then it takes and drops.
#[derive(Drop)]
pub struct Gather<E> {
    /// What notes and processes the lines.
    pub taker: Taker<E>,
    /// The right to take, with what was taken.
    pub pass: TakePass,
    /// Why nothing more is woven, if something halted it.
    pub halt: Option<Halt>,
    // Which feeders' last loads were taken.
    ended: [bool; 5],
}

impl<E: QueryEngine> Gather<E> {
    ghost use Rattle.taker.specs.Gather.{AreMarked, IsAt, StandsAfter, Ends};

    /// Nothing was taken.
    pub fn new(taker: Taker<E>, pass: TakePass) -> Gather<E>
        requires { taken pass ≡ [] }
        ensures same { (result.taker ≡ taker) × (result.pass ≡ pass) × (result.halt ≡ None) }
        ensures marked { AreMarked result.ended (taken pass) }
    {
        Gather {
            taker,
            pass,
            halt: None,
            ended: [false; 5],
        }
    }

    /// The last loads of all five were taken.
    pub fn is_over(&self) -> bool
        ensures ended { (t : List (ℕ × Load)) → AreMarked self.now.ended t → result ≡ true → AllEnded t }
        ensures marks { result ≡ list_all (λ mark. mark) self.now.ended }
    {
        let [one, two, three, four, five] = self.ended;
        one && two && three && four && five
    }

    // Weaves a line, where nothing halted it.
    fn weave<K: Shelf>(&mut self, shelf: &mut K, item: Item)
        requires range { IsSpelled item }
        requires few { E.count self.old.taker.processor.engine ≤ 2 ^ 61 }
        requires going { self.old.halt ≡ None }
        ensures pass { self.new.pass ≡ self.old.pass }
        ensures ended { self.new.ended ≡ self.old.ended }
        ensures few { self.new.halt ≡ None → E.count self.new.taker.processor.engine ≤ 2 ^ 61 }
        ensures at { (c : Config) (t : List (ℕ × Load)) (n : ℕ) (calls : List Entry) →
            IsAt E.QueryEngine c None self.old.taker.processor t calls → Does (K.seen shelf.old) (K.seen shelf.new) (λ more.
            IsAt E.QueryEngine c self.new.halt self.new.taker.processor (t ++ (n, Load.Line item) ∷ []) (calls ++ more)) }
    {
        if self.taker.processor.engine.items() >= LINES_MAX {
            self.halt = Some(Halt::Line(Stop::NoMemory));
            return;
        }
        match self.taker.weave(shelf, item) {
            Ok(()) => {}
            Err(halt) => self.halt = Some(halt),
        }
    }

    // Weaves a line, if nothing halted it; else drops it.
    fn line<K: Shelf>(&mut self, shelf: &mut K, item: Item)
        requires range { IsSpelled item }
        requires few { self.old.halt ≡ None → E.count self.old.taker.processor.engine ≤ 2 ^ 61 }
        ensures pass { self.new.pass ≡ self.old.pass }
        ensures ended { self.new.ended ≡ self.old.ended }
        ensures few { self.new.halt ≡ None → E.count self.new.taker.processor.engine ≤ 2 ^ 61 }
        ensures at { (c : Config) (t : List (ℕ × Load)) (n : ℕ) (calls : List Entry) →
            IsAt E.QueryEngine c self.old.halt self.old.taker.processor t calls → Does (K.seen shelf.old) (K.seen shelf.new) (λ more.
            IsAt E.QueryEngine c self.new.halt self.new.taker.processor (t ++ (n, Load.Line item) ∷ []) (calls ++ more)) }
    {
        match self.halt {
            Some(_) => {}
            None => self.weave(shelf, item),
        }
    }

    // Takes a feeder's last load.
    fn last(&mut self, feeder: u8, ending: Ending)
        requires feeder { (0 < feeder) × (feeder < 6) }
        ensures pass { self.new.pass ≡ self.old.pass }
        ensures taker { self.new.taker ≡ self.old.taker }
        ensures going { self.new.halt ≡ None → self.old.halt ≡ None }
        ensures ended { self.new.ended ≡ slice_set self.old.ended (feeder - 1) true }
        ensures at { (c : Config) (t : List (ℕ × Load)) (calls : List Entry) →
            IsAt E.QueryEngine c self.old.halt self.old.taker.processor t calls →
            IsAt E.QueryEngine c self.new.halt self.new.taker.processor (t ++ (feeder, Load.Last ending) ∷ []) calls }
    {
        self.ended[usize::from(feeder) - 1] = true;
        match self.halt {
            Some(_) => {}
            None => self.halt = halt_by(feeder, ending),
        }
    }

    /// Takes a load, if there is one; whether there was.
    pub fn take<R: Wait, K: Shelf>(&mut self, rt: &R, inbox: &Inbox, shelf: &mut K) -> bool
        requires inbox { taker_inbox self.old.pass ≡ id_of inbox.now }
        requires few { self.old.halt ≡ None → E.count self.old.taker.processor.engine ≤ 2 ^ 61 }
        requires marked { AreMarked self.old.ended (taken self.old.pass) }
        ensures inbox { taker_inbox self.new.pass ≡ taker_inbox self.old.pass }
        ensures took { length (taken self.new.pass) ≡ length (taken self.old.pass) + (if result then 1 else 0) }
        ensures few { self.new.halt ≡ None → E.count self.new.taker.processor.engine ≤ 2 ^ 61 }
        ensures marked { AreMarked self.new.ended (taken self.new.pass) }
        ensures at { (c : Config) (calls : List Entry) → StandsAfter E.QueryEngine c self.old calls →
            Does (K.seen shelf.old) (K.seen shelf.new) (λ more. StandsAfter E.QueryEngine c self.new (calls ++ more)) }
    {
        match inbox.take(rt, &mut self.pass) {
            None => false,
            Some((_, Load::Line(item))) => {
                self.line(shelf, item);
                true
            }
            Some((feeder, Load::Last(ending))) => {
                self.last(feeder, ending);
                true
            }
        }
    }

    /// Does what a run does at the end of its input, where nothing halted it.
    pub fn finish<K: Shelf>(&mut self, shelf: &mut K) -> Result<(), Halt>
        requires few { self.old.halt ≡ None → E.count self.old.taker.processor.engine ≤ 2 ^ 61 }
        ensures pass { self.new.pass ≡ self.old.pass }
        ensures ends { (c : Config) (calls : List Entry) → StandsAfter E.QueryEngine c self.old calls →
            Does (K.seen shelf.old) (K.seen shelf.new) (λ more.
            Ends c result self.new.taker.processor.lines (broken_in self.new.taker.processor) (taken self.old.pass) (calls ++ more)) }
    {
        match self.halt {
            Some(halt) => Err(halt),
            None => match self.taker.processor.finish(shelf) {
                Ok(()) => Ok(()),
                Err(stop) => Err(Halt::Line(stop)),
            },
        }
    }
}

// The halt by a last load, if it is one.
fn halt_by(feeder: u8, ending: Ending) -> Option<Halt>
    ensures { result ≡ halt_by feeder ending }
{
    match ending {
        Ending::Whole => None,
        Ending::ReadFault | Ending::TooLong | Ending::NoMemory => Some(Halt::Feed(feeder, ending)),
    }
}
