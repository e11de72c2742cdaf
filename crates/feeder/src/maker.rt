ghost use Rattle.std.specs.Prelude.{◌≡◌, ◌<◌, ◌≤◌, ◌+◌, ◌++◌, ℕ, List, [], Option, Some, None, length, take, IfOk, IfSome};
ghost use Rattle.std.specs.Option.{option_to_list};
ghost use Rattle.as_base.specs.Range.{IsSpelled};
ghost use Rattle.as_lineform.specs.Cutter.{HasRead};
ghost use Rattle.as_lineform.specs.Lines.{lines};
ghost use Rattle.inbox.specs.declared.load.Load.{Load};
ghost use Rattle.feeder.specs.Maker.{line_loads, HasLoads, HasMade, IsIn, IsUnread, IsReading, IsEmpty, failed_in};
ghost use Rattle.feeder.specs.Going.{Makes};

use crate::next_load::NextLoad;
use crate::waiting::{PULL_MAX, Waiting};
use as_base::{Item, NoMemory};
use as_lineform::Lines;
use as_outside::Source;
use inbox::{Ending, Load};
use std::alloc::Global;

/// Where a maker of loads stands.
#[derive(Clone, Copy, Debug, PartialEq, Eq)]
pub enum Phase {
    /// Bytes are pulled and cut into lines.
    Reading,
    /// One byte more than the limit came, and no more are pulled; those within it are still cut.
    Over,
    /// The source has ended, and its last line was made.
    Closing,
    /// The last load was made.
    Ended(Ending),
}

/// Makes the loads of a source: cuts its bytes into lines at line feeds, at most so many bytes as its limit allows, and
/// one beyond it that only shows that the source is longer.
#[derive(Drop)]
pub struct Maker {
    pub(crate) cutter: Lines,
    pub(crate) waiting: Waiting,
    // How many more bytes the limit allows.
    pub(crate) most: usize,
    pub(crate) phase: Phase,
    pub(crate) next: NextLoad,
}

// The load of a line, if one came.
fn load_of(item: Option<Item>) -> NextLoad
    requires { IfSome item IsSpelled }
    ensures { option_to_list result ≡ line_loads (option_to_list item) }
{
    match item {
        Some(item) => NextLoad::new(Some(Load::Line(item))),
        None => NextLoad::new(None),
    }
}

// Takes a line, or a part of one, off the front of the bytes; one that is a record's and stands whole there is not copied.
fn take_front(cutter: &mut Lines, bytes: &[u8]) -> Result<(usize, Option<Item>), NoMemory>
    ensures within { IfOk result (λ taken. taken.0 ≤ length bytes.now) }
    ensures reads { (before : List ℕ) → HasRead cutter.old before → IfOk result (λ taken.
        HasRead cutter.new (before ++ take taken.0 bytes.now)
        × (lines (before ++ take taken.0 bytes.now) ≡ lines before ++ option_to_list taken.1)) }
    ensures range { IfOk result (λ taken. IfSome taken.1 IsSpelled) }
{
    match cutter.take_record(bytes) {
        Some((used, given)) => Ok((used, Some(Item::Rec(given)))),
        None => cutter.take(bytes),
    }
}

impl Maker {
    /// A maker that has made nothing, for at most so many bytes. The one refusal is `NoMemory`.
    pub fn new(alloc: Global, limit: usize) -> Result<Maker, NoMemory>
        ensures made { IfOk result (λ m. (left : Option (List ℕ)) → HasMade limit [] 0 left m []) }
    {
        Ok(Maker {
            cutter: Lines::new(alloc)?,
            waiting: Waiting::new(alloc)?,
            most: limit,
            phase: Phase::Reading,
            next: NextLoad::new(None),
        })
    }

    /// Makes what comes next: pulls once, or cuts a line or a part of one, or makes the last load.
    pub(crate) fn make<F: Source>(&mut self, source: &mut F)
        requires none { self.old.next ≡ None }
        ensures { Makes (F.seen source.old) (F.seen source.new) self.old self.new }
    {
        match self.phase {
            Phase::Reading => self.read_on(source),
            Phase::Over => self.read_over(),
            Phase::Closing => self.end(Ending::Whole),
            Phase::Ended(_) => {}
        }
    }

    // Makes the last load.
    fn end(&mut self, ending: Ending)
        ensures { self.new ≡ record self.old { phase = Phase.Ended ending; next = Some (Load.Last ending) } }
    {
        self.phase = Phase::Ended(ending);
        self.next = NextLoad::new(Some(Load::Last(ending)));
    }

    // Cuts a line, or what there is of one, off the bytes that wait.
    fn cut(&mut self)
        requires none { self.old.next ≡ None }
        requires unread { IsUnread self.old.phase }
        ensures calm { failed_in self.new.phase ≡ 0 }
        ensures made { (limit : ℕ) (given : List ℕ) (left : Option (List ℕ)) (made : List Load) →
            IsIn self.old.phase self.old.cutter self.old.waiting self.old.most limit given left made →
            HasLoads limit given left self.new made }
    {
        match take_front(&mut self.cutter, self.waiting.front()) {
            Ok((used, item)) => {
                self.waiting.skip(used);
                self.next = load_of(item);
            }
            Err(NoMemory) => self.end(Ending::NoMemory),
        }
    }

    fn read_on<F: Source>(&mut self, source: &mut F)
        requires none { self.old.next ≡ None }
        requires reading { self.old.phase ≡ Phase.Reading }
        ensures { Makes (F.seen source.old) (F.seen source.new) self.old self.new }
    {
        if self.waiting.is_empty() {
            self.pull(source);
        } else {
            self.cut();
        }
    }

    fn read_over(&mut self)
        requires none { self.old.next ≡ None }
        requires over { self.old.phase ≡ Phase.Over }
        ensures calm { failed_in self.new.phase ≡ 0 }
        ensures made { (limit : ℕ) (given : List ℕ) (left : Option (List ℕ)) (made : List Load) →
            IsReading 1 self.old.cutter self.old.waiting 0 limit given made → HasLoads limit given left self.new made }
    {
        if self.waiting.is_empty() {
            self.end(Ending::TooLong);
        } else {
            self.cut();
        }
    }

    // Pulls once.
    fn pull<F: Source>(&mut self, source: &mut F)
        requires none { self.old.next ≡ None }
        requires reading { self.old.phase ≡ Phase.Reading }
        requires waiting { self.old.waiting ≡ [] }
        ensures { Makes (F.seen source.old) (F.seen source.new) self.old self.new }
    {
        let room = self.room();
        match self.waiting.fill(source, room) {
            Err(_) => self.end(Ending::ReadFault),
            Ok(0) => self.close(),
            Ok(pulled) => self.take(pulled),
        }
    }

    // How many bytes the next pull asks for.
    fn room(&self) -> usize
        ensures { (0 < result) × (result ≤ 4096) × (result ≤ self.now.most + 1) }
    {
        if self.most < PULL_MAX {
            self.most + 1
        } else {
            PULL_MAX
        }
    }

    // So many bytes were pulled, and wait.
    #[tactic(auto, using(crate::proofs::MakingLaws::reading_beyond))]
    fn take(&mut self, pulled: usize)
        requires some { 0 < pulled }
        requires waits { length self.old.waiting ≡ pulled }
        requires room { pulled ≤ self.old.most + 1 }
        requires reading { self.old.phase ≡ Phase.Reading }
        ensures next { self.new.next ≡ self.old.next }
        ensures calm { failed_in self.new.phase ≡ 0 }
        ensures made { (limit : ℕ) (given : List ℕ) (left : Option (List ℕ)) (made : List Load) →
            IsReading 0 self.old.cutter [] self.old.most limit given made →
            IsIn self.new.phase self.new.cutter self.new.waiting self.new.most limit (given ++ self.old.waiting) left made }
    {
        if pulled > self.most {
            self.waiting.keep_front(self.most);
            self.phase = Phase::Over;
        } else {
            self.most -= pulled;
        }
    }

    // The source has ended: its last line is made, if it has one.
    fn close(&mut self)
        requires none { self.old.next ≡ None }
        ensures calm { failed_in self.new.phase ≡ 0 }
        ensures made { (limit : ℕ) (given : List ℕ) (left : Option (List ℕ)) (made : List Load) → IsEmpty left →
            IsReading 0 self.old.cutter [] self.old.most limit given made → HasLoads limit given left self.new made }
    {
        match self.cutter.finish() {
            Ok(Some(item)) => {
                self.phase = Phase::Closing;
                self.next = NextLoad::new(Some(Load::Line(item)));
            }
            Ok(None) => self.end(Ending::Whole),
            Err(NoMemory) => self.end(Ending::NoMemory),
        }
    }
}
