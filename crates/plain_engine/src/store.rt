ghost use Rattle.std.specs.Prelude.{◌≡◌, [], ℕ, nat_lt, map, IfOk, OnOk};
ghost use Rattle.std.specs.List.{filter, list_all};
ghost use Rattle.std.specs.List.Sorted.{IsStrictlyIncreasing};
ghost use Rattle.as_base.specs.Pieces.{ArePieces};
ghost use Rattle.as_base.specs.Windows.{fits};
ghost use Rattle.as_base.specs.declared.item.Record.{Record};
ghost use Rattle.views.specs.View.{View};
ghost use Rattle.views.specs.Message.{after, Follows};
ghost use Rattle.views.specs.IsView.{IsView, first_view};
ghost use Rattle.row_text.specs.RowText.{text_of};
ghost use Rattle.plain_engine.specs.Held.{Held};
ghost use Rattle.plain_engine.specs.Holding.{mark_by, with_given, ended, still_awaits, forgotten};

use crate::holding::Holding;
use crate::marks::mark_by;
use crate::pieces::pieces_of;
use as_base::{Change, Given, Msg, NoMemory, Pieces, Plan, Record};
use std::alloc::Global;

/// The queries that may still get rows, by rising number, each with its records, and the watermarks of the four streams.
#[derive(Debug, Drop)]
pub struct Store {
    alloc: Global,
    pub marks: [u64; 4],
    pub held: Vec<Holding>,
    ghost rising: { IsStrictlyIncreasing (map (λ (h : Held). h.n) held.items) },
}

// Gives a record to each query that wants it.
fn take_among(held: &mut [Holding], given: &Given) -> Result<(), NoMemory>
    ensures ok { OnOk result (held.new ≡ map (with_given given.now) held.old) }
    ensures numbers { map (λ (h : Held). h.n) held.new ≡ map (λ (h : Held). h.n) held.old }
{
    for holding in held.iter_mut() {
        holding.take(given)?;
    }
    Ok(())
}

// Ends the life of query `n` at a time, if it is among these.
fn end_among(held: &mut [Holding], n: u64, at: u64)
    ensures { held.new ≡ map (ended n at) held.old }
{
    for holding in held.iter_mut() {
        holding.end(n, at);
    }
}

// Drops each query that can get no more rows.
fn drop_ended(held: &mut Vec<Holding>, marks: &[u64; 4])
    ensures { held.new.items ≡ filter (still_awaits marks.now) held.old.items }
{
    held.retain(|holding| holding.awaits(mark_by(marks, holding.plan())));
}

// Lets the records go that no window wants any more.
fn forget_among(held: &mut [Holding], marks: &[u64; 4])
    ensures { held.new ≡ map (λ (h : Held). forgotten (mark_by marks.now h.plan) h) held.old }
{
    for holding in held.iter_mut() {
        let mark = mark_by(marks, holding.plan());
        holding.forget(mark);
    }
}

// The number is above those of all queries.
fn is_next(held: &[Holding], n: u64) -> bool
    ensures { result ≡ list_all (λ (h : Held). nat_lt h.n n) held.now }
{
    held.iter().all(|holding| holding.number() < n)
}

impl Store {
    ghost use Rattle.plain_engine.specs.Store.{StandsFor, GrowsBy};

    /// A store that has taken nothing.
    pub fn new(alloc: Global) -> Store
        ensures { StandsFor result first_view }
    {
        Store {
            alloc,
            marks: [0; 4],
            held: Vec::new(alloc),
        }
    }

    /// Takes a record to each query that wants it. It brings no piece. The one refusal is `NoMemory`, after which the
    /// store is of no more use.
    pub fn take_record(&mut self, given: &Given) -> Result<(), NoMemory>
        ensures { (v : View) (r : Record) → r.given ≡ given.now → IsView v → Follows v (Msg.Rec r) → StandsFor self.old v →
            OnOk result (StandsFor self.new (after v (Msg.Rec r)) × ((n : ℕ) → text_of (after v (Msg.Rec r)) n ≡ text_of v n)) }
    {
        take_among(&mut self.held, given)
    }

    // Opens a query. Nothing is done where its windows break the limits or its number is not above all others, which no
    // change that may follow has, and where its stream's watermark has reached its end.
    fn open(&mut self, n: u64, plan: &Plan, at: u64) -> Result<(), NoMemory>
        ensures { (v : View) (slot : ℕ) → IsView v → Follows v (Msg.Change (Change.Opened n slot at plan.now)) →
            StandsFor self.old v → OnOk result (StandsFor self.new (after v (Msg.Change (Change.Opened n slot at plan.now)))) }
    {
        if !plan.win.fits() {
            return Ok(());
        }
        if !is_next(&self.held, n) {
            return Ok(());
        }
        let holding = Holding::opened(self.alloc, n, plan, at);
        if !holding.awaits(mark_by(&self.marks, plan)) {
            return Ok(());
        }
        self.held.push(holding)?;
        Ok(())
    }

    // Closes a query, which is held until its watermark has reached its end.
    fn close(&mut self, n: u64, at: u64)
        ensures { (v : View) (slot : ℕ) → IsView v → Follows v (Msg.Change (Change.Closed n slot at)) → StandsFor self.old v →
            StandsFor self.new (after v (Msg.Change (Change.Closed n slot at))) }
    {
        end_among(&mut self.held, n, at);
        drop_ended(&mut self.held, &self.marks);
    }

    // Takes the watermarks: the rows of the windows that they pass, and then forgets what no window wants any more.
    fn advance(&mut self, marks: &[u64; 4]) -> Result<Pieces, NoMemory>
        ensures stands { (v : View) → IsView v → Follows v (Msg.Advance marks.now) → StandsFor self.old v → IfOk result (λ pieces.
            StandsFor self.new (after v (Msg.Advance marks.now)) × GrowsBy v (after v (Msg.Advance marks.now)) pieces) }
        ensures order { IfOk result ArePieces }
    {
        let pieces = pieces_of(self.alloc, &self.held, &self.marks, marks)?;
        drop_ended(&mut self.held, marks);
        forget_among(&mut self.held, marks);
        self.marks = *marks;
        Ok(pieces)
    }

    // Takes a change.
    fn change(&mut self, change: &Change) -> Result<(), NoMemory>
        ensures { (v : View) → IsView v → Follows v (Msg.Change change.now) → StandsFor self.old v →
            OnOk result (StandsFor self.new (after v (Msg.Change change.now))) }
    {
        match change {
            Change::Opened { n, at, plan, .. } => self.open(*n, plan, *at),
            Change::Closed { n, at, .. } => {
                self.close(*n, *at);
                Ok(())
            }
        }
    }

    // Takes an accepted record.
    fn take_accepted(&mut self, accepted: &Record) -> Result<Pieces, NoMemory>
        ensures stands { (v : View) → IsView v → Follows v (Msg.Rec accepted.now) → StandsFor self.old v → IfOk result (λ pieces.
            StandsFor self.new (after v (Msg.Rec accepted.now)) × GrowsBy v (after v (Msg.Rec accepted.now)) pieces) }
        ensures none { IfOk result (λ pieces. pieces ≡ []) }
    {
        self.take_record(&accepted.given)?;
        Ok(Pieces::from_vec(Vec::new(self.alloc)))
    }

    // Takes a change, which brings no piece.
    fn take_change(&mut self, change: &Change) -> Result<Pieces, NoMemory>
        ensures stands { (v : View) → IsView v → Follows v (Msg.Change change.now) → StandsFor self.old v → IfOk result (λ pieces.
            StandsFor self.new (after v (Msg.Change change.now)) × GrowsBy v (after v (Msg.Change change.now)) pieces) }
        ensures none { IfOk result (λ pieces. pieces ≡ []) }
    {
        self.change(change)?;
        Ok(Pieces::from_vec(Vec::new(self.alloc)))
    }

    /// Takes a message: the pieces of text that it makes due, by rising query number and none of them empty. The one
    /// refusal is `NoMemory`, after which the store is of no more use.
    pub fn take(&mut self, message: &Msg) -> Result<Pieces, NoMemory>
        ensures stands { (v : View) → IsView v → Follows v message.now → StandsFor self.old v → IfOk result (λ pieces.
            StandsFor self.new (after v message.now) × GrowsBy v (after v message.now) pieces) }
        ensures order { IfOk result ArePieces }
    {
        match message {
            Msg::Rec(record) => self.take_accepted(record),
            Msg::Advance { wm } => self.advance(wm),
            Msg::Change(change) => self.take_change(change),
        }
    }
}
