ghost use Rattle.std.specs.Prelude.{◌≡◌, ◌<◌, ◌≤◌, ◌+◌, ◌++◌, ◌^◌, [], ◌∷◌, ℕ, List, length, IfOk, OnOk, OnErr};
ghost use Rattle.std.specs.List.{flat_map};
ghost use Rattle.as_base.specs.declared.config.Config.{Config};
ghost use Rattle.as_base.specs.declared.item.Item.{Item};
ghost use Rattle.as_base.specs.Range.{InRange, IsTime};
ghost use Rattle.as_outside.specs.declared.entry.Entry.{Entry};
ghost use Rattle.service.specs.AnswerText.{answered_text, broken_text, done_text, last_text};
ghost use Rattle.service.specs.Broken.{HasRoom};
ghost use Rattle.service.specs.Processor.{broken_in, IsLeftBefore, IsLeftAmongEnds, HasTaken, HasProcessed, HasPrepared, IsFinished};
ghost use Rattle.service.specs.Stop.{Continues, Goes, IsStopped, IsStoppedAtEnd};
ghost use Rattle.session.specs.Outcome.{only_told};
ghost use Rattle.session.specs.Shut.{end_of, shut};

use crate::broken::Broken;
use crate::delivery::{deliver, put_all, say};
use crate::engine::QueryEngine;
use crate::stop::Stop;
use as_base::{Answer, Fed, Given, Item, NoMemory, StreamId};
use as_lineform::answer_text;
use as_outside::Shelf;
use as_words::append_spaced_decimal;
use std::alloc::Global;

/// Takes items, and makes the calls on a shelf that they bring about.
#[derive(Drop)]
pub struct Processor<E> {
    /// What decides the items.
    pub engine: E,
    /// The text of the last answer.
    pub text: Vec<u8>,
    /// The lines for which all memory was had.
    pub lines: u64,
    /// The outputs that broke: a begin of each failed, or a put.
    pub broken: Broken,
}

impl<E: QueryEngine> Processor<E> {
    /// A processor over an engine that has taken nothing.
    pub fn new(alloc: Global, engine: E) -> Processor<E>
        requires { E.stands engine [] }
        ensures processed { HasProcessed E.QueryEngine (E.config engine) result [] [] }
        ensures same { result.engine ≡ engine }
    {
        Processor {
            engine,
            text: Vec::new(alloc),
            lines: 0,
            broken: Broken::new(alloc),
        }
    }

    // Takes an item, makes the text of its answer, and room for the outputs that may break by it, before any call.
    fn prepare(&mut self, item: Item) -> Result<Fed, NoMemory>
        requires range { InRange item }
        requires few { E.count self.old.engine < 2 ^ 62 }
        ensures prepared { (h : List Item) → E.stands self.old.engine h → IfOk result (λ fed.
            HasPrepared E.QueryEngine (E.config self.old.engine) self.new h item fed) }
        ensures config { E.config self.new.engine ≡ E.config self.old.engine }
        ensures count { OnOk result (E.count self.new.engine ≡ E.count self.old.engine + 1) }
        ensures broken { broken_in self.new ≡ broken_in self.old }
        ensures room { IfOk result (λ fed. HasRoom self.new.broken (length fed.pieces + 1)) }
        ensures lines { OnErr result (self.new.lines ≡ self.old.lines) }
    {
        let fed = self.engine.feed(item)?;
        write_answer(fed.answer, &mut self.text)?;
        self.broken.reserve(fed.pieces.as_slice().len() + 1)?;
        self.lines = self.engine.items();
        Ok(fed)
    }

    /// Takes an item, begins the output of a query that it created, puts the pieces that it made due, and says its answer.
    /// A begin or a put that fails breaks its output alone: it is listed, and gets no further call. It stops at want of
    /// memory, before any call, and where the say fails.
    pub fn process<S: Shelf>(&mut self, shelf: &mut S, item: Item) -> Result<(), Stop>
        requires range { InRange item }
        requires few { E.count self.old.engine < 2 ^ 62 }
        ensures calls { (c : Config) (h : List Item) (calls : List Entry) → HasProcessed E.QueryEngine c self.old h calls →
            Continues (S.seen shelf.old) (S.seen shelf.new) calls (Goes result
            (HasProcessed E.QueryEngine c self.new (h ++ item ∷ []))
            (λ s. IsStopped c s self.new.lines (broken_in self.new) (h ++ item ∷ []))) }
        ensures count { OnOk result (E.count self.new.engine ≡ E.count self.old.engine + 1) }
    {
        let fed = self.prepare(item)?;
        deliver(shelf, &mut self.broken, &fed);
        say(shelf, &self.text)
    }

    // Takes a record, and makes the text of its answer, before any call.
    #[inline(always)]
    fn prepare_record(&mut self, given: &Given) -> Result<Option<Answer>, NoMemory>
        requires range { IsTime given.now.time }
        requires few { E.count self.old.engine < 2 ^ 62 }
        ensures prepared { (h : List Item) → E.stands self.old.engine h → IfOk result (λ answer.
            HasPrepared E.QueryEngine (E.config self.old.engine) self.new h (Item.Rec given.now) (only_told answer)) }
        ensures config { E.config self.new.engine ≡ E.config self.old.engine }
        ensures count { OnOk result (E.count self.new.engine ≡ E.count self.old.engine + 1) }
        ensures broken { broken_in self.new ≡ broken_in self.old }
        ensures lines { OnErr result (self.new.lines ≡ self.old.lines) }
    {
        let answer = self.engine.feed_record(given)?;
        write_answer(answer, &mut self.text)?;
        self.lines = self.engine.items();
        Ok(answer)
    }

    /// Takes a record, and says its answer, if it has one: it makes nothing due. It stops at want of memory, before the
    /// call, and where the say fails.
    #[inline(always)]
    pub fn process_record<S: Shelf>(&mut self, shelf: &mut S, given: &Given) -> Result<(), Stop>
        requires range { IsTime given.now.time }
        requires few { E.count self.old.engine < 2 ^ 62 }
        ensures calls { (c : Config) (h : List Item) (calls : List Entry) → HasProcessed E.QueryEngine c self.old h calls →
            Continues (S.seen shelf.old) (S.seen shelf.new) calls (Goes result
            (HasProcessed E.QueryEngine c self.new (h ++ Item.Rec given.now ∷ []))
            (λ s. IsStopped c s self.new.lines (broken_in self.new) (h ++ Item.Rec given.now ∷ []))) }
        ensures count { OnOk result (E.count self.new.engine ≡ E.count self.old.engine + 1) }
    {
        self.prepare_record(given)?;
        say(shelf, &self.text)
    }

    // Ends a stream, if it is open, and puts the pieces that this makes due. It stops at want of memory, before any call.
    fn end<S: Shelf>(&mut self, shelf: &mut S, stream: StreamId) -> Result<(), Stop>
        requires { E.count self.old.engine < 2 ^ 62 }
        ensures calls { (c : Config) (lines : ℕ) (h : List Item) (calls : List Entry) → HasTaken E.QueryEngine c self.old lines h calls →
            Continues (S.seen shelf.old) (S.seen shelf.new) calls (Goes result
            (HasTaken E.QueryEngine c self.new lines (h ++ end_of c h stream))
            (IsLeftBefore c self.new lines h)) }
        ensures count { OnOk result (E.count self.new.engine ≤ E.count self.old.engine + 1) }
    {
        if !self.engine.is_open(stream) {
            return Ok(());
        }
        let fed = self.engine.feed(Item::End(stream))?;
        self.broken.reserve(fed.pieces.as_slice().len())?;
        put_all(shelf, &mut self.broken, fed.pieces.as_slice());
        Ok(())
    }

    // Ends the streams that are open, in order, and puts the pieces that this makes due.
    fn end_all<S: Shelf>(&mut self, shelf: &mut S) -> Result<(), Stop>
        requires { E.count self.old.engine + 4 ≤ 2 ^ 62 }
        ensures { (c : Config) (lines : ℕ) (h : List Item) (calls : List Entry) → HasTaken E.QueryEngine c self.old lines h calls →
            Continues (S.seen shelf.old) (S.seen shelf.new) calls (Goes result
            (HasTaken E.QueryEngine c self.new lines (shut c h))
            (IsLeftAmongEnds c self.new lines h)) }
    {
        self.end(shelf, StreamId::A)?;
        self.end(shelf, StreamId::B)?;
        self.end(shelf, StreamId::C)?;
        self.end(shelf, StreamId::D)
    }

    /// Ends the streams that are open, in order, puts the pieces that this makes due, and says the last lines: one for each
    /// broken output, and how many lines were taken. It stops at want of memory, before the calls that it is for, and where
    /// the say fails.
    pub fn finish<S: Shelf>(&mut self, shelf: &mut S) -> Result<(), Stop>
        requires { E.count self.old.engine + 4 ≤ 2 ^ 62 }
        ensures { (c : Config) (h : List Item) (calls : List Entry) → HasProcessed E.QueryEngine c self.old h calls →
            Continues (S.seen shelf.old) (S.seen shelf.new) calls (Goes result
            (IsFinished c self.new.lines (broken_in self.new) h)
            (λ s. IsStoppedAtEnd c s self.new.lines (broken_in self.new) h)) }
    {
        self.end_all(shelf)?;
        self.text.clear();
        append_last(self.lines, &self.broken, &mut self.text)?;
        say(shelf, &self.text)
    }
}

// Writes the text of an answer, if there is one, in the place of the last.
#[inline(always)]
fn write_answer(answer: Option<Answer>, out: &mut Vec<u8>) -> Result<(), NoMemory>
    ensures { OnOk result (out.new.items ≡ answered_text answer) }
{
    out.clear();
    match answer {
        Some(answer) => answer_text(&answer, out),
        None => Ok(()),
    }
}

// Appends a line for each broken output.
fn append_broken(broken: &[u64], out: &mut Vec<u8>) -> Result<(), NoMemory>
    ensures { OnOk result (out.new.items ≡ out.old.items ++ flat_map broken_text broken.now) }
{
    for n in broken {
        append_broken_line(*n, out)?;
    }
    Ok(())
}

// Appends the line that says that output n is broken.
fn append_broken_line(n: u64, out: &mut Vec<u8>) -> Result<(), NoMemory>
    ensures { OnOk result (out.new.items ≡ out.old.items ++ broken_text n) }
{
    out.extend_from_slice(b"broken")?;
    append_spaced_decimal(n, out)?;
    out.extend_from_slice(b"\n")?;
    Ok(())
}

// Appends the last line of a run.
fn append_done(lines: u64, out: &mut Vec<u8>) -> Result<(), NoMemory>
    ensures { OnOk result (out.new.items ≡ out.old.items ++ done_text lines) }
{
    out.extend_from_slice(b"done")?;
    append_spaced_decimal(lines, out)?;
    out.extend_from_slice(b"\n")?;
    Ok(())
}

// Appends the last lines of a run.
fn append_last(lines: u64, broken: &Broken, out: &mut Vec<u8>) -> Result<(), NoMemory>
    ensures { OnOk result (out.new.items ≡ out.old.items ++ last_text broken.now.numbers.items lines) }
{
    append_broken(&broken.numbers, out)?;
    append_done(lines, out)
}
