ghost use Rattle.std.specs.Prelude.{◌≡◌, ◌<◌, ◌+◌, ◌++◌, ◌^◌, [], ◌∷◌, List, IfErr, OnOk, OnErr, ℕ};
ghost use Rattle.as_words.specs.Prefix.{IsPrefix};
ghost use Rattle.as_base.specs.declared.config.Config.{Config};
ghost use Rattle.as_base.specs.declared.item.Item.{Item};
ghost use Rattle.as_base.specs.Range.{IsSpelled};
ghost use Rattle.as_outside.specs.declared.entry.Entry.{Entry};
ghost use Rattle.as_outside.specs.declared.entry.Entry.TheVariants.{Noted, NoteFailed};
ghost use Rattle.as_outside.specs.Makes.{Makes, Does};
ghost use Rattle.service.specs.Processor.{HasProcessed, broken_in};
ghost use Rattle.service.specs.Stop.{Continues, Goes, IsStopped};
ghost use Rattle.taker.specs.Journal.{note_of};
ghost use Rattle.taker.specs.Woven.{HasWoven, Weaves};

use crate::halt::Halt;
use as_base::{Item, NoMemory};
use as_lineform::item_text;
use as_outside::Shelf;
use service::{Processor, QueryEngine, Stop};
use std::alloc::Global;

/// Notes items in the journal and processes them.
#[derive(Drop)]
pub struct Taker<E> {
    /// What processes them.
    pub processor: Processor<E>,
    // The note in hand.
    note: Vec<u8>,
}

// Writes the note of an item in the place of the last.
fn write_note(item: &Item, note: &mut Vec<u8>) -> Result<(), NoMemory>
    ensures { OnOk result (note.new.items ≡ note_of item.now) }
{
    note.clear();
    item_text(item, note)?;
    note.push(b'\n')?;
    Ok(())
}

// Notes the bytes. Where that fails, the taker is halted.
fn note<K: Shelf>(shelf: &mut K, bytes: &[u8]) -> Result<(), Halt>
    ensures halt { IfErr result (λ h. h ≡ Halt.Journal) }
    ensures ok { OnOk result (Makes (K.seen shelf.old) (K.seen shelf.new) (Noted bytes.now ∷ [])) }
    ensures err { OnErr result ((front : List ℕ) × IsPrefix front bytes.now ×
        Makes (K.seen shelf.old) (K.seen shelf.new) (NoteFailed front ∷ [])) }
{
    match shelf.note(bytes) {
        Ok(()) => Ok(()),
        Err(_) => Err(Halt::Journal),
    }
}

// Processes an item; a record in a way of its own, which is quicker.
fn process<E: QueryEngine, K: Shelf>(
    processor: &mut Processor<E>,
    shelf: &mut K,
    item: Item,
) -> Result<(), Stop>
    requires range { IsSpelled item }
    requires few { E.count processor.old.engine < 2 ^ 62 }
    ensures calls { (c : Config) (h : List Item) (calls : List Entry) → HasProcessed E.QueryEngine c processor.old h calls →
        Continues (K.seen shelf.old) (K.seen shelf.new) calls (Goes result
        (HasProcessed E.QueryEngine c processor.new (h ++ item ∷ []))
        (λ s. IsStopped c s processor.new.lines (broken_in processor.new) (h ++ item ∷ []))) }
    ensures count { OnOk result (E.count processor.new.engine ≡ E.count processor.old.engine + 1) }
{
    match item {
        Item::Rec(given) => processor.process_record(shelf, &given),
        item => processor.process(shelf, item),
    }
}

impl<E: QueryEngine> Taker<E> {
    /// A taker that has noted nothing, over an engine that has taken nothing.
    pub fn new(alloc: Global, engine: E) -> Taker<E>
        requires { E.stands engine [] }
        ensures woven { HasWoven E.QueryEngine (E.config engine) result.processor [] [] }
        ensures same { result.processor.engine ≡ engine }
    {
        Taker {
            processor: Processor::new(alloc, engine),
            note: Vec::new(alloc),
        }
    }

    /// Notes an item, then does what a run does for its line. A halt is by a note that failed, after which the item is not
    /// processed, by want of memory, or by a say that failed.
    pub fn weave<K: Shelf>(&mut self, shelf: &mut K, item: Item) -> Result<(), Halt>
        requires range { IsSpelled item }
        requires few { E.count self.old.processor.engine < 2 ^ 62 }
        ensures calls { (c : Config) (h : List Item) (calls : List Entry) → HasWoven E.QueryEngine c self.old.processor h calls →
            Does (K.seen shelf.old) (K.seen shelf.new) (λ more. Weaves E.QueryEngine c result self.new.processor h item (calls ++ more)) }
        ensures count { OnOk result (E.count self.new.processor.engine ≡ E.count self.old.processor.engine + 1) }
    {
        if write_note(&item, &mut self.note).is_err() {
            return Err(Halt::Line(Stop::NoMemory));
        }
        note(shelf, &self.note)?;
        match process(&mut self.processor, shelf, item) {
            Ok(()) => Ok(()),
            Err(stop) => Err(Halt::Line(stop)),
        }
    }
}
