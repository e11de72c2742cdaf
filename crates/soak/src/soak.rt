ghost use Rattle.std.specs.Prelude.{◌≡◌, ◌<◌, ◌≤◌, ◌+◌, ◌++◌, ◌^◌, ◌∷◌, [], List, length, OnOk};
ghost use Rattle.as_base.specs.declared.config.Config.{Config};
ghost use Rattle.as_base.specs.declared.item.Item.{Item};
ghost use Rattle.as_base.specs.Range.{InRange};
ghost use Rattle.session.specs.Shut.{end_of, shut};
ghost use Rattle.soak.specs.Tally.{IsTallyOf};
ghost use Rattle.soak.specs.Soaked.{items_of, counted, soak_text, HasSoaked};

use crate::tally::Tally;
use as_base::{Item, NoMemory, StreamId};
use as_words::append_spaced_decimal;
use generate::item;
use service::QueryEngine;
use std::alloc::{AllocError, Global};

/// An engine that takes generated lines, and what they bring about.
#[derive(Drop)]
pub struct Soak<E> {
    pub engine: E,
    pub tally: Tally,
    /// The lines that were taken.
    pub lines: u64,
}

impl<E: QueryEngine> Soak<E> {
    /// A soak over an engine that has taken nothing.
    pub fn new(engine: E) -> Soak<E>
        requires { E.stands engine [] }
        ensures soaked { HasSoaked E.QueryEngine (E.config engine) result [] }
        ensures same { result.engine ≡ engine }
        ensures none { result.lines ≡ 0 }
    {
        Soak {
            engine,
            tally: Tally::new(),
            lines: 0,
        }
    }

    // Takes an item, and counts what it brings about.
    fn take(&mut self, item: Item) -> Result<(), NoMemory>
        requires range { InRange item }
        requires few { E.count self.old.engine < 2 ^ 62 }
        ensures soaked { (c : Config) (h : List Item) → HasSoaked E.QueryEngine c self.old h →
            OnOk result (HasSoaked E.QueryEngine c self.new (h ++ item ∷ [])) }
        ensures count { OnOk result (E.count self.new.engine ≡ E.count self.old.engine + 1) }
        ensures lines { self.new.lines ≡ self.old.lines }
    {
        // A record makes nothing due.
        if let Item::Rec(given) = &item {
            let answer = self.engine.feed_record(given)?;
            return self.tally.count_told(&answer);
        }
        let fed = self.engine.feed(item)?;
        self.tally.count(&fed)
    }

    /// Takes the first lines that come of the number, at most 10,000,000, over the first `streams` streams, 2 to 4. The one
    /// refusal is `NoMemory`; `lines` tells how many were taken.
    pub fn take_lines(
        &mut self,
        alloc: Global,
        number: u64,
        lines: u64,
        streams: u8,
    ) -> Result<(), NoMemory>
        requires lines { lines ≤ 10000000 }
        requires streams { (2 ≤ streams) × (streams ≤ 4) }
        requires fresh { E.count self.old.engine ≡ 0 }
        requires none { self.old.lines ≡ 0 }
        ensures soaked { (c : Config) → HasSoaked E.QueryEngine c self.old [] →
            OnOk result (HasSoaked E.QueryEngine c self.new (items_of number lines streams)) }
        ensures count { OnOk result (E.count self.new.engine ≡ lines) }
        ensures all { OnOk result (self.new.lines ≡ lines) }
        ensures most { self.new.lines ≤ lines }
    {
        while self.lines < lines {
            let line = item(alloc, number, self.lines + 1, streams)?;
            self.take(line)?;
            self.lines += 1;
        }
        Ok(())
    }

    // Ends a stream, if it is open.
    fn end(&mut self, stream: StreamId) -> Result<(), NoMemory>
        requires { E.count self.old.engine < 2 ^ 62 }
        ensures soaked { (c : Config) (h : List Item) → HasSoaked E.QueryEngine c self.old h →
            OnOk result (HasSoaked E.QueryEngine c self.new (h ++ end_of c h stream)) }
        ensures count { OnOk result (E.count self.new.engine ≤ E.count self.old.engine + 1) }
        ensures lines { self.new.lines ≡ self.old.lines }
    {
        if !self.engine.is_open(stream) {
            return Ok(());
        }
        self.take(Item::End(stream))
    }

    /// Ends the streams that are open, in order. The one refusal is `NoMemory`.
    pub fn end_all(&mut self) -> Result<(), NoMemory>
        requires { E.count self.old.engine + 4 ≤ 2 ^ 62 }
        ensures soaked { (c : Config) (h : List Item) → HasSoaked E.QueryEngine c self.old h →
            OnOk result (HasSoaked E.QueryEngine c self.new (shut c h)) }
        ensures lines { self.new.lines ≡ self.old.lines }
    {
        self.end(StreamId::A)?;
        self.end(StreamId::B)?;
        self.end(StreamId::C)?;
        self.end(StreamId::D)
    }
}

// Appends a line of a name and a number.
fn append_counted(name: &[u8], n: u64, out: &mut Vec<u8>) -> Result<(), AllocError>
    ensures { OnOk result (out.new.items ≡ out.old.items ++ counted name.now n) }
{
    out.extend_from_slice(name)?;
    append_spaced_decimal(n, out)?;
    out.extend_from_slice(b"\n")
}

/// Appends what is said of so many lines: seven lines of a name and a number. The one refusal is `NoMemory`, after which a
/// part of it is appended.
pub fn append_soaked(lines: u64, tally: &Tally, out: &mut Vec<u8>) -> Result<(), NoMemory>
    ensures { (c : Config) (h : List Item) → IsTallyOf c (shut c h) tally.now → lines ≡ length h →
        OnOk result (out.new.items ≡ out.old.items ++ soak_text c h) }
{
    append_counted(b"lines", lines, out)?;
    append_counted(b"created", tally.created, out)?;
    append_counted(b"deleted", tally.deleted, out)?;
    append_counted(b"refused", tally.refused, out)?;
    append_counted(b"rows", tally.rows, out)?;
    append_counted(b"bytes", tally.bytes, out)?;
    append_counted(b"done", lines, out)?;
    Ok(())
}
