ghost use Rattle.std.specs.Prelude.{ℕ, true, false, Ok, max, slice_index_or, slice_set, ◌≡◌, ◌<◌, ◌≤◌, ◌+◌, ◌^◌, ◌==◌, if◌then◌else◌, not, position, List, [], ◌∷◌, ◌++◌, length, map, IfOk, OnOk, OnErr, Some, None};
ghost use Rattle.std.specs.List.{remove};
ghost use Rattle.std.specs.Vec.{vec_capacity};
ghost use Rattle.as_base.specs.declared.config.Config.{Config};
ghost use Rattle.as_base.specs.declared.item.Item.{Item};
ghost use Rattle.as_base.specs.declared.answer.Word.TheVariants as word;
ghost use Rattle.as_base.specs.declared.message.Change.{Change};
ghost use Rattle.as_base.specs.Range.{InRange, IsTime};
ghost use Rattle.as_base.specs.Stream.{place_of};
ghost use Rattle.slot_alloc.specs.Slots.{is_live, live_count};
ghost use Rattle.session.specs.Book.{refusal_of_cause};
ghost use Rattle.session.specs.Seats.{AreSeated};

use crate::decision::Decision;
use as_base::{
    Answer, Cause, Change, FOREVER, Given, Item, Msg, NoMemory, Plan, Record, StreamId, Text, Word,
};
use query_plan::plan_of;
use slot_alloc::{Full, Slots};
use std::alloc::Global;

/// Where a stream stands.
#[derive(Clone, Copy, Debug, PartialEq, Eq)]
pub struct Clock {
    /// The greatest time of its records and watermarks up to its end, in ticks, or 0.
    pub front: u64,
    /// The greatest of these watermarks, in ticks, or 0.
    pub mark: u64,
    /// The stream has ended.
    pub ended: bool,
}

impl Clock {
    // The watermark of the stream, which is `FOREVER` from its end on.
    fn watermark(&self) -> u64
        ensures { result ≡ (if self.now.ended then 2 ^ 62 else self.now.mark) }
    {
        if self.ended { FOREVER } else { self.mark }
    }
}

/// A query that lives, by its number, and its slot.
#[derive(Clone, Copy, Debug, PartialEq, Eq)]
pub struct Seat {
    pub n: u64,
    pub slot: u16,
}

/// What is kept of the items taken so far, which is all that decides the next one. It takes no more room as they grow.
#[derive(Debug, Drop)]
pub struct Session {
    alloc: Global,
    /// How many streams are configured, the first of a to d: from 2 to 4.
    pub streams: u8,
    /// How many items were taken.
    pub items: u64,
    /// Where each of the four streams stands, in their order.
    pub clocks: [Clock; 4],
    /// The tick after all records and watermarks that count, or 0.
    pub changelog_time: u64,
    /// How many queries were made.
    pub made: u64,
    /// Which slots are live.
    pub slots: Slots,
    /// The queries that live, by number.
    pub live: Vec<Seat>,
    ghost configured: { (2 ≤ streams) × (streams ≤ 4) },
    ghost few: { made ≤ items },
    ghost seated: { AreSeated slots live.items },
    ghost counted: { live_count slots ≡ length live.items },
    ghost room: { length slots ≤ vec_capacity live },
}

// The place of a stream among the four.
fn place_of(stream: StreamId) -> usize
    ensures value { result ≡ place_of stream }
    ensures bound { result < 4 }
{
    stream as usize
}

// The word that refuses an item of a stream, if one does, which is the first of these; `last` where the item is behind.
fn first_refusal(configured: bool, ended: bool, behind: bool, last: Word) -> Option<Word>
    ensures { result ≡ (if not configured then Some word.Stranger
        else (if ended then Some word.Ended else (if behind then Some last else None))) }
{
    if !configured {
        return Some(Word::Stranger);
    }
    if ended {
        return Some(Word::Ended);
    }
    if behind { Some(last) } else { None }
}

// The word that a line in no form is refused by.
fn refusal_of_cause(cause: Cause) -> Word
    ensures { result ≡ refusal_of_cause cause }
{
    match cause {
        Cause::Long => Word::Long,
        Cause::Form => Word::Form,
    }
}

// The watermarks of the four streams.
fn watermarks(clocks: &[Clock; 4]) -> [u64; 4]
    ensures { result ≡ map (λ k. if k.ended then 2 ^ 62 else k.mark) clocks.now }
{
    clocks.map(|clock| clock.watermark())
}

// The changelog time after a record or a watermark at this time.
fn changelog_after(changelog: u64, time: u64) -> u64
    requires { IsTime time }
    ensures { result ≡ max changelog (time + 1) }
{
    changelog.max(time + 1)
}

// What is decided of a deletion.
fn deleted(line: u64, n: u64, slot: u16, at: u64) -> Decision
    ensures { result ≡ Decision.Acted (record { line = line; word = word.Deleted n at }) (Change.Closed n slot at) }
{
    let answer = Answer {
        line,
        word: Word::Deleted { n, at },
    };
    Decision::Acted(answer, Change::Closed { n, slot, at })
}

// Takes a seat away, and frees its slot, which is live.
fn leave(live: &mut Vec<Seat>, slots: &mut Slots, place: usize) -> Seat
    requires place { place < length live.old.items }
    requires held { (d : Seat) → is_live slots.old (slice_index_or live.old.items place d).slot ≡ true }
    ensures seat { result ≡ slice_index_or live.old.items place result }
    ensures live { live.new.items ≡ remove live.old.items place }
    ensures room { vec_capacity live.new ≡ vec_capacity live.old }
    ensures slots { slots.new ≡ slice_set slots.old result.slot false }
    ensures counted { live_count slots.new + 1 ≡ live_count slots.old }
{
    let seat = live.remove(place);
    slots.give(seat.slot);
    seat
}

// The place of a query among the live ones, if it lives.
fn place_of_seat(live: &[Seat], n: u64) -> Option<usize>
    ensures { result ≡ position (λ s. s.n == n) live.now }
{
    live.iter().position(|seat| seat.n == n)
}

impl Session {
    ghost use Rattle.session.specs.Acceptance.{has_ended};
    ghost use Rattle.session.specs.Book.{stream_refusal};
    ghost use Rattle.session.specs.Decision.{IsDecided, decision_on};
    ghost use Rattle.session.specs.Planned.{plan_for};
    ghost use Rattle.session.specs.Session.{clock_of, StandsFor};

    /// A session that has taken nothing, for the first `streams` of the four streams, from 2 to 4, and with so many
    /// slots, from 1 to 512: it makes room for a live query in each. The one refusal is `NoMemory`.
    pub fn new(alloc: Global, streams: u8, slots: u16) -> Result<Session, NoMemory>
        requires streams { (2 ≤ streams) × (streams ≤ 4) }
        requires slots { (1 ≤ slots) × (slots ≤ 512) }
        ensures { (c : Config) → c.streams ≡ streams → c.slots ≡ slots → IfOk result (λ s. StandsFor c s []) }
    {
        let clock = Clock {
            front: 0,
            mark: 0,
            ended: false,
        };
        Ok(Session {
            alloc,
            streams,
            items: 0,
            clocks: [clock; 4],
            changelog_time: 0,
            made: 0,
            slots: Slots::new(slots),
            live: Vec::with_capacity(alloc, usize::from(slots))?,
        })
    }

    // Where the stream stands.
    fn clock_of(&self, stream: StreamId) -> Clock
        ensures { (c : Config) (h : List Item) → StandsFor c self.now h → result ≡ clock_of c h stream }
    {
        self.clocks[place_of(stream)]
    }

    // The word that refuses an item of the stream, if one does; `last` where the item is behind.
    fn stream_refusal(&self, stream: StreamId, behind: bool, last: Word) -> Option<Word>
        ensures { (c : Config) (h : List Item) → StandsFor c self.now h → result ≡ stream_refusal c h stream behind last }
    {
        let configured = place_of(stream) < usize::from(self.streams);
        first_refusal(configured, self.ended(stream), behind, last)
    }

    /// Takes a record: the number of its line, or the answer that refuses it. It takes no memory.
    #[inline(always)]
    pub fn accept_record(&mut self, given: &Given) -> Result<u64, Answer>
        requires range { IsTime given.now.time }
        requires few { self.old.items < 2 ^ 62 }
        ensures stands { (c : Config) (h : List Item) → StandsFor c self.old h →
            StandsFor c self.new (h ++ Item.Rec given.now ∷ []) × IsDecided c h (Item.Rec given.now) (decision_on given.now result) }
        ensures count { self.new.items ≡ self.old.items + 1 }
    {
        let clock = self.clock_of(given.stream);
        let refusal = self.stream_refusal(given.stream, given.time < clock.front, Word::Late);
        self.items += 1;
        let line = self.items;
        if let Some(word) = refusal {
            return Err(Answer { line, word });
        }
        self.clocks[place_of(given.stream)] = Clock {
            front: given.time,
            ..clock
        };
        self.changelog_time = changelog_after(self.changelog_time, given.time);
        Ok(line)
    }

    // Takes a record.
    fn take_record(&mut self, given: &Given) -> Decision
        requires range { IsTime given.now.time }
        requires few { self.old.items < 2 ^ 62 }
        ensures stands { (c : Config) (h : List Item) → StandsFor c self.old h →
            StandsFor c self.new (h ++ Item.Rec given.now ∷ []) × IsDecided c h (Item.Rec given.now) result }
        ensures count { self.new.items ≡ self.old.items + 1 }
    {
        match self.accept_record(given) {
            Ok(seq) => Decision::Pass(Msg::Rec(Record { seq, given: *given })),
            Err(answer) => Decision::Told(answer),
        }
    }

    // Takes a watermark of a stream.
    fn take_mark(&mut self, stream: StreamId, time: u64) -> Decision
        requires range { IsTime time }
        requires few { self.old.items < 2 ^ 62 }
        ensures stands { (c : Config) (h : List Item) → StandsFor c self.old h →
            StandsFor c self.new (h ++ Item.Mark stream time ∷ []) × IsDecided c h (Item.Mark stream time) result }
        ensures count { self.new.items ≡ self.old.items + 1 }
    {
        let clock = self.clock_of(stream);
        let refusal = self.stream_refusal(stream, time < clock.mark, Word::Back);
        self.items += 1;
        let line = self.items;
        if let Some(word) = refusal {
            return Decision::Told(Answer { line, word });
        }
        self.clocks[place_of(stream)] = Clock {
            front: clock.front.max(time),
            mark: time,
            ended: false,
        };
        self.changelog_time = changelog_after(self.changelog_time, time);
        Decision::Pass(Msg::Advance {
            wm: watermarks(&self.clocks),
        })
    }

    // Takes the end of a stream.
    fn take_end(&mut self, stream: StreamId) -> Decision
        requires few { self.old.items < 2 ^ 62 }
        ensures stands { (c : Config) (h : List Item) → StandsFor c self.old h →
            StandsFor c self.new (h ++ Item.End stream ∷ []) × IsDecided c h (Item.End stream) result }
        ensures count { self.new.items ≡ self.old.items + 1 }
    {
        let clock = self.clock_of(stream);
        let refusal = self.stream_refusal(stream, false, Word::Ended);
        self.items += 1;
        let line = self.items;
        if let Some(word) = refusal {
            return Decision::Told(Answer { line, word });
        }
        self.clocks[place_of(stream)] = Clock {
            ended: true,
            ..clock
        };
        Decision::Pass(Msg::Advance {
            wm: watermarks(&self.clocks),
        })
    }

    // Takes the creation of a query with this plan.
    fn open(&mut self, plan: Plan) -> Decision
        requires few { self.old.items < 2 ^ 62 }
        ensures stands { (c : Config) (h : List Item) (text : List ℕ) →
            plan_for c text ≡ Ok plan → StandsFor c self.old h →
            StandsFor c self.new (h ++ Item.Create text ∷ []) × IsDecided c h (Item.Create text) result }
        ensures count { self.new.items ≡ self.old.items + 1 }
    {
        self.items += 1;
        let line = self.items;
        let slot = match self.slots.take() {
            Ok(slot) => slot,
            Err(Full) => {
                return Decision::Told(Answer {
                    line,
                    word: Word::Full,
                });
            }
        };
        self.made += 1;
        let n = self.made;
        let at = self.changelog_time;
        self.live.push_reserved(Seat { n, slot });
        Decision::Acted(
            Answer {
                line,
                word: Word::Created { n, at },
            },
            Change::Opened { n, slot, at, plan },
        )
    }

    // Takes a creation.
    fn take_creation(&mut self, text: &Text) -> Result<Decision, NoMemory>
        requires few { self.old.items < 2 ^ 62 }
        ensures stands { (c : Config) (h : List Item) → StandsFor c self.old h → IfOk result (λ d.
            StandsFor c self.new (h ++ Item.Create text.now ∷ []) × IsDecided c h (Item.Create text.now) d) }
        ensures count { OnOk result (self.new.items ≡ self.old.items + 1) }
        ensures kept { OnErr result (self.new ≡ self.old) }
    {
        match plan_of(self.alloc, text, self.streams)? {
            Ok(plan) => Ok(self.open(plan)),
            Err(word) => {
                self.items += 1;
                Ok(Decision::Told(Answer {
                    line: self.items,
                    word,
                }))
            }
        }
    }

    // Takes a deletion.
    fn take_deletion(&mut self, n: u64) -> Decision
        requires few { self.old.items < 2 ^ 62 }
        ensures stands { (c : Config) (h : List Item) → StandsFor c self.old h →
            StandsFor c self.new (h ++ Item.Delete n ∷ []) × IsDecided c h (Item.Delete n) result }
        ensures count { self.new.items ≡ self.old.items + 1 }
    {
        self.items += 1;
        let line = self.items;
        let Some(place) = place_of_seat(&self.live, n) else {
            return Decision::Told(Answer {
                line,
                word: Word::Unknown,
            });
        };
        let seat = leave(&mut self.live, &mut self.slots, place);
        deleted(line, n, seat.slot, self.changelog_time)
    }

    // Takes a line in no form.
    fn take_bad(&mut self, cause: Cause) -> Decision
        requires few { self.old.items < 2 ^ 62 }
        ensures stands { (c : Config) (h : List Item) → StandsFor c self.old h →
            StandsFor c self.new (h ++ Item.Bad cause ∷ []) × IsDecided c h (Item.Bad cause) result }
        ensures count { self.new.items ≡ self.old.items + 1 }
    {
        self.items += 1;
        Decision::Told(Answer {
            line: self.items,
            word: refusal_of_cause(cause),
        })
    }

    /// Takes an item, and decides it by the items before it. The one fault is `NoMemory`: a creation alone takes memory,
    /// to read its text, and where there is none the session is as it was before. Only a deletion looks at each live
    /// query; nothing else takes longer the more items were taken or queries made.
    pub fn accept(&mut self, item: &Item) -> Result<Decision, NoMemory>
        requires range { InRange item.now }
        requires few { self.old.items < 2 ^ 62 }
        ensures stands { (c : Config) (h : List Item) → StandsFor c self.old h → IfOk result (λ d.
            StandsFor c self.new (h ++ item.now ∷ []) × IsDecided c h item.now d) }
        ensures count { OnOk result (self.new.items ≡ self.old.items + 1) }
        ensures cause { OnErr result ((text : List ℕ) × (item.now ≡ Item.Create text)) }
        ensures kept { OnErr result (self.new ≡ self.old) }
    {
        match item {
            Item::Rec(given) => Ok(self.take_record(given)),
            Item::Mark(stream, time) => Ok(self.take_mark(*stream, *time)),
            Item::End(stream) => Ok(self.take_end(*stream)),
            Item::Create(text) => self.take_creation(text),
            Item::Delete(n) => Ok(self.take_deletion(*n)),
            Item::Bad(cause) => Ok(self.take_bad(*cause)),
        }
    }

    /// The stream has ended.
    pub fn ended(&self, stream: StreamId) -> bool
        ensures { (c : Config) (h : List Item) → StandsFor c self.now h → result ≡ has_ended c h stream }
    {
        self.clocks[place_of(stream)].ended
    }

    /// How many items were taken.
    pub fn items(&self) -> u64
        ensures value { result ≡ self.now.items }
        ensures stands { (c : Config) (h : List Item) → StandsFor c self.now h → result ≡ length h }
    {
        self.items
    }
}

#[cfg(test)]
mod tests;
