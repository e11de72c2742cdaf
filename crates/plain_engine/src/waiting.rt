ghost use Rattle.std.specs.Prelude.{◌≡◌, ◌≤◌, ◌+◌, nat_le, [], length, drop, vec_len, OnOk, OnErr};
ghost use Rattle.std.specs.List.{filter};
ghost use Rattle.as_base.specs.declared.item.Given.{Given};
ghost use Rattle.as_base.specs.Range.{IsTime};
ghost use Rattle.plain_engine.specs.Walk.{AreByTime, AreWaiting, IsPlaceAt, put_by_time};

use crate::windows::count_before;
use as_base::{Given, NoMemory};
use std::alloc::Global;
use std::marker::Model;

/// Records in the order of their times, from whose front those that are no longer needed go. Seen as the list of them.
#[derive(Debug, Drop)]
pub struct Waiting {
    records: Vec<Given>,
    // How many of the first records have gone.
    gone: usize,
}

impl Model for Waiting {
    ghost use Rattle.std.specs.Prelude.{◌≤◌, List, drop, length};
    ghost use Rattle.as_base.specs.declared.item.Given.{Given};
    ghost use Rattle.plain_engine.specs.Walk.{AreWaiting};

    ghost Value = { List Given };

    ghost view = { λ w. drop w.gone w.records.items };

    ghost invariant = { λ w. (w.gone ≤ length w.records.items) × AreWaiting (drop w.gone w.records.items) };
}

// How many of the records, which stand by time, are not after the time.
fn count_until(records: &[Given], time: u64) -> usize
    requires { AreByTime records.now }
    ensures bound { result ≤ length records.now }
    ensures place { IsPlaceAt time records.now result }
{
    records.partition_point(|given| given.time <= time)
}

// Puts a record to its place, after all that are not later, among those from a place on, which stand by time.
fn put_from(records: &mut Vec<Given>, from: usize, given: &Given) -> Result<(), NoMemory>
    requires within { from ≤ vec_len records.old }
    requires order { AreByTime (drop from records.old.items) }
    ensures ok { OnOk result (drop from records.new.items ≡ put_by_time given.now (drop from records.old.items)) }
    ensures err { OnErr result (records.new.items ≡ records.old.items) }
    ensures within { from ≤ length records.new.items }
{
    let place = count_until(&records[from..], given.time);
    records.insert(from + place, *given)?;
    Ok(())
}

// Cuts so many records off the front.
fn cut(records: &mut Vec<Given>, count: usize)
    requires { count ≤ vec_len records.old }
    ensures { records.new.items ≡ drop count records.old.items }
{
    records.drain(..count);
}

impl Waiting {
    /// No records.
    pub fn new(alloc: Global) -> Waiting
        ensures { result ≡ [] }
    {
        Waiting {
            records: Vec::new(alloc),
            gone: 0,
        }
    }

    /// The records.
    pub fn as_slice(&self) -> &[Given]
        ensures value { result.now ≡ self.now }
        ensures waiting { AreWaiting result.now }
    {
        &self.records[self.gone..]
    }

    /// Takes a record to its place, after all that are not later. The one refusal is `NoMemory`, after which nothing has
    /// changed.
    pub fn put(&mut self, given: &Given) -> Result<(), NoMemory>
        requires { IsTime given.now.time }
        ensures ok { OnOk result (self.new ≡ put_by_time given.now self.old) }
        ensures err { OnErr result (self.new ≡ self.old) }
    {
        put_from(&mut self.records, self.gone, given)
    }

    // Lets so many of the first records go. Their memory goes once they are more than those that stay.
    fn forget(&mut self, count: usize)
        requires { count ≤ length self.old }
        ensures { self.new ≡ drop count self.old }
    {
        self.gone += count;
        if self.gone > self.records.len() / 2 {
            cut(&mut self.records, self.gone);
            self.gone = 0;
        }
    }

    /// Lets the records go that are before the time.
    pub fn forget_before(&mut self, time: u64)
        ensures { self.new ≡ filter (λ (g : Given). nat_le time g.time) self.old }
    {
        let count = count_before(self.as_slice(), time);
        self.forget(count);
    }
}
