//! A queue between two stages, with room for so many items, all of it made at the start.
#![tactic(auto)]

ghost use Rattle.std.specs.Prelude.{◌≡◌, ◌<◌, ◌≤◌, ◌++◌, ◌↔◌, [], ◌∷◌, drop, length, slice_get, IfErr, IfOk, IfSome, IsOk, IsTrue, OnOk};
ghost use Rattle.lane.specs.Queue.{queue, HasRoom};

use as_base::NoMemory;
use circular_buffer::HeapCircularBuffer;
use std::alloc::Global;
use std::marker::Model;

/// A first-in, first-out queue of fixed room: contracts see it as its items, from the front to the back, and its room.
/// Only `new` takes memory.
#[derive(Drop)]
pub struct Lane<T> {
    ring: HeapCircularBuffer<T>,
}

impl<T> Model for Lane<T> {
    ghost use Rattle.lane.specs.Queue.{Queue, queue, queue_code, HasRoom};

    ghost Value = { Queue T };

    ghost coded = { queue_code T.code };

    ghost view = { λ lane. queue lane.ring.items lane.ring.capacity };

    ghost invariant = { λ lane. HasRoom (queue lane.ring.items lane.ring.capacity) };
}

impl<T> Lane<T> {
    /// An empty lane with room for `room` items, 1 or more; `NoMemory` where there is no memory for them.
    pub fn new(alloc: Global, room: u32) -> Result<Lane<T>, NoMemory>
        requires { 1 ≤ room }
        ensures { IfOk result (λ lane. lane ≡ queue [] room) }
    {
        let ring = HeapCircularBuffer::with_capacity(alloc, room as usize)?;
        Ok(Lane { ring })
    }

    /// Adds an item at the back, without memory. Exactly where the lane is full, hands the item back and leaves the
    /// lane as it was.
    pub fn push(&mut self, x: T) -> Result<(), T>
        ensures variant { IsOk result ↔ (length self.old.items < self.old.room) }
        ensures ok { OnOk result (self.new ≡ queue (self.old.items ++ x ∷ []) self.old.room) }
        ensures err { IfErr result (λ back. (back ≡ x) × (self.new ≡ self.old)) }
    {
        self.ring.try_push_back(x)
    }

    /// Takes the item at the front; `None` exactly where the lane is empty.
    pub fn pop(&mut self) -> Option<T>
        ensures value { result ≡ slice_get self.old.items 0 }
        ensures items { self.new ≡ queue (drop 1 self.old.items) self.old.room }
        ensures front { IfSome result (λ x. self.old.items ≡ x ∷ self.new.items) }
    {
        self.ring.pop_front()
    }

    /// How many items the lane holds, from 0 to its room.
    pub fn len(&self) -> u32
        ensures len { result ≡ length self.now.items }
        ensures room { HasRoom self.now }
    {
        self.ring.len() as u32
    }

    /// Whether the lane holds as many items as it has room for.
    pub fn is_full(&self) -> bool
        ensures full { IsTrue result ↔ (length self.now.items ≡ self.now.room) }
        ensures room { HasRoom self.now }
    {
        self.ring.is_full()
    }
}

#[cfg(test)]
mod tests {
    use super::*;
    use std::test::Fail;

    #[test]
    fn a_full_lane_hands_back(rt: HostRuntime) -> Result<(), Fail> {
        let mut lane = Lane::new(rt.alloc(), 1)?;
        assert_eq!(rt; lane.push(8u64), Ok(()));
        assert_eq!(rt; lane.push(9), Err(9));
        assert_eq!(rt; lane.pop(), Some(8));
        assert_eq!(rt; lane.pop(), None);
        Ok(())
    }
}
