//! An index by key: for each key the places that were added for it, in their order.
#![tactic(auto)]

ghost use Rattle.std.specs.Prelude.{◌≡◌, ℤ, [], OnOk, OnErr};
ghost use Rattle.key_index.specs.Places.{places_of, added};

use as_base::NoMemory;
use indexmap::IndexMap;
use smallvec::SmallVec;
use std::alloc::Global;

/// For each key a list of places, which are any numbers. A key with up to three places takes no memory but its entry.
#[derive(Drop)]
pub struct KeyIndex {
    alloc: Global,
    lists: IndexMap<i64, SmallVec<u64, 3>>,
}

impl KeyIndex {
    /// No key has a place. Takes no memory.
    pub fn new(alloc: Global) -> KeyIndex
        ensures { (k : ℤ) → places_of result k ≡ [] }
    {
        KeyIndex {
            alloc,
            lists: IndexMap::new(alloc),
        }
    }

    /// Adds a place, last in the key's list, with one look-up. The one refusal is `NoMemory`, after which every key has the
    /// list that it had.
    pub fn add(&mut self, key: i64, place: u64) -> Result<(), NoMemory>
        ensures ok { OnOk result ((k : ℤ) → places_of self.new k ≡ added (places_of self.old) key place k) }
        ensures err { OnErr result ((k : ℤ) → places_of self.new k ≡ places_of self.old k) }
    {
        let list = self.lists.entry(key)?.or_insert(SmallVec::new(self.alloc));
        list.push(place)?;
        Ok(())
    }

    /// The key's places, in the order in which they were added; none where the key was not added.
    pub fn places(&self, key: i64) -> &[u64]
        ensures { result.now ≡ places_of self.now key }
    {
        match self.lists.get(&key) {
            Some(list) => list.as_slice(),
            None => &[],
        }
    }

    /// Takes all keys out. The memory of the table is kept.
    pub fn clear(&mut self)
        ensures { (k : ℤ) → places_of self.new k ≡ [] }
    {
        self.lists.clear();
    }
}

#[cfg(test)]
mod tests {
    use super::*;
    use std::test::Fail;

    // They are those, in this order.
    fn are(places: &[u64], wanted: &[u64]) -> bool {
        places == wanted
    }

    #[test]
    fn places_by_key(rt: HostRuntime) -> Result<(), Fail> {
        let mut index = KeyIndex::new(rt.alloc());
        assert!(rt; are(index.places(-7), &[]));
        index.add(-7, 3)?;
        index.add(5, 9)?;
        index.add(-7, 0)?;
        index.add(-7, 3)?;
        assert!(rt; are(index.places(-7), &[3, 0, 3]));
        assert!(rt; are(index.places(5), &[9]));
        assert!(rt; are(index.places(7), &[]));
        index.add(-7, 1)?;
        assert!(rt; are(index.places(-7), &[3, 0, 3, 1]));
        index.clear();
        assert!(rt; are(index.places(-7), &[]));
        assert!(rt; are(index.places(5), &[]));
        Ok(())
    }
}
