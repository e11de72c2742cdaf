ghost use Rattle.std.specs.Prelude.{◌≡◌, ◌<◌, length, slice_index_or};
ghost use Rattle.slice_store.specs.Placed.{Placed, placed, placed_of};

use as_base::Record;
use queryset_lanes::QuerySet;
use std::marker::Model;

/// The records of a slice, lent, each beside its set. Seen as the list of both.
#[derive(Drop)]
pub(crate) struct Side<'a> {
    records: &'a [Record],
    sets: &'a [QuerySet],
}

impl<'a> Model for Side<'a> {
    ghost use Rattle.std.specs.Prelude.{◌≡◌, List, length};
    ghost use Rattle.slice_store.specs.Placed.{Placed, placed_of};

    ghost Value = { List Placed };

    ghost view = { λ s. placed_of s.records.now s.sets.now };

    ghost invariant = { λ s. length s.records.now ≡ length s.sets.now };
}

// The record and the set at a place.
fn beside<'a>(
    records: &'a [Record],
    sets: &'a [QuerySet],
    place: usize,
) -> (&'a Record, &'a QuerySet)
    requires same { length records.now ≡ length sets.now }
    requires within { place < length records.now }
    ensures { (d : Placed) → slice_index_or (placed_of records.now sets.now) place d ≡ placed result.0.now result.1.now }
{
    (&records[place], &sets[place])
}

impl<'a> Side<'a> {
    /// The records, each with the set at its place.
    pub(crate) fn new(records: &'a [Record], sets: &'a [QuerySet]) -> Side<'a>
        requires { length records.now ≡ length sets.now }
        ensures { result ≡ placed_of records.now sets.now }
    {
        Side { records, sets }
    }

    /// How many records there are.
    pub(crate) fn len(&self) -> usize
        ensures { result ≡ length self.now }
    {
        self.records.len()
    }

    /// The record and the set at a place.
    pub(crate) fn at(&self, place: usize) -> (&Record, &QuerySet)
        requires { place < length self.now }
        ensures { (d : Placed) → slice_index_or self.now place d ≡ placed result.0.now result.1.now }
    {
        beside(self.records, self.sets, place)
    }
}
