ghost use Rattle.std.specs.Prelude.{◌≡◌, ◌<◌, IfOk, IsTrue};
ghost use Rattle.box_lanes.specs.Index.{look, empty_table, IsMarked};

use crate::start::Start;
use crate::starts::{count_until, mark};
use as_base::NoMemory;
use queryset_lanes::QuerySet;
use std::alloc::Global;
use std::marker::Model;

// Which slots hold a value of one field, by the starts of the intervals in which these are the same.
#[derive(Drop)]
pub(crate) struct Index {
    starts: Vec<Start>,
}

impl Model for Index {
    ghost use Rattle.std.specs.Prelude.{List};
    ghost use Rattle.box_lanes.specs.declared.start.Start.{Start};
    ghost use Rattle.box_lanes.specs.Index.{IsTable};

    ghost Value = { List Start };

    ghost view = { λ x. x.starts.items };

    ghost invariant = { λ x. IsTable x.starts.items };
}

impl Index {
    // No slot holds any value. There is room for so many starts.
    pub(crate) fn new(alloc: Global, room: usize) -> Result<Index, NoMemory>
        ensures { IfOk result (λ x. x ≡ empty_table) }
    {
        let mut starts = Vec::with_capacity(alloc, room)?;
        let first = Start {
            low: i64::MIN,
            set: QuerySet::none(),
        };
        starts.push(first)?;
        Ok(Index { starts })
    }

    // The slots that hold the value.
    #[inline]
    pub(crate) fn look(&self, value: i64) -> QuerySet
        ensures { result ≡ look self.now value }
    {
        let after = count_until(&self.starts, value);
        self.starts[after - 1].set
    }

    // Sets the slot, or takes it away, at each value of the interval, or answers `false` for want of room.
    pub(crate) fn mark(&mut self, slot: u16, low: i64, high: i64, on: bool) -> bool
        requires { slot < 512 }
        ensures { IsTrue result → IsMarked slot low high on self.old self.new }
    {
        mark(&mut self.starts, slot, low, high, on)
    }

    // No slot holds any value any more.
    pub(crate) fn reset(&mut self)
        ensures { self.new ≡ empty_table }
    {
        self.starts.truncate(1);
        self.starts[0].set = QuerySet::none();
    }
}
