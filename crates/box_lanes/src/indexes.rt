ghost use Rattle.std.specs.Prelude.{◌≡◌, ◌<◌, IfOk, IsTrue};
ghost use Rattle.box_lanes.specs.Indexed.{no_indexes, look_all, AreFit, AreMarked};

use crate::index::Index;
use as_base::{Bounds, Given, NoMemory};
use queryset_lanes::QuerySet;
use std::alloc::Global;

// An index for each field. They are whole until one has had no room for an interval.
#[derive(Drop)]
pub(crate) struct Indexes {
    key: Index,
    v1: Index,
    v2: Index,
    v3: Index,
    v4: Index,
    is_whole: bool,
}

impl Indexes {
    // No slot has bounds. Each index has room for so many starts.
    pub(crate) fn new(alloc: Global, room: usize) -> Result<Indexes, NoMemory>
        ensures { IfOk result (λ x. x ≡ no_indexes) }
    {
        let key = Index::new(alloc, room)?;
        let v1 = Index::new(alloc, room)?;
        let v2 = Index::new(alloc, room)?;
        let v3 = Index::new(alloc, room)?;
        let v4 = Index::new(alloc, room)?;
        Ok(Indexes {
            key,
            v1,
            v2,
            v3,
            v4,
            is_whole: true,
        })
    }

    // Whether no index has wanted room.
    pub(crate) fn is_whole(&self) -> bool
        ensures { result ≡ self.now.is_whole }
    {
        self.is_whole
    }

    // The slots whose bounds hold the record.
    #[inline]
    pub(crate) fn look(&self, g: &Given) -> QuerySet
        ensures fits { AreFit g.now }
        ensures value { result ≡ look_all self.now g.now }
    {
        let front = self.v1.look(g.v[0]).and(&self.v2.look(g.v[1]));
        let back = self.v3.look(g.v[2]).and(&self.v4.look(g.v[3]));
        self.key.look(g.key).and(&front).and(&back)
    }

    // Takes in that the slot gets these bounds, or that it has them no more.
    pub(crate) fn mark(&mut self, slot: u16, b: &Bounds, on: bool)
        requires { slot < 512 }
        ensures { IsTrue self.new.is_whole → AreMarked slot b.now on self.old self.new }
    {
        let key = self.key.mark(slot, b.lo[0], b.hi[0], on);
        let v1 = self.v1.mark(slot, b.lo[1], b.hi[1], on);
        let v2 = self.v2.mark(slot, b.lo[2], b.hi[2], on);
        let v3 = self.v3.mark(slot, b.lo[3], b.hi[3], on);
        let v4 = self.v4.mark(slot, b.lo[4], b.hi[4], on);
        self.is_whole = self.is_whole & key & v1 & v2 & v3 & v4;
    }

    // No slot has bounds any more.
    pub(crate) fn reset(&mut self)
        ensures { self.new ≡ no_indexes }
    {
        self.key.reset();
        self.v1.reset();
        self.v2.reset();
        self.v3.reset();
        self.v4.reset();
        self.is_whole = true;
    }
}
