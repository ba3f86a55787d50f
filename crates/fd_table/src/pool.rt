ghost use Rattle.std.specs.Prelude.{◌≡◌, ℕ, ◌+◌, ◌-◌, ◌<◌, ◌^◌, ◌↔◌, List, IfOk, IfSome, IfNone, IsNone, length};
ghost use Rattle.std.specs.Prelude.{replicate, slice_set};
ghost use Rattle.fd_table.specs.Fillings.{slot_of};
ghost use Rattle.fd_table.specs.Pools.{count_of, free_of, no_held, recount, slot_at};

use crate::filling::Filling;
use crate::fillings::Fillings;
use lwc_base::OutOfMemory;
use pool_base::HoldCounts;
use std::alloc::Global;
use std::marker::Model;

/// Counted fillings in one region, seen as the list of them: of each its count and the slot that it stands
/// for. No call looks for a free one, and a filling's memory is first written when it is taken.
#[derive(Drop)]
pub(crate) struct Pool {
    counts: HoldCounts,
    fillings: Fillings,
}

impl Model for Pool {
    ghost use Rattle.std.specs.Prelude.{List};
    ghost use Rattle.fd_table.specs.Pools.{Held};

    ghost Value = { List Held };

    ghost use Rattle.std.specs.Prelude.{◌≤◌, length};
    ghost use Rattle.fd_table.specs.Pools.{seen_pool, IsWhole};

    ghost view = { λ pool. seen_pool pool.counts pool.fillings.slots };

    ghost invariant = { λ pool. record {
      whole : IsWhole pool.counts pool.fillings.slots;
      room : length pool.counts.counts ≤ pool.fillings.room;
    } };
}

impl Pool {
    /// A pool of this many objects, all free. The only error is out of memory.
    pub(crate) fn open(alloc: Global, objects: u32) -> Result<Pool, OutOfMemory>
        ensures { IfOk result (λ pool. pool ≡ replicate objects no_held) }
    {
        let counts = HoldCounts::open(alloc, objects)?;
        let fillings = Fillings::open(alloc, objects)?;
        Ok(Pool { counts, fillings })
    }

    /// Takes a free object for a filling, and holds it once. `None` exactly where no object is free.
    pub(crate) fn take(&mut self, filling: &Filling<'_>) -> Option<u32>
        ensures full { IsNone result ↔ (free_of self.old ≡ 0) }
        ensures full_same { IfNone result (self.new ≡ self.old) }
        ensures inside { IfSome result (λ o. o < length self.old) }
        ensures was_free { IfSome result (λ o. count_of self.old o ≡ 0) }
        ensures taken { IfSome result (λ o.
            self.new ≡ slice_set self.old o (record { count = 1; slot = slot_of filling.now })) }
    {
        let o = self.counts.take()?;
        self.fillings.put_next(o, filling);
        Some(o)
    }

    /// Holds a held object once more.
    pub(crate) fn hold(&mut self, object: u32)
        requires held { 0 < count_of self.old object }
        requires fits { count_of self.old object + 1 < 2 ^ 32 }
        ensures { self.new ≡ recount self.old object (count_of self.old object + 1) }
    {
        self.counts.hold(object);
    }

    /// Holds a held object once less. At 0 it is free.
    pub(crate) fn drop_hold(&mut self, object: u32)
        requires { 0 < count_of self.old object }
        ensures { self.new ≡ recount self.old object (count_of self.old object - 1) }
    {
        self.counts.drop_hold(object);
    }

    /// How often a held object is held.
    pub(crate) fn count(&self, object: u32) -> u32
        requires { 0 < count_of self.now object }
        ensures { result ≡ count_of self.now object }
    {
        self.counts.count(object)
    }

    /// The filling of a held object.
    pub(crate) fn filling(&self, object: u32) -> Filling<'_>
        requires { 0 < count_of self.now object }
        ensures { slot_of result ≡ slot_at self.now object }
    {
        self.fillings.get(object)
    }
}
