ghost use Rattle.std.specs.Prelude.{◌≡◌, ℕ, ◌+◌, ◌-◌, ◌≤◌, ◌<◌, ◌^◌, ◌∷◌, [], count_by, length, nat_lt, replicate};
ghost use Rattle.std.specs.Prelude.{slice_index, IfOk, IfSome};
ghost use Rattle.std.specs.List.{list_any};
ghost use Rattle.fd_table.specs.Fillings.{slot_of};
ghost use Rattle.fd_table.specs.Objects.{counted_less, counted_more, is_naming, last_target, HoldsLess, HoldsMore};
ghost use Rattle.fd_table.specs.Objects.{IsCounted, Takes};
ghost use Rattle.fd_table.specs.Pools.{count_of, free_of, held_at, no_held, recount};
ghost use Rattle.fd_table.specs.Tables.{times};

use crate::filling::Filling;
use crate::pool::Pool;
use crate::slots::TargetNumber;
use lwc_base::OutOfMemory;
use std::alloc::Global;

/// The objects that slots share, and for each place how many held objects name it.
#[derive(Drop)]
pub(crate) struct Objects {
    pub(crate) pool: Pool,
    pub(crate) named: Vec<u32>,
    ghost counted: { IsCounted pool named.items },
}

/// How many entries are looked at together.
const CHUNK: usize = 8;

/// Whether one of these entries names an object.
fn names_any(entries: &[u32]) -> bool
    ensures { result ≡ list_any (nat_lt 0) entries.now }
{
    entries.iter().any(|entry| *entry > 0)
}

/// Counts one more object for a place, if there is one.
fn count_more(named: &mut Vec<u32>, place: Option<TargetNumber>)
    requires inside { IfSome place (λ p. p < length named.old.items) }
    requires fits { IfSome place (λ p. slice_index named.old.items p + 1 < 2 ^ 32) }
    ensures { named.new.items ≡ counted_more named.old.items place }
{
    if let Some(place) = place {
        named[place as usize] += 1;
    }
}

/// Counts one object less for a place, if there is one.
fn count_less(named: &mut Vec<u32>, place: Option<TargetNumber>)
    requires { IfSome place (λ p. 0 < slice_index named.old.items p) }
    ensures { named.new.items ≡ counted_less named.old.items place }
{
    if let Some(place) = place {
        named[place as usize] -= 1;
    }
}

impl Objects {
    /// This many free objects, and this many places that none of them names. The only error is out of memory.
    pub(crate) fn open(alloc: Global, objects: u32, places: u32) -> Result<Objects, OutOfMemory>
        ensures pool { IfOk result (λ opened. opened.pool ≡ replicate objects no_held) }
        ensures named { IfOk result (λ opened. length opened.named.items ≡ places) }
    {
        let pool = Pool::open(alloc, objects)?;
        let named = vec![in alloc; 0u32; places as usize]?;
        Ok(Objects { pool, named })
    }

    /// Takes a free object for a filling.
    pub(crate) fn take(&mut self, filling: &Filling<'_>) -> u32
        requires free { 0 < free_of self.old.pool }
        requires few { length self.old.pool + 1 < 2 ^ 32 }
        requires target { IfSome (slot_of filling.now).target (λ place. place < length self.old.named.items) }
        ensures pool { Takes self.old.pool self.new.pool result (slot_of filling.now) }
        ensures places { length self.new.named.items ≡ length self.old.named.items }
    {
        let o = self.pool.take(filling).unwrap();
        count_more(&mut self.named, filling.target);
        o
    }

    /// Holds a held object once more.
    fn hold(&mut self, object: u32)
        requires held { 0 < count_of self.old.pool object }
        requires fits { count_of self.old.pool object + 1 < 2 ^ 32 }
        ensures pool { self.new.pool ≡ recount self.old.pool object (count_of self.old.pool object + 1) }
        ensures places { length self.new.named.items ≡ length self.old.named.items }
    {
        self.pool.hold(object);
    }

    /// Holds each object that entries name once more. Chunks that name none are skipped.
    pub(crate) fn hold_all(&mut self, entries: &[u32])
        requires held { (o : ℕ) → 0 < times o entries.now → 0 < count_of self.old.pool o }
        requires fits { (o : ℕ) → count_of self.old.pool o + length entries.now < 2 ^ 32 }
        ensures pool { HoldsMore self.old.pool self.new.pool entries.now }
        ensures places { length self.new.named.items ≡ length self.old.named.items }
    {
        for chunk in entries.chunks(CHUNK) {
            if names_any(chunk) {
                self.hold_each(chunk);
            }
        }
    }

    /// Holds each object that the entries of a chunk name once more.
    fn hold_each(&mut self, entries: &[u32])
        requires held { (o : ℕ) → 0 < times o entries.now → 0 < count_of self.old.pool o }
        requires fits { (o : ℕ) → count_of self.old.pool o + length entries.now < 2 ^ 32 }
        ensures pool { HoldsMore self.old.pool self.new.pool entries.now }
        ensures places { length self.new.named.items ≡ length self.old.named.items }
    {
        for entry in entries {
            if *entry > 0 {
                self.hold(*entry - 1);
            }
        }
    }

    /// The place that a held object names, where it is held once.
    fn last_target(&self, object: u32) -> Option<TargetNumber>
        requires { 0 < count_of self.now.pool object }
        ensures { result ≡ last_target (held_at self.now.pool object) }
    {
        if self.pool.count(object) == 1 {
            self.pool.filling(object).target
        } else {
            None
        }
    }

    /// Holds a held object once less.
    fn drop_hold(&mut self, object: u32)
        requires { 0 < count_of self.old.pool object }
        ensures pool { self.new.pool ≡ recount self.old.pool object (count_of self.old.pool object - 1) }
        ensures places { length self.new.named.items ≡ length self.old.named.items }
    {
        let target = self.last_target(object);
        self.pool.drop_hold(object);
        count_less(&mut self.named, target);
    }

    /// Holds the object that an entry names once less, if it names one.
    pub(crate) fn drop_entry(&mut self, entry: u32)
        requires { (o : ℕ) → times o (entry ∷ []) ≤ count_of self.old.pool o }
        ensures pool { HoldsLess self.old.pool self.new.pool (entry ∷ []) }
        ensures places { length self.new.named.items ≡ length self.old.named.items }
    {
        if entry > 0 {
            self.drop_hold(entry - 1);
        }
    }

    /// Holds each object that entries name once less. Chunks that name none are skipped.
    pub(crate) fn drop_all(&mut self, entries: &[u32])
        requires { (o : ℕ) → times o entries.now ≤ count_of self.old.pool o }
        ensures pool { HoldsLess self.old.pool self.new.pool entries.now }
        ensures places { length self.new.named.items ≡ length self.old.named.items }
    {
        for chunk in entries.chunks(CHUNK) {
            if names_any(chunk) {
                self.drop_each(chunk);
            }
        }
    }

    /// Holds each object that the entries of a chunk name once less.
    fn drop_each(&mut self, entries: &[u32])
        requires { (o : ℕ) → times o entries.now ≤ count_of self.old.pool o }
        ensures pool { HoldsLess self.old.pool self.new.pool entries.now }
        ensures places { length self.new.named.items ≡ length self.old.named.items }
    {
        for entry in entries {
            self.drop_entry(*entry);
        }
    }

    /// Whether a held object names a place.
    pub(crate) fn is_named(&self, place: TargetNumber) -> bool
        requires { place < length self.now.named.items }
        ensures { result ≡ nat_lt 0 (count_by (is_naming place) self.now.pool) }
    {
        self.named[place as usize] > 0
    }
}
