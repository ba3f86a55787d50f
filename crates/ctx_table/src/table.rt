ghost use Rattle.std.specs.Prelude.{◌≡◌, ◌==◌, ℕ, ◌<◌, ◌≤◌, ◌↔◌, None, Some, IfOk, IfSome, count_by, false, length};
ghost use Rattle.std.specs.Prelude.{is_some, replicate, slice_get, slice_index_or, slice_set, true};
ghost use Rattle.std.specs.Borrow.{sem};
ghost use Rattle.std.specs.FinMap as fm;
ghost use Rattle.std.specs.Option.{option_map};
ghost use Rattle.ctx_table.specs.Contexts.{Kept, first_free};
ghost use Rattle.lwc_types.specs.Names.{name_cmp};
ghost use Rattle.lwc_types.specs.declared.limits.TheConstants.{MOST_CONTEXTS, MOST_THREADS};

use crate::index::Index;
use crate::place::{Place, first_free};
use lwc_types::{Name, OutOfMemory, Regs};
use std::alloc::Global;
use std::marker::Model;
use std::mem;

/// Contexts by name: each has a value, the registers that it begins with and those that it keeps for 16
/// threads, and stays at one place while it lives.
#[derive(Drop)]
pub struct CtxTable<C> {
    index: Index,
    places: Vec<Place<C>>,
}

impl<C> Model for CtxTable<C> {
    ghost use Rattle.std.specs.Prelude.{map};
    ghost use Rattle.ctx_table.specs.Contexts.{Contexts, contexts_code};

    ghost Value = { Contexts C };

    ghost coded = { contexts_code C.code };

    ghost use Rattle.ctx_table.specs.Slots.{IsIndexed, contexts_of, slot_of};
    ghost use Rattle.lwc_types.specs.declared.limits.TheConstants.{MOST_CONTEXTS};

    ghost view = { λ table. contexts_of table.places.items };

    ghost invariant = { λ table. IsIndexed MOST_CONTEXTS (map slot_of table.places.items) table.index };
}

impl<C: Drop> CtxTable<C> {
    ghost use Rattle.ctx_table.specs.Lends.{lends_value};

    /// A table with this number of places, all free. The only error is out of memory, which no later call
    /// takes.
    pub fn open(alloc: Global, contexts: u32) -> Result<CtxTable<C>, OutOfMemory>
        requires { contexts ≤ MOST_CONTEXTS }
        ensures kept { IfOk result (λ table. table.kept ≡ fm.empty) }
        ensures places { IfOk result (λ table. table.places ≡ replicate contexts None) }
    {
        let mut places = Vec::with_capacity(alloc, contexts as usize)?;
        'places: for _ in 0..contexts {
            places.push(Place::Free)?;
        }
        Ok(CtxTable {
            index: Index::with_room(alloc, contexts as usize)?,
            places,
        })
    }

    /// Whether a place is free.
    pub fn has_room(&self) -> bool
        ensures { (result ≡ true) ↔ (fm.len self.now.kept < length self.now.places) }
    {
        self.index.len() < self.places.len()
    }

    /// Puts a new context at the first free place. It keeps registers for no thread.
    pub fn insert(&mut self, name: Name, value: C, entry: &Regs)
        requires new { fm.contains_key self.old.kept name ≡ false }
        requires room { fm.len self.old.kept < length self.old.places }
        ensures kept { self.new.kept ≡ fm.insert self.old.kept name
            (record { value = value; entry = entry.now; saved = replicate 16 None }) }
        ensures places { self.new.places
            ≡ slice_set self.old.places (first_free self.old.places) (Some name) }
    {
        let place = self.free_place();
        self.index.insert(name, place);
        let held = Place::Held {
            name,
            value,
            entry: *entry,
            saved: [None; 16],
        };
        match mem::replace(&mut self.places[place], held) {
            Place::Free => {}
            Place::Held { .. } => unreachable!(),
        }
    }

    /// Takes a live context out, which frees its place.
    pub fn remove(&mut self, name: Name) -> C
        requires { fm.contains_key self.old.kept name ≡ true }
        ensures value { option_map (λ kept. kept.value) (fm.get self.old.kept name) ≡ Some result }
        ensures kept { self.new.kept ≡ fm.remove self.old.kept name }
        ensures places { (p : ℕ) → slice_index_or self.old.places p None ≡ Some name →
            self.new.places ≡ slice_set self.old.places p None }
    {
        let place = self.place_of(name);
        self.index.remove(name);
        match mem::replace(&mut self.places[place], Place::Free) {
            Place::Held { value, .. } => value,
            Place::Free => unreachable!(),
        }
    }

    /// The place of a context, if one of this name is live. No other place has the name.
    pub fn place(&self, name: Name) -> Option<usize>
        ensures live { is_some result ≡ fm.contains_key self.now.kept name }
        ensures there { IfSome result (λ place. (p : ℕ) →
            (slice_index_or self.now.places p None ≡ Some name) ↔ (p ≡ place)) }
        ensures within { IfSome result (λ place. place < MOST_CONTEXTS) }
    {
        self.index.get(name)
    }

    /// The name at a place, if it is not free.
    pub fn at(&self, place: usize) -> Option<Name>
        ensures name { result ≡ slice_index_or self.now.places place None }
        ensures live { IfSome result (λ name. fm.contains_key self.now.kept name ≡ true) }
    {
        if place < self.places.len() {
            self.places[place].name()
        } else {
            None
        }
    }

    /// The value of a live context.
    pub fn value(&self, name: Name) -> &C
        requires { fm.contains_key self.now.kept name ≡ true }
        ensures { option_map (λ kept. kept.value) (fm.get self.now.kept name) ≡ Some result.now }
    {
        let place = self.place_of(name);
        match &self.places[place] {
            Place::Held { value, .. } => value,
            Place::Free => unreachable!(),
        }
    }

    /// The value of a live context, to be changed.
    pub fn value_mut(&mut self, name: Name) -> &mut C
        requires { fm.contains_key self.old.kept name ≡ true }
        ensures* writes_back { sem 𝓛 (lends_value C.row self.entry name result) }
        ensures value { option_map (λ kept. kept.value) (fm.get self.old.kept name) ≡ Some result.now }
    {
        let place = self.place_of(name);
        self.places[place].value_mut()
    }

    /// The registers that a live context begins with.
    pub fn entry(&self, name: Name) -> Regs
        requires { fm.contains_key self.now.kept name ≡ true }
        ensures { option_map (λ kept. kept.entry) (fm.get self.now.kept name) ≡ Some result }
    {
        let place = self.place_of(name);
        match &self.places[place] {
            Place::Held { entry, .. } => *entry,
            Place::Free => unreachable!(),
        }
    }

    /// The registers that a live context keeps for a thread, if it keeps any.
    pub fn saved(&self, name: Name, thread: u32) -> Option<Regs>
        requires live { fm.contains_key self.now.kept name ≡ true }
        requires thread { thread < MOST_THREADS }
        ensures { option_map (λ kept. slice_index_or kept.saved thread None) (fm.get self.now.kept name)
            ≡ Some result }
    {
        let place = self.place_of(name);
        match &self.places[place] {
            Place::Held { saved, .. } => saved[thread as usize],
            Place::Free => unreachable!(),
        }
    }

    /// Keeps registers for a thread in a live context, in place of those that it kept.
    pub fn save(&mut self, name: Name, thread: u32, regs: &Regs)
        requires live { fm.contains_key self.old.kept name ≡ true }
        requires thread { thread < MOST_THREADS }
        ensures kept { (kept : Kept C) → fm.get self.old.kept name ≡ Some kept → self.new.kept
            ≡ fm.insert self.old.kept name
            (record kept { saved = slice_set kept.saved thread (Some regs.now) }) }
        ensures places { self.new.places ≡ self.old.places }
    {
        let place = self.place_of(name);
        self.places[place].save(thread, regs);
    }

    /// The number of live contexts of a job.
    pub fn live_of(&self, job: u32) -> u32
        ensures { result ≡ count_by (λ name. name.job == job) (fm.keys self.now.kept) }
    {
        self.index.count_of(job) as u32
    }

    /// The name at a number in the order of names, if there are more names than that.
    pub fn nth(&self, index: u32) -> Option<Name>
        ensures { result ≡ slice_get (fm.keys self.now.kept) index }
    {
        self.index.nth(index as usize)
    }

    /// The place of a live context.
    fn place_of(&self, name: Name) -> usize
        requires { fm.contains_key self.now.kept name ≡ true }
        ensures there { slice_index_or self.now.places result None ≡ Some name }
        ensures within { result < length self.now.places }
    {
        match self.index.get(name) {
            Some(place) => place,
            None => unreachable!(),
        }
    }

    /// The first free place.
    fn free_place(&self) -> usize
        requires { first_free self.now.places < length self.now.places }
        ensures { result ≡ first_free self.now.places }
    {
        match first_free(&self.places) {
            Some(place) => place,
            None => unreachable!(),
        }
    }
}
