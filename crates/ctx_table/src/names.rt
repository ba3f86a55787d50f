ghost use Rattle.std.specs.Prelude.{◌≡◌, ◌==◌, ◌<◌, ◌≤◌, ◌↔◌, None, Some, IfOk, IfSome, count_by, false, is_none};
ghost use Rattle.std.specs.Prelude.{length, replicate, slice_get, slice_index_or, slice_set, true};
ghost use Rattle.std.specs.FinMap as fm;
ghost use Rattle.std.specs.List.{position};
ghost use Rattle.ctx_table.specs.Contexts.{first_free};
ghost use Rattle.ctx_table.specs.NameTables.{ArePlaced};
ghost use Rattle.lwc_types.specs.declared.limits.TheConstants.{MOST_GROUPS};

use crate::hints::Hints;
use crate::index::Index;
use lwc_types::{Name, OutOfMemory};
use std::alloc::Global;
use std::marker::Model;

/// Names, each at one place while it lives and nowhere else (`ArePlaced`). They are seen as the place of each
/// name and the name at each place.
#[derive(Drop)]
pub struct Names {
    index: Index,
    places: Vec<Option<Name>>,
    // Where `place` looks first.
    hints: Hints,
    // No place before this one is free.
    taken: usize,
}

impl Model for Names {
    ghost use Rattle.ctx_table.specs.NameTables.{NameTable, name_table_code};
    ghost use Rattle.ctx_table.specs.Slots.{IsKept};

    ghost Value = { NameTable };

    ghost coded = { name_table_code };

    ghost view = { λ names. record { map = names.index.map; places = names.places.items } };

    ghost invariant = { λ names. IsKept names.places.items names.index names.taken };
}

impl Names {
    /// No name, and this number of places. The only error is out of memory, which no later call takes.
    pub fn open(alloc: Global, places: u32) -> Result<Names, OutOfMemory>
        requires { places ≤ MOST_GROUPS }
        ensures none { IfOk result (λ names.
            names ≡ record { map = fm.empty; places = replicate places None }) }
        ensures placed { IfOk result (λ names. ArePlaced names) }
    {
        Ok(Names {
            index: Index::with_room(alloc, places as usize)?,
            places: no_names(alloc, places)?,
            hints: Hints::open(alloc)?,
            taken: 0,
        })
    }

    /// Whether a place is free.
    pub fn has_room(&self) -> bool
        ensures { (result ≡ true) ↔ (fm.len self.now.map < length self.now.places) }
    {
        self.index.len() < self.places.len()
    }

    /// Puts a new name at the first free place, and returns the place.
    pub fn insert(&mut self, name: Name) -> usize
        requires new { fm.contains_key self.old.map name ≡ false }
        requires room { fm.len self.old.map < length self.old.places }
        ensures place { result ≡ first_free self.old.places }
        ensures within { result < length self.old.places }
        ensures map { self.new.map ≡ fm.insert self.old.map name result }
        ensures places { self.new.places ≡ slice_set self.old.places result (Some name) }
        ensures placed { ArePlaced self.new }
    {
        let hinted = self.at(self.hints.place(name));
        let place = self.free_place();
        self.index.insert(name, place);
        self.hints.offer(name, place, hinted);
        self.places[place] = Some(name);
        self.taken = place + 1;
        place
    }

    /// Takes a name from its place, and returns the place.
    pub fn remove(&mut self, name: Name) -> usize
        requires { fm.contains_key self.old.map name ≡ true }
        ensures place { fm.get self.old.map name ≡ Some result }
        ensures map { self.new.map ≡ fm.remove self.old.map name }
        ensures places { self.new.places ≡ slice_set self.old.places result None }
        ensures placed { ArePlaced self.new }
    {
        let place = self.place_of(name);
        self.index.remove(name);
        self.places[place] = None;
        self.taken = self.taken.min(place);
        place
    }

    /// The place of a name, if it has one.
    #[inline(always)]
    pub fn place(&self, name: Name) -> Option<usize>
        ensures place { result ≡ fm.get self.now.map name }
        ensures within { IfSome result (λ place. place < length self.now.places) }
    {
        let hint = self.hints.place(name);
        if self.at(hint) == Some(name) {
            Some(hint)
        } else {
            self.index.get(name)
        }
    }

    /// The name at a place, if there is one.
    pub fn at(&self, place: usize) -> Option<Name>
        ensures { result ≡ slice_index_or self.now.places place None }
    {
        if place < self.places.len() {
            self.places[place]
        } else {
            None
        }
    }

    /// The number of names.
    pub fn len(&self) -> u32
        ensures { result ≡ fm.len self.now.map }
    {
        self.index.len() as u32
    }

    /// The number of names of a job.
    pub fn count_of(&self, job: u32) -> u32
        ensures { result ≡ count_by (λ name. name.job == job) (fm.keys self.now.map) }
    {
        self.index.count_of(job) as u32
    }

    /// The name at a number in the order of names, if there are more names than that.
    pub fn nth(&self, index: u32) -> Option<Name>
        ensures { result ≡ slice_get (fm.keys self.now.map) index }
    {
        self.index.nth(index as usize)
    }

    /// The place of a name that has one.
    fn place_of(&self, name: Name) -> usize
        requires { fm.contains_key self.now.map name ≡ true }
        ensures there { fm.get self.now.map name ≡ Some result }
        ensures within { result < length self.now.places }
    {
        match self.place(name) {
            Some(place) => place,
            None => unreachable!(),
        }
    }

    /// The first free place.
    fn free_place(&self) -> usize
        requires { first_free self.now.places < length self.now.places }
        ensures { result ≡ first_free self.now.places }
    {
        match first_without(&self.places[self.taken..]) {
            Some(further) => self.taken + further,
            None => unreachable!(),
        }
    }
}

/// This number of places without names. The only error is out of memory.
fn no_names(alloc: Global, places: u32) -> Result<Vec<Option<Name>>, OutOfMemory>
    ensures { IfOk result (λ names. names.items ≡ replicate places None) }
{
    let mut names = Vec::with_capacity(alloc, places as usize)?;
    'places: for _ in 0..places {
        names.push(None)?;
    }
    Ok(names)
}

/// The first place without a name.
fn first_without(places: &[Option<Name>]) -> Option<usize>
    ensures { result ≡ position is_none places.now }
{
    places.iter().position(|found| found.is_none())
}
