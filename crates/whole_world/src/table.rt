ghost use Rattle.std.specs.Prelude.{◌≡◌, ◌==◌, ◌<◌, ◌≤◌, List, [], None, OnOk, count_by, map, slice_get};
ghost use Rattle.std.specs.Prelude.{vec_capacity, vec_len};
ghost use Rattle.std.specs.FinMap as fm;
ghost use Rattle.std.specs.List.{items_where_true, position, position_or_len};
ghost use Rattle.std.specs.Option.{option_copied};
ghost use Rattle.lwc_types.specs.Names.{name_cmp};
ghost use Rattle.whole_world.specs.Tables.{has_name, is_past};

use lwc_base::{Name, OutOfMemory};
use std::alloc::Global;

/// Rows by name: each name once, in the order of names.
#[derive(Drop)]
pub struct Table<T> {
    pub rows: Vec<(Name, T)>,
}

impl<T> Table<T> {
    /// A table with no row.
    pub fn new(alloc: Global) -> Table<T>
        ensures { result.rows.items ≡ [] }
    {
        Table {
            rows: Vec::new(alloc),
        }
    }

    /// Takes the memory for one more row. The only error is out of memory.
    pub fn reserve(&mut self) -> Result<(), OutOfMemory>
        ensures same { self.new.rows.items ≡ self.old.rows.items }
        ensures room { OnOk result (vec_len self.new.rows < vec_capacity self.new.rows) }
    {
        self.rows.try_reserve(1)?;
        Ok(())
    }

    /// The place of the row of this name.
    pub fn position(&self, name: Name) -> Option<usize>
        ensures { result ≡ position (has_name name) self.now.rows.items }
    {
        self.rows.iter().position(|row| row.0 == name)
    }

    /// What the row of this name has.
    pub fn get(&self, name: Name) -> Option<&T>
        ensures { option_copied result ≡ fm.find name_cmp name self.now.rows.items }
    {
        match self.position(name) {
            Some(i) => Some(&self.rows[i].1),
            None => None,
        }
    }

    /// The place of the first row past a name.
    fn place_past(&self, name: Name) -> Option<usize>
        ensures { result ≡ position (is_past name) self.now.rows.items }
    {
        self.rows.iter().position(|row| name < row.0)
    }

    /// The place of the first row past a name, and else the end.
    fn place_for(&self, name: Name) -> usize
        ensures place { result ≡ position_or_len (is_past name) self.now.rows.items }
        ensures within { result ≤ vec_len self.now.rows }
    {
        match self.place_past(name) {
            Some(i) => i,
            None => self.rows.len(),
        }
    }

    /// Puts in a row of a new name, for which the memory has been taken.
    pub fn insert(&mut self, name: Name, value: T)
        requires new { fm.find name_cmp name self.old.rows.items ≡ None }
        requires room { vec_len self.old.rows < vec_capacity self.old.rows }
        ensures { self.new.rows.items ≡ fm.put name_cmp name value self.old.rows.items }
    {
        let place = self.place_for(name);
        self.rows.insert(place, (name, value)).unwrap();
    }

    /// Drops each row whose place is not marked.
    pub fn keep(&mut self, marks: &[bool])
    where
        T: Drop,
        ensures { self.new.rows.items ≡ items_where_true marks.now self.old.rows.items }
    {
        let mut marks = marks.iter();
        self.rows.retain(|_| marks.next().copied().unwrap_or(false));
    }

    /// The number of rows whose names are of this job.
    pub fn count_of(&self, job: u32) -> usize
        ensures { result ≡ count_by (λ row. row.0.job == job) self.now.rows.items }
    {
        self.rows.iter().filter(|row| row.0.job == job).count()
    }

    /// The name of the row at a place.
    pub fn name_at(&self, place: usize) -> Option<Name>
        ensures { result ≡ slice_get (map (λ row. row.0) self.now.rows.items) place }
    {
        match self.rows.get(place) {
            Some(row) => Some(row.0),
            None => None,
        }
    }
}
