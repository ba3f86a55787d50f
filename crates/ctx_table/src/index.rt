ghost use Rattle.std.specs.Prelude.{◌≡◌, ◌==◌, ◌<◌, Some, false, true, count_by, nat_lt, slice_get, IfErr, IfOk};
ghost use Rattle.std.specs.FinMap as fm;
ghost use Rattle.ctx_table.specs.Places.{IsAt, IsGap};
ghost use Rattle.lwc_types.specs.Names.{name_cmp};

use lwc_types::{Name, OutOfMemory};
use std::alloc::Global;
use std::cmp::Ordering;
use std::marker::Model;

/// The place of each name, in the order of names. It is seen as a map, and the number of names that there is
/// memory for.
#[derive(Drop)]
pub(crate) struct Index {
    rows: Vec<(Name, usize)>,
}

impl Model for Index {
    ghost use Rattle.std.specs.Prelude.{T, vec_capacity};
    ghost use Rattle.std.specs.FinMap as fm;
    ghost use Rattle.ctx_table.specs.Places.{Places, places_code};
    ghost use Rattle.lwc_types.specs.Names.{name_cmp};

    ghost Value = { Places };

    ghost coded = { places_code };

    ghost view = { λ index. record {
      map = fm.from_sorted index.rows.items;
      room = vec_capacity index.rows;
    } };

    ghost invariant = { λ index. T (fm.is_sorted name_cmp index.rows.items) };
}

impl Index {
    /// No name, with memory for this many. The only error is out of memory.
    pub(crate) fn with_room(alloc: Global, names: usize) -> Result<Index, OutOfMemory>
        ensures { IfOk result (λ index. index ≡ record { map = fm.empty; room = names }) }
    {
        Ok(Index {
            rows: Vec::with_capacity(alloc, names)?,
        })
    }

    /// The place of a name, if it has one.
    pub(crate) fn get(&self, name: Name) -> Option<usize>
        ensures { result ≡ fm.get self.now.map name }
    {
        match self.search(name) {
            Ok(i) => Some(self.rows[i].1),
            Err(_) => None,
        }
    }

    /// The number of names.
    pub(crate) fn len(&self) -> usize
        ensures { result ≡ fm.len self.now.map }
    {
        self.rows.len()
    }

    /// Gives a new name a place.
    pub(crate) fn insert(&mut self, name: Name, place: usize)
        requires new { fm.contains_key self.old.map name ≡ false }
        requires room { fm.len self.old.map < self.old.room }
        ensures { self.new ≡ record { map = fm.insert self.old.map name place; room = self.old.room } }
    {
        if let Err(i) = self.search(name) {
            self.rows.insert(i, (name, place)).unwrap();
        }
    }

    /// Takes a name's place from it.
    pub(crate) fn remove(&mut self, name: Name)
        requires { fm.contains_key self.old.map name ≡ true }
        ensures { self.new ≡ record { map = fm.remove self.old.map name; room = self.old.room } }
    {
        if let Ok(i) = self.search(name) {
            self.rows.remove(i);
        }
    }

    /// The number of names of a job.
    pub(crate) fn count_of(&self, job: u32) -> usize
        ensures { result ≡ count_by (λ name. name.job == job) (fm.keys self.now.map) }
    {
        self.count_below(u64::from(job) + 1) - self.count_below(u64::from(job))
    }

    /// The number of names of jobs below a number. Mostly all names are of one job.
    fn count_below(&self, job: u64) -> usize
        ensures { result ≡ count_by (λ name. nat_lt name.job job) (fm.keys self.now.map) }
    {
        if let Some(first) = self.rows.first() {
            if job <= u64::from(first.0.job) {
                return 0;
            }
        }
        if let Some(last) = self.rows.last() {
            if u64::from(last.0.job) < job {
                return self.rows.len();
            }
        }
        self.rows.partition_point(|row| u64::from(row.0.job) < job)
    }

    /// The name at a number in the order of names.
    pub(crate) fn nth(&self, index: usize) -> Option<Name>
        ensures { result ≡ slice_get (fm.keys self.now.map) index }
    {
        match self.rows.get(index) {
            Some(row) => Some(row.0),
            None => None,
        }
    }

    /// Where the row of a name is, or where it would go. A new name is mostly the last one.
    fn search(&self, name: Name) -> Result<usize, usize>
        ensures found { IfOk result (IsAt (fm.entries self.now.map) name) }
        ensures absent { IfErr result (IsGap (fm.entries self.now.map) name) }
    {
        if let Some(last) = self.rows.last() {
            match last.0.cmp(&name) {
                Ordering::Less => return Err(self.rows.len()),
                Ordering::Equal => return Ok(self.rows.len() - 1),
                Ordering::Greater => {}
            }
        }
        self.rows.binary_search_by_key(&name, |row| row.0)
    }
}
