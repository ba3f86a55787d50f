ghost use Rattle.std.specs.Prelude.{◌≡◌, ℕ, ◌+◌, ◌<◌, ◌≤◌, ◌++◌, ◌∷◌, [], IfOk, length, max, slice_index_or, slice_set};
ghost use Rattle.pool_base.specs.Padded.{padded};
ghost use Rattle.fd_table.specs.Fillings.{slot_of};
ghost use Rattle.fd_table.specs.Slots.{Slot, empty_slot};

use crate::filling::Filling;
use crate::slots::TargetNumber;
use crate::stored::{StoredCell, words_of};
use lwc_base::{Cap, OutOfMemory};
use std::alloc::Global;
use std::marker::Model;

/// A filling as it is stored.
#[derive(Clone, Copy)]
pub(crate) struct Stored {
    cell: StoredCell,
    target: Option<TargetNumber>,
}

/// Stored fillings, seen as the slots that they stand for. Each has room for the words of a capability beside
/// it, which are written with the first filling of a place, and then only where a filling has such words.
#[derive(Drop)]
pub(crate) struct Fillings {
    stored: Vec<Stored>,
    words: Vec<Cap>,
    room: u32,
}

/// The words of no key.
const NO_WORDS: Cap = Cap {
    pages: [0; 256],
    slots: 0,
    cred: false,
};

impl Model for Fillings {
    ghost use Rattle.fd_table.specs.Fillings.{Stock, slots_in};

    ghost Value = { Stock };

    ghost use Rattle.std.specs.Prelude.{◌≡◌, ◌≤◌, length, vec_capacity};

    ghost view = { λ f. record { slots = slots_in f.stored.items f.words.items; room = f.room } };

    ghost invariant = { λ f. record {
      beside : length f.words.items ≡ length f.stored.items;
      room : f.room ≤ vec_capacity f.stored;
      words_room : f.room ≤ vec_capacity f.words;
    } };
}

impl Fillings {
    /// No fillings, with memory for this many. The only error is out of memory.
    pub(crate) fn open(alloc: Global, room: u32) -> Result<Fillings, OutOfMemory>
        ensures { IfOk result (λ fillings. fillings ≡ record { slots = []; room = room }) }
    {
        let stored = Vec::with_capacity(alloc, room as usize)?;
        let words = Vec::with_capacity(alloc, room as usize)?;
        Ok(Fillings {
            stored,
            words,
            room,
        })
    }

    /// Puts a filling at a place, or after the last one.
    pub(crate) fn put_next(&mut self, place: u32, filling: &Filling<'_>)
        requires next { place ≤ length self.old.slots }
        requires room { place < self.old.room }
        ensures padded { (size : ℕ) (fill : Slot) → place < size →
            padded size fill self.new.slots
            ≡ slice_set (padded size fill self.old.slots) place (slot_of filling.now) }
        ensures len { length self.new.slots ≡ max (length self.old.slots) (place + 1) }
        ensures room { self.new.room ≡ self.old.room }
    {
        if (place as usize) < self.stored.len() {
            self.replace(place, filling);
        } else {
            self.push(filling);
        }
    }

    /// Puts a filling in the place of another one. Words are written only if the filling has some.
    fn replace(&mut self, place: u32, filling: &Filling<'_>)
        requires { place < length self.old.slots }
        ensures slots { self.new.slots ≡ slice_set self.old.slots place (slot_of filling.now) }
        ensures room { self.new.room ≡ self.old.room }
    {
        self.stored[place as usize] = Stored {
            cell: StoredCell::from_cell(&filling.cell),
            target: filling.target,
        };
        if let Some(words) = words_of(&filling.cell) {
            self.words[place as usize] = *words;
        }
    }

    /// Puts a filling after the last one.
    fn push(&mut self, filling: &Filling<'_>)
        requires { length self.old.slots < self.old.room }
        ensures slots { self.new.slots ≡ self.old.slots ++ slot_of filling.now ∷ [] }
        ensures room { self.new.room ≡ self.old.room }
    {
        self.stored.push_reserved(Stored {
            cell: StoredCell::from_cell(&filling.cell),
            target: filling.target,
        });
        match words_of(&filling.cell) {
            Some(words) => self.words.push_reserved(*words),
            None => self.words.push_reserved(NO_WORDS),
        }
    }

    /// The filling at a place.
    pub(crate) fn get(&self, place: u32) -> Filling<'_>
        requires { place < length self.now.slots }
        ensures { slot_of result ≡ slice_index_or self.now.slots place empty_slot }
    {
        let stored = self.stored[place as usize];
        Filling {
            cell: stored.cell.lend(&self.words[place as usize]),
            target: stored.target,
        }
    }
}
