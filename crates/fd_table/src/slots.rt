ghost use Rattle.std.specs.Prelude.{◌≡◌, ℕ, IfOk, length, replicate};
ghost use Rattle.fd_table.specs.declared.slots.TheConstants.{NUMBERS};
ghost use Rattle.fd_table.specs.Kept.{IsKept};

use crate::filling::Filling;
use crate::objects::Objects;
use crate::table::Table;
use late_rows::{Fresh, LateRows};
use lwc_base::{Cell, Lent, Name, OutOfMemory, SlotNumber};
use std::alloc::Global;

/// A number that a slot can name, below `NUMBERS`. It stands for what the slot's cell names.
pub type TargetNumber = u16;

/// How many numbers there are that slots can name.
pub const NUMBERS: u32 = 65536;

/// The slots of a fixed number of places, contexts and groups alike. After `open` no call takes memory.
///
/// A slot's cell comes with its target: a number for what the cell names. `is_named` tells whether any slot
/// has a number, without a search.
#[derive(Drop)]
pub struct Slots {
    pub(crate) objects: Objects,
    pub(crate) tables: LateRows<Table>,
    ghost kept: { IsKept objects.pool tables },
    ghost numbers: { length objects.named.items ≡ NUMBERS },
}

impl Slots {
    ghost use Rattle.std.specs.Prelude.{◌≢◌, ◌<◌, ◌≤◌, ◌↔◌, true, Some, None, IfNone, IfSome, IsTrue, count_by};
    ghost use Rattle.std.specs.Prelude.{slice_set};
    ghost use Rattle.std.specs.List.{range_with_len};
    ghost use Rattle.lwc_base.specs.Capabilities.{has_bit};
    ghost use Rattle.lwc_base.specs.declared.cell.Cell.TheVariants.{Own};
    ghost use Rattle.lwc_base.specs.declared.descriptor.Descriptor.TheVariants.{Empty};
    ghost use Rattle.lwc_types.specs.declared.key.TheConstants.{SLOTS};
    ghost use Rattle.lwc_types.specs.declared.limits.TheConstants.{MOST_SLOT_PLACES};
    ghost use Rattle.fd_table.specs.Seen.{slots};
    ghost use Rattle.fd_table.specs.Slots.{cell_of, context_in, empty_slot, is_common, is_filled, no_slots, put_slot};
    ghost use Rattle.fd_table.specs.Slots.{row_of};
    ghost use Rattle.fd_table.specs.Fillings.{slot_of};

    /// This number of places whose slots are all empty. The only error is out of memory.
    pub fn open(alloc: Global, places: u32) -> Result<Slots, OutOfMemory>
        requires { places ≤ MOST_SLOT_PLACES }
        ensures { IfOk result (λ opened. slots opened ≡ replicate places no_slots) }
    {
        let objects = Objects::open(alloc, 64 * places, NUMBERS)?;
        let tables = LateRows::open(alloc, places)?;
        Ok(Slots { objects, tables })
    }

    /// What a slot has, where it is filled.
    fn filling(&self, place: usize, slot: SlotNumber) -> Option<Filling<'_>>
        requires place { place < length (slots self.now) }
        requires slot { slot < SLOTS }
        ensures none { IfNone result (row_of (slots self.now) place slot ≡ empty_slot) }
        ensures some { IfSome result (λ filling. row_of (slots self.now) place slot ≡ slot_of filling) }
    {
        match self.tables[place].entries[slot as usize] {
            0 => None,
            entry => Some(self.objects.pool.filling(entry - 1)),
        }
    }

    /// The cell of a slot, lent.
    pub fn cell(&self, place: usize, slot: SlotNumber) -> Cell<Lent<'_>>
        requires place { place < length (slots self.now) }
        requires slot { slot < SLOTS }
        ensures { cell_of result ≡ (row_of (slots self.now) place slot).cell }
    {
        match self.filling(place, slot) {
            Some(filling) => filling.cell,
            None => Cell::Own(Lent::Empty),
        }
    }

    /// The context that a slot of a place's own has a descriptor of, if it has one.
    pub fn context(&self, place: usize, slot: SlotNumber) -> Option<Name>
        requires place { place < length (slots self.now) }
        requires slot { slot < SLOTS }
        ensures { result ≡ context_in (row_of (slots self.now) place slot).cell }
    {
        match self.filling(place, slot) {
            Some(filling) => filling.context(),
            None => None,
        }
    }

    /// Whether a slot of two places is one object, or has none in both. Slots that are not may be the same,
    /// too.
    pub fn is_shared(&self, place: usize, other: usize, slot: SlotNumber) -> bool
        requires place { place < length (slots self.now) }
        requires other { other < length (slots self.now) }
        requires slot { slot < SLOTS }
        ensures { result ≡ true → row_of (slots self.now) place slot ≡ row_of (slots self.now) other slot }
    {
        self.tables[place].entries[slot as usize] == self.tables[other].entries[slot as usize]
    }

    /// The slots of a place that are not empty slots of its own: slot n is bit n.
    pub fn filled(&self, place: usize) -> u64
        requires { place < length (slots self.now) }
        ensures { (n : ℕ) → n < SLOTS → has_bit result n ≡ is_filled (row_of (slots self.now) place n).cell }
    {
        self.tables[place].filled
    }

    /// The slots of a place whose values are groups': slot n is bit n.
    pub fn common(&self, place: usize) -> u64
        requires { place < length (slots self.now) }
        ensures { (n : ℕ) → n < SLOTS → has_bit result n ≡ is_common (row_of (slots self.now) place n).cell }
    {
        self.tables[place].common
    }

    /// How many slots of a place are not empty slots of its own.
    pub fn count_filled(&self, place: usize) -> u32
        requires { place < length (slots self.now) }
        ensures { result
            ≡ count_by (λ n. is_filled (row_of (slots self.now) place n).cell) (range_with_len 0 SLOTS) }
    {
        self.filled(place).count_ones()
    }

    /// Whether a slot of any place names a number.
    pub fn is_named(&self, number: TargetNumber) -> bool
        requires { number < NUMBERS }
        ensures { IsTrue result ↔
            ((i : ℕ) × (n : ℕ) × ((row_of (slots self.now) i n).target ≡ Some number)) }
    {
        self.objects.is_named(number)
    }

    /// Puts another cell into a slot, with the number that it names.
    pub fn put(
        &mut self,
        place: usize,
        slot: SlotNumber,
        cell: Cell<Lent<'_>>,
        target: Option<TargetNumber>,
    )
        requires place { place < length (slots self.old) }
        requires slot { slot < SLOTS }
        requires target { IfSome target (λ number. number < NUMBERS) }
        requires named { cell_of cell ≡ Own Empty → target ≡ None }
        ensures { slots self.new ≡ slice_set (slots self.old) place
            (put_slot (row_of (slots self.old) place) slot (record { cell = cell_of cell.entry; target = target })) }
    {
        self.empty_slot(place, slot);
        let filling = Filling { cell, target };
        if filling.is_filled() {
            self.fill_slot(place, slot, &filling);
        }
    }

    /// Empties a slot, and gives its object back.
    fn empty_slot(&mut self, place: usize, slot: SlotNumber)
        requires place { place < length (slots self.old) }
        requires slot { slot < SLOTS }
        ensures { slots self.new ≡ slice_set (slots self.old) place
            (put_slot (row_of (slots self.old) place) slot empty_slot) }
    {
        let entry = self.tables[place].entries[slot as usize];
        self.objects.drop_entry(entry);
        self.tables[place].set(slot, 0, false);
    }

    /// Fills an empty slot with a new object.
    fn fill_slot(&mut self, place: usize, slot: SlotNumber, filling: &Filling<'_>)
        requires place { place < length (slots self.old) }
        requires slot { slot < SLOTS }
        requires empty { row_of (slots self.old) place slot ≡ empty_slot }
        requires filled { is_filled (slot_of filling.now).cell ≡ true }
        requires target { IfSome (slot_of filling.now).target (λ number. number < NUMBERS) }
        ensures { slots self.new ≡ slice_set (slots self.old) place
            (put_slot (row_of (slots self.old) place) slot (slot_of filling.now)) }
    {
        let o = self.objects.take(filling);
        self.tables[place].set(slot, o + 1, filling.is_common());
    }

    /// Makes a slot of a place what another slot, of the same or another place, is. Both slots share its
    /// object from then on.
    pub fn copy_slot(&mut self, to: usize, slot: SlotNumber, from: usize, other_slot: SlotNumber)
        requires to { to < length (slots self.old) }
        requires slot { slot < SLOTS }
        requires from { from < length (slots self.old) }
        requires from_slot { other_slot < SLOTS }
        ensures { slots self.new ≡ slice_set (slots self.old) to
            (put_slot (row_of (slots self.old) to) slot (row_of (slots self.old) from other_slot)) }
    {
        let entry = self.tables[from].entries[other_slot as usize];
        let common = self.tables[from].is_common(other_slot);
        self.objects.hold_all(&[entry]);
        let old = self.tables[to].entries[slot as usize];
        self.objects.drop_entry(old);
        self.tables[to].set(slot, entry, common);
    }

    /// Makes the slots of a place, all of which are empty, those of another.
    pub fn clone_place(&mut self, to: usize, from: usize)
        requires to { to < length (slots self.old) }
        requires from { from < length (slots self.old) }
        requires apart { from ≢ to }
        requires empty { row_of (slots self.old) to ≡ no_slots }
        ensures { slots self.new ≡ slice_set (slots self.old) to (row_of (slots self.old) from) }
    {
        self.objects.hold_all(self.tables[from].used());
        self.tables.copy(to, from);
    }

    /// Makes all slots of a place empty, and gives back what no other place shares.
    pub fn clear_place(&mut self, place: usize)
        requires { place < length (slots self.old) }
        ensures { slots self.new ≡ slice_set (slots self.old) place no_slots }
    {
        self.objects.drop_all(self.tables[place].used());
        self.tables[place] = Table::fresh();
    }
}
