ghost use Rattle.std.specs.Prelude.{◌≡◌, ℕ, ◌<◌, ◌≤◌, ◌==◌, if◌then◌else◌, length, nat_lt, replicate, slice_index};
ghost use Rattle.std.specs.Prelude.{slice_set};
ghost use Rattle.lwc_base.specs.Capabilities.{has_bit};
ghost use Rattle.lwc_types.specs.declared.key.TheConstants.{SLOTS};
ghost use Rattle.fd_table.specs.Tables.{times};

use crate::bits::with_bit;
use late_rows::{CopyFrom, Fresh};
use lwc_base::{SLOTS, SlotNumber};

/// The slots of a place: for each one more than the number of its object, or 0 where it is empty. Bit n of
/// `filled` says that slot n has an object, and bit n of `common` that this is a group's cell.
#[derive(Clone, Copy, Drop)]
pub(crate) struct Table {
    pub(crate) filled: u64,
    pub(crate) common: u64,
    pub(crate) entries: [u32; SLOTS as usize],
}

impl Fresh for Table {
    ghost use Rattle.fd_table.specs.Tables.{no_table};

    ghost fresh = { no_table };

    /// The table whose slots are all empty.
    fn fresh() -> Table {
        Table {
            filled: 0,
            common: 0,
            entries: [0; SLOTS as usize],
        }
    }
}

impl CopyFrom for Table {
    /// Makes each slot what it is in the other one.
    fn copy_from(&mut self, other: &Table) {
        *self = *other;
    }
}

impl Table {
    /// Puts another entry into a slot, common or not.
    pub(crate) fn set(&mut self, slot: SlotNumber, entry: u32, common: bool)
        requires { slot < SLOTS }
        ensures entries { self.new.entries ≡ slice_set self.old.entries slot entry }
        ensures filled { (m : ℕ) → m < SLOTS →
            has_bit self.new.filled m ≡ (if m == slot then nat_lt 0 entry else has_bit self.old.filled m) }
        ensures common { (m : ℕ) → m < SLOTS →
            has_bit self.new.common m ≡ (if m == slot then common else has_bit self.old.common m) }
    {
        self.entries[slot as usize] = entry;
        self.filled = with_bit(self.filled, slot, entry > 0);
        self.common = with_bit(self.common, slot, common);
    }

    /// Whether a slot is common.
    pub(crate) fn is_common(&self, slot: SlotNumber) -> bool
        requires { slot < SLOTS }
        ensures { result ≡ has_bit self.now.common slot }
    {
        self.common >> slot & 1 == 1
    }

    /// The entries up to the last slot that is filled.
    pub(crate) fn used(&self) -> &[u32]
        requires { (n : ℕ) → n < SLOTS →
            has_bit self.now.filled n ≡ nat_lt 0 (slice_index self.now.entries n) }
        ensures same { (o : ℕ) → times o result.now ≡ times o self.now.entries }
        ensures few { length result.now ≤ SLOTS }
    {
        let filled = self.filled;
        &self.entries[..64 - filled.leading_zeros() as usize]
    }
}
