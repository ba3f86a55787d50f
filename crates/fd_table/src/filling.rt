ghost use Rattle.std.specs.Prelude.{◌≡◌};
ghost use Rattle.fd_table.specs.Slots.{context_in, is_common, is_filled};
ghost use Rattle.fd_table.specs.Fillings.{slot_of};

use crate::slots::TargetNumber;
use lwc_base::{Cell, Lent, Name};

/// What a slot has, lent: its cell, and the number that it names.
#[derive(Drop)]
pub(crate) struct Filling<'a> {
    pub(crate) cell: Cell<Lent<'a>>,
    pub(crate) target: Option<TargetNumber>,
}

impl Filling<'_> {
    /// The context that a slot with this filling has a descriptor of, if it is the place's own.
    pub(crate) fn context(&self) -> Option<Name>
        ensures { result ≡ context_in (slot_of self.now).cell }
    {
        match &self.cell {
            Cell::Own(Lent::Ctx { name, .. }) => Some(*name),
            _ => None,
        }
    }

    /// Whether the value is a group's.
    pub(crate) fn is_common(&self) -> bool
        ensures { result ≡ is_common (slot_of self.now).cell }
    {
        matches!(&self.cell, Cell::Common(_))
    }

    /// Whether this is more than an empty slot.
    pub(crate) fn is_filled(&self) -> bool
        ensures { result ≡ is_filled (slot_of self.now).cell }
    {
        !matches!(&self.cell, Cell::Own(Lent::Empty))
    }
}
