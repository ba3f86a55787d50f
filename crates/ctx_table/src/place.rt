ghost use Rattle.std.specs.Prelude.{◌≡◌, ◌<◌, Some, false, slice_set, true};
ghost use Rattle.std.specs.Borrow.{sem};
ghost use Rattle.std.specs.List.{position};
ghost use Rattle.lwc_types.specs.declared.limits.TheConstants.{MOST_THREADS};
ghost use Rattle.lwc_types.specs.declared.name.Name.{Name};
ghost use Rattle.ctx_table.specs.Contexts.{Kept};
ghost use Rattle.ctx_table.specs.Slots as spec;

use lwc_types::{Name, Regs};

/// A place of a table: free, or with a context that is held there.
#[derive(Drop)]
pub(crate) enum Place<C> {
    Free,
    Held {
        name: Name,
        value: C,
        entry: Regs,
        saved: [Option<Regs>; 16],
    },
}

impl<C> Place<C> {
    ghost use Rattle.ctx_table.specs.Lends.{lends_held};
    ghost use Rattle.ctx_table.specs.Slots.{is_free, name_in, slot_of};

    /// Whether it is free.
    pub(crate) fn is_free(&self) -> bool
        ensures { result ≡ is_free self.now }
    {
        matches!(self, Place::Free)
    }

    /// The name of the context that is held there, if one is.
    pub(crate) fn name(&self) -> Option<Name>
        ensures { result ≡ name_in (slot_of self.now) }
    {
        match self {
            Place::Held { name, .. } => Some(*name),
            Place::Free => None,
        }
    }

    /// The value of the context that is held there.
    pub(crate) fn value_mut(&mut self) -> &mut C
        requires { is_free self.old ≡ false }
        ensures* lends { sem 𝓛 (lends_held C.row self.entry result) }
        ensures value { (name : Name) (kept : Kept C) → slot_of self.old ≡ Some (name, kept) →
            kept.value ≡ result.now }
    {
        match self {
            Place::Held { value, .. } => value,
            Place::Free => unreachable!(),
        }
    }

    /// Keeps registers for a thread in the context that is held there.
    pub(crate) fn save(&mut self, thread: u32, regs: &Regs)
        requires held { is_free self.old ≡ false }
        requires thread { thread < MOST_THREADS }
        ensures { (name : Name) (kept : Kept C) → slot_of self.old ≡ Some (name, kept) →
            slot_of self.new
            ≡ Some (name, record kept { saved = slice_set kept.saved thread (Some regs.now) }) }
    {
        match self {
            Place::Held { saved, .. } => saved[thread as usize] = Some(*regs),
            Place::Free => unreachable!(),
        }
    }
}

/// The first free place.
pub(crate) fn first_free<C>(places: &[Place<C>]) -> Option<usize>
    ensures { result ≡ position spec.is_free places.now }
{
    places.iter().position(|place| place.is_free())
}
