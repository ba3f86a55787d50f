ghost use Rattle.std.specs.Prelude.{◌≡◌, ◌<◌, ℕ, Some, false, is_some, true};
ghost use Rattle.fd_table.specs.Slots.{context_of};
ghost use Rattle.lwc_base.specs.Cells.{value_of};
ghost use Rattle.lwc_base.specs.Life.{is_among};
ghost use Rattle.lwc_base.specs.Modes.{mode};
ghost use Rattle.lwc_types.specs.declared.key.TheConstants.{SLOTS};
ghost use Rattle.lwc_types.specs.declared.key.Key.TheVariants.{Slot};
ghost use Rattle.lwc_types.specs.declared.name.Name.{Name};
ghost use Rattle.lazy_world.specs.CachedRoots.{with_cached_root};
ghost use Rattle.lazy_world.specs.Seen.{count, rows};
ghost use Rattle.lazy_world.specs.Worlds.{seen};

use crate::world::PlacedWorld;
use arrayvec::ArrayVec;
use fd_table::lowest_bit;
use lwc_base::{Items, Key, MOST_KEPT_ROOTS, Name, SlotNumber};
use res_spec::mode_of;

/// Adds a cached root, if one is given. Tells whether there was room for it.
pub(crate) fn add_root(roots: &mut ArrayVec<Name, MOST_KEPT_ROOTS>, root: Option<Name>) -> bool
    ensures added { result ≡ true → roots.new.items ≡ with_cached_root roots.old.items root }
    ensures full { result ≡ false → roots.new.items ≡ roots.old.items }
{
    let Some(root) = root else {
        return true;
    };
    if roots.len() >= MOST_KEPT_ROOTS {
        return false;
    }
    roots.push(root);
    true
}

impl PlacedWorld {
    /// The context that a slot of the context at a place has a descriptor of, if it has one and an item names the
    /// slot.
    fn named_link(&self, place: usize, slot: SlotNumber, spec: &Items) -> Option<Name>
        requires place { place < count self.now.places }
        requires slot { slot < SLOTS }
        ensures { is_some (mode spec.now (Slot slot)) ≡ true → result
            ≡ context_of (value_of (seen self.now) (Slot slot) (rows self.now.places place (Slot slot))) }
    {
        match mode_of(spec, Key::Slot(slot)) {
            Some(_) => self.linked(place, slot),
            None => None,
        }
    }

    /// Adds to cached roots the contexts that the slots which items name link the context at a place to. Tells
    /// whether there was room for all.
    pub(crate) fn add_named_links(
        &self,
        place: usize,
        spec: &Items,
        roots: &mut ArrayVec<Name, MOST_KEPT_ROOTS>,
    ) -> bool
        requires { place < count self.now.places }
        ensures more { (d : Name) → is_among roots.old.items d ≡ true → is_among roots.new.items d ≡ true }
        ensures links { result ≡ true → (n : ℕ) (d : Name) → n < SLOTS
            → is_some (mode spec.now (Slot n)) ≡ true
            → context_of (value_of (seen self.now) (Slot n) (rows self.now.places place (Slot n))) ≡ Some d
            → is_among roots.new.items d ≡ true }
    {
        let filled = self.places.filled(place);
        let mut next = 0;
        'slots: while let Some(n) = lowest_bit(filled, next) {
            if !add_root(roots, self.named_link(place, n, spec)) {
                return false;
            }
            next = n + 1;
        }
        true
    }
}
