ghost use Rattle.std.specs.Prelude.{◌≡◌, ◌≤◌, All, length};
ghost use Rattle.std.specs.FinMap as fm;
ghost use Rattle.std.specs.List.{filter_map, list_any};
ghost use Rattle.lwc_base.specs.Life.{is_reached, names_group, reap};
ghost use Rattle.lwc_types.specs.declared.limits.TheConstants.{MOST_ROOTS};
ghost use Rattle.world_face.specs.Calls.{IsLive};
ghost use Rattle.lazy_world.specs.Worlds.{seen};

use crate::world::PlacedWorld;
use arrayvec::ArrayVec;
use fd_table::lowest_bit;
use lwc_base::{Name, SlotNumber};
use reach::{Links, Marks, mark};

/// The places are those of contexts.
impl Links for PlacedWorld {
    ghost use Rattle.lazy_world.specs.Reaping as spec;

    ghost link_of = { spec.link_of };

    fn link(&self, place: usize, slot: SlotNumber) -> Option<usize> {
        self.contexts.at(place)?;
        if !self.places.is_filled(place, slot) {
            return None;
        }
        self.place_of(self.linked(place, slot))
    }

    fn next_slot(&self, place: usize, from: SlotNumber) -> Option<SlotNumber> {
        self.contexts.at(place)?;
        lowest_bit(self.places.filled(place), from)
    }
}

impl PlacedWorld {
    ghost use Rattle.std.specs.Prelude.{◌<◌, IfSome};
    ghost use Rattle.lwc_types.specs.declared.limits.TheConstants.{MOST_CONTEXTS};
    ghost use Rattle.lazy_world.specs.Reaping.{place_by};

    /// Drops the contexts that are not reached from the roots, and then the groups that no cell names.
    pub(crate) fn reap(&mut self, roots: &[Name])
        requires few { length roots.now ≤ MOST_ROOTS }
        requires live { All (λ root. IsLive (seen self.old) root) roots.now }
        ensures reaped { seen self.new ≡ reap (seen self.old) roots.now }
    {
        self.drop_contexts(roots);
        self.drop_groups();
    }

    /// Drops the contexts that are not reached from the roots.
    #[inline(never)]
    pub(crate) fn drop_contexts(&mut self, roots: &[Name])
        requires { length roots.now ≤ MOST_ROOTS }
        ensures { seen self.new ≡ record (seen self.old) {
          contexts = fm.retain_keys (seen self.old).contexts (is_reached (seen self.old) roots.now);
        } }
    {
        let mut marks = Marks::new();
        let places = self.places_of(roots);
        mark(self, places.as_slice(), &mut marks);
        self.keep_contexts(marks.as_slice());
    }

    /// Drops the groups that no cell names. Mostly each is named.
    #[inline(never)]
    pub(crate) fn drop_groups(&mut self)
        ensures { seen self.new ≡ record (seen self.old) {
          groups = fm.retain_keys (seen self.old).groups
              (λ g. list_any (names_group (seen self.old).size.pages g) (fm.values (seen self.old).contexts));
        } }
    {
        if self.groups.len() == 0 {
            return;
        }
        let marks = self.named_groups();
        if self.first_unmarked(0, &marks) >= self.groups.len() {
            return;
        }
        self.keep_groups(&marks);
    }

    /// The place of a context, if one is given and it is live.
    fn place_of(&self, context: Option<Name>) -> Option<usize>
        ensures place { result ≡ place_by self.now.contexts.map context }
        ensures within { IfSome result (λ place. place < MOST_CONTEXTS) }
    {
        match context {
            Some(name) => self.contexts.place(name),
            None => None,
        }
    }

    /// The places of the live ones of some contexts.
    fn places_of(&self, names: &[Name]) -> ArrayVec<usize, 32>
        requires { length names.now ≤ MOST_ROOTS }
        ensures { result.items ≡ filter_map (fm.get self.now.contexts.map) names.now }
    {
        let mut places = ArrayVec::new();
        for name in names {
            if let Some(place) = self.contexts.place(*name) {
                places.push(place);
            }
        }
        places
    }
}
