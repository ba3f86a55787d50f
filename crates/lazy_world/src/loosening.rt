ghost use Rattle.std.specs.Prelude.{◌≡◌, ◌<◌, ◌≤◌, ℕ, length, All, IfSome, None, Some, true, false};
ghost use Rattle.std.specs.FinMap as fm;
ghost use Rattle.fd_table.specs.Slots.{context_of};
ghost use Rattle.lwc_base.specs.Cells.{value_of};
ghost use Rattle.lwc_base.specs.Life.{Reaches, is_among, is_reached, links, reap};
ghost use Rattle.lwc_base.specs.World.{is_live};
ghost use Rattle.lwc_types.specs.declared.key.TheConstants.{SLOTS};
ghost use Rattle.lwc_types.specs.declared.limits.TheConstants.{MOST_ROOTS};
ghost use Rattle.lwc_types.specs.declared.key.Key.TheVariants.{Slot};
ghost use Rattle.lwc_types.specs.declared.name.Name.{Name};
ghost use Rattle.world_face.specs.Calls.{IsLive};
ghost use Rattle.lazy_world.specs.CachedRoots.{AreReached, HasLoose, HasRoot, IsLoose};
ghost use Rattle.lazy_world.specs.declared.loosening.Garbage.TheVariants as garbage;
ghost use Rattle.lazy_world.specs.Seen.{count, rows};
ghost use Rattle.lazy_world.specs.Worlds.{parts, seen};

use crate::world::PlacedWorld;
use fd_table::lowest_bit;
use lwc_base::{Lent, Name, SlotNumber};

/// The garbage among some contexts, which is what no root reaches, as far as that is seen without a search.
#[derive(Clone, Copy, PartialEq, Eq)]
pub enum Garbage {
    /// The roots reach each context that is live.
    Nothing,
    /// They reach each one but this.
    One(Name),
    /// It takes a search.
    Unknown,
}

/// Whether a name is among some.
fn is_among(names: &[Name], context: Name) -> bool
    ensures { result ≡ is_among names.now context }
{
    names.contains(&context)
}

/// The same. It looks at this place first, since a root mostly stays where it was among the roots.
fn is_among_at(names: &[Name], place: usize, context: Name) -> bool
    ensures { result ≡ is_among names.now context }
{
    if place < names.len() && names[place] == context {
        return true;
    }
    is_among(names, context)
}

impl PlacedWorld {
    /// The context that a slot of the context at a place has a descriptor of, if it has one.
    #[tactic(auto, unfolding(crate::specs::Seen::rows, crate::specs::Cells::rows_of))]
    pub(crate) fn linked(&self, place: usize, slot: SlotNumber) -> Option<Name>
        requires place { place < count self.now.places }
        requires slot { slot < SLOTS }
        ensures { result
            ≡ context_of (value_of (seen self.now) (Slot slot) (rows self.now.places place (Slot slot))) }
    {
        if !self.places.is_common(place, slot) {
            return self.places.slots.context(place, slot);
        }
        match self.slot_at(place, slot) {
            Lent::Ctx { name, .. } => Some(name),
            _ => None,
        }
    }

    /// Whether a slot of the context at a place has a descriptor of a context. It looks at the last
    /// filled slot first, since that often has the newest one.
    fn links_at(&self, place: usize, context: Name) -> bool
        requires { place < count self.now.places }
        ensures { result ≡ true → (n : ℕ) × (n < SLOTS)
            × (context_of (value_of (seen self.now) (Slot n) (rows self.now.places place (Slot n)))
            ≡ Some context) }
    {
        let filled = self.places.filled(place);
        if let Some(last) = 63_u8.checked_sub(filled.leading_zeros() as u8) {
            if self.linked(place, last) == Some(context) {
                return true;
            }
        }
        let mut from = 0;
        'slots: while let Some(n) = lowest_bit(filled, from) {
            if self.linked(place, n) == Some(context) {
                return true;
            }
            from = n + 1;
        }
        false
    }

    /// Whether a context links to another one.
    fn links_to(&self, target: Name, context: Name) -> bool
        requires { IsLive (seen self.now) target }
        ensures { result ≡ true → links (seen self.now) target context ≡ true }
    {
        self.links_at(self.place(target), context)
    }

    /// Whether one of the roots links to a context.
    fn is_next(&self, roots: &[Name], context: Name) -> bool
        requires { All (λ root. IsLive (seen self.now) root) roots.now }
        ensures { result ≡ true → Reaches (seen self.now) roots.now context }
    {
        for i in 0..roots.len() {
            if self.links_to(roots[i], context) {
                return true;
            }
        }
        false
    }

    /// Whether a context is a root or one of them links to it.
    fn is_near(&self, roots: &[Name], context: Name) -> bool
        requires { All (λ root. IsLive (seen self.now) root) roots.now }
        ensures { result ≡ true → Reaches (seen self.now) roots.now context }
    {
        if is_among(roots, context) {
            return true;
        }
        self.is_next(roots, context)
    }

    /// The place of the first root, if there is one.
    fn first_place(&self, roots: &[Name]) -> Option<usize>
        requires { All (λ root. IsLive (seen self.now) root) roots.now }
        ensures root { IfSome result (HasRoot (parts self.now) roots.now) }
        ensures inside { IfSome result (λ j. j < count self.now.places) }
    {
        if roots.is_empty() {
            return None;
        }
        Some(self.place(roots[0]))
    }

    /// Whether what a slot of the context at a place links to is near the roots, if it links to a context. It
    /// looks first whether the slot is one that a root shares.
    fn has_near(&self, roots: &[Name], first: Option<usize>, place: usize, slot: SlotNumber) -> bool
        requires live { All (λ root. IsLive (seen self.now) root) roots.now }
        requires first { IfSome first (HasRoot (parts self.now) roots.now) }
        requires first_inside { IfSome first (λ j. j < count self.now.places) }
        requires place { place < count self.now.places }
        requires slot { slot < SLOTS }
        ensures { result ≡ true → (c : Name)
            → context_of (value_of (seen self.now) (Slot slot) (rows self.now.places place (Slot slot)))
            ≡ Some c
            → Reaches (seen self.now) roots.now c }
    {
        if let Some(j) = first {
            if self.places.slots.is_shared(place, j, slot) {
                return true;
            }
        }
        match self.linked(place, slot) {
            Some(c) => self.is_near(roots, c),
            None => true,
        }
    }

    /// Whether each context that the context at a place links to is near the roots.
    fn has_all_near(&self, roots: &[Name], place: usize) -> bool
        requires live { All (λ root. IsLive (seen self.now) root) roots.now }
        requires place { place < count self.now.places }
        ensures { result ≡ true → (n : ℕ) (c : Name) → n < SLOTS
            → context_of (value_of (seen self.now) (Slot n) (rows self.now.places place (Slot n))) ≡ Some c
            → Reaches (seen self.now) roots.now c }
    {
        let first = self.first_place(roots);
        let filled = self.places.filled(place);
        let mut from = 0;
        'slots: while let Some(n) = lowest_bit(filled, from) {
            if !self.has_near(roots, first, place, n) {
                return false;
            }
            from = n + 1;
        }
        true
    }

    /// Whether a live context is loose, as far as that is seen without a search.
    fn is_loose(&self, roots: &[Name], context: Name) -> bool
        requires live { IsLive (seen self.now) context }
        requires roots { All (λ root. IsLive (seen self.now) root) roots.now }
        ensures { result ≡ true → IsLoose (seen self.now) roots.now context }
    {
        if self.places.may_name(context) || is_among(roots, context) {
            return false;
        }
        self.has_all_near(roots, self.place(context))
    }

    /// Whether a context is live.
    #[inline(always)]
    pub(crate) fn is_live(&self, context: Name) -> bool
        ensures { result ≡ is_live (seen self.now) context }
    {
        self.contexts.place(context).is_some()
    }

    /// Whether a context is near the roots, or not live. Mostly it is near them, so that is looked at first; and mostly
    /// it is the root at this place.
    fn is_settled(&self, roots: &[Name], place: usize, context: Name) -> bool
        requires { All (λ root. IsLive (seen self.now) root) roots.now }
        ensures { result ≡ true → is_live (seen self.now) context ≡ true
            → Reaches (seen self.now) roots.now context }
    {
        if is_among_at(roots, place, context) {
            return true;
        }
        if self.places.may_name(context) && self.is_next(roots, context) {
            return true;
        }
        !self.is_live(context)
    }

    /// The garbage among contexts of some names.
    fn garbage(&self, names: &[Name], roots: &[Name]) -> Garbage
        requires { All (λ root. IsLive (seen self.now) root) roots.now }
        ensures nothing { result ≡ garbage.Nothing → HasLoose (seen self.now) names.now roots.now None }
        ensures one { (c : Name) → result ≡ garbage.One c
            → HasLoose (seen self.now) names.now roots.now (Some c) }
    {
        let mut loose = None;
        for k in 0..names.len() {
            let c = names[k];
            if loose == Some(c) || self.is_settled(roots, k, c) {
                continue;
            }
            if loose.is_some() || !self.is_live(c) || !self.is_loose(roots, c) {
                return Garbage::Unknown;
            }
            loose = Some(c);
        }
        match loose {
            None => Garbage::Nothing,
            Some(c) => Garbage::One(c),
        }
    }

    /// Drops the contexts that are not reached from the roots, where each live one is reached from the
    /// cached roots. Answers `false`, with nothing changed, where that takes a search.
    pub(crate) fn drop_loose(&mut self, cached_roots: &[Name], roots: &[Name]) -> bool
        requires cached_roots { AreReached (seen self.old) cached_roots.now }
        requires roots { All (λ root. IsLive (seen self.old) root) roots.now }
        ensures done { result ≡ true → seen self.new ≡ record (seen self.old) {
          contexts = fm.retain_keys (seen self.old).contexts (is_reached (seen self.old) roots.now);
        } }
        ensures same { result ≡ false → seen self.new ≡ seen self.old }
    {
        match self.garbage(cached_roots, roots) {
            Garbage::One(c) => {
                self.drop_context(c);
                true
            }
            Garbage::Nothing => true,
            Garbage::Unknown => false,
        }
    }

    /// Drops the contexts that are not reached from the roots, and then the groups that no cell names.
    /// Where each live context is known to be reached from the cached roots, it takes no search if that is
    /// enough.
    pub(crate) fn reap_from(&mut self, known: bool, cached_roots: &[Name], roots: &[Name])
        requires cached_roots { known ≡ true → AreReached (seen self.old) cached_roots.now }
        requires few { length roots.now ≤ MOST_ROOTS }
        requires live { All (λ root. IsLive (seen self.old) root) roots.now }
        ensures { seen self.new ≡ reap (seen self.old) roots.now }
    {
        if !known {
            self.reap(roots);
            return;
        }
        if self.drop_loose(cached_roots, roots) {
            self.drop_groups();
            return;
        }
        self.reap(roots);
    }
}
