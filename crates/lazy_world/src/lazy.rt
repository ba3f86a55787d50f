ghost use Rattle.std.specs.Prelude.{◌≡◌, ◌≤◌, length, true};
ghost use Rattle.lwc_types.specs.declared.limits.TheConstants.{MOST_ROOTS};
ghost use Rattle.lazy_world.specs.CachedRoots.{AreReached};
ghost use Rattle.lazy_world.specs.Notes.{AreRight};
ghost use Rattle.lazy_world.specs.Worlds as placed;

use crate::cutting::add_root;
use crate::notes::Notes;
use crate::world::PlacedWorld;
use arrayvec::ArrayVec;
use item_modes::names_slots;
use lwc_base::{Items, MOST_KEPT_ROOTS, Name, Regs};

/// A world by shared pages that knows what its contexts are reached from, so that a reap mostly takes no
/// search: each live context is reached from the cached roots, where they are known.
#[derive(Drop)]
pub struct LazyWorld {
    pub(crate) world: PlacedWorld,
    pub(crate) cached_roots: ArrayVec<Name, MOST_KEPT_ROOTS>,
    pub(crate) known: bool,
    pub(crate) notes: Notes,
    ghost reached: { known ≡ true → AreReached (placed.seen world) cached_roots.items },
    ghost noted: { AreRight world notes },
}

impl LazyWorld {
    ghost use Rattle.lwc_base.specs.Life.{is_among};
    ghost use Rattle.lwc_types.specs.declared.name.Name.{Name};
    ghost use Rattle.world_face.specs.Calls.{IsLive};
    ghost use Rattle.lazy_world.specs.CachedRoots.{HasNamedLinks, with_cached_root};
    ghost use Rattle.lazy_world.specs.Lazy.{seen_lazy};

    /// Adds a cached root, if one is given. Without room for it they are not known any more.
    pub(crate) fn add_cached_root(&mut self, context: Option<Name>)
        ensures world { self.new.world ≡ self.old.world }
        ensures kept { self.new.known ≡ true → self.old.known ≡ true }
        ensures cached_roots { self.new.known ≡ true
            → self.new.cached_roots.items ≡ with_cached_root self.old.cached_roots.items context }
    {
        if !add_root(&mut self.cached_roots, context) {
            self.known = false;
        }
    }

    /// Adds what an overlay may cut a context off from: what its slots that items name link it to. Without room
    /// for all they are not known any more.
    fn add_named_links(&mut self, context: Name, spec: &Items)
        requires { IsLive (seen_lazy self.old) context }
        ensures world { self.new.world ≡ self.old.world }
        ensures kept { self.new.known ≡ true → self.old.known ≡ true }
        ensures more { (d : Name) → is_among self.old.cached_roots.items d ≡ true
            → is_among self.new.cached_roots.items d ≡ true }
        ensures links { self.new.known ≡ true
            → HasNamedLinks (seen_lazy self.old) context spec.now self.new.cached_roots.items }
    {
        if !names_slots(spec) {
            return;
        }
        let place = self.world.place(context);
        if !self
            .world
            .add_named_links(place, spec, &mut self.cached_roots)
        {
            self.known = false;
        }
    }
}

impl LazyWorld {
    ghost use Rattle.std.specs.Prelude.{◌<◌};
    ghost use Rattle.lwc_base.specs.Modes.{IsSpec};
    ghost use Rattle.lwc_base.specs.Overlay.{overlay, ranges_after_overlay};
    ghost use Rattle.lwc_base.specs.Sharing.{clone_context, needs_group, ranges_after_clone};
    ghost use Rattle.lwc_base.specs.World.{next_context};
    ghost use Rattle.world_face.specs.Calls.{AreFew, HasGroupPlace, HasPlace, IsLive, MayName};
    ghost use Rattle.lazy_world.specs.Costs.{CloneSteps, CloneStore, OverlaySteps, OverlayStore};
    ghost use Rattle.lazy_world.specs.Lazy.{placed, seen_lazy};

    /// `clone_context`, without a `Result`. No frame is taken or written. Where no group is needed,
    /// each range of the context and each item takes at most 128 node steps and 4 free nodes, and one free
    /// node besides if there is one; or one step and no node in all, where each page is copied and is the
    /// context's own.
    pub fn clone_with_costs(&mut self, context: Name, spec: &Items, job: u32, entry: &Regs) -> Name
        requires live { IsLive (seen_lazy self.old) context }
        requires within { IsSpec (seen_lazy self.old).size.pages spec.now }
        requires may { MayName (seen_lazy self.old) job }
        requires place { HasPlace (seen_lazy self.old) }
        requires group { needs_group (seen_lazy self.old) context spec.now ≡ true
            → HasGroupPlace (seen_lazy self.old) }
        requires few { AreFew (ranges_after_clone (seen_lazy self.old) context job spec.now) }
        ensures name { result ≡ next_context (seen_lazy self.old) job }
        ensures cloned { seen_lazy self.new
            ≡ clone_context (seen_lazy self.old) context job spec.now entry.now }
        ensures store { CloneStore (placed self.old) (placed self.new) context job spec.now }
        ensures steps { CloneSteps (placed self.old) (placed self.new) context job spec.now }
    {
        let next = self.world.next_name(job);
        self.add_cached_root(Some(next));
        self.notes.forget();
        self.world.clone_context(context, spec, job, entry)
    }

    /// `overlay`, without a `Result`. No frame is taken or written. Where no group is needed, each
    /// range of `from` and each item takes at most 3064 node steps and 16 free nodes, and 1532 steps and 9
    /// nodes besides.
    pub fn overlay_with_costs(&mut self, to: Name, from: Name, spec: &Items, job: u32)
        requires to { IsLive (seen_lazy self.old) to }
        requires from { IsLive (seen_lazy self.old) from }
        requires within { IsSpec (seen_lazy self.old).size.pages spec.now }
        requires may { MayName (seen_lazy self.old) job }
        requires group { needs_group (seen_lazy self.old) from spec.now ≡ true
            → HasGroupPlace (seen_lazy self.old) }
        requires few { AreFew (ranges_after_overlay (seen_lazy self.old) to from job spec.now) }
        ensures overlaid { seen_lazy self.new ≡ overlay (seen_lazy self.old) to from job spec.now }
        ensures store { OverlayStore (placed self.old) (placed self.new) from job spec.now }
        ensures steps { OverlaySteps (placed self.old) (placed self.new) from job spec.now }
    {
        self.add_named_links(to, spec);
        self.notes.forget();
        self.world.overlay(to, from, spec, job);
    }
}

/// Makes these roots the cached ones.
pub(crate) fn set_cached_roots(cached_roots: &mut ArrayVec<Name, MOST_KEPT_ROOTS>, roots: &[Name])
    requires { length roots.now ≤ MOST_ROOTS }
    ensures { cached_roots.new.items ≡ roots.now }
{
    cached_roots.clear();
    for root in roots {
        cached_roots.push(*root);
    }
}
