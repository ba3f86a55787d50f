ghost use Rattle.std.specs.Prelude.{◌≡◌, ◌≢◌, ◌<◌, true};
ghost use Rattle.lwc_base.specs.Modes.{IsSpec};
ghost use Rattle.lwc_base.specs.Overlay.{overlay, ranges_after_overlay};
ghost use Rattle.lwc_base.specs.Sharing.{needs_group};
ghost use Rattle.world_face.specs.Calls.{AreFew, HasGroupPlace, IsLive, MayName};

use crate::transfer::Transfer;
use crate::world::PlacedWorld;
use lwc_base::{Items, Name};

impl PlacedWorld {
    ghost use Rattle.lazy_world.specs.Costs.{OverlaySteps, OverlayStore};
    ghost use Rattle.lazy_world.specs.Worlds.{seen};

    /// Takes over what the items name from another context.
    #[tactic(auto, using(lwc_base::proofs::Facts::changes))]
    fn overlay_other(&mut self, to: Name, from: Name, spec: &Items, job: u32)
        requires apart { to ≢ from }
        requires to { IsLive (seen self.old) to }
        requires from { IsLive (seen self.old) from }
        requires within { IsSpec (seen self.old).size.pages spec.now }
        requires may { MayName (seen self.old) job }
        requires group { needs_group (seen self.old) from spec.now ≡ true → HasGroupPlace (seen self.old) }
        requires few { AreFew (ranges_after_overlay (seen self.old) to from job spec.now) }
        ensures overlaid { seen self.new ≡ overlay (seen self.old) to from job spec.now }
        ensures store { OverlayStore self.old self.new from job spec.now }
        ensures steps { OverlaySteps self.old self.new from job spec.now }
    {
        self.share(from, spec, job);
        // Nothing is left that moves, so that no value becomes common by this name.
        self.follow(Transfer::Overlay(to), spec, from, to);
    }

    /// Takes over what the items name from the context itself. Its values move at once with the change of the
    /// others, since a context that has only shared may have too many ranges.
    #[tactic(auto, using(lwc_base::proofs::Facts::changes))]
    fn overlay_itself(&mut self, context: Name, spec: &Items, job: u32)
        requires live { IsLive (seen self.old) context }
        requires within { IsSpec (seen self.old).size.pages spec.now }
        requires may { MayName (seen self.old) job }
        requires group { needs_group (seen self.old) context spec.now ≡ true → HasGroupPlace (seen self.old) }
        requires few { AreFew (ranges_after_overlay (seen self.old) context context job spec.now) }
        ensures overlaid { seen self.new ≡ overlay (seen self.old) context context job spec.now }
        ensures store { OverlayStore self.old self.new context job spec.now }
        ensures steps { OverlaySteps self.old self.new context job spec.now }
    {
        if self.needs_group(context, spec) {
            let g = self.add_group(job);
            self.fill_group(g, context, spec);
            self.follow(Transfer::Overlay(g), spec, context, context);
        } else {
            // Nothing moves, so that no value becomes common by this name.
            self.follow(Transfer::Overlay(context), spec, context, context);
        }
    }

    /// Takes over what the items name from the context `from` into the context `to`, for a job; both may be
    /// the same. First the values of mode share that are `from`'s own move into one new group. Then `to`
    /// gets a copy of each value of mode copy, has each value of mode share in common with `from`, and
    /// nothing under a key of mode unmap. An absent page of `from` becomes absent in `to`. No frame is taken
    /// or written.
    pub(crate) fn overlay(&mut self, to: Name, from: Name, spec: &Items, job: u32)
        requires to { IsLive (seen self.old) to }
        requires from { IsLive (seen self.old) from }
        requires within { IsSpec (seen self.old).size.pages spec.now }
        requires may { MayName (seen self.old) job }
        requires group { needs_group (seen self.old) from spec.now ≡ true → HasGroupPlace (seen self.old) }
        requires few { AreFew (ranges_after_overlay (seen self.old) to from job spec.now) }
        ensures overlaid { seen self.new ≡ overlay (seen self.old) to from job spec.now }
        ensures store { OverlayStore self.old self.new from job spec.now }
        ensures steps { OverlaySteps self.old self.new from job spec.now }
    {
        if to == from {
            self.overlay_itself(from, spec, job);
        } else {
            self.overlay_other(to, from, spec, job);
        }
    }
}
