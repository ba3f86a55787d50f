//! Laws of the definitions.

ghost use Rattle.std.specs.Prelude.{◌≡◌, ◌≤◌, ◌+◌, ℕ, [], false, true};
ghost use Rattle.lwc_base.specs.Cells.{put_slot};
ghost use Rattle.lwc_base.specs.Ranges.{ranges_of};
ghost use Rattle.lwc_base.specs.Sharing.{clone_context, needs_group, ranges_after_clone, share};
ghost use Rattle.lwc_base.specs.Sound.{HasItsGroups};
ghost use Rattle.lwc_base.specs.World.{World, context, next_context};
ghost use Rattle.lwc_base.specs.declared.descriptor.Descriptor.TheVariants.{Reply, Request};
ghost use Rattle.lwc_types.specs.declared.name.Name.{Name};
ghost use Rattle.snapshot_host.specs.Begin.{begin};
ghost use Rattle.world_face.specs.Calls.{IsLive};

/// A request begins as a copy of the home by no item, in which two slots are put. Such a copy needs no
/// group, and has at most as many ranges as the home.
pub fn a_request_begins_as_a_copy()
    ensures begun { (w : World) (home : Name) (r : ℕ) → begin w home r
        ≡ put_slot (put_slot (clone_context w home (r + 1) [] (context w home).entry)
        (next_context w (r + 1)) 1 (Reply r)) (next_context w (r + 1)) 0 (Request r 0) }
    ensures no_group { (w : World) (home : Name) → needs_group w home [] ≡ false }
    ensures same { (w : World) (home : Name) (job : ℕ) → share w home job [] ≡ w }
    ensures ranges { (w : World) (home : Name) (job : ℕ) → HasItsGroups w → IsLive w home →
        ((ranges_after_clone w home job []).0 ≡ ranges_of w home)
        × ((ranges_after_clone w home job []).1 ≤ ranges_of w home) }
{}
