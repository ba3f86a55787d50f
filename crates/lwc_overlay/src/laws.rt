ghost use Rattle.std.specs.Prelude.{◌≡◌, ℕ, false, slice_index, true};
ghost use Rattle.guest_call.specs.Changes.{ChangesKey};
ghost use Rattle.lwc_base.specs.Capabilities.{has_key};
ghost use Rattle.lwc_base.specs.Cells.{value_at};
ghost use Rattle.lwc_base.specs.Fresh.{IsFresh};
ghost use Rattle.lwc_base.specs.Life.{HasItsContexts};
ghost use Rattle.lwc_base.specs.Modes.{IsKey};
ghost use Rattle.lwc_base.specs.Sound.{HasItsGroups};
ghost use Rattle.lwc_base.specs.World.{World, is_live};
ghost use Rattle.lwc_base.specs.declared.answer.Answer.TheVariants.{Done};
ghost use Rattle.lwc_types.specs.declared.key.Key.{Key};
ghost use Rattle.lwc_types.specs.declared.key.Key.TheVariants.{Slot};
ghost use Rattle.lwc_types.specs.declared.name.Name.{Name};
ghost use Rattle.lwc_types.specs.declared.regs.Regs.{Regs};
ghost use Rattle.lwc_overlay.specs.Named.{items_of};
ghost use Rattle.lwc_overlay.specs.OverlayCall.{IsTaken, LeavesRest, overlay};
ghost use Rattle.lwc_overlay.specs.RestrictCall.{IsRestriction, restrict};
ghost use Rattle.res_spec.specs.declared.items.SpecCall.TheVariants.{Overlay};

/// An accepted restriction takes keys from the capability of a descriptor of a context.
pub fn an_accepted_restriction_takes_keys()
    ensures { (w v : World) (c : Name) (regs after : Regs) → restrict w c regs ≡ (Done after, v) →
        IsRestriction w v c regs }
{}

/// A restriction changes its slot alone, also for the contexts that have the slot in common.
#[tactic(auto, using(guest_call::proofs::Changes::putting))]
pub fn a_restriction_changes_one_slot()
    ensures { (w v : World) (c : Name) (regs : Regs) → IsRestriction w v c regs →
        ChangesKey w v c (Slot (slice_index regs.r 1)) }
{}

/// An accepted overlay takes over from a live context what the capability in the slot covers.
pub fn an_accepted_overlay_takes_what_is_covered()
    ensures { (w v : World) (c : Name) (job : ℕ) (regs after : Regs) → HasItsContexts w → is_live w c ≡ true →
        overlay w c job regs ≡ (Done after, v) → IsTaken w v c job regs }
{}

/// An overlay changes what its items name in the context that gets it. In the context that it takes from,
/// cells under share become common, with their values. It changes nothing else.
pub fn an_overlay_leaves_the_rest()
    ensures { (w v : World) (c : Name) (job : ℕ) (regs : Regs) → IsFresh w → HasItsGroups w →
        is_live w c ≡ true → (taken : IsTaken w v c job regs) →
        LeavesRest w v c taken.giver (items_of w c Overlay regs) }
{}

/// An overlay leaves the value under each key that the capability does not have.
pub fn an_overlay_changes_only_keys_of_its_capability()
    ensures { (w v : World) (c : Name) (job : ℕ) (regs : Regs) → IsFresh w → HasItsGroups w →
        is_live w c ≡ true → (taken : IsTaken w v c job regs) → (k : Key) → IsKey w.size.pages k →
        has_key taken.cap k ≡ false → value_at v c k ≡ value_at w c k }
{}
