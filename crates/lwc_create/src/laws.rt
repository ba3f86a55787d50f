ghost use Rattle.std.specs.Prelude.{◌≡◌, ◌<◌, ℕ, None, false, is_none, true};
ghost use Rattle.lwc_base.specs.Modes.{IsSpec};
ghost use Rattle.lwc_base.specs.Refusals.{first_refusal};
ghost use Rattle.lwc_base.specs.Sharing.{needs_group};
ghost use Rattle.lwc_base.specs.Slots.{lowest_empty};
ghost use Rattle.lwc_base.specs.World.{World, groups_of, live_of};
ghost use Rattle.lwc_types.specs.declared.limits.TheConstants.{MOST_CONTEXTS_OF_JOB, MOST_GROUPS_OF_JOB};
ghost use Rattle.lwc_types.specs.declared.name.Name.{Name};
ghost use Rattle.lwc_types.specs.declared.regs.Regs.{Regs};
ghost use Rattle.lwc_create.specs.Create.{items_of, refusals};

/// Where no refusal holds, the items that the caller asks for are a specifier, the job may have one more
/// context, and one more group if these items need one, and a slot of the caller's context is empty.
pub fn an_accepted_call_is_within_limits()
    ensures spec { (w : World) (c : Name) (job : ℕ) (regs : Regs) →
        first_refusal (refusals w c job regs) ≡ None → IsSpec w.size.pages (items_of w c regs) }
    ensures contexts { (w : World) (c : Name) (job : ℕ) (regs : Regs) →
        first_refusal (refusals w c job regs) ≡ None → live_of w job < MOST_CONTEXTS_OF_JOB }
    ensures groups { (w : World) (c : Name) (job : ℕ) (regs : Regs) →
        first_refusal (refusals w c job regs) ≡ None → needs_group w c (items_of w c regs) ≡ true →
        groups_of w job < MOST_GROUPS_OF_JOB }
    ensures slot { (w : World) (c : Name) (job : ℕ) (regs : Regs) →
        first_refusal (refusals w c job regs) ≡ None → is_none (lowest_empty w c) ≡ false }
{}
