ghost use Rattle.std.specs.Prelude.{◌≡◌, ℕ, true};
ghost use Rattle.lwc_base.specs.Life.{HasItsContexts};
ghost use Rattle.lwc_base.specs.World.{World, is_live};
ghost use Rattle.lwc_base.specs.declared.answer.Moved.TheVariants.{To};
ghost use Rattle.lwc_types.specs.declared.name.Name.{Name};
ghost use Rattle.lwc_types.specs.declared.regs.Regs.{Regs};
ghost use Rattle.lwc_switch.specs.Switch.{IsSwitch, LeavesRest, switch};

/// An accepted switch takes its thread to a live context that a slot of the caller's has a descriptor of, and
/// an empty slot of which then has a descriptor of the caller's context without a key.
pub fn an_accepted_switch_goes_to_a_linked_context()
    ensures { (w v : World) (c d : Name) (t : ℕ) (regs arrived : Regs) → HasItsContexts w →
        is_live w c ≡ true → switch w c t regs ≡ (To d arrived, v) → IsSwitch w v c d t regs arrived }
{}

/// A switch changes the registers that the context that it leaves keeps for the thread, and the empty slot
/// of the target, also for the contexts that have this slot in common with it. It changes nothing else.
pub fn a_switch_leaves_the_rest()
    ensures { (w v : World) (c d : Name) (t : ℕ) (regs arrived : Regs) →
        (moved : IsSwitch w v c d t regs arrived) → LeavesRest w v c d t moved.slot }
{}
