ghost use Rattle.std.specs.Prelude.{◌≡◌, ◌≢◌, ℕ, Some, true};
ghost use Rattle.lwc_base.specs.Cells.{value_at};
ghost use Rattle.lwc_base.specs.Saved.{entered, save};
ghost use Rattle.lwc_base.specs.World.{World, context, is_live};
ghost use Rattle.lwc_types.specs.declared.key.Key.{Key};
ghost use Rattle.lwc_types.specs.declared.name.Name.{Name};
ghost use Rattle.lwc_types.specs.declared.regs.Regs.{Regs};

/// The registers that a context keeps for a thread are those that the thread enters it with. Those of other
/// threads stay, and so do each value, the registers that the context begins with, and all other contexts.
#[tactic(auto, using(crate::proofs::Saving::saving))]
pub fn saving_changes_saved_registers_alone()
    ensures entered { (w : World) (c : Name) (t : ℕ) (regs : Regs) → is_live w c ≡ true →
        entered (context (save w c t regs) c) t ≡ regs }
    ensures kept { (w : World) (c : Name) (t : ℕ) (regs : Regs) → is_live w c ≡ true →
        (context (save w c t regs) c).saved t ≡ Some regs }
    ensures other_threads { (w : World) (c : Name) (t : ℕ) (regs : Regs) → (s : ℕ) → s ≢ t →
        (context (save w c t regs) c).saved s ≡ (context w c).saved s }
    ensures begins { (w : World) (c : Name) (t : ℕ) (regs : Regs) →
        (context (save w c t regs) c).entry ≡ (context w c).entry }
    ensures value { (w : World) (c : Name) (t : ℕ) (regs : Regs) → (d : Name) (k : Key) →
        value_at (save w c t regs) d k ≡ value_at w d k }
    ensures other_contexts { (w : World) (c : Name) (t : ℕ) (regs : Regs) → (d : Name) → d ≢ c →
        context (save w c t regs) d ≡ context w d }
{}
