ghost use Rattle.std.specs.Prelude.{◌≡◌, ℕ, Some, true};
ghost use Rattle.guest_call.specs.Changes.{ChangesKey, ChangesSaved};
ghost use Rattle.guest_call.specs.Guest.{descriptor_for, link_of};
ghost use Rattle.lwc_base.specs.Cells.{put_at};
ghost use Rattle.lwc_base.specs.Keys.{ValueOf};
ghost use Rattle.lwc_base.specs.Life.{links};
ghost use Rattle.lwc_base.specs.Saved.{save};
ghost use Rattle.lwc_base.specs.World.{World};
ghost use Rattle.lwc_base.specs.declared.descriptor.Cap.{Cap};
ghost use Rattle.lwc_types.specs.declared.key.Key.{Key};
ghost use Rattle.lwc_types.specs.declared.name.Name.{Name};
ghost use Rattle.lwc_types.specs.declared.regs.Regs.{Regs};

/// A context links to the one that a slot of it has a descriptor of.
#[tactic(auto, using(crate::proofs::Targets::target_links))]
pub fn a_descriptor_in_a_slot_is_a_link()
    ensures { (w : World) (c : Name) (n : ℕ) (link : Name × Cap) →
        link_of (descriptor_for w c n) ≡ Some link → links w c link.0 ≡ true }
{}

/// Another value under a key of a context changes that key alone, also for the contexts that have it in
/// common.
pub fn a_put_leaves_the_rest()
    ensures { (w : World) (c : Name) (k : Key) (value : ValueOf k) → ChangesKey w (put_at w c k value) c k }
{}

/// To save registers changes what one context keeps for one thread.
pub fn a_save_changes_one_threads_registers()
    ensures { (w : World) (c : Name) (t : ℕ) (regs : Regs) → ChangesSaved w (save w c t regs) c t }
{}
