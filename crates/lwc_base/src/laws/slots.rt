ghost use Rattle.std.specs.Prelude.{◌≡◌, ◌<◌, ℕ, Some, true};
ghost use Rattle.lwc_base.specs.Cells.{slot_at};
ghost use Rattle.lwc_base.specs.Slots.{lowest_empty};
ghost use Rattle.lwc_base.specs.Summaries.{is_empty};
ghost use Rattle.lwc_base.specs.World.{World};
ghost use Rattle.lwc_types.specs.declared.key.TheConstants.{SLOTS};
ghost use Rattle.lwc_types.specs.declared.name.Name.{Name};

/// The lowest empty slot of a context is one of its slots, and empty.
pub fn the_lowest_empty_slot_is_empty()
    ensures within { (w : World) (c : Name) (n : ℕ) → lowest_empty w c ≡ Some n → n < SLOTS }
    ensures empty { (w : World) (c : Name) (n : ℕ) → lowest_empty w c ≡ Some n →
        is_empty (slot_at w c n) ≡ true }
{}
