ghost use Rattle.std.specs.Prelude.{◌≡◌, ◌≤◌, ℕ, List, true};
ghost use Rattle.lwc_base.specs.Cells.{put_slot, put_uid};
ghost use Rattle.lwc_base.specs.Life.{reap};
ghost use Rattle.lwc_base.specs.Mapping.{map_pages, unmap_pages};
ghost use Rattle.lwc_base.specs.Modes.{IsSpec};
ghost use Rattle.lwc_base.specs.Overlay.{overlay};
ghost use Rattle.lwc_base.specs.Saved.{save};
ghost use Rattle.lwc_base.specs.Sharing.{clone_context, share};
ghost use Rattle.lwc_base.specs.Sound.{IsSound};
ghost use Rattle.lwc_base.specs.Store.{Done, Piece, store};
ghost use Rattle.lwc_base.specs.World.{World, add_context, empty_world, is_live, new_context};
ghost use Rattle.lwc_base.specs.declared.descriptor.Descriptor.{Descriptor};
ghost use Rattle.lwc_base.specs.declared.item.Item.{Item};
ghost use Rattle.lwc_types.specs.declared.name.Name.{Name};
ghost use Rattle.lwc_types.specs.declared.regs.Regs.{Regs};
ghost use Rattle.lwc_types.specs.declared.size.WorldSize.{WorldSize};

/// The world in which nothing is live is sound, and each change that a run makes of a sound world keeps it
/// sound.
pub fn sound_worlds_stay_sound()
    ensures empty { (size : WorldSize) → IsSound (empty_world size) }
    ensures add { (w : World) (job uid : ℕ) (entry : Regs) → IsSound w →
        IsSound (add_context w job (new_context uid entry)) }
    ensures map { (w : World) (c : Name) (from to : ℕ) → to ≤ w.size.pages → IsSound w →
        IsSound (map_pages w c from to) }
    ensures unmap { (w : World) (c : Name) (from to : ℕ) → IsSound w → IsSound (unmap_pages w c from to) }
    ensures slot { (w : World) (c : Name) (n : ℕ) (value : Descriptor) → IsSound w →
        IsSound (put_slot w c n value) }
    ensures uid { (w : World) (c : Name) (uid : ℕ) → IsSound w → IsSound (put_uid w c uid) }
    ensures store { (w v : World) (c : Name) (job : ℕ) (piece : Piece) → IsSound w → is_live w c ≡ true →
        store w c job piece ≡ Done v → IsSound v }
    ensures share { (w : World) (c : Name) (job : ℕ) (items : List Item) → IsSpec w.size.pages items →
        is_live w c ≡ true → IsSound w → IsSound (share w c job items) }
    ensures clone { (w : World) (c : Name) (job : ℕ) (items : List Item) (entry : Regs) →
        IsSpec w.size.pages items → is_live w c ≡ true → IsSound w →
        IsSound (clone_context w c job items entry) }
    ensures save { (w : World) (c : Name) (t : ℕ) (regs : Regs) → IsSound w → IsSound (save w c t regs) }
    ensures overlay { (w : World) (c d : Name) (job : ℕ) (items : List Item) → IsSpec w.size.pages items →
        is_live w c ≡ true → is_live w d ≡ true → IsSound w → IsSound (overlay w c d job items) }
    ensures reap { (w : World) (roots : List Name) → IsSound w → IsSound (reap w roots) }
{}
