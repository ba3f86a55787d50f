ghost use Rattle.std.specs.Prelude.{◌≡◌, ℕ, List, true};
ghost use Rattle.lwc_base.specs.Cells.{put_slot, put_uid, slot_at};
ghost use Rattle.lwc_base.specs.Channels.{Channels, HasItsFiles, IsInRange};
ghost use Rattle.lwc_base.specs.Life.{reap};
ghost use Rattle.lwc_base.specs.Mapping.{map_pages, unmap_pages};
ghost use Rattle.lwc_base.specs.Overlay.{overlay};
ghost use Rattle.lwc_base.specs.Saved.{save};
ghost use Rattle.lwc_base.specs.Sharing.{clone_context};
ghost use Rattle.lwc_base.specs.Store.{Piece, after_store};
ghost use Rattle.lwc_base.specs.World.{World, add_context, empty_world, is_live, new_context};
ghost use Rattle.lwc_base.specs.declared.descriptor.Descriptor.{Descriptor};
ghost use Rattle.lwc_base.specs.declared.item.Item.{Item};
ghost use Rattle.lwc_types.specs.declared.name.Name.{Name};
ghost use Rattle.lwc_types.specs.declared.regs.Regs.{Regs};
ghost use Rattle.lwc_types.specs.declared.size.WorldSize.{WorldSize};

/// A descriptor that a slot of a live context has names a file or a request that is there, and has been read
/// at most up to its end. This stays so whatever a run changes: what is put into a slot has to be so too.
pub fn descriptors_stay_in_range()
    ensures empty { (io : Channels) (size : WorldSize) →
        HasItsFiles io (empty_world size) }
    ensures add { (io : Channels) (w : World) (job uid : ℕ) (entry : Regs) →
        HasItsFiles io w → HasItsFiles io (add_context w job (new_context uid entry)) }
    ensures slot { (io : Channels) (w : World) (c : Name) (n : ℕ)
        (value : Descriptor) → IsInRange io value → HasItsFiles io w →
        HasItsFiles io (put_slot w c n value) }
    ensures uid { (io : Channels) (w : World) (c : Name) (uid : ℕ) →
        HasItsFiles io w → HasItsFiles io (put_uid w c uid) }
    ensures map { (io : Channels) (w : World) (c : Name) (from to : ℕ) →
        HasItsFiles io w → HasItsFiles io (map_pages w c from to) }
    ensures unmap { (io : Channels) (w : World) (c : Name) (from to : ℕ) →
        HasItsFiles io w → HasItsFiles io (unmap_pages w c from to) }
    ensures store { (io : Channels) (w : World) (c : Name) (job : ℕ)
        (piece : Piece) → HasItsFiles io w → HasItsFiles io (after_store w c job piece) }
    ensures clone { (io : Channels) (w : World) (c : Name) (job : ℕ)
        (items : List Item) (entry : Regs) → is_live w c ≡ true → HasItsFiles io w →
        HasItsFiles io (clone_context w c job items entry) }
    ensures save { (io : Channels) (w : World) (c : Name) (t : ℕ)
        (regs : Regs) → HasItsFiles io w → HasItsFiles io (save w c t regs) }
    ensures overlay { (io : Channels) (w : World) (c d : Name) (job : ℕ)
        (items : List Item) → is_live w d ≡ true → HasItsFiles io w →
        HasItsFiles io (overlay w c d job items) }
    ensures reap { (io : Channels) (w : World) (roots : List Name) →
        HasItsFiles io w → HasItsFiles io (reap w roots) }
    ensures read { (io : Channels) (w : World) (c : Name) (n : ℕ) →
        is_live w c ≡ true → HasItsFiles io w → IsInRange io (slot_at w c n) }
{}
