ghost use Rattle.std.specs.Prelude.{◌≡◌, ◌≢◌, ◌+◌, ◌/◌, ◌≤◌, ℕ, true};
ghost use Rattle.lwc_base.specs.Cells.{value_at};
ghost use Rattle.lwc_base.specs.Clones.{AreApart, HaveInCommon};
ghost use Rattle.lwc_base.specs.Frames.{used};
ghost use Rattle.lwc_base.specs.Memory.{byte_at};
ghost use Rattle.lwc_base.specs.Sound.{IsSound};
ghost use Rattle.lwc_base.specs.Store.{Done, Piece, byte_after, parting_count, store};
ghost use Rattle.lwc_base.specs.World.{World, is_live};
ghost use Rattle.lwc_types.specs.declared.key.Key.{Key};
ghost use Rattle.lwc_types.specs.declared.key.Key.TheVariants.{Page};
ghost use Rattle.lwc_types.specs.declared.name.Name.{Name};
ghost use Rattle.lwc_types.specs.declared.page.TheConstants.{PAGE_BYTES};

/// What is stored reads back, and each other byte of the context is as it was. A byte of another context
/// stays where its page is apart, and is the same as the context's where its page is common. Under keys that
/// are no pages nothing changes.
pub fn what_is_stored_reads_back()
    ensures bytes { (w v : World) (c : Name) (job : ℕ) (piece : Piece) → store w c job piece ≡ Done v →
        IsSound w → is_live w c ≡ true → (at : ℕ) → byte_at v c at ≡ byte_after piece at (byte_at w c at) }
    ensures apart { (w v : World) (c : Name) (job : ℕ) (piece : Piece) → store w c job piece ≡ Done v →
        (d : Name) (at : ℕ) → AreApart w c d (Page (at / PAGE_BYTES)) → byte_at v d at ≡ byte_at w d at }
    ensures common { (w v : World) (c : Name) (job : ℕ) (piece : Piece) → store w c job piece ≡ Done v →
        (d : Name) (at : ℕ) → HaveInCommon w c d (Page (at / PAGE_BYTES)) → byte_at v d at ≡ byte_at v c at }
    ensures others { (w v : World) (c : Name) (job : ℕ) (piece : Piece) → store w c job piece ≡ Done v →
        (d : Name) (k : Key) → ((p : ℕ) → k ≢ Page p) → value_at v d k ≡ value_at w d k }
{}

/// A store takes one frame for each page that parts, and no more frames are used than there are.
pub fn each_page_that_parts_takes_a_frame()
    ensures taken { (w v : World) (c : Name) (job : ℕ) (piece : Piece) → store w c job piece ≡ Done v →
        IsSound w → is_live w c ≡ true → used v ≡ used w + parting_count w c piece }
    ensures enough { (w v : World) (c : Name) (job : ℕ) (piece : Piece) → store w c job piece ≡ Done v →
        IsSound w → is_live w c ≡ true → used v ≤ w.size.frames }
{}
