ghost use Rattle.std.specs.Prelude.{◌≡◌, ◌≢◌, ◌⊎◌, ◌<◌, ◌≤◌, ◌+◌, ◌/◌, ℕ, List, Option, Some, length, true};
ghost use Rattle.lwc_base.specs.Cells.{put_at};
ghost use Rattle.lwc_base.specs.Clones.{IsClone};
ghost use Rattle.lwc_base.specs.Keys.{ValueOf};
ghost use Rattle.lwc_base.specs.Mapping.{map_pages, unmap_pages};
ghost use Rattle.lwc_base.specs.Modes.{mode, mode_or_copy};
ghost use Rattle.lwc_base.specs.Overlay.{IsOverlay};
ghost use Rattle.lwc_base.specs.Ranges.{has_page};
ghost use Rattle.lwc_base.specs.Rights.{right_at};
ghost use Rattle.lwc_base.specs.Saved.{save};
ghost use Rattle.lwc_base.specs.Sharing.{share};
ghost use Rattle.lwc_base.specs.Store.{Done, Piece, after_store, store};
ghost use Rattle.lwc_base.specs.World.{World, context, is_live};
ghost use Rattle.lwc_base.specs.declared.cell.Cell.TheVariants.{Own};
ghost use Rattle.lwc_base.specs.declared.item.Item.{Item};
ghost use Rattle.lwc_base.specs.declared.item.Mode.TheVariants.{Copy, CopyRead, Share};
ghost use Rattle.lwc_types.specs.declared.key.Key.{Key};
ghost use Rattle.lwc_types.specs.declared.key.Key.TheVariants.{Page};
ghost use Rattle.lwc_types.specs.declared.name.Name.{Name};
ghost use Rattle.lwc_types.specs.declared.page.PageValue.{PageValue};
ghost use Rattle.lwc_types.specs.declared.page.TheConstants.{PAGE_BYTES};
ghost use Rattle.lwc_types.specs.declared.regs.Regs.{Regs};
ghost use Rattle.lwc_types.specs.declared.right.Right.{Right};
ghost use Rattle.lwc_types.specs.declared.right.Right.TheVariants.{Read, Write};

/// The rights of a context's pages stay, whatever is put, stored, shared or saved, in it or in others.
#[tactic(auto, using(crate::proofs::Rights::rights_stay))]
pub fn rights_stay_with_their_context()
    ensures put { (w : World) (c : Name) (k : Key) (value : ValueOf k) → (d : Name) →
        (context (put_at w c k value) d).right ≡ (context w d).right }
    ensures store { (w : World) (c : Name) (job : ℕ) (piece : Piece) → (d : Name) →
        (context (after_store w c job piece) d).right ≡ (context w d).right }
    ensures share { (w : World) (c : Name) (job : ℕ) (items : List Item) → (d : Name) →
        (context (share w c job items) d).right ≡ (context w d).right }
    ensures save { (w : World) (c : Name) (t : ℕ) (regs : Regs) → (d : Name) →
        (context (save w c t regs) d).right ≡ (context w d).right }
{}

/// Each page that is mapped or unmapped has the right Write afterwards, and each other page the right that it
/// had.
#[tactic(auto, using(crate::proofs::Rights::rights_of_ranges))]
pub fn a_page_that_is_mapped_may_be_stored_to()
    ensures mapped { (w : World) (c : Name) (from to : ℕ) → (p : ℕ) → is_live w c ≡ true → from ≤ p → p < to →
        right_at (map_pages w c from to) c p ≡ Write }
    ensures unmapped { (w : World) (c : Name) (from to : ℕ) → (p : ℕ) → is_live w c ≡ true → from ≤ p →
        p < to → right_at (unmap_pages w c from to) c p ≡ Write }
    ensures not_mapped { (w : World) (c : Name) (from to : ℕ) → (d : Name) (p : ℕ) →
        (d ≢ c) ⊎ ((p < from) ⊎ (to ≤ p)) → right_at (map_pages w c from to) d p ≡ right_at w d p }
    ensures not_unmapped { (w : World) (c : Name) (from to : ℕ) → (d : Name) (p : ℕ) →
        (d ≢ c) ⊎ ((p < from) ⊎ (to ≤ p)) → right_at (unmap_pages w c from to) d p ≡ right_at w d p }
{}

/// A page that is copied or shared has in the clone the right that it has in the context that is cloned. One
/// that is copied read-only, and is present, has the right Read there. Each context that is live when a clone
/// is made keeps its rights.
pub fn a_clone_has_rights_by_its_modes()
    ensures copied { (w v : World) (c d : Name) (items : List Item) → IsClone w v c d items → (p : ℕ) →
        mode_or_copy items (Page p) ≡ Copy → right_at v d p ≡ right_at w c p }
    ensures shared { (w v : World) (c d : Name) (items : List Item) → IsClone w v c d items → (p : ℕ) →
        mode_or_copy items (Page p) ≡ Share → right_at v d p ≡ right_at w c p }
    ensures read { (w v : World) (c d : Name) (items : List Item) → IsClone w v c d items → (p : ℕ) →
        mode_or_copy items (Page p) ≡ CopyRead → has_page (context w c) p ≡ true → right_at v d p ≡ Read }
    ensures others { (w v : World) (c d : Name) (items : List Item) → IsClone w v c d items →
        (e : Name) (p : ℕ) → is_live w e ≡ true → right_at v e p ≡ right_at w e p }
{}

/// The same of a context that takes over from another one. Each other context keeps its rights, the one that
/// is taken from among them.
pub fn an_overlay_takes_rights_over()
    ensures copied { (w v : World) (c d : Name) (items : List Item) → IsOverlay w v c d items → (p : ℕ) →
        mode items (Page p) ≡ Some Copy → right_at v c p ≡ right_at w d p }
    ensures shared { (w v : World) (c d : Name) (items : List Item) → IsOverlay w v c d items → (p : ℕ) →
        mode items (Page p) ≡ Some Share → right_at v c p ≡ right_at w d p }
    ensures read { (w v : World) (c d : Name) (items : List Item) → IsOverlay w v c d items → (p : ℕ) →
        mode items (Page p) ≡ Some CopyRead → has_page (context w d) p ≡ true → right_at v c p ≡ Read }
    ensures others { (w v : World) (c d : Name) (items : List Item) → IsOverlay w v c d items →
        (e : Name) (p : ℕ) → e ≢ c → right_at v e p ≡ right_at w e p }
{}

/// A store that is done touches pages with the right Write alone. A page of a context's own that has the
/// right Read stays as it is, in the context that is stored to and in each other one.
pub fn only_what_may_be_written_is_stored_to()
    ensures writable { (w v : World) (c : Name) (job : ℕ) (piece : Piece) → store w c job piece ≡ Done v →
        (at : ℕ) → piece.at ≤ at → at < piece.at + length piece.bytes →
        right_at w c (at / PAGE_BYTES) ≡ Write }
    ensures kept { (w v : World) (c : Name) (job : ℕ) (piece : Piece) → store w c job piece ≡ Done v →
        (e : Name) (p : ℕ) (value : Option PageValue) → right_at w e p ≡ Read →
        (context w e).cell (Page p) ≡ Own value → (context v e).cell (Page p) ≡ Own value }
{}
