ghost use Rattle.std.specs.Prelude.{◌≡◌, ◌/◌, ◌<◌, ◌≤◌, ℕ, true, None, Some};
ghost use Rattle.lwc_base.specs.Cells.{page_at};
ghost use Rattle.lwc_base.specs.Mapping.{map_pages, unmap_pages};
ghost use Rattle.lwc_base.specs.Memory.{byte_at};
ghost use Rattle.lwc_base.specs.World.{World, is_live};
ghost use Rattle.lwc_types.specs.declared.name.Name.{Name};
ghost use Rattle.lwc_types.specs.declared.page.PageValue.TheVariants.{Zero};
ghost use Rattle.lwc_types.specs.declared.page.TheConstants.{PAGE_BYTES};

/// A page that is mapped is zeros, and each byte of it reads 0, whatever was there. One that is unmapped is
/// absent.
#[tactic(auto, using(crate::proofs::Rights::pages_of_ranges))]
pub fn a_mapped_page_reads_zeros()
    ensures zeros { (w : World) (c : Name) (from to : ℕ) → (p : ℕ) → is_live w c ≡ true → from ≤ p → p < to →
        page_at (map_pages w c from to) c p ≡ Some Zero }
    ensures bytes { (w : World) (c : Name) (from to : ℕ) → (at : ℕ) → is_live w c ≡ true →
        from ≤ at / PAGE_BYTES → at / PAGE_BYTES < to → byte_at (map_pages w c from to) c at ≡ 0 }
    ensures absent { (w : World) (c : Name) (from to : ℕ) → (p : ℕ) → is_live w c ≡ true → from ≤ p → p < to →
        page_at (unmap_pages w c from to) c p ≡ None }
{}
