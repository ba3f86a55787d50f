#![tactic(auto, using(crate::proofs::Common::apart, crate::proofs::Common::in_common))]

ghost use Rattle.std.specs.Prelude.{◌≡◌, ◌≢◌, ◌⊎◌, ℕ, List, None, Some, true};
ghost use Rattle.lwc_base.specs.Cells.{put_at, value_at};
ghost use Rattle.lwc_base.specs.Clones.{AreApart, HaveInCommon, IsClone, IsOutside};
ghost use Rattle.lwc_base.specs.Keys.{ValueOf, is_there};
ghost use Rattle.lwc_base.specs.Life.{reap};
ghost use Rattle.lwc_base.specs.Mapping.{map_pages, unmap_pages};
ghost use Rattle.lwc_base.specs.Modes.{IsKey, mode};
ghost use Rattle.lwc_base.specs.Overlay.{IsOverlay};
ghost use Rattle.lwc_base.specs.Saved.{save};
ghost use Rattle.lwc_base.specs.Sound.{HasItsGroups};
ghost use Rattle.lwc_base.specs.Store.{Piece, after_store};
ghost use Rattle.lwc_base.specs.World.{World, is_live};
ghost use Rattle.lwc_base.specs.declared.item.Item.{Item};
ghost use Rattle.lwc_base.specs.declared.item.Mode.TheVariants.{Share};
ghost use Rattle.lwc_types.specs.declared.key.Key.{Key};
ghost use Rattle.lwc_types.specs.declared.name.Name.{Name};
ghost use Rattle.lwc_types.specs.declared.regs.Regs.{Regs};

/// What is put under a key, where something is there, is read under it, and each context reads the same under
/// each other key.
pub fn a_put_changes_one_key()
    ensures put { (w : World) (c : Name) (k : Key) (value : ValueOf k) → HasItsGroups w → is_live w c ≡ true →
        is_there k (value_at w c k) ≡ true → value_at (put_at w c k value) c k ≡ value }
    ensures others { (w : World) (c : Name) (k : Key) (value : ValueOf k) → (d : Name) (q : Key) → q ≢ k →
        value_at (put_at w c k value) d q ≡ value_at w d q }
{}

/// What is put in one of two contexts that are apart under a key is not seen in the other.
pub fn what_is_apart_is_not_seen()
    ensures first { (w : World) (a b : Name) (k : Key) → AreApart w a b k →
        (value : ValueOf k) → value_at (put_at w a k value) b k ≡ value_at w b k }
    ensures second { (w : World) (a b : Name) (k : Key) → AreApart w a b k →
        (value : ValueOf k) → value_at (put_at w b k value) a k ≡ value_at w a k }
{}

/// What is apart stays apart, whatever is put, stored, mapped, unmapped, cloned or saved, in these contexts or in
/// others, and also where contexts are dropped. An overlay ends it by an item that shares the key with one of the
/// two, and by nothing else.
pub fn what_is_apart_stays_apart()
    ensures put { (w : World) (c : Name) (q : Key) (value : ValueOf q) (a b : Name) (k : Key) →
        AreApart w a b k → AreApart (put_at w c q value) a b k }
    ensures store { (w : World) (c : Name) (job : ℕ) (piece : Piece) (a b : Name) (k : Key) →
        AreApart w a b k → AreApart (after_store w c job piece) a b k }
    ensures map { (w : World) (c : Name) (from to : ℕ) (a b : Name) (k : Key) →
        AreApart w a b k → AreApart (map_pages w c from to) a b k }
    ensures unmap { (w : World) (c : Name) (from to : ℕ) (a b : Name) (k : Key) →
        AreApart w a b k → AreApart (unmap_pages w c from to) a b k }
    ensures clone { (w v : World) (c d : Name) (items : List Item) → IsClone w v c d items →
        (a b : Name) (k : Key) → is_live w a ≡ true → is_live w b ≡ true →
        AreApart w a b k → AreApart v a b k }
    ensures save { (w : World) (c : Name) (t : ℕ) (regs : Regs) (a b : Name) (k : Key) →
        AreApart w a b k → AreApart (save w c t regs) a b k }
    ensures reap { (w : World) (roots : List Name) (a b : Name) (k : Key) →
        is_live (reap w roots) a ≡ true → is_live (reap w roots) b ≡ true →
        AreApart w a b k → AreApart (reap w roots) a b k }
    ensures overlay { (w v : World) (c d : Name) (items : List Item) → IsOverlay w v c d items →
        (a b : Name) (k : Key) → is_live w a ≡ true → is_live w b ≡ true →
        (mode items k ≢ Some Share) ⊎ ((a ≢ c) × (b ≢ c)) → AreApart w a b k → AreApart v a b k }
{}

/// What two contexts have in common reads the same in both, and what is put there in one of the two is read
/// in the other. It stays common whatever is put, stored, cloned or saved, in these contexts or in others, while
/// both live, and whatever is mapped or unmapped in other contexts or under other pages. Mapping or unmapping
/// the page itself in one of the two ends it, and so may an overlay of one of the two whose items name the key.
pub fn what_is_common_stays_common()
    ensures same { (w : World) (a b : Name) (k : Key) → HaveInCommon w a b k →
        value_at w a k ≡ value_at w b k }
    ensures put { (w : World) (a b : Name) (k : Key) → HaveInCommon w a b k →
        (value : ValueOf k) → value_at (put_at w a k value) b k ≡ value }
    ensures stays { (w : World) (a b : Name) (k : Key) → HaveInCommon w a b k →
        (c : Name) (q : Key) (value : ValueOf q) → HaveInCommon (put_at w c q value) a b k }
    ensures store { (w : World) (a b : Name) (k : Key) → HaveInCommon w a b k →
        (c : Name) (job : ℕ) (piece : Piece) → HaveInCommon (after_store w c job piece) a b k }
    ensures map { (w : World) (a b : Name) (k : Key) → HaveInCommon w a b k →
        (c : Name) (from to : ℕ) → IsOutside from to k → HaveInCommon (map_pages w c from to) a b k }
    ensures map_others { (w : World) (a b : Name) (k : Key) → HaveInCommon w a b k →
        (c : Name) (from to : ℕ) → c ≢ a → c ≢ b → HaveInCommon (map_pages w c from to) a b k }
    ensures unmap { (w : World) (a b : Name) (k : Key) → HaveInCommon w a b k →
        (c : Name) (from to : ℕ) → IsOutside from to k → HaveInCommon (unmap_pages w c from to) a b k }
    ensures unmap_others { (w : World) (a b : Name) (k : Key) → HaveInCommon w a b k →
        (c : Name) (from to : ℕ) → c ≢ a → c ≢ b → HaveInCommon (unmap_pages w c from to) a b k }
    ensures clone { (w v : World) (c d : Name) (items : List Item) → IsClone w v c d items →
        (a b : Name) (k : Key) → HaveInCommon w a b k → HaveInCommon v a b k }
    ensures save { (w : World) (a b : Name) (k : Key) → HaveInCommon w a b k →
        (c : Name) (t : ℕ) (regs : Regs) → HaveInCommon (save w c t regs) a b k }
    ensures reap { (w : World) (a b : Name) (k : Key) → HaveInCommon w a b k →
        (roots : List Name) → IsKey w.size.pages k → is_live (reap w roots) a ≡ true →
        is_live (reap w roots) b ≡ true → HaveInCommon (reap w roots) a b k }
    ensures overlay { (w v : World) (c d : Name) (items : List Item) → IsOverlay w v c d items →
        (a b : Name) (k : Key) → (mode items k ≡ None) ⊎ ((a ≢ c) × (b ≢ c)) →
        HaveInCommon w a b k → HaveInCommon v a b k }
{}
