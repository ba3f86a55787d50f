ghost use Rattle.std.specs.Prelude.{◌≡◌, ◌≢◌, ℕ, List, true, false};
ghost use Rattle.lwc_base.specs.Cells.{value_at};
ghost use Rattle.lwc_base.specs.Clones.{AreApart, HaveInCommon, IsClone};
ghost use Rattle.lwc_base.specs.Fresh.{IsFresh};
ghost use Rattle.lwc_base.specs.Keys.{ValueOf, is_there, nothing};
ghost use Rattle.lwc_base.specs.Modes.{IsKey, copies, mode_or_copy};
ghost use Rattle.lwc_base.specs.Sharing.{has_own, is_moved, needs_group, share};
ghost use Rattle.lwc_base.specs.World.{World, context, group, is_live, next_group};
ghost use Rattle.lwc_base.specs.declared.cell.Cell.TheVariants.{Common, Own};
ghost use Rattle.lwc_base.specs.declared.item.Item.{Item};
ghost use Rattle.lwc_base.specs.declared.item.Mode.TheVariants.{Share, Unmap};
ghost use Rattle.lwc_types.specs.declared.key.Key.{Key};
ghost use Rattle.lwc_types.specs.declared.name.Name.{Name};

/// In a fresh world, each context reads the same under each key once values are shared.
#[tactic(auto, using(crate::proofs::Sharing::shared_values))]
pub fn sharing_changes_no_value()
    ensures { (w : World) (c : Name) (job : ℕ) (items : List Item) → IsFresh w →
        (d : Name) (k : Key) → value_at (share w c job items) d k ≡ value_at w d k }
{}

/// Each context that is live when a clone is made reads the same under each key afterwards.
pub fn cloning_changes_no_value()
    ensures { (w v : World) (c d : Name) (items : List Item) → IsClone w v c d items →
        (e : Name) (k : Key) → is_live w e ≡ true → value_at v e k ≡ value_at w e k }
{}

/// What is copied, the clone has of its own, as it was in the context that is cloned, and apart from each
/// other context.
pub fn what_is_copied_is_apart()
    ensures own { (w v : World) (c d : Name) (items : List Item) → IsClone w v c d items →
        (k : Key) → copies (mode_or_copy items k) ≡ true → (context v d).cell k ≡ Own (value_at w c k) }
    ensures same { (w v : World) (c d : Name) (items : List Item) → IsClone w v c d items →
        (k : Key) → copies (mode_or_copy items k) ≡ true → value_at v d k ≡ value_at w c k }
    ensures apart { (w v : World) (c d : Name) (items : List Item) → IsClone w v c d items →
        (k : Key) → copies (mode_or_copy items k) ≡ true → (e : Name) → is_live w e ≡ true →
        AreApart v e d k }
{}

/// What is left out is absent in the clone, empty, or nobody's, and apart from each other context.
pub fn what_is_left_out_is_not_there()
    ensures own { (w v : World) (c d : Name) (items : List Item) → IsClone w v c d items →
        (k : Key) → mode_or_copy items k ≡ Unmap → (context v d).cell k ≡ Own (nothing k) }
    ensures none { (w v : World) (c d : Name) (items : List Item) → IsClone w v c d items →
        (k : Key) → mode_or_copy items k ≡ Unmap → value_at v d k ≡ nothing k }
    ensures apart { (w v : World) (c d : Name) (items : List Item) → IsClone w v c d items →
        (k : Key) → mode_or_copy items k ≡ Unmap → (e : Name) → is_live w e ≡ true → AreApart v e d k }
{}

/// Under share the clone has the cell that the context then has. A value of the context's own that is there
/// has moved into the one new group of the job, what was common stays common of its group, and an absent page
/// stays absent. So what is shared, and is there, both have in common; and the clone has in common with
/// another context, or apart from it, what the context had.
pub fn what_is_shared_is_common()
    ensures cell { (w v : World) (c d : Name) (items : List Item) → IsClone w v c d items →
        (k : Key) → mode_or_copy items k ≡ Share → (context v d).cell k ≡ (context v c).cell k }
    ensures moved { (w v : World) (c d : Name) (items : List Item) (made : IsClone w v c d items) →
        (k : Key) (value : ValueOf k) → mode_or_copy items k ≡ Share → IsKey w.size.pages k →
        (context w c).cell k ≡ Own value → is_there k value ≡ true →
        (context v c).cell k ≡ Common (next_group w made.job) }
    ensures kept { (w v : World) (c d : Name) (items : List Item) → IsClone w v c d items →
        (k : Key) (g : Name) → (context w c).cell k ≡ Common g → (context v c).cell k ≡ Common g }
    ensures absent { (w v : World) (c d : Name) (items : List Item) → IsClone w v c d items →
        (k : Key) (value : ValueOf k) → (context w c).cell k ≡ Own value → is_there k value ≡ false →
        (context v c).cell k ≡ Own value }
    ensures common { (w v : World) (c d : Name) (items : List Item) → IsClone w v c d items →
        (k : Key) → mode_or_copy items k ≡ Share → IsKey w.size.pages k →
        is_there k (value_at w c k) ≡ true → HaveInCommon v c d k }
    ensures joins { (w v : World) (c d : Name) (items : List Item) → IsClone w v c d items →
        (k : Key) → mode_or_copy items k ≡ Share → (e : Name) → HaveInCommon w c e k → HaveInCommon v d e k }
    ensures joins_not { (w v : World) (c d : Name) (items : List Item) → IsClone w v c d items →
        (k : Key) → mode_or_copy items k ≡ Share → (e : Name) → is_live w e ≡ true → AreApart w c e k →
        AreApart v d e k }
{}

/// A group is needed exactly where a value moves, which is a context's own under a key of mode share; where
/// none does, sharing changes nothing.
pub fn a_group_is_needed_where_a_value_moves()
    ensures moves { (w : World) (c : Name) (items : List Item) (k : Key) (value : ValueOf k) →
        IsKey w.size.pages k → mode_or_copy items k ≡ Share → (context w c).cell k ≡ Own value →
        is_there k value ≡ true → needs_group w c items ≡ true }
    ensures none { (w : World) (c : Name) (items : List Item) →
        ((k : Key) → IsKey w.size.pages k → mode_or_copy items k ≡ Share →
        has_own k ((context w c).cell k) ≡ false) → needs_group w c items ≡ false }
    ensures nothing { (w : World) (c : Name) (job : ℕ) (items : List Item) →
        needs_group w c items ≡ false → share w c job items ≡ w }
{}

/// The new group has each value that has moved, and nothing under the other keys.
pub fn a_new_group_has_what_has_moved()
    ensures moved { (w : World) (c : Name) (job : ℕ) (items : List Item) → needs_group w c items ≡ true →
        (k : Key) (value : ValueOf k) → mode_or_copy items k ≡ Share → (context w c).cell k ≡ Own value →
        (group (share w c job items) (next_group w job)).value k ≡ value }
    ensures nothing { (w : World) (c : Name) (job : ℕ) (items : List Item) → needs_group w c items ≡ true →
        (k : Key) → is_moved (mode_or_copy items k) k ((context w c).cell k) ≡ false →
        (group (share w c job items) (next_group w job)).value k ≡ nothing k }
{}

/// Only what is under share becomes common: a context keeps its cells under the other keys when it is cloned,
/// and each other context keeps all of them.
pub fn only_what_is_shared_becomes_common()
    ensures kept { (w v : World) (c d : Name) (items : List Item) → IsClone w v c d items →
        (k : Key) → mode_or_copy items k ≢ Share → (context v c).cell k ≡ (context w c).cell k }
    ensures others { (w v : World) (c d : Name) (items : List Item) → IsClone w v c d items →
        (e : Name) → is_live w e ≡ true → e ≢ c → context v e ≡ context w e }
{}
