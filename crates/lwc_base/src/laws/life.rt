ghost use Rattle.std.specs.Prelude.{◌≡◌, ◌<◌, ◌⊎◌, ℕ, List, false, true};
ghost use Rattle.lwc_base.specs.Cells.{put_slot, put_uid, slot_at, value_at};
ghost use Rattle.lwc_base.specs.Fresh.{IsFresh};
ghost use Rattle.lwc_base.specs.Holders.{IsGroup};
ghost use Rattle.lwc_base.specs.Life.{HasItsContexts, IsReaped, Reaches, is_among, is_of, is_reached, links, reap};
ghost use Rattle.lwc_base.specs.Mapping.{map_pages, unmap_pages};
ghost use Rattle.lwc_base.specs.Modes.{IsKey};
ghost use Rattle.lwc_base.specs.Overlay.{overlay};
ghost use Rattle.lwc_base.specs.Saved.{save};
ghost use Rattle.lwc_base.specs.Sharing.{clone_context};
ghost use Rattle.lwc_base.specs.Sound.{HasItsGroups};
ghost use Rattle.lwc_base.specs.Store.{Piece, after_store};
ghost use Rattle.lwc_base.specs.Summaries.{is_empty};
ghost use Rattle.lwc_base.specs.World.{World, context, group, is_live, next_context};
ghost use Rattle.lwc_base.specs.declared.cell.Cell.TheVariants.{Common};
ghost use Rattle.lwc_base.specs.declared.descriptor.Cap.{Cap};
ghost use Rattle.lwc_base.specs.declared.descriptor.Descriptor.{Descriptor};
ghost use Rattle.lwc_base.specs.declared.descriptor.Descriptor.TheVariants.{Ctx};
ghost use Rattle.lwc_base.specs.declared.item.Item.{Item};
ghost use Rattle.lwc_types.specs.declared.key.TheConstants.{SLOTS};
ghost use Rattle.lwc_types.specs.declared.key.Key.{Key};
ghost use Rattle.lwc_types.specs.declared.name.Name.{Name};
ghost use Rattle.lwc_types.specs.declared.regs.Regs.{Regs};

/// A live context is reached, in at most as many rounds as there are contexts, exactly if a chain of live
/// contexts leads to it from a root, each of which links to the next one.
#[tactic(auto, using(crate::proofs::Life::reached_by_way, crate::proofs::Life::way_of_reached))]
pub fn reached_contexts_are_those_with_a_chain()
    ensures reached { (w : World) (roots : List Name) (c : Name) → Reaches w roots c →
        is_live w c ≡ true → is_reached w roots c ≡ true }
    ensures chain { (w : World) (roots : List Name) (c : Name) → is_reached w roots c ≡ true →
        Reaches w roots c }
{}

/// A reaped world has exactly the live contexts that a chain leads to, each with every value that it had. A
/// group that is left has all its values, and sizes and counters stay. To reap once more drops nothing.
pub fn a_reaped_world_keeps_what_is_reached()
    ensures kept { (w : World) (roots : List Name) (c : Name) → is_live w c ≡ true → Reaches w roots c →
        is_live (reap w roots) c ≡ true }
    ensures reached { (w : World) (roots : List Name) (c : Name) → is_live (reap w roots) c ≡ true →
        Reaches w roots c }
    ensures was_live { (w : World) (roots : List Name) (c : Name) → is_live (reap w roots) c ≡ true →
        is_live w c ≡ true }
    ensures was_group { (w : World) (roots : List Name) (g : Name) → IsGroup (reap w roots) g → IsGroup w g }
    ensures context { (w : World) (roots : List Name) (c : Name) → is_live (reap w roots) c ≡ true →
        context (reap w roots) c ≡ context w c }
    ensures value { (w : World) (roots : List Name) (c : Name) (k : Key) → IsKey w.size.pages k →
        is_live (reap w roots) c ≡ true → value_at (reap w roots) c k ≡ value_at w c k }
    ensures group { (w : World) (roots : List Name) (g : Name) → IsGroup (reap w roots) g →
        group (reap w roots) g ≡ group w g }
    ensures rest { (w : World) (roots : List Name) → ((reap w roots).size ≡ w.size)
        × ((reap w roots).next ≡ w.next) }
    ensures reaped { (w : World) (roots : List Name) → IsReaped (reap w roots) roots }
    ensures same { (w : World) (roots : List Name) → IsReaped w roots → reap w roots ≡ w }
    ensures twice { (w : World) (roots : List Name) → reap (reap w roots) roots ≡ reap w roots }
{}

/// What is dropped is named by nothing that is left: no slot of a live context has a descriptor of a dropped
/// context, and a group is left only if a cell of a live context names it.
pub fn what_is_dropped_is_named_by_nothing()
    ensures context { (w : World) (roots : List Name) (c d : Name) → is_live w c ≡ true →
        is_live (reap w roots) c ≡ false → is_live (reap w roots) d ≡ true →
        links (reap w roots) d c ≡ false }
    ensures group { (w : World) (roots : List Name) (g : Name) → IsGroup (reap w roots) g →
        (c : Name) × (k : Key) × IsKey w.size.pages k × (is_live (reap w roots) c ≡ true)
        × ((context (reap w roots) c).cell k ≡ Common g) }
{}

/// A change that cuts no link leaves nothing to drop, so to reap after it changes nothing: a store; another
/// descriptor in a slot, if it is one of the context that the old one was of, or the old one was of none; a
/// new context with a descriptor of it in an empty slot of the context that it is made from; and a switch
/// from a root to a context whose empty slot gets a descriptor of the root. The last two need the groups that
/// cells name, since what is put into a group that is not live is nowhere.
#[tactic(auto, using(crate::proofs::StillReaped::nothing_to_drop))]
pub fn changes_that_cut_no_link_leave_nothing_to_drop()
    ensures stored { (w : World) (roots : List Name) (c : Name) (job : ℕ) (piece : Piece) → IsReaped w roots →
        IsReaped (after_store w c job piece) roots }
    ensures put { (w : World) (roots : List Name) (c : Name) (n : ℕ) (value : Descriptor) →
        ((d : Name) → is_of d (slot_at w c n) ≡ true → is_of d value ≡ true) → IsReaped w roots →
        IsReaped (put_slot w c n value) roots }
    ensures created { (w : World) (roots : List Name) (c : Name) (job : ℕ) (items : List Item) (entry : Regs)
        (n : ℕ) (cap : Cap) → IsFresh w → HasItsGroups w → is_live w c ≡ true → n < SLOTS →
        is_empty (slot_at w c n) ≡ true → IsReaped w roots →
        IsReaped (put_slot (clone_context w c job items entry) c n (Ctx (next_context w job) cap)) roots }
    ensures switched { (w : World) (roots others : List Name) (c d : Name) (t : ℕ) (regs : Regs) (n : ℕ)
        (cap : Cap) → HasItsGroups w → is_live w c ≡ true → is_live w d ≡ true → n < SLOTS →
        is_empty (slot_at w d n) ≡ true → is_among others d ≡ true →
        ((e : Name) → is_among roots e ≡ true → (is_among others e ≡ true) ⊎ (e ≡ c)) → IsReaped w roots →
        IsReaped (put_slot (save w c t regs) d n (Ctx c cap)) others }
{}

/// A context that a slot of a live context has a descriptor of stays live, whatever a run changes: a
/// descriptor that is put into a slot has to be one of a live context, or of none.
#[tactic(auto, using(crate::proofs::NamedContexts::keep_contexts))]
pub fn contexts_keep_the_contexts_that_they_name()
    ensures store { (w : World) (c : Name) (job : ℕ) (piece : Piece) → HasItsContexts w →
        HasItsContexts (after_store w c job piece) }
    ensures put { (w : World) (c : Name) (n : ℕ) (value : Descriptor) →
        ((d : Name) → is_of d value ≡ true → is_live w d ≡ true) → HasItsContexts w →
        HasItsContexts (put_slot w c n value) }
    ensures clone { (w : World) (c : Name) (job : ℕ) (items : List Item) (entry : Regs) → IsFresh w →
        is_live w c ≡ true → HasItsContexts w → HasItsContexts (clone_context w c job items entry) }
    ensures save { (w : World) (c : Name) (t : ℕ) (regs : Regs) → HasItsContexts w →
        HasItsContexts (save w c t regs) }
    ensures overlay { (w : World) (c d : Name) (job : ℕ) (items : List Item) → IsFresh w →
        is_live w c ≡ true → is_live w d ≡ true → HasItsContexts w →
        HasItsContexts (overlay w c d job items) }
    ensures map { (w : World) (c : Name) (from to : ℕ) → HasItsContexts w →
        HasItsContexts (map_pages w c from to) }
    ensures unmap { (w : World) (c : Name) (from to : ℕ) → HasItsContexts w →
        HasItsContexts (unmap_pages w c from to) }
    ensures uid { (w : World) (c : Name) (uid : ℕ) → HasItsContexts w → HasItsContexts (put_uid w c uid) }
    ensures reap { (w : World) (roots : List Name) → HasItsContexts w → HasItsContexts (reap w roots) }
    ensures named { (w : World) (c d : Name) (n : ℕ) → HasItsContexts w → is_live w c ≡ true → n < SLOTS →
        is_of d (slot_at w c n) ≡ true → is_live w d ≡ true }
{}
