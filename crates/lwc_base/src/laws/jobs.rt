ghost use Rattle.std.specs.Prelude.{◌≡◌, ℕ, List, true};
ghost use Rattle.lwc_base.specs.Cells.{put_slot, put_uid, slot_at};
ghost use Rattle.lwc_base.specs.Holders.{InContext};
ghost use Rattle.lwc_base.specs.Jobs.{IsOwnName, NamesKeepToJobs, own_names};
ghost use Rattle.lwc_base.specs.Life.{Reaches, is_among, reap};
ghost use Rattle.lwc_base.specs.Mapping.{map_pages, unmap_pages};
ghost use Rattle.lwc_base.specs.Overlay.{overlay};
ghost use Rattle.lwc_base.specs.Saved.{save};
ghost use Rattle.lwc_base.specs.Sharing.{clone_context, share};
ghost use Rattle.lwc_base.specs.Store.{Piece, after_store};
ghost use Rattle.lwc_base.specs.World.{Context, World, add_context, empty_world, is_live, new_context};
ghost use Rattle.lwc_base.specs.declared.descriptor.Descriptor.{Descriptor};
ghost use Rattle.lwc_base.specs.declared.item.Item.{Item};
ghost use Rattle.lwc_types.specs.declared.name.Name.{Name};
ghost use Rattle.lwc_types.specs.declared.regs.Regs.{Regs};
ghost use Rattle.lwc_types.specs.declared.size.WorldSize.{WorldSize};

/// What a job's contexts and groups name is of that job. This stays so whatever a run changes, if what is put
/// into a slot is so too, and each job makes contexts of its own ones alone.
pub fn names_keep_to_their_jobs()
    ensures empty { (size : WorldSize) → NamesKeepToJobs (empty_world size) }
    ensures first { (w : World) (job uid : ℕ) (entry : Regs) → NamesKeepToJobs w →
        NamesKeepToJobs (add_context w job (new_context uid entry)) }
    ensures add { (w : World) (job : ℕ) (x : Context) → InContext own_names job x → NamesKeepToJobs w →
        NamesKeepToJobs (add_context w job x) }
    ensures slot { (w : World) (c : Name) (n : ℕ) (value : Descriptor) → IsOwnName c.job value →
        NamesKeepToJobs w → NamesKeepToJobs (put_slot w c n value) }
    ensures uid { (w : World) (c : Name) (uid : ℕ) → NamesKeepToJobs w → NamesKeepToJobs (put_uid w c uid) }
    ensures map { (w : World) (c : Name) (from to : ℕ) → NamesKeepToJobs w →
        NamesKeepToJobs (map_pages w c from to) }
    ensures unmap { (w : World) (c : Name) (from to : ℕ) → NamesKeepToJobs w →
        NamesKeepToJobs (unmap_pages w c from to) }
    ensures store { (w : World) (c : Name) (job : ℕ) (piece : Piece) → NamesKeepToJobs w →
        NamesKeepToJobs (after_store w c job piece) }
    ensures share { (w : World) (c : Name) (items : List Item) → is_live w c ≡ true → NamesKeepToJobs w →
        NamesKeepToJobs (share w c c.job items) }
    ensures clone { (w : World) (c : Name) (items : List Item) (entry : Regs) → is_live w c ≡ true →
        NamesKeepToJobs w → NamesKeepToJobs (clone_context w c c.job items entry) }
    ensures save { (w : World) (c : Name) (t : ℕ) (regs : Regs) → NamesKeepToJobs w →
        NamesKeepToJobs (save w c t regs) }
    ensures overlay { (w : World) (c d : Name) (items : List Item) → is_live w d ≡ true → d.job ≡ c.job →
        NamesKeepToJobs w → NamesKeepToJobs (overlay w c d c.job items) }
    ensures reap { (w : World) (roots : List Name) → NamesKeepToJobs w → NamesKeepToJobs (reap w roots) }
    ensures read { (w : World) (c : Name) (n : ℕ) → is_live w c ≡ true → NamesKeepToJobs w →
        IsOwnName c.job (slot_at w c n) }
{}

/// A context that is reached from roots is of the job of one of them, where names keep to their jobs. So no
/// context of a job is left, and no group that its cells named, once no root is of the job.
pub fn only_jobs_with_a_root_are_reached()
    ensures { (w : World) (roots : List Name) (c : Name) → NamesKeepToJobs w → Reaches w roots c →
        (root : Name) × (is_among roots root ≡ true) × (root.job ≡ c.job) }
{}
