//! Laws of the calls: functions with empty bodies, each with a contract that is the law.

ghost use Rattle.std.specs.Prelude.{◌≡◌, ◌⊎◌, ℕ, List, None, Option, true};
ghost use Rattle.lwc_base.specs.Capabilities.{has_key};
ghost use Rattle.lwc_base.specs.Channels.{Channels, HasItsFiles};
ghost use Rattle.lwc_base.specs.Jobs.{NamesKeepToJobs};
ghost use Rattle.lwc_base.specs.Life.{HasItsContexts};
ghost use Rattle.lwc_base.specs.Modes.{IsKey};
ghost use Rattle.lwc_base.specs.Refusals.{first_refusal};
ghost use Rattle.lwc_base.specs.World.{World, is_live};
ghost use Rattle.lwc_syscall.specs.Changes.{ChangesIfDone, ChangesOnly, CutsNone, IsPlainChange, IsWell};
ghost use Rattle.lwc_syscall.specs.Changes.{IsMapped, KeepsNumbers, KeepsReadOnly, cuts_none, holder};
ghost use Rattle.lwc_syscall.specs.Changes.{leaves_world, may_change};
ghost use Rattle.lwc_types.specs.declared.key.Key.{Key};
ghost use Rattle.lwc_types.specs.declared.name.Name.{Name};
ghost use Rattle.lwc_types.specs.declared.regs.Regs.{Regs};
ghost use Rattle.lwc_syscall.specs.Plain.{plain};
ghost use Rattle.lwc_syscall.specs.Syscall.{IsAllowed, inner_args, inner_call, link, lw_syscall, refusals};
ghost use Rattle.lwc_syscall.specs.Syscall.{targets_of};
ghost use Rattle.lwc_syscall.specs.declared.calls.CallContexts.{CallContexts};
ghost use Rattle.lwc_syscall.specs.declared.plain_call.PlainCall.{PlainCall};

/// A plain call does at most one thing: a put under a slot or of the credential, a mapping, a store and
/// then a put, or a write. A descriptor that it puts is in range, and of a live context if it is of one;
/// of the job's own, where names keep to their jobs.
pub fn a_plain_call_does_one_thing()
    ensures { (w : World) (io : Channels) (targets : CallContexts) (job : ℕ)
        (call : Option PlainCall) (args : List ℕ) → HasItsContexts w →
        HasItsFiles io w → is_live w targets.slots ≡ true → IsPlainChange w io targets job
        (plain w io targets job call args).world (plain w io targets job call args).io }
{}

/// A plain call changes what it may: a page, a slot or the uid of one of its three contexts, also for the
/// contexts that have it in common. It changes nothing else.
pub fn a_plain_call_changes_what_it_may()
    ensures plain { (w : World) (io : Channels) (targets : CallContexts) (job : ℕ)
        (call : Option PlainCall) (args : List ℕ) →
        ChangesOnly w (plain w io targets job call args).world targets (may_change w io targets call args) }
    ensures syscall { (w : World) (io : Channels) (c : Name) (job : ℕ) (regs : Regs) →
        ChangesOnly w (lw_syscall w io c job regs).world (targets_of w c regs)
        (may_change w io (targets_of w c regs) (inner_call regs) (inner_args regs)) }
{}

/// A plain call leaves each page of a context's own that has the right Read as it is, with its right, but for
/// those that it maps or unmaps.
pub fn a_plain_call_leaves_what_is_read_only()
    ensures plain { (w : World) (io : Channels) (targets : CallContexts) (job : ℕ)
        (call : Option PlainCall) (args : List ℕ) →
        KeepsReadOnly w (plain w io targets job call args).world (IsMapped targets call args) }
    ensures syscall { (w : World) (io : Channels) (c : Name) (job : ℕ) (regs : Regs) →
        KeepsReadOnly w (lw_syscall w io c job regs).world
        (IsMapped (targets_of w c regs) (inner_call regs) (inner_args regs)) }
{}

/// What a call over chosen contexts may change is the caller's, or of the context that the slot names and
/// under a key that the capability has.
pub fn a_syscall_changes_only_keys_of_its_capability()
    ensures { (w : World) (c : Name) (regs : Regs) (k : Key) → IsAllowed w c regs → IsKey w.size.pages k →
        (holder (targets_of w c regs) k ≡ c) ⊎ ((holder (targets_of w c regs) k ≡ (link w c regs).0)
        × (has_key (link w c regs).1 k ≡ true)) }
{}

/// What a plain call does over live contexts keeps the world sound, with the contexts and files that its
/// slots name. It makes and drops no context and no group, and takes at most two tags.
pub fn a_plain_call_keeps_the_world_well()
    ensures well { (w : World) (io : Channels) (targets : CallContexts) (job : ℕ) (v : World)
        (after : Channels) →
        IsPlainChange w io targets job v after → is_live w targets.memory ≡ true → IsWell w io
        → IsWell v after }
    ensures numbers { (w : World) (io : Channels) (targets : CallContexts) (job : ℕ) (v : World)
        (after : Channels) →
        IsPlainChange w io targets job v after → KeepsNumbers w v }
    ensures inputs { (w : World) (io : Channels) (targets : CallContexts) (job : ℕ) (v : World)
        (after : Channels) →
        IsPlainChange w io targets job v after → (after.files ≡ io.files) × (after.requests ≡ io.requests) }
{}

/// A call over the contexts that a mask chooses that is not refused before the inner one takes from live
/// contexts, and the capability in the slot has every key of each chosen kind.
pub fn an_allowed_syscall_takes_what_is_covered()
    ensures { (w : World) (c : Name) (regs : Regs) → HasItsContexts w → is_live w c ≡ true →
        first_refusal (refusals w c regs) ≡ None → IsAllowed w c regs }
{}

/// A call over the contexts that a mask chooses keeps the world well, as plain calls do.
pub fn a_syscall_keeps_the_world_well()
    ensures well { (w : World) (io : Channels) (c : Name) (job : ℕ) (regs : Regs) → is_live w c ≡ true →
        IsWell w io → IsWell (lw_syscall w io c job regs).world (lw_syscall w io c job regs).io }
    ensures numbers { (w : World) (io : Channels) (c : Name) (job : ℕ) (regs : Regs) → is_live w c ≡ true →
        IsWell w io → KeepsNumbers w (lw_syscall w io c job regs).world }
    ensures inputs { (w : World) (io : Channels) (c : Name) (job : ℕ) (regs : Regs) → is_live w c ≡ true →
        IsWell w io → ((lw_syscall w io c job regs).io.files ≡ io.files)
        × ((lw_syscall w io c job regs).io.requests ≡ io.requests) }
{}

/// What a job's contexts and groups name is of that job after a plain call, and after a call over the
/// contexts that a mask chooses, if it was so before.
pub fn calls_keep_names_to_their_jobs()
    ensures plain { (w : World) (io : Channels) (targets : CallContexts) (job : ℕ) (v : World)
        (after : Channels) →
        IsPlainChange w io targets job v after → NamesKeepToJobs w → NamesKeepToJobs v }
    ensures syscall { (w : World) (io : Channels) (c : Name) (job : ℕ) (regs : Regs) → is_live w c ≡ true →
        IsWell w io → NamesKeepToJobs w → NamesKeepToJobs (lw_syscall w io c job regs).world }
{}

/// A call that is refused changes nothing.
pub fn a_refused_call_changes_nothing()
    ensures plain { (w : World) (io : Channels) (targets : CallContexts) (job : ℕ)
        (call : Option PlainCall) (args : List ℕ) →
        ChangesIfDone w io (plain w io targets job call args) }
    ensures syscall { (w : World) (io : Channels) (c : Name) (job : ℕ) (regs : Regs) →
        ChangesIfDone w io (lw_syscall w io c job regs) }
{}

/// What an open, a dup and a read change loses no descriptor of a context, and a write, a getuid and an
/// exit leave the world: no link is cut. So it is where they are made over chosen contexts.
pub fn some_plain_calls_cut_no_link()
    ensures none { (w : World) (io : Channels) (targets : CallContexts) (job : ℕ)
        (call : Option PlainCall) (args : List ℕ) →
        cuts_none call ≡ true → CutsNone w targets job (plain w io targets job call args).world }
    ensures same { (w : World) (io : Channels) (targets : CallContexts) (job : ℕ)
        (call : Option PlainCall) (args : List ℕ) →
        leaves_world call ≡ true → (plain w io targets job call args).world ≡ w }
    ensures chosen_none { (w : World) (io : Channels) (c : Name) (job : ℕ) (regs : Regs) →
        cuts_none (inner_call regs) ≡ true
        → CutsNone w (targets_of w c regs) job (lw_syscall w io c job regs).world }
    ensures chosen_same { (w : World) (io : Channels) (c : Name) (job : ℕ) (regs : Regs) →
        leaves_world (inner_call regs) ≡ true → (lw_syscall w io c job regs).world ≡ w }
{}
