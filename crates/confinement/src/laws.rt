//! Laws of steps: functions with empty bodies, each with a contract that is the law.

ghost use Rattle.std.specs.Prelude.{◌≡◌, ◌≢◌, ◌⊎◌, ◌<◌, ℕ, List, Some, false, slice_get, true};
ghost use Rattle.access_cap.specs.Kinds.{is_chosen};
ghost use Rattle.confinement.specs.Closed.{IsClosed, IsOfJob, LeavesOthers, StayIn};
ghost use Rattle.confinement.specs.Confined.{IsConfined, IsLiveInBoth};
ghost use Rattle.confinement.specs.Faults.{EndsAlone};
ghost use Rattle.confinement.specs.Fences.{Fence, fence_of, IsMute, KeepsTo, LeavesOutside, StayInside};
ghost use Rattle.confinement.specs.Fences.{StayInsideOrAway, StaysInside};
ghost use Rattle.confinement.specs.May.{IsGiven, MakesCall, MayChange, regs_at, world_of};
ghost use Rattle.confinement.specs.One.{IsOneValue};
ghost use Rattle.confinement.specs.Rest.{LacksKey, ReachesNoOther};
ghost use Rattle.confinement.specs.EachStep.{IsConfinedRun};
ghost use Rattle.confinement.specs.Snapshots.{IsAsMade, IsResumed, IsUntouched, Makes, Touches};
ghost use Rattle.kernel_core.specs.Kernel.{CanOpen};
ghost use Rattle.kernel_core.specs.Machine.{Machine};
ghost use Rattle.kernel_core.specs.Refused.{advanced_thread};
ghost use Rattle.kernel_core.specs.Runs.{run};
ghost use Rattle.kernel_core.specs.Start.{Inputs, start};
ghost use Rattle.kernel_core.specs.Step.{guest_calls, step};
ghost use Rattle.kernel_core.specs.declared.calling.TheConstants.{LW_OVERLAY, LW_SWITCH, LW_SYSCALL};
ghost use Rattle.kernel_core.specs.declared.thread.Thread.{Thread};
ghost use Rattle.lwc_base.specs.Life.{HasItsContexts};
ghost use Rattle.lwc_base.specs.Capabilities.{has_key};
ghost use Rattle.lwc_base.specs.Cells.{slot_at, value_at};
ghost use Rattle.lwc_base.specs.Modes.{IsKey, kind_of, mode_or_copy};
ghost use Rattle.lwc_base.specs.Rights.{right_at};
ghost use Rattle.lwc_base.specs.World.{context, is_live};
ghost use Rattle.lwc_base.specs.declared.descriptor.Cap.{Cap};
ghost use Rattle.lwc_base.specs.declared.descriptor.Descriptor.TheVariants.{Ctx};
ghost use Rattle.lwc_base.specs.declared.item.Mode.TheVariants.{Unmap};
ghost use Rattle.lwc_types.specs.declared.key.TheConstants.{SLOTS};
ghost use Rattle.lwc_types.specs.declared.key.Key.{Key};
ghost use Rattle.lwc_types.specs.declared.key.Key.TheVariants.{Page, Slot};
ghost use Rattle.lwc_types.specs.declared.key.Kind.TheVariants as kinds;
ghost use Rattle.lwc_types.specs.declared.limits.TheConstants.{MOST_PAGES};
ghost use Rattle.lwc_create.specs.Create.{items_of};
ghost use Rattle.lwc_syscall.specs.Plain.{is_written};
ghost use Rattle.lwc_syscall.specs.Syscall.{mask_in};
ghost use Rattle.lwc_types.specs.declared.name.Name.{Name};

/// Whatever steps came before, the next step of a thread changes nothing of a context but what it may
/// change, there or where it is common; and each capability that is new in a slot is one that the step may
/// copy, restrict, make or leave.
pub fn each_step_is_confined()
    ensures { (inputs : Inputs) (steps : List ℕ) (t : ℕ) → CanOpen inputs →
        IsConfined (run (start inputs) steps) t (step (run (start inputs) steps) t) }
{}

/// A context that a step made by the call for it, and that no later step may have changed, is as it was
/// made: it has the same cells, so the same values of its own, it begins with the same registers, and it
/// keeps none.
pub fn a_context_that_is_left_alone_is_as_it_was_made()
    ensures { (inputs : Inputs) (before since : List ℕ) (t : ℕ) (c : Name) → CanOpen inputs →
        Makes (run (start inputs) before) t c →
        IsUntouched (step (run (start inputs) before) t) since c →
        IsAsMade (world_of (step (run (start inputs) before) t))
        (world_of (run (step (run (start inputs) before) t) since)) c }
{}

/// A thread that enters such a context goes on with the registers that the context begins with, but for the
/// slot of its caller's descriptor and the argument. The call leaves the context as it was made, but for this
/// descriptor in its lowest empty slot.
pub fn who_enters_it_goes_on_as_it_was_made()
    ensures { (inputs : Inputs) (before since : List ℕ) (t u : ℕ) (c : Name) (x : Thread) (cap : Cap) →
        CanOpen inputs → Makes (run (start inputs) before) t c →
        IsUntouched (step (run (start inputs) before) t) since c →
        MakesCall (run (step (run (start inputs) before) t) since) u x LW_SWITCH →
        IsGiven (run (step (run (start inputs) before) t) since) x c cap →
        IsResumed (world_of (step (run (start inputs) before) t)) c
        (run (step (run (start inputs) before) t) since) x
        (guest_calls LW_SWITCH u (run (step (run (start inputs) before) t) since).environment
        (advanced_thread (run (step (run (start inputs) before) t) since) x)) }
{}

/// What a step may change anything of, it touches: its thread stands in it, or names it by a switch, by an
/// overlay that shares, or by a call over chosen contexts. So a context that no step touches is untouched.
pub fn what_may_change_is_touched()
    ensures { (m : Machine) (t : ℕ) (c : Name) (k : Key) → MayChange m t c k → Touches m t c }
{}

/// What a confined step leaves as it was. An instruction that is none of the three calls which reach
/// another context changes no value but those that its own context has, alone or in common with others.
/// Registers that are kept for other threads stay. An overlay leaves its giver under keys that the
/// capability lacks, and a call over chosen contexts leaves the other context's keys of kinds that are not
/// chosen, each cell with the right of a page. Where no slot had a capability with a key for a context, none has
/// one afterwards.
pub fn a_confined_step_leaves_the_rest()
    ensures values { (m after : Machine) (t : ℕ) (x : Thread) (e : Name) (k : Key) → IsConfined m t after →
        slice_get m.threads t ≡ Some x → ReachesNoOther m t →
        IsLiveInBoth (world_of m) (world_of after) e → IsKey (world_of m).size.pages k →
        (value_at (world_of after) e k ≡ value_at (world_of m) e k) ⊎ IsOneValue (world_of m) x.context e k }
    ensures registers { (m after : Machine) (t s : ℕ) (e : Name) → IsConfined m t after → s ≢ t →
        IsLiveInBoth (world_of m) (world_of after) e →
        (context (world_of after) e).saved s ≡ (context (world_of m) e).saved s }
    ensures giver { (m after : Machine) (t : ℕ) (x : Thread) (d : Name) (cap : Cap) (k : Key) →
        IsConfined m t after → MakesCall m t x LW_OVERLAY → IsGiven m x d cap → x.context ≢ d →
        has_key cap k ≡ false → IsLiveInBoth (world_of m) (world_of after) d →
        IsKey (world_of m).size.pages k →
        (context (world_of after) d).cell k ≡ (context (world_of m) d).cell k }
    ensures giver_rights { (m after : Machine) (t : ℕ) (x : Thread) (d : Name) (cap : Cap) (p : ℕ) →
        IsConfined m t after → MakesCall m t x LW_OVERLAY → IsGiven m x d cap → x.context ≢ d →
        has_key cap (Page p) ≡ false → IsLiveInBoth (world_of m) (world_of after) d →
        IsKey (world_of m).size.pages (Page p) →
        right_at (world_of after) d p ≡ right_at (world_of m) d p }
    ensures kinds { (m after : Machine) (t : ℕ) (x : Thread) (d : Name) (k : Key) → IsConfined m t after →
        MakesCall m t x LW_SYSCALL → x.context ≢ d → is_chosen (mask_in (regs_at m x)) (kind_of k) ≡ false →
        IsLiveInBoth (world_of m) (world_of after) d → IsKey (world_of m).size.pages k →
        (context (world_of after) d).cell k ≡ (context (world_of m) d).cell k }
    ensures kinds_rights { (m after : Machine) (t : ℕ) (x : Thread) (d : Name) (p : ℕ) →
        IsConfined m t after → MakesCall m t x LW_SYSCALL → x.context ≢ d →
        is_chosen (mask_in (regs_at m x)) kinds.Page ≡ false →
        IsLiveInBoth (world_of m) (world_of after) d → IsKey (world_of m).size.pages (Page p) →
        right_at (world_of after) d p ≡ right_at (world_of m) d p }
    ensures keys { (m after : Machine) (t : ℕ) (e d : Name) (n : ℕ) (cap : Cap) (k : Key) →
        IsConfined m t after → is_live (world_of after) e ≡ true → n < SLOTS →
        slot_at (world_of after) e n ≡ Ctx d cap → IsKey MOST_PAGES k →
        LacksKey (world_of m) d k → has_key cap k ≡ false }
{}

/// A fault ends its thread alone. No step changes another thread; and one that ends its thread by a fault,
/// but for the budget that is used up, changes nothing of a context that lives on, and no value.
pub fn a_fault_ends_its_thread_alone()
    ensures { (m : Machine) (t : ℕ) → EndsAlone m (step m t) t }
{}

/// No step drops what is still reached: each thread stands in a live context, and each slot of a live context
/// that has a descriptor of a context has one of a live one.
pub fn what_is_reached_is_live()
    ensures threads { (inputs : Inputs) (steps : List ℕ) (t : ℕ) (x : Thread) → CanOpen inputs →
        slice_get (run (start inputs) steps).threads t ≡ Some x →
        is_live (world_of (run (start inputs) steps)) x.context ≡ true }
    ensures slots { (inputs : Inputs) (steps : List ℕ) → CanOpen inputs →
        HasItsContexts (world_of (run (start inputs) steps)) }
{}

/// Steps that are made inside a fence, and do not lead out of it, leave what is outside, and keep to the fence.
pub fn steps_inside_a_fence_leave_what_is_outside()
    ensures leaves { (inputs : Inputs) (before during : List ℕ) (f : Fence) → CanOpen inputs →
        KeepsTo f (run (start inputs) before) → StayInside f (run (start inputs) before) during →
        LeavesOutside f (world_of (run (start inputs) before)) (world_of (run (run (start inputs) before) during))
        × KeepsTo f (run (run (start inputs) before) during) }
    ensures silent { (inputs : Inputs) (before during : List ℕ) (f : Fence) → CanOpen inputs →
        KeepsTo f (run (start inputs) before) → IsMute f (world_of (run (start inputs) before)) →
        StayInside f (run (start inputs) before) during →
        (run (run (start inputs) before) during).environment.channels
        ≡ (run (start inputs) before).environment.channels }
{}

/// Steps of which each is made inside a fence, or outside and away from it, keep to the fence; so each of
/// those inside leaves what is outside.
pub fn steps_inside_or_away_keep_to_a_fence()
    ensures keep { (inputs : Inputs) (before during : List ℕ) (f : Fence) → CanOpen inputs →
        KeepsTo f (run (start inputs) before) → StayInsideOrAway f (run (start inputs) before) during →
        KeepsTo f (run (run (start inputs) before) during) }
    ensures each { (inputs : Inputs) (before during : List ℕ) (t : ℕ) (f : Fence) → CanOpen inputs →
        KeepsTo f (run (start inputs) before) → StayInsideOrAway f (run (start inputs) before) during →
        StaysInside f (run (run (start inputs) before) during) t →
        LeavesOutside f (world_of (run (run (start inputs) before) during))
        (world_of (step (run (run (start inputs) before) during) t)) }
{}

/// What stays in a closed context changes nothing of others but values that they had in common with it.
pub fn a_closed_context_leaves_others()
    ensures leaves { (inputs : Inputs) (before during : List ℕ) (c : Name) → CanOpen inputs →
        IsClosed (world_of (run (start inputs) before)) c →
        StayIn (world_of (run (start inputs) before)) c (run (start inputs) before) during →
        LeavesOthers (world_of (run (start inputs) before))
        (world_of (run (run (start inputs) before) during)) c }
    ensures silent { (inputs : Inputs) (before during : List ℕ) (c : Name) → CanOpen inputs →
        IsClosed (world_of (run (start inputs) before)) c →
        ((n : ℕ) → n < SLOTS → is_written (slot_at (world_of (run (start inputs) before)) c n) ≡ false) →
        StayIn (world_of (run (start inputs) before)) c (run (start inputs) before) during →
        (run (run (start inputs) before) during).environment.channels
        ≡ (run (start inputs) before).environment.channels }
    ensures entered { (inputs : Inputs) (steps : List ℕ) (t : ℕ) (x : Thread) (c : Name) (cap : Cap) →
        CanOpen inputs → IsClosed (world_of (run (start inputs) steps)) c →
        MakesCall (run (start inputs) steps) t x LW_SWITCH → IsGiven (run (start inputs) steps) x c cap →
        is_live (world_of (step (run (start inputs) steps) t)) c ≡ true →
        IsClosed (world_of (step (run (start inputs) steps) t)) c }
{}

/// A closed context keeps to its fence: inside are it and what the job of its threads makes from then on, and
/// nothing is opened. So the laws of fences hold of it also where other threads make steps between.
pub fn a_closed_context_keeps_to_its_fence()
    ensures { (inputs : Inputs) (steps : List ℕ) (c : Name) (job : ℕ) → CanOpen inputs →
        IsClosed (world_of (run (start inputs) steps)) c → IsOfJob (run (start inputs) steps) c job →
        KeepsTo (fence_of (world_of (run (start inputs) steps)) c job) (run (start inputs) steps) }
{}

/// A context that a call made whose items leave out all slots is closed, while no step may have changed it.
pub fn a_context_without_descriptors_is_closed()
    ensures { (inputs : Inputs) (before since : List ℕ) (t : ℕ) (c : Name) → CanOpen inputs →
        (made : Makes (run (start inputs) before) t c) →
        ((n : ℕ) → n < SLOTS
        → mode_or_copy (items_of (world_of (run (start inputs) before)) made.thread.context
        (regs_at (run (start inputs) before) made.thread)) (Slot n) ≡ Unmap) →
        IsUntouched (step (run (start inputs) before) t) since c →
        IsClosed (world_of (run (step (run (start inputs) before) t) since)) c }
{}

/// The first three of these laws, that of faults, and those of a closed context, also beside other threads, hold of
/// each list of steps, for each beginning of it: so they do of the steps that a kernel has kept.
pub fn runs_are_confined()
    ensures { (inputs : Inputs) (steps : List ℕ) → CanOpen inputs → IsConfinedRun inputs steps }
{}
