//! Laws of closed contexts: functions with empty bodies, each with a contract that is the law.

ghost use Rattle.std.specs.Prelude.{◌≡◌, ℕ, All, List, None};
ghost use Rattle.confinement.specs.Closed.{IsClosed, StayIn};
ghost use Rattle.confinement.specs.Fences.{Fence, fence_of, KeepsTo, LeavesOutside, StayInside, StaysInside};
ghost use Rattle.confinement.specs.May.{world_of};
ghost use Rattle.kernel_core.specs.Kernel.{CanOpen};
ghost use Rattle.kernel_core.specs.Runs.{run};
ghost use Rattle.kernel_core.specs.Start.{Inputs, start};
ghost use Rattle.kernel_core.specs.Step.{step};
ghost use Rattle.kernel_core.specs.declared.settings.Job.TheVariants as jobs;
ghost use Rattle.lwc_types.specs.declared.name.Name.{Name};
ghost use Rattle.lwc_closed.specs.Bytes.{IsAnother, IsShutOff, LearnNothing};
ghost use Rattle.lwc_closed.specs.Requests.{IsOver, StayInsideOrServeOthers};

/// Steps that are made inside a fence learn nothing of the bytes in the own pages of a context outside, of which no
/// key is opened.
pub fn steps_inside_a_fence_learn_nothing_of_others()
    ensures { (inputs : Inputs) (before during : List ℕ) (f : Fence) (others : List Name) → CanOpen inputs →
        inputs.settings.job ≡ jobs.Run → KeepsTo f (run (start inputs) before) →
        StayInside f (run (start inputs) before) during → All (IsShutOff f) others →
        LearnNothing (run (start inputs) before) during others }
{}

/// What stays in a closed context learns nothing of the bytes in other contexts' own pages.
pub fn a_closed_context_learns_nothing_of_others()
    ensures { (inputs : Inputs) (before during : List ℕ) (c : Name) (others : List Name) → CanOpen inputs →
        inputs.settings.job ≡ jobs.Run → IsClosed (world_of (run (start inputs) before)) c →
        StayIn (world_of (run (start inputs) before)) c (run (start inputs) before) during →
        All (IsAnother (run (start inputs) before) c) others →
        LearnNothing (run (start inputs) before) during others }
{}

/// In a serve, workers make steps for other requests between those of one. Such steps keep to each fence over the
/// contexts of the one. So each of its own steps that is made inside leaves what
/// is outside. It is so for the fence of a closed context.
pub fn steps_for_other_requests_keep_to_a_fence()
    ensures keep { (inputs : Inputs) (before during : List ℕ) (workers job : ℕ) (f : Fence) → CanOpen inputs →
        inputs.settings.job ≡ jobs.Serve workers → IsOver f job → KeepsTo f (run (start inputs) before) →
        StayInsideOrServeOthers f job (run (start inputs) before) during →
        KeepsTo f (run (run (start inputs) before) during) }
    ensures each { (inputs : Inputs) (before during : List ℕ) (workers t job : ℕ) (f : Fence)
        → CanOpen inputs →
        inputs.settings.job ≡ jobs.Serve workers → IsOver f job → KeepsTo f (run (start inputs) before) →
        StayInsideOrServeOthers f job (run (start inputs) before) during →
        StaysInside f (run (run (start inputs) before) during) t →
        LeavesOutside f (world_of (run (run (start inputs) before) during))
        (world_of (step (run (run (start inputs) before) during) t)) }
    ensures closed { (inputs : Inputs) (before during : List ℕ) (workers : ℕ) (c : Name) → CanOpen inputs →
        inputs.settings.job ≡ jobs.Serve workers → IsClosed (world_of (run (start inputs) before)) c →
        StayInsideOrServeOthers (fence_of (world_of (run (start inputs) before)) c c.job) c.job
        (run (start inputs) before) during →
        KeepsTo (fence_of (world_of (run (start inputs) before)) c c.job) (run (run (start inputs) before) during) }
    ensures over { (inputs : Inputs) (steps : List ℕ) (workers : ℕ) (c : Name) → CanOpen inputs →
        inputs.settings.job ≡ jobs.Serve workers →
        IsOver (fence_of (world_of (run (start inputs) steps)) c c.job) c.job }
{}
