ghost use Rattle.std.specs.Prelude.{◌≡◌, ◌<◌, ◌+◌, ◌*◌, ◌++◌, ◌∷◌, [], false, true, if◌then◌else◌, length, ℕ};
ghost use Rattle.std.specs.Prelude.{List, Some};
ghost use Rattle.guest_isa.specs.declared.instr.Instr.{Instr};
ghost use Rattle.kernel_core.specs.Histories.{IsComplete, IsLegal, steps_by, turn_after};
ghost use Rattle.kernel_core.specs.Kernel.{CanOpen, History, machine_of, turn};
ghost use Rattle.kernel_core.specs.Machine.{Environment, Machine, has_ended, is_ended, work};
ghost use Rattle.kernel_core.specs.Ready.{IsReady};
ghost use Rattle.kernel_core.specs.Refused.{ComesToRefusal, IsNotLast, after_refusal, refusal_of};
ghost use Rattle.kernel_core.specs.Refused.{thread_refused};
ghost use Rattle.kernel_core.specs.Runs.{kept, peak, run};
ghost use Rattle.kernel_core.specs.Start.{Inputs, start, thread_count};
ghost use Rattle.kernel_core.specs.Step.{after_outcome, guest_calls, refused, settled, step, unchanged};
ghost use Rattle.kernel_core.specs.declared.settings.Job.TheVariants as jobs;
ghost use Rattle.kernel_core.specs.declared.thread.Thread.{Thread};
ghost use Rattle.kernel_core.specs.declared.thread.Turn.{Turn};
ghost use Rattle.lwc_base.specs.Sound.{IsSound};
ghost use Rattle.lwc_types.specs.declared.refusal.Refusal.{Refusal};

/// Of kept steps all are kept.
#[tactic(auto, using(crate::proofs::Runs::kept_twice))]
pub fn kept_steps_are_kept()
    ensures { (m : Machine) (ts : List ℕ) → kept m (kept m ts) ≡ kept m ts }
{}

/// To run the kept steps is to run the steps, and the peak is the same.
#[tactic(auto, using(crate::proofs::Runs::run_kept, crate::proofs::Runs::peak_kept))]
pub fn kept_steps_are_enough()
    ensures run { (m : Machine) (ts : List ℕ) → run m (kept m ts) ≡ run m ts }
    ensures peak { (m : Machine) (ts : List ℕ) → peak m (kept m ts) ≡ peak m ts }
{}

/// One more step is kept unless its thread has ended by then.
#[tactic(auto, using(crate::proofs::Runs::kept_next))]
pub fn next_step_is_kept()
    ensures { (m : Machine) (ts : List ℕ) (t : ℕ) → kept m (ts ++ t ∷ [])
        ≡ (if is_ended (run m ts) t then kept m ts else kept m ts ++ t ∷ []) }
{}

/// From everything that a kernel can be opened with, each run comes to a sound world, so that the laws of
/// clones and of stores hold of it.
pub fn worlds_of_runs_are_sound()
    ensures { (inputs : Inputs) (steps : List ℕ) → CanOpen inputs →
        IsSound (run (start inputs) steps).environment.world }
{}

/// From everything that a kernel can be opened with, each run comes to a ready machine: its world is sound,
/// and its threads, slots and homes name live contexts.
#[tactic(auto, using(crate::proofs::ReadyMachines::ready_machine))]
pub fn machines_of_runs_are_ready()
    ensures { (inputs : Inputs) (steps : List ℕ) → CanOpen inputs →
        IsReady inputs (length steps) (run (start inputs) steps) }
{}

/// A call that is refused, whatever its number, changes its thread alone, and of it r0, pc and the
/// budget. In a serve the last step of the budget besides finishes the request.
pub fn a_refused_call_changes_its_thread_alone()
    ensures call { (number t : ℕ) (e : Environment) (x : Thread) (refusal : Refusal) →
        refusal_of number t e x ≡ Some refusal → guest_calls number t e x ≡ unchanged e (refused x refusal) }
    ensures step { (inputs : Inputs) (steps : List ℕ) (t : ℕ) (x : Thread) (i : Instr) (refusal : Refusal) →
        CanOpen inputs → ComesToRefusal (run (start inputs) steps) t x i refusal →
        step (run (start inputs) steps) t ≡ after_outcome (run (start inputs) steps) t
        (Some (settled t (run (start inputs) steps).serve (unchanged (run (start inputs) steps).environment
        (thread_refused (run (start inputs) steps) x refusal)))) }
    ensures alone { (inputs : Inputs) (steps : List ℕ) (t : ℕ) (x : Thread) (i : Instr) (refusal : Refusal) →
        CanOpen inputs → ComesToRefusal (run (start inputs) steps) t x i refusal →
        IsNotLast (run (start inputs) steps) x →
        step (run (start inputs) steps) t ≡ after_refusal (run (start inputs) steps) t x refusal }
{}

/// The steps of other threads leave a thread's turn as it is.
#[tactic(auto, using(crate::proofs::Others::turn_stays))]
pub fn others_leave_a_turn()
    ensures { (inputs : Inputs) (seen rest : List ℕ) (t : ℕ) → steps_by t rest ≡ 0 →
        turn_after inputs (seen ++ rest) t ≡ turn_after inputs seen t }
{}

/// A thread's turn says whether the thread has ended.
#[tactic(auto, using(crate::proofs::Others::ended_by_turn))]
pub fn turns_say_who_has_ended()
    ensures { (h : History) (t : ℕ) (last : Turn) → turn h t ≡ Some last →
        is_ended (machine_of h) t ≡ has_ended last.status }
{}

/// A legal history stays legal with one more step of a thread that has not ended.
#[tactic(auto, using(crate::proofs::Others::legal_push))]
pub fn a_step_of_a_thread_that_goes_on_is_legal()
    ensures { (m : Machine) (steps : List ℕ) (t : ℕ) → IsLegal m steps →
        is_ended (run m steps) t ≡ false → IsLegal m (steps ++ t ∷ []) }
{}

/// At the start of a run each thread has the budget of the settings.
#[tactic(auto, using(crate::proofs::Others::work_at_start))]
pub fn each_thread_has_its_budget()
    ensures { (inputs : Inputs) → inputs.settings.job ≡ jobs.Run →
        work (start inputs) ≡ length inputs.image.entries * inputs.settings.budget }
{}

/// At the start of a serve there is the budget and one step more for each request, and one step for each
/// worker.
#[tactic(auto, using(crate::proofs::Others::work_at_serve))]
pub fn each_request_has_its_budget()
    ensures { (inputs : Inputs) (workers : ℕ) → inputs.settings.job ≡ jobs.Serve workers →
        work (start inputs) ≡ length inputs.requests * (inputs.settings.budget + 1) + workers }
{}

/// While a thread has not ended, steps are left.
#[tactic(auto, using(crate::proofs::Others::some_left))]
pub fn a_thread_that_goes_on_has_steps_left()
    ensures { (inputs : Inputs) (steps : List ℕ) (t : ℕ) → CanOpen inputs →
        is_ended (run (start inputs) steps) t ≡ false → 0 < work (run (start inputs) steps) }
{}

/// A legal history after which each thread of the kernel has ended is complete.
#[tactic(auto, using(crate::proofs::Others::completed))]
pub fn a_history_that_ends_each_thread_is_complete()
    ensures { (inputs : Inputs) (steps : List ℕ) → CanOpen inputs → IsLegal (start inputs) steps →
        ((t : ℕ) → t < thread_count inputs → is_ended (run (start inputs) steps) t ≡ true) →
        IsComplete (start inputs) steps }
{}
