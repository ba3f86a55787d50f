//! Laws of the definitions.

ghost use Rattle.std.specs.Prelude.{◌≡◌, ℕ, List, Some, false, slice_get, take};
ghost use Rattle.kernel_core.specs.Histories.{IsLegal};
ghost use Rattle.kernel_core.specs.Machine.{Machine, is_ended};
ghost use Rattle.kernel_core.specs.Runs.{run};
ghost use Rattle.lwc_debug.specs.Scripts.{ScriptFacts};

/// A law: each step of a legal history is made by a thread that has not ended, so each place between two of
/// its steps is a moment of the run.
#[tactic(auto, using(crate::proofs::Legal::goes_on))]
pub fn each_step_of_a_legal_history_is_made()
    ensures { (m : Machine) (steps : List ℕ) (i t : ℕ) → IsLegal m steps → slice_get steps i ≡ Some t →
        is_ended (run m (take i steps)) t ≡ false }
{}

/// A law: what is read of a script's bytes is its commands, and the bytes of a script are read.
pub fn scripts_are_read_as_spelled()
    ensures { ScriptFacts }
{}
