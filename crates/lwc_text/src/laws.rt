//! Laws of the definitions.

ghost use Rattle.std.specs.Prelude.{◌≡◌, ◌≤◌, ℕ, List, length};
ghost use Rattle.kernel_core.specs.Histories.{IsComplete, IsLegal};
ghost use Rattle.kernel_core.specs.Kernel.{CanOpen};
ghost use Rattle.kernel_core.specs.Machine.{work};
ghost use Rattle.kernel_core.specs.Start.{Inputs, start, thread_count};
ghost use Rattle.lwc_types.specs.declared.limits.TheConstants.{MOST_STEPS};
ghost use Rattle.lwc_text.specs.Facts.{RequestFacts, ScheduleFacts, VaultFileFacts};
ghost use Rattle.lwc_text.specs.Lines.{steps_text};
ghost use Rattle.lwc_text.specs.Report.{report_after, report_of_schedule};
ghost use Rattle.lwc_text.specs.Schedules.{IsSchedule};

/// A law: what is read of a schedule's bytes is its steps, and the bytes of a schedule are read.
pub fn schedules_are_read_as_named()
    ensures { ScheduleFacts }
{}

/// A law: what is read of a request file's bytes is its requests, and the bytes of a request file are read.
pub fn request_files_are_read_as_spelled()
    ensures { RequestFacts }
{}

/// A law: what is read of a vault file's bytes is its vault, and the bytes of a vault file are read.
pub fn vault_files_are_read_as_spelled()
    ensures { VaultFileFacts }
{}

/// A law: what a report prints of its steps, if there is one, is a schedule of them, and the report of that
/// schedule is the same.
pub fn a_report_is_that_of_the_replay_of_its_list()
    ensures schedule { (inputs : Inputs) (steps : List ℕ) → CanOpen inputs → IsLegal (start inputs) steps →
        1 ≤ length steps → length steps ≤ MOST_STEPS →
        IsSchedule (thread_count inputs) MOST_STEPS (steps_text steps) steps }
    ensures complete { (inputs : Inputs) (steps : List ℕ) → CanOpen inputs → IsComplete (start inputs) steps →
        work (start inputs) ≤ MOST_STEPS →
        IsSchedule (thread_count inputs) MOST_STEPS (steps_text steps) steps }
    ensures same { (inputs : Inputs) (steps : List ℕ) → IsLegal (start inputs) steps →
        report_of_schedule inputs steps ≡ report_after inputs steps }
{}
