ghost use Rattle.std.specs.Prelude.{◌≡◌, ℕ, List};
ghost use Rattle.kernel_core.specs.Kernel.{CanOpen};
ghost use Rattle.kernel_core.specs.Start.{Inputs};
ghost use Rattle.kernel_core.specs.declared.settings.Job.TheVariants as job;
ghost use Rattle.lwc_guard.specs.Promises.{AreGivenBack, IsGuardedRun};

/// Over every list of steps: each trapped context lives, and each guarded one is trapped. A step that a running
/// thread makes in a guarded context leaves it in the monitor; or, if there is fuel, running there with one less of it
/// and the same monitor; or the thread had one step left, or the monitor does not live or has no empty slot. So it is
/// of the steps that a schedule keeps; and where no step that is kept under traps comes to the call that gives fuel,
/// the text is that under traps.
pub fn guarded_runs_give_threads_back()
    ensures steps { (inputs : Inputs) (steps : List ℕ) → CanOpen inputs → inputs.settings.job ≡ job.Run →
        AreGivenBack inputs steps }
    ensures kept { (inputs : Inputs) (schedule : List ℕ) → CanOpen inputs → inputs.settings.job ≡ job.Run →
        IsGuardedRun inputs schedule }
{}
