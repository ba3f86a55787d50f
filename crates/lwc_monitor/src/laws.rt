ghost use Rattle.std.specs.Prelude.{◌≡◌, ℕ, List};
ghost use Rattle.kernel_core.specs.Kernel.{CanOpen};
ghost use Rattle.kernel_core.specs.Start.{Inputs};
ghost use Rattle.kernel_core.specs.declared.settings.Job.TheVariants as job;
ghost use Rattle.lwc_monitor.specs.Promises.{AreMonitored, IsMonitoredRun};

/// Over every list of steps: each trapped context lives and has its own slots, and no monitor is trapped. Each step
/// leaves the slots of each trapped context, but for those by its monitor, and a thread in a trapped context makes no
/// call but an exit. Each step is the kernel's own and confined; or changes its thread alone; or, where the thread
/// makes the call that traps and it is accepted, its thread and the traps, by one of a context that was not trapped;
/// or takes its thread to its monitor, which gets one descriptor without a key. A step of a trapped context that does
/// not go to its monitor changes, beside its thread, nothing but values of the context's own pages and of those that
/// it has in common. So it is of the steps that a schedule keeps; and where none of these comes to the call that
/// traps, the text is the kernel's.
pub fn monitored_runs_keep_trapped_contexts()
    ensures steps { (inputs : Inputs) (steps : List ℕ) → CanOpen inputs → inputs.settings.job ≡ job.Run →
        AreMonitored inputs steps }
    ensures kept { (inputs : Inputs) (schedule : List ℕ) → CanOpen inputs → inputs.settings.job ≡ job.Run →
        IsMonitoredRun inputs schedule }
{}
