//! Laws of the definitions.

ghost use Rattle.std.specs.Prelude.{◌≤◌, ℕ};
ghost use Rattle.kernel_core.specs.Kernel.{CanOpen};
ghost use Rattle.kernel_core.specs.Machine.{work};
ghost use Rattle.kernel_core.specs.Start.{start};
ghost use Rattle.lwc_types.specs.declared.limits.TheConstants.{MOST_STEPS};
ghost use Rattle.lwc_gen.specs.Generated.{generated};

/// A law: a kernel can be opened with a generated server and its requests, and the steps of its threads are
/// within the limit.
pub fn a_generated_server_can_be_served()
    ensures opens { (number : ℕ) → number ≤ 100 → CanOpen (generated number) }
    ensures steps { (number : ℕ) → number ≤ 100 → work (start (generated number)) ≤ MOST_STEPS }
{}
