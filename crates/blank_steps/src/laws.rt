//! The law of a step outside a context: a function with an empty body, whose contract is the law.

ghost use Rattle.std.specs.Prelude.{◌≡◌, ℕ, None};
ghost use Rattle.blank_steps.specs.Blanks.{ActsOutside, blank_in};
ghost use Rattle.kernel_core.specs.Machine.{Machine};
ghost use Rattle.kernel_core.specs.Step.{step};
ghost use Rattle.lwc_types.specs.declared.name.Name.{Name};

/// A step of a run that is made outside a context, by who cannot open it, depends on no byte in the context's own
/// pages: where these bytes are zero, it is the same step.
pub fn a_step_outside_a_context_depends_on_no_byte_of_it()
    ensures { (v : Name) (m : Machine) (t : ℕ) → m.serve ≡ None → ActsOutside v m t →
        step (blank_in v m) t ≡ blank_in v (step m t) }
{}
