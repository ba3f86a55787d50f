//! Laws of runs beside a vault: functions with empty bodies, each with a contract that is the law.

ghost use Rattle.std.specs.Prelude.{◌≡◌, ◌⊎◌, All, ℕ, List, None};
ghost use Rattle.guest_image.specs.declared.image.Vault.{Vault};
ghost use Rattle.kernel_core.specs.Histories.{IsLegal};
ghost use Rattle.kernel_core.specs.Kernel.{CanOpen};
ghost use Rattle.kernel_core.specs.Machine.{Environment, Machine};
ghost use Rattle.kernel_core.specs.Runs.{peak, run};
ghost use Rattle.kernel_core.specs.Start.{Inputs, start};
ghost use Rattle.kernel_core.specs.Step.{guest_calls, step};
ghost use Rattle.kernel_core.specs.declared.calling.TheConstants.{LW_SWITCH};
ghost use Rattle.kernel_core.specs.declared.thread.Thread.{Thread};
ghost use Rattle.lwc_base.specs.declared.answer.Moved.TheVariants.{To};
ghost use Rattle.lwc_types.specs.declared.regs.Regs.{Regs};
ghost use Rattle.lwc_switch.specs.Switch.{switch};
ghost use Rattle.lwc_text.specs.Report.{report_after, report_of};
ghost use Rattle.lwc_vault.specs.Blanks.{ActsOutside, IsShutWorld};
ghost use Rattle.lwc_vault.specs.Secrets.{KeepsSecret, NoneEnters, StandOutside};
ghost use Rattle.lwc_vault.specs.Blanks.{blank_machine};
ghost use Rattle.lwc_vault.specs.Secrets.{HandOutTheSame, HaveOneShape, StandsOutside, TellsNothing, beside};
ghost use Rattle.lwc_vault.specs.Told.{Outside, told_in};

/// A step of a thread that is outside the vault is the same step where the vault is blank. That it enters the
/// vault by an accepted switch is no exception.
pub fn a_step_outside_is_the_same_step()
    ensures { (m : Machine) (t : ℕ) → m.serve ≡ None → ActsOutside m t →
        step (blank_machine m) t ≡ blank_machine (step m t) }
{}

/// In a run beside a vault no descriptor ever opens the vault: none that any context has of it has a key.
pub fn no_descriptor_opens_the_vault()
    ensures { (inputs : Inputs) (v : Vault) (steps : List ℕ) → CanOpen (beside inputs v) →
        IsShutWorld (run (start (beside inputs v)) steps).environment.world }
{}

/// So who does not stand in the vault is outside it.
pub fn who_stands_outside_is_outside()
    ensures { (inputs : Inputs) (v : Vault) (steps : List ℕ) (t : ℕ) → CanOpen (beside inputs v) →
        StandsOutside (run (start (beside inputs v)) steps) t →
        ActsOutside (run (start (beside inputs v)) steps) t }
{}

/// Steps of threads that do not stand in the vault are as legal where the vault is blank, and the whole
/// report is the same.
pub fn steps_outside_tell_nothing_of_the_vault()
    ensures { (inputs : Inputs) (v : Vault) (steps : List ℕ) → CanOpen (beside inputs v) →
        StandOutside (start (beside inputs v)) steps → IsLegal (start (beside inputs v)) steps →
        IsLegal (blank_machine (start (beside inputs v))) steps
        × (report_of (run (blank_machine (start (beside inputs v))) steps)
        (peak (blank_machine (start (beside inputs v))) steps) steps ≡ report_after (beside inputs v) steps) }
{}

/// Two vaults with one entry and the same page numbers: what threads do that do not stand in the vault is as
/// legal beside the one as beside the other, and the report is the same.
pub fn vaults_of_one_shape_tell_the_same()
    ensures { (inputs : Inputs) (v : Vault) (steps : List ℕ) → CanOpen (beside inputs v) →
        StandOutside (start (beside inputs v)) steps → IsLegal (start (beside inputs v)) steps →
        TellsNothing inputs steps v }
{}

/// A call leaves its thread where it is, unless it is an accepted switch, which takes it to its target.
#[tactic(auto, using(crate::proofs::Entering::moves))]
pub fn only_an_accepted_switch_moves_a_thread()
    ensures { (number t : ℕ) (e : Environment) (x : Thread) →
        ((guest_calls number t e x).thread.context ≡ x.context) ⊎ ((number ≡ LW_SWITCH) × ((regs : Regs)
        × ((switch e.world x.context t x.regs).0 ≡ To (guest_calls number t e x).thread.context regs))) }
{}

/// Steps of which none is an accepted switch to the vault are made by threads that do not stand in it: at the
/// start none does, and only such a switch takes a thread there.
pub fn only_a_switch_enters_the_vault()
    ensures { (inputs : Inputs) (v : Vault) (steps : List ℕ) → CanOpen (beside inputs v) →
        NoneEnters (start (beside inputs v)) steps → StandOutside (start (beside inputs v)) steps }
{}

/// A schedule beside a vault keeps its secret, unless a thread that stands in it makes a step: beside another
/// one of its shape the text is the same. It is so too where both hand out the same.
pub fn schedules_keep_the_secret()
    ensures { (inputs : Inputs) (v : Vault) (schedule : List ℕ) → CanOpen (beside inputs v) →
        KeepsSecret inputs v schedule }
{}

/// Vaults of one shape that hand out the same are told apart by nothing: the same steps are legal, and the report
/// is the same. Where nobody stands in the vault when a step is made, nothing is handed out.
pub fn a_vault_tells_what_it_hands_out()
    ensures handed { (inputs : Inputs) (v other : Vault) (steps : List ℕ) → CanOpen (beside inputs v) →
        HaveOneShape v other → HandOutTheSame inputs v other steps →
        IsLegal (start (beside inputs v)) steps →
        IsLegal (start (beside inputs other)) steps
        × (report_after (beside inputs other) steps ≡ report_after (beside inputs v) steps) }
    ensures nobody { (inputs : Inputs) (v : Vault) (steps : List ℕ) →
        StandOutside (start (beside inputs v)) steps →
        All (λ o. o ≡ Outside) (told_in (start (beside inputs v)) steps) }
{}
