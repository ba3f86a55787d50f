//! Laws of calls as one job sees them: functions with empty bodies, each with a contract that is the law.

ghost use Rattle.std.specs.Prelude.{◌≡◌, ◌≢◌, ◌<◌, ◌+◌, ℕ, List, Option, Some};
ghost use Rattle.lwc_base.specs.Channels.{Channels};
ghost use Rattle.lwc_base.specs.Frames.{used};
ghost use Rattle.lwc_base.specs.Holders.{InContext};
ghost use Rattle.lwc_base.specs.Store.{parting_count};
ghost use Rattle.lwc_base.specs.World.{World};
ghost use Rattle.lwc_base.specs.declared.answer.Moved.TheVariants.{To};
ghost use Rattle.lwc_types.specs.declared.name.Name.{Name};
ghost use Rattle.lwc_types.specs.declared.refusal.Refusal.TheVariants.{NoFrame};
ghost use Rattle.lwc_types.specs.declared.regs.Regs.{Regs};
ghost use Rattle.lwc_create.specs.Create.{create};
ghost use Rattle.lwc_overlay.specs.OverlayCall.{overlay};
ghost use Rattle.lwc_overlay.specs.RestrictCall.{restrict};
ghost use Rattle.lwc_switch.specs.Switch.{switch};
ghost use Rattle.lwc_syscall.specs.Plain.{plain};
ghost use Rattle.lwc_syscall.specs.Syscall.{inner_args, inner_call, lw_syscall, targets_of};
ghost use Rattle.lwc_syscall.specs.declared.answer.CallAnswer.TheVariants.{Refused};
ghost use Rattle.lwc_syscall.specs.declared.calls.CallContexts.{CallContexts};
ghost use Rattle.lwc_syscall.specs.declared.plain_call.PlainCall.{PlainCall};
ghost use Rattle.lwc_syscall.specs.declared.plain_call.PlainCall.TheVariants as plain_calls;
ghost use Rattle.snapshot_host.specs.Begin.{begin, begun_context};
ghost use Rattle.world_views.specs.ByJob.{Home, KeepsJobs, LooksAlike, by_job};
ghost use Rattle.world_views.specs.Ends.{AreOf, EndsAlike, HasFrames, OutcomesAlike, read_piece};
ghost use Rattle.world_views.specs.Views.{channel_view, view};

/// A call does the same in two worlds that look alike to its job: it gives the same answer, and leaves worlds
/// that look alike. So do plain calls, with channels that look alike, if none is refused for want of frames.
pub fn calls_do_the_same_in_worlds_that_look_alike()
    ensures create { (home : Home) (t s : ℕ) (c : Name) (w v : World) (regs : Regs) →
        LooksAlike home c.job t s w v →
        EndsAlike home c.job t s (create w c c.job regs) (create v c c.job regs) }
    ensures switch { (home : Home) (t s : ℕ) (c : Name) (w v : World) (regs : Regs) →
        LooksAlike home c.job t s w v →
        EndsAlike home c.job t s (switch w c t regs) (switch v c s regs) }
    ensures restrict { (home : Home) (t s : ℕ) (c : Name) (w v : World) (regs : Regs) →
        LooksAlike home c.job t s w v →
        EndsAlike home c.job t s (restrict w c regs) (restrict v c regs) }
    ensures overlay { (home : Home) (t s : ℕ) (c : Name) (w v : World) (regs : Regs) →
        LooksAlike home c.job t s w v →
        EndsAlike home c.job t s (overlay w c c.job regs) (overlay v c c.job regs) }
    ensures plain { (home : Home) (r t s : ℕ) (targets : CallContexts) (w v : World) (io other : Channels)
        (call : Option PlainCall)
        (args : List ℕ) → AreOf (r + 1) targets → LooksAlike home (r + 1) t s w v →
        channel_view r io ≡ channel_view r other → HasFrames (plain w io targets (r + 1) call args) →
        HasFrames (plain v other targets (r + 1) call args) →
        OutcomesAlike home r t s (plain w io targets (r + 1) call args)
        (plain v other targets (r + 1) call args) }
    ensures syscall { (home : Home) (r t s : ℕ) (c : Name) (w v : World) (io other : Channels) (regs : Regs) →
        c.job ≡ r + 1 → LooksAlike home (r + 1) t s w v → channel_view r io ≡ channel_view r other →
        HasFrames (lw_syscall w io c (r + 1) regs) → HasFrames (lw_syscall v other c (r + 1) regs) →
        OutcomesAlike home r t s (lw_syscall w io c (r + 1) regs) (lw_syscall v other c (r + 1) regs) }
    ensures begin { (home : Home) (r t s : ℕ) (a b : Name) (w v : World) →
        InContext (by_job home) (r + 1) (begun_context w a r) → begun_context w a r ≡ begun_context v b r →
        LooksAlike home (r + 1) t s w v → LooksAlike home (r + 1) t s (begin w a r) (begin v b r) }
{}

/// Each job has what is its own, whatever calls of jobs but 0 do, and a switch stays in the job.
pub fn calls_keep_each_job_what_is_its_own()
    ensures create { (home : Home) (c : Name) (w : World) (regs : Regs) → c.job ≢ 0 → KeepsJobs home w →
        KeepsJobs home (create w c c.job regs).1 }
    ensures switch { (home : Home) (c : Name) (t : ℕ) (w : World) (regs : Regs) → c.job ≢ 0 →
        KeepsJobs home w → KeepsJobs home (switch w c t regs).1 }
    ensures target { (home : Home) (c d : Name) (t : ℕ) (w : World) (regs arrived : Regs) → KeepsJobs home w →
        (switch w c t regs).0 ≡ To d arrived → d.job ≡ c.job }
    ensures restrict { (home : Home) (c : Name) (w : World) (regs : Regs) → c.job ≢ 0 → KeepsJobs home w →
        KeepsJobs home (restrict w c regs).1 }
    ensures overlay { (home : Home) (c : Name) (w : World) (regs : Regs) → c.job ≢ 0 → KeepsJobs home w →
        KeepsJobs home (overlay w c c.job regs).1 }
    ensures plain { (home : Home) (job : ℕ) (targets : CallContexts) (w : World) (io : Channels)
        (call : Option PlainCall)
        (args : List ℕ) → job ≢ 0 → AreOf job targets → KeepsJobs home w →
        KeepsJobs home (plain w io targets job call args).world }
    ensures syscall { (home : Home) (c : Name) (w : World) (io : Channels) (regs : Regs) → c.job ≢ 0 →
        KeepsJobs home w → KeepsJobs home (lw_syscall w io c c.job regs).world }
    ensures begin { (home : Home) (r : ℕ) (a : Name) (w : World) →
        InContext (by_job home) (r + 1) (begun_context w a r) → KeepsJobs home w →
        KeepsJobs home (begin w a r) }
{}

/// No job sees what calls of another one do to the world, nor what they write.
pub fn no_job_sees_calls_of_another_one()
    ensures create { (home : Home) (job t : ℕ) (c : Name) (w : World) (regs : Regs) → c.job ≢ 0 →
        c.job ≢ job → KeepsJobs home w → view job t (create w c c.job regs).1 ≡ view job t w }
    ensures switch { (home : Home) (job t s : ℕ) (c : Name) (w : World) (regs : Regs) → c.job ≢ 0 →
        c.job ≢ job → KeepsJobs home w → view job t (switch w c s regs).1 ≡ view job t w }
    ensures restrict { (home : Home) (job t : ℕ) (c : Name) (w : World) (regs : Regs) → c.job ≢ 0 →
        c.job ≢ job → KeepsJobs home w → view job t (restrict w c regs).1 ≡ view job t w }
    ensures overlay { (home : Home) (job t : ℕ) (c : Name) (w : World) (regs : Regs) → c.job ≢ 0 →
        c.job ≢ job → KeepsJobs home w → view job t (overlay w c c.job regs).1 ≡ view job t w }
    ensures plain { (home : Home) (own job t : ℕ) (targets : CallContexts) (w : World) (io : Channels)
        (call : Option PlainCall)
        (args : List ℕ) → own ≢ 0 → own ≢ job → AreOf own targets → KeepsJobs home w →
        view job t (plain w io targets own call args).world ≡ view job t w }
    ensures plain_channels { (home : Home) (own r : ℕ) (targets : CallContexts) (w : World) (io : Channels)
        (call : Option PlainCall)
        (args : List ℕ) → own ≢ r + 1 → AreOf own targets → KeepsJobs home w →
        channel_view r (plain w io targets own call args).io ≡ channel_view r io }
    ensures syscall { (home : Home) (job t : ℕ) (c : Name) (w : World) (io : Channels) (regs : Regs) →
        c.job ≢ 0 → c.job ≢ job → KeepsJobs home w →
        view job t (lw_syscall w io c c.job regs).world ≡ view job t w }
    ensures syscall_channels { (home : Home) (r : ℕ) (c : Name) (w : World) (io : Channels) (regs : Regs) →
        c.job ≢ r + 1 → KeepsJobs home w →
        channel_view r (lw_syscall w io c c.job regs).io ≡ channel_view r io }
    ensures begin { (job t r : ℕ) (a : Name) (w : World) → r + 1 ≢ job →
        view job t (begin w a r) ≡ view job t w }
{}

/// A call is refused for want of frames only where it is a read whose bytes need more than there are.
pub fn a_read_alone_wants_frames()
    ensures plain { (w : World) (io : Channels) (targets : CallContexts) (job : ℕ)
        (call : Option PlainCall) (args : List ℕ) →
        (plain w io targets job call args).answer ≡ Refused NoFrame → (call ≡ Some plain_calls.Read)
        × (w.size.frames < used w + parting_count w targets.memory (read_piece w io targets args)) }
    ensures syscall { (w : World) (io : Channels) (c : Name) (job : ℕ) (regs : Regs) →
        (lw_syscall w io c job regs).answer ≡ Refused NoFrame → (inner_call regs ≡ Some plain_calls.Read)
        × (w.size.frames < used w + parting_count w (targets_of w c regs).memory
        (read_piece w io (targets_of w c regs) (inner_args regs))) }
{}
