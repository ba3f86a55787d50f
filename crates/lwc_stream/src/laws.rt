//! What a stream of a serve that has ended shows: a function with an empty body, whose contract is the law.

ghost use Rattle.std.specs.Prelude.{◌≡◌, ◌<◌, ℕ, All, Contains, List, length, map};
ghost use Rattle.kernel_core.specs.Histories.{IsComplete};
ghost use Rattle.kernel_core.specs.Kernel.{CanOpen};
ghost use Rattle.kernel_core.specs.Runs.{run};
ghost use Rattle.kernel_core.specs.Start.{Inputs, start, thread_count};
ghost use Rattle.kernel_core.specs.declared.settings.Job.TheVariants as jobs;
ghost use Rattle.lwc_stream.specs.Replies.{AreShown, finished_by, lines_of};
ghost use Rattle.lwc_text.specs.Report.{replies_text};
ghost use Rattle.process_core.specs.Running.{Carried};
ghost use Rattle.snapshot_host.specs.declared.finishing.Finished.{Finished};
ghost use Rattle.turnstile.specs.Past.{Knows};

/// Where the steps of a serve are complete, and each thread has a pass that knows all of the thread's steps,
/// as `Process::close` ensures, what `stream_all` shows are the lines of the replies that are recorded after
/// the steps: one to each request, in order.
pub fn a_stream_shows_each_recorded_reply()
    ensures { (inputs : Inputs) (steps : List ℕ) (passes : List Carried) (shown : List Finished)
        (workers : ℕ) → CanOpen inputs → inputs.settings.job ≡ jobs.Serve workers →
        IsComplete (start inputs) steps → All (λ p. Knows steps p.held.number p.held.seen) passes →
        ((t : ℕ) → t < thread_count inputs → Contains (map (λ p. p.held.number) passes) t) →
        AreShown (map (finished_by inputs) passes) (length inputs.requests) shown →
        lines_of shown ≡ replies_text (run (start inputs) steps) }
{}
