//! Laws of serves: functions with empty bodies, each with a contract that is the law.

ghost use Rattle.std.specs.Prelude.{◌≡◌, ◌≢◌, ◌⊎◌, ◌+◌, ◌*◌, ◌++◌, ◌<◌, ◌≤◌, ℕ, Contains, List, Some, false, length};
ghost use Rattle.std.specs.Prelude.{replicate, true};
ghost use Rattle.kernel_core.specs.Histories.{IsComplete, finishes_by};
ghost use Rattle.kernel_core.specs.Kernel.{CanOpen};
ghost use Rattle.std.specs.FinMap as fm;
ghost use Rattle.kernel_core.specs.Machine.{Machine, reply_of};
ghost use Rattle.kernel_core.specs.Runs.{frames_of, peak, run};
ghost use Rattle.kernel_core.specs.Start.{Inputs, start, thread_count};
ghost use Rattle.kernel_core.specs.declared.settings.Job.TheVariants as jobs;
ghost use Rattle.world_views.specs.ByJob.{Home, KeepsJobs};
ghost use Rattle.lwc_base.specs.Channels.{Channels, bytes_in};
ghost use Rattle.lwc_base.specs.Frames.{used};
ghost use Rattle.lwc_base.specs.World.{Context, World, is_live};
ghost use Rattle.lwc_types.specs.declared.name.Name.{Name};
ghost use Rattle.request_isolation.specs.Alone.{alone, alone_in, ample, start_alone};
ghost use Rattle.lwc_syscall.specs.Plain.{plain, world_after};
ghost use Rattle.lwc_syscall.specs.declared.calls.CallContexts.{CallContexts};
ghost use Rattle.lwc_syscall.specs.declared.plain_call.PlainCall.TheVariants as plain_calls;
ghost use Rattle.request_isolation.specs.Needs.{HadFrames, HasFrames, IsShort, IsSpared, IsStoring, acted_world};
ghost use Rattle.request_isolation.specs.Needs.{greatest_extra, store_of_read};
ghost use Rattle.request_isolation.specs.Replies.{HasReply};
ghost use Rattle.request_isolation.specs.Restored.{AllRest, IsRestored, KeepsHomes, with_context};
ghost use Rattle.snapshot_host.specs.declared.finishing.Finished.{Finished};

/// At the end of a serve each request has a reply, and there are as many requests as at its start.
#[tactic(auto, using(crate::proofs::Serves::each_reply, crate::proofs::Serves::requests_stay))]
pub fn a_finished_serve_has_each_reply()
    ensures replied { (inputs : Inputs) (steps : List ℕ) (workers r : ℕ) → CanOpen inputs →
        inputs.settings.job ≡ jobs.Serve workers → IsComplete (start inputs) steps →
        r < length inputs.requests → HasReply (run (start inputs) steps) r }
    ensures requests { (inputs : Inputs) (steps : List ℕ) (workers : ℕ) → CanOpen inputs →
        inputs.settings.job ≡ jobs.Serve workers →
        length (run (start inputs) steps).environment.channels.requests ≡ length inputs.requests }
{}

/// What is recorded of a request bears its number, and its bytes are those that are written to its reply:
/// none is written once the request is finished.
pub fn a_recorded_reply_is_what_was_written()
    ensures request { (inputs : Inputs) (steps : List ℕ) (r : ℕ) (told : Finished) → CanOpen inputs →
        reply_of (run (start inputs) steps) r ≡ Some told → told.request ≡ r }
    ensures bytes { (inputs : Inputs) (steps : List ℕ) (r : ℕ) (told : Finished) → CanOpen inputs →
        reply_of (run (start inputs) steps) r ≡ Some told →
        bytes_in (run (start inputs) steps).environment.channels.replies r ≡ told.bytes }
{}

/// What a step of a serve finishes is a reply to one of its requests, and stays recorded as that step left
/// it. What is recorded of a request was finished by a step of one of the threads.
pub fn what_is_finished_is_recorded()
    ensures request { (inputs : Inputs) (steps : List ℕ) (workers t : ℕ) (told : Finished) → CanOpen inputs →
        inputs.settings.job ≡ jobs.Serve workers → Contains (finishes_by (start inputs) steps t) told →
        told.request < length inputs.requests }
    ensures recorded { (inputs : Inputs) (steps : List ℕ) (workers t : ℕ) (told : Finished) → CanOpen inputs →
        inputs.settings.job ≡ jobs.Serve workers → Contains (finishes_by (start inputs) steps t) told →
        reply_of (run (start inputs) steps) told.request ≡ Some told }
    ensures finished { (inputs : Inputs) (steps : List ℕ) (workers r : ℕ) (told : Finished) → CanOpen inputs →
        inputs.settings.job ≡ jobs.Serve workers → reply_of (run (start inputs) steps) r ≡ Some told →
        (t : ℕ) × (t < thread_count inputs) × Contains (finishes_by (start inputs) steps t) told }
{}

/// What a serve's contexts and groups have is of their own request, and beside it the pages of a home;
/// and no context of a finished request lives.
pub fn requests_are_apart()
    ensures own { (inputs : Inputs) (steps : List ℕ) (workers : ℕ) → CanOpen inputs →
        inputs.settings.job ≡ jobs.Serve workers →
        (home : Home) × KeepsJobs home (run (start inputs) steps).environment.world }
    ensures gone { (inputs : Inputs) (steps : List ℕ) (workers r : ℕ) (told : Finished) (c : Name) →
        CanOpen inputs → inputs.settings.job ≡ jobs.Serve workers →
        reply_of (run (start inputs) steps) r ≡ Some told →
        is_live (run (start inputs) steps).environment.world c ≡ true → c.job ≢ r + 1 }
{}

/// Whatever the number of workers and the order of steps, a recorded reply is the one that its request gets
/// by itself, if there are frames for as many requests at once as there are workers.
pub fn each_reply_is_that_of_its_request_alone()
    ensures { (inputs : Inputs) (steps : List ℕ) (r : ℕ) (told : Finished) → CanOpen inputs →
        HasFrames inputs → reply_of (run (start inputs) steps) r ≡ Some told →
        alone inputs.image inputs.settings.budget r (bytes_in inputs.requests r) ≡ Some told }
{}

/// A recorded reply is the one that its request gets by itself, unless one of the request's own steps found too
/// few frames; and none did where two frames more than the peak were there.
pub fn a_reply_is_that_of_its_request_alone_unless_frames_ran_short()
    ensures reply { (inputs : Inputs) (steps : List ℕ) (r : ℕ) (told : Finished) → CanOpen inputs →
        IsSpared r (start inputs) steps → reply_of (run (start inputs) steps) r ≡ Some told →
        alone inputs.image inputs.settings.budget r (bytes_in inputs.requests r) ≡ Some told }
    ensures spared { (inputs : Inputs) (steps : List ℕ) (workers r : ℕ) → CanOpen inputs →
        inputs.settings.job ≡ jobs.Serve workers → HadFrames inputs steps → IsSpared r (start inputs) steps }
    ensures never_short { (inputs : Inputs) (before rest : List ℕ) (workers t : ℕ) → CanOpen inputs →
        inputs.settings.job ≡ jobs.Serve workers → HadFrames inputs (before ++ rest) →
        IsShort (run (start inputs) before) t → ⊥ }
    ensures same { (a b : Inputs) (s u : List ℕ) (r : ℕ) (told other : Finished) → CanOpen a → CanOpen b →
        a.image ≡ b.image → a.settings.budget ≡ b.settings.budget →
        bytes_in a.requests r ≡ bytes_in b.requests r → IsSpared r (start a) s → IsSpared r (start b) u →
        reply_of (run (start a) s) r ≡ Some told → reply_of (run (start b) u) r ≡ Some other → told ≡ other }
{}

/// At each moment of a serve its homes are as at the start, and what else lives is of a request that is served.
/// While none is, contexts and groups are those of the start, and each frame in use is of a page of the image. So
/// what was in use at most does not grow with the number of requests, whatever the number of frames.
pub fn a_request_leaves_nothing_behind()
    ensures always { (inputs : Inputs) (steps : List ℕ) (workers : ℕ) → CanOpen inputs →
        inputs.settings.job ≡ jobs.Serve workers → KeepsHomes inputs (run (start inputs) steps) }
    ensures rest { (inputs : Inputs) (steps : List ℕ) (workers : ℕ) → CanOpen inputs →
        inputs.settings.job ≡ jobs.Serve workers → AllRest (run (start inputs) steps) →
        IsRestored inputs (run (start inputs) steps) }
    ensures finished { (inputs : Inputs) (steps : List ℕ) (workers : ℕ) → CanOpen inputs →
        inputs.settings.job ≡ jobs.Serve workers → IsComplete (start inputs) steps →
        IsRestored inputs (run (start inputs) steps) }
    ensures bounded { (inputs : Inputs) (steps : List ℕ) (workers : ℕ) → CanOpen inputs →
        inputs.settings.job ≡ jobs.Serve workers → peak (start inputs) steps ≤ length inputs.image.pages
        + workers * greatest_extra inputs.image inputs.settings.budget 0 inputs.requests }
{}

/// What kept homes refuse: one more context of job 0, and a home that is another one than at the start.
pub fn kept_homes_are_those_of_the_start()
    ensures one_more { (inputs : Inputs) (m : Machine) (c : Name) (x : Context) → c.job ≡ 0 →
        is_live (start inputs).environment.world c ≡ false → KeepsHomes inputs (with_context m c x) → ⊥ }
    ensures changed { (inputs : Inputs) (m : Machine) (c : Name) (x y : Context) → c.job ≡ 0 →
        fm.get (start inputs).environment.world.contexts c ≡ Some y → x ≢ y →
        KeepsHomes inputs (with_context m c x) → ⊥ }
{}

/// With these frames no store of the serve finds too few.
pub fn no_store_of_a_serve_finds_too_few_frames()
    ensures { (inputs : Inputs) (steps : List ℕ) (workers t : ℕ) → CanOpen inputs →
        inputs.settings.job ≡ jobs.Serve workers → HasFrames inputs →
        IsShort (run (start inputs) steps) t → ⊥ }
{}

/// More frames than ample ones change nothing for a request by itself, and none of its steps finds too few.
pub fn ample_frames_are_ample()
    ensures reply { (inputs : Inputs) (workers frames r : ℕ) → CanOpen inputs →
        inputs.settings.job ≡ jobs.Serve workers → r < length inputs.requests →
        ample inputs.image inputs.settings.budget ≤ frames →
        alone_in frames inputs.image inputs.settings.budget r (bytes_in inputs.requests r)
        ≡ alone inputs.image inputs.settings.budget r (bytes_in inputs.requests r) }
    ensures never_short { (inputs : Inputs) (workers frames r steps : ℕ) → CanOpen inputs →
        inputs.settings.job ≡ jobs.Serve workers → r < length inputs.requests →
        ample inputs.image inputs.settings.budget ≤ frames → steps ≤ inputs.settings.budget →
        IsShort (run (start_alone inputs.image frames inputs.settings.budget r (bytes_in inputs.requests r))
        (replicate steps 0)) 0 → ⊥ }
{}

/// A step takes a frame by a store alone: one that does not store leaves no more in use, and a call that
/// reads leaves as many as its store. So the most frames that a request takes by itself are those after a step
/// of it, or directly after a store.
pub fn stores_alone_take_frames()
    ensures step { (inputs : Inputs) (steps : List ℕ) (t : ℕ) → CanOpen inputs →
        (IsStoring (run (start inputs) steps) t → ⊥) →
        used (acted_world (run (start inputs) steps) t) ≤ frames_of (run (start inputs) steps) }
    ensures read { (w : World) (io : Channels) (job : ℕ) (targets : CallContexts) (args : List ℕ) →
        (used (plain w io targets job (Some plain_calls.Read) args).world ≡ used w)
        ⊎ (used (plain w io targets job (Some plain_calls.Read) args).world
        ≡ used (world_after w (store_of_read w io targets job args))) }
{}
