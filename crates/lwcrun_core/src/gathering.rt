//! The files of a mode, each read and tested before the next.

ghost use Rattle.std.specs.Prelude.{◌≡◌, ◌≤◌, ◌<◌, ◌+◌, ℕ, List, [], All, IfOk, None, length, option_map};
ghost use Rattle.guest_image.specs.Limits.{IsImage};
ghost use Rattle.kernel_core.specs.Kernel.{AreRequests, CanKeep};
ghost use Rattle.kernel_core.specs.Start.{Inputs, inputs_of, threads_for};
ghost use Rattle.lwc_types.specs.declared.limits.TheConstants.{MOST_STEPS};
ghost use Rattle.lwc_vault.specs.Secrets.{beside};
ghost use Rattle.lwcrun_core.specs.Works as works;
ghost use Rattle.lwcrun_core.specs.Works.{Gathered, Work, plan_by, plan_of, read_files};
ghost use Rattle.lwcrun_core.specs.Works.{replay_task, requests_named, scheduled, server_task};
ghost use Rattle.lwcrun_line.specs.Lines as commands;
ghost use Rattle.lwcrun_line.specs.Lines.{AreReplaySettings, AreRunSettings, AreServeSettings};
ghost use Rattle.lwcrun_inputs.specs.Inputs.{serve_steps};
ghost use Rattle.lwcrun_inputs.specs.Parts.{Gathers};
ghost use Rattle.lwcrun_inputs.specs.Plans.{AreFetchesOf};
ghost use Rattle.lwcrun_inputs.specs.Reading.{Fetched};
ghost use Rattle.lwcrun_inputs.specs.Views.{found};

use crate::beside::{fitting_vault_in, script_in};
use guest_image::{Image, Vault};
use kernel_core::{Job, Settings};
use lwc_base::{MOST_STEPS, Requests};
use lwc_debug::{MOST_DEBUGGED_STEPS, Script};
use lwc_io::Files;
use lwc_text::Schedule;
use lwcrun_inputs::{
    Ending, bounded_requests_in, fitting_image_in, image_in, requests_in, schedule_in,
};
use std::alloc::Global;

/// The image, the schedule and the requests in the files of these names, or the end of the call without them. Where
/// no file of requests is named there are none.
pub fn replay_files<'a, F: Files>(
    alloc: Global,
    files: &mut F,
    image: &'a str,
    schedule: &'a str,
    requests: Option<&'a str>,
    settings: &Settings,
) -> Result<(Image, Schedule, Requests), Ending<'a>>
    requires settings { AreReplaySettings requests settings.now }
    ensures gathers { (work : Inputs → List ℕ → Work) → Gathers (F.seen files.old) (F.seen files.new)
        (plan_by (replay_task work image.now schedule.now
        (option_map (λ s. s.now) requests.entry) settings.now))
        (found (λ read. work (inputs_of read.0 read.2 settings.now) read.1) result) }
    ensures fetches { (work : Inputs → List ℕ → Work) → Fetched (AreFetchesOf (F.seen files.old).contents
        (plan_by (replay_task work image.now schedule.now
        (option_map (λ s. s.now) requests.entry) settings.now)))
        (F.seen files.old).fetches (F.seen files.new).fetches }
    ensures image { IfOk result (λ read. IsImage read.0) }
    ensures fits { IfOk result (λ read. length read.0.pages ≤ settings.now.frames) }
    ensures threads { IfOk result (λ read. All (λ t. t < threads_for read.0 settings.now.job) read.1) }
    ensures short { IfOk result (λ read. length read.1 ≤ MOST_STEPS) }
    ensures requests { IfOk result (λ read. AreRequests read.2) }
    ensures none { option_map (λ s. s.now) requests.entry ≡ None → IfOk result (λ read. read.2 ≡ []) }
{
    let image = fitting_image_in(alloc, files, image, settings.frames)?;
    let threads = thread_count(&image, settings.job);
    let schedule = schedule_in(alloc, files, schedule, threads, MOST_STEPS)?;
    let requests = named_requests(alloc, files, requests)?;
    Ok((image, schedule, requests))
}

/// The requests in the file of this name, or none where there is no name; or the end of the call without them.
fn named_requests<'a, F: Files>(
    alloc: Global,
    files: &mut F,
    name: Option<&'a str>,
) -> Result<Requests, Ending<'a>>
    ensures gathers { (settings : Settings) (work : Gathered → Work) (image : Image) (steps : List ℕ)
        → Gathers (F.seen files.old) (F.seen files.new)
        (read_files (requests_named (option_map (λ s. s.now) name.entry)) settings work
        (scheduled image steps))
        (found (λ asked. work (record (scheduled image steps) { requests = asked })) result) }
    ensures fetches { (settings : Settings) (work : Gathered → Work) (image : Image) (steps : List ℕ)
        → Fetched (AreFetchesOf (F.seen files.old).contents
        (read_files (requests_named (option_map (λ s. s.now) name.entry)) settings work
        (scheduled image steps)))
        (F.seen files.old).fetches (F.seen files.new).fetches }
    ensures limits { IfOk result AreRequests }
    ensures none { option_map (λ s. s.now) name.entry ≡ None → IfOk result (λ asked. asked ≡ []) }
{
    match name {
        Some(name) => requests_in(alloc, files, name),
        None => Ok(Requests::of(Vec::new(alloc))),
    }
}

/// The image and the requests in the files of these names, or the end of the call without them.
pub fn server_files<'a, F: Files>(
    alloc: Global,
    files: &mut F,
    image: &'a str,
    requests: &'a str,
    settings: &Settings,
) -> Result<(Image, Requests), Ending<'a>>
    requires settings { AreServeSettings settings.now }
    ensures gathers { (work : Inputs → Work) → Gathers (F.seen files.old) (F.seen files.new)
        (plan_by (server_task work image.now requests.now settings.now))
        (found (λ read. work (inputs_of read.0 read.1 settings.now)) result) }
    ensures fetches { (work : Inputs → Work) → Fetched
        (AreFetchesOf (F.seen files.old).contents
        (plan_by (server_task work image.now requests.now settings.now)))
        (F.seen files.old).fetches (F.seen files.new).fetches }
    ensures image { IfOk result (λ read. IsImage read.0) }
    ensures fits { IfOk result (λ read. length read.0.pages ≤ settings.now.frames) }
    ensures requests { IfOk result (λ read. AreRequests read.1) }
    ensures few { IfOk result (λ read. serve_steps settings.now (length read.1) ≤ MOST_STEPS) }
{
    let image = fitting_image_in(alloc, files, image, settings.frames)?;
    let requests = bounded_requests_in(alloc, files, requests, settings)?;
    Ok((image, requests))
}

/// The image, the vault and the schedule in the files of these names, or the end of the call without them.
pub fn vault_files<'a, F: Files>(
    alloc: Global,
    files: &mut F,
    image: &'a str,
    vault: &'a str,
    schedule: &'a str,
    settings: &Settings,
) -> Result<(Image, Vault, Schedule), Ending<'a>>
    requires settings { AreRunSettings settings.now }
    ensures gathers { Gathers (F.seen files.old) (F.seen files.new)
        (plan_of (commands.Vault image.now vault.now schedule.now settings.now))
        (found (λ read. works.Replaying (beside (inputs_of read.0 [] settings.now) read.1) read.2) result) }
    ensures fetches { Fetched (AreFetchesOf (F.seen files.old).contents
        (plan_of (commands.Vault image.now vault.now schedule.now settings.now)))
        (F.seen files.old).fetches (F.seen files.new).fetches }
    ensures image { IfOk result (λ read. IsImage read.0) }
    ensures vault { IfOk result (λ read. CanKeep read.0 settings.now.job read.1) }
    ensures fits { IfOk result (λ read. length read.0.pages + length read.1.pages ≤ settings.now.frames) }
    ensures threads { IfOk result (λ read. All (λ t. t < threads_for read.0 settings.now.job) read.2) }
    ensures short { IfOk result (λ read. length read.2 ≤ MOST_STEPS) }
{
    let image = image_in(alloc, files, image)?;
    let vault = fitting_vault_in(alloc, files, vault, &image, settings.frames)?;
    let threads = thread_count(&image, settings.job);
    let schedule = schedule_in(alloc, files, schedule, threads, MOST_STEPS)?;
    Ok((image, vault, schedule))
}

/// The image, the schedule and the script in the files of these names, or the end of the call without them.
pub fn debug_files<'a, F: Files>(
    alloc: Global,
    files: &mut F,
    image: &'a str,
    schedule: &'a str,
    script: &'a str,
    settings: &Settings,
) -> Result<(Image, Schedule, Script), Ending<'a>>
    requires settings { AreRunSettings settings.now }
    ensures gathers { Gathers (F.seen files.old) (F.seen files.new)
        (plan_of (commands.Debug image.now schedule.now script.now settings.now))
        (found (λ read. works.Debugging (inputs_of read.0 [] settings.now) read.1 read.2) result) }
    ensures fetches { Fetched (AreFetchesOf (F.seen files.old).contents
        (plan_of (commands.Debug image.now schedule.now script.now settings.now)))
        (F.seen files.old).fetches (F.seen files.new).fetches }
    ensures image { IfOk result (λ read. IsImage read.0) }
    ensures fits { IfOk result (λ read. length read.0.pages ≤ settings.now.frames) }
    ensures threads { IfOk result (λ read. All (λ t. t < threads_for read.0 settings.now.job) read.1) }
{
    let image = fitting_image_in(alloc, files, image, settings.frames)?;
    let threads = thread_count(&image, settings.job);
    let schedule = schedule_in(alloc, files, schedule, threads, MOST_DEBUGGED_STEPS)?;
    let script = script_in(alloc, files, script)?;
    Ok((image, schedule, script))
}

/// The number of threads of an image's run or serve.
fn thread_count(image: &Image, job: Job) -> u32
    requires { IsImage image.now }
    ensures { result ≡ threads_for image.now job }
{
    match job {
        Job::Run => image.entries.len() as u32,
        Job::Serve { workers } => workers,
    }
}
