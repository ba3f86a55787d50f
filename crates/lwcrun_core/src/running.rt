ghost use Rattle.std.specs.Prelude.{◌≡◌, ◌<◌, ◌≤◌, ℕ, Err, IfErr, IfOk, Some};
ghost use Rattle.std.specs.Prelude.{length, map, slice_get};
ghost use Rattle.guest_image.specs.Limits.{IsImage};
ghost use Rattle.lwc_types.specs.declared.limits.TheConstants.{MOST_STEPS};
ghost use Rattle.kernel_core.specs.Kernel.{CanOpen, MayHave};
ghost use Rattle.kernel_core.specs.Machine.{work};
ghost use Rattle.kernel_core.specs.Settings.{IsSettings};
ghost use Rattle.kernel_core.specs.Start.{inputs_of, start};
ghost use Rattle.lwcrun_inputs.specs.Ends.{Ended};
ghost use Rattle.lwc_io.specs.Outside.{FilesView};
ghost use Rattle.lwcrun_core.specs.Works.{IsText, plan_by, plan_of, server_task};
ghost use Rattle.lwcrun_line.specs.Lines as commands;
ghost use Rattle.lwcrun_core.specs.Works as works;
ghost use Rattle.lwcrun_line.specs.Lines.{AreRunSettings, AreServeSettings};
ghost use Rattle.lwcrun_inputs.specs.Plans.{AreFetchesOf};
ghost use Rattle.lwcrun_inputs.specs.Reading.{Fetched};
ghost use Rattle.lwcrun_inputs.specs.Views.{end_of, outside};
ghost use Rattle.lwc_gen.specs.Generated.{generated};
ghost use Rattle.process_core.specs.Running.{AreAllOf, Carried, IsNewPass};

use crate::gathering::server_files;
use crate::writing::write_work;
use guest_image::Image;
use kernel_core::{Job, Kernel, OpenFault, Settings};
use lazy_world::LazyWorld;
use lwc_base::{OutOfMemory, Requests};
use lwc_gen::{SETTINGS, generate, summary};
use lwc_io::{Files, Gate, Sink};
use lwc_text::report;
use lwcrun_inputs::{Ending, fitting_image_in, most_steps};
use process_core::{Process, ProcessPasses};
use std::alloc::Global;
use std::sync::Wait;
use std::thread::Threads;
use thread_carrier::run_threads;
use world_face::World;

/// Reads the image of this name, runs its threads to their ends, and writes the report.
pub fn run<'a, R: Threads + Wait + Sync, F: Files, O: Sink, G: Gate>(
    rt: &R,
    alloc: Global,
    files: &mut F,
    out: &mut O,
    gate: &G,
    image: &'a str,
    settings: &Settings,
) -> Ending<'a>
    requires settings { AreRunSettings settings.now }
    ensures ended { Ended IsText
        (outside (F.seen files.old) (F.seen files.new) (O.seen out.old) (O.seen out.new))
        (plan_of (commands.Run image.now settings.now)) (end_of result) }
    ensures fetches { Fetched
        (AreFetchesOf (F.seen files.old).contents (plan_of (commands.Run image.now settings.now)))
        (F.seen files.old).fetches (F.seen files.new).fetches }
{
    match fitting_image_in(alloc, files, image, settings.frames) {
        Ok(image) => {
            let requests = Requests::of(Vec::new(alloc));
            write_work(
                out,
                history_text(rt, alloc, gate, &image, requests, settings),
            )
        }
        Err(ending) => ending,
    }
}

/// Reads the image and the requests of these names, serves the requests, and writes the report.
pub fn serve<'a, R: Threads + Wait + Sync, F: Files, O: Sink, G: Gate>(
    rt: &R,
    alloc: Global,
    files: &mut F,
    out: &mut O,
    gate: &G,
    image: &'a str,
    requests: &'a str,
    settings: &Settings,
) -> Ending<'a>
    requires settings { AreServeSettings settings.now }
    ensures ended { Ended IsText
        (outside (F.seen files.old) (F.seen files.new) (O.seen out.old) (O.seen out.new))
        (plan_by (server_task works.Running image.now requests.now settings.now)) (end_of result) }
    ensures fetches { Fetched
        (AreFetchesOf (F.seen files.old).contents
        (plan_by (server_task works.Running image.now requests.now settings.now)))
        (F.seen files.old).fetches (F.seen files.new).fetches }
{
    match server_files(alloc, files, image, requests, settings) {
        Ok((image, requests)) => write_work(
            out,
            history_text(rt, alloc, gate, &image, requests, settings),
        ),
        Err(ending) => ending,
    }
}

/// Serves the requests that are generated from a number by the generated server, and writes the summary.
pub fn serve_generated<'a, R: Threads + Wait + Sync, O: Sink, G: Gate>(
    rt: &R,
    alloc: Global,
    out: &mut O,
    gate: &G,
    number: u32,
) -> Ending<'a>
    requires number { (1 ≤ number) × (number ≤ 100) }
    ensures { (files : FilesView) → Ended IsText (outside files files (O.seen out.old) (O.seen out.new))
        (plan_of (commands.Gen number)) (end_of result) }
{
    write_work(out, summary_text(rt, alloc, gate, number))
}

/// The summary of a generated serve.
fn summary_text<R: Threads + Wait + Sync, G: Gate>(
    rt: &R,
    alloc: Global,
    gate: &G,
    number: u32,
) -> Result<Vec<u8>, OutOfMemory>
    requires number { (1 ≤ number) × (number ≤ 100) }
    ensures { IfOk result (λ text. IsText (works.Generating number) text.items) }
{
    let (image, requests) = generate(alloc, number)?;
    match open_process(alloc, &image, requests, &SETTINGS) {
        Ok((process, passes)) => summary_of(rt, alloc, gate, number, process, passes),
        Err(_) => Err(OutOfMemory),
    }
}

/// The summary of a generated serve, whose workers make their steps, each going on by itself to its end.
fn summary_of<R: Threads + Wait + Sync, W: World, G: Gate>(
    rt: &R,
    alloc: Global,
    gate: &G,
    number: u32,
    process: Process<W>,
    passes: ProcessPasses<W>,
) -> Result<Vec<u8>, OutOfMemory>
    requires number { (1 ≤ number) × (number ≤ 100) }
    requires generated { process.name.inputs ≡ generated number }
    requires all { AreAllOf process passes.items }
    ensures { IfOk result (λ text. IsText (works.Generating number) text.items) }
{
    let kernel = run_threads(rt, alloc, process, passes, gate)?;
    let text = summary(alloc, number, &kernel);
    // Dropped here, and not on each way out.
    drop(kernel);
    text
}

/// The report of the steps that the threads make, each going on by itself to its end.
fn history_text<R: Threads + Wait + Sync, G: Gate>(
    rt: &R,
    alloc: Global,
    gate: &G,
    image: &Image,
    requests: Requests,
    settings: &Settings,
) -> Result<Vec<u8>, OutOfMemory>
    requires can { CanOpen (inputs_of image.now requests settings.now) }
    requires few { work (start (inputs_of image.now requests settings.now)) ≤ MOST_STEPS }
    ensures { IfOk result
        (λ text. IsText (works.Running (inputs_of image.now requests settings.now)) text.items) }
{
    match open_process(alloc, image, requests, settings) {
        Ok((process, passes)) => report_of(rt, alloc, gate, process, passes),
        Err(_) => Err(OutOfMemory),
    }
}

/// The report of the steps that the threads of a process make.
fn report_of<R: Threads + Wait + Sync, W: World, G: Gate>(
    rt: &R,
    alloc: Global,
    gate: &G,
    process: Process<W>,
    passes: ProcessPasses<W>,
) -> Result<Vec<u8>, OutOfMemory>
    requires all { AreAllOf process passes.items }
    ensures { IfOk result (λ text. IsText (works.Running process.name.inputs) text.items) }
{
    let kernel = run_threads(rt, alloc, process, passes, gate)?;
    let text = report(alloc, &kernel);
    // Dropped here, and not on each way out.
    drop(kernel);
    text
}

/// A process at the start of an image, with a pass for each of its threads, and with room for just the steps
/// that they may make. A run has no requests.
///
/// # Errors
///
/// `ImageTooLarge` exactly where the image has more pages than there are frames; or `OutOfMemory`.
pub fn open_process(
    alloc: Global,
    image: &Image,
    requests: Requests,
    settings: &Settings,
) -> Result<(Process<LazyWorld>, ProcessPasses<LazyWorld>), OpenFault>
    requires image { IsImage image.now }
    requires settings { IsSettings settings.now }
    requires requests { MayHave settings.now.job requests }
    requires few { work (start (inputs_of image.now requests settings.now)) ≤ MOST_STEPS }
    ensures inputs { IfOk result (λ p. p.0.name.inputs ≡ inputs_of image.now requests settings.now) }
    ensures room { IfOk result (λ p.
        p.0.name.room ≡ work (start (inputs_of image.now requests settings.now))) }
    ensures all { IfOk result (λ p. AreAllOf p.0 p.1.items) }
    ensures new { IfOk result (λ p. (i : ℕ) (q : Carried) →
        slice_get p.1.items i ≡ Some q → IsNewPass p.0 i q) }
    ensures too_large { settings.now.frames < length image.now.pages →
        result ≡ Err (OpenFault.ImageTooLarge (length image.now.pages) settings.now.frames) }
    ensures fits { length image.now.pages ≤ settings.now.frames →
        IfErr result (λ fault. fault ≡ OpenFault.OutOfMemory) }
{
    let steps = first_work(image, &requests, settings);
    let kernel = Kernel::<LazyWorld>::open(alloc, image, requests, steps, settings)?;
    match Process::open(alloc, kernel) {
        Ok(opened) => Ok(opened),
        Err(_) => Err(OpenFault::OutOfMemory),
    }
}

/// The number of steps that the threads of a start may make.
fn first_work(image: &Image, requests: &Requests, settings: &Settings) -> u32
    requires image { IsImage image.now }
    requires settings { IsSettings settings.now }
    requires requests { MayHave settings.now.job requests.now }
    ensures { result ≡ work (start (inputs_of image.now requests.now settings.now)) }
{
    match settings.job {
        Job::Run => image.entries.len() as u32 * settings.budget,
        Job::Serve { .. } => most_steps(settings, requests.len()),
    }
}
