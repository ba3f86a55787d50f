ghost use Rattle.std.specs.Prelude.{◌≡◌, ◌<◌, ◌≤◌, All, IfOk, length, option_map};
ghost use Rattle.guest_image.specs.Limits.{IsImage};
ghost use Rattle.lwc_types.specs.declared.limits.TheConstants.{MOST_STEPS};
ghost use Rattle.kernel_core.specs.Kernel.{CanOpen, opened};
ghost use Rattle.kernel_core.specs.Start.{inputs_of, thread_count, threads_for};
ghost use Rattle.lwcrun_inputs.specs.Ends.{Ended};
ghost use Rattle.lwcrun_core.specs.Works.{IsText, plan_by, replay_task};
ghost use Rattle.lwcrun_core.specs.Works as works;
ghost use Rattle.lwc_text.specs.Report.{report_of_schedule};
ghost use Rattle.lwcrun_line.specs.Lines.{AreReplaySettings};
ghost use Rattle.lwcrun_inputs.specs.Plans.{AreFetchesOf};
ghost use Rattle.lwcrun_inputs.specs.Reading.{Fetched};
ghost use Rattle.lwcrun_inputs.specs.Views.{end_of, outside};

use crate::gathering::replay_files;
use crate::writing::write_work;
use guest_image::Image;
use kernel_core::{Kernel, Settings};
use lazy_world::LazyWorld;
use lwc_base::{OutOfMemory, Requests};
use lwc_io::{Files, Sink};
use lwc_text::{Schedule, report_of_schedule};
use lwcrun_inputs::Ending;
use std::alloc::Global;

/// Reads the image and the schedule of these names, and the requests of a serve, makes the schedule's
/// steps, and writes the report.
pub fn replay<'a, F: Files, O: Sink>(
    alloc: Global,
    files: &mut F,
    out: &mut O,
    image: &'a str,
    schedule: &'a str,
    requests: Option<&'a str>,
    settings: &Settings,
) -> Ending<'a>
    requires settings { AreReplaySettings requests settings.now }
    ensures ended { Ended IsText
        (outside (F.seen files.old) (F.seen files.new) (O.seen out.old) (O.seen out.new))
        (plan_by (replay_task works.Replaying image.now schedule.now (option_map (λ s. s.now) requests.entry)
        settings.now)) (end_of result) }
    ensures fetches { Fetched (AreFetchesOf (F.seen files.old).contents
        (plan_by (replay_task works.Replaying image.now schedule.now (option_map (λ s. s.now) requests.entry)
        settings.now)))
        (F.seen files.old).fetches (F.seen files.new).fetches }
{
    match replay_files(alloc, files, image, schedule, requests, settings) {
        Ok((image, schedule, requests)) => write_work(
            out,
            replay_text(alloc, &image, requests, &schedule, settings),
        ),
        Err(ending) => ending,
    }
}

/// The report of the schedule's steps.
fn replay_text(
    alloc: Global,
    image: &Image,
    requests: Requests,
    schedule: &Schedule,
    settings: &Settings,
) -> Result<Vec<u8>, OutOfMemory>
    requires can { CanOpen (inputs_of image.now requests settings.now) }
    requires threads { All (λ t. t < threads_for image.now settings.now.job) schedule.now }
    requires short { length schedule.now ≤ MOST_STEPS }
    ensures { IfOk result (λ text.
        text.items ≡ report_of_schedule (inputs_of image.now requests settings.now) schedule.now) }
{
    let kernel = kernel_for(alloc, image, requests, schedule, settings)?;
    report_of_schedule(alloc, kernel, schedule)
}

/// A kernel at the start, with room for just the steps of a schedule. The only error is out of memory.
fn kernel_for(
    alloc: Global,
    image: &Image,
    requests: Requests,
    schedule: &Schedule,
    settings: &Settings,
) -> Result<Kernel<LazyWorld>, OutOfMemory>
    requires can { CanOpen (inputs_of image.now requests settings.now) }
    requires short { length schedule.now ≤ MOST_STEPS }
    ensures { IfOk result (λ kernel.
        kernel ≡ opened (inputs_of image.now requests settings.now) (length schedule.now)) }
{
    let steps = schedule.len() as u32;
    match Kernel::open(alloc, image, requests, steps, settings) {
        Ok(kernel) => Ok(kernel),
        Err(_) => Err(OutOfMemory),
    }
}
