ghost use Rattle.std.specs.Prelude.{◌≡◌, ◌≤◌, ◌<◌, [], All, IfOk, length};
ghost use Rattle.guest_image.specs.Limits.{IsImage};
ghost use Rattle.kernel_core.specs.Start.{inputs_of, threads_for};
ghost use Rattle.lwc_debug.specs.Transcript.{transcript_of_schedule};
ghost use Rattle.lwcrun_inputs.specs.Ends.{Ended};
ghost use Rattle.lwcrun_core.specs.Works.{IsText, plan_of};
ghost use Rattle.lwcrun_line.specs.Lines as commands;
ghost use Rattle.lwcrun_line.specs.Lines.{AreRunSettings};
ghost use Rattle.lwcrun_inputs.specs.Plans.{AreFetchesOf};
ghost use Rattle.lwcrun_inputs.specs.Reading.{Fetched};
ghost use Rattle.lwcrun_inputs.specs.Views.{end_of, outside};

use crate::gathering::debug_files;
use crate::writing::write_work;
use guest_image::Image;
use kernel_core::Settings;
use lazy_world::LazyWorld;
use lwc_base::OutOfMemory;
use lwc_debug::{Script, debug};
use lwc_io::{Files, Sink};
use lwc_text::Schedule;
use lwcrun_inputs::Ending;
use std::alloc::Global;

/// Reads the image, the schedule and the script of these names, and writes the answers to the script, each at
/// its place of the schedule's steps.
pub fn debug_run<'a, F: Files, O: Sink>(
    alloc: Global,
    files: &mut F,
    out: &mut O,
    image: &'a str,
    schedule: &'a str,
    script: &'a str,
    settings: &Settings,
) -> Ending<'a>
    requires settings { AreRunSettings settings.now }
    ensures ended { Ended IsText
        (outside (F.seen files.old) (F.seen files.new) (O.seen out.old) (O.seen out.new))
        (plan_of (commands.Debug image.now schedule.now script.now settings.now)) (end_of result) }
    ensures fetches { Fetched (AreFetchesOf (F.seen files.old).contents
        (plan_of (commands.Debug image.now schedule.now script.now settings.now)))
        (F.seen files.old).fetches (F.seen files.new).fetches }
{
    match debug_files(alloc, files, image, schedule, script, settings) {
        Ok((image, schedule, script)) => write_work(
            out,
            debug_text(alloc, &image, &schedule, &script, settings),
        ),
        Err(ending) => ending,
    }
}

/// The answers to the script.
fn debug_text(
    alloc: Global,
    image: &Image,
    schedule: &Schedule,
    script: &Script,
    settings: &Settings,
) -> Result<Vec<u8>, OutOfMemory>
    requires image { IsImage image.now }
    requires settings { AreRunSettings settings.now }
    requires threads { All (λ t. t < threads_for image.now settings.now.job) schedule.now }
    ensures { IfOk result (λ text. text.items
        ≡ transcript_of_schedule (inputs_of image.now [] settings.now) schedule.now script.now) }
{
    match debug::<LazyWorld>(alloc, image, schedule, script, settings) {
        Ok(text) => Ok(text),
        Err(_) => Err(OutOfMemory),
    }
}
