ghost use Rattle.std.specs.Prelude.{None};
ghost use Rattle.lwcrun_inputs.specs.Ends.{Ended};
ghost use Rattle.lwcrun_core.specs.Works.{IsText, plan_by, replay_task};
ghost use Rattle.lwcrun_core.specs.Works as works;
ghost use Rattle.lwcrun_line.specs.Lines.{AreRunSettings};
ghost use Rattle.lwcrun_inputs.specs.Plans.{AreFetchesOf};
ghost use Rattle.lwcrun_inputs.specs.Reading.{Fetched};
ghost use Rattle.lwcrun_inputs.specs.Views.{end_of, outside};

use crate::gathering::replay_files;
use crate::writing::write_work;
use kernel_core::Settings;
use lazy_world::LazyWorld;
use lwc_guard::guard_replay;
use lwc_io::{Files, Sink};
use lwcrun_inputs::Ending;
use std::alloc::Global;

/// Reads the image and the schedule of these names, makes the schedule's steps, in which contexts may be
/// trapped and guarded, and writes the report.
pub fn guard<'a, F: Files, O: Sink>(
    alloc: Global,
    files: &mut F,
    out: &mut O,
    image: &'a str,
    schedule: &'a str,
    settings: &Settings,
) -> Ending<'a>
    requires settings { AreRunSettings settings.now }
    ensures ended { Ended IsText
        (outside (F.seen files.old) (F.seen files.new) (O.seen out.old) (O.seen out.new))
        (plan_by (replay_task works.Guarding image.now schedule.now None settings.now)) (end_of result) }
    ensures fetches { Fetched (AreFetchesOf (F.seen files.old).contents
        (plan_by (replay_task works.Guarding image.now schedule.now None settings.now)))
        (F.seen files.old).fetches (F.seen files.new).fetches }
{
    match replay_files(alloc, files, image, schedule, None, settings) {
        Ok((image, schedule, _)) => write_work(
            out,
            guard_replay::<LazyWorld>(alloc, &image, &schedule, settings),
        ),
        Err(ending) => ending,
    }
}
