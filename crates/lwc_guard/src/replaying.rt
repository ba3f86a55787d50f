ghost use Rattle.std.specs.Prelude.{◌≡◌, ◌<◌, ◌≤◌, [], All, IfOk, OnOk, length};
ghost use Rattle.kernel_core.specs.Kernel.{CanOpen};
ghost use Rattle.kernel_core.specs.Start.{inputs_of, thread_count};
ghost use Rattle.lwc_types.specs.declared.limits.TheConstants.{MOST_STEPS};
ghost use Rattle.lwc_guard.specs.Reports.{begun, guarded_text};
ghost use Rattle.lwc_guard.specs.Steps.{kept_guarded};

use crate::guarded::Guarded;
use guest_image::Image;
use kernel_core::{Job, Settings};
use lwc_base::OutOfMemory;
use lwc_text::Schedule;
use std::alloc::Global;
use world_face::World;

/// The report of a schedule's steps under guards, from the start of an image on. The only error is out of
/// memory.
#[tactic(auto, unfolding(crate::specs::Reports::guarded_text))]
pub fn guard_replay<W: World>(
    alloc: Global,
    image: &Image,
    schedule: &Schedule,
    settings: &Settings,
) -> Result<Vec<u8>, OutOfMemory>
    requires can { CanOpen (inputs_of image.now [] settings.now) }
    requires run { settings.now.job ≡ Job.Run }
    requires threads { All (λ t. t < length image.now.entries) schedule.now }
    requires short { length schedule.now ≤ MOST_STEPS }
    ensures { IfOk result (λ text.
        text.items ≡ guarded_text (inputs_of image.now [] settings.now) schedule.now) }
{
    let steps = schedule.len() as u32;
    match Guarded::<W>::open(alloc, image, steps, settings) {
        Ok(mut run) => {
            make_steps(&mut run, schedule)?;
            run.report(alloc)
        }
        Err(_) => Err(OutOfMemory),
    }
}

/// Makes the steps of the schedule, one after another.
fn make_steps<W: World>(run: &mut Guarded<W>, schedule: &Schedule) -> Result<(), OutOfMemory>
    requires fresh { run.old.steps ≡ [] }
    requires room { run.old.room ≡ length schedule.now }
    requires threads { All (λ t. t < thread_count run.old.inputs) schedule.now }
    ensures inputs { OnOk result (run.new.inputs ≡ run.old.inputs) }
    ensures steps { OnOk result (run.new.steps ≡ kept_guarded (begun run.old.inputs) schedule.now) }
{
    for i in 0..schedule.len() {
        run.step(u32::from(*schedule.get(i)))?;
    }
    Ok(())
}
