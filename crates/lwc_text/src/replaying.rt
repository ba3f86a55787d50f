//! The report of a schedule's steps.

ghost use Rattle.std.specs.Prelude.{◌≡◌, ◌<◌, ◌≤◌, [], All, IfOk, OnErr, OnOk, length};
ghost use Rattle.kernel_core.specs.Runs.{kept};
ghost use Rattle.kernel_core.specs.Start.{start, thread_count};
ghost use Rattle.lwc_text.specs.Report.{IsOfSome, report_of_schedule};

use crate::reporting::report;
use crate::schedule::Schedule;
use kernel_core::Kernel;
use lwc_base::OutOfMemory;
use std::alloc::Global;
use world_face::World;

/// The report of a schedule's steps from a kernel's start. The only error is out of memory.
pub fn report_of_schedule<W: World>(
    alloc: Global,
    mut kernel: Kernel<W>,
    schedule: &Schedule,
) -> Result<Vec<u8>, OutOfMemory>
    requires fresh { kernel.steps ≡ [] }
    requires room { length schedule.now ≤ kernel.room }
    requires threads { All (λ t. t < thread_count kernel.inputs) schedule.now }
    ensures { IfOk result (λ text. text.items ≡ report_of_schedule kernel.inputs schedule.now) }
{
    make_steps(&mut kernel, schedule)?;
    let text = report(alloc, &kernel)?;
    Ok(text)
}

/// Makes the steps of the schedule, one after another, and keeps those of threads that had not ended. The
/// only error is out of memory, and the kernel is then where some of the first steps lead.
pub fn make_steps<W: World>(kernel: &mut Kernel<W>, schedule: &Schedule) -> Result<(), OutOfMemory>
    requires fresh { kernel.old.steps ≡ [] }
    requires room { length schedule.now ≤ kernel.old.room }
    requires threads { All (λ t. t < thread_count kernel.old.inputs) schedule.now }
    ensures inputs { kernel.new.inputs ≡ kernel.old.inputs }
    ensures steps { OnOk result (kernel.new.steps ≡ kept (start kernel.old.inputs) schedule.now) }
    ensures err { OnErr result (IsOfSome (start kernel.old.inputs) schedule.now kernel.new.steps) }
{
    for i in 0..schedule.len() {
        kernel.make_step(u32::from(*schedule.get(i)), None)?;
    }
    Ok(())
}
