ghost use Rattle.std.specs.Prelude.{◌≡◌, ◌≤◌, ◌<◌, ◌+◌, [], All, IfOk, length};
ghost use Rattle.guest_image.specs.Limits.{IsImage};
ghost use Rattle.kernel_core.specs.Kernel.{CanKeep};
ghost use Rattle.kernel_core.specs.Start.{inputs_of, threads_for};
ghost use Rattle.lwc_types.specs.declared.limits.TheConstants.{MOST_STEPS};
ghost use Rattle.lwc_text.specs.Report.{report_of_schedule};
ghost use Rattle.lwc_vault.specs.Secrets.{beside};
ghost use Rattle.lwcrun_inputs.specs.Ends.{Ended};
ghost use Rattle.lwcrun_core.specs.Works.{IsText, plan_of};
ghost use Rattle.lwcrun_line.specs.Lines as commands;
ghost use Rattle.lwcrun_line.specs.Lines.{AreRunSettings};
ghost use Rattle.lwcrun_inputs.specs.Plans.{AreFetchesOf};
ghost use Rattle.lwcrun_inputs.specs.Reading.{Fetched};
ghost use Rattle.lwcrun_inputs.specs.Views.{end_of, outside};

use crate::gathering::vault_files;
use crate::writing::write_work;
use guest_image::{Image, Vault};
use kernel_core::Settings;
use lazy_world::LazyWorld;
use lwc_base::OutOfMemory;
use lwc_io::{Files, Sink};
use lwc_text::Schedule;
use lwc_vault::vault_replay;
use lwcrun_inputs::Ending;
use std::alloc::Global;

/// Reads the image, the vault and the schedule of these names, makes the schedule's steps in a run beside the
/// vault, and writes the report.
pub fn replay_with_vault<'a, F: Files, O: Sink>(
    alloc: Global,
    files: &mut F,
    out: &mut O,
    image: &'a str,
    vault: &'a str,
    schedule: &'a str,
    settings: &Settings,
) -> Ending<'a>
    requires settings { AreRunSettings settings.now }
    ensures ended { Ended IsText
        (outside (F.seen files.old) (F.seen files.new) (O.seen out.old) (O.seen out.new))
        (plan_of (commands.Vault image.now vault.now schedule.now settings.now)) (end_of result) }
    ensures fetches { Fetched (AreFetchesOf (F.seen files.old).contents
        (plan_of (commands.Vault image.now vault.now schedule.now settings.now)))
        (F.seen files.old).fetches (F.seen files.new).fetches }
{
    match vault_files(alloc, files, image, vault, schedule, settings) {
        Ok((image, vault, schedule)) => write_work(
            out,
            vault_text(alloc, &image, &vault, &schedule, settings),
        ),
        Err(ending) => ending,
    }
}

/// The report of the schedule's steps beside the vault.
fn vault_text(
    alloc: Global,
    image: &Image,
    vault: &Vault,
    schedule: &Schedule,
    settings: &Settings,
) -> Result<Vec<u8>, OutOfMemory>
    requires image { IsImage image.now }
    requires vault { CanKeep image.now settings.now.job vault.now }
    requires settings { AreRunSettings settings.now }
    requires threads { All (λ t. t < threads_for image.now settings.now.job) schedule.now }
    requires short { length schedule.now ≤ MOST_STEPS }
    ensures { IfOk result (λ text.
        text.items ≡ report_of_schedule
        (beside (inputs_of image.now [] settings.now) vault.now) schedule.now) }
{
    match vault_replay::<LazyWorld>(alloc, image, vault, schedule, settings) {
        Ok(text) => Ok(text),
        Err(_) => Err(OutOfMemory),
    }
}
