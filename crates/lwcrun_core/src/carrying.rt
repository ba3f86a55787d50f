ghost use Rattle.std.specs.Prelude.{IfNone, IfSome, OnSome};
ghost use Rattle.lwcrun_line.specs.Lines.{IsWithinLimits, RunsThreads, asked_by};
ghost use Rattle.lwcrun_inputs.specs.Ends.{Ended};
ghost use Rattle.lwcrun_inputs.specs.Plans.{AreFetchesOf};
ghost use Rattle.lwcrun_inputs.specs.Reading.{Fetched};
ghost use Rattle.lwcrun_inputs.specs.Views.{end_of, outside};
ghost use Rattle.lwcrun_core.specs.Works.{IsText, plan_of};

use crate::debugging::debug_run;
use crate::guarding::guard;
use crate::monitoring::monitor;
use crate::replaying::replay;
use crate::sources::{asm, dis, lift};
use crate::vaulting::replay_with_vault;
use lwc_io::{Files, Sink};
use lwcrun_inputs::Ending;
use lwcrun_line::Line;
use std::alloc::Global;

/// Does what a line asks for, unless it runs threads.
pub fn carry_out_without_threads<'a, F: Files, O: Sink>(
    alloc: Global,
    line: &'a Line,
    files: &mut F,
    out: &mut O,
) -> Option<Ending<'a>>
    requires limits { IsWithinLimits (asked_by line.now) }
    ensures ended { IfSome result (λ ending. Ended IsText
        (outside (F.seen files.old) (F.seen files.new) (O.seen out.old) (O.seen out.new))
        (plan_of (asked_by line.entry.now)) (end_of ending)) }
    ensures fetches { OnSome result (Fetched
        (AreFetchesOf (F.seen files.old).contents (plan_of (asked_by line.entry.now)))
        (F.seen files.old).fetches (F.seen files.new).fetches) }
    ensures threads { IfNone result (RunsThreads (asked_by line.entry.now)) }
{
    match line {
        Line::Replay {
            image,
            schedule,
            requests: None,
            settings,
        } => Some(replay(alloc, files, out, image, schedule, None, settings)),
        Line::Replay {
            image,
            schedule,
            requests: Some(requests),
            settings,
        } => Some(replay(
            alloc,
            files,
            out,
            image,
            schedule,
            Some(requests.as_str()),
            settings,
        )),
        Line::Asm { source } => Some(asm(alloc, files, out, source)),
        Line::Dis { image } => Some(dis(alloc, files, out, image)),
        Line::Lift { image } => Some(lift(alloc, files, out, image)),
        Line::Monitor {
            image,
            schedule,
            settings,
        } => Some(monitor(alloc, files, out, image, schedule, settings)),
        Line::Guard {
            image,
            schedule,
            settings,
        } => Some(guard(alloc, files, out, image, schedule, settings)),
        Line::Vault {
            image,
            vault,
            schedule,
            settings,
        } => Some(replay_with_vault(alloc, files, out, image, vault, schedule, settings)),
        Line::Debug {
            image,
            schedule,
            script,
            settings,
        } => Some(debug_run(alloc, files, out, image, schedule, script, settings)),
        Line::Run { .. } | Line::Serve { .. } | Line::Gen { .. } | Line::Stream { .. } => None,
    }
}
