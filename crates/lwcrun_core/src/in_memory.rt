ghost use Rattle.std.specs.Prelude.{◌≡◌, None, Some, map, string_bytes};
ghost use Rattle.lwcrun_core.specs.Calls.{Answers, FetchesPlan, IsOrNoMemory, status_by};
ghost use Rattle.lwcrun_core.specs.Headlines.{IsRunnable};
ghost use Rattle.lwcrun_core.specs.InMemory.{contents, files_view, unseen};
ghost use Rattle.lwcrun_line.specs.Lines.{Command, command_of};
ghost use Rattle.lwcrun_inputs.specs.Plans.{outcome};
ghost use Rattle.lwcrun_inputs.specs.Views.{outside};
ghost use Rattle.lwcrun_core.specs.Works.{plan_of};

use crate::call::lwcrun;
use lwc_io::{Gate, Sink, SureFiles, SureSink};
use lwcrun_inputs::ExitStatus;
use std::alloc::Global;
use std::sync::Wait;
use std::thread::Threads;

/// What the program does over files in memory, none of which fails, and an output that takes all it is given. A
/// name that was not given is an empty file. The exit status is `Usage` for a line that is not accepted, and that
/// of where the command's plan leads for another one: so `Ok` for inputs in their grammars and limits. `NoMemory`
/// may come in place of each. `outcome` is that of `lwcrun`: it says what is written to `err`.
pub fn lwcrun_in_memory<R: Threads + Wait + Sync, E: Sink, G: Gate>(
    rt: &R,
    alloc: Global,
    words: &[String],
    files: &mut SureFiles,
    err: &mut E,
    gate: &G,
) -> ExitStatus
    ensures outcome { Answers (outside (files_view files.old) (files_view files.new) unseen unseen)
        (command_of (map string_bytes words.now)) result (E.seen err.old) (E.seen err.new) }
    ensures usage { command_of (map string_bytes words.now) ≡ None → IsOrNoMemory result ExitStatus.Usage }
    ensures ends { (command : Command) → command_of (map string_bytes words.now) ≡ Some command
        → IsOrNoMemory result (status_by (outcome (contents files.old.files) (plan_of command))) }
    ensures complete { (command : Command) → command_of (map string_bytes words.now) ≡ Some command
        → IsRunnable command (contents files.old.files) → IsOrNoMemory result ExitStatus.Ok }
    ensures fetches { FetchesPlan (command_of (map string_bytes words.now))
        (files_view files.old) (files_view files.new) }
{
    lwcrun(rt, alloc, words, files, &mut SureSink, err, gate)
}
