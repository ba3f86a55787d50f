ghost use Rattle.std.specs.Prelude.{◌≡◌, ◌≢◌, ◌⊎◌, ℕ, List, None, Some, map, string_bytes};
ghost use Rattle.lwcrun_inputs.specs.declared.ending.Rejection.{Rejection};
ghost use Rattle.lwcrun_core.specs.Calls.{Answers, AreContents, CommandEnded, FetchesNamed, FetchesPlan};
ghost use Rattle.lwcrun_core.specs.Calls.{FileFailed, IsOrNoMemory, IsRejected};
ghost use Rattle.lwcrun_core.specs.Headlines.{Headline, IsRunnable};
ghost use Rattle.lwcrun_core.specs.Calls.{IsUndisturbed, WroteOnlyReplies, status_by};
ghost use Rattle.lwcrun_inputs.specs.Ends as ends;
ghost use Rattle.lwcrun_inputs.specs.Ends.{IsUnwritten, NothingFailed, WriteFailed};
ghost use Rattle.lwcrun_core.specs.Works.{plan_of};
ghost use Rattle.lwcrun_line.specs.Lines.{Command, IsWithinLimits, asked_by, command_of};
ghost use Rattle.lwcrun_inputs.specs.Plans.{AreFetchesOf, outcome};
ghost use Rattle.lwcrun_inputs.specs.Reading.{Fetched};
ghost use Rattle.lwcrun_inputs.specs.Statuses.{status_of_rejection};
ghost use Rattle.lwcrun_inputs.specs.Views.{end_of, outside};

use crate::carrying::carry_out_without_threads;
use crate::running::{run, serve, serve_generated};
use crate::streaming::stream;
use lwc_io::{Files, Gate, Sink};
use lwcrun_inputs::{Ending, ExitStatus, write_message};
use lwcrun_line::{Line, LineFault, read_line};
use std::alloc::Global;
use std::sync::Wait;
use std::thread::Threads;

/// What the program does: it reads the line, the program's name first, reads the files that the line
/// names in their order, tests each before the next, runs or makes what is asked for, and writes it to
/// `out`. If it does not come to that, it writes why in one line to `err`; a fault of `err` changes
/// nothing. The result is the exit status. Threads are started, and come to the gate, for `run`, `serve`, `gen`
/// and `stream` alone: the other modes are carried out in functions that have no handle of the runtime.
///
/// `outcome` is the whole table: how the call ended, what holds then, and the message on `err`. `fetches` stands beside
/// it, and the other clauses follow from these two, each a promise by itself. `NoMemory` may always come, and then
/// nothing was written, or, by a stream, all lines of replies.
pub fn lwcrun<R: Threads + Wait + Sync, F: Files, O: Sink, E: Sink, G: Gate>(
    rt: &R,
    alloc: Global,
    words: &[String],
    files: &mut F,
    out: &mut O,
    err: &mut E,
    gate: &G,
) -> ExitStatus

    // How the call ended, what holds then, and its message.
    ensures outcome { Answers
        (outside (F.seen files.old) (F.seen files.new) (O.seen out.old) (O.seen out.new))
        (command_of (map string_bytes words.now)) result (E.seen err.old) (E.seen err.new) }

    // What was written at status 0, over known files: the report of the steps that are kept of the schedule, or
    // that the threads made; the lines of such a report, those of replies first; the answers to a script; an
    // image, one that was lifted too, or a source; the summary of a generated serve. Of these steps each is
    // confined, and so is a closed context over any number of them; under traps each is the kernel's own or
    // leaves others as they were; with enough frames each reply is its request's alone; other vaults that hand
    // out the same print the same.
    ensures headline { (command : Command) (bytes : List ℕ → List ℕ) → result ≡ ExitStatus.Ok
        → command_of (map string_bytes words.now) ≡ Some command
        → AreContents (F.seen files.old).contents command bytes
        → Headline (outside (F.seen files.old) (F.seen files.new) (O.seen out.old) (O.seen out.new))
        command bytes }

    // Usage comes exactly where the line is not accepted, if memory does not run out.
    ensures usage_only { result ≡ ExitStatus.Usage → command_of (map string_bytes words.now) ≡ None }
    ensures usage { command_of (map string_bytes words.now) ≡ None → IsOrNoMemory result ExitStatus.Usage }

    // A read or a write fault comes only where one fetch of a file of the line, or one write, failed.
    ensures read_fault { result ≡ ExitStatus.ReadFault → FileFailed (command_of (map string_bytes words.now))
        (outside (F.seen files.old) (F.seen files.new) (O.seen out.old) (O.seen out.new)) }
    ensures write_fault { result ≡ ExitStatus.WriteFault → WriteFailed
        (outside (F.seen files.old) (F.seen files.new) (O.seen out.old) (O.seen out.new)) }

    // Over known files, a refusal comes only where the plan leads to it.
    ensures refused { (command : Command) (bytes : List ℕ → List ℕ) (rejection : Rejection)
        → command_of (map string_bytes words.now) ≡ Some command
        → AreContents (F.seen files.old).contents command bytes
        → result ≡ status_of_rejection rejection → IsRejected command bytes result }

    // Over known files, where nothing failed, the call ends as its plan does, if memory does not run out.
    ensures ends { (command : Command) (bytes : List ℕ → List ℕ)
        → command_of (map string_bytes words.now) ≡ Some command
        → IsUndisturbed (outside (F.seen files.old) (F.seen files.new) (O.seen out.old) (O.seen out.new))
        command bytes
        → IsOrNoMemory result (status_by (outcome bytes (plan_of command))) }

    // So files in their grammars and limits are run, where nothing failed, if memory does not run out.
    ensures complete { (command : Command) (bytes : List ℕ → List ℕ)
        → command_of (map string_bytes words.now) ≡ Some command
        → IsUndisturbed (outside (F.seen files.old) (F.seen files.new) (O.seen out.old) (O.seen out.new))
        command bytes
        → IsRunnable command bytes → IsOrNoMemory result ExitStatus.Ok }

    // Nothing is written with any other status, but that memory may run out behind the replies of a stream.
    ensures nothing { result ≢ ExitStatus.Ok → result ≢ ExitStatus.WriteFault → IsUnwritten
        (outside (F.seen files.old) (F.seen files.new) (O.seen out.old) (O.seen out.new))
        ⊎ ((result ≡ ExitStatus.NoMemory) × WroteOnlyReplies
        (outside (F.seen files.old) (F.seen files.new) (O.seen out.old) (O.seen out.new))
        (command_of (map string_bytes words.now))) }

    // With status 0, 2, 5, 6 or 7 nothing failed.
    ensures no_fault { result ≢ ExitStatus.NoMemory → result ≢ ExitStatus.ReadFault
        → result ≢ ExitStatus.WriteFault → NothingFailed
        (outside (F.seen files.old) (F.seen files.new) (O.seen out.old) (O.seen out.new)) }

    // No file is fetched to which the plan does not come. Each is read onward, no further than one byte past
    // its limit, and to its end before the next one. Nothing is fetched after a fetch that failed.
    ensures fetches { FetchesPlan (command_of (map string_bytes words.now))
        (F.seen files.old) (F.seen files.new) }

    // So no file but those of the line is fetched.
    ensures no_other_file { FetchesNamed (command_of (map string_bytes words.now))
        (F.seen files.old) (F.seen files.new) }
{
    answer(rt, alloc, words, files, out, err, gate)
}

/// Reads the line, does what it asks for, and writes the message of how that ended.
fn answer<R: Threads + Wait + Sync, F: Files, O: Sink, E: Sink, G: Gate>(
    rt: &R,
    alloc: Global,
    words: &[String],
    files: &mut F,
    out: &mut O,
    err: &mut E,
    gate: &G,
) -> ExitStatus
    ensures answers { Answers
        (outside (F.seen files.old) (F.seen files.new) (O.seen out.old) (O.seen out.new))
        (command_of (map string_bytes words.now)) result (E.seen err.old) (E.seen err.new) }
    ensures fetches { FetchesPlan (command_of (map string_bytes words.now))
        (F.seen files.old) (F.seen files.new) }
{
    let line = match read_line(alloc, words) {
        Ok(line) => line,
        Err(fault) => return write_message(alloc, err, &fault_ending(fault)),
    };
    let ending = carry_out(rt, alloc, &line, files, out, gate);
    write_message(alloc, err, &ending)
}

/// The end of a call whose line was not read.
fn fault_ending<'a>(fault: LineFault) -> Ending<'a>
    ensures { (end_of result ≡ ends.NoMemory) ⊎ ((fault ≡ LineFault.Usage) × (end_of result ≡ ends.Usage)) }
{
    match fault {
        LineFault::OutOfMemory => Ending::NoMemory,
        LineFault::Usage => Ending::Usage,
    }
}

/// Does what a line asks for.
fn carry_out<'a, R: Threads + Wait + Sync, F: Files, O: Sink, G: Gate>(
    rt: &R,
    alloc: Global,
    line: &'a Line,
    files: &mut F,
    out: &mut O,
    gate: &G,
) -> Ending<'a>
    requires limits { IsWithinLimits (asked_by line.now) }
    ensures ended { CommandEnded
        (outside (F.seen files.old) (F.seen files.new) (O.seen out.old) (O.seen out.new))
        (asked_by line.now) (end_of result) }
    ensures fetches { Fetched (AreFetchesOf (F.seen files.old).contents (plan_of (asked_by line.now)))
        (F.seen files.old).fetches (F.seen files.new).fetches }
{
    match line {
        Line::Run { image, settings } => run(rt, alloc, files, out, gate, image, settings),
        Line::Serve {
            image,
            requests,
            settings,
        } => serve(rt, alloc, files, out, gate, image, requests, settings),
        Line::Gen { number } => serve_generated(rt, alloc, out, gate, *number),
        Line::Stream {
            image,
            requests,
            settings,
        } => stream(rt, alloc, files, out, gate, image, requests, settings),
        Line::Replay { .. }
        | Line::Asm { .. }
        | Line::Dis { .. }
        | Line::Lift { .. }
        | Line::Monitor { .. }
        | Line::Guard { .. }
        | Line::Vault { .. }
        | Line::Debug { .. } => match carry_out_without_threads(alloc, line, files, out) {
            Some(ending) => ending,
            None => unreachable!(),
        },
    }
}
