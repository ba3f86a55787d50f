//! What a caller passes, and what it takes.

ghost use Rattle.std.specs.Prelude.{◌≡◌, ◌≢◌, Err, IfOk, IfSome, map, string_bytes};
ghost use Rattle.lwcrun_inputs.specs.Statuses.{exit_number};
ghost use Rattle.lwcrun_inputs.specs.declared.status.ExitStatus.{ExitStatus};
ghost use Rattle.lwcrun_line.specs.Lines.{RunsThreads, command_of};
ghost use Rattle.memory_lines.specs.Border.{AreText, line_of, named};
ghost use Rattle.memory_lines.specs.Lines.{IsOutcome};

use crate::border::{Bytes, FileBytes, LineError, files_from, left_to_caller, words_from};
use crate::lines::{Outcome, carry_out_line};
use std::alloc::Global;

/// What came of a line. The caller has the bytes from now on.
#[repr(C)]
#[derive(Clone, Copy)]
pub struct Answer<'a> {
    pub output: &'a [u8],
    pub message: &'a [u8],
}

/// What came of a line of these words over these files.
///
/// # Errors
///
/// `NeedsThreads` only where the line runs threads, `NotText` only where a word or the name of a file is not UTF-8; or
/// out of memory, also where the line itself ended so.
pub fn outcome(
    alloc: Global,
    words: &[Bytes<'_>],
    files: &[FileBytes<'_>],
) -> Result<Outcome, LineError>
    ensures outcome { IfOk result (λ left. IsOutcome (line_of words.now) (map named files.now) left.status
        left.output.items (string_bytes left.message)) }
    ensures memory { IfOk result (λ left. left.status ≢ ExitStatus.NoMemory) }
    ensures threads { result ≡ Err LineError.NeedsThreads
        → IfSome (command_of (line_of words.now)) RunsThreads }
    ensures text { result ≡ Err LineError.NotText → AreText words.now files.now → ⊥ }
{
    let files = files_from(alloc, files)?;
    let words = words_from(alloc, words)?;
    carry_out_line(alloc, words.as_slice(), files)
}

/// Puts there what came of a line, and answers the number of its exit status.
pub fn put_answer(outcome: Outcome, answer: &mut Answer<'_>) -> u32
    ensures status { result ≡ exit_number outcome.status }
    ensures output { answer.new.output.now ≡ outcome.output.items }
    ensures message { answer.new.message.now ≡ string_bytes outcome.message }
{
    let Outcome {
        status,
        output,
        message,
    } = outcome;
    answer.output = left_to_caller(output);
    answer.message = left_to_caller(message.into_bytes());
    u32::from(status.number())
}
