//! A line that is carried out over files in memory.

ghost use Rattle.std.specs.Prelude.{◌≡◌, ◌≢◌, [], Err, IfErr, IfOk, IfSome, map, string_bytes};
ghost use Rattle.memory_lines.specs.Lines.{IsOutcome};
ghost use Rattle.lwcrun_inputs.specs.Statuses.{message_of, status_of};
ghost use Rattle.lwcrun_line.specs.Lines.{RunsThreads, command_of};
ghost use Rattle.lwcrun_inputs.specs.Views.{end_of};

use crate::border::LineError;
use lwc_io::{MemoryFiles, MemorySink, NamedFile};
use lwcrun_core::{
    Ending, ExitStatus, LineFault, carry_out_without_threads, message_of, read_line, status_of,
};
use std::alloc::Global;

/// What came of a line: its exit status, what it wrote, and its message.
#[derive(Drop)]
pub struct Outcome {
    pub status: ExitStatus,
    pub output: Vec<u8>,
    pub message: String,
}

/// Carries out the line of these words, the program's name first, over files in memory. A name that no file has
/// cannot be read; where two files have one name, the first counts.
///
/// # Errors
///
/// `NeedsThreads` only where the line is one of `run`, `serve`, `gen` or `stream`, and nothing is done then; or out
/// of memory, also where the line itself ended so.
pub fn carry_out_line(
    alloc: Global,
    words: &[String],
    named: Vec<NamedFile>,
) -> Result<Outcome, LineError>
    ensures outcome { IfOk result (λ left. IsOutcome (map string_bytes words.now) named.items left.status
        left.output.items (string_bytes left.message)) }
    ensures memory { IfOk result (λ left. left.status ≢ ExitStatus.NoMemory) }
    ensures threads { result ≡ Err LineError.NeedsThreads
        → IfSome (command_of (map string_bytes words.now)) RunsThreads }
    ensures text { result ≢ Err LineError.NotText }
{
    let mut files = MemoryFiles::new(alloc, named, Vec::new(alloc))?;
    let mut out = MemorySink::new(alloc, usize::MAX, Vec::new(alloc));
    let line = match read_line(alloc, words) {
        Ok(line) => line,
        Err(LineFault::OutOfMemory) => return Err(LineError::OutOfMemory),
        Err(LineFault::Usage) => return outcome_of(alloc, &out, &Ending::Usage),
    };
    match carry_out_without_threads(alloc, &line, &mut files, &mut out) {
        Some(ending) => outcome_of(alloc, &out, &ending),
        None => Err(LineError::NeedsThreads),
    }
}

/// What came of a line that ended so, and wrote what this output has taken.
///
/// # Errors
///
/// Out of memory, also where the line ended so.
fn outcome_of(alloc: Global, out: &MemorySink, ending: &Ending<'_>) -> Result<Outcome, LineError>
    ensures status { IfOk result (λ left. left.status ≡ status_of (end_of ending.now)) }
    ensures output { IfOk result (λ left. left.output.items ≡ out.now.bytes) }
    ensures message { IfOk result (λ left. string_bytes left.message ≡ message_of (end_of ending.now)) }
    ensures memory { IfOk result (λ left. left.status ≢ ExitStatus.NoMemory) }
    ensures error { IfErr result (λ error. error ≡ LineError.OutOfMemory) }
{
    let status = status_of(ending);
    if status == ExitStatus::NoMemory {
        return Err(LineError::OutOfMemory);
    }
    let Ok(message) = message_of(alloc, ending) else {
        return Err(LineError::OutOfMemory);
    };
    Ok(Outcome {
        status,
        output: Vec::from_slice(alloc, out.bytes())?,
        message,
    })
}
