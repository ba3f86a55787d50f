//! The program's call over files in memory, and its public parts.

use crate::case::Case;
use crate::outside::{CaseGate, CountingSink, Outside, SURE, Visits};
use lwc_io::{MemoryFiles, MemorySink, NamedFile, OpenGate, SureFiles};
use lwcrun_core::{ExitStatus, Line, lwcrun, lwcrun_in_memory, read_line, replay};
use std::alloc::{AllocError, Global};
use std::sync::Wait;
use std::thread::Threads;

/// What a call has left: its status, what it wrote, its message, who came to the gate, and whether a thread that was
/// held looked until its looks ran out.
#[derive(Drop)]
pub struct Left {
    pub status: ExitStatus,
    pub out: MemorySink,
    pub err: MemorySink,
    pub visits: Visits,
    pub has_run_out: bool,
}

/// Calls the program on the words of a line over these files.
pub fn call<R: AllocGlobal + Threads + Wait + Sync>(
    rt: &R,
    words: &str,
    named: Vec<NamedFile>,
    outside: Outside,
) -> Result<Left, AllocError> {
    let alloc = rt.alloc();
    let line = line_of(alloc, words)?;
    let mut files = MemoryFiles::new(alloc, named, vec![in alloc; outside.fetch]?)?;
    let gate = CaseGate::new(alloc, outside.hold)?;
    let mut out = CountingSink {
        sink: MemorySink::new(alloc, outside.most, vec![in alloc; outside.write]?),
        lines: gate.lines(),
    };
    let mut err = MemorySink::new(alloc, 1 << 20, Vec::new(alloc));
    let status = lwcrun(
        rt,
        alloc,
        line.as_slice(),
        &mut files,
        &mut out,
        &mut err,
        &gate,
    );
    Ok(Left {
        status,
        out: out.sink,
        err,
        has_run_out: gate.has_run_out(),
        visits: gate.visits,
    })
}

/// How the program ends on the words of a line over files that never fail.
pub fn status_in_memory<R: AllocGlobal + Threads + Wait + Sync>(
    rt: &R,
    words: &str,
    named: Vec<NamedFile>,
) -> Result<ExitStatus, AllocError> {
    let alloc = rt.alloc();
    let line = line_of(alloc, words)?;
    let mut files = SureFiles::new(named);
    let mut err = MemorySink::new(alloc, 1 << 20, Vec::new(alloc));
    Ok(lwcrun_in_memory(rt, alloc, line.as_slice(), &mut files, &mut err, &OpenGate))
}

/// What a replay writes in a function that has no handle of the runtime, so that no thread starts and nobody waits,
/// or nothing if the line is not one of a replay.
pub fn text_by_replay(
    alloc: Global,
    words: &str,
    named: Vec<NamedFile>,
) -> Result<Option<MemorySink>, AllocError> {
    let mut files = MemoryFiles::new(alloc, named, Vec::new(alloc))?;
    let mut out = MemorySink::new(alloc, 1 << 20, Vec::new(alloc));
    match read_line(alloc, line_of(alloc, words)?.as_slice()) {
        Ok(
            Line::Replay {
                image,
                schedule,
                requests,
                settings,
            },
        ) => {
            let requests = requests.as_ref().map(|name| name.as_str());
            replay(
                alloc, &mut files, &mut out, &image, &schedule, requests, &settings,
            );
            Ok(Some(out))
        }
        _ => Ok(None),
    }
}

/// The words of a line, the program's name first. Two blanks make an empty word.
pub fn line_of(alloc: Global, words: &str) -> Result<Vec<String>, AllocError> {
    let mut line = Vec::new(alloc);
    line.push(String::from_str(alloc, "lwcrun")?)?;
    for word in words.split(' ') {
        line.push(String::from_str(alloc, word)?)?;
    }
    Ok(line)
}

/// The guest of a case: its bytes as they are given, or what the program writes for its source, cut off and with other
/// bytes in front and behind as the case says.
pub fn guest_of<R: AllocGlobal + Threads + Wait + Sync>(
    rt: &R,
    case: &Case,
) -> Result<Vec<u8>, AllocError> {
    let alloc = rt.alloc();
    match &case.guest {
        Some(guest) => Vec::from_slice(alloc, guest),
        None => {
            let source = NamedFile::new(alloc, "source", case.source.as_bytes())?;
            let left = call(rt, "asm source", vec![in alloc; source]?, SURE)?;
            changed(alloc, case, left.out.bytes())
        }
    }
}

/// A guest that is cut off, and has other bytes in front and behind, as the case says.
fn changed(alloc: Global, case: &Case, guest: &[u8]) -> Result<Vec<u8>, AllocError> {
    let mut bytes = Vec::from_slice(alloc, case.head.as_slice())?;
    let kept = guest.get(..case.cut).unwrap_or(guest);
    bytes.extend_from_slice(kept.get(case.head.len()..).unwrap_or(&[]))?;
    bytes.extend_from_slice(case.tail.as_slice())?;
    Ok(bytes)
}

/// The files of a case, with this guest and this schedule.
pub fn files_of(
    alloc: Global,
    case: &Case,
    guest: &[u8],
    schedule: &[u8],
) -> Result<Vec<NamedFile>, AllocError> {
    let mut files = Vec::new(alloc);
    for (name, bytes) in [
        ("guest", guest),
        ("schedule", schedule),
        ("source", case.source.as_bytes()),
        ("requests", case.requests.as_bytes()),
        ("vault", case.vault.as_slice()),
        ("script", case.script.as_bytes()),
    ] {
        files.push(NamedFile::new(alloc, name, bytes)?)?;
    }
    Ok(files)
}
