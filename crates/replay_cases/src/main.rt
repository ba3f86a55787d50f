//! Calls the program on stored lines, and prints what it writes. Replays, beside a monitor, a vault or a script too,
//! are also made over a world by whole copies, and plain ones by the public call `replay` alone; of a run or a serve
//! the printed steps are replayed.
//!
//! The input is a list of cases. Each begins with a line `# ` and what it shows. Then come lines of which the first
//! word says what they have: `line` the words after the program's name, once or more; `schedule` the schedule;
//! `requests` the requests of a serve, parted by blanks; `vault` a vault's entry and its pages; `script` the commands
//! of a script, parted by commas; `guest` the guest's bytes in place of a source; `cut` how many bytes of a guest that
//! is made are left, `head` and `tail` what it gets in front, in place of as many bytes, and behind; `empty` how many
//! empty requests there are; `fetch` and `write` the number of the one that fails; `most` how many bytes a write takes
//! at most; `hold` the thread that is held at its first turn, and the one that has to come for its second before, or
//! `line` for a line of the output; `each` what is gone through, `cut`, `write` or `fetch`; `show` what is printed of
//! the steps, `count`, `first` or `each`, or `turns`, how often threads came to the gate; `quiet` that what is written
//! is not printed. Every other line is one of the guest's source. The first file of a run or a serve is `guest`.
//!
//! The output has each title; where a case has several lines, the words of each behind `> `; what was written, bytes
//! with a zero in hexadecimal digits; the message; the status if it is not 0; and a sentence for each difference.
#![tactic(auto)]

mod calls;
mod case;
mod outside;
mod over_copies;
mod ranges;
mod showing;

use crate::calls::{Left, call, files_of, guest_of, status_in_memory, text_by_replay};
use crate::case::{Case, take_line};
use crate::outside::SURE;
use crate::over_copies::text_over_copies;
use crate::ranges::lines_of_range;
use crate::showing::{append_shown, append_steps, last_word};
use lwc_io::NamedFile;
use lwcrun_core::ExitStatus;
use std::alloc::{AllocError, Global};
use std::io;
use std::sync::Wait;
use std::thread::Threads;

/// The line of the replay of what a run or a serve of these words has printed.
fn replay_of(alloc: Global, words: &str) -> Result<Option<String>, AllocError> {
    match words.split_once(" guest") {
        Some(("run" | "serve", rest)) => {
            let mut line = String::from_str(alloc, "replay guest schedule")?;
            line.push_str(rest)?;
            Ok(Some(line))
        }
        _ => Ok(None),
    }
}

/// How a call that ended well differs from what other ways give, a line for each.
fn differences<R: AllocGlobal + Threads + Wait + Sync>(
    rt: &R,
    case: &Case,
    guest: &[u8],
    words: &str,
    left: &Left,
) -> Result<Vec<&'static str>, AllocError> {
    let alloc = rt.alloc();
    let mut found = Vec::new(alloc);
    if let Some(text) = text_over_copies(alloc, guest, case, words)? {
        if text.as_slice() != left.out.bytes() {
            found.push("over whole copies it differs")?;
        }
    }
    let files = files_of(alloc, case, guest, case.schedule.as_bytes())?;
    if let Some(text) = text_by_replay(alloc, words, files)? {
        if text.bytes() != left.out.bytes() {
            found.push("by replay alone it differs")?;
        }
    }
    if let Some(line) = replay_of(alloc, words)? {
        let files = files_of(alloc, case, guest, last_word(left.out.bytes()))?;
        if call(rt, line.as_str(), files, SURE)?.out.bytes() != left.out.bytes() {
            found.push("its replay differs")?;
        }
    }
    if words.starts_with("dis ") {
        let source = NamedFile::new(alloc, "source", left.out.bytes())?;
        let again = call(rt, "asm source", vec![in alloc; source]?, SURE)?;
        if again.out.bytes() != guest {
            found.push("its source makes another image")?;
        }
    }
    Ok(found)
}

/// The mode of a line.
fn mode_of(words: &str) -> &str {
    words.split(' ').next().unwrap_or("")
}

/// Whether threads came to the gate otherwise than before each turn that the report lists. The turns of a generated
/// serve, or of a call that ended in its middle, are not listed.
fn came_otherwise(words: &str, left: &Left) -> bool {
    match (mode_of(words), left.status) {
        ("run" | "serve" | "stream", ExitStatus::Ok) => {
            !left.visits.are_of(last_word(left.out.bytes()))
        }
        ("gen", ExitStatus::Ok) | (_, ExitStatus::WriteFault | ExitStatus::NoMemory) => {
            !left.visits.are_in_order()
        }
        _ => !left.visits.are_of(&[]),
    }
}

/// Whether several threads made the steps of what a line has written.
fn is_by_threads(words: &str, report: &[u8]) -> bool {
    matches!(mode_of(words), "run" | "serve" | "stream")
        && !last_word(report)
            .iter()
            .all(|digit| b" 0\n".contains(digit))
}

/// Whether the program ends otherwise over files that never fail, where neither a fetch nor a write has failed.
fn ends_otherwise<R: AllocGlobal + Threads + Wait + Sync>(
    rt: &R,
    case: &Case,
    guest: &[u8],
    words: &str,
    status: ExitStatus,
) -> Result<bool, AllocError> {
    if status == ExitStatus::ReadFault || status == ExitStatus::WriteFault {
        return Ok(false);
    }
    let files = files_of(rt.alloc(), case, guest, case.schedule.as_bytes())?;
    Ok(status_in_memory(rt, words, files)? != status)
}

/// Calls the program on one line of a case. The answer is the lines that are printed of it.
fn answer<R: AllocGlobal + Threads + Wait + Sync>(
    rt: &R,
    case: &Case,
    guest: &[u8],
    words: &str,
) -> Result<Vec<String>, AllocError> {
    let alloc = rt.alloc();
    if let Some(range) = case.range {
        return lines_of_range(rt, case, guest, words, range);
    }
    let files = files_of(alloc, case, guest, case.schedule.as_bytes())?;
    let left = call(rt, words, files, case.outside)?;
    let mut lines = Vec::new(alloc);
    if !case.is_quiet {
        let is_by_threads = is_by_threads(words, left.out.bytes());
        append_shown(alloc, &mut lines, left.out.bytes(), is_by_threads)?;
    }
    let turns = left.visits.total();
    append_steps(alloc, &mut lines, case, left.out.bytes(), turns)?;
    if left.has_run_out {
        lines.push(String::from_str(alloc, "the looks ran out")?)?;
    }
    if came_otherwise(words, &left) {
        lines.push(String::from_str(alloc, "threads came to the gate otherwise")?)?;
    }
    append_shown(alloc, &mut lines, left.err.bytes(), false)?;
    if left.status == ExitStatus::Ok {
        for difference in differences(rt, case, guest, words, &left)? {
            lines.push(String::from_str(alloc, difference)?)?;
        }
    } else {
        lines.push(format!(in alloc; "status {}", left.status.number())?)?;
    }
    if ends_otherwise(rt, case, guest, words, left.status)? {
        lines.push(String::from_str(alloc, "in memory it ends otherwise")?)?;
    }
    Ok(lines)
}

fn main(rt: HostRuntime) -> io::Result<()> {
    let mut cases = Vec::new(rt.alloc());
    for line in rt.lines(rt.alloc()) {
        take_line(rt.alloc(), &mut cases, line?.as_str())?;
    }
    for case in &cases {
        println!(rt; "# {}", case.title)?;
        let guest = guest_of(&rt, case)?;
        for words in &case.lines {
            if case.lines.len() > 1 {
                println!(rt; "> {words}")?;
            }
            for line in answer(&rt, case, &guest, words)? {
                println!(rt; "{line}")?;
            }
        }
    }
    Ok(())
}
