//! What a call wrote, as it is printed.

use crate::case::Case;
use crate::outside::DIGITS;
use std::alloc::{AllocError, Global};

/// The longest line that is printed whole.
const WHOLE_LINE: usize = 240;

/// How many bytes of a longer one are printed, before its length.
const LINE_START: usize = 60;

/// The fewest zero bytes in a row that are printed as a number of them.
const MANY_ZEROS: usize = 64;

/// Appends the lines of bytes as they are printed: those of a text, or else one of their hexadecimal digits. Where
/// several threads made the steps, the lines from `peak` on are left out, since they tell which thread came first.
pub fn append_shown(
    alloc: Global,
    lines: &mut Vec<String>,
    bytes: &[u8],
    is_by_threads: bool,
) -> Result<(), AllocError> {
    let text = if bytes.contains(&0) {
        digits_of(alloc, bytes)?
    } else {
        String::from_utf8_lossy(alloc, bytes)?
    };
    for line in text.lines() {
        if is_by_threads && line.starts_with("peak ") {
            break;
        }
        lines.push(shown(alloc, line)?)?;
    }
    Ok(())
}

/// A line as it is printed: the beginning of a long one, and its length.
fn shown(alloc: Global, line: &str) -> Result<String, AllocError> {
    match line.get(..LINE_START) {
        Some(start) if WHOLE_LINE < line.len() => format!(in alloc; "{start} .. {}", line.len()),
        _ => String::from_str(alloc, line),
    }
}

/// The hexadecimal digits of bytes, with the number of zero bytes in place of many in a row.
fn digits_of(alloc: Global, bytes: &[u8]) -> Result<String, AllocError> {
    let mut digits = String::new(alloc);
    for run in bytes.chunk_by(|left, right| (*left == 0) == (*right == 0)) {
        if run.first() == Some(&0) && MANY_ZEROS <= run.len() {
            digits.push_str(format!(in alloc; "({} zeros)", run.len())?.as_str())?;
        } else {
            digits.push_str(hex::encode(alloc, run)?.as_str())?;
        }
    }
    Ok(digits)
}

/// Appends what a case shows of the steps that a report lists: how many there are, the first digit, and how many
/// digits each thread has; and at how many turns threads came to the gate.
pub fn append_steps(
    alloc: Global,
    lines: &mut Vec<String>,
    case: &Case,
    report: &[u8],
    turns: u64,
) -> Result<(), AllocError> {
    let digits = last_word(report).trim_ascii();
    if case.shows_count {
        lines.push(format!(in alloc; "steps {}", digits.len())?)?;
    }
    if case.shows_first {
        let first = digits.get(..1).unwrap_or(&[]);
        lines.push(format!(in alloc; "first {}", String::from_utf8_lossy(alloc, first)?)?)?;
    }
    if case.shows_each {
        let mut line = String::from_str(alloc, "each")?;
        for thread in DIGITS {
            let count = digits.iter().filter(|digit| *digit == thread).count();
            line.push_str(format!(in alloc; " {count}")?.as_str())?;
        }
        lines.push(line)?;
    }
    if case.shows_turns {
        lines.push(format!(in alloc; "turns {turns}")?)?;
    }
    Ok(())
}

/// The last word of a text, with the blank before it, which a schedule may have.
pub fn last_word(text: &[u8]) -> &[u8] {
    match text.iter().rposition(|byte| *byte == b' ') {
        Some(at) => text.get(at..).unwrap_or(&[]),
        None => &[],
    }
}
