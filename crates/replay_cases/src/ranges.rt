//! Calls of one line that are gone through: over a guest that is cut off at each place, or with each write or each
//! fetch failing in turn, until a call ends well.

use crate::calls::{Left, call, files_of};
use crate::case::{Case, Range};
use crate::outside::SURE;
use crate::showing::append_shown;
use lwcrun_core::ExitStatus;
use std::alloc::AllocError;
use std::sync::Wait;
use std::thread::Threads;

/// The most calls that are made.
const MOST_CALLS: u64 = 1 << 16;

/// The lines that are printed of a range: the numbers of calls that left the same, and what they left, with N for the
/// number of the call.
pub fn lines_of_range<R: AllocGlobal + Threads + Wait + Sync>(
    rt: &R,
    case: &Case,
    guest: &[u8],
    words: &str,
    range: Range,
) -> Result<Vec<String>, AllocError> {
    let alloc = rt.alloc();
    let whole = call(
        rt,
        words,
        files_of(alloc, case, guest, case.schedule.as_bytes())?,
        SURE,
    )?;
    let mut lines = Vec::new(alloc);
    let mut from = 0;
    let mut same = String::new(alloc);
    for number in 0..MOST_CALLS {
        let left = call_at(rt, case, guest, words, range, number)?;
        let text = told(rt, &left, &whole, range, number)?;
        if text.as_str() != same.as_str() {
            append_group(rt, &mut lines, from, number, same.as_str())?;
            from = number;
            same = text;
        }
        if left.status == ExitStatus::Ok {
            append_group(rt, &mut lines, from, number + 1, same.as_str())?;
            return Ok(lines);
        }
    }
    lines.push(String::from_str(alloc, "no call ends well")?)?;
    Ok(lines)
}

/// The call of a number in a range.
fn call_at<R: AllocGlobal + Threads + Wait + Sync>(
    rt: &R,
    case: &Case,
    guest: &[u8],
    words: &str,
    range: Range,
    number: u64,
) -> Result<Left, AllocError> {
    let mut outside = SURE;
    let mut bytes = guest;
    match range {
        Range::Cut => bytes = guest.get(..number as usize).unwrap_or(guest),
        Range::Write => {
            outside.most = 1;
            outside.write = number;
        }
        Range::Fetch => outside.fetch = number,
    }
    let files = files_of(rt.alloc(), case, bytes, case.schedule.as_bytes())?;
    call(rt, words, files, outside)
}

/// What a call left, with N for its number: how much of the whole text, its message, and its status if that is not 0.
fn told<R: AllocGlobal>(
    rt: &R,
    left: &Left,
    whole: &Left,
    range: Range,
    number: u64,
) -> Result<String, AllocError> {
    let alloc = rt.alloc();
    let text = whole.out.bytes();
    let out = left.out.bytes();
    let mut lines = Vec::new(alloc);
    if out == text {
        lines.push(String::from_str(alloc, "the whole text")?)?;
    } else if range == Range::Write && text.starts_with(out) && out.len() as u64 == number {
        lines.push(String::from_str(alloc, "the first N bytes of the text")?)?;
    } else {
        append_shown(alloc, &mut lines, out, false)?;
    }
    let message = String::from_utf8_lossy(alloc, left.err.bytes())?;
    for line in message.lines() {
        match line.rsplit_once(" at ") {
            Some((start, at)) if at.parse::<u64>() == Ok(number) => {
                lines.push(format!(in alloc; "{start} at N")?)?;
            }
            _ => lines.push(String::from_str(alloc, line)?)?,
        }
    }
    if left.status != ExitStatus::Ok {
        lines.push(format!(in alloc; "status {}", left.status.number())?)?;
    }
    let mut all = String::new(alloc);
    for line in &lines {
        all.push_str(line.as_str())?;
        all.push_str("\n")?;
    }
    Ok(all)
}

/// Appends the numbers of calls that left the same, from one up to and without another, and what they left.
fn append_group<R: AllocGlobal>(
    rt: &R,
    lines: &mut Vec<String>,
    from: u64,
    to: u64,
    same: &str,
) -> Result<(), AllocError> {
    let alloc = rt.alloc();
    if from < to {
        lines.push(format!(in alloc; "{from} to {}:", to - 1)?)?;
        for line in same.lines() {
            lines.push(String::from_str(alloc, line)?)?;
        }
    }
    Ok(())
}
