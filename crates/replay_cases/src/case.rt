//! Stored cases, as they are read.

use crate::outside::{Hold, Outside, SURE};
use std::alloc::Global;
use std::io;

/// What is gone through, one call after another, from 0 on until a call ends well: how many bytes of the
/// guest there are, which write of one byte fails, or which fetch does.
#[derive(Clone, Copy, PartialEq, Eq)]
pub enum Range {
    Cut,
    Write,
    Fetch,
}

/// Lines that are called over the same files: what they show, the words after the program's name of each, the
/// schedule, the file of requests, the vault's file, the script, the source of the guest, the guest itself where it
/// is not made from the source, where a guest that is made is cut off and what it gets in front and behind, how the
/// outside behaves, what is gone through, whether what is written is not printed, and whether it is printed of the
/// steps how many there are, by whom the first one is made, how many each thread makes, and how often threads came to
/// the gate.
#[derive(Drop)]
pub struct Case {
    pub title: String,
    pub lines: Vec<String>,
    pub schedule: String,
    pub requests: String,
    pub vault: Vec<u8>,
    pub script: String,
    pub source: String,
    pub guest: Option<Vec<u8>>,
    pub cut: usize,
    pub head: Vec<u8>,
    pub tail: Vec<u8>,
    pub outside: Outside,
    pub range: Option<Range>,
    pub is_quiet: bool,
    pub shows_count: bool,
    pub shows_first: bool,
    pub shows_each: bool,
    pub shows_turns: bool,
}

impl Case {
    /// A case of this title that has nothing else yet.
    fn new(alloc: Global, title: &str) -> io::Result<Case> {
        Ok(Case {
            title: String::from_str(alloc, title)?,
            lines: Vec::new(alloc),
            schedule: String::new(alloc),
            requests: String::new(alloc),
            vault: Vec::new(alloc),
            script: String::new(alloc),
            source: String::new(alloc),
            guest: None,
            cut: usize::MAX,
            head: Vec::new(alloc),
            tail: Vec::new(alloc),
            outside: SURE,
            range: None,
            is_quiet: false,
            shows_count: false,
            shows_first: false,
            shows_each: false,
            shows_turns: false,
        })
    }

    /// Takes one more line of the input: what its first word names, or else a line of the source.
    fn take(&mut self, alloc: Global, line: &str) -> io::Result<()> {
        let (word, rest) = line.split_once(' ').unwrap_or((line, ""));
        match word {
            "line" => self.lines.push(String::from_str(alloc, rest)?)?,
            "schedule" => append_text(&mut self.schedule, rest)?,
            "zeros" => append_zeros(&mut self.schedule, number_in(rest))?,
            "requests" => append_parts(&mut self.requests, rest, " ")?,
            "vault" => self.vault = vault_bytes(alloc, rest)?,
            "script" => append_parts(&mut self.script, rest, ", ")?,
            "empty" => append_empty(&mut self.requests, number_in(rest))?,
            "guest" => self.guest = Some(bytes_in(alloc, rest)),
            "cut" => self.cut = number_in(rest) as usize,
            "head" => self.head = bytes_in(alloc, rest),
            "tail" => self.tail = bytes_in(alloc, rest),
            "fetch" => self.outside.fetch = number_in(rest),
            "most" => self.outside.most = number_in(rest) as usize,
            "write" => self.outside.write = number_in(rest),
            "hold" => self.outside.hold = Some(hold_in(rest)),
            "each" => self.range = range_in(rest),
            "show" => self.show(rest),
            "quiet" => self.is_quiet = true,
            _ => append_parts(&mut self.source, line, "\n")?,
        }
        Ok(())
    }

    /// Takes what is to be printed of the steps, or of the turns.
    fn show(&mut self, words: &str) {
        for word in words.split(' ') {
            match word {
                "count" => self.shows_count = true,
                "first" => self.shows_first = true,
                "each" => self.shows_each = true,
                "turns" => self.shows_turns = true,
                _ => {}
            }
        }
    }
}

/// Takes one more line of the input: the title of a new case, or a line of the last one. Lines before the first
/// case are left out.
pub fn take_line(alloc: Global, cases: &mut Vec<Case>, line: &str) -> io::Result<()> {
    if let Some(title) = line.strip_prefix("# ") {
        cases.push(Case::new(alloc, title)?)?;
    } else if let Some(case) = cases.last_mut() {
        case.take(alloc, line)?;
    }
    Ok(())
}

/// Appends the parts of a text between separators, each as a line.
fn append_parts(lines: &mut String, text: &str, separator: &str) -> io::Result<()> {
    for part in text.split(separator) {
        lines.push_str(part)?;
        lines.push_str("\n")?;
    }
    Ok(())
}

/// Appends a text in which a backslash and n stand for the end of a line.
fn append_text(lines: &mut String, text: &str) -> io::Result<()> {
    let mut is_first = true;
    for part in text.split("\\n") {
        if !is_first {
            lines.push_str("\n")?;
        }
        lines.push_str(part)?;
        is_first = false;
    }
    Ok(())
}

/// Appends this many steps of thread 0.
fn append_zeros(schedule: &mut String, count: u64) -> io::Result<()> {
    for _step in 0..count {
        schedule.push_str("0")?;
    }
    Ok(())
}

/// Appends this many empty lines.
fn append_empty(lines: &mut String, count: u64) -> io::Result<()> {
    for _line in 0..count {
        lines.push_str("\n")?;
    }
    Ok(())
}

/// The bytes that hexadecimal digits spell, or none.
fn bytes_in(alloc: Global, digits: &str) -> Vec<u8> {
    hex::decode(alloc, digits).unwrap_or(Vec::new(alloc))
}

/// The thread that is held, and what it waits for: a thread, or with the word `line` a line of the output.
fn hold_in(words: &str) -> Hold {
    let (held, awaited) = words.split_once(' ').unwrap_or((words, "line"));
    Hold {
        held: held.parse().unwrap_or(u32::MAX),
        awaited: awaited.parse().ok(),
    }
}

/// What the word names that is gone through.
fn range_in(word: &str) -> Option<Range> {
    match word {
        "cut" => Some(Range::Cut),
        "write" => Some(Range::Write),
        "fetch" => Some(Range::Fetch),
        _ => None,
    }
}

/// The number that these digits spell, or the greatest one.
fn number_in(digits: &str) -> u64 {
    digits.parse().unwrap_or(u64::MAX)
}

/// The bytes of a vault's file: its entry, and then each page, a number and a colon and the page's first bytes.
fn vault_bytes(alloc: Global, parts: &str) -> io::Result<Vec<u8>> {
    let mut bytes = Vec::new(alloc);
    for part in parts.split(' ') {
        match part.split_once(':') {
            Some((number, first)) => {
                append_number(&mut bytes, number)?;
                append_page(&mut bytes, first)?;
            }
            None => append_number(&mut bytes, part)?,
        }
    }
    Ok(bytes)
}

/// Appends a number of four bytes, the lowest first.
fn append_number(bytes: &mut Vec<u8>, digits: &str) -> io::Result<()> {
    let number: u32 = digits.parse().unwrap_or(u32::MAX);
    bytes.extend_from_slice(&number.to_le_bytes())?;
    Ok(())
}

/// Appends a page of these first bytes, in hexadecimal digits, and zeros.
fn append_page(bytes: &mut Vec<u8>, digits: &str) -> io::Result<()> {
    let mut page = [0; 4096];
    let count = page.len().min(digits.len() / 2);
    let _ = hex::decode_to_slice(digits, page.split_at_mut(count).0);
    bytes.extend_from_slice(&page)?;
    Ok(())
}
