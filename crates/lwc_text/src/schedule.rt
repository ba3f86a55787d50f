//! Schedules: which thread makes each step.

ghost use Rattle.std.specs.Prelude.{◌≡◌, ◌≤◌, ◌<◌, ◌++◌, ◌∷◌, ℕ, List, [], IsTrue, length, All};
ghost use Rattle.std.specs.Prelude.{slice_get, take, ◌+◌, IfOk, IfErr, OnOk, Some, None, Ok};
ghost use Rattle.std.specs.Option.{option_map};
ghost use Rattle.lwc_types.specs.Outcomes.{Answers, Fails, IsFound, unless_refused};
ghost use Rattle.lwc_types.specs.declared.limits.TheConstants.{MOST_STEPS, MOST_THREADS};
ghost use Rattle.lwc_types.specs.declared.reading.ReadError.TheVariants.{OutOfMemory};
ghost use Rattle.lwc_text.specs.Schedules.{IsSchedule, digit_number, is_blank, names_thread, numbers};
ghost use Rattle.lwc_text.specs.Schedules.{refusal_of, refusals, rule_broken, schedule_at};

use crate::fault::{InputFault, InputRule};
use lwc_base::{MOST_SCHEDULE_BYTES, MOST_STEPS, ReadError};
use std::alloc::Global;
use std::marker::Model;

/// How many bytes are looked at before the next ones.
const CHUNK: usize = 64;

/// The steps to make, each the number of the thread that makes it: at most `MOST_STEPS`, each below
/// `MOST_THREADS`.
#[derive(Drop)]
pub struct Schedule {
    steps: Vec<u8>,
}

impl Model for Schedule {
    ghost use Rattle.std.specs.Prelude.{ℕ, ◌≤◌, ◌<◌, List, All, length};
    ghost use Rattle.lwc_types.specs.declared.limits.TheConstants.{MOST_STEPS, MOST_THREADS};

    ghost Value = { List ℕ };

    ghost view = { λ schedule. schedule.steps.items };

    ghost invariant = { λ schedule. (length schedule.steps.items ≤ MOST_STEPS)
        × All (λ t. t < MOST_THREADS) schedule.steps.items };
}

impl Schedule {
    /// The schedule of these steps. It takes no memory.
    pub fn of(steps: Vec<u8>) -> Schedule
        requires few { length steps.items ≤ MOST_STEPS }
        requires threads { All (λ t. t < MOST_THREADS) steps.items }
        ensures { result ≡ steps.items }
    {
        Schedule { steps }
    }

    /// The number of steps.
    pub fn len(&self) -> usize
        ensures count { result ≡ length self.now }
        ensures few { length self.now ≤ MOST_STEPS }
    {
        self.steps.len()
    }

    /// The thread that makes the step of this number, from 0 on.
    pub fn get(&self, index: usize) -> &u8
        requires { index < length self.now }
        ensures step { slice_get self.now index ≡ Some result.now }
        ensures thread { result.now < MOST_THREADS }
    {
        &self.steps[index]
    }
}

/// Reads a schedule for a number of threads: each digit, `0` to `9` and `a` to `f`, is a step of the thread
/// of that number, and spaces, carriage returns and line feeds are skipped (`IsSchedule`).
///
/// # Errors
///
/// Out of memory, or the first refusal (`schedule_at`): `TooLong` at `MOST_SCHEDULE_BYTES` if there are
/// more bytes; else, at the first byte that breaks a rule, `BadThread` if it is neither skipped nor the
/// digit of one of the threads, and `TooManySteps` if it is a digit after `MOST_STEPS` others.
pub fn read_schedule(alloc: Global, bytes: &[u8], threads: u32) -> Result<Schedule, InputFault>
    ensures exact { Answers (λ schedule. schedule) result (schedule_at threads MOST_STEPS bytes.now) }
    ensures found { IfOk result (λ schedule. IsSchedule threads MOST_STEPS bytes.now schedule) }
    ensures there { IfOk result (λ schedule. All (λ t. t < threads) schedule) }
    ensures only { (steps : List ℕ) → IsSchedule threads MOST_STEPS bytes.now steps
        → IfErr result (λ e. e ≡ OutOfMemory) }
{
    read_schedule_within(alloc, bytes, threads, MOST_STEPS)
}

/// Reads a schedule of no more than `most` steps, at most `MOST_STEPS`, as `read_schedule` does.
///
/// # Errors
///
/// Those of `read_schedule`, but `TooManySteps` comes at a digit after `most` others.
#[tactic(auto, using(crate::proofs::Steps::digits_are_read), unfolding(crate::specs::Schedules::schedule_at))]
pub fn read_schedule_within(
    alloc: Global,
    bytes: &[u8],
    threads: u32,
    most: u32,
) -> Result<Schedule, InputFault>
    requires { most ≤ MOST_STEPS }
    ensures exact { Answers (λ schedule. schedule) result (schedule_at threads most bytes.now) }
    ensures found { IfOk result (λ schedule. IsSchedule threads most bytes.now schedule) }
    ensures there { IfOk result (λ schedule. All (λ t. t < threads) schedule) }
    ensures only { (steps : List ℕ) → IsSchedule threads most bytes.now steps
        → IfErr result (λ e. e ≡ OutOfMemory) }
{
    if bytes.len() > MOST_SCHEDULE_BYTES {
        return Err(ReadError::Refused {
            rule: InputRule::TooLong,
            at: MOST_SCHEDULE_BYTES as u64,
        });
    }
    Ok(Schedule::of(read_steps(alloc, bytes, threads, most)?))
}

/// Reads the steps of all bytes.
fn read_steps(alloc: Global, bytes: &[u8], threads: u32, most: u32) -> Result<Vec<u8>, InputFault>
    ensures read { IfOk result (λ steps.
        unless_refused (numbers bytes.now) (refusals threads most bytes.now) ≡ Ok steps.items) }
    ensures refused { IfErr result (λ e.
        Fails e (unless_refused (numbers bytes.now) (refusals threads most bytes.now))) }
    ensures few { IfOk result (λ steps. length steps.items ≤ most) }
{
    let mut steps = Vec::with_capacity(alloc, bytes.len())?;
    let first = &bytes[..plain_count(bytes, threads, most)];
    'first: for byte in first {
        steps.push_reserved(*byte - b'0');
    }
    'bytes: for at in first.len()..bytes.len() {
        read_byte(&mut steps, threads, most, at as u64, bytes[at])?;
    }
    Ok(steps)
}

/// How many of the first bytes, at most `most` and in whole chunks, are decimal digits of threads.
fn plain_count(bytes: &[u8], threads: u32, most: u32) -> usize
    ensures within { result ≤ length bytes.now }
    ensures few { result ≤ most }
    ensures plain { All (λ b. (48 ≤ b) × (b < 58) × (b < 48 + threads)) (take result bytes.now) }
{
    let limit = bytes.len().min(most as usize);
    let end = b'0' + threads.min(10) as u8;
    let mut count = 0;
    'chunks: while limit - count >= CHUNK && are_plain(&bytes[count..count + CHUNK], end) {
        count += CHUNK;
    }
    count
}

/// Whether all bytes are digits below an end. It looks at all of them, so that many are compared at once.
fn are_plain(bytes: &[u8], end: u8) -> bool
    ensures { IsTrue result → All (λ b. (48 ≤ b) × (b < end)) bytes.now }
{
    let mut plain = true;
    'bytes: for byte in bytes {
        plain = plain & (b'0' <= *byte) & (*byte < end);
    }
    plain
}

/// Reads the byte at an offset, after the bytes of these steps.
#[tactic(auto, using(crate::proofs::Steps::blank_adds_nothing, crate::proofs::Steps::named_adds))]
fn read_byte(
    steps: &mut Vec<u8>,
    threads: u32,
    most: u32,
    at: u64,
    byte: u8,
) -> Result<(), InputFault>
    requires { length steps.old.items ≤ most }
    ensures kept { OnOk result (rule_broken threads most (length steps.old.items) byte ≡ None) }
    ensures added { OnOk result (steps.new.items ≡ steps.old.items ++ numbers (byte ∷ [])) }
    ensures few { OnOk result (length steps.new.items ≤ most) }
    ensures refused { IfErr result (λ e.
        IsFound e (option_map (refusal_of at) (rule_broken threads most (length steps.old.items) byte))) }
{
    if is_blank(byte) {
        return Ok(());
    }
    let thread = match digit_number(byte) {
        Some(thread) if u32::from(thread) < threads => thread,
        _ => {
            return Err(ReadError::Refused {
                rule: InputRule::BadThread,
                at,
            });
        }
    };
    if steps.len() == most as usize {
        return Err(ReadError::Refused {
            rule: InputRule::TooManySteps,
            at,
        });
    }
    steps.push(thread)?;
    Ok(())
}

/// Whether a byte is skipped.
fn is_blank(byte: u8) -> bool
    ensures { result ≡ is_blank byte }
{
    matches!(byte, b' ' | b'\r' | b'\n')
}

/// The number of a digit.
fn digit_number(byte: u8) -> Option<u8>
    ensures { result ≡ digit_number byte }
{
    match byte {
        b'0'..=b'9' => Some(byte - b'0'),
        b'a'..=b'f' => Some(byte - b'a' + 10),
        _ => None,
    }
}
