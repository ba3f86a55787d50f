//! The lines of a report. Each public function appends its lines to a text; if memory runs out, the text is
//! as before.

ghost use Rattle.std.specs.Prelude.{◌≡◌, ◌+◌, ◌*◌, ◌≤◌, ◌++◌, IfOk, IsOk, OnOk, OnErr, length, vec_capacity};
ghost use Rattle.std.specs.Prelude.{string_bytes, codes, decimal};
ghost use Rattle.lwc_types.specs.declared.limits.TheConstants.{MOST_REPLY_BYTES};
ghost use Rattle.std.specs.List.{flat_map};
ghost use Rattle.lwc_text.specs.Lines.{bytes_text, context_line, groups_line, name_text, regs_line};
ghost use Rattle.lwc_text.specs.Lines.{reply_line, reply_text, status_text, steps_text, tail_lines};
ghost use Rattle.lwc_text.specs.Lines.{thread_line, thread_lines, trap_line, used_line};

use crate::digits::{append_digits, digits_of};
use itoa::Buffer;
use kernel_core::ThreadView;
use lwc_base::{MOST_REPLY_BYTES, Name, OutOfMemory, Summary, ThreadStatus};
use snapshot_host::FinishedView;
use std::alloc::Global;

/// Appends the two lines of a thread (`thread_lines`). The only error is out of memory.
pub fn thread_lines(out: &mut Vec<u8>, thread: u32, view: &ThreadView) -> Result<(), OutOfMemory>
    ensures ok { OnOk result (out.new.items ≡ out.old.items ++ thread_lines thread view.now) }
    ensures err { OnErr result (out.new.items ≡ out.old.items) }
{
    let lines = thread_texts(*out.allocator(), thread, view)?;
    append(out, lines.as_str())
}

/// Appends the line of a context (`context_line`). The only error is out of memory.
pub fn context_line(out: &mut Vec<u8>, name: Name, summary: &Summary) -> Result<(), OutOfMemory>
    ensures ok { OnOk result (out.new.items ≡ out.old.items ++ context_line name summary.now) }
    ensures err { OnErr result (out.new.items ≡ out.old.items) }
{
    let line = context_text(*out.allocator(), name, summary)?;
    append(out, line.as_str())
}

/// Appends the line of a trapped context and of its monitor (`trap_line`). The only error is out of memory.
#[tactic(auto, unfolding(crate::specs::Lines::trap_line))]
pub fn trap_line(out: &mut Vec<u8>, trapped: Name, monitor: Name) -> Result<(), OutOfMemory>
    ensures ok { OnOk result (out.new.items ≡ out.old.items ++ trap_line trapped monitor) }
    ensures err { OnErr result (out.new.items ≡ out.old.items) }
{
    let alloc = *out.allocator();
    let trapped = name_text(alloc, trapped)?;
    let monitor = name_text(alloc, monitor)?;
    let line = format!(in alloc; "trap {trapped} by {monitor}\n")?;
    append(out, line.as_str())
}

/// Appends the line of the number of live groups (`groups_line`). The only error is out of memory.
#[tactic(auto, unfolding(crate::specs::Lines::groups_line))]
pub fn groups_line(out: &mut Vec<u8>, groups: u32) -> Result<(), OutOfMemory>
    ensures ok { OnOk result (out.new.items ≡ out.old.items ++ groups_line groups) }
    ensures err { OnErr result (out.new.items ≡ out.old.items) }
{
    let line = format!(in *out.allocator(); "groups {groups}\n")?;
    append(out, line.as_str())
}

/// Appends the line of the number of frames in use (`used_line`). The only error is out of memory.
pub fn used_line(out: &mut Vec<u8>, used: u32) -> Result<(), OutOfMemory>
    ensures ok { OnOk result (out.new.items ≡ out.old.items ++ used_line used) }
    ensures err { OnErr result (out.new.items ≡ out.old.items) }
{
    let line = format!(in *out.allocator(); "used {used}\n")?;
    append(out, line.as_str())
}

/// Room for the line of any reply, in bytes: two digits for each byte, and the rest of the line.
pub const MOST_REPLY_LINE_BYTES: usize = 2 * MOST_REPLY_BYTES + 95;

/// Appends the line of a request's reply (`reply_line`). The only error is out of memory. Where the text has
/// room for `MOST_REPLY_LINE_BYTES` more bytes, it takes no memory.
#[tactic(auto, unfolding(crate::specs::Lines::reply_line))]
pub fn reply_line(
    out: &mut Vec<u8>,
    request: u16,
    finished: Option<FinishedView<'_>>,
) -> Result<(), OutOfMemory>
    ensures ok { OnOk result (out.new.items ≡ out.old.items ++ reply_line request finished.entry) }
    ensures err { OnErr result (out.new.items ≡ out.old.items) }
    ensures room { length out.old.items + MOST_REPLY_LINE_BYTES ≤ vec_capacity out.old → IsOk result }
    ensures capacity { vec_capacity out.old ≤ vec_capacity out.new }
{
    out.reserve(MOST_REPLY_LINE_BYTES)?;
    append_reserved(out, b"reply ");
    append_number(out, u64::from(request));
    append_reserved(out, b" ");
    append_reply(out, finished);
    append_reserved(out, b"\n");
    Ok(())
}

/// Appends the last lines (`tail_lines`): what was written to the console, the frames in use and the most
/// that were, and the steps that were kept, each a thread's number. The only error is out of memory.
#[tactic(auto, unfolding(crate::specs::Lines::tail_lines))]
pub fn tail_lines(
    out: &mut Vec<u8>,
    console: &[u8],
    used: u32,
    peak: u32,
    schedule: &[u8],
) -> Result<(), OutOfMemory>
    ensures ok { OnOk result
        (out.new.items ≡ out.old.items ++ tail_lines console.now used peak schedule.now) }
    ensures err { OnErr result (out.new.items ≡ out.old.items) }
{
    let alloc = *out.allocator();
    let console = bytes_text(alloc, console)?;
    let steps = schedule.len();
    let schedule = steps_text(alloc, schedule)?;
    let lines = format!(in alloc;
        "console {console}\nused {used}\npeak {peak}\nsteps {steps}\nschedule {schedule}\n"
    )?;
    append(out, lines.as_str())
}

/// The two lines of a thread.
#[tactic(auto, unfolding(crate::specs::Lines::thread_lines))]
fn thread_texts(alloc: Global, thread: u32, view: &ThreadView) -> Result<String, OutOfMemory>
    ensures { IfOk result (λ lines. string_bytes lines ≡ thread_lines thread view.now) }
{
    let mut lines = thread_text(alloc, thread, view.status, view.context, view.regs.pc)?;
    let registers = registers_text(alloc, thread, &view.regs.r)?;
    lines.push_str(registers.as_str())?;
    Ok(lines)
}

/// The line of a thread.
#[tactic(auto, unfolding(crate::specs::Lines::thread_line))]
fn thread_text(
    alloc: Global,
    thread: u32,
    status: ThreadStatus,
    context: Name,
    pc: u64,
) -> Result<String, OutOfMemory>
    ensures { IfOk result (λ line. string_bytes line ≡ thread_line thread status context pc) }
{
    let status = status_text(alloc, status)?;
    let context = name_text(alloc, context)?;
    Ok(format!(in alloc; "thread {thread} {status} ctx {context} pc {pc}\n")?)
}

/// The line of a thread's registers.
#[tactic(auto, unfolding(crate::specs::Lines::regs_line))]
fn registers_text(alloc: Global, thread: u32, registers: &[u64; 16]) -> Result<String, OutOfMemory>
    ensures { IfOk result (λ line. string_bytes line ≡ regs_line thread registers.now) }
{
    let mut line = format!(in alloc; "regs {thread}")?;
    'registers: for value in registers {
        write!(line, " {value}")?;
    }
    line.push_str("\n")?;
    Ok(line)
}

/// The status of a thread.
#[tactic(auto, unfolding(crate::specs::Lines::status_text))]
fn status_text(alloc: Global, status: ThreadStatus) -> Result<String, OutOfMemory>
    ensures { IfOk result (λ text. string_bytes text ≡ status_text status) }
{
    match status {
        ThreadStatus::Idle => Ok(String::from_str(alloc, "idle")?),
        ThreadStatus::Running => Ok(String::from_str(alloc, "running")?),
        ThreadStatus::Done { code } => Ok(format!(in alloc; "done {code}")?),
        ThreadStatus::Faulted { fault } => {
            let number = fault.number();
            Ok(format!(in alloc; "fault {number}")?)
        }
    }
}

/// Appends what a report says of a reply: two digits for each byte, and at most 47 bytes besides.
#[tactic(auto, unfolding(crate::specs::Lines::reply_text))]
fn append_reply(out: &mut Vec<u8>, finished: Option<FinishedView<'_>>)
    requires room { length out.old.items + 2 * MOST_REPLY_BYTES + 47 ≤ vec_capacity out.old }
    ensures text { out.new.items ≡ out.old.items ++ reply_text finished.entry }
    ensures short { length out.new.items ≤ length out.old.items + 2 * MOST_REPLY_BYTES + 47 }
    ensures capacity { vec_capacity out.old ≤ vec_capacity out.new }
{
    match finished {
        None => append_reserved(out, b"none"),
        Some(finished) => {
            append_status(out, finished.status);
            append_reserved(out, b" ");
            append_bytes(out, finished.bytes);
        }
    }
}

/// Appends the status of a thread, at most 46 bytes.
#[tactic(auto, unfolding(crate::specs::Lines::status_text))]
fn append_status(out: &mut Vec<u8>, status: ThreadStatus)
    requires room { length out.old.items + 46 ≤ vec_capacity out.old }
    ensures text { out.new.items ≡ out.old.items ++ status_text status }
    ensures short { length out.new.items ≤ length out.old.items + 46 }
    ensures capacity { vec_capacity out.old ≤ vec_capacity out.new }
{
    match status {
        ThreadStatus::Idle => append_reserved(out, b"idle"),
        ThreadStatus::Running => append_reserved(out, b"running"),
        ThreadStatus::Done { code } => {
            append_reserved(out, b"done ");
            append_number(out, code);
        }
        ThreadStatus::Faulted { fault } => {
            append_reserved(out, b"fault ");
            append_number(out, fault.number());
        }
    }
}

/// Appends the bytes of a reply as lower-case hexadecimal, or a dash.
#[tactic(auto, unfolding(crate::specs::Lines::bytes_text))]
fn append_bytes(out: &mut Vec<u8>, bytes: &[u8])
    requires few { length bytes.now ≤ MOST_REPLY_BYTES }
    requires room { length out.old.items + 2 * MOST_REPLY_BYTES ≤ vec_capacity out.old }
    ensures text { out.new.items ≡ out.old.items ++ bytes_text bytes.now }
    ensures short { length out.new.items ≤ length out.old.items + 2 * MOST_REPLY_BYTES }
    ensures capacity { vec_capacity out.old ≤ vec_capacity out.new }
{
    if bytes.is_empty() {
        append_reserved(out, b"-");
        return;
    }
    append_digits(out, bytes);
}

/// Appends a number in decimal, at most 40 bytes.
fn append_number(out: &mut Vec<u8>, number: u64)
    requires room { length out.old.items + 40 ≤ vec_capacity out.old }
    ensures text { out.new.items ≡ out.old.items ++ decimal number }
    ensures short { length out.new.items ≤ length out.old.items + 40 }
    ensures capacity { vec_capacity out.old ≤ vec_capacity out.new }
{
    let mut buffer = Buffer::new();
    append_reserved(out, buffer.format(number).as_bytes());
}

/// Appends bytes for which there is room.
fn append_reserved(out: &mut Vec<u8>, bytes: &[u8])
    requires room { length out.old.items + length bytes.now ≤ vec_capacity out.old }
    ensures text { out.new.items ≡ out.old.items ++ bytes.now }
    ensures capacity { vec_capacity out.old ≤ vec_capacity out.new }
{
    match out.extend_from_slice(bytes) {
        Ok(()) => {}
        Err(_) => unreachable!(),
    }
}

/// The line of a context.
#[tactic(auto, unfolding(crate::specs::Lines::context_line))]
fn context_text(alloc: Global, name: Name, summary: &Summary) -> Result<String, OutOfMemory>
    ensures { IfOk result (λ line. string_bytes line ≡ context_line name summary.now) }
{
    let name = name_text(alloc, name)?;
    let Summary { pages, slots, uid } = *summary;
    Ok(format!(in alloc; "context {name} pages {pages} slots {slots} uid {uid}\n")?)
}

/// A context's name (`name_text`). The only error is out of memory.
#[tactic(auto, unfolding(crate::specs::Lines::name_text))]
pub fn name_text(alloc: Global, name: Name) -> Result<String, OutOfMemory>
    ensures { IfOk result (λ text. string_bytes text ≡ name_text name) }
{
    let Name { job, k } = name;
    Ok(format!(in alloc; "{job}.{k}")?)
}

/// Bytes as lower-case hexadecimal, or a dash (`bytes_text`). The only error is out of memory.
#[tactic(auto, unfolding(crate::specs::Lines::bytes_text))]
pub fn bytes_text(alloc: Global, bytes: &[u8]) -> Result<String, OutOfMemory>
    ensures { IfOk result (λ text. string_bytes text ≡ bytes_text bytes.now) }
{
    if bytes.is_empty() {
        return Ok(String::from_str(alloc, "-")?);
    }
    Ok(hex::encode(alloc, bytes)?)
}

/// Steps as hexadecimal digits, or a dash.
#[tactic(auto, unfolding(crate::specs::Lines::steps_text))]
fn steps_text(alloc: Global, steps: &[u8]) -> Result<String, OutOfMemory>
    ensures { IfOk result (λ text. string_bytes text ≡ steps_text steps.now) }
{
    if steps.is_empty() {
        return Ok(String::from_str(alloc, "-")?);
    }
    if steps.iter().all(|step| *step < 16) {
        return digits_of(alloc, steps);
    }
    let mut text = String::new(alloc);
    'steps: for thread in steps {
        write!(text, "{thread:x}")?;
    }
    Ok(text)
}

/// Appends a text.
fn append(out: &mut Vec<u8>, text: &str) -> Result<(), OutOfMemory>
    ensures ok { OnOk result (out.new.items ≡ out.old.items ++ text.now) }
    ensures err { OnErr result (out.new.items ≡ out.old.items) }
{
    out.extend_from_slice(text.as_bytes())?;
    Ok(())
}
