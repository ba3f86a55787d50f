ghost use Rattle.std.specs.Prelude.{◌≡◌, ◌⊎◌, IfOk, string_bytes};
ghost use Rattle.lwcrun_inputs.specs.Ends as ends;
ghost use Rattle.lwcrun_inputs.specs.Ends.{End};
ghost use Rattle.lwcrun_inputs.specs.Statuses.{MayBeAnsweredAs, IsAnswered, Takes, message_of, rejection_words};
ghost use Rattle.lwcrun_inputs.specs.Statuses.{message, status_of, status_of_rejection};
ghost use Rattle.lwcrun_inputs.specs.Views.{end_of};

use crate::ending::{Ending, Rejection};
use crate::status::ExitStatus;
use lwc_base::OutOfMemory;
use lwc_io::{Failed, Sink, write_whole};
use std::alloc::Global;

/// The message of a line that is not accepted.
const USAGE: &str =
    "lwcrun: usage: lwcrun replay IMAGE SCHEDULE [REQUESTS], run IMAGE, serve IMAGE REQUESTS, \
     asm SOURCE, dis IMAGE, gen NUMBER, lift IMAGE, monitor IMAGE SCHEDULE, vault IMAGE VAULT SCHEDULE, \
     debug IMAGE SCHEDULE SCRIPT, stream IMAGE REQUESTS, guard IMAGE SCHEDULE; \
     --frames F --budget B --workers W\n";

/// The message of a call that ran out of memory.
const NO_MEMORY: &str = "lwcrun: no memory\n";

/// The message of a call whose output was not written.
const UNWRITTEN: &str = "lwcrun: cannot write\n";

/// What stands before the name in the message of a file that was not read.
const UNREAD: &str = "lwcrun: cannot read ";

/// The end of a message's line.
const NEWLINE: &str = "\n";

/// The message of an ending: none where all was written, and else one line.
///
/// # Errors
///
/// The only error is out of memory.
#[tactic(auto, unfolding(crate::specs::Statuses::message_of))]
pub fn message_of(alloc: Global, ending: &Ending<'_>) -> Result<String, OutOfMemory>
    ensures { IfOk result (λ text. string_bytes text ≡ message_of (end_of ending.now)) }
{
    match ending {
        Ending::Done => Ok(String::new(alloc)),
        Ending::NoMemory => text_of(alloc, NO_MEMORY),
        Ending::Usage => text_of(alloc, USAGE),
        Ending::Unread(name) => unread_line(alloc, name),
        Ending::Unwritten => text_of(alloc, UNWRITTEN),
        Ending::Refused(rejection) => rejection_line(alloc, rejection),
    }
}

/// The exit status of an ending.
pub fn status_of(ending: &Ending<'_>) -> ExitStatus
    ensures { result ≡ status_of (end_of ending.now) }
{
    match ending {
        Ending::Done => ExitStatus::Ok,
        Ending::NoMemory => ExitStatus::NoMemory,
        Ending::Usage => ExitStatus::Usage,
        Ending::Unread(_) => ExitStatus::ReadFault,
        Ending::Unwritten => ExitStatus::WriteFault,
        Ending::Refused(rejection) => rejection_status(rejection),
    }
}

/// A text of its own. The only error is out of memory.
fn text_of(alloc: Global, text: &str) -> Result<String, OutOfMemory>
    ensures { IfOk result (λ copy. string_bytes copy ≡ text.now) }
{
    Ok(String::from_str(alloc, text)?)
}

/// Writes the message of an ending and returns its exit status. If there is no memory for the message of a
/// refusal, the call ends out of memory.
pub fn write_message<E: Sink>(alloc: Global, err: &mut E, ending: &Ending) -> ExitStatus
    ensures { (e : End Rejection) × MayBeAnsweredAs (end_of ending.now) e
        × IsAnswered e result (E.seen err.old) (E.seen err.new) }
{
    match ending {
        Ending::Done => write_nothing(err),
        Ending::NoMemory => write_no_memory(err),
        Ending::Usage => write_usage(err),
        Ending::Unread(name) => write_unread(err, name),
        Ending::Unwritten => write_unwritten(err),
        Ending::Refused(rejection) => write_rejection(alloc, err, rejection),
    }
}

/// Writes nothing.
#[tactic(auto, using(lwc_io::proofs::Outputs::takes_none), unfolding(crate::specs::Statuses::message_of))]
fn write_nothing<E: Sink>(err: &mut E) -> ExitStatus
    ensures { IsAnswered ends.Done result (E.seen err.old) (E.seen err.new) }
{
    let _ = err;
    ExitStatus::Ok
}

/// Writes that memory ran out.
#[tactic(auto, unfolding(crate::specs::Statuses::message_of))]
fn write_no_memory<E: Sink>(err: &mut E) -> ExitStatus
    ensures { IsAnswered ends.NoMemory result (E.seen err.old) (E.seen err.new) }
{
    write_text(err, NO_MEMORY);
    ExitStatus::NoMemory
}

/// Writes that the line is not accepted.
#[tactic(auto, unfolding(crate::specs::Statuses::message_of))]
fn write_usage<E: Sink>(err: &mut E) -> ExitStatus
    ensures { IsAnswered ends.Usage result (E.seen err.old) (E.seen err.new) }
{
    write_text(err, USAGE);
    ExitStatus::Usage
}

/// Writes that a file was not read. It takes no memory.
fn write_unread<E: Sink>(err: &mut E, name: &str) -> ExitStatus
    ensures { IsAnswered (ends.Unread name.now) result (E.seen err.old) (E.seen err.new) }
{
    let _ = write_unread_line(err, name);
    ExitStatus::ReadFault
}

/// Writes the message of a file that was not read, in three pieces.
///
/// # Errors
///
/// `Failed` if a write failed, after which nothing is written.
fn write_unread_line<E: Sink>(err: &mut E, name: &str) -> Result<(), Failed>
    ensures { Takes (message_of (ends.Unread name.now)) (E.seen err.old) (E.seen err.new) }
{
    write_whole(err, UNREAD.as_bytes())?;
    write_whole(err, name.as_bytes())?;
    write_whole(err, NEWLINE.as_bytes())?;
    Ok(())
}

/// The message of a file that was not read.
#[tactic(auto, unfolding(crate::specs::Statuses::message_of))]
fn unread_line(alloc: Global, name: &str) -> Result<String, OutOfMemory>
    ensures { IfOk result (λ line. string_bytes line ≡ message_of (ends.Unread name.now)) }
{
    Ok(format!(in alloc; "lwcrun: cannot read {name}\n")?)
}

/// Writes that the output was not written.
#[tactic(auto, unfolding(crate::specs::Statuses::message_of))]
fn write_unwritten<E: Sink>(err: &mut E) -> ExitStatus
    ensures { IsAnswered ends.Unwritten result (E.seen err.old) (E.seen err.new) }
{
    write_text(err, UNWRITTEN);
    ExitStatus::WriteFault
}

/// Writes why an input was refused, or that memory ran out.
#[tactic(auto, unfolding(crate::specs::Statuses::message_of))]
fn write_rejection<E: Sink>(alloc: Global, err: &mut E, rejection: &Rejection) -> ExitStatus
    ensures { IsAnswered (ends.Refused rejection.now) result (E.seen err.old) (E.seen err.new)
        ⊎ IsAnswered ends.NoMemory result (E.seen err.old) (E.seen err.new) }
{
    match rejection_line(alloc, rejection) {
        Ok(line) => {
            write_text(err, line.as_str());
            rejection_status(rejection)
        }
        Err(_) => write_no_memory(err),
    }
}

/// The message of a refused input.
fn rejection_line(alloc: Global, rejection: &Rejection) -> Result<String, OutOfMemory>
    ensures { IfOk result (λ line. string_bytes line ≡ message (rejection_words rejection.now)) }
{
    match rejection {
        Rejection::Image { rule, at } => {
            let rule = rule.name();
            Ok(format!(in alloc; "lwcrun: image refused: {rule} at {at}\n")?)
        }
        Rejection::Source { rule, at } => {
            let rule = rule.name();
            Ok(format!(in alloc; "lwcrun: image refused: {rule} at {at}\n")?)
        }
        Rejection::Input { rule, at } => {
            let rule = rule.name();
            Ok(format!(in alloc; "lwcrun: input refused: {rule} at {at}\n")?)
        }
        Rejection::TooLarge { pages, frames } => too_large_line(alloc, *pages, *frames),
    }
}

/// The message of an image that has too many pages.
fn too_large_line(alloc: Global, pages: u32, frames: u32) -> Result<String, OutOfMemory>
    ensures { IfOk result (λ line.
        string_bytes line ≡ message (rejection_words (Rejection.TooLarge pages frames))) }
{
    Ok(format!(in alloc; "lwcrun: image has {pages} pages, frames are {frames}\n")?)
}

/// The exit status of a refused input.
fn rejection_status(rejection: &Rejection) -> ExitStatus
    ensures { result ≡ status_of_rejection rejection.now }
{
    match rejection {
        Rejection::Image { .. } | Rejection::Source { .. } => ExitStatus::ImageRefused,
        Rejection::Input { .. } => ExitStatus::InputRefused,
        Rejection::TooLarge { .. } => ExitStatus::ImageTooLarge,
    }
}

/// Writes a text; a fault of the sink is ignored.
fn write_text<E: Sink>(err: &mut E, text: &str)
    ensures { Takes text.now (E.seen err.old) (E.seen err.new) }
{
    let _ = write_whole(err, text.as_bytes());
}
