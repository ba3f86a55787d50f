//! Scripts: commands, one a line.

ghost use Rattle.std.specs.Prelude.{◌≡◌, ◌≤◌, ◌∷◌, ◌++◌, ◌+◌, ◌<◌, ◌^◌, ◌==◌, IfErr, IfOk, List, None, Ok, OnOk, []};
ghost use Rattle.std.specs.Prelude.{length};
ghost use Rattle.std.specs.List.{after_first, before_first, filter_map, position_or_len};
ghost use Rattle.std.specs.Option.{option_map};
ghost use Rattle.lwc_types.specs.Outcomes.{Answers, Fails, IsFound, unless_refused};
ghost use Rattle.lwc_types.specs.declared.reading.ReadError.TheVariants.{OutOfMemory};
ghost use Rattle.lwc_text.specs.Schedules.{refusal_of};
ghost use Rattle.lwc_debug.specs.declared.command.Command as commands;
ghost use Rattle.lwc_debug.specs.declared.command.TheConstants.{MOST_COMMANDS};
ghost use Rattle.lwc_debug.specs.Scripts as spec;

use crate::command::{Command, MOST_COMMANDS, Script};
use lwc_base::{Name, ReadError};
use lwc_text::{InputFault, InputRule, next_line, number_of};
use std::alloc::Global;

/// The most bytes of a script.
pub const MOST_SCRIPT_BYTES: usize = 65536;

/// Reads a script, one command a line (`IsScript`): a word, and behind it, each behind one space, what the
/// command takes. That is a number, one to nine decimal digits, for `goto`, `forward`, `back` and `thread`; a
/// name, two numbers with a dot between, for `context`; a name and a number for `page` and `slot`; and
/// nothing for `used`. An empty line is skipped. A line feed ends a line, and a carriage return directly
/// before it is skipped.
///
/// # Errors
///
/// Out of memory, or the first refusal (`script_at`): `TooLong` at `MOST_SCRIPT_BYTES` if there are more
/// bytes; else, at the first byte of the first line that breaks a rule, `BadCommand` if it is neither empty
/// nor a command, and `TooManyCommands` if it is one after `MOST_COMMANDS` others.
#[tactic(auto, using(crate::proofs::ScriptLines::script_reading), unfolding(crate::specs::Scripts::script_at))]
pub fn read_script(alloc: Global, bytes: &[u8]) -> Result<Script, InputFault>
    ensures exact { Answers (λ script. script) result (spec.script_at bytes.now) }
    ensures found { IfOk result (λ script. spec.IsScript bytes.now script) }
    ensures only { (script : List commands.Command) → spec.IsScript bytes.now script
        → IfErr result (λ e. e ≡ OutOfMemory) }
{
    if bytes.len() > MOST_SCRIPT_BYTES {
        return Err(ReadError::Refused {
            rule: InputRule::TooLong,
            at: MOST_SCRIPT_BYTES as u64,
        });
    }
    Ok(Script::of(read_lines(alloc, bytes)?))
}

/// Reads the commands of all lines.
fn read_lines(alloc: Global, bytes: &[u8]) -> Result<Vec<Command>, InputFault>
    ensures read { IfOk result (λ commands. unless_refused (spec.commands_in bytes.now)
        (spec.line_refusals bytes.now) ≡ Ok commands.items) }
    ensures refused { IfErr result (λ e. Fails e
        (unless_refused (spec.commands_in bytes.now) (spec.line_refusals bytes.now))) }
    ensures few { IfOk result (λ commands. length commands.items ≤ MOST_COMMANDS) }
{
    let mut commands = Vec::new(alloc);
    let mut rest = bytes;
    while !rest.is_empty() {
        let start = (bytes.len() - rest.len()) as u64;
        let (line, after) = next_line(rest);
        read_line(&mut commands, start, line)?;
        rest = after;
    }
    Ok(commands)
}

/// Reads the line at an offset, after the lines of these commands.
#[tactic(auto, using(crate::proofs::ScriptLines::line_reading))]
fn read_line(commands: &mut Vec<Command>, start: u64, line: &[u8]) -> Result<(), InputFault>
    requires { length commands.old.items ≤ MOST_COMMANDS }
    ensures kept { OnOk result (spec.rule_broken (length commands.old.items) line.now ≡ None) }
    ensures added { OnOk result (commands.new.items
        ≡ commands.old.items ++ filter_map spec.command_of (line.now ∷ [])) }
    ensures few { OnOk result (length commands.new.items ≤ MOST_COMMANDS) }
    ensures refused { IfErr result (λ e.
        IsFound e (option_map (refusal_of start) (spec.rule_broken (length commands.old.items) line.now))) }
{
    if line.is_empty() {
        return Ok(());
    }
    let Some(command) = command_of(line) else {
        return Err(ReadError::Refused {
            rule: InputRule::BadCommand,
            at: start,
        });
    };
    if commands.len() == MOST_COMMANDS {
        return Err(ReadError::Refused {
            rule: InputRule::TooManyCommands,
            at: start,
        });
    }
    commands.push(command)?;
    Ok(())
}

/// The command of a line, if it is one.
#[tactic(auto, unfolding(crate::specs::Scripts::command_of))]
fn command_of(line: &[u8]) -> Option<Command>
    ensures { result ≡ spec.command_of line.now }
{
    if line == b"used".as_slice() {
        return Some(Command::Used);
    }
    let (word, rest) = split_at_first(line, b' ');
    command_in(word, rest)
}

/// The command of a word and of what follows it.
fn command_in(word: &[u8], rest: &[u8]) -> Option<Command>
    ensures { result ≡ spec.command_in word.now rest.now }
{
    if word == b"goto".as_slice() {
        return Some(Command::Goto {
            n: number_of(rest)?,
        });
    }
    if word == b"forward".as_slice() {
        return Some(Command::Forward {
            n: number_of(rest)?,
        });
    }
    if word == b"back".as_slice() {
        return Some(Command::Back {
            n: number_of(rest)?,
        });
    }
    if word == b"thread".as_slice() {
        return Some(Command::Thread {
            t: number_of(rest)?,
        });
    }
    if word == b"context".as_slice() {
        return Some(Command::Context {
            name: name_of(rest)?,
        });
    }
    if word == b"page".as_slice() {
        let (name, p) = numbered(rest)?;
        return Some(Command::Page { name, p });
    }
    if word == b"slot".as_slice() {
        let (name, n) = numbered(rest)?;
        return Some(Command::Slot { name, n });
    }
    None
}

/// The name and the number that words spell, with a space between.
fn numbered(words: &[u8]) -> Option<(Name, u32)>
    ensures { result ≡ spec.numbered words.now }
{
    let (name, number) = split_at_first(words, b' ');
    Some((name_of(name)?, number_of(number)?))
}

/// The name that a word spells.
fn name_of(word: &[u8]) -> Option<Name>
    ensures { result ≡ spec.name_of word.now }
{
    let (job, k) = split_at_first(word, b'.');
    Some(Name {
        job: number_of(job)?,
        k: number_of(k)?,
    })
}

/// What is before the first of these bytes, and what is behind it; all and nothing if there is none.
fn split_at_first(bytes: &[u8], byte: u8) -> (&[u8], &[u8])
    ensures before { result.0.now ≡ before_first (λ b. b == byte) bytes.now }
    ensures after { result.1.now ≡ after_first (λ b. b == byte) bytes.now }
{
    let end = first_place(bytes, byte);
    if end < bytes.len() {
        (&bytes[..end], &bytes[end + 1..])
    } else {
        (bytes, &[])
    }
}

/// The place of the first of these bytes, or the length.
fn first_place(bytes: &[u8], byte: u8) -> usize
    ensures place { result ≡ position_or_len (λ b. b == byte) bytes.now }
    ensures within { result ≤ length bytes.now }
{
    bytes.iter().position(|b| *b == byte).unwrap_or(bytes.len())
}
