//! The words of a line, as the command takes them.

ghost use Rattle.std.specs.Prelude.{◌≡◌, ◌≢◌, None, Some, map, IfOk, string_bytes};
ghost use Rattle.clap.specs.Words.{app_of, found_of, rows_of, with_rule};
ghost use Rattle.lwcrun_line.specs.Arguments as spec;

use crate::line::LineFault;
use clap::error::ErrorKind;
use clap::{Arg, ArgMatches, Command};
use std::alloc::{AllocError, Global};

/// The mode, the words behind it and the values of the options, as far as they are given.
#[derive(Clone, Copy)]
pub struct Arguments<'a> {
    pub mode: Option<&'a str>,
    pub first: Option<&'a str>,
    pub second: Option<&'a str>,
    pub third: Option<&'a str>,
    pub frames: Option<&'a str>,
    pub budget: Option<&'a str>,
    pub workers: Option<&'a str>,
}

/// The arguments of a line of words, the program's name first.
///
/// # Errors
///
/// `Usage` where the command does not take the words, or out of memory.
#[tactic(auto, unfolding(crate::specs::Arguments::arguments_of))]
pub fn parse_words<'a>(alloc: Global, words: &'a [String]) -> Result<Arguments<'a>, LineFault>
    ensures accepted { IfOk result (λ arguments.
        spec.arguments_of (map string_bytes words.entry.now) ≡ Some (spec.arguments_in arguments)) }
    ensures usage { result ≡ Err LineFault.Usage
        → spec.arguments_of (map string_bytes words.entry.now) ≡ None }
{
    let Ok(command) = command(alloc) else {
        return Err(LineFault::OutOfMemory);
    };
    match command.try_get_matches_from(words) {
        Ok(matches) => Ok(taken_from(&matches)),
        Err(error) => Err(fault_of(error.kind())),
    }
}

/// The command as `clap` takes it: a mode, one to three words behind it, and three options.
#[tactic(auto, unfolding(crate::specs::Arguments::command))]
fn command<'a>(alloc: Global) -> Result<Command<'a>, AllocError>
    ensures { IfOk result (λ command. app_of command ≡ spec.command) }
{
    let command = Command::new(alloc, "lwcrun");
    let command = with_place(alloc, command, "mode", true)?;
    let command = with_place(alloc, command, "first", true)?;
    let command = with_place(alloc, command, "second", false)?;
    let command = with_place(alloc, command, "third", false)?;
    let command = with_option(alloc, command, "frames")?;
    let command = with_option(alloc, command, "budget")?;
    with_option(alloc, command, "workers")
}

/// The command with one more place for a word, which has to be there if it is required.
fn with_place<'a>(
    alloc: Global,
    command: Command<'a>,
    name: &'a str,
    required: bool,
) -> Result<Command<'a>, AllocError>
    ensures { IfOk result (λ made. app_of made
        ≡ with_rule (app_of command.entry) (spec.place name.entry.now required)) }
{
    command.arg(Arg::new(alloc, name).required(required))
}

/// The command with one more option, which has two dashes before its name, and one value.
fn with_option<'a>(
    alloc: Global,
    command: Command<'a>,
    name: &'a str,
) -> Result<Command<'a>, AllocError>
    ensures { IfOk result (λ made. app_of made
        ≡ with_rule (app_of command.entry) (spec.valued name.entry.now)) }
{
    command.arg(Arg::new(alloc, name).long(name))
}

/// Why a line was not read, by the kind of the parse's error.
fn fault_of(kind: ErrorKind) -> LineFault
    ensures { result ≡ LineFault.Usage → kind ≢ ErrorKind.OutOfMemory }
{
    match kind {
        ErrorKind::OutOfMemory => LineFault::OutOfMemory,
        _ => LineFault::Usage,
    }
}

/// The arguments among the matches of a parse.
fn taken_from<'a>(matches: &ArgMatches<'a>) -> Arguments<'a>
    ensures { spec.arguments_in result ≡ spec.arguments_among (rows_of (found_of matches.now)) }
{
    Arguments {
        mode: matches.get_str("mode"),
        first: matches.get_str("first"),
        second: matches.get_str("second"),
        third: matches.get_str("third"),
        frames: matches.get_str("frames"),
        budget: matches.get_str("budget"),
        workers: matches.get_str("workers"),
    }
}
