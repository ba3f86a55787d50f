//! `lwcrun`: takes the words of the line, the system's files and outputs, and a gate that counts, and makes the
//! program's one call.
#![tactic(auto)]

ghost use Rattle.std.specs.Prelude.{◌≡◌, ◌≢◌, [], Err, IfErr, IfOk, IsOkAnd, Ok};
ghost use Rattle.std.specs.IoError.{error_kind};

use crate::progress::{ClearingSink, Progress};
use lwc_io::{RealFiles, RealSink, Sink};
use lwcrun_core::{ExitStatus, lwcrun};
use std::alloc::Global;
use std::env;
use std::io::{self, ErrorKind};
use std::process::ExitCode;
use std::rt::Env;

mod progress;

/// The words of the line, the program's name first.
fn words<R: Env + AllocGlobal>(rt: &R) -> io::Result<Vec<String>> {
    Ok(env::args(rt)?.collect(rt.alloc())?)
}

/// The words that were read, or none if they are not UTF-8: a line of no words is not accepted. The only error is out
/// of memory.
fn words_or_none(alloc: Global, words: io::Result<Vec<String>>) -> io::Result<Vec<String>>
    ensures read { IfOk words (λ read. result ≡ Ok read) }
    ensures other { IfErr words (λ error. error_kind error ≢ ErrorKind.OutOfMemory
        → IsOkAnd result (λ none. none.items ≡ [])) }
    ensures memory { IfErr words (λ error. error_kind error ≡ ErrorKind.OutOfMemory → result ≡ Err error) }
{
    match words {
        Err(error) if error.kind() != ErrorKind::OutOfMemory => Ok(Vec::new(alloc)),
        words => words,
    }
}

fn main(rt: HostRuntime) -> ExitCode {
    let progress = Progress::new(rt);
    let mut out = ClearingSink::new(&progress, RealSink::new(rt.stdout()));
    let mut err = ClearingSink::new(&progress, RealSink::new(rt.stderr()));
    let mut files = RealFiles::new(rt);
    let status = match words_or_none(rt.alloc(), words(&rt)) {
        Ok(words) => lwcrun(
            &rt,
            rt.alloc(),
            words.as_slice(),
            &mut files,
            &mut out,
            &mut err,
            &progress,
        ),
        Err(_) => {
            let _ = err.write(b"lwcrun: no memory\n");
            ExitStatus::NoMemory
        }
    };
    ExitCode::from(status.number())
}
