//! Files to read and sinks to write to: those in memory, those of the system, and those that never fail.

use crate::checks::check_equal;
use lwc_io::{
    Failed, Files, MemoryFiles, MemorySink, NamedFile, RealFiles, RealSink, Sink, SureFiles,
    SureSink,
};
use std::alloc::Global;
use std::process::Abort;
use std::test::Fail;
use std::{env, fs, process};

/// How many bytes the long file has: three pieces of 65536, and one.
const LONG: usize = 3 * 65536 + 1;

/// Where two bytes of the long file are fetched, and how many there are.
const FETCHES: [(usize, usize); 7] = [
    (0, 2),
    (65535, 2),
    (65536, 2),
    (65537, 2),
    (131072, 2),
    (196608, 1),
    (196609, 0),
];

/// Checks what fetches of two bytes each, at 0, 2, 4 and so on, answer.
fn check_fetches<F: Files>(
    rt: &impl Abort,
    files: &mut F,
    name: &str,
    pieces: &[Result<&[u8], Failed>],
) {
    let mut at = 0u64;
    for piece in pieces {
        let mut buffer = [0u8; 2];
        let got = files.fetch(name, at, &mut buffer).map(|count| count.min(2));
        match (got, *piece) {
            (Ok(count), Ok(bytes)) => check_equal(
                rt,
                (name, at, &buffer[..count]),
                (name, at, bytes),
            ),
            (got, piece) => check_equal(rt, (name, at, got.is_err()), (name, at, piece.is_err())),
        }
        at = at.saturating_add(2);
    }
}

/// One file of five bytes, of which the fetch of this number fails.
fn files_of_one(alloc: Global, failing: u64) -> Result<MemoryFiles, Fail> {
    let image = NamedFile::new(alloc, "image", b"abcde")?;
    let calls = vec![in alloc; failing]?;
    Ok(MemoryFiles::new(alloc, vec![in alloc; image]?, calls)?)
}

#[test]
fn memory_files_fail_at_the_calls_that_are_to_fail(rt: HostRuntime) -> Result<(), Fail> {
    let pieces: [Result<&[u8], Failed>; 4] = [Ok(b"ab"), Ok(b"cd"), Ok(b"e"), Ok(b"")];
    for failing in 0..4usize {
        let mut files = files_of_one(rt.alloc(), failing as u64)?;
        let mut wanted = pieces;
        wanted[failing] = Err(Failed);
        check_fetches(&rt, &mut files, "image", &wanted);
        check_fetches(&rt, &mut files, "absent", &[Err(Failed), Err(Failed)]);
        let faults = [files.fault_count("image"), files.fault_count("absent")];
        check_equal(&rt, faults, [1, 2]);
    }
    Ok(())
}

#[test]
fn sure_files_are_empty_where_none_was_given(rt: HostRuntime) -> Result<(), Fail> {
    let first = NamedFile::new(rt.alloc(), "image", b"abc")?;
    let second = NamedFile::new(rt.alloc(), "image", b"second")?;
    let mut files = SureFiles::new(vec![in rt.alloc(); first, second]?);
    check_fetches(
        &rt,
        &mut files,
        "image",
        &[Ok(b"ab"), Ok(b"c"), Ok(b""), Ok(b"")],
    );
    check_fetches(&rt, &mut files, "absent", &[Ok(b""), Ok(b"")]);
    Ok(())
}

/// Checks what writes of the same piece answer.
fn check_writes<S: Sink>(
    rt: &impl Abort,
    sink: &mut S,
    piece: &[u8],
    counts: &[Result<usize, Failed>],
) {
    for count in counts {
        check_equal(rt, sink.write(piece), *count);
    }
}

/// A sink with room for two bytes that takes one a call, and of which the call of this number fails.
fn sink_by_bytes(alloc: Global, failing: u64) -> Result<MemorySink, Fail> {
    let mut sink = MemorySink::new(alloc, 1, vec![in alloc; failing]?);
    sink.reserve(2)?;
    Ok(sink)
}

#[test]
fn memory_sink_takes_a_byte_a_call_and_fails_at_the_calls_that_are_to_fail(
    rt: HostRuntime,
) -> Result<(), Fail> {
    for failing in 0..3usize {
        let mut sink = sink_by_bytes(rt.alloc(), failing as u64)?;
        let mut wanted = [Ok(1), Ok(1), Ok(1)];
        wanted[failing] = Err(Failed);
        check_writes(&rt, &mut sink, b"xy", &wanted);
        let seen = (sink.bytes(), sink.fault_count());
        check_equal(&rt, seen, (b"xx".as_slice(), 1));
    }
    Ok(())
}

#[test]
fn a_sink_that_takes_nothing_fails(rt: HostRuntime) -> Result<(), Fail> {
    let mut sink = MemorySink::new(rt.alloc(), 0, Vec::new(rt.alloc()));
    check_writes(&rt, &mut sink, b"x", &[Err(Failed)]);
    check_writes(&rt, &mut sink, b"", &[Ok(0)]);
    let mut none = [];
    let mut full = RealSink::new(none.as_mut_slice());
    check_writes(&rt, &mut full, b"x", &[Err(Failed)]);
    check_writes(&rt, &mut SureSink, b"xyz", &[Ok(3)]);
    Ok(())
}

#[test]
fn real_sink_writes_to_its_writer(rt: HostRuntime) -> Result<(), Fail> {
    let mut sink = RealSink::new(Vec::new(rt.alloc()));
    check_writes(&rt, &mut sink, b"ab", &[Ok(2), Ok(2)]);
    check_writes(&rt, &mut sink, b"", &[Ok(0)]);
    check_equal(&rt, sink.into_inner().as_slice(), b"abab".as_slice());
    Ok(())
}

#[test]
fn real_files_read_what_was_written(rt: HostRuntime) -> Result<(), Fail> {
    let name = format!(in rt.alloc(); "format_suite-{}", process::id(rt.process()))?;
    let path = env::temp_dir(&rt)?.join(rt.alloc(), name.as_str())?;
    let path = path.as_path().as_str();
    fs::write(&rt, path, b"abcde".as_slice())?;
    let mut files = RealFiles::new(&rt);
    check_fetches(
        &rt,
        &mut files,
        path,
        &[Ok(b"ab"), Ok(b"cd"), Ok(b"e"), Ok(b"")],
    );
    fs::remove_file(&rt, path)?;
    check_fetches(&rt, &mut files, path, &[Err(Failed)]);
    check_fetches(&rt, &mut files, ".", &[Err(Failed)]);
    Ok(())
}

/// The byte of the long file at an offset: other ones at the same place of each piece of 65536.
fn long_byte(at: usize) -> u8 {
    (at % 251) as u8
}

/// What the long file holds.
fn long_bytes(alloc: Global) -> Result<Vec<u8>, Fail> {
    let mut bytes = Vec::new(alloc);
    for at in 0..LONG {
        bytes.push(long_byte(at))?;
    }
    Ok(bytes)
}

#[test]
fn real_files_read_a_long_file(rt: HostRuntime) -> Result<(), Fail> {
    let name = format!(in rt.alloc(); "format_suite-long-{}", process::id(rt.process()))?;
    let path = env::temp_dir(&rt)?.join(rt.alloc(), name.as_str())?;
    let path = path.as_path().as_str();
    fs::write(&rt, path, long_bytes(rt.alloc())?.as_slice())?;
    let mut files = RealFiles::new(&rt);
    for (at, count) in FETCHES {
        let mut buffer = [0u8; 2];
        let got = files.fetch(path, at as u64, &mut buffer);
        let wanted = [long_byte(at), long_byte(at.saturating_add(1))];
        check_equal(&rt, (at, got), (at, Ok(count)));
        check_equal(&rt, &buffer[..count.min(2)], &wanted[..count.min(2)]);
    }
    fs::remove_file(&rt, path)?;
    Ok(())
}
