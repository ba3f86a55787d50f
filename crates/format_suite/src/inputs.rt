//! The files of requests and of schedules.

use crate::checks::check_equal;
use lwc_text::{InputFault, InputRule, read_requests, read_schedule, read_schedule_within};
use std::alloc::Global;
use std::test::Fail;

/// How many requests a file has, and how long the last one is, if there is one.
fn requests_of(alloc: Global, text: &[u8]) -> Result<(usize, Option<usize>), InputFault> {
    let requests = read_requests(alloc, text)?;
    let count = requests.len();
    let last = if count > 0 {
        Some(requests.get(count - 1).len())
    } else {
        None
    };
    Ok((count, last))
}

#[test]
fn lines_are_requests(rt: HostRuntime) -> Result<(), Fail> {
    for (text, count, last) in [
        ("", 0, None),
        ("00\n00\n01\n00\n", 4, Some(1)),
        ("00\r\n\n0aFf", 3, Some(2)),
        ("\n\n", 2, Some(0)),
    ] {
        let read = requests_of(rt.alloc(), text.as_bytes())?;
        check_equal(&rt, (text, read), (text, (count, last)));
    }
    let mixed = read_requests(rt.alloc(), b"0aFf")?;
    check_equal(&rt, mixed.get(0).as_slice(), [0x0a, 0xff].as_slice());
    Ok(())
}

#[test]
fn other_lines_are_refused(rt: HostRuntime) {
    for (text, rule, at) in [
        ("0\n", InputRule::OddLength, 1),
        ("0\r\n", InputRule::OddLength, 1),
        ("00\n0", InputRule::OddLength, 4),
        ("0g", InputRule::BadHex, 1),
        ("00\r", InputRule::BadHex, 2),
        ("00\r\r\n", InputRule::BadHex, 2),
    ] {
        let fault = read_requests(rt.alloc(), text.as_bytes()).err();
        let refused = Some(InputFault::Refused { rule, at });
        check_equal(&rt, (text, fault), (text, refused));
    }
}

#[test]
fn limits_of_requests_are_kept(rt: HostRuntime) -> Result<(), Fail> {
    for (byte, count, rule, at) in [
        (b'0', 8192, None, 0),
        (b'0', 8193, Some(InputRule::RequestTooLong), 8192),
        (b'\n', 1024, None, 0),
        (b'\n', 1025, Some(InputRule::TooManyRequests), 1024),
        (b'0', 8_390_657, Some(InputRule::TooLong), 8_390_656),
    ] {
        let bytes = Vec::from_elem(rt.alloc(), byte, count)?;
        let fault = read_requests(rt.alloc(), bytes.as_slice()).err();
        let want = rule.map(|rule| InputFault::Refused { rule, at });
        check_equal(&rt, (byte, count, fault), (byte, count, want));
    }
    Ok(())
}

/// How many steps a schedule of so many threads has, and the last one.
fn steps_of(alloc: Global, text: &[u8], threads: u32) -> Result<(usize, Option<u8>), InputFault> {
    let schedule = read_schedule(alloc, text, threads)?;
    let count = schedule.len();
    let last = if count == 0 {
        None
    } else {
        Some(*schedule.get(count - 1))
    };
    Ok((count, last))
}

#[test]
fn digits_are_steps(rt: HostRuntime) -> Result<(), Fail> {
    for (text, threads, count, last) in [
        ("0 0\r\n0", 1, 3, Some(0)),
        ("f", 16, 1, Some(15)),
        ("9a", 11, 2, Some(10)),
        ("", 1, 0, None),
    ] {
        let read = steps_of(rt.alloc(), text.as_bytes(), threads)?;
        check_equal(&rt, (text, read), (text, (count, last)));
    }
    Ok(())
}

#[test]
fn other_bytes_and_threads_are_refused(rt: HostRuntime) {
    for (text, threads, at) in [("0g", 1, 1), ("1", 1, 0), ("0\t", 1, 1), ("A", 16, 0)] {
        let rule = InputRule::BadThread;
        let fault = read_schedule(rt.alloc(), text.as_bytes(), threads).err();
        let refused = Some(InputFault::Refused { rule, at });
        check_equal(&rt, (text, fault), (text, refused));
    }
}

#[test]
fn fewer_steps_may_be_asked_for(rt: HostRuntime) -> Result<(), Fail> {
    let schedule = read_schedule_within(rt.alloc(), b"0 0", 1, 2)?;
    check_equal(&rt, schedule.len(), 2);
    let rule = InputRule::TooManySteps;
    let fault = read_schedule_within(rt.alloc(), b"0 00", 1, 2).err();
    check_equal(&rt, fault, Some(InputFault::Refused { rule, at: 3 }));
    Ok(())
}

#[test]
fn limits_of_schedules_are_kept(rt: HostRuntime) -> Result<(), Fail> {
    for (byte, count, rule, at) in [
        (b'0', 16_000_001, InputRule::TooManySteps, 16_000_000),
        (b' ', 16_777_217, InputRule::TooLong, 16_777_216),
    ] {
        let bytes = Vec::from_elem(rt.alloc(), byte, count)?;
        let fault = read_schedule(rt.alloc(), bytes.as_slice(), 1).err();
        check_equal(&rt, fault, Some(InputFault::Refused { rule, at }));
    }
    Ok(())
}
