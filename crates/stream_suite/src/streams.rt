//! Streams of a small server.

ghost use Rattle.std.specs.Prelude.{◌≤◌, length};

use crate::guests::serve_of;
use crate::outside::{CountingSink, HoldingGate, LineGate};
use lwc_io::{Gate, MemorySink, OpenGate, Sink};
use lwc_stream::{Streamed, stream_all};
use process_core::Process;
use std::alloc::Global;
use std::process::Abort;
use std::sync::Wait;
use std::test::Fail;
use std::thread::Threads;

/// Streams requests of one byte each, and says whether a write failed.
fn stream<R: AllocGlobal + Abort + Threads + Wait + Sync, G: Gate, O: Sink>(
    rt: &R,
    bytes: &[u8],
    workers: u32,
    gate: &G,
    out: &mut O,
) -> Result<bool, Fail>
    requires few { length bytes.now ≤ 8 }
    requires workers { (1 ≤ workers) × (workers ≤ 16) }
{
    let kernel = serve_of(rt, bytes, workers)?;
    let count = kernel.request_count();
    let (process, passes) = Process::open(rt.alloc(), kernel)?;
    let streamed = stream_all(rt, rt.alloc(), &process, passes, gate, count, out);
    let Streamed { failed, passes } = streamed.expect(rt, "memory for a stream");
    drop(process.close(passes));
    Ok(failed)
}

/// A sink in memory in which each write takes at most this many bytes, and of which those writes fail.
fn sink(alloc: Global, most: usize, failing: &[u64]) -> Result<MemorySink, Fail> {
    let mut sink = MemorySink::new(alloc, most, Vec::from_slice(alloc, failing)?);
    sink.reserve(1000)?;
    Ok(sink)
}

/// What is written of two requests that are served well.
const TWO_REPLIES: &[u8] = b"reply 0 done 0 01\nreply 1 done 0 01\n";

/// What a stream left.
#[derive(Clone, Copy, PartialEq, Eq)]
struct Left {
    /// Whether the stream says that a write failed.
    failed: bool,
    /// How many writes of the sink failed.
    faults: u64,
    /// Whether the sink has just the lines that it should have.
    is_whole: bool,
}

/// What is left where all lines were written.
const WHOLE: Left = Left {
    failed: false,
    faults: 0,
    is_whole: true,
};

/// Streams requests of one byte each to a sink that should have these lines then.
fn written<R: AllocGlobal + Abort + Threads + Wait + Sync, G: Gate>(
    rt: &R,
    bytes: &[u8],
    workers: u32,
    gate: &G,
    out: &mut MemorySink,
    lines: &[u8],
) -> Result<Left, Fail>
    requires few { length bytes.now ≤ 8 }
    requires workers { (1 ≤ workers) × (workers ≤ 16) }
{
    let failed = stream(rt, bytes, workers, gate, out)?;
    Ok(Left {
        failed,
        faults: out.fault_count(),
        is_whole: out.bytes() == lines,
    })
}

#[test]
fn replies_are_written_in_the_order_of_their_requests(rt: HostRuntime) -> Result<(), Fail> {
    let lines = b"reply 0 done 0 01\nreply 1 done 0 01\nreply 2 fault 2 -\nreply 3 done 0 01\n";
    let bytes = [0, 0, 1, 0];
    for workers in 1..3 {
        let mut out = sink(rt.alloc(), 5, &[])?;
        let left = written(&rt, &bytes, workers, &OpenGate, &mut out, lines)?;
        assert!(rt; left == WHOLE, "with {workers} workers");
    }
    Ok(())
}

/// How many workers there are, and which one is free at first. Where it is the last of many, all others have started
/// and are held when it serves.
const HELD: [(u32, u32); 12] = [
    (1, 0),
    (2, 0),
    (2, 1),
    (3, 0),
    (3, 2),
    (4, 0),
    (4, 1),
    (4, 2),
    (4, 3),
    (16, 0),
    (16, 7),
    (16, 15),
];

/// Streams two requests to a sink while all workers are held until it has taken the line of request 0: the free one
/// once it has served that request, and the others before their first turns. What is left, and whether the looks of
/// the gate ran out.
fn written_while_held<R: AllocGlobal + Abort + Threads + Wait + Sync>(
    rt: &R,
    workers: u32,
    free: u32,
) -> Result<(Left, bool), Fail>
    requires { (1 ≤ workers) × (workers ≤ 16) }
{
    let gate = LineGate::new(free);
    let mut out = CountingSink {
        sink: sink(rt.alloc(), 100, &[])?,
        lines: &gate.lines,
    };
    let failed = stream(rt, &[0, 0], workers, &gate, &mut out)?;
    let left = Left {
        failed,
        faults: out.sink.fault_count(),
        is_whole: out.sink.bytes() == TWO_REPLIES,
    };
    Ok((left, gate.has_run_out()))
}

#[test]
fn a_line_is_written_while_workers_are_held(rt: HostRuntime) -> Result<(), Fail> {
    for (workers, free) in HELD {
        assert!(rt; 1 <= workers && workers <= 16);
        let left = written_while_held(&rt, workers, free)?;
        assert!(rt;
            left == (WHOLE, false),
            "thread {free} of {workers} is not held"
        );
    }
    Ok(())
}

#[test]
fn workers_go_on_side_by_side(rt: HostRuntime) -> Result<(), Fail> {
    for (held, awaited) in [(0, 1), (1, 0)] {
        let gate = HoldingGate::new(held, awaited);
        let mut out = sink(rt.alloc(), 100, &[])?;
        let left = written(&rt, &[0, 0], 2, &gate, &mut out, TWO_REPLIES)?;
        assert!(rt;
            left == WHOLE && !gate.has_run_out(),
            "thread {held} is held"
        );
    }
    Ok(())
}

#[test]
fn after_a_failed_write_no_more_is_written(rt: HostRuntime) -> Result<(), Fail> {
    let mut out = sink(rt.alloc(), 100, &[1])?;
    let line = b"reply 0 done 0 01\n";
    let left = written(&rt, &[0, 0, 0], 2, &OpenGate, &mut out, line)?;
    let cut = Left {
        failed: true,
        faults: 1,
        is_whole: true,
    };
    assert!(rt; left == cut);
    Ok(())
}
