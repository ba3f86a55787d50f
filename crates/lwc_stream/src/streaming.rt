//! A stream as a whole.
ghost use Rattle.std.specs.Prelude.{◌≡◌, ◌<◌, ◌≤◌, ◌^◌, [], false, true, All, Bool, IfOk, List, None, OnErr};
ghost use Rattle.std.specs.Prelude.{length, map, replicate, vec_capacity};
ghost use Rattle.kernel_core.specs.Machine.{has_ended};
ghost use Rattle.lwc_io.specs.Outside.{SinkView};
ghost use Rattle.lwc_stream.specs.Blocks.{HaveRoom};
ghost use Rattle.lwc_stream.specs.Replies.{AreShown, IsWritten, finished_by, lines_of};
ghost use Rattle.lwc_stream.specs.Streams.{HasShown};
ghost use Rattle.process_core.specs.Running.{AreAllOf};
ghost use Rattle.snapshot_host.specs.declared.finishing.Finished.{Finished};

use crate::beside::serve_beside;
use crate::collector::{Collector, show_ready, take_rest};
use crate::ends::{Takes, open_queue};
use crate::signal::Signal;
use crate::store::{BLOCKS, Store, open_blocks};
use crate::waiting::Waiting;
use crate::worker::{Outbox, Worker};
use crate::writer::LineWriter;
use lwc_base::OutOfMemory;
use lwc_io::{Gate, Sink};
use process_core::{Process, ProcessPasses, carriers_of, parts_of};
use std::alloc::Global;
use std::sync::{Arc, Wait};
use std::thread::Threads;
use world_face::World;

/// What a stream leaves: whether a write failed, and all passes.
#[derive(Drop)]
pub struct Streamed<W: World> {
    pub failed: bool,
    pub passes: ProcessPasses<W>,
}

/// Runs all threads of a serve of this number of requests, of which no step was kept, to their ends, and writes the
/// lines of the replies in the order of the requests, each as soon as it and all earlier ones are there. After a write
/// that failed it writes no more, and goes on to the end. It hands all passes back, and may wait.
///
/// Each thread is carried by a worker of its own where one can be started, and comes to the gate before each
/// turn. A line may be written while workers go on: no clause says so, tests show it. All memory is taken before
/// the first turn, but for what starting threads takes: what runs later has no allocator. No clause says so;
/// `scripts/check-alloc-faults` shows that no worker waits for memory.
///
/// # Errors
///
/// The only error is out of memory. Nothing was written then; the passes are given up.
pub fn stream_all<R: Threads + Wait + Sync, W: World, G: Gate, O: Sink>(
    rt: &R,
    alloc: Global,
    process: &Process<W>,
    passes: ProcessPasses<W>,
    gate: &G,
    requests: u32,
    out: &mut O,
) -> Result<Streamed<W>, OutOfMemory>
    requires count { requests ≡ length process.now.name.inputs.requests }
    requires all { AreAllOf process.now passes.items }
    requires fresh { All (λ p. p.held.seen ≡ []) passes.items }
    ensures all { IfOk result (λ s. AreAllOf process.now s.passes.items) }
    ensures numbers { IfOk result (λ s. map (λ p. p.held.number) s.passes.items
        ≡ map (λ p. p.held.number) passes.items) }
    ensures ended { IfOk result (λ s. All (λ p. has_ended p.last.status ≡ true) s.passes.items) }
    ensures written { IfOk result (λ s. (shown : List Finished)
        × AreShown (map (finished_by process.now.name.inputs) s.passes.items) requests shown
        × IsWritten s.failed (O.seen out.old) (O.seen out.new) (lines_of shown)) }
    ensures unwritten { OnErr result (O.seen out.new ≡ O.seen out.old) }
{
    let taken = Vec::with_capacity(alloc, passes.len())?;
    let mut blocks = open_blocks(alloc, passes.len(), requests as usize)?;
    let signal = Arc::new(alloc, Signal::new())?;
    let (workers, collector, left) = open_stream(
        alloc,
        passes,
        requests as usize,
        blocks.as_mut_slice(),
        &signal,
    )?;
    let (workers, collector) = serve_beside(rt, process, gate, signal, out, collector, workers);
    Ok(finish(rt, workers, collector, taken, left, out))
}

/// What a stream of this many requests begins with: workers with these passes, each with blocks for the bytes of its
/// replies and the end of a queue into which it puts them; the collector at the other ends; and room for what counted
/// the workers' turns. The only error is out of memory.
fn open_stream<'a, W: World>(
    alloc: Global,
    passes: ProcessPasses<W>,
    requests: usize,
    blocks: &'a mut [[Vec<u8>; BLOCKS]],
    signal: &Arc<Signal>,
) -> Result<(Vec<Worker<'a, W>>, Collector<'a>, Vec<Outbox<'a>>), OutOfMemory>
    requires room { All (HaveRoom requests) blocks.old }
    ensures passes { IfOk result (λ s. map (λ w. w.pass) s.0.items ≡ passes.items) }
    ensures queues { IfOk result (λ s. map (λ w. w.turns.puts.queue) s.0.items
        ≡ map (λ e. e.queue) s.1.takes.items) }
    ensures unturned { IfOk result (λ s. All (λ w. w.turns.turns ≡ 0) s.0.items) }
    ensures unput { IfOk result (λ s. All (λ w. w.turns.puts.values ≡ []) s.0.items) }
    ensures untaken { IfOk result (λ s. All (λ e. e.values ≡ []) s.1.takes.items) }
    ensures never_full { IfOk result (λ s. All (λ e. requests ≤ e.queue.slots) s.1.takes.items) }
    ensures waiting { IfOk result (λ s. s.1.waiting ≡ record { places = replicate requests None; next = 0 }) }
    ensures writer { IfOk result (λ s. s.1.writer ≡ false) }
    ensures none_left { IfOk result (λ s. s.2.items ≡ []) }
    ensures room { IfOk result (λ s. length passes.items ≤ vec_capacity s.2) }
{
    let left = Vec::with_capacity(alloc, passes.len())?;
    let workers = Vec::with_capacity(alloc, passes.len())?;
    let waiting = Waiting::open(alloc, requests)?;
    let writer = LineWriter::open(alloc)?;
    let (outboxes, takes) = open_queues(alloc, passes.len(), requests, blocks, signal)?;
    let workers = carriers_of(workers, passes, outboxes);
    let collector = Collector {
        takes,
        waiting,
        writer,
    };
    Ok((workers, collector, left))
}

/// Queues, each with room for this many replies, and their ends: where replies are put in, an outbox with blocks for
/// their bytes. The only error is out of memory.
fn open_queues<'a>(
    alloc: Global,
    count: usize,
    room: usize,
    mut blocks: &'a mut [[Vec<u8>; BLOCKS]],
    signal: &Arc<Signal>,
) -> Result<(Vec<Outbox<'a>>, Vec<Takes<'a>>), OutOfMemory>
    ensures count { IfOk result (λ q. length q.0.items ≡ count) }
    ensures queues { IfOk result (λ q. map (λ o. o.puts.queue) q.0.items ≡ map (λ e. e.queue) q.1.items) }
    ensures unturned { IfOk result (λ q. All (λ o. o.turns ≡ 0) q.0.items) }
    ensures unput { IfOk result (λ q. All (λ o. o.puts.values ≡ []) q.0.items) }
    ensures untaken { IfOk result (λ q. All (λ e. e.values ≡ []) q.1.items) }
    ensures room { IfOk result (λ q. All (λ e. room ≤ e.queue.slots) q.1.items) }
{
    let mut outboxes = Vec::new(alloc);
    let mut takes = Vec::new(alloc);
    'queues: for _ in 0..count {
        let (putting, taking) = open_queue(alloc, room)?;
        let store = match blocks.split_off_first_mut() {
            Some(of_one) => Store::new(of_one.as_mut_slice()),
            None => Store::new(&mut []),
        };
        let signal = Arc::try_clone(signal)?;
        outboxes.push(Outbox::new(putting, store, signal))?;
        takes.push(taking)?;
    }
    Ok((outboxes, takes))
}

/// Takes and shows what is left when all workers have ended.
fn finish<'a, R: Wait, W: World, O: Sink>(
    rt: &R,
    workers: Vec<Worker<'a, W>>,
    collector: Collector<'a>,
    taken: ProcessPasses<W>,
    left: Vec<Outbox<'a>>,
    out: &mut O,
) -> Streamed<W>
    requires queues { map (λ w. w.turns.puts.queue) workers.items ≡ map (λ e. e.queue) collector.takes.items }
    requires none_taken { taken.items ≡ [] }
    requires none_left { left.items ≡ [] }
    requires room { length workers.items ≤ vec_capacity taken }
    requires room_left { length workers.items ≤ vec_capacity left }
    ensures passes { result.passes.items ≡ map (λ w. w.pass) workers.entry.items }
    ensures written { (before : SinkView) →
        HasShown (map
        (λ e. e.values) collector.entry.takes.items) collector.entry.waiting collector.entry.writer
        before (O.seen out.old) →
        (shown : List Finished)
        × AreShown (map (λ w. w.turns.puts.values) workers.entry.items)
        (length collector.entry.waiting.places) shown
        × IsWritten result.failed before (O.seen out.new) (lines_of shown) }
{
    let Collector {
        takes,
        waiting,
        writer,
    } = collector;
    let mut waiting = waiting;
    let mut writer = writer;
    let (passes, outboxes) = parts_of(workers, taken, left);
    take_left(rt, outboxes, takes, &mut waiting);
    show_ready(&mut waiting, &mut writer, out);
    let failed = writer.has_failed();
    Streamed { failed, passes }
}

/// Takes what is left in all queues.
fn take_left<'a, R: Wait>(
    rt: &R,
    mut outboxes: Vec<Outbox<'a>>,
    mut ends: Vec<Takes<'a>>,
    waiting: &mut Waiting<'a>,
)
    requires queues { map (λ o. o.puts.queue) outboxes.items ≡ map (λ e. e.queue) ends.items }
    ensures shown { (failed : Bool) (before now : SinkView) →
        HasShown (map (λ e. e.values) ends.entry.items) waiting.old failed before now →
        HasShown (map (λ o. o.puts.values) outboxes.entry.items) waiting.new failed before now }
    ensures places { length waiting.new.places ≡ length waiting.old.places }
{
    'outboxes: while !outboxes.is_empty() {
        let Outbox { puts, .. } = outboxes.remove(0);
        let takes = ends.remove(0);
        take_rest(rt, puts, takes, waiting);
    }
}
