//! The workers in threads of their own, and the caller beside them.
ghost use Rattle.std.specs.Prelude.{◌≡◌, ◌≤◌, List, All, length, map};
ghost use Rattle.lwc_io.specs.Outside.{SinkView};
ghost use Rattle.lwc_stream.specs.Workers.{HaveServed, IsFresh};
ghost use Rattle.lwc_stream.specs.Streams.{HasShown};

use crate::collector::Collector;
use crate::signal::Signal;
use crate::worker::Worker;
use lwc_io::{Gate, Sink};
use process_core::{Process, carry_all};
use std::snapshot::Snapshot;
use std::sync::{Arc, Wait};
use std::thread;
use std::thread::{Promise, Scope, Threads};
use world_face::World;

/// Carries all threads to their ends, each in a thread of the host's own where one can be made. It may wait.
fn serve_in_threads<'a, R: Threads + Wait + Sync, W: World, G: Gate>(
    rt: &R,
    process: &Process<W>,
    gate: &G,
    mut workers: Vec<Worker<'a, W>>,
) -> Vec<Worker<'a, W>>
    requires fresh { All (λ w. IsFresh process.now w.pass w.turns.turns w.turns.puts) workers.items }
    ensures { HaveServed (λ w. w.pass) (λ w. w.turns.puts) process.now workers.entry.items result.items }
{
    carry_all(rt, process, workers.as_mut_slice(), gate);
    workers
}

/// What workers return has served.
#[derive(Drop)]
struct Served<'a, W: World> {
    process: Snapshot<Process<W>>,
    before: Snapshot<Vec<Worker<'a, W>>>,
}

impl<'a, W: World> Promise<Vec<Worker<'a, W>>> for Served<'a, W> {
    ghost use Rattle.lwc_stream.specs.Workers.{HaveServed};

    ghost kept_by = { λ p r. HaveServed (λ w. w.pass) (λ w. w.turns.puts)
        p.process.value p.before.value.items r.items };
}

/// What the caller does while workers go on.
trait Caller {
    type Output;

    ghost gives: { Self → Self.Output → Type 0 };

    fn run<R: Wait>(self, rt: &R) -> Self::Output
        ensures { gives self result };
}

/// The collector, the sink that it shows replies to, and how it is notified by how many workers.
#[derive(Drop)]
struct Collecting<'o, 'a, O> {
    out: &'o mut O,
    collector: Collector<'a>,
    signal: Arc<Signal>,
    workers: usize,
}

impl<'o, 'a, O: Sink> Caller for Collecting<'o, 'a, O> {
    type Output = (&'o mut O, Collector<'a>);

    ghost gives = { λ c r. (r.0.ghost_name ≡ c.out.ghost_name)
        × (map (λ e. e.queue) r.1.takes.items ≡ map (λ e. e.queue) c.collector.takes.items)
        × (length r.1.waiting.places ≡ length c.collector.waiting.places)
        × ((before : SinkView) →
        HasShown (map (λ e. e.values) c.collector.takes.items)
        c.collector.waiting c.collector.writer before (O.seen c.out.now) →
        HasShown (map (λ e. e.values) r.1.takes.items)
        r.1.waiting r.1.writer before (O.seen r.0.now)) };

    fn run<R: Wait>(self, rt: &R) -> (&'o mut O, Collector<'a>) {
        let Collecting {
            out,
            collector,
            signal,
            workers,
        } = self;
        let mut collector = collector;
        collector.follow(rt, &signal, workers, out);
        (out, collector)
    }
}

/// Starts the workers in threads of a scope, and goes on beside them. Where they cannot be started, the caller
/// does their work first.
fn serve_in_scope<
    's,
    'a: 's,
    E,
    R: Threads + Wait + Sync + 's,
    W: World + 's,
    G: Gate + 's,
    S: Caller<Output = A> + Drop,
    A,
>(
    scope: &Scope<'s, E>,
    rt: &'s R,
    process: &'s Process<W>,
    gate: &'s G,
    caller: S,
    workers: Vec<Worker<'a, W>>,
) -> (Vec<Worker<'a, W>>, A)
    requires fresh { All (λ w. IsFresh process.now w.pass w.turns.turns w.turns.puts) workers.items }
    ensures served { HaveServed (λ w. w.pass)
        (λ w. w.turns.puts) process.now workers.entry.items result.0.items }
    ensures gives { S.gives caller result.1 }
{
    let promise = Served::<'a, W> {
        process: Snapshot::of(process),
        before: Snapshot::of(&workers),
    };
    let started = scope.spawn_with(
        promise,
        move || -> Vec<Worker<W>>
            requires { All (λ w. IsFresh process.now w.pass w.turns.turns w.turns.puts) workers.items }
            ensures { HaveServed (λ w. w.pass)
                (λ w. w.turns.puts) process.entry.now workers.entry.items result.items }
        { serve_in_threads(rt, process, gate, workers) },
    );
    match started {
        Ok(handle) => {
            let given = caller.run(rt);
            (handle.join(rt), given)
        }
        Err(refused) => {
            let workers = (refused.value)();
            let given = caller.run(rt);
            (workers, given)
        }
    }
}

/// Carries all threads to their ends beside the caller.
fn serve_in_new_scope<
    'a,
    R: Threads + Wait + Sync,
    W: World,
    G: Gate,
    S: Caller<Output = A> + Drop,
    A,
>(
    rt: &R,
    process: &Process<W>,
    gate: &G,
    caller: S,
    workers: Vec<Worker<'a, W>>,
) -> (Vec<Worker<'a, W>>, A)
    requires fresh { All (λ w. IsFresh process.now w.pass w.turns.turns w.turns.puts) workers.items }
    ensures served { HaveServed (λ w. w.pass)
        (λ w. w.turns.puts) process.now workers.entry.items result.0.items }
    ensures gives { S.gives caller result.1 }
{
    thread::scope(
        thread::scope_env(),
        rt,
        move |scope| -> (Vec<Worker<W>>, A)
            requires { All (λ w. IsFresh process.now w.pass w.turns.turns w.turns.puts) workers.items }
            ensures { HaveServed (λ w. w.pass)
                (λ w. w.turns.puts) process.entry.now workers.entry.items result.0.items
                × S.gives caller result.1 }
        { serve_in_scope(scope, rt, process, gate, caller, workers) },
    )
}

/// Ends a loan that was handed on.
fn take_back<T>(lent: &mut T)
    ensures { lent.new ≡ lent.old }
{}

/// Carries all threads to their ends, and shows replies to the sink meanwhile. It may wait.
pub(crate) fn serve_beside<'a, R: Threads + Wait + Sync, W: World, G: Gate, O: Sink>(
    rt: &R,
    process: &Process<W>,
    gate: &G,
    signal: Arc<Signal>,
    out: &mut O,
    collector: Collector<'a>,
    workers: Vec<Worker<'a, W>>,
) -> (Vec<Worker<'a, W>>, Collector<'a>)
    requires never_full { All (λ e. length process.now.name.inputs.requests ≤ e.queue.slots) collector.takes.items }
    requires fresh { All (λ w. IsFresh process.now w.pass w.turns.turns w.turns.puts) workers.items }
    ensures served { HaveServed (λ w. w.pass)
        (λ w. w.turns.puts) process.now workers.entry.items result.0.items }
    ensures queues { map (λ e. e.queue) result.1.takes.items
        ≡ map (λ e. e.queue) collector.entry.takes.items }
    ensures places { length result.1.waiting.places ≡ length collector.entry.waiting.places }
    ensures shown { (before : SinkView) →
        HasShown (map (λ e. e.values) collector.entry.takes.items)
        collector.entry.waiting collector.entry.writer before (O.seen out.old) →
        HasShown (map (λ e. e.values) result.1.takes.items)
        result.1.waiting result.1.writer before (O.seen out.new) }
{
    let caller = Collecting {
        out,
        collector,
        signal,
        workers: workers.len(),
    };
    let (workers, (out, collector)) = serve_in_new_scope(rt, process, gate, caller, workers);
    take_back(out);
    (workers, collector)
}
