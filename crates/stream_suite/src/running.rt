//! Threads that are carried side by side: while one is held, another goes on.

ghost use Rattle.std.specs.Prelude.{◌≡◌, ◌≤◌, []};
ghost use Rattle.kernel_core.specs.Kernel.{machine_of};
ghost use Rattle.kernel_core.specs.Machine.{work};

use crate::guests::{run_of_many, run_of_two, serve_of};
use crate::outside::{FullGate, HoldingGate};
use kernel_core::Kernel;
use lazy_world::LazyWorld;
use lwc_base::ThreadStatus;
use lwc_io::Gate;
use process_core::Process;
use std::process::Abort;
use std::sync::Wait;
use std::test::Fail;
use std::thread::Threads;
use thread_carrier::run_threads;

/// How many threads are all held at once.
const HELD_AT_ONCE: [u32; 2] = [3, 16];

/// The kernel after its threads were carried to their ends.
fn carried<R: AllocGlobal + Abort + Threads + Wait + Sync, G: Gate>(
    rt: &R,
    kernel: Kernel<LazyWorld>,
    gate: &G,
) -> Result<Kernel<LazyWorld>, Fail>
    requires fresh { kernel.steps ≡ [] }
    requires room { work (machine_of kernel) ≤ kernel.room }
{
    let (process, passes) = Process::open(rt.alloc(), kernel)?;
    Ok(run_threads(rt, rt.alloc(), process, passes, gate)?)
}

/// What a kernel shows of a run or a serve of two threads: the number of steps and the first one, and how each thread
/// ended with its register 6.
type Shown = (usize, Option<u8>, [Option<(ThreadStatus, u64)>; 2]);

/// What is shown of a kernel after its threads were carried.
fn shown(kernel: &Kernel<LazyWorld>) -> Shown {
    let steps = kernel.schedule();
    let first = steps.first().copied();
    (steps.len(), first, [left_of(kernel, 0), left_of(kernel, 1)])
}

/// How a thread ended, and its register 6, where the kernel has a thread of this number.
fn left_of(kernel: &Kernel<LazyWorld>, thread: u32) -> Option<(ThreadStatus, u64)> {
    if thread < kernel.thread_count() {
        let view = kernel.thread(thread);
        Some((view.status, view.regs.r[6]))
    } else {
        None
    }
}

/// What a run of two threads shows.
fn run_by<R: AllocGlobal + Abort + Threads + Wait + Sync>(
    rt: &R,
    gate: &HoldingGate,
) -> Result<Shown, Fail> {
    let kernel = carried(rt, run_of_two(rt)?, gate)?;
    let left = shown(&kernel);
    drop(kernel);
    Ok(left)
}

/// Whether a request has ended well, with a reply of the byte 1.
fn is_replied(kernel: &Kernel<LazyWorld>, request: u16) -> bool {
    kernel.reply(request).is_some_and(|reply| {
        reply.status == ThreadStatus::Done { code: 0 } && reply.bytes == [1].as_slice()
    })
}

/// What a serve of two requests by two workers shows, and whether each is replied.
fn serve_by<R: AllocGlobal + Abort + Threads + Wait + Sync>(
    rt: &R,
    gate: &HoldingGate,
) -> Result<(Shown, [bool; 2]), Fail> {
    let kernel = carried(rt, serve_of(rt, &[0, 0], 2)?, gate)?;
    let left = shown(&kernel);
    let are_replied = [is_replied(&kernel, 0), is_replied(&kernel, 1)];
    drop(kernel);
    Ok((left, are_replied))
}

#[test]
fn threads_of_a_run_go_on_side_by_side(rt: HostRuntime) -> Result<(), Fail> {
    let done = ThreadStatus::Done { code: 0 };
    // The second thread loads 0 where the first is held before it stores 7.
    for (held, awaited, first, loaded) in [(0, 1, 1, 0), (1, 0, 0, 7)] {
        let gate = HoldingGate::new(held, awaited);
        let left = run_by(&rt, &gate)?;
        let ends = [Some((done, 0)), Some((done, loaded))];
        assert!(rt;
            left == (4, Some(first), ends) && !gate.has_run_out(),
            "thread {held} is held"
        );
    }
    Ok(())
}

#[test]
fn workers_serve_side_by_side(rt: HostRuntime) -> Result<(), Fail> {
    let ends = [Some((ThreadStatus::Done { code: 0 }, 0)); 2];
    // A request takes seven steps, and a worker one more, which finds no request.
    for (held, awaited, first) in [(0, 1, 1), (1, 0, 0)] {
        let gate = HoldingGate::new(held, awaited);
        let left = serve_by(&rt, &gate)?;
        assert!(rt;
            left == ((16, Some(first), ends), [true; 2]) && !gate.has_run_out(),
            "thread {held} is held"
        );
    }
    Ok(())
}

/// How many threads of a kernel have ended well, with 7 in register 6.
fn count_of_sevens(kernel: &Kernel<LazyWorld>) -> u32 {
    let seven = Some((ThreadStatus::Done { code: 0 }, 7));
    let mut count = 0u32;
    for thread in 0..kernel.thread_count() {
        if left_of(kernel, thread) == seven {
            count = count.wrapping_add(1);
        }
    }
    count
}

/// The number of steps of a run of this many threads that are all held at once before this turn, how many of them
/// ended well with what they stored, and whether the looks of the gate ran out.
fn run_while_all_are_held<R: AllocGlobal + Abort + Threads + Wait + Sync>(
    rt: &R,
    threads: u32,
    turn: u64,
) -> Result<(usize, u32, bool), Fail>
    requires { threads ≤ 16 }
{
    let gate = FullGate::new(threads, turn);
    let kernel = carried(rt, run_of_many(rt, threads)?, &gate)?;
    let left = (kernel.schedule().len(), count_of_sevens(&kernel));
    drop(kernel);
    Ok((left.0, left.1, gate.has_run_out()))
}

#[test]
fn all_threads_of_a_run_are_held_at_once(rt: HostRuntime) -> Result<(), Fail> {
    for threads in HELD_AT_ONCE {
        assert!(rt; threads <= 16);
        let left = run_while_all_are_held(&rt, threads, 0)?;
        // A thread makes three steps: it stores, loads and halts.
        assert!(rt;
            left == (3 * threads as usize, threads, false),
            "all of {threads} threads are held"
        );
    }
    Ok(())
}

#[test]
fn threads_that_are_held_between_two_turns_are_outside(rt: HostRuntime) -> Result<(), Fail> {
    // A thread that stayed inside behind its store would keep the others from theirs.
    let left = run_while_all_are_held(&rt, 3, 1)?;
    assert!(rt; left == (9, 3, false));
    Ok(())
}
