//! The passes of a process over the world that shares pages.

ghost use Rattle.std.specs.Prelude.{◌≡◌, ◌<◌, length};
ghost use Rattle.process_core.specs.Running.{AreAllOf};

use crate::guests::run_of_two;
use kernel_core::Kernel;
use lazy_world::LazyWorld;
use lwc_base::ThreadStatus;
use process_core::{Process, ProcessPasses};
use std::process::Abort;
use std::sync::Wait;
use std::test::Fail;

/// The number of steps that were kept as the i-th pass sees it, in a function that has no means to wait.
fn steps_so_far(
    process: &Process<LazyWorld>,
    passes: &mut ProcessPasses<LazyWorld>,
    index: usize,
) -> u64
    requires all { AreAllOf process.now passes.old.items }
    requires within { index < length passes.old.items }
    ensures all { AreAllOf process.now passes.new.items }
    ensures count { length passes.new.items ≡ length passes.old.items }
{
    process.steps_seen(&mut passes[index])
}

/// How a turn left its thread, and the thread's register 6.
type Left = (ThreadStatus, u64);

/// One turn of the i-th pass, and what it left.
fn turned<R: Wait>(
    rt: &R,
    process: &Process<LazyWorld>,
    passes: &mut ProcessPasses<LazyWorld>,
    index: usize,
) -> Left
    requires all { AreAllOf process.now passes.old.items }
    requires within { index < length passes.old.items }
    ensures all { AreAllOf process.now passes.new.items }
    ensures count { length passes.new.items ≡ length passes.old.items }
{
    let pass = &mut passes[index];
    let turn = process.turn(rt, pass, None);
    (turn.status, turn.regs.r[6])
}

/// Two turns of each of two passes by turns, and one more of the first: the steps that the second pass sees after the
/// first turn, and what each turn after that left.
fn turns_of_both<R: Wait>(
    rt: &R,
    process: &Process<LazyWorld>,
    passes: &mut ProcessPasses<LazyWorld>,
) -> (u64, [Left; 4])
    requires all { AreAllOf process.now passes.old.items }
    requires two { length passes.old.items ≡ 2 }
    ensures { AreAllOf process.now passes.new.items }
{
    turned(rt, process, passes, 0);
    let seen = steps_so_far(process, passes, 1);
    let loaded = turned(rt, process, passes, 1);
    let ended = turned(rt, process, passes, 0);
    let other = turned(rt, process, passes, 1);
    (seen, [loaded, ended, other, turned(rt, process, passes, 0)])
}

/// Whether the kernel has kept these steps.
fn has_kept(kernel: &Kernel<LazyWorld>, steps: &[u8]) -> bool {
    kernel.schedule() == steps
}

/// What the turns of two threads left, and whether these steps are their history.
fn history_of_two<R: AllocGlobal + Abort + Wait>(
    rt: &R,
    steps: &[u8],
) -> Result<((u64, [Left; 4]), bool), Fail> {
    let (process, mut passes) = Process::open(rt.alloc(), run_of_two(rt)?)?;
    let turns = turns_of_both(rt, &process, &mut passes);
    // Not as they were opened: `close` takes them in any order.
    passes.reverse();
    let kernel = process.close(passes);
    let is_kept = has_kept(&kernel, steps);
    drop(kernel);
    Ok((turns, is_kept))
}

#[test]
fn passes_make_one_history(rt: HostRuntime) -> Result<(), Fail> {
    let (turns, is_kept) = history_of_two(&rt, &[0, 1, 0, 1])?;
    let done = ThreadStatus::Done { code: 0 };
    let left = [(ThreadStatus::Running, 7), (done, 0), (done, 7), (done, 0)];
    assert!(rt; turns == (1, left) && is_kept);
    Ok(())
}
