ghost use Rattle.std.specs.Prelude.{◌≡◌, ◌+◌, IfOk, length};
ghost use Rattle.kernel_core.specs.Histories.{IsComplete};
ghost use Rattle.kernel_core.specs.Start.{start};
ghost use Rattle.process_core.specs.Running.{AreAllOf};

use crate::carrier::carry_all;
use kernel_core::Kernel;
use lwc_base::OutOfMemory;
use lwc_io::Gate;
use process_core::{Process, ProcessPasses, carriers_of, parts_of};
use std::alloc::Global;
use std::sync::Wait;
use std::thread::Threads;
use world_face::World;

/// Runs all threads of a process to their ends, and gives its kernel back. The steps that the kernel has kept then are
/// a legal history after which every thread has ended, and with the room that is left they are the room at the start.
/// It may wait.
///
/// Each thread is carried by a worker of its own where one can be started, and comes to the gate before each turn. No
/// clause says so; tests show it.
///
/// # Errors
///
/// The only error is out of memory. The process is then given up, before a thread has come to the gate; no clause says
/// when.
pub fn run_threads<R: Threads + Wait + Sync, W: World, G: Gate>(
    rt: &R,
    alloc: Global,
    process: Process<W>,
    passes: ProcessPasses<W>,
    gate: &G,
) -> Result<Kernel<W>, OutOfMemory>
    requires all { AreAllOf process passes.items }
    ensures inputs { IfOk result (λ after. after.inputs ≡ process.name.inputs) }
    ensures complete { IfOk result (λ after. IsComplete (start process.name.inputs) after.steps) }
    ensures whole { IfOk result (λ after. length after.steps + after.room ≡ process.name.room) }
{
    let taken = Vec::with_capacity(alloc, passes.len())?;
    let counted = Vec::with_capacity(alloc, passes.len())?;
    let carriers = Vec::with_capacity(alloc, passes.len())?;
    let none = vec![in alloc; 0u64; passes.len()]?;
    let mut carriers = carriers_of(carriers, passes, none);
    carry_all(rt, &process, carriers.as_mut_slice(), gate);
    let (passes, _) = parts_of(carriers, taken, counted);
    Ok(process.close(passes))
}
