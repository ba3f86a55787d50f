//! The passes that a process begins with.
ghost use Rattle.std.specs.Prelude.{◌≡◌, ◌<◌, ◌≤◌, ℕ, [], length, IfOk, Some, slice_get, vec_capacity};
ghost use Rattle.kernel_core.specs.Histories.{turn_after};
ghost use Rattle.kernel_core.specs.Kernel as kernels;
ghost use Rattle.kernel_core.specs.Start.{thread_count};
ghost use Rattle.kernel_core.specs.declared.thread.Turn.{Turn};
ghost use Rattle.process_core.specs.Running.{Carried, IsNewPass};
ghost use Rattle.process_core.specs.declared.opened.Opened.{Opened};
ghost use Rattle.turnstile.specs.Passes as gates;
ghost use Rattle.turnstile.specs.Passes.{Held};

use crate::guarded::Guarded;
use crate::passes::{ProcessPass, ProcessPasses};
use kernel_core::{Kernel, Turn};
use lwc_base::OutOfMemory;
use std::alloc::Global;
use turnstile::{Passes, Turnstile};
use world_face::World;

/// How each thread of a kernel is. The only error is out of memory.
pub(crate) fn first_turns<W: World>(
    alloc: Global,
    kernel: &Kernel<W>,
) -> Result<Vec<Turn>, OutOfMemory>
    requires fresh { kernel.now.steps ≡ [] }
    ensures count { IfOk result (λ turns. length turns.items ≡ thread_count kernel.now.inputs) }
    ensures turns { IfOk result (λ turns. (t : ℕ) (last : Turn) →
        slice_get turns.items t ≡ Some last → kernels.turn kernel.now t ≡ Some last) }
{
    let mut turns = Vec::new(alloc);
    'threads: for t in 0..kernel.thread_count() {
        turns.push(kernel.first_turn(t))?;
    }
    Ok(turns)
}

/// Gives each pass of the lock to a pass of the process. The only error is out of memory.
pub(crate) fn hand_out<W: World>(
    gate: &Turnstile<Guarded<W>>,
    mut held: Passes<Guarded<W>>,
    alloc: Global,
    turns: &Vec<Turn>,
    mut passes: ProcessPasses<W>,
) -> Result<ProcessPasses<W>, OutOfMemory>
    requires empty { passes.items ≡ [] }
    requires room { length held.items ≤ vec_capacity passes }
    requires count { length held.items ≡ length turns.now.items }
    requires new { (i : ℕ) (p : Held Opened) → slice_get held.items i ≡ Some p
        → gates.IsNewPass gate.now i p }
    requires threads { length turns.now.items ≡ thread_count gate.now.name.inputs }
    requires turns { (t : ℕ) (last : Turn) →
        slice_get turns.now.items t ≡ Some last → turn_after gate.now.name.inputs [] t ≡ Some last }
    ensures count { IfOk result (λ given. length given.items ≡ length held.items) }
    ensures new { IfOk result (λ given. (i : ℕ) (p : Carried) →
        slice_get given.items i ≡ Some p → IsNewPass gate.now i p) }
{
    'held: while !held.is_empty() {
        let pass = held.remove(0);
        let last = Box::new(alloc, turns[passes.len()].same())?;
        passes.push_reserved(ProcessPass::new(pass, last));
    }
    Ok(passes)
}
