ghost use Rattle.std.specs.Prelude.{◌≡◌, ◌<◌, ◌^◌, true, All, map};
ghost use Rattle.std.specs.List.{AllZip};
ghost use Rattle.kernel_core.specs.Machine.{has_ended};
ghost use Rattle.process_core.specs.Running.{IsPassOf};
ghost use Rattle.thread_carrier.specs.Turned.{HasTurned};

use lwc_io::Gate;
use process_core::Process;
use std::sync::Wait;
use std::thread::Threads;
use world_face::World;

/// A thread that is carried: its pass, and the number of turns that it has made.
pub type Carrier<W> = process_core::Carrier<W, u64>;

/// Carries a thread to its end. For each turn it first advances the thread's registers, outside the lock, unless the
/// thread is alone; then it comes to the gate; then it makes the turn with that advance as its proposal. Where the gate
/// does not wait, up to 32 turns are made in one stay inside the lock. It may wait, and takes no memory.
pub fn carry<R: Wait, W: World, G: Gate>(
    rt: &R,
    process: &Process<W>,
    carrier: &mut Carrier<W>,
    gate: &G,
)
    requires ours { IsPassOf process.now carrier.old.pass }
    requires turns { carrier.old.turns < 2 ^ 63 }
    ensures ours { IsPassOf process.now carrier.new.pass }
    ensures number { carrier.new.pass.held.number ≡ carrier.old.pass.held.number }
    ensures ended { has_ended carrier.new.pass.last.status ≡ true }
    ensures turns { HasTurned carrier.old.pass carrier.old.turns carrier.new.pass carrier.new.turns }
{
    process_core::carry(rt, process, carrier, gate);
}

/// Carries all threads to their ends, each in a thread of the host's own where one can be made. It may wait.
pub fn carry_all<R: Threads + Wait + Sync, W: World, G: Gate>(
    rt: &R,
    process: &Process<W>,
    carriers: &mut [Carrier<W>],
    gate: &G,
)
    requires ours { All (λ c. IsPassOf process.now c.pass) carriers.old }
    requires turns { All (λ c. c.turns < 2 ^ 63) carriers.old }
    ensures ours { All (λ c. IsPassOf process.now c.pass) carriers.new }
    ensures numbers { map (λ c. c.pass.held.number) carriers.new
        ≡ map (λ c. c.pass.held.number) carriers.old }
    ensures ended { All (λ c. has_ended c.pass.last.status ≡ true) carriers.new }
    ensures turns { AllZip (λ b c. HasTurned b.pass b.turns c.pass c.turns) carriers.old carriers.new }
{
    process_core::carry_all(rt, process, carriers, gate);
}
