//! Threads that are carried to their ends.
ghost use Rattle.std.specs.Prelude.{◌≡◌, ◌<◌, ◌^◌, true, All, map};
ghost use Rattle.std.specs.List.{AllZip};
ghost use Rattle.kernel_core.specs.Machine.{has_ended};
ghost use Rattle.process_core.specs.Running.{Carries, IsPassOf};

use crate::passes::ProcessPass;
use crate::process::Process;
use crate::stay::Stay;
use kernel_core::Turn;
use lwc_base::MOST_THREADS;
use lwc_io::Gate;
use std::sync::Wait;
use std::thread;
use std::thread::Threads;
use world_face::World;

/// What counts the turns of a thread, and may do more after each.
pub trait CountsTurns: Drop + Send {
    ghost use Rattle.std.specs.Prelude.{◌≡◌, ◌+◌, ◌<◌, ◌^◌, ℕ};
    ghost use Rattle.kernel_core.specs.declared.thread.Turn.{Turn};

    // How many it has counted.
    ghost count: { Self → ℕ };

    // What it may be after one more, which left the thread like this.
    ghost counts: { Self → Turn → Self → Type 0 };

    /// How many it has counted.
    fn count(&self) -> u64
        ensures { result ≡ count self.now };

    /// Counts a turn that left the thread like this. It may wait.
    fn add<R: Wait>(&mut self, rt: &R, left: &Turn)
        requires { count self.old < 2 ^ 63 + 2 ^ 62 }
        ensures count { count self.new ≡ count self.old + 1 }
        ensures counts { counts self.old left.now self.new };

    /// Notes that the thread has ended.
    fn end(&self);
}

/// A number counts the turns, and does nothing else.
impl CountsTurns for u64 {
    ghost use Rattle.std.specs.Prelude.{◌≡◌, ◌+◌};

    ghost count = { λ n. n };

    ghost counts = { λ n _ m. m ≡ n + 1 };

    fn count(&self) -> u64 {
        *self
    }

    fn add<R: Wait>(&mut self, _rt: &R, _left: &Turn) {
        *self += 1;
    }

    fn end(&self) {}
}

/// A thread that is carried: its pass, and what counts its turns.
#[derive(Drop)]
pub struct Carrier<W: World, T: CountsTurns> {
    pub pass: ProcessPass<W>,
    pub turns: T,
}

/// Carries a thread to its end. For each turn it first advances the thread's registers, outside the lock, unless the
/// thread is alone; then it comes to the gate; then it makes the turn with that advance as its proposal, and counts it.
/// Where the gate does not wait, up to 32 turns are made in one stay inside the lock, and none behind one that finishes
/// a request: those proposed before, and then others while the thread is alone or a load, a store or the halt seems
/// near. It may wait, and takes no memory.
pub fn carry<R: Wait, W: World, G: Gate, T: CountsTurns>(
    rt: &R,
    process: &Process<W>,
    carrier: &mut Carrier<W, T>,
    gate: &G,
)
    requires ours { IsPassOf process.now carrier.old.pass }
    requires turns { T.count carrier.old.turns < 2 ^ 63 }
    ensures ours { IsPassOf process.now carrier.new.pass }
    ensures number { carrier.new.pass.held.number ≡ carrier.old.pass.held.number }
    ensures ended { has_ended carrier.new.pass.last.status ≡ true }
    ensures carries { Carries T.counts process.now carrier.old.pass carrier.old.turns
        carrier.new.pass carrier.new.turns }
{
    let mut stay = Stay::new(process.text(), gate.may_wait());
    'turns: while !carrier.pass.last().has_ended() {
        process.propose(&carrier.pass, &mut stay);
        gate.before(rt, carrier.pass.thread(), carrier.turns.count());
        process.make_turn(rt, &mut carrier.pass, &mut stay);
        carrier.turns.add(rt, carrier.pass.last());
    }
    carrier.turns.end();
}

/// Carries all threads to their ends, each in a thread of the host's own where one can be made. It may wait.
pub fn carry_all<R: Threads + Wait + Sync, W: World, G: Gate, T: CountsTurns>(
    rt: &R,
    process: &Process<W>,
    carriers: &mut [Carrier<W, T>],
    gate: &G,
)
    requires ours { All (λ c. IsPassOf process.now c.pass) carriers.old }
    requires turns { All (λ c. T.count c.turns < 2 ^ 63) carriers.old }
    ensures ours { All (λ c. IsPassOf process.now c.pass) carriers.new }
    ensures numbers { map (λ c. c.pass.held.number) carriers.new
        ≡ map (λ c. c.pass.held.number) carriers.old }
    ensures ended { All (λ c. has_ended c.pass.last.status ≡ true) carriers.new }
    ensures carries { AllZip (λ b c. Carries T.counts process.now b.pass b.turns c.pass c.turns)
        carriers.old carriers.new }
{
    thread::for_each_mut(
        rt,
        carriers,
        MOST_THREADS as usize,
        &|_, carrier: &mut Carrier<W, T>|
            requires { IsPassOf process.now carrier.now.pass × (T.count carrier.now.turns < 2 ^ 63) }
            ensures { IsPassOf process.entry.now carrier.exit.now.pass
                × (carrier.exit.now.pass.held.number ≡ carrier.entry.now.pass.held.number)
                × (has_ended carrier.exit.now.pass.last.status ≡ true)
                × Carries T.counts process.entry.now carrier.entry.now.pass carrier.entry.now.turns
                carrier.exit.now.pass carrier.exit.now.turns }
        { carry(rt, process, carrier, gate) },
    );
}
