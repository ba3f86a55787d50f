//! Steps that are given back to the monitor of a guarded context.

ghost use Rattle.std.specs.Prelude.{◌≡◌, ◌<◌, ◌≤◌, IfSome};
ghost use Rattle.guest_isa.specs.Instructions.{IsInstruction};
ghost use Rattle.guest_machine.specs.Advances.{IfShared};
ghost use Rattle.kernel_core.specs.Changes.{Makes};
ghost use Rattle.lwc_base.specs.Saved.{entered};
ghost use Rattle.lwc_base.specs.World.{context};
ghost use Rattle.lwc_guard.specs.GivingBack as spec;
ghost use Rattle.lwc_guard.specs.declared.numbers.TheConstants.{EXITED};
ghost use Rattle.lwc_types.specs.declared.key.TheConstants.{SLOTS};
ghost use Rattle.lwc_types.specs.declared.limits.TheConstants.{MOST_THREADS};
ghost use Rattle.world_face.specs.Calls.{IsLive};

use crate::numbers::{EXITED, HALTED};
use guest_isa::{Instr, Op};
use guest_machine::Next;
use kernel_core::Thread;
use lwc_base::{Fault, Grant, Lent, Name, Regs, SlotNumber, ThreadStatus};
use lwc_monitor::live::is_live;
use lwc_monitor::traps::Traps;
use world_face::World;

/// In the monitor, r2 is this much and the cause: so it is no number of a call.
const GIVEN_BACK: u64 = 1 << 32;

/// Why a step is given back that leaves its thread with this status, if it is.
pub fn cause_of(next: &Next, status: ThreadStatus) -> Option<u64>
    ensures cause { result ≡ spec.cause_of next.now status }
    ensures few { IfSome result (λ cause. cause ≤ EXITED) }
{
    match status {
        ThreadStatus::Running | ThreadStatus::Idle => None,
        ThreadStatus::Done { .. } => Some(cause_of_end(next)),
        ThreadStatus::Faulted { fault } => {
            if fault == Fault::Budget {
                None
            } else {
                Some(fault.number())
            }
        }
    }
}

/// The cause of a thread's end that was no fault.
fn cause_of_end(next: &Next) -> u64
    ensures cause { result ≡ spec.cause_of_end next.now }
    ensures few { result ≤ EXITED }
{
    match next {
        Next::Shared(i) if i.op == Op::Halt => HALTED,
        _ => EXITED,
    }
}

/// What is told beside the cause: the address of a load or store, and the code of an exit.
pub fn detail_of(regs: &Regs, next: &Next) -> Option<u64>
    requires { IfShared next.now IsInstruction }
    ensures { result ≡ spec.detail_of regs.now next.now }
{
    match next {
        Next::Shared(i) => detail_in(regs, i),
        Next::Pause | Next::BadPc => None,
    }
}

/// What is told beside the cause where this instruction would end the thread.
#[tactic(auto, using(guest_isa::proofs::Fields::in_range))]
fn detail_in(regs: &Regs, instruction: &Instr) -> Option<u64>
    requires { IsInstruction instruction.now }
    ensures { result ≡ spec.detail_in regs.now instruction.now instruction.now.op }
{
    match instruction.op {
        Op::Halt => None,
        Op::Sys => Some(regs.r[1]),
        _ => Some(regs.r[usize::from(instruction.ra)].wrapping_add(instruction.sx())),
    }
}

/// Where a thread of a context is given back to: the monitor, and its lowest empty slot, if it lives and has one.
#[tactic(auto, unfolding(crate::specs::GivingBack::way_back))]
pub fn way_back<W: World>(traps: &Traps, world: &W, context: Name) -> Option<(Name, SlotNumber)>
    ensures found { result ≡ spec.way_back traps.now (W.seen world.now) context }
    ensures live { IfSome result (λ way. IsLive (W.seen world.now) way.0) }
    ensures within { IfSome result (λ way. way.1 < SLOTS) }
{
    let monitor = traps.monitor_of(context)?;
    if !is_live(world, monitor) {
        return None;
    }
    match world.lowest_empty(monitor) {
        Some(slot) => Some((monitor, slot)),
        None => None,
    }
}

/// Gives a thread back to a slot of the monitor of its context, with the cause and what is told beside it.
#[tactic(auto, using(lwc_switch::proofs::Saving::live_after_save))]
pub fn give_back<W: World>(
    world: &mut W,
    thread_number: u32,
    thread: &mut Thread,
    cause: u64,
    detail: Option<u64>,
    way: (Name, SlotNumber),
)
    requires number { thread_number < MOST_THREADS }
    requires cause { cause ≤ EXITED }
    requires here { IsLive (W.seen world.old) thread.old.context }
    requires live { IsLive (W.seen world.old) way.0 }
    requires within { way.1 < SLOTS }
    ensures outcome { Makes (λ e x. spec.given_back cause detail thread_number e x way.0 way.1)
        (W.seen world.old) thread.old (W.seen world.new) thread.new }
{
    let (monitor, slot) = way;
    let arrived = entered(world, monitor, thread_number);
    world.save(thread.context, thread_number, &thread.regs);
    let back = Lent::Ctx {
        name: thread.context,
        keys: Grant::None,
    };
    world.set_slot(monitor, slot, back);
    thread.context = monitor;
    thread.regs = told(&arrived, slot, cause, thread.regs.pc, detail);
}

/// The registers in the monitor: the slot is in r1, the cause in r2, where the thread was in r3, and what is told
/// beside it in r4.
fn told(arrived: &Regs, slot: SlotNumber, cause: u64, pc: u64, detail: Option<u64>) -> Regs
    requires { cause ≤ EXITED }
    ensures { result ≡ spec.told arrived.now slot cause pc detail }
{
    let mut r = arrived.r;
    r[1] = u64::from(slot);
    r[2] = GIVEN_BACK + cause;
    r[3] = pc;
    if let Some(value) = detail {
        r[4] = value;
    }
    Regs { r, pc: arrived.pc }
}

/// The registers that a thread enters a context with: those that the context keeps for it, else those that it begins
/// with.
pub fn entered<W: World>(world: &W, target: Name, thread: u32) -> Regs
    requires live { IsLive (W.seen world.now) target }
    requires thread { thread < MOST_THREADS }
    ensures { result ≡ entered (context (W.seen world.now) target) thread }
{
    match world.saved(target, thread) {
        Some(saved) => saved,
        None => world.entry(target),
    }
}
