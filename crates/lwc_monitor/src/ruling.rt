ghost use Rattle.std.specs.Prelude.{◌≡◌, ◌≤◌, ◌-◌, ◌^◌, ℕ, IfSome, Some};
ghost use Rattle.std.specs.Option.{option_map};
ghost use Rattle.guest_machine.specs.declared.progress.Next.TheVariants as nexts;
ghost use Rattle.kernel_core.specs.Step.{beside, next_outcome, shared_outcome, unchanged};
ghost use Rattle.kernel_core.specs.declared.thread.Thread as threads;
ghost use Rattle.lwc_base.specs.Channels.{Channels};
ghost use Rattle.lwc_base.specs.Life.{HasItsContexts};
ghost use Rattle.lwc_base.specs.Refusals.{first_refusal};
ghost use Rattle.lwc_types.specs.declared.name.Name as names;
ghost use Rattle.lwc_monitor.specs.Calls as calls;
ghost use Rattle.lwc_monitor.specs.Rulings as spec;
ghost use Rattle.lwc_monitor.specs.Rulings.{IsRuling};
ghost use Rattle.lwc_monitor.specs.Steps.{call_in, call_next};
ghost use Rattle.lwc_monitor.specs.Traps.{trap_rows};
ghost use Rattle.lwc_monitor.specs.Traps as trapped;
ghost use Rattle.world_face.specs.Calls.{IsLive};

use crate::forbidding::{forbids_overlay, names_anothers};
use crate::live::is_live;
use crate::numbers::{EXIT, LW_TRAP, NOT_FRESH, TRAPPED};
use crate::trapping::{TrapRefusal, trap_target};
use crate::traps::Traps;
use guest_isa::{Instr, Op};
use guest_machine::Next;
use kernel_core::{LW_OVERLAY, LW_SWITCH, LW_SYSCALL, Thread};
use lwc_base::{Name, Refusal, SlotNumber};
use world_face::World;

/// What becomes of a call under traps that is not the kernel's.
#[derive(Clone, Copy, PartialEq, Eq)]
pub enum Ruling {
    /// Its thread goes on with this value in r0.
    Answer(u64),
    /// It traps this context.
    Trap(Name),
    /// Its thread goes to the monitor, and this slot of the monitor gets a descriptor of the caller.
    Monitor { monitor: Name, slot: SlotNumber },
}

/// The ruling on what comes next for a running thread with these registers, with the number of the call that
/// it is; `None` if it is no call, or the kernel's.
#[tactic(auto, unfolding(kernel_core::specs::Step::next_outcome))]
pub fn rule_on_next<W: World>(
    traps: &Traps,
    world: &W,
    thread: &Thread,
    next: &Next,
) -> Option<(Ruling, u32)>
    requires live { IsLive (W.seen world.now) thread.now.context }
    requires named { HasItsContexts (W.seen world.now) }
    ensures outcome { (t : ℕ) (io : Channels) →
        next_outcome (calls.calls_under traps.now) t (beside (W.seen world.now) io) thread.now next.now
        ≡ spec.next_ruled result t (beside (W.seen world.now) io) thread.now next.now }
    ensures traps { calls.traps_after_call traps.now (W.seen world.now) thread.now (call_next next.now)
        ≡ spec.traps_by_or_not traps.now thread.now.context (option_map (λ r. r.0) result) }
    ensures ruling { IfSome result (λ r. IsRuling traps.now (W.seen world.now) r.0) }
{
    match next {
        Next::Shared(i) => rule_on_instr(traps, world, thread, i),
        Next::Pause | Next::BadPc => None,
    }
}

/// The ruling on a shared instruction, with the number of the call that it is.
#[tactic(auto, unfolding(kernel_core::specs::Step::shared_outcome))]
fn rule_on_instr<W: World>(
    traps: &Traps,
    world: &W,
    thread: &Thread,
    instruction: &Instr,
) -> Option<(Ruling, u32)>
    requires live { IsLive (W.seen world.now) thread.now.context }
    requires named { HasItsContexts (W.seen world.now) }
    ensures outcome { (t : ℕ) (io : Channels) →
        shared_outcome (calls.calls_under traps.now) t (beside (W.seen world.now) io) thread.now
        instruction.now instruction.now.op
        ≡ spec.next_ruled result t (beside (W.seen world.now) io) thread.now (nexts.Shared instruction.now) }
    ensures traps { calls.traps_after_call traps.now (W.seen world.now) thread.now
        (call_in instruction.now.op instruction.now.imm)
        ≡ spec.traps_by_or_not traps.now thread.now.context (option_map (λ r. r.0) result) }
    ensures ruling { IfSome result (λ r. IsRuling traps.now (W.seen world.now) r.0) }
{
    if instruction.op != Op::Sys {
        return None;
    }
    match rule_on(traps, world, thread, instruction.imm) {
        Some(ruling) => Some((ruling, instruction.imm)),
        None => None,
    }
}

/// The ruling on the call of a number that a thread makes with these registers; `None` if it is the kernel's.
#[tactic(auto, unfolding(crate::specs::Calls::calls_under))]
fn rule_on<W: World>(traps: &Traps, world: &W, thread: &Thread, number: u32) -> Option<Ruling>
    requires live { IsLive (W.seen world.now) thread.now.context }
    requires named { HasItsContexts (W.seen world.now) }
    ensures outcome { (t : ℕ) (io : Channels) →
        calls.calls_under traps.now number t (beside (W.seen world.now) io) thread.now
        ≡ spec.ruled_or_not result number t (beside (W.seen world.now) io) thread.now }
    ensures traps { calls.traps_after_call traps.now (W.seen world.now) thread.now (Some number)
        ≡ spec.traps_by_or_not traps.now thread.now.context result }
    ensures ruling { IfSome result (IsRuling traps.now (W.seen world.now)) }
{
    match traps.monitor_of(thread.context) {
        Some(monitor) => {
            if number == EXIT {
                None
            } else {
                Some(to_monitor(world, monitor))
            }
        }
        None => {
            if number == LW_TRAP {
                Some(trapping(traps, world, thread))
            } else if is_forbidden(traps, world, thread, number) {
                Some(Ruling::Answer(refused_by(TRAPPED)))
            } else {
                None
            }
        }
    }
}

/// What becomes of a call that goes to a monitor.
#[tactic(auto, unfolding(crate::specs::Calls::trapped_outcome))]
fn to_monitor<W: World>(world: &W, monitor: Name) -> Ruling
    ensures outcome { (number t : ℕ) (io : Channels) (x : threads.Thread) →
        calls.trapped_outcome monitor number t (beside (W.seen world.now) io) x
        ≡ spec.ruled result number t (beside (W.seen world.now) io) x }
    ensures traps { (traps : trapped.Traps) (c : names.Name) → spec.traps_by traps c result ≡ traps }
    ensures ruling { (traps : trapped.Traps) → IsRuling traps (W.seen world.now) result }
{
    if !is_live(world, monitor) {
        return Ruling::Answer(refused_by(TRAPPED));
    }
    match world.lowest_empty(monitor) {
        Some(slot) => Ruling::Monitor { monitor, slot },
        None => Ruling::Answer(refused_by(Refusal::NoSlotThere.number())),
    }
}

/// What becomes of the call that traps a context.
fn trapping<W: World>(traps: &Traps, world: &W, thread: &Thread) -> Ruling
    requires live { IsLive (W.seen world.now) thread.now.context }
    requires named { HasItsContexts (W.seen world.now) }
    ensures outcome { (number t : ℕ) (io : Channels) →
        unchanged (beside (W.seen world.now) io) (calls.trapping thread.now (first_refusal
        (trap_rows traps.now (W.seen world.now) thread.now.context thread.now.regs)))
        ≡ spec.ruled result number t (beside (W.seen world.now) io) thread.now }
    ensures traps { calls.trapped_by traps.now (W.seen world.now) thread.now.context thread.now.regs
        (first_refusal (trap_rows traps.now (W.seen world.now) thread.now.context thread.now.regs))
        ≡ spec.traps_by traps.now thread.now.context result }
    ensures ruling { IsRuling traps.now (W.seen world.now) result }
{
    match trap_target(traps, world, thread.context, &thread.regs) {
        Ok(target) => Ruling::Trap(target),
        Err(refusal) => Ruling::Answer(refused_by(number_of(refusal))),
    }
}

/// Whether a trap forbids the call of a number on another context.
#[tactic(auto, unfolding(crate::specs::Calls::is_forbidden))]
fn is_forbidden<W: World>(traps: &Traps, world: &W, thread: &Thread, number: u32) -> bool
    requires live { IsLive (W.seen world.now) thread.now.context }
    requires named { HasItsContexts (W.seen world.now) }
    ensures { result
        ≡ calls.is_forbidden traps.now number (W.seen world.now) thread.now.context thread.now.regs }
{
    match number {
        LW_SWITCH | LW_SYSCALL => names_anothers(traps, world, thread.context, &thread.regs),
        LW_OVERLAY => forbids_overlay(traps, world, thread.context, &thread.regs),
        _ => false,
    }
}

/// What r0 says of a refusal of this number, 1 or more.
pub fn refused_by(number: u64) -> u64
    requires { 1 ≤ number }
    ensures { result ≡ 2 ^ 64 - number }
{
    0u64.wrapping_sub(number)
}

/// The number of why a context is not trapped.
pub fn number_of(refusal: TrapRefusal) -> u64
    ensures number { result ≡ calls.trap_number refusal }
    ensures some { 1 ≤ result }
{
    match refusal {
        TrapRefusal::Plain(refusal) => refusal.number(),
        TrapRefusal::Trapped => TRAPPED,
        TrapRefusal::NotFresh => NOT_FRESH,
    }
}
