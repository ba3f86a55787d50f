//! The two calls that a guard adds: fuel, and a switch that takes up a thread again.

ghost use Rattle.std.specs.Prelude.{◌≡◌, ◌<◌, ◌≤◌, ℕ, None, Some, IfErr, IfOk, IfSome, slice_index};
ghost use Rattle.kernel_core.specs.Step.{beside, next_outcome, unchanged, with_regs};
ghost use Rattle.kernel_core.specs.declared.thread.Thread as threads;
ghost use Rattle.lwc_base.specs.Channels.{Channels};
ghost use Rattle.lwc_base.specs.Life.{HasItsContexts};
ghost use Rattle.lwc_base.specs.Refusals.{first_refusal};
ghost use Rattle.lwc_guard.specs.Calls as spec;
ghost use Rattle.lwc_guard.specs.Guards as specs;
ghost use Rattle.lwc_guard.specs.Rulings as rulings;
ghost use Rattle.lwc_guard.specs.declared.numbers.TheConstants.{MOST_FUEL};
ghost use Rattle.lwc_monitor.specs.Calls.{traps_after_call, trapping};
ghost use Rattle.lwc_monitor.specs.Steps.{call_next};
ghost use Rattle.lwc_overlay.specs.Named.{link};
ghost use Rattle.lwc_types.specs.declared.limits.TheConstants.{MOST_THREADS};
ghost use Rattle.world_face.specs.Calls.{IsLive};

use crate::guards::Guards;
use crate::numbers::{LW_FUEL, MOST_FUEL};
use guest_call::context_for;
use guest_isa::Op;
use guest_machine::{Advance, Next};
use kernel_core::{LW_SWITCH, Thread};
use lwc_base::{Name, Refusal, Regs};
use lwc_monitor::ruling::{number_of, refused_by};
use lwc_monitor::trapping::TrapRefusal;
use lwc_monitor::traps::Traps;
use world_face::World;

/// What becomes of a call under guards that is not one under traps.
#[derive(Clone, Copy, PartialEq, Eq)]
pub enum Ruling {
    /// Its thread goes on with this value in r0.
    Answer(u64),
    /// It gives this context fuel.
    Fuel { target: Name, fuel: u32 },
    /// It takes its thread up again in this context.
    TakeUp(Name),
}

/// The ruling on what comes next for a running thread of a number, in a context that is not guarded, once it has
/// advanced; `None` if it is as under traps.
#[tactic(auto, unfolding(kernel_core::specs::Step::next_outcome))]
pub fn rule_on_next<W: World>(
    traps: &Traps,
    guards: &Guards,
    world: &W,
    thread_number: u32,
    thread: &Thread,
    advance: &Advance,
) -> Option<Ruling>
    requires number { thread_number < MOST_THREADS }
    requires live { IsLive (W.seen world.now) thread.now.context }
    requires named { HasItsContexts (W.seen world.now) }
    ensures outcome { (io : Channels) →
        next_outcome (spec.calls_guarded traps.now guards.now) thread_number (beside (W.seen world.now) io)
        (with_regs thread.now advance.now.after) advance.now.next
        ≡ rulings.next_ruled traps.now result thread_number (beside (W.seen world.now) io)
        (with_regs thread.now advance.now.after) advance.now.next }
    ensures guards { spec.guards_after_call traps.now guards.now thread_number (W.seen world.now)
        (with_regs thread.now advance.now.after) (call_next advance.now.next)
        ≡ rulings.guards_by_or_not guards.now thread_number result }
    ensures traps { IfSome result (λ ruling. traps_after_call traps.now (W.seen world.now)
        (with_regs thread.now advance.now.after) (call_next advance.now.next) ≡ traps.now) }
    ensures ruling { IfSome result (rulings.IsRuling (W.seen world.now)) }
{
    match &advance.next {
        Next::Shared(i) if i.op == Op::Sys => rule_on(
            traps,
            guards,
            world,
            thread_number,
            thread.context,
            &advance.after,
            i.imm,
        ),
        _ => None,
    }
}

/// The ruling on the call of a number that a thread makes in a context with these registers; `None` if it is as under
/// traps.
#[tactic(auto, unfolding(crate::specs::Calls::calls_guarded))]
fn rule_on<W: World>(
    traps: &Traps,
    guards: &Guards,
    world: &W,
    thread_number: u32,
    context: Name,
    regs: &Regs,
    number: u32,
) -> Option<Ruling>
    requires number { thread_number < MOST_THREADS }
    requires live { IsLive (W.seen world.now) context }
    requires named { HasItsContexts (W.seen world.now) }
    ensures outcome { (io : Channels) (x : threads.Thread) → x.context ≡ context → x.regs ≡ regs.now →
        spec.calls_guarded traps.now guards.now number thread_number (beside (W.seen world.now) io) x
        ≡ rulings.ruled_or_not traps.now result number thread_number (beside (W.seen world.now) io) x }
    ensures guards { (x : threads.Thread) → x.context ≡ context → x.regs ≡ regs.now →
        spec.guards_after_call traps.now guards.now thread_number (W.seen world.now) x (Some number)
        ≡ rulings.guards_by_or_not guards.now thread_number result }
    ensures traps { (x : threads.Thread) → IfSome result (λ ruling.
        traps_after_call traps.now (W.seen world.now) x (Some number) ≡ traps.now) }
    ensures ruling { IfSome result (rulings.IsRuling (W.seen world.now)) }
{
    if number == LW_FUEL && traps.monitor_of(context).is_none() {
        Some(fuelling(traps, world, context, regs))
    } else if number == LW_SWITCH {
        match taken_up(traps, guards, world, thread_number, context, regs) {
            Some(target) => Some(Ruling::TakeUp(target)),
            None => None,
        }
    } else {
        None
    }
}

/// What becomes of the call that gives fuel.
fn fuelling<W: World>(traps: &Traps, world: &W, context: Name, regs: &Regs) -> Ruling
    requires live { IsLive (W.seen world.now) context }
    requires named { HasItsContexts (W.seen world.now) }
    ensures outcome { (t : ℕ) (io : Channels) (x : threads.Thread) →
        unchanged (beside (W.seen world.now) io) (trapping x (first_refusal
        (spec.fuel_rows traps.now (W.seen world.now) context regs.now)))
        ≡ rulings.ruled result t (beside (W.seen world.now) io) x }
    ensures guards { (guards : specs.Guards) (t : ℕ) →
        spec.fuelled_by guards (link (W.seen world.now) context regs.now).0 (slice_index regs.now.r 2)
        (first_refusal (spec.fuel_rows traps.now (W.seen world.now) context regs.now))
        ≡ rulings.guards_by guards t result }
    ensures ruling { rulings.IsRuling (W.seen world.now) result }
{
    match fuel_target(traps, world, context, regs) {
        Ok(target) => Ruling::Fuel {
            target,
            fuel: regs.r[2] as u32,
        },
        Err(refusal) => Ruling::Answer(refused_by(number_of(refusal))),
    }
}

/// The context that a call gives fuel: the one that the slot in r1 has a descriptor of.
///
/// # Errors
///
/// `BadFd` and `WrongKind`, then `Trapped`, where the caller has not trapped it, and `BadRange`, where there is more
/// fuel than a context may have: the first that holds (`fuel_rows`).
fn fuel_target<W: World>(
    traps: &Traps,
    world: &W,
    context: Name,
    regs: &Regs,
) -> Result<Name, TrapRefusal>
    requires live { IsLive (W.seen world.now) context }
    requires named { HasItsContexts (W.seen world.now) }
    ensures refused { IfErr result (λ refusal.
        first_refusal (spec.fuel_rows traps.now (W.seen world.now) context regs.now) ≡ Some refusal) }
    ensures passed { IfOk result (λ d.
        first_refusal (spec.fuel_rows traps.now (W.seen world.now) context regs.now) ≡ None) }
    ensures target { IfOk result (λ d. d ≡ (link (W.seen world.now) context regs.now).0) }
    ensures fuel { IfOk result (λ d. slice_index regs.now.r 2 ≤ MOST_FUEL) }
{
    let target = match context_for(world, context, regs.r[1]) {
        Ok((target, _)) => target,
        Err(refusal) => return Err(TrapRefusal::Plain(refusal)),
    };
    if !is_trapped_by(traps, context, target) {
        return Err(TrapRefusal::Trapped);
    }
    if regs.r[2] > u64::from(MOST_FUEL) {
        return Err(TrapRefusal::Plain(Refusal::BadRange));
    }
    Ok(target)
}

/// Whether a context is trapped by this one.
fn is_trapped_by(traps: &Traps, context: Name, target: Name) -> bool
    ensures { result ≡ spec.is_trapped_by traps.now context target }
{
    match traps.monitor_of(target) {
        Some(monitor) => monitor == context,
        None => false,
    }
}

/// The context that the slot in r1 names, if the caller has trapped it and it holds the thread of a number.
#[tactic(auto, unfolding(crate::specs::Calls::taken_up))]
fn taken_up<W: World>(
    traps: &Traps,
    guards: &Guards,
    world: &W,
    thread_number: u32,
    context: Name,
    regs: &Regs,
) -> Option<Name>
    requires number { thread_number < MOST_THREADS }
    requires live { IsLive (W.seen world.now) context }
    requires named { HasItsContexts (W.seen world.now) }
    ensures found { result ≡ spec.taken_up traps.now guards.now thread_number (W.seen world.now) context regs.now }
    ensures live { IfSome result (IsLive (W.seen world.now)) }
{
    let Ok((target, _)) = context_for(world, context, regs.r[1]) else {
        return None;
    };
    match guards.guard_of(target) {
        Some(guard) => {
            if is_trapped_by(traps, context, target) && guard.holds(thread_number) {
                Some(target)
            } else {
                None
            }
        }
        None => None,
    }
}
