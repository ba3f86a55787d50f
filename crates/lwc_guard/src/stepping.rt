//! A step of a thread under guards.

ghost use Rattle.std.specs.Prelude.{◌≡◌, ◌<◌, ◌≤◌, ◌-◌, ◌⊎◌, None, Some, IfNone, IfOk, IfSome, IsOk, OnErr, OnOk, true};
ghost use Rattle.std.specs.FinMap as fm;
ghost use Rattle.guest_isa.specs.Instructions.{IsText};
ghost use Rattle.guest_machine.specs.Advances.{advanced};
ghost use Rattle.kernel_core.specs.Changes.{Keeps, KeepsAll, Makes, made};
ghost use Rattle.kernel_core.specs.Ready.{CanAct, WhileRunning};
ghost use Rattle.kernel_core.specs.Step as steps;
ghost use Rattle.lwc_base.specs.Channels.{Channels, HasItsFiles};
ghost use Rattle.lwc_base.specs.Saved.{entered};
ghost use Rattle.lwc_base.specs.World.{context};
ghost use Rattle.lwc_guard.specs.Calls.{guards_after_call};
ghost use Rattle.lwc_guard.specs.GivingBack.{cause_of, guarded_course, unfuelled, way_back};
ghost use Rattle.lwc_guard.specs.Guards.{guard_or_new};
ghost use Rattle.lwc_guard.specs.Rulings.{IsRuling, guards_by, ruled};
ghost use Rattle.lwc_guard.specs.Steps as spec;
ghost use Rattle.lwc_guard.specs.declared.numbers.TheConstants.{EXITED};
ghost use Rattle.lwc_monitor.specs.Calls.{traps_after_call};
ghost use Rattle.lwc_monitor.specs.Steps.{call_by};
ghost use Rattle.lwc_monitor.specs.Traps.{is_trapped};
ghost use Rattle.lwc_switch.specs.Switch.{left};
ghost use Rattle.lwc_types.specs.declared.key.TheConstants.{SLOTS};
ghost use Rattle.lwc_types.specs.declared.name.Name as names;
ghost use Rattle.lwc_types.specs.declared.limits.TheConstants.{MOST_CONTEXTS, MOST_THREADS};
ghost use Rattle.world_face.specs.Calls.{IsLive};

use crate::calling::{Ruling, rule_on_next};
use crate::giving::{cause_of, detail_of, entered, give_back, way_back};
use crate::guard::Guard;
use crate::guards::Guards;
use crate::numbers::NO_FUEL;
use guest_isa::Text;
use guest_machine::{Next, advance};
use kernel_core::{Change, Effect, Thread, step_thread};
use lwc_base::{Channels, Fault, Name, OutOfMemory, SlotNumber, ThreadStatus};
use lwc_monitor::stepping::run_under;
use lwc_monitor::traps::Traps;
use world_face::World;

/// The effect of a step that takes a thread to another context: the one that it leaves may be reached no more.
const LINKS: Effect = Effect {
    change: Change::Links,
    finished: None,
};

/// Makes a step of a thread under guards in place. Answers what has changed; `None` if the thread had ended. The only
/// error is out of memory: then the world, the channels, the traps and the guards are as before, and the thread may
/// have changed.
pub fn step_guarded<W: World>(
    traps: &mut Traps,
    guards: &mut Guards,
    world: &mut W,
    io: &mut Channels,
    text: &Text,
    thread_number: u32,
    thread: &mut Thread,
) -> Result<Option<Effect>, OutOfMemory>
    requires number { thread_number < MOST_THREADS }
    requires ready { WhileRunning thread.old.status (CanAct (W.seen world.old) thread.old) }
    requires files { HasItsFiles io.old (W.seen world.old) }
    requires steps { WhileRunning thread.old.status (0 < thread.old.budget) }
    requires text { IsText text.now }
    requires room { fm.len traps.old < MOST_CONTEXTS }
    requires few { fm.len guards.old < MOST_CONTEXTS }
    requires trapped { (d : names.Name) → fm.contains_key guards.old d ≡ true → is_trapped traps.old d ≡ true }
    ensures outcome { IfOk result (λ effect.
        (spec.left_of traps.old guards.old thread_number (steps.beside (W.seen world.old) io.old) None text.now
        thread.old thread.old.status).0
        ≡ made effect (steps.beside (W.seen world.new) io.new) None thread.new) }
    ensures guards { OnOk result (guards.new ≡
        (spec.left_of traps.old guards.old thread_number (steps.beside (W.seen world.old) io.old) None text.now
        thread.old thread.old.status).1) }
    ensures traps { OnOk result (traps.new ≡ traps_after_call traps.old (W.seen world.old)
        (steps.with_regs thread.old (advanced text.now thread.old.regs).after)
        (call_by text.now thread.old thread.old.status)) }
    ensures kept { IfOk result (λ effect. KeepsAll effect
        (W.seen world.old) io.old None thread.old (W.seen world.new) io.new None thread.new) }
    ensures err { OnErr result (W.seen world.new ≡ W.seen world.old) }
    ensures err_io { OnErr result (io.new ≡ io.old) }
    ensures err_traps { OnErr result (traps.new ≡ traps.old) }
    ensures err_guards { OnErr result (guards.new ≡ guards.old) }
    ensures ample { W.roomy ≡ true → IsOk result }
{
    if thread.status != ThreadStatus::Running {
        return step_thread(world, io, &mut None, text, thread_number, thread, None);
    }
    let context = thread.context;
    match guards.guard_of(context) {
        None => run_free(traps, guards, world, io, text, thread_number, thread),
        Some(found) => {
            let mut guard = found;
            let effect = run_guarded(traps, &mut guard, world, io, text, thread_number, thread)?;
            guards.set(context, guard);
            Ok(effect)
        }
    }
}

/// Makes a step of a running thread in a context that is not guarded.
fn run_free<W: World>(
    traps: &mut Traps,
    guards: &mut Guards,
    world: &mut W,
    io: &mut Channels,
    text: &Text,
    thread_number: u32,
    thread: &mut Thread,
) -> Result<Option<Effect>, OutOfMemory>
    requires number { thread_number < MOST_THREADS }
    requires ready { CanAct (W.seen world.old) thread.old }
    requires files { HasItsFiles io.old (W.seen world.old) }
    requires steps { 0 < thread.old.budget }
    requires text { IsText text.now }
    requires room { fm.len traps.old < MOST_CONTEXTS }
    requires running { thread.old.status ≡ ThreadStatus.Running }
    requires few { fm.len guards.old < MOST_CONTEXTS }
    requires unguarded { fm.get guards.old thread.old.context ≡ None }
    ensures outcome { IfOk result (λ effect.
        (spec.left_of traps.old guards.old thread_number (steps.beside (W.seen world.old) io.old) None text.now
        thread.old thread.old.status).0
        ≡ made effect (steps.beside (W.seen world.new) io.new) None thread.new) }
    ensures guards { OnOk result (guards.new ≡
        (spec.left_of traps.old guards.old thread_number (steps.beside (W.seen world.old) io.old) None text.now
        thread.old thread.old.status).1) }
    ensures traps { OnOk result (traps.new ≡ traps_after_call traps.old (W.seen world.old)
        (steps.with_regs thread.old (advanced text.now thread.old.regs).after)
        (call_by text.now thread.old thread.old.status)) }
    ensures kept { IfOk result (λ effect. KeepsAll effect
        (W.seen world.old) io.old None thread.old (W.seen world.new) io.new None thread.new) }
    ensures err { OnErr result (W.seen world.new ≡ W.seen world.old) }
    ensures err_io { OnErr result (io.new ≡ io.old) }
    ensures err_traps { OnErr result (traps.new ≡ traps.old) }
    ensures err_guards { OnErr result (guards.new ≡ guards.old) }
    ensures ample { W.roomy ≡ true → IsOk result }
{
    let advance = advance(text, &thread.regs);
    match rule_on_next(traps, guards, world, thread_number, thread, &advance) {
        None => run_under(traps, world, io, text, thread_number, thread, &advance),
        Some(ruling) => {
            let left = thread.budget - 1;
            thread.regs = advance.after;
            let change = carry_out(guards, world, thread_number, thread, ruling);
            thread.set_steps(left);
            Ok(Some(Effect {
                change,
                finished: None,
            }))
        }
    }
}

/// Carries out a ruling on the call that a thread makes.
fn carry_out<W: World>(
    guards: &mut Guards,
    world: &mut W,
    thread_number: u32,
    thread: &mut Thread,
    ruling: Ruling,
) -> Change
    requires number { thread_number < MOST_THREADS }
    requires ready { IsLive (W.seen world.old) thread.old.context }
    requires ruling { IsRuling (W.seen world.old) ruling }
    requires few { fm.len guards.old < MOST_CONTEXTS }
    ensures outcome { Makes (λ e x. ruled ruling thread_number e x)
        (W.seen world.old) thread.old (W.seen world.new) thread.new }
    ensures guards { guards.new ≡ guards_by guards.old thread_number ruling }
    ensures kept { Keeps result (W.seen world.old) thread.old (W.seen world.new) thread.new }
{
    match ruling {
        Ruling::Answer(value) => {
            thread.answer(0, value);
            Change::Thread
        }
        Ruling::Fuel { target, fuel } => {
            let mut guard = guard_or_new(guards, target);
            guard.fuel = fuel;
            guards.set(target, guard);
            thread.answer(0, 0);
            Change::Thread
        }
        Ruling::TakeUp(target) => {
            let mut guard = guard_or_new(guards, target);
            guard.hold(thread_number, false);
            guards.set(target, guard);
            take_up(world, thread_number, thread, target);
            Change::Links
        }
    }
}

/// The guard of a context, or a new one.
fn guard_or_new(guards: &Guards, context: Name) -> Guard
    ensures { result ≡ guard_or_new (fm.get guards.now context) }
{
    match guards.guard_of(context) {
        Some(guard) => guard,
        None => Guard::new(),
    }
}

/// Takes a thread up in a context, which gets no descriptor: the registers are kept where the thread was, and it goes
/// on with those that the context has for it.
fn take_up<W: World>(world: &mut W, thread_number: u32, thread: &mut Thread, target: Name)
    requires number { thread_number < MOST_THREADS }
    requires here { IsLive (W.seen world.old) thread.old.context }
    requires live { IsLive (W.seen world.old) target }
    ensures world { W.seen world.new
        ≡ left (W.seen world.old) thread.old.context thread_number thread.old.regs }
    ensures thread { thread.new ≡ record thread.old {
      context = target;
      regs = entered (context (W.seen world.old) target) thread_number;
    } }
{
    let arrived = entered(world, target, thread_number);
    let mut left = thread.regs;
    left.r[0] = 0;
    left.pc = left.pc.wrapping_add(1);
    world.save(thread.context, thread_number, &left);
    thread.context = target;
    thread.regs = arrived;
}

/// Makes a step of a running thread in a context of this guard.
#[tactic(auto, unfolding(crate::specs::GivingBack::guarded_course))]
fn run_guarded<W: World>(
    traps: &mut Traps,
    guard: &mut Guard,
    world: &mut W,
    io: &mut Channels,
    text: &Text,
    thread_number: u32,
    thread: &mut Thread,
) -> Result<Option<Effect>, OutOfMemory>
    requires number { thread_number < MOST_THREADS }
    requires ready { CanAct (W.seen world.old) thread.old }
    requires files { HasItsFiles io.old (W.seen world.old) }
    requires steps { 0 < thread.old.budget }
    requires text { IsText text.now }
    requires room { fm.len traps.old < MOST_CONTEXTS }
    requires running { thread.old.status ≡ ThreadStatus.Running }
    requires trapped { is_trapped traps.old thread.old.context ≡ true }
    ensures outcome { IfOk result (λ effect.
        Some (steps.only None (steps.counted (thread.old.budget - 1)
        (guarded_course traps.old thread_number (steps.beside (W.seen world.old) io.old) thread.old
        (advanced text.now thread.old.regs) guard.old).outcome))
        ≡ made effect (steps.beside (W.seen world.new) io.new) None thread.new) }
    ensures guard { OnOk result (guard.new ≡
        (guarded_course traps.old thread_number (steps.beside (W.seen world.old) io.old) thread.old
        (advanced text.now thread.old.regs) guard.old).guard) }
    ensures traps { OnOk result (traps.new ≡ traps_after_call traps.old (W.seen world.old)
        (steps.with_regs thread.old (advanced text.now thread.old.regs).after)
        (call_by text.now thread.old thread.old.status)) }
    ensures kept { IfOk result (λ effect. KeepsAll effect
        (W.seen world.old) io.old None thread.old (W.seen world.new) io.new None thread.new) }
    ensures err { OnErr result (W.seen world.new ≡ W.seen world.old) }
    ensures err_io { OnErr result (io.new ≡ io.old) }
    ensures err_traps { OnErr result (traps.new ≡ traps.old) }
    ensures err_guard { OnErr result (guard.new ≡ guard.old) }
    ensures ample { W.roomy ≡ true → IsOk result }
{
    if guard.fuel == 0 {
        return Ok(Some(run_unfuelled(traps, guard, world, thread_number, thread)));
    }
    let left = thread.budget - 1;
    let advance = advance(text, &thread.regs);
    let effect = run_under(traps, world, io, text, thread_number, thread, &advance)?;
    guard.fuel -= 1;
    match way_out(traps, world, thread, &advance.next) {
        None => Ok(effect),
        Some((cause, way)) => {
            guard.hold(thread_number, true);
            thread.status = ThreadStatus::Running;
            let detail = detail_of(&thread.regs, &advance.next);
            give_back(world, thread_number, thread, cause, detail, way);
            thread.set_steps(left);
            Ok(Some(LINKS))
        }
    }
}

/// Why and where to a thread is given back that a step has left so, if it is.
fn way_out<W: World>(
    traps: &Traps,
    world: &W,
    thread: &Thread,
    next: &Next,
) -> Option<(u64, (Name, SlotNumber))>
    ensures none { IfNone result ((cause_of next.now thread.now.status ≡ None) ⊎
        (way_back traps.now (W.seen world.now) thread.now.context ≡ None)) }
    ensures cause { IfSome result (λ out. cause_of next.now thread.now.status ≡ Some out.0) }
    ensures way { IfSome result (λ out. way_back traps.now (W.seen world.now) thread.now.context ≡ Some out.1) }
    ensures few { IfSome result (λ out. out.0 ≤ EXITED) }
    ensures live { IfSome result (λ out. IsLive (W.seen world.now) out.1.0) }
    ensures within { IfSome result (λ out. out.1.1 < SLOTS) }
{
    let cause = cause_of(next, thread.status)?;
    let way = way_back(traps, world, thread.context)?;
    Some((cause, way))
}

/// Makes a step for which there is no fuel: the thread is given back, or ends as if its budget were used up.
fn run_unfuelled<W: World>(
    traps: &Traps,
    guard: &mut Guard,
    world: &mut W,
    thread_number: u32,
    thread: &mut Thread,
) -> Effect
    requires number { thread_number < MOST_THREADS }
    requires here { IsLive (W.seen world.old) thread.old.context }
    requires steps { 0 < thread.old.budget }
    ensures outcome { (io : Channels) →
        steps.counted (thread.old.budget - 1)
        (unfuelled traps.now thread_number (steps.beside (W.seen world.old) io) thread.old guard.old).outcome
        ≡ steps.unchanged (steps.beside (W.seen world.new) io) thread.new }
    ensures guard { (io : Channels) → guard.new ≡
        (unfuelled traps.now thread_number (steps.beside (W.seen world.old) io) thread.old guard.old).guard }
    ensures finished { result.finished ≡ None }
    ensures kept { Keeps result.change (W.seen world.old) thread.old (W.seen world.new) thread.new }
{
    let left = thread.budget - 1;
    match way_back(traps, world, thread.context) {
        Some(way) => {
            guard.hold(thread_number, true);
            give_back(world, thread_number, thread, NO_FUEL, None, way);
            thread.set_steps(left);
            LINKS
        }
        None => {
            thread.status = ThreadStatus::Faulted {
                fault: Fault::Budget,
            };
            thread.set_steps(left);
            Effect {
                change: Change::Thread,
                finished: None,
            }
        }
    }
}
