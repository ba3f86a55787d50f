ghost use Rattle.std.specs.Prelude.{◌≡◌, ◌≢◌, ◌≤◌, ◌<◌, ◌-◌, None, Some, IfOk, IfSome, IsOk, OnErr, OnOk, true};
ghost use Rattle.std.specs.FinMap as fm;
ghost use Rattle.guest_isa.specs.Instructions.{IsText};
ghost use Rattle.guest_machine.specs.Advances.{advanced};
ghost use Rattle.kernel_core.specs.Changes.{Keeps, KeepsAll, LeavesNothing, Makes, made};
ghost use Rattle.kernel_core.specs.Ready.{CanAct, WhileRunning};
ghost use Rattle.kernel_core.specs.Step as steps;
ghost use Rattle.lwc_base.specs.Channels as channels;
ghost use Rattle.lwc_base.specs.Channels.{HasItsFiles};
ghost use Rattle.lwc_base.specs.Slots.{lowest_empty};
ghost use Rattle.lwc_types.specs.declared.limits.TheConstants.{MOST_CONTEXTS, MOST_THREADS};
ghost use Rattle.lwc_monitor.specs.Calls.{calls_under, reporting, traps_after_call};
ghost use Rattle.lwc_monitor.specs.Rulings as spec;
ghost use Rattle.lwc_monitor.specs.Rulings.{IsRuling};
ghost use Rattle.lwc_monitor.specs.Steps.{call_by};
ghost use Rattle.lwc_switch.specs.Switch as switching;
ghost use Rattle.world_face.specs.Calls.{IsLive};

use crate::ruling::{Ruling, rule_on_next};
use crate::traps::Traps;
use guest_isa::Text;
use guest_machine::{Advance, advance};
use kernel_core::{Change, Effect, Thread, step_thread};
use lwc_base::{Channels, Name, OutOfMemory, Regs, SlotNumber, ThreadStatus};
use lwc_switch::enter;
use world_face::World;

/// Makes a step of a thread under traps in place. Answers what has changed; `None` if the thread had ended.
/// The only error is out of memory: then the world, the channels and the traps are as before, and the thread
/// may have changed.
pub fn step_under<W: World>(
    traps: &mut Traps,
    world: &mut W,
    io: &mut Channels,
    text: &Text,
    thread_number: u32,
    thread: &mut Thread,
) -> Result<Option<Effect>, OutOfMemory>
    requires number { thread_number < MOST_THREADS }
    requires ready { WhileRunning thread.old.status (CanAct (W.seen world.old) thread.old) }
    requires files { HasItsFiles io.old (W.seen world.old) }
    requires steps { WhileRunning thread.old.status (0 < thread.old.budget) }
    requires text { IsText text.now }
    requires room { fm.len traps.old < MOST_CONTEXTS }
    ensures outcome { IfOk result (λ effect.
        steps.thread_outcome (calls_under traps.old) thread_number (steps.beside (W.seen world.old) io.old) None
        text.now
        thread.old thread.old.status
        ≡ made effect (steps.beside (W.seen world.new) io.new) None thread.new) }
    ensures traps { OnOk result (traps.new ≡ traps_after_call traps.old (W.seen world.old)
        (steps.with_regs thread.old (advanced text.now thread.old.regs).after)
        (call_by text.now thread.old thread.old.status)) }
    ensures kept { IfOk result (λ effect. KeepsAll effect
        (W.seen world.old) io.old None thread.old (W.seen world.new) io.new None thread.new) }
    ensures err { OnErr result (W.seen world.new ≡ W.seen world.old) }
    ensures err_io { OnErr result (io.new ≡ io.old) }
    ensures err_traps { OnErr result (traps.new ≡ traps.old) }
    ensures ample { W.roomy ≡ true → IsOk result }
{
    match thread.status {
        ThreadStatus::Running => {
            let advance = advance(text, &thread.regs);
            run_under(traps, world, io, text, thread_number, thread, &advance)
        }
        _ => step_thread(world, io, &mut None, text, thread_number, thread, None),
    }
}

/// Makes a step of a running thread under traps in place, by how far it advances. The only error is out of memory:
/// then the world, the channels and the traps are as before, and the thread may have changed.
pub fn run_under<W: World>(
    traps: &mut Traps,
    world: &mut W,
    io: &mut Channels,
    text: &Text,
    thread_number: u32,
    thread: &mut Thread,
    advance: &Advance,
) -> Result<Option<Effect>, OutOfMemory>
    requires number { thread_number < MOST_THREADS }
    requires running { thread.old.status ≡ ThreadStatus.Running }
    requires ready { CanAct (W.seen world.old) thread.old }
    requires files { HasItsFiles io.old (W.seen world.old) }
    requires steps { 0 < thread.old.budget }
    requires advance { advance.now ≡ advanced text.now thread.old.regs }
    requires text { IsText text.now }
    requires room { fm.len traps.old < MOST_CONTEXTS }
    ensures outcome { IfOk result (λ effect.
        steps.thread_outcome (calls_under traps.old) thread_number (steps.beside (W.seen world.old) io.old) None
        text.now
        thread.old ThreadStatus.Running
        ≡ made effect (steps.beside (W.seen world.new) io.new) None thread.new) }
    ensures traps { OnOk result (traps.new ≡ traps_after_call traps.old (W.seen world.old)
        (steps.with_regs thread.old (advanced text.now thread.old.regs).after)
        (call_by text.now thread.old ThreadStatus.Running)) }
    ensures kept { IfOk result (λ effect. KeepsAll effect
        (W.seen world.old) io.old None thread.old (W.seen world.new) io.new None thread.new) }
    ensures err { OnErr result (W.seen world.new ≡ W.seen world.old) }
    ensures err_io { OnErr result (io.new ≡ io.old) }
    ensures err_traps { OnErr result (traps.new ≡ traps.old) }
    ensures ample { W.roomy ≡ true → IsOk result }
{
    let mut caller = *thread;
    caller.regs = advance.after;
    match rule_on_next(traps, world, &caller, &advance.next) {
        None => step_thread(
            world,
            io,
            &mut None,
            text,
            thread_number,
            thread,
            Some(advance),
        ),
        Some((ruling, number)) => {
            let change = carry_out(traps, world, thread_number, &mut caller, ruling, number);
            caller.set_steps(thread.budget - 1);
            *thread = caller;
            Ok(Some(Effect {
                change,
                finished: None,
            }))
        }
    }
}

/// Carries out a ruling on the call of a number that a thread makes. It cuts no link, so nothing is searched for
/// what may be dropped.
fn carry_out<W: World>(
    traps: &mut Traps,
    world: &mut W,
    thread_number: u32,
    thread: &mut Thread,
    ruling: Ruling,
    number: u32,
) -> Change
    requires number { thread_number < MOST_THREADS }
    requires ready { CanAct (W.seen world.old) thread.old }
    requires ruling { IsRuling traps.old (W.seen world.old) ruling }
    requires room { fm.len traps.old < MOST_CONTEXTS }
    ensures outcome { Makes (λ e x. spec.ruled ruling number thread_number e x)
        (W.seen world.old) thread.old (W.seen world.new) thread.new }
    ensures traps { traps.new ≡ spec.traps_by traps.old thread.old.context ruling }
    ensures kept { Keeps result (W.seen world.old) thread.old (W.seen world.new) thread.new }
    ensures uncut { result ≢ Change.Links }
{
    match ruling {
        Ruling::Answer(value) => {
            thread.answer(0, value);
            Change::Thread
        }
        Ruling::Trap(target) => {
            traps.trap(target, thread.context);
            thread.answer(0, 0);
            Change::Thread
        }
        Ruling::Monitor { monitor, slot } => {
            enter_monitor(world, thread_number, thread, monitor, slot, number);
            Change::World
        }
    }
}

/// Takes a thread to the monitor of its context, with the number of its call and that call's arguments.
fn enter_monitor<W: World>(
    world: &mut W,
    thread_number: u32,
    thread: &mut Thread,
    monitor: Name,
    slot: SlotNumber,
    number: u32,
)
    requires number { thread_number < MOST_THREADS }
    requires ready { CanAct (W.seen world.old) thread.old }
    requires live { IsLive (W.seen world.old) monitor }
    requires lowest { lowest_empty (W.seen world.old) monitor ≡ Some slot }
    ensures world { W.seen world.new
        ≡ switching.switched
        (W.seen world.old) thread.old.context thread_number thread.old.regs monitor slot }
    ensures thread { thread.new ≡ record thread.old {
      context = monitor;
      regs = reporting thread.old.regs
          (switching.entering (W.seen world.old) thread.old.context thread_number thread.old.regs monitor slot number);
    } }
    ensures kept { LeavesNothing (W.seen world.old) thread.old.context (W.seen world.new) monitor }
{
    let call = thread.regs;
    let argument = u64::from(number);
    let arrived = enter(
        world,
        thread.context,
        thread_number,
        &call,
        monitor,
        slot,
        argument,
    );
    thread.context = monitor;
    thread.regs = reporting(&call, &arrived);
}

/// The registers in the monitor: r1 to r3 of the call are in r3 to r5.
fn reporting(call: &Regs, arrived: &Regs) -> Regs
    ensures { result ≡ reporting call.now arrived.now }
{
    let mut r = arrived.r;
    r[3] = call.r[1];
    r[4] = call.r[2];
    r[5] = call.r[3];
    Regs { r, pc: arrived.pc }
}
