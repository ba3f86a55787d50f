ghost use Rattle.std.specs.Prelude.{◌≡◌, ◌<◌, IfOk, IsOk, OnErr, OnOk, true};
ghost use Rattle.kernel_core.specs.Changes.{Keeps, Makes, MakesAll, change_by, change_by_end};
ghost use Rattle.kernel_core.specs.Changes as spec_changes;
ghost use Rattle.kernel_core.specs.Ready.{CanAct};
ghost use Rattle.kernel_core.specs.Step as spec;
ghost use Rattle.lwc_base.specs.Channels.{HasItsFiles};
ghost use Rattle.lwc_types.specs.declared.limits.TheConstants.{MOST_THREADS};

use crate::acting::Change;
use crate::thread::Thread;
use lwc_base::{Answer, Channels, Moved, OutOfMemory, Regs};
use lwc_create::create;
use lwc_overlay::{overlay, restrict};
use lwc_switch::switch;
use lwc_syscall::{CallAnswer, CallContexts, PlainCall, lw_syscall, plain};
use world_face::World;

/// The number of the call that makes a context.
pub const LW_CREATE: u32 = 16;

/// The number of the call that takes a thread to another context.
pub const LW_SWITCH: u32 = 17;

/// The number of the call that takes keys from a capability.
pub const LW_RESTRICT: u32 = 18;

/// The number of the call that takes over from a context what items name.
pub const LW_OVERLAY: u32 = 19;

/// The number of the call that makes a plain one over the contexts that a mask chooses.
pub const LW_SYSCALL: u32 = 20;

/// Makes the call of a number for a thread. The only error is out of memory, and then the world and the
/// channels are as before.
#[inline(never)]
#[tactic(auto, unfolding(crate::specs::Step::guest_calls))]
pub(crate) fn call<W: World>(
    world: &mut W,
    io: &mut Channels,
    thread_number: u32,
    thread: &mut Thread,
    number: u32,
) -> Result<Change, OutOfMemory>
    requires number { thread_number < MOST_THREADS }
    requires ready { CanAct (W.seen world.old) thread.old }
    requires files { HasItsFiles io.old (W.seen world.old) }
    ensures outcome { OnOk result (MakesAll (λ e x. spec.guest_calls number thread_number e x)
        (W.seen world.old) io.old thread.old (W.seen world.new) io.new thread.new) }
    ensures kept { IfOk result (λ change.
        Keeps change (W.seen world.old) thread.old (W.seen world.new) thread.new) }
    ensures err { OnErr result (W.seen world.new ≡ W.seen world.old) }
    ensures err_io { OnErr result (io.new ≡ io.old) }
    ensures err_thread { OnErr result (thread.new ≡ thread.old) }
    ensures ample { W.roomy ≡ true → IsOk result }
{
    match number {
        LW_CREATE => call_create(world, thread),
        LW_SWITCH => Ok(call_switch(world, thread_number, thread)),
        LW_RESTRICT => Ok(call_restrict(world, thread)),
        LW_OVERLAY => call_overlay(world, thread),
        LW_SYSCALL => call_syscall(world, io, thread),
        _ => call_plain(world, io, thread, number),
    }
}

/// Makes the call that makes a context. The only error is out of memory, and then the world is as before.
#[inline(never)]
fn call_create<W: World>(world: &mut W, thread: &mut Thread) -> Result<Change, OutOfMemory>
    requires ready { CanAct (W.seen world.old) thread.old }
    ensures outcome { OnOk result (Makes (λ e x. spec.create_outcome e x)
        (W.seen world.old) thread.old (W.seen world.new) thread.new) }
    ensures kept { IfOk result (λ change.
        Keeps change (W.seen world.old) thread.old (W.seen world.new) thread.new) }
    ensures err { OnErr result (W.seen world.new ≡ W.seen world.old) }
    ensures err_thread { OnErr result (thread.new ≡ thread.old) }
    ensures ample { W.roomy ≡ true → IsOk result }
{
    let answer = create(world, thread.context, thread.job, &thread.regs)?;
    Ok(end_call(thread, answer, Change::World))
}

/// Makes the call that takes a thread to another context.
fn call_switch<W: World>(world: &mut W, thread_number: u32, thread: &mut Thread) -> Change
    requires number { thread_number < MOST_THREADS }
    requires ready { CanAct (W.seen world.old) thread.old }
    ensures outcome { Makes (λ e x. spec.switch_outcome thread_number e x)
        (W.seen world.old) thread.old (W.seen world.new) thread.new }
    ensures kept { Keeps result (W.seen world.old) thread.old (W.seen world.new) thread.new }
{
    match switch(world, thread.context, thread_number, &thread.regs) {
        Moved::To { context, regs } => {
            // In two parts, as in `run_thread`.
            let Regs { r, pc } = regs;
            thread.context = context;
            thread.regs = Regs { r, pc };
            Change::World
        }
        Moved::Refused(refusal) => {
            thread.refuse(refusal);
            Change::Thread
        }
    }
}

/// Makes the call that takes keys from a capability.
#[inline(never)]
fn call_restrict<W: World>(world: &mut W, thread: &mut Thread) -> Change
    requires { CanAct (W.seen world.old) thread.old }
    ensures outcome { Makes (λ e x. spec.restrict_outcome e x)
        (W.seen world.old) thread.old (W.seen world.new) thread.new }
    ensures kept { Keeps result (W.seen world.old) thread.old (W.seen world.new) thread.new }
{
    let answer = restrict(world, thread.context, &thread.regs);
    end_call(thread, answer, Change::World)
}

/// Makes the call that takes over from a context what items name. The only error is out of memory, and
/// then the world is as before.
#[inline(never)]
fn call_overlay<W: World>(world: &mut W, thread: &mut Thread) -> Result<Change, OutOfMemory>
    requires { CanAct (W.seen world.old) thread.old }
    ensures outcome { OnOk result (Makes (λ e x. spec.overlay_outcome e x)
        (W.seen world.old) thread.old (W.seen world.new) thread.new) }
    ensures kept { IfOk result (λ change.
        Keeps change (W.seen world.old) thread.old (W.seen world.new) thread.new) }
    ensures err { OnErr result (W.seen world.new ≡ W.seen world.old) }
    ensures err_thread { OnErr result (thread.new ≡ thread.old) }
    ensures ample { W.roomy ≡ true → IsOk result }
{
    let answer = overlay(world, thread.context, thread.job, &thread.regs)?;
    Ok(end_call(thread, answer, Change::Links))
}

/// Makes the call that makes a plain one over the contexts that a mask chooses. The only error is out of
/// memory, and then the world and the channels are as before.
#[inline(never)]
fn call_syscall<W: World>(
    world: &mut W,
    io: &mut Channels,
    thread: &mut Thread,
) -> Result<Change, OutOfMemory>
    requires ready { CanAct (W.seen world.old) thread.old }
    requires files { HasItsFiles io.old (W.seen world.old) }
    ensures outcome { OnOk result (MakesAll (λ e x. spec.syscall_outcome e x)
        (W.seen world.old) io.old thread.old (W.seen world.new) io.new thread.new) }
    ensures kept { IfOk result (λ change.
        Keeps change (W.seen world.old) thread.old (W.seen world.new) thread.new) }
    ensures err { OnErr result (W.seen world.new ≡ W.seen world.old) }
    ensures err_io { OnErr result (io.new ≡ io.old) }
    ensures err_thread { OnErr result (thread.new ≡ thread.old) }
    ensures ample { W.roomy ≡ true → IsOk result }
{
    let accepted = change_by_plain(PlainCall::from_number(thread.regs.r[3]));
    let answer = lw_syscall(world, io, thread.context, thread.job, &thread.regs)?;
    Ok(end_plain(thread, answer, accepted))
}

/// Makes the plain call of a number over the thread's own context. The only error is out of memory, and then
/// the world and the channels are as before.
fn call_plain<W: World>(
    world: &mut W,
    io: &mut Channels,
    thread: &mut Thread,
    number: u32,
) -> Result<Change, OutOfMemory>
    requires ready { CanAct (W.seen world.old) thread.old }
    requires files { HasItsFiles io.old (W.seen world.old) }
    ensures outcome { OnOk result (MakesAll (λ e x. spec.plain_outcome number e x)
        (W.seen world.old) io.old thread.old (W.seen world.new) io.new thread.new) }
    ensures kept { IfOk result (λ change.
        Keeps change (W.seen world.old) thread.old (W.seen world.new) thread.new) }
    ensures err { OnErr result (W.seen world.new ≡ W.seen world.old) }
    ensures err_io { OnErr result (io.new ≡ io.old) }
    ensures err_thread { OnErr result (thread.new ≡ thread.old) }
    ensures ample { W.roomy ≡ true → IsOk result }
{
    let c = thread.context;
    let targets = CallContexts {
        memory: c,
        slots: c,
        cred: c,
    };
    let args = [thread.regs.r[1], thread.regs.r[2], thread.regs.r[3]];
    let call = PlainCall::from_number(u64::from(number));
    let answer = plain(world, io, &targets, thread.job, call, args)?;
    Ok(end_plain(thread, answer, change_by_plain(call)))
}

/// What a plain call may change where it is accepted: a write, a getuid and an exit leave the world, and an open,
/// a dup and a read cut no link.
fn change_by_plain(call: Option<PlainCall>) -> Change
    ensures { result ≡ spec_changes.change_by_plain call }
{
    match call {
        Some(PlainCall::Write) | Some(PlainCall::GetUid) | Some(PlainCall::Exit) => Change::Thread,
        Some(PlainCall::Open) | Some(PlainCall::Dup) | Some(PlainCall::Read) => Change::World,
        _ => Change::Links,
    }
}

/// Ends a plain call by its answer: the thread goes on with a value in r0, or with the reason of a
/// refusal, or it ends. Answers what has changed: by an accepted call this change, and by a refused one
/// the thread alone.
fn end_plain(thread: &mut Thread, answer: CallAnswer, change: Change) -> Change
    ensures thread { thread.new ≡ spec.plainly thread.old answer }
    ensures change { result ≡ change_by_end answer change }
{
    match answer {
        CallAnswer::Value(value) => {
            thread.answer(0, value);
            change
        }
        CallAnswer::Exit(code) => {
            thread.finish(code);
            change
        }
        CallAnswer::Refused(refusal) => {
            thread.refuse(refusal);
            Change::Thread
        }
    }
}

/// Ends a call by its answer: the thread goes on with other registers, or with the reason of a refusal in r0.
/// Answers what has changed: by an accepted call this change, and by a refused one the thread alone.
fn end_call(thread: &mut Thread, answer: Answer, change: Change) -> Change
    ensures thread { thread.new ≡ spec.answered thread.old answer }
    ensures change { result ≡ change_by answer change }
{
    match answer {
        Answer::Done(regs) => {
            thread.regs = regs;
            change
        }
        Answer::Refused(refusal) => {
            thread.refuse(refusal);
            Change::Thread
        }
    }
}
