ghost use Rattle.std.specs.Prelude.{◌≡◌, ◌<◌, ◌≤◌, IfNone, IfOk, IfSome, IsOk, None, OnErr, OnOk, Some, length, true};
ghost use Rattle.guest_isa.specs.Instructions.{IsInstruction, IsText};
ghost use Rattle.guest_machine.specs.Advances.{IfShared, advanced};
ghost use Rattle.kernel_core.specs.Changes.{IsNumbered, Keeps, KeepsAll, MakesAll, after_effect, made};
ghost use Rattle.kernel_core.specs.Machine.{has_ended, home_of};
ghost use Rattle.kernel_core.specs.declared.acting.Change.TheVariants as changes;
ghost use Rattle.kernel_core.specs.Ready.{CanAct, CanServe, HasItsJob, WhileRunning};
ghost use Rattle.kernel_core.specs.Step as spec;
ghost use Rattle.lwc_base.specs.Channels.{HasItsFiles};
ghost use Rattle.kernel_core.specs.declared.thread.Thread.{Thread};
ghost use Rattle.lwc_base.specs.World.{World};
ghost use Rattle.lwc_types.specs.declared.limits.TheConstants.{MOST_THREADS};
ghost use Rattle.world_face.specs.Calls.{IsLive};

use crate::calling::call;
use crate::memory::{address_of, byte_at, store_byte, store_word, word_at};
use crate::serve::{Serve, home_of};
use crate::thread::{Thread, has_ended};
use guest_isa::{Instr, Op, Text};
use guest_machine::{Advance, Next, run_on};
use lwc_base::{Channels, Fault, OutOfMemory, Regs, ThreadStatus};
use snapshot_host::begin;
use world_face::World;

/// What a step has changed.
#[derive(Clone, Copy, PartialEq, Eq)]
pub enum Change {
    /// Not the world, and not the context that the thread is in.
    Thread,
    /// The world too, but no link is cut: what was reached still is.
    World,
    /// The world too, and a link may be cut.
    Links,
}

/// What a step has changed, and the number of the request that it has finished, if it has.
#[derive(Clone, Copy, PartialEq, Eq)]
pub struct Effect {
    pub change: Change,
    pub finished: Option<u16>,
}

impl Effect {
    /// The effect of a step that finishes no request.
    fn only(change: Change) -> Effect
        ensures { result ≡ record { change = change; finished = None } }
    {
        Effect {
            change,
            finished: None,
        }
    }
}

/// Makes a step of a thread in place. Answers what has changed; `None` if the thread had ended. The only
/// error is out of memory, and then nothing has changed.
#[inline(always)]
pub fn step_thread<W: World>(
    world: &mut W,
    io: &mut Channels,
    serve: &mut Option<Serve>,
    text: &Text,
    thread_number: u32,
    thread: &mut Thread,
    proposal: Option<&Advance>,
) -> Result<Option<Effect>, OutOfMemory>
    requires number { thread_number < MOST_THREADS }
    requires ready { WhileRunning thread.old.status (CanAct (W.seen world.old) thread.old) }
    requires files { HasItsFiles io.old (W.seen world.old) }
    requires steps { WhileRunning thread.old.status (0 < thread.old.budget) }
    requires serve { IfSome serve.old (CanServe (W.seen world.old) io.old) }
    requires worker { IfSome serve.old
        (λ s. (thread_number < s.workers) × HasItsJob s thread.old.status thread.old.job) }
    requires proposal { IfSome proposal (λ a. a.now ≡ advanced text.now a.now.before) }
    requires text { IsText text.now }
    ensures outcome { IfOk result (λ effect.
        spec.thread_outcome spec.guest_calls thread_number (spec.beside (W.seen world.old) io.old) serve.old text.now
        thread.old thread.old.status
        ≡ made effect (spec.beside (W.seen world.new) io.new) serve.new thread.new) }
    ensures number { IfOk result (λ effect. IfSome effect (λ e. IsNumbered e serve.new)) }
    ensures kept { IfOk result (λ effect. KeepsAll effect
        (W.seen world.old) io.old serve.old thread.old (W.seen world.new) io.new serve.new thread.new) }
    ensures err { OnErr result (W.seen world.new ≡ W.seen world.old) }
    ensures err_io { OnErr result (io.new ≡ io.old) }
    ensures err_serve { OnErr result (serve.new ≡ serve.old) }
    ensures err_thread { OnErr result (thread.new ≡ thread.old) }
    ensures ample { W.roomy ≡ true → IsOk result }
{
    match thread.status {
        ThreadStatus::Running => {
            let change = run_thread(world, io, text, thread_number, thread, proposal)?;
            Ok(Some(settle(world, io, serve, thread_number, thread, change)))
        }
        ThreadStatus::Idle => Ok(Some(wake(world, io, serve, thread_number, thread)?)),
        ThreadStatus::Done { .. } | ThreadStatus::Faulted { .. } => Ok(None),
    }
}

/// Ends a step of a running thread: in a serve its request is finished once the thread has ended, and
/// the worker waits at home again.
#[inline(always)]
fn settle<W: World>(
    world: &W,
    io: &Channels,
    serve: &mut Option<Serve>,
    thread_number: u32,
    thread: &mut Thread,
    change: Change,
) -> Effect
    requires number { thread_number < MOST_THREADS }
    requires home { IfSome serve.old (λ s. IsLive (W.seen world.now) (home_of thread_number)) }
    requires begun { IfSome serve.old (λ s. (1 ≤ thread.old.job) × (thread.old.job ≤ s.next)) }
    requires known { IfSome serve.old (λ s. s.next ≤ length io.now.requests) }
    requires replies { IfSome serve.old (λ s. length s.replies ≡ length io.now.requests) }
    ensures number { IsNumbered result serve.new }
    ensures after { spec.settled thread_number serve.old
        (spec.unchanged (spec.beside (W.seen world.now) io.now) thread.old)
        ≡ after_effect result (spec.beside (W.seen world.now) io.now) serve.new thread.new }
    ensures kept { (w : World) (x : Thread) → Keeps change w x (W.seen world.now) thread.old →
        Keeps result.change w x (W.seen world.now) thread.new }
{
    match serve {
        Some(serve) if has_ended(thread.status) => {
            finish_request(world, io, serve, thread_number, thread)
        }
        _ => Effect::only(change),
    }
}

/// Records the reply of a worker that has ended, which then waits at home again. Not inlined, since each step would
/// clear the registers of the worker.
#[inline(never)]
fn finish_request<W: World>(
    world: &W,
    io: &Channels,
    serve: &mut Serve,
    thread_number: u32,
    thread: &mut Thread,
) -> Effect
    requires number { thread_number < MOST_THREADS }
    requires home { IsLive (W.seen world.now) (home_of thread_number) }
    requires begun { (1 ≤ thread.old.job) × (thread.old.job ≤ serve.old.next) }
    requires known { serve.old.next ≤ length io.now.requests }
    requires replies { length serve.old.replies ≡ length io.now.requests }
    requires ended { has_ended thread.old.status ≡ true }
    ensures number { IsNumbered result (Some serve.new) }
    ensures after { spec.settled thread_number (Some serve.old)
        (spec.unchanged (spec.beside (W.seen world.now) io.now) thread.old)
        ≡ after_effect result (spec.beside (W.seen world.now) io.now) (Some serve.new) thread.new }
    ensures links { result.change ≡ changes.Links }
{
    let _requests = io.requests();
    let r = (thread.job - 1) as u16;
    serve.record_reply(io, r, thread.status);
    let home = home_of(thread_number);
    *thread = Thread::waiting(home, world.entry(home));
    Effect {
        change: Change::Links,
        finished: Some(r),
    }
}

/// Makes a step of an idle thread: it begins the next request in a copy of its home, or ends if none is
/// left. The only error is out of memory, and then nothing has changed.
#[inline(never)]
fn wake<W: World>(
    world: &mut W,
    io: &Channels,
    serve: &mut Option<Serve>,
    thread_number: u32,
    thread: &mut Thread,
) -> Result<Effect, OutOfMemory>
    requires number { thread_number < MOST_THREADS }
    requires serve { IfSome serve.old
        (λ s. (thread_number < s.workers) × CanServe (W.seen world.old) io.now s) }
    ensures number { IfOk result (λ effect. IsNumbered effect serve.new) }
    ensures after { IfOk result (λ effect.
        spec.woken thread_number serve.old (spec.beside (W.seen world.old) io.now) thread.old
        ≡ after_effect effect (spec.beside (W.seen world.new) io.now) serve.new thread.new) }
    ensures kept { IfOk result (λ effect.
        Keeps effect.change (W.seen world.old) thread.old (W.seen world.new) thread.new) }
    ensures err { OnErr result (W.seen world.new ≡ W.seen world.old) }
    ensures err_serve { OnErr result (serve.new ≡ serve.old) }
    ensures err_thread { OnErr result (thread.new ≡ thread.old) }
    ensures ample { W.roomy ≡ true → IsOk result }
{
    match serve {
        Some(serve) if usize::from(serve.next) < io.requests().len() => {
            let r = serve.next;
            let home = home_of(thread_number);
            let regs = world.entry(home);
            let context = begin(world, home, r)?;
            *thread = Thread {
                status: ThreadStatus::Running,
                context,
                regs,
                job: u32::from(r) + 1,
                budget: serve.budget,
            };
            serve.next = r + 1;
            Ok(Effect::only(Change::Links))
        }
        _ => {
            thread.finish(0);
            Ok(Effect::only(Change::Thread))
        }
    }
}

/// Makes a step of a running thread.
#[inline(always)]
#[tactic(auto, unfolding(crate::specs::Step::advance_outcome))]
fn run_thread<W: World>(
    world: &mut W,
    io: &mut Channels,
    text: &Text,
    thread_number: u32,
    thread: &mut Thread,
    proposal: Option<&Advance>,
) -> Result<Change, OutOfMemory>
    requires number { thread_number < MOST_THREADS }
    requires ready { CanAct (W.seen world.old) thread.old }
    requires files { HasItsFiles io.old (W.seen world.old) }
    requires steps { 0 < thread.old.budget }
    requires proposal { IfSome proposal (λ a. a.now ≡ advanced text.now a.now.before) }
    requires text { IsText text.now }
    ensures outcome { OnOk result (MakesAll
        (λ e x. spec.advance_outcome spec.guest_calls thread_number e x (advanced text.now x.regs))
        (W.seen world.old) io.old thread.old (W.seen world.new) io.new thread.new) }
    ensures kept { IfOk result (λ change.
        Keeps change (W.seen world.old) thread.old (W.seen world.new) thread.new) }
    ensures err { OnErr result (W.seen world.new ≡ W.seen world.old) }
    ensures err_io { OnErr result (io.new ≡ io.old) }
    ensures err_thread { OnErr result (thread.new ≡ thread.old) }
    ensures ample { W.roomy ≡ true → IsOk result }
{
    let left = thread.budget - 1;
    let before = kept_regs::<W>(&thread.regs);
    let next = advance_regs(text, &mut thread.regs, proposal);
    match run_next(world, io, thread_number, thread, next) {
        Ok(change) => {
            thread.set_steps(left);
            Ok(change)
        }
        Err(OutOfMemory) => {
            if let Some(regs) = before {
                thread.regs = regs;
            }
            Err(OutOfMemory)
        }
    }
}

/// The registers, to be put back where a step finds no memory. Over a roomy world each step finds its memory,
/// and nothing is kept.
#[inline(always)]
fn kept_regs<W: World>(regs: &Regs) -> Option<Regs>
    ensures kept { IfSome result (λ kept. kept ≡ regs.now) }
    ensures roomy { IfNone result (W.roomy ≡ true) }
{
    if W::is_roomy() { None } else { Some(*regs) }
}

/// Does the private instructions that come first, as proposed if the proposal begins with these registers.
/// Answers what comes next.
#[inline(always)]
#[tactic(auto, using(guest_machine::proofs::Runs::comes_to_instruction))]
fn advance_regs(text: &Text, regs: &mut Regs, proposal: Option<&Advance>) -> Next
    requires proposal { IfSome proposal (λ a. a.now ≡ advanced text.now a.now.before) }
    requires text { IsText text.now }
    ensures exact { record { before = regs.old; after = regs.new; next = result }
        ≡ advanced text.now regs.old }
    ensures instruction { IfShared result IsInstruction }
{
    match proposal {
        Some(proposed) if proposed.before == *regs => {
            *regs = proposed.after;
            proposed.next
        }
        _ => run_on(text, regs),
    }
}

/// Does what comes after the private instructions of a thread.
#[inline(always)]
#[tactic(auto, unfolding(crate::specs::Step::next_outcome))]
fn run_next<W: World>(
    world: &mut W,
    io: &mut Channels,
    thread_number: u32,
    thread: &mut Thread,
    next: Next,
) -> Result<Change, OutOfMemory>
    requires number { thread_number < MOST_THREADS }
    requires ready { CanAct (W.seen world.old) thread.old }
    requires files { HasItsFiles io.old (W.seen world.old) }
    requires instruction { IfShared next IsInstruction }
    ensures outcome { OnOk result (MakesAll (λ e x. spec.next_outcome spec.guest_calls thread_number e x next)
        (W.seen world.old) io.old thread.old (W.seen world.new) io.new thread.new) }
    ensures kept { IfOk result (λ change.
        Keeps change (W.seen world.old) thread.old (W.seen world.new) thread.new) }
    ensures err { OnErr result (W.seen world.new ≡ W.seen world.old) }
    ensures err_io { OnErr result (io.new ≡ io.old) }
    ensures err_thread { OnErr result (thread.new ≡ thread.old) }
    ensures ample { W.roomy ≡ true → IsOk result }
{
    match next {
        Next::Pause => Ok(Change::Thread),
        Next::BadPc => {
            thread.fail(Fault::BadPc);
            Ok(Change::Thread)
        }
        Next::Shared(i) => execute(world, io, thread_number, thread, &i),
    }
}

/// Does a shared instruction of a thread.
#[inline(always)]
#[tactic(auto, using(guest_isa::proofs::Fields::in_range), unfolding(crate::specs::Step::shared_outcome))]
fn execute<W: World>(
    world: &mut W,
    io: &mut Channels,
    thread_number: u32,
    thread: &mut Thread,
    instruction: &Instr,
) -> Result<Change, OutOfMemory>
    requires number { thread_number < MOST_THREADS }
    requires ready { CanAct (W.seen world.old) thread.old }
    requires files { HasItsFiles io.old (W.seen world.old) }
    requires instruction { IsInstruction instruction.now }
    ensures outcome { OnOk result
        (MakesAll (λ e x. spec.shared_outcome spec.guest_calls thread_number e x instruction.now instruction.now.op)
        (W.seen world.old) io.old thread.old (W.seen world.new) io.new thread.new) }
    ensures kept { IfOk result (λ change.
        Keeps change (W.seen world.old) thread.old (W.seen world.new) thread.new) }
    ensures err { OnErr result (W.seen world.new ≡ W.seen world.old) }
    ensures err_io { OnErr result (io.new ≡ io.old) }
    ensures err_thread { OnErr result (thread.new ≡ thread.old) }
    ensures ample { W.roomy ≡ true → IsOk result }
{
    let at = address_of(&thread.regs, instruction);
    match instruction.op {
        Op::Ldb => {
            thread.load(
                instruction.rd,
                byte_at(world, thread.context, at).map(u64::from),
            );
            Ok(Change::Thread)
        }
        Op::Ldw => {
            thread.load(instruction.rd, word_at(world, thread.context, at));
            Ok(Change::Thread)
        }
        Op::Stb => store_byte(
            world,
            thread,
            at,
            thread.regs.r[usize::from(instruction.rb)],
        ),
        Op::Stw => store_word(
            world,
            thread,
            at,
            thread.regs.r[usize::from(instruction.rb)],
        ),
        Op::Sys => call(world, io, thread_number, thread, instruction.imm),
        Op::Halt => {
            thread.finish(0);
            Ok(Change::Thread)
        }
        _ => Ok(Change::Thread),
    }
}
