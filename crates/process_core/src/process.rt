//! A process, as its callers see it.
ghost use Rattle.std.specs.Prelude.{◌≡◌, ◌<◌, ◌≤◌, ◌+◌, ℕ, [], ◌∷◌, ◌++◌, false, true, length, All};
ghost use Rattle.std.specs.Prelude.{IfOk, IfSome, None, Some, option_map, option_to_list, slice_get};
ghost use Rattle.guest_machine.specs.Advances.{advanced};
ghost use Rattle.kernel_core.specs.Histories.{GoesOn, IsComplete, IsLegal, turn_after};
ghost use Rattle.kernel_core.specs.Kernel as kernels;
ghost use Rattle.kernel_core.specs.Kernel.{machine_of};
ghost use Rattle.kernel_core.specs.Machine.{has_ended, is_ended, work};
ghost use Rattle.kernel_core.specs.Start.{start, thread_count};
ghost use Rattle.lwc_types.specs.declared.fault.ThreadStatus.TheVariants.{Running};
ghost use Rattle.process_core.specs.Running.{AreAdvances, AreAllOf, AreInRow, Carried, IsNewPass, IsPassOf, Leaves};
ghost use Rattle.process_core.specs.Running.{MakesTurn, NotesTurn, offered};
ghost use Rattle.turnstile.specs.Passes as gates;
ghost use Rattle.turnstile.specs.Past.{Knows};

use crate::guarded::{Guarded, guard};
use crate::opening::{first_turns, hand_out};
use crate::passes::{ProcessPass, ProcessPasses};
use crate::stay::Stay;
use guest_isa::Text;
use guest_machine::Advance;
use kernel_core::{Kernel, Turn};
use lwc_base::OutOfMemory;
use std::alloc::Global;
use std::marker::Model;
use std::slice::from_ref;
use std::sync::Wait;
use turnstile::{Pass, Turnstile};
use world_face::World;

/// A kernel under a lock. Threads share it by `&`, each with a pass of its own.
///
/// Contracts see it as its lock, whose name is what the process was opened with.
#[derive(Drop)]
pub struct Process<W: World> {
    gate: Turnstile<Guarded<W>>,
    text: Text,
    threads: u32,
}

impl<W: World> Model for Process<W> {
    ghost use Rattle.std.specs.Prelude.{◌≡◌};
    ghost use Rattle.kernel_core.specs.Start.{thread_count};
    ghost use Rattle.process_core.specs.declared.opened.Opened.{Opened};
    ghost use Rattle.turnstile.specs.Passes.{Lock};

    ghost Value = { Lock Opened };

    ghost view = { λ p. p.gate };

    ghost invariant = { λ p. (p.text ≡ p.gate.name.inputs.image.text)
        × (p.gate.seats ≡ thread_count p.gate.name.inputs) × (p.threads ≡ thread_count p.gate.name.inputs) };
}

/// The proposal in a slice, if there is one.
fn slice_of(proposal: Option<&Advance>) -> &[Advance]
    ensures { result.now ≡ option_to_list (option_map (λ a. a.now) proposal.entry) }
{
    match proposal {
        Some(advance) => from_ref(advance),
        None => &[],
    }
}

/// One step of the pass's thread, which its last turn had not ended. What it left is noted in the box.
#[inline(always)]
fn take_turn<R: Wait, W: World>(
    gate: &Turnstile<Guarded<W>>,
    rt: &R,
    pass: &mut Pass<Guarded<W>>,
    proposal: &[Advance],
    last: Box<Turn>,
) -> Box<Turn>
    requires ours { gates.IsPassOf gate.now pass.old }
    requires within { pass.old.number < thread_count gate.now.name.inputs }
    requires knows { Leaves gate.now.name.inputs pass.old.number pass.old.seen last.value }
    requires going { has_ended last.value.status ≡ false }
    requires proposal { AreAdvances gate.now.name.inputs.image.text proposal.now }
    ensures ours { gates.IsPassOf gate.now pass.new }
    ensures number { pass.new.number ≡ pass.old.number }
    ensures leaves { Leaves gate.now.name.inputs pass.new.number pass.new.seen result.value }
    ensures goes_on { GoesOn pass.old.number pass.old.seen pass.new.seen }
    ensures later { pass.old.noted < length pass.new.seen }
    ensures noted { pass.old.noted ≤ pass.new.noted }
{
    let t = pass.number();
    gate.turn_inside(
        rt,
        pass,
        move |guarded: &mut Guarded<W>| -> Box<Turn>
            requires { (t < thread_count guarded.now.kernel.value.inputs)
                × (is_ended (machine_of guarded.now.kernel.value) t ≡ false)
                × AreAdvances guarded.now.kernel.value.inputs.image.text proposal.now }
            ensures { (guarded.exit.now.kernel.value.inputs ≡ guarded.entry.now.kernel.value.inputs)
                × (guarded.exit.now.first_room.value ≡ guarded.entry.now.first_room.value)
                × (guarded.exit.now.kernel.value.steps ≡ guarded.entry.now.kernel.value.steps ++ t ∷ [])
                × (kernels.turn guarded.exit.now.kernel.value t ≡ Some result.value) }
        { guarded.make_step(t, proposal.first(), last) },
    )
}

impl<W: World> Process<W> {
    /// A kernel under a lock, and a pass for each of its threads, in the order of their numbers. The kernel
    /// has kept no step, and has room for all steps that its threads may make. This is the only call that
    /// takes memory.
    ///
    /// # Errors
    ///
    /// The only error is out of memory; the kernel is then given up.
    pub fn open(
        alloc: Global,
        kernel: Kernel<W>,
    ) -> Result<(Process<W>, ProcessPasses<W>), OutOfMemory>
        requires roomy { W.roomy ≡ true }
        requires fresh { kernel.steps ≡ [] }
        requires room { work (machine_of kernel) ≤ kernel.room }
        ensures inputs { IfOk result (λ p. p.0.name.inputs ≡ kernel.inputs) }
        ensures room { IfOk result (λ p. p.0.name.room ≡ kernel.room) }
        ensures count { IfOk result (λ p. length p.1.items ≡ thread_count kernel.inputs) }
        ensures passes { IfOk result (λ p. (i : ℕ) (q : Carried) →
            slice_get p.1.items i ≡ Some q → IsNewPass p.0 i q) }
        ensures all { IfOk result (λ p. AreAllOf p.0 p.1.items) }
    {
        let text = kernel.text().copy(alloc)?;
        let turns = first_turns(alloc, &kernel)?;
        let threads = kernel.thread_count();
        let passes = Vec::with_capacity(alloc, threads as usize)?;
        let kernel = Box::new(alloc, kernel)?;
        let (gate, held) = Turnstile::new(alloc, guard(kernel), threads)?;
        let passes = hand_out(&gate, held, alloc, &turns, passes)?;
        let process = Process {
            gate,
            text,
            threads,
        };
        Ok((process, passes))
    }

    /// The instructions that its threads run. It waits for nobody.
    pub fn text(&self) -> &Text
        ensures { result.now ≡ self.now.name.inputs.image.text }
    {
        &self.text
    }

    /// Prepares a stay of the pass's thread, unless it is inside: the proposal of its next turn is the advance of the
    /// registers that the last turn left. A thread that is alone proposes nothing, since nobody waits while it advances
    /// in its turn. It waits for nobody, and takes no memory.
    #[inline(always)]
    pub fn propose(&self, pass: &ProcessPass<W>, stay: &mut Stay)
        requires fits { AreAdvances self.now.name.inputs.image.text stay.old.places }
        ensures turns { stay.new.turns ≡ stay.old.turns }
        ensures made { stay.new.made ≡ stay.old.made }
        ensures kept { 0 < stay.old.made → stay.new ≡ stay.old }
        ensures others { stay.old.made ≡ 0 → 1 < thread_count self.now.name.inputs →
            pass.now.last.status ≡ Running →
            offered stay.new ≡ Some (advanced self.now.name.inputs.image.text pass.now.last.regs) }
        ensures alone { stay.old.made ≡ 0 → thread_count self.now.name.inputs ≡ 1 → offered stay.new ≡ None }
        ensures row { stay.old.made ≡ 0 → AreInRow stay.new.count stay.new.places }
        ensures fits { AreAdvances self.now.name.inputs.image.text stay.new.places }
    {
        if stay.is_inside() {
            return;
        }
        if self.threads == 1 {
            stay.prepare_alone();
        } else {
            stay.prepare(&self.text, pass.last());
        }
    }

    /// One step of the pass's thread, or none where its last turn had ended the thread: then that turn is
    /// answered again. It may wait, and takes no memory. A proposal is the advance of some registers over
    /// the text; it is used if it begins with the thread's registers, and the answer is the same without
    /// it. Without one the thread advances while it holds the lock.
    ///
    /// The answer is what the history that the pass has then seen leaves of the thread. That history is
    /// legal, and goes on from the one that the pass had seen by steps of others and one of this thread.
    pub fn turn<R: Wait>(
        &self,
        rt: &R,
        pass: &mut ProcessPass<W>,
        proposal: Option<&Advance>,
    ) -> Turn
        requires ours { IsPassOf self.now pass.old }
        requires proposal { IfSome proposal
            (λ a. a.now ≡ advanced self.now.name.inputs.image.text a.now.before) }
        ensures makes { MakesTurn self.now pass.old pass.new }
        ensures last { pass.new.last ≡ result }
    {
        if !pass.last().has_ended() {
            self.gate.mutex().lock(rt);
            self.turn_inside(rt, pass, proposal);
            self.gate.mutex().unlock();
        }
        pass.last().same()
    }

    /// Makes the same turn as the next one of a stay: where the thread is not inside it comes in first, and where the
    /// stay is over it goes out. It answers nothing, since the pass then has the turn as its last one. Whoever stops
    /// inside a stay keeps the others out.
    #[inline(always)]
    pub fn make_turn<R: Wait>(&self, rt: &R, pass: &mut ProcessPass<W>, stay: &mut Stay)
        requires ours { IsPassOf self.now pass.old }
        requires fits { AreAdvances self.now.name.inputs.image.text stay.old.places }
        ensures makes { MakesTurn self.now pass.old pass.new }
        ensures notes { NotesTurn stay.old stay.new pass.new.last }
        ensures fits { AreAdvances self.now.name.inputs.image.text stay.new.places }
    {
        if !stay.is_inside() {
            if pass.last().has_ended() {
                return;
            }
            self.gate.mutex().lock(rt);
        }
        self.turn_inside(rt, pass, stay.proposal());
        if !stay.goes_on(&self.text, pass.last(), self.threads == 1) {
            self.gate.mutex().unlock();
        }
    }

    /// Makes the same turn for a thread that is inside.
    #[inline(always)]
    fn turn_inside<R: Wait>(&self, rt: &R, pass: &mut ProcessPass<W>, proposal: Option<&Advance>)
        requires ours { IsPassOf self.now pass.old }
        requires proposal { IfSome proposal
            (λ a. a.now ≡ advanced self.now.name.inputs.image.text a.now.before) }
        ensures makes { MakesTurn self.now pass.old pass.new }
    {
        if pass.last().has_ended() {
            return;
        }
        if let Some(last) = pass.last.take() {
            let left = take_turn(&self.gate, rt, &mut pass.pass, slice_of(proposal), last);
            *pass.last = Some(left);
        }
    }

    /// How many steps were kept. The pass notes the answer, which is below neither the number of steps that
    /// it has seen nor what it had noted. It waits for nobody.
    pub fn steps_seen(&self, pass: &mut ProcessPass<W>) -> u64
        requires ours { IsPassOf self.now pass.old }
        ensures seen { length pass.old.held.seen ≤ result }
        ensures noted { pass.old.held.noted ≤ result }
        ensures pass { pass.new ≡ record pass.old { held = record pass.old.held { noted = result } } }
        ensures ours { IsPassOf self.now pass.new }
    {
        self.gate.served(&mut pass.pass)
    }

    /// Ends the process, and gives its kernel back. The passes are all those that `open` gave, in any order.
    /// It takes no memory.
    ///
    /// The kernel's steps are a legal history, which begins with what each pass had seen, has no further step
    /// of that pass's thread, and has at least as many steps as the pass had noted. Where the last turn of
    /// each pass ended its thread, the history is complete. The steps that were kept and the room that is
    /// left are together the room at the start.
    pub fn close(self, passes: ProcessPasses<W>) -> Kernel<W>
        requires { AreAllOf self passes.items }
        ensures inputs { result.inputs ≡ self.name.inputs }
        ensures legal { IsLegal (start self.name.inputs) result.steps }
        ensures seen { All (λ p. Knows result.steps p.held.number p.held.seen) passes.items }
        ensures noted { All (λ p. p.held.noted ≤ length result.steps) passes.items }
        ensures whole { length result.steps + result.room ≡ self.name.room }
        ensures turns { All (λ p. kernels.turn result p.held.number ≡ Some p.last) passes.items }
        ensures complete { All (λ p. has_ended p.last.status ≡ true) passes.items →
            IsComplete (start self.name.inputs) result.steps }
    {
        let Process {
            gate,
            text: _,
            threads: _,
        } = self;
        let kernel = gate.close(passes).into_kernel();
        kernel.was_opened();
        kernel
    }
}
