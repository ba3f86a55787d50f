//! The kernel as the lock guards it.
ghost use Rattle.std.specs.Prelude.{◌≡◌, ◌≤◌, ◌+◌, ◌<◌, ◌++◌, ◌∷◌, [], false, true, IfSome, Some, length};
ghost use Rattle.guest_machine.specs.Advances.{advanced};
ghost use Rattle.kernel_core.specs.Histories.{IsLegal};
ghost use Rattle.kernel_core.specs.Kernel.{machine_of, stepped, turn};
ghost use Rattle.kernel_core.specs.Machine.{is_ended, work};
ghost use Rattle.kernel_core.specs.Start.{start, thread_count};
ghost use Rattle.lwc_types.specs.declared.limits.TheConstants.{MOST_STEPS};

use crate::opened::Opened;
use guest_machine::Advance;
use kernel_core::{Kernel, Turn};
use lwc_base::OutOfMemory;
use std::snapshot::Snapshot;
use turnstile::Turned;
use world_face::World;

/// A kernel over a roomy world, whose steps are a legal history, with room for all the steps that are left.
/// The steps and the room are together the room at the start.
///
/// The kernel is in a box, since the lock moves it twice in each turn. Contracts alone speak of the room at the start.
#[derive(Drop)]
pub(crate) struct Guarded<W: World> {
    pub(crate) kernel: Box<Kernel<W>>,
    pub(crate) first_room: Snapshot<u32>,
    pub(crate) ghost legal: { IsLegal (start kernel.value.inputs) kernel.value.steps },
    pub(crate) ghost room: { work (machine_of kernel.value) ≤ kernel.value.room },
    pub(crate) ghost whole: { length kernel.value.steps + kernel.value.room ≡ first_room.value },
    pub(crate) ghost few: { first_room.value ≤ MOST_STEPS },
    pub(crate) ghost roomy: { W.roomy ≡ true },
}

impl<W: World> Turned for Guarded<W> {
    type Name = Opened;

    ghost name = { λ g. record { inputs = g.kernel.value.inputs; room = g.first_room.value } };

    ghost past = { λ g. g.kernel.value.steps };

    ghost use Rattle.std.proofs.Common.{arith};

    ghost short = { λ g. omega (arith, g.whole, g.few) };
}

/// A step of a thread that has not ended, with room for it. Notes in `last` what it left.
fn step_kernel<W: World>(
    kernel: &mut Kernel<W>,
    thread: u32,
    proposal: Option<&Advance>,
    last: &mut Turn,
)
    requires roomy { W.roomy ≡ true }
    requires within { thread < thread_count kernel.old.inputs }
    requires going { is_ended (machine_of kernel.old) thread ≡ false }
    requires room { work (machine_of kernel.old) ≤ kernel.old.room }
    requires proposal { IfSome proposal (λ a. a.now ≡ advanced kernel.old.inputs.image.text a.now.before) }
    ensures step { kernel.new ≡ stepped kernel.old thread }
    ensures turn { turn kernel.new thread ≡ Some last.new }
    ensures some { 0 < kernel.old.room }
    ensures room { kernel.new.room + 1 ≡ kernel.old.room }
    ensures work { work (machine_of kernel.new) < work (machine_of kernel.old) }
{
    kernel.was_opened();
    match kernel.make_step(thread, proposal) {
        Ok(finished) => kernel.note_turn(thread, finished, last),
        Err(OutOfMemory) => unreachable!(),
    }
}

/// A kernel that was just opened, as the lock guards it.
pub(crate) fn guard<W: World>(kernel: Box<Kernel<W>>) -> Guarded<W>
    requires roomy { W.roomy ≡ true }
    requires fresh { kernel.value.steps ≡ [] }
    requires room { work (machine_of kernel.value) ≤ kernel.value.room }
    ensures kernel { result.kernel.value ≡ kernel.value }
    ensures room { result.first_room.value ≡ kernel.value.room }
{
    let _steps = kernel.schedule();
    let first_room = Snapshot::of(&kernel.room());
    Guarded { kernel, first_room }
}

impl<W: World> Guarded<W> {
    /// A step of a thread that has not ended. What it left is noted in the box, which comes back.
    pub(crate) fn make_step(
        &mut self,
        thread: u32,
        proposal: Option<&Advance>,
        mut last: Box<Turn>,
    ) -> Box<Turn>
        requires within { thread < thread_count self.old.kernel.value.inputs }
        requires going { is_ended (machine_of self.old.kernel.value) thread ≡ false }
        requires proposal { IfSome proposal (λ a. a.now
            ≡ advanced self.old.kernel.value.inputs.image.text a.now.before) }
        ensures inputs { self.new.kernel.value.inputs ≡ self.old.kernel.value.inputs }
        ensures room { self.new.first_room.value ≡ self.old.first_room.value }
        ensures steps { self.new.kernel.value.steps ≡ self.old.kernel.value.steps ++ thread ∷ [] }
        ensures turn { turn self.new.kernel.value thread ≡ Some result.value }
    {
        step_kernel(&mut self.kernel, thread, proposal, &mut last);
        last
    }

    /// The kernel.
    pub(crate) fn into_kernel(self) -> Kernel<W>
        ensures kernel { result ≡ self.kernel.value }
    {
        let Guarded {
            kernel,
            first_room: _,
        } = self;
        Box::into_inner(kernel)
    }
}
