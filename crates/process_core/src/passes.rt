//! The passes of a process.
ghost use Rattle.std.specs.Prelude.{◌≡◌};

use crate::guarded::Guarded;
use crossbeam_utils::CachePadded;
use kernel_core::Turn;
use std::marker::Model;
use turnstile::{HoldsPass, Pass};
use world_face::World;

/// The right to make the steps of one thread. It may go from one worker to another.
///
/// Contracts see it as `Carried`: the pass of the lock, and the last turn of the thread.
#[derive(Drop)]
pub struct ProcessPass<W: World> {
    pub(crate) pass: Pass<Guarded<W>>,
    // The box goes into each turn and comes back. It is away only while the turn is made. Passes lie side by side,
    // and each turn writes here: so no two are on one cache line.
    pub(crate) last: CachePadded<Option<Box<Turn>>>,
}

/// The passes of a process, at `open` in the order of their threads.
pub type ProcessPasses<W> = Vec<ProcessPass<W>>;

impl<W: World> Model for ProcessPass<W> {
    ghost use Rattle.std.specs.Prelude.{◌≡◌, is_some, true, unwrap_or};
    ghost use Rattle.std.specs.Option.{option_map};
    ghost use Rattle.crossbeam_utils.specs.Padded.{padded_value};
    ghost use Rattle.process_core.specs.Running.{Carried, no_turn};

    ghost Value = { Carried };

    ghost view = { λ p. record {
      held = p.pass;
      last = unwrap_or (option_map (λ b. b.value) (padded_value p.last)) no_turn;
    } };

    ghost invariant = { λ p. is_some (padded_value p.last) ≡ true };
}

impl<W: World> HoldsPass<Guarded<W>> for ProcessPass<W> {
    ghost held = { λ p. p.held };

    fn pass(&self) -> &Pass<Guarded<W>> {
        &self.pass
    }

    fn into_pass(self) -> Pass<Guarded<W>> {
        let ProcessPass { pass, last: _ } = self;
        pass
    }
}

impl<W: World> ProcessPass<W> {
    /// The pass of the lock with the last turn of its thread.
    pub(crate) fn new(pass: Pass<Guarded<W>>, last: Box<Turn>) -> ProcessPass<W>
        ensures { result ≡ record { held = pass; last = last.value } }
    {
        ProcessPass {
            pass,
            last: CachePadded::new(Some(last)),
        }
    }

    /// The thread whose steps it makes.
    pub fn thread(&self) -> u32
        ensures { result ≡ self.now.held.number }
    {
        self.pass.number()
    }

    /// What the last turn left of the thread; before the first one, how the thread is at the start.
    pub fn last(&self) -> &Turn
        ensures { result.now ≡ self.now.last }
    {
        match &*self.last {
            Some(last) => last,
            None => unreachable!(),
        }
    }
}
