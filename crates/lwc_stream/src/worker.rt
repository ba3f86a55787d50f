//! Workers, each of which carries a thread and hands on the replies that its turns finish.
ghost use Rattle.std.specs.Prelude.{◌≡◌, ◌++◌};

use crate::ends::Puts;
use crate::signal::Signal;
use crate::store::Store;
use kernel_core::Turn;
use process_core::{Carrier, CountsTurns};
use std::sync::{Arc, Wait};

/// What counts the turns of a thread, and hands on the replies that they finish: the end of a queue into which they are
/// put, what keeps their bytes, and how the caller is notified.
#[derive(Drop)]
pub(crate) struct Outbox<'a> {
    turns: u64,
    pub(crate) puts: Puts<'a>,
    store: Store<'a>,
    signal: Arc<Signal>,
}

/// What carries a thread of a stream to its end.
pub(crate) type Worker<'a, W> = Carrier<W, Outbox<'a>>;

impl CountsTurns for Outbox<'_> {
    ghost use Rattle.std.specs.Prelude.{◌≡◌, ◌++◌};
    ghost use Rattle.kernel_core.specs.Histories.{replies_of};
    ghost use Rattle.lwc_stream.specs.Queues.{end_of};

    ghost count = { λ o. o.turns };

    ghost counts = { λ o left p. p.puts ≡ end_of o.puts.queue (o.puts.values ++ replies_of left.finished) };

    fn count(&self) -> u64 {
        self.turns
    }

    /// Puts the reply that the turn finished into the queue, if it did, and notifies the caller.
    fn add<R: Wait>(&mut self, rt: &R, left: &Turn) {
        self.turns += 1;
        if let Some(finished) = &left.finished {
            self.puts.put(rt, self.store.keep(rt, finished));
            self.signal.notify();
        }
    }

    fn end(&self) {
        self.signal.end();
    }
}

impl<'a> Outbox<'a> {
    /// The outbox of a thread that has made no turn.
    pub(crate) fn new(puts: Puts<'a>, store: Store<'a>, signal: Arc<Signal>) -> Outbox<'a>
        ensures puts { result.puts ≡ puts.entry }
        ensures turns { result.turns ≡ 0 }
    {
        Outbox {
            turns: 0,
            puts,
            store,
            signal,
        }
    }
}
