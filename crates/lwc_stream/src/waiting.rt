//! Replies that wait for those to earlier requests.
ghost use Rattle.std.specs.Prelude.{◌≡◌, ◌+◌, ◌<◌, None, Some, IfOk, MatchOption, length, replicate, slice_set};
ghost use Rattle.lwc_stream.specs.Streams.{at};

use lwc_base::OutOfMemory;
use snapshot_host::FinishedView;
use std::alloc::Global;
use std::marker::Model;

/// A place for the reply of each request, and the request whose reply comes next.
#[derive(Drop)]
pub(crate) struct Waiting<'a> {
    places: Vec<Option<FinishedView<'a>>>,
    next: usize,
}

impl<'a> Model for Waiting<'a> {
    ghost use Rattle.std.specs.Prelude.{◌≤◌, length};
    ghost use Rattle.lwc_stream.specs.Streams.{Held};

    ghost Value = { Held };

    ghost view = { λ w. record { places = w.places.items; next = w.next } };

    ghost invariant = { λ w. w.next ≤ length w.places.items };
}

impl<'a> Waiting<'a> {
    /// No reply waits, of this many requests. The only error is out of memory.
    #[tactic(auto, using(std::proofs::lemmas::List::replicate_more))]
    pub(crate) fn open(alloc: Global, requests: usize) -> Result<Waiting<'a>, OutOfMemory>
        ensures { IfOk result (λ w. w ≡ record { places = replicate requests None; next = 0 }) }
    {
        let mut places = Vec::with_capacity(alloc, requests)?;
        'places: for _ in 0..requests {
            places.push(None)?;
        }
        Ok(Waiting { places, next: 0 })
    }

    /// A reply waits at its request's place, if there is one.
    pub(crate) fn put(&mut self, reply: FinishedView<'a>)
        ensures places { self.new.places ≡ slice_set self.old.places reply.entry.request (Some reply.entry) }
        ensures next { self.new.next ≡ self.old.next }
    {
        let place = usize::from(reply.request);
        if place < self.places.len() {
            self.places[place] = Some(reply);
        }
    }

    /// The reply of the next request, if it is there.
    pub(crate) fn next(&mut self) -> Option<FinishedView<'a>>
        ensures { MatchOption result ((self.new ≡ self.old) × (at self.old.places self.old.next ≡ None))
            (λ x. (at self.old.places self.old.next ≡ Some x) × (self.old.next < length self.old.places)
            × (self.new.places ≡ slice_set self.old.places self.old.next None)
            × (self.new.next ≡ self.old.next + 1)) }
    {
        if self.next >= self.places.len() {
            return None;
        }
        let next = self.next;
        let reply = self.places[next].take()?;
        self.next = next + 1;
        Some(reply)
    }
}
