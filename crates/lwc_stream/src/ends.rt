//! The two ends of a worker's queue, and the rule that ties them.
ghost use Rattle.std.specs.Prelude.{◌≡◌, ◌≤◌, ◌++◌, ◌∷◌, [], IfOk, IsNone, IfSome, MatchOption};
ghost use Rattle.lwc_stream.specs.Queues.{end_of, joined_of};

use crossbeam_queue::protocol::{Join, Lesson, Outcome, Protocol, Split};
use crossbeam_queue::{Pass, RuledArrayQueue};
use lwc_base::OutOfMemory;
use snapshot_host::{Finished, FinishedView};
use std::alloc::Global;
use std::collections::LinkedList;
use std::marker::Model;
use std::sync::{Arc, Wait};
use std::thread;

/// What a pass may do, and what it has done: put replies in, or take them out. No value of it is made.
pub struct Ends {
    pub puts: bool,
    pub takes: bool,
    pub put: LinkedList<Finished>,
    pub taken: LinkedList<Finished>,
}

/// The rule of a queue.
pub struct InOrder;

impl<'a> Protocol<FinishedView<'a>, Ends> for InOrder {
    ghost use Rattle.std.specs.Prelude.{true, []};
    ghost use Rattle.lwc_stream.specs.Queues.{ends, IsInOrder};

    ghost holds = { IsInOrder };

    ghost first = { ends true true [] [] };
}

/// The two ends, each with a pass of its own.
pub struct Apart;

impl Split<Ends> for Apart {
    ghost use Rattle.std.specs.Prelude.{true, false, []};
    ghost use Rattle.lwc_stream.specs.Queues.{ends};

    ghost left = { λ v. ends true false v.put [] };

    ghost right = { λ v. ends false true [] v.taken };
}

impl Join<Ends> for Apart {
    ghost use Rattle.std.specs.Prelude.{true, false, []};
    ghost use Rattle.lwc_stream.specs.Queues.{ends};

    ghost both = { λ v w. ends true true v.put w.taken };

    ghost spent = { ends false false [] [] };
}

/// A reply is put in.
pub struct Put;

impl<'a> Outcome<FinishedView<'a>, Ends> for Put {
    ghost use Rattle.std.specs.Prelude.{◌≡◌, ◌++◌, ◌∷◌, []};
    ghost use Rattle.lwc_stream.specs.Queues.{ends};

    ghost then = { λ v x w. w ≡ ends v.puts v.takes (v.put ++ x ∷ []) v.taken };
}

/// A reply is taken out.
pub struct Taken;

impl<'a> Outcome<FinishedView<'a>, Ends> for Taken {
    ghost use Rattle.std.specs.Prelude.{◌≡◌, ◌++◌, ◌∷◌, []};
    ghost use Rattle.lwc_stream.specs.Queues.{ends};

    ghost then = { λ v x w. w ≡ ends v.puts v.takes v.put (v.taken ++ x ∷ []) };
}

impl<'a> Lesson<FinishedView<'a>, Ends> for Taken {
    ghost use Rattle.std.specs.Prelude.{◌≡◌, ◌++◌};

    ghost fact = { λ v items. v.put ≡ v.taken ++ items };
}

type Queue<'a> = RuledArrayQueue<FinishedView<'a>, Ends, InOrder>;

type EndPass<'a> = Pass<FinishedView<'a>, Ends>;

/// An empty queue with room for this many replies, as its two ends. The only error is out of memory.
pub(crate) fn open_queue<'a>(
    alloc: Global,
    replies: usize,
) -> Result<(Puts<'a>, Takes<'a>), OutOfMemory>
    ensures queue { IfOk result (λ q. q.0.queue ≡ q.1.queue) }
    ensures unput { IfOk result (λ q. q.0.values ≡ []) }
    ensures untaken { IfOk result (λ q. q.1.values ≡ []) }
    ensures room { IfOk result (λ q. replies ≤ q.1.queue.slots) }
{
    let (queue, mut pass) = Queue::<'a>::ruled(alloc, replies.max(1))?;
    let taking = queue.another::<Apart>(&mut pass);
    let queue: Arc<Queue<'a>> = Arc::new(alloc, queue)?;
    let theirs = Arc::try_clone(&queue)?;
    let puts = Puts { queue, pass };
    let takes = Takes {
        queue: theirs,
        pass: taking,
    };
    Ok((puts, takes))
}

/// The end at which replies are put in. Contracts see it as its queue and what was put in, in order.
#[derive(Drop)]
pub struct Puts<'a> {
    queue: Arc<Queue<'a>>,
    pass: EndPass<'a>,
}

impl<'a> Model for Puts<'a> {
    ghost use Rattle.crossbeam_queue.specs.Passes.{IsPassOf};
    ghost use Rattle.lwc_stream.specs.Queues.{End, IsPutting, puts_of};

    ghost Value = { End };

    ghost view = { λ p. puts_of p.pass };

    ghost invariant = { λ p. IsPassOf p.queue.value p.pass × IsPutting p.pass };
}

impl<'a> Puts<'a> {
    /// Puts a reply in. It waits while the queue is full.
    pub(crate) fn put<R: Wait>(&mut self, rt: &R, reply: FinishedView<'a>)
        ensures { self.new ≡ end_of self.old.queue (self.old.values ++ reply.entry ∷ []) }
    {
        let mut left = reply;
        for _ in rt.forever() {
            match self.queue.try_push_as::<Put>(&mut self.pass, left) {
                Ok(()) => return,
                Err(back) => left = back,
            }
            thread::yield_now();
        }
        unreachable!()
    }
}

/// The end at which replies are taken out. Contracts see it as its queue and what was taken out, in order.
#[derive(Drop)]
pub struct Takes<'a> {
    queue: Arc<Queue<'a>>,
    pass: EndPass<'a>,
}

impl<'a> Model for Takes<'a> {
    ghost use Rattle.crossbeam_queue.specs.Passes.{IsPassOf};
    ghost use Rattle.lwc_stream.specs.Queues.{End, IsTaking, takes_of};

    ghost Value = { End };

    ghost view = { λ p. takes_of p.pass };

    ghost invariant = { λ p. IsPassOf p.queue.value p.pass × IsTaking p.pass };
}

impl<'a> Takes<'a> {
    /// Takes the reply that was put in first, if one is found.
    pub(crate) fn take(&mut self) -> Option<FinishedView<'a>>
        ensures { MatchOption result (self.new ≡ self.old)
            (λ x. self.new ≡ end_of self.old.queue (self.old.values ++ x ∷ [])) }
    {
        self.queue.try_pop_as::<Taken>(&mut self.pass)
    }

    /// Both ends in one hand.
    pub(crate) fn join(self, puts: Puts<'a>) -> Both<'a>
        requires { puts.queue ≡ self.queue }
        ensures { result ≡ joined_of self.entry.queue puts.entry.values self.entry.values }
    {
        let Puts { queue: _, pass } = puts;
        let Takes { queue, pass: other } = self;
        let mut pass = pass;
        queue.absorb::<Apart>(&mut pass, other);
        Both { queue, pass }
    }
}

/// Both ends in one hand. Contracts see them as their queue, what was put in and what was taken out.
#[derive(Drop)]
pub(crate) struct Both<'a> {
    queue: Arc<Queue<'a>>,
    pass: EndPass<'a>,
}

impl<'a> Model for Both<'a> {
    ghost use Rattle.crossbeam_queue.specs.Passes.{IsPassOf};
    ghost use Rattle.lwc_stream.specs.Queues.{AreBoth, Joined, both_of};

    ghost Value = { Joined };

    ghost view = { λ p. both_of p.pass };

    ghost invariant = { λ p. IsPassOf p.queue.value p.pass × AreBoth p.pass };
}

impl<'a> Both<'a> {
    /// Takes the reply that was put in first. With none left, all that was put in was taken, in order.
    pub(crate) fn take<R: Wait>(&mut self, rt: &R) -> Option<FinishedView<'a>>
        ensures some { IfSome result (λ x.
            self.new ≡ joined_of self.old.queue self.old.put (self.old.taken ++ x ∷ [])) }
        ensures none { IsNone result → (self.new ≡ self.old) × (self.old.put ≡ self.old.taken) }
    {
        self.queue.pop_as::<Taken, R>(rt, &mut self.pass)
    }
}
