//! What the caller does while the workers go on: it takes replies, and shows each when all earlier ones are shown.
ghost use Rattle.std.specs.Prelude.{◌≡◌, ◌++◌, ◌∷◌, ℕ, Bool, List, None, Some, length, map, slice_get, slice_set};
ghost use Rattle.lwc_io.specs.Outside.{SinkView};
ghost use Rattle.lwc_stream.specs.Streams.{HasShown, at};
ghost use Rattle.snapshot_host.specs.declared.finishing.Finished.{Finished};

use crate::ends::{Puts, Takes};
use crate::signal::Signal;
use crate::waiting::Waiting;
use crate::writer::LineWriter;
use lwc_io::Sink;
use std::sync::Wait;

/// The ends of queues from which replies are taken, those that wait, and what writes their lines.
#[derive(Drop)]
pub(crate) struct Collector<'a> {
    pub(crate) takes: Vec<Takes<'a>>,
    pub(crate) waiting: Waiting<'a>,
    pub(crate) writer: LineWriter,
}

impl Collector<'_> {
    /// Takes and shows replies until all workers have ended and none was found after that. It may wait.
    pub(crate) fn follow<R: Wait, O: Sink>(
        &mut self,
        rt: &R,
        signal: &Signal,
        workers: usize,
        out: &mut O,
    )
        ensures queues { map (λ e. e.queue) self.new.takes.items ≡ map (λ e. e.queue) self.old.takes.items }
        ensures shown { (before : SinkView) →
            HasShown (map (λ e. e.values) self.old.takes.items)
            self.old.waiting self.old.writer before (O.seen out.old) →
            HasShown (map (λ e. e.values) self.new.takes.items)
            self.new.waiting self.new.writer before (O.seen out.new) }
        ensures places { length self.new.waiting.places ≡ length self.old.waiting.places }
    {
        'rounds: for _ in rt.forever() {
            let seen = signal.notices();
            let over = signal.have_ended(workers);
            let found = self.take_round();
            show_ready(&mut self.waiting, &mut self.writer, out);
            if over && !found {
                return;
            }
            if !found {
                signal.wait(rt, seen);
            }
        }
        unreachable!()
    }

    /// Takes a reply from each queue in which one is found, and says whether one was. It waits for nobody.
    fn take_round(&mut self) -> bool
        ensures queues { map (λ e. e.queue) self.new.takes.items ≡ map (λ e. e.queue) self.old.takes.items }
        ensures shown { (failed : Bool) (before now : SinkView) →
            HasShown (map (λ e. e.values) self.old.takes.items) self.old.waiting failed before now →
            HasShown (map (λ e. e.values) self.new.takes.items) self.new.waiting failed before now }
        ensures writer { self.new.writer ≡ self.old.writer }
        ensures places { length self.new.waiting.places ≡ length self.old.waiting.places }
    {
        let mut found = false;
        'takes: for i in 0..self.takes.len() {
            if take_one(&mut self.takes[i], &mut self.waiting) {
                found = true;
            }
        }
        found
    }
}

/// Takes a reply that is found in a queue, lets it wait, and says whether one was found. It waits for nobody.
fn take_one<'a>(takes: &mut Takes<'a>, waiting: &mut Waiting<'a>) -> bool
    ensures queue { takes.new.queue ≡ takes.old.queue }
    ensures shown { (place : ℕ) (lists : List (List Finished)) →
        slice_get lists place ≡ Some takes.old.values → (failed : Bool) (before now : SinkView) →
        HasShown lists waiting.old failed before now →
        HasShown (slice_set lists place takes.new.values) waiting.new failed before now }
    ensures places { length waiting.new.places ≡ length waiting.old.places }
{
    let Some(reply) = takes.take() else {
        return false;
    };
    waiting.put(reply);
    true
}

/// Shows the replies that come next and are there. It takes no memory.
pub(crate) fn show_ready<O: Sink>(waiting: &mut Waiting<'_>, writer: &mut LineWriter, out: &mut O)
    ensures next { at waiting.new.places waiting.new.next ≡ None }
    ensures shown { (taken : List (List Finished)) (before : SinkView) →
        HasShown taken waiting.old writer.old before (O.seen out.old) →
        HasShown taken waiting.new writer.new before (O.seen out.new) }
    ensures places { length waiting.new.places ≡ length waiting.old.places }
{
    'ready: while let Some(reply) = waiting.next() {
        writer.write(out, reply);
    }
}

/// Takes all replies that are left in a queue into which no more are put. Then all that were put are taken.
pub(crate) fn take_rest<'a, R: Wait>(
    rt: &R,
    puts: Puts<'a>,
    takes: Takes<'a>,
    waiting: &mut Waiting<'a>,
)
    requires queue { puts.queue ≡ takes.queue }
    ensures shown { (done rest : List (List Finished)) (failed : Bool) (before now : SinkView) →
        HasShown (done ++ takes.entry.values ∷ rest) waiting.old failed before now →
        HasShown (done ++ puts.entry.values ∷ rest) waiting.new failed before now }
    ensures places { length waiting.new.places ≡ length waiting.old.places }
{
    let mut ends = takes.join(puts);
    'rest: for _ in rt.forever() {
        match ends.take(rt) {
            Some(reply) => waiting.put(reply),
            None => return,
        }
    }
    unreachable!()
}
