//! The outside of a call: what fails, a gate that counts who comes and may hold one thread, and a sink that shows how
//! many lines it took.

use lwc_io::{Failed, Gate, MemorySink, Sink};
use std::alloc::{AllocError, Global};
use std::hint::spin_loop;
use std::sync::Wait;
use std::sync::atomic::{AtomicBool, AtomicU64, Ordering};

/// How often a thread that is held looks.
const LOOKS: u32 = 1_000_000_000;

/// How the outside of a call behaves: which fetch fails, how many bytes a write takes at most, and which write
/// fails, each counted from 0 on; and which thread is held at its first turn, if one is.
#[derive(Clone, Copy)]
pub struct Outside {
    pub fetch: u64,
    pub most: usize,
    pub write: u64,
    pub hold: Option<Hold>,
}

/// An outside in which nothing fails and nobody is held.
pub const SURE: Outside = Outside {
    fetch: u64::MAX,
    most: 1 << 20,
    write: u64::MAX,
    hold: None,
};

/// A thread that is held at its first turn: until another one comes for its second, or, where there is no other, until
/// the output has taken a line.
#[derive(Clone, Copy)]
pub struct Hold {
    pub held: u32,
    pub awaited: Option<u32>,
}

/// The digits of the threads in a schedule.
pub const DIGITS: &[u8; 16] = b"0123456789abcdef";

/// How often each thread came to a gate, and whether it came each time before the turn that was next.
#[derive(Drop)]
pub struct Visits {
    counts: Vec<AtomicU64>,
    left_order: AtomicBool,
}

impl Visits {
    /// No visits.
    fn none(alloc: Global) -> Result<Visits, AllocError> {
        let mut counts = Vec::new(alloc);
        for _digit in DIGITS {
            counts.push(AtomicU64::new(0))?;
        }
        Ok(Visits {
            counts,
            left_order: AtomicBool::new(false),
        })
    }

    /// Notes that a thread comes before this turn.
    fn note(&self, thread: u32, turn: u64) {
        let next = match self.counts.get(thread as usize) {
            Some(count) => count.fetch_add(1, Ordering::SeqCst),
            None => u64::MAX,
        };
        if next != turn {
            self.left_order.store(true, Ordering::SeqCst);
        }
    }

    /// How often threads came.
    pub fn total(&self) -> u64 {
        let mut total = 0_u64;
        for count in &self.counts {
            total = total.saturating_add(count.load(Ordering::SeqCst));
        }
        total
    }

    /// Whether each thread came before its turns in their order.
    pub fn are_in_order(&self) -> bool {
        !self.left_order.load(Ordering::SeqCst)
    }

    /// Whether each thread came before each turn that a schedule of these digits has, in order, and no further time.
    pub fn are_of(&self, digits: &[u8]) -> bool {
        for (thread, count) in DIGITS.iter().zip(self.counts.iter()) {
            let turns = digits.iter().filter(|digit| *digit == thread).count();
            if count.load(Ordering::SeqCst) != turns as u64 {
                return false;
            }
        }
        self.are_in_order()
    }
}

/// A gate that counts who comes, and at which one thread may be held.
#[derive(Drop)]
pub struct CaseGate {
    pub visits: Visits,
    hold: Option<Hold>,
    lines: AtomicU64,
    came: AtomicBool,
    ran_out: AtomicBool,
}

impl CaseGate {
    /// A gate to which nobody has come, of an output that has taken no line. The only error is out of memory.
    pub fn new(alloc: Global, hold: Option<Hold>) -> Result<CaseGate, AllocError> {
        Ok(CaseGate {
            visits: Visits::none(alloc)?,
            hold,
            lines: AtomicU64::new(0),
            came: AtomicBool::new(false),
            ran_out: AtomicBool::new(false),
        })
    }

    /// The number of lines that the output has taken, to be counted by its sink.
    pub fn lines(&self) -> &AtomicU64 {
        &self.lines
    }

    /// Whether the thread that was held looked until its looks ran out.
    pub fn has_run_out(&self) -> bool {
        self.ran_out.load(Ordering::SeqCst)
    }

    /// Whether the thread that is held may go on.
    fn is_over(&self, hold: Hold) -> bool {
        match hold.awaited {
            Some(_) => self.came.load(Ordering::SeqCst),
            None => self.lines.load(Ordering::SeqCst) > 0,
        }
    }

    /// Looks until the thread that is held may go on.
    fn wait(&self, hold: Hold) {
        for _look in 0..LOOKS {
            if self.is_over(hold) {
                return;
            }
            spin_loop();
        }
        self.ran_out.store(true, Ordering::SeqCst);
    }
}

impl Gate for CaseGate {
    /// Only a gate that holds a thread may wait. The turns at others are made in stays of several.
    fn may_wait(&self) -> bool {
        self.hold.is_some()
    }

    /// Notes who comes, and the second turn of the thread that is awaited, and holds the first turn of the one that is
    /// held.
    fn before<R: Wait>(&self, _rt: &R, thread: u32, turn: u64) {
        self.visits.note(thread, turn);
        let Some(hold) = self.hold else {
            return;
        };
        if turn == 1 && hold.awaited == Some(thread) {
            self.came.store(true, Ordering::SeqCst);
        }
        if turn == 0 && thread == hold.held {
            self.wait(hold);
        }
    }
}

/// A sink in memory that counts the pieces that it has taken and that end a line.
#[derive(Drop)]
pub struct CountingSink<'a> {
    pub sink: MemorySink,
    pub lines: &'a AtomicU64,
}

impl<'a> Sink for CountingSink<'a> {
    ghost use Rattle.std.specs.Prelude.{Some};

    ghost seen = { λ s. record { taken = Some s.sink.bytes; faults = s.sink.faults } };

    /// Writes to the sink in memory, and counts a piece that ends a line.
    fn write(&mut self, piece: &[u8]) -> Result<usize, Failed> {
        let count = self.sink.write(piece)?;
        if piece
            .get(..count)
            .is_some_and(|taken| taken.ends_with(b"\n"))
        {
            self.lines.fetch_add(1, Ordering::SeqCst);
        }
        Ok(count)
    }
}
