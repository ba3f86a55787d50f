//! A sink that shows how many lines it has taken, and gates that hold threads.

use lwc_io::{Failed, Gate, MemorySink, Sink};
use std::hint::spin_loop;
use std::sync::Wait;
use std::sync::atomic::{AtomicBool, AtomicU64, Ordering};
use std::thread;

/// How often a thread that is held looks.
const LOOKS: u32 = 1_000_000_000;

/// A sink in memory that counts the lines that it has taken.
#[derive(Drop)]
pub struct CountingSink<'a> {
    pub sink: MemorySink,
    pub lines: &'a AtomicU64,
}

impl<'a> Sink for CountingSink<'a> {
    ghost use Rattle.std.specs.Prelude.{Some};

    ghost seen = { λ s. record { taken = Some s.sink.bytes; faults = s.sink.faults } };

    /// Writes to the sink in memory, and counts a piece that ends a line.
    fn write(&mut self, piece: &[u8]) -> Result<usize, Failed> {
        let count = self.sink.write(piece)?;
        if piece
            .get(..count)
            .is_some_and(|taken| taken.ends_with(b"\n"))
        {
            self.lines.fetch_add(1, Ordering::SeqCst);
        }
        Ok(count)
    }
}

/// How many turns a worker makes for one request of `COUNTER_HANDLER`.
const TURNS_OF_A_REQUEST: u64 = 7;

/// A gate that holds the first turn of each thread but one, and of that one the turns after its first request, until
/// a sink has taken a line.
#[derive(Drop)]
pub struct LineGate {
    pub free: u32,
    pub lines: AtomicU64,
    pub ran_out: AtomicBool,
}

impl LineGate {
    /// A gate of a sink that has taken no line, and that does not hold the first turn of this thread.
    pub(crate) fn new(free: u32) -> LineGate {
        LineGate {
            free,
            lines: AtomicU64::new(0),
            ran_out: AtomicBool::new(false),
        }
    }

    /// Whether a thread that was held looked until its looks ran out.
    pub(crate) fn has_run_out(&self) -> bool {
        self.ran_out.load(Ordering::SeqCst)
    }
}

impl Gate for LineGate {
    /// Looks until the sink has taken a line, at the first turn of each thread but one and after a request of that one.
    fn before<R: Wait>(&self, _rt: &R, thread: u32, turn: u64) {
        if thread == self.free && turn < TURNS_OF_A_REQUEST {
            return;
        }
        for _look in 0..LOOKS {
            if self.lines.load(Ordering::SeqCst) > 0 {
                return;
            }
            spin_loop();
        }
        self.ran_out.store(true, Ordering::SeqCst);
    }
}

/// A gate that holds the first turn of one thread until it has seen another come for its second.
#[derive(Drop)]
pub struct HoldingGate {
    held: u32,
    awaited: u32,
    came: AtomicBool,
    ran_out: AtomicBool,
}

impl HoldingGate {
    /// A gate to which nobody has come.
    pub(crate) fn new(held: u32, awaited: u32) -> HoldingGate {
        HoldingGate {
            held,
            awaited,
            came: AtomicBool::new(false),
            ran_out: AtomicBool::new(false),
        }
    }

    /// Whether the thread that is held looked until its looks ran out.
    pub(crate) fn has_run_out(&self) -> bool {
        self.ran_out.load(Ordering::SeqCst)
    }
}

impl Gate for HoldingGate {
    /// Notes the second turn of the awaited thread, and holds the first turn of the other.
    fn before<R: Wait>(&self, _rt: &R, thread: u32, turn: u64) {
        if thread == self.awaited && turn == 1 {
            self.came.store(true, Ordering::SeqCst);
        }
        if thread != self.held || turn != 0 {
            return;
        }
        for _look in 0..LOOKS {
            if self.came.load(Ordering::SeqCst) {
                return;
            }
            spin_loop();
        }
        self.ran_out.store(true, Ordering::SeqCst);
    }
}

/// How often a thread that a `FullGate` holds looks, and lets others go on: seconds, so that a test fails before its
/// time is up.
const YIELDS: u32 = 4_000_000;

/// A gate that holds one turn of each thread until as many threads as are expected stand at it.
#[derive(Drop)]
pub struct FullGate {
    expected: u64,
    turn: u64,
    came: AtomicU64,
    ran_out: AtomicBool,
}

impl FullGate {
    /// A gate to which nobody has come, and that expects this many threads before this turn of theirs.
    pub(crate) fn new(expected: u32, turn: u64) -> FullGate {
        FullGate {
            expected: u64::from(expected),
            turn,
            came: AtomicU64::new(0),
            ran_out: AtomicBool::new(false),
        }
    }

    /// Whether a thread that was held looked until its looks ran out.
    pub(crate) fn has_run_out(&self) -> bool {
        self.ran_out.load(Ordering::SeqCst)
    }
}

impl Gate for FullGate {
    /// Counts a thread that comes for that turn, and holds it until all have come. Once the looks of one have run out,
    /// those that come later are not held.
    fn before<R: Wait>(&self, _rt: &R, _thread: u32, turn: u64) {
        if turn != self.turn || self.has_run_out() {
            return;
        }
        self.came.fetch_add(1, Ordering::SeqCst);
        for _look in 0..YIELDS {
            if self.came.load(Ordering::SeqCst) >= self.expected {
                return;
            }
            thread::yield_now();
        }
        self.ran_out.store(true, Ordering::SeqCst);
    }
}
