//! How workers notify the caller that there is something to take.

use std::hint::spin_loop;
use std::sync::Wait;
use std::sync::atomic::{AtomicBool, AtomicU64, Ordering};

/// How often the caller looks for a notice before it sleeps.
const LOOKS: u32 = 1000;

/// How often the caller was notified, how many workers have ended, and whether the caller sleeps. No clause
/// reads them.
#[derive(Drop)]
pub(crate) struct Signal {
    notices: AtomicU64,
    ended: AtomicU64,
    asleep: AtomicBool,
}

impl Signal {
    /// Nothing has happened yet.
    pub(crate) fn new() -> Signal {
        Signal {
            notices: AtomicU64::new(0),
            ended: AtomicU64::new(0),
            asleep: AtomicBool::new(false),
        }
    }

    /// Notifies the caller that there is something to take, and wakes it if it sleeps.
    pub(crate) fn notify(&self) {
        self.notices.fetch_add(1, Ordering::SeqCst);
        if self.asleep.load(Ordering::SeqCst) {
            self.notices.wake_one();
        }
    }

    /// Notes that a worker has ended, and notifies the caller.
    pub(crate) fn end(&self) {
        self.ended.fetch_add(1, Ordering::SeqCst);
        self.notify();
    }

    /// The low 32 bits of the number of notices so far.
    pub(crate) fn notices(&self) -> u32 {
        (self.notices.load(Ordering::SeqCst) % (1 << 32)) as u32
    }

    /// Whether this many workers have ended.
    pub(crate) fn have_ended(&self, workers: usize) -> bool {
        self.ended.load(Ordering::SeqCst) >= workers as u64
    }

    /// Waits until a notice comes after those that were seen: it looks for one a while, and then sleeps.
    pub(crate) fn wait<R: Wait>(&self, rt: &R, seen: u32) {
        for _ in 0..LOOKS {
            if self.notices() != seen {
                return;
            }
            spin_loop();
        }
        // A worker that does not see this flag has raised the number before, and then `park` returns at once.
        self.asleep.store(true, Ordering::SeqCst);
        self.notices.park(rt, seen);
        self.asleep.store(false, Ordering::SeqCst);
    }
}
