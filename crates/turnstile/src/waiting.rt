//! The mutex before the queue: a thread locks it before it draws a ticket, and unlocks it after its turn has
//! ended. So the ticket that it draws is served at once, and where several threads want a turn, the one
//! that runs may go first. No thread waits for one that has the next turn and no processor.
//!
//! It is one word. All accesses are sequentially consistent.
//!
//! - A thread tries to lock a free mutex for about half as long as a sleep takes, and lets other threads have its
//!   processor after each try. Then it sleeps for a while, looks, and so on. Each sleep ends by itself: nobody has to
//!   wake it, and no wake-up can be lost.
//! - A thread that has slept often asks for the mutex. Whoever unlocks it then hands it over: only a thread that
//!   has slept may lock it. So the one that unlocks it does not come first, unless it has slept by then, too.
//!
//! No clause speaks of any of this: the mutex is no part of the rule, and the queue guards the state whatever
//! the mutex does.

use std::sync::Wait;
use std::sync::atomic::{AtomicU64, Ordering};
use std::thread::yield_now;
use std::time::Duration;

/// No thread holds the mutex.
const FREE: u64 = 0;

/// No thread holds the mutex, and one that has slept is to come next.
const HANDED: u64 = 1;

/// A thread holds the mutex.
const TAKEN: u64 = 2;

/// A thread holds the mutex, and another has slept often and asks for it.
const ASKED: u64 = 3;

/// How many times a thread tries before it sleeps.
const TRIES: u32 = 100;

/// How long a thread sleeps between two looks, in microseconds.
const NAP: u64 = 50;

/// After this many sleeps the next one that does not find the mutex free asks for it.
const NAPS: u32 = 8;

/// The mutex of one word that threads lock before their turns.
#[derive(Drop)]
pub struct Mutex {
    word: AtomicU64,
}

/// Sleeps for a while: nobody wakes who sleeps on this word. It may wait.
fn nap<H: Wait>(rt: &H) {
    AtomicU64::new(0).park_timeout(rt, 0, Duration::from_micros(NAP));
}

impl Mutex {
    /// A free mutex.
    pub(crate) fn new() -> Mutex {
        Mutex {
            word: AtomicU64::new(FREE),
        }
    }

    /// Locks the mutex if it is free, or, where that is the most, handed over.
    #[inline(always)]
    fn try_lock(&self, most: u64) -> bool {
        let found = self.word.load(Ordering::SeqCst);
        found <= most
            && self
                .word
                .compare_exchange(found, TAKEN, Ordering::SeqCst, Ordering::SeqCst)
                .is_ok()
    }

    /// Locks the mutex by one of several tries. After each other threads may have the processor.
    fn try_often(&self, most: u64) -> bool {
        for _ in 0..TRIES {
            if self.try_lock(most) {
                return true;
            }
            yield_now();
        }
        false
    }

    /// Locks the mutex. It may wait.
    #[inline(always)]
    pub fn lock<H: Wait>(&self, rt: &H) {
        if !self.try_lock(FREE) {
            self.lock_late(rt);
        }
    }

    /// Locks the mutex after a few more tries, or after some sleep. It may wait.
    #[inline(never)]
    fn lock_late<H: Wait>(&self, rt: &H) {
        if self.try_often(FREE) {
            return;
        }
        let mut naps = 0;
        for _ in rt.forever() {
            nap(rt);
            if self.try_lock(HANDED) {
                return;
            }
            if naps < NAPS {
                naps += 1;
                continue;
            }
            self.ask();
            if self.try_often(HANDED) {
                return;
            }
        }
    }

    /// Asks for the mutex, if it is held.
    fn ask(&self) {
        let _ = self
            .word
            .compare_exchange(TAKEN, ASKED, Ordering::SeqCst, Ordering::SeqCst);
    }

    /// Unlocks the mutex, for the next thread.
    pub fn unlock(&self) {
        let left = self
            .word
            .compare_exchange(TAKEN, FREE, Ordering::SeqCst, Ordering::SeqCst);
        if left.is_err() {
            self.word.store(HANDED, Ordering::SeqCst);
        }
    }
}
