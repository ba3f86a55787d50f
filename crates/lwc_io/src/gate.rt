//! Gates, to which threads come before their turns.

use std::sync::Wait;

/// Where threads may be made to wait before their turns. A gate promises nothing.
pub trait Gate: Sync {
    /// Called before a thread takes a turn; the first turn of each thread is turn 0. It may wait.
    fn before<R: Wait>(&self, rt: &R, thread: u32, turn: u64);

    /// Whether `before` may wait. Where it does not, threads also come to it while others wait for their turns.
    fn may_wait(&self) -> bool {
        true
    }
}

/// A gate at which nobody waits.
#[derive(Clone, Copy, PartialEq, Eq, Default)]
pub struct OpenGate;

impl Gate for OpenGate {
    /// Returns at once.
    fn before<R: Wait>(&self, _rt: &R, _thread: u32, _turn: u64) {}

    /// It never waits.
    fn may_wait(&self) -> bool {
        false
    }
}
