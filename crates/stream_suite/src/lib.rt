//! Tests of streams, which lines are written, and when; of the lock, that each thread has its turns; of the passes and
//! the turns of a process; and that threads of a run or a serve go on side by side.
//!
//! A kernel ends by `drop`, and none is alive at a `?`: one that falls out of scope makes the proof of its function
//! several times as long.
#![tactic(auto)]

#[cfg(test)]
mod guests;
#[cfg(test)]
mod outside;
#[cfg(test)]
mod passes;
#[cfg(test)]
mod running;
#[cfg(test)]
mod stepping;
#[cfg(test)]
mod streams;
#[cfg(test)]
mod turns;
