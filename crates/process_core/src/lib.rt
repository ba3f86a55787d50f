//! A kernel under one lock, each of whose threads is carried by a pass.
//!
//! `Process::open` puts a kernel over a roomy world under a ticket lock, and gives a pass for each thread.
//! Whoever has a pass makes the steps of its thread by `turn`, one after another, from any thread of the
//! host. All steps of all passes are in one legal history, and the pass has what its holder knows of it: the
//! history up to its last step, and what that step left of the thread. Whoever has all the passes takes the
//! kernel back by `close`.
//!
//! `carry` takes a thread to its end, and `carry_all` all threads side by side. What counts the turns of a thread is
//! told of each, and may hand on what the turn has finished.
#![tactic(auto)]

mod carrier;
mod carriers;
mod guarded;
mod opened;
mod opening;
mod passes;
mod process;
mod stay;

pub use carrier::{Carrier, CountsTurns, carry, carry_all};
pub use carriers::{carriers_of, parts_of};
pub use opened::Opened;
pub use passes::{ProcessPass, ProcessPasses};
pub use process::Process;
pub use stay::Stay;
