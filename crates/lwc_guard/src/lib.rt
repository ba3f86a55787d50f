//! Runs under a monitor that is also a guard: a step that would end its thread is given back to the monitor.
#![tactic(auto)]

mod calling;
mod giving;
pub mod guard;
pub mod guarded;
mod guards;
pub mod laws;
mod lines;
pub mod numbers;
pub mod replaying;
mod stepping;

pub use guard::Guard;
pub use guarded::Guarded;
pub use laws::guarded_runs_give_threads_back;
pub use numbers::{EXITED, HALTED, LW_FUEL, MOST_FUEL, NO_FUEL};
pub use replaying::guard_replay;
