//! Runs in which contexts are trapped: each call of a trapped context goes to the context that trapped it.
#![tactic(auto)]

mod forbidding;
pub mod laws;
pub mod live;
pub mod monitored;
pub mod numbers;
pub mod replaying;
pub mod ruling;
pub mod stepping;
pub mod trapping;
pub mod traps;

pub use laws::monitored_runs_keep_trapped_contexts;
pub use monitored::Monitored;
pub use numbers::{EXIT, LW_TRAP, NOT_FRESH, TRAPPED};
pub use replaying::monitor_replay;
