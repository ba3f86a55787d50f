//! Runs that a caller keeps as a value, and what it sees of them, in numbers.
#![tactic(auto)]

mod runs;
mod shapes;
mod views;

pub use runs::{Run, RunError};
pub use shapes::{SlotState, ThreadState, Totals};
pub use views::{copy_page_of_run, slot_of_run, thread_of_run, totals_of_run};
