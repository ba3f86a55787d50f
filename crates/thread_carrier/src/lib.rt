//! Workers of the host that carry the threads of a process to their ends.
#![tactic(auto)]

mod carrier;
mod running;

pub use carrier::{Carrier, carry, carry_all};
pub use running::run_threads;
