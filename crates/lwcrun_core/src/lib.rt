//! The call behind the program: it reads the line, has its mode carried out, writes the message of how that ended,
//! and returns the exit status. Each mode reads its files in their order, tests each before the next, runs or makes
//! what is asked for, and writes it.
#![tactic(auto)]

mod beside;
mod call;
mod carrying;
mod debugging;
mod gathering;
mod guarding;
mod in_memory;
mod limits;
mod monitoring;
mod replaying;
mod running;
mod sources;
mod streaming;
mod vaulting;
mod writing;

pub use call::lwcrun;
pub use carrying::carry_out_without_threads;
pub use in_memory::lwcrun_in_memory;
pub use limits::limits_are_as_documented;
pub use lwcrun_inputs::{Ending, ExitStatus, message_of, status_of};
pub use lwcrun_line::{Line, LineFault, read_line};
pub use replaying::replay;
pub use running::open_process;
