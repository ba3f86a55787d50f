//! A debugger of runs: a script of commands, each answered at the moment of the run where it is given, which
//! may also be an earlier one than the last.
#![tactic(auto)]

mod answering;
mod command;
mod debugging;
mod laws;
mod moving;
mod script;

pub use answering::is_live;
pub use command::{Command, MOST_COMMANDS, Script};
pub use debugging::{MOST_DEBUGGED_STEPS, debug};
pub use laws::{each_step_of_a_legal_history_is_made, scripts_are_read_as_spelled};
pub use script::{MOST_SCRIPT_BYTES, read_script};
