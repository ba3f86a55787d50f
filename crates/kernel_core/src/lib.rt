//! The kernel: threads that run an image over a world, one step at a time, each as the machine's definition
//! says.
#![tactic(auto)]

pub mod acting;
pub mod calling;
pub mod inputs;
pub mod kernel;
pub mod laws;
mod memory;
pub mod parts;
pub mod serve;
pub mod settings;
mod starting;
pub mod thread;

pub use acting::{Change, Effect, step_thread};
pub use calling::{LW_CREATE, LW_OVERLAY, LW_RESTRICT, LW_SWITCH, LW_SYSCALL};
pub use inputs::Inputs;
pub use kernel::Kernel;
pub use laws::{
    a_history_that_ends_each_thread_is_complete, a_refused_call_changes_its_thread_alone,
    a_step_of_a_thread_that_goes_on_is_legal, a_thread_that_goes_on_has_steps_left,
    each_thread_has_its_budget, kept_steps_are_enough, kept_steps_are_kept,
    machines_of_runs_are_ready, next_step_is_kept, others_leave_a_turn, turns_say_who_has_ended,
    worlds_of_runs_are_sound,
};
pub use parts::Parts;
pub use settings::{Job, OpenFault, Settings};
pub use thread::{Thread, ThreadView, Turn};
