//! The line of words: what it asks for, if it is accepted.
#![tactic(auto)]

mod arguments;
mod line;
mod mode;
mod numbers;

pub use line::{Line, LineFault, read_line};
pub use mode::{Mode, Options};
