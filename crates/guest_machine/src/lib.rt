//! The guest machine: what private instructions do, and how far a thread advances by them.
#![tactic(auto)]

mod advancing;
mod effect;
mod progress;

pub use advancing::{advance, advance_is_determined, advances_come_to_instructions, run_on};
pub use effect::{Effect, private};
pub use progress::{Advance, Next};
