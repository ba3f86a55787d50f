//! What calls of guests have in common: the context that a slot names, the items that a call asks for, a limit,
//! the registers afterwards.
#![tactic(auto)]

pub mod answers;
pub mod asking;
pub mod laws;
pub mod links;
pub mod ranges;

pub use answers::with_answer;
pub use asking::{items_for, items_that_are_not_refused_are_a_spec};
pub use links::{context_for, descriptor_for};
pub use ranges::are_too_many;
