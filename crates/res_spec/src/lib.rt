//! Resource specifiers: which keys a call names, and under which mode.
#![tactic(auto)]

pub mod items;
pub mod modes;

pub use items::{ITEM_BYTES, SpecCall, SpecFault, items_that_are_read_are_a_spec, read_items};
pub use modes::{mode_of, mode_or_copy};
