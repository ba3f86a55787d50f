//! Access capabilities: which keys may be taken from a context.
#![tactic(auto)]

pub mod granted;
pub mod kinds;
pub mod sets;
pub mod whole;
mod words;

pub use granted::{grants, grants_kinds, meet_granted, owned, owned_keys};
pub use kinds::{Mask, covers_kinds};
pub use sets::{covers, meet};
pub use whole::{empty, full};
