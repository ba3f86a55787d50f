//! The calls that take keys from a capability, and that take over from a context what items name.
#![tactic(auto)]

pub mod laws;
pub mod naming;
pub mod overlaying;
pub mod restricting;

pub use overlaying::overlay;
pub use restricting::restrict;
