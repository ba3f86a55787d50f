//! The call that takes a thread to another context.
#![tactic(auto)]

pub mod laws;
pub mod switching;

pub use switching::{enter, switch};
