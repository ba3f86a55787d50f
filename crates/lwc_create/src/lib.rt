//! The call that makes a new context from the caller's context.
#![tactic(auto)]

pub mod creating;
pub mod laws;

pub use creating::create;
