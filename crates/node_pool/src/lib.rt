//! Counted nodes of 32 entries in one region: each is held so often, and is free where nobody holds it.
#![tactic(auto)]

pub mod pool;

pub use pool::{NODE_ENTRIES, NodeNo, NodePool};
