//! Counted frames of 4096 bytes in one region: each is held so often, and is free where nobody holds it.
#![tactic(auto)]

pub mod pool;

pub use pool::{FrameNo, Pool};
