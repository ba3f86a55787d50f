//! The replies of a serve, each written as soon as it and all earlier ones are there.
//!
//! `stream_all` carries all threads of a process to their ends, each by a worker. A worker keeps the bytes of each
//! reply that its thread finishes in a store of its own, and puts the reply into a queue of its own. The caller takes
//! replies from the queues while the workers go on, lets each wait until those to all earlier requests are written,
//! and writes it.
#![tactic(auto)]

mod beside;
mod collector;
mod ends;
pub mod laws;
mod signal;
mod store;
mod streaming;
mod waiting;
mod worker;
mod writer;

pub use streaming::{Streamed, stream_all};
