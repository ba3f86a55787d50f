//! How a request begins and is finished: the context that it is served in, and what is recorded of it.
#![tactic(auto)]

pub mod beginning;
pub mod finishing;
pub mod laws;
pub mod recording;

pub use beginning::begin;
pub use finishing::{Finished, FinishedView, ReplyBytes, finish};
pub use recording::Recorded;
