//! Lines carried out over files in memory, for a caller that passes bytes and takes bytes.
#![tactic(auto)]

mod answer;
mod border;
mod lines;

pub use answer::{Answer, outcome, put_answer};
pub use border::{Bytes, FileBytes, LineError};
pub use lines::Outcome;
