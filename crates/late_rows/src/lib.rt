//! Tables whose rows are made when they are first changed.
#![tactic(auto)]

pub mod rows;

pub use rows::{CopyFrom, Fresh, LateRows};
