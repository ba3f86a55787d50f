//! What pools stand on: counts of how often each place is held.
#![tactic(auto)]

pub mod hold_counts;

pub use hold_counts::{HoldCounts, put_next};
