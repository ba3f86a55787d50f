//! Reachability: which places are reached from roots by links.
#![tactic(auto)]

pub mod links;
pub mod marks;
mod search;

pub use links::Links;
pub use marks::{Marks, mark};
