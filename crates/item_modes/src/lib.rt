//! What items say key by key: the mode of pages, run by run, and whether they name slots or share anything.
#![tactic(auto)]

pub mod naming;
pub mod runs;

pub use naming::{is_share, names_slots, shares_nothing};
pub use runs::ModeRun;
