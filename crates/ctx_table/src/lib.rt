//! A table of contexts by name, each at a place of its own.
#![tactic(auto)]

mod hints;
mod index;
pub mod names;
mod place;
pub mod table;

pub use names::Names;
pub use table::CtxTable;
