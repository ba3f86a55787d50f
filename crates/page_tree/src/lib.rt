//! Trees of pages over counted nodes and frames: many trees stand in one store, and share what is equal in
//! them.
#![tactic(auto)]

pub mod cell;
pub mod laws;
mod node;
mod range;
pub mod store;
pub mod tree;
mod way;

pub use cell::PageCell;
pub use store::{LEAF_LEVEL, PAGES, ROOT_ENTRIES, ROOT_LEVEL, Store, TREE_NODES};
pub use tree::PageTree;
