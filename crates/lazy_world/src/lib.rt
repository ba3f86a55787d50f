//! The world by shared pages: the cells of each context and group at a place, over one store of pages and one
//! of descriptors. After `open` no call takes memory.
#![tactic(auto)]

pub mod cloning;
pub mod copying;
pub mod cutting;
pub mod dropping;
pub mod face;
pub mod key_value;
pub mod lazy;
pub mod loosening;
pub mod mapping;
pub mod marking;
pub mod memory;
pub mod notes;
pub mod noting;
pub mod overlaying;
pub mod pieces;
pub mod places;
pub mod ranges;
pub mod ranges_after;
pub mod reads;
pub mod reaping;
pub mod registers;
pub mod sharing;
pub mod store;
pub mod transfer;
pub mod world;
pub mod writes;

pub use lazy::LazyWorld;
