//! The face of a world: the calls that every representation of contexts and groups meets, each by the
//! definitions of what it does.
#![tactic(auto)]

pub mod memory;
pub mod world;

pub use lwc_base::{StoreFault, Summary, WorldSize};
pub use memory::{bytes_for, is_within, load_for};
pub use world::World;
