//! The slots of contexts and groups, by place. What a filled slot has is a counted object in one store, and a
//! copy of a place shares the objects of what it copies.
#![tactic(auto)]

pub mod bits;
pub mod filling;
pub mod fillings;
pub mod objects;
pub mod pool;
pub mod slots;
pub mod stored;
pub mod table;

pub use bits::lowest_bit;
pub use slots::{NUMBERS, Slots, TargetNumber};
