//! The world by whole copies. Each context and each group has a copy of all that it has.
#![tactic(auto)]

mod cloning;
mod context_row;
mod counts;
mod group_row;
mod holder;
mod key_value;
mod overlaying;
mod pages;
mod ranges;
mod reads;
mod reaping;
mod sharing;
mod store;
mod table;
mod tags;
mod world;
mod writes;

pub use world::WholeWorld;
