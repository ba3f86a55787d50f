//! Requests of a serve are apart: each reply is the one that its request gets by itself.
#![tactic(auto)]

pub mod laws;
