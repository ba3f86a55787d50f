//! Closed contexts: what stays in one learns nothing of the bytes of others.
#![tactic(auto)]

pub mod laws;
