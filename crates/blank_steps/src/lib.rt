//! Steps outside a context, where that context is blank: the same steps.
#![tactic(auto)]

pub mod laws;
