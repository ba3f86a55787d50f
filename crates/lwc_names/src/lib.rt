//! Numbers do not matter: a request is replied the same, and takes as many frames, under every number.
#![tactic(auto)]

pub mod laws;
