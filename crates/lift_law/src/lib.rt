//! The law of lifted images: what a run is that meets no limit of pages.
#![tactic(auto)]

pub mod laws;
