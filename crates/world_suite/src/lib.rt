//! One suite of tests for each world: the calls of `World`, over whole copies and over shared pages.
#![tactic(auto)]

#[cfg(test)]
mod calls;
