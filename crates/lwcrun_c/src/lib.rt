//! The kernel for programs in C, and in what calls C: lines carried out over files in memory, and runs that are looked
//! at step by step.
#![tactic(auto)]

mod exports;

pub use exports::{lwcrun_c_line, lwcrun_c_page, lwcrun_c_slot, lwcrun_c_thread, lwcrun_c_totals};
