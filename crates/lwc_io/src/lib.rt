//! The outside as its callers see it: files to read, a sink to write to, and a gate to wait at.
#![tactic(auto)]

mod gate;
mod log;
mod memory;
mod outside;
mod real;
mod sure;
mod writing;

pub use gate::{Gate, OpenGate};
pub use memory::{MemoryFiles, MemorySink, NamedFile};
pub use outside::{Failed, Files, Sink};
pub use real::{RealFiles, RealSink};
pub use sure::{SureFiles, SureSink};
pub use writing::write_whole;
