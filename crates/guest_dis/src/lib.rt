//! Images of guests, written as sources.
#![tactic(auto)]

mod laws;
mod lines;
mod listing;

pub use laws::a_listing_is_read_as_its_image;
pub use listing::disassemble;
