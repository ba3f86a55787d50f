//! A server and its requests, made from a number, and the summary of the replies.
#![tactic(auto)]

mod generating;
mod handler;
mod laws;
mod summing;
mod totals;

pub use generating::{SETTINGS, generate};
pub use handler::HANDLER;
pub use laws::a_generated_server_can_be_served;
pub use summing::summary;
pub use totals::Totals;
