//! The files that a line names, read and tested, and how a call ends: its message and its exit status.
#![tactic(auto)]

mod ending;
mod inputs;
mod messages;
mod reading;
mod status;

pub use ending::{Ending, Rejection};
pub use inputs::{
    bounded_requests_in, bytes_in, fitting_image_in, image_in, most_steps, requests_in,
    schedule_in, source_in, too_long_input,
};
pub use messages::{message_of, status_of, write_message};
pub use status::ExitStatus;
