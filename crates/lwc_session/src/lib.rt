//! A session: a serve by one worker in which the pages of each good request become the server's.
//!
//! It is a list of serves of one request each, by the kernel as it is: each from the image that the session has come
//! to. A request that ends with code 0 in its own first context leaves the pages of that context to the image.
#![tactic(auto)]

mod laws;
mod lines;
mod pages;
mod reporting;
mod serving;
mod session;

pub use laws::{a_request_that_is_not_kept_never_was, a_session_goes_on, a_session_is_a_fold};
pub use reporting::{session_image, session_report};
pub use session::Session;
