//! The plain calls of guests, 1 to 10, over contexts for the memory, the slots and the credential; and the
//! call that chooses these contexts by a mask.
#![tactic(auto)]

pub mod answer;
pub mod bytes;
pub mod calls;
pub mod laws;
pub mod over;
pub mod pages;
pub mod plain_call;
pub mod slots;
pub mod uids;

pub use answer::CallAnswer;
pub use calls::{CallContexts, plain};
pub use over::lw_syscall;
pub use plain_call::PlainCall;
