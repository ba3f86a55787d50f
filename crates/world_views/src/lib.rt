//! What may be seen of a world, and what calls of guests make of that: a job does the same wherever it sees the
//! same, and other jobs do not see it; and where one context is blank, the others do the same.
#![tactic(auto)]

pub mod blank_call_laws;
pub mod blank_laws;
pub mod job_call_laws;
pub mod job_laws;
