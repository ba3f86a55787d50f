//! The texts of a run: the grammars of its inputs, and its report.
#![tactic(auto)]

mod digits;
mod fault;
mod file_lines;
mod laws;
mod lines;
mod numbers;
mod replaying;
mod reporting;
mod requests;
mod schedule;
mod vault;

pub use fault::{InputFault, InputRule};
pub use file_lines::next_line;
pub use laws::{
    a_report_is_that_of_the_replay_of_its_list, request_files_are_read_as_spelled,
    schedules_are_read_as_named, vault_files_are_read_as_spelled,
};
pub use lines::{
    MOST_REPLY_LINE_BYTES, bytes_text, context_line, groups_line, name_text, reply_line,
    tail_lines, thread_lines, trap_line, used_line,
};
pub use numbers::number_of;
pub use replaying::{make_steps, report_of_schedule};
pub use reporting::{context_lines, report, rest_of_report};
pub use requests::read_requests;
pub use schedule::{Schedule, read_schedule, read_schedule_within};
pub use vault::{MOST_VAULT_BYTES, read_vault};
