//! The audit of the logs of any system that has read versions and commit versions.
//!
//! [`judge`] judges the lines of a [`fdb_lines::Log`] and says what it finds as a text, in words of
//! the log; [`judge_text`] reads the log from JSON Lines, and [`judge_named`] takes one that was read,
//! with its keys and what is shown of its lines.
#![tactic(auto)]

mod arguments;
mod audit_program;
mod clocks;
mod figures;
mod first_line;
mod followed_log;
mod follower;
mod groups;
mod judgement;
mod kept;
mod kept_file;
pub mod laws;
mod members;
mod pace;
mod printer;
mod progress;
mod read_back;
mod reason;
mod refusal;
mod summary;
mod taken_lines;
mod teller;
mod told_faults;

pub use arguments::{AuditArguments, member_names};
pub use audit_program::{Audit, AuditIntake, MAX_LOG_BYTES, drive};
pub use fdb_command::command_line;
pub use followed_log::FollowedLog;
pub use follower::Follower;
pub use judgement::{Judgement, Wanted, judge, judge_named, judge_text};
pub use printer::LogFault;
pub use progress::Progress;
pub use refusal::{CountedLine, KeptFault, KeptRefused, LogsRefused, Warning};
pub use teller::{Followed, Said, Stopped};
