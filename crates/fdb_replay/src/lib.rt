//! A script of clients, replayed against the read-version
//! service from the script's bytes to the printed lines.
#![tactic(auto)]

mod player;
mod replay_program;
mod rounds;
mod running;

pub use fdb_command::{Failure, command_line};
pub use fdb_script::MAX_SCRIPT_BYTES;
pub use replay_program::{Replay, ScriptRefused, drive};
pub use running::{ReplayFault, ReplayOpts, replay, run};
