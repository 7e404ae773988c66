//! What the programs share of the command line: a program's
//! way from its arguments and the bytes of its input to the
//! bytes of its output, and its status.
#![tactic(auto)]

mod arguments;
mod driving;
mod failure;
mod intake;
mod output;
mod program;

pub use arguments::{
    ArgumentsFault, command_line, file_argument, flag_argument, is_given, new_command,
    new_versioned_command, number, number_argument,
};
pub use driving::{carry_out, drive};
pub use failure::{Access, Failure, FileFault};
pub use output::write_whole;
pub use program::{Output, Program, Told};
