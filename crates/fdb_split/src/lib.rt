//! A log that is cut into parts by its keys, each a file of a folder: the program.
#![tactic(auto)]

mod arguments;
mod counts_text;
mod split_arguments;
mod split_program;
mod splitting;

pub use split_arguments::SplitArguments;
pub use split_program::{MAX_SPLIT_BYTES, Split, drive};
pub use splitting::Splitting;
