//! Logs of read and commit versions, read from JSON Lines: an object for each call, a line each.
//!
//! A [`LogReader`] takes the bytes of a text as they come, and keeps of them the lines of a
//! [`fdb_lines::Log`], the names of the clients, and the line that has not ended yet. [`read_log`]
//! reads a text that is there as a whole. What a text stands for is said in `specs/`.
#![tactic(auto)]

mod columns;
mod error;
pub mod laws;
mod line_reader;
mod member;
mod named_log;
mod names;
mod parsing;
mod part_text;
mod read_line;
mod reader;
mod shown;
mod splitter;
mod usual;

pub use columns::{Keys, OwnNumbers};
pub use error::{ReadError, Why};
pub use line_reader::LineReader;
pub use member::Member;
pub use named_log::NamedLog;
pub use names::{Names, printed_name, shown_text};
pub use parsing::written;
pub use part_text::Above;
pub use read_line::ReadLine;
pub use reader::{LogReader, MAX_LINE_BYTES, read_log};
pub use shown::Shown;
pub use splitter::Splitter;
