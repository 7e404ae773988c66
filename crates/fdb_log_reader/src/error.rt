//! Why a text is refused: at which line, and what is wrong with it.

ghost use Rattle.std.specs.Prelude.{◌≡◌};

use crate::member::Member;
use fdb_lines::LineError;
use std::alloc::AllocError;
use std::fmt;

/// What is wrong with a text or with a line of it. docs/LOG.md has the order in which this is
/// looked for.
#[derive(Clone, Copy, Debug, PartialEq, Eq)]
pub enum Why {
    /// The text has no line.
    Empty,
    /// The line has more than [`crate::MAX_LINE_BYTES`] bytes, its line feed not counted. Where
    /// lines have their own numbers, it may have 40 more.
    TooLong,
    /// There are as many lines above the line as a log may have.
    TooMany,
    /// The line is no JSON text that `serde_json` reads.
    NotJson,
    /// The line has none of the members that name a call.
    NoCall,
    /// The line has more than one of the members that name a call.
    TwoCalls,
    /// The line has times and the lines above have none, or the other way round.
    SomeTimes,
    /// A member is missing, of another kind, or not one that may stand there.
    BadMember(Member),
    /// Keys are kept, and what the line has as its key is neither a text nor a whole number.
    BadKey,
    /// Lines have their own numbers, and this line has no number, or one that is not above that of
    /// the line before.
    BadNumber,
    /// Memory was refused, which says nothing of the line.
    Memory,
}

impl From<LineError> for Why {
    ghost use Rattle.std.specs.Prelude.{◌≡◌};
    ghost use Rattle.fdb_log_reader.specs.Reading.{why_of};

    ghost from_gives = { λ error why. why ≡ why_of error };

    fn from(error: LineError) -> Self {
        match error {
            LineError::TooMany => Why::TooMany,
            LineError::SomeTimes => Why::SomeTimes,
            LineError::TimedLearn => Why::BadMember(Member::Learn),
            LineError::NoClient => Why::BadMember(Member::Client),
            LineError::Memory => Why::Memory,
        }
    }
}

impl From<AllocError> for Why {
    ghost use Rattle.std.specs.Prelude.{◌≡◌};
    ghost use Rattle.fdb_log_reader.specs.declared.error.Why.TheVariants.{Memory};

    ghost from_gives = { λ _ why. why ≡ Memory };

    fn from(_error: AllocError) -> Self {
        Why::Memory
    }
}

/// Why a text, or a line of it, is refused: the line, counted from 1, or 0 where there is no line,
/// and what is wrong. A text is refused for the first line with which something is wrong. Where
/// memory was refused, the line says nothing.
#[derive(Clone, Copy, Debug, PartialEq, Eq)]
pub struct ReadError {
    pub line: u64,
    pub why: Why,
}

impl fmt::Display for ReadError {
    ghost use Rattle.std.specs.Prelude.{Some};
    ghost use Rattle.fdb_log_reader.specs.Text.{error_text};

    ghost output = { λ error. Some (error_text error) };

    fn fmt<W: fmt::Write>(&self, f: &mut fmt::Formatter<W>) -> fmt::Result {
        let line = self.line;
        match self.why {
            Why::Empty => write!(f, "Empty"),
            Why::TooLong => write!(f, "TooLong {line}"),
            Why::TooMany => write!(f, "TooMany {line}"),
            Why::NotJson => write!(f, "NotJson {line}"),
            Why::NoCall => write!(f, "NoCall {line}"),
            Why::TwoCalls => write!(f, "TwoCalls {line}"),
            Why::SomeTimes => write!(f, "SomeTimes {line}"),
            Why::BadMember(member) => write!(f, "BadMember {line} {member}"),
            Why::BadKey => write!(f, "BadMember {line} key"),
            Why::BadNumber => write!(f, "BadMember {line} numbers"),
            Why::Memory => write!(f, "out of memory"),
        }
    }
}
