//! A log that is read piece by piece.

ghost use Rattle.std.specs.Prelude.{◌≡◌, ◌⊎◌, ◌++◌, ◌∷◌, ◌+◌, ◌≤◌, ℕ, List, [], Err, IfOk, IfSome};
ghost use Rattle.std.specs.Prelude.{MatchOption, MatchResult, length, map, option_map};
ghost use Rattle.std.specs.Prelude.{string_bytes};
ghost use Rattle.std.proofs.Props.{props};
ghost use Rattle.fdb_log_reader.specs.Columns.{HasCells, column_of, most_bytes, no_keys};
ghost use Rattle.fdb_log_reader.specs.Columns.{no_numbers, numbers_in, shown_of};
ghost use Rattle.fdb_log_reader.specs.Reading.{ReadsAs, StandsFor, lines_in, nothing, reading_in};
ghost use Rattle.fdb_log_reader.specs.Reading.{reading_of, reading_with, with_lines};
ghost use Rattle.fdb_log_reader.specs.private.{HasRoom, HaveCells, IsOneLine};

use crate::columns::{Keys, OwnNumbers, most_bytes, no_columns};
use crate::error::{ReadError, Why};
use crate::named_log::{NamedLog, add_line};
use crate::names::Names;
use crate::shown::Shown;
use fdb_lines::Log;
use memchr::memchr;
use std::alloc::{AllocError, Global};

/// The most bytes of a line, without its line feed.
pub const MAX_LINE_BYTES: usize = 1_048_576;

/// A log of which a part has been read, and the front of a line that has not ended yet.
#[derive(Drop)]
pub struct LogReader {
    alloc: Global,
    named: NamedLog,
    front: Vec<u8>,
    ghost has_room: { HasRoom named } by { Prim.hlevel props },
    ghost one_line: { IsOneLine front.items },
    ghost short: { length front.items ≤ most_bytes (option_map numbers_in named.numbers) },
}

impl LogReader {
    ghost use Rattle.fdb_log_reader.specs.Reader.{reads_on};
    ghost use Rattle.fdb_log_reader.specs.private.Feeding.{Feeds, FeedsLine};

    /// A log of which nothing has been read.
    pub fn new(alloc: Global) -> Self
        ensures { (text : List ℕ) → reads_on result text ≡ reading_in text }
    {
        LogReader::beginning(alloc, None, None, Vec::new(alloc))
    }

    /// A log of which nothing has been read. `key` names the member that has the keys of lines, if
    /// they are to be kept, `shown` the members that are to be shown, and `numbers` the member that
    /// has the lines' own numbers, if they have such. It fails only where memory is refused.
    pub fn with_columns(
        alloc: Global,
        key: Option<&str>,
        shown: &[String],
        numbers: Option<&str>,
    ) -> Result<Self, AllocError>
        ensures { IfOk result (λ reader. (text : List ℕ) → reads_on reader text ≡ reading_with
            (option_map (λ key. key.now) key.entry) (map string_bytes shown.now)
            (option_map (λ member. member.now) numbers.entry) text) }
    {
        let keys = match key {
            Some(member) => Some(Keys::new(alloc, String::from_str(alloc, member)?)),
            None => None,
        };
        let numbers = match numbers {
            Some(member) => Some(OwnNumbers::new(alloc, String::from_str(alloc, member)?)),
            None => None,
        };
        let shown = no_columns(alloc, shown)?;
        Ok(LogReader::beginning(alloc, keys, numbers, shown))
    }

    /// A log of which nothing has been read, with these columns.
    fn beginning(
        alloc: Global,
        keys: Option<Keys>,
        numbers: Option<OwnNumbers>,
        shown: Vec<Shown>,
    ) -> Self
        requires keys { IfSome keys (λ keys. column_of keys ≡ no_keys (column_of keys).member) }
        requires numbers { IfSome numbers
            (λ own. numbers_in own ≡ no_numbers (numbers_in own).member) }
        requires shown { HaveCells 0 (map shown_of shown.items) }
        ensures { (text : List ℕ) → reads_on result text ≡ with_lines (nothing
            (option_map (λ keys. (column_of keys).member) keys)
            (option_map (λ own. (numbers_in own).member) numbers) (map shown_of shown.items))
            (lines_in text) }
    {
        LogReader {
            alloc,
            named: NamedLog {
                log: Log::new(alloc),
                names: Names::new(alloc),
                keys,
                numbers,
                shown,
            },
            front: Vec::new(alloc),
        }
    }

    /// How many lines have been read, without one that has not ended yet.
    pub fn line_count(&self) -> usize
        ensures { result ≡ length (reading_of self.now.named).log.lines }
    {
        self.named.log.lines().len()
    }

    /// Takes the next bytes of the text, cut anywhere. An error names the first line that is
    /// refused, or says that memory was refused.
    #[tactic(auto, using(crate::proofs::Splitting::goes_on))]
    pub fn feed(mut self, bytes: &[u8]) -> Result<Self, ReadError>
        ensures { MatchResult result
            (λ reader. (text : List ℕ) → reads_on reader text ≡ reads_on self (bytes.now ++ text))
            (λ error. (error.why ≡ Why.Memory)
            ⊎ ((text : List ℕ) → reads_on self (bytes.now ++ text) ≡ Err error)) }
    {
        let mut rest = bytes;
        while let Some((line, after)) = split_line(rest) {
            self = self.read_line(line)?;
            rest = after;
        }
        self.keep(rest)
    }

    /// The log, where the text ends here, with or without a last line feed. It is refused as `Empty`
    /// where the text had no line.
    #[tactic(auto, using(crate::proofs::Splitting::fed_last))]
    pub fn finish(self) -> Result<NamedLog, ReadError>
        ensures read { StandsFor result (reads_on self []) }
        ensures cells { IfOk result (λ named.
            HasCells (reading_of named).keys (reading_of named).log) }
    {
        if self.front.is_empty() {
            return self.at_end();
        }
        self.end_line()?.at_end()
    }

    /// The log, where the text ends here behind a line feed or has no line.
    fn at_end(self) -> Result<NamedLog, ReadError>
        requires { self.front.items ≡ [] }
        ensures read { StandsFor result (reads_on self []) }
        ensures cells { IfOk result (λ named.
            HasCells (reading_of named).keys (reading_of named).log) }
    {
        if self.named.log.lines().is_empty() {
            return Err(ReadError {
                line: 0,
                why: Why::Empty,
            });
        }
        Ok(self.named)
    }

    /// Reads a line whose end has come.
    #[tactic(auto, using(crate::proofs::Splitting::whole_line))]
    fn read_line(self, line: &[u8]) -> Result<Self, ReadError>
        requires { IsOneLine line.now }
        ensures { FeedsLine self line.now result }
    {
        if self.front.is_empty() && line.len() <= most_bytes(&self.named.numbers) {
            self.add_whole(line)
        } else {
            self.keep(line)?.end_line()
        }
    }

    /// Reads a line that has come as a whole, where it lies.
    #[tactic(auto, using(crate::proofs::Splitting::whole_line))]
    fn add_whole(self, line: &[u8]) -> Result<Self, ReadError>
        requires line { IsOneLine line.now }
        requires short { length line.now ≤ most_bytes (reading_of self.named).numbers }
        requires none { self.front.items ≡ [] }
        ensures { FeedsLine self line.now result }
    {
        let refused = self.error(Why::Memory);
        let LogReader {
            alloc,
            mut named,
            front,
        } = self;
        if let Err(why) = add_line(&mut named, alloc, line) {
            return Err(ReadError { why, ..refused });
        }
        Ok(LogReader {
            alloc,
            named,
            front,
        })
    }

    /// Keeps what has come of a line, unless that gets too long.
    #[tactic(auto, using(crate::proofs::Splitting::too_long))]
    fn keep(mut self, bytes: &[u8]) -> Result<Self, ReadError>
        requires { IsOneLine bytes.now }
        ensures { Feeds self bytes.now result }
    {
        if bytes.len() > most_bytes(&self.named.numbers) - self.front.len() {
            return Err(self.error(Why::TooLong));
        }
        match self.front.extend_from_slice(bytes) {
            Ok(()) => Ok(self),
            Err(_) => Err(self.error(Why::Memory)),
        }
    }

    /// Reads the line that has been kept, which ends here.
    #[tactic(auto, using(crate::proofs::Splitting::ends_line))]
    fn end_line(self) -> Result<Self, ReadError>
        ensures empty { IfOk result (λ ended. ended.front.items ≡ []) }
        ensures read { Feeds self (10 ∷ []) result }
    {
        let refused = self.error(Why::Memory);
        let LogReader {
            alloc,
            mut named,
            mut front,
        } = self;
        if let Err(why) = add_line(&mut named, alloc, &front) {
            return Err(ReadError { why, ..refused });
        }
        front.clear();
        Ok(LogReader {
            alloc,
            named,
            front,
        })
    }

    /// What is wrong with the line that has been begun.
    fn error(&self, why: Why) -> ReadError
        ensures { result ≡ record
            { line = length (reading_of self.now.named).log.lines + 1; why = why } }
    {
        let line = self.line_count() as u64 + 1;
        ReadError { line, why }
    }
}

/// The first line of some bytes, and what comes after its line feed, if there is one.
pub(crate) fn split_line(bytes: &[u8]) -> Option<(&[u8], &[u8])>
    ensures { MatchOption result (IsOneLine bytes.now)
        (λ parts. (bytes.now ≡ parts.0.now ++ 10 ∷ parts.1.now) × IsOneLine parts.0.now) }
{
    let end = memchr(b'\n', bytes)?;
    Some((&bytes[..end], &bytes[end + 1..]))
}

/// The log that a text of JSON Lines stands for. An error names the first line that is refused, or
/// says that there is no line, or that memory was refused.
///
/// Linear in the bytes, with two exceptions: a name is looked up in logarithmic time, and the
/// members of a line are sorted, unless it is an object without white space and escapes whose
/// members are texts, whole numbers below 2^64 and nulls. Beside the log and the names it takes the
/// memory of one line.
pub fn read_log(alloc: Global, bytes: &[u8]) -> Result<NamedLog, ReadError>
    ensures { ReadsAs bytes.now result }
{
    let reader = LogReader::new(alloc).feed(bytes)?;
    reader.finish()
}
