//! Why a log is refused, for people, and what is said on standard error of the lines of one that is
//! followed.

ghost use Rattle.std.specs.Prelude.{◌≡◌, ◌++◌, OnOk, string_bytes};
ghost use Rattle.fdb_audit.specs.Warned.{cause_text, counted, warning_line};
ghost use Rattle.fdb_audit.specs.private.Followed.{doubled_text};

use fdb_log_reader::{Member, ReadError, Why};
use std::alloc::AllocError;
use std::error::Error;
use std::fmt::{self, Write};

/// Why a log is refused, or what was kept of one; or that not all of it was judged: the text of the
/// line on standard error, behind the program's name.
#[derive(Debug, Drop)]
pub enum LogsRefused {
    /// A line with which something is wrong, and what: the first one of the log, or, where the log
    /// is followed, the last one or the one that is just told.
    Log(ReadError),
    /// The last line, counted from 1, of a followed log that had begun before what was settled when
    /// it came. What was told before is not told anew because of it, and the line itself may not
    /// have been judged.
    Early(u64),
    /// Why lines that were kept are refused, and where they are kept.
    Kept(KeptFault),
}

/// Why lines that were kept in a file are refused.
#[derive(Debug, Drop)]
pub struct KeptFault {
    pub refused: KeptRefused,
    /// The name of the file, as it is printed.
    pub file: String,
    /// The arguments by which the lines are kept in the file, as they are printed, if the file says
    /// so.
    pub made_by: Option<String>,
}

/// Why lines that were kept are refused: the first with which something is wrong.
#[derive(Clone, Copy, Debug, PartialEq, Eq)]
pub struct KeptRefused {
    /// The wrong line among the kept ones, counted from 1; 0 where it is the kept lines as a whole
    /// that do not say what they should.
    pub line: u64,
    /// What is wrong with the line. It is none where the line can be read, but lacks the members of
    /// a kept line (`kept_line` and so on, docs/LOG.md), or they do not go on from those of the
    /// lines above.
    pub why: Option<Why>,
}

impl fmt::Display for LogsRefused {
    ghost use Rattle.std.specs.Prelude.{Some};
    ghost use Rattle.fdb_audit.specs.Warned.{refused_text};

    ghost output = { λ refused. Some (refused_text refused) };

    fn fmt<W: fmt::Write>(&self, f: &mut fmt::Formatter<W>) -> fmt::Result {
        match self {
            LogsRefused::Log(error) => {
                let cause = cause_of(error.why);
                write!(f, "logs refused: {error}: {cause}")
            }
            LogsRefused::Early(line) => write!(
                f,
                "logs refused: Early {line}: it began before what had been settled"
            ),
            LogsRefused::Kept(fault) => write!(f, "{fault}"),
        }
    }
}

impl fmt::Display for KeptFault {
    ghost use Rattle.std.specs.Prelude.{Some};
    ghost use Rattle.fdb_audit.specs.Warned.{kept_fault_text};

    ghost output = { λ fault. Some (kept_fault_text fault) };

    fn fmt<W: fmt::Write>(&self, f: &mut fmt::Formatter<W>) -> fmt::Result {
        let refused = self.refused;
        let file = &self.file;
        match &self.made_by {
            Some(words) => write!(f, "{refused}\nfdb_audit: kept in {file} by {words}"),
            None => write!(f, "{refused}\nfdb_audit: kept in {file}"),
        }
    }
}

impl fmt::Display for KeptRefused {
    ghost use Rattle.std.specs.Prelude.{Some};
    ghost use Rattle.fdb_audit.specs.Warned.{kept_refused_text};

    ghost output = { λ refused. Some (kept_refused_text refused) };

    fn fmt<W: fmt::Write>(&self, f: &mut fmt::Formatter<W>) -> fmt::Result {
        let line = self.line;
        match self.why {
            Some(why) => {
                let error = ReadError { line, why };
                let cause = cause_of(why);
                write!(f, "kept lines refused: {error}: {cause}")
            }
            None => write!(
                f,
                "kept lines refused: NotKept {line}: no line as it is kept"
            ),
        }
    }
}

impl Error for KeptRefused {}

impl Error for KeptFault {}

impl Error for LogsRefused {}

/// What is wrong, in words.
fn cause_of(why: Why) -> &'static str
    ensures { result.now ≡ cause_text why }
{
    match why {
        Why::Empty => "no line",
        Why::TooLong => "more than 1048576 bytes",
        Why::TooMany => "more than 4294967295 lines",
        Why::NotJson => "no JSON",
        Why::NoCall => "no read, commit, ask, report or learn",
        Why::TwoCalls => "more than one of read, commit, ask, report and learn",
        Why::SomeTimes => "began and ended stand in all lines or in none",
        Why::BadMember(Member::Client) => "no name, or none in a log without times",
        Why::BadMember(Member::Read | Member::Commit | Member::Ask | Member::Report) => {
            "no whole number below 2^64"
        }
        Why::BadMember(Member::Learn) => "no client of a line above, or beside times",
        Why::BadMember(Member::Began) => "no whole number below 2^64, or none beside ended",
        Why::BadMember(Member::Ended) => {
            "no whole number below 2^64 and not null, or before began"
        }
        Why::BadKey => "no name",
        Why::BadNumber => "no whole number below 2^64, or not above that of the line before",
        Why::Memory => "out of memory",
    }
}

/// What is said of a line of a log that is followed, behind the program's name.
#[derive(Clone, Copy, Debug, PartialEq, Eq)]
pub enum Warning {
    /// The line is refused.
    Refused(ReadError),
    /// The line came early: it began before what had been settled. That is said of the first early
    /// line, and of each at which their number has doubled.
    Early(CountedLine),
    /// A line of another client that stands above the line is ahead of it, by more than a line may
    /// be behind. That is said of the first such line, and of each at which their number has
    /// doubled.
    Ahead(CountedLine),
}

/// A line that came early, or of which another is ahead.
#[derive(Clone, Copy, Debug, PartialEq, Eq)]
pub struct CountedLine {
    /// Where it stands in the log, counted from 1.
    pub line: u64,
    /// By how much the line is early, or the other line is ahead, in the unit of the log's times.
    pub by: u64,
    /// How many such lines there are, with it.
    pub count: u64,
}

/// Writes what is said of a line behind what was said before.
pub(crate) fn push_warning(out: &mut String, warning: Warning) -> Result<(), AllocError>
    ensures { OnOk result (string_bytes out.new
        ≡ string_bytes out.old ++ warning_line warning) }
{
    match warning {
        Warning::Refused(error) => {
            let refused = LogsRefused::Log(error);
            writeln!(out, "fdb_audit: {refused}")
        }
        Warning::Early(early) => push_early(out, early),
        Warning::Ahead(ahead) => push_ahead(out, ahead),
    }
}

/// Writes what is said of a line that is counted, if their number has doubled with it.
pub(crate) fn push_doubled(
    out: &mut String,
    line: CountedLine,
    warning: Warning,
) -> Result<(), AllocError>
    ensures { OnOk result (string_bytes out.new
        ≡ string_bytes out.old ++ doubled_text line warning) }
{
    if line.by > 0 && line.count.is_power_of_two() {
        push_warning(out, warning)?;
    }
    Ok(())
}

/// Writes that a line came early.
fn push_early(out: &mut String, early: CountedLine) -> Result<(), AllocError>
    ensures { OnOk result (string_bytes out.new
        ≡ string_bytes out.old ++ warning_line (Warning.Early early)) }
{
    push_count(out, "fdb_audit: early line ", early.line, ": it began ")?;
    push_count(out, "", early.by, " before what had been settled; ")?;
    let meaning = " so far: --follow is too small, or a clock is ahead\n";
    push_count(out, "", early.count, meaning)?;
    Ok(())
}

/// Writes that another line is ahead of a line.
fn push_ahead(out: &mut String, ahead: CountedLine) -> Result<(), AllocError>
    ensures { OnOk result (string_bytes out.new
        ≡ string_bytes out.old ++ warning_line (Warning.Ahead ahead)) }
{
    push_count(
        out,
        "fdb_audit: a clock is ahead: above line ",
        ahead.line,
        " a line of another client ended ",
    )?;
    push_count(out, "", ahead.by, " after it; ")?;
    let meaning = " so far: it is not believed\n";
    push_count(out, "", ahead.count, meaning)?;
    Ok(())
}

/// Writes a number between two texts.
fn push_count(out: &mut String, before: &str, number: u64, after: &str) -> Result<(), AllocError>
    ensures { OnOk result (string_bytes out.new
        ≡ string_bytes out.old ++ counted before.now number after.now) }
{
    write!(out, "{before}{number}{after}")
}
