//! The program that cuts a log into parts.

ghost use Rattle.std.specs.Prelude.{◌≡◌, ◌≢◌, ◌⊎◌, ℕ, [], IfErr, List, MatchResult, None};
ghost use Rattle.clap.specs.Words.{Text};
ghost use Rattle.fdb_command.specs.Driving.{IsDriven, Stops};
ghost use Rattle.fdb_split.specs.Program.{split, HasCut, AskFor, Prints};
ghost use Rattle.fdb_split.specs.private.{HasReleased};

use crate::arguments::{command, first_of, parts_of, text};
use crate::counts_text::object_text;
use crate::split_arguments::SplitArguments;
use crate::splitting::{PartFiles, Splitting, Stop, unwritten};
use clap::{ArgMatches, Command};
use fdb_audit::LogsRefused;
use fdb_command::{ArgumentsFault, Failure, Output, Program, is_given};
use fdb_log_reader::{ReadError, Splitter, Why};
use std::alloc::{AllocError, Global};
use std::cell::OnceCell;
use std::convert::Infallible;
use std::fs::{File, Files};
use std::io::{self, Read, Write};
use std::time::Clock;

/// The most bytes of a log.
pub const MAX_SPLIT_BYTES: u64 = 9_223_372_036_854_775_807;

/// The program that cuts a log into parts, which are files, and says how many lines each has.
#[derive(Drop)]
pub struct Split {
    /// Where the parts are written, once it has begun.
    files: OnceCell<PartFiles>,
}

impl Split {
    fn new() -> Self {
        Split {
            files: OnceCell::new(),
        }
    }

    /// Writes what is left of the parts, and gives them their names.
    fn finish<R: Files>(&self, rt: &R, cut: &mut Splitting) -> Result<(), Stop>
        ensures released { HasReleased cut.old.splitter cut.new.splitter }
        ensures stops { IfErr result (λ fault. (fault ≡ Failure.Memory) ⊎ (fault ≡ Failure.Writing)) }
    {
        match self.files.get() {
            Some(files) => cut.finish(rt, files),
            None => Ok(()),
        }
    }

    /// Leaves no part, where the program ends otherwise than with 0.
    fn clean<R: Files>(&self, rt: &R) {
        if let Some(files) = self.files.get() {
            files.remove(rt);
        }
    }
}

impl Program for Split {
    ghost use Rattle.std.specs.Prelude.{refl};
    ghost use Rattle.fdb_split.specs.Program.{split};

    type Options = SplitArguments;

    type Intake = Splitting;

    type Refusal = LogsRefused;

    type Finding = Infallible;

    const NAME: &'static str = "fdb_audit";

    ghost promise = { split };

    fn most(&self) -> u64 {
        MAX_SPLIT_BYTES
    }

    fn command<'a>(&self, alloc: Global) -> Result<Command<'a>, AllocError> {
        command(alloc)
    }

    fn options(
        &self,
        alloc: Global,
        matches: &ArgMatches<'_>,
    ) -> Result<SplitArguments, ArgumentsFault> {
        let Some(parts) = parts_of(matches) else {
            return Err(ArgumentsFault::Refused);
        };
        let Some(into) = text(matches, "into") else {
            return Err(ArgumentsFault::Refused);
        };
        let Some(key) = text(matches, "key") else {
            return Err(ArgumentsFault::Refused);
        };
        let Some(first) = first_of(matches) else {
            return Err(ArgumentsFault::Refused);
        };
        Ok(SplitArguments {
            parts,
            into: String::from_str(alloc, into)?,
            key: String::from_str(alloc, key)?,
            first,
            progress: is_given(matches, "progress"),
        })
    }

    fn begin<R: Files<File = File>>(
        &self,
        rt: &R,
        alloc: Global,
        asked: &SplitArguments,
    ) -> Result<Splitting, Stop> {
        let splitter = Splitter::new(alloc, &asked.key, asked.parts as usize, asked.first)?;
        match PartFiles::begin(rt, alloc, &asked.into) {
            Ok(files) => {
                let _ = self.files.set(files);
                Ok(Splitting { splitter })
            }
            Err(error) => Err(unwritten(error)),
        }
    }

    fn take(&self, cut: Splitting, bytes: &[u8]) -> Result<Splitting, Stop> {
        let Splitting { splitter } = cut;
        match splitter.feed(bytes) {
            Ok(splitter) => Ok(Splitting { splitter }),
            Err(error) => Err(refusal(error)),
        }
    }

    fn keep<R: Files + Clock>(
        &self,
        rt: &R,
        _alloc: Global,
        _asked: &SplitArguments,
        mut cut: Splitting,
    ) -> Result<Splitting, Stop> {
        if let Some(files) = self.files.get() {
            cut.write_long(rt, files)?;
        }
        Ok(cut)
    }

    fn progress(&self, asked: &SplitArguments, cut: &Splitting) -> Option<u64> {
        if asked.progress {
            Some(cut.splitter.above().count)
        } else {
            None
        }
    }

    ghost simple = { refl };
}

/// Cuts the log of the file that the arguments name or else of the input into parts, and says on
/// `out` how many lines each has; or writes the help there. Answers the status of the program, as
/// [`fdb_command::drive`] says. Where that is not 0, no part of this log is left; parts that the
/// folder had before stay.
pub fn drive<R: Files<File = File> + Clock, I: Read, O: Write, E: Write>(
    rt: &R,
    alloc: Global,
    arguments: io::Result<Vec<String>>,
    input: &mut I,
    out: &mut O,
    err: &mut E,
) -> u8
    ensures driven { IsDriven split I.remaining O.contents arguments
        input.old input.new out.old out.new err.old err.new result }
{
    let program = Split::new();
    let status = driven(&program, rt, alloc, arguments, input, out, err);
    if status != 0 {
        program.clean(rt);
    }
    status
}

/// Does that, but leaves what has come to parts.
fn driven<R: Files<File = File> + Clock, I: Read, O: Write, E: Write>(
    program: &Split,
    rt: &R,
    alloc: Global,
    arguments: io::Result<Vec<String>>,
    input: &mut I,
    out: &mut O,
    err: &mut E,
) -> u8
    ensures { IsDriven split I.remaining O.contents arguments
        input.old input.new out.old out.new err.old err.new result }
{
    let body = move |asked: SplitArguments, cut: Splitting| -> Result<
        Output<LogsRefused, Infallible>,
        Stop,
    >
        ensures { (arguments : List Text) → (bytes : List ℕ) → AskFor arguments asked
            → HasCut asked cut.splitter bytes → MatchResult result
            (λ answer. Prints asked bytes answer.text.items × (answer.found ≡ None)
            × (answer.refused ≡ None) × (answer.warnings.items ≡ []))
            (Stops split arguments bytes) }
    { finished(program, rt, alloc, &asked, cut) };
    fdb_command::drive(program, rt, alloc, arguments, input, out, err, body)
}

/// Reads the last line, writes what is left of the parts, gives them their names, and says how many
/// lines each has.
fn finished<R: Files>(
    program: &Split,
    rt: &R,
    alloc: Global,
    asked: &SplitArguments,
    cut: Splitting,
) -> Result<Output<LogsRefused, Infallible>, Stop>
    ensures { (arguments : List Text) → (bytes : List ℕ) → AskFor arguments asked.now
        → HasCut asked.now cut.splitter bytes → MatchResult result
        (λ answer. Prints asked.now bytes answer.text.items × (answer.found ≡ None)
        × (answer.refused ≡ None) × (answer.warnings.items ≡ []))
        (Stops split arguments bytes) }
{
    let Splitting { splitter } = cut;
    let mut cut = match splitter.finish() {
        Ok(splitter) => Splitting { splitter },
        Err(error) => return Err(refusal(error)),
    };
    program.finish(rt, &mut cut)?;
    let text = object_text(alloc, &cut.splitter)?;
    Ok(Output {
        text: text.into_bytes(),
        warnings: Vec::new(alloc),
        found: None,
        refused: None,
    })
}

/// The fault that the program ends with whose log is refused.
fn refusal(error: ReadError) -> Stop
    ensures memory { error.why ≡ Why.Memory → result ≡ Failure.Memory }
    ensures refused { error.why ≢ Why.Memory → result ≡ Failure.Refused (LogsRefused.Log error) }
{
    match error.why {
        Why::Memory => Failure::Memory,
        _ => Failure::Refused(LogsRefused::Log(error)),
    }
}
