//! The program: its command, and what it prints of a log.

ghost use Rattle.std.specs.Prelude.{◌≡◌, ◌≢◌, ◌++◌, ℕ, [], IfErr, IfOk, List, MatchResult, ◌⊎◌};
ghost use Rattle.std.specs.Prelude.{is_some, map, not, option_map, string_bytes, IsOkAnd, None};
ghost use Rattle.std.specs.Prelude.{Option};
ghost use Rattle.std.specs.Thread.{IsSync};
ghost use Rattle.clap.specs.Words.{Text};
ghost use Rattle.fdb_log_reader.specs.declared.error.ReadError.{ReadError};
ghost use Rattle.fdb_command.specs.Arguments.{AreMatches};
ghost use Rattle.fdb_command.specs.Driving.{IsBegun, IsDriven, Stops};
ghost use Rattle.fdb_audit.specs.Program.{audit, command, HasRead, HasTaken, AskFor, IsWhole};
ghost use Rattle.fdb_audit.specs.Program.{Prints, PrintsBy, refusal_of};
ghost use Rattle.fdb_audit.specs.Following.{Start};
ghost use Rattle.fdb_audit.specs.private.Kept.{MayFail};
ghost use Rattle.fdb_audit.specs.Progress.{HasPrinted, IsPrinted};

use crate::arguments::{AuditArguments, command, member_names, owned, text, wanted_of};
use crate::followed_log::FollowedLog;
use crate::judgement::{Judgement, judge_named_in_threads, own_numbers};
use crate::printer::{LogFault, told};
use crate::refusal::LogsRefused;
use crate::teller::{Followed, Said};
use clap::{ArgMatches, Command};
use fdb_command::{ArgumentsFault, Failure, Output, Program, Told, is_given, number};
use fdb_lines::AuditOpts;
use fdb_log_reader::{LogReader, ReadError, Why};
use std::alloc::{AllocError, Global};
use std::fs::{File, Files};
use std::io::{self, Read, Write};
use std::thread::Threads;
use std::time::Clock;

/// The most bytes of a log: as many lines as it may have, each as long as it may be.
pub const MAX_LOG_BYTES: u64 = 4_503_603_921_289_215;

/// The program that audits a log, and prints what it finds. It keeps the calls of a log and not its
/// text.
#[derive(Clone, Copy, Debug)]
pub struct Audit;

impl Program for Audit {
    ghost use Rattle.std.specs.Prelude.{refl};
    ghost use Rattle.fdb_audit.specs.Program.{audit};

    type Options = AuditArguments;

    type Intake = AuditIntake;

    type Refusal = LogsRefused;

    type Finding = LogFault;

    const NAME: &'static str = "fdb_audit";

    ghost promise = { audit };

    fn most(&self) -> u64 {
        MAX_LOG_BYTES
    }

    fn command<'a>(&self, alloc: Global) -> Result<Command<'a>, AllocError> {
        command(alloc)
    }

    fn options(
        &self,
        alloc: Global,
        matches: &ArgMatches<'_>,
    ) -> Result<AuditArguments, ArgumentsFault> {
        if !suits(matches) {
            return Err(ArgumentsFault::Refused);
        }
        Ok(AuditArguments {
            opts: AuditOpts {
                complete: number(matches, "complete"),
                margin: number(matches, "margin").unwrap_or(0),
            },
            follow: number(matches, "follow"),
            forget: number(matches, "forget"),
            wanted: wanted_of(matches),
            keep: owned(alloc, text(matches, "keep"))?,
            position: owned(alloc, text(matches, "position"))?,
            key: owned(alloc, text(matches, "key"))?,
            shown: member_names(alloc, text(matches, "show"))?,
            numbers: owned(alloc, text(matches, "numbers"))?,
            progress: is_given(matches, "progress"),
        })
    }

    fn begin<R: Files<File = File>>(
        &self,
        rt: &R,
        alloc: Global,
        asked: &AuditArguments,
    ) -> Result<AuditIntake, Failure<LogsRefused, LogFault>> {
        match asked.follow {
            Some(behind) => {
                let log = FollowedLog::begin(rt, alloc, asked, behind)?;
                Ok(AuditIntake::Followed(log))
            }
            None => {
                let (key, numbers) = (asked.key.as_deref(), asked.numbers.as_deref());
                let reader = LogReader::with_columns(alloc, key, &asked.shown, numbers)?;
                Ok(AuditIntake::Whole(reader))
            }
        }
    }

    fn take(
        &self,
        intake: AuditIntake,
        bytes: &[u8],
    ) -> Result<AuditIntake, Failure<LogsRefused, LogFault>> {
        match intake {
            AuditIntake::Whole(reader) => match reader.feed(bytes) {
                Ok(reader) => Ok(AuditIntake::Whole(reader)),
                Err(error) => Err(refusal(error)),
            },
            AuditIntake::Followed(mut log) => {
                log.feed(bytes)?;
                Ok(AuditIntake::Followed(log))
            }
        }
    }

    fn tell<R: Files + Clock>(
        &self,
        rt: &R,
        alloc: Global,
        asked: &AuditArguments,
        intake: AuditIntake,
        is_idle: bool,
    ) -> Result<Told<AuditIntake>, Failure<LogsRefused, LogFault>> {
        match intake {
            AuditIntake::Followed(log) if asked.follow.is_some() => tell_of(rt, log, is_idle),
            intake => Ok(Told {
                intake,
                text: Vec::new(alloc),
                warnings: Vec::new(alloc),
            }),
        }
    }

    fn keep<R: Files + Clock>(
        &self,
        rt: &R,
        _alloc: Global,
        asked: &AuditArguments,
        intake: AuditIntake,
    ) -> Result<AuditIntake, Failure<LogsRefused, LogFault>> {
        match intake {
            AuditIntake::Followed(log) => {
                let next = log.keep(rt, asked.keep.as_deref())?;
                Ok(AuditIntake::Followed(next))
            }
            intake => Ok(intake),
        }
    }

    fn progress(&self, asked: &AuditArguments, intake: &AuditIntake) -> Option<u64> {
        if asked.progress {
            Some(intake.line_count())
        } else {
            None
        }
    }

    ghost simple = { refl };
}

/// What is kept of a log: its calls, or of one that is followed those that may yet come to matter.
#[derive(Drop)]
pub enum AuditIntake {
    Whole(LogReader),
    Followed(FollowedLog),
}

impl AuditIntake {
    /// How many lines have been read and were not refused.
    fn line_count(&self) -> u64 {
        match self {
            AuditIntake::Whole(reader) => reader.line_count() as u64,
            AuditIntake::Followed(log) => log.line_count(),
        }
    }
}

/// Whether the arguments suit: not where a log is to be followed and what needs all of it is asked
/// for; or is not to be followed, and lines of it are to be kept; or none are, and where the last one
/// stands is; or lines have their own numbers where it is followed, or an order is to be told; or keys
/// are to be forgotten where it is not followed, or not by key.
fn suits(matches: &ArgMatches<'_>) -> bool
    ensures { (arguments : List Text) → AreMatches command arguments matches.now
        → result ≡ audit.suits arguments }
{
    let follows = number(matches, "follow").is_some();
    let completes = number(matches, "complete").is_some();
    let forgets = number(matches, "forget").is_some();
    let keeps = text(matches, "keep").is_some();
    let places = text(matches, "position").is_some();
    let has_keys = text(matches, "key").is_some();
    let has_numbers = text(matches, "numbers").is_some();
    let history = is_given(matches, "history");
    let needs_all = follows && (completes || history);
    let keeps_none = keeps && !follows;
    let has_no_place = places && !keeps;
    let has_no_number = has_numbers && (follows || history);
    let has_no_keys = forgets && !(follows && has_keys);
    !(needs_all || (keeps_none || (has_no_place || (has_no_number || has_no_keys))))
}

/// Tells what has become certain of a log that is followed.
fn tell_of<R: Clock>(
    rt: &R,
    mut log: FollowedLog,
    is_idle: bool,
) -> Result<Told<AuditIntake>, Failure<LogsRefused, LogFault>>
    ensures told { IfOk result (λ it. (asked : AuditArguments) → (bytes told : List ℕ)
        → HasTaken asked (AuditIntake.Followed log) bytes told
        → HasTaken asked it.intake bytes (told ++ it.text.items)) }
    ensures stops { IfErr result (λ fault. fault ≡ Failure.Memory) }
{
    let Said { text, warnings } = log.tell(rt, is_idle)?;
    Ok(Told {
        intake: AuditIntake::Followed(log),
        text: text.into_bytes(),
        warnings: warnings.into_bytes(),
    })
}

/// What is left to be said of a log that was followed, or, where its lines are to be kept, is followed
/// on later.
fn followed<R: Files>(
    rt: &R,
    asked: &AuditArguments,
    log: FollowedLog,
) -> Result<Output<LogsRefused, LogFault>, Failure<LogsRefused, LogFault>>
    ensures told { IfOk result (λ it. (start : Start) → (bytes told : List ℕ)
        → HasPrinted asked.now start log bytes told → (error : Option ReadError)
        × (last_early : Option ℕ) × IsPrinted asked.now start (not (is_some asked.now.keep)) bytes
        (told ++ it.text.items) it.found error last_early
        × (it.refused ≡ refusal_of error last_early)) }
    ensures stops { IfErr result (MayFail (option_map string_bytes asked.now.keep)) }
{
    match asked.keep.as_deref() {
        Some(file) => {
            let it = log.stop(rt, file)?;
            Ok(answered(it))
        }
        None => {
            let it = log.finish()?;
            Ok(answered(it))
        }
    }
}

/// What is left to be said as an answer.
fn answered(it: Followed) -> Output<LogsRefused, LogFault>
    ensures text { result.text.items ≡ string_bytes it.said.text }
    ensures found { result.found ≡ it.found }
    ensures refused { result.refused ≡ refusal_of it.refused it.last_early }
{
    let early = it.last_early.map(LogsRefused::Early);
    Output {
        text: it.said.text.into_bytes(),
        warnings: it.said.warnings.into_bytes(),
        found: it.found,
        refused: it.refused.map(LogsRefused::Log).or(early),
    }
}

/// What is found of a log of which all has been read.
fn judged<R: Threads + Sync>(
    rt: &R,
    alloc: Global,
    asked: &AuditArguments,
    reader: LogReader,
) -> Result<Output<LogsRefused, LogFault>, Failure<LogsRefused, LogFault>>
    requires { IsSync R.row }
    ensures { (arguments : List Text) → (bytes : List ℕ) → AskFor arguments asked.now
        → asked.now.follow ≡ None → HasRead asked.now reader bytes → MatchResult result
        (λ answer. Prints asked.now bytes answer.text.items answer.found
        × (answer.refused ≡ None) × (answer.warnings.items ≡ []))
        (Stops audit arguments bytes) }
{
    let named = match reader.finish() {
        Ok(named) => named,
        Err(error) => return Err(refusal(error)),
    };
    match judge_named_in_threads(rt, alloc, &named, &asked.opts, asked.wanted) {
        Ok(Judgement { fault, text }) => Ok(Output {
            text: text.into_bytes(),
            warnings: Vec::new(alloc),
            found: told(own_numbers(&named), fault),
            refused: None,
        }),
        Err(_) => Err(Failure::Memory),
    }
}

/// Audits the log of the file that the arguments name or else of the input, and writes what is
/// found to `out`; or writes the help there. Answers the status of the program, as
/// [`fdb_command::drive`] says. Unless the log is followed, nothing is written where it is refused.
pub fn drive<R: Files<File = File> + Clock + Threads + Sync, I: Read, O: Write, E: Write>(
    rt: &R,
    alloc: Global,
    arguments: io::Result<Vec<String>>,
    input: &mut I,
    out: &mut O,
    err: &mut E,
) -> u8
    ensures driven { IsDriven audit I.remaining O.contents arguments
        input.old input.new out.old out.new err.old err.new result }
    ensures unwritten { IfOk arguments (λ list. IsWhole (map string_bytes list.items))
        → (result ≡ 1) ⊎ ((result ≡ 2) ⊎ (result ≡ 3)) → out.new ≡ out.old }
    ensures begun { IfOk arguments (λ list. IsWhole (map string_bytes list.items))
        → result ≡ 5 → (out.new ≡ out.old) ⊎ IsOkAnd arguments (λ list.
        IsBegun audit (map string_bytes list.items) (I.remaining input.old)
        (O.contents out.old) (O.contents out.new)) }
{
    let body = move |asked: AuditArguments, intake: AuditIntake| -> Result<
        Output<LogsRefused, LogFault>,
        Failure<LogsRefused, LogFault>,
    >
        requires { IsSync R.row }
        ensures { (arguments : List Text) → (bytes told : List ℕ) → AskFor arguments asked
            → HasTaken asked intake bytes told → MatchResult result
            (λ answer. PrintsBy asked.follow asked bytes (told ++ answer.text.items) answer.found
            answer.refused × (asked.follow ≡ None → answer.warnings.items ≡ []))
            (Stops audit arguments bytes) }
    {
        match intake {
            AuditIntake::Whole(reader) => judged(rt, alloc, &asked, reader),
            AuditIntake::Followed(log) => followed(rt, &asked, log),
        }
    };
    fdb_command::drive(&Audit, rt, alloc, arguments, input, out, err, body)
}

/// The fault that a program ends with whose log is refused.
fn refusal(error: ReadError) -> Failure<LogsRefused, LogFault>
    ensures memory { error.why ≡ Why.Memory → result ≡ Failure.Memory }
    ensures refused { error.why ≢ Why.Memory → result ≡ Failure.Refused (LogsRefused.Log error) }
{
    match error.why {
        Why::Memory => Failure::Memory,
        _ => Failure::Refused(LogsRefused::Log(error)),
    }
}
