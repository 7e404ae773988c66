//! The program: its command, and what it prints of a script.

ghost use Rattle.std.specs.Prelude.{◌≡◌, ◌≢◌, ◌⊎◌, ◌≤◌, List, [], IfOk, IsOkAnd, MatchResult, None};
ghost use Rattle.std.specs.Prelude.{codes, map, string_bytes};
ghost use Rattle.clap.specs.Words.{Text, app_of};
ghost use Rattle.fdb_client.specs.declared.cluster.TheConstants.{MAX_GRV_PROXIES};
ghost use Rattle.fdb_command.specs.Arguments.{AreMatches, is_set};
ghost use Rattle.fdb_command.specs.Driving.{IsBegun, IsDriven, Stops};
ghost use Rattle.fdb_replay.specs.Program.{command, proxies_named, replay};
ghost use Rattle.fdb_replay.specs.Replay.{Refuses, Replays};

use crate::running::{ReplayFault, ReplayOpts, replayed_text};
use clap::{ArgMatches, Command};
use fdb_command::{
    ArgumentsFault, Failure, Output, Program, file_argument, flag_argument, is_given, new_command,
    number, number_argument,
};
use fdb_history::OpenGate;
use fdb_script::{MAX_SCRIPT_BYTES, ScriptError};
use std::alloc::{AllocError, Global};
use std::convert::Infallible;
use std::fs::{File, Files};
use std::io;
use std::io::{Read, Write};
use std::sync::Wait;
use std::thread::Threads;
use std::time::Clock;
use thiserror::Error;

/// The end of the help: what each status means, and where the formats are told.
const AFTER_HELP: &str = "Exit status:
  0  the replies are written, or help was asked for
  1  the script is refused: NotJson, BadLimit, or BadField with round and command, from 0
  2  the arguments are refused
  3  memory ran out, or a thread could not be started
  5  reading or writing failed

On each status but 0 standard error has a line that says why.
docs/SCRIPT.md has the format of the script, what is written and what each refusal means, and
docs/STATUSES.md how the program ends.";

const PROXIES_HELP: &str = "The number of GRV proxies, from 1 to 16 [default: 1]";

/// A script that is refused, as the fault line prints it.
#[derive(Clone, Copy, Debug, PartialEq, Eq, Error)]
#[error("script refused: {error}")]
pub struct ScriptRefused {
    /// What is wrong with it, which is never want of memory.
    pub error: ScriptError,
}

/// The text of a replay, or the fault with which it stops.
type Made = Result<Output<ScriptRefused, Infallible>, Failure<ScriptRefused, Infallible>>;

/// The program that replays a script, and writes its replies, the audit line and, where it is
/// wanted, the history. It has nothing to write where the script is refused or memory runs out.
#[derive(Clone, Copy, Debug)]
pub struct Replay;

impl Program for Replay {
    ghost use Rattle.std.specs.Prelude.{refl};
    ghost use Rattle.fdb_replay.specs.Program.{replay};

    type Options = ReplayOpts;

    type Intake = Vec<u8>;

    type Refusal = ScriptRefused;

    type Finding = Infallible;

    const NAME: &'static str = "fdb_replay";

    ghost promise = { replay };

    fn most(&self) -> u64 {
        MAX_SCRIPT_BYTES as u64
    }

    fn command<'a>(&self, alloc: Global) -> Result<Command<'a>, AllocError> {
        command(alloc)
    }

    fn options(
        &self,
        _alloc: Global,
        matches: &ArgMatches<'_>,
    ) -> Result<ReplayOpts, ArgumentsFault> {
        Ok(ReplayOpts {
            proxies: proxies_of(matches),
            with_history: wants_history(matches),
        })
    }

    fn begin<R: Files<File = File>>(
        &self,
        _rt: &R,
        alloc: Global,
        _opts: &ReplayOpts,
    ) -> Result<Vec<u8>, Failure<ScriptRefused, Infallible>> {
        Ok(Vec::new(alloc))
    }

    fn take(
        &self,
        mut script: Vec<u8>,
        bytes: &[u8],
    ) -> Result<Vec<u8>, Failure<ScriptRefused, Infallible>> {
        match script.extend_from_slice(bytes) {
            Ok(()) => Ok(script),
            Err(_) => Err(Failure::Memory),
        }
    }

    fn progress(&self, _opts: &ReplayOpts, _script: &Vec<u8>) -> Option<u64> {
        None
    }

    ghost simple = { refl };
}

/// Replays the script of the file that the arguments name or else of the input, and writes the
/// lines to `out`; or writes the help there. Answers the status of the program, as
/// [`fdb_command::drive`] says. It tells nothing while it reads.
pub fn drive<R: Threads + Wait + Sync + Files<File = File> + Clock, I: Read, O: Write, E: Write>(
    rt: &R,
    alloc: Global,
    arguments: io::Result<Vec<String>>,
    input: &mut I,
    out: &mut O,
    err: &mut E,
) -> u8
    ensures driven { IsDriven replay I.remaining O.contents arguments
        input.old input.new out.old out.new err.old err.new result }
    ensures unwritten { (result ≡ 1) ⊎ ((result ≡ 2) ⊎ (result ≡ 3)) → out.new ≡ out.old }
    ensures begun { result ≡ 5 → (out.new ≡ out.old) ⊎ IsOkAnd arguments (λ list.
        IsBegun replay (map string_bytes list.items) (I.remaining input.old)
        (O.contents out.old) (O.contents out.new)) }
{
    let body = move |opts: ReplayOpts, script: Vec<u8>| -> Made
        ensures { (arguments : List Text) → MatchResult result
            (λ answer. (answer.found ≡ None) × (answer.refused ≡ None)
            × (answer.warnings.items ≡ [])
            × Replays script.items opts.with_history answer.text.items)
            (Stops replay arguments script.items) }
    { answer_of(rt, alloc, opts, &script) };
    fdb_command::drive(&Replay, rt, alloc, arguments, input, out, err, body)
}

/// What a replay of a script prints, with no gate at which a thread would wait.
fn answer_of<R: Threads + Wait + Sync>(
    rt: &R,
    alloc: Global,
    opts: ReplayOpts,
    script: &[u8],
) -> Made
    ensures { (arguments : List Text) → MatchResult result
        (λ answer. (answer.found ≡ None) × (answer.refused ≡ None)
        × (answer.warnings.items ≡ [])
        × Replays script.now opts.with_history answer.text.items)
        (Stops replay arguments script.now) }
{
    match replayed_text(rt, alloc, script, opts, &OpenGate) {
        Ok(text) => Ok(Output {
            text,
            warnings: Vec::new(alloc),
            found: None,
            refused: None,
        }),
        Err(fault) => Err(fault_of(fault)),
    }
}

/// The command that clap is given: a file, `--proxies` and `--history`.
fn command<'a>(alloc: Global) -> Result<Command<'a>, AllocError>
    ensures { IfOk result (λ made. app_of made ≡ command) }
{
    new_command(
        alloc,
        "fdb_replay",
        "Replays a script of clients, and writes what each of them was answered",
        AFTER_HELP,
    )
    .arg(file_argument(
        alloc,
        "SCRIPT",
        "The file with the script; without it standard input is read",
    ))?
    .arg(number_argument(alloc, "proxies", 1, 16, "N", PROXIES_HELP))?
    .arg(flag_argument(
        alloc,
        "history",
        "Write also the one history that explains all replies",
    ))
}

/// The number of GRV proxies that is asked for, 1 to 16.
fn proxies_of(matches: &ArgMatches) -> u32
    requires { (arguments : List Text) × AreMatches command arguments matches.now }
    ensures named { (arguments : List Text) → AreMatches command arguments matches.now
        → result ≡ proxies_named arguments }
    ensures some_proxy { 1 ≤ result }
    ensures few_proxies { result ≤ MAX_GRV_PROXIES }
{
    number(matches, "proxies").unwrap_or(1) as u32
}

fn wants_history(matches: &ArgMatches) -> bool
    ensures { (arguments : List Text) → AreMatches command arguments matches.now
        → result ≡ is_set (codes "history") command arguments }
{
    is_given(matches, "history")
}

/// The fault that a replay with no text ends with.
fn fault_of(cause: ReplayFault) -> Failure<ScriptRefused, Infallible>
    ensures stops { (arguments : List Text) (bytes : List _) → Refuses bytes cause
        → cause ≢ ReplayFault.Write → Stops replay arguments bytes result }
    ensures memory { result ≡ Failure.Memory → (cause ≡ ReplayFault.Script ScriptError.Memory)
        ⊎ (cause ≡ ReplayFault.Memory) }
{
    match cause {
        ReplayFault::Script(ScriptError::Memory) | ReplayFault::Memory => Failure::Memory,
        ReplayFault::Script(error) => Failure::Refused(ScriptRefused { error }),
        ReplayFault::Write => Failure::Writing,
    }
}
