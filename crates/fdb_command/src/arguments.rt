//! The arguments of a command line, and what is to be done where clap takes none.

ghost use Rattle.std.specs.Prelude.{◌≡◌, ◌≢◌, ◌⊎◌, ◌<◌, ◌^◌, ℕ, false, [], List, Ok, Err, OnOk};
ghost use Rattle.std.specs.Prelude.{IfErr, IfOk, map, option_map, pos, string_bytes, true};
ghost use Rattle.clap.specs.Faults.{is_simple_and_free};
ghost use Rattle.clap.specs.Words.{Text, app_of, kind_of, matches_of, one_of, rule_of, App};
ghost use Rattle.fdb_command.specs.Arguments.{AreMatches, AreWrong, HasArgument};
ghost use Rattle.fdb_command.specs.Arguments.{IsNumber, command_of, file_named, file_rule};
ghost use Rattle.fdb_command.specs.Arguments.{flag_rule, is_set, number_rule};
ghost use Rattle.fdb_command.specs.Arguments.{versioned_command_of};
ghost use Rattle.fdb_command.specs.private.Asked.{Ask};

use clap::builder::ValueParser;
use clap::error::ErrorKind;
use clap::{Arg, ArgAction, ArgMatches, Command, Error, value_parser};
use std::alloc::{AllocError, Global};
use std::env::Env;
use std::{env, io};

/// Why what the arguments of a command line ask for cannot be done.
#[derive(Clone, Copy, Debug, PartialEq, Eq)]
pub enum ArgumentsFault {
    /// The arguments are refused, or could not be had: the program ends with status 2.
    Refused,
    /// Memory was refused: the program ends with status 3.
    Memory,
}

impl From<AllocError> for ArgumentsFault {
    ghost use Rattle.std.specs.Prelude.{◌≡◌};
    ghost use Rattle.fdb_command.specs.declared.arguments.ArgumentsFault.TheVariants as fault;

    ghost from_gives = { λ _ made. made ≡ fault.Memory };

    fn from(_refused: AllocError) -> Self {
        ArgumentsFault::Memory
    }
}

impl From<io::Error> for ArgumentsFault {
    ghost use Rattle.std.specs.Prelude.{◌≡◌, ◌≢◌};
    ghost use Rattle.std.specs.IoError.{error_kind};
    ghost use Rattle.std.specs.declared.io.ErrorKind.TheVariants.{OutOfMemory};
    ghost use Rattle.fdb_command.specs.declared.arguments.ArgumentsFault.TheVariants as fault;

    ghost from_gives = { λ error made. (error_kind error ≡ OutOfMemory → made ≡ fault.Memory)
        × (error_kind error ≢ OutOfMemory → made ≡ fault.Refused) };

    fn from(error: io::Error) -> Self {
        match error.kind() {
            io::ErrorKind::OutOfMemory => ArgumentsFault::Memory,
            _ => ArgumentsFault::Refused,
        }
    }
}

/// What the arguments of a command line ask for.
#[derive(Drop)]
pub(crate) enum Invocation<'a> {
    /// An input, by these matches of the arguments.
    Input(ArgMatches<'a>),
    /// The help or the version, which is this error's text.
    Help(Error),
}

/// The arguments of the command line behind the program's own name. Arguments
/// that are not UTF-8 are an error, and so is memory that runs out.
pub fn command_line<R: Env + Alloc<A = Global>>(rt: &R) -> io::Result<Vec<String>> {
    Ok(env::args(rt)?.skip(1).collect(rt.alloc())?)
}

/// The command of a program, with no argument yet.
pub fn new_command<'a>(
    alloc: Global,
    name: &'a str,
    about: &'a str,
    after_help: &'a str,
) -> Command<'a>
    ensures { app_of result ≡ command_of name.now [] }
{
    Command::new(alloc, name)
        .about(about)
        .after_help(after_help)
        .no_binary_name(true)
}

/// The command of a program that says its version where `--version` or `-V` asks for it, with no
/// argument yet.
pub fn new_versioned_command<'a>(
    alloc: Global,
    name: &'a str,
    version: &'a str,
    about: &'a str,
    after_help: &'a str,
) -> Command<'a>
    ensures { app_of result ≡ versioned_command_of name.now [] }
{
    new_command(alloc, name, about, after_help).version(version)
}

/// The argument, called `file`, that names the file with the input. Where it is left out, standard
/// input is read.
pub fn file_argument<'a>(alloc: Global, value_name: &'a str, help: &'a str) -> Arg<'a>
    ensures rule { rule_of result ≡ file_rule }
    ensures own { result.global ≡ false }
{
    Arg::new(alloc, "file").value_name(value_name).help(help)
}

/// A flag, by its name. Its parser is written out, so that the contract knows its values.
pub fn flag_argument<'a>(alloc: Global, name: &'a str, help: &'a str) -> Arg<'a>
    ensures rule { rule_of result ≡ flag_rule name.now }
    ensures own { result.global ≡ false }
{
    Arg::new(alloc, name)
        .long(name)
        .action(ArgAction::SetTrue)
        .value_parser(value_parser!(bool))
        .help(help)
}

/// An argument that gives a number of a range, by its name.
pub fn number_argument<'a>(
    alloc: Global,
    name: &'a str,
    low: i64,
    high: i64,
    value_name: &'a str,
    help: &'a str,
) -> Arg<'a>
    ensures rule { rule_of result ≡ number_rule name.now low high }
    ensures own { result.global ≡ false }
{
    Arg::new(alloc, name)
        .long(name)
        .value_name(value_name)
        .value_parser(ValueParser::signed(low, high))
        .help(help)
}

/// What the arguments ask for, the program's own name left out.
pub(crate) fn parse<'a>(
    command: Command<'a>,
    arguments: &'a [String],
) -> Result<Invocation<'a>, ArgumentsFault>
    requires { is_simple_and_free (app_of command) ≡ true }
    ensures ok { IfOk result (Ask (app_of command.entry) (map string_bytes arguments.entry.now)) }
    ensures err { IfErr result (λ fault. fault ≡ ArgumentsFault.Refused
        → AreWrong (app_of command.entry) (map string_bytes arguments.entry.now)) }
{
    match command.try_get_matches_from(arguments) {
        Ok(matches) => Ok(Invocation::Input(matches)),
        Err(error) => match help_of(error) {
            Ok(help) => Ok(Invocation::Help(help)),
            Err(fault) => Err(fault),
        },
    }
}

/// The file that the arguments name; none where standard input is to be read.
pub(crate) fn file_of<'a>(matches: &ArgMatches<'a>) -> Option<&'a str>
    ensures { (app : App) (arguments : List Text) → AreMatches app arguments matches.now
        → option_map (λ path. path.now) result ≡ file_named app arguments }
{
    matches.get_str("file")
}

/// Whether a flag is given, by the matches of a command that has it.
pub fn is_given(matches: &ArgMatches, flag: &str) -> bool
    ensures { (app : App) (arguments : List Text) → AreMatches app arguments matches.now
        → HasArgument app (flag_rule flag.now) → result ≡ is_set flag.now app arguments }
{
    matches.get_flag(flag)
}

/// The number that an argument gives, by the matches of a command that takes it in a range; none
/// where it is not given.
pub fn number(matches: &ArgMatches, argument: &str) -> Option<u64>
    ensures { (app : App) (arguments : List Text) → AreMatches app arguments matches.now
        → (low high : ℕ) → high < 2 ^ 64
        → HasArgument app (number_rule argument.now (pos low) (pos high))
        → IsNumber low high (one_of argument.now (matches_of app arguments)) result }
{
    matches.get_one(argument)
}

/// The help or the version, which is the text of an error of clap's where that was asked for; else
/// that memory was refused, or that the arguments are.
pub(crate) fn help_of(error: Error) -> Result<Error, ArgumentsFault>
    ensures help { kind_of error ≡ ErrorKind.DisplayHelp → result ≡ Ok error }
    ensures version { kind_of error ≡ ErrorKind.DisplayVersion → result ≡ Ok error }
    ensures memory { kind_of error ≡ ErrorKind.OutOfMemory → result ≡ Err ArgumentsFault.Memory }
    ensures refused { kind_of error ≢ ErrorKind.DisplayHelp → kind_of error ≢ ErrorKind.DisplayVersion
        → kind_of error ≢ ErrorKind.OutOfMemory → result ≡ Err ArgumentsFault.Refused }
    ensures asked { OnOk result ((kind_of error ≡ ErrorKind.DisplayHelp)
        ⊎ (kind_of error ≡ ErrorKind.DisplayVersion)) }
    ensures wrong { IfErr result (λ fault. fault ≡ ArgumentsFault.Refused
        → (kind_of error ≢ ErrorKind.DisplayHelp) × ((kind_of error ≢ ErrorKind.DisplayVersion)
        × (kind_of error ≢ ErrorKind.OutOfMemory))) }
{
    match error.kind() {
        ErrorKind::DisplayHelp | ErrorKind::DisplayVersion => Ok(error),
        ErrorKind::OutOfMemory => Err(ArgumentsFault::Memory),
        _ => Err(ArgumentsFault::Refused),
    }
}
