//! The command, and what its arguments say.

ghost use Rattle.std.specs.Prelude.{◌≡◌, ◌≤◌, false, IfOk, IfSome, List, option_map};
ghost use Rattle.clap.specs.Words.{Text, app_of, rule_of};
ghost use Rattle.fdb_audit.specs.Program.{text_rule};
ghost use Rattle.fdb_command.specs.Arguments.{AreMatches};
ghost use Rattle.fdb_split.specs.Program.{command, first_named, parts_named, text_named};

use clap::{Arg, ArgMatches, Command};
use fdb_command::{file_argument, flag_argument, new_command, number, number_argument};
use fdb_log_reader::written;
use std::alloc::{AllocError, Global};

/// The most parts that a log may be cut into.
pub(crate) const MAX_PARTS: i64 = 1024;

/// What the help ends with: the statuses, and where the parts of a log are told.
const AFTER_HELP: &str = "--split, --into and --key have to be given.

Exit status:
  0  the log is cut into parts, or help was asked for
  1  the log is refused, or a line of it, and no part is left
  2  the arguments are refused
  3  memory ran out
  5  reading or writing failed; writing fails where DIR has parts already

docs/LOG.md says what a part is (where the package is installed, man fdb_audit_log has it), and
fdb_audit --help has the other arguments of the program.";

const SPLIT_HELP: &str = "The number of parts, from 1 to 1024";

const INTO_HELP: &str =
    "The folder for the parts, 0000.jsonl and so on; made if need be, it must not have parts";

const KEY_HELP: &str = "The member that names a line's key; all lines of a key come into one part";

const FIRST_HELP: &str =
    "Where the log is a block of a larger one, how many lines stand above it [default: 0]";

/// How many parts there are to be.
pub(crate) fn parts_of(matches: &ArgMatches<'_>) -> Option<u64>
    ensures named { (arguments : List Text) → AreMatches command arguments matches.now
        → parts_named arguments ≡ result }
    ensures some { (arguments : List Text) → AreMatches command arguments matches.now
        → IfSome result (λ parts. 1 ≤ parts) }
    ensures few { (arguments : List Text) → AreMatches command arguments matches.now
        → IfSome result (λ parts. parts ≤ 1024) }
{
    number(matches, "split")
}

/// The text that an argument gives; none where it is not given.
pub(crate) fn text<'a>(matches: &ArgMatches<'a>, argument: &str) -> Option<&'a str>
    ensures { (arguments : List Text) → AreMatches command arguments matches.now
        → option_map (λ text. text.now) result ≡ text_named argument.now arguments }
{
    matches.get_str(argument)
}

/// How many lines are above; none where that is no number.
pub(crate) fn first_of(matches: &ArgMatches<'_>) -> Option<u64>
    ensures { (arguments : List Text) → AreMatches command arguments matches.now
        → first_named arguments ≡ result }
{
    match text(matches, "first") {
        Some(text) => written(text),
        None => Some(0),
    }
}

/// An argument that gives a text, by its name.
fn text_argument<'a>(alloc: Global, name: &'a str, value_name: &'a str, help: &'a str) -> Arg<'a>
    ensures rule { rule_of result ≡ text_rule name.now }
    ensures own { result.global ≡ false }
{
    Arg::new(alloc, name)
        .long(name)
        .value_name(value_name)
        .help(help)
}

/// The command that clap is given.
pub(crate) fn command<'a>(alloc: Global) -> Result<Command<'a>, AllocError>
    ensures { IfOk result (λ made. app_of made ≡ command) }
{
    new_command(
        alloc,
        "fdb_audit",
        "Cuts a log of read versions and commit versions into parts by key",
        AFTER_HELP,
    )
    .arg(file_argument(
        alloc,
        "LOGS",
        "The file with the log, as JSON Lines; without it standard input is read",
    ))?
    .arg(number_argument(alloc, "split", 1, MAX_PARTS, "P", SPLIT_HELP))?
    .arg(text_argument(alloc, "into", "DIR", INTO_HELP))?
    .arg(text_argument(alloc, "key", "MEMBER", KEY_HELP))?
    .arg(text_argument(alloc, "first", "N", FIRST_HELP))?
    .arg(flag_argument(
        alloc,
        "progress",
        "Say on standard error how far the log has been read",
    ))
}
