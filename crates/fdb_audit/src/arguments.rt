//! The command, what its arguments say, and by which arguments lines are kept, as the first of them
//! says.

ghost use Rattle.std.specs.Prelude.{◌≡◌, ◌&&◌, ◌||◌, false, not, IfOk, List, option_map, map};
ghost use Rattle.std.specs.Prelude.{string_bytes};
ghost use Rattle.std.specs.List.{slice_split};
ghost use Rattle.clap.specs.Words.{Text, app_of, first_of, matches_of, rule_of, App};
ghost use Rattle.fdb_command.specs.Arguments.{AreMatches};
ghost use Rattle.fdb_audit.specs.Program.{command, is_comma, members_named, text_rule, IsWanted};
ghost use Rattle.fdb_audit.specs.Watched.{AskForTheSame};

use crate::first_line::first_text;
use crate::judgement::Wanted;
use clap::{Arg, ArgMatches, Command};
use fdb_command::{file_argument, flag_argument, is_given, new_versioned_command, number_argument};
use fdb_lines::AuditOpts;
use fdb_log_reader::printed_name;
use std::alloc::{AllocError, Global};
use std::fmt::Write;

/// The version, and the logic of the kit that has proved the program.
const VERSION: &str = "0.4.0 (logic dac8208d650f15bf)";

/// What the help ends with: the statuses, and where a log's format is told.
const AFTER_HELP: &str = "Exit status:
  0  no fault was found, or help or version was asked for
  1  the log is refused, or a line of it, or what FILE keeps; or a watch got a line that began
     before what it had judged for good
  2  the arguments are refused
  3  memory ran out
  4  a fault was found
  5  reading or writing failed, or another watch keeps in FILE

On each status but 0 the last line on standard error says why. For status 1 it has one of these
words: Empty, TooLong, TooMany, NotJson, NoCall, TwoCalls, SomeTimes or BadMember; with --follow
also Early. If what FILE keeps is refused, mostly as NotKept, the line above it says why, and the
last one names FILE.

With --follow a watch of a file ends where the file ends. To watch a file that grows, call
tail -F LOGS | fdb_audit --follow N. --keep needs --follow, --position needs --keep, and --forget
needs --follow and --key. --follow does not suit --complete, --history and --numbers, nor --numbers
--history.

With --split a log is cut into parts by key, and not judged: fdb_audit --split 1 --help tells how.

docs/LOG.md has the format of the log and what each refusal and fault means (where the package is
installed, man fdb_audit_log has it), and docs/STATUSES.md how the program ends.";

const COMPLETE_HELP: &str = "The log has the calls of all clients, and all began at version START";

const MARGIN_HELP: &str = "How far clients' clocks may be apart, in the times' unit [default: 0]";

const FOLLOW_HELP: &str =
    "Watch a growing log; a call may begin up to N before the newest end of one";

const FORGET_HELP: &str = "Forget a key of which no line came within N of the newest end";

const KEEP_HELP: &str = "Go on from what FILE keeps, and keep in it what later lines may need";

const POSITION_HELP: &str = "Keep in FILE also the text that the last line has in this member";

const KEY_HELP: &str = "The member that names a line's key; each key's lines are judged alone";

const SHOW_HELP: &str = "The members to print with each line of a fault, parted by commas";

const NUMBERS_HELP: &str = "The member that has a line's own number, by which faults name it";

/// What the flags say: `opts` by `--complete` and `--margin`, `wanted` by `--history`, `--all`,
/// `--summary` and `--json`.
#[derive(Debug, Drop)]
pub struct AuditArguments {
    pub opts: AuditOpts,
    /// How far behind the newest end of a call a line that comes may begin, in the unit of the
    /// log's times, where the log is to be followed as it grows; none where it is not.
    pub follow: Option<u64>,
    /// How far the newest end may go on until a key is forgotten of which no line comes meanwhile, in
    /// the same unit, where keys are to be forgotten.
    pub forget: Option<u64>,
    pub wanted: Wanted,
    /// The name of the file in which the lines of a followed log are kept, where `--keep` names
    /// one.
    pub keep: Option<String>,
    /// The member of which the file of `--keep` is to have what the last line says, if there is
    /// one.
    pub position: Option<String>,
    /// The member that names a line's key, if each key is to be judged by itself.
    pub key: Option<String>,
    /// The members that are printed beside each call.
    pub shown: Vec<String>,
    /// The member that has the numbers of lines, if they have their own.
    pub numbers: Option<String>,
    /// Whether `--progress` is given: then standard error tells how far the log has been read.
    pub progress: bool,
}

impl AuditArguments {
    /// The same, as far as a log is followed by it.
    pub(crate) fn for_following(&self, alloc: Global) -> Result<Self, AllocError>
        ensures { IfOk result (λ other. AskForTheSame self.now other) }
    {
        let key = owned(alloc, self.key.as_deref())?;
        let position = owned(alloc, self.position.as_deref())?;
        let shown = copied(alloc, &self.shown)?;
        Ok(AuditArguments {
            opts: self.opts,
            follow: self.follow,
            forget: self.forget,
            wanted: self.wanted,
            keep: None,
            position,
            key,
            shown,
            numbers: None,
            progress: self.progress,
        })
    }
}

/// What the flags say that are no numbers: what is printed.
pub(crate) fn wanted_of(matches: &ArgMatches<'_>) -> Wanted
    ensures { (arguments : List Text) → AreMatches command arguments matches.now
        → IsWanted arguments result }
{
    let all = is_given(matches, "all");
    let summary = is_given(matches, "summary");
    let json = is_given(matches, "json");
    let history = is_given(matches, "history");
    Wanted {
        history,
        all: lists_all(all, json, summary),
        totals: has_totals(all, json, summary),
        json,
    }
}

/// Whether all faults are told.
fn lists_all(all: bool, json: bool, summary: bool) -> bool
    ensures { result ≡ (all || json) && not summary }
{
    (all || json) && !summary
}

/// Whether totals are told.
fn has_totals(all: bool, json: bool, summary: bool) -> bool
    ensures { result ≡ all || (json || summary) }
{
    all || json || summary
}

/// An argument that gives a text, by its name.
fn text_argument<'a>(alloc: Global, name: &'a str, value_name: &'a str, help: &'a str) -> Arg<'a>
    ensures rule { rule_of result ≡ text_rule name.now }
    ensures own { result.global ≡ false }
{
    Arg::new(alloc, name)
        .long(name)
        .value_name(value_name)
        .help(help)
}

/// The text that an argument gives; none where it is not given.
pub(crate) fn text<'a>(matches: &ArgMatches<'a>, argument: &str) -> Option<&'a str>
    ensures { (app : App) (arguments : List Text) → AreMatches app arguments matches.now
        → option_map (λ text. text.now) result ≡ first_of argument.now (matches_of app arguments) }
{
    matches.get_str(argument)
}

/// A text of one's own.
pub(crate) fn owned(alloc: Global, text: Option<&str>) -> Result<Option<String>, AllocError>
    ensures { IfOk result (λ own. option_map string_bytes own
        ≡ option_map (λ text. text.now) text.entry) }
{
    match text {
        Some(text) => Ok(Some(String::from_str(alloc, text)?)),
        None => Ok(None),
    }
}

/// Copies of some names.
fn copied(alloc: Global, names: &[String]) -> Result<Vec<String>, AllocError>
    ensures { IfOk result (λ copies. map string_bytes copies.items ≡ map string_bytes names.now) }
{
    let mut copies = Vec::new(alloc);
    for name in names {
        copies.push(String::from_str(alloc, name)?)?;
    }
    Ok(copies)
}

/// The members that a text names, parted by commas, as `--show` gives them; none where there is no
/// text. It fails only where memory is refused.
pub fn member_names(alloc: Global, text: Option<&str>) -> Result<Vec<String>, AllocError>
    ensures { IfOk result (λ members. map string_bytes members.items
        ≡ members_named (option_map (λ text. text.now) text.entry)) }
{
    match text {
        Some(text) => members_in(alloc, text),
        None => Ok(Vec::new(alloc)),
    }
}

fn members_in(alloc: Global, text: &str) -> Result<Vec<String>, AllocError>
    ensures { IfOk result
        (λ members. map string_bytes members.items ≡ slice_split is_comma text.now) }
{
    let mut members = Vec::new(alloc);
    let mut rest = text;
    while let Some((member, more)) = rest.split_once(',') {
        members.push(String::from_str(alloc, member)?)?;
        rest = more;
    }
    members.push(String::from_str(alloc, rest)?)?;
    Ok(members)
}

/// The command that clap is given: one file, four numbers from 0 to 2^63 - 1, five texts, and
/// five flags.
pub(crate) fn command<'a>(alloc: Global) -> Result<Command<'a>, AllocError>
    ensures { IfOk result (λ made. app_of made ≡ command) }
{
    new_versioned_command(
        alloc,
        "fdb_audit",
        VERSION,
        "Audits a log of read versions and commit versions",
        AFTER_HELP,
    )
    .arg(file_argument(
        alloc,
        "LOGS",
        "The file with the log, as JSON Lines; without it standard input is read",
    ))?
    .arg(number_argument(alloc, "complete", 0, i64::MAX, "START", COMPLETE_HELP))?
    .arg(number_argument(alloc, "margin", 0, i64::MAX, "N", MARGIN_HELP))?
    .arg(number_argument(alloc, "follow", 0, i64::MAX, "N", FOLLOW_HELP))?
    .arg(number_argument(alloc, "forget", 0, i64::MAX, "N", FORGET_HELP))?
    .arg(text_argument(alloc, "keep", "FILE", KEEP_HELP))?
    .arg(text_argument(alloc, "position", "MEMBER", POSITION_HELP))?
    .arg(text_argument(alloc, "key", "MEMBER", KEY_HELP))?
    .arg(text_argument(alloc, "show", "MEMBERS", SHOW_HELP))?
    .arg(text_argument(alloc, "numbers", "MEMBER", NUMBERS_HELP))?
    .arg(flag_argument(
        alloc,
        "all",
        "Write every fault, not only the first, and totals",
    ))?
    .arg(flag_argument(alloc, "summary", "Write totals, and no faults"))?
    .arg(flag_argument(
        alloc,
        "json",
        "Write JSON, one object a line: every fault, and totals",
    ))?
    .arg(flag_argument(
        alloc,
        "history",
        "Write also an order of the calls that explains the log",
    ))?
    .arg(flag_argument(
        alloc,
        "progress",
        "Say on standard error how far the log has been read",
    ))
}

/// The member of the first line that says by which arguments the lines are kept.
pub(crate) const MADE_BY: &str = "kept_by";

/// What the first of the lines that are kept has beside what it is kept as: by which arguments lines
/// are kept, and further members, with a comma before each.
pub(crate) fn with_arguments(
    alloc: Global,
    made_by: &str,
    beside: &str,
) -> Result<String, AllocError> {
    let mut members = String::new(alloc);
    write!(members, ",\"{MADE_BY}\":{made_by}{beside}")?;
    Ok(members)
}

/// Whether lines that were kept say that they are by these arguments, as a text without any does.
pub(crate) fn is_made_by(alloc: Global, made_by: &str, kept: &[u8]) -> Result<bool, AllocError> {
    if kept.is_empty() {
        return Ok(true);
    }
    let found = first_text(alloc, MADE_BY, kept)?;
    Ok(found.as_deref() == Some(made_by))
}

/// The arguments by which lines are kept, in words, as they are printed.
pub(crate) fn made_by(
    alloc: Global,
    asked: &AuditArguments,
    behind: u64,
) -> Result<String, AllocError> {
    let mut text = String::new(alloc);
    let margin = asked.opts.margin;
    write!(text, "--follow {behind} --margin {margin}")?;
    if let Some(after) = asked.forget {
        write!(text, " --forget {after}")?;
    }
    push_member(alloc, &mut text, "--key", asked.key.as_deref())?;
    for member in &asked.shown {
        push_member(alloc, &mut text, "--show", Some(member.as_str()))?;
    }
    push_member(alloc, &mut text, "--position", asked.position.as_deref())?;
    printed_name(alloc, &text)
}

/// Writes an argument that names a member, if it does.
fn push_member(
    alloc: Global,
    out: &mut String,
    argument: &str,
    member: Option<&str>,
) -> Result<(), AllocError> {
    if let Some(member) = member {
        let name = printed_name(alloc, member)?;
        write!(out, " {argument} {name}")?;
    }
    Ok(())
}
