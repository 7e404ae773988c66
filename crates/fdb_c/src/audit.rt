//! The audit of a log: what C asks for, the arguments that this is, and why a log is refused.

ghost use Rattle.std.specs.Prelude.{◌≡◌, ◌≢◌, ◌⊎◌, IfOk, MatchOption, option_map, string_bytes};
ghost use Rattle.core.specs.Str.{IsUtf8};
ghost use Rattle.fdb_c.specs.Audit.{IsRefusal, complete_of, member_of, number_of, opts_of};
ghost use Rattle.fdb_c.specs.Audit.{refused_of, status_of, wanted_of, asked_in, asked_with};
ghost use Rattle.fdb_c.specs.Audit.{unless_empty};
ghost use Rattle.fdb_c.specs.declared.status.TheConstants.{FDB_OVER, FDB_UNJUDGED};

use crate::status::{
    FDB_BAD_MEMBER, FDB_EMPTY, FDB_MEMORY, FDB_NO_CALL, FDB_NOT_JSON, FDB_SOME_TIMES, FDB_TOO_LONG,
    FDB_TOO_MANY, FDB_TWO_CALLS,
};
use fdb_audit::{AuditArguments, Wanted, member_names};
use fdb_lines::AuditOpts;
use fdb_log_reader::{Member, ReadError, Why};
use std::alloc::{AllocError, Global};
use std::str;

/// Whose call it was.
pub const FDB_CLIENT: u8 = 1;

/// A read got a version.
pub const FDB_READ: u8 = 2;

/// A commit got a version.
pub const FDB_COMMIT: u8 = 3;

/// A commit version was drawn.
pub const FDB_ASK: u8 = 4;

/// A version was reported as committed.
pub const FDB_REPORT: u8 = 5;

/// From here on the client knows what another client knew by the lines above.
pub const FDB_LEARN: u8 = 6;

/// When a call began.
pub const FDB_BEGAN: u8 = 7;

/// When a call ended.
pub const FDB_ENDED: u8 = 8;

/// The member that has the key: it has the name that the caller gave.
pub const FDB_KEY: u8 = 9;

/// What an audit is told beside the log, and what its text has.
#[repr(C)]
#[derive(Clone, Copy)]
pub struct FdbAuditOptions {
    /// The version that all began with, where `complete` holds.
    pub start: u64,
    /// How far the clocks of two clients may be apart, in the unit of the times.
    pub margin: u64,
    /// Whether the log has the calls of all clients.
    pub complete: bool,
    /// Whether the text has all faults, where one stands, and not the first alone.
    pub all: bool,
    /// Whether the text has an order that explains the lines, where no fault stands.
    pub history: bool,
    /// Whether the text ends with how much was judged and how many faults there are of each kind,
    /// where one stands; without `all` it has these alone.
    pub totals: bool,
    /// Whether the text has JSON objects, and not sentences.
    pub json: bool,
}

/// Why a log is refused, beside the status.
#[repr(C)]
#[derive(Clone, Copy)]
pub struct FdbRefused {
    /// A line, counted from 1: of an audit the first with which something is wrong, of a watch the
    /// last, or with `FDB_UNJUDGED` the last that came early. It is 0 where there is no line.
    pub line: u64,
    /// The member that is bad, or 0.
    pub member: u8,
}

/// What an audit is told beside the log.
pub(crate) fn opts_of(options: FdbAuditOptions) -> AuditOpts
    ensures { result ≡ opts_of options }
{
    AuditOpts {
        complete: complete_of(options),
        margin: options.margin,
    }
}

/// The version that all began with, where the log has all calls.
fn complete_of(options: FdbAuditOptions) -> Option<u64>
    ensures { result ≡ complete_of options }
{
    if options.complete {
        Some(options.start)
    } else {
        None
    }
}

/// What is printed besides the verdict.
pub(crate) fn wanted_of(options: FdbAuditOptions) -> Wanted
    ensures { result ≡ wanted_of options }
{
    Wanted {
        history: options.history,
        all: options.all,
        totals: options.totals,
        json: options.json,
    }
}

/// A member's number.
fn number_of(member: Member) -> u8
    ensures { result ≡ number_of member }
{
    match member {
        Member::Client => FDB_CLIENT,
        Member::Read => FDB_READ,
        Member::Commit => FDB_COMMIT,
        Member::Ask => FDB_ASK,
        Member::Report => FDB_REPORT,
        Member::Learn => FDB_LEARN,
        Member::Began => FDB_BEGAN,
        Member::Ended => FDB_ENDED,
    }
}

/// A refusal's number.
fn status_of(why: Why) -> u8
    ensures number { result ≡ status_of why }
    ensures known { result ≢ FDB_OVER }
    ensures judged { result ≢ FDB_UNJUDGED }
{
    match why {
        Why::Empty => FDB_EMPTY,
        Why::TooLong => FDB_TOO_LONG,
        Why::TooMany => FDB_TOO_MANY,
        Why::NotJson => FDB_NOT_JSON,
        Why::NoCall => FDB_NO_CALL,
        Why::TwoCalls => FDB_TWO_CALLS,
        Why::SomeTimes => FDB_SOME_TIMES,
        Why::BadMember(_) | Why::BadKey | Why::BadNumber => FDB_BAD_MEMBER,
        Why::Memory => FDB_MEMORY,
    }
}

/// The number of the member that is bad, or 0.
fn member_of(why: Why) -> u8
    ensures { result ≡ member_of why }
{
    match why {
        Why::BadMember(member) => number_of(member),
        Why::BadKey => FDB_KEY,
        _ => 0,
    }
}

/// Refuses a log by the status, and tells the line, unless memory was refused.
pub(crate) fn refuse(error: ReadError, refused: &mut FdbRefused) -> u8
    ensures status { result ≡ status_of error.why }
    ensures told { ((error.why ≡ Why.Memory) × (refused.new ≡ refused.old))
        ⊎ (IsRefusal result × (refused.new ≡ refused_of error)) }
    ensures statuses { (result ≡ FDB_MEMORY) ⊎ IsRefusal result }
    ensures known { result ≢ FDB_OVER }
{
    let status = status_of(error.why);
    if status != FDB_MEMORY {
        *refused = FdbRefused {
            line: error.line,
            member: member_of(error.why),
        };
    }
    status
}

/// Two texts, where both are UTF-8.
pub(crate) fn texts_of<'a>(key: &'a [u8], shown: &'a [u8]) -> Option<(&'a str, &'a str)>
    ensures { MatchOption result (¬ (IsUtf8 key.now × IsUtf8 shown.now))
        (λ texts. (texts.0.now ≡ key.now) × (texts.1.now ≡ shown.now)
        × IsUtf8 key.now × IsUtf8 shown.now) }
{
    let Ok(key) = str::from_utf8(key) else {
        return None;
    };
    let Ok(shown) = str::from_utf8(shown) else {
        return None;
    };
    Some((key, shown))
}

/// A text, unless it is empty.
fn unless_empty(text: &str) -> Option<&str>
    ensures { option_map (λ text. text.now) result ≡ unless_empty text.now }
{
    if text.is_empty() { None } else { Some(text) }
}

/// A text of one's own.
fn owned(alloc: Global, text: Option<&str>) -> Result<Option<String>, AllocError>
    ensures { IfOk result (λ own. option_map string_bytes own
        ≡ option_map (λ text. text.now) text.entry) }
{
    match text {
        Some(text) => Ok(Some(String::from_str(alloc, text)?)),
        None => Ok(None),
    }
}

/// The arguments of an audit, or of one that follows a log: with the member that has the keys, and
/// those that are shown, parted by commas; none where a text is empty.
pub(crate) fn asked_with(
    alloc: Global,
    opts: AuditOpts,
    follow: Option<u64>,
    wanted: Wanted,
    key: &str,
    shown: &str,
) -> Result<AuditArguments, AllocError>
    ensures { IfOk result (λ asked. asked_in asked ≡ asked_with opts wanted key.now shown.now) }
{
    let key = owned(alloc, unless_empty(key))?;
    let shown = member_names(alloc, unless_empty(shown))?;
    Ok(AuditArguments {
        opts,
        follow,
        forget: None,
        wanted,
        keep: None,
        position: None,
        key,
        shown,
        numbers: None,
        progress: false,
    })
}
