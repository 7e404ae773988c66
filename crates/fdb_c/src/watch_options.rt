//! How C asks for a watch, how much has come to it, as C is told; and what clauses alone read: what
//! came, from where on, and what was told.

ghost use Rattle.std.specs.Prelude.{◌≡◌, IfOk, ◌++◌, ℕ, [], List, None, Option, Some, string_bytes};
ghost use Rattle.std.specs.Borrow.{ftrue};
ghost use Rattle.fdb_audit.specs.Progress.{counted_by};
ghost use Rattle.fdb_c.specs.Audit.{asked_in, asked_with};
ghost use Rattle.fdb_c.specs.Watch.{opts_in, wanted_in, counted_in};

use crate::audit::asked_with;
use fdb_audit::{AuditArguments, Progress, Wanted};
use fdb_lines::AuditOpts;
use std::alloc::{AllocError, Global};
use std::marker::{Model, Send};

/// How a log is watched, and what is told of it.
#[repr(C)]
#[derive(Clone, Copy)]
pub struct FdbWatchOptions {
    /// How far behind the newest end a line that comes may begin, in the unit of the times.
    pub behind: u64,
    /// How far the clocks of two clients may be apart, in the unit of the times.
    pub margin: u64,
    /// Whether the end tells how much was read and how many faults there are of each kind.
    pub totals: bool,
    /// Whether JSON objects are told, and not sentences.
    pub json: bool,
}

/// The arguments of `fdb_audit --follow` that C asks for.
pub(crate) fn asked_of(
    alloc: Global,
    options: FdbWatchOptions,
    key: &str,
    shown: &str,
) -> Result<AuditArguments, AllocError>
    ensures { IfOk result (λ asked. asked_in asked
        ≡ asked_with (opts_in options) (wanted_in options) key.now shown.now) }
{
    let opts = AuditOpts {
        complete: None,
        margin: options.margin,
    };
    let wanted = Wanted {
        history: false,
        all: true,
        totals: options.totals,
        json: options.json,
    };
    asked_with(alloc, opts, Some(options.behind), wanted, key, shown)
}

/// How far a log has been followed: how many lines came, and how, and how many of those wait.
#[repr(C)]
#[derive(Clone, Copy)]
pub struct FdbWatchCounted {
    /// Lines that were taken, those that were kept of others not counted.
    pub lines: u64,
    /// How many of them were reads.
    pub reads: u64,
    /// How many were commits.
    pub commits: u64,
    /// How many drew a commit version.
    pub asks: u64,
    /// How many reported one as committed.
    pub reports: u64,
    /// Lines that were refused.
    pub refused: u64,
    /// How many lines had begun before what was settled when they came.
    pub early: u64,
    /// How many of the early lines were judged.
    pub judged: u64,
    /// How often a line's end was found to be ahead of another client's line that came later.
    pub ahead: u64,
    /// Lines of which not all is told that there is to tell.
    pub open: u64,
    /// Lines that are kept, those that are open among them.
    pub kept: u64,
    /// The newest end that is believed, in the unit of the times; 0 where none is.
    pub newest_end: u64,
    /// The moment up to which all is told, in the unit of the times.
    pub settled_to: u64,
}

/// How far a log has been followed, for C.
pub(crate) fn counted_of(progress: Progress) -> FdbWatchCounted
    ensures counted { counted_in result ≡ counted_by progress }
    ensures waiting { (result.open ≡ progress.open) × (result.kept ≡ progress.kept) }
    ensures moments { (result.newest_end ≡ progress.newest_end)
        × (result.settled_to ≡ progress.settled_to) }
{
    FdbWatchCounted {
        lines: progress.lines,
        reads: progress.reads,
        commits: progress.commits,
        asks: progress.asks,
        reports: progress.reports,
        refused: progress.refused,
        early: progress.early,
        judged: progress.judged,
        ahead: progress.ahead,
        open: progress.open,
        kept: progress.kept,
        newest_end: progress.newest_end,
        settled_to: progress.settled_to,
    }
}

/// The bytes that have come, the text that was told of them, the text of kept lines by which it
/// goes on, if it does, and all warnings. It takes no memory.
#[derive(Drop)]
pub struct Story {
    pub ghost bytes: { List ℕ },
    pub ghost told: { List ℕ },
    pub ghost from: { Option (List ℕ) },
    pub ghost warned: { List ℕ },
}

impl Model for Story {
    ghost also_owns = { λ _. ftrue };
}

unsafe impl Send for Story {}

impl Story {
    /// Nothing has come.
    pub(crate) fn new() -> Story
        ensures { (result.bytes ≡ []) × (result.told ≡ []) × (result.from ≡ None)
            × (result.warned ≡ []) }
    {
        Story {}
    }

    /// It goes on by this text of kept lines.
    pub(crate) fn of_kept(_text: &&[u8]) -> Story
        ensures { (result.bytes ≡ _text.now.now) × (result.told ≡ [])
            × (result.from ≡ Some _text.now.now) × (result.warned ≡ []) }
    {
        Story {}
    }

    /// These bytes have come besides.
    pub(crate) fn with_bytes(_before: &Story, _bytes: &&[u8]) -> Story
        ensures { (result.bytes ≡ _before.now.bytes ++ _bytes.now.now)
            × (result.told ≡ _before.now.told) × (result.from ≡ _before.now.from)
            × (result.warned ≡ _before.now.warned) }
    {
        Story {}
    }

    /// This was told besides.
    pub(crate) fn with_text(_before: &Story, _text: &String) -> Story
        ensures { (result.bytes ≡ _before.now.bytes)
            × (result.told ≡ _before.now.told ++ string_bytes _text.now)
            × (result.from ≡ _before.now.from) × (result.warned ≡ _before.now.warned) }
    {
        Story {}
    }

    /// Of this it was warned besides.
    pub(crate) fn with_warnings(_before: &Story, _warnings: &String) -> Story
        ensures { (result.bytes ≡ _before.now.bytes) × (result.told ≡ _before.now.told)
            × (result.from ≡ _before.now.from)
            × (result.warned ≡ _before.now.warned ++ string_bytes _warnings.now) }
    {
        Story {}
    }
}
