//! What a caller of a watch may rely on, by its clauses and laws alone.

ghost use Rattle.std.specs.Prelude.{◌≡◌, ◌++◌, ℕ, [], IfOk, List, string_bytes, true};
ghost use Rattle.std.specs.List.{AllPairs};
ghost use Rattle.fdb_audit.specs.Following.{Start, TellApart};
ghost use Rattle.fdb_audit.specs.Pieces.{audited_in};
ghost use Rattle.fdb_audit.specs.Watched.{lines_asked, HasFollowed, IsFollowed};
ghost use Rattle.fdb_audit.specs.declared.arguments.AuditArguments.{AuditArguments};

use fdb_audit::laws::{a_watch_that_tells_nothing_missed_nothing, no_line_is_told_of_twice};
use fdb_audit::{AuditArguments, Followed, Follower};
use std::alloc::{AllocError, Global};

/// Watches a log from its beginning to its end: where it answers yes, no fault was told, and no line
/// came early, so an audit of all lines finds no stale read, and no version drawn that is not above.
pub fn is_watched_without_fault(
    alloc: Global,
    asked: &AuditArguments,
    behind: u64,
    log: &[u8],
) -> Result<bool, AllocError>
    ensures { IfOk result (λ fine. fine ≡ true → audited_in asked.now log.now ≡ []) }
{
    a_watch_that_tells_nothing_missed_nothing();
    let mut follower = Follower::new(alloc, asked, behind)?;
    follower.feed(log)?;
    let end = follower.finish()?;
    match (end.found, end.last_early) {
        (None, None) => Ok(true),
        _ => Ok(false),
    }
}

/// Ends any watch, also one that goes on from kept lines, or to which lines came early: by whatever
/// windows what it told is explained, of no line it has told twice.
pub fn end_watch(follower: Follower) -> Result<Followed, AllocError>
    ensures told { IfOk result (λ it. (asked : AuditArguments) → (start : Start)
        → (bytes told : List ℕ) → HasFollowed asked start follower bytes told → IsFollowed asked
        start true bytes (told ++ string_bytes it.said.text) it.found it.last_early) }
    ensures once { IfOk result (λ it. (asked : AuditArguments) → (start : Start)
        → (bytes told : List ℕ) → (all : IsFollowed asked start true bytes told it.found
        it.last_early) → AllPairs (TellApart (lines_asked asked bytes)) all.windows) }
{
    no_line_is_told_of_twice();
    follower.finish()
}
