//! How the tables of a log are made: one after another, or in threads side by side.

ghost use Rattle.std.specs.Prelude.{◌≡◌, ◌≤◌, IfOk, false, length, true};
ghost use Rattle.std.specs.Thread.{IsSync};
ghost use Rattle.fdb_lines.specs.Log.{lines_of};
ghost use Rattle.fdb_lines.specs.private.Known.{AreEnds};
ghost use Rattle.fdb_lines.specs.private.Tables.{has_ask, AreDrawnIn, AreKnownIn, AreLocated};
ghost use Rattle.fdb_lines.specs.private.Tables.{AreTables};
ghost use Rattle.fdb_lines.specs.declared.known.Exposure.TheVariants.{Drawn, Shown};

use crate::end_table::EndTable;
use crate::fault::Witness;
use crate::known::{Exposure, add_own, known_by_telling, known_of_all, table_of};
use crate::line::Line;
use crate::locators::LineKind::{self, Asks, Draws, Nameless, Owned, Raises, Reports};
use crate::locators::Locators;
use crate::log::{AuditOpts, Log};
use crate::tables::{DrawTables, LogTables};
use std::alloc::{AllocError, Global};
use std::thread::{Threads, join};

/// The tables of a log. `n log n` in how many lines there are.
pub(crate) fn tables_of(alloc: Global, log: &Log, opts: &AuditOpts) -> Result<LogTables, AllocError>
    ensures { IfOk result (λ made. AreTables (lines_of log.now) opts.now made) }
{
    let lines = log.lines();
    let start = opts.start();
    let firsts = table_of(alloc, lines, Exposure::Shown, false)?;
    let own = table_of(alloc, lines, Exposure::Shown, true)?;
    let shown = known(alloc, log, opts, Exposure::Shown, &firsts, &own)?;
    drop(own);
    let drawn = known_draws(alloc, log, opts)?;
    let reports = Locators::new(alloc, start, lines, &shown, Reports)?;
    let raises = Locators::new(alloc, start, lines, &shown, Raises)?;
    let draws = Locators::new(alloc, start, lines, &shown, Draws)?;
    let asks = Locators::new(alloc, start, lines, &shown, Asks)?;
    let owned = Locators::new(alloc, start, lines, &shown, Owned)?;
    let nameless = Locators::new(alloc, start, lines, &shown, Nameless)?;
    Ok(LogTables {
        shown,
        drawn,
        reports,
        raises,
        draws,
        asks,
        owned,
        nameless,
        firsts,
    })
}

/// The tables of a log, made in threads side by side.
pub(crate) fn tables_in_threads<R: Threads + Sync>(
    rt: &R,
    alloc: Global,
    log: &Log,
    opts: &AuditOpts,
) -> Result<LogTables, AllocError>
    ensures { IfOk result (λ made. AreTables (lines_of log.now) opts.now made) }
{
    let lines = log.lines();
    let (firsts, own) = two_tables(rt, alloc, lines)?;
    let (ends, of_each) = (&firsts, &own);
    let (shown, drawn) = join(
        rt,
        || known(alloc, log, opts, Exposure::Shown, ends, of_each),
        || known_draws(alloc, log, opts),
    );
    drop(own);
    let shown = shown?;
    let drawn = drawn?;
    let start = opts.start();
    let known = shown.as_slice();
    let (one, other) = join(
        rt,
        || -> Result<(Locators, Locators), AllocError>
            requires { IsSync R.row × (length lines.now ≤ 4294967295) }
        { two_locators(rt, alloc, start, lines, known, Reports, Raises) },
        || -> Result<(Locators, Locators), AllocError>
            requires { IsSync R.row × (length lines.now ≤ 4294967295) }
        { two_locators(rt, alloc, start, lines, known, Draws, Owned) },
    );
    let (reports, raises) = one?;
    let (draws, owned) = other?;
    let (asks, nameless) = two_locators(rt, alloc, start, lines, known, Asks, Nameless)?;
    Ok(LogTables {
        shown,
        drawn,
        reports,
        raises,
        draws,
        asks,
        owned,
        nameless,
        firsts,
    })
}

/// The ends of the lines that show their versions, of all and by client, in two threads.
fn two_tables<R: Threads + Sync>(
    rt: &R,
    alloc: Global,
    lines: &[Line],
) -> Result<(EndTable, EndTable), AllocError>
    requires { length lines.now ≤ 4294967295 }
    ensures ends { IfOk result (λ both. AreEnds false Shown lines.now (length lines.now)
        both.0.ends.items) }
    ensures own { IfOk result (λ both. AreEnds true Shown lines.now (length lines.now)
        both.1.ends.items) }
{
    let (ends, own) = join(
        rt,
        || table_of(alloc, lines, Exposure::Shown, false),
        || table_of(alloc, lines, Exposure::Shown, true),
    );
    let ends = ends?;
    let own = own?;
    Ok((ends, own))
}

/// The locators of two sorts, made in two threads.
fn two_locators<R: Threads + Sync>(
    rt: &R,
    alloc: Global,
    start: u64,
    lines: &[Line],
    known: &[Option<Witness>],
    one: LineKind,
    other: LineKind,
) -> Result<(Locators, Locators), AllocError>
    requires { length lines.now ≤ 4294967295 }
    ensures one { IfOk result (λ both. AreLocated start lines.now known.now one both.0) }
    ensures other { IfOk result (λ both. AreLocated start lines.now known.now other both.1) }
{
    let (of_one, of_other) = join(
        rt,
        || Locators::new(alloc, start, lines, known, one),
        || Locators::new(alloc, start, lines, known, other),
    );
    let of_one = of_one?;
    let of_other = of_other?;
    Ok((of_one, of_other))
}

/// For each line the newest of the lines before it that let their versions be known, if there are
/// some. By time that is by the table of all ends, and that of each client's own: each search is
/// logarithmic.
fn known(
    alloc: Global,
    log: &Log,
    opts: &AuditOpts,
    seen: Exposure,
    ends: &EndTable,
    own: &EndTable,
) -> Result<Vec<Option<Witness>>, AllocError>
    requires ends { let lines = (lines_of log.now).lines in
        AreEnds false seen lines (length lines) ends.now.ends.items }
    requires own { let lines = (lines_of log.now).lines in
        AreEnds true seen lines (length lines) own.now.ends.items }
    ensures { IfOk result (λ known. AreKnownIn (lines_of log.now) opts.now seen known.items) }
{
    if log.is_timed() {
        let lines = log.lines();
        let mut known = known_of_all(alloc, lines, opts.margin, seen, ends)?;
        add_own(alloc, own, lines, opts.margin, seen, &mut known)?;
        Ok(known)
    } else {
        known_by_telling(alloc, log.lines(), seen)
    }
}

/// For each line the newest of the lines before it that draw a version, and the ends of those; none
/// where no line is an ask.
fn known_draws(alloc: Global, log: &Log, opts: &AuditOpts) -> Result<Option<DrawTables>, AllocError>
    ensures { IfOk result (λ drawn. AreDrawnIn (lines_of log.now) opts.now drawn) }
{
    let lines = log.lines();
    if !has_ask(lines) {
        return Ok(None);
    }
    let firsts = table_of(alloc, lines, Exposure::Drawn, false)?;
    let own = table_of(alloc, lines, Exposure::Drawn, true)?;
    let known = known(alloc, log, opts, Exposure::Drawn, &firsts, &own)?;
    Ok(Some(DrawTables { known, firsts }))
}

/// Whether a line is an ask.
fn has_ask(lines: &[Line]) -> bool
    ensures { result ≡ has_ask lines.now }
{
    lines.iter().any(|line| line.call.is_ask())
}
