//! Counts what a verdict stands on: lines by kind, versions that others must have reported, and
//! pairs in order.

ghost use Rattle.std.specs.Prelude.{◌≡◌, ◌+◌, ◌==◌, ◌&&◌, ◌||◌, ℕ, IfOk, OnOk, cond, not, None};
ghost use Rattle.std.specs.Prelude.{Some, length, option_copied};
ghost use Rattle.std.specs.BTreeSet.{contains, btree_set_len};
ghost use Rattle.std.specs.Ordering.{nat_cmp};
ghost use Rattle.std.specs.Thread.{IsSync};
ghost use Rattle.fdb_lines.specs.Audit.{case_of};
ghost use Rattle.fdb_lines.specs.Judged.{HaveKeys, IsSummary};
ghost use Rattle.fdb_lines.specs.Lines.{is_ask, is_commit, is_learn, is_read, is_report};
ghost use Rattle.fdb_lines.specs.Lines.{version_of};
ghost use Rattle.fdb_lines.specs.Log.{lines_of};
ghost use Rattle.fdb_lines.specs.Summary.{how_many, unreported};
ghost use Rattle.fdb_lines.specs.private.KeySums.{ArePartsOf, AreSums, AreSumsOf};

use crate::line::Operation;
use crate::log::{AuditOpts, Log, Part, Summary, parts_of};
use crate::pairs::{ordered, ordered_in_threads};
use std::alloc::{AllocError, Global};
use std::collections::BTreeSet;
use std::thread::{Threads, join};

/// What is counted of all lines, or of those of each key by themselves, added up.
#[derive(Clone, Copy)]
pub(crate) struct Sums {
    /// How many versions were read, other than the start, that no line reports.
    pub(crate) unreported: u64,
    /// Of how many pairs of lines one comes before the other; 0 of lines without times.
    pub(crate) ordered: u64,
}

/// What a verdict on a log stands on: its lines, counted. Where lines have keys, versions that no
/// line reports and pairs in order are those of the lines of each key by themselves, added up. An
/// error only where memory is refused.
///
/// `n log n` in how many lines there are, whatever the keys.
pub fn summary(
    alloc: Global,
    log: &Log,
    keys: Option<&[Option<u32>]>,
    opts: &AuditOpts,
) -> Result<Summary, AllocError>
    requires { HaveKeys (lines_of log.now) (option_copied keys) }
    ensures { IfOk result
        (IsSummary (lines_of log.now) (option_copied keys.entry) opts.now) }
{
    match keys {
        Some(keys) => Ok(counted(log, sums_by_key(alloc, log, keys, opts)?)),
        None => Ok(counted(log, sums_of(alloc, log, opts)?)),
    }
}

/// What a verdict on a log without keys stands on, as [`summary`] counts it, counted in threads. An
/// error only where memory is refused.
pub fn summary_in_threads<R: Threads + Sync>(
    rt: &R,
    alloc: Global,
    log: &Log,
    opts: &AuditOpts,
) -> Result<Summary, AllocError>
    ensures { IfOk result (IsSummary (lines_of log.now) None opts.now) }
{
    let (unreported, ordered) = join(
        rt,
        || unreported(alloc, log, opts),
        || -> Result<u64, AllocError>
            requires { IsSync R.row }
        { ordered_in_threads(rt, alloc, log, opts) },
    );
    let unreported = unreported?;
    let ordered = ordered?;
    Ok(counted(
        log,
        Sums {
            unreported,
            ordered,
        },
    ))
}

/// The summary of a log, of which two numbers are known.
fn counted(log: &Log, sums: Sums) -> Summary
    ensures lines { result.lines ≡ length (lines_of log.now).lines }
    ensures timed { result.timed ≡ cond (lines_of log.now).timed (length (lines_of log.now).lines) 0 }
    ensures reads { result.reads ≡ how_many is_read (lines_of log.now).lines }
    ensures commits { result.commits ≡ how_many is_commit (lines_of log.now).lines }
    ensures asks { result.asks ≡ how_many is_ask (lines_of log.now).lines }
    ensures reports { result.reports ≡ how_many is_report (lines_of log.now).lines }
    ensures learns { result.learns ≡ how_many is_learn (lines_of log.now).lines }
    ensures unreported { result.unreported ≡ sums.unreported }
    ensures ordered { result.ordered ≡ cond (lines_of log.now).timed (Some sums.ordered) None }
{
    let lines = log.lines();
    let ordered = if log.is_timed() {
        Some(sums.ordered)
    } else {
        None
    };
    Summary {
        lines: lines.len() as u64,
        timed: if log.is_timed() {
            lines.len() as u64
        } else {
            0
        },
        reads: lines.iter().filter(|line| line.call.is_read()).count() as u64,
        commits: lines.iter().filter(|line| line.call.is_commit()).count() as u64,
        asks: lines.iter().filter(|line| line.call.is_ask()).count() as u64,
        reports: lines.iter().filter(|line| line.call.is_report()).count() as u64,
        learns: lines.iter().filter(|line| line.call.is_learn()).count() as u64,
        unreported: sums.unreported,
        ordered,
    }
}

/// What is counted of all lines.
fn sums_of(alloc: Global, log: &Log, opts: &AuditOpts) -> Result<Sums, AllocError>
    ensures { IfOk result (AreSums (lines_of log.now) None opts.now) }
{
    let unreported = unreported(alloc, log, opts)?;
    let ordered = ordered(alloc, log, opts)?;
    Ok(Sums {
        unreported,
        ordered,
    })
}

/// What is counted of the lines of each key by themselves, added up.
fn sums_by_key(
    alloc: Global,
    log: &Log,
    keys: &[Option<u32>],
    opts: &AuditOpts,
) -> Result<Sums, AllocError>
    requires as_many { length keys.now ≡ length (lines_of log.now).lines }
    ensures { IfOk result (AreSums (lines_of log.now) (Some keys.now) opts.now) }
{
    let parts = parts_of(alloc, keys)?;
    sums_of_parts(alloc, log, &parts, opts)
}

/// What is counted of the lines of each part.
fn sums_of_parts(
    alloc: Global,
    log: &Log,
    parts: &[Part],
    opts: &AuditOpts,
) -> Result<Sums, AllocError>
    requires { ArePartsOf (lines_of log.now) parts.now }
    ensures { IfOk result (AreSumsOf (lines_of log.now) opts.now parts.now) }
{
    let mut sums = Sums {
        unreported: 0,
        ordered: 0,
    };
    for part in 0..parts.len() {
        let lines = log.part(alloc, &parts[part].places)?;
        sums.unreported += unreported(alloc, &lines, opts)?;
        sums.ordered += ordered(alloc, &lines, opts)?;
    }
    Ok(sums)
}

/// How many versions were read, other than the start, that no line reports.
fn unreported(alloc: Global, log: &Log, opts: &AuditOpts) -> Result<u64, AllocError>
    ensures { IfOk result (λ n. n ≡ unreported (case_of (lines_of log.now) opts.now)) }
{
    let lines = log.lines();
    let mut known = BTreeSet::new(alloc);
    known.insert(opts.start())?;
    for line in lines {
        add(&mut known, line.call, line.call.reports())?;
    }
    let reported = known.len();
    for line in lines {
        add(&mut known, line.call, line.call.is_read())?;
    }
    Ok((known.len() - reported) as u64)
}

/// Adds the version of a call, if it is wanted.
fn add(versions: &mut BTreeSet<u64>, call: Operation, wanted: bool) -> Result<(), AllocError>
    ensures versions { OnOk result ((v : ℕ) → contains nat_cmp versions.new v
        ≡ ((wanted && version_of call == v) || contains nat_cmp versions.old v)) }
    ensures more { OnOk result (btree_set_len versions.new ≡ btree_set_len versions.old
        + cond (wanted && not (contains nat_cmp versions.old (version_of call))) 1 0) }
{
    if wanted {
        versions.insert(call.version())?;
    }
    Ok(())
}
