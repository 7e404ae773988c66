//! Which faults stand at the lines of a log, listed line by line, and why. With keys, each key is a
//! register of its own, and its lines are judged by themselves.

ghost use Rattle.std.specs.Prelude.{◌≡◌, ◌<◌, ◌≤◌, ◌↔◌, None, IfOk, OnOk, length, option_copied};
ghost use Rattle.std.specs.Prelude.{◌++◌, Some, map, slice_index};
ghost use Rattle.fdb_lines.specs.Audit.{case_of, AreExplained};
ghost use Rattle.fdb_lines.specs.Judged.{AreAll, AreExplainedIn, HaveKeys, IsFirstFound};
ghost use Rattle.fdb_lines.specs.Listing.{faults_at, found_if};
ghost use Rattle.fdb_lines.specs.Log.{lines_of};
ghost use Rattle.fdb_lines.specs.private.Tables.{case_in, AreTables, IsFirstIn, ListsMore};
ghost use Rattle.fdb_lines.specs.Keys.{placed_by, placed_finding, placed_late, placed_means};
ghost use Rattle.fdb_lines.specs.Keys.{placed_reason, AreExplainedByKey};
ghost use Rattle.fdb_lines.specs.private.Keys.{AreByLine};

use crate::fault::{Fault, Finding, Found, Late, Means, Reason, Witness, late_of, reason_of};
use crate::log::{AuditOpts, Log, parts_of};
use crate::tables::Tables;
use crate::tables_of::{tables_in_threads, tables_of};
use std::alloc::{AllocError, Global};
use std::thread::{Threads, join};

/// The faults of a log: each once, by line, and at a line in the order of [`Fault`], with why it
/// stands, and of a stale read or a version that is not above others by how much it is late. There
/// is none exactly where some history explains the lines. An error only where memory is refused.
///
/// Where `keys` are given, they say for each line its key, or that it has none. Each key is then a
/// register of its own, and the lines without a key are one register more: the lines of each
/// register are judged as a log of their own, and their faults are told at their places in the
/// whole log. In a log without times what is learnt counts within each key alone.
///
/// `n log n` in how many lines there are, whatever the keys, and however many faults.
pub fn findings(
    alloc: Global,
    log: &Log,
    keys: Option<&[Option<u32>]>,
    opts: &AuditOpts,
) -> Result<Vec<Finding>, AllocError>
    requires { HaveKeys (lines_of log.now) (option_copied keys) }
    ensures all { IfOk result
        (λ found. AreAll (lines_of log.now) (option_copied keys.entry) opts.now found.items) }
    ensures explained { IfOk result (λ found. length found.items ≡ 0
        ↔ AreExplainedIn (lines_of log.now) (option_copied keys.entry) opts.now) }
{
    match keys {
        Some(keys) => findings_by_key(alloc, log, keys, opts),
        None => findings_of(alloc, log, opts),
    }
}

/// The first fault of a log, if there is one, as [`findings`] has it. An error only where memory is
/// refused.
///
/// `n log n` in how many lines there are, whatever the keys.
pub fn first_finding(
    alloc: Global,
    log: &Log,
    keys: Option<&[Option<u32>]>,
    opts: &AuditOpts,
) -> Result<Option<Finding>, AllocError>
    requires { HaveKeys (lines_of log.now) (option_copied keys) }
    ensures first { IfOk result
        (IsFirstFound (lines_of log.now) (option_copied keys.entry) opts.now) }
    ensures explained { IfOk result (λ first. first ≡ None
        ↔ AreExplainedIn (lines_of log.now) (option_copied keys.entry) opts.now) }
{
    match keys {
        Some(_) => {
            let found = findings(alloc, log, keys, opts)?;
            Ok(found.first().copied())
        }
        None => first_of(alloc, log, opts),
    }
}

/// The first fault of a log without keys, if there is one, as [`first_finding`] has it, looked for
/// in threads. An error only where memory is refused.
pub fn first_finding_in_threads<R: Threads + Sync>(
    rt: &R,
    alloc: Global,
    log: &Log,
    opts: &AuditOpts,
) -> Result<Option<Finding>, AllocError>
    ensures first { IfOk result (IsFirstFound (lines_of log.now) None opts.now) }
    ensures explained { IfOk result
        (λ first. first ≡ None ↔ AreExplained (case_of (lines_of log.now) opts.now)) }
{
    let tables = tables_in_threads(rt, alloc, log, opts)?;
    let made = &tables;
    let all = log.lines().len();
    let half = all / 2;
    let (above, below) = join(
        rt,
        || -> Result<Option<Finding>, AllocError>
            requires { AreTables (lines_of log.now) opts.now made.now
                × (half ≤ length (lines_of log.now).lines) }
            ensures { IfOk result (IsFirstIn (lines_of log.entry.now) opts.entry.now 0 half) }
        { first_between(alloc, &Tables::new(log, opts, made), 0, half) },
        || -> Result<Option<Finding>, AllocError>
            requires { AreTables (lines_of log.now) opts.now made.now
                × (half ≤ all) × (all ≡ length (lines_of log.now).lines) }
            ensures { IfOk result (IsFirstIn (lines_of log.entry.now) opts.entry.now half all) }
        { first_between(alloc, &Tables::new(log, opts, made), half, all) },
    );
    let above = above?;
    let below = below?;
    match above {
        Some(first) => Ok(Some(first)),
        None => Ok(below),
    }
}

/// The faults of a log as of one register.
pub(crate) fn findings_of(
    alloc: Global,
    log: &Log,
    opts: &AuditOpts,
) -> Result<Vec<Finding>, AllocError>
    ensures all { IfOk result (λ found. AreAll (lines_of log.now) None opts.now found.items) }
    ensures explained { IfOk result (λ found. length found.items ≡ 0
        ↔ AreExplained (case_of (lines_of log.now) opts.now)) }
{
    let made = tables_of(alloc, log, opts)?;
    let tables = Tables::new(log, opts, &made);
    findings_in(alloc, &tables)
}

/// The first fault of a log as of one register.
fn first_of(alloc: Global, log: &Log, opts: &AuditOpts) -> Result<Option<Finding>, AllocError>
    ensures first { IfOk result (IsFirstFound (lines_of log.now) None opts.now) }
    ensures explained { IfOk result
        (λ first. first ≡ None ↔ AreExplained (case_of (lines_of log.now) opts.now)) }
{
    let made = tables_of(alloc, log, opts)?;
    let tables = Tables::new(log, opts, &made);
    first_between(alloc, &tables, 0, log.lines().len())
}

/// The faults of a log, by its tables.
pub(crate) fn findings_in(alloc: Global, tables: &Tables<'_>) -> Result<Vec<Finding>, AllocError>
    ensures all { IfOk result (λ findings. AreAll (lines_of tables.now.log) None
        tables.now.opts findings.items) }
    ensures explained { IfOk result (λ findings. length findings.items ≡ 0
        ↔ AreExplained (case_in tables.now)) }
{
    let mut findings = Vec::new(alloc);
    for place in 0..tables.lines().len() {
        add_findings(&mut findings, tables, place)?;
    }
    Ok(findings)
}

/// The first fault at the lines from one place on and before another.
fn first_between(
    alloc: Global,
    tables: &Tables<'_>,
    from: usize,
    to: usize,
) -> Result<Option<Finding>, AllocError>
    requires range { (from ≤ to) × (to ≤ length (case_in tables.now).lines) }
    ensures { IfOk result (IsFirstIn (lines_of tables.now.log) tables.now.opts from to) }
{
    let mut findings = Vec::new(alloc);
    for place in from..to {
        add_findings(&mut findings, tables, place)?;
        if let Some(first) = findings.first() {
            return Ok(Some(*first));
        }
    }
    Ok(None)
}

/// Adds the faults of a line, in the order of [`Fault`].
fn add_findings(
    findings: &mut Vec<Finding>,
    tables: &Tables<'_>,
    place: usize,
) -> Result<(), AllocError>
    requires place { place < length (case_in tables.now).lines }
    ensures { OnOk result (ListsMore (lines_of tables.now.log) tables.now.opts
        findings.old.items findings.new.items (faults_at (case_in tables.now) place)) }
{
    add_finding(findings, tables, place, Fault::Order)?;
    add_finding(findings, tables, place, Fault::Wrong)?;
    add_finding(findings, tables, place, Fault::NotAbove)?;
    add_finding(findings, tables, place, Fault::Twice)?;
    add_finding(findings, tables, place, Fault::Stray)
}

/// Adds a fault, if it stands at the line.
pub(crate) fn add_finding(
    findings: &mut Vec<Finding>,
    tables: &Tables<'_>,
    place: usize,
    fault: Fault,
) -> Result<(), AllocError>
    requires place { place < length (case_in tables.now).lines }
    ensures { OnOk result (ListsMore (lines_of tables.now.log) tables.now.opts
        findings.old.items findings.new.items (found_if (case_in tables.now) fault place)) }
{
    if let Some(reason) = reason_of(tables, place, fault) {
        let found = Found {
            place: place as u32,
            fault,
        };
        let late = late_of(tables, place, fault);
        findings.push(Finding {
            found,
            reason,
            late,
        })?;
    }
    Ok(())
}

/// The faults of a log whose lines have keys.
pub(crate) fn findings_by_key(
    alloc: Global,
    log: &Log,
    keys: &[Option<u32>],
    opts: &AuditOpts,
) -> Result<Vec<Finding>, AllocError>
    requires as_many { length keys.now ≡ length (lines_of log.now).lines }
    ensures all { IfOk result
        (λ found. AreAll (lines_of log.now) (Some keys.now) opts.now found.items) }
    ensures explained { IfOk result (λ found. length found.items ≡ 0
        ↔ AreExplainedByKey (lines_of log.now) keys.now opts.now) }
{
    let parts = parts_of(alloc, keys)?;
    let mut found = Vec::new(alloc);
    for part in 0..parts.len() {
        let places = &parts[part].places;
        let lines = log.part(alloc, places)?;
        let here = findings_of(alloc, &lines, opts)?;
        add_placed(&mut found, &here, places)?;
    }
    sort_by_line(&mut found)?;
    Ok(found)
}

/// Adds what was found at the lines at some places, told of the whole log.
pub(crate) fn add_placed(
    found: &mut Vec<Finding>,
    here: &[Finding],
    places: &[u32],
) -> Result<(), AllocError>
    ensures { OnOk result (found.new.items
        ≡ found.old.items ++ map (placed_finding places.now) here.now) }
{
    for finding in here {
        found.push(placed_finding(places, *finding))?;
    }
    Ok(())
}

/// Sorts what was found, which stands in order at each line.
pub(crate) fn sort_by_line(found: &mut Vec<Finding>) -> Result<(), AllocError>
    ensures { OnOk result (AreByLine found.old.items found.new.items) }
{
    found.sort_by_key(|finding| finding.found.place)?;
    Ok(())
}

/// A finding, with all lines that it names told of the whole log.
fn placed_finding(places: &[u32], finding: Finding) -> Finding
    ensures { result ≡ placed_finding places.now finding }
{
    Finding {
        found: Found {
            place: place_in(places, finding.found.place),
            fault: finding.found.fault,
        },
        reason: placed_reason(places, finding.reason),
        late: placed_late(places, finding.late),
    }
}

/// A reason, with the lines that it names told of the whole log.
fn placed_reason(places: &[u32], reason: Reason) -> Reason
    ensures { result ≡ placed_reason places.now reason }
{
    match reason {
        Reason::Known { version, by } => Reason::Known {
            version,
            by: placed_by(places, by),
        },
        Reason::Unreported => Reason::Unreported,
        Reason::Reported { place, version, by } => Reason::Reported {
            place: place_in(places, place),
            version,
            by: placed_by(places, by),
        },
        Reason::Drawn { place } => Reason::Drawn {
            place: place_in(places, place),
        },
        Reason::Undrawn => Reason::Undrawn,
    }
}

fn placed_by(places: &[u32], by: Option<Witness>) -> Option<Witness>
    ensures { result ≡ placed_by places.now by }
{
    let by = by?;
    Some(Witness {
        place: place_in(places, by.place),
        means: placed_means(places, by.means),
    })
}

fn placed_means(places: &[u32], means: Means) -> Means
    ensures { result ≡ placed_means places.now means }
{
    match means {
        Means::Ended => Means::Ended,
        Means::Own => Means::Own,
        Means::Learnt(place) => Means::Learnt(place_in(places, place)),
    }
}

fn placed_late(places: &[u32], late: Option<Late>) -> Option<Late>
    ensures { result ≡ placed_late places.now late }
{
    let late = late?;
    Some(Late {
        place: place_in(places, late.place),
        by: late.by,
    })
}

/// Where a line of some stands in the whole log; 0 where there is none.
pub(crate) fn place_in(places: &[u32], place: u32) -> u32
    ensures { result ≡ slice_index places.now place }
{
    match places.get(place as usize) {
        Some(whole) => *whole,
        None => 0,
    }
}
