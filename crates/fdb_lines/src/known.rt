//! What each line knows: a line before it whose version is newest, and how it is known; in a log
//! without times, by what clients told each other.

ghost use Rattle.std.specs.Prelude.{◌≡◌, ◌≤◌, IfOk, List, OnOk, length, false, true, ℕ, cond};
ghost use Rattle.std.specs.BTreeMap.{get};
ghost use Rattle.std.specs.Ordering.{nat_cmp};
ghost use Rattle.fdb_lines.specs.Lines.{kind_of, line_at};
ghost use Rattle.fdb_lines.specs.private.Exposure.{counts};
ghost use Rattle.fdb_lines.specs.Before.{by_time, by_telling, is_of};
ghost use Rattle.fdb_lines.specs.private.Entries.{IsNewest};
ghost use Rattle.fdb_lines.specs.private.Known.{by_at, newer, of_all, of_own, version_by};
ghost use Rattle.fdb_lines.specs.private.Known.{version_in, witness, AreEnds, AreKnown, AreKnownOf};
ghost use Rattle.fdb_lines.specs.private.Known.{IsEndOf};
ghost use Rattle.fdb_lines.specs.private.Telling.{gained, heard_of, learnt_by};
ghost use Rattle.fdb_lines.specs.declared.line.Line.{Line};
ghost use Rattle.fdb_lines.specs.declared.known.Exposure.{Exposure};

use crate::end_table::{EndTable, Hints};
use crate::fault::{Means, Witness};
use crate::line::{End, Line, Operation};
use std::alloc::{AllocError, Global};
use std::collections::BTreeMap;

/// What lines let others know of a version: that it was shown, or that it was drawn.
#[derive(Clone, Copy, Debug, PartialEq, Eq)]
pub(crate) enum Exposure {
    /// Reads, reports and commits show their versions.
    Shown,
    /// Asks and commits draw theirs, of which only later asks and commits have to know.
    Drawn,
}

/// Whether a call lets this be known.
pub(crate) fn counts(seen: Exposure, call: Operation) -> bool
    ensures { result ≡ counts seen (kind_of call) }
{
    match seen {
        Exposure::Shown => call.shows(),
        Exposure::Drawn => call.draws(),
    }
}

/// For each line the newest of all that had ended by more than the margin before.
pub(crate) fn known_of_all(
    alloc: Global,
    lines: &[Line],
    margin: u64,
    seen: Exposure,
    ends: &EndTable,
) -> Result<Vec<Option<Witness>>, AllocError>
    requires { AreEnds false seen lines.now (length lines.now) ends.now.ends.items }
    ensures { IfOk result (λ known. AreKnownOf (of_all margin seen lines.now) margin lines.now
        (length lines.now) known.items) }
{
    let mut known = Vec::with_capacity(alloc, lines.len())?;
    let mut near = 0;
    for line in lines {
        let bound = line.began().saturating_sub(margin);
        let newest = ends.newest_before(0, bound, 0, &mut near);
        known.push(witness(newest, Means::Ended))?;
    }
    Ok(known)
}

/// Adds to each the newest of the client's own lines that had ended, by the table of those.
pub(crate) fn add_own(
    alloc: Global,
    table: &EndTable,
    lines: &[Line],
    margin: u64,
    seen: Exposure,
    known: &mut Vec<Option<Witness>>,
) -> Result<(), AllocError>
    requires few { length lines.now ≤ 4294967295 }
    requires ends { AreEnds true seen lines.now (length lines.now) table.now.ends.items }
    requires known { AreKnownOf (of_all margin seen lines.now) margin lines.now
        (length lines.now) known.old.items }
    ensures { OnOk result
        (AreKnown (by_time margin lines.now) margin seen lines.now known.new.items) }
{
    let mut hints = Hints::new(alloc, lines.len())?;
    for (place, line) in lines.iter().enumerate() {
        let own = own_before(table, line, place as u32, &mut hints);
        known[place] = newer(lines, known[place], witness(own, Means::Own));
    }
    Ok(())
}

/// The newest of the client's own lines that had ended when its line at a place began.
fn own_before(table: &EndTable, line: &Line, place: u32, hints: &mut Hints) -> Option<u32>
    ensures { (seen : Exposure) (lines : List Line) → line.now ≡ line_at lines place
        → AreEnds true seen lines (length lines) table.now.ends.items
        → IsNewest (of_own seen lines place) (version_in lines) (length lines) result }
{
    let client = line.client?;
    table.newest_before(client, line.began(), place, hints.of(client))
}

/// The table of the lines that let a version be known and that ended.
pub(crate) fn table_of(
    alloc: Global,
    lines: &[Line],
    seen: Exposure,
    by_client: bool,
) -> Result<EndTable, AllocError>
    requires { length lines.now ≤ 4294967295 }
    ensures { IfOk result
        (λ table. AreEnds by_client seen lines.now (length lines.now) table.ends.items) }
{
    let mut ends = Vec::with_capacity(alloc, lines.len())?;
    for (place, line) in lines.iter().enumerate() {
        if let Some(end) = end_of(line, place as u32, seen, by_client) {
            ends.push(end)?;
        }
    }
    EndTable::new(alloc, ends)
}

/// The end of a line, where it stands in the table.
fn end_of(line: &Line, above: u32, seen: Exposure, by_client: bool) -> Option<End>
    ensures { IsEndOf by_client seen line.now above result }
{
    if !counts(seen, line.call) {
        return None;
    }
    let time = line.ended()?;
    let group = if by_client { line.client? } else { 0 };
    Some(End::new(group, time, above, line.call.version()))
}

/// The line at a place, as what was known so.
fn witness(place: Option<u32>, means: Means) -> Option<Witness>
    ensures { result ≡ witness place means }
{
    match place {
        Some(place) => Some(Witness { place, means }),
        None => None,
    }
}

/// The one with the newer version, and the first where none is newer.
pub(crate) fn newer(lines: &[Line], one: Option<Witness>, other: Option<Witness>) -> Option<Witness>
    ensures { result ≡ newer lines.now one other }
{
    match (one, other) {
        (Some(one), Some(other)) => {
            let is_newer = version_in(lines, one.place as usize)
                < version_in(lines, other.place as usize);
            Some(if is_newer { other } else { one })
        }
        (Some(one), None) => Some(one),
        (None, other) => other,
    }
}

/// The version of the line at a place; 0 where there is none.
pub(crate) fn version_in(lines: &[Line], place: usize) -> u64
    ensures { result ≡ version_in lines.now place }
{
    match lines.get(place) {
        Some(line) => line.call.version(),
        None => 0,
    }
}

/// What is known of the call at a place.
pub(crate) fn by_at(known: &[Option<Witness>], place: usize) -> Option<Witness>
    ensures { result ≡ by_at known.now place }
{
    match known.get(place) {
        Some(by) => *by,
        None => None,
    }
}

/// The version that a witness lets be known; 0 where there is none.
pub(crate) fn version_by(lines: &[Line], by: Option<Witness>) -> u64
    ensures { result ≡ version_by lines.now by }
{
    match by {
        Some(by) => version_in(lines, by.place as usize),
        None => 0,
    }
}

/// Without times: for each line the newest of the lines before it that let their versions be known,
/// if there are some. `n log n` in how many lines there are.
pub(crate) fn known_by_telling(
    alloc: Global,
    lines: &[Line],
    seen: Exposure,
) -> Result<Vec<Option<Witness>>, AllocError>
    requires { length lines.now ≤ 4294967295 }
    ensures { IfOk result (λ known. (margin : ℕ)
        → AreKnown (by_telling lines.now) margin seen lines.now known.items) }
{
    let mut newest = BTreeMap::new(alloc);
    let mut known = Vec::with_capacity(alloc, lines.len())?;
    for (place, line) in lines.iter().enumerate() {
        known.push(heard_of(&newest, line.client))?;
        learn(&mut newest, lines, line, place as u32, seen)?;
    }
    Ok(known)
}

/// What a client has heard of; nothing where it is not known who it is.
fn heard_of(newest: &BTreeMap<u32, Witness>, client: Option<u32>) -> Option<Witness>
    ensures { result ≡ heard_of (λ q. get nat_cmp newest.now q) client }
{
    match client {
        Some(client) => newest.get(&client).copied(),
        None => None,
    }
}

/// A client has heard of its line from here on, or of what it has learnt.
fn learn(
    newest: &mut BTreeMap<u32, Witness>,
    lines: &[Line],
    line: &Line,
    place: u32,
    seen: Exposure,
) -> Result<(), AllocError>
    ensures { OnOk result ((q : ℕ) → get nat_cmp newest.new q ≡ cond (is_of q line.now.client)
        (newer lines.now (get nat_cmp newest.old q)
        (gained seen (λ p. get nat_cmp newest.old p) place line.now.call))
        (get nat_cmp newest.old q)) }
{
    let Some(client) = line.client else {
        return Ok(());
    };
    let old = newest.get(&client).copied();
    if let Some(by) = newer(lines, old, gained(newest, line.call, place, seen)) {
        newest.insert(client, by)?;
    }
    Ok(())
}

/// What a line lets its client learn of.
fn gained(
    newest: &BTreeMap<u32, Witness>,
    call: Operation,
    place: u32,
    seen: Exposure,
) -> Option<Witness>
    ensures { result ≡ gained seen (λ p. get nat_cmp newest.now p) place call }
{
    match call {
        Operation::Learn(teller) => learnt_by(newest.get(&teller).copied(), place),
        _ if counts(seen, call) => Some(Witness {
            place,
            means: Means::Own,
        }),
        _ => None,
    }
}

/// What was heard of, learnt by the line at a place.
fn learnt_by(heard: Option<Witness>, place: u32) -> Option<Witness>
    ensures { result ≡ learnt_by place heard }
{
    let by = heard?;
    Some(Witness {
        place: by.place,
        means: Means::Learnt(place),
    })
}
