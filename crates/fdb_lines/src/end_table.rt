//! A table of calls that ended, in which the newest version before a moment is found by a search,
//! which begins at a guess at where its client's calls stand.

ghost use Rattle.std.specs.Prelude.{◌≡◌, ◌<◌, ◌≤◌, ℕ, Bool, IfOk, IfSome, List, length, cond};
ghost use Rattle.std.specs.Prelude.{false, nat_lt, slice_index};
ghost use Rattle.std.specs.List.Sorted.{IsNonDecreasingBy, IsPermutation};
ghost use Rattle.std.specs.Ordering.{nat_cmp};
ghost use Rattle.fdb_lines.specs.Late.{is_outdated};
ghost use Rattle.fdb_lines.specs.Lines.{line_at};
ghost use Rattle.fdb_lines.specs.private.EndTable.{comes_by, end_at, end_key, AreNewest, IsFront};
ghost use Rattle.fdb_lines.specs.private.EndTable.{IsNewestAt};
ghost use Rattle.fdb_lines.specs.private.Entries.{IsNewest};
ghost use Rattle.fdb_lines.specs.private.Late.{outdates_by, sooner, IsFirstEnd};
ghost use Rattle.fdb_lines.specs.private.Known.{moment, stands_in, version_in, AreEnds};
ghost use Rattle.fdb_lines.specs.declared.line.Line.{Line};
ghost use Rattle.fdb_lines.specs.declared.known.Exposure.{Exposure};

use crate::fault::Fault;
use crate::line::End;
use std::alloc::{AllocError, Global};
use std::cmp::Ordering;

/// How far around a place a search looks first.
const NEXT: usize = 8;

/// How far around a place a search looks before it looks through all.
const NEAR: usize = 1_024;

/// The calls that ended, by group, time and place, and up to each where the newest of its group is.
#[derive(Drop)]
pub(crate) struct EndTable {
    ends: Vec<End>,
    newest: Vec<u32>,
    ghost in_order: { IsNonDecreasingBy end_key ends.items },
    ghost are_newest: { AreNewest ends.items newest.items },
}

impl EndTable {
    /// A table of these. `n log n` in how many there are.
    pub(crate) fn new(alloc: Global, mut ends: Vec<End>) -> Result<EndTable, AllocError>
        requires { length ends.items ≤ 4294967295 }
        ensures { IfOk result (λ table. IsPermutation ends.items table.ends.items) }
    {
        ends.sort_unstable_by(|a, b| order(a, b));
        let newest = newest_of(alloc, &ends)?;
        Ok(EndTable { ends, newest })
    }

    /// The newest line of a group before a moment, if there is one. Logarithmic.
    pub(crate) fn newest_before(
        &self,
        group: u32,
        time: u64,
        place: u32,
        near: &mut usize,
    ) -> Option<u32>
        ensures { (by_client : Bool) (seen : Exposure) (lines : List Line)
            → AreEnds by_client seen lines (length lines) self.now.ends.items
            → IsNewest (λ j. stands_in by_client seen (line_at lines j) j (moment group time place))
            (version_in lines) (length lines) result }
    {
        let newest = self.newest_end(group, time, place, near)?;
        Some(self.ends[newest].place)
    }

    /// The first end of a table of one group that outdates a version, if any does. The newest up to
    /// each end rises, so that it is a search. Logarithmic.
    pub(crate) fn first_that(&self, fault: Fault, version: u64) -> Option<End>
        ensures { (seen : Exposure) (lines : List Line)
            → AreEnds false seen lines (length lines) self.now.ends.items
            → IsFirstEnd (outdates_by fault seen lines version) lines result }
    {
        let front = self.newest.partition_point(|newest| !is_outdated(
            fault,
            version,
            version_of(&self.ends, *newest),
        ));
        if front < self.ends.len() {
            Some(self.ends[front])
        } else {
            None
        }
    }

    /// Where the newest of a group before a moment stands in the table. It is looked for first near
    /// the place that the last search left there.
    fn newest_end(&self, group: u32, time: u64, place: u32, near: &mut usize) -> Option<usize>
        ensures { IsNewest (λ i. comes_by (moment group time place) (end_at self.now.ends.items i))
            (λ i. (end_at self.now.ends.items i).version) (length self.now.ends.items) result }
    {
        let front = front_near(&self.ends, &End::new(group, time, place, 0), *near);
        *near = front;
        if front > 0 && self.ends[front - 1].group == group {
            Some(self.newest[front - 1] as usize)
        } else {
            None
        }
    }
}

/// Where an end stands in the order of the table, by group, then by time, then by place: one number,
/// which is compared at once.
fn key(end: &End) -> u128
    ensures { result ≡ end_key end.now }
{
    (end.group as u128 * 18_446_744_073_709_551_616 + end.time as u128) * 4_294_967_296
        + end.place as u128
}

/// The order of the table.
pub(crate) fn order(a: &End, b: &End) -> Ordering
    ensures { result ≡ nat_cmp (end_key a.now) (end_key b.now) }
{
    key(a).cmp(&key(b))
}

/// Whether the first comes before the second in the table.
fn is_before(a: &End, b: &End) -> bool
    ensures { result ≡ nat_lt (end_key a.now) (end_key b.now) }
{
    key(a) < key(b)
}

/// How many ends of a sorted table come before a moment. The ends around a place are looked through
/// first: where moments come nearly in order, that is much less of the table than all of it.
pub(crate) fn front_near(ends: &[End], moment: &End, near: usize) -> usize
    requires { IsNonDecreasingBy end_key ends.now }
    ensures bound { result ≤ length ends.now }
    ensures parts { IsFront ends.now (end_key moment.now) result }
{
    if let Some(front) = front_around(ends, moment, near, NEXT) {
        return front;
    }
    if let Some(front) = front_around(ends, moment, near, NEAR) {
        return front;
    }
    front_of(ends, moment)
}

/// How many ends of a sorted table come before a moment, if that is about as many as a guess.
fn front_around(ends: &[End], moment: &End, near: usize, reach: usize) -> Option<usize>
    requires { IsNonDecreasingBy end_key ends.now }
    ensures bound { IfSome result (λ front. front ≤ length ends.now) }
    ensures parts { IfSome result (λ front. IsFront ends.now (end_key moment.now) front) }
{
    let low = near.saturating_sub(reach);
    let high = near.saturating_add(reach);
    if high < ends.len() && is_before(&ends[low], moment) && !is_before(&ends[high], moment) {
        Some(low + front_of(&ends[low..high], moment))
    } else {
        None
    }
}

/// How many ends of a sorted table come before a moment.
fn front_of(ends: &[End], moment: &End) -> usize
    requires { IsNonDecreasingBy end_key ends.now }
    ensures bound { result ≤ length ends.now }
    ensures parts { IsFront ends.now (end_key moment.now) result }
{
    ends.partition_point(|end| is_before(end, moment))
}

/// The version of an end of a table; 0 past them.
fn version_of(ends: &[End], at: u32) -> u64
    ensures { result ≡ (end_at ends.now at).version }
{
    match ends.get(at as usize) {
        Some(end) => end.version,
        None => 0,
    }
}

/// Whether another version outdates that of a call.
fn is_outdated(fault: Fault, version: u64, other: u64) -> bool
    ensures { result ≡ is_outdated fault version other }
{
    match fault {
        Fault::Order => version < other,
        Fault::NotAbove => version <= other,
        Fault::Wrong | Fault::Twice | Fault::Stray => false,
    }
}

/// The one of two that ended first, and the first where they ended together.
pub(crate) fn sooner(one: Option<End>, other: Option<End>) -> Option<End>
    ensures { result ≡ sooner one other }
{
    match (one, other) {
        (Some(one), Some(other)) => Some(if other.time < one.time { other } else { one }),
        (Some(one), None) => Some(one),
        (None, other) => other,
    }
}

/// Up to each end of a sorted table, where the newest of its group is.
fn newest_of(alloc: Global, ends: &[End]) -> Result<Vec<u32>, AllocError>
    requires sorted { IsNonDecreasingBy end_key ends.now }
    requires few { length ends.now ≤ 4294967295 }
    ensures { IfOk result (λ newest. AreNewest ends.now newest.items) }
{
    let mut newest = Vec::with_capacity(alloc, ends.len())?;
    for i in 0..ends.len() {
        let at = newest_at(ends, &newest, i);
        newest.push(at)?;
    }
    Ok(newest)
}

/// Where the newest up to an end of its group is, by where it is up to the one before.
fn newest_at(ends: &[End], newest: &[u32], i: usize) -> u32
    requires sorted { IsNonDecreasingBy end_key ends.now }
    requires few { length ends.now ≤ 4294967295 }
    requires place { i < length ends.now }
    requires as_many { length newest.now ≡ i }
    requires before { (k : ℕ) → k < i → IsNewestAt ends.now k (slice_index newest.now k) }
    ensures { IsNewestAt ends.now i result }
{
    if i > 0 && ends[i - 1].group == ends[i].group {
        newer_of(ends, newest[i - 1], i as u32)
    } else {
        i as u32
    }
}

/// Which of two ends has the newer version, and the first where none is newer.
fn newer_of(ends: &[End], one: u32, other: u32) -> u32
    requires one { one < length ends.now }
    requires other { other < length ends.now }
    ensures { result ≡ cond (nat_lt (end_at ends.now one).version (end_at ends.now other).version) other one }
{
    if ends[one as usize].version < ends[other as usize].version {
        other
    } else {
        one
    }
}

/// How many guesses there are at most. Clients whose numbers differ by a multiple share one.
const GUESSES: usize = 4_096;

/// For each client, where the last search for a call of it ended. The next one begins there.
#[derive(Drop)]
pub(crate) struct Hints {
    places: Vec<usize>,
    ghost some: { 0 < length places.items },
}

impl Hints {
    /// The front of the table, for each client, with no more guesses than there are lines.
    pub(crate) fn new(alloc: Global, lines: usize) -> Result<Self, AllocError> {
        let mut places = Vec::new(alloc);
        places.push(0)?;
        for _guess in 1..lines.min(GUESSES) {
            places.push(0)?;
        }
        Ok(Hints { places })
    }

    /// The guess of a client, which a search may write.
    pub(crate) fn of(&mut self, client: u32) -> &mut usize {
        let guess = client as usize % self.places.len();
        &mut self.places[guess]
    }
}
