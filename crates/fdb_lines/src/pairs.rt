//! How many pairs of lines are in order, by when calls ended, of all clients and by client, of
//! which those before a moment are counted by a search.

ghost use Rattle.std.specs.Prelude.{◌≡◌, ◌+◌, ◌-◌, ◌*◌, ◌<◌, ◌≤◌, IfOk, length, ℕ, OnOk, Option};
ghost use Rattle.std.specs.Prelude.{cond};
ghost use Rattle.std.specs.List.Sorted.{IsNonDecreasingBy};
ghost use Rattle.fdb_lines.specs.Before.{by_time, ended};
ghost use Rattle.fdb_lines.specs.Log.{lines_of};
ghost use Rattle.fdb_lines.specs.Summary.{pairs, tally};
ghost use Rattle.fdb_lines.specs.private.KeySums.{ordered_if};
ghost use Rattle.fdb_lines.specs.private.Ended.{HasEnds, HasTimes, pairs_below, count_before};
ghost use Rattle.fdb_lines.specs.private.Ended.{line_before, had_ended, times_before};
ghost use Rattle.fdb_lines.specs.private.EndTable.{end_key};

use crate::end_table::{Hints, front_near, order};
use crate::line::{End, Line};
use crate::log::{AuditOpts, Log};
use std::alloc::{AllocError, Global};
use std::thread::{Threads, join};

/// Of how many pairs of lines one comes before the other; 0 of lines without times. `n log n` in how
/// many lines there are.
pub(crate) fn ordered(alloc: Global, log: &Log, opts: &AuditOpts) -> Result<u64, AllocError>
    ensures { IfOk result (λ n. n ≡ ordered_if (lines_of log.now) opts.now) }
{
    if !log.is_timed() {
        return Ok(0);
    }
    let lines = log.lines();
    let all = EndTimes::new(alloc, lines)?;
    let own = Ended::new(alloc, lines)?;
    pairs_among(alloc, &all, &own, lines, opts.margin, 0, lines.len())
}

/// The same, by threads.
pub(crate) fn ordered_in_threads<R: Threads + Sync>(
    rt: &R,
    alloc: Global,
    log: &Log,
    opts: &AuditOpts,
) -> Result<u64, AllocError>
    ensures { IfOk result (λ n. n ≡ ordered_if (lines_of log.now) opts.now) }
{
    if log.is_timed() {
        pairs_in_threads(rt, alloc, log.lines(), opts.margin)
    } else {
        Ok(0)
    }
}

/// How many pairs are in order, by two threads.
fn pairs_in_threads<R: Threads + Sync>(
    rt: &R,
    alloc: Global,
    lines: &[Line],
    margin: u64,
) -> Result<u64, AllocError>
    requires { length lines.now ≤ 4294967295 }
    ensures { IfOk result (λ n. n ≡ pairs (by_time margin lines.now) (length lines.now)) }
{
    let (all, own) = join(
        rt,
        || EndTimes::new(alloc, lines),
        || Ended::new(alloc, lines),
    );
    let all = all?;
    let own = own?;
    let (all, own) = (&all, &own);
    let count = lines.len();
    let half = count / 2;
    let (first, second) = join(
        rt,
        || pairs_among(alloc, all, own, lines, margin, 0, half),
        || pairs_among(alloc, all, own, lines, margin, half, count),
    );
    let first = first?;
    let second = second?;
    Ok(first + second)
}

/// How many pairs there are of which the later line stands at one of these places.
#[tactic(auto, using(crate::proofs::Tallies::tally_most))]
fn pairs_among(
    alloc: Global,
    all: &EndTimes,
    own: &Ended,
    lines: &[Line],
    margin: u64,
    from: usize,
    to: usize,
) -> Result<u64, AllocError>
    requires few { length lines.now ≤ 4294967295 }
    requires all { HasTimes lines.now (length lines.now) all.now.times.items }
    requires own { HasEnds lines.now (length lines.now) own.now.ends.items }
    requires range { (from ≤ to) × (to ≤ length lines.now) }
    ensures sum { IfOk result (λ n. n + pairs_below (by_time margin lines.now) (length lines.now) from
        ≡ pairs_below (by_time margin lines.now) (length lines.now) to) }
    ensures fit { IfOk result (λ n. n ≤ (to - from) * 4294967295) }
{
    let mut hints = Hints::new(alloc, lines.len())?;
    let mut pairs: u64 = 0;
    for place in from..to {
        pairs += before(all, own, lines, place, margin, &mut hints);
    }
    Ok(pairs)
}

/// How many lines come before the one at a place: all that had ended by more than the margin, and
/// its client's own that had ended, of which `twice` are among both.
fn before(
    all: &EndTimes,
    own: &Ended,
    lines: &[Line],
    place: usize,
    margin: u64,
    hints: &mut Hints,
) -> u64
    requires few { length lines.now ≤ 4294967295 }
    requires place { place < length lines.now }
    requires all { HasTimes lines.now (length lines.now) all.now.times.items }
    requires own { HasEnds lines.now (length lines.now) own.now.ends.items }
    ensures { result ≡ tally (λ j. by_time margin lines.now j place) (length lines.now) }
{
    let line = &lines[place];
    let began = line.began();
    let bound = began.saturating_sub(margin);
    let earlier = all.before(bound);
    let near = hints.of(line.client.unwrap_or(0));
    let known = own.before(line.client, began, place as u32, near);
    let twice = own.before(line.client, bound, 0, near);
    (earlier + known - twice) as u64
}

/// The ends of calls, by group, time and place.
#[derive(Drop)]
pub(crate) struct Ended {
    ends: Vec<End>,
    ghost in_order: { IsNonDecreasingBy end_key ends.items },
}

impl Ended {
    /// The ends of the lines of known clients, by client. `n log n` in how many there are.
    pub(crate) fn new(alloc: Global, lines: &[Line]) -> Result<Self, AllocError>
        requires { length lines.now ≤ 4294967295 }
        ensures { IfOk result (λ ended. HasEnds lines.now (length lines.now) ended.ends.items) }
    {
        let mut ends = Vec::with_capacity(alloc, lines.len())?;
        for (place, line) in lines.iter().enumerate() {
            add_end(&mut ends, line, place as u32)?;
        }
        ends.sort_unstable_by(|a, b| order(a, b));
        Ok(Ended { ends })
    }

    /// How many of a known group had ended before a moment, with all of lower groups. It is looked
    /// for first near the place that the last search left there. Logarithmic.
    pub(crate) fn before(
        &self,
        group: Option<u32>,
        time: u64,
        place: u32,
        near: &mut usize,
    ) -> usize
        ensures { result ≡ count_before self.now.ends.items group time place }
    {
        let Some(group) = group else {
            return 0;
        };
        *near = front_near(&self.ends, &End::new(group, time, place, 0), *near);
        *near
    }
}

/// Adds the end of the line at a place, if it has one and its group is known.
fn add_end(ends: &mut Vec<End>, line: &Line, above: u32) -> Result<(), AllocError>
    ensures { OnOk result ((group : Option ℕ) (time place : ℕ)
        → count_before ends.new.items group time place
        ≡ cond (line_before line.now above group time place) 1 0
        + count_before ends.old.items group time place) }
{
    if let (Some(group), Some(time)) = (line.client, line.ended()) {
        ends.push(End::new(group, time, above, line.call.version()))?;
    }
    Ok(())
}

/// When calls of any client ended, in order.
#[derive(Drop)]
pub(crate) struct EndTimes {
    times: Vec<u64>,
    ghost in_order: { IsNonDecreasingBy (λ (time : ℕ). time) times.items },
}

impl EndTimes {
    /// When these lines ended. `n log n` in how many there are.
    pub(crate) fn new(alloc: Global, lines: &[Line]) -> Result<Self, AllocError>
        ensures { IfOk result (λ ended. HasTimes lines.now (length lines.now) ended.times.items) }
    {
        let mut times = Vec::with_capacity(alloc, lines.len())?;
        for line in lines {
            add_time(&mut times, line)?;
        }
        times.sort_unstable();
        Ok(EndTimes { times })
    }

    /// How many had ended before a moment. Logarithmic.
    pub(crate) fn before(&self, time: u64) -> usize
        ensures { result ≡ times_before self.now.times.items time }
    {
        self.times.partition_point(|end| *end < time)
    }
}

/// Adds when a line ended, if it did.
fn add_time(times: &mut Vec<u64>, line: &Line) -> Result<(), AllocError>
    ensures { OnOk result ((time : ℕ) → times_before times.new.items time
        ≡ cond (had_ended (ended line.now) time) 1 0 + times_before times.old.items time) }
{
    if let Some(time) = line.ended() {
        times.push(time)?;
    }
    Ok(())
}
