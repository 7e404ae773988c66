//! The ranks of values, by how many lines are of values that stand below.

ghost use Rattle.std.specs.Prelude.{◌≡◌, ◌≤◌, ℕ, List, IfErr, IfOk, count_by, length, map, true};
ghost use Rattle.std.specs.List.Sorted.{IsNonDecreasingBy};
ghost use Rattle.fdb_lines.specs.declared.line.Line.{Line};
ghost use Rattle.fdb_lines.specs.declared.log.LineError.TheVariants.{Memory};
ghost use Rattle.fdb_lines.specs.Lines.{version_of};
ghost use Rattle.fdb_lines.specs.Log.{lines_of};
ghost use Rattle.fdb_values.specs.declared.standing.Standing.{Standing};
ghost use Rattle.fdb_values.specs.ByValue.{ranked_line, AreByValue};
ghost use Rattle.fdb_values.specs.Standings.{is_below, standing_number, zone_in, HasStandings};
ghost use Rattle.fdb_values.specs.Standings.{HasZones};
ghost use Rattle.fdb_values.specs.ValuesByKey.{IsRankedLog};
ghost use Rattle.fdb_values.specs.Zones.{rank_by_zone, zone_key};

use crate::standing::Standing;
use crate::zones::{Zone, zone_in, zones_of};
use fdb_lines::{Line, LineError, Log, Operation};
use std::alloc::{AllocError, Global};
use std::collections::BTreeMap;

/// Where the values of lines stand, in order.
#[derive(Drop)]
struct Standings {
    all: Vec<Standing>,
    ghost in_order: { IsNonDecreasingBy standing_number all.items },
}

impl Standings {
    /// Where the values of these lines stand, one for each line. `n log n` in how many there are.
    fn new(
        alloc: Global,
        lines: &[Line],
        zones: &BTreeMap<u64, Zone>,
        margin: u64,
    ) -> Result<Self, AllocError>
        requires { HasZones lines.now (length lines.now) zones.now }
        ensures { IfOk result
            (λ made. HasStandings margin lines.now (length lines.now) made.all.items) }
    {
        let mut all = Vec::with_capacity(alloc, lines.len())?;
        for line in lines {
            all.push(standing_of(zones, line.call.version(), margin))?;
        }
        all.sort_unstable_by(|a, b| a.order(b));
        Ok(Standings { all })
    }

    /// How many stand below one. Logarithmic.
    fn below(&self, standing: &Standing) -> usize
        ensures bound { result ≤ length self.now.all.items }
        ensures count { result ≡ count_by
            (λ (one : Standing). is_below one.key one.value standing.now.key standing.now.value)
            self.now.all.items }
    {
        self.all.partition_point(|one| one.is_below(standing))
    }
}

/// Where a value stands by its zone.
fn standing_of(zones: &BTreeMap<u64, Zone>, value: u64, margin: u64) -> Standing
    ensures key { result.key
        ≡ zone_key margin (zone_in zones.now value).first (zone_in zones.now value).last }
    ensures value { result.value ≡ value }
{
    Standing::new(zone_in(zones, value).key(margin), value)
}

/// The rank of a value. Logarithmic.
fn rank_of(standings: &Standings, zones: &BTreeMap<u64, Zone>, value: u64, margin: u64) -> u64
    ensures { (lines : List Line) → HasZones lines (length lines) zones.now
        → HasStandings margin lines (length lines) standings.now.all.items
        → result ≡ rank_by_zone margin lines value }
{
    if value == 0 {
        return 0;
    }
    standings.below(&standing_of(zones, value, margin)) as u64 + 1
}

/// A line with the rank of its value, and of nobody.
fn with_rank(line: Line, rank: u64) -> Line
    ensures { (ranks : ℕ → ℕ) → rank ≡ ranks (version_of line.call)
        → result ≡ ranked_line ranks line }
{
    let call = match line.call {
        Operation::Read(_) => Operation::Read(rank),
        Operation::Commit(_) => Operation::Commit(rank),
        Operation::Ask(_) => Operation::Ask(rank),
        Operation::Report(_) => Operation::Report(rank),
        Operation::Learn(teller) => Operation::Learn(teller),
    };
    Line {
        client: None,
        call,
        times: line.times,
    }
}

/// The lines with the ranks of their values for versions, by zones, and of nobody. `n log n` in how
/// many there are.
pub fn ranked_lines(alloc: Global, lines: &[Line], margin: u64) -> Result<Vec<Line>, AllocError>
    ensures { IfOk result
        (λ made. made.items ≡ map (ranked_line (rank_by_zone margin lines.now)) lines.now) }
{
    let zones = zones_of(alloc, lines)?;
    let standings = Standings::new(alloc, lines, &zones, margin)?;
    let mut made = Vec::with_capacity(alloc, lines.len())?;
    for line in lines {
        let rank = rank_of(&standings, &zones, line.call.version(), margin);
        made.push(with_rank(*line, rank))?;
    }
    Ok(made)
}

/// The same as a log, to be audited as one of all calls that begins with version 0. An error only
/// where memory is refused.
pub fn ranked_log(alloc: Global, log: &Log, margin: u64) -> Result<Log, LineError>
    requires timed { (lines_of log.now).timed ≡ true }
    requires by_value { AreByValue (lines_of log.now).lines }
    ensures ranked { IfOk result
        (λ made. IsRankedLog margin (lines_of log.now).lines (lines_of made)) }
    ensures error { IfErr result (λ error. error ≡ Memory) }
{
    let Ok(lines) = ranked_lines(alloc, log.lines(), margin) else {
        return Err(LineError::Memory);
    };
    let mut made = Log::new(alloc);
    for line in &lines {
        made.push(*line)?;
    }
    Ok(made)
}
