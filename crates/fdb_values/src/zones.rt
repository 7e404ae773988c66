//! The zones of values: when their calls were.

ghost use Rattle.std.specs.Prelude.{◌≡◌, IfOk, length, max};
ghost use Rattle.fdb_lines.specs.Before.{began, ended};
ghost use Rattle.fdb_values.specs.Standings.{zone_in, HasZones};
ghost use Rattle.fdb_values.specs.Zones.{sooner, zone_key};

use fdb_lines::Line;
use std::alloc::{AllocError, Global};
use std::collections::BTreeMap;

/// When the calls of a value were: the first end, where one is known, and the last begin.
#[derive(Clone, Copy, Debug, Drop)]
pub(crate) struct Zone {
    pub(crate) first: Option<u64>,
    pub(crate) last: u64,
}

impl Zone {
    /// With one call more.
    fn with(self, line: &Line) -> Zone
        ensures first { result.first ≡ sooner (ended line.now) self.first }
        ensures last { result.last ≡ max (began line.now) self.last }
    {
        let first = match (line.ended(), self.first) {
            (Some(end), Some(first)) => Some(end.min(first)),
            (Some(end), None) => Some(end),
            (None, first) => first,
        };
        Zone {
            first,
            last: line.began().max(self.last),
        }
    }

    /// Where it stands among others.
    pub(crate) fn key(self, margin: u64) -> u128
        ensures { result ≡ zone_key margin self.first self.last }
    {
        let last = self.last as u128;
        match self.first {
            Some(first) if first as u128 + (margin as u128) < last => {
                2 * (first as u128 + margin as u128) + 1
            }
            _ => 2 * last,
        }
    }
}

/// The zones of all values. `n log n` in how many lines there are.
pub(crate) fn zones_of(alloc: Global, lines: &[Line]) -> Result<BTreeMap<u64, Zone>, AllocError>
    ensures { IfOk result (λ zones. HasZones lines.now (length lines.now) zones) }
{
    let mut zones = BTreeMap::new(alloc);
    for line in lines {
        let value = line.call.version();
        let zone = zone_in(&zones, value).with(line);
        zones.insert(value, zone)?;
    }
    Ok(zones)
}

/// The zone of a value; of one that is not there it has no end and begins with all.
pub(crate) fn zone_in(zones: &BTreeMap<u64, Zone>, value: u64) -> Zone
    ensures { result ≡ zone_in zones.now value }
{
    match zones.get(&value) {
        Some(zone) => *zone,
        None => Zone {
            first: None,
            last: 0,
        },
    }
}
