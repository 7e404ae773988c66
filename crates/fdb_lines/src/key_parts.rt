//! The parts of an audit that watches by key: a line is added to one, and those that are open
//! settle.

ghost use Rattle.std.specs.Prelude.{◌≡◌, ◌≢◌, ◌<◌, All, IfOk, OnErr, OnOk, None, [], false, length};
ghost use Rattle.std.specs.List.{AllPairs, filter, flat_map};
ghost use Rattle.fdb_lines.specs.private.KeyParts.{flag_at, flags_of, AreEntriesOf, AreNext};
ghost use Rattle.fdb_lines.specs.private.KeyParts.{AreOpen, ArePut, HasNoMoreAt, HasOneMoreAt};
ghost use Rattle.fdb_lines.specs.private.KeyParts.{kept_in_part, StaysAt};

use crate::key_part::{KeptLine, KeyPart, SettledKey};
use crate::line::Line;
use crate::log::{LineError, Log};
use crate::watch::{Settled, WatchError};
use std::alloc::{AllocError, Global};
use std::mem::replace;

/// Parts as they go on once they have settled, and what is told then.
#[derive(Drop)]
pub(crate) struct NextParts {
    pub(crate) parts: Vec<KeyPart>,
    pub(crate) told: Vec<SettledKey>,
}

/// Adds a line to a part, which is open from then on.
pub(crate) fn add_line(
    parts: &mut Vec<KeyPart>,
    open_parts: &mut Vec<usize>,
    place: usize,
    line: Line,
    number: u64,
) -> Result<(), WatchError>
    requires within { place < length parts.old.items }
    requires opened { AreOpen (flags_of parts.old.items) open_parts.old.items }
    ensures opened { AreOpen (flags_of parts.new.items) open_parts.new.items }
    ensures stays { StaysAt place parts.old.items parts.new.items }
    ensures ok { OnOk result (HasOneMoreAt place line number parts.old.items parts.new.items) }
    ensures err { OnErr result (HasNoMoreAt place parts.old.items parts.new.items) }
{
    if !parts[place].is_open {
        if let Err(_refused) = open_parts.push(place) {
            return Err(WatchError::Line(LineError::Memory));
        }
    }
    parts[place].push(line, number)
}

/// How the parts at some places go on once they have settled up to a moment, and what they tell.
pub(crate) fn next_parts(
    alloc: Global,
    parts: &[KeyPart],
    places: &[usize],
    at: u64,
) -> Result<NextParts, AllocError>
    requires { All (λ i. i < length parts.now) places.now }
    ensures { IfOk result
        (λ next. AreNext at parts.now places.now next.parts.items next.told.items) }
{
    let mut next_parts = Vec::with_capacity(alloc, places.len())?;
    let mut told = Vec::with_capacity(alloc, places.len())?;
    for place in places {
        let next = parts[*place].next(alloc, at)?;
        next_parts.push(next.part)?;
        told.push(SettledKey {
            key: parts[*place].key,
            settled: Settled {
                log: Log::new(alloc),
                numbers: Vec::new(alloc),
                found: next.found,
                kept: next.kept,
            },
        })?;
    }
    Ok(NextParts {
        parts: next_parts,
        told,
    })
}

/// Puts in their places how parts go on, and gives the lines that they kept until now to what is
/// told.
pub(crate) fn put_parts(
    parts: &mut Vec<KeyPart>,
    places: &[usize],
    mut next_parts: Vec<KeyPart>,
    told: &mut Vec<SettledKey>,
)
    requires within { All (λ i. i < length parts.old.items) places.now }
    requires once { AllPairs (λ i j. i ≢ j) places.now }
    requires sizes { (length next_parts.items ≡ length places.now)
        × (length told.old.items ≡ length places.now) }
    ensures { ArePut parts.old.items places.now next_parts.items told.old.items
        parts.new.items told.new.items }
{
    while let Some(next) = next_parts.pop() {
        let place = next_parts.len();
        parts[places[place]].go_on(next, &mut told[place]);
    }
}

/// What is told of all lines of the parts at some places that were not told of.
pub(crate) fn finish_parts(
    alloc: Global,
    mut parts: Vec<KeyPart>,
    places: &[usize],
) -> Result<Vec<SettledKey>, AllocError>
    requires within { All (λ i. i < length parts.items) places.now }
    requires once { AllPairs (λ i j. i ≢ j) places.now }
    ensures entries { IfOk result (λ told. AreEntriesOf None parts.items places.now told.items) }
    ensures kept { IfOk result (λ told.
        All (λ entry. entry.settled.kept.items ≡ []) told.items) }
{
    let mut told = Vec::with_capacity(alloc, places.len())?;
    for place in places {
        let part = replace(&mut parts[*place], KeyPart::new(alloc, None, 0, 0));
        told.push(part.finish(alloc)?)?;
    }
    Ok(told)
}

/// The lines that some parts keep.
pub(crate) fn kept_lines(alloc: Global, parts: &[KeyPart]) -> Result<Vec<KeptLine>, AllocError>
    ensures { IfOk result (λ kept. kept.items ≡ flat_map kept_in_part parts.now) }
{
    let mut kept = Vec::new(alloc);
    for part in parts {
        part.add_kept(&mut kept)?;
    }
    Ok(kept)
}

/// Keeps of some places those at which a part is open.
pub(crate) fn keep_open(parts: &[KeyPart], places: &mut Vec<usize>)
    ensures { places.new.items ≡ filter (flag_at (flags_of parts.now)) places.old.items }
{
    places.retain(|place| is_open_at(parts, *place));
}

/// Whether there is a part at a place, and it is open.
fn is_open_at(parts: &[KeyPart], place: usize) -> bool
    ensures { result ≡ flag_at (flags_of parts.now) place }
{
    match parts.get(place) {
        Some(part) => part.is_open,
        None => false,
    }
}
