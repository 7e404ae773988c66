//! Whether a text that was written says what is kept.

ghost use Rattle.std.specs.Prelude.{◌≡◌, ◌<◌, ◌∷◌, [], All, IfOk, IsPermutation, List, None};
ghost use Rattle.std.specs.Prelude.{Option, Result, is_some, length, map, true, if◌then◌else◌};
ghost use Rattle.std.specs.Prelude.{◌&&◌};
ghost use Rattle.std.specs.List.Sorted.{IsNonDecreasing};
ghost use Rattle.fdb_lines.specs.KeyWatch.{HasSeenByKey, IsKept};
ghost use Rattle.fdb_lines.specs.declared.fault.Found.{Found};
ghost use Rattle.fdb_log_reader.specs.LineReader.{line_names};
ghost use Rattle.fdb_log_reader.specs.ReadLine.{SaidLine, member_in, said_in};
ghost use Rattle.fdb_log_reader.specs.Reading.{lines_in, EndsALine};
ghost use Rattle.fdb_log_reader.specs.declared.error.Why.{Why};
ghost use Rattle.fdb_audit.specs.Following.{Start, keys_taken, lines_taken, taken};
ghost use Rattle.fdb_audit.specs.Kept.{kept_at, kept_members, kept_said};
ghost use Rattle.fdb_audit.specs.Kept.{lines_kept, named_in, named_said, Rise};
ghost use Rattle.fdb_audit.specs.GoingOn.{places_staying};
ghost use Rattle.fdb_audit.specs.private.KeyTimes.{is_staying};
ghost use Rattle.fdb_audit.specs.Taken.{AreTaken};
ghost use Rattle.fdb_audit.specs.private.KeptTexts.{named_kept, number_of, said_of};

use crate::kept::{KeptText, client_name, key_name};
use crate::members::Numbering;
use crate::refusal::KeptRefused;
use crate::taken_lines::Taking;
use fdb_lines::{KeptLine, Line};
use fdb_log_reader::{LineReader, ReadLine, Why};
use std::alloc::{AllocError, Global};

/// The lines that are kept, but for those of keys that are to be forgotten, in the order in which they
/// came.
pub(crate) fn kept_in_order(
    alloc: Global,
    taking: &Taking,
    forget: Option<u64>,
) -> Result<Vec<KeptLine>, AllocError>
    ensures rise { IfOk result (λ kept. IsNonDecreasing (map number_of kept.items)) }
    ensures kept { IfOk result (λ kept. (read : List (Result SaidLine Why))
        → HasSeenByKey taking.now.watch (lines_taken read) (keys_taken read)
        → IsPermutation (places_staying
        (is_staying taking.now.times forget taking.now.clocks.believed) read taking.now)
        (map number_of kept.items)
        × All (IsKept (lines_taken read) (keys_taken read)) kept.items) }
{
    let mut kept = taking.watch.kept(alloc)?;
    taking
        .times
        .forget(forget, taking.clocks.believed, &mut kept);
    kept.sort_unstable_by_key(|line| line.number);
    Ok(kept)
}

/// Their places among all lines that were taken.
fn places_of(alloc: Global, kept: &[KeptLine]) -> Result<Vec<u64>, AllocError>
    ensures { IfOk result (λ places. places.items ≡ map number_of kept.now) }
{
    let mut places = Vec::with_capacity(alloc, kept.len())?;
    for line in kept {
        places.push(line.number)?;
    }
    Ok(places)
}

/// Reads back a text: why it does not say that these lines are kept, if it does not.
pub(crate) fn refusal_of(
    alloc: Global,
    reader: &LineReader,
    taking: &Taking,
    kept: &[KeptLine],
    text: &[u8],
) -> Result<Option<KeptRefused>, AllocError>
    ensures said { IfOk result (λ it. it ≡ None → (start : Start)
        → (read : List (Result SaidLine Why)) → (told : List Found)
        → AreTaken start taking.now read told
        → All (IsKept (lines_taken read) (keys_taken read)) kept.now
        → kept_said (lines_kept (member_in (line_names reader.now)) text.now) ≡ kept_at
        start.kept read (map number_of kept.now) taking.now.settled taking.now.watch.from
        (is_some taking.now.clocks.second)) }
    ensures lines { IfOk result (λ it. it ≡ None → let names = line_names reader.now in
        named_in (member_in names) kept_members text.now ≡ map (named_kept names) kept.now) }
    ensures rise { IfOk result (λ it. it ≡ None → let names = line_names reader.now in
        Rise (kept_said (lines_kept (member_in names) text.now)).front.lines) }
    ensures many { IfOk result (λ it. it ≡ None
        → length (lines_in text.now) ≡ length kept.now) }
    ensures ends { IfOk result (λ it. it ≡ None → EndsALine text.now) }
{
    let read = match KeptText::read(alloc, reader.key_member(), text)? {
        Ok(read) => read,
        Err(refused) => return Ok(Some(refused)),
    };
    let places = places_of(alloc, kept)?;
    let is_kept = says_kept(alloc, &read.said, taking, &places)?;
    if is_kept && are_said(&read.lines, &read.reader, kept, reader) {
        return Ok(None);
    }
    Ok(Some(KeptRefused { line: 0, why: None }))
}

/// Whether a text says that the lines at these places are kept.
fn says_kept(
    alloc: Global,
    said: &KeptText,
    taking: &Taking,
    places: &[u64],
) -> Result<bool, AllocError>
    ensures { IfOk result (λ it. it ≡ true → (start : Start)
        → (read : List (Result SaidLine Why)) → (told : List Found)
        → AreTaken start taking.now read told
        → All (λ place. place < length (taken read)) places.now → said_of said.now
        ≡ kept_at start.kept read places.now taking.now.settled taking.now.watch.from
        (is_some taking.now.clocks.second)) }
{
    let lines = taking.numbering.lines_at(alloc, places)?;
    let come = places
        .iter()
        .filter(|place| **place < taking.settled)
        .count();
    let beside = taking.line_count().saturating_sub(places.len() as u64);
    let more = number_if(places.len() > 0, beside);
    let at = number_if(come > 0, taking.watch.settled_to());
    let are_many = many_if(places.len() > 0, taking.clocks.are_many());
    Ok(says(said, &lines, come, more, at, are_many))
}

/// Whether a text says this.
fn says(
    said: &KeptText,
    lines: &[u64],
    told: usize,
    more: u64,
    settled: u64,
    are_many: bool,
) -> bool
    ensures { result ≡ true → (said.now.lines.items ≡ lines.now) × (said.now.told ≡ told)
        × (said.now.more ≡ more) × (said.now.settled ≡ settled)
        × (said.now.are_many ≡ are_many) }
{
    said.lines.as_slice() == lines
        && said.told == told
        && said.more == more
        && said.settled == settled
        && said.are_many == are_many
}

/// Whether lines that were read back, by the names of a reader, say what those do that are kept, by
/// the names of theirs.
fn are_said(
    said: &[Result<ReadLine, Why>],
    reader: &LineReader,
    kept: &[KeptLine],
    theirs: &LineReader,
) -> bool
    ensures said { result ≡ true
        → map (named_said (line_names reader.now)) (taken (map said_in said.now))
        ≡ map (named_kept (line_names theirs.now)) kept.now }
    ensures many { result ≡ true → length said.now ≡ length kept.now }
{
    if said.len() != kept.len() {
        return false;
    }
    for (one, other) in said.iter().zip(kept) {
        if !is_said(one, reader, other, theirs) {
            return false;
        }
    }
    true
}

/// Whether one of them is read, and does.
fn is_said(
    said: &Result<ReadLine, Why>,
    reader: &LineReader,
    kept: &KeptLine,
    theirs: &LineReader,
) -> bool
    ensures { result ≡ true → map (named_said (line_names reader.now)) (taken (said_in said.now ∷ []))
        ≡ named_kept (line_names theirs.now) kept.now ∷ [] }
{
    match said {
        Ok(said) => {
            is_same_call(&said.line, &kept.line)
                && client_name(reader, said.line.client) == client_name(theirs, kept.line.client)
                && key_name(reader, said.key) == key_name(theirs, kept.key)
        }
        Err(_) => false,
    }
}

/// Whether two lines say that the same was done, at the same times.
fn is_same_call(one: &Line, other: &Line) -> bool
    ensures { result ≡ true → (one.now.call ≡ other.now.call) × (one.now.times ≡ other.now.times) }
{
    one.call == other.call && one.times == other.times
}

/// Whether lines of more than one client had come, if that is said.
fn many_if(is_said: bool, are_many: bool) -> bool
    ensures { result ≡ is_said && are_many }
{
    is_said && are_many
}

/// A number, if it is said: up to when all was told, or how many more lines were read.
fn number_if(is_said: bool, number: u64) -> u64
    ensures { result ≡ (if is_said then number else 0) }
{
    if is_said { number } else { 0 }
}
