//! A line of a log that is cut into parts, of whose key the hash is kept, what stands above it, and
//! the text of a part, as far as it is held.

ghost use Rattle.std.specs.Prelude.{◌≡◌, ◌+◌, ◌∷◌, ◌++◌, ◌<◌, [], IfOk, MatchOption, OnOk, ℕ};
ghost use Rattle.std.specs.Prelude.{false, length, slice_index, slice_index_or, ◌⊎◌, Err};
ghost use Rattle.std.specs.Prelude.{MatchResult, Ok};
ghost use Rattle.std.specs.List.{list_any};
ghost use Rattle.fdb_log_reader.specs.Split.{is_brace, split_line_member, with_split_line, hash_of};
ghost use Rattle.fdb_log_reader.specs.Split.{keyed_line, keyed_said, refusal_below};
ghost use Rattle.fdb_log_reader.specs.Splitter.{HaveCome, counts_in, texts_in};
ghost use Rattle.fdb_log_reader.specs.private.Counting.{AreBelow};
ghost use Rattle.fdb_log_reader.specs.private.Placing.{IsSplitAtBrace};
ghost use Rattle.fdb_log_reader.specs.Parts.{parts_of};
ghost use Rattle.fdb_log_reader.specs.ReadLine.{unless};

use crate::error::Why;
use crate::member::{Member, Said};
use crate::names::Names;
use crate::parsing::{Parts, parts_of, value_of};
use crate::usual::usual_of;
use itoa::Buffer;
use memchr::memrchr;
use std::alloc::{AllocError, Global};

/// What stands behind the last member of a line of a part, in front of where it stood in its log.
const SPLIT_LINE_MEMBER: &[u8] = b",\"split_line\":";

/// The lines of a part that have come since it was released, and how many have come in all.
#[derive(Drop)]
pub(crate) struct PartText {
    pub(crate) text: Vec<u8>,
    pub(crate) lines: u64,
}

impl PartText {
    /// No line.
    pub(crate) fn new(alloc: Global) -> Self
        ensures text { result.text.items ≡ [] }
        ensures lines { result.lines ≡ 0 }
    {
        PartText {
            text: Vec::new(alloc),
            lines: 0,
        }
    }

    /// Adds a line with where it stood in its log, counted from 1.
    fn add(&mut self, line: &[u8], split_line: u64) -> Result<(), AllocError>
        requires { self.old.lines < split_line }
        ensures text { OnOk result (self.new.text.items
            ≡ self.old.text.items ++ (with_split_line line.now split_line ++ 10 ∷ [])) }
        ensures lines { OnOk result (self.new.lines ≡ self.old.lines + 1) }
    {
        add_with_split_line(&mut self.text, line, split_line)?;
        self.text.push(b'\n')?;
        self.lines += 1;
        Ok(())
    }
}

/// Adds a line to the text of its part, with where it stood in its log.
pub(crate) fn add_line(
    parts: &mut Vec<PartText>,
    part: usize,
    line: &[u8],
    split_line: u64,
) -> Result<(), AllocError>
    requires there { part < length parts.old.items }
    requires few { AreBelow split_line parts.old.items }
    ensures come { OnOk result (HaveCome
        (record { part = part; line = split_line; bytes = line.now } ∷ [])
        parts.old.items parts.new.items) }
    ensures few { OnOk result (AreBelow (split_line + 1) parts.new.items) }
{
    let its = &mut parts[part];
    its.add(line, split_line)?;
    Ok(())
}

/// Adds a line with a member behind its last one, which says where it stood in its log.
fn add_with_split_line(text: &mut Vec<u8>, line: &[u8], split_line: u64) -> Result<(), AllocError>
    ensures { OnOk result
        (text.new.items ≡ text.old.items ++ with_split_line line.now split_line) }
{
    match split_brace(line) {
        Some((front, behind)) => {
            text.extend_from_slice(front)?;
            add_split_line(text, split_line)?;
            text.extend_from_slice(behind)?;
        }
        None => text.extend_from_slice(line)?,
    }
    Ok(())
}

/// Adds that member.
fn add_split_line(text: &mut Vec<u8>, split_line: u64) -> Result<(), AllocError>
    ensures { OnOk result (text.new.items ≡ text.old.items ++ split_line_member split_line) }
{
    text.extend_from_slice(SPLIT_LINE_MEMBER)?;
    let mut digits = Buffer::new();
    text.extend_from_slice(digits.format(split_line).as_bytes())?;
    Ok(())
}

/// What stands in front of the last closing brace of a line, and what from there on; none where
/// there is no brace.
fn split_brace(line: &[u8]) -> Option<(&[u8], &[u8])>
    ensures { MatchOption result (list_any is_brace line.now ≡ false)
        (λ parts. IsSplitAtBrace line.now parts.0.now parts.1.now) }
{
    match memrchr(b'}', line) {
        Some(brace) => Some((&line[..brace], &line[brace..])),
        None => None,
    }
}

/// So many parts without lines.
pub(crate) fn no_lines(alloc: Global, count: usize) -> Result<Vec<PartText>, AllocError>
    ensures many { IfOk result (λ parts. length parts.items ≡ count) }
    ensures texts { IfOk result
        (λ parts. (part : ℕ) → slice_index_or (texts_in parts.items) part [] ≡ []) }
    ensures counts { IfOk result
        (λ parts. (part : ℕ) → slice_index (counts_in parts.items) part ≡ 0) }
{
    let mut parts = Vec::new(alloc);
    for _part in 0..count {
        parts.push(PartText::new(alloc))?;
    }
    Ok(parts)
}

/// Where the hash of a key begins, and by what it is multiplied at each byte.
const HASH_BASIS: u64 = 0xcbf2_9ce4_8422_2325;

const HASH_PRIME: u64 = 0x100_0000_01b3;

/// What is kept of a line.
#[derive(Clone, Copy, Debug, PartialEq, Eq)]
pub(crate) struct KeyedLine {
    /// The hash of its key, if it names one.
    pub(crate) hash: Option<u64>,
    pub(crate) is_timed: bool,
}

/// Reads a line, where a member of this name has its key, below others.
pub(crate) fn keyed_line(
    alloc: Global,
    member: &str,
    above: Above,
    bytes: &[u8],
) -> Result<KeyedLine, Why>
    ensures { MatchResult result (λ it. keyed_line member.now above bytes.now ≡ Ok it)
        (λ why. (why ≡ Why.Memory) ⊎ (keyed_line member.now above bytes.now ≡ Err why)) }
{
    if let Some(line) = usual_of(bytes, Some(member)) {
        return keyed_said(alloc, member, above, &line);
    }
    let value = value_of(alloc, bytes)?;
    keyed_said(alloc, member, above, &value)
}

/// The same by what its members say.
fn keyed_said<S: Said>(
    alloc: Global,
    member: &str,
    above: Above,
    line: &S,
) -> Result<KeyedLine, Why>
    ensures { MatchResult result
        (λ it. keyed_said member.now above (S.says line.now) (S.says_beside line.now) ≡ Ok it)
        (λ why. keyed_said member.now above (S.says line.now) (S.says_beside line.now) ≡ Err why) }
{
    let names = Names::new(alloc);
    let mut digits = Buffer::new();
    let mut key_digits = Buffer::new();
    let parts = parts_of(line, &names, Some(member), &mut digits, &mut key_digits)?;
    fits_below(above, &parts)?;
    Ok(KeyedLine {
        hash: parts.key.map(hash_of),
        is_timed: parts.times.is_some(),
    })
}

/// Whether a line may stand below others: with times as they, or without.
fn fits_below(above: Above, parts: &Parts<'_>) -> Result<(), Why>
    ensures { result ≡ unless (refusal_below above (parts_of parts.now)) tt }
{
    let is_timed = parts.times.is_some();
    if above.is_other(is_timed) {
        return Err(Why::SomeTimes);
    }
    if !is_timed && parts.client.is_none() {
        return Err(Why::BadMember(Member::Client));
    }
    Ok(())
}

/// The hash of a key, FNV-1a of 64 bits.
fn hash_of(key: &str) -> u64
    ensures { result ≡ hash_of key.now }
{
    let mut hash = HASH_BASIS;
    for byte in key.as_bytes() {
        hash = (hash ^ *byte as u64).wrapping_mul(HASH_PRIME);
    }
    hash
}

/// What stands above a line of a log: how many lines, and which of them, counted from 1, is the first
/// that has times, and which the first that has none.
#[derive(Clone, Copy, Debug, PartialEq, Eq)]
pub struct Above {
    pub count: u64,
    pub timed: Option<u64>,
    pub untimed: Option<u64>,
}

impl Above {
    ghost use Rattle.fdb_log_reader.specs.Split.{below, is_other, greatest_line, next_above};

    /// So many lines, of which nothing is known.
    pub(crate) fn of(count: u64) -> Self
        ensures { result ≡ below count }
    {
        Above {
            count,
            timed: None,
            untimed: None,
        }
    }

    /// With a line more.
    pub(crate) fn next(self, is_timed: bool) -> Self
        requires { self.count < greatest_line }
        ensures { result ≡ next_above self is_timed }
    {
        let line = Some(self.count + 1);
        let mut next = self;
        next.count += 1;
        if is_timed {
            next.timed = self.timed.or(line);
        } else {
            next.untimed = self.untimed.or(line);
        }
        next
    }

    /// Whether a line has times and one above it has none, or the other way round.
    pub(crate) fn is_other(self, is_timed: bool) -> bool
        ensures { result ≡ is_other self is_timed }
    {
        if is_timed {
            self.untimed.is_some()
        } else {
            self.timed.is_some()
        }
    }
}
