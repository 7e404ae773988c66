//! A log that is cut into parts by its keys, as it is read, and how its lines are placed in them.

ghost use Rattle.std.specs.Prelude.{◌≡◌, ◌⊎◌, ◌++◌, ◌<◌, ◌≤◌, ℕ, List, [], Err, IfOk, MatchResult};
ghost use Rattle.std.specs.Prelude.{length, slice_index, slice_index_or, slice_set, ◌+◌};
ghost use Rattle.std.specs.Prelude.{string_bytes};
ghost use Rattle.std.proofs.Props.{props};
ghost use Rattle.fdb_log_reader.specs.Reading.{lines_in};
ghost use Rattle.fdb_log_reader.specs.private.{IsOneLine};
ghost use Rattle.fdb_log_reader.specs.Split.{part_by};
ghost use Rattle.fdb_log_reader.specs.private.Counting.{AreBelow};

use crate::error::{ReadError, Why};
use crate::part_text::{Above, PartText, add_line, keyed_line, no_lines};
use crate::reader::{MAX_LINE_BYTES, split_line};
use std::alloc::{AllocError, Global};

/// A log of which a part has been read, cut into parts by the keys of its lines. It keeps what has
/// come of the text of each since that was released, and the front of a line that has not ended yet.
#[derive(Drop)]
pub struct Splitter {
    placer: Placer,
    front: Vec<u8>,
    ghost one_line: { IsOneLine front.items },
    ghost short: { length front.items ≤ 1048576 },
}

impl Splitter {
    ghost use Rattle.fdb_log_reader.specs.Split.{below, line_below, placed_lines, Placed};
    ghost use Rattle.fdb_log_reader.specs.Splitter.{above_of, counts_of, placed_on, texts_of};
    ghost use Rattle.fdb_log_reader.specs.Splitter.{HasPlaced, HasPlacedAll};
    ghost use Rattle.fdb_log_reader.specs.private.Placing.{KeepsBytes, PlacesLine};

    /// A log of which nothing has been read, with `first` lines above it, to be cut into `parts`
    /// parts by the keys that its lines have in `member`. It fails only where memory is refused.
    pub fn new(alloc: Global, member: &str, parts: usize, first: u64) -> Result<Self, AllocError>
        requires { 0 < parts }
        ensures placed { IfOk result (λ it. (log : List ℕ) → placed_on it log
            ≡ placed_lines member.now parts (below first) (lines_in log)) }
        ensures parts { IfOk result (λ it. length (texts_of it) ≡ parts) }
        ensures texts { IfOk result
            (λ it. (part : ℕ) → slice_index_or (texts_of it) part [] ≡ []) }
        ensures counts { IfOk result (λ it. (part : ℕ) → slice_index (counts_of it) part ≡ 0) }
    {
        Ok(Splitter {
            placer: Placer::new(alloc, member, parts, first)?,
            front: Vec::new(alloc),
        })
    }

    /// How many parts there are.
    pub fn part_count(&self) -> usize
        ensures { result ≡ length (texts_of self.now) }
    {
        self.placer.parts.len()
    }

    /// What has come of the text of a part since that was released: whole lines.
    pub fn text(&self, part: usize) -> &[u8]
        requires { part < length (texts_of self.now) }
        ensures { result.now ≡ slice_index_or (texts_of self.now) part [] }
    {
        self.placer.parts[part].text.as_slice()
    }

    /// How many lines have come to a part.
    pub fn line_count(&self, part: usize) -> u64
        requires { part < length (texts_of self.now) }
        ensures { result ≡ slice_index (counts_of self.now) part }
    {
        self.placer.parts[part].lines
    }

    /// What has been read: how many lines, with those above the first, and which of them are the
    /// first with times and the first without.
    pub fn above(&self) -> Above
        ensures { result ≡ above_of self.now }
    {
        self.placer.above
    }

    /// Lets the text of a part go, which has been written.
    pub fn release(&mut self, part: usize)
        requires { part < length (texts_of self.old) }
        ensures texts { texts_of self.new ≡ slice_set (texts_of self.old) part [] }
        ensures counts { counts_of self.new ≡ counts_of self.old }
        ensures above { above_of self.new ≡ above_of self.old }
        ensures goes { (rest : List ℕ) → placed_on self.new rest ≡ placed_on self.old rest }
    {
        let its = &mut self.placer.parts[part];
        its.text.clear();
    }

    /// Takes the next bytes of the log, cut anywhere. An error names the first line that is
    /// refused, or says that memory was refused.
    pub fn feed(mut self, bytes: &[u8]) -> Result<Self, ReadError>
        ensures { MatchResult result
            (λ it. (placed : List Placed) × HasPlaced self bytes.now placed it)
            (λ error. (error.why ≡ Why.Memory)
            ⊎ ((rest : List ℕ) → placed_on self (bytes.now ++ rest) ≡ Err error)) }
    {
        let mut rest = bytes;
        while let Some((line, after)) = split_line(rest) {
            self = self.read_line(line)?;
            rest = after;
        }
        self.keep(rest)
    }

    /// Reads the last line, where the log ends here without a line feed.
    pub fn finish(self) -> Result<Self, ReadError>
        ensures { MatchResult result (λ it. (placed : List Placed) × HasPlacedAll self placed it)
            (λ error. (error.why ≡ Why.Memory) ⊎ (placed_on self [] ≡ Err error)) }
    {
        if self.front.is_empty() {
            return Ok(self);
        }
        self.end_line()
    }

    /// Reads a line whose end has come.
    fn read_line(self, line: &[u8]) -> Result<Self, ReadError>
        requires { IsOneLine line.now }
        ensures { PlacesLine self line.now result }
    {
        if self.front.is_empty() && line.len() <= MAX_LINE_BYTES {
            self.place_whole(line)
        } else {
            self.keep(line)?.end_line()
        }
    }

    /// Reads a line that has come as a whole, where it lies.
    fn place_whole(self, line: &[u8]) -> Result<Self, ReadError>
        requires line { IsOneLine line.now }
        requires short { length line.now ≤ MAX_LINE_BYTES }
        requires none { self.front.items ≡ [] }
        ensures { PlacesLine self line.now result }
    {
        let refused = self.error(Why::Memory);
        let Splitter { placer, front } = self;
        match placer.place(line) {
            Ok(placer) => Ok(Splitter { placer, front }),
            Err(why) => Err(ReadError { why, ..refused }),
        }
    }

    /// Keeps what has come of a line, unless that gets too long.
    fn keep(mut self, bytes: &[u8]) -> Result<Self, ReadError>
        requires { IsOneLine bytes.now }
        ensures { KeepsBytes self bytes.now result }
    {
        if bytes.len() > MAX_LINE_BYTES - self.front.len() {
            return Err(self.error(Why::TooLong));
        }
        match self.front.extend_from_slice(bytes) {
            Ok(()) => Ok(self),
            Err(_) => Err(self.error(Why::Memory)),
        }
    }

    /// Reads the line that has been kept, which ends here.
    fn end_line(self) -> Result<Self, ReadError>
        ensures empty { IfOk result (λ ended. ended.front.items ≡ []) }
        ensures read { PlacesLine self [] result }
    {
        let refused = self.error(Why::Memory);
        let Splitter { placer, mut front } = self;
        match placer.place(&front) {
            Ok(placer) => {
                front.clear();
                Ok(Splitter { placer, front })
            }
            Err(why) => Err(ReadError { why, ..refused }),
        }
    }

    /// What is wrong with the line that has been begun.
    fn error(&self, why: Why) -> ReadError
        ensures { result ≡ record
            { line = line_below (above_of self.now).count; why = why } }
    {
        let line = self.placer.above.count.saturating_add(1);
        ReadError { line, why }
    }
}

/// Where the lines of a log are placed: by their keys, which a member of one name has.
#[derive(Drop)]
pub(crate) struct Placer {
    pub(crate) alloc: Global,
    pub(crate) member: String,
    pub(crate) parts: Vec<PartText>,
    pub(crate) above: Above,
    ghost some: { 0 < length parts.items },
    ghost few: { AreBelow (above.count + 1) parts.items } by { Prim.hlevel props },
}

impl Placer {
    ghost use Rattle.fdb_log_reader.specs.Split.{below, line_placed, Placed};
    ghost use Rattle.fdb_log_reader.specs.Splitter.{counts_in, texts_in};
    ghost use Rattle.fdb_log_reader.specs.private.Placing.{PlacesOne};

    /// No line yet, below so many.
    pub(crate) fn new(
        alloc: Global,
        member: &str,
        parts: usize,
        first: u64,
    ) -> Result<Self, AllocError>
        requires { 0 < parts }
        ensures member { IfOk result (λ it. string_bytes it.member ≡ member.now) }
        ensures above { IfOk result (λ it. it.above ≡ below first) }
        ensures many { IfOk result (λ it. length it.parts.items ≡ parts) }
        ensures texts { IfOk result
            (λ it. (part : ℕ) → slice_index_or (texts_in it.parts.items) part [] ≡ []) }
        ensures counts { IfOk result
            (λ it. (part : ℕ) → slice_index (counts_in it.parts.items) part ≡ 0) }
    {
        Ok(Placer {
            alloc,
            member: String::from_str(alloc, member)?,
            parts: no_lines(alloc, parts)?,
            above: Above::of(first),
        })
    }

    /// Places a line.
    pub(crate) fn place(self, line: &[u8]) -> Result<Self, Why>
        requires { length line.now ≤ MAX_LINE_BYTES }
        ensures { MatchResult result
            (λ it. (one : Placed) × PlacesOne self line.now one it)
            (λ why. (why ≡ Why.Memory) ⊎ (line_placed (string_bytes self.member)
            (length self.parts.items) self.above line.now ≡ Err why)) }
    {
        let Placer {
            alloc,
            member,
            mut parts,
            above,
        } = self;
        if above.count == u64::MAX {
            return Err(Why::TooMany);
        }
        let read = keyed_line(alloc, &member, above, line)?;
        let part = part_by(parts.len(), read.hash);
        add_line(&mut parts, part, line, above.count + 1)?;
        Ok(Placer {
            alloc,
            member,
            parts,
            above: above.next(read.is_timed),
        })
    }
}

/// The part of a line, by the hash of its key.
fn part_by(parts: usize, hash: Option<u64>) -> usize
    requires { 0 < parts }
    ensures part { result ≡ part_by parts hash }
    ensures within { result < parts }
{
    match hash {
        Some(hash) => (hash % parts as u64) as usize,
        None => 0,
    }
}
