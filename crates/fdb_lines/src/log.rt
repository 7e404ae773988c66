//! A log: its lines, which all have times or all have none; its keys, each with where its lines
//! stand; what an audit of it is told beside them, and how much of it a verdict stands on.

ghost use Rattle.std.specs.Prelude.{◌≡◌, ℕ, ◌<◌, ◌≤◌, ◌⊎◌, [], false, None, Some, IfErr, OnErr};
ghost use Rattle.std.specs.Prelude.{IfOk, OnOk, length, slice_index, ◌==◌, All, cond};
ghost use Rattle.fdb_lines.specs.Lines.{has_times, line_at};
ghost use Rattle.fdb_lines.specs.Keys.{key_at, keys_of, places_of};
ghost use Rattle.fdb_lines.specs.private.Keys.{keys_in, number_of, part_number, AreNumbered};
ghost use Rattle.fdb_lines.specs.private.Keys.{IsPartMore, IsPlaceMore};
ghost use Rattle.fdb_lines.specs.private.KeySums.{lines_in_all};

use crate::line::{Line, Operation};
use std::alloc::{AllocError, Global};
use std::collections::BTreeMap;
use std::error::Error;
use std::fmt;

/// How many lines a log may have: each place fits 32 bits.
pub const MAX_LINES: usize = 4_294_967_295;

/// Why [`Log::push`] refuses a line. The first that holds is given, and memory last.
#[derive(Clone, Copy, Debug, PartialEq, Eq)]
pub enum LineError {
    /// There are as many lines as a log may have.
    TooMany,
    /// The line has times and the lines above have none, or the other way round.
    SomeTimes,
    /// A line with times has learnt: there the times alone say what comes before.
    TimedLearn,
    /// A line without times names no client.
    NoClient,
    /// Memory was refused, which says nothing of the line.
    Memory,
}

impl fmt::Display for LineError {
    ghost use Rattle.std.specs.Prelude.{Some};
    ghost use Rattle.fdb_lines.specs.Text.{line_error_text};

    ghost output = { λ error. Some (line_error_text error) };

    fn fmt<W: fmt::Write>(&self, f: &mut fmt::Formatter<W>) -> fmt::Result {
        f.write_str(match self {
            LineError::TooMany => "too many lines",
            LineError::SomeTimes => "times on some lines only",
            LineError::TimedLearn => "a learn beside times",
            LineError::NoClient => "no client and no times",
            LineError::Memory => "out of memory",
        })
    }
}

impl Error for LineError {}

/// The lines of a log: all have times, or all have none.
#[derive(Debug, Drop)]
pub struct Log {
    lines: Vec<Line>,
    timed: bool,
    ghost few: { length lines.items ≤ 4294967295 },
    ghost alike: { (k : ℕ) → k < length lines.items → has_times (line_at lines.items k) ≡ timed },
}

impl Log {
    ghost use Rattle.fdb_lines.specs.declared.log.LineError.TheVariants.{Memory};
    ghost use Rattle.fdb_lines.specs.Lines.{part_of};
    ghost use Rattle.fdb_lines.specs.Log.{added, lines_of, no_lines, refusal_of};

    /// A log without lines: the first that is added decides whether all have times.
    pub fn new(alloc: Global) -> Self
        ensures empty { (lines_of result).lines ≡ [] }
        ensures untimed { (lines_of result).timed ≡ false }
    {
        Log {
            lines: Vec::new(alloc),
            timed: false,
        }
    }

    /// The lines in the order in which they were added. A line's place is counted from 0.
    pub fn lines(&self) -> &[Line]
        ensures { result.now ≡ (lines_of self.now).lines }
    {
        self.lines.as_slice()
    }

    /// Whether all lines have times; false where none has, and where there is no line.
    pub fn is_timed(&self) -> bool
        ensures { result ≡ (lines_of self.now).timed }
    {
        self.timed
    }

    /// Adds a line at the end. An error says why it is refused, in the order of [`LineError`], or
    /// that memory was refused; the log is as it was then.
    pub fn push(&mut self, line: Line) -> Result<(), LineError>
        ensures ok { OnOk result ((refusal_of (lines_of self.old) line ≡ None)
            × (lines_of self.new ≡ added (lines_of self.old) line)) }
        ensures err { OnErr result (lines_of self.new ≡ lines_of self.old) }
        ensures why { IfErr result (λ error. (refusal_of (lines_of self.old) line ≡ Some error)
            ⊎ ((refusal_of (lines_of self.old) line ≡ None) × (error ≡ Memory))) }
    {
        if let Some(error) = self.refusal(&line) {
            return Err(error);
        }
        let timed = line.times.is_some();
        if self.lines.push(line).is_err() {
            return Err(LineError::Memory);
        }
        self.timed = timed;
        Ok(())
    }

    /// The lines at some places, as a log of their own.
    pub(crate) fn part(&self, alloc: Global, places: &[u32]) -> Result<Log, AllocError>
        requires few { length places.now ≤ 4294967295 }
        requires within { (j : ℕ) → j < length places.now
            → slice_index places.now j < length (lines_of self.now).lines }
        ensures { IfOk result (λ part. lines_of part ≡ part_of (lines_of self.now) places.now) }
    {
        let mut lines = Vec::with_capacity(alloc, places.len())?;
        for place in places {
            lines.push(self.lines[*place as usize])?;
        }
        Ok(Log {
            lines,
            timed: self.timed,
        })
    }

    /// Why a line may not be added, if it may not.
    pub(crate) fn refusal(&self, line: &Line) -> Option<LineError>
        ensures { result ≡ refusal_of (lines_of self.now) line.now }
    {
        if self.lines.len() >= MAX_LINES {
            Some(LineError::TooMany)
        } else if !self.lines.is_empty() && self.timed != line.times.is_some() {
            Some(LineError::SomeTimes)
        } else {
            Log::refusal_alone(line)
        }
    }

    /// Why a line may not be the first of a log, if it may not.
    pub(crate) fn refusal_alone(line: &Line) -> Option<LineError>
        ensures { result ≡ refusal_of no_lines line.now }
    {
        let timed = line.times.is_some();
        if timed && matches!(line.call, Operation::Learn(_)) {
            Some(LineError::TimedLearn)
        } else if !timed && line.client.is_none() {
            Some(LineError::NoClient)
        } else {
            None
        }
    }
}

/// What an audit is told beside the lines.
#[derive(Clone, Copy, Debug, PartialEq, Eq)]
pub struct AuditOpts {
    /// The version that all began with, where the log has the calls of all clients. Where it is
    /// left out, callers who logged nothing may have asked, read and reported as well.
    pub complete: Option<u64>,
    /// How far the clocks of two clients may be apart, in the unit of the times.
    pub margin: u64,
}

impl AuditOpts {
    ghost use Rattle.fdb_lines.specs.Audit.{is_complete, start_of};

    /// The version that all begins with: 0 where the log has not all calls.
    pub fn start(&self) -> u64
        ensures { result ≡ start_of self.now.complete }
    {
        self.complete.unwrap_or(0)
    }

    /// Whether the log has the calls of all clients.
    pub fn is_complete(&self) -> bool
        ensures { result ≡ is_complete self.now.complete }
    {
        self.complete.is_some()
    }
}

/// What a verdict stands on: how many lines a log has, and how many of each kind. A commit counts
/// as a commit alone, and neither as an ask nor as a report.
#[derive(Clone, Copy, Debug, PartialEq, Eq)]
pub struct Summary {
    pub lines: u64,
    /// How many lines have times: all of them, or none.
    pub timed: u64,
    pub reads: u64,
    pub commits: u64,
    pub asks: u64,
    pub reports: u64,
    pub learns: u64,
    /// How many versions were read, other than the start, that no line reports.
    pub unreported: u64,
    /// Of how many pairs of lines one comes before the other, where the lines have times.
    pub ordered: Option<u64>,
}

/// A key, and where its lines stand in the whole log, in order.
#[derive(Drop)]
pub(crate) struct Part {
    pub(crate) key: Option<u32>,
    pub(crate) places: Vec<u32>,
}

/// Which part is that of each key, by the number of the key. Where keys are numbered as they come,
/// all are in the list.
#[derive(Drop)]
pub(crate) struct PartNumbers {
    /// Of the lowest numbers, as many as there are lines, and one for no key.
    near: Vec<Option<u32>>,
    /// Of the others. A table that compares: no choice of keys makes it slow, as it would one that
    /// hashes.
    far: BTreeMap<u64, u32>,
}

impl PartNumbers {
    /// No key has a part.
    fn new(alloc: Global, lines: usize) -> Result<Self, AllocError>
        requires { lines ≤ 4294967295 }
        ensures { IfOk result (λ numbers. (q : ℕ) → part_number numbers q ≡ None) }
    {
        let many = lines + 1;
        let mut near = Vec::with_capacity(alloc, many)?;
        for _number in 0..many {
            near.push(None)?;
        }
        Ok(PartNumbers {
            near,
            far: BTreeMap::new(alloc),
        })
    }

    /// The part of a key, if it has one.
    fn get(&self, number: u64) -> Option<u32>
        ensures { result ≡ part_number self.now number }
    {
        if number < self.near.len() as u64 {
            self.near[number as usize]
        } else {
            self.far.get(&number).copied()
        }
    }

    /// Gives a key its part.
    fn set(&mut self, number: u64, part: u32) -> Result<(), AllocError>
        ensures { OnOk result ((q : ℕ) → part_number self.new q
            ≡ cond (q == number) (Some part) (part_number self.old q)) }
    {
        if number < self.near.len() as u64 {
            self.near[number as usize] = Some(part);
        } else {
            self.far.insert(number, part)?;
        }
        Ok(())
    }
}

/// The keys of a log, in the order of their first lines, each with the places of its lines.
/// `n log n` in how many lines there are, whatever the keys.
pub(crate) fn parts_of(alloc: Global, keys: &[Option<u32>]) -> Result<Vec<Part>, AllocError>
    requires { length keys.now ≤ 4294967295 }
    ensures keys { IfOk result (λ parts. keys_in parts.items ≡ keys_of keys.now) }
    ensures places { IfOk result
        (λ parts. All (λ part. part.places.items ≡ places_of keys.now part.key) parts.items) }
    ensures lines { IfOk result (λ parts. lines_in_all parts.items ≡ length keys.now) }
{
    let mut numbers = PartNumbers::new(alloc, keys.len())?;
    let mut parts = Vec::new(alloc);
    for (place, key) in keys.iter().enumerate() {
        let number = part_of_key(alloc, &mut numbers, &mut parts, *key)?;
        add_place(&mut parts, number, place as u32)?;
    }
    Ok(parts)
}

/// Adds a place to a part.
fn add_place(parts: &mut Vec<Part>, number: usize, place: u32) -> Result<(), AllocError>
    requires { number < length parts.old.items }
    ensures { OnOk result (IsPlaceMore parts.old.items parts.new.items number place) }
{
    parts[number].places.push(place)?;
    Ok(())
}

/// Which part is that of a key. It is added, without places, unless it is there.
fn part_of_key(
    alloc: Global,
    numbers: &mut PartNumbers,
    parts: &mut Vec<Part>,
    key: Option<u32>,
) -> Result<usize, AllocError>
    requires few { length parts.old.items < 4294967295 }
    requires numbered { AreNumbered (part_number numbers.old) (keys_in parts.old.items) }
    ensures numbered { OnOk result
        (AreNumbered (part_number numbers.new) (keys_in parts.new.items)) }
    ensures within { IfOk result (λ number. number < length parts.new.items) }
    ensures key { IfOk result (λ number. key_at (keys_in parts.new.items) number ≡ key) }
    ensures more { OnOk result (IsPartMore key parts.old.items parts.new.items) }
{
    let code = number_of(key);
    if let Some(number) = numbers.get(code) {
        return Ok(number as usize);
    }
    let number = parts.len();
    numbers.set(code, number as u32)?;
    parts.push(Part {
        key,
        places: Vec::new(alloc),
    })?;
    Ok(number)
}

/// A number for each key: 0 for that of lines without one.
pub(crate) fn number_of(key: Option<u32>) -> u64
    ensures { result ≡ number_of key }
{
    match key {
        Some(key) => key as u64 + 1,
        None => 0,
    }
}
