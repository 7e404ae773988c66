//! A key of a log that is watched, with the watch of its lines.

ghost use Rattle.std.specs.Prelude.{◌≡◌, ◌++◌, List, IfOk, OnErr, OnOk, [], false, length, true};
ghost use Rattle.fdb_lines.specs.Watch.{HasSeen, IsTold};
ghost use Rattle.fdb_lines.specs.private.Quiet.{IsQuiet};
ghost use Rattle.fdb_lines.specs.declared.line.Line.{Line};

use crate::fault::Finding;
use crate::line::Line;
use crate::log::LineError;
use crate::watch::{Settled, Watch, WatchError, numbers_at};
use std::alloc::{AllocError, Global};
use std::mem::replace;

/// A key, and what its watch tells when it settles.
#[derive(Debug, Drop)]
pub struct SettledKey {
    /// The key; none for the lines without one.
    pub key: Option<u32>,
    /// What the key's watch tells. Its numbers are those among all lines of the whole log.
    pub settled: Settled,
}

/// A line that a watch by key keeps.
#[derive(Clone, Copy, Debug)]
pub struct KeptLine {
    /// The line's number among all lines of the whole log, counted from 0.
    pub number: u64,
    /// The line's key; none for a line without one.
    pub key: Option<u32>,
    pub line: Line,
}

/// A key with the watch of its lines.
#[derive(Drop)]
pub(crate) struct KeyPart {
    pub(crate) key: Option<u32>,
    pub(crate) watch: Watch,
    /// For each line that the watch keeps its number among all lines of the whole log.
    pub(crate) numbers: Vec<u64>,
    /// Whether the next settling goes over it.
    pub(crate) is_open: bool,
    ghost as_many: { length numbers.items ≡ length watch.numbers.items },
    ghost quiet: { is_open ≡ false → IsQuiet watch },
}

/// A part as it goes on once it has settled, what it tells, and the places of the lines that it
/// keeps.
#[derive(Drop)]
pub(crate) struct NextPart {
    pub(crate) part: KeyPart,
    pub(crate) found: Vec<Finding>,
    pub(crate) kept: Vec<u32>,
}

impl KeyPart {
    ghost use Rattle.fdb_lines.specs.KeyParts.{HasStayed};
    ghost use Rattle.fdb_lines.specs.private.KeyParts.{kept_in_part, HasNoMore, HasOneMore};
    ghost use Rattle.fdb_lines.specs.private.KeyParts.{IsAlike, IsNext};

    /// The part of a key without lines.
    pub(crate) fn new(alloc: Global, key: Option<u32>, margin: u64, horizon: u64) -> Self
        ensures key { result.key ≡ key }
        ensures seen { HasSeen result.watch [] }
        ensures numbers { result.numbers.items ≡ [] }
        ensures settled { result.watch.settled ≡ 0 }
        ensures alike { IsAlike margin horizon 0 result }
    {
        KeyPart {
            key,
            watch: Watch::new(alloc, margin, horizon),
            numbers: Vec::new(alloc),
            is_open: true,
        }
    }

    /// Adds a line, which has a number among all lines. It is open from then on.
    pub(crate) fn push(&mut self, line: Line, number: u64) -> Result<(), WatchError>
        ensures ok { OnOk result (HasOneMore line number self.old self.new) }
        ensures err { OnErr result (HasNoMore self.old self.new) }
        ensures opened { self.new.is_open ≡ true }
        ensures stays { HasStayed self.old self.new }
        ensures alike { let was = self.old.watch in
            IsAlike was.margin was.horizon was.from self.new }
    {
        self.is_open = true;
        if self.numbers.reserve(1).is_err() {
            return Err(WatchError::Line(LineError::Memory));
        }
        if let Err(error) = self.watch.push(line) {
            return Err(error);
        }
        self.numbers.push_reserved(number);
        Ok(())
    }

    /// Adds the lines that it keeps.
    pub(crate) fn add_kept(&self, kept: &mut Vec<KeptLine>) -> Result<(), AllocError>
        ensures { OnOk result (kept.new.items ≡ kept.old.items ++ kept_in_part self.now) }
    {
        let lines = self.watch.log.lines();
        for (place, number) in self.numbers.iter().enumerate() {
            kept.push(KeptLine {
                number: *number,
                key: self.key,
                line: lines[place],
            })?;
        }
        Ok(())
    }

    /// How it goes on once it has settled up to a moment, and what it tells then.
    pub(crate) fn next(&self, alloc: Global, at: u64) -> Result<NextPart, AllocError>
        ensures { IfOk result (λ it. IsNext at self.now it.part it.found.items it.kept.items) }
    {
        let next = self.watch.next(alloc, at)?;
        let numbers = numbers_at(alloc, &self.numbers, &next.kept)?;
        let is_open = !next.watch.is_quiet();
        let part = KeyPart {
            key: self.key,
            watch: next.watch,
            numbers,
            is_open,
        };
        Ok(NextPart {
            part,
            found: next.found,
            kept: next.kept,
        })
    }

    /// Puts in its place how it goes on, and gives the lines that it kept to what is told.
    pub(crate) fn go_on(&mut self, next: KeyPart, told: &mut SettledKey)
        ensures on { self.new ≡ next }
        ensures key { told.new.key ≡ told.old.key }
        ensures found { told.new.settled.found ≡ told.old.settled.found }
        ensures kept { told.new.settled.kept ≡ told.old.settled.kept }
        ensures log { told.new.settled.log ≡ self.old.watch.log }
        ensures numbers { told.new.settled.numbers ≡ self.old.numbers }
    {
        let old = replace(self, next);
        told.settled.log = old.watch.into_log();
        told.settled.numbers = old.numbers;
    }

    /// Tells of all lines that it has not told of.
    pub(crate) fn finish(self, alloc: Global) -> Result<SettledKey, AllocError>
        ensures key { IfOk result (λ it. it.key ≡ self.key) }
        ensures told { IfOk result (λ it. (lines : List Line) → HasSeen self.watch lines
            → IsTold self.watch None lines self.watch.numbers.items it.settled.found.items) }
        ensures log { IfOk result (λ it. it.settled.log ≡ self.watch.log) }
        ensures numbers { IfOk result (λ it. it.settled.numbers ≡ self.numbers) }
        ensures kept { IfOk result (λ it. it.settled.kept.items ≡ []) }
    {
        let mut settled = self.watch.finish(alloc)?;
        settled.numbers = self.numbers;
        Ok(SettledKey {
            key: self.key,
            settled,
        })
    }
}
