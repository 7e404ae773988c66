//! An audit that watches a log with times as it grows, in the memory of the lines that are open,
//! and what it tells of the lines that it keeps.

ghost use Rattle.std.specs.Prelude.{◌≡◌, ◌+◌, ◌-◌, ◌<◌, ◌≤◌, [], All, List, IfErr, IfOk, None};
ghost use Rattle.std.specs.Prelude.{OnErr, OnOk, Some, length, map, max, slice_index, true, IsTrue};
ghost use Rattle.std.specs.Prelude.{◌↔◌, ℕ};
ghost use Rattle.fdb_lines.specs.Carried.{open_count};
ghost use Rattle.fdb_lines.specs.Log.{lines_of};
ghost use Rattle.fdb_lines.specs.Audit.{case_of};
ghost use Rattle.fdb_lines.specs.Late.{HasLate};
ghost use Rattle.fdb_lines.specs.Reasons.{found_of, HasReason};
ghost use Rattle.fdb_lines.specs.private.Due.{due_at, is_due_by, told_below};
ghost use Rattle.fdb_lines.specs.declared.line.Line.{Line};

use crate::fault::{Fault, Finding};
use crate::finding::add_finding;
use crate::line::Line;
use crate::log::{AuditOpts, LineError, Log};
use crate::standing_lines::standing;
use crate::tables::Tables;
use crate::tables_of::tables_of;
use std::alloc::{AllocError, Global};
use std::error::Error;
use std::fmt;
use std::mem::replace;

/// Why [`Watch::push`] refuses a line. The first that holds is given, and memory last.
#[derive(Clone, Copy, Debug, PartialEq, Eq)]
pub enum WatchError {
    /// The line has no times.
    NoTimes,
    /// The log of the lines that are kept refuses the line, for this reason. It is `TooMany` also
    /// where 2^64 - 1 lines have come.
    Line(LineError),
}

impl fmt::Display for WatchError {
    ghost use Rattle.fdb_lines.specs.Text.{watch_error_text};

    ghost output = { λ error. Some (watch_error_text error) };

    fn fmt<W: fmt::Write>(&self, f: &mut fmt::Formatter<W>) -> fmt::Result {
        match self {
            WatchError::NoTimes => f.write_str("no times"),
            WatchError::Line(error) => write!(f, "{error}"),
        }
    }
}

impl Error for WatchError {}

/// What an audit that watches tells when it settles.
#[derive(Debug, Drop)]
pub struct Settled {
    /// The lines that it has kept until now, in the order in which they came.
    pub log: Log,
    /// For each line of `log` its number among all lines that ever came, counted from 0.
    pub numbers: Vec<u64>,
    /// The stale reads and the versions that are not above what was known, at the lines of which it
    /// is time to tell. Each line is told by its place among those that were kept.
    pub found: Vec<Finding>,
    /// The places in `log` of the lines that the watch keeps on; none where it was settled for
    /// good.
    pub kept: Vec<u32>,
}

impl Settled {
    /// The number, among all lines that ever came, of the line at a place of those that were kept; 0
    /// where there is no such place.
    pub fn number(&self, place: u32) -> u64
        ensures { result ≡ slice_index self.now.numbers.items place }
    {
        match self.numbers.get(place as usize) {
            Some(number) => *number,
            None => 0,
        }
    }
}

/// An audit that watches. It keeps the lines that may yet come to matter, and at most two that
/// stand for all others.
///
/// It settles up to a moment, in the unit of the times: it tells of the lines that began before,
/// each once, what an audit of all lines that have come would tell. A line that comes late, and
/// begins before that moment, is told of at the next settling, if it begins no further back than a
/// horizon; else it is known to others, and is not judged. What was told before such a line came is
/// not told anew because of it.
///
/// How late a call is, is told exactly where the first line to outdate it had ended no further than
/// the horizon before what was settled. Else what is told is a lower bound, by another line.
#[derive(Drop)]
pub struct Watch {
    margin: u64,
    horizon: u64,
    from: u64,
    settled: u64,
    count: u64,
    pub(crate) log: Log,
    numbers: Vec<u64>,
    ghost as_many: { length numbers.items ≡ length log.lines.items },
    ghost timed: { 0 < length log.lines.items → log.timed ≡ true },
}

/// A watch that has settled, what it tells, and the places of the lines that it keeps on.
#[derive(Drop)]
pub(crate) struct Next {
    pub(crate) watch: Watch,
    pub(crate) found: Vec<Finding>,
    pub(crate) kept: Vec<u32>,
}

impl Watch {
    ghost use Rattle.fdb_lines.specs.declared.watch.WatchError.TheVariants.{NoTimes};
    ghost use Rattle.fdb_lines.specs.Watch.{judged_from, refusal_in, HasSeen, IsPushed, IsTold};
    ghost use Rattle.fdb_lines.specs.Watch.{IsRefusedFor, IsUnchanged};
    ghost use Rattle.fdb_lines.specs.private.Quiet.{IsQuiet};

    /// A watch that has seen no line. Margin and horizon are in the unit of the times.
    pub fn new(alloc: Global, margin: u64, horizon: u64) -> Self
        ensures seen { HasSeen result [] }
        ensures settled { (result.from ≡ 0) × (result.settled ≡ 0) }
        ensures margin { result.margin ≡ margin }
        ensures horizon { result.horizon ≡ horizon }
    {
        Watch {
            margin,
            horizon,
            from: 0,
            settled: 0,
            count: 0,
            log: Log::new(alloc),
            numbers: Vec::new(alloc),
        }
    }

    /// The moment up to which it has settled. A line that begins before it comes late.
    pub fn settled_to(&self) -> u64
        ensures { result ≡ self.now.from }
    {
        self.from
    }

    /// The moment from which on lines are judged that come late.
    pub fn judged_from(&self) -> u64
        ensures { result ≡ judged_from self.now }
    {
        self.from.saturating_sub(self.horizon)
    }

    /// Adds a line. An error says why it is refused; all is as it was then.
    pub fn push(&mut self, line: Line) -> Result<(), WatchError>
        ensures pushed { OnOk result (IsPushed line self.old self.new) }
        ensures free { OnOk result
            (refusal_in self.old.count (lines_of self.old.log) line ≡ None) }
        ensures refused { IfErr result
            (IsRefusedFor (refusal_in self.old.count (lines_of self.old.log) line)) }
        ensures err { OnErr result (IsUnchanged self.old self.new) }
        ensures settled { (self.new.from ≡ self.old.from)
            × (self.new.settled ≡ self.old.settled) }
        ensures margin { (self.new.margin ≡ self.old.margin)
            × (self.new.horizon ≡ self.old.horizon) }
    {
        if line.times.is_none() {
            return Err(WatchError::NoTimes);
        }
        if self.count == u64::MAX {
            return Err(WatchError::Line(LineError::TooMany));
        }
        if let Some(error) = self.log.refusal(&line) {
            return Err(WatchError::Line(error));
        }
        if self.numbers.reserve(1).is_err() {
            return Err(WatchError::Line(LineError::Memory));
        }
        if let Err(error) = self.log.push(line) {
            return Err(WatchError::Line(error));
        }
        self.numbers.push_reserved(self.count);
        self.count += 1;
        Ok(())
    }

    /// Settles up to a moment, or up to where it has settled, if that is later. An error only where
    /// memory is refused; all is as it was then.
    pub fn settle(&mut self, alloc: Global, at: u64) -> Result<Settled, AllocError>
        ensures told { IfOk result (λ it. (lines : List Line) → HasSeen self.old lines
            → IsTold self.old (Some (max self.old.from at)) lines it.numbers.items it.found.items) }
        ensures had { IfOk result (λ it. (lines_of it.log ≡ lines_of self.old.log)
            × (it.numbers.items ≡ self.old.numbers.items)) }
        ensures seen { (lines : List Line) → HasSeen self.old lines → HasSeen self.new lines }
        ensures kept { IfOk result
            (λ it. (self.new.numbers.items ≡ map (slice_index it.numbers.items) it.kept.items)
            × All (λ place. place < length it.numbers.items) it.kept.items) }
        ensures few { OnOk result (length self.new.numbers.items
            ≤ open_count self.old.margin (judged_from self.new) self.old.log.lines.items + 2) }
        ensures settled { OnOk result ((self.new.from ≡ max self.old.from at)
            × (self.new.settled ≡ self.old.count)) }
        ensures err { OnErr result (self.new ≡ self.old) }
        ensures margin { (self.new.margin ≡ self.old.margin)
            × (self.new.horizon ≡ self.old.horizon) }
    {
        let next = self.next(alloc, at)?;
        let old = replace(self, next.watch);
        Ok(Settled {
            log: old.log,
            numbers: old.numbers,
            found: next.found,
            kept: next.kept,
        })
    }

    /// How it goes on once it has settled up to a moment, and what it tells then.
    pub(crate) fn next(&self, alloc: Global, at: u64) -> Result<Next, AllocError>
        ensures told { IfOk result (λ it. (lines : List Line) → HasSeen self.now lines
            → IsTold self.now (Some (max self.now.from at)) lines self.now.numbers.items
            it.found.items) }
        ensures seen { IfOk result (λ it. (lines : List Line) → HasSeen self.now lines
            → HasSeen it.watch lines) }
        ensures kept { IfOk result (λ it. (it.watch.numbers.items
            ≡ map (slice_index self.now.numbers.items) it.kept.items)
            × All (λ place. place < length self.now.numbers.items) it.kept.items) }
        ensures few { IfOk result (λ it. length it.watch.numbers.items
            ≤ open_count self.now.margin (judged_from it.watch) self.now.log.lines.items + 2) }
        ensures settled { IfOk result (λ it. (it.watch.from ≡ max self.now.from at)
            × (it.watch.settled ≡ self.now.count)) }
        ensures margin { IfOk result (λ it. (it.watch.margin ≡ self.now.margin)
            × (it.watch.horizon ≡ self.now.horizon)) }
    {
        let at = at.max(self.from);
        let found = self.found(alloc, Some(at))?;
        let kept = standing(
            alloc,
            &self.log,
            self.margin,
            at.saturating_sub(self.horizon),
        )?;
        let numbers = numbers_at(alloc, &self.numbers, &kept)?;
        let log = self.log.part(alloc, &kept)?;
        let watch = Watch {
            margin: self.margin,
            horizon: self.horizon,
            from: at,
            settled: self.count,
            count: self.count,
            log,
            numbers,
        };
        Ok(Next { watch, found, kept })
    }

    /// The log of the lines that it keeps.
    pub(crate) fn into_log(self) -> Log
        ensures { result ≡ self.log }
    {
        self.log
    }

    /// Whether it has told of all lines, and keeps two at most: until a line comes, it has nothing
    /// to tell and nothing to let go.
    pub(crate) fn is_quiet(&self) -> bool
        ensures { IsTrue result ↔ IsQuiet self.now }
    {
        self.settled == self.count
            && self.numbers.len() <= 2
            && self.log.lines().iter().all(|line| line.began() < self.from)
    }

    /// Settles for good: tells of all lines that it has not told of, but for those that came too
    /// late. An error only where memory is refused; what was not told is lost then.
    pub fn finish(self, alloc: Global) -> Result<Settled, AllocError>
        ensures told { IfOk result (λ it. (lines : List Line) → HasSeen self lines
            → IsTold self None lines it.numbers.items it.found.items) }
        ensures numbers { IfOk result (λ it. it.numbers ≡ self.numbers) }
        ensures log { IfOk result (λ it. it.log ≡ self.log) }
        ensures kept { IfOk result (λ it. it.kept.items ≡ []) }
    {
        let found = self.found(alloc, None)?;
        Ok(Settled {
            log: self.log,
            numbers: self.numbers,
            found,
            kept: Vec::new(alloc),
        })
    }

    /// What is told of the lines that are kept, up to a moment, or of all.
    fn found(&self, alloc: Global, to: Option<u64>) -> Result<Vec<Finding>, AllocError>
        ensures { IfOk result (λ found. (lines : List Line) → HasSeen self.now lines
            → IsTold self.now to lines self.now.numbers.items found.items) }
    {
        let opts = AuditOpts {
            complete: None,
            margin: self.margin,
        };
        let due = Due {
            from: self.from,
            early: self.judged_from(),
            since: self.settled,
            to,
        };
        let found = findings_due(alloc, &self.log, &self.numbers, &opts, &due)?;
        Ok(found)
    }
}

/// The numbers at some places.
pub(crate) fn numbers_at(
    alloc: Global,
    numbers: &[u64],
    places: &[u32],
) -> Result<Vec<u64>, AllocError>
    requires { (j : ℕ) → j < length places.now → slice_index places.now j < length numbers.now }
    ensures { IfOk result (λ some. some.items ≡ map (slice_index numbers.now) places.now) }
{
    let mut some = Vec::with_capacity(alloc, places.len())?;
    for place in places {
        some.push(numbers[*place as usize])?;
    }
    Ok(some)
}

/// Of which lines it is time to tell: those that began from a moment on and before another, if one
/// is given; and of those whose number is not below one, as they came late, those that began from
/// an earlier moment on.
#[derive(Clone, Copy, Debug)]
pub(crate) struct Due {
    pub(crate) from: u64,
    pub(crate) early: u64,
    pub(crate) since: u64,
    pub(crate) to: Option<u64>,
}

impl Due {
    /// Whether it is time to tell of a line, by its number.
    fn has(&self, number: u64, line: &Line) -> bool
        ensures { result ≡ is_due_by self.now number line.now }
    {
        let began = line.began();
        self.to.is_none_or(|to| began < to)
            && (self.from <= began || self.since <= number && self.early <= began)
    }
}

/// The stale reads, and the versions that are not above what was known, at the lines of which it is
/// time to tell, by their places in the log.
pub(crate) fn findings_due(
    alloc: Global,
    log: &Log,
    numbers: &[u64],
    opts: &AuditOpts,
    due: &Due,
) -> Result<Vec<Finding>, AllocError>
    requires { length numbers.now ≡ length (lines_of log.now).lines }
    ensures told { let lines = (lines_of log.now).lines in IfOk result
        (λ found. map found_of found.items ≡ told_below (due_at (is_due_by due.now) numbers.now lines)
        (case_of (lines_of log.now) opts.now) (length lines)) }
    ensures reasons { IfOk result
        (λ found. All (HasReason (lines_of log.now) opts.now) found.items) }
    ensures late { IfOk result (λ found. All (HasLate (lines_of log.now) opts.now) found.items) }
{
    let made = tables_of(alloc, log, opts)?;
    let tables = Tables::new(log, opts, &made);
    let mut found = Vec::new(alloc);
    for place in 0..numbers.len() {
        if due.has(numbers[place], &log.lines()[place]) {
            add_finding(&mut found, &tables, place, Fault::Order)?;
            add_finding(&mut found, &tables, place, Fault::NotAbove)?;
        }
    }
    Ok(found)
}
