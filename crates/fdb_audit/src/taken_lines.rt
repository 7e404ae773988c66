//! The lines of a log that is followed, as they are taken.

ghost use Rattle.std.specs.Prelude.{◌≡◌, ℕ, ◌+◌, ◌-◌, ◌^◌, ◌<◌, ◌≤◌, ◌∷◌, [], All, List, Err, IfOk};
ghost use Rattle.std.specs.Prelude.{Ok, OnOk, Result, length, map, max, min, Option, string_bytes};
ghost use Rattle.std.specs.Prelude.{take};
ghost use Rattle.std.specs.Borrow.{ftrue};
ghost use Rattle.fdb_log_reader.specs.Printed.{printed};
ghost use Rattle.fdb_log_reader.specs.ReadLine.{IsTimed, SaidLine, said_by, said_in};
ghost use Rattle.fdb_log_reader.specs.declared.error.Why.{Why};
ghost use Rattle.fdb_lines.specs.Before.{began};
ghost use Rattle.fdb_lines.specs.KeyWatch.{HasSeenByKey, not_settled, settled_in};
ghost use Rattle.fdb_lines.specs.ToldByKey.{audited_to};
ghost use Rattle.fdb_lines.specs.declared.fault.Found.{Found};
ghost use Rattle.fdb_lines.specs.declared.line.Line.{Line};

use crate::clocks::{Clocks, KeyTimes};
use crate::members::{Numbering, Rows};
use crate::pace::Unsettled;
use crate::progress::{Came, Carried, Counts};
use crate::refusal::{CountedLine, Warning, push_doubled, push_warning};
use fdb_lines::{KeyWatch, Line, SettledKey, WatchError, laws};
use fdb_log_reader::{ReadError, ReadLine, Why};
use std::alloc::{AllocError, Global};
use std::marker::{Model, Send};

/// The lines that were taken, as far as they may yet come to matter, and how the others came.
#[derive(Drop)]
pub(crate) struct Taking {
    pub(crate) alloc: Global,
    pub(crate) watch: KeyWatch,
    pub(crate) numbering: Numbering,
    pub(crate) rows: Rows,
    pub(crate) counts: Counts,
    /// How many lines were taken, those that were kept of others included.
    pub(crate) taken: u64,
    /// How many of them had come when it settled last.
    pub(crate) settled: u64,
    /// How many had each time that it settled.
    pub(crate) settlings: Settlings,
    /// How far the ends of lines are believed.
    pub(crate) clocks: Clocks,
    /// The lines that came since it settled.
    pub(crate) unsettled: Unsettled,
    /// How many lines it keeps.
    pub(crate) kept: u64,
    /// The last line that was refused, if one was.
    pub(crate) refused: Option<ReadError>,
    /// What is to be said on standard error next.
    pub(crate) warnings: String,
    /// When the lines of each key came, where keys may be forgotten.
    pub(crate) times: KeyTimes,
    ghost above: { All (λ above. above ≤ taken) numbering.above.items },
}

/// How many lines had been taken each time that a watch settled, the last first. Clauses alone read
/// it, and it takes no memory.
#[derive(Drop)]
pub(crate) struct Settlings {
    pub(crate) ghost at: { List ℕ },
}

impl Model for Settlings {
    ghost also_owns = { λ _. ftrue };
}

unsafe impl Send for Settlings {}

impl Settlings {
    /// It has not settled.
    fn none() -> Self
        ensures { result.at ≡ [] }
    {
        Settlings {}
    }

    /// It has once more, when so many had been taken.
    fn with(_before: &Settlings, _taken: &u64) -> Self
        ensures { result.at ≡ _taken.now ∷ _before.now.at }
    {
        Settlings {}
    }
}

impl Taking {
    ghost use Rattle.fdb_audit.specs.Following.{Start, keys_taken, left_out, lines_taken, no_line};
    ghost use Rattle.fdb_audit.specs.Following.{start_with, taken, KeptBefore};
    ghost use Rattle.fdb_audit.specs.Kept.{KeptSaid, far_with, start_from};
    ghost use Rattle.fdb_audit.specs.Taken.{HasWarned, IsCarried, kept_by};
    ghost use Rattle.fdb_audit.specs.private.Followed.{AreTaken, NotesLine, counted_line, HasNoted};
    ghost use Rattle.fdb_audit.specs.private.Followed.{StaysBeside, TakesOn, odd_text, settled_at};

    /// No line has been taken; those that were kept of others come first. It fails only where
    /// memory is refused.
    pub(crate) fn new(
        alloc: Global,
        margin: u64,
        behind: u64,
        shown: &[String],
        numbering: Numbering,
        times: KeyTimes,
    ) -> Result<Self, AllocError>
        requires none { numbering.above.items ≡ [] }
        requires few { numbering.more < 18446744073709551615 }
        ensures taken { IfOk result (λ taking.
            AreTaken (start_with behind (kept_by numbering)) taking [] []) }
        ensures warned { IfOk result (λ taking.
            HasWarned (start_with behind (kept_by numbering)) taking [] []) }
        ensures margin { IfOk result (λ taking. taking.watch.margin ≡ margin) }
        ensures horizon { IfOk result (λ taking. taking.watch.horizon ≡ behind) }
        ensures far { IfOk result (λ taking. (key : Option ℕ)
            → settled_in taking.watch.parts.items key ≡ not_settled) }
        ensures from { IfOk result (λ taking. taking.watch.from ≡ 0) }
        ensures times { IfOk result (λ taking. taking.times ≡ times) }
        ensures members { IfOk result (λ taking. map string_bytes taking.rows.members.items
            ≡ map (λ name. printed (string_bytes name)) shown.now) }
    {
        let rows = Rows::new(alloc, shown)?;
        Ok(Taking {
            alloc,
            watch: KeyWatch::new(alloc, margin, behind),
            numbering,
            rows,
            counts: Counts::new(),
            taken: 0,
            settled: 0,
            settlings: Settlings::none(),
            clocks: Clocks::new(behind),
            unsettled: Unsettled::new(),
            kept: 0,
            refused: None,
            warnings: String::new(alloc),
            times,
        })
    }

    /// Takes some lines, or leaves those out that are refused. An error says that memory was
    /// refused.
    pub(crate) fn take_all(&mut self, lines: Vec<Result<ReadLine, Why>>) -> Result<(), AllocError>
        requires timed { All (λ read. IfOk read IsTimed) lines.items }
        ensures takes { OnOk result (TakesOn self.old self.new (map said_in lines.items)) }
        ensures beside { StaysBeside self.old self.new }
    {
        for line in lines {
            self.take(line)?;
        }
        Ok(())
    }

    /// Takes lines that were kept, of which so many had come when it had settled up to a moment; lines
    /// of more than one client had come or not. They are not counted. An error says that memory was
    /// refused.
    pub(crate) fn take_kept(
        &mut self,
        mut lines: Vec<Result<ReadLine, Why>>,
        told: usize,
        settled: u64,
        are_many: bool,
    ) -> Result<(), AllocError>
        requires timed { All (λ read. IfOk read IsTimed) lines.items }
        ensures taken { OnOk result ((behind : ℕ) → (kept : KeptSaid)
            → kept.told ≡ told → kept.settled ≡ settled → kept.many ≡ are_many
            → AreTaken (start_with behind kept.front) self.old [] []
            → let read = map said_in lines.items in
            let start = start_from behind self.old.watch.margin kept read in
            AreTaken start self.new read start.told × HasWarned start self.new read []) }
        ensures far { OnOk result ((behind : ℕ) → (front : KeptBefore)
            → AreTaken (start_with behind front) self.old [] []
            → ((key : Option ℕ) → settled_in self.old.watch.parts.items key ≡ not_settled)
            → (key : Option ℕ) → settled_in self.new.watch.parts.items key
            ≡ far_with settled (take told (map said_in lines.items)) key) }
        ensures from { OnOk result (self.new.watch.from ≡ max self.old.watch.from settled) }
        ensures margin { self.new.watch.margin ≡ self.old.watch.margin }
        ensures wanted { self.new.times.are_wanted ≡ self.old.times.are_wanted }
        ensures horizon { OnOk result (self.new.watch.horizon ≡ self.old.watch.horizon) }
        ensures settlings { OnOk result (self.new.settlings.at ≡ []) }
    {
        let since = lines.split_off(told.min(lines.len()))?;
        self.take_all(lines)?;
        self.settle_untold(settled)?;
        self.take_all(since)?;
        self.counts = Counts::new();
        self.settlings = Settlings::none();
        self.warnings = String::new(self.alloc);
        self.clocks.go_on(settled, are_many);
        Ok(())
    }

    /// Takes a line, or leaves it out where it is refused. An error says that memory was refused.
    pub(crate) fn take(&mut self, read: Result<ReadLine, Why>) -> Result<(), AllocError>
        requires timed { IfOk read IsTimed }
        ensures takes { OnOk result (TakesOn self.old self.new (said_in read ∷ [])) }
        ensures beside { StaysBeside self.old self.new }
    {
        // No more lines are read than can be counted.
        if self.line_count() >= u64::MAX - 1 {
            return Err(AllocError);
        }
        match read {
            Ok(read) => self.add(read),
            Err(why) => self.leave_out(why),
        }
    }

    /// Settles up to a moment, tells nothing of it, and counts anew. An error says that memory was
    /// refused.
    pub(crate) fn settle_untold(&mut self, at: u64) -> Result<(), AllocError>
        ensures taken { OnOk result ((start : Start) → (lines : List (Result SaidLine Why))
            → (told : List Found) → start.early ≡ 0 → self.old.counts.early ≡ 0
            → AreTaken start self.old lines told
            → let from = max self.old.watch.from at in
            let told = audited_to self.old.watch.margin from (lines_taken lines) (keys_taken lines) in
            AreTaken (settled_at start self.old.clocks from lines told) self.new lines told) }
        ensures far { OnOk result ((lines : List (Result SaidLine Why))
            → HasSeenByKey self.old.watch (lines_taken lines) (keys_taken lines)
            → ((key : Option ℕ) → settled_in self.old.watch.parts.items key ≡ not_settled)
            → (key : Option ℕ) → settled_in self.new.watch.parts.items key
            ≡ far_with (max self.old.watch.from at) lines key) }
        ensures from { OnOk result (self.new.watch.from ≡ max self.old.watch.from at) }
        ensures counts { OnOk result (self.new.counts.early ≡ 0) }
        ensures warnings { self.new.warnings ≡ self.old.warnings }
        ensures margin { self.new.watch.margin ≡ self.old.watch.margin }
        ensures times { self.new.times ≡ self.old.times }
        ensures horizon { self.new.watch.horizon ≡ self.old.watch.horizon }
    {
        let told = self.watch.settle(self.alloc, at)?;
        self.rows.let_go_all(&told);
        laws::a_key_without_lines_has_not_settled();
        laws::all_is_told_up_to_where_it_settled();
        self.counts = Counts::new();
        self.note_settled(&told);
        self.settlings = Settlings::none();
        Ok(())
    }

    /// Notes that it has settled, and told this.
    pub(crate) fn note_settled(&mut self, told: &[SettledKey])
        ensures { HasNoted self.old self.new }
    {
        self.unsettled = Unsettled::since(self.watch.settled_to(), told);
        self.kept = self.kept.saturating_sub(let_go(told));
        self.settled = self.taken;
        self.settlings = Settlings::with(&self.settlings, &self.taken);
    }

    /// The last line that was refused, if one was, or that none was taken, behind what an earlier piece
    /// has counted.
    pub(crate) fn left_out(&self, before: &Carried) -> Option<ReadError>
        ensures { (start : Start) → (read : List (Result SaidLine Why)) → (told : List Found)
            → AreTaken start self.now read told → IsCarried start.before before.now
            → result ≡ left_out start read }
    {
        let refused = self.refused.or(before.last_refused);
        refused.or(self.no_line(before))
    }

    /// That no line was taken, if none was, nor any before.
    fn no_line(&self, before: &Carried) -> Option<ReadError>
        ensures { (start : Start) → (read : List (Result SaidLine Why)) → (told : List Found)
            → AreTaken start self.now read told → IsCarried start.before before.now
            → result ≡ no_line (taken read) start.before.counts.lines }
    {
        let lines = self.taken.saturating_add(before.counts.lines);
        if lines > 0 {
            return None;
        }
        Some(ReadError {
            line: 0,
            why: Why::Empty,
        })
    }

    /// How many lines were read.
    pub(crate) fn line_count(&self) -> u64
        ensures { result ≡ min (self.now.taken + self.now.numbering.more
            + length self.now.numbering.above.items) (2 ^ 64 - 1) }
    {
        self.taken.saturating_add(self.numbering.others())
    }

    /// Adds a line.
    fn add(&mut self, read: ReadLine) -> Result<(), AllocError>
        requires timed { IsTimed read }
        requires room { self.old.taken + self.old.numbering.more
            + length self.old.numbering.above.items < 18446744073709551614 }
        ensures takes { OnOk result (TakesOn self.old self.new (Ok (said_by read) ∷ [])) }
        ensures beside { StaysBeside self.old self.new }
    {
        let ReadLine { line, key, shown } = read;
        let is_judged = line.began() >= self.judged_from(key, &line);
        match self.watch.push(self.alloc, key, line) {
            Ok(()) => {}
            Err(WatchError::NoTimes) => unreachable!(),
            Err(WatchError::Line(_)) => return Err(AllocError),
        }
        self.rows.add(self.taken, shown)?;
        self.note(&line, is_judged)?;
        self.times.hear(key, &line, self.clocks.believed)?;
        Ok(())
    }

    /// From when on a line of a key is judged, where it comes early.
    fn judged_from(&self, key: Option<u32>, line: &Line) -> u64 {
        if line.began() < self.watch.settled_to() {
            self.watch.judged_from(key)
        } else {
            0
        }
    }

    /// Notes when a line that was added began and ended, counts it, and says so where it came early or
    /// is ahead.
    fn note(&mut self, line: &Line, is_judged: bool) -> Result<(), AllocError>
        requires room { self.old.taken + self.old.numbering.more
            + length self.old.numbering.above.items < 18446744073709551614 }
        ensures noted { OnOk result
            (NotesLine self.old.watch.from self.old self.new line.now) }
        ensures watch { self.new.watch ≡ self.old.watch }
        ensures settlings { self.new.settlings ≡ self.old.settlings }
        ensures times { self.new.times ≡ self.old.times }
    {
        let from = self.watch.settled_to();
        let ahead_by = self.clocks.hear(line);
        self.unsettled.add(line.began());
        self.kept = self.kept.saturating_add(1);
        self.taken += 1;
        let its_line = self.line_count();
        let came = Came {
            line: its_line,
            is_judged,
        };
        self.counts.add(line, from, came);
        self.counts.add_ahead(ahead_by > 0);
        self.warn(its_line, from.saturating_sub(line.began()), ahead_by)?;
        Ok(())
    }

    /// Says that a line came so long before what had been settled, and is so far ahead, where it
    /// is, and the number of such lines has doubled.
    fn warn(&mut self, line: u64, early_by: u64, ahead_by: u64) -> Result<(), AllocError>
        ensures warnings { OnOk result (string_bytes self.new.warnings ≡ odd_text
            (counted_line line early_by self.old.counts.early)
            (counted_line line ahead_by self.old.counts.ahead) (string_bytes self.old.warnings)) }
        ensures same { self.new ≡ record self.old { warnings = self.new.warnings } }
    {
        let early = CountedLine {
            line,
            by: early_by,
            count: self.counts.early,
        };
        let ahead = CountedLine {
            line,
            by: ahead_by,
            count: self.counts.ahead,
        };
        push_doubled(&mut self.warnings, early, Warning::Early(early))?;
        push_doubled(&mut self.warnings, ahead, Warning::Ahead(ahead))?;
        Ok(())
    }

    /// Leaves a line out, and says why.
    fn leave_out(&mut self, why: Why) -> Result<(), AllocError>
        requires room { self.old.taken + self.old.numbering.more
            + length self.old.numbering.above.items < 18446744073709551614 }
        ensures takes { OnOk result (TakesOn self.old self.new (Err why ∷ [])) }
        ensures beside { StaysBeside self.old self.new }
    {
        self.numbering.leave_out(self.taken)?;
        let line = self.line_count();
        let error = ReadError { line, why };
        self.refused = Some(error);
        push_warning(&mut self.warnings, Warning::Refused(error))?;
        Ok(())
    }
}

/// How many lines are not kept on, of those of which a watch tells.
fn let_go(told: &[SettledKey]) -> u64 {
    let mut count = 0u64;
    for entry in told {
        let settled = &entry.settled;
        let gone = settled.numbers.len().saturating_sub(settled.kept.len());
        count = count.saturating_add(gone as u64);
    }
    count
}
