//! How far a log has been followed: how much of it has come, in this piece of the watch and in
//! those before, and what is told of that from time to time.

ghost use Rattle.std.specs.Prelude.{◌≡◌, ◌+◌, ◌-◌, ◌<◌, ◌^◌, ◌++◌, ◌∷◌, [], List, map, min, nat_lt};
ghost use Rattle.std.specs.Prelude.{IfOk, None, length, ℕ, IfSome, OnOk, Option, codes};
ghost use Rattle.std.specs.Prelude.{string_bytes, true};
ghost use Rattle.std.specs.Option.{option_or};
ghost use Rattle.fdb_lines.specs.Before.{began};
ghost use Rattle.fdb_lines.specs.Lines.{is_ask, is_commit, is_read, is_report, kind_of};
ghost use Rattle.fdb_lines.specs.declared.line.Line.{Line};
ghost use Rattle.fdb_audit.specs.Following.{counted_figures, counted_on, sum_of, verdict_of};
ghost use Rattle.fdb_audit.specs.Following.{none_before};
ghost use Rattle.fdb_audit.specs.Taken.{AreCounted, IsCarried};
ghost use Rattle.fdb_audit.specs.private.{figure_of};
ghost use Rattle.fdb_audit.specs.private.Followed.{CameMore, counted_in, one_more, CountsBehind};
ghost use Rattle.fdb_audit.specs.Figures.{figures_words};
ghost use Rattle.fdb_audit.specs.Progress.{progress_figures, progress_object, progress_text};
ghost use Rattle.fdb_audit.specs.Text.{line};
ghost use Rattle.fdb_audit.specs.declared.progress.Progress.{Progress};

use crate::figures::{Figure, push_figures, push_line};
use crate::pace::SECOND;
use crate::taken_lines::Taking;
use crate::teller::Said;
use fdb_lines::{Line, Operation};
use fdb_log_reader::ReadError;
use std::alloc::{AllocError, Global};
use std::fmt::Write;

/// How many lines were taken, of each kind, and how they came.
#[derive(Clone, Copy, Debug, PartialEq, Eq)]
pub(crate) struct Counts {
    /// Lines that were taken.
    pub lines: u64,
    pub reads: u64,
    pub commits: u64,
    pub asks: u64,
    pub reports: u64,
    /// Lines that began before what had been settled.
    pub early: u64,
    /// Of these, how many were judged by what was kept then.
    pub judged: u64,
    /// The last of them, counted from 1, if there is one.
    pub last_early: Option<u64>,
    /// Lines of which one above was ahead, newer than those that were found to be before.
    pub ahead: u64,
}

/// How a line came.
#[derive(Clone, Copy)]
pub(crate) struct Came {
    /// Where it stands among all lines, counted from 1.
    pub line: u64,
    /// Whether it is judged, be it early.
    pub is_judged: bool,
}

impl Counts {
    /// Of no line.
    pub(crate) fn new() -> Self
        ensures counted { AreCounted result [] }
        ensures early { result.early ≡ 0 }
        ensures none { (result.judged ≡ 0) × (result.last_early ≡ None) × (result.ahead ≡ 0) }
    {
        Counts {
            lines: 0,
            reads: 0,
            commits: 0,
            asks: 0,
            reports: 0,
            early: 0,
            judged: 0,
            last_early: None,
            ahead: 0,
        }
    }

    /// Counts a line that was taken, where all was settled up to a moment.
    pub(crate) fn add(&mut self, line: &Line, settled_to: u64, came: Came)
        ensures counted { (lines : List Line) → length lines + 1 < 2 ^ 64
            → AreCounted self.old lines → AreCounted self.new (lines ++ line.now ∷ []) }
        ensures early { CameMore (nat_lt (began line.now) settled_to) came self.old self.new }
        ensures ahead { self.new.ahead ≡ self.old.ahead }
    {
        add_one(&mut self.lines);
        self.add_call(line.call);
        self.note_early(line.began() < settled_to, came);
    }

    /// Counts a line that began before what had been settled.
    fn note_early(&mut self, is_early: bool, came: Came)
        ensures early { CameMore is_early came self.old self.new }
        ensures lines { self.new.lines ≡ self.old.lines }
        ensures reads { self.new.reads ≡ self.old.reads }
        ensures commits { self.new.commits ≡ self.old.commits }
        ensures asks { self.new.asks ≡ self.old.asks }
        ensures reports { self.new.reports ≡ self.old.reports }
        ensures ahead { self.new.ahead ≡ self.old.ahead }
    {
        if !is_early {
            return;
        }
        add_one(&mut self.early);
        if came.is_judged {
            add_one(&mut self.judged);
        }
        self.last_early = Some(came.line);
    }

    /// Counts a line of which another is ahead.
    pub(crate) fn add_ahead(&mut self, is_ahead: bool)
        ensures { self.new ≡ record self.old { ahead = one_more is_ahead self.old.ahead } }
    {
        if is_ahead {
            add_one(&mut self.ahead);
        }
    }

    /// Counts a call by its kind.
    fn add_call(&mut self, call: Operation)
        ensures reads { self.new.reads ≡ one_more (is_read (kind_of call)) self.old.reads }
        ensures commits { self.new.commits
            ≡ one_more (is_commit (kind_of call)) self.old.commits }
        ensures asks { self.new.asks ≡ one_more (is_ask (kind_of call)) self.old.asks }
        ensures reports { self.new.reports
            ≡ one_more (is_report (kind_of call)) self.old.reports }
        ensures lines { self.new.lines ≡ self.old.lines }
        ensures early { (self.new.early ≡ self.old.early)
            × (self.new.judged ≡ self.old.judged)
            × (self.new.last_early ≡ self.old.last_early)
            × (self.new.ahead ≡ self.old.ahead) }
    {
        match call {
            Operation::Read(_) => add_one(&mut self.reads),
            Operation::Commit(_) => add_one(&mut self.commits),
            Operation::Ask(_) => add_one(&mut self.asks),
            Operation::Report(_) => add_one(&mut self.reports),
            Operation::Learn(_) => {}
        }
    }

    /// The same with those of lines that came behind. A count that is full stays full.
    pub(crate) fn with(self, more: Counts) -> Counts
        ensures counts { (before refused : ℕ)
            → counted_in result (sum_of before refused)
            ≡ counted_on (counted_in self before) (counted_in more refused) }
        ensures last_early { result.last_early ≡ option_or more.last_early self.last_early }
    {
        Counts {
            lines: self.lines.saturating_add(more.lines),
            reads: self.reads.saturating_add(more.reads),
            commits: self.commits.saturating_add(more.commits),
            asks: self.asks.saturating_add(more.asks),
            reports: self.reports.saturating_add(more.reports),
            early: self.early.saturating_add(more.early),
            judged: self.judged.saturating_add(more.judged),
            last_early: more.last_early.or(self.last_early),
            ahead: self.ahead.saturating_add(more.ahead),
        }
    }

    /// How many lines were taken, how many were refused, and how they came: of those that came early
    /// also how many were judged, if there are some, and how many were ahead, if some were.
    pub(crate) fn figures(&self, alloc: Global, refused: u64) -> Result<Vec<Figure>, AllocError>
        ensures { IfOk result (λ figures.
            map figure_of figures.items ≡ counted_figures (counted_in self.now refused)) }
    {
        let mut figures = Vec::with_capacity(alloc, 9)?;
        figures.push(Figure("lines", Some(self.lines)))?;
        figures.push(Figure("reads", Some(self.reads)))?;
        figures.push(Figure("commits", Some(self.commits)))?;
        figures.push(Figure("asks", Some(self.asks)))?;
        figures.push(Figure("reports", Some(self.reports)))?;
        figures.push(Figure("refused", Some(refused)))?;
        figures.push(Figure("early", Some(self.early)))?;
        if self.early > 0 {
            figures.push(Figure("judged", Some(self.judged)))?;
        }
        if self.ahead > 0 {
            figures.push(Figure("ahead", Some(self.ahead)))?;
        }
        Ok(figures)
    }

    /// What is said of the log in front of these, where no fault was found.
    pub(crate) fn verdict(&self) -> &'static str
        ensures { result.now ≡ verdict_of self.now.early }
    {
        if self.early == 0 {
            "audit ok"
        } else {
            "audit early"
        }
    }
}

/// Adds one to a count that may be full.
pub(crate) fn add_one(count: &mut u64)
    ensures { count.new ≡ min (count.old + 1) (2 ^ 64 - 1) }
{
    *count = count.saturating_add(1);
}

/// What an earlier piece of the same watch has counted, but for the faults that were told.
#[derive(Clone, Copy, Debug)]
pub(crate) struct Carried {
    /// How many lines were taken, and how they came.
    pub(crate) counts: Counts,
    /// How many lines were refused.
    pub(crate) refused: u64,
    /// The last line that was refused, if one was.
    pub(crate) last_refused: Option<ReadError>,
}

impl Carried {
    /// No piece came before.
    pub(crate) fn new() -> Self
        ensures { IsCarried none_before result }
    {
        Carried {
            counts: Counts::new(),
            refused: 0,
            last_refused: None,
        }
    }

    /// The same with what a piece has counted that came behind.
    pub(crate) fn with(&self, taking: &Taking) -> Carried
        ensures { CountsBehind self.now taking.now result }
    {
        Carried {
            counts: self.counts.with(taking.counts),
            refused: self.refused.saturating_add(taking.numbering.count()),
            last_refused: taking.refused.or(self.last_refused),
        }
    }
}

/// How far a log has been followed: how many lines came, and how, and how many of those wait.
#[derive(Clone, Copy, Debug, PartialEq, Eq)]
pub struct Progress {
    /// How many lines were taken, without those that the audit was restored with. `reads`,
    /// `commits`, `asks` and `reports` are how many of them are of each kind.
    pub lines: u64,
    pub reads: u64,
    pub commits: u64,
    pub asks: u64,
    pub reports: u64,
    /// Lines that were refused.
    pub refused: u64,
    /// How many lines had begun before what was settled when they came.
    pub early: u64,
    /// How many of the early lines were judged, by what was kept then.
    pub judged: u64,
    /// How often a line's end was found to be ahead of another client's line that came later.
    pub ahead: u64,
    /// Lines of which not all is told that there is to tell.
    pub open: u64,
    /// Lines that are kept, since they may yet come to matter; those that are open are among them.
    pub kept: u64,
    /// The newest end that is believed, in the unit of the log's times; 0 where none is.
    pub newest_end: u64,
    /// The moment up to which all is told, in the unit of the log's times.
    pub settled_to: u64,
}

impl Progress {
    /// Writes it as an object.
    pub(crate) fn push_object(&self, alloc: Global, out: &mut String) -> Result<(), AllocError>
        ensures { OnOk result (string_bytes out.new
            ≡ string_bytes out.old ++ progress_object self.now) }
    {
        let figures = self.figures(alloc)?;
        write!(out, "{{\"watched\":{{")?;
        push_figures(out, true, &figures)?;
        writeln!(out, "}}}}")
    }

    /// Writes it in words, as a line of standard error.
    pub(crate) fn push_words(&self, alloc: Global, out: &mut String) -> Result<(), AllocError>
        ensures { OnOk result (string_bytes out.new ≡ string_bytes out.old ++ line
            (figures_words (codes "fdb_audit: watched") (progress_figures self.now))) }
    {
        let figures = self.figures(alloc)?;
        push_line(out, "fdb_audit: watched", &figures)
    }

    /// How much was read, and how far that was told.
    fn figures(&self, alloc: Global) -> Result<Vec<Figure>, AllocError>
        ensures { IfOk result (λ figures. map figure_of figures.items ≡ progress_figures self.now) }
    {
        let counts = Counts {
            lines: self.lines,
            reads: self.reads,
            commits: self.commits,
            asks: self.asks,
            reports: self.reports,
            early: self.early,
            judged: self.judged,
            last_early: None,
            ahead: self.ahead,
        };
        let mut figures = counts.figures(alloc, self.refused)?;
        figures.push(Figure("open", Some(self.open)))?;
        figures.push(Figure("kept", Some(self.kept)))?;
        figures.push(Figure("newest_end", Some(self.newest_end)))?;
        figures.push(Figure("settled_to", Some(self.settled_to)))?;
        Ok(figures)
    }
}

/// Whether and when it is told how far a log has been followed: behind what is told once a second has
/// passed since it was, or since it began.
#[derive(Clone, Copy)]
pub(crate) struct Reporter {
    /// Objects are written to the output.
    pub(crate) objects: bool,
    /// Words are written to standard error.
    words: bool,
    /// When the next may be, in nanoseconds; none before the first moment that is known.
    due: Option<u64>,
}

impl Reporter {
    /// Nothing has been told.
    pub(crate) fn new(objects: bool, words: bool) -> Self
        ensures { result.objects ≡ objects }
    {
        Reporter {
            objects,
            words,
            due: None,
        }
    }

    /// Whether it is to be told at a moment. Where that is not known it is not.
    pub(crate) fn is_due(&mut self, now: Option<u64>) -> bool
        ensures { self.new.objects ≡ self.old.objects }
    {
        let Some(now) = now else {
            return false;
        };
        let is_due = self.due.is_some_and(|due| now >= due);
        if is_due || self.due.is_none() {
            self.due = Some(now.saturating_add(SECOND));
        }
        is_due
    }

    /// Tells it behind what is said.
    pub(crate) fn push(
        self,
        alloc: Global,
        progress: Progress,
        said: &mut Said,
    ) -> Result<(), AllocError>
        ensures { OnOk result ((told : Option Progress)
            × (string_bytes said.new.text ≡ string_bytes said.old.text ++ progress_text told)
            × IfSome told (λ it. (it ≡ progress) × (self.objects ≡ true))) }
    {
        if self.words {
            progress.push_words(alloc, &mut said.warnings)?;
        }
        if self.objects {
            progress.push_object(alloc, &mut said.text)?;
        }
        Ok(())
    }
}
