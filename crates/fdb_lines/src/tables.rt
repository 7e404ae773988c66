//! The tables of a log, in which each question of the rule is answered by a search.

ghost use Rattle.std.specs.Prelude.{◌≡◌, ◌<◌, ◌≤◌, None, length, max};
ghost use Rattle.fdb_lines.specs.Faults.{draws_again, draws_it, is_drawn, is_own, is_raised};
ghost use Rattle.fdb_lines.specs.Faults.{is_reported, is_twice, knows, last, reports_it};
ghost use Rattle.fdb_lines.specs.Late.{outdates};
ghost use Rattle.fdb_lines.specs.Lines.{version_at};
ghost use Rattle.fdb_lines.specs.Log.{lines_of};
ghost use Rattle.fdb_lines.specs.private.Entries.{other, IsFirstFrom};
ghost use Rattle.fdb_lines.specs.private.Known.{of_version};
ghost use Rattle.fdb_lines.specs.private.Late.{IsFirstEnd};
ghost use Rattle.fdb_lines.specs.private.Tables.{subject_of, case_in, AreTables, IsFirstDrawn};
ghost use Rattle.fdb_lines.specs.private.Tables.{IsFoundIn};
ghost use Rattle.fdb_lines.specs.declared.known.Exposure.TheVariants.{Drawn, Shown};

use crate::end_table::{EndTable, sooner};
use crate::fault::{Fault, Witness};
use crate::known::{by_at, version_by, version_in};
use crate::line::{End, Line};
use crate::locators::{Locators, knows_at};
use crate::log::{AuditOpts, Log};
use std::marker::Model;

/// What each line knows of what was drawn, and the ends of the lines that draw a version.
#[derive(Drop)]
pub(crate) struct DrawTables {
    pub(crate) known: Vec<Option<Witness>>,
    pub(crate) firsts: EndTable,
}

/// What each line knows, and which lines report and draw which versions.
#[derive(Drop)]
pub(crate) struct LogTables {
    pub(crate) shown: Vec<Option<Witness>>,
    /// None where no line is an ask: all that is drawn is shown then.
    pub(crate) drawn: Option<DrawTables>,
    pub(crate) reports: Locators,
    pub(crate) raises: Locators,
    pub(crate) draws: Locators,
    pub(crate) asks: Locators,
    pub(crate) owned: Locators,
    pub(crate) nameless: Locators,
    /// The ends of the lines that show a version.
    pub(crate) firsts: EndTable,
}

/// A log with the options of its audit, and the tables that were made of it. Contracts see the log
/// and the options.
#[derive(Drop)]
pub(crate) struct Tables<'a> {
    log: &'a Log,
    opts: &'a AuditOpts,
    made: &'a LogTables,
}

impl<'a> Model for Tables<'a> {
    ghost use Rattle.std.specs.Coded.{codes};
    ghost use Rattle.fdb_lines.specs.Log.{lines_of};
    ghost use Rattle.fdb_lines.specs.contracts.log.Log as of_log;
    ghost use Rattle.fdb_lines.specs.private.Tables.{subject_of, AreTables, Subject};

    ghost Value = { Subject };

    ghost coded = { Prim.hlevel (codes, of_log.the_row.coded) };

    ghost view = { λ it. subject_of it.log.now it.opts.now };

    ghost invariant = { λ it. AreTables (lines_of it.log.now) it.opts.now it.made.now };
}

impl<'a> Tables<'a> {
    /// The tables that were made of a log. These borrow what was made, as threads share it.
    pub(crate) fn new(log: &'a Log, opts: &'a AuditOpts, made: &'a LogTables) -> Self
        requires { AreTables (lines_of log.now) opts.now made.now }
        ensures { result ≡ subject_of log.now opts.now }
    {
        Tables { log, opts, made }
    }

    /// The lines of the log.
    pub(crate) fn lines(&self) -> &[Line]
        ensures { result.now ≡ (case_in self.now).lines }
    {
        self.log.lines()
    }

    /// The log.
    pub(crate) fn log(&self) -> &Log
        ensures { result.now ≡ self.now.log }
    {
        self.log
    }

    /// The options of the audit.
    pub(crate) fn opts(&self) -> &AuditOpts
        ensures { result.now ≡ self.now.opts }
    {
        self.opts
    }

    /// What the call at a place knows: the newest version that was shown before it.
    pub(crate) fn knows(&self, place: usize) -> u64
        requires place { place < length (case_in self.now).lines }
        ensures { result ≡ knows (case_in self.now) place }
    {
        knows_at(self.opts().start(), self.lines(), &self.made.shown, place)
    }

    /// The newest version that was shown or drawn before the call at a place.
    pub(crate) fn newest(&self, place: usize) -> u64
        requires place { place < length (case_in self.now).lines }
        ensures { let c = case_in self.now in
            result ≡ max (knows c place) (last c place) }
    {
        let knows = self.knows(place);
        match &self.made.drawn {
            Some(drawn) => knows.max(version_by(self.lines(), by_at(&drawn.known, place))),
            None => knows,
        }
    }

    /// The line by which the call at a place knew that a version had been shown, where that is as
    /// new as all that it knew so.
    pub(crate) fn shown(&self, place: usize, version: u64) -> Option<Witness>
        requires place { place < length (case_in self.now).lines }
        requires newest { knows (case_in self.now) place ≤ version }
        ensures { IsFoundIn (lines_of self.now.log) self.now.opts Shown place version result }
    {
        of_version(self.lines(), version, by_at(&self.made.shown, place))
    }

    /// The same, of versions that were drawn, where the call did not know that it had been shown.
    pub(crate) fn drawn(&self, place: usize, version: u64) -> Option<Witness>
        requires place { place < length (case_in self.now).lines }
        requires newest { last (case_in self.now) place ≤ version }
        requires unseen { IsFoundIn (lines_of self.now.log) self.now.opts Shown place version None }
        ensures { IsFoundIn (lines_of self.now.log) self.now.opts Drawn place version result }
    {
        match &self.made.drawn {
            Some(drawn) => of_version(self.lines(), version, by_at(&drawn.known, place)),
            None => None,
        }
    }

    /// The first end of the lines that outdate the call at a place. Logarithmic.
    pub(crate) fn first_that(&self, place: usize, fault: Fault) -> Option<End>
        ensures { let lines = (case_in self.now).lines in
            IsFirstEnd (outdates fault lines place) lines result }
    {
        let version = version_in(self.lines(), place);
        match fault {
            Fault::Order => self.made.firsts.first_that(fault, version),
            Fault::NotAbove => {
                let shown = self.made.firsts.first_that(fault, version);
                sooner(shown, self.first_drawn(version))
            }
            Fault::Wrong | Fault::Twice | Fault::Stray => None,
        }
    }

    /// The first end of the lines that draw a version as new as one or newer; none where all that is
    /// drawn is shown.
    fn first_drawn(&self, version: u64) -> Option<End>
        ensures { let lines = (case_in self.now).lines in IsFirstDrawn lines version result }
    {
        match &self.made.drawn {
            Some(drawn) => drawn.firsts.first_that(Fault::NotAbove, version),
            None => None,
        }
    }

    /// The first line that reports the version of the one at a place. Logarithmic, as all below.
    pub(crate) fn first_report(&self, place: usize) -> Option<u32>
        ensures { let c = case_in self.now in
            IsFirstFrom (reports_it c (version_at c place)) 0 (length c.lines) result }
    {
        self.made
            .reports
            .first(version_in(self.lines(), place), 0, 0)
    }

    /// Whether a line reports its version.
    #[tactic(auto, using(crate::proofs::Entries::first_is))]
    pub(crate) fn is_reported(&self, place: usize) -> bool
        ensures { let c = case_in self.now in
            result ≡ is_reported c (version_at c place) }
    {
        self.first_report(place).is_some()
    }

    /// Whether a line reports its version that knew of none as new.
    pub(crate) fn is_raised(&self, place: usize) -> bool
        ensures { let c = case_in self.now in
            result ≡ is_raised c (version_at c place) }
    {
        let version = version_in(self.lines(), place);
        self.made.raises.first(version, 0, 0).is_some()
    }

    /// The first line that draws its version.
    pub(crate) fn first_draw(&self, place: usize) -> Option<u32>
        ensures { let c = case_in self.now in
            IsFirstFrom (draws_it c (version_at c place)) 0 (length c.lines) result }
    {
        self.made.draws.first(version_in(self.lines(), place), 0, 0)
    }

    /// Whether a line draws its version.
    #[tactic(auto, using(crate::proofs::Entries::first_is))]
    pub(crate) fn is_drawn(&self, place: usize) -> bool
        ensures { let c = case_in self.now in
            result ≡ is_drawn c (version_at c place) }
    {
        self.first_draw(place).is_some()
    }

    /// The first other line that draws its version, where not both are commits.
    pub(crate) fn drawn_again(&self, place: usize) -> Option<u32>
        requires place { place < length (case_in self.now).lines }
        ensures { let c = case_in self.now in
            IsFirstFrom (draws_again c place) 0 (length c.lines) result }
    {
        if self.lines()[place].call.is_commit() {
            self.made.asks.first(version_in(self.lines(), place), 0, 0)
        } else {
            self.other_draw(place)
        }
    }

    /// Whether another line draws its version, and not both are commits.
    #[tactic(auto, using(crate::proofs::Entries::first_is))]
    pub(crate) fn is_twice(&self, place: usize) -> bool
        requires place { place < length (case_in self.now).lines }
        ensures { result ≡ is_twice (case_in self.now) place }
    {
        self.drawn_again(place).is_some()
    }

    /// The first other line that draws its version.
    fn other_draw(&self, place: usize) -> Option<u32>
        requires place { place < length (case_in self.now).lines }
        ensures { let c = case_in self.now in
            IsFirstFrom (other (draws_it c (version_at c place)) place) 0 (length c.lines) result }
    {
        let first = self.first_draw(place)?;
        if first as usize == place {
            let version = version_in(self.lines(), place);
            self.made.draws.first(version, 0, first + 1)
        } else {
            Some(first)
        }
    }

    /// Whether its client may have drawn its version: a line that drew it is of that client, or one
    /// of the two clients is not known.
    pub(crate) fn is_own(&self, place: usize) -> bool
        requires place { place < length (case_in self.now).lines }
        ensures { result ≡ is_own (case_in self.now) place }
    {
        let line = &self.lines()[place];
        let version = line.call.version();
        match line.client {
            Some(client) => {
                let own = self.made.owned.first(version, client, 0);
                let nameless = self.made.nameless.first(version, 0, 0);
                own.is_some() || nameless.is_some()
            }
            None => self.first_draw(place).is_some(),
        }
    }
}

/// The witness, if its line has the version.
fn of_version(lines: &[Line], version: u64, by: Option<Witness>) -> Option<Witness>
    ensures { result ≡ of_version lines.now version by }
{
    let by = by?;
    if version_in(lines, by.place as usize) == version {
        Some(by)
    } else {
        None
    }
}
