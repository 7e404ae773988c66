//! How a follower ends: what is left to be said where the log ends or is followed on later; or one
//! goes on from what it keeps, where that has become large.

ghost use Rattle.std.specs.Prelude.{◌≡◌, ◌++◌, ℕ, Bool, IfOk, List, OnOk, Result, false};
ghost use Rattle.std.specs.Prelude.{string_bytes, true, ◌+◌, length};
ghost use Rattle.fdb_log_reader.specs.LineReader.{line_names};
ghost use Rattle.fdb_log_reader.specs.ReadLine.{SaidLine};
ghost use Rattle.fdb_log_reader.specs.declared.error.Why.{Why};
ghost use Rattle.fdb_audit.specs.Following.{certain_in, left_out, Start};
ghost use Rattle.fdb_audit.specs.Kept.{IsStopped};
ghost use Rattle.fdb_audit.specs.Taken.{HasWarned, counted_of};
ghost use Rattle.fdb_audit.specs.Watched.{HasFollowed, HasSaid, HasSaidAll, HasToldAll, IsFollowed};
ghost use Rattle.fdb_audit.specs.Watched.{IsTelling, lines_asked, names_asked, AskForTheSame};
ghost use Rattle.fdb_lines.specs.declared.fault.Found.{Found};
ghost use Rattle.fdb_audit.specs.Taken.{AreTaken};
ghost use Rattle.fdb_audit.specs.private.Followed.{HasGoneOn, IsQuiet, TakesPlace};
ghost use Rattle.fdb_audit.specs.declared.arguments.AuditArguments.{AuditArguments};

use crate::arguments::AuditArguments;
use crate::clocks::KeyTimes;
use crate::follower::Follower;
use crate::read_back::kept_in_order;
use crate::teller::{Followed, Stopped};
use fdb_lines::{KeyWatch, laws};
use fdb_log_reader::ReadError;
use fdb_log_reader::laws::{a_space_more_is_of_one_line, keys_stay_in_one_member};
use std::alloc::AllocError;
use std::mem::replace;

impl Follower {
    /// What is left to be said, where the log ends here: what is open, and the totals.
    pub fn finish(mut self) -> Result<Followed, AllocError>
        ensures told { IfOk result (λ it. (asked : AuditArguments) → (start : Start)
            → (bytes told : List ℕ) → HasFollowed asked start self bytes told → IsFollowed asked
            start true bytes (told ++ string_bytes it.said.text) it.found it.last_early) }
        ensures said { IfOk result (λ it. (asked : AuditArguments) → (start : Start)
            → (bytes told warned : List ℕ) → HasFollowed asked start self bytes told
            → HasSaid asked start self bytes warned → (all : IsFollowed asked start true bytes
            (told ++ string_bytes it.said.text) it.found it.last_early)
            × HasSaidAll asked start bytes all.settled
            (warned ++ string_bytes it.said.warnings)) }
        ensures refused { IfOk result (λ it. (asked : AuditArguments) → (start : Start)
            → (bytes told : List ℕ) → HasFollowed asked start self bytes told
            → it.refused ≡ left_out start (lines_asked asked bytes)) }
    {
        self.take_last()?;
        let refused = self.taking.left_out(&self.before);
        self.settle_for_good()?;
        let followed = self.conclude(refused)?;
        Ok(followed)
    }

    /// What is left to be said, where the log is to be followed on later: what has become certain, and
    /// the totals. What is open is kept, and not told, by a text as [`kept`](Follower::kept) gives it.
    /// It also says how many lines have been read in all, for [`behind`](Follower::behind), where
    /// none is kept.
    pub fn stop(mut self, beside: &str) -> Result<Stopped, AllocError>
        ensures told { IfOk result (λ it. (asked : AuditArguments) → (start : Start)
            → (bytes told : List ℕ) → HasFollowed asked start self bytes told
            → IsFollowed asked start false bytes (told ++ string_bytes it.followed.said.text)
            it.followed.found it.followed.last_early) }
        ensures said { IfOk result (λ it. (asked : AuditArguments) → (start : Start)
            → (bytes told warned : List ℕ) → HasFollowed asked start self bytes told
            → HasSaid asked start self bytes warned → (all : IsFollowed asked start false bytes
            (told ++ string_bytes it.followed.said.text) it.followed.found it.followed.last_early)
            × HasSaidAll asked start bytes all.settled
            (warned ++ string_bytes it.followed.said.warnings)) }
        ensures refused { IfOk result (λ it. (asked : AuditArguments) → (start : Start)
            → (bytes told : List ℕ) → HasFollowed asked start self bytes told
            → it.followed.refused ≡ left_out start (lines_asked asked bytes)) }
        ensures kept { IfOk result (λ it. IfOk it.kept (λ text. (asked : AuditArguments)
            → (start : Start) → (bytes told : List ℕ) → HasFollowed asked start self bytes told
            → IsStopped asked start bytes (told ++ string_bytes it.followed.said.text)
            it.followed.found it.followed.last_early (string_bytes text))) }
        ensures read { IfOk result (λ it. (asked : AuditArguments) → (start : Start)
            → (bytes told : List ℕ) → HasFollowed asked start self bytes told
            → it.read ≡ length (lines_asked asked bytes) + start.kept.more) }
        ensures settled { IfOk result (λ it. (asked : AuditArguments) → (start : Start)
            → (bytes told : List ℕ) → HasFollowed asked start self bytes told
            → it.settled_to ≡ certain_in start (lines_asked asked bytes)) }
    {
        self.take_last()?;
        let refused = self.taking.left_out(&self.before);
        self.settle()?;
        let kept = self.read_back(beside)?;
        let read = self.read_count();
        let settled_to = self.taking.watch.settled_to();
        laws::all_is_told_up_to_where_it_settled();
        keys_stay_in_one_member();
        let followed = self.conclude(refused)?;
        Ok(Stopped {
            followed,
            kept,
            read,
            settled_to,
        })
    }

    /// Takes the line that has not ended, if there is one.
    fn take_last(&mut self) -> Result<(), AllocError>
        ensures told { OnOk result ((asked : AuditArguments) → (start : Start)
            → (bytes told : List ℕ) → HasFollowed asked start self.old bytes told
            → IsTelling asked start self.new (lines_asked asked bytes) told) }
        ensures said { OnOk result ((asked : AuditArguments) → (start : Start)
            → (bytes warned : List ℕ) → HasSaid asked start self.old bytes warned
            → (told : List Found) × AreTaken start self.new.taking (lines_asked asked bytes) told
            × HasWarned start self.new.taking (lines_asked asked bytes) warned) }
        ensures names { OnOk result ((asked : AuditArguments) → (start : Start)
            → (bytes told : List ℕ) → HasFollowed asked start self.old bytes told
            → names_asked asked bytes ≡ line_names self.new.reader) }
        ensures before { self.new.before ≡ self.old.before }
    {
        let last = self.reader.finish(self.alloc)?;
        if let Some(last) = last {
            self.taking.take(last)?;
        }
        Ok(())
    }

    /// Settles all.
    fn settle_for_good(&mut self) -> Result<(), AllocError>
        ensures reader { self.new.reader ≡ self.old.reader }
        ensures told { OnOk result ((asked : AuditArguments) → (start : Start)
            → (read : List (Result SaidLine Why)) → (told : List ℕ)
            → IsTelling asked start self.old read told
            → HasToldAll asked start true self.new read told) }
        ensures warnings { (self.new.taking.warnings ≡ self.old.taking.warnings)
            × (self.new.taking.settlings ≡ self.old.taking.settlings) }
        ensures before { self.new.before ≡ self.old.before }
    {
        let none = KeyWatch::new(self.alloc, 0, 0);
        let watch = replace(&mut self.taking.watch, none);
        let told = watch.finish(self.alloc)?;
        self.teller
            .tell_all(self.alloc, &self.reader, &self.taking, &told)?;
        Ok(())
    }

    /// Says how much was read, behind all that was told.
    fn conclude(mut self, refused: Option<ReadError>) -> Result<Followed, AllocError>
        ensures told { IfOk result (λ it. (asked : AuditArguments) → (start : Start)
            → (bytes told : List ℕ) → (ends : Bool)
            → (all : HasToldAll asked start ends self (lines_asked asked bytes) told)
            → names_asked asked bytes ≡ line_names self.reader → (followed : IsFollowed asked
            start ends bytes (told ++ string_bytes it.said.text) it.found it.last_early)
            × (followed.windows ≡ all.windows)
            × (followed.counts ≡ counted_of self.taking)
            × (followed.settled ≡ self.taking.settlings.at)) }
        ensures refused { IfOk result (λ it. it.refused ≡ refused) }
        ensures warnings { IfOk result (λ it. it.said.warnings ≡ self.taking.warnings) }
    {
        let all = self.before.with(&self.taking);
        self.teller.end(self.alloc, &all, self.behind)?;
        let said = self.say();
        Ok(Followed {
            said,
            found: self.teller.first,
            refused,
            last_early: all.counts.last_early,
        })
    }
}

/// It goes on from what it keeps where it has names of more clients and keys than this for each line
/// that it keeps, which has two at most, and so many more.
const NAMES_FOR_EACH: u64 = 4;

const NAMES: u64 = 4_096;

impl Follower {
    /// How many names of clients and keys it has, and lines that were refused.
    pub(crate) fn name_count(&self) -> u64 {
        let clients = self.reader.names().count() as u64;
        let refused = self.taking.numbering.count();
        let names = clients.saturating_add(refused);
        match self.reader.key_names() {
            Some(keys) => names.saturating_add(keys.count() as u64),
            None => names,
        }
    }

    /// Whether these are many more than the lines that it keeps.
    pub(crate) fn has_many_names(&self) -> bool {
        let few = self.taking.kept.saturating_mul(NAMES_FOR_EACH);
        self.name_count() > few.saturating_add(NAMES)
    }

    /// Whether a quarter of its keys, or more, are to be forgotten, where one is of which no line
    /// came so long.
    pub(crate) fn has_many_old_keys(&self, after: u64) -> bool {
        let believed = self.taking.clocks.believed;
        self.taking.times.are_many_old(after, believed)
    }

    /// Whether no line is open, and nothing is left to be said.
    pub(crate) fn is_quiet(&self) -> bool
        ensures { result ≡ true → IsQuiet self.now }
    {
        let is_told = self.teller.text.is_empty() && self.taking.warnings.is_empty();
        is_told && self.reader.is_at_line_end()
    }

    /// Goes on as an audit that is restored from what this one keeps, but for what it has of keys that
    /// are to be forgotten, with what this one has counted: of names it then has those of the lines
    /// that it keeps, and no others. Nothing changes where none is kept, or the text that keeps them
    /// is refused, or does not say up to when all is told. Answers whether it has gone on. An error
    /// says that memory was refused.
    pub(crate) fn go_on(&mut self, asked: &AuditArguments) -> Result<bool, AllocError>
        requires quiet { IsQuiet self.old }
        ensures gone_on { IfOk result (λ goes_on. goes_on ≡ true → (other : AuditArguments)
            → (start : Start) → (bytes told : List ℕ) → AskForTheSame other asked.now
            → HasFollowed other start self.old bytes told
            → HasGoneOn other start self.new bytes told) }
        ensures same { IfOk result (λ goes_on. goes_on ≡ false → self.new ≡ self.old) }
    {
        a_space_more_is_of_one_line();
        keys_stay_in_one_member();
        let kept = kept_in_order(self.alloc, &self.taking, asked.forget)?;
        if kept.is_empty() {
            return Ok(false);
        }
        let Ok(text) = self.read_back_of(&kept, "")? else {
            return Ok(false);
        };
        let next = Follower::restore(self.alloc, asked, self.behind, text.as_bytes())?;
        let Ok(next) = next else {
            return Ok(false);
        };
        if next.taking.watch.settled_to() != self.taking.watch.settled_to() {
            return Ok(false);
        }
        let times = self.taking.times.of_lines(self.alloc, &kept)?;
        self.give_way(next, times);
        Ok(true)
    }

    /// Lets another one take its place, which goes on with what this one has counted and told, and by
    /// when the lines of its keys came.
    fn give_way(&mut self, next: Follower, times: KeyTimes)
        ensures { TakesPlace self.old next self.new times }
    {
        let mut next = next;
        next.before = self.before.with(&self.taking);
        next.teller.told = replace(&mut self.teller.told, None);
        next.teller.first = self.teller.first;
        next.taking.clocks.carry(&self.taking.clocks);
        next.taking.times = times;
        *self = next;
    }
}
