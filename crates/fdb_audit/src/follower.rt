//! An audit that follows a log as it grows.

ghost use Rattle.std.specs.Prelude.{◌≡◌, ◌++◌, ℕ, [], IfOk, List, OnOk, ◌-◌, ◌<◌, ◌+◌, length, max};
ghost use Rattle.std.specs.Prelude.{Result, option_map, string_bytes, All, map};
ghost use Rattle.std.specs.List.Sorted.{IsNonDecreasing};
ghost use Rattle.fdb_log_reader.specs.ReadLine.{SaidLine, member_in};
ghost use Rattle.fdb_log_reader.specs.declared.error.Why.{Why};
ghost use Rattle.fdb_lines.specs.KeyWatch.{IsKept};
ghost use Rattle.fdb_lines.specs.declared.fault.Found.{Found};
ghost use Rattle.fdb_audit.specs.Following.{Start, fresh, keys_taken, lines_taken, lines_since};
ghost use Rattle.fdb_audit.specs.Following.{none_before, start_behind, start_with, sum_of};
ghost use Rattle.fdb_audit.specs.Kept.{KeepsLines, KeptSaid, start_from, start_of, Keeps};
ghost use Rattle.fdb_audit.specs.private.KeptTexts.{number_of};
ghost use Rattle.fdb_audit.specs.Taken.{AreTaken};
ghost use Rattle.fdb_audit.specs.declared.arguments.AuditArguments.{AuditArguments};

mod ending;

use crate::arguments::{AuditArguments, is_made_by, made_by, with_arguments};
use crate::clocks::KeyTimes;
use crate::kept::{KeptText, kept_text};
use crate::members::Numbering;
use crate::progress::{Carried, Progress};
use crate::read_back::{kept_in_order, refusal_of};
use crate::refusal::KeptRefused;
use crate::taken_lines::Taking;
use crate::teller::{Followed, Said, Teller};
use fdb_lines::{KeptLine, KeyWatch, laws};
use fdb_log_reader::laws::{a_space_more_is_of_one_line, keys_stay_in_one_member};
use fdb_log_reader::{LineReader, Why};
use std::alloc::{AllocError, Global};
use std::mem::replace;

/// An audit that follows a log as it grows: it tells each stale read, and each version that is drawn
/// and not above what was known, once, as soon as that is certain. It keeps the lines that may yet
/// come to matter, and no others.
#[derive(Drop)]
pub struct Follower {
    alloc: Global,
    reader: LineReader,
    pub(crate) taking: Taking,
    teller: Teller,
    /// How far behind the newest end a line that comes may begin.
    behind: u64,
    /// By which arguments lines are kept.
    made_by: String,
    /// What an earlier piece of the same watch has counted.
    before: Carried,
}

impl Follower {
    ghost use Rattle.fdb_audit.specs.Watched.{lines_asked, HasFollowed, HasSaid, IsTelling};
    ghost use Rattle.std.specs.Prelude.{Option, Some};
    ghost use Rattle.std.specs.List.{Contains};
    ghost use Rattle.fdb_lines.specs.KeyParts.{lines_of_one};
    ghost use Rattle.fdb_lines.specs.KeyWatch.{settled_in};
    ghost use Rattle.fdb_audit.specs.Following.{AreCountedOn, IsCounted, IsToldOff};
    ghost use Rattle.fdb_audit.specs.Progress.{counted_by, IsProgressOf};
    ghost use Rattle.fdb_audit.specs.Taken.{counted_of, kept_by};
    ghost use Rattle.fdb_audit.specs.private.Followed.{IsUnread, SaysNext, SettlesOn};
    ghost use Rattle.fdb_log_reader.specs.Reading.{EndsALine};
    ghost use Rattle.fdb_log_reader.specs.LineReader.{line_names};

    /// An audit that has read no line, as the arguments ask for it. A line that comes may begin as
    /// far as `behind` says behind the newest end, in the unit of the log's times. It fails only
    /// where memory is refused.
    pub fn new(alloc: Global, asked: &AuditArguments, behind: u64) -> Result<Self, AllocError>
        ensures followed { IfOk result (λ follower.
            HasFollowed asked.now (fresh behind) follower [] []) }
        ensures said { IfOk result (λ follower.
            HasSaid asked.now (fresh behind) follower [] []) }
    {
        let follower = Follower::behind(alloc, asked, behind, 0)?;
        Ok(follower)
    }

    /// The same, where so many lines were read before, none of which is kept: the lines that come
    /// are numbered on from there.
    pub fn behind(
        alloc: Global,
        asked: &AuditArguments,
        behind: u64,
        read: u64,
    ) -> Result<Self, AllocError>
        requires { read < 18446744073709551615 }
        ensures followed { IfOk result (λ follower.
            HasFollowed asked.now (start_behind behind read) follower [] []) }
        ensures said { IfOk result (λ follower.
            HasSaid asked.now (start_behind behind read) follower [] []) }
    {
        let none = Numbering::new(alloc, Vec::new(alloc), read);
        let follower = Follower::numbered(alloc, asked, behind, none)?;
        Ok(follower)
    }

    /// The same, where lines that were kept of others come first.
    fn numbered(
        alloc: Global,
        asked: &AuditArguments,
        behind: u64,
        numbering: Numbering,
    ) -> Result<Self, AllocError>
        requires none { numbering.above.items ≡ [] }
        requires few { numbering.more < 18446744073709551615 }
        ensures unread { IfOk result (λ follower.
            IsUnread asked.now (start_with behind (kept_by numbering)) follower) }
        ensures settled { IfOk result (λ follower. follower.taking.watch.from ≡ 0) }
    {
        let reader = LineReader::new(alloc, asked.key.as_deref(), &asked.shown)?;
        let times = KeyTimes::new(alloc, asked.forget.is_some());
        let margin = asked.opts.margin;
        let taking = Taking::new(alloc, margin, behind, &asked.shown, numbering, times)?;
        let teller = Teller::new(alloc, asked, &taking.rows.members)?;
        let made_by = made_by(alloc, asked, behind)?;
        let before = Carried::new();
        Ok(Follower {
            alloc,
            reader,
            taking,
            teller,
            behind,
            made_by,
            before,
        })
    }

    /// An audit that goes on from the lines that one like it kept, by the text that
    /// [`kept`](Follower::kept) gave, with the same arguments: it tells of the lines that come what
    /// that one would have told. The inner error says why the text is refused: of one that was kept by
    /// other arguments the first line is.
    pub fn restore(
        alloc: Global,
        asked: &AuditArguments,
        behind: u64,
        text: &[u8],
    ) -> Result<Result<Self, KeptRefused>, AllocError>
        ensures followed { IfOk result (λ it. IfOk it (λ follower. HasFollowed asked.now
            (start_of asked.now behind text.now) follower text.now [])) }
        ensures said { IfOk result (λ it. IfOk it (λ follower. HasSaid asked.now
            (start_of asked.now behind text.now) follower text.now [])) }
        ensures none_told { IfOk result (λ it. IfOk it (λ follower. (has : HasFollowed asked.now
            (start_of asked.now behind text.now) follower text.now [])
            × (has.telling.windows ≡ []) × (follower.taking.settlings.at ≡ []))) }
        ensures settled { IfOk result (λ it. IfOk it (λ follower. follower.taking.watch.from
            ≡ (start_of asked.now behind text.now).from)) }
    {
        let kept = match KeptText::read(alloc, asked.key.as_deref(), text)? {
            Ok(read) => read.said,
            Err(refused) => return Ok(Err(refused)),
        };
        let numbering = Numbering::new(alloc, kept.lines, kept.more);
        let mut follower = Follower::numbered(alloc, asked, behind, numbering)?;
        if !is_made_by(alloc, &follower.made_by, text)? {
            return Ok(Err(KeptRefused { line: 1, why: None }));
        }
        follower.feed_kept(text, kept.told, kept.settled, kept.are_many)?;
        Ok(Ok(follower))
    }

    /// How far the log has been followed.
    pub fn progress(&self) -> Progress
        ensures counted { (asked : AuditArguments) → (start : Start) → (bytes told : List ℕ)
            → (has : HasFollowed asked start self.now bytes told)
            → AreCountedOn start has.read (counted_by result) }
        ensures first { (asked : AuditArguments) → (start : Start) → (bytes told : List ℕ)
            → (has : HasFollowed asked start self.now bytes told) → start.before ≡ none_before
            → IsCounted start has.read (counted_by result)
            × (counted_by result ≡ counted_of self.now.taking) }
        ensures its { (asked : AuditArguments) → (start : Start) → (bytes told : List ℕ)
            → HasFollowed asked start self.now bytes told
            → IsProgressOf start self.now result }
        ensures kept { result.kept ≡ self.now.taking.kept }
        ensures moments { (result.newest_end ≡ self.now.taking.clocks.believed)
            × (result.settled_to ≡ self.now.taking.watch.from) }
    {
        let taking = &self.taking;
        let all = self.before.with(taking);
        Progress {
            lines: all.counts.lines,
            reads: all.counts.reads,
            commits: all.counts.commits,
            asks: all.counts.asks,
            reports: all.counts.reports,
            refused: all.refused,
            early: all.counts.early,
            judged: all.counts.judged,
            ahead: all.counts.ahead,
            open: taking.unsettled.open(),
            kept: taking.kept,
            newest_end: taking.clocks.believed,
            settled_to: taking.watch.settled_to(),
        }
    }

    /// How many lines this audit has taken, without those that it was restored with.
    pub fn line_count(&self) -> u64
        ensures { (asked : AuditArguments) → (start : Start) → (bytes told : List ℕ)
            → (has : HasFollowed asked start self.now bytes told)
            → result ≡ sum_of start.before.counts.lines (length (lines_since start has.read)) }
    {
        let before = self.before.counts.lines;
        before.saturating_add(self.taking.counts.lines)
    }

    /// Takes the next bytes of the log, cut anywhere. A line that is refused is left out, and told
    /// of among the warnings. An error says that memory was refused.
    pub fn feed(&mut self, bytes: &[u8]) -> Result<(), AllocError>
        ensures followed { OnOk result ((asked : AuditArguments) → (start : Start)
            → (before told : List ℕ) → HasFollowed asked start self.old before told
            → HasFollowed asked start self.new (before ++ bytes.now) told) }
        ensures said { OnOk result ((asked : AuditArguments) → (start : Start)
            → (before warned : List ℕ) → HasSaid asked start self.old before warned
            → HasSaid asked start self.new (before ++ bytes.now) warned) }
    {
        let lines = self.reader.feed(self.alloc, bytes)?;
        self.taking.take_all(lines)?;
        Ok(())
    }

    /// Reads lines that were kept, of which so many had come when it had settled up to a moment: what
    /// was to be told then has been told. Where lines of more than one client had come, none vouches
    /// for itself.
    fn feed_kept(
        &mut self,
        bytes: &[u8],
        told: usize,
        settled: u64,
        are_many: bool,
    ) -> Result<(), AllocError>
        ensures settled { OnOk result
            (self.new.taking.watch.from ≡ max self.old.taking.watch.from settled) }
        ensures read { OnOk result ((asked : AuditArguments) → (behind : ℕ) → (kept : KeptSaid)
            → kept.told ≡ told → kept.settled ≡ settled → kept.many ≡ are_many
            → EndsALine bytes.now → IsUnread asked (start_with behind kept.front) self.old
            → let start = start_from behind asked.opts.margin kept (lines_asked asked bytes.now) in
            (has : HasFollowed asked start self.new bytes.now []) × (has.telling.windows ≡ [])
            × (self.new.taking.settlings.at ≡ []) × HasSaid asked start self.new bytes.now []) }
    {
        a_space_more_is_of_one_line();
        let lines = self.reader.feed(self.alloc, bytes)?;
        self.taking.take_kept(lines, told, settled, are_many)?;
        self.taking.times.refresh(self.taking.clocks.believed);
        Ok(())
    }

    /// What is to be said before more is read: what has become certain since the last time. With
    /// `is_idle`, for where no more may come for a while, it is looked for at once; without it,
    /// only once 8,192 lines that were not refused have come since the log was settled last. An
    /// error says that memory was refused.
    pub fn tell(&mut self, is_idle: bool) -> Result<Said, AllocError>
        ensures told { IfOk result (λ said. (asked : AuditArguments) → (start : Start)
            → (bytes told : List ℕ) → HasFollowed asked start self.old bytes told
            → HasFollowed asked start self.new bytes (told ++ string_bytes said.text)) }
        ensures said { IfOk result (λ said. (asked : AuditArguments) → (start : Start)
            → (bytes warned : List ℕ) → HasSaid asked start self.old bytes warned
            → HasSaid asked start self.new bytes (warned ++ string_bytes said.warnings)) }
    {
        let is_time = self.taking.unsettled.are_awaited(is_idle);
        self.tell_if(is_time)
    }

    /// What is to be said before more is read: what has become certain, if it is time to find that.
    /// Where no line that is not judged began before, nothing has.
    pub(crate) fn tell_if(&mut self, is_time: bool) -> Result<Said, AllocError>
        ensures told { IfOk result (λ said. (asked : AuditArguments) → (start : Start)
            → (bytes told : List ℕ) → HasFollowed asked start self.old bytes told
            → HasFollowed asked start self.new bytes (told ++ string_bytes said.text)) }
        ensures said { IfOk result (λ said. (asked : AuditArguments) → (start : Start)
            → (bytes warned : List ℕ) → HasSaid asked start self.old bytes warned
            → HasSaid asked start self.new bytes (warned ++ string_bytes said.warnings)) }
    {
        let at = self.taking.clocks.certain_to();
        let is_due = self.taking.unsettled.is_due(at);
        self.settle_if(is_time && is_due)?;
        Ok(self.say())
    }

    /// The lines that may yet come to matter, as a log, for [`restore`](Follower::restore): whoever
    /// goes on from them after what was told so far has been written tells each fault of lines that
    /// come later. They stand in the order in which they came. The first of them also says by which
    /// arguments they are kept, and has `beside`: further members, as JSON, with a comma before each.
    ///
    /// Where no line is kept, the text is empty, and says nothing of how many were read.
    /// The text is read back before it is given. The inner error is that the text, read back, does
    /// not say what is kept. The outer error says that memory was refused.
    pub fn kept(&self, beside: &str) -> Result<Result<String, KeptRefused>, AllocError>
        ensures { IfOk result (λ it. IfOk it (λ text. (asked : AuditArguments) → (start : Start)
            → (bytes told : List ℕ) → (has : HasFollowed asked start self.now bytes told)
            → Keeps (option_map string_bytes asked.key) (line_names self.now.reader) start.kept
            self.now.taking has.read (string_bytes text))) }
    {
        keys_stay_in_one_member();
        self.read_back(beside)
    }

    /// The same, by the lines that were taken.
    fn read_back(&self, beside: &str) -> Result<Result<String, KeptRefused>, AllocError>
        ensures { IfOk result (λ it. IfOk it (λ text. (start : Start)
            → (read : List (Result SaidLine Why)) → (told : List Found)
            → AreTaken start self.now.taking read told
            → let names = line_names self.now.reader in
            Keeps (member_in names) names start.kept self.now.taking read (string_bytes text))) }
    {
        let kept = kept_in_order(self.alloc, &self.taking, None)?;
        self.read_back_of(&kept, beside)
    }

    /// The same of some lines, in the order in which they came.
    fn read_back_of(
        &self,
        kept: &[KeptLine],
        beside: &str,
    ) -> Result<Result<String, KeptRefused>, AllocError>
        requires rise { IsNonDecreasing (map number_of kept.now) }
        ensures { IfOk result (λ it. IfOk it (λ text. (start : Start)
            → (read : List (Result SaidLine Why)) → (told : List Found)
            → AreTaken start self.now.taking read told
            → All (IsKept (lines_taken read) (keys_taken read)) kept.now
            → let names = line_names self.now.reader in
            KeepsLines (map number_of kept.now) (member_in names) names start.kept
            self.now.taking read (string_bytes text))) }
    {
        let key = self.teller.key.as_deref();
        let beside = with_arguments(self.alloc, &self.made_by, beside)?;
        let text = kept_text(self.alloc, &self.reader, &self.taking, key, kept, &beside)?;
        match refusal_of(
            self.alloc,
            &self.reader,
            &self.taking,
            kept,
            text.as_bytes(),
        )? {
            Some(refused) => Ok(Err(refused)),
            None => Ok(Ok(text)),
        }
    }

    /// How many lines have been read in all, with those behind which it began.
    pub(crate) fn read_count(&self) -> u64
        ensures { (start : Start) → (read : List (Result SaidLine Why)) → (told : List Found)
            → AreTaken start self.now.taking read told → result ≡ length read + start.kept.more }
    {
        self.taking.line_count()
    }

    /// How many lines had been taken when the audit settled last, with those that it was restored
    /// with.
    pub fn settled_count(&self) -> u64
        ensures { result ≡ self.now.taking.settled }
    {
        self.taking.settled
    }

    /// Settles, if it is time to.
    fn settle_if(&mut self, is_time: bool) -> Result<(), AllocError>
        ensures reader { self.new.reader ≡ self.old.reader }
        ensures told { OnOk result ((asked : AuditArguments) → (start : Start)
            → (read : List (Result SaidLine Why)) → (told : List ℕ)
            → IsTelling asked start self.old read told → IsTelling asked start self.new read told) }
        ensures taken { OnOk result
            (SettlesOn self.old.taking self.new.taking) }
        ensures behind { self.new.behind ≡ self.old.behind }
        ensures before { self.new.before ≡ self.old.before }
    {
        if is_time {
            self.settle()?;
        }
        Ok(())
    }

    /// Settles as far as lines that come may not begin any more.
    fn settle(&mut self) -> Result<(), AllocError>
        ensures reader { self.new.reader ≡ self.old.reader }
        ensures off { OnOk result ((asked : AuditArguments) → (start : Start)
            → (read : List (Result SaidLine Why)) → (told : List ℕ)
            → IsTelling asked start self.old read told
            → (key : Option ℕ) → Contains (keys_taken read) key
            → let watch = self.new.taking.watch in IsToldOff asked.opts.margin start.behind
            (Some watch.from) (lines_of_one (lines_taken read) (keys_taken read) key)
            (settled_in watch.parts.items key)) }
        ensures to { OnOk result (self.new.taking.watch.from ≡ max self.old.taking.watch.from
            (self.old.taking.clocks.believed - self.old.taking.clocks.behind)) }
        ensures told { OnOk result ((asked : AuditArguments) → (start : Start)
            → (read : List (Result SaidLine Why)) → (told : List ℕ)
            → IsTelling asked start self.old read told → IsTelling asked start self.new read told) }
        ensures taken { OnOk result
            (SettlesOn self.old.taking self.new.taking) }
        ensures behind { self.new.behind ≡ self.old.behind }
        ensures before { self.new.before ≡ self.old.before }
    {
        let at = self.taking.clocks.certain_to();
        let told = self.taking.watch.settle(self.alloc, at)?;
        self.teller
            .tell_all(self.alloc, &self.reader, &self.taking, &told)?;
        self.taking.rows.let_go_all(&told);
        self.taking.note_settled(&told);
        Ok(())
    }

    /// What is to be said next; nothing of it is left then.
    fn say(&mut self) -> Said
        ensures reader { self.new.reader ≡ self.old.reader }
        ensures text { string_bytes result.text ≡ string_bytes self.old.teller.text }
        ensures first { self.new.teller.first ≡ self.old.teller.first }
        ensures told { (asked : AuditArguments) → (start : Start)
            → (read : List (Result SaidLine Why)) → (told : List ℕ)
            → IsTelling asked start self.old read told
            → IsTelling asked start self.new read (told ++ string_bytes result.text) }
        ensures warnings { result.warnings ≡ self.old.taking.warnings }
        ensures taking { SaysNext self.old.taking self.new.taking }
        ensures behind { self.new.behind ≡ self.old.behind }
        ensures before { self.new.before ≡ self.old.before }
    {
        Said {
            text: replace(&mut self.teller.text, String::new(self.alloc)),
            warnings: replace(&mut self.taking.warnings, String::new(self.alloc)),
        }
    }
}
