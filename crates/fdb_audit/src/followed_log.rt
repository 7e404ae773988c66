//! A log that the program follows, and the file in which it keeps the lines that yet matter.

ghost use Rattle.std.specs.Prelude.{◌≡◌, ◌++◌, ℕ, [], IfErr, IfOk, List, Some, false, ◌≤◌, None};
ghost use Rattle.std.specs.Prelude.{OnOk, length, option_map, string_bytes, true};
ghost use Rattle.fdb_audit.specs.Following.{Start, start_behind};
ghost use Rattle.fdb_audit.specs.Program.{start_kept};
ghost use Rattle.fdb_audit.specs.private.Kept.{MayFail, MayStop};
ghost use Rattle.fdb_audit.specs.Progress.{HasPrinted, IsPrinted};
ghost use Rattle.fdb_audit.specs.Watched.{HasFollowed};
ghost use Rattle.fdb_audit.specs.declared.arguments.AuditArguments.{AuditArguments};

use crate::arguments::{AuditArguments, is_made_by, made_by};
use crate::first_line::none_kept_in;
use crate::follower::Follower;
use crate::kept_file::{Keeper, failure, read_kept, refusal};
use crate::pace::{Pace, SECOND, moment};
use crate::printer::LogFault;
use crate::progress::Reporter;
use crate::refusal::{KeptRefused, LogsRefused};
use crate::teller::{Followed, Said, Stopped, behind};
use fdb_command::{Access, Failure};
use fdb_log_reader::Why;
use std::alloc::{AllocError, Global};
use std::fs::{File, Files};
use std::time::Clock;

/// What stops the program.
type Stop = Failure<LogsRefused, LogFault>;

/// It settles in a twentieth of the time, where that takes long for each line that came; what takes
/// less than a twentieth of a second is done at once.
const SETTLING: Pace = Pace {
    times: 20,
    least: 0,
    ahead: SECOND,
    due: 0,
};

/// At least so many lines come between two looks for keys that are to be forgotten.
const LOOKING: u64 = 4_096;

/// A log that is followed, and where its lines are kept, if they are to be.
#[derive(Drop)]
pub struct FollowedLog {
    alloc: Global,
    pub(crate) follower: Follower,
    pub(crate) reporter: Reporter,
    keeper: Option<Keeper>,
    settling: Pace,
    /// By what it is followed.
    asked: AuditArguments,
    /// So many names are not many: twice as many as there were when it could not go on with fewer.
    few_names: u64,
    /// How many lines had been taken when it was looked last for keys that are to be forgotten.
    looked_at: u64,
    /// Whether bytes have come since something was told: where none have, the log has ended.
    has_grown: bool,
}

impl FollowedLog {
    ghost use Rattle.fdb_audit.specs.Program.{MayBeKept, started};

    /// A log of which nothing has been read, but for what was kept of it.
    pub(crate) fn begin<R: Files<File = File>>(
        rt: &R,
        alloc: Global,
        asked: &AuditArguments,
        behind: u64,
    ) -> Result<Self, Stop>
        ensures begun { IfOk result (λ log. (kept : List ℕ) × (more : ℕ)
            × MayBeKept asked.now more kept
            × HasPrinted asked.now (started asked.now behind more kept) log kept []) }
        ensures stops { IfErr result (MayStop (option_map string_bytes asked.now.keep)) }
    {
        match asked.keep.as_deref() {
            Some(file) => {
                let log = FollowedLog::restore(rt, alloc, asked, behind, file)?;
                Ok(log)
            }
            None => {
                let follower = Follower::new(alloc, asked, behind)?;
                let log = FollowedLog::new(alloc, asked, follower, None)?;
                Ok(log)
            }
        }
    }

    /// A log that goes on from what was kept in a file, if there is one.
    fn restore<R: Files<File = File>>(
        rt: &R,
        alloc: Global,
        asked: &AuditArguments,
        behind: u64,
        file: &str,
    ) -> Result<Self, Stop>
        ensures begun { IfOk result (λ log. (kept : List ℕ) × (more : ℕ)
            × HasPrinted asked.now (start_kept asked.now behind more kept) log kept []) }
        ensures stops { IfErr result (MayStop (Some file.now)) }
    {
        let mut keeper = Keeper::new(rt, alloc, asked, behind, file)?;
        let text = read_kept(rt, alloc, file)?;
        let follower = restored(alloc, asked, behind, file, &text)?;
        keeper.go_on(&text)?;
        let log = FollowedLog::new(alloc, asked, follower, Some(keeper))?;
        Ok(log)
    }

    /// A log of which nothing has been told.
    fn new(
        alloc: Global,
        asked: &AuditArguments,
        follower: Follower,
        keeper: Option<Keeper>,
    ) -> Result<Self, AllocError>
        ensures { IfOk result (λ log. (start : Start) → (bytes : List ℕ)
            → HasFollowed asked.now start follower bytes []
            → HasPrinted asked.now start log bytes []) }
    {
        let asked = asked.for_following(alloc)?;
        Ok(FollowedLog {
            alloc,
            follower,
            reporter: Reporter::new(asked.wanted.json, asked.progress),
            keeper,
            settling: SETTLING,
            asked,
            few_names: 0,
            looked_at: 0,
            has_grown: false,
        })
    }

    /// Reads on, and where names are many, goes on from what is kept once a line has ended. An error
    /// says that memory was refused.
    pub(crate) fn feed(&mut self, bytes: &[u8]) -> Result<(), AllocError>
        ensures { OnOk result ((asked : AuditArguments) → (start : Start)
            → (before text : List ℕ) → HasPrinted asked start self.old before text
            → HasPrinted asked start self.new (before ++ bytes.now) text) }
    {
        self.has_grown = true;
        self.note_bytes(bytes)?;
        if !self.has_much_to_leave() {
            return self.read(bytes);
        }
        let (line, rest) = bytes.split_at(first_end(bytes));
        self.read(line)?;
        self.go_on()?;
        self.read(rest)
    }

    /// Whether it is to go on with fewer names, or to forget keys.
    fn has_much_to_leave(&mut self) -> bool
        ensures same { (self.new.follower ≡ self.old.follower)
            × (self.new.reporter ≡ self.old.reporter) × (self.new.asked ≡ self.old.asked) }
    {
        let names = self.follower.name_count();
        if names > self.few_names && self.follower.has_many_names() {
            return true;
        }
        self.has_many_old_keys()
    }

    /// Whether many keys are to be forgotten. Only once half as many lines have come as it keeps, and
    /// some thousands, it is looked for again, and when it has just settled: then what is left says up
    /// to when all was told.
    fn has_many_old_keys(&mut self) -> bool
        ensures same { (self.new.follower ≡ self.old.follower)
            × (self.new.reporter ≡ self.old.reporter) × (self.new.asked ≡ self.old.asked) }
    {
        let Some(after) = self.asked.forget else {
            return false;
        };
        let lines = self.follower.line_count();
        let taking = &self.follower.taking;
        let enough = (taking.kept / 2).saturating_add(LOOKING);
        if lines.saturating_sub(self.looked_at) < enough || taking.settled != taking.taken {
            return false;
        }
        self.looked_at = lines;
        self.follower.has_many_old_keys(after)
    }

    /// Reads bytes.
    fn read(&mut self, bytes: &[u8]) -> Result<(), AllocError>
        ensures { OnOk result ((asked : AuditArguments) → (start : Start)
            → (before text : List ℕ) → HasPrinted asked start self.old before text
            → HasPrinted asked start self.new (before ++ bytes.now) text) }
    {
        self.follower.feed(bytes)
    }

    /// Goes on from what is kept, unless a line is open or something is left to be said.
    fn go_on(&mut self) -> Result<(), AllocError>
        ensures { OnOk result ((asked : AuditArguments) → (start : Start)
            → (bytes text : List ℕ) → HasPrinted asked start self.old bytes text
            → HasPrinted asked start self.new bytes text) }
    {
        if !self.follower.is_quiet() {
            return Ok(());
        }
        let names = self.follower.name_count();
        let goes_on = self.follower.go_on(&self.asked)?;
        self.few_names = if goes_on { 0 } else { names.saturating_mul(2) };
        self.note_nothing();
        Ok(())
    }

    /// Notes that the file in which lines are kept has not all of it.
    fn note_nothing(&mut self)
        ensures same { (self.new.follower ≡ self.old.follower)
            × (self.new.reporter ≡ self.old.reporter) × (self.new.asked ≡ self.old.asked) }
    {
        if let Some(keeper) = &mut self.keeper {
            keeper.note_nothing();
        }
    }

    /// Notes bytes, where what the last line has is to be kept.
    fn note_bytes(&mut self, bytes: &[u8]) -> Result<(), AllocError>
        ensures same { (self.new.follower ≡ self.old.follower)
            × (self.new.reporter ≡ self.old.reporter) × (self.new.asked ≡ self.old.asked) }
    {
        match &mut self.keeper {
            Some(keeper) => keeper.note_bytes(bytes),
            None => Ok(()),
        }
    }

    /// What is to be said before more is read, as [`Follower::tell`] has it, and behind it how far the
    /// log was followed, if that is to be told and it is time to.
    pub(crate) fn tell<R: Clock>(&mut self, rt: &R, is_idle: bool) -> Result<Said, AllocError>
        ensures { IfOk result (λ said. (asked : AuditArguments) → (start : Start)
            → (bytes text : List ℕ) → HasPrinted asked start self.old bytes text
            → HasPrinted asked start self.new bytes (text ++ string_bytes said.text)) }
    {
        let mut said = self.tell_in_time(rt, is_idle)?;
        if self.reporter.is_due(moment(rt)) {
            let progress = self.follower.progress();
            self.reporter.push(self.alloc, progress, &mut said)?;
        }
        Ok(said)
    }

    /// What is to be said before more is read. Where it takes long to find that for the lines that
    /// came, it has time, but at the end of the log.
    fn tell_in_time<R: Clock>(&mut self, rt: &R, is_idle: bool) -> Result<Said, AllocError>
        ensures told { IfOk result (λ said. (asked : AuditArguments) → (start : Start)
            → (bytes told : List ℕ) → HasFollowed asked start self.old.follower bytes told
            → HasFollowed asked start self.new.follower bytes (told ++ string_bytes said.text)) }
        ensures reporter { (self.new.reporter ≡ self.old.reporter)
            × (self.new.asked ≡ self.old.asked) }
    {
        let unsettled = self.follower.taking.unsettled;
        let has_time = self.has_grown && !unsettled.are_enough(is_idle);
        let is_time = unsettled.are_awaited(is_idle);
        self.has_grown = false;
        if !has_time {
            return self.follower.tell_if(is_time);
        }
        let begun = moment(rt);
        let is_due = self.settling.is_due(begun);
        let said = self.follower.tell_if(is_time && is_due)?;
        self.settling.note(begun, moment(rt));
        Ok(said)
    }

    /// How many lines have been taken, those that were kept not counted.
    pub(crate) fn line_count(&self) -> u64 {
        self.follower.line_count()
    }

    /// Keeps the lines that yet matter in a file, if there is one to keep them in.
    pub(crate) fn keep<R: Files + Clock>(mut self, rt: &R, file: Option<&str>) -> Result<Self, Stop>
        ensures same { IfOk result (λ next. (next.follower ≡ self.follower)
            × (next.reporter ≡ self.reporter) × (next.asked ≡ self.asked)) }
        ensures stops { IfErr result
            (MayFail (option_map (λ file. file.now) file.entry)) }
    {
        if let Some(file) = file {
            self.keep_now(rt, file)?;
        }
        Ok(self)
    }

    /// Keeps the lines that yet matter, if more were taken or it has settled since they were kept,
    /// and it is time to.
    fn keep_now<R: Files + Clock>(&mut self, rt: &R, file: &str) -> Result<(), Stop>
        ensures same { (self.new.follower ≡ self.old.follower)
            × (self.new.reporter ≡ self.old.reporter) × (self.new.asked ≡ self.old.asked) }
        ensures stops { IfErr result (MayFail (Some file.now)) }
    {
        let Some(keeper) = &mut self.keeper else {
            return Ok(());
        };
        let begun = moment(rt);
        if keeper.is_due(&self.follower, begun) {
            let beside = keeper.members(false)?;
            let Ok(text) = self.follower.kept(&beside)? else {
                return Err(failure(self.alloc, Access::Writing, file));
            };
            let read = self.follower.read_count();
            keeper.write(rt, file, &text, read, &beside)?;
            keeper.note(&self.follower);
            keeper.pace.note(begun, moment(rt));
        }
        Ok(())
    }

    /// What is left to be said, where the log ends here.
    pub(crate) fn finish(self) -> Result<Followed, Stop>
        ensures told { IfOk result (λ it. (asked : AuditArguments) → (start : Start)
            → (bytes text : List ℕ) → HasPrinted asked start self bytes text → IsPrinted
            asked start true bytes (text ++ string_bytes it.said.text) it.found it.refused
            it.last_early) }
        ensures stops { IfErr result (λ fault. fault ≡ Failure.Memory) }
    {
        let front = self.front()?;
        let followed = self.follower.finish()?;
        let followed = behind(front, followed)?;
        Ok(followed)
    }

    /// How far the log was followed, if that is to be told, in front of what is said at its end.
    fn front(&self) -> Result<Said, AllocError>
        ensures { IfOk result (λ said. (asked : AuditArguments) → (start : Start)
            → (bytes text : List ℕ) → HasPrinted asked start self.now bytes text
            → HasPrinted asked start self.now bytes (text ++ string_bytes said.text)) }
    {
        let mut said = Said {
            text: String::new(self.alloc),
            warnings: String::new(self.alloc),
        };
        self.reporter
            .push(self.alloc, self.follower.progress(), &mut said)?;
        Ok(said)
    }

    /// What the first line that is kept at the end of the log has beside what it is.
    fn beside(&self) -> Result<String, AllocError> {
        match &self.keeper {
            Some(keeper) => keeper.members(true),
            None => Ok(String::new(self.alloc)),
        }
    }

    /// Keeps the lines that yet matter in a file, and says what is left to be said.
    pub(crate) fn stop<R: Files>(self, rt: &R, file: &str) -> Result<Followed, Stop>
        ensures told { IfOk result (λ it. (asked : AuditArguments) → (start : Start)
            → (bytes text : List ℕ) → HasPrinted asked start self bytes text → IsPrinted
            asked start false bytes (text ++ string_bytes it.said.text) it.found it.refused
            it.last_early) }
        ensures stops { IfErr result (MayFail (Some file.now)) }
    {
        let front = self.front()?;
        let beside = self.beside()?;
        let Stopped {
            followed,
            kept,
            read,
            settled_to: _,
        } = self.follower.stop(&beside)?;
        if let Some(keeper) = &self.keeper {
            let Ok(kept) = kept else {
                return Err(failure(self.alloc, Access::Writing, file));
            };
            keeper.write(rt, file, &kept, read, &beside)?;
        }
        let followed = behind(front, followed)?;
        Ok(followed)
    }
}

/// How many bytes stand up to the first line feed, that included; all, where there is none.
fn first_end(bytes: &[u8]) -> usize
    ensures { result ≤ length bytes.now }
{
    for place in 0..bytes.len() {
        if bytes[place] == b'\n' {
            return place + 1;
        }
    }
    bytes.len()
}

/// An audit that goes on from what a file has: from the lines that were kept, or where none was,
/// behind so many as it says.
fn restored(
    alloc: Global,
    asked: &AuditArguments,
    behind: u64,
    file: &str,
    text: &[u8],
) -> Result<Follower, Stop>
    ensures followed { IfOk result (λ follower. (kept : List ℕ) × (more : ℕ)
        × HasFollowed asked.now (start_kept asked.now behind more kept) follower kept []) }
    ensures stops { IfErr result (MayStop (Some file.now)) }
{
    if text.is_empty() {
        let follower = Follower::new(alloc, asked, behind)?;
        return Ok(follower);
    }
    match Follower::restore(alloc, asked, behind, text) {
        Ok(Ok(follower)) => Ok(follower),
        Ok(Err(refused)) => restored_behind(alloc, asked, behind, file, text, refused),
        Err(_) => Err(Failure::Memory),
    }
}

/// An audit that goes on where no line was kept, behind so many as a text says that is refused as
/// the lines that were kept: its one line has no call.
fn restored_behind(
    alloc: Global,
    asked: &AuditArguments,
    behind: u64,
    file: &str,
    text: &[u8],
    refused: KeptRefused,
) -> Result<Follower, Stop>
    ensures followed { IfOk result (λ follower. (read : ℕ)
        × HasFollowed asked.now (start_behind behind read) follower [] []) }
    ensures stops { IfErr result (MayStop (Some file.now)) }
{
    if refused.why != Some(Why::NoCall) {
        return Err(refusal(alloc, file, refused, text));
    }
    let Some(read) = none_kept_in(alloc, text)? else {
        return Err(refusal(alloc, file, refused, text));
    };
    let made_by = made_by(alloc, asked, behind)?;
    if read == u64::MAX || !is_made_by(alloc, &made_by, text)? {
        let refused = KeptRefused { line: 1, why: None };
        return Err(refusal(alloc, file, refused, text));
    }
    let follower = Follower::behind(alloc, asked, behind, read)?;
    Ok(follower)
}
