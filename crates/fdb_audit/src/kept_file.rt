//! The file in which a watch keeps its lines: by what arguments, and where the log stands, by what
//! its last line has in a member.

ghost use Rattle.std.specs.Prelude.{◌≡◌, IfErr, IfOk, Some, string_bytes};
ghost use Rattle.fdb_audit.specs.KeptFile.{file_line};
ghost use Rattle.fdb_audit.specs.private.Kept.{MayFail, MayStop};

use crate::arguments::{AuditArguments, MADE_BY, made_by};
use crate::first_line::{first_text, none_kept};
use crate::follower::Follower;
use crate::pace::{Pace, SECOND};
use crate::printer::LogFault;
use crate::refusal::{KeptFault, KeptRefused, LogsRefused};
use fdb_command::{Access, Failure, FileFault};
use fdb_log_reader::{LineReader, shown_text};
use std::alloc::{AllocError, Global};
use std::fmt::Write as _;
use std::fs::{File, Files, OpenFile, OpenOptions, TryLockError, rename};
use std::io::{self, ErrorKind, Read, Write};

/// What stops the program.
type Stop = Failure<LogsRefused, LogFault>;

/// What is behind the name of the file in that of the new one, until that is renamed.
const NEW: &str = ".new";

/// What is behind it in that of the file that is locked: the file itself is replaced by each writing.
const LOCK: &str = ".lock";

/// The member of the first line that has what the last line of the log has in one that was asked for.
const POSITION: &str = "kept_position";

/// The file is written in a fiftieth of the time, and at most once a second.
const KEEPING: Pace = Pace {
    times: 50,
    least: SECOND,
    ahead: 0,
    due: 0,
};

/// The file in which lines are kept. Its name is given to each call that may have to tell it.
#[derive(Drop)]
pub(crate) struct Keeper {
    alloc: Global,
    /// It is locked as long as it is open, which ends with the process at the latest.
    _lock: File,
    /// The name of the new file.
    new_file: String,
    /// By which arguments lines are kept.
    made_by: String,
    /// The last line of the log, if something that it has is to be kept.
    last: Option<LastLine>,
    /// How many lines had been taken of what it has.
    taken: u64,
    /// How many of them had come when that had settled last.
    settled: u64,
    pub(crate) pace: Pace,
}

impl Keeper {
    /// A file of this name, which no other watch has, and which has not been written.
    pub(crate) fn new<R: Files<File = File>>(
        rt: &R,
        alloc: Global,
        asked: &AuditArguments,
        behind: u64,
        file: &str,
    ) -> Result<Self, Stop>
        ensures { IfErr result (MayFail (Some file.now)) }
    {
        let lock = locked(rt, alloc, file)?;
        let last = match asked.position.as_deref() {
            Some(member) => Some(LastLine::new(alloc, member)?),
            None => None,
        };
        Ok(Keeper {
            alloc,
            _lock: lock,
            new_file: beside(alloc, file, NEW)?,
            made_by: made_by(alloc, asked, behind)?,
            last,
            taken: 0,
            settled: 0,
            pace: KEEPING,
        })
    }

    /// Goes on from what the file has.
    pub(crate) fn go_on(&mut self, kept: &[u8]) -> Result<(), AllocError> {
        let position = first_text(self.alloc, POSITION, kept)?;
        if let Some(last) = &mut self.last {
            last.begin_at(position);
        }
        Ok(())
    }

    /// Notes bytes of the log that come next.
    pub(crate) fn note_bytes(&mut self, bytes: &[u8]) -> Result<(), AllocError> {
        match &mut self.last {
            Some(last) => last.note(bytes),
            None => Ok(()),
        }
    }

    /// Whether the file has not all of a log that is followed, and it is time to write it.
    pub(crate) fn is_due(&self, log: &Follower, now: Option<u64>) -> bool {
        let has_all = self.taken == log.line_count() && self.settled == log.settled_count();
        !has_all && self.pace.is_due(now)
    }

    /// Notes that the file has all of a log that is followed.
    pub(crate) fn note(&mut self, log: &Follower) {
        self.taken = log.line_count();
        self.settled = log.settled_count();
    }

    /// Notes that the file has not all of it.
    pub(crate) fn note_nothing(&mut self) {
        self.taken = u64::MAX;
    }

    /// Writes the file, whole or not at all: by the text that keeps lines, or where it keeps none of
    /// those that were read, by how many these are, with further members as the first line has them.
    pub(crate) fn write<R: Files>(
        &self,
        rt: &R,
        file: &str,
        kept: &str,
        read: u64,
        beside: &str,
    ) -> Result<(), Stop>
        ensures { IfErr result (MayFail (Some file.now)) }
    {
        if !kept.is_empty() || read == 0 {
            return self.write_text(rt, file, kept);
        }
        let text = none_kept(self.alloc, read, &self.made_by, beside)?;
        self.write_text(rt, file, &text)
    }

    /// Writes a text as the file, whole or not at all.
    fn write_text<R: Files>(&self, rt: &R, file: &str, text: &str) -> Result<(), Stop>
        ensures { IfErr result (MayFail (Some file.now)) }
    {
        match self.replace(rt, file, text) {
            Ok(()) => Ok(()),
            Err(_) => Err(failure(self.alloc, Access::Writing, file)),
        }
    }

    /// What the first line has beside what it is kept as: where the log stands. Where that is over,
    /// its last line may have no end.
    pub(crate) fn members(&self, is_over: bool) -> Result<String, AllocError> {
        let mut members = String::new(self.alloc);
        if let Some(last) = &self.last
            && let Some(text) = last.text(self.alloc, is_over)?
        {
            let text = shown_text(self.alloc, &text)?;
            write!(members, ",\"{POSITION}\":{text}")?;
        }
        Ok(members)
    }

    /// Writes a new file, and gives it the name of the file.
    fn replace<R: Files>(&self, rt: &R, file: &str, text: &str) -> io::Result<()> {
        let mut new_file = File::create(rt, self.new_file.as_str())?;
        new_file.write_all(text.as_bytes())?;
        new_file.sync_all()?;
        rename(rt, self.new_file.as_str(), file)
    }
}

/// Why the program stops where a line that was kept in a file is refused.
pub(crate) fn refusal(alloc: Global, file: &str, refused: KeptRefused, kept: &[u8]) -> Stop
    ensures { MayStop (Some file.now) result }
{
    match fault(alloc, file, refused, kept) {
        Ok(fault) => Failure::Refused(LogsRefused::Kept(fault)),
        Err(_) => Failure::Memory,
    }
}

/// Why lines are refused, with the file, and by what they are kept there.
fn fault(
    alloc: Global,
    file: &str,
    refused: KeptRefused,
    kept: &[u8],
) -> Result<KeptFault, AllocError> {
    Ok(KeptFault {
        refused,
        file: shown_text(alloc, file)?,
        made_by: first_text(alloc, MADE_BY, kept)?,
    })
}

/// What stops the program where the file in which lines are kept fails.
pub(crate) fn failure(alloc: Global, access: Access, file: &str) -> Stop
    ensures { MayFail (Some file.now) result }
{
    match line_of(alloc, access, file) {
        Ok(line) => Failure::OwnFile(FileFault { access, line }),
        Err(_) => Failure::Memory,
    }
}

/// The line that names the file.
fn line_of(alloc: Global, access: Access, file: &str) -> Result<String, AllocError>
    ensures { IfOk result (λ line. string_bytes line ≡ file_line access file.now) }
{
    let file = shown_text(alloc, file)?;
    match access {
        Access::Reading | Access::Writing => format!(in alloc; "fdb_audit: kept in {file}"),
        Access::Locking => format!(in alloc; "fdb_audit: another watch keeps in {file}"),
    }
}

/// The name of a file beside another one.
fn beside(alloc: Global, file: &str, ending: &str) -> Result<String, AllocError> {
    let mut name = String::from_str(alloc, file)?;
    name.push_str(ending)?;
    Ok(name)
}

/// The file that is locked while lines are kept in this one. It stays when it is let go: whoever
/// removed it could remove what another watch has locked meanwhile.
fn locked<R: Files<File = File>>(rt: &R, alloc: Global, file: &str) -> Result<File, Stop>
    ensures { IfErr result (MayFail (Some file.now)) }
{
    let name = beside(alloc, file, LOCK)?;
    match lock(rt, &name) {
        Ok(lock) => Ok(lock),
        Err(TryLockError::WouldBlock) => Err(failure(alloc, Access::Locking, file)),
        Err(TryLockError::Error(_)) => Err(failure(alloc, Access::Writing, file)),
    }
}

/// Opens a file, which is made if there is none, and locks it. What it has stays.
fn lock<R: Files<File = File>>(rt: &R, name: &str) -> Result<File, TryLockError> {
    let mut options = OpenOptions::new();
    options.append(true).create(true);
    match options.open(rt, name) {
        Ok(file) => {
            file.try_lock()?;
            Ok(file)
        }
        Err(error) => Err(TryLockError::Error(error)),
    }
}

/// What a file has of the lines that were kept; nothing where there is none.
pub(crate) fn read_kept<R: Files>(rt: &R, alloc: Global, file: &str) -> Result<Vec<u8>, Stop>
    ensures { IfErr result (MayFail (Some file.now)) }
{
    match read_whole(rt, alloc, file) {
        Ok(text) => Ok(text),
        Err(error) => match error.kind() {
            ErrorKind::NotFound => Ok(Vec::new(alloc)),
            ErrorKind::OutOfMemory => Err(Failure::Memory),
            _ => Err(failure(alloc, Access::Reading, file)),
        },
    }
}

/// All bytes of a file.
fn read_whole<R: Files>(rt: &R, alloc: Global, file: &str) -> io::Result<Vec<u8>> {
    let mut file = File::open(rt, file)?;
    let mut text = Vec::new(alloc);
    file.read_to_end(&mut text)?;
    Ok(text)
}

/// A line that is refused for being longer is not looked at.
const MOST_BYTES: usize = 1_048_577;

/// The last line of a log, as it came.
#[derive(Drop)]
pub(crate) struct LastLine {
    /// The member that is looked for.
    member: String,
    /// What it had in the last line of the log before.
    before: Option<String>,
    /// The last line that has its end, without that.
    whole: Option<Vec<u8>>,
    /// What has come behind it.
    rest: Vec<u8>,
}

impl LastLine {
    /// Of a log of which nothing has come.
    pub(crate) fn new(alloc: Global, member: &str) -> Result<Self, AllocError> {
        Ok(LastLine {
            member: String::from_str(alloc, member)?,
            before: None,
            whole: None,
            rest: Vec::new(alloc),
        })
    }

    /// A log goes on behind a line that had this.
    pub(crate) fn begin_at(&mut self, before: Option<String>) {
        self.before = before;
    }

    /// Notes the bytes that come next.
    pub(crate) fn note(&mut self, bytes: &[u8]) -> Result<(), AllocError> {
        let mut pieces = bytes.rsplitn(3, |byte| *byte == b'\n');
        let rest = pieces.next().unwrap_or(&[]);
        if let Some(last) = pieces.next() {
            let mut line = Vec::new(*self.rest.allocator());
            if pieces.next().is_none() {
                line.extend_from_slice(&self.rest)?;
            }
            line.extend_from_slice(last)?;
            self.whole = Some(line);
            self.rest.clear();
        }
        if self.rest.len() + rest.len() <= MOST_BYTES {
            self.rest.extend_from_slice(rest)?;
        }
        Ok(())
    }

    /// What the last line has in the member. Where the log is over, it may have no end.
    pub(crate) fn text(&self, alloc: Global, is_over: bool) -> Result<Option<String>, AllocError> {
        if is_over && !self.rest.is_empty() {
            return member_texts(alloc, &self.member, &self.rest);
        }
        match (&self.whole, &self.before) {
            (Some(line), _) => member_texts(alloc, &self.member, line),
            (None, Some(text)) => Ok(Some(String::from_str(alloc, text)?)),
            (None, None) => Ok(None),
        }
    }
}

/// The JSON text that a line has in a member, if it has that and is not refused.
fn member_texts(alloc: Global, member: &str, line: &[u8]) -> Result<Option<String>, AllocError> {
    let mut members = Vec::new(alloc);
    members.push(String::from_str(alloc, member)?)?;
    let mut reader = LineReader::new(alloc, None, &members)?;
    reader.feed(alloc, line)?;
    match reader.finish(alloc)? {
        Some(Ok(read)) => match read.shown.first() {
            Some(Some(text)) => Ok(Some(String::from_str(alloc, text)?)),
            _ => Ok(None),
        },
        _ => Ok(None),
    }
}
