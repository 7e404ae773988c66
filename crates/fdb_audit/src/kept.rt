//! The lines that are kept of a log that is followed, as a log of their own: with each it stands as
//! what it was kept.

ghost use Rattle.std.specs.Prelude.{◌≡◌, ◌∷◌, ◌++◌, ◌<◌, ◌^◌, [], All, List, IfOk, IfSome, Ok};
ghost use Rattle.std.specs.Prelude.{OnOk, Option, Some, decimal, is_some, length, map, ◌||◌, false};
ghost use Rattle.std.specs.Prelude.{option_map, string_bytes, true};
ghost use Rattle.fdb_log_reader.specs.LineReader.{line_names};
ghost use Rattle.fdb_log_reader.specs.ReadLine.{SaidLine, said_by, said_in};
ghost use Rattle.fdb_log_reader.specs.Reading.{lines_in, EndsALine};
ghost use Rattle.fdb_audit.specs.Following.{taken};
ghost use Rattle.fdb_audit.specs.Kept.{client_named, kept_members, kept_said, key_named};
ghost use Rattle.fdb_audit.specs.Kept.{lines_kept, named_in, named_said, number_kept, Rise};
ghost use Rattle.fdb_audit.specs.private.Kept.{IsKeptAs};

use crate::figures::{Figure, push_figures};
use crate::refusal::KeptRefused;
use crate::taken_lines::Taking;
use fdb_lines::{KeptLine, Operation};
use fdb_log_reader::laws::{a_space_more_is_of_one_line, digits_are_read_as_their_number};
use fdb_log_reader::{LineReader, ReadLine, Why, printed_name};
use std::alloc::{AllocError, Global};
use std::fmt::Write;

/// The member that says where a line stood among all that were read, counted from 1.
const LINE: &str = "kept_line";

/// The member that has how many lines had been read.
pub(crate) const READ: &str = "kept_lines";

/// The member that has the moment up to which all was told; it is left out in lines that came since.
const SETTLED: &str = "kept_settled";

/// The member of the first line that says of how many clients lines have come, up to two.
const CLIENTS: &str = "kept_clients";

/// What a text says of the lines that were kept.
#[derive(Drop)]
pub(crate) struct KeptText {
    /// Where each line stood among all, counted from 1.
    pub(crate) lines: Vec<u64>,
    /// How many of the lines had come when it had settled last.
    pub(crate) told: usize,
    /// How many lines had been read beside these.
    pub(crate) more: u64,
    /// The moment up to which it had settled.
    pub(crate) settled: u64,
    /// Whether lines of more than one client had come.
    pub(crate) are_many: bool,
    ghost few: { more < 18446744073709551615 },
    ghost rise: { Rise lines.items },
}

/// A text that keeps lines, as it was read.
#[derive(Drop)]
pub(crate) struct KeptRead {
    /// What it says of the lines that were kept.
    pub(crate) said: KeptText,
    /// The lines, none of which is refused.
    pub(crate) lines: Vec<Result<ReadLine, Why>>,
    /// The reader that has the names behind them.
    pub(crate) reader: LineReader,
}

/// As what a line was kept.
#[derive(Clone, Copy)]
struct KeptAs {
    line: u64,
    read: u64,
    settled: Option<u64>,
    are_many: bool,
}

impl KeptText {
    ghost use Rattle.fdb_audit.specs.private.KeptTexts.{said_of};

    /// Of no line.
    pub(crate) fn new(alloc: Global) -> Self
        ensures { said_of result ≡ kept_said [] }
    {
        KeptText {
            lines: Vec::new(alloc),
            told: 0,
            more: 0,
            settled: 0,
            are_many: false,
        }
    }

    /// Reads what a text says, whose lines have their keys in the member of this name.
    pub(crate) fn read(
        alloc: Global,
        key: Option<&str>,
        text: &[u8],
    ) -> Result<Result<KeptRead, KeptRefused>, AllocError>
        ensures said { IfOk result (λ it. IfOk it (λ read. said_of read.said
            ≡ kept_said (lines_kept (option_map (λ key. key.now) key.entry) text.now))) }
        ensures lines { IfOk result (λ it. IfOk it (λ read. map
            (named_said (line_names read.reader)) (taken (map said_in read.lines.items))
            ≡ named_in (option_map (λ key. key.now) key.entry) kept_members text.now)) }
        ensures many { IfOk result (λ it. IfOk it (λ read.
            length (lines_in text.now) ≡ length read.lines.items)) }
        ensures ends { IfOk result (λ it. OnOk it (EndsALine text.now)) }
    {
        a_space_more_is_of_one_line();
        let members = members_kept(alloc)?;
        let mut reader = LineReader::new(alloc, key, &members)?;
        let lines = reader.feed(alloc, text)?;
        let mut said = KeptText::new(alloc);
        if let Err(refused) = said.add_all(alloc, &lines)? {
            return Ok(Err(refused));
        }
        match reader.finish(alloc)? {
            Some(_) => Ok(Err(said.refusal(Some(Why::NotJson)))),
            None => Ok(Ok(KeptRead {
                said,
                lines,
                reader,
            })),
        }
    }

    /// Adds lines, until one is refused.
    fn add_all(
        &mut self,
        alloc: Global,
        lines: &[Result<ReadLine, Why>],
    ) -> Result<Result<(), KeptRefused>, AllocError>
        ensures { IfOk result (λ it. OnOk it ((before : List SaidLine)
            → said_of self.old ≡ kept_said before
            → said_of self.new ≡ kept_said (before ++ taken (map said_in lines.now)))) }
    {
        for read in lines {
            if let Err(refused) = self.add(alloc, read)? {
                return Ok(Err(refused));
            }
        }
        Ok(Ok(()))
    }

    /// Adds a line.
    fn add(
        &mut self,
        alloc: Global,
        read: &Result<ReadLine, Why>,
    ) -> Result<Result<(), KeptRefused>, AllocError>
        ensures { IfOk result (λ it. OnOk it ((before : List SaidLine)
            → said_of self.old ≡ kept_said before
            → said_of self.new ≡ kept_said (before ++ taken (said_in read.now ∷ [])))) }
    {
        let read = match read {
            Ok(read) => read,
            Err(why) => return Ok(Err(self.refusal(Some(*why)))),
        };
        let Some(kept) = kept_as(alloc, read)? else {
            return Ok(Err(self.refusal(None)));
        };
        if !self.take(kept)? {
            return Ok(Err(self.refusal(None)));
        }
        Ok(Ok(()))
    }

    /// Takes a line by as what it was kept, if it may stand behind those above it.
    fn take(&mut self, kept: KeptAs) -> Result<bool, AllocError>
        ensures { IfOk result (λ is_taken. is_taken ≡ true
            → (before : List SaidLine) → (said : SaidLine) → IsKeptAs kept said
            → said_of self.old ≡ kept_said before
            → said_of self.new ≡ kept_said (before ++ said ∷ [])) }
    {
        let count = self.lines.len() as u64;
        let more = kept.read.saturating_sub(count).saturating_sub(1);
        if !self.goes_on(kept) || more == u64::MAX {
            return Ok(false);
        }
        self.lines.push(kept.line)?;
        self.more = more;
        self.are_many = either(self.are_many, kept.are_many);
        if let Some(settled) = kept.settled {
            self.told = self.lines.len();
            self.settled = settled;
        }
        Ok(true)
    }

    /// Whether a line may stand behind those above it: it came after them, and no lines are
    /// told behind some that are not.
    fn goes_on(&self, kept: KeptAs) -> bool
        ensures told { result ≡ true → is_some kept.settled ≡ true
            → self.now.told ≡ length self.now.lines.items }
        ensures above { result ≡ true
            → All (λ line. line < kept.line) self.now.lines.items }
    {
        let count = self.lines.len();
        let last = self.lines.last().copied().unwrap_or(0);
        let may_be_told = kept.settled.is_none() || self.told == count;
        last < kept.line && kept.line <= kept.read && may_be_told
    }

    /// Why the next line is refused.
    fn refusal(&self, why: Option<Why>) -> KeptRefused {
        KeptRefused {
            line: (self.lines.len() as u64).saturating_add(1),
            why,
        }
    }
}

/// Whether one of two things holds.
fn either(one: bool, other: bool) -> bool
    ensures { result ≡ one || other }
{
    one || other
}

/// The members that say as what a line was kept.
fn members_kept(alloc: Global) -> Result<Vec<String>, AllocError>
    ensures { IfOk result (λ members. map string_bytes members.items ≡ kept_members) }
{
    let mut members = Vec::new(alloc);
    members.push(String::from_str(alloc, LINE)?)?;
    members.push(String::from_str(alloc, READ)?)?;
    members.push(String::from_str(alloc, SETTLED)?)?;
    members.push(String::from_str(alloc, CLIENTS)?)?;
    Ok(members)
}

/// As what a line says that it was kept, if it does.
fn kept_as(alloc: Global, read: &ReadLine) -> Result<Option<KeptAs>, AllocError>
    ensures { IfOk result (λ kept. IfSome kept (λ kept. IsKeptAs kept (said_by read.now))) }
{
    let line = number_at(alloc, read, 0)?;
    let lines = number_at(alloc, read, 1)?;
    let settled = number_at(alloc, read, 2)?;
    let clients = number_at(alloc, read, 3)?;
    let is_bad = is_unread(read, 2, settled) || is_unread(read, 3, clients);
    match (line, lines) {
        (Some(line), Some(read)) if !is_bad => Ok(Some(KeptAs {
            line,
            read,
            settled,
            are_many: clients.unwrap_or(0) > 1,
        })),
        _ => Ok(None),
    }
}

/// Whether something else than a number stands in one of the members that are shown.
fn is_unread(read: &ReadLine, place: usize, found: Option<u64>) -> bool
    ensures { result ≡ false → IfSome found (λ number.
        number_kept place (said_by read.now) ≡ Some number)
        → number_kept place (said_by read.now) ≡ found }
{
    found.is_none() && read.shown.get(place).is_some_and(Option::is_some)
}

/// The number that stands in one of the members that are shown, if one does.
fn number_at(alloc: Global, read: &ReadLine, place: usize) -> Result<Option<u64>, AllocError>
    ensures { IfOk result (λ found. IfSome found (λ number.
        number_kept place (said_by read.now) ≡ Some number)) }
{
    digits_are_read_as_their_number();
    match read.shown.get(place) {
        Some(Some(text)) => number_in(alloc, text),
        _ => Ok(None),
    }
}

/// The number that a text writes, if it does so by its decimal digits alone.
fn number_in(alloc: Global, text: &str) -> Result<Option<u64>, AllocError>
    ensures { IfOk result (λ found. IfSome found (λ number.
        (text.now ≡ decimal number) × (number < 2 ^ 64))) }
{
    let Ok(number) = text.parse::<u64>() else {
        return Ok(None);
    };
    let digits = number.to_string(alloc)?;
    if digits.as_str() != text {
        return Ok(None);
    }
    Ok(Some(number))
}

/// The name of a client, if it is known.
pub(crate) fn client_name(reader: &LineReader, client: Option<u32>) -> Option<&str>
    ensures { option_map (λ name. name.now) result
        ≡ client_named (line_names reader.now) client }
{
    reader.names().name(client?)
}

/// The name of a key, where keys are kept and there is one.
pub(crate) fn key_name(reader: &LineReader, key: Option<u32>) -> Option<&str>
    ensures { option_map (λ name. name.now) result ≡ key_named (line_names reader.now) key }
{
    reader.key_names()?.name(key?)
}

/// The lines that are kept, as a text: each key stands in the member that has the keys, as that is
/// printed, and the first line ends with further members.
pub(crate) fn kept_text(
    alloc: Global,
    reader: &LineReader,
    taking: &Taking,
    key: Option<&str>,
    kept: &[KeptLine],
    beside: &str,
) -> Result<String, AllocError> {
    let mut text = String::new(alloc);
    let mut clients = Some(if taking.clocks.are_many() { 2 } else { 1 });
    for line in kept {
        push_call(alloc, &mut text, reader, line)?;
        push_key(alloc, &mut text, reader, key, line)?;
        taking.rows.push_texts(&mut text, line.number)?;
        push_kept(&mut text, taking, line)?;
        if let Some(clients) = clients.take() {
            write!(text, ",\"{CLIENTS}\":{clients}{beside}")?;
        }
        writeln!(text, "}}")?;
    }
    Ok(text)
}

/// Writes whose call a line was, what it did and when.
fn push_call(
    alloc: Global,
    out: &mut String,
    reader: &LineReader,
    kept: &KeptLine,
) -> Result<(), AllocError> {
    let line = kept.line;
    write!(out, "{{")?;
    if let Some(name) = client_name(reader, line.client) {
        let name = printed_name(alloc, name)?;
        write!(out, "\"client\":{name},")?;
    }
    let figures = [
        Figure(verb_of(line.call), Some(line.call.version())),
        Figure("began", Some(line.began())),
        Figure("ended", line.ended()),
    ];
    push_figures(out, true, &figures)
}

/// The member of a call.
fn verb_of(call: Operation) -> &'static str {
    match call {
        Operation::Read(_) => "read",
        Operation::Commit(_) => "commit",
        Operation::Ask(_) => "ask",
        Operation::Report(_) => "report",
        Operation::Learn(_) => "learn",
    }
}

/// Writes a line's key, if it has one.
fn push_key(
    alloc: Global,
    out: &mut String,
    reader: &LineReader,
    member: Option<&str>,
    kept: &KeptLine,
) -> Result<(), AllocError> {
    let Some(member) = member else {
        return Ok(());
    };
    if let Some(name) = key_name(reader, kept.key) {
        let name = printed_name(alloc, name)?;
        write!(out, ",{member}:{name}")?;
    }
    Ok(())
}

/// Writes as what a line is kept.
fn push_kept(out: &mut String, taking: &Taking, kept: &KeptLine) -> Result<(), AllocError> {
    let its_line = taking.numbering.line(kept.number);
    let read = taking.line_count();
    write!(out, ",\"{LINE}\":{its_line},\"{READ}\":{read}")?;
    if kept.number < taking.settled {
        let settled = taking.watch.settled_to();
        write!(out, ",\"{SETTLED}\":{settled}")?;
    }
    Ok(())
}
