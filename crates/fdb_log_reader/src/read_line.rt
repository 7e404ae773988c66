//! A line that is read by itself, how it is read, and the names that such lines have had.

ghost use Rattle.std.specs.Prelude.{◌≡◌, ◌⊎◌, ◌≤◌, ℕ, List, [], All, Err, IfOk, IfSome};
ghost use Rattle.std.specs.Prelude.{MatchResult, Ok, false, map, option_map, string_bytes, ◌<◌};
ghost use Rattle.std.specs.Prelude.{OnOk, length};
ghost use Rattle.serde_json.specs.Data.{depth};
ghost use Rattle.serde_json.specs.Find.{get};
ghost use Rattle.serde_json.specs.Read.{max_depth};
ghost use Rattle.serde_json.specs.View.{view};
ghost use Rattle.fdb_log_reader.specs.Columns.{IsText};
ghost use Rattle.fdb_log_reader.specs.Members.{member_of};
ghost use Rattle.fdb_log_reader.specs.Parts.{parts_of};
ghost use Rattle.fdb_log_reader.specs.ReadLine.{are_full, known_of, line_read, line_said, said_by};
ghost use Rattle.fdb_log_reader.specs.ReadLine.{refusal_alone, showing, text_says, unless};
ghost use Rattle.fdb_log_reader.specs.ReadLine.{HasTexts, key_number, keys_of, with_known};
ghost use Rattle.fdb_log_reader.specs.private.{IsFlat};

use crate::error::Why;
use crate::member::{Member, Said};
use crate::named_log::add_client;
use crate::names::Names;
use crate::parsing::{Parts, parts_of, value_of};
use crate::reader::MAX_LINE_BYTES;
use crate::usual::usual_of;
use fdb_lines::{Line, MAX_LINES};
use itoa::Buffer;
use serde_json::Value;
use std::alloc::{AllocError, Global};

/// A line that was read by itself.
#[derive(Debug, Drop)]
pub struct ReadLine {
    /// The line. It has times; its client is numbered by the reader's names.
    pub line: Line,
    /// The number of the line's key, where keys are kept and the line names one.
    pub key: Option<u32>,
    /// For each member that is to be shown the JSON text of what it says, if it is there, as
    /// `serde_json` writes it, without white space.
    pub shown: Vec<Option<String>>,
}

/// Reads a line by its bytes, of which the members of these names are shown. Unless memory is
/// refused, a line that is refused leaves the names as they are.
#[tactic(auto, using(crate::proofs::ShownTexts::flat_value))]
pub(crate) fn read_line(
    names: &mut KnownNames,
    alloc: Global,
    shown: &[String],
    bytes: &[u8],
) -> Result<ReadLine, Why>
    ensures { MatchResult result
        (λ read. (line_read (map string_bytes shown.now) (known_of names.old) bytes.now
        ≡ Ok (said_by read, known_of names.new)) × HasTexts read)
        (λ why. (why ≡ Why.Memory)
        ⊎ ((line_read (map string_bytes shown.now) (known_of names.old) bytes.now ≡ Err why)
        × (known_of names.new ≡ known_of names.old))) }
{
    if bytes.len() > MAX_LINE_BYTES {
        return Err(Why::TooLong);
    }
    if names.clients.count() >= MAX_LINES || names.key_count() >= MAX_LINES {
        return Err(Why::TooMany);
    }
    if shown.is_empty()
        && let Some(line) = usual_of(bytes, names.member())
    {
        return read_said(names, alloc, &line);
    }
    let value = value_of(alloc, bytes)?;
    read_value(names, alloc, shown, &value)
}

/// The same by its JSON value.
fn read_value(
    names: &mut KnownNames,
    alloc: Global,
    shown: &[String],
    value: &Value,
) -> Result<ReadLine, Why>
    requires room { are_full (known_of names.old) ≡ false }
    requires flat { IsFlat (λ name. get name (view value.now)) }
    ensures { MatchResult result
        (λ read. (line_said (map string_bytes shown.now) (known_of names.old)
        (member_of (view value.now)) (λ name. get name (view value.now))
        ≡ Ok (said_by read, known_of names.new)) × HasTexts read)
        (λ why. (why ≡ Why.Memory)
        ⊎ ((line_said (map string_bytes shown.now) (known_of names.old)
        (member_of (view value.now)) (λ name. get name (view value.now)) ≡ Err why)
        × (known_of names.new ≡ known_of names.old))) }
{
    let mut read = read_said(names, alloc, value)?;
    read.shown = texts_of(alloc, shown, value)?;
    Ok(read)
}

/// The same by what its members say, but not what is shown of it.
fn read_said<S: Said>(names: &mut KnownNames, alloc: Global, line: &S) -> Result<ReadLine, Why>
    requires room { are_full (known_of names.old) ≡ false }
    ensures none { IfOk result (λ read. read.shown.items ≡ []) }
    ensures read { (shown : List (List ℕ)) → MatchResult result
        (λ read. line_said shown (known_of names.old) (S.says line.now) (S.says_beside line.now)
        ≡ Ok (showing (map (S.says_beside line.now) shown) (said_by read), known_of names.new))
        (λ why. (why ≡ Why.Memory)
        ⊎ ((line_said shown (known_of names.old) (S.says line.now) (S.says_beside line.now)
        ≡ Err why) × (known_of names.new ≡ known_of names.old))) }
{
    let mut digits = Buffer::new();
    let mut key_digits = Buffer::new();
    let parts = parts_of(
        line,
        &names.clients,
        names.member(),
        &mut digits,
        &mut key_digits,
    )?;
    is_alone(&parts)?;
    Ok(names.add(alloc, parts)?)
}

/// Whether a line can be read by itself: one has times, and has not learnt.
fn is_alone(parts: &Parts<'_>) -> Result<(), Why>
    ensures { result ≡ unless (refusal_alone (parts_of parts.now)) tt }
{
    if parts.times.is_none() {
        return Err(Why::SomeTimes);
    }
    if parts.call.is_learn() {
        return Err(Why::BadMember(Member::Learn));
    }
    Ok(())
}

/// The JSON texts of what a line says by the members of these names.
fn texts_of(
    alloc: Global,
    members: &[String],
    line: &Value,
) -> Result<Vec<Option<String>>, AllocError>
    requires flat { IsFlat (λ name. get name (view line.now)) }
    ensures says { IfOk result (λ texts. map text_says texts.items
        ≡ map (λ name. get name (view line.now)) (map string_bytes members.now)) }
    ensures texts { IfOk result
        (λ texts. All (λ text. IsText (text_says text) (option_map string_bytes text)) texts.items) }
{
    let mut texts = Vec::new(alloc);
    for member in members {
        let text = text_of(alloc, line.get(member))?;
        texts.push(text)?;
    }
    Ok(texts)
}

/// The JSON text of what a member says, if it is there.
fn text_of(alloc: Global, said: Option<&Value>) -> Result<Option<String>, AllocError>
    requires flat { IfSome said (λ value. depth (view value.now) ≤ max_depth) }
    ensures { IfOk result (λ text. IsText (option_map (λ value. view value.now) said.entry)
        (option_map string_bytes text)) }
{
    match said {
        Some(value) => Ok(Some(value.to_string(alloc)?)),
        None => Ok(None),
    }
}

/// The keys, and the member that has them.
#[derive(Drop)]
pub(crate) struct KnownKeys {
    pub(crate) member: String,
    pub(crate) names: Names,
}

/// The names of clients, and the keys, if they are kept.
#[derive(Drop)]
pub(crate) struct KnownNames {
    pub(crate) clients: Names,
    pub(crate) keys: Option<KnownKeys>,
}

impl KnownNames {
    ghost use Rattle.fdb_log_reader.specs.ReadLine.{are_full, known_of, member_in, key_count};
    ghost use Rattle.fdb_log_reader.specs.ReadLine.{no_names, numbered, said_by, with_names};

    /// Of no line, where a member of the name has the keys, if they are to be kept.
    pub(crate) fn new(alloc: Global, key: Option<&str>) -> Result<Self, AllocError>
        ensures { IfOk result
            (λ names. known_of names ≡ no_names (option_map (λ key. key.now) key.entry)) }
    {
        let keys = match key {
            Some(member) => Some(KnownKeys {
                member: String::from_str(alloc, member)?,
                names: Names::new(alloc),
            }),
            None => None,
        };
        Ok(KnownNames {
            clients: Names::new(alloc),
            keys,
        })
    }

    /// The name of the member that has the keys, where they are kept.
    pub(crate) fn member(&self) -> Option<&str>
        ensures { option_map (λ member. member.now) result ≡ member_in (known_of self.now) }
    {
        match &self.keys {
            Some(keys) => Some(keys.member.as_str()),
            None => None,
        }
    }

    fn key_count(&self) -> usize
        ensures { result ≡ key_count (known_of self.now).keys }
    {
        match &self.keys {
            Some(keys) => keys.names.count(),
            None => 0,
        }
    }

    /// Adds the names of a line. Answers the line, but not what is shown of it.
    pub(crate) fn add(&mut self, alloc: Global, parts: Parts<'_>) -> Result<ReadLine, AllocError>
        requires { are_full (known_of self.old) ≡ false }
        ensures added { OnOk result
            (known_of self.new ≡ with_names (known_of self.old) (parts_of parts.entry)) }
        ensures read { IfOk result
            (λ read. said_by read ≡ numbered (known_of self.new) (parts_of parts.entry) []) }
    {
        let key = add_known(&mut self.keys, alloc, parts.key)?;
        let client = add_client(&mut self.clients, alloc, parts.client)?;
        Ok(ReadLine {
            line: Line {
                client,
                call: parts.call,
                times: parts.times,
            },
            key,
            shown: Vec::new(alloc),
        })
    }
}

/// Adds the key of a line, if it has one, where keys are kept. Answers its number.
fn add_known(
    keys: &mut Option<KnownKeys>,
    alloc: Global,
    key: Option<&str>,
) -> Result<Option<u32>, AllocError>
    requires { IfSome keys.old (λ keys. length (keys_of keys).names < MAX_LINES) }
    ensures added { OnOk result (option_map keys_of keys.new
        ≡ option_map (with_known (option_map (λ key. key.now) key.entry))
        (option_map keys_of keys.old)) }
    ensures number { IfOk result (λ number. number
        ≡ key_number (option_map keys_of keys.new) (option_map (λ key. key.now) key.entry)) }
{
    match keys {
        Some(keys) => add_client(&mut keys.names, alloc, key),
        None => Ok(None),
    }
}
