//! A log with the names of its clients, and how a line is added to it.

ghost use Rattle.std.specs.Prelude.{◌≡◌, ◌⊎◌, ◌+◌, ◌≤◌, ◌<◌, ℕ, List, Option, Err, Ok, IfOk};
ghost use Rattle.std.specs.Prelude.{IfSome, OnOk, MatchResult, length, option_map};
ghost use Rattle.serde_json.specs.Data.{Data};
ghost use Rattle.serde_json.specs.Find.{get};
ghost use Rattle.serde_json.specs.View.{view};
ghost use Rattle.fdb_log_reader.specs.Columns.{all_shown, column_of, most_bytes, numbered_on};
ghost use Rattle.fdb_log_reader.specs.Columns.{numbers_in, with_key};
ghost use Rattle.fdb_log_reader.specs.Names.{names_of};
ghost use Rattle.fdb_log_reader.specs.Numbers.{client_in, with_client};
ghost use Rattle.fdb_log_reader.specs.Parts.{parts_of};
ghost use Rattle.fdb_log_reader.specs.Reading.{reading_of, value_of, with_line, with_parts};
ghost use Rattle.fdb_log_reader.specs.Reading.{with_said, with_value};
ghost use Rattle.fdb_log_reader.specs.private.{HasPlaces, HasRoom, IsFlat, shows};

use crate::columns::{Keys, OwnNumbers, add_shown};
use crate::error::Why;
use crate::member::Said;
use crate::names::Names;
use crate::parsing::{Parts, count_beside, parts_of, value_of};
use crate::shown::Shown;
use crate::usual::usual_of;
use fdb_lines::{Line, Log, MAX_LINES};
use itoa::Buffer;
use serde_json::Value;
use std::alloc::{AllocError, Global};

/// A log, and the names of its clients, as a text has them.
#[derive(Drop)]
pub struct NamedLog {
    pub log: Log,
    /// The names of the log's clients, each at its client's number.
    pub names: Names,
    /// The keys of the log's lines, if they are kept.
    pub keys: Option<Keys>,
    /// The own numbers of the log's lines, if they have such.
    pub numbers: Option<OwnNumbers>,
    /// What is shown beside the log's lines.
    pub shown: Vec<Shown>,
}

/// Adds a line, by its bytes. After an error the log is not to be read on.
#[tactic(auto, using(crate::proofs::ShownTexts::flat_value))]
pub(crate) fn add_line(named: &mut NamedLog, alloc: Global, bytes: &[u8]) -> Result<(), Why>
    requires has_room { HasRoom named.old }
    requires short { length bytes.now ≤ most_bytes (reading_of named.old).numbers }
    ensures has_room { OnOk result (HasRoom named.new) }
    ensures read { MatchResult result
        (λ _. with_line (reading_of named.old) bytes.now ≡ Ok (reading_of named.new))
        (λ why. (why ≡ Why.Memory) ⊎ (with_line (reading_of named.old) bytes.now ≡ Err why)) }
{
    if named.log.lines().len() >= MAX_LINES {
        return Err(Why::TooMany);
    }
    if named.shown.is_empty()
        && let Some(line) = usual_of(bytes, key_member(&named.keys))
    {
        add_said(named, alloc, &line)?;
        return add_number_of(&mut named.numbers, alloc, bytes);
    }
    let value = value_of(alloc, bytes)?;
    add_value(named, alloc, &value)
}

/// The name of the member that has the keys, where they are kept.
fn key_member(keys: &Option<Keys>) -> Option<&str>
    ensures { option_map (λ member. member.now) result
        ≡ option_map (λ column. column.member) (option_map column_of keys.now) }
{
    match keys {
        Some(keys) => Some(keys.member()),
        None => None,
    }
}

/// Adds a line, by its JSON value. After an error the log is not to be read on.
fn add_value(named: &mut NamedLog, alloc: Global, value: &Value) -> Result<(), Why>
    requires has_room { HasRoom named.old }
    requires few { length (reading_of named.old).log.lines < MAX_LINES }
    requires flat { IsFlat (λ name. get name (view value.now)) }
    ensures has_room { OnOk result (HasRoom named.new) }
    ensures read { MatchResult result
        (λ _. with_value (reading_of named.old) (view value.now) ≡ Ok (reading_of named.new))
        (λ why. (why ≡ Why.Memory)
        ⊎ (with_value (reading_of named.old) (view value.now) ≡ Err why)) }
{
    add_said(named, alloc, value)?;
    add_shown(&mut named.shown, alloc, value)?;
    add_number(&mut named.numbers, value)
}

/// Adds the own number of a line, by its bytes, where lines have such.
fn add_number_of(numbers: &mut Option<OwnNumbers>, alloc: Global, bytes: &[u8]) -> Result<(), Why>
    ensures { (value : Data) → value_of bytes.now ≡ Ok value → MatchResult result
        (λ _. numbered_on (λ name. get name value) (option_map numbers_in numbers.old)
        ≡ Ok (option_map numbers_in numbers.new))
        (λ why. (why ≡ Why.Memory) ⊎ (numbered_on (λ name. get name value)
        (option_map numbers_in numbers.old) ≡ Err why)) }
{
    let Some(own) = numbers else {
        return Ok(());
    };
    if let Some(line) = usual_of(bytes, Some(own.member())) {
        let number = count_beside(&line, own.member());
        return own.add(number);
    }
    let value = value_of(alloc, bytes)?;
    add_number(numbers, &value)
}

/// The same by its JSON value.
fn add_number(numbers: &mut Option<OwnNumbers>, value: &Value) -> Result<(), Why>
    ensures { MatchResult result
        (λ _. numbered_on (λ name. get name (view value.now)) (option_map numbers_in numbers.old)
        ≡ Ok (option_map numbers_in numbers.new))
        (λ why. (why ≡ Why.Memory) ⊎ (numbered_on (λ name. get name (view value.now))
        (option_map numbers_in numbers.old) ≡ Err why)) }
{
    match numbers {
        Some(own) => {
            let number = count_beside(value, own.member());
            own.add(number)
        }
        None => Ok(()),
    }
}

/// Adds a line, by what its members say, but not what is shown of it. After an error the log is not
/// to be read on.
fn add_said<S: Said>(named: &mut NamedLog, alloc: Global, line: &S) -> Result<(), Why>
    requires has_places { HasPlaces named.old }
    requires few { length (reading_of named.old).log.lines < MAX_LINES }
    ensures has_places { OnOk result (HasPlaces named.new) }
    ensures one { OnOk result (length (reading_of named.new).log.lines
        ≡ length (reading_of named.old).log.lines + 1) }
    ensures shown { OnOk result (named.new.shown ≡ named.old.shown) }
    ensures read { MatchResult result
        (λ _. with_said (reading_of named.old) (S.says line.now) (S.says_beside line.now)
        ≡ Ok (shows (all_shown (S.says_beside line.now) (reading_of named.old).shown)
        (reading_of named.new)))
        (λ why. (why ≡ Why.Memory)
        ⊎ (with_said (reading_of named.old) (S.says line.now) (S.says_beside line.now)
        ≡ Err why)) }
{
    let mut digits = Buffer::new();
    let mut key_digits = Buffer::new();
    let member = key_member(&named.keys);
    let parts = parts_of(line, &named.names, member, &mut digits, &mut key_digits)?;
    add_parts(named, alloc, parts)
}

/// Adds a line that says this, but not what is shown of it. After an error the log is not to be read
/// on.
fn add_parts(named: &mut NamedLog, alloc: Global, parts: Parts<'_>) -> Result<(), Why>
    requires has_places { HasPlaces named.old }
    requires few { length (reading_of named.old).log.lines < MAX_LINES }
    ensures has_places { OnOk result (HasPlaces named.new) }
    ensures one { OnOk result (length (reading_of named.new).log.lines
        ≡ length (reading_of named.old).log.lines + 1) }
    ensures shown { OnOk result (named.new.shown ≡ named.old.shown) }
    ensures read { (beside : List ℕ → Option Data) → MatchResult result
        (λ _. with_parts (reading_of named.old) beside (parts_of parts.entry)
        ≡ Ok (shows (all_shown beside (reading_of named.old).shown) (reading_of named.new)))
        (λ why. (why ≡ Why.Memory)
        ⊎ (with_parts (reading_of named.old) beside (parts_of parts.entry) ≡ Err why)) }
{
    add_key(&mut named.keys, alloc, parts.key)?;
    let client = add_client(&mut named.names, alloc, parts.client)?;
    named.log.push(Line {
        client,
        call: parts.call,
        times: parts.times,
    })?;
    Ok(())
}

/// Adds the key of a line, where keys are kept.
fn add_key(keys: &mut Option<Keys>, alloc: Global, key: Option<&str>) -> Result<(), AllocError>
    requires few { IfSome keys.old (λ keys. length (column_of keys).keys < MAX_LINES) }
    ensures { OnOk result (option_map column_of keys.new
        ≡ option_map (λ column. with_key column (option_map (λ key. key.now) key.entry))
        (option_map column_of keys.old)) }
{
    match keys {
        Some(keys) => keys.add(alloc, key),
        None => Ok(()),
    }
}

/// Adds the name of the client of a line, if it has one. Answers the client's number.
pub(crate) fn add_client(
    names: &mut Names,
    alloc: Global,
    name: Option<&str>,
) -> Result<Option<u32>, AllocError>
    requires { length (names_of names.old) < MAX_LINES }
    ensures added { OnOk result (names_of names.new
        ≡ with_client (names_of names.old) (option_map (λ name. name.now) name.entry)) }
    ensures number { IfOk result (λ client. client
        ≡ client_in (names_of names.new) (option_map (λ name. name.now) name.entry)) }
{
    let Some(name) = name else {
        return Ok(None);
    };
    let number = names.add(alloc, name)?;
    Ok(Some(number as u32))
}
