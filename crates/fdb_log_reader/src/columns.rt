//! What further members of the lines say: their keys, their own numbers, which rise from line to
//! line, and how what is shown beside a line is added.

ghost use Rattle.std.specs.Prelude.{◌≡◌, ◌<◌, OnOk, length, option_map, string_bytes, ◌⊎◌, Err};
ghost use Rattle.std.specs.Prelude.{MatchResult, Ok, ◌≤◌, ◌+◌, ℕ, IfOk, IfSome, map};
ghost use Rattle.serde_json.specs.Data.{depth};
ghost use Rattle.serde_json.specs.Find.{get};
ghost use Rattle.serde_json.specs.Read.{max_depth};
ghost use Rattle.serde_json.specs.View.{view};
ghost use Rattle.fdb_log_reader.specs.Names.{names_of};
ghost use Rattle.fdb_log_reader.specs.Columns.{is_above, most_bytes, numbers_in, all_shown};
ghost use Rattle.fdb_log_reader.specs.Columns.{nothing_shown, shown_of, value_in};
ghost use Rattle.fdb_log_reader.specs.Numbers.{IsMore};
ghost use Rattle.fdb_log_reader.specs.private.{HaveCells, IsFlat};
ghost use Rattle.fdb_log_reader.specs.private.Texts.{AreJson};

use crate::error::Why;
use crate::named_log::add_client;
use crate::names::Names;
use crate::reader::MAX_LINE_BYTES;
use crate::shown::Shown;
use fdb_lines::MAX_LINES;
use serde_json::Value;
use std::alloc::{AllocError, Global};

/// The keys of the lines of a log: each line's, and each key once.
#[derive(Drop)]
pub struct Keys {
    member: String,
    names: Names,
    numbers: Vec<Option<u32>>,
}

impl Keys {
    ghost use Rattle.fdb_log_reader.specs.Columns.{column_of, no_keys, with_key};

    /// The keys of no line yet, where a member of this name has them.
    pub(crate) fn new(alloc: Global, member: String) -> Self
        ensures { column_of result ≡ no_keys (string_bytes member) }
    {
        Keys {
            member,
            names: Names::new(alloc),
            numbers: Vec::new(alloc),
        }
    }

    /// The name of the member that has the keys.
    pub fn member(&self) -> &str
        ensures { result.now ≡ (column_of self.now).member }
    {
        self.member.as_str()
    }

    /// The keys, each once, in the order in which they came.
    pub fn names(&self) -> &Names
        ensures { names_of result.now ≡ (column_of self.now).keys }
    {
        &self.names
    }

    /// For each line the number of its key, if it has one.
    pub fn numbers(&self) -> &[Option<u32>]
        ensures { result.now ≡ (column_of self.now).numbers }
    {
        self.numbers.as_slice()
    }

    /// Adds the key of a line, if it has one.
    pub(crate) fn add(&mut self, alloc: Global, key: Option<&str>) -> Result<(), AllocError>
        requires few { length (column_of self.old).keys < MAX_LINES }
        ensures added { OnOk result (column_of self.new
            ≡ with_key (column_of self.old) (option_map (λ key. key.now) key.entry)) }
    {
        let number = add_client(&mut self.names, alloc, key)?;
        self.numbers.push(number)?;
        Ok(())
    }
}

/// Where lines have their own numbers, a line may have so many bytes more than [`MAX_LINE_BYTES`].
pub const NUMBER_BYTES: usize = 40;

/// The numbers that the lines of a log have in a member, each above that of the line before.
#[derive(Drop)]
pub struct OwnNumbers {
    member: String,
    numbers: Vec<u64>,
}

impl OwnNumbers {
    ghost use Rattle.fdb_log_reader.specs.Columns.{no_numbers, numbered_as};

    /// The numbers of no line yet, where a member of this name has them.
    pub(crate) fn new(alloc: Global, member: String) -> Self
        ensures { numbers_in result ≡ no_numbers (string_bytes member) }
    {
        OwnNumbers {
            member,
            numbers: Vec::new(alloc),
        }
    }

    /// The name of the member that has the numbers.
    pub fn member(&self) -> &str
        ensures { result.now ≡ (numbers_in self.now).member }
    {
        self.member.as_str()
    }

    /// For each line its number.
    pub fn numbers(&self) -> &[u64]
        ensures { result.now ≡ (numbers_in self.now).numbers }
    {
        self.numbers.as_slice()
    }

    /// Adds the number of a line, which has to have one above that of the line before.
    pub(crate) fn add(&mut self, number: Option<u64>) -> Result<(), Why>
        ensures { MatchResult result
            (λ _. numbered_as (numbers_in self.old) number ≡ Ok (numbers_in self.new))
            (λ why. (why ≡ Why.Memory) ⊎ (numbered_as (numbers_in self.old) number ≡ Err why)) }
    {
        let Some(number) = number else {
            return Err(Why::BadNumber);
        };
        if !is_above(self.numbers.last().copied(), number) {
            return Err(Why::BadNumber);
        }
        match self.numbers.push(number) {
            Ok(()) => Ok(()),
            Err(_) => Err(Why::Memory),
        }
    }
}

/// Whether a number is above the last one, if there is one.
fn is_above(last: Option<u64>, number: u64) -> bool
    ensures { result ≡ is_above last number }
{
    match last {
        Some(last) => last < number,
        None => true,
    }
}

/// The most bytes of a line, where lines have such numbers, or none.
pub(crate) fn most_bytes(numbers: &Option<OwnNumbers>) -> usize
    ensures { result ≡ most_bytes (option_map numbers_in numbers.now) }
{
    match numbers {
        Some(_) => MAX_LINE_BYTES + NUMBER_BYTES,
        None => MAX_LINE_BYTES,
    }
}

/// Adds the text of what a line says, if it says something. Answers the text's number.
#[tactic(auto, using(crate::proofs::ShownTexts::more_names, crate::proofs::ShownTexts::few_more, crate::proofs::ShownTexts::more_json, crate::proofs::ShownTexts::value_there))]
pub(crate) fn add_text(
    texts: &mut Names,
    alloc: Global,
    said: Option<&Value>,
) -> Result<Option<u32>, AllocError>
    requires few { length (names_of texts.old) < MAX_LINES }
    requires flat { IfSome said (λ value. depth (view value.now) ≤ max_depth) }
    requires json { AreJson (names_of texts.old) }
    ensures more { IsMore (names_of texts.old) (names_of texts.new) }
    ensures few { length (names_of texts.new) ≤ length (names_of texts.old) + 1 }
    ensures json { AreJson (names_of texts.new) }
    ensures within { IfOk result
        (λ number. IfSome number (λ n. n < length (names_of texts.new))) }
    ensures value { IfOk result (λ number. value_in (names_of texts.new) number
        ≡ option_map (λ value. view value.now) said.entry) }
{
    let Some(value) = said else {
        return Ok(None);
    };
    let text = value.to_string(alloc)?;
    let number = texts.add(alloc, &text)?;
    Ok(Some(number as u32))
}

/// What each of some members says in no line yet.
pub(crate) fn no_columns(alloc: Global, members: &[String]) -> Result<Vec<Shown>, AllocError>
    ensures { IfOk result (λ columns. map shown_of columns.items
        ≡ map nothing_shown (map string_bytes members.now)) }
{
    let mut columns = Vec::new(alloc);
    for member in members {
        let member = String::from_str(alloc, member)?;
        columns.push(Shown::new(alloc, member))?;
    }
    Ok(columns)
}

/// Adds what a line says to each column.
pub(crate) fn add_shown(
    columns: &mut [Shown],
    alloc: Global,
    line: &Value,
) -> Result<(), AllocError>
    requires few { (lines : ℕ) × (lines < MAX_LINES) × HaveCells lines (map shown_of columns.old) }
    requires flat { IsFlat (λ name. get name (view line.now)) }
    ensures { OnOk result (map shown_of columns.new
        ≡ all_shown (λ name. get name (view line.now)) (map shown_of columns.old)) }
{
    for column in columns.iter_mut() {
        let said = line.get(column.member());
        column.add(alloc, said)?;
    }
    Ok(())
}
