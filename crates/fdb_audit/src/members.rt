//! What is printed beside a call: the members that are shown, also of the lines that a watch keeps,
//! and where a line stands among all, also where lines were taken of a log that is followed.

ghost use Rattle.std.specs.Prelude.{◌≡◌, ◌++◌, ◌∷◌, [], IfOk, List, OnOk, Some, map, option_map};
ghost use Rattle.std.specs.Prelude.{string_bytes, ◌+◌, ◌<◌, ◌≤◌, ℕ, All, OnErr, ◌-◌, ◌^◌, count_by};
ghost use Rattle.std.specs.Prelude.{length, min, nat_le, slice_get, unwrap_or};
ghost use Rattle.std.specs.List.Sorted.{IsNonDecreasingBy};
ghost use Rattle.fdb_log_reader.specs.Columns.{column_of, shown_of, text_at};
ghost use Rattle.fdb_log_reader.specs.Reading.{reading_of};
ghost use Rattle.fdb_log_reader.specs.Printed.{printed};
ghost use Rattle.fdb_audit.specs.Judged.{keys_beside, AreBeside, IsBeside};
ghost use Rattle.fdb_audit.specs.Text.{member_text, owner_of, Beside};
ghost use Rattle.fdb_audit.specs.Totals.{value_of};
ghost use Rattle.fdb_audit.specs.private.{beside_in, beside_of};

use fdb_lines::{Settled, SettledKey};
use fdb_log_reader::{Keys, NamedLog, Shown, printed_name, shown_text};
use std::alloc::{AllocError, Global};
use std::collections::BTreeMap;
use std::fmt::Write;

/// A member that is printed beside each call, as its name and its texts are printed, and which of
/// these each line has.
#[derive(Drop)]
pub(crate) struct Column {
    pub member: String,
    pub texts: Vec<String>,
    pub numbers: Vec<Option<u32>>,
    /// The number of each text that was added.
    places: BTreeMap<String, u32>,
}

impl Column {
    /// Of no line, by the name of the member as it is printed.
    pub(crate) fn new(alloc: Global, member: &str) -> Result<Self, AllocError>
        ensures { IfOk result (λ column. string_bytes column.member ≡ member.now) }
    {
        Ok(Column {
            member: String::from_str(alloc, member)?,
            texts: Vec::new(alloc),
            numbers: Vec::new(alloc),
            places: BTreeMap::new(alloc),
        })
    }

    /// Adds the text of the next line as it is printed, if it has one.
    pub(crate) fn add(&mut self, alloc: Global, text: Option<&str>) -> Result<(), AllocError>
        ensures { self.new.member ≡ self.old.member }
    {
        let number = match text {
            Some(text) => Some(self.number(alloc, text)?),
            None => None,
        };
        self.numbers.push(number)?;
        Ok(())
    }

    /// The number of a text, which is added unless it is there.
    fn number(&mut self, alloc: Global, text: &str) -> Result<u32, AllocError>
        ensures { self.new.member ≡ self.old.member }
    {
        if let Some(number) = self.places.get(text) {
            return Ok(*number);
        }
        let Ok(number) = u32::try_from(self.texts.len()) else {
            return Err(AllocError);
        };
        self.texts.push(String::from_str(alloc, text)?)?;
        self.places.insert(String::from_str(alloc, text)?, number)?;
        Ok(number)
    }

    /// Its text at a line; none where the line has none.
    pub(crate) fn text(&self, place: u32) -> Option<&str>
        ensures { let it = beside_of self.now in
            option_map (λ text. text.now) result ≡ text_at it.texts it.numbers place }
    {
        let number = (*self.numbers.get(place as usize)?)?;
        let text = self.texts.get(number as usize)?;
        Some(text.as_str())
    }

    /// Writes its text at a line behind its name; nothing where the line has none.
    pub(crate) fn push(&self, out: &mut String, place: u32) -> Result<(), AllocError>
        ensures { let it = beside_of self.now in OnOk result (string_bytes out.new
            ≡ string_bytes out.old ++ member_text it.member (text_at it.texts it.numbers place)) }
    {
        match self.text(place) {
            Some(text) => push_text(out, &self.member, text),
            None => Ok(()),
        }
    }

    /// What is printed of the member.
    pub(crate) fn member(&self) -> MemberTexts<'_>
        ensures { beside_in result ≡ beside_of self.now }
    {
        MemberTexts {
            name: &self.member,
            texts: &self.texts,
            numbers: &self.numbers,
        }
    }
}

/// The name and the texts of a member, as they are printed, and which of these each line has.
#[derive(Clone, Copy)]
pub(crate) struct MemberTexts<'a> {
    pub name: &'a str,
    pub texts: &'a [String],
    pub numbers: &'a [Option<u32>],
}

impl<'a> MemberTexts<'a> {
    /// Writes one of the texts, by its number, behind the name; or that there is none.
    pub(crate) fn push_owner(self, out: &mut String, number: Option<u32>) -> Result<(), AllocError>
        ensures { OnOk result (string_bytes out.new
            ≡ string_bytes out.old ++ owner_of (beside_in self.entry) number) }
    {
        if number.is_none() {
            return write!(out, " no {}", self.name);
        }
        match self.value(number) {
            Some(text) => push_text(out, self.name, text),
            None => Ok(()),
        }
    }

    /// One of the texts, by its number.
    pub(crate) fn value(self, number: Option<u32>) -> Option<&'a str>
        ensures { option_map (λ text. text.now) result ≡ value_of (beside_in self.entry) number }
    {
        let text = self.texts.get(number? as usize)?;
        Some(text.as_str())
    }
}

/// Writes a text of a member behind its name.
fn push_text(out: &mut String, name: &str, text: &str) -> Result<(), AllocError>
    ensures { OnOk result (string_bytes out.new
        ≡ string_bytes out.old ++ member_text name.now (Some text.now)) }
{
    write!(out, " {name}:{text}")
}

/// The members that are printed beside the calls of a log that was read: its keys, if they were
/// kept, and what is shown.
pub(crate) fn members_beside(alloc: Global, named: &NamedLog) -> Result<Vec<Column>, AllocError>
    ensures { IfOk result (λ members. (shown : List Beside)
        × AreBeside (reading_of named.now).shown shown
        × (map beside_of members.items ≡ keys_beside (reading_of named.now).keys ++ shown)) }
{
    let mut members = Vec::new(alloc);
    if let Some(keys) = &named.keys {
        members.push(key_beside(alloc, keys)?)?;
    }
    add_shown(&mut members, alloc, &named.shown)?;
    Ok(members)
}

/// Adds the columns that are shown.
fn add_shown(members: &mut Vec<Column>, alloc: Global, columns: &[Shown]) -> Result<(), AllocError>
    ensures { OnOk result ((shown : List Beside) × AreBeside (map shown_of columns.now) shown
        × (map beside_of members.new.items ≡ map beside_of members.old.items ++ shown)) }
{
    for column in columns {
        members.push(shown_beside(alloc, column)?)?;
    }
    Ok(())
}

/// The keys of lines, as they are printed.
fn key_beside(alloc: Global, keys: &Keys) -> Result<Column, AllocError>
    ensures { IfOk result
        (λ member. beside_of member ∷ [] ≡ keys_beside (Some (column_of keys.now))) }
{
    Ok(Column {
        member: printed_name(alloc, keys.member())?,
        texts: keys.names().printed(alloc)?,
        numbers: Vec::from_slice(alloc, keys.numbers())?,
        places: BTreeMap::new(alloc),
    })
}

/// A column that is shown, as it is printed.
fn shown_beside(alloc: Global, column: &Shown) -> Result<Column, AllocError>
    ensures { IfOk result (λ member. IsBeside (shown_of column.now) (beside_of member)) }
{
    Ok(Column {
        member: printed_name(alloc, column.member())?,
        texts: column.printed(alloc)?,
        numbers: Vec::from_slice(alloc, column.numbers())?,
        places: BTreeMap::new(alloc),
    })
}

/// The texts of the members that are shown, of each line that a watch keeps. Where no member is
/// shown, nothing is kept.
#[derive(Drop)]
pub(crate) struct Rows {
    /// The names of the members, as they are printed.
    pub(crate) members: Vec<String>,
    /// For each line that is kept, by how many were taken above it, its texts.
    texts: BTreeMap<u64, Vec<Option<String>>>,
}

impl Rows {
    /// Of no line yet.
    pub(crate) fn new(alloc: Global, members: &[String]) -> Result<Self, AllocError>
        ensures { IfOk result (λ rows. map string_bytes rows.members.items
            ≡ map (λ name. printed (string_bytes name)) members.now) }
    {
        let mut printed = Vec::new(alloc);
        for member in members {
            printed.push(printed_name(alloc, member)?)?;
        }
        Ok(Rows {
            members: printed,
            texts: BTreeMap::new(alloc),
        })
    }

    /// Keeps the texts of a line.
    pub(crate) fn add(&mut self, taken: u64, texts: Vec<Option<String>>) -> Result<(), AllocError> {
        if !self.members.is_empty() {
            self.texts.insert(taken, texts)?;
        }
        Ok(())
    }

    /// The text that a line has of a member.
    fn text(&self, taken: u64, column: usize) -> Option<&str> {
        let texts = self.texts.get(&taken)?;
        texts.get(column)?.as_deref()
    }

    /// Writes the members of a line that it has.
    pub(crate) fn push_texts(&self, out: &mut String, taken: u64) -> Result<(), AllocError> {
        for (column, member) in self.members.iter().enumerate() {
            if let Some(text) = self.text(taken, column) {
                write!(out, ",{member}:{text}")?;
            }
        }
        Ok(())
    }

    /// Adds the members as they are printed beside the lines that a watch had kept.
    pub(crate) fn add_beside(
        &self,
        alloc: Global,
        settled: &Settled,
        beside: &mut Vec<Column>,
    ) -> Result<(), AllocError> {
        for (place, member) in self.members.iter().enumerate() {
            let mut column = Column::new(alloc, member)?;
            for taken in &settled.numbers {
                let text = match self.text(*taken, place) {
                    Some(text) => Some(shown_text(alloc, text)?),
                    None => None,
                };
                column.add(alloc, text.as_deref())?;
            }
            beside.push(column)?;
        }
        Ok(())
    }

    /// Lets go the texts of the lines that are not kept on.
    pub(crate) fn let_go_all(&mut self, told: &[SettledKey]) {
        if self.members.is_empty() {
            return;
        }
        for entry in told {
            let settled = &entry.settled;
            let mut kept = 0;
            for (place, taken) in settled.numbers.iter().enumerate() {
                if settled
                    .kept
                    .get(kept)
                    .is_some_and(|next| *next as usize == place)
                {
                    kept += 1;
                } else {
                    self.texts.remove(taken);
                }
            }
        }
    }
}

/// Which lines were kept of others and come first, how many more there were, and how many lines were
/// taken above each line that was refused. Eight bytes for each of these.
#[derive(Drop)]
pub(crate) struct Numbering {
    kept: Vec<u64>,
    more: u64,
    above: Vec<u64>,
    ghost in_order: { IsNonDecreasingBy (λ (above : ℕ). above) above.items },
}

impl Numbering {
    ghost use Rattle.fdb_audit.specs.private.Numbering.{AreTakenLines, kept_by};

    /// No line was refused. These lines come first, counted from 1, and there were so many more.
    pub(crate) fn new(alloc: Global, kept: Vec<u64>, more: u64) -> Self
        ensures kept { kept_by result ≡ record { lines = kept.items; more = more } }
        ensures above { result.above.items ≡ [] }
    {
        Numbering {
            kept,
            more,
            above: Vec::new(alloc),
        }
    }

    /// Leaves the next line out, above which so many were taken.
    pub(crate) fn leave_out(&mut self, taken: u64) -> Result<(), AllocError>
        requires last { All (λ above. above ≤ taken) self.old.above.items }
        ensures ok { OnOk result (self.new.above.items ≡ self.old.above.items ++ taken ∷ []) }
        ensures err { OnErr result (self.new.above.items ≡ self.old.above.items) }
        ensures kept { kept_by self.new ≡ kept_by self.old }
    {
        self.above.push(taken)?;
        Ok(())
    }

    /// How many lines were refused.
    pub(crate) fn count(&self) -> u64
        ensures { result ≡ length self.now.above.items }
    {
        self.above.len() as u64
    }

    /// How many lines there were, but for those that were taken.
    pub(crate) fn others(&self) -> u64
        ensures { result ≡ min (self.now.more + length self.now.above.items) (2 ^ 64 - 1) }
    {
        self.more.saturating_add(self.count())
    }

    /// Where a line stands among all, counted from 1, by how many were taken above it.
    pub(crate) fn line(&self, taken: u64) -> u64
        ensures { taken + self.now.more + length self.now.above.items < 18446744073709551615
            → result ≡ unwrap_or (slice_get self.now.kept.items taken) (taken + 1 + self.now.more
            + count_by (λ above. nat_le above taken) self.now.above.items) }
    {
        match self.kept.get(taken as usize) {
            Some(line) => *line,
            None => self.line_behind(taken),
        }
    }

    /// The same of a line that was not kept of others. Logarithmic.
    fn line_behind(&self, taken: u64) -> u64
        ensures { taken + self.now.more + length self.now.above.items < 18446744073709551615
            → result ≡ taken + 1 + self.now.more
            + count_by (λ above. nat_le above taken) self.now.above.items }
    {
        let refused = self.above.partition_point(|above| *above <= taken) as u64;
        taken
            .saturating_add(1)
            .saturating_add(self.more)
            .saturating_add(refused)
    }

    /// The same of some lines.
    pub(crate) fn lines_at(&self, alloc: Global, places: &[u64]) -> Result<Vec<u64>, AllocError>
        ensures { IfOk result (λ lines. AreTakenLines (kept_by self.now) self.now.above.items
            places.now lines.items) }
    {
        let mut lines = Vec::with_capacity(alloc, places.len())?;
        for taken in places {
            lines.push(self.line(*taken))?;
        }
        Ok(lines)
    }
}
