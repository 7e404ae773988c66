//! The faults that a watch has told, as they are counted in totals, and by what was printed of
//! them: their clients, or a member beside.

ghost use Rattle.std.specs.Prelude.{◌≡◌, ◌++◌, ◌∷◌, ℕ, [], IfOk, List, OnOk, map, option_map};
ghost use Rattle.std.specs.Prelude.{option_to_list, string_bytes, None, Some, Option, cond};
ghost use Rattle.std.specs.BTreeMap.{get_by_text};
ghost use Rattle.std.specs.Str.{bytes_eq};
ghost use Rattle.fdb_log_reader.specs.Numbers.{number_in};
ghost use Rattle.fdb_audit.specs.Groups.{client_name, AreMost};
ghost use Rattle.fdb_audit.specs.ToldFaults.{by_text, client_of, text_of, told_at, AreMostByText};
ghost use Rattle.fdb_audit.specs.ToldFaults.{AreTotalsTold, ToldFault, with_text};
ghost use Rattle.fdb_audit.specs.private.{members_of, shown_in, beside_in};
ghost use Rattle.fdb_audit.specs.private.Followed.{HasCounted};
ghost use Rattle.fdb_audit.specs.Tallied.{HasTexts, HasTextsIn, texts_in, AreNumbered};

use crate::figures::KindCounts;
use crate::groups::{By, Tally};
use crate::members::{Column, MemberTexts};
use crate::printer::{ClientNames, Printer};
use fdb_lines::{Fault, Found, Log};
use std::alloc::{AllocError, Global};
use std::collections::BTreeMap;

/// How many faults were told: in all and of each kind, by their clients, and by what was printed beside
/// them. It takes no memory for each, but for those whose client, or text of a member, has none yet.
#[derive(Drop)]
pub(crate) struct ToldFaults {
    pub(crate) kinds: KindCounts,
    pub(crate) clients: TextGroups,
    pub(crate) texts: Vec<TextGroups>,
    /// The members that are printed beside the lines of the faults.
    pub(crate) columns: Vec<Column>,
}

impl ToldFaults {
    /// No fault was told, of lines beside which these members are printed.
    pub(crate) fn new(
        alloc: Global,
        key: Option<&str>,
        members: &[String],
    ) -> Result<Self, AllocError>
        ensures { IfOk result (λ faults. HasCounted
            (option_to_list (option_map (λ key. key.now) key.entry)
            ++ map string_bytes members.now) faults []) }
    {
        let mut columns = key_columns(alloc, key)?;
        for member in members {
            columns.push(Column::new(alloc, member)?)?;
        }
        let texts = texts_of(alloc, &columns)?;
        Ok(ToldFaults {
            kinds: KindCounts::new(),
            clients: TextGroups::new(alloc, "client")?,
            texts,
            columns,
        })
    }

    /// Adds a fault that is told of the lines.
    pub(crate) fn add(
        &mut self,
        alloc: Global,
        printer: Printer<'_>,
        found: Found,
    ) -> Result<(), AllocError>
        ensures { let it = shown_in printer.entry in OnOk result ((members : List (List ℕ))
            → (told : List ToldFault) → HasCounted members self.old told
            → HasCounted members self.new (told ++ told_at it.lines it.names it.beside found ∷ [])) }
    {
        self.kinds.add(found.fault)?;
        let client = printer.client(alloc, found.place)?;
        self.clients.add(alloc, client.as_deref(), found.fault)?;
        add_texts(alloc, &mut self.texts, printer, found)
    }

    /// Writes how many faults were told, in all, of each kind, and of the groups with most.
    pub(crate) fn push(&self, alloc: Global, out: &mut String, json: bool) -> Result<(), AllocError>
        ensures { OnOk result ((members : List (List ℕ)) → (told : List ToldFault)
            → HasCounted members self.now told → (totals : List ℕ)
            × AreTotalsTold json members told totals
            × (string_bytes out.new ≡ string_bytes out.old ++ totals)) }
    {
        self.kinds.push_line(out, json)?;
        push_clients(alloc, out, json, &self.clients)?;
        push_texts(alloc, out, json, &self.texts)
    }
}

/// Writes how many faults the clients with most have.
fn push_clients(
    alloc: Global,
    out: &mut String,
    json: bool,
    clients: &TextGroups,
) -> Result<(), AllocError>
    ensures { OnOk result ((told : List ToldFault) → HasTexts client_of told clients.now
        → (text : List ℕ) × (let it = by_text client_of told in
        AreMost json it.more (λ json. client_name json it.texts) it.owned text)
        × (string_bytes out.new ≡ string_bytes out.old ++ text)) }
{
    let none = Log::new(alloc);
    let printer = Printer {
        log: &none,
        names: ClientNames::Texts(&clients.texts),
        own: &[],
        beside: &[],
    };
    By::Client(printer).push_tally(alloc, out, json, &clients.tally, clients.more)
}

/// Writes how many faults the groups with most have, of the texts of each member.
fn push_texts(
    alloc: Global,
    out: &mut String,
    json: bool,
    texts: &[TextGroups],
) -> Result<(), AllocError>
    ensures { OnOk result ((members : List (List ℕ)) → (told : List ToldFault)
        → HasTextsIn members told texts.now → (totals : List ℕ)
        × AreMostByText json told 0 members totals
        × (string_bytes out.new ≡ string_bytes out.old ++ totals)) }
{
    for groups in texts {
        let by = By::Member(groups.texts());
        by.push_tally(alloc, out, json, &groups.tally, groups.more)?;
    }
    Ok(())
}

/// The column of the member that has the keys, if they are kept.
fn key_columns(alloc: Global, key: Option<&str>) -> Result<Vec<Column>, AllocError>
    ensures { IfOk result (λ columns. members_of columns.items
        ≡ option_to_list (option_map (λ key. key.now) key.entry)) }
{
    let mut columns = Vec::new(alloc);
    if let Some(member) = key {
        columns.push(Column::new(alloc, member)?)?;
    }
    Ok(columns)
}

/// No fault was told yet, by the texts of each of these members.
fn texts_of(alloc: Global, columns: &[Column]) -> Result<Vec<TextGroups>, AllocError>
    ensures { IfOk result (λ texts. HasTextsIn (members_of columns.now) [] texts.items) }
{
    let mut texts = Vec::new(alloc);
    for column in columns {
        texts.push(TextGroups::new(alloc, &column.member)?)?;
    }
    Ok(texts)
}

/// Adds a fault by what is printed beside its line.
fn add_texts(
    alloc: Global,
    texts: &mut [TextGroups],
    printer: Printer<'_>,
    found: Found,
) -> Result<(), AllocError>
    ensures { let it = shown_in printer.entry in OnOk result ((members : List (List ℕ))
        → (told : List ToldFault) → HasTextsIn members told texts.old
        → HasTextsIn members
        (told ++ told_at it.lines it.names it.beside found ∷ []) texts.new) }
{
    for member in 0..texts.len() {
        texts[member].add(alloc, text_at(printer, member, found), found.fault)?;
    }
    Ok(())
}

/// What is printed of a member beside the line of a fault, if it is.
fn text_at<'a>(printer: Printer<'a>, member: usize, found: Found) -> Option<&'a str>
    ensures { let it = shown_in printer.entry in option_map (λ text. text.now) result
        ≡ text_of member (told_at it.lines it.names it.beside found) }
{
    printer.beside.get(member)?.text(found.place)
}

/// Of so many clients, and of so many texts of a member, faults are counted.
const ROOM: usize = 65_536;

/// The faults that were told, by the texts of a member, as far as there is room for these. The name of
/// a client is the text of the member that has it.
#[derive(Drop)]
pub(crate) struct TextGroups {
    /// The name of the member, as it is printed.
    pub(crate) member: String,
    /// The texts that have faults, as they are printed.
    pub(crate) texts: Vec<String>,
    /// The number of each: its place.
    pub(crate) numbers: BTreeMap<String, u32>,
    pub(crate) tally: Tally,
    /// Whether there are faults of more.
    pub(crate) more: bool,
}

impl TextGroups {
    /// Of no fault.
    pub(crate) fn new(alloc: Global, member: &str) -> Result<Self, AllocError>
        ensures member { IfOk result (λ groups. string_bytes groups.member ≡ member.now) }
        ensures counted { IfOk result (λ groups. (its : ToldFault → Option (List ℕ))
            → HasTexts its [] groups) }
    {
        Ok(TextGroups {
            member: String::from_str(alloc, member)?,
            texts: Vec::new(alloc),
            numbers: BTreeMap::new(alloc),
            tally: Tally::new(alloc),
            more: false,
        })
    }

    /// Counts one more, unless its text has none yet and there is no room.
    pub(crate) fn add(
        &mut self,
        alloc: Global,
        text: Option<&str>,
        fault: Fault,
    ) -> Result<(), AllocError>
        ensures counted { OnOk result ((its : ToldFault → Option (List ℕ))
            → (told : List ToldFault) → (one : ToldFault)
            → its one ≡ option_map (λ text. text.now) text.entry → one.kind ≡ fault
            → HasTexts its told self.old → HasTexts its (told ++ one ∷ []) self.new) }
        ensures member { self.new.member ≡ self.old.member }
    {
        let Some(text) = text else {
            return self.tally.add(None, fault);
        };
        match self.number(alloc, text)? {
            Some(number) => self.tally.add(Some(number), fault),
            None => {
                self.more = true;
                Ok(())
            }
        }
    }

    /// The number of a text, which is given one unless it has one, where there is room.
    fn number(&mut self, alloc: Global, text: &str) -> Result<Option<u32>, AllocError>
        ensures number { IfOk result (λ number. AreNumbered self.old
            → number ≡ number_in (with_text (texts_in self.old) text.now) text.now) }
        ensures texts { OnOk result (AreNumbered self.old
            → texts_in self.new ≡ with_text (texts_in self.old) text.now) }
        ensures numbered { OnOk result (AreNumbered self.old → AreNumbered self.new) }
        ensures same { (self.new.member ≡ self.old.member) × (self.new.tally ≡ self.old.tally)
            × (self.new.more ≡ self.old.more) }
    {
        if let Some(number) = self.numbers.get(text) {
            return Ok(Some(*number));
        }
        let number = self.texts.len();
        if number >= ROOM {
            return Ok(None);
        }
        let number = number as u32;
        self.texts.push(String::from_str(alloc, text)?)?;
        set_number(&mut self.numbers, alloc, text, number)?;
        Ok(Some(number))
    }

    /// What is printed of its groups: the member and its texts.
    pub(crate) fn texts(&self) -> MemberTexts<'_>
        ensures { beside_in result ≡ record {
          member = string_bytes self.now.member;
          texts = texts_in self.now;
          numbers = [];
        } }
    {
        MemberTexts {
            name: &self.member,
            texts: &self.texts,
            numbers: &[],
        }
    }
}

fn set_number(
    numbers: &mut BTreeMap<String, u32>,
    alloc: Global,
    text: &str,
    number: u32,
) -> Result<(), AllocError>
    ensures { OnOk result ((q : List ℕ) → get_by_text numbers.new q
        ≡ cond (bytes_eq text.now q) (Some number) (get_by_text numbers.old q)) }
{
    let key = String::from_str(alloc, text)?;
    numbers.insert(key, number)?;
    Ok(())
}
