//! Names, each once, and their numbers: of clients, of keys, and of the texts that are shown; and
//! names as they are printed: JSON strings that are safe on a terminal and within a line.

ghost use Rattle.std.specs.Prelude.{◌≡◌, ◌<◌, ℕ, List, [], IfOk, IfSome, OnErr, OnOk, Some, length};
ghost use Rattle.std.specs.Prelude.{map, option_map, slice_get, string_bytes, ◌==◌, ◌≤◌, None};
ghost use Rattle.std.specs.Prelude.{cond, ◌++◌};
ghost use Rattle.std.specs.BTreeMap.{get, get_by_text};
ghost use Rattle.std.specs.Ordering.{nat_cmp};
ghost use Rattle.std.specs.Str.{bytes_eq};
ghost use Rattle.json.specs.Strict.{AreDistinct};
ghost use Rattle.json.specs.Print.{quoted};
ghost use Rattle.fdb_log_reader.specs.Numbers.{number_in, with_name};
ghost use Rattle.fdb_log_reader.specs.Printed.{printed, read_back, shown_text, is_bidi_control};
ghost use Rattle.fdb_log_reader.specs.Printed.{is_separator, is_unprintable, shown};
ghost use Rattle.fdb_log_reader.specs.private.Codes.{number_at, AreBytes, name_code};

use serde_json::Value;
use std::alloc::{AllocError, Global};
use std::collections::BTreeMap;
use std::fmt::Write;

/// The names of the clients of a log, or its keys or shown texts. The number of each is its place,
/// counted from 0.
#[derive(Drop)]
pub struct Names {
    texts: Vec<String>,
    numbers: NameNumbers,
    ghost numbered: { (name : List ℕ) → AreBytes name
        → number_at numbers name ≡ number_in (map string_bytes texts.items) name },
    ghost distinct: { AreDistinct (map string_bytes texts.items) },
}

impl Names {
    ghost use Rattle.fdb_log_reader.specs.Names.{names_of};

    pub(crate) fn new(alloc: Global) -> Self
        ensures { names_of result ≡ [] }
    {
        Names {
            texts: Vec::new(alloc),
            numbers: NameNumbers::new(alloc),
        }
    }

    /// How many names there are; the numbers of clients are below this.
    pub fn count(&self) -> usize
        ensures { result ≡ length (names_of self.now) }
    {
        self.texts.len()
    }

    /// The name of a client, by its number; none where no client has that number.
    pub fn name(&self, client: u32) -> Option<&str>
        ensures { option_map (λ name. name.now) result ≡ slice_get (names_of self.now) client }
    {
        self.text(client as usize)
    }

    /// The name at a place.
    pub(crate) fn text(&self, place: usize) -> Option<&str>
        ensures { option_map (λ name. name.now) result ≡ slice_get (names_of self.now) place }
    {
        let text = self.texts.get(place)?;
        Some(text.as_str())
    }

    /// The names as they are printed, each at its client's number: as JSON strings that are safe on
    /// a terminal and within a line, and that are read back as the names.
    pub fn printed(&self, alloc: Global) -> Result<Vec<String>, AllocError>
        ensures printed { IfOk result
            (λ texts. map string_bytes texts.items ≡ map printed (names_of self.now)) }
        ensures read_back { IfOk result
            (λ texts. map (λ text. read_back (string_bytes text)) texts.items
            ≡ map Some (names_of self.now)) }
    {
        let mut texts = Vec::new(alloc);
        for name in &self.texts {
            let text = printed_name(alloc, name)?;
            texts.push(text)?;
        }
        Ok(texts)
    }

    /// The names, if they are JSON texts, as these are printed: safe on a terminal and within a line.
    pub(crate) fn shown(&self, alloc: Global) -> Result<Vec<String>, AllocError>
        ensures { IfOk result
            (λ texts. map string_bytes texts.items ≡ map shown_text (names_of self.now)) }
    {
        let mut texts = Vec::new(alloc);
        for name in &self.texts {
            let text = shown_text(alloc, name)?;
            texts.push(text)?;
        }
        Ok(texts)
    }

    /// The number of the client of a name; none where no client has that name. Logarithmic in how
    /// many names there are.
    pub fn number(&self, name: &str) -> Option<usize>
        ensures number { result ≡ number_in (names_of self.now) name.now }
        ensures within { IfSome result (λ number. number < length (names_of self.now)) }
    {
        self.numbers.get(name)
    }

    /// The number of the client of a name, which is added unless it is there.
    #[tactic(auto, using(crate::proofs::Naming::number_there))]
    pub(crate) fn add(&mut self, alloc: Global, name: &str) -> Result<usize, AllocError>
        ensures added { OnOk result (names_of self.new ≡ with_name (names_of self.old) name.now) }
        ensures number { IfOk result
            (λ number. number_in (names_of self.new) name.now ≡ Some number) }
        ensures within { IfOk result (λ number. number < length (names_of self.new)) }
        ensures kept { OnErr result (names_of self.new ≡ names_of self.old) }
    {
        if let Some(number) = self.number(name) {
            return Ok(number);
        }
        let number = self.texts.len();
        let text = String::from_str(alloc, name)?;
        self.texts.push(text)?;
        let Ok(_) = self.numbers.set(alloc, name, number) else {
            self.texts.pop();
            return Err(AllocError);
        };
        Ok(number)
    }
}

/// How many bytes a name has at most that is looked up by its code.
const SHORT: usize = 15;

/// The number of each of some names. The tables compare: no choice of names makes them slow, as it
/// would tables that hash.
#[derive(Drop)]
pub(crate) struct NameNumbers {
    /// Of short names, each by its code: one number, which is compared at once.
    short: BTreeMap<u128, usize>,
    long: BTreeMap<String, usize>,
}

impl NameNumbers {
    /// No name has a number.
    #[tactic(auto, unfolding(crate::specs::private::Codes::number_at))]
    pub(crate) fn new(alloc: Global) -> Self
        ensures { (name : List ℕ) → number_at result name ≡ None }
    {
        NameNumbers {
            short: BTreeMap::new(alloc),
            long: BTreeMap::new(alloc),
        }
    }

    /// The number of a name, if it has one. Logarithmic in how many names there are.
    #[tactic(auto, unfolding(crate::specs::private::Codes::number_at))]
    pub(crate) fn get(&self, name: &str) -> Option<usize>
        ensures number { result ≡ number_at self.now name.now }
        ensures bytes { AreBytes name.now }
    {
        let bytes = bytes_of(name);
        if bytes.len() <= SHORT {
            self.short.get(&name_code(bytes)).copied()
        } else {
            self.long.get(name).copied()
        }
    }

    /// Gives a name its number. An error says that memory was refused, and all is as it was.
    #[tactic(auto, unfolding(crate::specs::private::Codes::number_at))]
    pub(crate) fn set(&mut self, alloc: Global, name: &str, number: usize) -> Result<(), AllocError>
        ensures set { OnOk result ((q : List ℕ) → AreBytes q → number_at self.new q
            ≡ cond (bytes_eq name.now q) (Some number) (number_at self.old q)) }
        ensures kept { OnErr result ((q : List ℕ) → number_at self.new q ≡ number_at self.old q) }
    {
        let bytes = bytes_of(name);
        if bytes.len() <= SHORT {
            set_short(&mut self.short, name_code(bytes), number)
        } else {
            set_long(&mut self.long, alloc, name, number)
        }
    }
}

fn set_short(short: &mut BTreeMap<u128, usize>, code: u128, number: usize) -> Result<(), AllocError>
    ensures set { OnOk result ((q : ℕ) → get nat_cmp short.new q
        ≡ cond (q == code) (Some number) (get nat_cmp short.old q)) }
    ensures kept { OnErr result ((q : ℕ) → get nat_cmp short.new q ≡ get nat_cmp short.old q) }
{
    short.insert(code, number)?;
    Ok(())
}

fn set_long(
    long: &mut BTreeMap<String, usize>,
    alloc: Global,
    name: &str,
    number: usize,
) -> Result<(), AllocError>
    ensures set { OnOk result ((q : List ℕ) → get_by_text long.new q
        ≡ cond (bytes_eq name.now q) (Some number) (get_by_text long.old q)) }
    ensures kept { OnErr result
        ((q : List ℕ) → get_by_text long.new q ≡ get_by_text long.old q) }
{
    let key = String::from_str(alloc, name)?;
    long.insert(key, number)?;
    Ok(())
}

/// The bytes of a name.
fn bytes_of(name: &str) -> &[u8]
    ensures value { result.now ≡ name.now }
    ensures bytes { AreBytes name.now }
{
    name.as_bytes()
}

/// The code of a short name, which no other has: 1, and behind it the bytes.
fn name_code(name: &[u8]) -> u128
    requires { length name.now ≤ 15 }
    ensures { result ≡ name_code name.now }
{
    let mut code = 1;
    for byte in name {
        code = code * 256 + *byte as u128;
    }
    code
}

/// A name as it is printed: a JSON string, in which characters that are not safe on a terminal or
/// within a line are escaped too.
///
/// Linear in the name.
pub fn printed_name(alloc: Global, name: &str) -> Result<String, AllocError>
    ensures { IfOk result (λ text. string_bytes text ≡ printed name.now) }
{
    let text = quoted_name(alloc, name)?;
    shown_text(alloc, &text)
}

/// A text, in which characters that are not safe on a terminal or within a line are escaped as in a
/// JSON string.
///
/// Linear in the text.
pub fn shown_text(alloc: Global, text: &str) -> Result<String, AllocError>
    ensures { IfOk result (λ out. string_bytes out ≡ shown_text text.now) }
{
    let mut out = String::new(alloc);
    for c in text.chars() {
        push_shown(&mut out, c)?;
    }
    Ok(out)
}

/// A text as a JSON string: in quotes, and escaped where `serde_json` does so.
fn quoted_name(alloc: Global, name: &str) -> Result<String, AllocError>
    ensures { IfOk result (λ text. string_bytes text ≡ quoted name.now) }
{
    let name = String::from_str(alloc, name)?;
    Value::String(name).to_string(alloc)
}

/// Writes a character, or its escape where it is no text.
fn push_shown(out: &mut String, c: char) -> Result<(), AllocError>
    ensures { OnOk result (string_bytes out.new ≡ string_bytes out.old ++ shown c) }
{
    if is_unprintable(c) {
        let code = c as u32;
        write!(out, "\\u{code:04x}")
    } else {
        out.push(c)
    }
}

/// Whether a character may steer a terminal, part a line or turn text round.
fn is_unprintable(c: char) -> bool
    ensures { result ≡ is_unprintable c }
{
    c.is_control() || is_separator(c) || is_bidi_control(c)
}

/// Whether a character is the line separator or the paragraph separator.
fn is_separator(c: char) -> bool
    ensures { result ≡ is_separator c }
{
    c == '\u{2028}' || c == '\u{2029}'
}

/// Whether a character turns the text beside it round.
fn is_bidi_control(c: char) -> bool
    ensures { result ≡ is_bidi_control c }
{
    matches!(
        c,
        '\u{61c}' | '\u{200e}'..='\u{200f}' | '\u{202a}'..='\u{202e}' | '\u{2066}'..='\u{2069}'
    )
}
