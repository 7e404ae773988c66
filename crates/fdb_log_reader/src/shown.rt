//! What a further member of each line says, to be shown beside the line.

ghost use Rattle.std.specs.Prelude.{◌≡◌, ◌≤◌, ◌<◌, IfOk, IfSome, OnOk, length, map, option_map};
ghost use Rattle.std.specs.Prelude.{slice_get, string_bytes};
ghost use Rattle.std.specs.Option.{option_flatten};
ghost use Rattle.std.proofs.Props.{props};
ghost use Rattle.serde_json.specs.Data.{depth};
ghost use Rattle.serde_json.specs.Read.{max_depth};
ghost use Rattle.serde_json.specs.View.{view};
ghost use Rattle.fdb_log_reader.specs.Names.{names_of};
ghost use Rattle.fdb_log_reader.specs.Numbers.{AreWithin};
ghost use Rattle.fdb_log_reader.specs.private.Texts.{AreJson};

use crate::columns::add_text;
use crate::names::Names;
use fdb_lines::MAX_LINES;
use serde_json::Value;
use std::alloc::{AllocError, Global};

/// What a member says in the lines of a log, as JSON: each text once, and each line's number.
#[derive(Drop)]
pub struct Shown {
    member: String,
    texts: Names,
    numbers: Vec<Option<u32>>,
    ghost few: { length (names_of texts) ≤ length numbers.items },
    ghost within: { AreWithin (names_of texts) numbers.items } by { Prim.hlevel props },
    ghost json: { AreJson (names_of texts) } by { Prim.hlevel props },
}

impl Shown {
    ghost use Rattle.fdb_log_reader.specs.Columns.{ArePrinted, IsText, nothing_shown, numbers_of};
    ghost use Rattle.fdb_log_reader.specs.Columns.{shown_of, text_at, with_shown};

    /// What the member of this name says in no line yet.
    pub(crate) fn new(alloc: Global, member: String) -> Self
        ensures { shown_of result ≡ nothing_shown (string_bytes member) }
    {
        Shown {
            member,
            texts: Names::new(alloc),
            numbers: Vec::new(alloc),
        }
    }

    /// The name of the member.
    pub fn member(&self) -> &str
        ensures { result.now ≡ (shown_of self.now).member }
    {
        self.member.as_str()
    }

    /// The JSON text of what the line at a place says, counted from 0; none where it has no such
    /// member, or there is no such line. `serde_json` writes it, without white space.
    pub fn text(&self, place: usize) -> Option<&str>
        ensures { IsText (option_flatten (slice_get (shown_of self.now).values place))
            (option_map (λ text. text.now) result) }
    {
        self.kept(place)
    }

    fn kept(&self, place: usize) -> Option<&str>
        ensures { option_map (λ text. text.now) result
            ≡ text_at (names_of self.now.texts) self.now.numbers.items place }
    {
        let number = (*self.numbers.get(place)?)?;
        self.texts.name(number)
    }

    /// For each line the number of its text, if it has one.
    pub fn numbers(&self) -> &[Option<u32>]
        ensures { result.now ≡ numbers_of self.now }
    {
        &self.numbers
    }

    /// The texts as they are printed, each at its number: safe on a terminal and within a line.
    pub fn printed(&self, alloc: Global) -> Result<Vec<String>, AllocError>
        ensures { IfOk result (λ texts. ArePrinted (shown_of self.now).values
            (map string_bytes texts.items) (numbers_of self.now)) }
    {
        self.texts.shown(alloc)
    }

    /// Adds what a line says, if it says something.
    #[tactic(auto, using(crate::proofs::ShownTexts::values_more, crate::proofs::ShownTexts::within_more))]
    pub(crate) fn add(&mut self, alloc: Global, said: Option<&Value>) -> Result<(), AllocError>
        requires few { length (shown_of self.old).values < MAX_LINES }
        requires flat { IfSome said (λ value. depth (view value.now) ≤ max_depth) }
        ensures added { OnOk result (shown_of self.new
            ≡ with_shown (shown_of self.old) (option_map (λ value. view value.now) said.entry)) }
    {
        // Its place comes first: a text that no line has is never kept.
        let place = self.numbers.len();
        self.numbers.push(None)?;
        let number = add_text(&mut self.texts, alloc, said)?;
        self.numbers[place] = number;
        Ok(())
    }
}
