//! What plays a text, line by line: each line is a call, and behind `=>` what it is answered.
//!
//! A line of a test's text: its words, and what is said of the call that it tells. What is not as it
//! should be is noted there, and told at the end of the line. So nothing that makes a call has an
//! error to pass on. A word `@3` stands for the number of the line's place and 3.

use crate::case::{CaseError, cases};
use fdb_history::{Priority, Tag};
use std::alloc::{AllocError, Global};
use std::fmt::Display;
use std::str::SplitWhitespace;
use std::test::Fail;

/// Something that calls of a text are made to.
pub trait Player {
    /// Makes a call by the rest of its line, and says there what it is answered.
    fn called(&mut self, call: &str, line: &mut TableLine<'_>);
}

/// Plays the calls of a text. They stand in lines or between semicolons. A `#` at the start of a
/// line begins a comment, which ends with the line or at a semicolon. It fails where no call of the
/// text wants anything, which would stand behind its `=>`.
pub fn plays<P: Player>(alloc: Global, player: &mut P, text: &str) -> Result<(), CaseError> {
    plays_at(alloc, player, text, 0)
}

fn plays_at<P: Player>(
    alloc: Global,
    player: &mut P,
    text: &str,
    number: u64,
) -> Result<(), CaseError> {
    for mut line in lines_of(alloc, text, number)? {
        let call = line.word();
        player.called(call, &mut line);
        line.ends()?;
    }
    Ok(())
}

/// The calls of a text, one after another, for a case of the size `number`. A part of the text that
/// begins with a star is called `number` times, at the places from 0 on, and each other part once,
/// at the place `number`. Calls that are made in turn stand between commas. A test that shares
/// among threads what it calls plays these lines itself, since no method of a trait may do so.
pub fn lines_of(alloc: Global, text: &str, number: u64) -> Result<Vec<TableLine<'_>>, CaseError> {
    let mut lines = Vec::new(alloc);
    if !text.contains("=>") {
        return Err(CaseError::Failed(Fail::new("a text that wants nothing")));
    }
    for part in text.split(['\n', ';']) {
        match part.trim_start().strip_prefix('*') {
            Some(each) => add_each(&mut lines, alloc, each, number)?,
            None if part.starts_with('#') => {}
            None => add_part(&mut lines, alloc, part, number)?,
        }
    }
    Ok(lines)
}

fn add_each<'t>(
    lines: &mut Vec<TableLine<'t>>,
    alloc: Global,
    each: &'t str,
    number: u64,
) -> Result<(), AllocError> {
    for place in 0..number {
        add_part(lines, alloc, each, place)?;
    }
    Ok(())
}

fn add_part<'t>(
    lines: &mut Vec<TableLine<'t>>,
    alloc: Global,
    part: &'t str,
    place: u64,
) -> Result<(), AllocError> {
    for call in part.split(',') {
        if !call.trim().is_empty() {
            let mut line = TableLine::new(alloc, call);
            line.place = place;
            lines.push(line)?;
        }
    }
    Ok(())
}

/// Plays each of some texts.
pub fn plays_all<P: Player>(alloc: Global, player: &mut P, texts: &[&str]) -> Result<(), Fail> {
    for text in texts {
        plays(alloc, player, text)?;
    }
    Ok(())
}

/// Plays the calls of a text, which begins anew, as [`plays`] does; and where memory is refused,
/// plays them once more, and then it must not be refused.
pub fn bears<P: Player>(alloc: Global, player: &mut P, text: &str) -> Result<(), Fail> {
    if let Err(error) = plays(alloc, player, text) {
        error.was_refusal()?;
        plays(alloc, player, text)?;
    }
    Ok(())
}

/// Plays the cases of a table, each of which begins anew, and is to succeed.
pub fn plays_cases<P: Player>(alloc: Global, player: &mut P, table: &str) -> Result<(), Fail> {
    for case in cases(alloc, table)? {
        case.ends(plays_at(alloc, player, case.of, case.number))?;
    }
    Ok(())
}

/// A line, the words of it that are still to be read, and what was said and noted.
#[derive(Drop)]
pub struct TableLine<'a> {
    pub alloc: Global,
    /// The whole line, which each failure shows.
    pub text: &'a str,
    words: SplitWhitespace<'a>,
    /// The next word, where it was looked at already.
    ahead: Option<&'a str>,
    /// What `@0` stands for.
    pub(crate) place: u64,
    /// What was said, with a blank behind each part.
    said: String,
    /// Whether the call was refused memory, and whether the test itself was.
    refused: bool,
    lacking: bool,
    /// What was not as it should be, or nothing.
    why: &'a str,
}

impl<'a> TableLine<'a> {
    /// A line of which no word is read, at place 0.
    pub fn new(alloc: Global, text: &'a str) -> TableLine<'a> {
        TableLine {
            alloc,
            text,
            words: text.split_whitespace(),
            ahead: None,
            place: 0,
            said: String::new(alloc),
            refused: false,
            lacking: false,
            why: "",
        }
    }

    /// The next word, if there is one.
    pub fn next_word(&mut self) -> Option<&'a str> {
        match self.ahead.take() {
            None => self.words.next(),
            word => word,
        }
    }

    /// The next word, which there has to be.
    pub fn word(&mut self) -> &'a str {
        let word = self.next_word();
        self.holds(word.is_some(), "a word is missing");
        word.unwrap_or_default()
    }

    /// The next word, which has to be a whole number below 2^64.
    pub fn number(&mut self) -> u64 {
        let word = self.next_word().unwrap_or_default();
        let number = self.value(word);
        self.holds(number.is_some(), "no number");
        number.unwrap_or_default()
    }

    /// The number that a word stands for.
    fn value(&self, word: &str) -> Option<u64> {
        match word.strip_prefix('@') {
            Some(above) => self.place.checked_add(above.parse().ok()?),
            None => word.parse().ok(),
        }
    }

    /// The number behind this word, or 0 where the next word is another one.
    pub fn number_behind(&mut self, name: &str) -> u64 {
        match self.next_word() {
            Some(word) if word == name => self.number(),
            word => {
                self.ahead = word;
                0
            }
        }
    }

    /// The next word as the number of a client or a proxy, which fits 32 bits.
    pub fn who(&mut self) -> u32 {
        let who = u32::try_from(self.number());
        self.holds(who.is_ok(), "no client's number");
        who.unwrap_or_default()
    }

    /// Whether the next word is the first of two, one of which it has to be.
    pub fn is(&mut self, yes: &str, no: &str) -> bool {
        let word = self.next_word().unwrap_or_default();
        self.holds(word == yes || word == no, "neither word of two");
        word == yes
    }

    /// The next word as a priority: `system`, `default` or `batch`.
    pub fn priority(&mut self) -> Priority {
        match self.next_word().unwrap_or_default() {
            "system" => Priority::System,
            "batch" => Priority::Batch,
            word => {
                self.holds(word == "default", "no priority");
                Priority::Default
            }
        }
    }

    /// A tag of just the bytes of a word, or one of none where the test is refused memory.
    pub fn tag(&mut self, word: &str) -> Tag {
        match Vec::from_slice(self.alloc, word.as_bytes()) {
            Ok(bytes) => Tag::from(bytes),
            Err(_) => {
                self.lacks();
                Tag::new(self.alloc)
            }
        }
    }

    /// Says some words of what came of the call.
    pub fn say<D: Display + Drop>(&mut self, shown: D) {
        if write!(self.said, "{shown} ").is_err() {
            self.lacks();
        }
    }

    /// Forgets what was said and that the call was refused memory. Its words are to be read anew.
    pub fn again(&mut self) {
        self.said = String::new(self.alloc);
        self.refused = false;
        self.words = self.text.split_whitespace();
        self.ahead = None;
    }

    /// Notes what is not as it should be.
    pub fn fails(&mut self, why: &'a str) {
        self.why = why;
    }

    /// Notes what does not hold, if it does not.
    pub fn holds(&mut self, condition: bool, why: &'a str) {
        if !condition {
            self.fails(why);
        }
    }

    /// Notes that the call was refused memory.
    pub fn refuse(&mut self) {
        self.refused = true;
    }

    /// Notes that the call was refused memory, if it was.
    pub fn takes<T: Drop, E: Drop>(&mut self, taken: Result<T, E>) {
        self.refused |= taken.is_err();
    }

    /// Notes that the test itself was refused memory.
    pub fn lacks(&mut self) {
        self.lacking = true;
    }

    /// Whether the call was refused memory, and nothing else is noted.
    pub fn was_refused(&self) -> bool {
        self.refused && !self.lacking && self.why.is_empty()
    }

    /// Fails with what was noted, if anything was. Else it compares what was said, word by word,
    /// with what the line wants behind its `=>`, and fails where they differ. A line without an
    /// arrow wants nothing.
    pub fn ends(&self) -> Result<(), CaseError> {
        if self.why.is_empty() && (self.refused || self.lacking) {
            return Err(CaseError::Memory);
        }
        let wanted = self.text.split_once("=>").map_or("", |parts| parts.1);
        let mut wanted = wanted.split_whitespace();
        let mut is_wanted = self.why.is_empty();
        for word in self.said.split_whitespace() {
            is_wanted &= self.stands_for(wanted.next().unwrap_or_default(), word);
        }
        if is_wanted && wanted.next().is_none() {
            return Ok(());
        }
        let (text, place, said, why) = (self.text, self.place, &self.said, self.why);
        let fail = Fail::new(format_args!("{why} said {said}: {text} at {place}"));
        Err(CaseError::Failed(fail))
    }

    /// Whether a word is another one, or stands for its number.
    fn stands_for(&self, wanted: &str, word: &str) -> bool {
        match self.value(wanted) {
            Some(number) if wanted.starts_with('@') => word.parse() == Ok(number),
            _ => word == wanted,
        }
    }
}
