//! Lines that are read one by one, each by itself, however long the text gets.

ghost use Rattle.std.specs.Prelude.{◌≡◌, ◌↔◌, ◌++◌, ◌∷◌, ◌≤◌, ℕ, List, [], All, IfOk, IfSome, OnOk};
ghost use Rattle.std.specs.Prelude.{length, MatchOption, map, option_map, take, true, string_bytes};
ghost use Rattle.fdb_log_reader.specs.ReadLine.{known_of, ReadsLine};
ghost use Rattle.fdb_log_reader.specs.private.{IsOneLine};

use crate::error::Why;
use crate::names::Names;
use crate::read_line::{KnownNames, ReadLine, read_line};
use crate::reader::{MAX_LINE_BYTES, split_line};
use std::alloc::{AllocError, Global};

/// A text of which a part has been read, line by line. Of the lines it keeps nothing but the names of
/// clients and the keys, and it leaves out those that are refused.
#[derive(Drop)]
pub struct LineReader {
    names: KnownNames,
    shown: Vec<String>,
    /// What has come of a line that has not ended yet: of one that is too long, one byte too many.
    front: Vec<u8>,
    ghost one_line: { IsOneLine front.items },
    ghost short: { length front.items ≤ 1048577 },
}

impl LineReader {
    ghost use Rattle.fdb_log_reader.specs.LineReader.{line_names, lines_on, names_on, AreMore};
    ghost use Rattle.fdb_log_reader.specs.Names.{names_of};
    ghost use Rattle.fdb_log_reader.specs.ReadLine.{lines_read, member_in, no_names, said_by};
    ghost use Rattle.fdb_log_reader.specs.ReadLine.{said_in, HasTexts, IsNumbered, IsTimed};
    ghost use Rattle.fdb_log_reader.specs.ReadLine.{names_behind};
    ghost use Rattle.fdb_log_reader.specs.Reading.{lines_in};
    ghost use Rattle.fdb_log_reader.specs.private.Following.{Keeps, TakesLine};

    /// A reader that has read nothing. The member of the name `key` has the keys of lines, if they
    /// are to be kept, and those of `shown` are to be shown. It fails only where memory is refused.
    pub fn new(alloc: Global, key: Option<&str>, shown: &[String]) -> Result<Self, AllocError>
        ensures read { IfOk result (λ reader. (text : List ℕ) → lines_on reader text ≡ lines_read
            (map string_bytes shown.now) (no_names (option_map (λ key. key.now) key.entry))
            (lines_in text)) }
        ensures behind { IfOk result (λ reader. (text : List ℕ) → names_on reader text
            ≡ names_behind (map string_bytes shown.now)
            (no_names (option_map (λ key. key.now) key.entry)) (lines_in text)) }
        ensures names { IfOk result
            (λ reader. line_names reader ≡ no_names (option_map (λ key. key.now) key.entry)) }
    {
        let names = KnownNames::new(alloc, key)?;
        let shown = copied(alloc, shown)?;
        Ok(LineReader {
            names,
            shown,
            front: Vec::new(alloc),
        })
    }

    /// The names of the clients so far, each at its number.
    pub fn names(&self) -> &Names
        ensures { names_of result.now ≡ (line_names self.now).clients }
    {
        &self.names.clients
    }

    /// The keys so far, each at its number, where they are kept.
    pub fn key_names(&self) -> Option<&Names>
        ensures { option_map (λ names. names_of names.now) result
            ≡ option_map (λ keys. keys.names) (line_names self.now).keys }
    {
        match &self.names.keys {
            Some(keys) => Some(&keys.names),
            None => None,
        }
    }

    /// The member that has the keys, where they are kept.
    pub fn key_member(&self) -> Option<&str>
        ensures { option_map (λ member. member.now) result ≡ member_in (line_names self.now) }
    {
        self.names.member()
    }

    /// Whether what has come ends where a line does, so that no part of a line waits for its end:
    /// a text that ends here has no line more.
    pub fn is_at_line_end(&self) -> bool
        ensures at_end { (result ≡ true) ↔ (lines_on self.now [] ≡ []) }
        ensures names { result ≡ true → names_on self.now [] ≡ line_names self.now }
    {
        self.front.is_empty()
    }

    /// Takes the next bytes of the text, cut anywhere. Answers what becomes of each line that ends
    /// in these bytes, in order: the line, or why it is refused. The outer error says that memory
    /// was refused; after it the reader is not to be fed.
    pub fn feed(
        &mut self,
        alloc: Global,
        bytes: &[u8],
    ) -> Result<Vec<Result<ReadLine, Why>>, AllocError>
        ensures read { IfOk result (λ lines. (text : List ℕ) → lines_on self.old (bytes.now ++ text)
            ≡ map said_in lines.items ++ lines_on self.new text) }
        ensures behind { OnOk result
            ((text : List ℕ) → names_on self.old (bytes.now ++ text) ≡ names_on self.new text) }
        ensures texts { IfOk result (λ lines. All (λ read. IfOk read HasTexts) lines.items) }
        ensures timed { IfOk result (λ lines. All (λ read. IfOk read IsTimed) lines.items) }
        ensures numbers { IfOk result (λ lines. All (λ read.
            IfOk read (λ read. IsNumbered (line_names self.new) (said_by read))) lines.items) }
        ensures names { OnOk result (AreMore (line_names self.old) (line_names self.new)) }
    {
        let mut lines = Vec::new(alloc);
        let mut rest = bytes;
        while let Some((line, after)) = split_line(rest) {
            let read = self.take_line(alloc, line)?;
            lines.push(read)?;
            rest = after;
        }
        self.keep(rest)?;
        Ok(lines)
    }

    /// What becomes of the last line, where the text ends here without a line feed; none where
    /// nothing stands behind the last one. Further text is read as if a line feed had come. An error
    /// says that memory was refused.
    pub fn finish(&mut self, alloc: Global) -> Result<Option<Result<ReadLine, Why>>, AllocError>
        ensures read { IfOk result (λ last. MatchOption last (lines_on self.old [] ≡ [])
            (λ read. lines_on self.old [] ≡ said_in read ∷ [])) }
        ensures behind { OnOk result (names_on self.old [] ≡ line_names self.new) }
        ensures goes_on { IfOk result (λ last. (text : List ℕ) → MatchOption last
            (lines_on self.old text ≡ lines_on self.new text)
            (λ read. lines_on self.old (10 ∷ text) ≡ said_in read ∷ lines_on self.new text)) }
        ensures texts { IfOk result (λ last. IfSome last (λ read. IfOk read HasTexts)) }
        ensures timed { IfOk result (λ last. IfSome last (λ read. IfOk read IsTimed)) }
        ensures numbers { IfOk result (λ last. IfSome last (λ read.
            IfOk read (λ read. IsNumbered (line_names self.new) (said_by read)))) }
        ensures names { OnOk result (AreMore (line_names self.old) (line_names self.new)) }
    {
        if self.front.is_empty() {
            return Ok(None);
        }
        let read = self.end_line(alloc)?;
        Ok(Some(read))
    }

    /// Reads a line whose end has come.
    fn take_line(&mut self, alloc: Global, line: &[u8]) -> Result<Result<ReadLine, Why>, AllocError>
        requires { IsOneLine line.now }
        ensures { IfOk result (λ read. TakesLine self.old line.now read self.new) }
    {
        if self.front.is_empty() {
            self.take_whole(alloc, line)
        } else {
            self.keep(line)?;
            self.end_line(alloc)
        }
    }

    /// Reads a line that has come as a whole, where it lies.
    fn take_whole(
        &mut self,
        alloc: Global,
        line: &[u8],
    ) -> Result<Result<ReadLine, Why>, AllocError>
        requires line { IsOneLine line.now }
        requires none { self.old.front.items ≡ [] }
        ensures { IfOk result (λ read. TakesLine self.old line.now read self.new) }
    {
        let read = read_one(&mut self.names, alloc, &self.shown, line)?;
        Ok(read)
    }

    /// Reads the line that has been kept, which ends here.
    fn end_line(&mut self, alloc: Global) -> Result<Result<ReadLine, Why>, AllocError>
        ensures empty { OnOk result (self.new.front.items ≡ []) }
        ensures read { IfOk result (λ read. TakesLine self.old [] read self.new) }
    {
        let read = read_one(&mut self.names, alloc, &self.shown, &self.front)?;
        self.front.clear();
        Ok(read)
    }

    /// Keeps what has come of a line, but of one that is too long no more than shows it.
    fn keep(&mut self, bytes: &[u8]) -> Result<(), AllocError>
        requires { IsOneLine bytes.now }
        ensures { OnOk result (Keeps self.old bytes.now self.new) }
    {
        let room = MAX_LINE_BYTES + 1 - self.front.len();
        self.front.extend_from_slice(at_most(bytes, room))?;
        Ok(())
    }
}

/// Reads a line by its bytes: what becomes of it, unless memory is refused.
fn read_one(
    names: &mut KnownNames,
    alloc: Global,
    shown: &[String],
    bytes: &[u8],
) -> Result<Result<ReadLine, Why>, AllocError>
    ensures { IfOk result (λ read.
        ReadsLine (map string_bytes shown.now) (known_of names.old) bytes.now read
        (known_of names.new)) }
{
    match read_line(names, alloc, shown, bytes) {
        Ok(read) => Ok(Ok(read)),
        Err(Why::Memory) => Err(AllocError),
        Err(why) => Ok(Err(why)),
    }
}

/// The first of some bytes, at most so many.
fn at_most(bytes: &[u8], count: usize) -> &[u8]
    ensures { result.now ≡ take count bytes.now }
{
    if bytes.len() > count {
        &bytes[..count]
    } else {
        bytes
    }
}

/// Copies of some names.
fn copied(alloc: Global, names: &[String]) -> Result<Vec<String>, AllocError>
    ensures { IfOk result (λ copies. map string_bytes copies.items ≡ map string_bytes names.now) }
{
    let mut copies = Vec::new(alloc);
    for name in names {
        copies.push(String::from_str(alloc, name)?)?;
    }
    Ok(copies)
}
