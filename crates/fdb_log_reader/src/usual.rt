//! Lines in the usual form, which are read from their bytes, without a JSON value.

ghost use Rattle.std.specs.Prelude.{◌≡◌, IfSome, Some, None, MatchOption, false, option_map, ◌++◌};
ghost use Rattle.std.specs.Prelude.{◌∷◌, ◌<◌, ◌≤◌, ℕ, decimal, length, slice_index, true};
ghost use Rattle.std.specs.Str.{bytes_eq};
ghost use Rattle.json.specs.Print.{escape, quoted};
ghost use Rattle.json.specs.Run.{is_plain};
ghost use Rattle.fdb_log_reader.specs.Members.{name_of};
ghost use Rattle.fdb_log_reader.specs.private.Usual.{beside_of, says_of, told_of};
ghost use Rattle.fdb_log_reader.specs.private.Usual.{IsBehind, IsReadAs, Says, StandsFor};
ghost use Rattle.fdb_log_reader.specs.private.Usual.{SaysMember, told_text, IsSmall};
ghost use Rattle.fdb_log_reader.specs.declared.member.Member.{Member};

use crate::member::{Member, Said};

/// What a member says.
#[derive(Clone, Copy, Debug)]
pub(crate) enum Told<'a> {
    Number(u64),
    Text(&'a str),
    Null,
}

/// A line in the usual form: what its members say, where they are there.
#[derive(Clone, Copy, Debug, Default)]
pub(crate) struct Usual<'a> {
    pub(crate) client: Option<Told<'a>>,
    /// The one member from `Read` to `Learn`, which names the call, and what it says.
    pub(crate) call: Option<(Member, Told<'a>)>,
    pub(crate) began: Option<Told<'a>>,
    pub(crate) ended: Option<Told<'a>>,
    /// What the one further member says that is kept.
    pub(crate) further: Option<Told<'a>>,
}

impl<'a> Usual<'a> {
    /// Adds what a member says; none if the line names another call.
    // Not inlined: else all that the line says is moved from place to place at each member.
    #[inline(never)]
    fn add(&mut self, member: Member, told: Told<'a>) -> Option<()>
        ensures said { IfSome result
            (λ _. SaysMember (name_of member) told.entry self.old self.new) }
        ensures further { self.new.further ≡ self.old.further }
    {
        match member {
            Member::Client => self.client = Some(told),
            Member::Began => self.began = Some(told),
            Member::Ended => self.ended = Some(told),
            _ => {
                if let Some((call, _)) = self.call
                    && call != member
                {
                    return None;
                }
                self.call = Some((member, told));
            }
        }
        Some(())
    }

    /// What a member says.
    fn told(&self, member: Member) -> Option<Told<'a>>
        ensures { result ≡ told_of self.now member }
    {
        match member {
            Member::Client => self.client,
            Member::Began => self.began,
            Member::Ended => self.ended,
            _ => {
                let (call, told) = self.call?;
                if call == member { Some(told) } else { None }
            }
        }
    }
}

impl Said for Usual<'_> {
    ghost says = { says_of };

    // Of such a line just one further member is kept, and no other is asked for.
    ghost says_beside = { beside_of };

    fn has(&self, member: Member) -> bool {
        self.told(member).is_some()
    }

    fn number(&self, member: Member) -> Option<u64> {
        match self.told(member) {
            Some(Told::Number(number)) => Some(number),
            _ => None,
        }
    }

    fn text(&self, member: Member) -> Option<&str> {
        match self.told(member) {
            Some(Told::Text(text)) => Some(text),
            _ => None,
        }
    }

    fn is_null(&self, member: Member) -> bool {
        matches!(self.told(member), Some(Told::Null))
    }

    fn has_beside(&self, _name: &str) -> bool {
        self.further.is_some()
    }

    fn number_beside(&self, _name: &str) -> Option<u64> {
        match self.further {
            Some(Told::Number(number)) => Some(number),
            _ => None,
        }
    }

    fn text_beside(&self, _name: &str) -> Option<&str> {
        match self.further {
            Some(Told::Text(text)) => Some(text),
            _ => None,
        }
    }
}

/// Adds what the member of a name says. Others are ignored, but for the further one that is kept.
/// None if the line names two calls.
fn add_told<'a>(
    line: &mut Usual<'a>,
    name: &[u8],
    told: Told<'a>,
    further: Option<&str>,
) -> Option<()>
    ensures { IfSome result (λ _. Says (option_map (λ kept. kept.now) further.entry) name.now
        told.entry line.old line.new) }
{
    if let Some(kept) = further
        && kept.as_bytes() == name
    {
        line.further = Some(told);
    }
    match member_named(name) {
        Some(member) => line.add(member, told),
        None => Some(()),
    }
}

/// The member of a name.
fn member_named(name: &[u8]) -> Option<Member>
    ensures { MatchOption result ((m : Member) → bytes_eq name.now (name_of m) ≡ false)
        (λ m. name.now ≡ name_of m) }
{
    match name {
        b"client" => Some(Member::Client),
        b"read" => Some(Member::Read),
        b"commit" => Some(Member::Commit),
        b"ask" => Some(Member::Ask),
        b"report" => Some(Member::Report),
        b"learn" => Some(Member::Learn),
        b"began" => Some(Member::Began),
        b"ended" => Some(Member::Ended),
        _ => None,
    }
}

/// What comes behind a member.
enum Behind<'a> {
    /// The line goes on with another member, behind a comma.
    More(&'a [u8]),
    /// The object ends, and the line with it.
    End,
    /// Something else.
    Other,
}

fn what_follows(bytes: &[u8]) -> Behind<'_>
    ensures { IsBehind bytes.now result }
{
    match strip(bytes, b',') {
        Some(more) => Behind::More(more),
        None => match strip(bytes, b'}') {
            Some(more) if more.is_empty() => Behind::End,
            _ => Behind::Other,
        },
    }
}

/// What a line says that has the usual form: an object without white space or escapes, whose
/// members are texts, whole numbers below 2^64 and nulls. None of other lines. Of further members
/// it keeps what the one of a name says, if one is given.
#[tactic(auto, using(crate::proofs::UsualForm::stands))]
pub(crate) fn usual_of<'a>(bytes: &'a [u8], further: Option<&str>) -> Option<Usual<'a>>
    ensures { IfSome result
        (λ line. StandsFor bytes.now (option_map (λ kept. kept.now) further.entry) line) }
{
    if std::str::from_utf8(bytes).is_ok() {
        usual_in(bytes, further)
    } else {
        None
    }
}

/// The same of bytes that are UTF-8.
#[tactic(auto, using(crate::proofs::UsualForm::begun, crate::proofs::UsualForm::goes_on))]
fn usual_in<'a>(bytes: &'a [u8], further: Option<&str>) -> Option<Usual<'a>>
    ensures { IfSome result
        (λ line. IsReadAs bytes.now (option_map (λ kept. kept.now) further.entry) line) }
{
    let mut rest = strip(bytes, b'{')?;
    let mut line = Usual::default();
    'members: while let Some((name, told, after)) = split_member(rest) {
        add_told(&mut line, name, told, further)?;
        match what_follows(after) {
            Behind::More(more) => rest = more,
            Behind::End => return Some(line),
            Behind::Other => return None,
        }
    }
    None
}

/// What comes behind a byte, where that is first.
pub(crate) fn strip(bytes: &[u8], byte: u8) -> Option<&[u8]>
    ensures { IfSome result (λ after. bytes.now ≡ byte ∷ after.now) }
{
    let (first, after) = bytes.split_first()?;
    if *first == byte { Some(after) } else { None }
}

/// Whether a byte stands for itself in a JSON string.
fn is_plain(byte: u8) -> bool
    ensures { result ≡ is_plain byte }
{
    !(byte == b'"' || byte == b'\\' || byte < 32)
}

/// How many of the first bytes stand for themselves.
fn plain_len(bytes: &[u8]) -> usize
    ensures bound { result ≤ length bytes.now }
    ensures plain { (k : ℕ) → k < result → is_plain (slice_index bytes.now k) ≡ true }
{
    let mut end = 0;
    'plain: while end < bytes.len() && is_plain(bytes[end]) {
        end += 1;
    }
    end
}

/// A text's bytes and what comes behind its closing quote, where no byte of it is escaped.
#[tactic(auto, using(crate::proofs::Scanned::text_ends))]
fn split_text(bytes: &[u8]) -> Option<(&[u8], &[u8])>
    ensures { IfSome result (λ parts. bytes.now ≡ escape parts.0.now ++ 34 ∷ parts.1.now) }
{
    let end = plain_len(bytes);
    if end < bytes.len() && bytes[end] == b'"' {
        Some((&bytes[..end], &bytes[end + 1..]))
    } else {
        None
    }
}

/// A whole number below 2^64 and what comes behind it, where no zero stands before its digits.
#[tactic(auto, using(crate::proofs::Scanned::digits_more))]
fn split_number(bytes: &[u8]) -> Option<(u64, &[u8])>
    ensures { IfSome result (λ parts. bytes.now ≡ decimal parts.0 ++ parts.1.now) }
{
    let mut number: u64 = 0;
    let mut end = 0;
    'digits: while end < bytes.len() && bytes[end] >= b'0' && bytes[end] <= b'9' {
        if end > 0 && number == 0 {
            return None;
        }
        let digit = bytes[end] - b'0';
        number = number.checked_mul(10)?.checked_add(digit as u64)?;
        end += 1;
    }
    if end == 0 {
        return None;
    }
    Some((number, &bytes[end..]))
}

/// What a member says, and what comes behind it.
#[tactic(auto, using(crate::proofs::Scanned::quoted_then))]
fn split_told(bytes: &[u8]) -> Option<(Told<'_>, &[u8])>
    ensures text { IfSome result (λ parts. bytes.now ≡ told_text parts.0 ++ parts.1.now) }
    ensures small { IfSome result (λ parts. IsSmall parts.0) }
{
    let (first, after) = bytes.split_first()?;
    match *first {
        b'"' => {
            let (text, after) = split_text(after)?;
            match std::str::from_utf8(text) {
                Ok(text) => Some((Told::Text(text), after)),
                Err(_) => None,
            }
        }
        b'n' => {
            let after = strip(after, b'u')?;
            let after = strip(after, b'l')?;
            let after = strip(after, b'l')?;
            Some((Told::Null, after))
        }
        _ => {
            let (number, after) = split_number(bytes)?;
            Some((Told::Number(number), after))
        }
    }
}

/// A member's name, what it says, and what comes behind it.
#[tactic(auto, using(crate::proofs::Scanned::quoted_then))]
pub(crate) fn split_member(bytes: &[u8]) -> Option<(&[u8], Told<'_>, &[u8])>
    ensures text { IfSome result (λ parts. bytes.now
        ≡ quoted parts.0.now ++ 58 ∷ (told_text parts.1 ++ parts.2.now)) }
    ensures small { IfSome result (λ parts. IsSmall parts.1) }
{
    let (name, rest) = split_text(strip(bytes, b'"')?)?;
    let (told, after) = split_told(strip(rest, b':')?)?;
    Some((name, told, after))
}
