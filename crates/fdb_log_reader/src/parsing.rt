//! What a line says by the members of its JSON value, before anything of it is kept.

ghost use Rattle.std.specs.Prelude.{◌≡◌, ◌⊎◌, ◌≤◌, IfOk, MatchResult, length, option_and_then};
ghost use Rattle.std.specs.Prelude.{option_map, Err, Ok};
ghost use Rattle.serde_json.specs.Data.{depth};
ghost use Rattle.serde_json.specs.Read.{max_depth};
ghost use Rattle.serde_json.specs.View.{view};
ghost use Rattle.fdb_log_reader.specs.Columns.{key_in};
ghost use Rattle.fdb_log_reader.specs.Members.{as_count, as_name, written, call_count, call_named};
ghost use Rattle.fdb_log_reader.specs.Members.{call_of, client_of, end_of, number_of, teller_of};
ghost use Rattle.fdb_log_reader.specs.Members.{times_of};
ghost use Rattle.fdb_log_reader.specs.Names.{names_of};
ghost use Rattle.fdb_log_reader.specs.Reading.{value_of};
ghost use Rattle.fdb_log_reader.specs.Parts.{key_said, parts_of, parts_said};

use crate::error::Why;
use crate::member::{Member, Said};
use crate::names::Names;
use fdb_lines::{MAX_LINES, Operation, Times};
use itoa::Buffer;
use serde_json::Value;
use std::alloc::Global;

/// The members that name a call, of which a line has just one.
const CALLS: [Member; 5] = [
    Member::Read,
    Member::Commit,
    Member::Ask,
    Member::Report,
    Member::Learn,
];

/// The JSON value of a line, as `serde_json` reads it from all of the bytes.
pub(crate) fn value_of(alloc: Global, bytes: &[u8]) -> Result<Value, Why>
    ensures value { MatchResult result (λ value. value_of bytes.now ≡ Ok (view value))
        (λ why. (why ≡ Why.Memory) ⊎ (value_of bytes.now ≡ Err why)) }
    ensures flat { IfOk result (λ value. depth (view value) ≤ max_depth) }
{
    match Value::from_slice(alloc, bytes) {
        Ok(value) => Ok(value),
        Err(error) if error.is_memory() => Err(Why::Memory),
        Err(_) => Err(Why::NotJson),
    }
}

/// The number that a text writes: by digits alone, below 2^64. Zeros may stand before them.
#[tactic(auto, using(crate::proofs::Digits::with_plus, crate::proofs::Digits::without_plus))]
pub fn written(text: &str) -> Option<u64>
    ensures { result ≡ written text.now }
{
    let first = text.as_bytes().first().copied();
    if first == Some(b'+') {
        return None;
    }
    text.parse::<u64>().ok()
}

/// A version or a time that a member says, as a whole number or in a text.
#[tactic(auto, using(crate::proofs::Digits::count_said))]
fn count_in<S: Said>(line: &S, member: Member) -> Option<u64>
    ensures { result ≡ option_and_then as_count (S.says line.now member) }
{
    match line.text(member) {
        Some(text) => written(text),
        None => line.number(member),
    }
}

/// The same that a further member says.
#[tactic(auto, using(crate::proofs::Digits::count_said))]
pub(crate) fn count_beside<S: Said>(line: &S, member: &str) -> Option<u64>
    ensures { result ≡ option_and_then as_count (S.says_beside line.now member.now) }
{
    match line.text_beside(member) {
        Some(text) => written(text),
        None => line.number_beside(member),
    }
}

/// A name that a member says: a text, or a whole number, whose digits go to the buffer.
#[tactic(auto, using(crate::proofs::Digits::name_said))]
fn name_in<'a, S: Said>(line: &'a S, member: Member, digits: &'a mut Buffer) -> Option<&'a str>
    ensures { option_map (λ name. name.now) result
        ≡ option_and_then as_name (S.says line.now member) }
{
    match line.text(member) {
        Some(text) => Some(text),
        None => {
            let number = line.number(member)?;
            Some(digits.format(number))
        }
    }
}

/// The key that a line names by a further member; none where that is left out.
pub(crate) fn key_in<'a, S: Said>(
    line: &'a S,
    member: &str,
    digits: &'a mut Buffer,
) -> Result<Option<&'a str>, Why>
    ensures { MatchResult result
        (λ key. key_in (S.says_beside line.now member.now) ≡ Ok (option_map (λ key. key.now) key))
        (λ why. key_in (S.says_beside line.now member.now) ≡ Err why) }
{
    if !line.has_beside(member) {
        return Ok(None);
    }
    match name_beside(line, member, digits) {
        Some(key) => Ok(Some(key)),
        None => Err(Why::BadKey),
    }
}

/// A name that a further member says, in the same way.
#[tactic(auto, using(crate::proofs::Digits::name_said))]
fn name_beside<'a, S: Said>(line: &'a S, member: &str, digits: &'a mut Buffer) -> Option<&'a str>
    ensures { option_map (λ name. name.now) result
        ≡ option_and_then as_name (S.says_beside line.now member.now) }
{
    match line.text_beside(member) {
        Some(text) => Some(text),
        None => {
            let number = line.number_beside(member)?;
            Some(digits.format(number))
        }
    }
}

/// A member that has to be there, and is a version or a time.
fn number_of<S: Said>(line: &S, member: Member) -> Result<u64, Why>
    ensures { result ≡ number_of (S.says line.now) member }
{
    count_in(line, member).ok_or(Why::BadMember(member))
}

/// The name of the client whose call it was; none where that is left out.
pub(crate) fn client_of<'a, S: Said>(
    line: &'a S,
    digits: &'a mut Buffer,
) -> Result<Option<&'a str>, Why>
    ensures { MatchResult result
        (λ client. client_of (S.says line.now) ≡ Ok (option_map (λ name. name.now) client))
        (λ why. client_of (S.says line.now) ≡ Err why) }
{
    if !line.has(Member::Client) {
        return Ok(None);
    }
    match name_in(line, Member::Client, digits) {
        Some(name) => Ok(Some(name)),
        None => Err(Why::BadMember(Member::Client)),
    }
}

/// The call of a line, which has to name just one.
pub(crate) fn call_of<S: Said>(line: &S, names: &Names) -> Result<Operation, Why>
    requires { length (names_of names.now) ≤ MAX_LINES }
    ensures { result ≡ call_of (names_of names.now) (S.says line.now) }
{
    match call_count(line) {
        0 => Err(Why::NoCall),
        1 => call_named(line, names),
        _ => Err(Why::TwoCalls),
    }
}

fn call_count<S: Said>(line: &S) -> usize
    ensures { result ≡ call_count (S.says line.now) }
{
    CALLS.iter().filter(|member| line.has(**member)).count()
}

/// What was done, by the first member that names a call.
fn call_named<S: Said>(line: &S, names: &Names) -> Result<Operation, Why>
    requires { length (names_of names.now) ≤ MAX_LINES }
    ensures { result ≡ call_named (names_of names.now) (S.says line.now) }
{
    if line.has(Member::Read) {
        Ok(Operation::Read(number_of(line, Member::Read)?))
    } else if line.has(Member::Commit) {
        Ok(Operation::Commit(number_of(line, Member::Commit)?))
    } else if line.has(Member::Ask) {
        Ok(Operation::Ask(number_of(line, Member::Ask)?))
    } else if line.has(Member::Report) {
        Ok(Operation::Report(number_of(line, Member::Report)?))
    } else {
        Ok(Operation::Learn(teller_of(line, names)?))
    }
}

/// The client from whom a line has learnt, which has to have a line above.
fn teller_of<S: Said>(line: &S, names: &Names) -> Result<u32, Why>
    requires { length (names_of names.now) ≤ MAX_LINES }
    ensures { result ≡ teller_of (names_of names.now) (S.says line.now) }
{
    let mut digits = Buffer::new();
    let name = name_in(line, Member::Learn, &mut digits);
    let teller = name.and_then(|name| names.number(name));
    let teller = teller.ok_or(Why::BadMember(Member::Learn))?;
    Ok(teller as u32)
}

/// When the call began and ended; none where a line has neither member.
#[tactic(auto, using(crate::proofs::Times::taken, crate::proofs::Times::refused))]
pub(crate) fn times_of<S: Said>(line: &S) -> Result<Option<Times>, Why>
    ensures { result ≡ times_of (S.says line.now) }
{
    if line.has(Member::Began) || line.has(Member::Ended) {
        let began = number_of(line, Member::Began)?;
        let ended = end_of(line).ok_or(Why::BadMember(Member::Ended))?;
        let times = Times::new(began, ended).ok_or(Why::BadMember(Member::Ended))?;
        Ok(Some(times))
    } else {
        Ok(None)
    }
}

/// When it ended, or that this is not known.
fn end_of<S: Said>(line: &S) -> Option<Option<u64>>
    ensures { result ≡ option_and_then end_of (S.says line.now Member.Ended) }
{
    if line.is_null(Member::Ended) {
        return Some(None);
    }
    count_in(line, Member::Ended).map(Some)
}

/// What a line says.
#[derive(Clone, Copy, Debug)]
pub(crate) struct Parts<'a> {
    pub(crate) client: Option<&'a str>,
    pub(crate) call: Operation,
    pub(crate) times: Option<Times>,
    /// What the member says that has the keys, where keys are kept.
    pub(crate) key: Option<&'a str>,
}

/// What a line says, where a member of the name has the keys, if they are kept. The digits of a
/// client or of a key that is a number go to the buffers.
pub(crate) fn parts_of<'a, S: Said>(
    line: &'a S,
    names: &Names,
    member: Option<&str>,
    digits: &'a mut Buffer,
    key_digits: &'a mut Buffer,
) -> Result<Parts<'a>, Why>
    requires few { length (names_of names.now) ≤ MAX_LINES }
    ensures { MatchResult result
        (λ parts. parts_said (names_of names.now) (option_map (λ name. name.now) member.entry)
        (S.says line.now) (S.says_beside line.now) ≡ Ok (parts_of parts))
        (λ why. parts_said (names_of names.now) (option_map (λ name. name.now) member.entry)
        (S.says line.now) (S.says_beside line.now) ≡ Err why) }
{
    let client = client_of(line, digits)?;
    let call = call_of(line, names)?;
    let times = times_of(line)?;
    let key = key_of(line, member, &call, key_digits)?;
    Ok(Parts {
        client,
        call,
        times,
        key,
    })
}

/// The key of a line, if it has one, where keys are kept.
fn key_of<'a, S: Said>(
    line: &'a S,
    member: Option<&str>,
    call: &Operation,
    digits: &'a mut Buffer,
) -> Result<Option<&'a str>, Why>
    ensures { MatchResult result
        (λ key. key_said (option_map (λ name. name.now) member.entry) call.now
        (S.says_beside line.now) ≡ Ok (option_map (λ name. name.now) key))
        (λ why. key_said (option_map (λ name. name.now) member.entry) call.now
        (S.says_beside line.now) ≡ Err why) }
{
    let Some(member) = member else {
        return Ok(None);
    };
    if matches!(call, Operation::Learn(_)) {
        return Err(Why::BadMember(Member::Learn));
    }
    key_in(line, member, digits)
}
