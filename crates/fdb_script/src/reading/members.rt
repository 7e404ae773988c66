//! Values of a kind, and the members of an object that are such values; tags and priorities, as
//! reads and throttles have them.

ghost use Rattle.std.specs.Prelude.{◌≡◌, ◌<◌, ◌≤◌, false, codes, map, IfSome, IfOk, []};
ghost use Rattle.std.specs.Option.{option_map};
ghost use Rattle.std.specs.List.{list_all};
ghost use Rattle.serde_json.specs.Find.{as_bool, as_str};
ghost use Rattle.serde_json.specs.View.{view};
ghost use Rattle.fdb_script.specs.Reading.{array_of, array_within, member, member_or};
ghost use Rattle.fdb_script.specs.Reading.{metadata_or_null, whole, whole_below, whole_within};
ghost use Rattle.fdb_script.specs.Reading.{priority_of, tag_of, tags_of};
ghost use Rattle.fdb_script.specs.Plan.{is_tag, is_tag_byte};

use crate::script::MAX_TAGS;
use fdb_history::{Priority, Sequence, Tag};
use fdb_queue::MAX_TAG;
use hex::FromHex;
use serde_json::Value;
use std::alloc::{AllocError, Global};

/// The items of an array; any other value has none.
pub fn items(value: &Value) -> Option<&[Value]>
    ensures { option_map (λ items. map view items.now) result ≡ array_of (view value.now) }
{
    Some(value.as_array()?.as_slice())
}

/// The items of an array that has at most so many.
pub fn items_within(value: &Value, most: usize) -> Option<&[Value]>
    ensures { option_map (λ items. map view items.now) result ≡ array_within most (view value.now) }
{
    let items = items(value)?;
    if items.len() > most {
        return None;
    }
    Some(items)
}

/// A whole number from `low` to `high`, both included.
pub fn whole_within(value: &Value, low: u64, high: u64) -> Option<u64>
    ensures value { result ≡ whole_within low high (view value.now) }
    ensures within { IfSome result (λ number. (low ≤ number) × (number ≤ high)) }
{
    let number = value.as_u64()?;
    if number < low || high < number {
        return None;
    }
    Some(number)
}

/// A whole number below a limit, as the number of a client is.
pub fn whole_below(value: &Value, limit: u64) -> Option<u64>
    ensures value { result ≡ whole_below limit (view value.now) }
    ensures below { IfSome result (λ number. number < limit) }
{
    let number = value.as_u64()?;
    if number >= limit {
        return None;
    }
    Some(number)
}

/// A member that has to be there and is a whole number.
pub fn whole_member(value: &Value, name: &str) -> Option<u64>
    ensures { result ≡ member whole name.now (view value.now) }
{
    value.get(name)?.as_u64()
}

/// A member that is a whole number, or a number where there is no such member.
pub(crate) fn whole_or(value: &Value, name: &str, absent: u64) -> Option<u64>
    ensures { result ≡ member_or absent whole name.now (view value.now) }
{
    match value.get(name) {
        None => Some(absent),
        Some(member) => member.as_u64(),
    }
}

/// A member that is a whole number from one number to another.
pub fn member_within(value: &Value, name: &str, low: u64, high: u64) -> Option<u64>
    ensures value { result ≡ member (whole_within low high) name.now (view value.now) }
    ensures within { IfSome result (λ number. (low ≤ number) × (number ≤ high)) }
{
    whole_within(value.get(name)?, low, high)
}

/// A member that is a whole number from one number to another, or a number of these where there is
/// no such member.
pub(crate) fn within_or(value: &Value, name: &str, absent: u64, low: u64, high: u64) -> Option<u64>
    requires some { low ≤ absent }
    requires in_range { absent ≤ high }
    ensures value { result ≡ member_or absent (whole_within low high) name.now (view value.now) }
    ensures within { IfSome result (λ number. (low ≤ number) × (number ≤ high)) }
{
    match value.get(name) {
        None => Some(absent),
        Some(member) => whole_within(member, low, high),
    }
}

/// A member that is the number of a client, one of so many.
pub(crate) fn client_member(value: &Value, name: &str, clients: u32) -> Option<u32>
    ensures { result ≡ member (whole_below clients) name.now (view value.now) }
{
    let client = whole_below(value.get(name)?, u64::from(clients))?;
    Some(client as u32)
}

/// A member that is true or false, or false where there is no such member.
pub(crate) fn flag_or_false(value: &Value, name: &str) -> Option<bool>
    ensures { result ≡ member_or false as_bool name.now (view value.now) }
{
    match value.get(name) {
        None => Some(false),
        Some(member) => member.as_bool(),
    }
}

/// A metadata version, of twenty hexadecimal digits of either case, or null for none.
fn metadata_or_null(value: &Value) -> Option<Option<[u8; 10]>>
    ensures { result ≡ metadata_or_null (view value.now) }
{
    if value.is_null() {
        return Some(None);
    }
    let metadata = <[u8; 10]>::from_hex(value.as_str()?).ok()?;
    Some(Some(metadata))
}

/// The metadata version of a report: none where the member is absent or null.
pub(crate) fn metadata_or_none(value: &Value) -> Option<Option<[u8; 10]>>
    ensures { result ≡ member_or None metadata_or_null (codes "metadata") (view value.now) }
{
    match value.get("metadata") {
        None => Some(None),
        Some(member) => metadata_or_null(member),
    }
}

/// A member that has to be there and is a text.
pub(crate) fn text_member<'a>(value: &'a Value, name: &str) -> Option<&'a str>
    ensures { option_map (λ text. text.now) result ≡ member as_str name.now (view value.now) }
{
    value.get(name)?.as_str()
}

/// A priority by its word: `system`, `default` or `batch`.
pub(crate) fn priority_of(value: &Value) -> Option<Priority>
    ensures { result ≡ priority_of (view value.now) }
{
    match value.as_str()? {
        "system" => Some(Priority::System),
        "default" => Some(Priority::Default),
        "batch" => Some(Priority::Batch),
        _ => None,
    }
}

/// Whether a byte may stand in a tag: a visible character of ASCII.
fn is_tag_byte(byte: u8) -> bool
    ensures { result ≡ is_tag_byte byte }
{
    (b'!'..=b'~').contains(&byte)
}

fn are_tag_bytes(bytes: &[u8]) -> bool
    ensures { result ≡ list_all is_tag_byte bytes.now }
{
    bytes.iter().all(|byte| is_tag_byte(*byte))
}

/// Whether these are the bytes of a tag: 1 to [`MAX_TAG`] visible characters.
fn is_tag(bytes: &[u8]) -> bool
    ensures { result ≡ is_tag bytes.now }
{
    !bytes.is_empty() && bytes.len() as u64 <= MAX_TAG && are_tag_bytes(bytes)
}

/// A tag, if the value is a text that is one.
pub(crate) fn tag_of(alloc: Global, value: &Value) -> Result<Option<Tag>, AllocError>
    ensures { IfOk result (λ tag. tag ≡ tag_of (view value.now)) }
{
    let Some(text) = value.as_str() else {
        return Ok(None);
    };
    if !is_tag(text.as_bytes()) {
        return Ok(None);
    }
    let bytes = Vec::from_slice(alloc, text.as_bytes())?;
    Ok(Some(Sequence::from(bytes)))
}

/// The tags of a list of at most [`MAX_TAGS`], if each is one.
fn tags_of(alloc: Global, value: &Value) -> Result<Option<Sequence<Tag>>, AllocError>
    ensures { IfOk result (λ tags. tags ≡ tags_of (view value.now)) }
{
    let Some(items) = items_within(value, MAX_TAGS) else {
        return Ok(None);
    };
    let mut tags = Sequence::new(alloc);
    for item in items {
        let Some(tag) = tag_of(alloc, item)? else {
            return Ok(None);
        };
        tags.push(tag)?;
    }
    Ok(Some(tags))
}

/// A member that is a list of tags, and no tags where there is no such member.
pub(crate) fn tags_or_none(
    alloc: Global,
    value: &Value,
    name: &str,
) -> Result<Option<Sequence<Tag>>, AllocError>
    ensures { IfOk result (λ tags. tags ≡ member_or [] tags_of name.now (view value.now)) }
{
    match value.get(name) {
        None => Ok(Some(Sequence::new(alloc))),
        Some(member) => tags_of(alloc, member),
    }
}
