//! What the first line has of a text that a watch keeps; and the line of the file of a watch that
//! keeps none, by how many lines were read.

use crate::arguments::with_arguments;
use crate::kept::READ;
use fdb_log_reader::shown_text;
use serde_json::Value;
use std::alloc::{AllocError, Global};
use std::fmt::Write;

/// What the first line of a text has in a member, as it is printed, if it has that. Linear in the
/// line.
pub(crate) fn first_text(
    alloc: Global,
    member: &str,
    text: &[u8],
) -> Result<Option<String>, AllocError> {
    let Some(line) = value_in(alloc, first_line(text))? else {
        return Ok(None);
    };
    match line.get(member) {
        Some(said) => {
            let said = said.to_string(alloc)?;
            Ok(Some(shown_text(alloc, &said)?))
        }
        None => Ok(None),
    }
}

/// The line of a file that keeps none: how many lines were read, by which arguments lines are kept,
/// and further members, with a comma before each.
pub(crate) fn none_kept(
    alloc: Global,
    read: u64,
    made_by: &str,
    beside: &str,
) -> Result<String, AllocError> {
    let beside = with_arguments(alloc, made_by, beside)?;
    let mut text = String::new(alloc);
    writeln!(text, "{{\"{READ}\":{read}{beside}}}")?;
    Ok(text)
}

/// How many lines were read, where a text is one line that says so.
pub(crate) fn none_kept_in(alloc: Global, text: &[u8]) -> Result<Option<u64>, AllocError> {
    let line = first_line(text);
    if text.len().saturating_sub(line.len()) != 1 {
        return Ok(None);
    }
    match value_in(alloc, line)? {
        Some(said) => Ok(said.get(READ).and_then(Value::as_u64)),
        None => Ok(None),
    }
}

/// The first line of a text, without its end.
fn first_line(text: &[u8]) -> &[u8] {
    match text.iter().position(|byte| *byte == b'\n') {
        Some(end) => &text[..end],
        None => text,
    }
}

/// The JSON value of a line, if it is one.
fn value_in(alloc: Global, line: &[u8]) -> Result<Option<Value>, AllocError> {
    match Value::from_slice(alloc, line) {
        Ok(value) => Ok(Some(value)),
        Err(error) if error.is_memory() => Err(AllocError),
        Err(_) => Ok(None),
    }
}
