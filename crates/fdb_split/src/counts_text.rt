//! What is printed of a log that was cut.

ghost use Rattle.std.specs.Prelude.{◌≡◌, ◌++◌, IfOk, OnOk, length, slice_index, string_bytes};
ghost use Rattle.fdb_audit.specs.Figures.{number_or_null};
ghost use Rattle.fdb_log_reader.specs.Splitter.{above_of, counts_of, texts_of};
ghost use Rattle.fdb_split.specs.Text.{counts_listed, object_of};

use fdb_log_reader::Splitter;
use std::alloc::{AllocError, Global};
use std::fmt::Write;

/// The object that is printed of a log that was cut.
pub(crate) fn object_text(alloc: Global, splitter: &Splitter) -> Result<String, AllocError>
    ensures { IfOk result (λ text. string_bytes text ≡ object_of (counts_listed
        (λ part. slice_index (counts_of splitter.now) part) (length (texts_of splitter.now)))
        (above_of splitter.now)) }
{
    let mut text = String::from_str(alloc, "{\"parts\":[")?;
    add_counts(&mut text, splitter)?;
    let above = splitter.above();
    text.push_str("],\"timed\":")?;
    add_number(&mut text, above.timed)?;
    text.push_str(",\"untimed\":")?;
    add_number(&mut text, above.untimed)?;
    text.push_str("}\n")?;
    Ok(text)
}

/// Adds how many lines each part has.
fn add_counts(text: &mut String, splitter: &Splitter) -> Result<(), AllocError>
    ensures { OnOk result (string_bytes text.new ≡ string_bytes text.old ++ counts_listed
        (λ part. slice_index (counts_of splitter.now) part) (length (texts_of splitter.now))) }
{
    for part in 0..splitter.part_count() {
        if part > 0 {
            text.push(',')?;
        }
        let lines = splitter.line_count(part);
        write!(text, "{lines}")?;
    }
    Ok(())
}

/// Adds a number, or null.
fn add_number(text: &mut String, number: Option<u64>) -> Result<(), AllocError>
    ensures { OnOk result
        (string_bytes text.new ≡ string_bytes text.old ++ number_or_null number) }
{
    match number {
        Some(number) => write!(text, "{number}"),
        None => text.push_str("null"),
    }
}
