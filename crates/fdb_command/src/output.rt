//! What is written: all of some bytes, to a writer that may take them in parts, and the text of an
//! answer, with the fault that it tells of.

ghost use Rattle.std.specs.Prelude.{◌≡◌, ◌≢◌, ◌<◌, ◌≤◌, [], OnOk, OnErr, IfOk, IfErr, Ok, Err};
ghost use Rattle.std.specs.Prelude.{IsErrAnd, length, take, ℕ, List, Option};
ghost use Rattle.std.specs.Io.KnownBytes.{Appends, Keeps};
ghost use Rattle.std.specs.IoError.{error_kind};
ghost use Rattle.fdb_command.specs.Output.{TakesAny, TakesSome};
ghost use Rattle.fdb_command.specs.private.Ending.{IsEnding};

use crate::failure::Failure;
use crate::program::Output;
use std::fmt::{Debug, Display};
use std::io::{self, Error, ErrorKind, Write};

/// Writes all of these bytes. A writer that fails is not called again. Any error but an
/// interruption is a failure, and so is a write that takes no byte.
pub fn write_whole<W: Write>(writer: &mut W, lines: &[u8]) -> io::Result<()>
    ensures ok { OnOk result (Appends (W.contents writer.old) (W.contents writer.new) lines.now) }
    ensures cut { OnErr result
        (TakesSome lines.now (W.contents writer.old) (W.contents writer.new)) }
{
    if lines.is_empty() {
        return Ok(());
    }
    let mut rest = lines;
    // A writer may be interrupted as often as it likes, but a loop has an end.
    for _ in 0..u64::MAX {
        let count = write_once(writer, rest)?;
        if count == rest.len() {
            return Ok(());
        }
        rest = &rest[count..];
    }
    Err(Error::from(ErrorKind::Interrupted))
}

/// Writes all of these bytes, and flushes them.
pub(crate) fn write_flushed<W: Write>(writer: &mut W, lines: &[u8]) -> io::Result<()>
    ensures ok { OnOk result (Appends (W.contents writer.old) (W.contents writer.new) lines.now) }
    ensures begun { OnErr result
        (TakesAny lines.now (W.contents writer.old) (W.contents writer.new)) }
{
    write_whole(writer, lines)?;
    writer.flush()
}

/// Writes lines, if there are some. Where they cannot be written, nothing changes.
pub(crate) fn warn<W: Write>(lines: &[u8], err: &mut W)
    ensures taken { TakesAny lines.now (W.contents err.old) (W.contents err.new) }
    ensures quiet { lines.now ≡ [] → err.new ≡ err.old }
{
    if !lines.is_empty() {
        let _ = write_flushed(err, lines);
    }
}

/// Writes once, and answers how many of the bytes the writer
/// took, which is none where it was interrupted.
fn write_once<W: Write>(writer: &mut W, bytes: &[u8]) -> io::Result<usize>
    ensures bound { IfOk result (λ count. count ≤ length bytes.now) }
    ensures ok { IfOk result
        (λ count. Appends (W.contents writer.old) (W.contents writer.new) (take count bytes.now)) }
    ensures kept { OnErr result (Keeps (W.contents writer.old) (W.contents writer.new)) }
{
    count_written(writer.write(bytes))
}

/// How many bytes a write took, which is none where it was interrupted, and is
/// to be tried again. A writer that takes nothing without an error has failed.
fn count_written(written: io::Result<usize>) -> io::Result<usize>
    ensures some { IfOk written (λ count. 0 < count → result ≡ Ok count) }
    ensures none { IfOk written (λ count. count ≡ 0
        → IsErrAnd result (λ error. error_kind error ≡ ErrorKind.WriteZero)) }
    ensures interrupted { IfErr written (λ error. error_kind error ≡ ErrorKind.Interrupted
        → result ≡ Ok 0) }
    ensures failed { IfErr written (λ error. error_kind error ≢ ErrorKind.Interrupted
        → result ≡ Err error) }
{
    match written {
        Ok(0) => Err(Error::from(ErrorKind::WriteZero)),
        Ok(count) => Ok(count),
        Err(error) if error.kind() == ErrorKind::Interrupted => Ok(0),
        Err(error) => Err(error),
    }
}

/// Writes what an answer says is left out to `err`, and then its text to `out`, whole, which is
/// flushed. Fails with the fault that it tells of, where it tells of one,
/// and else as a part of the input was refused, if one was.
pub(crate) fn put<E: Debug + Display + Drop, F: Debug + Display + Drop, W: Write, X: Write>(
    answer: Output<E, F>,
    out: &mut W,
    err: &mut X,
) -> Result<(), Failure<E, F>>
    ensures ended { IsEnding answer.text.items answer.found answer.refused
        (W.contents out.old) (W.contents out.new) result }
    ensures warned { TakesAny answer.warnings.items (X.contents err.old) (X.contents err.new) }
    ensures quiet { answer.warnings.items ≡ [] → err.new ≡ err.old }
{
    let Output {
        text,
        warnings,
        found,
        refused,
    } = answer;
    warn(&warnings, err);
    match write_flushed(out, &text) {
        Ok(()) => ended(found, refused),
        Err(_) => Err(Failure::Writing),
    }
}

/// How a program ends whose text is written: with the fault that was found, or else as a part of the
/// input was refused.
fn ended<E: Debug + Display + Drop, F: Debug + Display + Drop>(
    found: Option<F>,
    refused: Option<E>,
) -> Result<(), Failure<E, F>>
    ensures { (text : List ℕ) → (before after : Option (List ℕ)) → Appends before after text
        → IsEnding text found refused before after result }
{
    match (found, refused) {
        (Some(found), _) => Err(Failure::Found(found)),
        (None, Some(error)) => Err(Failure::Refused(error)),
        (None, None) => Ok(()),
    }
}
