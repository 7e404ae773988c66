//! Which lines of a log with times stand for all of it, to what begins from a moment on.

ghost use Rattle.std.specs.Prelude.{◌≡◌, ◌+◌, ◌<◌, ◌≤◌, ◌&&◌, IfOk, Some, cond, length};
ghost use Rattle.fdb_lines.specs.Before.{ended};
ghost use Rattle.fdb_lines.specs.Carried.{ends_later, is_past, open_count, StandFor};
ghost use Rattle.fdb_lines.specs.Lines.{kind_of};
ghost use Rattle.fdb_lines.specs.Log.{lines_of};
ghost use Rattle.fdb_lines.specs.private.Entries.{IsNewest};
ghost use Rattle.fdb_lines.specs.private.Known.{version_in};
ghost use Rattle.fdb_lines.specs.private.Standing.{counts_past, is_above, is_at, is_kept};
ghost use Rattle.fdb_lines.specs.private.Standing.{is_needed, lets_of};

use crate::known::version_in;
use crate::line::{Line, Operation};
use crate::log::Log;
use std::alloc::{AllocError, Global};

/// The places, counted from 0, of lines that stand for all of a log: whatever begins from the
/// moment `at` on knows by these lines as much as it knows by all. At most two of them are not
/// open; a line is open where it began at that moment or later, or is known to have ended, but not
/// by more than `margin` before it. A line without a known end may be left out, since it comes
/// before no other. `margin` and `at` are in the unit of the log's times. An error says that memory
/// was refused.
///
/// Linear in how many lines there are.
pub fn standing(alloc: Global, log: &Log, margin: u64, at: u64) -> Result<Vec<u32>, AllocError>
    ensures stand { IfOk result
        (λ places. StandFor margin at (lines_of log.now).lines places.items) }
    ensures few { IfOk result
        (λ places. length places.items ≤ open_count margin at (lines_of log.now).lines + 2) }
{
    let lines = log.lines();
    let shown = newest_past(lines, margin, at, false);
    let known = newest_past(lines, margin, at, true);
    let mut places = Vec::new(alloc);
    for place in 0..lines.len() {
        if is_kept(lines, place, margin, at, shown, known) {
            places.push(place as u32)?;
        }
    }
    Ok(places)
}

/// Of the past lines that show a version, or of those that draw one too, the first whose version is
/// newest.
fn newest_past(lines: &[Line], margin: u64, at: u64, drawn: bool) -> Option<u32>
    requires { length lines.now ≤ 4294967295 }
    ensures { IsNewest (counts_past margin at drawn lines.now) (version_in lines.now)
        (length lines.now) result }
{
    let mut newest = None;
    for place in 0..lines.len() {
        newest = newer_past(lines, place, margin, at, drawn, newest);
    }
    newest
}

/// The line at a place, where it is past and lets a version be known above that of the newest yet,
/// and else that one.
fn newer_past(
    lines: &[Line],
    place: usize,
    margin: u64,
    at: u64,
    drawn: bool,
    newest: Option<u32>,
) -> Option<u32>
    requires place { place < length lines.now }
    requires few { length lines.now ≤ 4294967295 }
    ensures { result ≡ cond (counts_past margin at drawn lines.now place
        && is_above lines.now (version_in lines.now place) newest) (Some place) newest }
{
    if counts_past(&lines[place], margin, at, drawn)
        && is_above(lines, version_in(lines, place), newest)
    {
        Some(place as u32)
    } else {
        newest
    }
}

/// Whether a line is past and lets its version be known.
fn counts_past(line: &Line, margin: u64, at: u64, drawn: bool) -> bool
    ensures { result ≡ (is_past margin at line.now && lets_of drawn (kind_of line.now.call)) }
{
    is_past(line, margin, at) && lets_of(drawn, line.call)
}

/// Whether a line had ended by more than the margin before a moment.
fn is_past(line: &Line, margin: u64, at: u64) -> bool
    ensures { result ≡ is_past margin at line.now }
{
    match line.ended() {
        Some(end) => end < at && margin < at - end,
        None => false,
    }
}

/// Whether a line is known to have ended later than by more than the margin before a moment.
fn ends_later(line: &Line, margin: u64, at: u64) -> bool
    ensures { result ≡ ends_later margin at (ended line.now) }
{
    line.ended().is_some() && !is_past(line, margin, at)
}

/// Whether a call lets its version be known: it shows one, or draws one too.
fn lets_of(drawn: bool, call: Operation) -> bool
    ensures { result ≡ lets_of drawn (kind_of call) }
{
    if drawn {
        call.shows() || call.draws()
    } else {
        call.shows()
    }
}

/// Whether a version is above that of a line, if there is one.
fn is_above(lines: &[Line], version: u64, place: Option<u32>) -> bool
    ensures { result ≡ is_above lines.now version place }
{
    match place {
        Some(place) => version_in(lines, place as usize) < version,
        None => true,
    }
}

/// Whether a line is needed beside the newest that are past: it began from the moment on, or may
/// yet let a newer version be known.
fn is_needed(
    lines: &[Line],
    line: &Line,
    margin: u64,
    at: u64,
    shown: Option<u32>,
    known: Option<u32>,
) -> bool
    ensures { result ≡ is_needed margin at lines.now shown known line.now }
{
    let version = line.call.version();
    at <= line.began()
        || ends_later(line, margin, at)
            && (line.call.shows() && is_above(lines, version, shown)
                || line.call.draws() && is_above(lines, version, known))
}

/// Whether the line at a place is kept: it is needed, or one of the newest that are past.
fn is_kept(
    lines: &[Line],
    place: usize,
    margin: u64,
    at: u64,
    shown: Option<u32>,
    known: Option<u32>,
) -> bool
    requires { place < length lines.now }
    ensures { result ≡ is_kept margin at lines.now shown known place }
{
    is_needed(lines, &lines[place], margin, at, shown, known)
        || is_at(shown, place)
        || is_at(known, place)
}

/// Whether this is the place.
fn is_at(known: Option<u32>, place: usize) -> bool
    ensures { result ≡ is_at known place }
{
    match known {
        Some(known) => known as usize == place,
        None => false,
    }
}
