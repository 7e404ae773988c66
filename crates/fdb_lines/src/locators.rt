//! A table of the locators of lines, by which these are found: which lines are located, by what,
//! and the first of a version, found by a search.

ghost use Rattle.std.specs.Prelude.{◌≡◌, ◌≤◌, ℕ, IfOk, List, Option, length};
ghost use Rattle.std.specs.List.Sorted.{IsNonDecreasingBy};
ghost use Rattle.fdb_lines.specs.private.Locators.{group_in, is_of_line_kind, IsLocatorOf};
ghost use Rattle.fdb_lines.specs.private.Locators.{is_located_at, knows_at, locator_key, name};
ghost use Rattle.fdb_lines.specs.private.Locators.{AreLocators, IsLocatorsFront};
ghost use Rattle.fdb_lines.specs.private.Entries.{IsFirstFrom};
ghost use Rattle.fdb_lines.specs.declared.line.Line.{Line};
ghost use Rattle.fdb_lines.specs.declared.fault.Witness.{Witness};
ghost use Rattle.fdb_lines.specs.declared.locators.LineKind.{LineKind};

use crate::fault::Witness;
use crate::known::{by_at, version_by};
use crate::line::{Line, Locator};
use std::alloc::{AllocError, Global};
use std::cmp::Ordering;

/// Which lines are located. Commits are among those that report and those that draw.
#[derive(Clone, Copy, Debug, PartialEq, Eq)]
pub(crate) enum LineKind {
    Reports,
    /// Those that report a version above what they know.
    Raises,
    Draws,
    Asks,
    /// Those that draw and whose client is known, by client.
    Owned,
    /// Those that draw and whose client is not known.
    Nameless,
}

/// The locator of the line at a place, if it is of a kind.
pub(crate) fn locator_of(
    line: &Line,
    knows: u64,
    place: u32,
    line_kind: LineKind,
) -> Option<Locator>
    ensures { IsLocatorOf line_kind line.now knows place result }
{
    if is_of_line_kind(line, knows, line_kind) {
        Some(Locator::new(line.call.version(), group_in(line, line_kind), place))
    } else {
        None
    }
}

/// Whether a line is of a kind, by what it knows.
fn is_of_line_kind(line: &Line, knows: u64, line_kind: LineKind) -> bool
    ensures { result ≡ is_of_line_kind line_kind line.now knows }
{
    match line_kind {
        LineKind::Reports => line.call.reports(),
        LineKind::Raises => line.call.reports() && knows < line.call.version(),
        LineKind::Draws => line.call.draws(),
        LineKind::Asks => line.call.is_ask(),
        LineKind::Owned => line.call.draws() && line.client.is_some(),
        LineKind::Nameless => line.call.draws() && line.client.is_none(),
    }
}

/// Whose a line is, where that is part of its locator.
fn group_in(line: &Line, line_kind: LineKind) -> u32
    ensures { result ≡ group_in line_kind line.now }
{
    match line_kind {
        LineKind::Owned => line.client.unwrap_or(0),
        _ => 0,
    }
}

/// The locators of lines, by version and group, and then by place.
#[derive(Drop)]
pub(crate) struct Locators {
    locators: Vec<Locator>,
    ghost in_order: { IsNonDecreasingBy locator_key locators.items },
}

impl Locators {
    /// The locators of the lines of a kind, by what each knows. `n log n` in how many there are.
    pub(crate) fn new(
        alloc: Global,
        start: u64,
        lines: &[Line],
        known: &[Option<Witness>],
        line_kind: LineKind,
    ) -> Result<Self, AllocError>
        requires { length lines.now ≤ 4294967295 }
        ensures { IfOk result (λ table. AreLocators line_kind start lines.now known.now (length lines.now)
            table.locators.items) }
    {
        let mut locators = Vec::new(alloc);
        for (place, line) in lines.iter().enumerate() {
            let knows = knows_at(start, lines, known, place);
            if let Some(locator) = locator_of(line, knows, place as u32, line_kind) {
                locators.push(locator)?;
            }
        }
        locators.sort_unstable_by(|a, b| a.order(b));
        Ok(Locators { locators })
    }

    /// The first line of a version and a group, from a place on. Logarithmic.
    pub(crate) fn first(&self, version: u64, group: u32, from: u32) -> Option<u32>
        ensures { (line_kind : LineKind) (start : ℕ) (lines : List Line) (known : List (Option Witness))
            → AreLocators line_kind start lines known (length lines) self.now.locators.items
            → IsFirstFrom (is_located_at line_kind start lines known (name version group)) from
            (length lines) result }
    {
        let front = front_of(&self.locators, &Locator::new(version, group, from));
        if front < self.locators.len() && self.locators[front].is_of(version, group) {
            Some(self.locators[front].place)
        } else {
            None
        }
    }
}

/// What the call at a place knows: the newest version that was shown before it.
pub(crate) fn knows_at(start: u64, lines: &[Line], known: &[Option<Witness>], place: usize) -> u64
    ensures { result ≡ knows_at start lines.now known.now place }
{
    start.max(version_by(lines, by_at(known, place)))
}

/// How many stand before one in the table.
fn front_of(locators: &[Locator], locator: &Locator) -> usize
    requires { IsNonDecreasingBy locator_key locators.now }
    ensures bound { result ≤ length locators.now }
    ensures parts { IsLocatorsFront locators.now (locator_key locator.now) result }
{
    locators.partition_point(|other| other.order(locator) == Ordering::Less)
}
