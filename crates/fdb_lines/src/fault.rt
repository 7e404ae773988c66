//! Faults, each at a line: whether one stands there, why, by the versions and lines that anybody
//! can look up in the log, and by how much the call is late.

ghost use Rattle.std.specs.Prelude.{◌≡◌, ◌<◌, length, true};
ghost use Rattle.fdb_lines.specs.Audit.{case_of};
ghost use Rattle.fdb_lines.specs.Faults.{stands, is_stray, is_wrong};
ghost use Rattle.fdb_lines.specs.Late.{outdates, IsLateAt};
ghost use Rattle.fdb_lines.specs.Log.{lines_of};
ghost use Rattle.fdb_lines.specs.private.Late.{IsFirstEnd};
ghost use Rattle.fdb_lines.specs.Lines.{version_at};
ghost use Rattle.fdb_lines.specs.Reasons.{IsReason};
ghost use Rattle.fdb_lines.specs.private.Tables.{case_in, drawn_by, IsAnswer};
ghost use Rattle.fdb_lines.specs.declared.fault.Fault.TheVariants.{NotAbove, Order, Wrong};

use crate::known::version_in;
use crate::line::End;
use crate::log::{AuditOpts, Log};
use crate::tables::Tables;
use std::fmt;

/// What can be wrong with a line. The faults of one line are listed in this order.
#[derive(Clone, Copy, Debug, PartialEq, Eq)]
pub enum Fault {
    /// A stale read: below a version that its caller knew.
    Order,
    /// A read of a version that is not there: nobody can have reported it, or each who reported it
    /// knew that version, or a newer one, before.
    Wrong,
    /// A version was drawn that is not above all that its caller knew.
    NotAbove,
    /// A version was drawn twice, and not by commits alone.
    Twice,
    /// A report of a version that others drew, or that nobody can have drawn.
    Stray,
}

impl fmt::Display for Fault {
    ghost use Rattle.std.specs.Prelude.{Some};
    ghost use Rattle.fdb_lines.specs.Text.{fault_name};

    ghost output = { λ fault. Some (fault_name fault) };

    fn fmt<W: fmt::Write>(&self, f: &mut fmt::Formatter<W>) -> fmt::Result {
        f.write_str(match self {
            Fault::Order => "Order",
            Fault::Wrong => "Wrong",
            Fault::NotAbove => "NotAbove",
            Fault::Twice => "Twice",
            Fault::Stray => "Stray",
        })
    }
}

/// A fault, and the place of the line at which it stands. What is printed counts from 1.
#[derive(Clone, Copy, Debug, PartialEq, Eq)]
pub struct Found {
    /// Counted from 0.
    pub place: u32,
    pub fault: Fault,
}

impl fmt::Display for Found {
    ghost use Rattle.std.specs.Prelude.{Some};
    ghost use Rattle.fdb_lines.specs.Text.{found_text};

    ghost output = { λ found. Some (found_text found) };

    fn fmt<W: fmt::Write>(&self, f: &mut fmt::Formatter<W>) -> fmt::Result {
        write!(f, "{} {}", self.fault, self.place as u64 + 1)
    }
}

/// By how much a call is late, and by which line.
#[derive(Clone, Copy, Debug, PartialEq, Eq)]
pub struct Late {
    /// The place, counted from 0, of the first line to end of those that outdate the call: such a
    /// line shows a newer version than the call read, or shows or draws one that the version drawn
    /// by the call is not above.
    pub place: u32,
    /// The time from the end of that line to where the call began, in the unit of the log's times:
    /// the fault stands under each lesser margin. It is 0 where that line had not ended when the
    /// call began.
    pub by: u64,
}

/// By how much the call at a place is late, by the first end of the lines that outdate it.
pub(crate) fn late_by(
    log: &Log,
    opts: &AuditOpts,
    place: usize,
    fault: Fault,
    first: Option<End>,
) -> Option<Late>
    requires place { place < length (lines_of log.now).lines }
    requires stands { stands (case_of (lines_of log.now) opts.now) fault place ≡ true }
    requires first { let lines = (lines_of log.now).lines in
        IsFirstEnd (outdates fault lines place) lines first }
    ensures { IsLateAt (lines_of log.now) opts.now place fault result }
{
    let first = first?;
    if first.place as usize == place {
        return None;
    }
    Some(Late {
        place: first.place,
        by: log.lines()[place].began().saturating_sub(first.time),
    })
}

/// How a call knew of a line, which makes the line come before it.
#[derive(Clone, Copy, Debug, PartialEq, Eq)]
pub enum Means {
    /// The line had ended before the call began, by more than the margin.
    Ended,
    /// The line is an earlier one of the call's own client.
    Own,
    /// The client of the call had learnt of the line, by this line of its own.
    Learnt(u32),
}

/// A line of which a call knew, by its place, counted from 0, and how.
#[derive(Clone, Copy, Debug, PartialEq, Eq)]
pub struct Witness {
    pub place: u32,
    pub means: Means,
}

/// Why a fault stands. Places are counted from 0.
#[derive(Clone, Copy, Debug, PartialEq, Eq)]
pub enum Reason {
    /// `Order` and `NotAbove`: a version was known, by a line, or since all began with it.
    Known {
        /// The greatest version that was known; for `NotAbove`, that was known or drawn before.
        version: u64,
        /// A line that let it be known; none where no line did and all began with it.
        by: Option<Witness>,
    },
    /// `Wrong`: no line reports the version, in a log that has all calls.
    Unreported,
    /// `Wrong`: the first line that reports the version knew it before, or a newer one.
    Reported {
        place: u32,
        /// The greatest version that the caller of that line knew.
        version: u64,
        /// A line that let it be known; none where no line did and all began with it.
        by: Option<Witness>,
    },
    /// `Twice` and `Stray`: another line drew the version.
    Drawn {
        /// Of the first such line.
        place: u32,
    },
    /// `Stray`: no line drew the version, and nobody else can have.
    Undrawn,
}

/// A fault, and a reason for it that is true of the lines of the log.
#[derive(Clone, Copy, Debug, PartialEq, Eq)]
pub struct Finding {
    pub found: Found,
    pub reason: Reason,
    /// By how much the call is late, for `Order` and `NotAbove`. There is none for other faults;
    /// nor where no line that outdates the call has a known end, or the call itself is the first of
    /// these lines to end.
    pub late: Option<Late>,
}

/// Why a fault stands at a line; none where it does not. Logarithmic.
pub(crate) fn reason_of(tables: &Tables<'_>, place: usize, fault: Fault) -> Option<Reason>
    requires place { place < length (case_in tables.now).lines }
    ensures { IsAnswer (lines_of tables.now.log) tables.now.opts place fault result }
{
    if !stands(tables, place, fault) {
        return None;
    }
    Some(match fault {
        Fault::Order => of_order(tables, place),
        Fault::Wrong => of_wrong(tables, place),
        Fault::NotAbove => of_not_above(tables, place),
        Fault::Twice => drawn_by(tables.drawn_again(place)),
        Fault::Stray => drawn_by(tables.first_draw(place)),
    })
}

/// By how much the call at a line is late at which a fault stands. Logarithmic.
pub(crate) fn late_of(tables: &Tables<'_>, place: usize, fault: Fault) -> Option<Late>
    requires place { place < length (case_in tables.now).lines }
    requires stands { stands (case_in tables.now) fault place ≡ true }
    ensures { IsLateAt (lines_of tables.now.log) tables.now.opts place fault result }
{
    let first = tables.first_that(place, fault);
    late_by(tables.log(), tables.opts(), place, fault, first)
}

/// Whether a fault stands at a line.
pub(crate) fn stands(tables: &Tables<'_>, place: usize, fault: Fault) -> bool
    requires place { place < length (case_in tables.now).lines }
    ensures { result ≡ stands (case_in tables.now) fault place }
{
    let line = &tables.lines()[place];
    let version = line.call.version();
    let knows = tables.knows(place);
    match fault {
        Fault::Order => line.call.is_read() && version < knows,
        Fault::Wrong => line.call.is_read() && is_wrong(tables, place),
        Fault::NotAbove => line.call.draws() && version <= tables.newest(place),
        Fault::Twice => line.call.draws() && tables.is_twice(place),
        Fault::Stray => line.call.is_report() && is_stray(tables, place),
    }
}

/// Whether the version of the line at a place is not there: nobody reported it without knowing as
/// much before.
fn is_wrong(tables: &Tables<'_>, place: usize) -> bool
    ensures { let c = case_in tables.now in
        result ≡ is_wrong c (version_at c place) }
{
    version_in(tables.lines(), place) != tables.opts().start()
        && !tables.is_raised(place)
        && (tables.opts().is_complete() || tables.is_reported(place))
}

/// Whether others drew it, or nobody can have drawn it.
fn is_stray(tables: &Tables<'_>, place: usize) -> bool
    requires place { place < length (case_in tables.now).lines }
    ensures { result ≡ is_stray (case_in tables.now) place }
{
    if tables.is_drawn(place) {
        !tables.is_own(place)
    } else {
        tables.opts().is_complete() || version_in(tables.lines(), place) <= tables.opts().start()
    }
}

/// The newest version that the call knew, which is newer than what it read.
#[tactic(auto, using(crate::proofs::Reasoning::order_is))]
fn of_order(tables: &Tables<'_>, place: usize) -> Reason
    requires place { place < length (case_in tables.now).lines }
    requires stands { stands (case_in tables.now) Order place ≡ true }
    ensures { IsReason (lines_of tables.now.log) tables.now.opts place Order result }
{
    let version = tables.knows(place);
    let by = tables.shown(place, version);
    Reason::Known { version, by }
}

/// The first line that reports the version, and the newest version that it knew.
#[tactic(auto, using(crate::proofs::Entries::first_is))]
fn of_wrong(tables: &Tables<'_>, place: usize) -> Reason
    requires place { place < length (case_in tables.now).lines }
    requires stands { stands (case_in tables.now) Wrong place ≡ true }
    ensures { IsReason (lines_of tables.now.log) tables.now.opts place Wrong result }
{
    match tables.first_report(place) {
        Some(reporter) => {
            let version = tables.knows(reporter as usize);
            let by = tables.shown(reporter as usize, version);
            Reason::Reported {
                place: reporter,
                version,
                by,
            }
        }
        None => Reason::Unreported,
    }
}

/// The newest version that the call knew or that was drawn before it.
#[tactic(auto, using(crate::proofs::Reasoning::not_above_is, crate::proofs::Reasoning::by_drawn))]
fn of_not_above(tables: &Tables<'_>, place: usize) -> Reason
    requires place { place < length (case_in tables.now).lines }
    requires stands { stands (case_in tables.now) NotAbove place ≡ true }
    ensures { IsReason (lines_of tables.now.log) tables.now.opts place NotAbove result }
{
    let version = tables.newest(place);
    let by = match tables.shown(place, version) {
        Some(by) => Some(by),
        None => tables.drawn(place, version),
    };
    Reason::Known { version, by }
}

/// That a line drew the version, or that none did.
fn drawn_by(place: Option<u32>) -> Reason
    ensures { result ≡ drawn_by place }
{
    match place {
        Some(place) => Reason::Drawn { place },
        None => Reason::Undrawn,
    }
}
