//! Faults as C is told of them, each with why it stands and how late it was.

ghost use Rattle.std.specs.Prelude.{◌≡◌};
ghost use Rattle.fdb_c.specs.Audit.{knowing, learnt_by, means_by, number_of_fault, place_by};
ghost use Rattle.fdb_c.specs.Audit.{plain, told, told_with, with_late};

use fdb_lines::{Fault, Finding, Late, Means, Reason, Witness};

/// A read below what its caller knew.
pub const FDB_FAULT_ORDER: u8 = 1;

/// A read of a version that nobody can have reported while it was new.
pub const FDB_FAULT_WRONG: u8 = 2;

/// A version was drawn that is not above all that its caller knew.
pub const FDB_FAULT_NOT_ABOVE: u8 = 3;

/// A version was drawn twice, and not by commits alone.
pub const FDB_FAULT_TWICE: u8 = 4;

/// A report of a version that others drew, or that nobody can have drawn.
pub const FDB_FAULT_STRAY: u8 = 5;

/// The caller knew a version that the one it got is below, or, where it drew one, not above.
pub const FDB_REASON_KNOWN: u8 = 1;

/// No line reports the version.
pub const FDB_REASON_UNREPORTED: u8 = 2;

/// The first line that reports the version knew it before, or a newer one.
pub const FDB_REASON_REPORTED: u8 = 3;

/// Another line drew the version.
pub const FDB_REASON_DRAWN: u8 = 4;

/// No line drew the version.
pub const FDB_REASON_UNDRAWN: u8 = 5;

/// The version was known since all began with it, and by no line.
pub const FDB_MEANS_START: u8 = 1;

/// The version was known by a line that had ended, by more than the margin, before the call began
/// that knew it.
pub const FDB_MEANS_ENDED: u8 = 2;

/// The version was known by an earlier line of the client that knew it.
pub const FDB_MEANS_OWN: u8 = 3;

/// The version was known by a line of which the client that knew it had learnt.
pub const FDB_MEANS_LEARNT: u8 = 4;

/// A fault, and why it stands. Lines are told by their places, counted from 0; what has no meaning
/// is 0.
#[repr(C)]
#[derive(Clone, Copy)]
pub struct FdbFault {
    /// The version that was known.
    pub known: u64,
    /// By how much the call was late, in the unit of the log's times, where `has_late` holds.
    pub late: u64,
    /// The place of the line at which it stands.
    pub place: u32,
    /// The first line that reports the version, or the line that drew it.
    pub other: u32,
    /// The line that let a version be known.
    pub by: u32,
    /// The line by which the client had learnt of the line `by`.
    pub learnt: u32,
    /// The line that outdates the call and ended first, where `has_late` holds.
    pub first: u32,
    /// `FDB_FAULT_ORDER` to `FDB_FAULT_STRAY`.
    pub kind: u8,
    /// `FDB_REASON_KNOWN` to `FDB_REASON_UNDRAWN`.
    pub reason: u8,
    /// How the version was known, `FDB_MEANS_START` to `FDB_MEANS_LEARNT`.
    pub means: u8,
    /// Whether `late` and `first` are told: a line that outdates the call has a known end, and the
    /// first such line to end is not the call itself.
    pub has_late: bool,
}

/// A fault's number.
fn number_of_fault(fault: Fault) -> u8
    ensures { result ≡ number_of_fault fault }
{
    match fault {
        Fault::Order => FDB_FAULT_ORDER,
        Fault::Wrong => FDB_FAULT_WRONG,
        Fault::NotAbove => FDB_FAULT_NOT_ABOVE,
        Fault::Twice => FDB_FAULT_TWICE,
        Fault::Stray => FDB_FAULT_STRAY,
    }
}

/// How a version was known.
fn means_by(by: Option<Witness>) -> u8
    ensures { result ≡ means_by by }
{
    match by {
        None => FDB_MEANS_START,
        Some(by) => match by.means {
            Means::Ended => FDB_MEANS_ENDED,
            Means::Own => FDB_MEANS_OWN,
            Means::Learnt(_) => FDB_MEANS_LEARNT,
        },
    }
}

/// The place of the line that let a version be known.
fn place_by(by: Option<Witness>) -> u32
    ensures { result ≡ place_by by }
{
    match by {
        None => 0,
        Some(by) => by.place,
    }
}

/// The place of the line by which the client had learnt of that one.
fn learnt_by(by: Option<Witness>) -> u32
    ensures { result ≡ learnt_by by }
{
    match by {
        None => 0,
        Some(by) => match by.means {
            Means::Learnt(place) => place,
            _ => 0,
        },
    }
}

/// A fault whose reason names no version.
fn plain(finding: Finding, reason: u8, other: u32) -> FdbFault
    ensures { result ≡ plain finding reason other }
{
    FdbFault {
        known: 0,
        late: 0,
        place: finding.found.place,
        other,
        by: 0,
        learnt: 0,
        first: 0,
        kind: number_of_fault(finding.found.fault),
        reason,
        means: 0,
        has_late: false,
    }
}

/// A fault whose reason is that a version was known.
fn knowing(finding: Finding, reason: u8, other: u32, version: u64, by: Option<Witness>) -> FdbFault
    ensures { result ≡ knowing finding reason other version by }
{
    FdbFault {
        known: version,
        late: 0,
        place: finding.found.place,
        other,
        by: place_by(by),
        learnt: learnt_by(by),
        first: 0,
        kind: number_of_fault(finding.found.fault),
        reason,
        means: means_by(by),
        has_late: false,
    }
}

/// A fault, with how late the call was, where it was.
fn with_late(fault: FdbFault, late: Option<Late>) -> FdbFault
    ensures { result ≡ with_late fault late }
{
    match late {
        None => fault,
        Some(Late { place, by }) => FdbFault {
            late: by,
            first: place,
            has_late: true,
            ..fault
        },
    }
}

/// A fault, as C is told of it.
pub(crate) fn told(finding: Finding) -> FdbFault
    ensures { result ≡ told finding }
{
    with_late(told_with(finding), finding.late)
}

/// A fault with its reason.
fn told_with(finding: Finding) -> FdbFault
    ensures { result ≡ told_with finding finding.reason }
{
    match finding.reason {
        Reason::Known { version, by } => knowing(finding, FDB_REASON_KNOWN, 0, version, by),
        Reason::Unreported => plain(finding, FDB_REASON_UNREPORTED, 0),
        Reason::Reported { place, version, by } => {
            knowing(finding, FDB_REASON_REPORTED, place, version, by)
        }
        Reason::Drawn { place } => plain(finding, FDB_REASON_DRAWN, place),
        Reason::Undrawn => plain(finding, FDB_REASON_UNDRAWN, 0),
    }
}
