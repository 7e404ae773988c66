//! A line of a log: one call, its version, whose it was, and when; and what tables have of a line:
//! when it ended, and what it is found by.

ghost use Rattle.std.specs.Prelude.{◌≡◌, ◌≤◌, ◌<◌, None, Some, IfSome, IsSomeAnd, MatchOption, ◌^◌};
ghost use Rattle.std.specs.Prelude.{◌&&◌, ◌==◌};
ghost use Rattle.std.proofs.Props.{props};
ghost use Rattle.std.specs.Ordering.{nat_cmp};

use std::cmp::Ordering;

/// What a line says that was done, with the version that was read, drawn or reported.
#[derive(Clone, Copy, Debug, PartialEq, Eq)]
pub enum Operation {
    /// A read got this version: the newest that was reported when the read was answered.
    Read(u64),
    /// A commit got this version: it was drawn and reported meanwhile, maybe for others too.
    Commit(u64),
    /// This commit version was drawn; a report of it is a line of its own.
    Ask(u64),
    /// This version was reported as committed, apart from the call that drew it.
    Report(u64),
    /// From here on the client of the line knows what the client of this number had seen by the
    /// lines above.
    Learn(u32),
}

impl Operation {
    ghost use Rattle.fdb_lines.specs.Lines.{draws, is_ask, is_commit, is_learn, is_read};
    ghost use Rattle.fdb_lines.specs.Lines.{is_report, kind_of, reports, shows, version_of};

    /// The version of a call; 0 for a line that has learnt.
    pub fn version(self) -> u64
        ensures { result ≡ version_of self }
    {
        match self {
            Operation::Read(version)
            | Operation::Commit(version)
            | Operation::Ask(version)
            | Operation::Report(version) => version,
            Operation::Learn(_) => 0,
        }
    }

    /// Whether this got a version from the register and changed nothing.
    pub fn is_read(self) -> bool
        ensures { result ≡ is_read (kind_of self) }
    {
        matches!(self, Operation::Read(_))
    }

    /// Whether this both draws a version and reports it.
    pub fn is_commit(self) -> bool
        ensures { result ≡ is_commit (kind_of self) }
    {
        matches!(self, Operation::Commit(_))
    }

    /// Whether this draws a version and leaves the report to another line.
    pub fn is_ask(self) -> bool
        ensures { result ≡ is_ask (kind_of self) }
    {
        matches!(self, Operation::Ask(_))
    }

    /// Whether this reports a version that it did not draw itself.
    pub fn is_report(self) -> bool
        ensures { result ≡ is_report (kind_of self) }
    {
        matches!(self, Operation::Report(_))
    }

    /// Whether this is no call, but says that the client has learnt from another.
    pub fn is_learn(self) -> bool
        ensures { result ≡ is_learn (kind_of self) }
    {
        matches!(self, Operation::Learn(_))
    }

    /// Whether this draws a version: a commit or an ask.
    pub fn draws(self) -> bool
        ensures { result ≡ draws (kind_of self) }
    {
        matches!(self, Operation::Commit(_) | Operation::Ask(_))
    }

    /// Whether this reports a version: a commit or a report.
    pub fn reports(self) -> bool
        ensures { result ≡ reports (kind_of self) }
    {
        matches!(self, Operation::Commit(_) | Operation::Report(_))
    }

    /// Whether this shows that the register has got to a version: a read, a commit or a report.
    pub fn shows(self) -> bool
        ensures { result ≡ shows (kind_of self) }
    {
        self.is_read() || self.reports()
    }
}

/// When a call began and ended, in any one unit. `ended` is left out where that is not known, as of
/// a report that may never have arrived; such a call comes before no other.
#[derive(Clone, Copy, Debug, PartialEq, Eq)]
pub struct Times {
    pub began: u64,
    pub ended: Option<u64>,
    ghost in_order: { IfSome ended (λ end. began ≤ end) } by { Prim.hlevel props },
}

impl Times {
    /// These times, unless the call ended before it began.
    pub fn new(began: u64, ended: Option<u64>) -> Option<Self>
        ensures taken { MatchOption result (IsSomeAnd ended (λ end. end < began))
            (λ times. (times.began ≡ began) × (times.ended ≡ ended)) }
    {
        match ended {
            Some(end) if end < began => None,
            _ => Some(Times { began, ended }),
        }
    }
}

/// A line of a log: a call, whose it was, where that is known, and when, in a log with times.
/// Without times each line names a client; with times none has learnt.
#[derive(Clone, Copy, Debug, PartialEq, Eq)]
pub struct Line {
    pub client: Option<u32>,
    pub call: Operation,
    pub times: Option<Times>,
}

impl Line {
    ghost use Rattle.fdb_lines.specs.Before.{began, ended};

    /// When the call began, in the unit of the log; 0 in a log without times.
    pub fn began(&self) -> u64
        ensures { result ≡ began self.now }
    {
        match self.times {
            Some(times) => times.began,
            None => 0,
        }
    }

    /// When the call ended; none where that is not known, and in a log without times.
    pub fn ended(&self) -> Option<u64>
        ensures { result ≡ ended self.now }
    {
        match self.times {
            Some(times) => times.ended,
            None => None,
        }
    }
}

/// A call that ended: its group, which is its client or 0 for all, its line and time, and its
/// version.
#[derive(Clone, Copy, Debug, Drop)]
pub(crate) struct End {
    pub(crate) group: u32,
    pub(crate) place: u32,
    pub(crate) time: u64,
    pub(crate) version: u64,
    ghost fits: { (time < 2 ^ 64) × (place < 2 ^ 32) },
}

impl End {
    pub(crate) fn new(group: u32, time: u64, place: u32, version: u64) -> Self
        ensures group { result.group ≡ group }
        ensures time { result.time ≡ time }
        ensures place { result.place ≡ place }
        ensures version { result.version ≡ version }
    {
        End {
            group,
            place,
            time,
            version,
        }
    }
}

/// The locator of a line: its version, whose it is, where that is looked for, and its place.
#[derive(Clone, Copy, Debug, Drop)]
pub(crate) struct Locator {
    pub(crate) version: u64,
    pub(crate) group: u32,
    pub(crate) place: u32,
    ghost fits: { (group < 2 ^ 32) × (place < 2 ^ 32) },
}

impl Locator {
    ghost use Rattle.fdb_lines.specs.private.Locators.{is_named, locator_key, name};

    pub(crate) fn new(version: u64, group: u32, place: u32) -> Self
        ensures version { result.version ≡ version }
        ensures group { result.group ≡ group }
        ensures place { result.place ≡ place }
    {
        Locator {
            version,
            group,
            place,
        }
    }

    /// Whether it is of this version and group.
    pub(crate) fn is_of(&self, version: u64, group: u32) -> bool
        ensures { result ≡ is_named (name version group) self.now }
    {
        self.group == group && self.version == version
    }

    /// Where it stands in the order of the table, by version, then by group, then by place: one
    /// number, which is compared at once.
    fn key(&self) -> u128
        ensures { result ≡ locator_key self.now }
    {
        (self.version as u128 * 4_294_967_296 + self.group as u128) * 4_294_967_296
            + self.place as u128
    }

    /// The order of the table.
    pub(crate) fn order(&self, other: &Locator) -> Ordering
        ensures { result ≡ nat_cmp (locator_key self.now) (locator_key other.now) }
    {
        self.key().cmp(&other.key())
    }
}
