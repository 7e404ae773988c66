//! The live committed version as a register, the events of a history, and what the register is
//! after a list of them.

ghost use Rattle.std.specs.Prelude.{◌≡◌};
ghost use Rattle.fdb_history.specs.Event.{register_after, is_change};
ghost use Rattle.fdb_history.specs.Register.{after_report, changes, raises, version_for};

use crate::sequence::Sequence;
use std::fmt;

/// The greatest version: FoundationDB's versions are signed
/// numbers of 64 bits, of which none below 0 is used.
pub const MAX_VERSION: u64 = 9_223_372_036_854_775_807;

/// What the sequencer keeps of the newest commit that was reported: the live committed
/// version, whether the database is locked, the version of the metadata, if there is one, and the
/// minimum known committed version.
///
/// In FoundationDB 7.1 these are `liveCommittedVersion`, `databaseLocked`,
/// `proxyMetadataVersion` and `minKnownCommittedVersion` of `MasterData`
/// (masterserver), and the members of `GetRawCommittedVersionReply`.
#[derive(Clone, Copy, Debug, PartialEq, Eq)]
pub struct Record {
    pub version: u64,
    pub locked: bool,
    /// The metadata version, if there is one: a versionstamp, which is ten bytes.
    pub metadata: Option<[u8; 10]>,
    /// The minimum known committed version: each version up to it is known to be committed. It is
    /// the greatest that was reported, or that of the record at the start, if no report has a
    /// greater one.
    pub min_known: u64,
}

impl Record {
    /// Whether a report raises this record: its version is greater.
    pub fn raises(self, reported: Record) -> bool
        ensures { result ≡ raises self reported }
    {
        reported.version > self.version
    }

    /// Whether a report changes this record: it raises it, or its minimum known committed version
    /// is greater.
    pub fn changes(self, reported: Record) -> bool
        ensures { result ≡ changes self reported }
    {
        self.raises(reported) || reported.min_known > self.min_known
    }

    /// The record after a report. A report of a greater version replaces version, lock and
    /// metadata version; in either case the minimum known committed version becomes the greater
    /// one of the two (`updateLiveCommittedVersion` of masterserver).
    pub fn after_report(self, reported: Record) -> Record
        ensures { result ≡ after_report self reported }
    {
        let newest = if self.raises(reported) {
            reported
        } else {
            self
        };
        Record {
            min_known: self.min_known.max(reported.min_known),
            ..newest
        }
    }

    /// The read version that this record gives: its version, or for a request that asks for it the
    /// minimum known committed version.
    pub fn version_for(self, use_min: bool) -> u64
        ensures { result ≡ version_for use_min self }
    {
        if use_min {
            self.min_known
        } else {
            self.version
        }
    }
}

/// The record after the events: each report makes it what `Record::after_report` says, and reads
/// change nothing.
///
/// It takes the reports as they come, and asks nothing of
/// the flags and the records that the events claim.
pub fn register_after(start: Record, events: &[Event]) -> Record
    ensures { result ≡ register_after start events.now }
{
    let mut current = start;
    for event in events {
        if let Event::Report { rec, .. } = event {
            current = current.after_report(*rec);
        }
    }
    current
}

/// The twenty hexadecimal digits of a metadata version, in lower case.
#[derive(Clone, Copy)]
struct Digits([u8; 10]);

impl fmt::Display for Digits {
    ghost use Rattle.std.specs.Prelude.{Some};
    ghost use Rattle.hex.specs.Hex.{encode_lower};

    ghost output = { λ digits. Some (encode_lower digits.0) };

    fn fmt<W: fmt::Write>(&self, f: &mut fmt::Formatter<W>) -> fmt::Result {
        let mut digits = [0; 20];
        let Ok(()) = hex::encode_to_slice(self.0, &mut digits) else {
            unreachable!();
        };
        let Ok(text) = str::from_utf8(&digits) else {
            unreachable!();
        };
        f.write_str(text)
    }
}

/// The metadata version, or `none`.
#[derive(Clone, Copy)]
struct MetadataText(Option<[u8; 10]>);

impl fmt::Display for MetadataText {
    ghost use Rattle.std.specs.Prelude.{Some};
    ghost use Rattle.fdb_history.specs.Text.{metadata_text};

    ghost output = { λ metadata. Some (metadata_text metadata.0) };

    fn fmt<W: fmt::Write>(&self, f: &mut fmt::Formatter<W>) -> fmt::Result {
        match self.0 {
            None => f.write_str("none"),
            Some(metadata) => write!(f, "{}", Digits(metadata)),
        }
    }
}

/// The minimum known committed version, where that is not 0.
#[derive(Clone, Copy)]
struct MinText(u64);

impl fmt::Display for MinText {
    ghost use Rattle.std.specs.Prelude.{Some};
    ghost use Rattle.fdb_history.specs.Text.{min_text};

    ghost output = { λ min_known. Some (min_text min_known.0) };

    fn fmt<W: fmt::Write>(&self, f: &mut fmt::Formatter<W>) -> fmt::Result {
        match self.0 {
            0 => Ok(()),
            min_known => write!(f, " min {min_known}"),
        }
    }
}

/// The version, `locked` or `unlocked`, the metadata version or `none`, and `min` with the minimum
/// known committed version where that is not 0.
impl fmt::Display for Record {
    ghost use Rattle.std.specs.Prelude.{Some};
    ghost use Rattle.fdb_history.specs.Text.{record_text};

    ghost output = { λ rec. Some (record_text rec) };

    fn fmt<W: fmt::Write>(&self, f: &mut fmt::Formatter<W>) -> fmt::Result {
        let lock = if self.locked {
            " locked "
        } else {
            " unlocked "
        };
        let metadata = MetadataText(self.metadata);
        let min_known = MinText(self.min_known);
        write!(f, "{}{lock}{metadata}{min_known}", self.version)
    }
}

/// One step of the register. Clients are numbered from 0,
/// and so are the calls of each client's log.
#[derive(Clone, Copy, Debug, PartialEq, Eq)]
pub enum Event {
    /// A client reported a record (`reportLiveCommittedVersion`),
    /// and was told whether it raised the register, and whether it changed it.
    Report {
        client: u32,
        /// The place of the call in the client's log.
        call: u64,
        /// The record as it was reported, whether or not it is newer than the register.
        rec: Record,
        /// Whether its version was greater than the register's.
        raised: bool,
        /// Whether its version or its minimum known committed version was greater.
        changed: bool,
    },
    /// A client read the register, which stays as it was (`getLiveCommittedVersion`).
    Read {
        client: u32,
        /// The place of the call in the client's log.
        call: u64,
        /// The whole record that the register held.
        rec: Record,
    },
}

/// An event and its position: the number of changes up to and including it.
#[derive(Clone, Copy)]
pub(crate) struct Placed {
    pub(crate) event: Event,
    pub(crate) position: u64,
}

/// Events, one after another, that explain the replies of a run.
#[derive(Debug, Drop)]
pub struct History {
    pub events: Sequence<Event>,
}

impl Event {
    /// Whether it is a report that changed the register.
    pub(crate) fn is_change(&self) -> bool
        ensures { result ≡ is_change self.now }
    {
        matches!(self, Event::Report { changed: true, .. })
    }
}
