//! What a read answers, and how the cell keeps the record and its position.

ghost use Rattle.std.specs.Prelude.{◌≡◌, Some};
ghost use Rattle.fdb_live.specs.private.Words.{fetched_of, first_word, held_of, metadata_of};
ghost use Rattle.fdb_live.specs.private.Words.{second_word};

use crossbeam_utils::atomic::Words;
use fdb_history::Record;

/// The record, with the live committed version and the minimum known committed version, and the
/// number of reports that had changed it by then (`version`, `locked`, `metadataVersion` and
/// `minKnownCommittedVersion` of `GetRawCommittedVersionReply`, FoundationDB 7.1; the position is
/// this product's own).
#[derive(Clone, Copy, Debug, PartialEq, Eq)]
pub struct Fetched {
    pub rec: Record,
    pub position: u64,
}

/// Bit 0 of the flags: the database is locked.
const LOCKED: u64 = 1;

/// Bit 1 of the flags: there is a metadata version.
const HAS_METADATA: u64 = 2;

/// The record and its position in six words. They have no gaps, which a copy of a [`Fetched`]
/// would move as well, a few bytes at a time.
#[derive(Clone, Copy)]
pub(crate) struct Held {
    pub(crate) position: u64,
    pub(crate) version: u64,
    /// `LOCKED` and `HAS_METADATA`, each where it stands.
    pub(crate) flags: u64,
    /// The first eight bytes of the metadata version as a number, the first byte the highest, and 0
    /// where there is none.
    pub(crate) first_metadata: u64,
    /// The last two bytes of the metadata version, likewise.
    pub(crate) second_metadata: u64,
    pub(crate) min_known: u64,
}

impl Held {
    /// The words of a record and its position, of which `fetched` makes them again.
    #[inline]
    pub(crate) fn of(fetched: Fetched) -> Held
        ensures words { result ≡ held_of fetched }
        ensures back { fetched_of result ≡ fetched }
    {
        let locked = if fetched.rec.locked { LOCKED } else { 0 };
        let (flags, (first_metadata, second_metadata)) = match fetched.rec.metadata {
            None => (locked, (0, 0)),
            Some(metadata) => (locked + HAS_METADATA, words_of_metadata(metadata)),
        };
        Held {
            position: fetched.position,
            version: fetched.rec.version,
            flags,
            first_metadata,
            second_metadata,
            min_known: fetched.rec.min_known,
        }
    }

    /// The record and the position that these words stand for.
    #[inline]
    pub(crate) fn fetched(self) -> Fetched
        ensures { result ≡ fetched_of self }
    {
        let metadata = if self.flags & HAS_METADATA != 0 {
            Some(metadata_of(self.first_metadata, self.second_metadata))
        } else {
            None
        };
        Fetched {
            rec: Record {
                version: self.version,
                locked: self.flags & LOCKED != 0,
                metadata,
                min_known: self.min_known,
            },
            position: self.position,
        }
    }
}

/// The first eight bytes of a metadata version and its last two, each as a number.
#[inline]
fn words_of_metadata(metadata: [u8; 10]) -> (u64, u64)
    ensures first { result.0 ≡ first_word (Some metadata) }
    ensures second { result.1 ≡ second_word (Some metadata) }
    ensures back { metadata_of result.0 result.1 ≡ metadata }
{
    let [a, b, c, d, e, f, g, h, i, j] = metadata;
    let first = u64::from_be_bytes([a, b, c, d, e, f, g, h]);
    let second = u16::from_be_bytes([i, j]);
    (first, u64::from(second))
}

/// The metadata version of two such numbers.
#[inline]
fn metadata_of(first: u64, second: u64) -> [u8; 10]
    ensures { result ≡ metadata_of first second }
{
    let [a, b, c, d, e, f, g, h] = first.to_be_bytes();
    let [_, _, _, _, _, _, i, j] = second.to_be_bytes();
    [a, b, c, d, e, f, g, h, i, j]
}

impl Words<6> for Held {
    ghost use Rattle.fdb_live.specs.private.Words.{words_of};

    ghost words = { words_of };

    #[inline]
    fn to_words(self) -> [u64; 6] {
        [
            self.position,
            self.version,
            self.flags,
            self.first_metadata,
            self.second_metadata,
            self.min_known,
        ]
    }

    #[inline]
    fn from_words(bits: &[u64; 6]) -> Held {
        let [
            position,
            version,
            flags,
            first_metadata,
            second_metadata,
            min_known,
        ] = *bits;
        Held {
            position,
            version,
            flags,
            first_metadata,
            second_metadata,
            min_known,
        }
    }
}
