//! What words of several texts stand for: records, answers, options of a read and tags; and how the
//! cause of a refusal is said.

ghost use Rattle.std.specs.Prelude.{◌≡◌};

use fdb_checks::TableLine;
use fdb_history::{GrvOpts, Issued, Priority, Record, Sequence, Tag};
use hex::FromHex;
use std::alloc::Global;
use std::fmt::Display;

/// A record with no lock, no metadata version and no minimum.
pub(crate) fn plain(version: u64) -> Record
    ensures { result.version ≡ version }
{
    Record {
        version,
        locked: false,
        metadata: None,
        min_known: 0,
    }
}

/// A record: its version, `locked` or `unlocked`, its metadata version in hex or `none`, and
/// perhaps `min` and its minimum.
pub(crate) fn record(line: &mut TableLine<'_>) -> Record {
    Record {
        version: line.number(),
        locked: line.is("locked", "unlocked"),
        metadata: <[u8; 10]>::from_hex(line.word()).ok(),
        min_known: line.number_behind("min"),
    }
}

/// An answer or an entry of the chain: its members in their order, the last as `fresh` or `kept`.
pub(crate) fn issued(line: &mut TableLine<'_>) -> Issued {
    Issued {
        ordinal: line.number(),
        proxy: line.who(),
        num: line.number(),
        processed: line.number(),
        prev: line.number(),
        version: line.number(),
        at: line.number(),
        fresh: line.is("fresh", "kept"),
    }
}

/// The options of a read without tags.
pub(crate) fn untagged(alloc: Global) -> GrvOpts {
    GrvOpts {
        priority: Priority::Batch,
        count: 7,
        tags: Sequence::new(alloc),
        lock_aware: true,
        at: u64::MAX,
        use_min: true,
    }
}

/// A tag of so many bytes, each of which is a `t`, unless memory is refused.
pub(crate) fn tag_of_bytes(line: &mut TableLine<'_>, bytes: u64) -> Tag {
    let mut tag = Sequence::new(line.alloc);
    for _ in 0..bytes {
        line.takes(tag.push(b't'));
    }
    tag
}

/// Says the cause of a refusal, or notes that memory was refused.
pub(crate) fn say_cause<E: Display + Drop>(line: &mut TableLine<'_>, cause: E, is_memory: bool) {
    match is_memory {
        true => line.refuse(),
        false => line.say(cause),
    }
}
