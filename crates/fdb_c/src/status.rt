//! What a call answers: 0, or the number of a refusal; and which version of the library this is.

ghost use Rattle.std.specs.Prelude.{◌≡◌, Some, if◌then◌else◌};
ghost use Rattle.fdb_c.specs.Queue.{status_of};

use fdb_queue::QueueError;

/// Done.
pub const FDB_OK: u8 = 0;

/// The recovery version is not above the end of the epoch before, or above the greatest version.
pub const FDB_BAD_EPOCH: u8 = 1;

/// The number of commit proxies is out of range.
pub const FDB_NO_PROXY: u8 = 2;

/// There is no such commit proxy.
pub const FDB_UNKNOWN_PROXY: u8 = 3;

/// The request's number is beyond the next one of its proxy.
pub const FDB_EARLY: u8 = 4;

/// The answer is not kept any more.
pub const FDB_FORGOTTEN: u8 = 5;

/// The versions are used up.
pub const FDB_EXHAUSTED: u8 = 6;

/// Memory was refused.
pub const FDB_MEMORY: u8 = 7;

/// There is no room for the answers.
pub const FDB_ROOM: u8 = 8;

/// There is no such operation, or no such priority.
pub const FDB_BAD_OP: u8 = 16;

/// The configuration, or the time since the last window, is out of range.
pub const FDB_BAD_CONFIG: u8 = 17;

/// The request's count is out of range.
pub const FDB_BAD_COUNT: u8 = 18;

/// No batch request is let in.
pub const FDB_BATCH_THROTTLED: u8 = 19;

/// The queue is full of requests that this one may not push out.
pub const FDB_FULL: u8 = 20;

/// The tag is too long.
pub const FDB_TAG_TOO_LONG: u8 = 21;

/// No history explains the log: it has a fault.
pub const FDB_FAULT: u8 = 32;

/// A line has more bytes than a line may have.
pub const FDB_TOO_LONG: u8 = 33;

/// There are more lines than a log may have.
pub const FDB_TOO_MANY: u8 = 34;

/// A line is no JSON.
pub const FDB_NOT_JSON: u8 = 35;

/// A line has none of the members that name a call, or a call is of no kind.
pub const FDB_NO_CALL: u8 = 36;

/// A line has more than one of the members that name a call.
pub const FDB_TWO_CALLS: u8 = 37;

/// Some lines have times, and some have none.
pub const FDB_SOME_TIMES: u8 = 38;

/// A member of a line is missing, of another kind, or not one that may stand there.
pub const FDB_BAD_MEMBER: u8 = 39;

/// The text of a log has no line.
pub const FDB_EMPTY: u8 = 40;

/// The audit or the watch is over: its log has ended or was refused, or memory was.
pub const FDB_OVER: u8 = 41;

/// No fault was told of a log that was watched, but lines came that had begun before what was
/// settled by then: not all of it was judged.
pub const FDB_UNJUDGED: u8 = 42;

/// A text is not one of lines that were kept by these arguments.
pub const FDB_NOT_KEPT: u8 = 43;

/// The status of what was written, if there was room for it.
pub(crate) fn status_of_writing(is_written: bool) -> u8
    ensures { result ≡ (if is_written then FDB_OK else FDB_ROOM) }
{
    if is_written { FDB_OK } else { FDB_ROOM }
}

/// The number of a queue's refusal.
pub(crate) fn status_of(cause: QueueError) -> u8
    ensures { result ≡ status_of (Some cause) }
{
    match cause {
        QueueError::BadConfig => FDB_BAD_CONFIG,
        QueueError::BadCount => FDB_BAD_COUNT,
        QueueError::BatchThrottled => FDB_BATCH_THROTTLED,
        QueueError::Full => FDB_FULL,
        QueueError::TagTooLong => FDB_TAG_TOO_LONG,
        QueueError::Memory => FDB_MEMORY,
    }
}

/// The version, 0.4.0: 10,000 for a major one, 100 for a minor one, 1 for a patch.
#[unsafe(no_mangle)]
pub extern "C" fn fdb_read_version_version() -> u32
    ensures { result ≡ 400 }
{
    400
}
