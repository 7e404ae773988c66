//! Why a queue refuses a configuration, a request, a throttle or a window.

use std::alloc::AllocError;
use std::error::Error;
use std::fmt;

/// Why a queue is not made, a request not let in, or a window not held.
#[derive(Clone, Copy, Debug, PartialEq, Eq)]
pub enum QueueError {
    /// A rate, the capacity or the time since the last window is out of range.
    BadConfig,
    /// The request's count is not 1 to `MAX_COUNT`; or it is that of a batch request, and above the
    /// normal rate by more than `IDLE_BURST`, so that the request might never start.
    BadCount,
    /// No batch request is let in, since the batch limit is 0.
    BatchThrottled,
    /// The queue is full of requests that may not be pushed out by this one.
    Full,
    /// A tag has more than `MAX_TAG` bytes.
    TagTooLong,
    /// Memory was refused, and the queue is as it was.
    Memory,
}

impl fmt::Display for QueueError {
    fn fmt<W: fmt::Write>(&self, f: &mut fmt::Formatter<W>) -> fmt::Result {
        f.write_str(match self {
            QueueError::BadConfig => "the configuration is out of range",
            QueueError::BadCount => "the request's count is out of range",
            QueueError::BatchThrottled => "batch requests are not let in",
            QueueError::Full => "the queue is full",
            QueueError::TagTooLong => "the tag is too long",
            QueueError::Memory => "out of memory",
        })
    }
}

impl Error for QueueError {}

impl From<AllocError> for QueueError {
    ghost use Rattle.std.specs.Prelude.{◌≡◌};
    ghost use Rattle.fdb_queue.specs.declared.error.QueueError.TheVariants.{Memory};

    ghost from_gives = { λ _ cause. cause ≡ Memory };

    fn from(_refused: AllocError) -> Self {
        QueueError::Memory
    }
}
