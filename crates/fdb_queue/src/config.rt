//! What a queue is made with, and the limits of it.

ghost use Rattle.std.specs.Prelude.{◌≡◌, ◌<◌, ◌⊎◌, ◌↔◌, IsTrue};
ghost use Rattle.std.specs.Bool.{OnTrue, OnFalse};
ghost use Rattle.fdb_queue.specs.Admission.{is_count};
ghost use Rattle.fdb_queue.specs.Config.{IsConfig, IsElapsed};
ghost use Rattle.fdb_queue.specs.NewRates.{refusal_under};

use crate::error::QueueError;
use crate::waiting::Req;
use fdb_history::Priority;

/// The microseconds over which a rate counts. A budget counts parts of a transaction, of which
/// `RATE_WINDOW` are one. FoundationDB: `START_TRANSACTION_RATE_WINDOW`, 2.0 seconds.
pub const RATE_WINDOW: u64 = 2_000_000;

/// The greatest limit of a rate, in transactions for each `RATE_WINDOW` of time.
pub const MAX_RATE: u64 = 100_000;

/// The greatest capacity of a queue, in requests of all priorities together.
pub const MAX_ROOM: u64 = 100_000;

/// The greatest count of a request, in transactions: no more than a rate ever lets start at once.
pub const MAX_COUNT: u64 = 100_000;

/// The greatest time between two windows, in microseconds.
pub const MAX_ELAPSED: u64 = 10_000_000;

/// The most requests that one window starts.
pub const MAX_STARTED: u64 = 10_000;

/// The most transactions that one window starts by a rate, and that a budget can stand for.
pub const MAX_BURST: u64 = 100_000;

/// The most transactions that the budget of a rate stands for while nothing waits for it.
pub const IDLE_BURST: u64 = 10;

/// The most bytes of a tag (`MAX_TRANSACTION_TAG_LENGTH` of FoundationDB 7.1).
pub const MAX_TAG: u64 = 16;

/// The rates of a queue, in transactions for each `RATE_WINDOW` of time, and its capacity.
#[derive(Clone, Copy, Debug, PartialEq, Eq)]
pub struct QueueConfig {
    /// The rate that holds back default and batch requests: 1 to `MAX_RATE`.
    pub normal: u64,
    /// The rate that holds back batch requests too: 0 to `MAX_RATE`. With 0 no batch request is let
    /// in.
    pub batch: u64,
    /// The capacity, which is the most requests that wait: 1 to `MAX_ROOM`.
    pub room: u64,
}

impl QueueConfig {
    /// Whether each member is in its range, without which no queue is made.
    pub fn is_in_range(&self) -> bool
        ensures { IsTrue result ↔ IsConfig self.now }
    {
        (1..=MAX_RATE).contains(&self.normal)
            && self.batch <= MAX_RATE
            && (1..=MAX_ROOM).contains(&self.room)
    }

    /// Whether a request of this priority may have this count.
    pub(crate) fn admits(&self, priority: Priority, count: u64) -> bool
        requires { IsConfig self.now }
        ensures { result ≡ is_count self.now priority count }
    {
        let in_range = (1..=MAX_COUNT).contains(&count);
        match priority {
            Priority::System | Priority::Default => in_range,
            Priority::Batch => in_range && count <= self.normal + IDLE_BURST,
        }
    }

    /// Why a request may not wait under it, if it may not, whatever else waits.
    #[tactic(auto, using(crate::proofs::Rerating::refusal_by_rates))]
    pub(crate) fn refusal_of<T>(&self, request: &Req<T>) -> Option<QueueError>
        requires { IsConfig self.now }
        ensures { result ≡ refusal_under self.now request.now }
    {
        if !self.admits(request.priority, request.count) {
            return Some(QueueError::BadCount);
        }
        if request.priority == Priority::Batch && self.batch == 0 {
            return Some(QueueError::BatchThrottled);
        }
        None
    }
}

/// Whether a time between two windows is from 1 to `MAX_ELAPSED` microseconds.
pub(crate) fn is_elapsed(elapsed: u64) -> bool
    ensures within { OnTrue result (IsElapsed elapsed) }
    ensures without { OnFalse result ((elapsed ≡ 0) ⊎ (MAX_ELAPSED < elapsed)) }
{
    (1..=MAX_ELAPSED).contains(&elapsed)
}
