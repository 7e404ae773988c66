//! The log of a client: each of its calls, with what it asked, had seen and was answered.

use crate::chain::Issued;
use crate::register::Record;
use crate::sequence::Sequence;
use std::alloc::AllocError;
use std::error::Error;
use std::fmt;

/// The priority of a request, and with it its queue at the GRV proxy (`TransactionPriority`).
#[derive(Clone, Copy, Debug, PartialEq, Eq)]
pub enum Priority {
    /// `IMMEDIATE`: no rate holds such a request back, and it starts before all others.
    System,
    /// `DEFAULT`: the normal rate holds such a request back, and it starts before batch requests.
    Default,
    /// `BATCH`: both rates hold such a request back, and it is the first to be pushed out of a full
    /// queue.
    Batch,
}

/// The bytes of a transaction tag (`TransactionTag`).
pub type Tag = Sequence<u8>;

/// A throttle as a client is told of it (`ClientTagThrottleLimits`).
#[derive(Clone, Debug, Drop, PartialEq, Eq)]
pub struct TagLimit {
    pub tag: Tag,
    /// How many transactions with the tag may start a second (`tpsRate`).
    pub rate: u64,
    /// The moment from which on it holds no longer, in microseconds.
    pub expires: u64,
}

/// What a client says with a request for a read version (`GetReadVersionRequest`).
#[derive(Debug, Drop, PartialEq, Eq)]
pub struct GrvOpts {
    pub priority: Priority,
    /// How many transactions the request stands for.
    pub count: u64,
    /// The transactions' tags, whose throttles the answer tells in this order.
    pub tags: Sequence<Tag>,
    /// Whether the client may go on when the database is locked.
    pub lock_aware: bool,
    /// The moment of the request, in microseconds.
    pub at: u64,
    /// Whether the read version is to be the minimum known committed version, and not the live
    /// one. No queue looks at it. (this product's own)
    pub use_min: bool,
}

impl Clone for GrvOpts {
    ghost use Rattle.std.specs.Prelude.{◌≡◌};

    ghost is_clone = { λ opts copy. copy ≡ opts };

    fn clone(&self) -> Result<Self, AllocError> {
        Ok(GrvOpts {
            priority: self.priority,
            count: self.count,
            tags: self.tags.clone()?,
            lock_aware: self.lock_aware,
            at: self.at,
            use_min: self.use_min,
        })
    }
}

/// What a client called. It asks as the commit proxy that has its own number.
#[derive(Debug, Drop)]
pub enum Input {
    /// The client asked a GRV proxy for a read version.
    Grv(GrvOpts),
    /// The client asked the sequencer for a commit version, for the first time or again.
    Ask {
        num: u64,
        /// The client needs no answer up to this number any more.
        processed: u64,
        /// The moment of the request, in microseconds.
        at: u64,
    },
    /// The client reported the commit version that it had got under the number `num`.
    Report {
        num: u64,
        /// Whether the database is locked from this version on.
        locked: bool,
        /// The metadata version, if there is one.
        metadata: Option<[u8; 10]>,
        /// The minimum known committed version, 0 where none is told.
        min_known: u64,
    },
    /// The client told another client what it has seen.
    Tell {
        to: u32,
    },
    /// The client learnt what another client had seen.
    Learn {
        from: u32,
    },
}

/// What a call was answered: of the kind of its [`Input`], or a refusal.
#[derive(Debug, Drop)]
pub enum CallAnswer {
    /// A read: the live record, and what throttles the tags of the request.
    Version {
        /// The record that was read, of which the client's options name the read version.
        rec: Record,
        /// The throttles of the request's tags that had not expired at its moment.
        limits: Sequence<TagLimit>,
        /// Whether the client was turned away because the database is locked.
        locked_out: bool,
    },
    /// A commit version, drawn for this call or kept from an earlier one.
    Answered(Issued),
    /// A report was acknowledged, whether or not it was newer than the register.
    Acked {
        /// What was reported: the version under the call's number, with what the call said of it.
        rec: Record,
        /// Whether the report raised the live committed version.
        raised: bool,
        /// Whether the report raised the live committed version or the minimum known committed
        /// version.
        changed: bool,
    },
    /// A tell or a learn was done.
    Told,
    /// The call was refused, and changed nothing.
    Refused(Refusal),
}

/// Why a call was refused, and so changed nothing.
#[derive(Clone, Copy, Debug, PartialEq, Eq)]
pub enum Refusal {
    /// The request's number is beyond the next one of its proxy.
    Early {
        /// The next number of that proxy, one above its latest.
        expected: u64,
    },
    /// The answer under this number is not kept any more.
    Forgotten,
    /// The commit proxy's number is not below the number of commit proxies.
    UnknownProxy,
    /// The next version would be above `MAX_VERSION`.
    Exhausted,
    /// The count of a read is none that could ever start.
    BadCount,
    /// A batch request was not let in, since the batch limit is 0.
    BatchThrottled,
    /// The queue was full of requests that this one could not push out, or it was pushed out.
    Full,
    /// The GRV proxy was closed before the request started.
    ProxyClosed,
    /// The client has no commit version under this number.
    NotIssued,
    /// An answer came that was another call's.
    Stranger,
    /// A reported version is above `MAX_VERSION`, which none that was drawn is.
    TooLarge,
    /// A report's minimum known committed version is above its version.
    MinAbove,
}

/// The refusal's name, and the number that it tells.
impl fmt::Display for Refusal {
    ghost use Rattle.std.specs.Prelude.{Some};
    ghost use Rattle.fdb_history.specs.Text.{refusal_text};

    ghost output = { λ cause. Some (refusal_text cause) };

    fn fmt<W: fmt::Write>(&self, f: &mut fmt::Formatter<W>) -> fmt::Result {
        let name = match self {
            Refusal::Early { expected } => return write!(f, "Early {expected}"),
            Refusal::Forgotten => "Forgotten",
            Refusal::UnknownProxy => "UnknownProxy",
            Refusal::Exhausted => "Exhausted",
            Refusal::BadCount => "BadCount",
            Refusal::BatchThrottled => "BatchThrottled",
            Refusal::Full => "Full",
            Refusal::ProxyClosed => "ProxyClosed",
            Refusal::NotIssued => "NotIssued",
            Refusal::Stranger => "Stranger",
            Refusal::TooLarge => "TooLarge",
            Refusal::MinAbove => "MinAbove",
        };
        f.write_str(name)
    }
}

impl Error for Refusal {}

/// One call of a client. A position is the number of changes that had been seen.
#[derive(Debug, Drop)]
pub struct Call {
    pub input: Input,
    /// The position that the client had come to before the call.
    pub asked: u64,
    /// The position that the client had come to after the call, at least as great as `asked` unless
    /// the log has a fault.
    pub position: u64,
    pub answer: CallAnswer,
}

/// What one client called, one call after another.
#[derive(Debug, Drop)]
pub struct ClientLog {
    pub calls: Sequence<Call>,
}
