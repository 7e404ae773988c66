//! Why a call of a client has no answer that serves it.

ghost use Rattle.std.specs.Prelude.{◌≡◌, IfSome};
ghost use Rattle.fdb_client.specs.Returned.{error_of};
ghost use Rattle.fdb_client.specs.private.Refusals.{refusal_for};

use fdb_chain::ChainError;
use fdb_history::Refusal;
use fdb_live::LiveError;
use fdb_proxy::{Cause, ProxyError};
use fdb_queue::QueueError;
use std::alloc::AllocError;
use thiserror::Error;

/// Why a call of a client has no answer that serves it.
#[derive(Clone, Copy, Debug, PartialEq, Eq, Error)]
pub enum ClientError {
    /// The database is locked, and the read is not lock-aware. The read took place.
    #[error("the database is locked at version {version}")]
    Locked {
        /// The live committed version that was read, which is all that the caller gets of it.
        version: u64,
    },
    /// The answer that came is another call's.
    #[error("the answer is another call's")]
    Stranger,
    /// The GRV proxy's desk is closed, or the proxy went without an answer.
    #[error("the GRV proxy is closed")]
    ProxyClosed,
    /// The sequencer refused the request; not for memory, which is `Memory`.
    #[error(transparent)]
    Chain(ChainError),
    /// The GRV proxy's queue refused the request; not for memory, which is `Memory`.
    #[error(transparent)]
    Queue(QueueError),
    /// The client has no commit version under this number.
    #[error("no commit version was issued under this number")]
    NotIssued,
    /// The live record refused the report: its minimum known committed version is above its
    /// version.
    #[error(transparent)]
    Live(LiveError),
    /// Memory was refused. The call is not logged; an ask may have shown the client more answers.
    #[error("out of memory")]
    Memory,
}

impl From<AllocError> for ClientError {
    ghost use Rattle.std.specs.Prelude.{◌≡◌};
    ghost use Rattle.fdb_client.specs.declared.error.ClientError.TheVariants.{Memory};

    ghost from_gives = { λ _ cause. cause ≡ Memory };

    fn from(_refused: AllocError) -> Self {
        ClientError::Memory
    }
}

impl From<ProxyError> for ClientError {
    ghost use Rattle.std.specs.Prelude.{◌≡◌};
    ghost use Rattle.fdb_client.specs.Returned.{error_of_desk};

    ghost from_gives = { λ cause error. error ≡ error_of_desk cause };

    fn from(cause: ProxyError) -> Self {
        match cause {
            ProxyError::Memory => ClientError::Memory,
            ProxyError::Closed => ClientError::ProxyClosed,
        }
    }
}

impl From<Cause> for ClientError {
    ghost use Rattle.std.specs.Prelude.{◌≡◌};
    ghost use Rattle.fdb_client.specs.Returned.{error_of_proxy};

    ghost from_gives = { λ cause error. error ≡ error_of_proxy cause };

    fn from(cause: Cause) -> Self {
        match cause {
            Cause::Queue(QueueError::Memory) => ClientError::Memory,
            Cause::Queue(cause) => ClientError::Queue(cause),
            Cause::Closed => ClientError::ProxyClosed,
        }
    }
}

impl From<ChainError> for ClientError {
    ghost use Rattle.std.specs.Prelude.{◌≡◌};
    ghost use Rattle.fdb_client.specs.Returned.{error_of_sequencer};

    ghost from_gives = { λ cause error. error ≡ error_of_sequencer cause };

    fn from(cause: ChainError) -> Self {
        match cause {
            ChainError::Memory => ClientError::Memory,
            cause => ClientError::Chain(cause),
        }
    }
}

impl ClientError {
    /// How a call that is refused so is logged: not at all, where memory was refused.
    pub(crate) fn refusal(self) -> Option<Refusal>
        ensures value { result ≡ refusal_for self }
        ensures error { IfSome result (λ cause. self ≡ error_of cause) }
    {
        match self {
            ClientError::Chain(ChainError::Early { expected }) => Some(Refusal::Early { expected }),
            ClientError::Chain(ChainError::Forgotten) => Some(Refusal::Forgotten),
            ClientError::Chain(ChainError::UnknownProxy) => Some(Refusal::UnknownProxy),
            ClientError::Chain(ChainError::Exhausted) => Some(Refusal::Exhausted),
            ClientError::Queue(QueueError::BadCount) => Some(Refusal::BadCount),
            ClientError::Queue(QueueError::BatchThrottled) => Some(Refusal::BatchThrottled),
            ClientError::Queue(QueueError::Full) => Some(Refusal::Full),
            ClientError::ProxyClosed => Some(Refusal::ProxyClosed),
            ClientError::NotIssued => Some(Refusal::NotIssued),
            ClientError::Stranger => Some(Refusal::Stranger),
            ClientError::Live(LiveError::TooLarge) => Some(Refusal::TooLarge),
            ClientError::Live(LiveError::MinAbove) => Some(Refusal::MinAbove),
            _ => None,
        }
    }
}
