//! Why a proxy or its desk refuses, and why a request is not started, as its refusal says it.

use fdb_queue::QueueError;
use std::alloc::AllocError;
use thiserror::Error;

/// Why a request is not taken, a batch not served, or a proxy not run to its end.
#[derive(Clone, Copy, Debug, PartialEq, Eq, Error)]
pub enum ProxyError {
    /// Memory was refused, to a request at a desk, a batch or a running proxy.
    #[error("out of memory")]
    Memory,
    /// The desk is closed, and takes no request any more.
    #[error("the proxy's desk is closed")]
    Closed,
}

impl From<AllocError> for ProxyError {
    ghost use Rattle.std.specs.Prelude.{◌≡◌};
    ghost use Rattle.fdb_proxy.specs.declared.error.ProxyError.TheVariants.{Memory};

    ghost from_gives = { λ _ cause. cause ≡ Memory };

    fn from(_refused: AllocError) -> Self {
        ProxyError::Memory
    }
}

/// Why a proxy does not start a request.
#[derive(Clone, Copy, Debug, PartialEq, Eq)]
pub enum Cause {
    /// The proxy's queue did not let the request in, or pushed it out as `Full`.
    Queue(QueueError),
    /// The proxy's desk was closed before the request started.
    Closed,
}
