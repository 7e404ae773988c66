//! What a client asks of a proxy, new rates for it, and what it answers: a reply with the live
//! record, or a refusal.

ghost use Rattle.std.specs.Prelude.{◌≡◌, length, None, true, ◌↔◌, IfSome, IsSome, ◌≤◌, IfErr, OnOk};
ghost use Rattle.fdb_live.specs.Seen.{last_record};
ghost use Rattle.fdb_proxy.specs.Cause.{may_be_refused_for};
ghost use Rattle.fdb_proxy.specs.Rates.{AreRates};

use crate::error::{Cause, ProxyError};
use crossbeam_channel::{SendError, Sender};
use fdb_history::{GrvOpts, Record, Sequence, TagLimit};
use fdb_live::{Live, Seen};
use fdb_queue::MAX_RATE;
use std::sync::Wait;

/// A request for a read version (`GetReadVersionRequest` of FoundationDB 7.1; all but the options
/// is this product's own).
#[derive(Drop)]
pub struct Request<S: Live> {
    pub client: u32,
    /// The client's own number for the request: in `fdb_client`, the place of the call in its log.
    pub serial: u64,
    /// The position that the client has seen: that of its token.
    pub asked: u64,
    /// A token of what it has seen, split off its own.
    pub seen: Seen<S>,
    pub opts: GrvOpts,
    /// Where the answer goes. The channel is made for this request, with room for one answer.
    pub reply: Sender<Answer<S>>,
    pub ghost unnumbered: { seen.reporter ≡ None },
    pub ghost position: { asked ≡ length seen.changes },
}

impl<S: Live> Request<S> {
    /// The answer that it does not start, and where that goes.
    pub(crate) fn refused(self, cause: Cause) -> (Sender<Answer<S>>, Refused<S>)
        requires { may_be_refused_for cause ≡ true }
        ensures client { result.1.client ≡ self.client }
        ensures serial { result.1.serial ≡ self.serial }
        ensures asked { result.1.asked ≡ self.asked }
        ensures seen { result.1.seen ≡ self.seen }
        ensures cause { result.1.cause ≡ cause }
    {
        let Request {
            client,
            serial,
            asked,
            seen,
            opts: _,
            reply,
        } = self;
        let refused = Refused {
            client,
            serial,
            asked,
            seen,
            cause,
        };
        (reply, refused)
    }
}

/// The limits of a proxy's two rates, in the units of `QueueConfig` (`GetRateInfoReply`,
/// FoundationDB 7.1: `transactionRate` and `batchTransactionRate`). Each is in its range.
#[derive(Clone, Copy, Debug, PartialEq, Eq)]
pub struct Rates {
    /// The rate that holds back default and batch requests: 1 to `MAX_RATE`.
    pub normal: u64,
    /// The rate that holds back batch requests too: 0 to `MAX_RATE`. With 0 no batch request is let
    /// in.
    pub batch: u64,
    pub ghost in_range: { AreRates normal batch },
}

impl Rates {
    /// These limits, unless one is out of its range.
    pub fn new(normal: u64, batch: u64) -> Option<Rates>
        ensures in_range { IsSome result ↔ AreRates normal batch }
        ensures made { IfSome result (λ rates. (rates.normal ≡ normal) × (rates.batch ≡ batch)) }
    {
        if (1..=MAX_RATE).contains(&normal) && batch <= MAX_RATE {
            return Some(Rates { normal, batch });
        }
        None
    }
}

/// What comes back on the channel of a request for a read version.
#[derive(Drop)]
pub enum Answer<S: Live> {
    /// The transactions start, and with this read version.
    Reply(Reply<S>),
    /// The transactions do not start, and the token comes back.
    Refused(Refused<S>),
}

/// A read version, and whose request it answers (`GetReadVersionReply` of GrvProxyServer,
/// FoundationDB 7.1; the request's own numbers, the token and the position are this product's own).
#[derive(Drop)]
pub struct Reply<S: Live> {
    pub client: u32,
    pub serial: u64,
    /// The position that the client had seen when it asked.
    pub asked: u64,
    /// What the client has seen with this reply: all that it had seen when it asked, and the record
    /// that it got.
    pub seen: Seen<S>,
    /// The record, with the live committed version and the minimum known committed version: whoever
    /// asked takes the one that its options name.
    pub rec: Record,
    /// The position of the record: the number of changes by then.
    pub position: u64,
    /// What throttles the request's tags, in their order.
    pub limits: Sequence<TagLimit>,
    pub ghost unnumbered: { seen.reporter ≡ None },
    pub ghost last: { rec ≡ last_record S.start seen.changes },
    pub ghost at: { position ≡ length seen.changes },
    pub ghost not_below: { asked ≤ position },
}

/// A reply, and the channel of the request that it answers.
#[derive(Drop)]
pub struct Addressed<S: Live> {
    pub to: Sender<Answer<S>>,
    pub reply: Reply<S>,
}

/// A request that does not start, and why. Its token comes back as it was.
#[derive(Drop)]
pub struct Refused<S: Live> {
    pub client: u32,
    pub serial: u64,
    /// The position that the client had seen when it asked.
    pub asked: u64,
    pub seen: Seen<S>,
    pub cause: Cause,
    pub ghost unnumbered: { seen.reporter ≡ None },
    pub ghost position: { asked ≡ length seen.changes },
    pub ghost due: { may_be_refused_for cause ≡ true },
}

/// What sends answers. No clause knows what a channel holds: so what is proved of a proxy is proved
/// for whatever an answer that is sent may bring about, and says which answers were sent.
pub(crate) trait Outbox<T> {
    // An answer leads from what it was to what it is.
    ghost sends: { Self → T → Self → Type 0 };

    /// Sends an answer. One that nobody waits for any more is dropped.
    ///
    /// It is refused for memory alone.
    fn send<R: Wait>(&mut self, rt: &R, reply: &Sender<T>, answer: T) -> Result<(), ProxyError>
        ensures sent { OnOk result (sends self.old answer self.new) }
        ensures memory { IfErr result (λ cause. cause ≡ ProxyError.Memory) };
}

/// The channels that the requests brought along, to which a running proxy sends.
#[derive(Drop)]
pub(crate) struct Channels;

impl<T: Drop> Outbox<T> for Channels {
    ghost use Rattle.std.specs.Prelude.{⊤};

    ghost sends = { λ _ _ _. ⊤ };

    fn send<R: Wait>(&mut self, rt: &R, reply: &Sender<T>, answer: T) -> Result<(), ProxyError> {
        match reply.send(rt, answer) {
            Ok(()) | Err(SendError::Disconnected(_)) => Ok(()),
            Err(SendError::OutOfMemory(_)) => Err(ProxyError::Memory),
        }
    }
}
