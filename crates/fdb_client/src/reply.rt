//! A request at a proxy's desk, its reply, and what the client learns from it, logs and returns.

ghost use Rattle.std.specs.Prelude.{◌≡◌, ◌==◌, IfErr, IfOk, None, length, ◌≢◌, ℕ, ◌<◌, ◌≤◌, ◌++◌};
ghost use Rattle.std.specs.Prelude.{◌∷◌, [], Some, vec_len, vec_capacity};
ghost use Rattle.fdb_history.specs.Log.{position_after_calls};
ghost use Rattle.fdb_live.specs.Holding.{least_above, own_answers};
ghost use Rattle.fdb_live.specs.Seen.{IsBounded, IsNotBehind, last_record, own_positions};
ghost use mathlib.Core.List.{IsPrefix};
ghost use Rattle.fdb_client.specs.private.Exchange.{is_same, reply_to, id_of, answer_of};
ghost use Rattle.fdb_client.specs.private.Refusals.{IsOfRead};
ghost use Rattle.fdb_client.specs.Calls.{IsReadOf, Reads};
ghost use Rattle.fdb_client.specs.Returned.{ReadReturns};

use crate::error::ClientError;
use crate::journal::Journal;
use crossbeam_channel::{Receiver, Sender};
use fdb_history::{Call, CallAnswer, Gate, GrvOpts, Input, Place, Record, Sequence, TagLimit};
use fdb_live::{Live, Master, Seen};
use fdb_proxy::{Answer, Desk, Reply, Request};
use fdb_queue::Req;
use std::alloc::AllocError;
use std::sync::Wait;

/// A read version (`GetReadVersionReply` of FoundationDB 7.1; the position is this product's own).
#[derive(Debug, Drop, PartialEq, Eq)]
pub struct ReadVersion {
    /// The read version: the live committed version, or the minimum known one where the request
    /// asked for that.
    pub version: u64,
    /// The live committed version, with its lock flag, its metadata version and the minimum known
    /// committed version.
    pub rec: Record,
    /// The position of the read: the number of changes before it.
    pub position: u64,
    /// What throttles the request's tags, in their order.
    pub limits: Sequence<TagLimit>,
}

/// What the answer to a request has to carry: any other is the answer to another request.
#[derive(Clone, Copy, PartialEq, Eq)]
pub(crate) struct RequestId {
    pub(crate) client: u32,
    /// How many calls its log had when it asked.
    pub(crate) serial: u64,
    /// The position that it had seen when it asked.
    pub(crate) asked: u64,
}

impl RequestId {
    /// The id of a client's next request: the number of the request is the length of its log.
    pub(crate) fn next<S: Live>(client: u32, journal: &Journal, token: &Seen<S>) -> RequestId
        ensures client { result.client ≡ client }
        ensures serial { result.serial ≡ length journal.now.calls.items }
        ensures asked { result.asked ≡ length token.now.changes }
    {
        RequestId {
            client,
            serial: journal.len(),
            asked: token.position(),
        }
    }

    /// The request with this id: a token of what the client has seen, and where to send the answer.
    pub(crate) fn request<S: Live>(
        self,
        seen: Seen<S>,
        opts: GrvOpts,
        reply: Sender<Answer<S>>,
    ) -> Request<S>
        requires unnumbered { seen.reporter ≡ None }
        requires asked { self.asked ≡ length seen.changes }
        ensures client { result.client ≡ self.client }
        ensures serial { result.serial ≡ self.serial }
        ensures asked { result.asked ≡ self.asked }
        ensures seen { result.seen ≡ seen }
        ensures opts { result.opts ≡ opts }
    {
        Request {
            client: self.client,
            serial: self.serial,
            asked: self.asked,
            seen,
            opts,
            reply,
        }
    }
}

/// Leaves a request at a desk, and waits for what is answered. Once an answer has come, the gate's
/// `ReadAnswered` is passed with the request's client.
///
/// It is refused where the desk refuses the request, and as `ProxyClosed` where no answer comes.
pub(crate) fn answer_to<S: Live, R: Wait, G: Gate>(
    rt: &R,
    gate: &G,
    desk: &Desk<S>,
    request: Request<S>,
    answers: Receiver<Answer<S>>,
) -> Result<Answer<S>, ClientError>
    ensures { IfErr result IsOfRead }
{
    let client = request.client;
    let request = Req {
        priority: request.opts.priority,
        count: request.opts.count,
        payload: request,
    };
    if let Err((cause, _)) = desk.submit(rt, request) {
        return Err(ClientError::from(cause));
    }
    let Ok(answer) = answers.recv(rt) else {
        return Err(ClientError::ProxyClosed);
    };
    gate.pass(Place::ReadAnswered, client);
    Ok(answer)
}

/// What an answer comes to. Another's is a stranger's, whatever it says.
pub(crate) fn reply_to<S: Live>(own: RequestId, answer: Answer<S>) -> Result<Reply<S>, ClientError>
    ensures exact { result ≡ reply_to own answer }
    ensures client { IfOk result (λ reply. reply.client ≡ own.client) }
    ensures serial { IfOk result (λ reply. reply.serial ≡ own.serial) }
    ensures asked { IfOk result (λ reply. reply.asked ≡ own.asked) }
    ensures refused { IfErr result IsOfRead }
{
    if id_of(&answer) != own {
        return Err(ClientError::Stranger);
    }
    match answer {
        Answer::Reply(reply) => Ok(reply),
        Answer::Refused(refused) => Err(ClientError::from(refused.cause)),
    }
}

/// The id of the request that an answer is to.
fn id_of<S: Live>(answer: &Answer<S>) -> RequestId
    ensures { result ≡ id_of answer.now }
{
    match answer {
        Answer::Reply(reply) => RequestId {
            client: reply.client,
            serial: reply.serial,
            asked: reply.asked,
        },
        Answer::Refused(refused) => RequestId {
            client: refused.client,
            serial: refused.serial,
            asked: refused.asked,
        },
    }
}

/// Takes in the reply to a read, logs it, and gives what the read returns. Where memory is refused,
/// nothing has changed.
#[tactic(auto, using(crate::proofs::Reading::is_read, crate::proofs::Reading::not_behind_itself))]
pub(crate) fn take_reply<S: Live, R: Wait>(
    rt: &R,
    master: &Master<S>,
    token: &mut Seen<S>,
    journal: &mut Journal,
    opts: GrvOpts,
    reply: Reply<S>,
) -> Result<ReadVersion, ClientError>
    requires capacity { vec_len journal.old.calls < vec_capacity journal.old.calls }
    requires asked { reply.asked ≡ length token.old.changes }
    ensures entry { result ≢ Err ClientError.Memory
        → journal.new.calls.items ≡ journal.old.calls.items ++ record {
          input = Input.Grv opts;
          asked = reply.asked;
          position = reply.position;
          answer = answer_of reply opts;
        } ∷ [] }
    ensures returned { result ≢ Err ClientError.Memory
        → ReadReturns opts reply.position (answer_of reply opts) result }
    ensures logged { result ≢ Err ClientError.Memory → (number begun : ℕ)
        → token.old.reporter ≡ Some number
        → position_after_calls begun journal.old.calls.items ≡ length token.old.changes
        → Reads S.start opts
        (record {
          number = number;
          begun = begun;
          calls = journal.old.calls.items;
          answers = token.old.answers;
          changes = token.old.changes;
        })
        (record {
          number = number;
          begun = begun;
          calls = journal.new.calls.items;
          answers = token.new.answers;
          changes = token.new.changes;
        })
        result }
    ensures read { IfOk result (IsReadOf S.start opts token.old.changes token.new.changes) }
    ensures never_falls { IsNotBehind
        (last_record S.start token.old.changes)
        (last_record S.start token.new.changes) }
    ensures least { least_above token.old.answers ≤ least_above token.new.answers }
    ensures come_to { result ≢ Err ClientError.Memory
        → (begun : ℕ) → position_after_calls begun journal.new.calls.items
        ≡ length token.new.changes }
    ensures number { token.new.reporter ≡ token.old.reporter }
    ensures token { result ≡ Err ClientError.Memory → token.new ≡ token.old }
    ensures calls { result ≡ Err ClientError.Memory
        → journal.new.calls.items ≡ journal.old.calls.items }
{
    let locked_out = reply.rec.locked && !opts.lock_aware;
    let value = value_of(&reply, &opts, locked_out)?;
    let Reply {
        client: _,
        serial: _,
        asked,
        seen: told,
        rec,
        position,
        limits,
    } = reply;
    hear(rt, master, token, told);
    journal.add(Call {
        input: Input::Grv(opts),
        asked,
        position,
        answer: CallAnswer::Version {
            rec,
            limits,
            locked_out,
        },
    });
    value
}

/// Learns what a reply has seen, which is no less.
#[tactic(auto, using(crate::proofs::Longer::longer_of_no_less))]
fn hear<S: Live, R: Wait>(rt: &R, master: &Master<S>, token: &mut Seen<S>, told: Seen<S>)
    requires unnumbered { told.reporter ≡ None }
    requires no_less { length token.old.changes ≤ length told.changes }
    ensures number { token.new.reporter ≡ token.old.reporter }
    ensures changes { token.new.changes ≡ told.changes }
    ensures extends { IsPrefix token.old.changes token.new.changes }
    ensures answers { IsPrefix token.old.answers token.new.answers }
    ensures least { least_above token.old.answers ≤ least_above token.new.answers }
    ensures own { own_answers token.new ≡ own_answers token.old }
    ensures own_changes { own_positions token.new
        ≡ own_positions token.old }
    ensures never_falls { IsNotBehind
        (last_record S.start token.old.changes)
        (last_record S.start token.new.changes) }
    ensures bounded { IsBounded
        (length token.new.changes)
        (last_record S.start token.new.changes) }
{
    master.record().learn(rt, token, told);
}

/// What a read returns for its reply. It takes memory for a copy of the limits alone.
fn value_of<S: Live>(
    reply: &Reply<S>,
    opts: &GrvOpts,
    locked_out: bool,
) -> Result<Result<ReadVersion, ClientError>, AllocError>
    ensures value { IfOk result (ReadReturns opts.now reply.now.position
        (CallAnswer.Version reply.now.rec reply.now.limits locked_out)) }
    ensures not_memory { IfOk result (λ value. value ≢ Err ClientError.Memory) }
{
    if locked_out {
        return Ok(Err(ClientError::Locked {
            version: reply.rec.version,
        }));
    }
    Ok(Ok(ReadVersion {
        version: reply.rec.version_for(opts.use_min),
        rec: reply.rec,
        position: reply.position,
        limits: reply.limits.clone()?,
    }))
}
