//! A GRV proxy, which serves its desk in turns until that is closed.

ghost use Rattle.std.specs.Prelude.{◌≡◌, [], All, IfOk, IfErr, OnOk, true};
ghost use mathlib.Core.List.{IsPrefix};
ghost use Rattle.fdb_queue.specs.Config.{IsElapsed};
ghost use Rattle.fdb_queue.specs.Waiting.{row};
ghost use Rattle.fdb_proxy.specs.Cause.{is_of_an_offer, may_be_refused_for};
ghost use Rattle.fdb_proxy.specs.private.Sent.{AreClosed, AreReplied, AreTurnedAway, IsRefused};
ghost use Rattle.fdb_proxy.specs.private.Sent.{IsRerated, IsServed, IsTakenServed};
ghost use Rattle.fdb_proxy.specs.private.Turn.{emptied};

use crate::batch;
use crate::desk::{Desk, Taken};
use crate::error::{Cause, ProxyError};
use crate::request::{Addressed, Answer, Channels, Outbox, Rates, Request};
use crate::turn::{TimedQueue, Turn};
use fdb_live::{Live, LiveRecord, Seen};
use fdb_queue::{GrvQueue, Req, TurnedAway};
use std::alloc::Global;
use std::marker::Model;
use std::sync::Wait;

/// A GRV proxy: it takes requests from its desk, lets them wait in its queue until their window,
/// and answers those that start together with one read of the live record (`grvProxyServer` and
/// `transactionStarter`, FoundationDB 7.1).
///
/// Contracts see it as what it has seen, what its queue was made with, the throttles that were set
/// there, and the time between two of its windows.
#[derive(Drop)]
pub struct GrvProxy<'a, S: Live> {
    desk: &'a Desk<S>,
    server: Server<'a, S>,
}

impl<'a, S: Live> Model for GrvProxy<'a, S> {
    ghost use Rattle.fdb_proxy.specs.Proxy.{Proxy};

    ghost Value = { Proxy };

    ghost view = { λ proxy.
        record {
          seen = proxy.server.seen;
          config = proxy.server.line.queue.config;
          throttles = proxy.server.line.queue.throttles;
          elapsed = proxy.server.line.elapsed;
        } };
}

impl<'a, S: Live> GrvProxy<'a, S> {
    /// A proxy between a desk and the live record, with its queue, the time between two of its
    /// windows in microseconds, and a token. Takes no memory.
    pub fn new(
        alloc: Global,
        live: &'a LiveRecord<S>,
        desk: &'a Desk<S>,
        queue: GrvQueue<Request<S>>,
        elapsed: u64,
        seen: Seen<S>,
    ) -> Self
        requires { IsElapsed elapsed }
        ensures { result ≡ record {
          seen = seen;
          config = queue.config;
          throttles = queue.throttles;
          elapsed = elapsed;
        } }
    {
        let server = Server {
            alloc,
            live,
            line: TimedQueue { queue, elapsed },
            seen,
        };
        GrvProxy { desk, server }
    }

    /// Serves the desk until it is closed, and gives back the token.
    ///
    /// In each turn it takes what waits at the desk, and waits there only where its queue is
    /// empty. New rates hold first, and whoever may not wait under them is refused. It then offers each request to the queue, holds one window, and serves what started as
    /// one batch. Where nothing came, the windows that start nothing before the head of its
    /// queue may start are held at once, in constant time, and then one more. A request that
    /// was refused or pushed out is answered so. Once the desk is closed it has one more turn,
    /// and then answers all that is left `Closed`. An answer whose receiver is gone is dropped.
    ///
    /// Where memory is refused to itself, or to the sending of an answer, it closes the desk, drops
    /// what it holds and what waits there, and ends with `Memory`. In an offer it is the request
    /// that is refused so, and the proxy goes on.
    pub fn run<R: Wait>(self, rt: &R) -> Result<Seen<S>, (ProxyError, Seen<S>)>
        ensures reporter { IfOk result (λ seen. seen.reporter ≡ self.entry.seen.reporter) }
        ensures extends { IfOk result (λ seen. IsPrefix self.entry.seen.changes seen.changes) }
        ensures memory { IfErr result (λ ended. ended.0 ≡ ProxyError.Memory) }
        ensures reporter_back { IfErr result
            (λ ended. ended.1.reporter ≡ self.entry.seen.reporter) }
        ensures extends_back { IfErr result
            (λ ended. IsPrefix self.entry.seen.changes ended.1.changes) }
    {
        let GrvProxy { desk, mut server } = self;
        let mut out = Channels;
        match server.serve_desk(rt, desk, &mut out) {
            Ok(()) => Ok(server.seen),
            Err(cause) => {
                drop_last(desk.close_and_take(rt));
                Err((cause, server.seen))
            }
        }
    }
}

/// Drops what a desk gave last, unanswered. None comes after it.
fn drop_last<S: Live>(taken: Taken<S>)
    requires { taken.closed ≡ true }
{
    drop(taken);
}

/// What a GRV proxy serves its desk with: its queue, the live record, and what it has seen of that.
#[derive(Drop)]
struct Server<'a, S: Live> {
    alloc: Global,
    live: &'a LiveRecord<S>,
    line: TimedQueue<Request<S>>,
    seen: Seen<S>,
}

impl<S: Live> Server<'_, S> {
    /// Has turn after turn with what comes to a desk, until that is closed and nobody is left.
    fn serve_desk<R: Wait, O: Outbox<Answer<S>>>(
        &mut self,
        rt: &R,
        desk: &Desk<S>,
        out: &mut O,
    ) -> Result<(), ProxyError>
        ensures left { OnOk result (row self.new.line.queue.waiting ≡ []) }
        ensures elapsed { OnOk result (self.new.line.elapsed ≡ self.old.line.elapsed) }
        ensures reporter { self.new.seen.reporter ≡ self.old.seen.reporter }
        ensures extends { IsPrefix self.old.seen.changes self.new.seen.changes }
        ensures memory { IfErr result (λ cause. cause ≡ ProxyError.Memory) }
    {
        for _ in rt.forever() {
            let taken = desk.take(rt, self.line.is_empty());
            let last = self.serve_taken(rt, out, taken)?;
            if last {
                return Ok(());
            }
        }
        unreachable!()
    }

    /// Has one turn with what was taken from a desk, under the new rates if there are some. Where the
    /// desk is closed the turn is the last one, as is answered, and all that are left are answered
    /// too.
    fn serve_taken<R: Wait, O: Outbox<Answer<S>>>(
        &mut self,
        rt: &R,
        out: &mut O,
        taken: Taken<S>,
    ) -> Result<bool, ProxyError>
        ensures last { IfOk result (λ last. last ≡ taken.closed) }
        ensures served { OnOk result (IsTakenServed O.sends taken.rates taken.closed
            self.old.line.elapsed self.old.line.queue taken.requests.items
            self.new.seen.changes self.new.line.queue out.old out.new) }
        ensures elapsed { OnOk result (self.new.line.elapsed ≡ self.old.line.elapsed) }
        ensures left { taken.closed ≡ true → OnOk result (row self.new.line.queue.waiting ≡ []) }
        ensures reporter { self.new.seen.reporter ≡ self.old.seen.reporter }
        ensures extends { IsPrefix self.old.seen.changes self.new.seen.changes }
        ensures memory { IfErr result (λ cause. cause ≡ ProxyError.Memory) }
    {
        let Taken {
            requests,
            closed,
            rates,
        } = taken;
        self.take_rates(rt, out, rates)?;
        self.serve_turn(rt, out, requests)?;
        if closed {
            close(rt, out, &mut self.line)?;
        }
        Ok(closed)
    }

    /// Takes on new rates, if there are some, and refuses all that may not wait under them.
    fn take_rates<R: Wait, O: Outbox<Answer<S>>>(
        &mut self,
        rt: &R,
        out: &mut O,
        rates: Option<Rates>,
    ) -> Result<(), ProxyError>
        ensures rerated { OnOk result
            (IsRerated O.sends rates self.old.line.queue self.new.line.queue out.old out.new) }
        ensures elapsed { self.new.line.elapsed ≡ self.old.line.elapsed }
        ensures seen { self.new.seen ≡ self.old.seen }
        ensures memory { IfErr result (λ cause. cause ≡ ProxyError.Memory) }
    {
        let Some(rates) = rates else {
            return Ok(());
        };
        let gone = self.line.set_rates(rates)?;
        turn_away(rt, out, gone)
    }

    /// Has one turn with some requests, and answers all that it decides.
    fn serve_turn<R: Wait, O: Outbox<Answer<S>>>(
        &mut self,
        rt: &R,
        out: &mut O,
        requests: Vec<Req<Request<S>>>,
    ) -> Result<(), ProxyError>
        ensures served { OnOk result
            (IsServed O.sends self.old.line.elapsed self.old.line.queue requests.items
            self.new.seen.changes self.new.line.queue out.old out.new) }
        ensures elapsed { OnOk result (self.new.line.elapsed ≡ self.old.line.elapsed) }
        ensures reporter { self.new.seen.reporter ≡ self.old.seen.reporter }
        ensures extends { IsPrefix self.old.seen.changes self.new.seen.changes }
        ensures memory { IfErr result (λ cause. cause ≡ ProxyError.Memory) }
    {
        let room = Vec::with_capacity(self.alloc, requests.len())?;
        let Turn {
            started,
            turned_away,
        } = self.line.turn(requests, room)?;
        turn_away(rt, out, turned_away)?;
        let (line, seen) = (&self.line, &mut self.seen);
        match batch::serve_batch(rt, self.alloc, self.live, seen, &line.queue, started) {
            Ok(replies) => send_replies(rt, out, replies),
            Err((cause, _)) => Err(cause),
        }
    }
}

/// Sends their refusals to those that a turn turned away, in the order in which it did.
fn turn_away<S: Live, R: Wait, O: Outbox<Answer<S>>>(
    rt: &R,
    out: &mut O,
    turned_away: Vec<TurnedAway<Request<S>>>,
) -> Result<(), ProxyError>
    requires { All (λ gone. is_of_an_offer gone.cause ≡ true) turned_away.items }
    ensures sent { OnOk result (AreTurnedAway O.sends out.old turned_away.items out.new) }
    ensures memory { IfErr result (λ cause. cause ≡ ProxyError.Memory) }
{
    for gone in turned_away {
        refuse(rt, out, gone.request.payload, Cause::Queue(gone.cause))?;
    }
    Ok(())
}

/// Answers all requests that are left `Closed`, in the order of the row. None waits after that.
#[tactic(auto, using(crate::proofs::Turns::nothing_waits))]
fn close<S: Live, R: Wait, O: Outbox<Answer<S>>>(
    rt: &R,
    out: &mut O,
    line: &mut TimedQueue<Request<S>>,
) -> Result<(), ProxyError>
    ensures sent { OnOk result (AreClosed O.sends out.old (row line.old.queue.waiting) out.new) }
    ensures left { OnOk result (line.new.queue ≡ emptied line.old.queue) }
    ensures elapsed { line.new.elapsed ≡ line.old.elapsed }
    ensures memory { IfErr result (λ cause. cause ≡ ProxyError.Memory) }
{
    while let Some(request) = line.leave() {
        refuse(rt, out, request.payload, Cause::Closed)?;
    }
    Ok(())
}

/// Sends a request its refusal, with this cause, on its own channel.
fn refuse<S: Live, R: Wait, O: Outbox<Answer<S>>>(
    rt: &R,
    out: &mut O,
    request: Request<S>,
    cause: Cause,
) -> Result<(), ProxyError>
    requires { may_be_refused_for cause ≡ true }
    ensures sent { OnOk result (IsRefused O.sends cause request out.old out.new) }
    ensures memory { IfErr result (λ cause. cause ≡ ProxyError.Memory) }
{
    let (reply, refused) = request.refused(cause);
    out.send(rt, &reply, Answer::Refused(refused))
}

/// Sends each reply to where it goes, in order.
fn send_replies<S: Live, R: Wait, O: Outbox<Answer<S>>>(
    rt: &R,
    out: &mut O,
    replies: Vec<Addressed<S>>,
) -> Result<(), ProxyError>
    ensures sent { OnOk result (AreReplied O.sends out.old replies.items out.new) }
    ensures memory { IfErr result (λ cause. cause ≡ ProxyError.Memory) }
{
    for Addressed { to, reply } in replies {
        out.send(rt, &to, Answer::Reply(reply))?;
    }
    Ok(())
}
