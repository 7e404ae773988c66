//! The requests that start together, and the one read that serves them.

ghost use Rattle.std.specs.Prelude.{◌≡◌, ◌≤◌, [], All, List, IfOk, IfErr, OnErr, length, map};
ghost use Rattle.std.specs.Prelude.{vec_len, vec_capacity};
ghost use Rattle.std.specs.List.{AllZip};
ghost use mathlib.Core.List.{IsPrefix};
ghost use Rattle.fdb_live.specs.Seen.{last_record, own_positions};
ghost use Rattle.fdb_queue.specs.declared.throttles.Throttle.{Throttle};
ghost use Rattle.fdb_proxy.specs.Batch.{Replies, own_limits};

use crate::error::ProxyError;
use crate::request::{Addressed, Reply, Request};
use fdb_history::{Sequence, TagLimit};
use fdb_live::{Fetched, Live, LiveRecord, Seen};
use fdb_queue::{GrvQueue, QueueError, Req};
use std::alloc::Global;
use std::collections::VecDeque;
use std::sync::Wait;

/// Serves the requests of one window: learns what each asker had seen, makes one read of the live
/// record, and answers all with it, in order, each with a token of its own and beside the channel
/// of its request (`transactionStarter`, `getLiveCommittedVersion` and `sendGrvReplies` of
/// GrvProxyServer, FoundationDB 7.1). The throttles are those of the queue. An empty batch makes no
/// read.
///
/// It is refused as `Memory` alone, before anything has happened; the requests are then handed
/// back. It waits as a read does, and takes constant time for each request, the limits of its tags
/// aside.
pub fn serve_batch<S: Live, R: Wait>(
    rt: &R,
    alloc: Global,
    live: &LiveRecord<S>,
    seen: &mut Seen<S>,
    queue: &GrvQueue<Request<S>>,
    mut requests: Vec<Req<Request<S>>>,
) -> Result<Vec<Addressed<S>>, (ProxyError, Vec<Req<Request<S>>>)>
    ensures replies { IfOk result (λ replies.
        AllZip (Replies queue.now.throttles seen.new.changes) requests.items replies.items) }
    ensures reporter { seen.new.reporter ≡ seen.old.reporter }
    ensures extends { IsPrefix seen.old.changes seen.new.changes }
    ensures own { own_positions seen.new ≡ own_positions seen.old }
    ensures no_read { requests.items ≡ [] → seen.new ≡ seen.old }
    ensures memory { IfErr result (λ refused. refused.0 ≡ ProxyError.Memory) }
    ensures handed_back { IfErr result (λ refused. refused.1 ≡ requests) }
    ensures unchanged { OnErr result (seen.new ≡ seen.old) }
{
    let Ok(room) = room_for(alloc, queue, requests.as_slice()) else {
        return Err((ProxyError::Memory, requests));
    };
    if requests.is_empty() {
        return Ok(room.replies);
    }
    learn_all(rt, live, seen, requests.as_mut_slice());
    let fetched = live.read(rt, seen);
    Ok(reply_all(live, seen, fetched, requests, room))
}

/// All that a batch takes memory for.
#[derive(Drop)]
struct Room<S: Live> {
    /// The limits of each request's tags, in the order of the requests.
    limits: Vec<Sequence<TagLimit>>,
    /// No reply yet, with room for all.
    replies: Vec<Addressed<S>>,
}

/// Takes all memory for a batch before anything of it happens, so that the rest cannot fail.
fn room_for<S: Live>(
    alloc: Global,
    queue: &GrvQueue<Request<S>>,
    requests: &[Req<Request<S>>],
) -> Result<Room<S>, QueueError>
    ensures limits { IfOk result (λ room.
        room.limits.items ≡ map (own_limits queue.now.throttles) requests.now) }
    ensures replies { IfOk result (λ room. room.replies.items ≡ []) }
    ensures none { IfOk result (λ room. vec_len room.replies ≡ 0) }
    ensures len { IfOk result (λ room. vec_len room.limits ≡ length requests.now) }
    ensures capacity { IfOk result (λ room. length requests.now ≤ vec_capacity room.replies) }
{
    let mut limits = Vec::with_capacity(alloc, requests.len())?;
    for request in requests {
        let opts = &request.payload.opts;
        let own = queue.throttles(opts.priority, opts.tags.as_slice(), opts.at)?;
        limits.push_reserved(Sequence::from(own));
    }
    let replies = Vec::with_capacity(alloc, requests.len())?;
    Ok(Room { limits, replies })
}

/// Learns what each asker has seen, whose own token stays as it is.
fn learn_all<S: Live, R: Wait>(
    rt: &R,
    live: &LiveRecord<S>,
    seen: &mut Seen<S>,
    requests: &mut [Req<Request<S>>],
)
    ensures same { requests.new ≡ requests.old }
    ensures reporter { seen.new.reporter ≡ seen.old.reporter }
    ensures extends { IsPrefix seen.old.changes seen.new.changes }
    ensures own { own_positions seen.new ≡ own_positions seen.old }
    ensures told { All
        (λ request. IsPrefix request.payload.seen.changes seen.new.changes) requests.old }
{
    for request in requests.iter_mut() {
        let told = live.split(&mut request.payload.seen);
        live.learn(rt, seen, told);
    }
}

/// Answers all requests with what a read saw.
fn reply_all<S: Live>(
    live: &LiveRecord<S>,
    seen: &mut Seen<S>,
    fetched: Fetched,
    requests: Vec<Req<Request<S>>>,
    room: Room<S>,
) -> Vec<Addressed<S>>
    requires rec { fetched.rec ≡ last_record S.start seen.old.changes }
    requires position { fetched.position ≡ length seen.old.changes }
    requires told { All
        (λ request. IsPrefix request.payload.seen.changes seen.old.changes) requests.items }
    requires limits { vec_len room.limits ≡ vec_len requests }
    requires replies { room.replies.items ≡ [] }
    requires len { vec_len room.replies ≡ 0 }
    requires capacity { vec_len requests ≤ vec_capacity room.replies }
    ensures replies { (throttles : List Throttle)
        → room.limits.items ≡ map (own_limits throttles) requests.items
        → AllZip (Replies throttles seen.new.changes) requests.items result.items }
    ensures same { seen.new ≡ seen.old }
{
    let Room {
        limits,
        mut replies,
    } = room;
    let mut limits = VecDeque::from(limits);
    let mut requests = VecDeque::from(requests);
    while let Some(request) = requests.pop_front() {
        let Some(own) = limits.pop_front() else {
            unreachable!()
        };
        replies.push_reserved(reply_of(live, seen, fetched, request.payload, own));
    }
    replies
}

/// Answers a request with what a read saw.
fn reply_of<S: Live>(
    live: &LiveRecord<S>,
    seen: &mut Seen<S>,
    fetched: Fetched,
    request: Request<S>,
    limits: Sequence<TagLimit>,
) -> Addressed<S>
    requires rec { fetched.rec ≡ last_record S.start seen.old.changes }
    requires position { fetched.position ≡ length seen.old.changes }
    requires told { IsPrefix request.seen.changes seen.old.changes }
    ensures same { seen.new ≡ seen.old }
    ensures client { result.reply.client ≡ request.client }
    ensures serial { result.reply.serial ≡ request.serial }
    ensures asked { result.reply.asked ≡ request.asked }
    ensures limits { result.reply.limits ≡ limits }
    ensures rec { result.reply.rec ≡ fetched.rec }
    ensures position { result.reply.position ≡ fetched.position }
    ensures seen { result.reply.seen.changes ≡ seen.old.changes }
{
    let Request {
        client,
        serial,
        asked,
        seen: _,
        opts: _,
        reply: to,
    } = request;
    let reply = Reply {
        client,
        serial,
        asked,
        seen: live.split(seen),
        rec: fetched.rec,
        position: fetched.position,
        limits,
    };
    Addressed { to, reply }
}
