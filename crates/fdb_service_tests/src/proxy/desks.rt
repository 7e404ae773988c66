//! Requests that are left on a desk, and served there.
//!
//! Answers as text: the record with its position and the limits, or why there is none, and that it is
//! another's, where it is. Neighbours that say the same stand together, behind how many.

use crate::stand::{Service, Stand};
use crossbeam_channel::{Receiver, bounded, unbounded};
use fdb_checks::TableLine;
use fdb_history::{GrvOpts, Priority, Sequence, Tag, TagLimit};
use fdb_live::{Live, Seen};
use fdb_proxy::{Addressed, Answer, Cause, Desk, ProxyError, Refused, Reply, Request, serve_batch};
use fdb_queue::{GrvQueue, QueueConfig, Req};
use std::alloc::{AllocError, Global};
use std::mem;
use std::str::from_utf8;
use std::sync::Wait;

/// Who waits for the answer to a request.
#[derive(Drop)]
pub(crate) struct Waiter<S: Live> {
    /// The client, the serial number and the asked position, which the answer has too.
    pub(crate) own: (u32, u64, u64),
    pub(crate) receiver: Receiver<Answer<S>>,
    /// What was heard already.
    pub(crate) heard: Option<Answer<S>>,
}

impl<S: Live> Waiter<S> {
    /// Waits for the answer, or until none may come.
    pub(crate) fn hears<R: Wait>(&mut self, rt: &R) {
        if self.heard.is_none() {
            self.heard = self.receiver.recv(rt).ok();
        }
    }
}

/// A request with what a token has seen, and who waits for its answer. The channel for that has no room
/// where it is `held`, and any where it is `unbounded`.
pub(crate) fn request_of<S: Live>(
    service: &Service<S>,
    seen: &mut Seen<S>,
    (client, serial): (u32, u64),
    opts: GrvOpts,
    words: &str,
) -> Result<(Request<S>, Waiter<S>), AllocError> {
    let (reply, receiver) = if words.contains(" unbounded") {
        unbounded(service.alloc)?
    } else {
        bounded(service.alloc, usize::from(!words.contains(" held")))?
    };
    let asked = seen.position();
    let request = Request {
        client,
        serial,
        asked,
        seen: service.master.record().split(seen),
        opts,
        reply,
    };
    let waiter = Waiter {
        own: (client, serial, asked),
        receiver,
        heard: None,
    };
    Ok((request, waiter))
}

/// Leaves a request on a desk.
pub(crate) fn submit<S: Live, R: Wait>(
    rt: &R,
    desk: &Desk<S>,
    request: Request<S>,
) -> Result<(), ProxyError> {
    let request = Req {
        priority: request.opts.priority,
        count: request.opts.count,
        payload: request,
    };
    match desk.submit(rt, request) {
        Ok(()) => Ok(()),
        Err((cause, _)) => Err(cause),
    }
}

/// The options of a request: its priority, its count, the moment, and so many tags `t`. Behind them
/// may stand the tag `u`, `aware` of locks, and `min`.
pub(crate) fn opts_of(line: &mut TableLine<'_>) -> GrvOpts {
    GrvOpts {
        priority: line.priority(),
        count: line.number(),
        at: line.number(),
        tags: tags_of(line),
        lock_aware: line.text.contains(" aware"),
        use_min: line.text.contains(" min"),
    }
}

fn tags_of(line: &mut TableLine<'_>) -> Sequence<Tag> {
    let mut tags = Sequence::new(line.alloc);
    let number = line.number();
    let others = u64::from(line.text.contains(" u "));
    for place in 0..number.saturating_add(others) {
        let tag = line.tag(if place < number { "t" } else { "u" });
        if tags.push(tag).is_err() {
            line.lacks();
        }
    }
    tags
}

/// The options of a request at a place among some of all `kinds`: of either count, and with each flag or
/// without.
fn kind_at(opts: &GrvOpts, place: u64, words: &str) -> Result<GrvOpts, AllocError> {
    let mut opts = opts.clone()?;
    if words.contains(" kinds") {
        opts.count = 1 + place % 2;
        opts.lock_aware = place / 2 % 2 == 1;
        opts.use_min = place / 4 % 2 == 1;
    }
    Ok(opts)
}

/// Leaves so many requests on the desk, until it refuses one.
pub(crate) fn leave<S: Live, R: Wait>(stand: &mut Stand<'_, S, R>, line: &mut TableLine<'_>) {
    let (number, client, first) = (line.number(), line.who(), line.number());
    let opts = opts_of(line);
    for place in 0..number {
        let whom = (client, first.saturating_add(place));
        match leave_one(stand, whom, place, &opts, line.text) {
            Ok(()) => {}
            Err(ProxyError::Memory) => return line.lacks(),
            Err(cause) => return line.say(cause),
        }
    }
    line.say("in");
}

/// Leaves a request: with what those who are `ahead` have seen, or every eighth one by turns where there
/// are all `kinds`; as the one that is left `later`; or for one who is `gone` and waits for no answer.
fn leave_one<S: Live, R: Wait>(
    stand: &mut Stand<'_, S, R>,
    whom: (u32, u64),
    place: u64,
    opts: &GrvOpts,
    words: &str,
) -> Result<(), ProxyError> {
    let is_ahead = words.contains(" ahead") || words.contains(" kinds") && place / 8 % 2 == 1;
    let seen = of_two(&mut stand.ahead, &mut stand.seen, is_ahead);
    let opts = kind_at(opts, place, words)?;
    let (request, waiter) = request_of(stand.service, seen, whom, opts, words)?;
    if words.contains(" later") {
        stand.later = Some(request);
    } else {
        submit(stand.rt, &stand.service.desk, request)?;
    }
    if words.contains(" gone") || stand.waiters.push(waiter).is_ok() {
        return Ok(());
    }
    Err(ProxyError::Memory)
}

/// The first of two tokens, or the second.
fn of_two<'t, S: Live>(
    first: &'t mut Seen<S>,
    second: &'t mut Seen<S>,
    is_first: bool,
) -> &'t mut Seen<S> {
    if is_first { first } else { second }
}

/// A tag of just the bytes of a word.
pub(crate) fn tag(alloc: Global, word: &str) -> Result<Tag, AllocError> {
    Ok(Tag::from(Vec::from_slice(alloc, word.as_bytes())?))
}

/// A queue of these limits and this room, with no request in it, and with the throttle of `t`.
pub(crate) fn queue_of<S: Live>(
    alloc: Global,
    normal: u64,
    batch: u64,
    room: u64,
) -> Option<GrvQueue<Request<S>>> {
    let config = QueueConfig {
        normal,
        batch,
        room,
    };
    let mut queue = GrvQueue::new(alloc, config).ok()?;
    let tag = tag(alloc, "t").ok()?;
    queue.set_throttle(Priority::Default, tag, 5, 5_000).ok()?;
    Some(queue)
}

/// Says the answers to what waits at the desk, as one batch, which may be refused memory.
pub(crate) fn serve<S: Live, R: Wait>(stand: &mut Stand<'_, S, R>, line: &mut TableLine<'_>) {
    let requests = match stand.back.take() {
        Some(back) => back,
        None => stand.service.desk.take(stand.rt, false).requests,
    };
    match queue_of(line.alloc, 1, 1, 1) {
        Some(queue) => serve_requests(stand, &queue, requests, line),
        None => line.lacks(),
    }
}

fn serve_requests<S: Live, R: Wait>(
    stand: &mut Stand<'_, S, R>,
    queue: &GrvQueue<Request<S>>,
    requests: Vec<Req<Request<S>>>,
    line: &mut TableLine<'_>,
) {
    let (rt, live, served) = (stand.rt, stand.service.master.record(), &mut stand.served);
    match serve_batch(rt, line.alloc, live, served, queue, requests) {
        Ok(replies) => {
            line.holds(replies.len() == stand.waiters.len(), "replies");
            for Addressed { to, reply } in replies {
                // one that does not come is not heard
                let _ = to.send(rt, Answer::Reply(reply));
            }
            say_answers(stand, line);
        }
        Err((_, back)) => {
            stand.back = Some(back);
            line.refuse();
        }
    }
}

/// Says the answers to all who wait, of whom none does then.
pub(crate) fn say_answers<S: Live, R: Wait>(stand: &mut Stand<'_, S, R>, line: &mut TableLine<'_>) {
    let mut waiters = mem::replace(&mut stand.waiters, Vec::new(line.alloc));
    for waiter in waiters.iter_mut() {
        waiter.hears(stand.rt);
        line.holds(waiter.receiver.recv(stand.rt).is_err(), "several answers");
    }
    match rows_of(line.alloc, &waiters) {
        Ok(text) => line.say(text),
        Err(_) => line.lacks(),
    }
}

/// What all these have heard, in their order.
fn rows_of<S: Live>(alloc: Global, waiters: &[Waiter<S>]) -> Result<String, AllocError> {
    let (mut rows, mut last, mut times) = (String::new(alloc), String::new(alloc), 0u64);
    for waiter in waiters {
        let next = heard_by(alloc, waiter)?;
        if next != last {
            push_row(&mut rows, times, &last)?;
            last = next;
            times = 0;
        }
        times = times.saturating_add(1);
    }
    push_row(&mut rows, times, &last)?;
    Ok(rows)
}

/// Adds what so many say, if any do.
fn push_row(rows: &mut String, times: u64, said: &str) -> Result<(), AllocError> {
    if times == 0 {
        return Ok(());
    }
    let part = if rows.is_empty() { "" } else { " / " };
    write!(rows, "{part}{times} {said}")
}

/// What one who waits has heard.
fn heard_by<S: Live>(alloc: Global, waiter: &Waiter<S>) -> Result<String, AllocError> {
    match &waiter.heard {
        None => String::from_str(alloc, "no answer"),
        Some(Answer::Reply(reply)) => replied(alloc, reply, waiter.own),
        Some(Answer::Refused(refused)) => refused_as(alloc, refused, waiter.own),
    }
}

fn replied<S: Live>(
    alloc: Global,
    reply: &Reply<S>,
    own: (u32, u64, u64),
) -> Result<String, AllocError> {
    let mut text = format!(in alloc; "{} at {}", reply.rec, reply.position)?;
    let limits = reply.limits.as_slice();
    if let Some(first) = limits.first() {
        push_limits(&mut text, first, limits)?;
    }
    if (reply.client, reply.serial, reply.asked) != own {
        text.push_str(" to another")?;
    }
    Ok(text)
}

/// Adds how many limits there are, and the first of them, or that they are not all the same.
fn push_limits(text: &mut String, first: &TagLimit, limits: &[TagLimit]) -> Result<(), AllocError> {
    if limits.iter().any(|limit| limit != first) {
        return text.push_str(" with several");
    }
    let tag = from_utf8(first.tag.as_slice()).unwrap_or("no text");
    let TagLimit { rate, expires, .. } = first;
    write!(text, " with {} {tag} {rate} {expires}", limits.len())
}

fn refused_as<S: Live>(
    alloc: Global,
    refused: &Refused<S>,
    own: (u32, u64, u64),
) -> Result<String, AllocError> {
    if (refused.client, refused.serial, refused.asked) != own {
        return String::from_str(alloc, "a refusal to another");
    }
    match refused.cause {
        Cause::Queue(cause) => format!(in alloc; "{cause}"),
        Cause::Closed => String::from_str(alloc, "closed"),
    }
}
