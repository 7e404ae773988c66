//! A proxy that runs in a thread of its own, beside what a line says.

use crate::proxy::desks::{Waiter, opts_of, queue_of, request_of, say_answers, submit};
use crate::stand::{Service, Stand};
use fdb_checks::{TableLine, comes};
use fdb_history::{GrvOpts, Priority};
use fdb_live::Live;
use fdb_proxy::{Answer, Cause, GrvProxy, Rates, Request};
use fdb_queue::{GrvQueue, QueueError, Req};
use std::sync::Wait;
use std::thread::{self, Threads};

/// Says the answers of a proxy with such a queue to all who wait.
pub(crate) fn run<S: Live + Send + Sync, R: Threads + Wait + Sync>(
    stand: &mut Stand<'_, S, R>,
    line: &mut TableLine<'_>,
) {
    let (normal, batch, room) = (line.number(), line.number(), line.number());
    let Some(queue) = queue_of(line.alloc, normal, batch, room) else {
        return line.lacks();
    };
    match runs_beside(stand, queue, line) {
        Some(true) => say_answers(stand, line),
        _ => line.lacks(),
    }
}

/// Runs a proxy with a queue until all have heard. Answers whether it ended as its desk was closed, or
/// nothing where it cannot be started.
fn runs_beside<S: Live + Send + Sync, R: Threads + Wait + Sync>(
    stand: &mut Stand<'_, S, R>,
    queue: GrvQueue<Request<S>>,
    line: &mut TableLine<'_>,
) -> Option<bool> {
    let (rt, service) = (stand.rt, stand.service);
    let live = service.master.record();
    let token = live.split(&mut stand.served);
    let proxy = GrvProxy::new(line.alloc, live, &service.desk, queue, 1_000_000, token);
    let later = stand.later.take();
    let waiters = &mut stand.waiters;
    thread::scope(
        thread::scope_env(),
        rt,
        |scope| match scope.spawn(move || proxy.run(rt).is_ok()) {
            Ok(running) => {
                hear_beside(rt, service, waiters, later, line);
                Some(running.join(rt))
            }
            Err(_) => None,
        },
    )
}

/// Does what the line says, hears all who wait, and closes the desk. A proxy that has dropped one who
/// waits has to close it by itself.
fn hear_beside<S: Live, R: Wait>(
    rt: &R,
    service: &Service<S>,
    waiters: &mut [Waiter<S>],
    mut later: Option<Request<S>>,
    line: &mut TableLine<'_>,
) {
    for _ in 0..9 {
        match line.next_word() {
            None | Some("=>") => break,
            Some("late") => match later.take() {
                Some(request) => {
                    let left = submit(rt, &service.desk, request);
                    line.holds(left.is_ok(), "an open desk refuses");
                }
                None => line.fails("nothing comes later"),
            },
            Some(word) => act(rt, service, waiters, word, line),
        }
    }
    for waiter in waiters.iter_mut() {
        waiter.hears(rt);
    }
    if waiters.iter().all(|waiter| waiter.heard.is_some()) {
        service.desk.close(rt);
    }
}

/// Does what a word says: `hear` who waits at a place, `look` whether the last who waits is answered while
/// nobody else hears, leave new `rates`, or `close` the desk. (beside it what comes `late` is left)
fn act<S: Live, R: Wait>(
    rt: &R,
    service: &Service<S>,
    waiters: &mut [Waiter<S>],
    word: &str,
    line: &mut TableLine<'_>,
) {
    match word {
        "close" => service.desk.close(rt),
        "look" => {
            let last = waiters.last().map(|waiter| &waiter.receiver);
            let heard = last.is_some_and(|receiver| comes(|| !receiver.is_empty()));
            line.holds(heard, "a request that comes while others wait");
        }
        "hear" => match waiters.get_mut(line.who() as usize) {
            Some(waiter) => waiter.hears(rt),
            None => line.fails("nobody waits"),
        },
        "rates" => leave_rates(rt, service, line),
        // a word of the call itself
        "used" => {}
        _ => line.fails("nothing to do"),
    }
}

/// Leaves new rates on the desk.
pub(crate) fn leave_rates<S: Live, R: Wait>(
    rt: &R,
    service: &Service<S>,
    line: &mut TableLine<'_>,
) {
    match Rates::new(line.number(), line.number()) {
        Some(rates) => service.desk.set_rates(rt, rates),
        None => line.fails("rates out of range"),
    }
}

/// How many requests a queue has had that is used.
const REQUESTS: u64 = 6;

/// Runs a proxy with these limits and this room. Where it ends well each request has one answer: the
/// reply, that new rates turned it away, or that its offer was refused memory, which it is not where
/// the queue had as many requests before. Where it ends out of memory, its desk is closed and empty.
/// Notes the number of the request that alone was refused memory.
pub(crate) fn run_refused<S: Live + Send + Sync, R: Threads + Wait + Sync>(
    stand: &mut Stand<'_, S, R>,
    line: &mut TableLine<'_>,
) {
    let used = line.text.contains(" used");
    let (normal, batch, room) = (line.number(), line.number(), line.number());
    let Some(queue) = queue_for(stand, (normal, batch, room), used) else {
        return line.lacks();
    };
    match runs_beside(stand, queue, line) {
        Some(true) => look_at_all(stand, used, line),
        Some(false) => look_at_desk(stand, line),
        None => line.lacks(),
    }
}

/// Looks at the desk of a proxy that ended out of memory.
fn look_at_desk<S: Live, R: Wait>(stand: &Stand<'_, S, R>, line: &mut TableLine<'_>) {
    let taken = stand.service.desk.take(stand.rt, false);
    line.holds(taken.closed, "a desk that is closed");
    line.holds(taken.requests.is_empty(), "a desk that is empty");
    line.lacks();
}

/// Looks at what all have heard of a proxy that ended well.
fn look_at_all<S: Live, R: Wait>(
    stand: &mut Stand<'_, S, R>,
    used: bool,
    line: &mut TableLine<'_>,
) {
    let (mut refused, mut last) = (0u64, 0);
    for (place, waiter) in stand.waiters.iter().enumerate() {
        let place = place as u64;
        line.holds(waiter.receiver.recv(stand.rt).is_err(), "one answer");
        if was_refused(&waiter.heard, place, line) {
            refused = refused.saturating_add(1);
            last = place.saturating_add(1);
        }
    }
    line.holds(!used || refused == 0, "there was capacity");
    if refused == 1 {
        stand.alone = last;
    }
    line.say("heard");
}

/// Whether a request was answered that its offer was refused memory. Else it has its reply, or new
/// rates have turned it away.
fn was_refused<S: Live>(heard: &Option<Answer<S>>, place: u64, line: &mut TableLine<'_>) -> bool {
    match heard {
        Some(Answer::Reply(reply)) => line.holds(reply.serial == place, "another's reply"),
        Some(Answer::Refused(refused)) => {
            line.holds(refused.serial == place, "another's refusal");
            if refused.cause == Cause::Queue(QueueError::Memory) {
                return true;
            }
            // (new rates, which the text has, may turn a request away for its count)
            let is_rated = line.text.contains(" rates ");
            line.holds(
                is_rated && refused.cause == Cause::Queue(QueueError::BadCount),
                "another refusal",
            );
        }
        None => line.fails("each is answered"),
    }
    false
}

/// The queue of a proxy. A used one has had as many requests as will come, and has none any more.
fn queue_for<S: Live, R: Wait>(
    stand: &mut Stand<'_, S, R>,
    (normal, batch, room): (u64, u64, u64),
    used: bool,
) -> Option<GrvQueue<Request<S>>> {
    let alloc = stand.service.alloc;
    let mut queue = queue_of(alloc, normal, batch, room)?;
    if used {
        let opts = opts_of(&mut TableLine::new(alloc, "default 1 0 0"));
        for serial in 0..REQUESTS {
            use_once(stand, &mut queue, serial, &opts)?;
        }
        for _ in 0..REQUESTS {
            queue.pop();
        }
    }
    Some(queue)
}

/// Lets a request in.
fn use_once<S: Live, R: Wait>(
    stand: &mut Stand<'_, S, R>,
    queue: &mut GrvQueue<Request<S>>,
    serial: u64,
    opts: &GrvOpts,
) -> Option<()> {
    let opts = opts.clone().ok()?;
    let seen = &mut stand.seen;
    let (payload, _) = request_of(stand.service, seen, (0, serial), opts, "").ok()?;
    let offered = queue.offer(Req {
        priority: Priority::Default,
        count: 1,
        payload,
    });
    offered.is_ok().then_some(())
}
