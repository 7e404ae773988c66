//! Reads at a desk that the test serves, in the place of a GRV proxy. The next word says how it
//! answers:
//!
//! - `served`: with what is read then, which goes as far as the asker has seen; `asked`: as if it
//!   had been asked one position later; `client` and `serial`: as the answer to another client or
//!   to the client's next request;
//! - `dropped`: not at all, and the channel is dropped;
//! - `closed`, `full` and `memory`: with these refusals, and `stray` with one that is another's;
//! - `shut`: the desk was closed before.

ghost use Rattle.std.specs.Prelude.{◌≡◌, true};
ghost use Rattle.fdb_proxy.specs.Cause.{may_be_refused_for};

use crate::client::{client_at, say_cause};
use crate::gated::Counting;
use crate::stand::{Service, Stand};
use fdb_checks::TableLine;
use fdb_client::{Client, ClientError, ReadVersion};
use fdb_history::{GrvOpts, Priority, Sequence, Tag};
use fdb_live::{Live, Seen};
use fdb_proxy::{Answer, Cause, Desk, Refused, Reply, Request};
use fdb_queue::QueueError;
use std::alloc::AllocError;
use std::sync::Wait;
use std::thread::{self, Threads};

/// What a client's request has to be, and how it is answered.
#[derive(Drop)]
struct Wanted<'w> {
    client: u32,
    serial: u64,
    asked: u64,
    opts: GrvOpts,
    way: &'w str,
}

impl<'w> Wanted<'w> {
    /// What the next request of a client with these options has to be.
    fn of<S: Live>(
        client: &Client<'_, S>,
        opts: &GrvOpts,
        way: &'w str,
    ) -> Result<Wanted<'w>, AllocError> {
        Ok(Wanted {
            client: client.number(),
            serial: client.calls().len() as u64,
            asked: client.position(),
            opts: opts.clone()?,
            way,
        })
    }

    /// Whether this is such a request, with a token that has come to the asked position.
    fn is_met<S: Live>(&self, request: &Request<S>) -> bool {
        request.client == self.client
            && request.serial == self.serial
            && request.asked == self.asked
            && request.seen.position() == self.asked
            && request.opts == self.opts
    }
}

/// A client's read behind so many calls. Of the first one each option is another than that of a
/// plain one, but for the flags; of later ones any may be the plain one's.
fn told_apart(line: &mut TableLine<'_>, calls: usize) -> GrvOpts {
    let flag = line.next_word().unwrap_or_default();
    let mut tags: Sequence<Tag> = Sequence::new(line.alloc);
    let web = line.tag("web");
    if calls / 3 % 2 == 0 && tags.push(web).is_err() {
        line.lacks();
    }
    GrvOpts {
        priority: [Priority::Batch, Priority::Default, Priority::System][calls % 3],
        count: if calls / 6 % 2 == 0 { 4_294_967_303 } else { 1 },
        tags,
        lock_aware: flag == "aware" || flag == "both",
        at: if calls / 12 % 2 == 0 { 9 } else { 0 },
        use_min: flag == "min" || flag == "both",
    }
}

/// A client's read at a desk that is served in the way of the next word.
pub(crate) fn read<S: Live + Send + Sync, R: Threads + Wait + Sync>(
    stand: &mut Stand<'_, S, R>,
    line: &mut TableLine<'_>,
) {
    let (rt, service) = (stand.rt, stand.service);
    let served = service.master.record().split(&mut stand.served);
    let Some(client) = client_at(&mut stand.clients, line) else {
        return;
    };
    let way = line.word();
    let opts = told_apart(line, client.calls().len());
    match Wanted::of(client, &opts, way) {
        Ok(wanted) => read_wanted(rt, service, served, client, &wanted, opts, line),
        Err(_) => line.lacks(),
    }
}

/// The same, once it is known what the request has to be. It passes the gate once where an answer came,
/// and else not at all.
fn read_wanted<S: Live + Send + Sync, R: Threads + Wait + Sync>(
    rt: &R,
    service: &Service<S>,
    served: Seen<S>,
    client: &mut Client<'_, S>,
    wanted: &Wanted<'_>,
    opts: GrvOpts,
    line: &mut TableLine<'_>,
) {
    let gate = Counting::new(wanted.client);
    let desk = Desk::new(service.alloc);
    if wanted.way == "shut" {
        desk.close(rt);
    }
    match read_served(rt, service, &desk, &gate, served, client, wanted, opts) {
        Some((Some(answers), found)) => {
            line.holds(gate.was_passed(0, 0, answers), "passes of the gate");
            say_read(line, found, wanted.way);
        }
        Some((None, _)) => line.fails("another request"),
        None => line.lacks(),
    }
}

/// How many answers were sent, unless there was another request than the wanted one, and what a client
/// reads.
type Read = (Option<u64>, Result<ReadVersion, ClientError>);

/// A client's read, while a desk is served in another thread, for which there may be no memory. It
/// leaves one request there, under the number of the calls before it, and with what the client has
/// seen and was told to ask.
fn read_served<S: Live + Send + Sync, R: Threads + Wait + Sync>(
    rt: &R,
    service: &Service<S>,
    desk: &Desk<S>,
    gate: &Counting,
    served: Seen<S>,
    client: &mut Client<'_, S>,
    wanted: &Wanted<'_>,
    opts: GrvOpts,
) -> Option<Read> {
    thread::scope(thread::scope_env(), rt, |scope| -> Option<Read> {
        let server = scope
            .spawn(move || serve(rt, service, desk, served, wanted))
            .ok()?;
        let found = client.read_version(rt, gate, desk, opts);
        desk.close(rt);
        Some((server.join(rt), found))
    })
}

/// Says what a client reads, or why it does not. One that a proxy says is refused memory is no call
/// that is to be made once more.
fn say_read(line: &mut TableLine<'_>, found: Result<ReadVersion, ClientError>, way: &str) {
    let read = match found {
        Ok(read) => read,
        Err(ClientError::Memory) if way == "memory" => return line.say(ClientError::Memory),
        Err(cause) => return say_cause(line, cause),
    };
    line.say(read.version);
    if read.version != read.rec.version {
        line.say(format_args!("of {} and {}", read.rec.version, read.rec.min_known));
    }
    line.say(format_args!("at {}", read.position));
}

/// Takes what comes to the desk, and answers it. Says how many answers were sent, or nothing where the
/// request is not the wanted one.
fn serve<S: Live, R: Wait>(
    rt: &R,
    service: &Service<S>,
    desk: &Desk<S>,
    mut served: Seen<S>,
    wanted: &Wanted<'_>,
) -> Option<u64> {
    let mut taken = desk.take(rt, true);
    let Some(request) = taken.requests.pop() else {
        return Some(0);
    };
    if !taken.requests.is_empty() || !wanted.is_met(&request.payload) {
        return None;
    }
    let request = changed(rt, service, request.payload, &mut served, wanted.way);
    let cause = match wanted.way {
        "dropped" => return Some(0),
        "closed" => Cause::Closed,
        "full" | "stray" => Cause::Queue(QueueError::Full),
        "memory" => Cause::Queue(QueueError::Memory),
        _ => return Some(reply(rt, service, request, served)),
    };
    Some(refuse(rt, request, cause))
}

/// A request as another one: of another client, of another call, or from where the record is.
fn changed<S: Live, R: Wait>(
    rt: &R,
    service: &Service<S>,
    request: Request<S>,
    served: &mut Seen<S>,
    way: &str,
) -> Request<S> {
    let live = service.master.record();
    let (client, serial) = match way {
        "client" => (1 - request.client.min(1), request.serial),
        "serial" | "stray" => (request.client, request.serial.saturating_add(1)),
        _ => (request.client, request.serial),
    };
    if way == "asked" {
        live.read(rt, served);
        return Request {
            client,
            serial,
            asked: served.position(),
            seen: live.split(served),
            opts: request.opts,
            reply: request.reply,
        };
    }
    Request {
        client,
        serial,
        asked: request.asked,
        seen: request.seen,
        opts: request.opts,
        reply: request.reply,
    }
}

/// Answers that a request does not start and why, which hands the token back. Says how many answers
/// were sent.
fn refuse<S: Live, R: Wait>(rt: &R, request: Request<S>, cause: Cause) -> u64
    requires { may_be_refused_for cause ≡ true }
{
    let refused = Refused {
        client: request.client,
        serial: request.serial,
        asked: request.asked,
        seen: request.seen,
        cause,
    };
    u64::from(request.reply.send(rt, Answer::Refused(refused)).is_ok())
}

/// Answers a request with what a read gives, which goes as far as the asker has seen.
fn reply<S: Live, R: Wait>(
    rt: &R,
    service: &Service<S>,
    request: Request<S>,
    mut served: Seen<S>,
) -> u64 {
    let live = service.master.record();
    live.learn(rt, &mut served, request.seen);
    let fetched = live.read(rt, &mut served);
    if fetched.position < request.asked {
        return 0;
    }
    let reply = Reply {
        client: request.client,
        serial: request.serial,
        asked: request.asked,
        seen: live.split(&mut served),
        rec: fetched.rec,
        position: fetched.position,
        limits: Sequence::new(service.alloc),
    };
    u64::from(request.reply.send(rt, Answer::Reply(reply)).is_ok())
}
