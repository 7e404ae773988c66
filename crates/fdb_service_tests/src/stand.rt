//! A service with its clients, who play a text, each line of which is a call. What stands behind
//! `=>`, if it does, is what comes of the call.
//!
//! Calls of a client, whose number is the next word:
//!
//! - `ask`: what it has processed, and a moment; `reask`: a number before these;
//! - `report`: a number, a minimum known committed version, and perhaps `locked`;
//! - `read`: how the test answers at a desk (`client/served.rt`), perhaps `aware`, `min` or `both`;
//! - `tell` and `learn`: another client;
//! - `log`: how many calls it has logged, and its position.
//!
//! Calls at a desk, whose throttle of the tag `t` is 5 transactions a second until moment 5000:
//!
//! - `see`: who is `ahead` reads the record;
//! - `leave`: so many requests of a client, with serial numbers from one on, a priority, a count, a
//!   moment, how many tags `t`, and perhaps words that `proxy/desks.rt` tells;
//! - `close`: the desk is closed; `serve`: what waits there is served as one batch;
//! - `rates`: new limits of a proxy's two rates are left there;
//! - `run`: a proxy with these limits and this room runs until all have heard, beside what the
//!   words after that say;
//! - `proxy`: the same of one that may be refused memory (`proxy/running.rt`).

ghost use Rattle.std.specs.Prelude.{◌≡◌, true};
ghost use Rattle.fdb_live.specs.Seen.{origin_of};

use crate::client::served::read;
use crate::client::{ask, learn, log, report, tell};
use crate::proxy::desks::{Waiter, leave, serve};
use crate::proxy::running::{leave_rates, run, run_refused};
use fdb_checks::{CaseError, TableLine, lines_of};
use fdb_client::{Client, clients_of};
use fdb_history::Record;
use fdb_live::{Epoch, Fetched, Live, LiveRecord, Master, Opened, Seen};
use fdb_proxy::{Desk, Request};
use fdb_queue::Req;
use std::alloc::Global;
use std::marker::Brand;
use std::sync::Wait;
use std::test::Fail;
use std::thread::Threads;

/// How many clients there are, beside a witness who hears nothing.
const CLIENTS: u32 = 6;

/// A text that is played at a number. Memory is refused at most once, or to more than one.
#[derive(Clone, Copy)]
pub(crate) struct Told<'t> {
    pub(crate) text: &'t str,
    pub(crate) number: u64,
    pub(crate) once: bool,
}

/// What clients call: the master, and the desk of a GRV proxy.
#[derive(Drop)]
pub(crate) struct Service<S: Live> {
    pub(crate) alloc: Global,
    pub(crate) master: Master<S>,
    pub(crate) desk: Desk<S>,
}

/// The clients of a service, and what else calls it.
#[derive(Drop)]
pub(crate) struct Stand<'a, S: Live, R> {
    pub(crate) rt: &'a R,
    pub(crate) service: &'a Service<S>,
    pub(crate) clients: Vec<Client<'a, S>>,
    /// What was told and not learnt yet.
    pub(crate) told: Option<Seen<S>>,
    /// What those have seen who leave requests on the desk: nothing, or what they read last.
    pub(crate) seen: Seen<S>,
    pub(crate) ahead: Seen<S>,
    /// What a proxy has seen, or who serves a desk in its place.
    pub(crate) served: Seen<S>,
    witness: Seen<S>,
    /// Who waits for answers, in the order of the requests.
    pub(crate) waiters: Vec<Waiter<S>>,
    /// A request that is left on the desk while a proxy runs.
    pub(crate) later: Option<Request<S>>,
    /// A batch that was refused memory.
    pub(crate) back: Option<Vec<Req<Request<S>>>>,
    /// Whether memory is refused at most once.
    pub(crate) once: bool,
    /// The number of the request that alone was refused memory in its offer, counted from 1, or 0.
    pub(crate) alone: u64,
}

impl<'a, S: Live, R: Wait> Stand<'a, S, R> {
    /// The last of some clients gives the tokens of those who are none.
    fn new(
        rt: &'a R,
        service: &'a Service<S>,
        mut clients: Vec<Client<'a, S>>,
        once: bool,
    ) -> Option<Self> {
        let (_, mut token) = clients.pop()?.finish();
        let live = service.master.record();
        Some(Stand {
            rt,
            service,
            clients,
            told: None,
            seen: live.split(&mut token),
            ahead: live.split(&mut token),
            served: live.split(&mut token),
            witness: live.split(&mut token),
            waiters: Vec::new(service.alloc),
            later: None,
            back: None,
            once,
            alone: 0,
        })
    }

    /// How many calls are logged, how far the clients and the proxy have come in all, and what a
    /// witness reads. A call that is refused memory leaves that as it was.
    pub(crate) fn state(&mut self) -> (usize, u64, Fetched) {
        let (mut calls, mut positions) = (0usize, self.served.position());
        for client in &self.clients {
            calls = calls.saturating_add(client.calls().len());
            positions = positions.saturating_add(client.position());
        }
        let live = self.service.master.record();
        (calls, positions, live.read(self.rt, &mut self.witness))
    }
}

/// Plays a text under the name of the service.
fn play_named<S: Live + Send + Sync, R: Threads + Wait + Sync>(
    rt: &R,
    alloc: Global,
    opened: Opened,
    told: Told<'_>,
) -> Result<u64, CaseError>
    requires opened { opened ≡ origin_of S.table S.start S.reporters S.chained S.epoch_end S.recovery }
    requires chained { S.chained ≡ true }
{
    let Ok((master, _, tokens)) = opened.master::<S>() else {
        return Err(CaseError::Memory);
    };
    if tokens.len() > 64 {
        return Err(CaseError::Failed(Fail::new("64 tokens at most")));
    }
    let service = Service {
        alloc,
        master,
        desk: Desk::new(alloc),
    };
    let clients = clients_of(alloc, &service.master, tokens)?;
    play_at(rt, &service, clients, told)
}

/// Plays the lines of a text at a service with these clients.
fn play_at<'a, S: Live + Send + Sync, R: Threads + Wait + Sync>(
    rt: &'a R,
    service: &'a Service<S>,
    clients: Vec<Client<'a, S>>,
    told: Told<'_>,
) -> Result<u64, CaseError> {
    let Some(mut stand) = Stand::new(rt, service, clients, told.once) else {
        return Err(CaseError::Failed(Fail::new("no client")));
    };
    for mut line in lines_of(service.alloc, told.text, told.number)? {
        play_line(&mut stand, &mut line);
        line.ends()?;
    }
    Ok(stand.alone)
}

/// Plays a text at a new service, whose first commit version is 100. It fails where memory is refused,
/// and passes else. Answers which request of a proxy alone was refused memory.
pub(crate) fn play<R: Threads + Wait + Sync>(
    rt: &R,
    alloc: Global,
    told: Told<'_>,
) -> Result<u64, CaseError> {
    let start = Record {
        version: 100,
        locked: false,
        metadata: None,
        min_known: 0,
    };
    let epoch = Epoch {
        before: 0,
        recovery: 100,
    };
    match LiveRecord::<Brand>::open(rt, alloc, start, CLIENTS + 1, Some(epoch)) {
        Ok(opened) => play_named::<Brand, R>(rt, alloc, opened, told),
        Err(_) => Err(CaseError::Memory),
    }
}

/// Plays some texts, each at a service of its own and at a number, with ample memory.
pub(crate) fn play_texts<R: Threads + Wait + Sync>(
    rt: &R,
    alloc: Global,
    texts: &[&str],
    number: u64,
) -> Result<(), Fail> {
    for text in texts {
        play(
            rt,
            alloc,
            Told {
                text,
                number,
                once: true,
            },
        )?;
    }
    Ok(())
}

/// Makes a call, once more where it is refused memory, which has then changed nothing. What comes of
/// it is compared where the line has an arrow.
fn play_line<S: Live + Send + Sync, R: Threads + Wait + Sync>(
    stand: &mut Stand<'_, S, R>,
    line: &mut TableLine<'_>,
) {
    let before = stand.state();
    let call = line.word();
    make(stand, call, line);
    if line.was_refused() {
        make_again(stand, before, line);
    }
    if !line.text.contains("=>") && !line.was_refused() {
        line.again();
    }
}

/// Makes a call once more that was refused memory.
fn make_again<S: Live + Send + Sync, R: Threads + Wait + Sync>(
    stand: &mut Stand<'_, S, R>,
    before: (usize, u64, Fetched),
    line: &mut TableLine<'_>,
) {
    line.holds(stand.state() == before, "a refused call changed something");
    line.again();
    let call = line.word();
    make(stand, call, line);
    line.holds(!stand.once || !line.was_refused(), "refused again");
}

/// Makes a call, and says what comes of it.
fn make<S: Live + Send + Sync, R: Threads + Wait + Sync>(
    stand: &mut Stand<'_, S, R>,
    call: &str,
    line: &mut TableLine<'_>,
) {
    match call {
        "ask" | "reask" => ask(stand, call == "reask", line),
        "report" => report(stand, line),
        "read" => read(stand, line),
        "tell" => tell(stand, line),
        "learn" => learn(stand, line),
        "log" => log(stand, line),
        "leave" => leave(stand, line),
        "serve" => serve(stand, line),
        "rates" => leave_rates(stand.rt, stand.service, line),
        "run" => run(stand, line),
        "see" => {
            let live = stand.service.master.record();
            line.say(live.read(stand.rt, &mut stand.ahead).position);
        }
        "close" => stand.service.desk.close(stand.rt),
        "proxy" => run_refused(stand, line),
        _ => line.fails("no such call"),
    }
}
