//! A client of a run, which does what commands say: what it tells others, and the desk for each of
//! its reads.

ghost use Rattle.std.specs.Prelude.{◌≡◌, None, length, ◌≢◌, ◌+◌, ◌++◌, [], Err, true, false, OnOk};
ghost use Rattle.fdb_history.specs.Log.{fresh_answers};
ghost use Rattle.fdb_history.specs.declared.log.Input.TheVariants as input;
ghost use Rattle.fdb_script.specs.Answering.{input_of, learns};
ghost use Rattle.fdb_replay.specs.private.Routing.{desk_for, reads_of};
ghost use Rattle.fdb_replay.specs.private.Rounds.{CallsOnce, tells_since};

use fdb_client::{Client, ClientError, Cluster};
use fdb_history::{Gate, GrvOpts};
use fdb_live::{Live, Seen};
use fdb_proxy::Desk;
use fdb_script::Act;
use std::alloc::AllocError;
use std::marker::Model;
use std::sync::Wait;

/// What a client told another: what it had seen of the commit versions and of the live record.
///
/// Contracts see it as who is told, who tells, and the position that the teller had come to.
#[derive(Drop)]
pub(crate) struct Tell<S: Live> {
    pub(crate) to: u32,
    pub(crate) from: u32,
    /// What the teller had seen, as a token with no number.
    pub(crate) seen: Seen<S>,
}

impl<S: Live> Model for Tell<S> {
    ghost use Rattle.std.specs.Prelude.{◌≡◌, None, length};
    ghost use Rattle.fdb_replay.specs.private.Rounds.{Tell};

    ghost Value = { Tell };

    ghost view = { λ tell.
        record { to = tell.to; from = tell.from; position = length tell.seen.changes } };

    ghost invariant = { λ tell. tell.seen.reporter ≡ None };
}

impl<S: Live> Tell<S> {
    /// One client told another what it had seen.
    pub(crate) fn new(from: u32, to: u32, seen: Seen<S>) -> Self
        requires { seen.reporter ≡ None }
        ensures { result ≡ record { to = to; from = from; position = length seen.changes } }
    {
        Tell { to, from, seen }
    }
}

/// What the clients of a run call, and the gate that their calls pass.
#[derive(Drop)]
pub(crate) struct Routing<'a, S: Live, G: Gate> {
    pub(crate) cluster: &'a Cluster<'a, S>,
    pub(crate) gate: &'a G,
}

impl<'a, S: Live, G: Gate> Routing<'a, S, G> {
    /// The desk for a client's next read, where it has made so many before. (no clause can tell one
    /// desk from another: that of `desk_at` says which is taken)
    pub(crate) fn desk(&self, client: &Client<'_, S>, reads: u64) -> &Desk<S>
        requires { reads ≡ reads_of client.now.calls }
    {
        self.desk_at(self.route(client.number(), reads), client)
    }

    /// The desk with this number, which is that for the client's next read.
    fn desk_at(&self, number: u32, client: &Client<'_, S>) -> &Desk<S>
        requires { number ≡ desk_for self.now.cluster.now.config.grv_proxies
            client.now.number (reads_of client.now.calls) }
    {
        let _ = client;
        self.cluster.desk(number)
    }

    /// The number of the desk for a client's next read, where it has made so many reads before.
    #[tactic(auto, using(crate::proofs::Turns::in_turn))]
    fn route(&self, client: u32, reads: u64) -> u32
        ensures { result ≡ desk_for self.now.cluster.now.config.grv_proxies client reads }
    {
        let desks = u64::from(self.cluster.config().grv_proxies);
        let place = (u64::from(client) % desks + reads % desks) % desks;
        place as u32
    }
}

/// A client of a run, which sends its reads to the GRV proxies in turn.
///
/// Contracts see it as the client that it is.
#[derive(Drop)]
pub(crate) struct Player<'a, S: Live> {
    client: Client<'a, S>,
    /// How many of its calls are reads.
    reads: u64,
}

impl<'a, S: Live> Model for Player<'a, S> {
    ghost use Rattle.std.specs.Prelude.{◌≡◌};
    ghost use Rattle.fdb_client.specs.Account.{Account};
    ghost use Rattle.fdb_replay.specs.private.Routing.{reads_of};

    ghost Value = { Account };

    ghost view = { λ player. player.client };

    ghost invariant = { λ player. (player.client.begun ≡ 0)
        × (player.reads ≡ reads_of player.client.calls) };
}

impl<'a, S: Live> Player<'a, S> {
    /// A client that has called nobody yet.
    pub(crate) fn new(client: Client<'a, S>) -> Self
        requires begun { client.begun ≡ 0 }
        requires calls { client.calls ≡ [] }
        ensures { result ≡ client.entry }
    {
        Player { client, reads: 0 }
    }

    pub(crate) fn into_client(self) -> Client<'a, S>
        ensures { result ≡ self.entry }
    {
        let Player { client, reads: _ } = self;
        client
    }

    /// Does what a command says, as the client with this number. What it tells
    /// another by that is added to the tells. A call that is refused is done, too.
    pub(crate) fn perform<R: Wait, G: Gate>(
        &mut self,
        rt: &R,
        routing: &Routing<'_, S, G>,
        number: u32,
        act: &Act,
        tells: &mut Vec<Tell<S>>,
    ) -> Result<(), AllocError>
        ensures ok { OnOk result (CallsOnce self.old (input_of self.old.calls act.now) self.new) }
        ensures told { OnOk result
            (tells.new.items ≡ tells.old.items ++ tells_since number self.old self.new) }
    {
        match act {
            Act::Grv(opts) => self.read(rt, routing, opts),
            Act::Ask { processed, at } => {
                unless_out_of_memory(self.client.ask(rt, routing.gate, *processed, *at))
            }
            Act::Reask { num, processed, at } => {
                unless_out_of_memory(self.client.reask(rt, routing.gate, *num, *processed, *at))
            }
            Act::Report {
                num,
                locked,
                metadata,
                min_known,
            } => self.report(rt, routing, *num, *locked, *metadata, *min_known),
            Act::Tell { to } => self.tell(number, *to, tells),
        }
    }

    /// Reads the read version, at the desk of its next read.
    fn read<R: Wait, G: Gate>(
        &mut self,
        rt: &R,
        routing: &Routing<'_, S, G>,
        opts: &GrvOpts,
    ) -> Result<(), AllocError>
        ensures { OnOk result (CallsOnce self.old (input.Grv opts.now) self.new) }
    {
        let opts = opts.clone()?;
        let desk = routing.desk(&self.client, self.reads);
        let answer = self.client.read_version(rt, routing.gate, desk, opts);
        if !is_logged(&answer) {
            return Err(AllocError);
        }
        // This read is one of its calls, so that there is a number for one more.
        let calls = self.client.calls().len() as u64;
        prove!(self.reads < calls);
        self.reads += 1;
        unless_out_of_memory(answer)
    }

    fn report<R: Wait, G: Gate>(
        &mut self,
        rt: &R,
        routing: &Routing<'_, S, G>,
        num: u64,
        locked: bool,
        metadata: Option<[u8; 10]>,
        min_known: u64,
    ) -> Result<(), AllocError>
        ensures { OnOk result
            (CallsOnce self.old (input.Report num locked metadata min_known) self.new) }
    {
        unless_out_of_memory(
            self.client
                .report(rt, routing.gate, num, locked, metadata, min_known),
        )
    }

    /// Tells another what it has seen, which is learnt when the round is over.
    fn tell(&mut self, number: u32, to: u32, tells: &mut Vec<Tell<S>>) -> Result<(), AllocError>
        ensures ok { OnOk result (CallsOnce self.old (input.Tell to) self.new) }
        ensures told { OnOk result
            (tells.new.items ≡ tells.old.items ++ tells_since number self.old self.new) }
    {
        let Ok(seen) = self.client.tell(to) else {
            return Err(AllocError);
        };
        tells.push(Tell::new(number, to, seen))?;
        Ok(())
    }

    /// Learns what another told it, and logs that as a call. It fails for memory alone.
    pub(crate) fn learn<R: Wait>(&mut self, rt: &R, tell: Tell<S>) -> Result<(), AllocError>
        ensures number { OnOk result (self.new.number ≡ self.old.number) }
        ensures learnt { OnOk result (self.new.calls ≡ learns self.old.calls
            (record { teller = tell.from; position = tell.position })) }
    {
        let Tell { to: _, from, seen } = tell;
        match self.client.learn(rt, from, seen) {
            Ok(()) => Ok(()),
            Err(_) => Err(AllocError),
        }
    }
}

/// Whether a call with this answer is in the log, as all are that were not refused memory.
fn is_logged<T>(answer: &Result<T, ClientError>) -> bool
    ensures logged { result ≡ true → answer.now ≢ Err ClientError.Memory }
    ensures memory { result ≡ false → answer.now ≡ Err ClientError.Memory }
{
    !matches!(answer, Err(ClientError::Memory))
}

/// What an answer leaves to be done: nothing, but where memory was refused,
/// which is also why a proxy closes its desk while rounds are played.
fn unless_out_of_memory<T: Drop>(answer: Result<T, ClientError>) -> Result<(), AllocError>
    ensures { OnOk result (answer ≢ Err ClientError.Memory) }
{
    match answer {
        Err(ClientError::Memory | ClientError::ProxyClosed) => Err(AllocError),
        _ => Ok(()),
    }
}
