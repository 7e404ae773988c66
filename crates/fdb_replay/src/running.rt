//! A run of a script, from its bytes to the printed lines: its GRV proxies, which serve while the
//! rounds are played, and its clients, from before the first round until they are finished.

ghost use Rattle.std.specs.Prelude.{◌≡◌, ◌<◌, ◌≤◌, IfOk, true, ℕ, [], Some, length, slice_get};
ghost use Rattle.std.specs.Prelude.{vec_len, OnOk, ◌≢◌, List, IfErr, Ok};
ghost use Rattle.std.specs.Io.KnownBytes.{Appends};
ghost use Rattle.std.specs.List.{FoldsTo};
ghost use Rattle.fdb_client.specs.Cluster.{IsClusterConfig};
ghost use Rattle.fdb_client.specs.Settling.{AreAllInPlace, HaveNumbers, logs_of};
ghost use Rattle.fdb_client.specs.Account.{new_account};
ghost use Rattle.fdb_client.specs.declared.cluster.TheConstants.{MAX_GRV_PROXIES};
ghost use Rattle.fdb_live.specs.Seen.{origin_of};
ghost use Rattle.fdb_script.specs.Plan.{IsPlan, Plan};
ghost use Rattle.fdb_script.specs.Reading.{ReadsAs};
ghost use Rattle.fdb_script.specs.Answering.{Answers, AnswersRound};
ghost use Rattle.fdb_script.specs.declared.script.TheConstants.{MAX_CLIENTS};
ghost use Rattle.fdb_replay.specs.Outcome.{IsRunOf, opening};
ghost use Rattle.fdb_replay.specs.Replay.{IsCut, Replays, Refuses};
ghost use Rattle.fdb_replay.specs.private.Configured.{IsConfigFor};

use crate::player::{Player, Routing};
use crate::rounds::play_rounds;
use fdb_client::{
    Client, Cluster, ClusterConfig, ClusterParts, FinishError, Finished, OpenedCluster, Served,
    clients_of, serve_while,
};
use fdb_command::write_whole;
use fdb_history::{Gate, Record, laws};
use fdb_live::{Live, Seen};
use fdb_script::{Outcome, Script, ScriptError, read_script, text};
use std::alloc::{AllocError, Global};
use std::io::Write;
use std::marker::Brand;
use std::sync::Wait;
use std::thread::Threads;
use thiserror::Error;

/// What a replay is told beside the script.
#[derive(Clone, Copy, Debug, PartialEq, Eq)]
pub struct ReplayOpts {
    /// The number of GRV proxies, 1 to 16.
    pub proxies: u32,
    /// Whether the history is written after the audit line.
    pub with_history: bool,
    pub ghost some_proxy: { 0 < proxies },
    pub ghost few_proxies: { proxies ≤ MAX_GRV_PROXIES },
}

/// Why a replay failed: in its script, for memory in its run, or in writing, in this order.
#[derive(Clone, Copy, Debug, PartialEq, Eq, Error)]
pub enum ReplayFault {
    /// The script was refused, or memory for its text.
    #[error("script refused: {0}")]
    Script(ScriptError),
    /// Memory was refused to the run, or a thread could not be had. A run fails for nothing else.
    #[error("out of memory")]
    Memory,
    /// The writer failed, and took a part of the text before it did, from its start on.
    #[error("writing failed")]
    Write,
}

/// Plays a script, and answers what it leaves: the logs of its clients, the chain of commit
/// versions, and a history that explains them, in the fixed order. It plays the rounds in order. In a round each client that has commands does them in
/// order, in a thread of its own; what was told in a round is learnt at its end.
///
/// There are 1 to [`MAX_GRV_PROXIES`](fdb_client::MAX_GRV_PROXIES) GRV proxies, each in a thread of
/// its own for the whole run. A client's reads go to them in turn. The gate is passed where the
/// sequencer's lock is held, where that of the reports is, and where an answer to a read has come.
///
/// It fails for memory alone: where that runs out, or a thread for a proxy or a client cannot be had.
/// An audit of what it leaves would find nothing: the logs come settled, which shows that no fault
/// stands in them. Each thread has been joined by then.
pub fn run<R: Threads + Wait + Sync, G: Gate>(
    rt: &R,
    alloc: Global,
    script: &Script,
    proxies: u32,
    gate: &G,
) -> Result<Outcome, AllocError>
    requires some_proxy { 0 < proxies }
    requires few_proxies { proxies ≤ MAX_GRV_PROXIES }
    ensures { IfOk result (IsRunOf script.now) }
{
    let opened = config_of(script, proxies).open(rt, alloc)?;
    run_named::<Brand, R, G>(rt, alloc, opened, script, gate)
}

/// What the cluster of a run is made with, with so many GRV proxies.
#[tactic(auto, using(crate::proofs::Throttled::may_be_set))]
fn config_of(script: &Script, proxies: u32) -> ClusterConfig<'_>
    requires some_proxy { 0 < proxies }
    requires few_proxies { proxies ≤ MAX_GRV_PROXIES }
    ensures script { IsConfigFor script.now result }
    ensures proxies { result.grv_proxies ≡ proxies }
    ensures in_range { IsClusterConfig result }
    ensures plan { IsPlan script.now }
{
    let setup = script.setup();
    ClusterConfig {
        epoch_end: setup.epoch_end,
        start: opening(setup.recovery),
        clients: setup.clients,
        grv_proxies: proxies,
        queue: setup.config,
        throttles: setup.throttles.as_slice(),
        elapsed: setup.elapsed,
    }
}

/// Plays a script under a name that stands for its cluster.
fn run_named<S: Live + Send + Sync, R: Threads + Wait + Sync, G: Gate>(
    rt: &R,
    alloc: Global,
    opened: OpenedCluster<'_>,
    script: &Script,
    gate: &G,
) -> Result<Outcome, AllocError>
    requires chained { S.chained ≡ true }
    requires plan { IsPlan script.now }
    requires config { IsConfigFor script.now opened.config }
    requires founding { opened.founding
        ≡ origin_of S.table S.start S.reporters S.chained S.epoch_end S.recovery }
    ensures { IfOk result (IsRunOf script.now) }
{
    let ClusterParts {
        cluster,
        mut first,
        tokens,
    } = opened.parts::<S>(alloc)?;
    let routing = Routing {
        cluster: &cluster,
        gate,
    };
    let finished = served(rt, alloc, &routing, &mut first, tokens, script)?;
    let run = cluster.settle(rt, first, finished);
    laws::minima_stay_within();
    let history = run.history(alloc)?;
    let chain = run.chain(alloc)?;
    Ok(Outcome {
        chain,
        logs: run.logs,
        history,
    })
}

/// The record before any report: the recovery version, unlocked and without metadata.
fn opening(recovery: u64) -> Record
    ensures { result ≡ opening recovery }
{
    Record {
        version: recovery,
        locked: false,
        metadata: None,
        min_known: 0,
    }
}

/// What a script's clients leave, once all its rounds are played at a cluster that nobody has called
/// yet. Meanwhile the GRV proxies of the cluster serve, with tokens that are split off the first
/// one; however the rounds end, all have ended then.
///
/// It fails where a proxy cannot be started, which leaves all rounds
/// unplayed, or where a client or a proxy runs out of memory.
fn served<S: Live + Send + Sync, R: Threads + Wait + Sync, G: Gate>(
    rt: &R,
    alloc: Global,
    routing: &Routing<'_, S, G>,
    first: &mut Seen<S>,
    tokens: Vec<Seen<S>>,
    script: &Script,
) -> Result<Finished<S>, AllocError>
    requires plan { IsPlan script.now }
    requires clients { script.now.setup.clients ≡ S.reporters }
    requires count { vec_len tokens ≡ S.reporters }
    requires numbered { (k : ℕ) → k < S.reporters
        → slice_get tokens.items k ≡ Some (record { reporter = Some k; changes = []; answers = [] }) }
    ensures answers { IfOk result (Answers script.now) }
{
    let clients = clients_of(alloc, routing.cluster.master(), tokens)?;
    let players = players_of(alloc, clients)?;
    let rounds = script.rounds();
    let Served { output, ends } = serve_while(
        rt,
        alloc,
        routing.cluster,
        first,
        move || -> Result<Finished<S>, AllocError>
            requires few { vec_len players ≤ MAX_CLIENTS }
            requires in_place { AreAllInPlace S.reporters players.items }
            ensures { IfOk result
                (FoldsTo AnswersRound (logs_of players.entry.items) rounds.entry.now) }
        {
            let players = play_rounds(rt, alloc, routing, players, rounds)?;
            finish(alloc, routing.cluster, players)
        },
    )?;
    if ends.all_served() {
        output
    } else {
        Err(AllocError)
    }
}

/// The players of a run, who have called nobody yet. Takes memory for them.
fn players_of<S: Live>(
    alloc: Global,
    clients: Vec<Client<'_, S>>,
) -> Result<Vec<Player<'_, S>>, AllocError>
    requires { (k : ℕ) → k < vec_len clients
        → slice_get clients.items k ≡ Some (new_account k [] []) }
    ensures players { IfOk result (λ players. players.items ≡ clients.entry.items) }
    ensures numbers { IfOk result (λ players. HaveNumbers players.items) }
{
    let mut players = Vec::with_capacity(alloc, clients.len())?;
    for client in clients {
        players.push_reserved(Player::new(client));
    }
    Ok(players)
}

/// The logs and tokens of the players, which they are given up for. It fails only where memory runs
/// out.
fn finish<S: Live>(
    alloc: Global,
    cluster: &Cluster<'_, S>,
    players: Vec<Player<'_, S>>,
) -> Result<Finished<S>, AllocError>
    requires { AreAllInPlace S.reporters players.items }
    ensures { IfOk result (λ finished. finished ≡ logs_of players.entry.items) }
{
    let mut clients = Vec::with_capacity(alloc, players.len())?;
    for player in players {
        clients.push_reserved(player.into_client());
    }
    match cluster.finish(alloc, clients) {
        Ok(finished) => Ok(finished),
        Err(FinishError::Memory) => Err(AllocError),
        Err(FinishError::Astray) => unreachable!(),
    }
}

/// Reads a script, plays it, and writes the replies, the audit line and, where it is wanted, the
/// history.
///
/// It fails as `Script` where the bytes stand for no script, or memory is refused to reading them
/// or to the text, as `Memory` where memory or a thread is refused to the run, and as `Write` where
/// the writer fails. There are 1 to [`MAX_GRV_PROXIES`](fdb_client::MAX_GRV_PROXIES) GRV proxies.
/// Nothing is written before the run is done, and nothing after a write that failed.
pub fn replay<R: Threads + Wait + Sync, G: Gate, W: Write>(
    rt: &R,
    alloc: Global,
    bytes: &[u8],
    opts: ReplayOpts,
    gate: &G,
    writer: &mut W,
) -> Result<(), ReplayFault>
    ensures ok { OnOk result ((written : List ℕ) × Replays bytes.now opts.with_history written
        × Appends (W.contents writer.old) (W.contents writer.new) written) }
    ensures err { IfErr result (Refuses bytes.now) }
    ensures unwritten { IfErr result
        (λ fault. fault ≢ ReplayFault.Write → writer.new ≡ writer.old) }
    ensures cut { IfErr result (λ fault. fault ≡ ReplayFault.Write
        → IsCut bytes.now opts.with_history (W.contents writer.old) (W.contents writer.new)) }
{
    let lines = replayed_text(rt, alloc, bytes, opts, gate)?;
    match write_whole(writer, &lines) {
        Ok(()) => Ok(()),
        Err(_) => Err(ReplayFault::Write),
    }
}

/// The text of a run of the script that these bytes stand for.
pub(crate) fn replayed_text<R: Threads + Wait + Sync, G: Gate>(
    rt: &R,
    alloc: Global,
    bytes: &[u8],
    opts: ReplayOpts,
    gate: &G,
) -> Result<Vec<u8>, ReplayFault>
    ensures ok { IfOk result (λ lines. Replays bytes.now opts.with_history lines.items) }
    ensures err { IfErr result (Refuses bytes.now) }
    ensures unwritten { IfErr result (λ fault. fault ≢ ReplayFault.Write) }
{
    match read_script(alloc, bytes) {
        Ok(script) => run_text(rt, alloc, &script, opts, gate),
        Err(error) => Err(ReplayFault::Script(error)),
    }
}

/// The text of a run of a script, whatever bytes it was read from.
fn run_text<R: Threads + Wait + Sync, G: Gate>(
    rt: &R,
    alloc: Global,
    script: &Script,
    opts: ReplayOpts,
    gate: &G,
) -> Result<Vec<u8>, ReplayFault>
    ensures ok { (bytes : List ℕ) → ReadsAs bytes (Ok script.now)
        → IfOk result (λ lines. Replays bytes opts.with_history lines.items) }
    ensures err { (bytes : List ℕ) → ReadsAs bytes (Ok script.now) → IfErr result (Refuses bytes) }
    ensures unwritten { IfErr result (λ fault. fault ≢ ReplayFault.Write) }
{
    let outcome = match run(rt, alloc, script, opts.proxies, gate) {
        Ok(outcome) => outcome,
        Err(_) => return Err(ReplayFault::Memory),
    };
    match text(alloc, script, &outcome, opts.with_history) {
        Ok(lines) => Ok(lines),
        Err(error) => Err(ReplayFault::Script(error)),
    }
}
