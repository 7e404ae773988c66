//! Calls that a user writes, at a cluster of a master and GRV proxies, and what the clients leave.

ghost use Rattle.std.specs.Prelude.{◌≡◌, ◌<◌, ◌≤◌, ℕ, [], IfErr, IfOk, List, Some, ⊤, slice_get};
ghost use Rattle.std.specs.Prelude.{true, vec_len, length};
ghost use Rattle.fdb_history.specs.Chain.{IsChain};
ghost use Rattle.fdb_history.specs.Laws.{HaveMinimaWithin};
ghost use Rattle.fdb_live.specs.Seen.{origin_of};
ghost use Rattle.fdb_live.specs.declared.opened.TheConstants.{MAX_REPORTERS};
ghost use Rattle.fdb_client.specs.Account.{Account, new_account};
ghost use Rattle.fdb_client.specs.Cluster.{IsClusterConfig};
ghost use Rattle.fdb_client.specs.Merging.{chain_in};
ghost use Rattle.fdb_client.specs.Settling.{AreAllInPlace, AreNew, logs_of, HaveNumbers};
ghost use Rattle.fdb_client.specs.declared.cluster.ClusterConfig.{ClusterConfig};

use crate::client::Client;
use crate::cluster::{Cluster, ClusterConfig, ClusterParts, OpenedCluster};
use crate::serving::{Ends, Served, serve_while};
use crate::settled_run::SettledRun;
use fdb_history::ClientLog;
use fdb_live::{Live, Master, Seen};
use std::alloc::{AllocError, Global};
use std::marker::{Brand, Model};
use std::sync::Wait;
use std::thread::Threads;
use thiserror::Error;

/// Calls that a user writes, to be made at a cluster (`TestWorkload`, FoundationDB 7.1).
pub trait Workload<R> {
    /// What the calls come to, which is handed back beside the settled logs.
    type Output: Drop;

    // What it promises of a cluster made with this, of the clients that it leaves, and of that.
    ghost gives: { Self → ClusterConfig → List Account → Self.Output → Type 0 } = { λ _ _ _ _. ⊤ };

    /// Has the clients call the cluster, in the thread that called `run_workload`. There are as
    /// many as the cluster was made for, each at the place of its number, where it is to be found
    /// at the end too. They have called nobody yet, and have seen nothing.
    fn start<S: Live>(
        self,
        rt: &R,
        cluster: &Cluster<'_, S>,
        clients: &mut [Client<'_, S>],
    ) -> Self::Output
        requires { AreNew S.reporters clients.old }
        ensures { gives self cluster.now.config clients.new result };
}

/// What a workload at a cluster has left, once its GRV proxies have ended and its logs are settled.
#[derive(Debug, Drop)]
pub struct WorkloadOutcome<O> {
    /// What [`Workload::start`] returned, of which `gives` holds.
    pub output: O,
    /// The logs of its clients and the chain of commit versions, settled.
    pub run: SettledRun,
    /// Whether each GRV proxy served until its desk was closed.
    pub ends: Ends,
}

/// Runs a workload at a new cluster, and answers what came of it, its clients' logs and the chain of
/// commit versions, settled, and how the GRV proxies ended.
///
/// Each GRV proxy serves in a thread of its own, and all have ended before this returns: it waits
/// for the workload, and then for them. It is refused as `Memory` where memory runs out or a thread
/// cannot be had, and as `Astray` where the workload left a client at another place than that of
/// its number.
pub fn run_workload<R: Threads + Wait + Sync, W: Workload<R> + Drop>(
    rt: &R,
    alloc: Global,
    config: ClusterConfig<'_>,
    workload: W,
) -> Result<WorkloadOutcome<W::Output>, FinishError>
    requires { IsClusterConfig config }
    ensures gives { IfOk result (λ ran. (left : List Account)
        × W.gives workload config.entry left ran.output
        × AreAllInPlace config.entry.clients left × (ran.run.logs.items ≡ logs_of left)) }
    ensures ends { IfOk result (λ ran. vec_len ran.ends.served ≡ config.entry.grv_proxies) }
    ensures astray { IfErr result (λ cause. cause ≡ FinishError.Astray
        → (left : List Account) × (output : W.Output)
        × W.gives workload config.entry left output
        × (AreAllInPlace config.entry.clients left → ⊥)) }
    ensures epoch_end { IfOk result (λ ran. ran.run.epoch_end ≡ config.entry.epoch_end) }
    ensures start { IfOk result (λ ran. ran.run.start ≡ config.entry.start) }
    ensures logs { IfOk result (λ ran. vec_len ran.run.logs ≡ config.entry.clients) }
    ensures minima { IfOk result (λ ran. HaveMinimaWithin ran.run.logs.items) }
    ensures one_chain { IfOk result (λ ran. IsChain config.entry.epoch_end
        config.entry.start.version (chain_in ran.run.drawn ran.run.logs.items)) }
{
    let opened = config.open(rt, alloc)?;
    run_named::<Brand, R, W>(rt, alloc, opened, workload)
}

/// Runs it under a name that stands for the cluster.
fn run_named<S: Live + Send + Sync, R: Threads + Wait + Sync, W: Workload<R> + Drop>(
    rt: &R,
    alloc: Global,
    opened: OpenedCluster<'_>,
    workload: W,
) -> Result<WorkloadOutcome<W::Output>, FinishError>
    requires chained { S.chained ≡ true }
    requires opened { opened.founding
        ≡ origin_of S.table S.start S.reporters S.chained S.epoch_end S.recovery }
    ensures gives { IfOk result (λ ran. (left : List Account)
        × W.gives workload opened.entry.config left ran.output
        × AreAllInPlace S.reporters left × (ran.run.logs.items ≡ logs_of left)) }
    ensures ends { IfOk result
        (λ ran. vec_len ran.ends.served ≡ opened.entry.config.grv_proxies) }
    ensures astray { IfErr result (λ cause. cause ≡ FinishError.Astray
        → (left : List Account) × (output : W.Output)
        × W.gives workload opened.entry.config left output
        × (AreAllInPlace S.reporters left → ⊥)) }
    ensures epoch_end { IfOk result (λ ran. ran.run.epoch_end ≡ opened.entry.config.epoch_end) }
    ensures start { IfOk result (λ ran. ran.run.start ≡ opened.entry.founding.start) }
    ensures logs { IfOk result (λ ran. vec_len ran.run.logs ≡ opened.entry.founding.reporters) }
    ensures minima { IfOk result (λ ran. HaveMinimaWithin ran.run.logs.items) }
    ensures one_chain { IfOk result (λ ran.
        IsChain S.epoch_end S.recovery (chain_in ran.run.drawn ran.run.logs.items)) }
{
    let ClusterParts {
        cluster,
        mut first,
        tokens,
    } = opened.parts::<S>(alloc)?;
    let clients = clients_of(alloc, cluster.master(), tokens)?;
    let Served { output, ends } = serve_while(
        rt,
        alloc,
        &cluster,
        &mut first,
        || -> Result<(W::Output, Finished<S>), FinishError>
            requires { AreNew S.reporters clients.items }
            ensures gives { IfOk result (λ ran. (left : List Account)
                × W.gives workload cluster.entry.config left ran.0
                × AreAllInPlace S.reporters left × (ran.1 ≡ logs_of left)) }
            ensures astray { IfErr result (λ cause. cause ≡ FinishError.Astray
                → (left : List Account) × (output : W.Output)
                × W.gives workload cluster.entry.config left output
                × (AreAllInPlace S.reporters left → ⊥)) }
        { played(rt, alloc, &cluster, clients, workload) },
    )?;
    match output {
        Ok((output, finished)) => Ok(WorkloadOutcome {
            output,
            run: cluster.settle(rt, first, finished),
            ends,
        }),
        Err(cause) => Err(cause),
    }
}

/// Has the clients of a cluster play a workload. Answers what came of it, and what they left.
fn played<S: Live, R, W: Workload<R>>(
    rt: &R,
    alloc: Global,
    cluster: &Cluster<'_, S>,
    mut clients: Vec<Client<'_, S>>,
    workload: W,
) -> Result<(W::Output, Finished<S>), FinishError>
    requires { AreNew S.reporters clients.items }
    ensures gives { IfOk result (λ ran. (left : List Account)
        × W.gives workload cluster.now.config left ran.0
        × AreAllInPlace S.reporters left × (ran.1 ≡ logs_of left)) }
    ensures astray { IfErr result (λ cause. cause ≡ FinishError.Astray
        → (left : List Account) × (output : W.Output)
        × W.gives workload cluster.now.config left output
        × (AreAllInPlace S.reporters left → ⊥)) }
{
    let output = workload.start::<S>(rt, cluster, clients.as_mut_slice());
    match cluster.finish(alloc, clients) {
        Ok(finished) => Ok((output, finished)),
        Err(cause) => Err(cause),
    }
}

/// A client for each token, which has called nobody yet and has seen nothing. The one at a place has
/// the token there, and the place for its number. It takes memory for the clients, in one piece, and
/// is refused for that alone.
pub fn clients_of<'a, S: Live>(
    alloc: Global,
    master: &'a Master<S>,
    tokens: Vec<Seen<S>>,
) -> Result<Vec<Client<'a, S>>, AllocError>
    requires few { vec_len tokens ≤ MAX_REPORTERS }
    requires tokens { (k : ℕ) → k < vec_len tokens
        → slice_get tokens.items k
        ≡ Some (record { reporter = Some k; changes = []; answers = [] }) }
    ensures count { IfOk result (λ clients. vec_len clients ≡ vec_len tokens) }
    ensures new { IfOk result (λ clients. (k : ℕ) → k < vec_len clients
        → slice_get clients.items k ≡ Some (new_account k [] [])) }
{
    let mut clients = Vec::with_capacity(alloc, tokens.len())?;
    let mut number = 0;
    for token in tokens {
        clients.push_reserved(new_client(alloc, number, master, token));
        number += 1;
    }
    Ok(clients)
}

/// The client of a token that has seen nothing.
fn new_client<S: Live>(
    alloc: Global,
    number: u32,
    master: &Master<S>,
    token: Seen<S>,
) -> Client<'_, S>
    requires { token ≡ record { reporter = Some number; changes = []; answers = [] } }
    ensures { result ≡ new_account number [] [] }
{
    Client::new(alloc, number, master, token)
}

/// What the clients of a cluster have left: the log of each, at the place of its number, and beside
/// it the token that it agrees with. The logs are handed out once they are settled, by
/// [`Cluster::settle`].
///
/// Contracts see it as the logs.
#[derive(Drop)]
pub struct Finished<S: Live> {
    pub(crate) logs: Vec<ClientLog>,
    pub(crate) tokens: Vec<Seen<S>>,
}

impl<S: Live> Model for Finished<S> {
    ghost use Rattle.std.specs.Prelude.{◌≡◌, List, length};
    ghost use Rattle.fdb_client.specs.Settling.{AllAgree, AllAgreeWithChain};
    ghost use Rattle.fdb_history.specs.declared.log.ClientLog.{ClientLog};
    ghost use Rattle.fdb_live.specs.Gathering.{AreNumbered};

    ghost Value = { List ClientLog };

    ghost view = { λ finished. finished.logs.items };

    ghost invariant = { λ finished. (length finished.logs.items ≡ S.reporters)
        × (length finished.tokens.items ≡ S.reporters)
        × AreNumbered finished.tokens.items
        × AllAgree S.start finished.logs.items finished.tokens.items
        × AllAgreeWithChain S.epoch_end S.recovery finished.logs.items finished.tokens.items };
}

/// Why the clients of a cluster, or a workload, have left nothing.
#[derive(Clone, Copy, Debug, PartialEq, Eq, Error)]
pub enum FinishError {
    /// The clients that were left are not all clients of the cluster, each at the place of its
    /// number.
    #[error("a client is not in its place")]
    Astray,
    /// Memory was refused, or a thread could not be had; the clients are given up all the same.
    #[error("out of memory")]
    Memory,
}

impl From<AllocError> for FinishError {
    ghost use Rattle.std.specs.Prelude.{◌≡◌};
    ghost use Rattle.fdb_client.specs.declared.workload.FinishError.TheVariants.{Memory};

    ghost from_gives = { λ _ error. error ≡ Memory };

    fn from(_refused: AllocError) -> Self {
        FinishError::Memory
    }
}

impl<'c, S: Live> Cluster<'c, S> {
    /// What all clients of this cluster leave, from whichever positions they began.
    ///
    /// It is refused as `Astray` exactly where these are not the clients of the cluster, each at the
    /// place of its number, and else for memory. They are given up then.
    pub fn finish(
        &self,
        alloc: Global,
        clients: Vec<Client<'_, S>>,
    ) -> Result<Finished<S>, FinishError>
        ensures logs { IfOk result (λ finished. finished ≡ logs_of clients.entry.items) }
        ensures in_place { IfOk result (λ _. AreAllInPlace S.reporters clients.entry.items) }
        ensures memory { AreAllInPlace S.reporters clients.entry.items
            → IfErr result (λ cause. cause ≡ FinishError.Memory) }
        ensures astray { IfErr result (λ cause. cause ≡ FinishError.Astray
            → AreAllInPlace S.reporters clients.entry.items → ⊥) }
    {
        if clients.len() != self.config.clients as usize || !are_in_place(&clients) {
            return Err(FinishError::Astray);
        }
        let finished = finish_all(alloc, clients)?;
        Ok(finished)
    }
}

/// Whether each client stands at the place of its number.
fn are_in_place<S: Live>(clients: &[Client<'_, S>]) -> bool
    ensures in_place { result ≡ true → HaveNumbers clients.now }
    ensures exact { HaveNumbers clients.now → result ≡ true }
{
    for place in 0..clients.len() {
        let number = clients[place].number();
        if number as usize != place {
            return false;
        }
    }
    true
}

/// The logs of clients that stand each at the place of its number, and their tokens.
fn finish_all<S: Live>(
    alloc: Global,
    clients: Vec<Client<'_, S>>,
) -> Result<Finished<S>, AllocError>
    requires count { vec_len clients ≡ S.reporters }
    requires in_place { HaveNumbers clients.items }
    ensures { IfOk result (λ finished. finished ≡ logs_of clients.entry.items) }
{
    let mut logs = Vec::new(alloc);
    let mut tokens = Vec::new(alloc);
    for client in clients {
        let (log, token) = client.finish();
        logs.push(log)?;
        tokens.push(token)?;
    }
    Ok(Finished { logs, tokens })
}
