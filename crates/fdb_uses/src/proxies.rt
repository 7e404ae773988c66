//! Requests in the queue of a GRV proxy, and clients that read through proxies, which serve in
//! threads of their own.

ghost use Rattle.std.specs.Prelude.{◌≡◌, IfOk, true};
ghost use Rattle.fdb_client.specs.Cluster.{IsClusterConfig};
ghost use Rattle.fdb_history.specs.Linear.{IsLinear};
ghost use Rattle.fdb_live.specs.Seen.{origin_of};

use crate::START;
use anyhow::{Result, anyhow};
use fdb_client::{
    Client, Cluster, ClusterConfig, ClusterParts, Finished, OpenedCluster, Served, SettledRun,
    Workload, WorkloadOutcome, clients_of, run_workload, serve_while,
};
use fdb_history::{GrvOpts, History, OpenGate, Priority, Sequence};
use fdb_live::Live;
use fdb_queue::{GrvQueue, QueueConfig, Req};
use std::alloc::Global;
use std::marker::Brand;
use std::sync::Wait;
use std::thread::{self, Threads};

/// The time between two windows, in microseconds: a second.
const ELAPSED: u64 = 1_000_000;

/// What a window grants, and how many requests may wait.
const CONFIG: QueueConfig = QueueConfig {
    normal: 10,
    batch: 5,
    room: 100,
};

/// The queue, of which each request has a name.
type Queue = GrvQueue<&'static str>;

/// Has two requests wait, of which one window starts the first. The second has more transactions
/// than a window grants; the queue tells how many windows it still waits.
pub(crate) fn one_window(rt: &impl Print, alloc: Global) -> Result<()> {
    let mut queue = GrvQueue::new(alloc, CONFIG)?;
    offer(&mut queue, "first", 8)?;
    offer(&mut queue, "second", 30)?;
    for request in queue.window(ELAPSED)? {
        println!(rt; "started the {} request", request.payload)?;
    }
    if let Some(windows) = queue.waits(ELAPSED) {
        println!(rt; "the second request waits for {windows} windows more")?;
    }
    Ok(())
}

/// Has a request for so many transactions wait.
fn offer(queue: &mut Queue, payload: &'static str, count: u64) -> Result<()> {
    let request = Req {
        priority: Priority::Default,
        count,
        payload,
    };
    match queue.offer(request) {
        Ok(_pushed_out) => Ok(()),
        Err((cause, _request)) => Err(anyhow!("{cause}")),
    }
}

/// A cluster of two clients and two GRV proxies.
pub(crate) fn config() -> ClusterConfig<'static>
    ensures { IsClusterConfig result }
{
    ClusterConfig {
        epoch_end: 0,
        start: START,
        clients: 2,
        grv_proxies: 2,
        queue: QueueConfig {
            normal: 1_000,
            batch: 500,
            room: 1_000,
        },
        throttles: &[],
        elapsed: 1_000_000,
    }
}

/// Has two clients work at a cluster, and explains what they were answered by one history.
pub(crate) fn two_clients<R: Print + Threads + Wait + Sync>(
    rt: &R,
    alloc: Global,
) -> Result<SettledRun> {
    let WorkloadOutcome { output, run, ends } = run_workload(
        rt,
        alloc,
        config(),
        CommitAndRead { alloc },
    )?;
    output?;
    if !ends.all_served() {
        return Err(anyhow!("a GRV proxy ran out of memory"));
    }
    let history = run.history(alloc)?;
    println!(rt; "explained by {} events", history.events.len())?;
    Ok(run)
}

/// One client commits and tells the other, and both read.
#[derive(Drop)]
struct CommitAndRead {
    alloc: Global,
}

impl<R: Print + Wait> Workload<R> for CommitAndRead {
    type Output = Result<()>;

    /// The first draws two commit versions, and reports the second. Then each reads through a proxy
    /// of its own, and none reads less than it has seen committed.
    fn start<S: Live>(
        self,
        rt: &R,
        cluster: &Cluster<'_, S>,
        clients: &mut [Client<'_, S>],
    ) -> Result<()> {
        if clients.len() != 2 {
            return Err(anyhow!("two clients are wanted"));
        }
        let (zero, one) = clients.split_at_mut(1);
        let (writer, reader) = (&mut zero[0], &mut one[0]);
        writer.ask(rt, &OpenGate, 0, 1_000)?;
        writer.ask(rt, &OpenGate, 0, 3_000)?;
        let ack = writer.report(rt, &OpenGate, 2, false, None, 0)?;
        let told = writer.tell(reader.number())?;
        if let Err((cause, _told)) = reader.learn(rt, writer.number(), told) {
            return Err(anyhow!("{cause}"));
        }
        let own = writer.read_version(rt, &OpenGate, cluster.desk(0), opts(self.alloc))?;
        let other = reader.read_version(rt, &OpenGate, cluster.desk(1), opts(self.alloc))?;
        println!(rt;
            "committed: raised {}; read versions {} and {}",
            ack.raised, own.version, other.version
        )?;
        Ok(())
    }
}

/// How the read version of one transaction is asked for.
pub(crate) fn opts(alloc: Global) -> GrvOpts {
    GrvOpts {
        priority: Priority::Default,
        count: 1,
        tags: Sequence::new(alloc),
        lock_aware: false,
        at: 0,
        use_min: false,
    }
}

/// Has two clients read at once, and tells how many events explain what they were answered.
pub(crate) fn two_readers<R: Print + Threads + Wait + Sync>(rt: &R, alloc: Global) -> Result<()> {
    let opened = config().open(rt, alloc)?;
    let (_run, history) = read_side_by_side::<Brand, R>(rt, alloc, opened)?;
    println!(rt; "explained by {} events", history.events.len())?;
    Ok(())
}

/// Two clients read at once, while GRV proxies serve in threads of their own. One history of the
/// register explains all that they were answered.
fn read_side_by_side<S: Live + Send + Sync, R: Print + Threads + Wait + Sync>(
    rt: &R,
    alloc: Global,
    opened: OpenedCluster<'_>,
) -> Result<(SettledRun, History)>
    requires chained { S.chained ≡ true }
    requires founding { opened.founding
        ≡ origin_of S.table S.start S.reporters S.chained S.epoch_end S.recovery }
    ensures { IfOk result (λ left. IsLinear S.start left.0.logs.items left.1.events) }
{
    let ClusterParts {
        cluster,
        mut first,
        tokens,
    } = opened.parts::<S>(alloc)?;
    let clients = clients_of(alloc, cluster.master(), tokens)?;
    let Served { output, ends } = serve_while(rt, alloc, &cluster, &mut first, || {
        read_both(rt, alloc, &cluster, clients)
    })?;
    if !ends.all_served() {
        return Err(anyhow!("a GRV proxy ran out of memory"));
    }
    let run = cluster.settle(rt, first, output?);
    let history = run.history(alloc)?;
    Ok((run, history))
}

/// Both read, each in a thread and at a desk of its own. Answers what they leave.
fn read_both<S: Live + Send + Sync, R: Print + Threads + Wait + Sync>(
    rt: &R,
    alloc: Global,
    cluster: &Cluster<'_, S>,
    mut clients: Vec<Client<'_, S>>,
) -> Result<Finished<S>> {
    if clients.len() != 2 {
        return Err(anyhow!("two clients are wanted"));
    }
    let (zero, one) = clients.as_mut_slice().split_at_mut(1);
    let (zero, one) = (&mut zero[0], &mut one[0]);
    let (first, second) = thread::join(
        rt,
        || zero.read_version(rt, &OpenGate, cluster.desk(0), opts(alloc)),
        || one.read_version(rt, &OpenGate, cluster.desk(1), opts(alloc)),
    );
    println!(rt; "read {} and {} at once", first?.version, second?.version)?;
    Ok(cluster.finish(alloc, clients)?)
}
