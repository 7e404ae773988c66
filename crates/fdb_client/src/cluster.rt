//! What the clients of a service call: a cluster, and one whose master was opened, before it has a
//! name.

ghost use Rattle.std.specs.Prelude.{◌≡◌, ◌%◌, reverse, IfOk, vec_len, ◌<◌, ℕ, [], None, Some};
ghost use Rattle.std.specs.Prelude.{slice_get, true};
ghost use Rattle.fdb_queue.specs.Throttles.{SameThrottles};
ghost use Rattle.fdb_live.specs.Seen.{epoch_from, origin_of};
ghost use Rattle.fdb_client.specs.Cluster.{IsClusterConfig};
ghost use Rattle.fdb_client.specs.private.Serving.{IsMadeFor};

use fdb_history::Record;
use fdb_live::{Epoch, Live, LiveRecord, Master, Opened, Seen};
use fdb_proxy::{Desk, GrvProxy};
use fdb_queue::{GrvQueue, QueueConfig, QueueError, Throttle};
use std::alloc::{AllocError, Global};
use std::marker::{Brand, Model};
use std::sync::Wait;

/// The most GRV proxies that a cluster may have, each with a thread of its own while it serves.
pub const MAX_GRV_PROXIES: u32 = 16;

/// What a cluster is made with: the versions that it begins from, how many call and serve there,
/// and how each GRV proxy's queue starts requests.
#[derive(Clone, Copy, Debug, PartialEq, Eq)]
pub struct ClusterConfig<'c> {
    /// The last version of the epoch before, below that of `start`.
    pub epoch_end: u64,
    /// The live committed version before any report. Its version is the first commit version, and
    /// its minimum known committed version is not above that.
    pub start: Record,
    /// The number of clients, 1 to [`MAX_REPORTERS`](fdb_live::MAX_REPORTERS). There is a commit
    /// proxy for each.
    pub clients: u32,
    /// The number of GRV proxies, 1 to [`MAX_GRV_PROXIES`].
    pub grv_proxies: u32,
    /// The rates and the capacity of the queue that each GRV proxy has of its own.
    pub queue: QueueConfig,
    /// The throttles that the queue of each GRV proxy is given, with tags of at most 16 bytes. Of
    /// two for one priority and one tag the later counts.
    pub throttles: &'c [Throttle],
    /// The time between two windows of a GRV proxy, 1 to 10,000,000 microseconds.
    pub elapsed: u64,
}

/// What the clients of a service call: a master, and the desks of GRV proxies, which serve there
/// while [`serve_while`](crate::serve_while) runs something else.
#[derive(Drop)]
pub struct Cluster<'c, S: Live> {
    pub(crate) config: ClusterConfig<'c>,
    pub(crate) master: Master<S>,
    pub(crate) desks: Vec<Desk<S>>,
    pub ghost in_range: { IsClusterConfig config },
    pub ghost epoch_end: { config.epoch_end ≡ S.epoch_end },
    pub ghost recovery: { config.start.version ≡ S.recovery },
    pub ghost start: { config.start ≡ S.start },
    pub ghost clients: { config.clients ≡ S.reporters },
    ghost each: { vec_len desks ≡ config.grv_proxies },
}

impl<'c, S: Live> Cluster<'c, S> {
    /// A cluster of this configuration that nobody has called yet, with the master that was opened
    /// for it. It is refused for memory alone.
    pub fn new(
        alloc: Global,
        master: Master<S>,
        config: ClusterConfig<'c>,
    ) -> Result<Self, AllocError>
        requires in_range { IsClusterConfig config }
        requires epoch_end { config.epoch_end ≡ S.epoch_end }
        requires recovery { config.start.version ≡ S.recovery }
        requires start { config.start ≡ S.start }
        requires clients { config.clients ≡ S.reporters }
        ensures config { IfOk result (λ cluster. cluster.config ≡ config.entry) }
        ensures master { IfOk result (λ cluster. cluster.master ≡ master) }
    {
        let desks = desks_of(alloc, config.grv_proxies)?;
        Ok(Cluster {
            config,
            master,
            desks,
        })
    }

    /// A copy of the configuration that it was made with, which never changes.
    pub fn config(&self) -> ClusterConfig<'c>
        ensures value { result ≡ self.now.config }
        ensures in_range { IsClusterConfig result }
    {
        self.config
    }

    /// The master, with a commit proxy for each client.
    pub fn master(&self) -> &Master<S>
        ensures { result.now ≡ self.now.master }
    {
        &self.master
    }

    /// The live record that all clients report to and all GRV proxies read.
    pub fn live(&self) -> &LiveRecord<S>
        ensures { result.now ≡ self.now.master.live }
    {
        self.master.record()
    }

    /// The desk of the GRV proxy with this number. They are numbered from 0, and beyond the last
    /// one they begin anew. Who closes a desk ends its proxy.
    pub fn desk(&self, number: u32) -> &Desk<S> {
        &self.desks[self.place(number)]
    }

    /// The place of that desk. (what a desk holds is behind a lock, and so no clause can tell one
    /// from another: this one says which is taken)
    fn place(&self, number: u32) -> usize
        ensures { result ≡ number % self.now.config.grv_proxies }
    {
        number as usize % self.desks.len()
    }

    /// The GRV proxy with this number, with a queue of its own, and a token that is split off
    /// another one. It is refused for memory alone.
    pub(crate) fn grv_proxy(
        &self,
        alloc: Global,
        number: u32,
        first: &mut Seen<S>,
    ) -> Result<GrvProxy<'_, S>, AllocError>
        ensures { IfOk result (IsMadeFor self.now.config) }
    {
        let queue = queue_of(alloc, self.config)?;
        let live = self.live();
        let seen = live.split(first);
        let desk = self.desk(number);
        Ok(GrvProxy::new(alloc, live, desk, queue, self.config.elapsed, seen))
    }

    /// Closes all desks, which ends the proxies that serve there. Takes no memory.
    pub(crate) fn close<R: Wait>(&self, rt: &R) {
        for desk in &self.desks {
            desk.close(rt);
        }
    }
}

/// So many open desks with no request on them.
fn desks_of<S: Live>(alloc: Global, grv_proxies: u32) -> Result<Vec<Desk<S>>, AllocError>
    ensures { IfOk result (λ desks. vec_len desks ≡ grv_proxies) }
{
    let mut desks = Vec::with_capacity(alloc, grv_proxies as usize)?;
    for _ in 0..grv_proxies {
        desks.push_reserved(Desk::new(alloc));
    }
    Ok(desks)
}

/// A queue of a GRV proxy, in which nothing waits.
fn queue_of<T>(alloc: Global, config: ClusterConfig<'_>) -> Result<GrvQueue<T>, AllocError>
    requires { IsClusterConfig config }
    ensures config { IfOk result (λ queue. queue.config ≡ config.entry.queue) }
    ensures throttles { IfOk result
        (λ queue. SameThrottles queue.throttles (reverse config.entry.throttles.now)) }
{
    match GrvQueue::with_throttles(alloc, config.queue, config.throttles) {
        Ok(queue) => Ok(queue),
        Err(QueueError::Memory) => Err(AllocError),
        Err(_) => unreachable!(),
    }
}

/// A cluster whose master was opened. Contracts see it as what the master was opened with, and the
/// configuration of the cluster. [`OpenedCluster::parts`] gives the cluster and its tokens, under a
/// type `S` that is the name of the service in their types, and stands for what contracts see.
#[derive(Drop)]
pub struct OpenedCluster<'c> {
    config: ClusterConfig<'c>,
    opened: Opened,
}

impl<'c> Model for OpenedCluster<'c> {
    ghost use Rattle.std.specs.Prelude.{◌≡◌, Some};
    ghost use Rattle.fdb_live.specs.Seen.{epoch_from};
    ghost use Rattle.fdb_client.specs.Cluster.{IsClusterConfig, Opening};

    ghost Value = { Opening };

    ghost view = { λ o. record { founding = o.opened; config = o.config } };

    ghost invariant = { λ o. IsClusterConfig o.config
        × (o.opened.start ≡ o.config.start)
        × (o.opened.reporters ≡ o.config.clients)
        × (o.opened.epoch ≡ Some (epoch_from o.config.epoch_end o.config.start.version)) };
}

/// A cluster that nobody has called yet, and its tokens, none of which has seen a change.
#[derive(Drop)]
pub struct ClusterParts<'c, S: Live> {
    /// The cluster, whose desks no proxy serves yet.
    pub cluster: Cluster<'c, S>,
    /// A token of the live record: for the GRV proxies, and to settle with.
    pub first: Seen<S>,
    /// The token of each client, at the place of its number.
    pub tokens: Vec<Seen<S>>,
}

impl<'c> ClusterConfig<'c> {
    /// Opens the master of a cluster of this configuration. It is refused for memory alone.
    pub fn open<R: Wait>(self, rt: &R, alloc: Global) -> Result<OpenedCluster<'c>, AllocError>
        requires { IsClusterConfig self }
        ensures config { IfOk result (λ opened. opened.config ≡ self.entry) }
        ensures start { IfOk result (λ opened. opened.founding.start ≡ self.entry.start) }
        ensures clients { IfOk result (λ opened. opened.founding.reporters ≡ self.entry.clients) }
        ensures epoch { IfOk result (λ opened. opened.founding.epoch
            ≡ Some (epoch_from self.entry.epoch_end self.entry.start.version)) }
    {
        let (before, start) = (self.epoch_end, self.start);
        let epoch = Epoch {
            before,
            recovery: start.version,
        };
        let Ok(opened) = LiveRecord::<Brand>::open(rt, alloc, start, self.clients, Some(epoch))
        else {
            return Err(AllocError);
        };
        Ok(OpenedCluster {
            config: self,
            opened,
        })
    }
}

impl<'c> OpenedCluster<'c> {
    /// The cluster under a name that stands for it, with its tokens. It is refused for memory alone;
    /// the cluster is then given up.
    pub fn parts<S: Live>(self, alloc: Global) -> Result<ClusterParts<'c, S>, AllocError>
        requires chained { S.chained ≡ true }
        requires opened { self.founding
            ≡ origin_of S.table S.start S.reporters S.chained S.epoch_end S.recovery }
        ensures config { IfOk result (λ parts. parts.cluster.config ≡ self.entry.config) }
        ensures first { IfOk result
            (λ parts. parts.first ≡ record { reporter = None; changes = []; answers = [] }) }
        ensures count { IfOk result (λ parts. vec_len parts.tokens ≡ S.reporters) }
        ensures tokens { IfOk result (λ parts. (k : ℕ) → k < S.reporters
            → slice_get parts.tokens.items k
            ≡ Some (record { reporter = Some k; changes = []; answers = [] })) }
    {
        let OpenedCluster { config, opened } = self;
        let Ok((master, first, tokens)) = opened.master::<S>() else {
            return Err(AllocError);
        };
        let cluster = Cluster::new(alloc, master, config)?;
        Ok(ClusterParts {
            cluster,
            first,
            tokens,
        })
    }
}
