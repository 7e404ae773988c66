//! Workloads at a cluster: calls of each client, a desk that is closed, and clients out of place.

ghost use Rattle.std.specs.Prelude.{◌≡◌, IfSome};
ghost use Rattle.fdb_client.specs.Cluster.{IsClusterConfig};
ghost use Rattle.std.specs.List.{list_all};
ghost use Rattle.fdb_queue.specs.Throttles.{is_throttle};

use crate::proxy::desks::tag;
use fdb_checks::{CaseError, TableLine, lines_of};
use fdb_client::{
    Client, ClientError, Cluster, ClusterConfig, Ends, FinishError, SettledRun, Workload,
    run_workload,
};
use fdb_history::{
    GrvOpts, Issued, MAX_VERSION, OpenGate, Priority, Record, Sequence, Tag, TagLimit,
};
use fdb_live::Live;
use fdb_queue::{QueueConfig, Throttle};
use fdb_script::push_verdict;
use std::alloc::{AllocError, Global};
use std::sync::Wait;
use std::test::Fail;
use std::thread::Threads;

/// Plays a text at a number, whose calls are workloads: `visits` has how many clients, GRV proxies and
/// throttles there are, the first version, how often each client reads through each GRV proxy, and how
/// many tags and transactions a read has. Behind that may stand `asks` and how many versions each client
/// draws, else one; or `closes` and a desk from 1 on, which is closed before; and `swaps`: two clients are
/// left at one another's places.
pub(crate) fn play_workloads<R: Threads + Wait + Sync>(
    rt: &R,
    alloc: Global,
    text: &str,
    number: u64,
) -> Result<(), CaseError> {
    for mut line in lines_of(alloc, text, number)? {
        let is_visit = line.word() == "visits";
        line.holds(is_visit, "no call");
        visit(rt, &mut line);
        line.ends()?;
    }
    Ok(())
}

/// Each client in turn draws commit versions, reports the first with a lock, and reads through each GRV
/// proxy, and once more through the first.
#[derive(Drop)]
struct Visits {
    alloc: Global,
    /// How many versions it draws, and how often it reads through each.
    asks: u64,
    reads: u64,
    /// Of how many transactions, and with the tag `t` how often.
    tags: u64,
    count: u64,
    /// The desk that is closed before.
    closed: Option<u64>,
    /// Whether two clients are left at one another's places.
    swaps: bool,
}

/// Whether each read came to what it should, unless a call was refused, and the GRV proxy of the
/// last read.
type Visited = (Result<bool, ClientError>, u32);

impl<R: Wait> Workload<R> for Visits {
    type Output = Visited;

    fn start<S: Live>(
        self,
        rt: &R,
        cluster: &Cluster<'_, S>,
        clients: &mut [Client<'_, S>],
    ) -> Visited {
        if let Some(number) = self.closed {
            cluster.desk(number.min(15) as u32).close(rt);
        }
        let mut last = 0;
        let mut found = Ok(true);
        for client in clients.iter_mut() {
            if found == Ok(true) {
                found = self.visits(rt, cluster, client, &mut last);
            }
        }
        if self.swaps && clients.len() > 1 {
            clients.swap(0, 1);
        }
        (found, last)
    }
}

impl Visits {
    /// The calls of one client.
    fn visits<S: Live, R: Wait>(
        &self,
        rt: &R,
        cluster: &Cluster<'_, S>,
        client: &mut Client<'_, S>,
        last: &mut u32,
    ) -> Result<bool, ClientError> {
        for _ in 0..self.asks {
            client.ask(rt, &OpenGate, 0, 0)?;
        }
        client.report(rt, &OpenGate, 1, true, Some([8; 10]), 0)?;
        let mut right = true;
        let grv_proxies = cluster.config().grv_proxies;
        for number in 0..=grv_proxies {
            *last = if number < grv_proxies { number } else { 0 };
            for place in 0..self.reads {
                right &= self.read_at(rt, cluster, client, (*last, number), place)?;
            }
        }
        Ok(right)
    }

    /// A read at the desk of a GRV proxy by a number, of which the one after the last is the first.
    /// Later reads have numbers further beyond the last.
    fn read_at<S: Live, R: Wait>(
        &self,
        rt: &R,
        cluster: &Cluster<'_, S>,
        client: &mut Client<'_, S>,
        (proxy, number): (u32, u32),
        place: u64,
    ) -> Result<bool, ClientError> {
        let opts = self.opts(place)?;
        let limited = opts.priority == Priority::Default;
        let closed = self.closed == Some(u64::from(proxy));
        let further = (place % 1_000) as u32 * cluster.config().grv_proxies;
        let desk = cluster.desk(number.saturating_add(further));
        match client.read_version(rt, &OpenGate, desk, opts) {
            Ok(read) => Ok(!closed && self.is_limited(&read.limits, limited)),
            Err(ClientError::ProxyClosed) if closed => Ok(true),
            Err(cause) => Err(cause),
        }
    }

    /// Whether each tag of a read has its limit, if they have any.
    fn is_limited(&self, limits: &Sequence<TagLimit>, limited: bool) -> bool {
        let wanted = if limited { self.tags } else { 0 };
        let each = limits
            .iter()
            .all(|limit| limit.rate == 5 && limit.expires == 5_000);
        each && limits.len() as u64 == wanted
    }

    /// A read that does not mind locks. Each is at the next priority, and every fifth one asks for
    /// the minimum.
    fn opts(&self, place: u64) -> Result<GrvOpts, AllocError> {
        let mut tags: Sequence<Tag> = Sequence::new(self.alloc);
        for _ in 0..self.tags {
            tags.push(tag(self.alloc, "t")?)?;
        }
        let priority = match place % 3 {
            0 => Priority::Default,
            1 => Priority::System,
            _ => Priority::Batch,
        };
        Ok(GrvOpts {
            priority,
            count: self.count,
            tags,
            lock_aware: true,
            at: 4_999,
            use_min: place % 5 == 4,
        })
    }
}

/// Whether the tag of each is within its limit.
fn are_in_range(throttles: &[Throttle]) -> bool
    ensures { result ≡ list_all is_throttle throttles.now }
{
    throttles.iter().all(|throttle| throttle.is_in_range())
}

/// So many throttles of default requests. The first two are of the tag `t`, of which the second
/// counts, and each other one of a tag of its own.
fn throttles_of(alloc: Global, number: u64) -> Result<Vec<Throttle>, AllocError> {
    let mut throttles = Vec::new(alloc);
    for place in 0..number {
        let tag = match place {
            0 | 1 => tag(alloc, "t")?,
            _ => Tag::from(place.to_le_bytes().to_vec(alloc)?),
        };
        throttles.push(Throttle {
            priority: Priority::Default,
            tag,
            rate: if place == 0 && number > 1 { 4 } else { 5 },
            expires: 5_000,
        })?;
    }
    Ok(throttles)
}

/// How much there is at a cluster.
#[derive(Clone, Copy)]
struct Size {
    clients: u64,
    grv_proxies: u64,
    throttles: u64,
    /// The version of the record that it begins with.
    version: u64,
}

/// What is made at a cluster that begins with a locked record, whose version is its minimum, if that may
/// be.
fn config_of(size: Size, throttles: &[Throttle]) -> Option<ClusterConfig<'_>>
    ensures { IfSome result IsClusterConfig }
{
    let begins = size.version > 0 && size.version <= MAX_VERSION;
    let serves = (1..=64).contains(&size.clients) && (1..=16).contains(&size.grv_proxies);
    if !begins || !serves || !are_in_range(throttles) {
        return None;
    }
    Some(ClusterConfig {
        epoch_end: size.version - 1,
        start: Record {
            version: size.version,
            locked: true,
            metadata: Some([1, 2, 3, 4, 5, 6, 7, 8, 9, 10]),
            min_known: size.version,
        },
        clients: size.clients as u32,
        grv_proxies: size.grv_proxies as u32,
        queue: QueueConfig {
            normal: 100_000,
            batch: 100_000,
            room: 100_000,
        },
        throttles,
        elapsed: 10_000_000,
    })
}

/// Whether all that comes of a workload is right, unless it is refused.
fn ran<R: Threads + Wait + Sync>(
    rt: &R,
    alloc: Global,
    size: Size,
    visits: Visits,
) -> Result<bool, FinishError> {
    let throttles = throttles_of(alloc, size.throttles)?;
    let Some(config) = config_of(size, &throttles) else {
        return Ok(false);
    };
    let reads = visits
        .reads
        .saturating_mul(size.grv_proxies.saturating_add(1));
    let (asks, closes) = (visits.asks, visits.closed.is_some());
    let ran = run_workload(rt, alloc, config, visits)?;
    if !came_to(ran.output, &ran.ends)? {
        return Ok(false);
    }
    Ok(explained(alloc, &ran.run, size.clients, (asks, reads), closes)?)
}

/// Whether each read came to what it should. A GRV proxy that was refused memory has closed its
/// desk, and each other one served on.
fn came_to((output, last): Visited, ends: &Ends) -> Result<bool, FinishError> {
    let ended = ends
        .served
        .iter()
        .enumerate()
        .all(|(place, served)| *served == (place != last as usize));
    match output {
        Ok(right) if ends.all_served() => Ok(right),
        Err(ClientError::ProxyClosed) if !ended => Ok(false),
        Ok(_) | Err(ClientError::Memory | ClientError::ProxyClosed) => Err(FinishError::Memory),
        Err(_) => Ok(false),
    }
}

/// Whether each client has its versions, drawn in turn by the commit proxy of its own number, and a log
/// of its calls and no others; and whether one history explains all, which is printed.
fn explained(
    alloc: Global,
    run: &SettledRun,
    clients: u64,
    (asks, reads): (u64, u64),
    closes: bool,
) -> Result<bool, AllocError> {
    let history = run.history(alloc)?;
    let events = history.events.len() as u64;
    let wanted = clients.saturating_mul(reads.saturating_add(1));
    let mut text = String::new(alloc);
    push_verdict(&mut text, &history, run.drawn, true)?;
    Ok(
        has_logs(run, clients, (asks, reads))
            && are_own(run.chain(alloc)?.as_slice(), asks)
            && (closes || events == wanted),
    )
}

fn has_logs(run: &SettledRun, clients: u64, (asks, reads): (u64, u64)) -> bool {
    let calls = asks.saturating_add(reads).saturating_add(1);
    let are_whole = run.logs.iter().all(|log| log.calls.len() as u64 == calls);
    are_whole && run.logs.len() as u64 == clients && run.drawn == clients.saturating_mul(asks)
}

/// Whether each version was drawn in turn, so many by each commit proxy.
fn are_own(chain: &[Issued], asks: u64) -> bool {
    let asks = asks.max(1);
    chain.iter().enumerate().all(|(place, issued)| {
        let place = place as u64;
        issued.ordinal == place
            && u64::from(issued.proxy) == place / asks
            && issued.num == place % asks + 1
    })
}

/// Says what comes of a workload.
fn visit<R: Threads + Wait + Sync>(rt: &R, line: &mut TableLine<'_>) {
    let size = Size {
        clients: line.number(),
        grv_proxies: line.number(),
        throttles: line.number(),
        version: line.number(),
    };
    let visits = Visits {
        alloc: line.alloc,
        reads: line.number(),
        tags: line.number(),
        count: line.number(),
        asks: line.number_behind("asks").max(1),
        closed: line.number_behind("closes").checked_sub(1),
        swaps: line.text.contains(" swaps"),
    };
    match ran(rt, line.alloc, size, visits) {
        Ok(true) => line.say("explained"),
        Ok(false) => line.say("wrong"),
        Err(FinishError::Memory) => line.refuse(),
        Err(cause) => line.say(cause),
    }
}

/// Each desk of 1 to 16 is another one, and the one after the last is the first, up to number 5,000.
#[test]
fn each_desk_is_closed_alone(rt: HostRuntime) -> Result<(), Fail> {
    let alloc = rt.alloc();
    for grv_proxies in 1..=16 {
        let reads = if grv_proxies == 5 { 1_000 } else { 3 };
        let each = format!(in alloc;
            "*visits 1 {grv_proxies} 2 100 {reads} 1 1 closes @1 => explained"
        )?;
        play_workloads(&rt, alloc, &each, grv_proxies)?;
    }
    Ok(())
}

/// Clients that are not where they were are refused, and others are not.
#[test]
fn each_client_stays_in_its_place(rt: HostRuntime) -> Result<(), Fail> {
    let swaps = "*visits @2 1 2 100 1 1 1 swaps => a client is not in its place";
    play_workloads(&rt, rt.alloc(), swaps, 63)?;
    Ok(play_workloads(&rt, rt.alloc(), "*visits @1 1 2 100 1 1 1 => explained", 64)?)
}
