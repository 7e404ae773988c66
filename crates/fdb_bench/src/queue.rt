//! The queue of a GRV proxy: offers, windows and waits; batches, each served with one read; and
//! throttles of tags, set once and looked up in several passes.

use crate::measurement::{Checksum, Draws, Job, Measured};
use anyhow::{Result, anyhow};
use crossbeam_channel::{Receiver, bounded};
use fdb_history::{GrvOpts, Priority, Sequence, Tag};
use fdb_live::{Live, LiveRecord, Seen};
use fdb_proxy::{Addressed, Answer, Request, serve_batch};
use fdb_queue::{GrvQueue, QueueConfig, QueueError, Req};
use std::alloc::Global;
use std::sync::Wait;
use std::time::CpuClock;

/// How many offers and windows there are for each request that there is room for.
const STEPS_PER_ROOM: u32 = 20;

/// One step in so many is a window, or of questions how many come before one.
const STEPS_PER_WINDOW: u32 = 10;

/// The microseconds between two windows, and the most that a question asks about.
const ELAPSED: u32 = 10_000;

fn empty_queue<T>(alloc: Global, normal: u64, batch: u64, room: u32) -> Result<GrvQueue<T>> {
    let config = QueueConfig {
        normal,
        batch,
        room: u64::from(room),
    };
    Ok(GrvQueue::new(alloc, config)?)
}

/// Offers of all priorities, and windows that start about half as much as is offered, at a queue
/// that is full: the other half is pushed out or refused.
pub(crate) fn mix(clock: &impl CpuClock, job: Job) -> Result<Measured> {
    let mut queue = empty_queue(job.alloc, 13, 12, job.size)?;
    let mut checksum = Checksum::EMPTY;
    for place in 0..job.size {
        let priority = if place % 2 == 0 {
            Priority::Batch
        } else {
            Priority::Default
        };
        offer(&mut queue, priority, place % 4 + 1, place, &mut checksum)?;
    }
    let mut draws = Draws::START;
    let steps = job.size.saturating_mul(STEPS_PER_ROOM);
    let begun = clock.process_cpu_time()?;
    for place in 0..steps {
        if place % STEPS_PER_WINDOW == 0 {
            start(&mut queue, ELAPSED, &mut checksum)?;
            continue;
        }
        let drawn = draws.next_number();
        // one in ten is a system request, six are default, three batch
        let priority = match drawn % 10 {
            0 => Priority::System,
            1..=6 => Priority::Default,
            _ => Priority::Batch,
        };
        let count = drawn / 10 % 4 + 1;
        offer(&mut queue, priority, count, place, &mut checksum)?;
    }
    Measured::since(clock, begun, u64::from(steps), checksum)
}

/// Questions how many windows the head of the row waits, with a short window after every few.
pub(crate) fn waits(clock: &impl CpuClock, job: Job) -> Result<Measured> {
    let mut queue = empty_queue(job.alloc, 10, 10, 1)?;
    let mut checksum = Checksum::EMPTY;
    offer(&mut queue, Priority::Default, 100_000, 0, &mut checksum)?;
    let mut draws = Draws::START;
    let begun = clock.process_cpu_time()?;
    for place in 0..job.size {
        let elapsed = u64::from(draws.next_number() % ELAPSED) + 1;
        checksum.add(queue.waits(elapsed).unwrap_or(0));
        if place % STEPS_PER_WINDOW == 0 {
            start(&mut queue, 1, &mut checksum)?;
        }
    }
    Measured::since(clock, begun, u64::from(job.size), checksum)
}

/// Offers a request for so many transactions, and adds what came of it: the request that was pushed
/// out or refused.
fn offer(
    queue: &mut GrvQueue<u64>,
    priority: Priority,
    count: u32,
    place: u32,
    checksum: &mut Checksum,
) -> Result<()> {
    let request = Req {
        priority,
        count: u64::from(count),
        payload: u64::from(place),
    };
    match queue.offer(request) {
        Ok(None) => checksum.add(0),
        Ok(Some(out)) => checksum.add(request_word(&out).wrapping_add(1)),
        Err((QueueError::Memory, _)) => return Err(anyhow!("out of memory")),
        Err((_, refused)) => checksum.add(request_word(&refused).wrapping_add(2)),
    }
    Ok(())
}

/// Holds a window, and adds what it started.
fn start(queue: &mut GrvQueue<u64>, elapsed: u32, checksum: &mut Checksum) -> Result<()> {
    let started = queue.window(u64::from(elapsed))?;
    for request in started.as_slice() {
        checksum.add(request_word(request));
    }
    Ok(())
}

/// What is added of a request: payload, transactions and priority.
fn request_word(request: &Req<u64>) -> u64 {
    request
        .payload
        .wrapping_mul(31)
        .wrapping_add(request.count.wrapping_mul(3))
        .wrapping_add(u64::from(request.priority as u8))
}

/// How many requests batches have in all, one batch more or less.
const REQUESTS: u32 = 20_000;

/// The rates and the room of the queue, the greatest that it may have.
const MOST: u32 = 100_000;

/// A default request for one transaction.
pub(crate) fn plain_read(alloc: Global) -> GrvOpts {
    GrvOpts {
        priority: Priority::Default,
        count: 1,
        tags: Sequence::new(alloc),
        lock_aware: false,
        at: 0,
        use_min: false,
    }
}

/// Serves batches of so many requests each, which were made before, and adds the replies: version,
/// position and serial.
pub(crate) fn batches<S: Live, R: CpuClock + Wait>(
    rt: &R,
    job: Job,
    live: &LiveRecord<S>,
    seen: &mut Seen<S>,
) -> Result<Measured> {
    let times = (REQUESTS / job.size.max(1)).max(1);
    let queue = empty_queue(job.alloc, u64::from(MOST), u64::from(MOST), MOST)?;
    let mut waiters = Vec::new(job.alloc);
    let mut batches = Vec::new(job.alloc);
    for _ in 0..times {
        batches.push(batch(job, live, seen, &mut waiters)?)?;
    }
    let mut checksum = Checksum::EMPTY;
    let begun = rt.process_cpu_time()?;
    for batch in batches {
        let Ok(replies) = serve_batch(rt, job.alloc, live, seen, &queue, batch) else {
            return Err(anyhow!("out of memory"));
        };
        for Addressed { reply, .. } in replies.as_slice() {
            let position = reply.position.wrapping_mul(31);
            let word = reply.rec.version.wrapping_add(position);
            checksum.add(word.wrapping_add(reply.serial.wrapping_mul(3)));
        }
    }
    let operations = u64::from(times) * u64::from(job.size);
    Measured::since(rt, begun, operations, checksum)
}

/// A batch of requests by the client 0, whose replies would come to the waiters.
fn batch<S: Live>(
    job: Job,
    live: &LiveRecord<S>,
    seen: &mut Seen<S>,
    waiters: &mut Vec<Receiver<Answer<S>>>,
) -> Result<Vec<Req<Request<S>>>> {
    let mut batch = Vec::new(job.alloc);
    for serial in 0..job.size {
        let (reply, waiter) = bounded(job.alloc, 1)?;
        waiters.push(waiter)?;
        let payload = Request {
            client: 0,
            serial: u64::from(serial),
            asked: seen.position(),
            seen: live.split(seen),
            opts: plain_read(job.alloc),
            reply,
        };
        batch.push(Req {
            priority: Priority::Default,
            count: 1,
            payload,
        })?;
    }
    Ok(batch)
}

/// How many times all tags are looked up.
const PASSES: u32 = 10;

/// How many tags are looked up at once, as for one request.
const TAGS_PER_REQUEST: usize = 4;

/// The moments at which throttles expire are below this one.
const LAST_MOMENT: u32 = 1_000;

/// Sets so many throttles, each as a drawn number says, and looks them up by requests of
/// four tags at other priorities and moments.
pub(crate) fn throttles(clock: &impl CpuClock, job: Job) -> Result<Measured> {
    let mut queue = empty_queue(job.alloc, 1, 1, 1)?;
    let (given, tags) = (tags(job)?, tags(job)?);
    let mut checksum = Checksum::EMPTY;
    let (mut draws, mut rates) = (Draws::START, Draws::START);
    let begun = clock.process_cpu_time()?;
    for tag in given {
        let drawn = rates.next_number();
        let (priority, expires) = priority_and_moment(drawn);
        queue.set_throttle(priority, tag, u64::from(drawn % 100), expires)?;
    }
    for _ in 0..PASSES {
        look_up(&queue, tags.as_slice(), &mut draws, &mut checksum)?;
    }
    let operations = u64::from(job.size) * u64::from(PASSES + 1);
    Measured::since(clock, begun, operations, checksum)
}

/// So many tags of eight bytes, without an order.
fn tags(job: Job) -> Result<Vec<Tag>> {
    let mut tags = Vec::new(job.alloc);
    let mut draws = Draws::START;
    for place in 0..job.size {
        let number = u64::from(draws.next_number()) << 32 | u64::from(place);
        let bytes = Vec::from_slice(job.alloc, &number.to_be_bytes())?;
        tags.push(Sequence::from(bytes))?;
    }
    Ok(tags)
}

/// Looks up all tags, some at a time and each time as a drawn
/// number says, and adds the limits: expiry, rate and the tag's last byte.
fn look_up(
    queue: &GrvQueue<u64>,
    tags: &[Tag],
    draws: &mut Draws,
    checksum: &mut Checksum,
) -> Result<()> {
    for some in tags.chunks(TAGS_PER_REQUEST) {
        let (priority, at) = priority_and_moment(draws.next_number());
        let limits = queue.throttles(priority, some, at)?;
        for limit in limits.as_slice() {
            let last = limit.tag.as_slice().last().copied().unwrap_or(0);
            let word = limit.expires.wrapping_mul(31).wrapping_add(limit.rate);
            checksum.add(word.wrapping_mul(31).wrapping_add(u64::from(last)));
        }
    }
    Ok(())
}

/// The priority and the moment that a drawn number stands for.
fn priority_and_moment(drawn: u32) -> (Priority, u64) {
    let priority = match drawn % 3 {
        0 => Priority::System,
        1 => Priority::Default,
        _ => Priority::Batch,
    };
    (priority, u64::from(drawn / 100 % LAST_MOMENT))
}
