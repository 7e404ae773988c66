//! Requests for commit versions: by one thread, in the names of several commit proxies, and by
//! threads that share a sequencer or a master, each in the name of its own.

ghost use Rattle.std.specs.Prelude.{◌≡◌, true};
ghost use Rattle.fdb_live.specs.Seen.{origin_of};

use crate::measurement::{Checksum, Draws, Job, Measured, Tally, Work, side_by_side};
use anyhow::{Result, anyhow, ensure};
use fdb_chain::{RecentChain, Sequencer};
use fdb_history::{Ask, OpenGate, Record, Service};
use fdb_live::{Epoch, Live, LiveRecord, MAX_REPORTERS, Master, Opened, Seen};
use std::marker::Brand;
use std::sync::Wait;
use std::thread::Threads;
use std::time::{Clock, CpuClock};

/// The most commit proxies that a chain may have.
pub(crate) const MANY: u32 = 64;

pub(crate) const FEW: u32 = 4;

/// The live record before any report. Its version is the first commit version.
pub(crate) const START: Record = Record {
    version: 100,
    locked: false,
    metadata: None,
    min_known: 0,
};

/// Which numbers proxies ask for, each in its turn.
#[derive(Clone, Copy)]
pub(crate) enum Numbers {
    /// The next one, and no answer is processed.
    Next,
    /// The next one, and each answer is processed at once.
    Processed,
    /// Without a pattern one of those that were asked for before.
    Repeated,
}

/// Requests for such numbers by so many proxies in turn. Where numbers are repeated, each
/// proxy has its share of as many answers.
pub(crate) fn asks(
    clock: &impl CpuClock,
    job: Job,
    proxies: u32,
    numbers: Numbers,
) -> Result<Measured> {
    let mut chain = RecentChain::new(job.alloc, 0, START.version, proxies)?;
    let mut checksum = Checksum::EMPTY;
    if let Numbers::Repeated = numbers {
        ask_each(&mut chain, job.size, proxies, Numbers::Next, &mut checksum)?;
    }
    let begun = clock.process_cpu_time()?;
    ask_each(&mut chain, job.size, proxies, numbers, &mut checksum)?;
    Measured::since(clock, begun, u64::from(job.size), checksum)
}

/// Asks so often, each time three microseconds after the time before, and adds the answers.
fn ask_each(
    chain: &mut RecentChain,
    size: u32,
    proxies: u32,
    numbers: Numbers,
    checksum: &mut Checksum,
) -> Result<()> {
    let proxies = proxies.max(1);
    let share = (size / proxies).max(1);
    let mut draws = Draws::START;
    for place in 0..size {
        let turn = place / proxies;
        let (before, processed) = match numbers {
            Numbers::Next => (turn, 0),
            Numbers::Processed => (turn, turn),
            Numbers::Repeated => (draws.next_number() % share, 0),
        };
        let issued = chain.ask(Ask {
            proxy: place % proxies,
            num: u64::from(before) + 1,
            processed: u64::from(processed),
            at: u64::from(place) * 3,
        })?;
        let word = issued.version.wrapping_mul(3).wrapping_add(issued.prev);
        checksum.add(word.wrapping_add(u64::from(issued.fresh)));
    }
    Ok(())
}

/// A service that stands for the one chain.
struct One;

impl Service for One {
    ghost use Rattle.std.specs.Prelude.{None, false};

    ghost epoch_end = { 0 };

    ghost recovery = { 100 };

    ghost start = { record { version = 100; locked = false; metadata = None; min_known = 0 } };

    ghost reporters = { 1 };
}

/// A commit proxy's requests to a sequencer.
#[derive(Clone, Copy)]
struct Asker {
    proxy: u32,
    asks: u32,
}

impl Work<Sequencer<One>> for Asker {
    fn work<R: Wait>(self, rt: &R, sequencer: &Sequencer<One>) -> Result<Tally> {
        let mut tally = Tally::EMPTY;
        for before in 0..self.asks {
            let issued = sequencer.ask(rt, &OpenGate, after(self.proxy, before))?;
            tally.add(issued.version, issued.fresh);
        }
        Ok(tally)
    }
}

/// The request that a proxy makes after so many, all of which it has processed.
fn after(proxy: u32, before: u32) -> Ask
    ensures { result.proxy ≡ proxy }
{
    Ask {
        proxy,
        num: u64::from(before) + 1,
        processed: u64::from(before),
        at: 0,
    }
}

/// Requests to a sequencer, shared by the threads.
pub(crate) fn of_sequencer<R>(rt: &R, job: Job) -> Result<Measured>
where
    R: Clock + Threads + Wait + Sync,
{
    let asks = job.size / job.threads.max(1);
    let mut askers = Vec::new(job.alloc);
    for proxy in 0..job.threads {
        askers.push(Asker { proxy, asks })?;
    }
    let core = RecentChain::new(job.alloc, 0, 100, job.threads)?;
    let sequencer = Sequencer::<One>::new(core);
    let all = side_by_side(rt, &sequencer, askers)?;
    Ok(all.measured(all.sum))
}

/// A commit proxy's requests to a master, with its token.
#[derive(Drop)]
struct Drawer<S: Live> {
    token: Seen<S>,
    asks: u32,
}

impl<S: Live + Send + Sync> Work<Master<S>> for Drawer<S> {
    fn work<R: Wait>(self, rt: &R, master: &Master<S>) -> Result<Tally> {
        let Drawer { mut token, asks } = self;
        let mut tally = Tally::EMPTY;
        for before in 0..asks {
            let Some(proxy) = token.reporter() else {
                return Err(anyhow!("the token is nobody's"));
            };
            let issued = master.ask(rt, &OpenGate, &mut token, after(proxy, before))?;
            tally.add(issued.version, issued.fresh);
        }
        Ok(tally)
    }
}

/// Requests to a master, shared by the threads.
pub(crate) fn of_master<R>(rt: &R, job: Job) -> Result<Measured>
where
    R: Clock + Threads + Wait + Sync,
{
    let proxies = job.threads;
    ensure!(
        proxies > 0 && proxies <= MAX_REPORTERS,
        "{proxies} commit proxies"
    );
    let epoch = Epoch {
        before: 0,
        recovery: START.version,
    };
    let opened = LiveRecord::<Brand>::open(rt, job.alloc, START, proxies, Some(epoch))?;
    draw_named::<Brand, R>(rt, job, opened)
}

/// The requests under a name that stands for the master.
fn draw_named<S: Live + Send + Sync, R: Clock + Threads + Wait + Sync>(
    rt: &R,
    job: Job,
    opened: Opened,
) -> Result<Measured>
    requires chained { S.chained ≡ true }
    requires opened { opened
        ≡ origin_of S.table S.start S.reporters S.chained S.epoch_end S.recovery }
{
    let (master, _, tokens) = opened.master::<S>()?;
    let asks = job.size / job.threads.max(1);
    let mut drawers = Vec::new(job.alloc);
    for token in tokens {
        drawers.push(Drawer { token, asks })?;
    }
    let all = side_by_side(rt, &master, drawers)?;
    Ok(all.measured(all.sum))
}
