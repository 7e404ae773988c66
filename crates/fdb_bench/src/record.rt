//! A live record under a name, and what is measured at it: reads, reports and tokens.

ghost use Rattle.std.specs.Prelude.{◌≡◌, false};
ghost use Rattle.fdb_live.specs.Seen.{origin_of};

use crate::chain::START;
use crate::measurement::{Checksum, Job, Measured, Tally, Work, side_by_side};
use crate::queue::batches;
use anyhow::{Context, Result, anyhow};
use fdb_history::{OpenGate, Record};
use fdb_live::{Live, LiveRecord, Opened, Seen};
use std::marker::Brand;
use std::sync::Wait;
use std::sync::atomic::{AtomicU64, Ordering};
use std::thread::Threads;
use std::time::{Clock, CpuClock};

/// What is measured at a live record.
#[derive(Clone, Copy)]
pub(crate) enum Load {
    /// Reads by threads, with nothing written.
    Reads,
    /// Reads by threads, beside one that reports all the time.
    ReadsBeside,
    Reports,
    /// Tokens that are split off, learned and met.
    Tokens,
    /// Batches of requests for a read version.
    Batches,
}

/// How many reporters the record has, which is the greatest team.
const REPORTERS: u32 = 4;

/// How many reads each reader makes for each raise before.
const READS_PER_RAISE: u64 = 100;

/// Why a load is refused for which there are too few tokens.
const NO_MORE: &str = "there are no more reporters";

/// The version of the first report, just above that of the start.
const FIRST: u64 = START.version + 1;

/// Opens a live record for this load alone, and measures it.
pub(crate) fn measure<R>(rt: &R, job: Job, load: Load) -> Result<Measured>
where
    R: Clock + CpuClock + Threads + Wait + Sync,
{
    let opened = LiveRecord::<Brand>::open(rt, job.alloc, START, REPORTERS, None)?;
    measure_named::<Brand, R>(rt, job, load, opened)
}

/// Measures a live record under a name that stands for it, which for reads and tokens is raised
/// before, with the first reporter's token.
fn measure_named<S: Live + Send + Sync, R: Clock + CpuClock + Threads + Wait + Sync>(
    rt: &R,
    job: Job,
    load: Load,
    opened: Opened,
) -> Result<Measured>
    requires bare { S.chained ≡ false }
    requires opened { opened
        ≡ origin_of S.table S.start S.reporters S.chained S.epoch_end S.recovery }
{
    let (live, reader, mut reporters) = opened.parts::<S>()?;
    let shared = Shared {
        live,
        reading: AtomicU64::new(u64::from(job.threads)),
    };
    if let Load::Reads | Load::ReadsBeside | Load::Tokens = load {
        let token = reporters.first_mut().context(NO_MORE)?;
        let raises = Reports {
            first: FIRST,
            step: 1,
            count: u64::from(job.size),
            beside: false,
        };
        report_in_turn(rt, &shared, token, raises)?;
    }
    let mut served = ServedRecord {
        shared,
        reader,
        reporters,
    };
    match load {
        Load::Reads => served.reads(rt, job, false),
        Load::ReadsBeside => served.reads(rt, job, true),
        Load::Reports => served.reports(rt, job),
        Load::Tokens => served.tokens(rt, job),
        Load::Batches => {
            let shared = &served.shared;
            batches(rt, job, &shared.live, &mut served.reader)
        }
    }
}

/// What the threads share: a live record, and how many of them still read.
#[derive(Drop)]
struct Shared<S: Live> {
    live: LiveRecord<S>,
    reading: AtomicU64,
    ghost bare: { S.chained ≡ false },
}

/// A live record and what threads share beside it, and the tokens that nobody works with.
#[derive(Drop)]
struct ServedRecord<S: Live> {
    shared: Shared<S>,
    reader: Seen<S>,
    reporters: Vec<Seen<S>>,
}

impl<S: Live + Send + Sync> ServedRecord<S> {
    /// Reads after so many raises, maybe beside a thread that reports for as long as they last.
    /// Which records they then find is a matter of the schedule; that no position falls is not.
    fn reads<R>(&mut self, rt: &R, job: Job, beside: bool) -> Result<Measured>
    where
        R: Clock + Threads + Wait + Sync,
    {
        let reads = u64::from(job.size).saturating_mul(READS_PER_RAISE);
        let mut holders = Vec::new(job.alloc);
        for _ in 0..job.threads {
            let shared = &self.shared;
            let token = shared.live.split(&mut self.reader);
            let role = Role::Reads { reads };
            holders.push(Holder { token, role })?;
        }
        if beside {
            let token = self.reporters.pop().context(NO_MORE)?;
            let role = Role::Reports(Reports {
                first: FIRST + u64::from(job.size),
                step: 1,
                count: u64::MAX,
                beside: true,
            });
            holders.push(Holder { token, role })?;
        }
        let all = side_by_side(rt, &self.shared, holders)?;
        Ok(all.measured(if beside { 0 } else { all.sum }))
    }

    /// Reports by each thread. How many of them raise the record is a matter of the
    /// schedule; that the last position is their number is not, nor is the last version.
    fn reports<R>(&mut self, rt: &R, job: Job) -> Result<Measured>
    where
        R: Clock + Threads + Wait + Sync,
    {
        let mut holders = Vec::new(job.alloc);
        for place in 0..job.threads {
            let token = self.reporters.pop().context(NO_MORE)?;
            let role = Role::Reports(Reports {
                first: FIRST + u64::from(place),
                step: u64::from(job.threads),
                count: u64::from(job.size),
                beside: false,
            });
            holders.push(Holder { token, role })?;
        }
        let mut all = side_by_side(rt, &self.shared, holders)?;
        let shared = &self.shared;
        let last = shared.live.read(rt, &mut self.reader);
        all.marked = u64::from(all.marked == last.position);
        Ok(all.measured(last.rec.version))
    }

    /// One token's holder tells another's so many times what it has seen, as many raises: a token
    /// is split off the first one, learned by the second, and met.
    fn tokens<R: CpuClock + Wait>(&mut self, rt: &R, job: Job) -> Result<Measured> {
        let shared = &self.shared;
        let (live, hearer) = (&shared.live, &mut self.reader);
        let teller = self.reporters.last_mut().context(NO_MORE)?;
        let _ = live.read(rt, teller);
        let mut checksum = Checksum::EMPTY;
        let begun = rt.process_cpu_time()?;
        for _ in 0..job.size {
            let told = live.split(teller);
            live.learn(rt, hearer, told);
            live.meet(rt, teller, hearer);
            checksum.add(hearer.position());
        }
        Measured::since(rt, begun, u64::from(job.size) * 3, checksum)
    }
}

/// What a thread does with its token.
#[derive(Clone, Copy)]
enum Role {
    Reads { reads: u64 },
    Reports(Reports),
}

/// Versions to be reported: the first one, and so many in all, each greater by so much.
#[derive(Clone, Copy)]
struct Reports {
    first: u64,
    step: u64,
    count: u64,
    /// Whether they go on only for as long as a thread reads, and count for nothing.
    beside: bool,
}

/// One that makes its calls in a thread of its own.
#[derive(Drop)]
struct Holder<S: Live> {
    token: Seen<S>,
    role: Role,
}

impl<S: Live + Send + Sync> Work<Shared<S>> for Holder<S> {
    fn work<R: Wait>(self, rt: &R, shared: &Shared<S>) -> Result<Tally> {
        let Holder { mut token, role } = self;
        match role {
            Role::Reads { reads } => Ok(read_in_turn(rt, shared, &mut token, reads)),
            Role::Reports(reports) => report_in_turn(rt, shared, &mut token, reports),
        }
    }
}

/// Reads so often. A read is marked whose position is below the one before.
fn read_in_turn<S: Live, R: Wait>(
    rt: &R,
    shared: &Shared<S>,
    seen: &mut Seen<S>,
    reads: u64,
) -> Tally {
    let mut tally = Tally::EMPTY;
    for _ in 0..reads {
        let before = seen.position();
        let fetched = shared.live.read(rt, seen);
        let rec = fetched.rec;
        // each of its numbers, and the last byte of its metadata version
        let word = rec
            .version
            .wrapping_add(u64::from(rec.locked))
            .wrapping_add(rec.metadata.map_or(0, |bytes| u64::from(bytes[9])))
            .wrapping_add(rec.min_known);
        tally.add(word, fetched.position < before);
    }
    shared.reading.fetch_sub(1, Ordering::SeqCst);
    tally
}

/// Reports versions. A report is marked that raises the record.
fn report_in_turn<S: Live, R: Wait>(
    rt: &R,
    shared: &Shared<S>,
    seen: &mut Seen<S>,
    reports: Reports,
) -> Result<Tally> {
    let mut tally = Tally::EMPTY;
    let mut version = reports.first;
    for _ in 0..reports.count {
        if reports.beside && shared.reading.load(Ordering::SeqCst) == 0 {
            return Ok(Tally::EMPTY);
        }
        let Some(who) = seen.reporter() else {
            return Err(anyhow!("the token is nobody's"));
        };
        let rec = Record { version, ..START };
        let ack = shared.live.report(rt, &OpenGate, who, seen, rec)?;
        tally.add(version, ack.raised);
        version = version.wrapping_add(reports.step);
    }
    Ok(tally)
}
