//! What a benchmark computes and takes, numbers without a pattern, and threads that work side by
//! side.

use anyhow::Result;
use std::alloc::Global;
use std::sync::Wait;
use std::thread::{self, Threads};
use std::time::{Clock, CpuClock, Duration};

const FACTOR: u64 = 6_364_136_223_846_793_005;

const SUMMAND: u64 = 1_442_695_040_888_963_407;

/// A fold over what the operations of a benchmark answered, whose order counts.
#[derive(Clone, Copy)]
pub(crate) struct Checksum(pub(crate) u64);

impl Checksum {
    pub(crate) const EMPTY: Checksum = Checksum(0);

    pub(crate) fn add(&mut self, word: u64) {
        self.0 = self.0.wrapping_mul(FACTOR).wrapping_add(word);
    }
}

/// Numbers without a pattern, the same in every run: a linear congruential
/// generator, of which the upper half of each state is drawn.
#[derive(Clone, Copy)]
pub(crate) struct Draws(u64);

impl Draws {
    pub(crate) const START: Draws = Draws(1);

    /// The next number.
    pub(crate) fn next_number(&mut self) -> u32 {
        self.0 = self.0.wrapping_mul(FACTOR).wrapping_add(SUMMAND);
        (self.0 >> 32) as u32
    }
}

/// What a benchmark is run with.
#[derive(Clone, Copy)]
pub(crate) struct Job {
    pub(crate) alloc: Global,
    pub(crate) size: u32,
    /// How many threads work side by side.
    pub(crate) threads: u32,
}

/// What a benchmark computed, and what it took.
#[derive(Clone, Copy)]
pub(crate) struct Measured {
    pub(crate) operations: u64,
    pub(crate) time: Duration,
    pub(crate) checksum: Checksum,
}

impl Measured {
    /// What so many operations computed, and the processor time that the process has used in all
    /// its threads since it had used this.
    pub(crate) fn since(
        clock: &impl CpuClock,
        begun: Duration,
        operations: u64,
        checksum: Checksum,
    ) -> Result<Measured> {
        let time = clock.process_cpu_time()?.saturating_sub(begun);
        Ok(Measured {
            operations,
            time,
            checksum,
        })
    }
}

/// What came of some calls, whose order does not count, and when they were made.
#[derive(Clone, Copy)]
pub(crate) struct Tally {
    calls: u64,
    /// The sum of what they answered, which wraps around.
    pub(crate) sum: u64,
    /// How many of them did what not every call does: each caller says what.
    pub(crate) marked: u64,
    begun: Duration,
    ended: Duration,
}

impl Tally {
    /// No calls, and no time, which adds nothing to another.
    pub(crate) const EMPTY: Tally = Tally {
        calls: 0,
        sum: 0,
        marked: 0,
        begun: Duration::MAX,
        ended: Duration::ZERO,
    };

    /// Adds a call: what it answered, as a number, and whether it is marked.
    pub(crate) fn add(&mut self, answer: u64, marked: bool) {
        self.calls = self.calls.wrapping_add(1);
        self.sum = self.sum.wrapping_add(answer);
        self.marked = self.marked.wrapping_add(u64::from(marked));
    }

    /// The outcome of a benchmark, with a checksum over the
    /// number of calls, how many were marked, and one more word.
    pub(crate) fn measured(self, word: u64) -> Measured {
        let mut checksum = Checksum::EMPTY;
        checksum.add(self.calls);
        checksum.add(self.marked);
        checksum.add(word);
        Measured {
            operations: self.calls,
            time: self.ended.saturating_sub(self.begun),
            checksum,
        }
    }
}

/// What one thread does, beside others with which it shares something.
pub(crate) trait Work<C> {
    /// Does it, and answers its calls.
    fn work<R: Wait>(self, rt: &R, shared: &C) -> Result<Tally>;
}

/// Has each do its work in a thread of its own, and answers all their calls, from when the first
/// began until the last ended.
pub(crate) fn side_by_side<C, W, R>(rt: &R, shared: &C, works: Vec<W>) -> Result<Tally>
where
    C: Sync,
    W: Work<C> + Send + Drop,
    R: Clock + Threads + Wait + Sync,
{
    let mut all = Tally::EMPTY;
    for done in thread::map_vec(rt, works, &|work| timed(rt, shared, work))? {
        let done = done?;
        all = Tally {
            calls: all.calls.wrapping_add(done.calls),
            sum: all.sum.wrapping_add(done.sum),
            marked: all.marked.wrapping_add(done.marked),
            begun: all.begun.min(done.begun),
            ended: all.ended.max(done.ended),
        };
    }
    Ok(all)
}

/// Does some work, on the thread's own stack, so that no two threads write to one cache line. Where
/// it has no calls, its time is that of nothing.
fn timed<C, W: Work<C> + Drop, R: Clock + Wait>(rt: &R, shared: &C, work: W) -> Result<Tally> {
    let begun = rt.monotonic()?;
    let done = work.work(rt, shared)?;
    let ended = rt.monotonic()?;
    if done.calls == 0 {
        return Ok(done);
    }
    Ok(Tally {
        begun,
        ended,
        ..done
    })
}
