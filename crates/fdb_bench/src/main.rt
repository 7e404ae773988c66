//! Benchmarks of the crates below: `fdb_bench NAME [SIZE [THREADS]]` runs one, `fdb_bench` each at
//! a small size by as many threads as may be, and `fdb_bench --list` lists them.
//!
//! For each run standard output has the benchmark, its size, its threads and the checksum of what
//! was computed, which is the same every time; and standard error the number of operations and the
//! nanoseconds that they took: of processor time, or where threads may work side by side of wall
//! time, from the first one's begin to the last one's end.
#![tactic(auto)]

mod audits;
mod chain;
mod measurement;
mod queue;
mod record;

use anyhow::{Context, Result, anyhow, ensure};
use chain::{FEW, MANY, Numbers};
use measurement::{Job, Measured};
use record::Load;
use std::alloc::Global;
use std::env;
use std::sync::Wait;
use std::thread::Threads;
use std::time::{Clock, CpuClock};

fn main(rt: HostRuntime) -> Result<()> {
    let mut arguments = env::args(&rt)?.skip(1);
    let Some(name) = arguments.next() else {
        for benchmark in Benchmark::ALL {
            let (size, threads) = (benchmark.small, benchmark.threads);
            run_one(&rt, rt.alloc(), *benchmark, size, threads)?;
        }
        return Ok(());
    };
    if name.as_str() == "--list" {
        return list(&rt);
    }
    let mut benchmarks = Benchmark::ALL.iter().copied();
    let Some(benchmark) = benchmarks.find(|benchmark| benchmark.name == name.as_str()) else {
        return Err(anyhow!("there is no benchmark {name}"));
    };
    let size = match arguments.next() {
        None => benchmark.small,
        Some(said) => number("size", said.as_str(), u32::MAX)?,
    };
    let threads = match arguments.next() {
        None => 1,
        Some(said) => number("threads", said.as_str(), benchmark.threads)?,
    };
    ensure!(
        arguments.next().is_none(),
        "more arguments than a benchmark, its size and its threads"
    );
    run_one(&rt, rt.alloc(), benchmark, size, threads)
}

/// A number that an argument says, from 1 to the greatest, or why it may not be.
fn number(what: &str, argument: &str, greatest: u32) -> Result<u32> {
    let number = argument
        .parse::<u32>()
        .context(format_args!("the {what} {argument:?}"))?;
    ensure!(
        number > 0 && number <= greatest,
        "the {what} {number} is not 1 to {greatest}"
    );
    Ok(number)
}

/// Prints a line for each benchmark, with tabs between: its name, the most threads that may do it,
/// the greatest size at which it is measured, and what it is.
fn list(rt: &impl Print) -> Result<()> {
    for benchmark in Benchmark::ALL {
        let (name, about) = (benchmark.name, benchmark.about);
        println!(rt;
            "{name}\t{}\t{}\t{about}",
            benchmark.threads, benchmark.size
        )?;
    }
    Ok(())
}

/// Runs a benchmark, and prints what it computed and what it took.
fn run_one<R>(rt: &R, alloc: Global, benchmark: Benchmark, size: u32, threads: u32) -> Result<()>
where
    R: Print + Eprint + Clock + CpuClock + Threads + Wait + Sync,
{
    let name = benchmark.name;
    let job = Job {
        alloc,
        size,
        threads,
    };
    let clock = if benchmark.threads == 1 {
        "processor"
    } else {
        "wall"
    };
    let measured = benchmark.run(rt, job)?;
    println!(rt; "{name} {size} {threads} {}", measured.checksum.0)?;
    eprintln!(rt;
        "{name} {size} {threads}: {} operations, {} ns of {clock} time",
        measured.operations,
        measured.time.as_nanos()
    )?;
    Ok(())
}

/// What is measured, and at which sizes.
#[derive(Clone, Copy)]
pub(crate) struct Benchmark {
    pub(crate) name: &'static str,
    /// The most threads that may do it side by side.
    pub(crate) threads: u32,
    /// The greatest size at which `bench/run` measures it; the command line may ask for more.
    pub(crate) size: u32,
    /// A size at which it takes milliseconds at most.
    pub(crate) small: u32,
    /// What its operations are, and what the size is where it is not their number.
    pub(crate) about: &'static str,
    work: Work,
}

#[derive(Clone, Copy)]
enum Work {
    Asks(u32, Numbers),
    Queue,
    Waits,
    Throttles,
    Audit,
    Sequencer,
    Master,
    Live(Load),
}

macro_rules! table {
    ($($name:literal, $threads:literal, $size:literal, $work:expr => $about:literal;)*) => {
        &[$(Benchmark { name: $name, threads: $threads, size: $size, small: $size / 1_000, about: $about, work: $work }),*]
    };
}

impl Benchmark {
    /// Every benchmark once, in the order in which all are run.
    pub(crate) const ALL: &'static [Benchmark] = table! {
        "fresh", 1, 1_000_000, Work::Asks(MANY, Numbers::Next) => "fresh asks in turn by 64 proxies, which process none";
        "repeats", 1, 1_000_000, Work::Asks(MANY, Numbers::Repeated) => "repeats without a pattern of as many kept answers";
        "processed", 1, 1_000_000, Work::Asks(FEW, Numbers::Processed) => "fresh asks in turn by 4 proxies, which process all";
        "queue", 1, 100_000, Work::Queue => "20 offers or windows for each place of the room; a tenth are windows";
        "waits", 1, 1_000_000, Work::Waits => "questions how many windows the head of the row waits";
        "throttles", 1, 10_000, Work::Throttles => "a throttle that is set for each tag, and 10 look-ups";
        "audit", 1, 100_000, Work::Audit => "10 audits of so many calls, in the logs of 64 clients";
        "sequencer", 4, 1_000_000, Work::Sequencer => "fresh asks of a sequencer, shared by the threads";
        "master", 4, 1_000_000, Work::Master => "fresh asks of a master with tokens, shared by the threads";
        "reads", 4, 100_000, Work::Live(Load::Reads) => "100 reads by each thread for each raise before";
        "reads_beside", 4, 100_000, Work::Live(Load::ReadsBeside) => "the same, beside a thread that reports all the time";
        "reports", 4, 1_000_000, Work::Live(Load::Reports) => "reports by each thread";
        "tokens", 1, 1_000_000, Work::Live(Load::Tokens) => "a token's split, learn and meet, after as many raises";
        "batches", 1, 10_000, Work::Live(Load::Batches) => "20,000 requests in batches of so many, each served by one read";
    };

    /// Runs it, and gives what it computed and took.
    pub(crate) fn run<R: Clock + CpuClock + Threads + Wait + Sync>(
        self,
        rt: &R,
        job: Job,
    ) -> Result<Measured> {
        match self.work {
            Work::Asks(proxies, numbers) => chain::asks(rt, job, proxies, numbers),
            Work::Queue => queue::mix(rt, job),
            Work::Waits => queue::waits(rt, job),
            Work::Throttles => queue::throttles(rt, job),
            Work::Audit => audits::audits(rt, job),
            Work::Sequencer => chain::of_sequencer(rt, job),
            Work::Master => chain::of_master(rt, job),
            Work::Live(load) => record::measure(rt, job, load),
        }
    }
}
