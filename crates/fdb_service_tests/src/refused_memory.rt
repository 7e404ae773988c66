//! Calls that are refused memory: each of these tests passes also where any one allocation is
//! refused. `tests/run` refuses each in turn, so they ask for little memory of their own. What
//! refuses is asked once more, and has changed nothing before. What the program calls is refused
//! memory there, in its own sweeps.

use crate::stand::{Told, play};
use crate::workload::play_workloads;
use std::alloc::Global;
use std::sync::Wait;
use std::test::Fail;
use std::thread::Threads;

/// Each of six clients begins with another call, which then takes memory for its log.
const CALLS: &str = "
ask 0 0 0 => 100 after 0 fresh; ask 0 0 0 => 101 after 100 fresh; ask 0 0 0 => 102 after 101 fresh
report 0 3 0 => raised changed at 1; tell 0 1 => at 1; learn 1 0 => at 1; tell 2 5 => at 0
report 3 1 0 => no commit version was issued under this number
reask 4 1 0 0 => 103 after 102 fresh; reask 4 1 0 0 => 103 after 102 kept
reask 4 9 0 0 => the next request number is 2; read 5 served => 102 at 1; log 0 => 5 calls at 1
log 1 => 1 calls at 1; log 4 => 3 calls at 0; log 5 => 1 calls at 1
";

/// A batch of so many that a list with nothing in it grows twice.
const BATCH: &str = "
ask 0 0 1000; ask 0 0 3000; report 0 2 0; see => 1; leave 3 0 0 default 1 4999 1 ahead => in
leave 3 1 0 batch 1 0 0 => in
serve => 3 2100 unlocked none at 1 with 1 t 5 5000 / 3 2100 unlocked none at 1
";

/// Six requests, so many that a queue with nothing in it grows twice, whose answers go over channels
/// with room for one, or over unbounded ones, to which a send needs memory. The queue has had as many
/// requests before, or none.
const UNUSED: &str = "leave 6 0 0 default 1 0 0; proxy 9 9 9 => heard";

const USED: &str = "leave 6 0 0 default 1 0 0; proxy 9 9 9 used => heard";

const UNBOUNDED: &str = "leave 6 0 0 default 1 0 0 unbounded; proxy 9 9 9 used => heard";

/// New rates that turn away who waits in the queue, for whom they need a list: they come while the proxy
/// hands its first answer over.
const NEW_RATES: &str = "
leave 1 0 0 system 1 0 0 held; leave 1 0 1 batch 15 0 0; proxy 5 1 9 rates 4 0 => heard
";

/// Plays a text, and from the start once more where memory is refused. Answers which request of a proxy
/// alone was refused memory, if one was.
fn bears<R: Threads + Wait + Sync>(rt: &R, alloc: Global, text: &str) -> Result<u64, Fail> {
    let told = Told {
        text,
        number: 0,
        once: true,
    };
    match play(rt, alloc, told) {
        Ok(alone) => Ok(alone),
        Err(error) => {
            error.was_refusal()?;
            Ok(play(rt, alloc, told)?)
        }
    }
}

#[test]
fn a_client_bears_it(rt: HostRuntime) -> Result<(), Fail> {
    bears(&rt, rt.alloc(), CALLS)?;
    Ok(())
}

#[test]
fn a_batch_bears_it(rt: HostRuntime) -> Result<(), Fail> {
    bears(&rt, rt.alloc(), BATCH)?;
    Ok(())
}

/// Whoever alone is refused memory in its offer is printed, which `tests/run` looks for: the proxy
/// goes on, and all others have their replies.
#[test]
fn a_proxy_bears_it(rt: HostRuntime) -> Result<(), Fail> {
    for text in [UNUSED, USED, UNBOUNDED, NEW_RATES] {
        let number = bears(&rt, rt.alloc(), text)?;
        if number > 0 {
            println!(rt; "request {number} alone was refused memory")?;
        }
    }
    Ok(())
}

/// A workload of two clients at nine GRV proxies, of which one that is refused memory ends early.
const VISITS: &str = "visits 2 9 2 100 1 1 1 => explained";

#[test]
fn a_workload_bears_it(rt: HostRuntime) -> Result<(), Fail> {
    if let Err(error) = play_workloads(&rt, rt.alloc(), VISITS, 0) {
        error.was_refusal()?;
        play_workloads(&rt, rt.alloc(), VISITS, 0)?;
    }
    Ok(())
}

/// Plays a text, which may be refused memory from some call on.
fn ends_without_memory<R: Threads + Wait + Sync>(
    rt: &R,
    alloc: Global,
    text: &str,
) -> Result<(), Fail> {
    let told = Told {
        text,
        number: 0,
        once: false,
    };
    match play(rt, alloc, told) {
        Ok(_) => Ok(()),
        Err(error) => error.was_refusal(),
    }
}

/// Passes also where every allocation is refused from one on: then what was begun ends out of
/// memory, or as ever.
#[test]
fn without_memory(rt: HostRuntime) -> Result<(), Fail> {
    for text in [CALLS, BATCH, UNUSED, UNBOUNDED, NEW_RATES] {
        ends_without_memory(&rt, rt.alloc(), text)?;
    }
    match play_workloads(&rt, rt.alloc(), VISITS, 0) {
        Ok(()) => Ok(()),
        Err(error) => error.was_refusal(),
    }
}
