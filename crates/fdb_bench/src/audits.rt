//! Audits of the logs of a run that is played before the watch starts.

use crate::chain::{MANY, START};
use crate::measurement::{Checksum, Job, Measured};
use crate::queue::plain_read;
use anyhow::{Result, ensure};
use fdb_chain::ChainCore;
use fdb_history::{Ask, Call, CallAnswer, ClientLog, Event, Input, Record, Sequence, audit};
use std::alloc::Global;
use std::time::CpuClock;

/// How many times the same logs are audited.
const AUDITS: u32 = 10;

/// Audits the logs of many clients with so many calls in all, a few times, and adds each event of
/// the history: client, call and version, and whether it raised the record.
pub(crate) fn audits(clock: &impl CpuClock, job: Job) -> Result<Measured> {
    let mut chain = ChainCore::new(job.alloc, 0, START.version, MANY)?;
    let logs = played(job, &mut chain)?;
    ensure!(logs.len() <= 64, "there are more than 64 logs");
    let opening = Record {
        version: 0,
        ..START
    };
    let mut checksum = Checksum::EMPTY;
    let begun = clock.process_cpu_time()?;
    for _ in 0..AUDITS {
        let history = audit(job.alloc, opening, chain.answers(), logs.as_slice())?;
        for event in history.events.as_slice() {
            let (client, call, rec, raised) = match event {
                Event::Report {
                    client,
                    call,
                    rec,
                    raised,
                    ..
                } => (*client, *call, rec, *raised),
                Event::Read { client, call, rec } => (*client, *call, rec, false),
            };
            let word = rec.version.wrapping_mul(31).wrapping_add(call);
            let word = word.wrapping_mul(31).wrapping_add(u64::from(client));
            checksum.add(word ^ u64::from(raised));
        }
    }
    let operations = u64::from(job.size / 3) * u64::from(3 * AUDITS);
    Measured::since(clock, begun, operations, checksum)
}

/// The logs of a run with so many calls, whole turns of three.
fn played(job: Job, chain: &mut ChainCore) -> Result<Vec<ClientLog>> {
    let mut logs = Vec::new(job.alloc);
    for _ in 0..MANY {
        logs.push(ClientLog {
            calls: Sequence::new(job.alloc),
        })?;
    }
    for turn in 0..job.size / 3 {
        if let Some(log) = logs.get_mut((turn % MANY) as usize) {
            play(job.alloc, chain, turn, log)?;
        }
    }
    Ok(logs)
}

/// A client's turn: it asks for a commit version, keeping its last eight
/// answers, reports the version, which raises the record, and reads it.
/// Each call is asked at the position that the client's log had come to.
fn play(alloc: Global, chain: &mut ChainCore, turn: u32, log: &mut ClientLog) -> Result<()> {
    let (proxy, num) = (turn % MANY, u64::from(turn / MANY) + 1);
    let (before, processed) = (u64::from(turn), num.saturating_sub(8));
    let at = before * 3;
    let issued = chain.ask(Ask {
        proxy,
        num,
        processed,
        at,
    })?;
    let rec = Record {
        version: issued.version,
        ..START
    };
    let report = Input::Report {
        num,
        locked: false,
        metadata: None,
        min_known: 0,
    };
    let acked = CallAnswer::Acked {
        rec,
        raised: true,
        changed: true,
    };
    let found = CallAnswer::Version {
        rec,
        limits: Sequence::new(alloc),
        locked_out: false,
    };
    let ask = Input::Ask { num, processed, at };
    let calls = [
        (before, ask, CallAnswer::Answered(issued)),
        (before + 1, report, acked),
        (before + 1, Input::Grv(plain_read(alloc)), found),
    ];
    for (position, input, answer) in calls {
        let asked = log.calls.as_slice().last().map_or(0, |last| last.position);
        log.calls.push(Call {
            input,
            asked,
            position,
            answer,
        })?;
    }
    Ok(())
}
