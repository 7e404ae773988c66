//! Audits: of calls that stand in the code, such as a test of another system has them, and one that
//! catches a client reading what it knows to be old.

ghost use Rattle.std.specs.Prelude.{◌≤◌, length, ◌^◌};

use crate::START;
use crate::proxies::opts;
use anyhow::{Result, anyhow};
use fdb_audit::{Wanted, judge};
use fdb_client::SettledRun;
use fdb_history::{Call, CallAnswer, ClientLog, Input, Issued, Sequence, audit};
use fdb_lines::{AuditOpts, Line, Log, Operation, Times};
use std::alloc::{AllocError, Global};
use std::io;

/// Audits two calls, and prints what is found: client 1 still reads 100 after client 0 has committed
/// at 200. That is stale, unless the clocks of the two may be 5 apart.
pub(crate) fn explained(rt: &impl Print, alloc: Global) -> Result<()> {
    let mut log = Log::new(alloc);
    log.push(at(0, Operation::Commit(200), Times::new(10, Some(14))))?;
    log.push(at(1, Operation::Read(100), Times::new(15, Some(16))))?;
    for margin in [0, 5] {
        let said = said_of(alloc, &log, margin)?;
        print!(rt; "{said}")?;
    }
    Ok(())
}

/// What an audit says of a log, where the clocks of two clients are at most so far apart.
fn said_of(alloc: Global, log: &Log, margin: u64) -> Result<String, AllocError> {
    let opts = AuditOpts {
        complete: None,
        margin,
    };
    let wanted = Wanted {
        history: false,
        all: true,
        totals: false,
        json: false,
    };
    Ok(judge(alloc, log, &[], &opts, wanted)?.text)
}

/// A call of the client with this number, and when it began and ended.
fn at(client: u32, call: Operation, times: Option<Times>) -> Line {
    Line {
        client: Some(client),
        call,
        times,
    }
}

/// Adds a read to what the last client of a run has logged: it got the record before all calls,
/// though it had come to the last position.
pub(crate) fn caught(rt: &impl Print, alloc: Global, run: SettledRun) -> Result<()> {
    let chain = run.chain(alloc)?;
    let SettledRun {
        mut logs,
        changes,
        ..
    } = run;
    let Some(log) = logs.last_mut() else {
        return Err(anyhow!("there is no client"));
    };
    log.calls.push(Call {
        input: Input::Grv(opts(alloc)),
        asked: changes,
        position: changes,
        answer: CallAnswer::Version {
            rec: START,
            limits: Sequence::new(alloc),
            locked_out: false,
        },
    })?;
    explain(rt, alloc, &chain, &logs)?;
    Ok(())
}

/// Audits logs, and tells what is found.
fn explain(rt: &impl Print, alloc: Global, chain: &[Issued], logs: &[ClientLog]) -> io::Result<()>
    requires { length logs.now ≤ 2 ^ 32 }
{
    match audit(alloc, START, chain, logs) {
        Ok(history) => println!(rt; "explained by {} events", history.events.len()),
        Err(fault) => println!(rt; "fault: {fault}"),
    }
}
