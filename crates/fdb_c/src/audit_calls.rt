//! The log that an array of calls stands for.

ghost use Rattle.std.specs.Prelude.{◌≡◌, ◌⊎◌, ◌+◌, ◌||◌, ℕ, Err, IfErr, Ok, MatchResult, OnOk};
ghost use Rattle.std.specs.Prelude.{Some, length, option_map};
ghost use Rattle.std.specs.BTreeSet.{contains};
ghost use Rattle.std.specs.Ordering.{nat_cmp};
ghost use Rattle.fdb_lines.specs.Lines.{same_client};
ghost use Rattle.fdb_lines.specs.Log.{lines_of};
ghost use Rattle.fdb_log_reader.specs.Members.{or_bad, times_with};
ghost use Rattle.fdb_c.specs.Audit.{AreClients, client_of, ended_of, learnt_from, log_in};
ghost use Rattle.fdb_c.specs.Audit.{made_of, times_of, with_call};

use crate::audit::{FDB_ASK, FDB_COMMIT, FDB_LEARN, FDB_READ, FDB_REPORT};
use fdb_lines::{Line, Log, Operation, Times};
use fdb_log_reader::{Member, ReadError, Why};
use std::alloc::Global;
use std::collections::BTreeSet;

/// A line of a log.
#[repr(C)]
#[derive(Clone, Copy)]
pub struct FdbCall {
    /// The version; `FDB_LEARN` does not use it.
    pub version: u64,
    /// When the call began, in any one unit, where `has_times` holds.
    pub began: u64,
    /// When the call ended, in the unit of `began`, where `has_times` and `has_ended` hold.
    pub ended: u64,
    /// Whose call it was, where `has_client` holds.
    pub client: u32,
    /// With `FDB_LEARN`, the client from whom this one has learnt: it has a call above.
    pub teller: u32,
    /// `FDB_READ`, `FDB_COMMIT`, `FDB_ASK`, `FDB_REPORT` or `FDB_LEARN`.
    pub kind: u8,
    /// Whether it is known whose call it was.
    pub has_client: bool,
    /// Whether the log has times.
    pub has_times: bool,
    /// Whether it is known when the call ended.
    pub has_ended: bool,
}

/// Whose call it was.
fn client_of(call: FdbCall) -> Option<u32>
    ensures { result ≡ client_of call }
{
    if call.has_client {
        Some(call.client)
    } else {
        None
    }
}

/// That a client has learnt from another, which has to be known.
fn learnt_from(teller: u32, clients: &BTreeSet<u32>) -> Result<Operation, Why>
    ensures { result ≡ learnt_from teller (contains nat_cmp clients.now teller) }
{
    if clients.contains(&teller) {
        Ok(Operation::Learn(teller))
    } else {
        Err(Why::BadMember(Member::Learn))
    }
}

/// What was done, where these clients are known.
fn made_of(call: FdbCall, clients: &BTreeSet<u32>) -> Result<Operation, Why>
    ensures { result ≡ made_of call (contains nat_cmp clients.now call.teller) }
{
    match call.kind {
        FDB_READ => Ok(Operation::Read(call.version)),
        FDB_COMMIT => Ok(Operation::Commit(call.version)),
        FDB_ASK => Ok(Operation::Ask(call.version)),
        FDB_REPORT => Ok(Operation::Report(call.version)),
        FDB_LEARN => learnt_from(call.teller, clients),
        _ => Err(Why::NoCall),
    }
}

/// When the call ended.
fn ended_of(call: FdbCall) -> Option<u64>
    ensures { result ≡ ended_of call }
{
    if call.has_ended {
        Some(call.ended)
    } else {
        None
    }
}

/// When the call was made.
fn times_of(call: FdbCall) -> Result<Option<Times>, Why>
    ensures { result ≡ times_of call }
{
    if call.has_times {
        timed(call)
    } else {
        Ok(None)
    }
}

/// When the call was made, of a log with times.
fn timed(call: FdbCall) -> Result<Option<Times>, Why>
    ensures { result ≡ or_bad Member.Ended
        (option_map Some (times_with call.began (ended_of call))) }
{
    match Times::new(call.began, ended_of(call)) {
        Some(times) => Ok(Some(times)),
        None => Err(Why::BadMember(Member::Ended)),
    }
}

/// Adds a client to those that are known.
fn know(clients: &mut BTreeSet<u32>, client: Option<u32>) -> Result<(), Why>
    ensures known { OnOk result ((other : ℕ) → contains nat_cmp clients.new other
        ≡ (contains nat_cmp clients.old other || same_client client (Some other))) }
    ensures memory { IfErr result (λ why. why ≡ Why.Memory) }
{
    if let Some(client) = client {
        clients.insert(client).map_err(|_| Why::Memory)?;
    }
    Ok(())
}

/// Adds a call to a log, of which these clients have lines.
#[tactic(auto, using(crate::proofs::Clients::known_with))]
fn add_call(log: &mut Log, clients: &mut BTreeSet<u32>, call: FdbCall) -> Result<(), Why>
    requires { AreClients (lines_of log.old) clients.old }
    ensures known { OnOk result (AreClients (lines_of log.new) clients.new) }
    ensures added { MatchResult result
        (λ _. with_call (lines_of log.old) call ≡ Ok (lines_of log.new))
        (λ why. (why ≡ Why.Memory) ⊎ (with_call (lines_of log.old) call ≡ Err why)) }
    ensures one { OnOk result
        (length (lines_of log.new).lines ≡ length (lines_of log.old).lines + 1) }
{
    let client = client_of(call);
    let made = made_of(call, clients)?;
    let times = times_of(call)?;
    log.push(Line {
        client,
        call: made,
        times,
    })?;
    know(clients, client)
}

/// The log that calls stand for, each a line.
pub(crate) fn log_of(alloc: Global, calls: &[FdbCall]) -> Result<Log, ReadError>
    ensures { MatchResult result (λ log. log_in calls.now ≡ Ok (lines_of log))
        (λ error. (error.why ≡ Why.Memory) ⊎ (log_in calls.now ≡ Err error)) }
{
    let mut log = Log::new(alloc);
    // A table that compares: no choice of clients makes it slow, as it would one that hashes.
    let mut clients = BTreeSet::new(alloc);
    for (place, call) in calls.iter().enumerate() {
        if let Err(why) = add_call(&mut log, &mut clients, *call) {
            let line = place as u64 + 1;
            return Err(ReadError { line, why });
        }
    }
    Ok(log)
}
