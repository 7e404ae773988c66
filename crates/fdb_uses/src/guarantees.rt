//! What a caller of the libraries may rely on, as functions that one would write first over them:
//! of clients, of commit versions that are drawn with tokens, of whole runs, and of logs. Each says
//! so by a clause of its own, which the check proves from the libraries' clauses, with no proof of
//! ours.

ghost use Rattle.std.specs.Prelude.{◌≡◌, ◌*◌, ◌<◌, ◌≤◌, ℕ, [], false, IfOk, Some, ◌≢◌, ◌+◌};
ghost use Rattle.std.specs.Prelude.{Contains, IfSome, true, List, slice_get, take, ◌↔◌, IsTrue};
ghost use Rattle.std.specs.Prelude.{count_by, ◌++◌, ◌∷◌, Option, OnOk, map, max, option_map};
ghost use Rattle.fdb_history.specs.Strays.{issued_under, IsStray};
ghost use Rattle.fdb_history.specs.Chain.{latest};
ghost use Rattle.fdb_history.specs.Event.{positions_from, register_after};
ghost use Rattle.fdb_history.specs.Faults.{Nowhere};
ghost use Rattle.fdb_history.specs.Linear.{IsLinear};
ghost use Rattle.fdb_live.specs.Holding.{least_above, AreDrawn, versions};
ghost use Rattle.fdb_live.specs.Seen.{last_record, origin_of};
ghost use Rattle.fdb_client.specs.Account.{Account};
ghost use Rattle.fdb_client.specs.Cluster.{IsClusterConfig};
ghost use Rattle.fdb_client.specs.Merging.{chain_in};
ghost use Rattle.fdb_client.specs.Settling.{logs_of};
ghost use Rattle.fdb_client.specs.declared.cluster.TheConstants.{MAX_GRV_PROXIES};
ghost use Rattle.fdb_replay.specs.Outcome.{opening};
ghost use Rattle.fdb_lines.specs.Audit.{case_of, AreExplained};
ghost use Rattle.fdb_lines.specs.Listing.{faults_of};
ghost use Rattle.fdb_lines.specs.Log.{lines_of};
ghost use Rattle.fdb_lines.specs.Keys.{placed_found};
ghost use Rattle.fdb_lines.specs.Reasons.{found_of};
ghost use Rattle.fdb_lines.specs.Watch.{due, HasSeen, IsTold};
ghost use Rattle.fdb_lines.specs.Watching.{told_of};
ghost use Rattle.fdb_lines.specs.declared.fault.Found.{Found};
ghost use Rattle.fdb_lines.specs.declared.line.Line.{Line};
ghost use Rattle.fdb_lines.specs.declared.watch.Watch.{Watch};
ghost use Rattle.fdb_uses.specs.Stale.{is_stale};

pub mod live;
pub mod watches;

use fdb_chain::ChainError;
use fdb_client::{
    Client, ClientError, ClusterConfig, FinishError, ReadVersion, Workload, WorkloadOutcome,
    run_workload,
};
use fdb_history::{Ask, GrvOpts, History, Issued, MAX_VERSION, OpenGate, Record, laws};
use fdb_lines::{
    AuditOpts, Fault, Found, Line, LineError, Log, Settled, Watch, WatchError, findings,
    first_finding,
};
use fdb_live::{Ack, Fetched, Live, LiveError, Master, Opened, Seen};
use fdb_proxy::Desk;
use fdb_replay::run;
use fdb_script::{Outcome, Script};
use std::alloc::{AllocError, Global};
use std::sync::Wait;
use std::thread::Threads;

/// A client's reads never fall, but for one that asks for the minimum known committed version. Each
/// is within bounds: its version is one of its record's two, of which the minimum is not above the
/// other, and its position not above twice that.
pub fn read_twice<S: Live, R: Wait>(
    rt: &R,
    desk: &Desk<S>,
    client: &mut Client<'_, S>,
    first: GrvOpts,
    second: GrvOpts,
) -> Result<(ReadVersion, ReadVersion), ClientError>
    requires { second.use_min ≡ false }
    ensures rises { IfOk result (λ reads. reads.0.version ≤ reads.1.version) }
    ensures least { IfOk result (λ reads. reads.0.rec.min_known ≤ reads.0.version) }
    ensures most { IfOk result (λ reads. reads.0.version ≤ reads.0.rec.version) }
    ensures greatest { IfOk result (λ reads. reads.0.version ≤ MAX_VERSION) }
    ensures position { IfOk result (λ reads. reads.0.position ≤ 2 * reads.0.rec.version) }
{
    let one = client.read_version(rt, &OpenGate, desk, first)?;
    let two = client.read_version(rt, &OpenGate, desk, second)?;
    Ok((one, two))
}

/// A new client that draws a version, reports it and reads gets none below it.
pub fn commit_and_read<S: Live, R: Wait>(
    rt: &R,
    desk: &Desk<S>,
    client: &mut Client<'_, S>,
    at: u64,
    opts: GrvOpts,
) -> Result<(Issued, ReadVersion), ClientError>
    requires new { client.old.calls ≡ [] }
    requires opts { opts.use_min ≡ false }
    ensures { IfOk result (λ both. both.0.version ≤ both.1.version) }
{
    let issued = client.ask(rt, &OpenGate, 0, at)?;
    client.report(rt, &OpenGate, issued.num, false, None, 0)?;
    let read = client.read_version(rt, &OpenGate, desk, opts)?;
    Ok((issued, read))
}

/// Who was told draws a version above the one that the teller had drawn, and its next one is above
/// that.
pub fn ask_once_told<S: Live, R: Wait>(
    rt: &R,
    teller: &mut Client<'_, S>,
    learner: &mut Client<'_, S>,
    at: u64,
) -> Result<(u64, u64, u64), ClientError>
    ensures told { IfOk result (λ versions. versions.0 < versions.1) }
    ensures next { IfOk result (λ versions. versions.1 < versions.2) }
{
    let one = teller.ask(rt, &OpenGate, 0, at)?;
    tell(rt, teller, learner)?;
    let two = learner.ask(rt, &OpenGate, 0, at)?;
    learner.report(rt, &OpenGate, two.num, false, None, 0)?;
    let three = learner.ask(rt, &OpenGate, 0, at)?;
    Ok((one.version, two.version, three.version))
}

/// Who reported the version that it was issued under a number reads none below it, and who was told
/// reads none below what the teller had reported or read.
pub fn read_once_told<S: Live, R: Wait>(
    rt: &R,
    desk: &Desk<S>,
    teller: &mut Client<'_, S>,
    learner: &mut Client<'_, S>,
    num: u64,
    first: GrvOpts,
    second: GrvOpts,
) -> Result<(ReadVersion, ReadVersion), ClientError>
    requires { second.use_min ≡ false }
    ensures own { first.use_min ≡ false → IfOk result (λ reads. (version : ℕ)
        → issued_under teller.old.calls num ≡ Some version → version ≤ reads.0.version) }
    ensures reported { IfOk result (λ reads. (version : ℕ)
        → issued_under teller.old.calls num ≡ Some version → version ≤ reads.1.version) }
    ensures read { IfOk result (λ reads. reads.0.version ≤ reads.1.version) }
{
    teller.report(rt, &OpenGate, num, false, None, 0)?;
    let one = teller.read_version(rt, &OpenGate, desk, first)?;
    tell(rt, teller, learner)?;
    let two = learner.read_version(rt, &OpenGate, desk, second)?;
    Ok((one, two))
}

/// One client tells another what it has seen, who has then seen no less.
pub fn tell<S: Live, R: Wait>(
    rt: &R,
    teller: &mut Client<'_, S>,
    learner: &mut Client<'_, S>,
) -> Result<(), ClientError>
    ensures stays { teller.new.changes ≡ teller.old.changes }
    ensures knows { IfOk result (λ _. (last_record S.start teller.old.changes).version
        ≤ (last_record S.start learner.new.changes).version) }
    ensures drew { IfOk result
        (λ _. least_above teller.old.answers ≤ least_above learner.new.answers) }
{
    let told = teller.tell(learner.number())?;
    match learner.learn(rt, teller.number(), told) {
        Ok(()) => Ok(()),
        Err((cause, _told)) => Err(cause),
    }
}

/// An acknowledgement is within bounds, as a read is, with the record that its client has then seen.
pub fn report_within<S: Live, R: Wait>(
    rt: &R,
    client: &mut Client<'_, S>,
    num: u64,
) -> Result<Ack, ClientError>
    ensures minimum { IfOk result (λ _. (last_record S.start client.new.changes).min_known
        ≤ (last_record S.start client.new.changes).version) }
    ensures greatest { IfOk result
        (λ _. (last_record S.start client.new.changes).version ≤ MAX_VERSION) }
    ensures position { IfOk result
        (λ ack. ack.position ≤ 2 * (last_record S.start client.new.changes).version) }
{
    client.report(rt, &OpenGate, num, false, None, 0)
}

/// The master that was opened, with the tokens of its commit proxies. It is refused for memory alone.
pub fn share<S: Live>(opened: Opened) -> Result<(Master<S>, Vec<Seen<S>>), AllocError>
    requires chained { S.chained ≡ true }
    requires opened { opened
        ≡ origin_of S.table S.start S.reporters S.chained S.epoch_end S.recovery }
{
    match opened.master::<S>() {
        Ok((master, _, tokens)) => Ok((master, tokens)),
        Err(LiveError::Memory) => Err(AllocError),
        Err(_) => unreachable!(),
    }
}

/// A version that is drawn after a read is above the version that was read, unless it is the first
/// one of all, and above all that its proxy had drawn or seen drawn. A read leaves the proxy's next
/// number as it was.
pub fn draw_after_read<S: Live, R: Wait>(
    rt: &R,
    master: &Master<S>,
    token: &mut Seen<S>,
    ask: Ask,
) -> Result<(Fetched, Issued), ChainError>
    requires { token.old.reporter ≡ Some ask.proxy }
    ensures read { IfOk result (λ both. both.1.fresh ≡ true → 0 < both.1.ordinal
        → both.0.rec.version < both.1.version) }
    ensures drawn { IfOk result (λ both. both.1.fresh ≡ true
        → least_above token.old.answers ≤ both.1.version) }
    ensures next { ask.num ≡ latest ask.proxy token.old.answers + 1
        → IfOk result (λ both. both.1.fresh ≡ true) }
{
    // The check learns here that a proxy's next number is decided by its own answers.
    laws::own_answers_decide();
    let fetched = master.record().read(rt, token);
    let issued = master.ask(rt, &OpenGate, token, ask)?;
    Ok((fetched, issued))
}

/// Who has drawn a version may report it, and reads none below it then. What it reads was drawn.
pub fn draw_and_report<S: Live, R: Wait>(
    rt: &R,
    master: &Master<S>,
    token: &mut Seen<S>,
    ask: Ask,
) -> Option<(u64, Fetched)>
    requires { token.old.reporter ≡ Some ask.proxy }
    ensures read { IfSome result (λ both. both.0 ≤ both.1.rec.version) }
    ensures drawn { IfSome result (λ _. AreDrawn token.new.answers token.new.changes) }
{
    let issued = master.ask(rt, &OpenGate, token, ask).ok()?;
    if !issued.fresh {
        return None;
    }
    let rec = Record {
        version: issued.version,
        locked: false,
        metadata: None,
        min_known: 0,
    };
    let live = master.record();
    live.report(rt, &OpenGate, ask.proxy, token, rec).ok()?;
    Some((issued.version, live.read(rt, token)))
}

/// Two versions that two commit proxies draw, whenever each does, are different. Each may then report
/// its own.
pub fn draw_two<S: Live, R: Wait>(
    rt: &R,
    master: &Master<S>,
    first: &mut Seen<S>,
    second: &mut Seen<S>,
    ask: Ask,
    other: Ask,
) -> Option<(u64, u64)>
    requires first { first.old.reporter ≡ Some ask.proxy }
    requires second { second.old.reporter ≡ Some other.proxy }
    requires proxies { ask.proxy ≢ other.proxy }
    ensures apart { IfSome result (λ both. both.0 ≢ both.1) }
    ensures has_first { IfSome result (λ both. Contains (versions first.new.answers) both.0) }
    ensures has_second { IfSome result (λ both. Contains (versions second.new.answers) both.1) }
{
    let one = master.ask(rt, &OpenGate, first, ask).ok()?;
    let two = master.ask(rt, &OpenGate, second, other).ok()?;
    if !one.fresh || !two.fresh {
        return None;
    }
    master.record().distinct(rt, first, one, second, two);
    Some((one.version, two.version))
}

/// Whatever a workload does, one history of the register explains what the clients that it leaves
/// were answered, and no answer is stray: each commit version was issued to the one call that drew it.
pub fn run_whole<R: Threads + Wait + Sync, W: Workload<R> + Drop>(
    rt: &R,
    alloc: Global,
    config: ClusterConfig<'_>,
    workload: W,
) -> Result<(WorkloadOutcome<W::Output>, Result<History, AllocError>), FinishError>
    requires { IsClusterConfig config }
    ensures gives { IfOk result (λ ran. (left : List Account)
        × W.gives workload config.entry left ran.0.output
        × (ran.0.run.logs.items ≡ logs_of left)) }
    ensures linear { IfOk result (λ left. IfOk left.1 (λ history.
        IsLinear config.entry.start left.0.run.logs.items history.events)) }
    ensures justified { IfOk result (λ left. Nowhere (IsStray
        (chain_in left.0.run.drawn left.0.run.logs.items) left.0.run.logs.items)) }
{
    let ran = run_workload(rt, alloc, config, workload)?;
    let history = ran.run.history(alloc);
    Ok((ran, history))
}

/// In the history of a run a position is never above twice the version there.
pub fn run_within<R: Threads + Wait + Sync>(
    rt: &R,
    alloc: Global,
    script: &Script,
    proxies: u32,
) -> Result<Outcome, AllocError>
    requires some_proxy { 0 < proxies }
    requires few_proxies { proxies ≤ MAX_GRV_PROXIES }
    ensures { IfOk result (λ outcome. (place position : ℕ)
        → slice_get (positions_from 0 outcome.history.events) place ≡ Some position
        → position ≤ 2 * (register_after (opening script.now.setup.recovery)
        (take (place + 1) outcome.history.events)).version) }
{
    laws::positions_below_versions();
    run(rt, alloc, script, proxies, &OpenGate)
}

/// Whether some history explains a log, which is so exactly where it has no fault.
pub fn is_explained(alloc: Global, log: &Log, opts: &AuditOpts) -> Result<bool, AllocError>
    ensures { IfOk result
        (λ answer. IsTrue answer ↔ AreExplained (case_of (lines_of log.now) opts.now)) }
{
    Ok(first_finding(alloc, log, None, opts)?.is_none())
}

/// How many of its faults are stale reads.
pub fn stale_reads(alloc: Global, log: &Log, opts: &AuditOpts) -> Result<usize, AllocError>
    ensures { IfOk result
        (λ n. n ≡ count_by is_stale (faults_of (case_of (lines_of log.now) opts.now))) }
{
    Ok(
        findings(alloc, log, None, opts)?
            .iter()
            .filter(|finding| is_stale(&finding.found))
            .count(),
    )
}

/// Whether a fault is a stale read: of a version below one that its caller knew.
fn is_stale(found: &Found) -> bool
    ensures { result ≡ is_stale found.now }
{
    found.fault == Fault::Order
}

/// Whether there was no fault to tell.
pub fn is_fine(settled: &Settled) -> bool
    ensures { (watch : Watch) (to : Option ℕ) (lines : List Line)
        → IsTold watch to lines settled.now.numbers.items settled.now.found.items
        → IsTrue result ↔ (told_of watch.margin (due watch to) lines ≡ []) }
{
    settled.found.is_empty()
}

/// The number, among all lines that ever came, of the first line of which a fault is told.
pub fn first_faulty(settled: &Settled) -> Option<u64>
    ensures { (watch : Watch) (to : Option ℕ) (lines : List Line)
        → IsTold watch to lines settled.now.numbers.items settled.now.found.items
        → result ≡ option_map (λ (found : Found). found.place)
        (slice_get (told_of watch.margin (due watch to) lines) 0) }
{
    let first = settled.found.first()?;
    Some(settled.number(first.found.place))
}

/// Adds a line and settles up to a moment: what is told is told of all lines, with this one.
pub fn push_and_settle(
    watch: &mut Watch,
    alloc: Global,
    line: Line,
    at: u64,
) -> Result<Settled, WatchError>
    ensures seen { OnOk result ((lines : List Line) → HasSeen watch.old lines
        → HasSeen watch.new (lines ++ line ∷ [])) }
    ensures told { IfOk result (λ it. (lines : List Line) → HasSeen watch.old lines
        → map (λ finding. placed_found it.numbers.items (found_of finding)) it.found.items
        ≡ told_of watch.old.margin (due watch.old (Some (max watch.old.from at)))
        (lines ++ line ∷ [])) }
{
    watch.push(line)?;
    match watch.settle(alloc, at) {
        Ok(settled) => Ok(settled),
        Err(_refused) => Err(WatchError::Line(LineError::Memory)),
    }
}
