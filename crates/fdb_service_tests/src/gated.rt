//! Replays whose threads are held at gates: that they run side by side, that a lock is held where
//! its gate is passed, and that a read waits for none of them. No clause says these.

use fdb_checks::{comes, holds, same_text, says};
use fdb_history::{Gate, Place};
use fdb_replay::{ReplayFault, ReplayOpts, replay};
use fdb_script::ScriptError;
use std::alloc::Global;
use std::str::from_utf8;
use std::sync::Wait;
use std::sync::atomic::{AtomicBool, AtomicU64, Ordering};
use std::test::Fail;
use std::thread::Threads;

/// What a replay of a script through so many GRV proxies writes, whose threads pass a gate.
fn replayed<R: Threads + Wait + Sync, G: Gate>(
    rt: &R,
    alloc: Global,
    script: &str,
    proxies: u32,
    gate: &G,
) -> Result<Vec<u8>, Fail> {
    let opts = ReplayOpts {
        proxies: proxies.clamp(1, 16),
        with_history: false,
    };
    let mut out = Vec::new(alloc);
    match replay(rt, alloc, script.as_bytes(), opts, gate, &mut out) {
        Ok(()) => Ok(out),
        Err(fault) => Err(Fail::new(format_args!("{fault}"))),
    }
}

/// Client 0 asks for a commit version and reports it, beside two reads of client 1; the same, once
/// client 1 has raised the record, so that its reads come with what it has seen.
const BESIDE_READS: [&str; 2] = [
    r#"{"epoch_end":0,"recovery":100,"clients":2,"rounds":[[
{"do":"ask","client":0,"at":1000},{"do":"report","client":0,"num":1},{"do":"grv","client":1},
{"do":"grv","client":1}]]}"#,
    r#"{"epoch_end":0,"recovery":100,"clients":2,"rounds":[[
{"do":"ask","client":1,"at":1000},{"do":"ask","client":1,"at":2000},
{"do":"report","client":1,"num":2}],[{"do":"ask","client":0,"at":3000,"processed":1},
{"do":"report","client":0,"num":1,"min_known":50},{"do":"grv","client":1},
{"do":"grv","client":1}]]}"#,
];

/// Client 0 asks and reports, beside a read and a report of client 1.
const BESIDE_A_REPORT: &str = r#"{"epoch_end":0,"recovery":100,"clients":2,"rounds":[[
{"do":"ask","client":1,"at":1000}],[{"do":"ask","client":0,"at":3000},
{"do":"report","client":0,"num":1},{"do":"grv","client":1},
{"do":"report","client":1,"num":1,"min_known":50}]]}"#;

/// The same, beside a read and a request for a commit version.
const BESIDE_AN_ASK: &str = r#"{"epoch_end":0,"recovery":100,"clients":2,"rounds":[[
{"do":"ask","client":1,"at":1000}],[{"do":"ask","client":0,"at":3000},
{"do":"report","client":0,"num":1},{"do":"grv","client":1},
{"do":"ask","client":1,"at":4000,"processed":1}]]}"#;

/// Two reads pass while another client holds the lock of the sequencer, or that of the reports. A
/// report passes while another client holds the first, and a request for a commit version while it
/// holds the second.
#[test]
fn each_lock_is_passed_by_other_calls(rt: HostRuntime) -> Result<(), Fail> {
    let (sequencer, reports) = (Place::SequencerHeld, Place::ReportHeld);
    for text in BESIDE_READS {
        for at in [sequencer, reports] {
            crosses(&rt, rt.alloc(), text, at, Place::ReadAnswered)?;
        }
    }
    crosses(&rt, rt.alloc(), BESIDE_A_REPORT, sequencer, reports)?;
    crosses(&rt, rt.alloc(), BESIDE_AN_ASK, reports, sequencer)
}

/// Replays a script through one GRV proxy and through two, with client 0 held in a lock while client
/// 1 passes beside it.
fn crosses<R: Threads + Wait + Sync>(
    rt: &R,
    alloc: Global,
    script: &str,
    at: Place,
    beside: Place,
) -> Result<(), Fail> {
    for proxies in [1, 2] {
        let gate = Crossing::new(at, beside);
        replayed(rt, alloc, script, proxies, &gate)?;
        holds(
            gate.is_passed(),
            &format_args!("{at:?} beside {beside:?}: somebody waited in vain"),
        )?;
    }
    Ok(())
}

/// More than 1,000 commands of each of two clients, and as many in a round as there may be.
#[test]
fn rounds_of_many_commands_run_side_by_side(rt: HostRuntime) -> Result<(), Fail> {
    let alloc = rt.alloc();
    for (clients, times, proxies) in [(2, 1_001, 1), (2, 4_999, 2), (64, 156, 16)] {
        let mut each = String::new(alloc);
        for client in 0..clients {
            write!(each, ",{{\"do\":\"grv\",\"client\":{client}}}")?;
        }
        let script = format!(in alloc;
            "{{\"epoch_end\":0,\"recovery\":100,\"clients\":{clients},\"rounds\":[[{FIRST}{}]]}}",
            each.repeat(alloc, times)?
        )?;
        let gate = SideBySide::new(clients);
        replayed(&rt, alloc, &script, proxies, &gate)?;
        holds(gate.is_passed(times as u64), &"side by side")?;
    }
    Ok(())
}

/// A command that passes no gate.
const FIRST: &str = r#"{"do":"tell","client":0,"to":1}"#;

/// The calls of a client of 64: requests for commit versions that are fresh, repeated, forgotten, of
/// number 0 and early, with something processed or not; reports that are refused, that raise the
/// record or its minimum alone, or neither; and reads with each option, of which a lock turns one
/// away and the queue another.
const CALLS: &str = r#"{"epoch_end":0,"recovery":100,"clients":64,"rounds":[[
{"client":@,"do":"ask","at":1000},{"client":@,"do":"ask","at":3000},
{"client":@,"do":"ask","at":4000,"processed":1},{"client":@,"do":"reask","num":2,"at":4000},
{"client":@,"do":"reask","num":2,"at":4000,"processed":1},
{"client":@,"do":"reask","num":1,"at":4000},
{"client":@,"do":"reask","num":9,"at":4000,"processed":1},{"client":@,"do":"report","num":9},
{"client":@,"do":"report","num":9,"min_known":50},{"client":@,"do":"report","num":2},
{"client":@,"do":"report","num":1,"locked":true},
{"client":@,"do":"report","num":2,"min_known":50},
{"client":@,"do":"report","num":2,"min_known":50,"metadata":"0102030405060708090a"},
{"client":@,"do":"report","num":2,"min_known":9000},
{"client":@,"do":"report","num":3,"min_known":60,"locked":true,"metadata":"0102030405060708090a"},
{"client":@,"do":"grv"},{"client":@,"do":"grv","lock_aware":true},
{"client":@,"do":"grv","lock_aware":true,"use_min":true},
{"client":@,"do":"grv","lock_aware":true,"priority":"system","tags":["t"],"count":9},
{"client":@,"do":"grv","lock_aware":true,"priority":"batch","at":9},
{"client":@,"do":"grv","count":0},{"client":@,"do":"reask","num":0,"at":4000}]]}"#;

/// What each is answered, as tests/model.py says too.
const REPLIES: &str = "\
0 @ 0 ask prev 0 version 100 ordinal 0 fresh
0 @ 1 ask prev 100 version 2100 ordinal 1 fresh
0 @ 2 ask prev 2100 version 3100 ordinal 2 fresh
0 @ 3 reask prev 100 version 2100 ordinal 1 kept
0 @ 4 reask prev 100 version 2100 ordinal 1 kept
0 @ 5 reask refused Forgotten
0 @ 6 reask refused Early 4
0 @ 7 report refused NotIssued
0 @ 8 report refused NotIssued
0 @ 9 report 2100 raised pos 1
0 @ 10 report 100 not raised pos 1
0 @ 11 report 2100 min raised pos 2
0 @ 12 report 2100 not raised pos 2
0 @ 13 report refused MinAbove
0 @ 14 report 3100 raised pos 3
0 @ 15 grv refused Locked 3100 pos 3
0 @ 16 grv 3100 locked 0102030405060708090a min 60 pos 3
0 @ 17 grv 3100 locked 0102030405060708090a min 60 used 60 pos 3
0 @ 18 grv 3100 locked 0102030405060708090a min 60 pos 3
0 @ 19 grv 3100 locked 0102030405060708090a min 60 pos 3
0 @ 20 grv refused BadCount
0 @ 21 reask refused Forgotten
audit ok events 10 raised 2 versions 3
";

/// The first commit version is the greatest there is.
const LAST: &str = r#"{"epoch_end":0,"recovery":9223372036854775807,"clients":64,"rounds":[[
{"client":@,"do":"ask","at":1000},{"client":@,"do":"ask","at":3000},
{"client":@,"do":"reask","num":2,"at":3000},{"client":@,"do":"reask","num":1,"at":3000},
{"client":@,"do":"report","num":2},{"client":@,"do":"report","num":1},
{"client":@,"do":"report","num":1,"min_known":9223372036854775807},
{"client":@,"do":"grv","use_min":true}]]}"#;

const LAST_REPLIES: &str = "\
0 @ 0 ask prev 0 version 9223372036854775807 ordinal 0 fresh
0 @ 1 ask refused Exhausted
0 @ 2 reask refused Exhausted
0 @ 3 reask prev 0 version 9223372036854775807 ordinal 0 kept
0 @ 4 report refused NotIssued
0 @ 5 report 9223372036854775807 not raised pos 0
0 @ 6 report 9223372036854775807 min raised pos 1
0 @ 7 grv 9223372036854775807 unlocked none min 9223372036854775807 used 9223372036854775807 pos 1
audit ok events 3 raised 0 versions 1
";

/// Each request for a commit version passes a gate, and so does each report that the live record
/// takes and each read: once, and under the client's own number.
#[test]
fn each_call_passes_its_gate(rt: HostRuntime) -> Result<(), Fail> {
    for client in 0..64 {
        let gate = Counting::new(client);
        replies_are(&rt, rt.alloc(), &gate, client, CALLS, REPLIES)?;
        holds(gate.was_passed(8, 5, 6), &client)?;
        let gate = Counting::new(client);
        replies_are(&rt, rt.alloc(), &gate, client, LAST, LAST_REPLIES)?;
        holds(gate.was_passed(4, 2, 1), &client)?;
    }
    Ok(())
}

/// Compares what is written of the calls of a client.
fn replies_are<R: Threads + Wait + Sync>(
    rt: &R,
    alloc: Global,
    gate: &Counting,
    client: u32,
    calls: &str,
    replies: &str,
) -> Result<(), Fail> {
    let client = client.to_string(alloc)?;
    let script = calls.replace(alloc, '@', &client)?;
    let found = replayed(rt, alloc, &script, 2, gate)?;
    let wanted = replies.replace(alloc, '@', &client)?;
    same_text(from_utf8(&found)?, &wanted, "replies")
}

/// What is said of a replay that fails.
#[test]
fn faults_of_replays(rt: HostRuntime) -> Result<(), Fail> {
    let refused = ReplayFault::Script(ScriptError::NotJson);
    says(rt.alloc(), &refused, "script refused: NotJson")?;
    says(rt.alloc(), &ReplayFault::Memory, "out of memory")?;
    says(rt.alloc(), &ReplayFault::Write, "writing failed")
}

/// Counts how often a client passes at each place, and how often others do.
#[derive(Drop)]
pub(crate) struct Counting {
    client: u32,
    asks: AtomicU64,
    reports: AtomicU64,
    answers: AtomicU64,
    others: AtomicU64,
}

impl Counting {
    pub(crate) fn new(client: u32) -> Counting {
        Counting {
            client,
            asks: AtomicU64::new(0),
            reports: AtomicU64::new(0),
            answers: AtomicU64::new(0),
            others: AtomicU64::new(0),
        }
    }

    /// Whether the client has passed so often with the sequencer's lock, with that of the reports, and
    /// where an answer to a read has come, and nobody else has passed.
    pub(crate) fn was_passed(&self, asks: u64, reports: u64, answers: u64) -> bool {
        self.asks.load(Ordering::SeqCst) == asks
            && self.reports.load(Ordering::SeqCst) == reports
            && self.answers.load(Ordering::SeqCst) == answers
            && self.others.load(Ordering::SeqCst) == 0
    }
}

impl Gate for Counting {
    fn pass(&self, place: Place, who: u32) {
        let count = match place {
            _ if who != self.client => &self.others,
            Place::SequencerHeld => &self.asks,
            Place::ReportHeld => &self.reports,
            Place::ReadAnswered => &self.answers,
        };
        count.fetch_add(1, Ordering::SeqCst);
    }
}

/// Holds client 1 at its first answer until client 0 is in a lock, and holds that one there until
/// client 1 passes another place: where its next answer has come, or in the other lock.
#[derive(Drop)]
pub(crate) struct Crossing {
    /// The lock in which client 0 is held.
    at: Place,
    /// The place that client 1 passes while client 0 is held.
    beside: Place,
    /// Client 0 has the lock, so that client 1 may go on.
    locked: AtomicBool,
    /// Client 1 has had its first answer, at which it is held.
    answered: AtomicBool,
    /// Client 1 has passed the other place, so that client 0 may go on.
    passed: AtomicBool,
    /// Somebody was held and gave up, since the other did not come.
    failed: AtomicBool,
}

impl Crossing {
    pub(crate) fn new(at: Place, beside: Place) -> Crossing {
        Crossing {
            at,
            beside,
            locked: AtomicBool::new(false),
            answered: AtomicBool::new(false),
            passed: AtomicBool::new(false),
            failed: AtomicBool::new(false),
        }
    }

    /// Whether both came through, and nobody looked in vain.
    pub(crate) fn is_passed(&self) -> bool {
        self.locked.load(Ordering::SeqCst)
            && self.passed.load(Ordering::SeqCst)
            && !self.failed.load(Ordering::SeqCst)
    }

    /// Waits for a flag of its own, and notes a failure where it does not come.
    fn waits_for(&self, flag: &AtomicBool) {
        if !comes(|| flag.load(Ordering::SeqCst)) {
            self.failed.store(true, Ordering::SeqCst);
        }
    }
}

impl Gate for Crossing {
    fn pass(&self, place: Place, who: u32) {
        if place == self.at && who == 0 {
            self.locked.store(true, Ordering::SeqCst);
            self.waits_for(&self.passed);
        }
        if who != 1 {
            return;
        }
        if place == Place::ReadAnswered && !self.answered.swap(true, Ordering::SeqCst) {
            self.waits_for(&self.locked);
        } else if place == self.beside && self.answered.load(Ordering::SeqCst) {
            self.passed.store(true, Ordering::SeqCst);
        }
    }
}

/// Holds each client where an answer to a read has come, until each other has as many.
#[derive(Drop)]
pub(crate) struct SideBySide {
    clients: u64,
    answers: AtomicU64,
    /// Somebody waited in vain. Nobody waits from then on.
    failed: AtomicBool,
}

impl SideBySide {
    pub(crate) fn new(clients: u64) -> SideBySide {
        SideBySide {
            clients,
            answers: AtomicU64::new(0),
            failed: AtomicBool::new(false),
        }
    }

    /// Whether each client has got so many answers, and nobody waited in vain.
    pub(crate) fn is_passed(&self, each: u64) -> bool {
        let all = self.clients.saturating_mul(each);
        self.answers.load(Ordering::SeqCst) == all && !self.failed.load(Ordering::SeqCst)
    }

    /// Waits until there are so many answers.
    fn waits_for(&self, answers: u64) {
        let has_come = || {
            self.answers.load(Ordering::SeqCst) >= answers || self.failed.load(Ordering::SeqCst)
        };
        if !comes(has_come) {
            self.failed.store(true, Ordering::SeqCst);
        }
    }
}

impl Gate for SideBySide {
    fn pass(&self, place: Place, _who: u32) {
        if place == Place::ReadAnswered {
            let before = self.answers.fetch_add(1, Ordering::SeqCst);
            let all_before = before / self.clients.max(1);
            self.waits_for(all_before.saturating_add(1).saturating_mul(self.clients));
        }
    }
}
