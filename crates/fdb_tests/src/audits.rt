//! Audits. Each line of a text adds something that is to be audited, or looks at it:
//!
//! - `start` has the record that the register begins with, which is 100 else;
//! - `entry` is one of the chain (its ordinal, proxy, number, what was processed, the version
//! before and its own, the moment, and `fresh` or `kept`), and `log` begins the log of the next
//! client, to which the calls go from here on. `reads` has the client's position before and after,
//! and the record that was read; `reports` these, a number, the record, and `raised`, `changed` or
//! `same`; `draws` the client's position, and the entry that was answered; `tells` a position and
//! another client, and `refused` the number of a report of what was not issued;
//! - `audit` says a fault, or how many events the history has, and forgets all, as `clear` does;
//! `register` says what the register is after them. `history_of` finds the same events.
//!
//! What watches of a log keep, and tell. Each line of a text is a call, and behind `=>` what it is
//! answered:
//!
//! - `add` has a key or `none`, a kind, a version, and when the call began and ended, which a watch of
//! all lines takes, and one by key;
//! - `settle` has a moment, up to which the one of all lines settles, and `settle_keys` the other:
//! what is told, by the fault, the number of its line, by how much that is late, and the number of
//! the line behind which it is; `finish` says what the other tells at the end;
//! - `kept` says of each line that is kept by key the number, the key and the version;
//! - `clear` begins anew.

use crate::words::{issued, plain, record, untagged};
use fdb_checks::{Player, TableLine, plays, plays_all, says};
use fdb_history::{
    AuditFault, Call, CallAnswer, ClientLog, Input, Issued, Record, Refusal, Sequence, audit,
    history_of, register_after,
};
use fdb_lines::{KeyWatch, Line, Operation, Settled, SettledKey, Times, Watch};
use std::alloc::{AllocError, Global};
use std::mem::replace;
use std::test::Fail;

/// The most logs that an audit takes.
const MOST: usize = 100_000;

/// A chain, and the logs to be audited with it, client 0's first.
#[derive(Drop)]
pub(crate) struct Audits {
    alloc: Global,
    start: Record,
    chain: Vec<Issued>,
    logs: Vec<ClientLog>,
}

impl Audits {
    /// Nothing to be audited yet.
    pub(crate) fn new(alloc: Global) -> Audits {
        Audits {
            alloc,
            start: plain(100),
            chain: Vec::new(alloc),
            logs: Vec::new(alloc),
        }
    }

    /// Says the fault, or of the history how many events it has, or what the register is after them.
    fn look(&self, what: &str, line: &mut TableLine<'_>) {
        if self.logs.len() > MOST {
            line.fails("too many logs");
            return;
        }
        let Ok(again) = history_of(self.alloc, &self.logs) else {
            line.refuse();
            return;
        };
        match audit(self.alloc, self.start, &self.chain, &self.logs) {
            Ok(history) => {
                line.holds(again.events == history.events, "other events");
                match what {
                    "register" => line.say(register_after(self.start, history.events.as_slice())),
                    _ => line.say(history.events.len()),
                }
            }
            Err(AuditFault::Memory) => line.refuse(),
            Err(fault) => line.say(fault),
        }
    }
}

impl Player for Audits {
    fn called(&mut self, call: &str, line: &mut TableLine<'_>) {
        match call {
            "start" => self.start = record(line),
            "entry" => {
                let issued = issued(line);
                line.takes(self.chain.push(issued));
            }
            "log" => {
                let calls = Sequence::new(self.alloc);
                line.takes(self.logs.push(ClientLog { calls }));
            }
            "clear" => *self = Audits::new(self.alloc),
            "audit" => {
                self.look(call, line);
                *self = Audits::new(self.alloc);
            }
            "register" => self.look(call, line),
            kind => {
                let call = self::call(kind, line);
                match self.logs.last_mut() {
                    Some(log) => line.takes(log.calls.push(call)),
                    None => line.fails("no log"),
                }
            }
        }
    }
}

/// A call of a kind, by the rest of its words.
fn call(kind: &str, line: &mut TableLine<'_>) -> Call {
    match kind {
        "reads" => Call {
            input: Input::Grv(untagged(line.alloc)),
            asked: line.number(),
            position: line.number(),
            answer: CallAnswer::Version {
                rec: record(line),
                limits: Sequence::new(line.alloc),
                locked_out: false,
            },
        },
        "reports" => reported(line),
        "draws" => drawn(line),
        "tells" => {
            let asked = line.number();
            Call {
                input: Input::Tell { to: line.who() },
                asked,
                position: asked,
                answer: CallAnswer::Told,
            }
        }
        kind => refused(kind, line),
    }
}

/// A report that is answered by just its record.
fn reported(line: &mut TableLine<'_>) -> Call {
    let (asked, position, num) = (line.number(), line.number(), line.number());
    let rec = record(line);
    let done = line.word();
    Call {
        input: Input::Report {
            num,
            locked: rec.locked,
            metadata: rec.metadata,
            min_known: rec.min_known,
        },
        asked,
        position,
        answer: CallAnswer::Acked {
            rec,
            raised: done == "raised",
            changed: done != "same",
        },
    }
}

/// A request with the members of its answer.
fn drawn(line: &mut TableLine<'_>) -> Call {
    let asked = line.number();
    let issued = issued(line);
    let input = Input::Ask {
        num: issued.num,
        processed: issued.processed,
        at: issued.at,
    };
    Call {
        input,
        asked,
        position: asked,
        answer: CallAnswer::Answered(issued),
    }
}

/// A report of what was not issued, by a client that has seen nothing.
fn refused(kind: &str, line: &mut TableLine<'_>) -> Call {
    line.holds(kind == "refused", "no call");
    Call {
        input: Input::Report {
            num: line.number(),
            locked: false,
            metadata: None,
            min_known: 0,
        },
        asked: 0,
        position: 0,
        answer: CallAnswer::Refused(Refusal::NotIssued),
    }
}

/// Client 1 raises twice, client 0 reads before, between and after, and client 2 has a report that
/// raises nothing. Then client 1 raises the minimum alone, client 0 the version, and client 1 the
/// minimum again.
pub(crate) const HISTORIES: &str = "
clear
entry 0 1 1 0 0 100 100 fresh; entry 1 1 2 0 100 200 200 fresh; entry 2 2 1 0 200 250 250 fresh
entry 3 1 3 0 250 300 300 fresh
log; reads 0 0 100 unlocked none; reads 0 2 300 unlocked none; reads 2 2 300 unlocked none
log; draws 0 0 1 1 0 0 100 100 fresh; draws 0 1 1 2 0 100 200 200 fresh
draws 0 3 1 3 0 250 300 300 fresh; reports 0 1 2 200 unlocked none raised
reports 1 2 3 300 unlocked none raised
log; reads 0 1 200 unlocked none; draws 1 2 2 1 0 200 250 250 fresh
reports 1 2 1 250 unlocked none same; register => 300 unlocked none; audit => 7
entry 0 1 1 0 0 100 100 fresh; entry 1 0 1 0 100 200 200 fresh
log; draws 0 1 0 1 0 100 200 200 fresh; reads 0 1 100 unlocked none min 50
reports 1 2 1 200 locked 0102030405060708090a min 20 raised
log; draws 0 0 1 1 0 0 100 100 fresh; reports 0 1 1 100 unlocked none min 50 changed
reports 1 3 1 100 unlocked none min 60 changed
register => 200 locked 0102030405060708090a min 60; audit => 4
";

/// A fault of each kind, as it is printed, at clients and positions that are great.
pub(crate) const FAULTS: &str = "
clear
log; log; reads 0 1 100 unlocked none; reads 0 0 100 unlocked none; audit => Order 1 1
log; reports 0 18446744073709551615 1 200 unlocked none raised
log; reports 0 18446744073709551615 1 200 unlocked none raised
log; reports 0 1 1 200 unlocked none raised; audit => Clash 18446744073709551615
log; reports 0 1 1 200 unlocked none raised; log; reads 0 18446744073709551615 100 unlocked none
audit => Gap 2
log; reports 0 1 1 200 unlocked none raised; reads 1 1 100 unlocked none; audit => Wrong 0 1
log; refused 1; tells 0 4294967295; audit => 0
entry 0 4294967295 1 0 0 100 100 fresh; log; reads 0 0 100 unlocked none; audit => Stray 4294967295 0
# client 0 raises the register to 2100, and client 1 asks once it has seen that
entry 0 0 1 0 0 100 100 fresh; entry 1 1 1 0 100 2050 2050 fresh; entry 2 0 2 0 2050 2100 2100 fresh
log; draws 0 0 0 1 0 0 100 100 fresh; draws 0 2 0 2 0 2050 2100 2100 fresh
reports 0 1 2 2100 unlocked none raised
log; reads 0 1 2100 unlocked none; draws 1 1 1 1 0 100 2050 2050 fresh; audit => NotAbove 1 1
";

#[test]
fn histories_and_faults(rt: HostRuntime) -> Result<(), Fail> {
    let alloc = rt.alloc();
    plays_all(alloc, &mut Audits::new(alloc), &[HISTORIES, FAULTS])?;
    says(alloc, &AuditFault::Memory, "out of memory")
}

/// So far behind lines may begin.
const HORIZON: u64 = 5;

/// A watch of all lines, and one by key.
#[derive(Drop)]
pub(crate) struct Watches {
    alloc: Global,
    of_all: Watch,
    by_key: KeyWatch,
}

impl Watches {
    pub(crate) fn new(alloc: Global) -> Watches {
        Watches {
            alloc,
            of_all: Watch::new(alloc, 0, HORIZON),
            by_key: KeyWatch::new(alloc, 0, HORIZON),
        }
    }

    fn add(&mut self, line: &mut TableLine<'_>) {
        let key = line.word().parse().ok();
        let kind = line.word();
        let version = line.number();
        let (began, ended) = (line.number(), line.number());
        let added = Line {
            client: key,
            call: match kind {
                "commit" => Operation::Commit(version),
                "ask" => Operation::Ask(version),
                _ => Operation::Read(version),
            },
            times: Times::new(began, Some(ended)),
        };
        line.takes(self.by_key.push(self.alloc, key, added));
        line.takes(self.of_all.push(added));
    }

    fn settle(&mut self, line: &mut TableLine<'_>) {
        let at = line.number();
        match self.of_all.settle(self.alloc, at) {
            Ok(told) => say_told(line, &told),
            Err(_) => line.refuse(),
        }
    }

    fn kept(&self, line: &mut TableLine<'_>) {
        let Ok(kept) = self.by_key.kept(self.alloc) else {
            line.refuse();
            return;
        };
        for it in &kept {
            line.say(it.number);
            match it.key {
                Some(key) => line.say(key),
                None => line.say("none"),
            }
            line.say(it.line.call.version());
        }
    }
}

/// Says what is told of each key.
fn say_by_key(line: &mut TableLine<'_>, told: Result<Vec<SettledKey>, AllocError>) {
    match told {
        Ok(told) => {
            for entry in &told {
                say_told(line, &entry.settled);
            }
        }
        Err(_) => line.refuse(),
    }
}

fn say_told(line: &mut TableLine<'_>, told: &Settled) {
    for finding in &told.found {
        let number = told.number(finding.found.place);
        line.say(format_args!("{:?} {number}", finding.found.fault));
        if let Some(late) = finding.late {
            line.say(format_args!("{} {}", late.by, told.number(late.place)));
        }
    }
}

impl Player for Watches {
    fn called(&mut self, call: &str, line: &mut TableLine<'_>) {
        match call {
            "clear" => *self = Watches::new(self.alloc),
            "add" => self.add(line),
            "settle" => self.settle(line),
            "settle_keys" => {
                let at = line.number();
                say_by_key(line, self.by_key.settle(self.alloc, at));
            }
            "kept" => self.kept(line),
            "finish" => {
                let ended = replace(&mut self.by_key, KeyWatch::new(self.alloc, 0, HORIZON));
                say_by_key(line, ended.finish(self.alloc));
            }
            _ => line.fails("no call"),
        }
    }
}

/// Each key is told by itself: a read is late from the end of the commit that was kept of its key, 31 - 15
/// and 33 - 13. Of a key that is quiet the newest line that shows a version is kept, and the newest that
/// draws one; the line that came last may yet matter. Lines without a key are of one register. Of all lines
/// by the commit that is kept for an older one a read is late at least so much, 25 - 4 and not 25 - 2; what
/// comes late is told too, unless it began before the horizon.
const WATCHED: &str = "
clear
add 0 commit 190 10 11; add 1 commit 300 12 13; add 0 commit 200 14 15; add 0 ask 210 16 17
settle_keys 31 =>; add 0 read 195 31 32; settle_keys 33 => Order 4 16 2; add 1 read 250 33 34
settle_keys 99 => Order 5 20 1; add 1 read 301 99 100
kept => 2 0 200 3 0 210 1 1 300 6 1 301; finish =>
clear; add none commit 9 1 2; settle_keys 4; add 0 read 3 4 5; settle_keys 6; add none read 3 6 7
kept => 0 none 9 2 none 3 1 0 3; finish => Order 2 4 0
clear; add 0 commit 5 1 2; add 0 commit 9 3 4; settle 20 =>; add 1 read 3 25 26; settle 30 => Order 2 21 1
clear; add 0 commit 200 10 12; add 1 read 100 15 16; settle 20 => Order 1 3 0; add 1 read 150 14 21
settle 30 =>
clear; add 0 commit 200 10 14; add 1 read 100 15 16; settle 20 => Order 1 1 0; add 1 read 150 19 21
settle 30 => Order 2 5 0
";

#[test]
fn what_watches_keep_and_tell(rt: HostRuntime) -> Result<(), Fail> {
    Ok(plays(rt.alloc(), &mut Watches::new(rt.alloc()), WATCHED)?)
}
