//! Calls that are refused memory, and that no program makes which is itself refused each allocation
//! in turn: each of these tests passes also where any one allocation is refused. `tests/run` refuses
//! each, so they ask for little memory of their own.

use crate::audits::{Audits, FAULTS, HISTORIES};
use crate::chain::{Chain, LISTS, Lists};
use crate::live::{Opener, played};
use crate::queue::Queue;
use fdb_checks::bears;
use std::test::Fail;

#[test]
fn an_audit_bears_it(rt: HostRuntime) -> Result<(), Fail> {
    let (alloc, mut audits) = (rt.alloc(), Audits::new(rt.alloc()));
    bears(alloc, &mut audits, HISTORIES)?;
    bears(alloc, &mut audits, FAULTS)
}

#[test]
fn lists_bear_it(rt: HostRuntime) -> Result<(), Fail> {
    bears(rt.alloc(), &mut Lists::new(rt.alloc()), LISTS)
}

/// Requests behind a lock. One that is refused memory is made once more, and has drawn no version:
/// each is one above the one before, since no time passes.
const CHAIN: &str = "
behind 2 => ok; patient
ask 0 1 0 0 => 0 0 100 0 fresh; ask 0 2 1 0 => 1 100 101 0 fresh; ask 1 1 0 0 => 2 101 102 0 fresh
ask 0 2 1 0 => 1 100 101 0 kept; ask 0 3 2 0 => 3 102 103 0 fresh; ask 0 4 3 0 => 4 103 104 0 fresh
ask 0 5 4 0 => 5 104 105 0 fresh; ask 0 6 5 0 => 6 105 106 0 fresh; ask 0 7 6 0 => 7 106 107 0 fresh
ask 0 8 7 0 => 8 107 108 0 fresh; ask 0 9 8 0 => 9 108 109 0 fresh; ask 1 2 0 0 => 10 109 110 0 fresh
ask 1 1 0 0 => 2 101 102 0 kept; ask 0 8 8 0 => the answer is not kept any more; stand => 11
";

#[test]
fn a_sequencer_bears_it(rt: HostRuntime) -> Result<(), Fail> {
    bears(rt.alloc(), &mut Chain::new(&rt), CHAIN)
}

/// Requests of each priority, and throttles, so that each list grows more than once.
/// (tests/c/memory.c: more requests, windows and new rates)
const QUEUE: &str = "
made 3 2 6 => ok
offer batch 1 0 => in; offer batch 1 1 => in; offer default 1 2 => in; offer default 1 3 => in
offer system 1 4 => in; offer system 1 5 => in; offer system 1 6 => out 0
with batch a 1 9; with batch b 2 9; with batch c 3 9; with batch d 4 9; with batch e 5 9
with batch f 6 9; with batch g 7 9; with batch a 8 9; with system b 9 9
set => ok ok ok ok ok ok ok ok ok
tag a; tag b; tag c; tag d; tag e; tag f; tag g; tag a; tag h; limits batch 8 => 8 8 9
with batch a 4 9; with batch b 6 9; made 1 1 1 => ok; tag b; limits batch 8 => 1 6 9
";

#[test]
fn a_queue_bears_it(rt: HostRuntime) -> Result<(), Fail> {
    bears(rt.alloc(), &mut Queue::new(rt.alloc())?, QUEUE)
}

/// Calls of two reporters on the record.
const RECORD: &str = "
report 0 200 unlocked none => raised at 1; split 0 => nobody at 1
report 1 300 unlocked none => raised at 2; learns 0 3 => 0 at 1; learns 3 1 => nobody at 2
read 2 => 300 unlocked none at 2; meets 0 1 => 0 at 1
";

#[test]
fn a_live_record_bears_it(rt: HostRuntime) -> Result<(), Fail> {
    if let Err(error) = played(&rt, rt.alloc(), 2, RECORD) {
        error.was_refusal()?;
        played(&rt, rt.alloc(), 2, RECORD)?;
    }
    Ok(())
}

const OPENED: &str = "master 100 2 3 => fresh; open 100 unlocked none for 2 => 2";

#[test]
fn opening_bears_it(rt: HostRuntime) -> Result<(), Fail> {
    bears(rt.alloc(), &mut Opener::new(&rt), OPENED)
}

/// Passes also where every allocation is refused from one on: then the record, its tokens or a text
/// are not to be had, or all calls answer as ever.
#[test]
fn without_memory(rt: HostRuntime) -> Result<(), Fail> {
    match played(&rt, rt.alloc(), 2, RECORD) {
        Err(error) => error.was_refusal(),
        Ok(()) => Ok(()),
    }
}
