//! Calls with ample memory, none of which says that memory ran out. A contract may refuse for
//! memory anywhere, so that nothing but a test shows that a call succeeds.
//!
//! Each line of a table has the calls that may be refused memory, lines in which they are made, as
//! in the tests of their crates, and the numbers at which they are to succeed: `@0` stands for the
//! number. What follows a star is done at each place below it, where `@0` stands for the place. The
//! calls that are made for C stand in `tests/ample_bindings.py`, and those of logs beside it.

use crate::audits::{Audits, Watches};
use crate::chain::{Chain, Lists};
use crate::live::Opener;
use crate::queue::Queue;
use fdb_checks::plays_cases;
use std::test::Fail;

/// Where `fdb_history` allocates beside the audit: lists, their copies, and replies that are kept.
const LISTS: &str = "
Sequence::push, Sequence::clone, GrvOpts::clone | copies @0 1 => @0 | 0 few many
GrvOpts::clone, TagLimit::clone | copies 1 @0 => 1 | 0 few 15 16 17 many
Replies::of_each, Replies::keep_among | of_each @0;*keep 0 @0 1 0 0 100 0 fresh;*kept @0 1 => 0 \
| 0 few 63 65 many
Replies::keep_among, Replies::keep | of_each 1;*keep @1 0 @1 @0 0 100 0 fresh,kept 0 @1 => @1 | 65538
Replies::keep | of_each 1;*keep @1 0 @1 0 0 100 0 fresh;*kept 0 @1 => @1 | 65538
";

/// The audit, which finds an event for each read and each report: logs, reads, raises by one client
/// and by several, raises of the minimum, repeats, tells and refusals.
const AUDITS: &str = "
audit, history_of | clear;*log,reads 0 0 100 unlocked none;audit => @0 | 0 few 65 many
audit, history_of | clear;log;*reads 0 0 100 unlocked none;audit => @0 | 0 few many
audit, history_of | clear;log;*entry @0 0 @1 0 @100 @101 0 fresh,draws @0 @0 0 @1 0 @100 @101 0 fresh,\
reports @0 @1 @1 @101 unlocked none raised;audit => @0 | 0 few many
audit, history_of | clear;start 1000000 unlocked none;entry 0 0 1 0 99 1000000 0 fresh;log;\
draws 0 0 0 1 0 99 1000000 0 fresh;*reports @0 @1 1 1000000 unlocked none min @1 changed;\
audit => @0 | 0 few many
audit, history_of | clear;*log,entry @0 @0 1 0 @100 @101 0 fresh,draws 0 @0 @0 1 0 @100 @101 0 fresh,\
reports 0 @1 1 @101 unlocked none raised;audit => @0 | 0 few 65 many
audit, history_of | clear;log;entry 0 0 1 0 99 100 0 fresh;draws 0 0 0 1 0 99 100 0 fresh;\
*draws 0 0 0 1 0 99 100 0 kept;audit => 0 | 0 few many
audit, history_of | clear;log;*tells 0 1;audit => 0 | 0 few many
audit, history_of | clear;log;*refused @1;audit => 0 | 0 few many
audit, history_of | clear;start @0 unlocked none min @0;log;reads 0 0 @0 unlocked none min @0;\
audit => 1 | 0 few many 9223372036854775807
audit, history_of | clear;start @0 unlocked none;log;reads 0 0 @0 unlocked none;audit => 1 \
| 0 few many 9223372036854775807
";

/// `fdb_chain`: a chain of all answers, and requests for versions behind the sequencer's lock.
const CHAINS: &str = "
ChainCore::new, ChainCore::ask | new 99 100 64 => ok;*ask @0 1 0 0 => @0 @99 @100 0 fresh;stand => @0 \
| 1 2 5 6 63 64
ChainCore::new, ChainCore::ask | new 0 @0 64 => ok;ask 63 1 0 0 => 0 0 @0 0 fresh \
| few many 9223372036854775807
ChainCore::ask | new 99 100 1 => ok;*ask 0 @1 @0 0 => @0 @99 @100 0 fresh;stand => @0 | 65538
Sequencer::ask | behind @0 => ok;ask 0 1 0 0 => 0 0 100 0 fresh;stand => 1 | 1 2 5 6 63 64
Sequencer::ask | behind 1 => ok;ask 0 1 0 0 => 0 0 100 0 fresh;*ask 0 @2 @1 0 => @1 @100 @101 0 fresh;\
stand => @1 | 65538
Sequencer::ask | behind 1 => ok;ask 0 1 0 0 => 0 0 100 0 fresh;\
ask 0 2 18446744073709551615 @0 => 1 100 @100 @0 fresh \
| few many 5000000
";

/// `fdb_queue`, at each priority: throttles that a queue is made with or is given later, and limits.
const QUEUES: &str = "
GrvQueue::with_throttles, Throttle::clone | *with PRIORITY nr @0 @0 9;made 1 1 1 => ok;\
*tag nr @0,limits PRIORITY 8 => 1 @0 9 | 0 few 999 1000 1001 many
GrvQueue::with_throttles | *with PRIORITY t @1 9;made 1 1 1 => ok;tag t;limits PRIORITY 8 => 1 @0 9 \
| few 999 1000 1001 many
GrvQueue::with_throttles | with PRIORITY t 5 9;made @0 @0 @0 => ok;tag t;limits PRIORITY 8 => 1 5 9 \
| few many 99999 100000
GrvQueue::with_throttles, GrvQueue::set_throttle, Throttle::clone | with PRIORITY of @0 5 9;\
made 1 1 1 => ok;tag of @0;limits PRIORITY 8 => 1 5 9;with PRIORITY of @0 6 8;set => ok;\
tag of @0;limits PRIORITY 7 => 1 6 8 | 0 1 2 5 6 15 16
GrvQueue::with_throttles, GrvQueue::set_throttle | with PRIORITY t @0 9;made 1 1 1 => ok;tag t;\
limits PRIORITY 8 => 1 @0 9;with PRIORITY t @0 8;set => ok;tag t;limits PRIORITY 7 => 1 @0 8 \
| 0 few many 18446744073709551615
GrvQueue::throttles | with PRIORITY t 5 9;made 1 1 1 => ok;*tag t;limits PRIORITY 8 => @0 5 9 \
| few many
GrvQueue::throttles | with PRIORITY t 5 @1;made 1 1 1 => ok;tag t;limits PRIORITY @0 => 1 5 @1 \
| 0 few many 18446744073709551614
";

/// `fdb_live`: records and masters that are opened, and masters that are asked with the tokens of all.
const RECORDS: &str = "
LiveRecord::open, Opened::parts | open 100 unlocked none for @0 => @0 | 1 2 5 6 63 64
LiveRecord::open, Opened::parts | open @0 unlocked none min @0 for 64 => 64 \
| 0 few many 9223372036854775807
LiveRecord::open, Opened::parts | open @1 unlocked none min @0 for 64 => 64 \
| few many 9223372036854775806
LiveRecord::open, Opened::parts | open @0 unlocked none for 64 => 64 \
| 0 few many 9223372036854775807
LiveRecord::open, Opened::parts | open @0 locked 0102030405060708090a for 64 => 64 \
| 0 few many 9223372036854775807
LiveRecord::open, Opened::master, Master::ask | master 100 @0 1 => fresh | 1 2 5 6 63 64
LiveRecord::open, Opened::master, Master::ask | master @0 1 1 => fresh \
| few many 9223372036854775807
Master::ask | master 100 1 @0 => fresh | 0 few many
Master::ask | master 100 64 @0 => fresh | 0 few
";

/// `fdb_lines`: a watch that settles all lines, of which the reads are stale.
const WATCHES: &str = "
Watch::settle | clear;*add none commit @1 @0 @0;add none read 0 99999 99999;settle @0 => \
| 1 2 5 64 65537
Watch::settle | clear;add none commit 5 0 1;add none read 4 @2 @2;settle @3 => Order 1 @1 0 \
| 0 few many 18446744073709551610
";

#[test]
fn lists_have_memory(rt: HostRuntime) -> Result<(), Fail> {
    plays_cases(rt.alloc(), &mut Lists::new(rt.alloc()), LISTS)
}

#[test]
fn audits_have_memory(rt: HostRuntime) -> Result<(), Fail> {
    plays_cases(rt.alloc(), &mut Audits::new(rt.alloc()), AUDITS)
}

#[test]
fn chains_have_memory(rt: HostRuntime) -> Result<(), Fail> {
    plays_cases(rt.alloc(), &mut Chain::new(&rt), CHAINS)
}

#[test]
fn queues_have_memory_at_each_priority(rt: HostRuntime) -> Result<(), Fail> {
    let (alloc, mut queue) = (rt.alloc(), Queue::new(rt.alloc())?);
    for priority in ["system", "default", "batch"] {
        plays_cases(
            alloc,
            &mut queue,
            &QUEUES.replace(alloc, "PRIORITY", priority)?,
        )?;
    }
    Ok(())
}

#[test]
fn records_have_memory(rt: HostRuntime) -> Result<(), Fail> {
    plays_cases(rt.alloc(), &mut Opener::new(&rt), RECORDS)
}

#[test]
fn watches_have_memory(rt: HostRuntime) -> Result<(), Fail> {
    plays_cases(rt.alloc(), &mut Watches::new(rt.alloc()), WATCHES)
}
