//! Calls with ample memory, none of which says that memory ran out. A contract may refuse for
//! memory anywhere, so that nothing but a test shows that a call succeeds.
//!
//! Each line of a table has the calls that may be refused memory, what is done with so much of something
//! or at so great a number, and the numbers at which that is to succeed and to be right.

use crate::stand::{Told, play};
use crate::workload::play_workloads;
use fdb_checks::cases;
use std::alloc::Global;
use std::sync::Wait;
use std::test::Fail;
use std::thread::Threads;

/// `fdb_proxy`: desks, batches of what was left there, and proxies that run until all have heard.
const DESKS: &str = "
Desk::submit, serve_batch | leave @0 0 0 default 1 0 0 => in; \
serve => @0 100 unlocked none at 0 | few 10000 10001 many
Desk::submit, GrvProxy::run | leave @0 0 0 system 1 0 0 => in; \
run 100000 100000 100000 => @0 100 unlocked none at 0 | few 9999 10000 10001 20001 many 100000
Desk::submit, GrvProxy::run | leave @0 0 0 default 1 0 0 min => in; \
run 100000 100000 100000 => @0 100 unlocked none at 0 | few 9999 10000 10001 20001 many 100000
Desk::submit, GrvProxy::run | leave @0 0 0 batch 1 0 0 aware => in; \
run 100000 100000 100000 => @0 100 unlocked none at 0 | few 9999 10000 10001 20001 many 100000
serve_batch | leave 1 0 0 default 1 0 @0 => in; \
serve => 1 100 unlocked none at 0 with @0 t 5 5000 | few many
GrvProxy::run | leave 1 0 0 default 1 0 @0 => in; \
run 1 1 1 => 1 100 unlocked none at 0 with @0 t 5 5000 | few many
GrvProxy::run | leave 1 0 0 default @0 0 0 => in; \
run 1 1 1 => 1 100 unlocked none at 0 | few many 99999 100000
GrvProxy::run | leave 1 0 0 default 1 0 0; leave @0 0 1 default 1 0 0 => in; \
run 1 1 1 => 1 100 unlocked none at 0 / @0 the queue is full | few 10000 10001 20001 many
GrvProxy::run | leave 1 0 0 default 1 0 0; leave @0 0 1 batch 2 0 0 => in; close; \
run 1 1 100000 => 1 100 unlocked none at 0 / @0 closed | few 10000 10001 20001 many
";

/// `fdb_client`: calls of a client, each of which is added to its log. What stands behind a star is done
/// at each place below the number, where `@1` stands for the place and 1.
const CALLS: &str = "
Client::ask | *ask 0 @1 0; log 0 => @0 calls at 0 | 65538
Client::reask | ask 0 0 0; *reask 0 1 0 0 => 100 after 0 kept; log 0 | 65538
Client::reask | *ask 0 0 0; *reask 0 @1 0 0; *reask 0 1 0 0 => 100 after 0 kept | few
Client::report | ask 1 0 0; report 1 1 0; *ask 0 @1 0, report 0 @1 @1 locked; \
log 0 => 131076 calls at @0 | 65538
Client::report | ask 0 0 0; *report 0 1 0 => not raised not changed at 0; log 0 | 65538
Client::tell, Client::learn | ask 0 0 0; ask 0 0 0; report 0 2 0; *tell 0 1, learn 1 0; \
log 1 => @0 calls at 1 | 65538
";

/// `fdb_client`: clusters, whose clients each make calls, of which a history is made: how many clients,
/// GRV proxies and throttles there are, the first version, how often each client reads through each GRV
/// proxy, and how many tags and transactions a read has.
const CLUSTERS: &str = "
run_workload, OpenedCluster::parts, clients_of, Cluster::finish, SettledRun::chain \
| visits @0 2 2 100 1 1 1 => explained | 1 2 5 6 63 64
run_workload, Cluster::new, serve_while, SettledRun::history \
| visits 2 @0 2 100 1 1 1 => explained;visits 1 @0 3 100 70 2 1 => explained \
| 1 2 3 4 5 6 7 8 9 10 11 12 13 14 15 16
run_workload, serve_while | visits 1 1 @0 100 1 1 1 => explained | few 999 1000 1001 many
run_workload, ClusterConfig::open | visits 1 1 2 @0 1 1 1 => explained \
| few many 9223372036854775807
Client::ask, SettledRun::chain, SettledRun::history | visits 1 1 2 100 1 1 1 asks @0 => explained | 65538
Client::read_version, SettledRun::history | visits 1 1 2 100 @0 1 1 => explained | 65538
Client::read_version, SettledRun::history | visits 1 1 2 100 1 @0 1 => explained | few many
Client::read_version, SettledRun::history | visits 1 1 2 100 1 1 @0 => explained \
| few many 99999 100000
";

/// Plays the text of each case of a table.
fn all_succeed<R: Threads + Wait + Sync>(rt: &R, alloc: Global, table: &str) -> Result<(), Fail> {
    for case in cases(alloc, table)? {
        let told = Told {
            text: case.of,
            number: case.number,
            once: true,
        };
        match play(rt, alloc, told) {
            Ok(_) => {}
            Err(error) => case.ends(Err(error))?,
        }
    }
    Ok(())
}

#[test]
fn desks_have_memory(rt: HostRuntime) -> Result<(), Fail> {
    all_succeed(&rt, rt.alloc(), DESKS)
}

#[test]
fn clients_have_memory(rt: HostRuntime) -> Result<(), Fail> {
    all_succeed(&rt, rt.alloc(), CALLS)
}

#[test]
fn clusters_have_memory(rt: HostRuntime) -> Result<(), Fail> {
    for case in cases(rt.alloc(), CLUSTERS)? {
        case.ends(play_workloads(&rt, rt.alloc(), case.of, case.number))?;
    }
    Ok(())
}
