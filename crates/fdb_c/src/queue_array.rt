//! The queue of a GRV proxy, all operations in and all outcomes out.

ghost use Rattle.std.specs.Prelude.{◌≡◌, ◌+◌, ◌<◌, ◌≤◌, ◌⊎◌, ◌++◌, ◌↔◌, map, length, drop, Some};
ghost use Rattle.std.specs.Prelude.{IfSome, Ok, OnOk};
ghost use Rattle.std.specs.Bool.{OnTrue};
ghost use Rattle.fdb_queue.specs.Config.{IsConfig};
ghost use Rattle.fdb_queue.specs.Queue.{new_queue};
ghost use Rattle.fdb_c.specs.Queue.{AreWritten, after, after_op, config_of, op_of, outcome};
ghost use Rattle.fdb_c.specs.Queue.{request_of, shown, started_at, started_by, started_each};
ghost use Rattle.fdb_c.specs.Queue.{status_at, told, told_each};

use crate::queue::{
    FdbOp, FdbOutcome, FdbQueueConfig, FdbRequest, Op, offer_shown, op_of, pop_shown, request_of,
    shown,
};
use crate::status::{FDB_BAD_CONFIG, FDB_BAD_OP, FDB_MEMORY, FDB_OK, FDB_ROOM};
use fdb_queue::{GrvQueue, QueueConfig, QueueError, Req};
use std::alloc::{AllocError, Global};

/// Adds requests to a list.
fn add_all(list: &mut Vec<FdbRequest>, requests: Vec<Req<u64>>) -> Result<(), AllocError>
    ensures { OnOk result (list.new.items ≡ list.old.items ++ map request_of requests.items) }
{
    for request in requests {
        list.push(request_of(&request))?;
    }
    Ok(())
}

/// Holds a window: its refusal's number, and how many requests it started. There is none of it
/// where memory is refused.
fn run_window(
    queue: &mut GrvQueue<u64>,
    elapsed: u64,
    started: &mut Vec<FdbRequest>,
) -> Option<(u8, u64)>
    ensures status { IfSome result (λ given. given.0 ≡ status_at queue.old (Op.Window elapsed)) }
    ensures count { IfSome result
        (λ given. given.1 ≡ length (started_at queue.old (Op.Window elapsed))) }
    ensures after { IfSome result (λ _. queue.new ≡ after_op queue.old (Op.Window elapsed)) }
    ensures started { IfSome result (λ _. started.new.items
        ≡ started.old.items ++ started_at queue.old (Op.Window elapsed)) }
{
    match queue.window(elapsed) {
        Ok(requests) => {
            let count = requests.len() as u64;
            match add_all(started, requests) {
                Ok(()) => Some((FDB_OK, count)),
                Err(_) => None,
            }
        }
        Err(QueueError::BadConfig) => Some((FDB_BAD_CONFIG, 0)),
        Err(_) => None,
    }
}

/// Carries out an operation, unless memory is refused.
fn step(queue: &mut GrvQueue<u64>, op: Op, started: &mut Vec<FdbRequest>) -> Option<FdbOutcome>
    ensures outcome { IfSome result (λ given. given ≡ outcome queue.old op) }
    ensures after { IfSome result (λ _. queue.new ≡ after_op queue.old op) }
    ensures started { IfSome result
        (λ _. started.new.items ≡ started.old.items ++ started_at queue.old op) }
{
    match op {
        Op::Offer(request) => offer_shown(queue, request),
        Op::Window(elapsed) => {
            let (status, count) = run_window(queue, elapsed, started)?;
            Some(shown(queue, status, None, count))
        }
        Op::Pop => Some(pop_shown(queue)),
    }
}

/// Does what C asks for, unless memory is refused.
fn tell(queue: &mut GrvQueue<u64>, op: FdbOp, started: &mut Vec<FdbRequest>) -> Option<FdbOutcome>
    ensures outcome { IfSome result (λ given. given ≡ told queue.old (op_of op)) }
    ensures after { IfSome result (λ _. queue.new ≡ after queue.old (op_of op)) }
    ensures started { IfSome result
        (λ _. started.new.items ≡ started.old.items ++ started_by queue.old (op_of op)) }
{
    match op_of(op) {
        Some(op) => step(queue, op, started),
        None => Some(shown(queue, FDB_BAD_OP, None, 0)),
    }
}

/// Does each operation in its turn, unless memory is refused.
fn tell_each(
    queue: &mut GrvQueue<u64>,
    ops: &[FdbOp],
    outcomes: &mut [FdbOutcome],
    started: &mut Vec<FdbRequest>,
) -> bool
    requires { length ops.now ≤ length outcomes.old }
    ensures outcomes { OnTrue result
        (outcomes.new ≡ told_each queue.old ops.now ++ drop (length ops.now) outcomes.old) }
    ensures started { OnTrue result
        (started.new.items ≡ started.old.items ++ started_each queue.old ops.now) }
{
    for (place, op) in ops.iter().enumerate() {
        let Some(outcome) = tell(queue, *op, started) else {
            return false;
        };
        outcomes[place] = outcome;
    }
    true
}

/// Does operations on a new queue, each in its turn. `size` is then how many requests were started;
/// where there is no room for them, nothing is written of them.
#[unsafe(no_mangle)]
pub extern "C" fn fdb_queue_outcomes(
    alloc: Global,
    config: &FdbQueueConfig,
    ops: &[FdbOp],
    outcomes: &mut [FdbOutcome],
    started: &mut [FdbRequest],
    size: &mut u64,
) -> u8
    ensures ok { (result ≡ FDB_OK) → AreWritten (new_queue (config_of config.now)) ops.now
        outcomes.old outcomes.new started.old started.new size.new }
    ensures bad_config { (length ops.now ≤ length outcomes.old)
        → ((result ≡ FDB_BAD_CONFIG) ↔ ¬ IsConfig (config_of config.now)) }
    ensures no_room { (length outcomes.old < length ops.now)
        → (result ≡ FDB_ROOM) × (outcomes.new ≡ outcomes.old) × (size.new ≡ size.old) }
    ensures room { (length ops.now ≤ length outcomes.old) → (result ≡ FDB_ROOM)
        → (size.new ≡ length (started_each (new_queue (config_of config.now)) ops.now))
        × (length started.old < size.new) }
    ensures untouched { (result ≡ FDB_OK → ⊥) → started.new ≡ started.old }
    ensures statuses { (result ≡ FDB_OK) ⊎ (result ≡ FDB_ROOM) ⊎ (result ≡ FDB_BAD_CONFIG)
        ⊎ (result ≡ FDB_MEMORY) }
{
    if outcomes.len() < ops.len() {
        return FDB_ROOM;
    }
    let config = QueueConfig {
        normal: config.normal,
        batch: config.batch,
        room: config.room,
    };
    let Ok(mut queue) = GrvQueue::new(alloc, config) else {
        return FDB_BAD_CONFIG;
    };
    let mut list = Vec::new(alloc);
    if !tell_each(&mut queue, ops, outcomes, &mut list) {
        return FDB_MEMORY;
    }
    *size = list.len() as u64;
    if started.len() < list.len() {
        return FDB_ROOM;
    }
    started[..list.len()].copy_from_slice(list.as_slice());
    FDB_OK
}
