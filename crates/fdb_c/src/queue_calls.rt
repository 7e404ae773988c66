//! The queue by its handle, and a window whose requests go to a slice.

ghost use Rattle.std.specs.Prelude.{◌≡◌, ◌+◌, ◌<◌, ◌≤◌, ◌⊎◌, ◌↔◌, ◌++◌, length, drop, None, Some};
ghost use Rattle.std.specs.Prelude.{IsNone, IsSome, IfSome, Err, OnErr, IfOk, IfErr, map, min};
ghost use Rattle.fdb_queue.specs.Config.{IsConfig};
ghost use Rattle.fdb_queue.specs.Queue.{new_queue};
ghost use Rattle.fdb_queue.specs.Waiting.{row};
ghost use Rattle.fdb_queue.specs.Window.{window};
ghost use Rattle.fdb_queue.specs.declared.config.TheConstants.{MAX_STARTED};
ghost use Rattle.fdb_c.specs.Queue.{HasHeld, IsDone, after, config_of, offered, request_of};
ghost use Rattle.fdb_c.specs.Queue.{started_at, started_by, status_told, told};

use crate::handle::{FdbQueue, Held, boxed};
use crate::queue::{
    FdbOutcome, FdbQueueConfig, FdbRequest, Op, offer_shown, pop_shown, priority_of, request_of,
    shown,
};
use crate::status::{FDB_BAD_CONFIG, FDB_BAD_OP, FDB_MEMORY, FDB_OK, FDB_ROOM};
use fdb_queue::{GrvQueue, MAX_STARTED, QueueConfig, QueueError, Req, laws};
use std::alloc::Global;

/// Opens a queue in which nothing waits. Refused, it leaves the handle none.
#[unsafe(no_mangle)]
pub extern "C" fn fdb_queue_new(alloc: Global, config: &FdbQueueConfig, queue: &mut FdbQueue) -> u8
    requires { IsNone queue.old.queue }
    ensures ok { (result ≡ FDB_OK) → queue.new.queue ≡ Some (new_queue (config_of config.now)) }
    ensures refused { (result ≡ FDB_OK → ⊥) → queue.new.queue ≡ None }
    ensures bad_config { (result ≡ FDB_BAD_CONFIG) ↔ ¬ IsConfig (config_of config.now) }
    ensures statuses { (result ≡ FDB_OK) ⊎ (result ≡ FDB_BAD_CONFIG) ⊎ (result ≡ FDB_MEMORY) }
{
    let config = QueueConfig {
        normal: config.normal,
        batch: config.batch,
        room: config.room,
    };
    let Ok(made) = GrvQueue::new(alloc, config) else {
        return FDB_BAD_CONFIG;
    };
    match boxed(alloc, made) {
        Ok(made) => {
            queue.swap(Held::new(made)).gone();
            FDB_OK
        }
        Err(_) => FDB_MEMORY,
    }
}

/// Offers what C writes, unless memory is refused.
fn offer_told(queue: &mut GrvQueue<u64>, request: FdbRequest) -> Option<FdbOutcome>
    ensures outcome { IfSome result (λ given. given ≡ told queue.old (offered request)) }
    ensures after { IfSome result (λ _. queue.new ≡ after queue.old (offered request)) }
    ensures not_memory { IfSome result (λ given. given.status ≡ FDB_MEMORY → ⊥) }
    ensures memory { IsNone result → queue.new ≡ queue.old }
    ensures due { IsNone result → status_told queue.old (offered request) ≡ FDB_OK }
{
    match priority_of(request.priority) {
        Some(priority) => offer_shown(
            queue,
            Req {
                priority,
                count: request.count,
                payload: request.payload,
            },
        ),
        None => Some(shown(queue, FDB_BAD_OP, None, 0)),
    }
}

/// Offers a request. Where memory is refused, nothing has changed.
#[unsafe(no_mangle)]
pub extern "C" fn fdb_queue_offer(
    alloc: Global,
    queue: &mut FdbQueue,
    request: &FdbRequest,
    outcome: &mut FdbOutcome,
) -> u8
    requires { IsSome queue.old.queue }
    ensures outcome { (result ≡ FDB_MEMORY → ⊥) → IfSome queue.old.queue
        (λ before. outcome.new ≡ told before (offered request.now)) }
    ensures status { (result ≡ FDB_MEMORY → ⊥) → result ≡ outcome.new.status }
    ensures after { (result ≡ FDB_MEMORY → ⊥) → IfSome queue.old.queue
        (λ before. queue.new.queue ≡ Some (after before (offered request.now))) }
    ensures memory { (result ≡ FDB_MEMORY)
        → (queue.new.queue ≡ queue.old.queue) × (outcome.new ≡ outcome.old) }
    ensures due { (result ≡ FDB_MEMORY) → IfSome queue.old.queue
        (λ before. status_told before (offered request.now) ≡ FDB_OK) }
    ensures held { IsSome queue.new.queue }
{
    let mut core = queue.swap(Held::none()).into_box(alloc).unwrap();
    let carried = offer_told(&mut core, *request);
    queue.swap(Held::new(core)).gone();
    match carried {
        Some(given) => {
            *outcome = given;
            given.status
        }
        None => FDB_MEMORY,
    }
}

/// Takes the first request out, whatever the rates say of it. It takes no memory.
#[unsafe(no_mangle)]
pub extern "C" fn fdb_queue_pop(alloc: Global, queue: &mut FdbQueue, outcome: &mut FdbOutcome)
    requires { IsSome queue.old.queue }
    ensures outcome { IfSome queue.old.queue (λ before. outcome.new ≡ told before (Some Op.Pop)) }
    ensures after { IfSome queue.old.queue
        (λ before. queue.new.queue ≡ Some (after before (Some Op.Pop))) }
{
    let mut core = queue.swap(Held::none()).into_box(alloc).unwrap();
    *outcome = pop_shown(&mut core);
    queue.swap(Held::new(core)).gone();
}

/// Holds a window, if there is room for what it may start.
fn window_told(
    queue: &mut GrvQueue<u64>,
    elapsed: u64,
    started: &mut [FdbRequest],
) -> Result<FdbOutcome, u8>
    ensures held { IfOk result
        (λ given. HasHeld elapsed queue.old queue.new given started.old started.new) }
    ensures done { IfOk result (λ given. IsDone given.status) }
    ensures not_done { IfErr result (λ status. ¬ IsDone status) }
    ensures unchanged { OnErr result ((queue.new ≡ queue.old) × (started.new ≡ started.old)) }
    ensures room { (result ≡ Err FDB_ROOM)
        ↔ (length started.old < min (length (row queue.old.waiting)) MAX_STARTED) }
    ensures due { (result ≡ Err FDB_MEMORY)
        → 0 < length (started_by queue.old (Some (Op.Window elapsed))) }
{
    if started.len() < room_for(queue) {
        return Err(FDB_ROOM);
    }
    match window_shown(queue, elapsed, started) {
        Some(given) => Ok(given),
        None => Err(FDB_MEMORY),
    }
}

/// Holds a window, and writes the requests that it starts to the start of `started`. This needs
/// room for all that wait, or for 10,000 requests where more do: else nothing is done. Where memory
/// is refused, nothing has changed.
#[unsafe(no_mangle)]
pub extern "C" fn fdb_queue_window(
    alloc: Global,
    queue: &mut FdbQueue,
    elapsed: u64,
    outcome: &mut FdbOutcome,
    started: &mut [FdbRequest],
) -> u8
    requires { IsSome queue.old.queue }
    ensures done { IsDone result → IfSome queue.old.queue (λ before. IfSome queue.new.queue
        (λ after. HasHeld elapsed before after outcome.new started.old started.new)) }
    ensures status { IsDone result → result ≡ outcome.new.status }
    ensures not_done { ¬ IsDone result → (queue.new.queue ≡ queue.old.queue)
        × (outcome.new ≡ outcome.old) × (started.new ≡ started.old) }
    ensures room { IfSome queue.old.queue (λ before. (result ≡ FDB_ROOM)
        ↔ (length started.old < min (length (row before.waiting)) MAX_STARTED)) }
    ensures due { (result ≡ FDB_MEMORY) → IfSome queue.old.queue
        (λ before. 0 < length (started_by before (Some (Op.Window elapsed)))) }
    ensures held { IsSome queue.new.queue }
{
    let mut core = queue.swap(Held::none()).into_box(alloc).unwrap();
    let carried = window_told(&mut core, elapsed, started);
    queue.swap(Held::new(core)).gone();
    match carried {
        Ok(given) => {
            *outcome = given;
            given.status
        }
        Err(status) => status,
    }
}

/// Frees a queue, if the handle has one. The handle is then none.
#[unsafe(no_mangle)]
pub extern "C" fn fdb_queue_free(alloc: Global, queue: &mut FdbQueue)
    ensures { queue.new.queue ≡ None }
{
    let _core = queue.swap(Held::none()).into_box(alloc);
}

/// How much room a window's requests need at most: for all that wait, or for as many as may start.
#[tactic(auto, using(crate::proofs::Windows::no_longer))]
pub(crate) fn room_for(queue: &GrvQueue<u64>) -> usize
    ensures enough { length (window queue.now) ≤ result }
    ensures room { result ≡ min (length (row queue.now.waiting)) MAX_STARTED }
{
    laws::windows_pass_over_nobody::<u64>();
    let lengths = queue.lengths();
    let unbatched = lengths.system.saturating_add(lengths.default_);
    let waiting = unbatched.saturating_add(lengths.batch);
    if waiting < MAX_STARTED as usize {
        waiting
    } else {
        MAX_STARTED as usize
    }
}

/// Writes requests to the start of a slice.
fn write_all(started: &mut [FdbRequest], requests: &[Req<u64>])
    requires { length requests.now ≤ length started.old }
    ensures { started.new ≡ map request_of requests.now ++ drop (length requests.now) started.old }
{
    for (place, request) in requests.iter().enumerate() {
        started[place] = request_of(request);
    }
}

/// Holds a window, writes what it starts to the start of a slice, and shows what the queue then is,
/// unless memory is refused; nothing has changed then.
pub(crate) fn window_shown(
    queue: &mut GrvQueue<u64>,
    elapsed: u64,
    started: &mut [FdbRequest],
) -> Option<FdbOutcome>
    requires { length (window queue.old) ≤ length started.old }
    ensures held { IfSome result
        (λ given. HasHeld elapsed queue.old queue.new given started.old started.new) }
    ensures not_memory { IfSome result (λ given. given.status ≡ FDB_MEMORY → ⊥) }
    ensures memory { IsNone result → (queue.new ≡ queue.old) × (started.new ≡ started.old) }
    ensures due { IsNone result → 0 < length (started_at queue.old (Op.Window elapsed)) }
{
    match queue.window(elapsed) {
        Ok(requests) => {
            write_all(started, requests.as_slice());
            Some(shown(queue, FDB_OK, None, requests.len() as u64))
        }
        Err(QueueError::BadConfig) => Some(shown(queue, FDB_BAD_CONFIG, None, 0)),
        Err(_) => None,
    }
}
