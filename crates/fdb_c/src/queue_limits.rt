//! New rates, how long the head of a queue waits, and the throttles of tags, by the queue's handle.

ghost use Rattle.std.specs.Prelude.{◌≡◌, ◌<◌, ◌≤◌, ◌⊎◌, ◌↔◌, ◌++◌, map, length, drop, Some, IsSome};
ghost use Rattle.std.specs.Prelude.{IfSome, [], ◌∷◌, None, true, false, IsNone, IsSomeAnd, IsTrue};
ghost use Rattle.std.specs.Prelude.{IfOk};
ghost use Rattle.fdb_queue.specs.Config.{IsElapsed};
ghost use Rattle.fdb_queue.specs.Throttles.{limits_of};
ghost use Rattle.fdb_queue.specs.Waiting.{first, row};
ghost use Rattle.fdb_queue.specs.Waits.{IsSure, StartsAfter};
ghost use Rattle.fdb_queue.specs.declared.config.TheConstants.{MAX_TAG};
ghost use Rattle.fdb_c.specs.Rates.{AreNewRates, AreRefused, IsForgotten, turned_away_of};
ghost use Rattle.fdb_c.specs.Queue.{IsSet, limit_shown, priority_of};

use crate::handle::{FdbQueue, Held};
use crate::queue::{FdbRequest, priority_of, request_of};
use crate::status::{
    FDB_BAD_CONFIG, FDB_BAD_OP, FDB_MEMORY, FDB_OK, FDB_ROOM, FDB_TAG_TOO_LONG, status_of,
};
use fdb_history::{Priority, Tag};
use fdb_queue::{GrvQueue, MAX_TAG, QueueError, TurnedAway, laws};
use std::alloc::{AllocError, Global};

/// A request that new rates turned away, and why.
#[repr(C)]
#[derive(Clone, Copy)]
pub struct FdbTurnedAway {
    /// The request.
    pub request: FdbRequest,
    /// Why: `FDB_BAD_COUNT` or `FDB_BATCH_THROTTLED`, as a new queue of the new rates would refuse
    /// it.
    pub cause: u8,
}

/// A request that was turned away, as C is told of it.
fn turned_away_of(gone: &TurnedAway<u64>) -> FdbTurnedAway
    ensures { result ≡ turned_away_of gone.now }
{
    FdbTurnedAway {
        request: request_of(&gone.request),
        cause: status_of(gone.cause),
    }
}

/// Writes those that were turned away to the start of a slice.
fn write_all(turned_away: &mut [FdbTurnedAway], out: &[TurnedAway<u64>])
    requires { length out.now ≤ length turned_away.old }
    ensures { turned_away.new
        ≡ map turned_away_of out.now ++ drop (length out.now) turned_away.old }
{
    for (place, gone) in out.iter().enumerate() {
        turned_away[place] = turned_away_of(gone);
    }
}

/// Sets the rates, if there is room for all batch requests that wait, and writes those that are
/// turned away to the start of a slice, and how many they are. Where there is no room, it says how
/// much it takes. Refused, nothing else has changed.
fn set_told(
    queue: &mut GrvQueue<u64>,
    normal: u64,
    batch: u64,
    turned_away: &mut [FdbTurnedAway],
    size: &mut u64,
) -> u8
    ensures ok { (result ≡ FDB_OK) → AreNewRates normal batch queue.old queue.new turned_away.old
        turned_away.new size.new }
    ensures refused { AreRefused normal batch queue.old queue.new turned_away.old turned_away.new
        size.old size.new result }
    ensures known { (result ≡ FDB_OK) ⊎ ((result ≡ FDB_ROOM)
        ⊎ ((result ≡ FDB_BAD_CONFIG) ⊎ (result ≡ FDB_MEMORY))) }
{
    // The check learns here that new rates turn away batch requests alone.
    laws::new_rates_lose_nobody::<u64>();
    let waiting = queue.lengths().batch;
    if turned_away.len() < waiting {
        *size = waiting as u64;
        return FDB_ROOM;
    }
    match queue.set_rates(normal, batch) {
        Ok(out) => {
            write_all(turned_away, out.as_slice());
            *size = out.len() as u64;
            FDB_OK
        }
        Err(QueueError::BadConfig) => FDB_BAD_CONFIG,
        Err(_) => FDB_MEMORY,
    }
}

/// Sets the limits of the two rates, which hold from the next window on, and writes the requests
/// that may not wait under them to the start of `turned_away`, in order, each with why. This needs
/// room for all batch requests that wait: else nothing is done, and `size` is how many they are.
/// Refused for its numbers or for memory, it changes nothing.
#[unsafe(no_mangle)]
pub extern "C" fn fdb_queue_set_rates(
    alloc: Global,
    queue: &mut FdbQueue,
    normal: u64,
    batch: u64,
    turned_away: &mut [FdbTurnedAway],
    size: &mut u64,
) -> u8
    requires { IsSome queue.old.queue }
    ensures ok { (result ≡ FDB_OK) → IfSome queue.old.queue (λ before. IfSome queue.new.queue
        (λ after. AreNewRates normal batch before after turned_away.old turned_away.new size.new)) }
    ensures refused { IfSome queue.old.queue (λ before. IfSome queue.new.queue
        (λ after. AreRefused normal batch before after turned_away.old turned_away.new
        size.old size.new result)) }
    ensures known { (result ≡ FDB_OK) ⊎ ((result ≡ FDB_ROOM)
        ⊎ ((result ≡ FDB_BAD_CONFIG) ⊎ (result ≡ FDB_MEMORY))) }
    ensures held { IsSome queue.new.queue }
{
    let mut core = queue.swap(Held::none()).into_box(alloc).unwrap();
    let status = set_told(&mut core, normal, batch, turned_away, size);
    queue.swap(Held::new(core)).gone();
    status
}

/// Forgets each throttle that expires at a moment or before: at that moment and from then on each
/// answer is as if none were forgotten. It takes no memory.
#[unsafe(no_mangle)]
pub extern "C" fn fdb_queue_forget_throttles(alloc: Global, queue: &mut FdbQueue, at: u64)
    requires { IsSome queue.old.queue }
    ensures forgotten { IfSome queue.old.queue
        (λ before. IfSome queue.new.queue (λ after. IsForgotten at before after)) }
    ensures held { IsSome queue.new.queue }
{
    let mut core = queue.swap(Held::none()).into_box(alloc).unwrap();
    core.forget_throttles(at);
    queue.swap(Held::new(core)).gone();
}

/// The throttle of a tag that holds at a moment, if there is one; else it is 0.
#[repr(C)]
#[derive(Clone, Copy)]
pub struct FdbLimit {
    /// Transactions per second.
    pub rate: u64,
    /// The moment from which on the throttle holds no longer, in microseconds.
    pub expires: u64,
    /// Whether there is such a throttle.
    pub holds: bool,
}

/// Answers whether the head of the row waits for its own rate alone. Then `windows` is how many
/// windows of `elapsed` microseconds start nothing before one starts something, with no offer and
/// no new rates between them; else `windows` is as it was.
#[unsafe(no_mangle)]
pub extern "C" fn fdb_queue_waits(
    alloc: Global,
    queue: &mut FdbQueue,
    elapsed: u64,
    windows: &mut u64,
) -> bool
    requires { IsSome queue.old.queue }
    ensures covered { IfSome queue.old.queue (λ before. IsTrue result
        ↔ (IsElapsed elapsed × IsSomeAnd (first (row before.waiting))
        (λ head. IsSure before.config head.priority head.count))) }
    ensures exact { IsTrue result
        → IfSome queue.old.queue (λ before. StartsAfter elapsed before windows.new) }
    ensures untold { (result ≡ false) → windows.new ≡ windows.old }
    ensures kept { queue.new.queue ≡ queue.old.queue }
{
    let core = queue.swap(Held::none()).into_box(alloc).unwrap();
    let told = core.waits(elapsed);
    queue.swap(Held::new(core)).gone();
    match told {
        Some(count) => {
            *windows = count;
            true
        }
        None => false,
    }
}

/// A tag of these bytes.
fn tag_of(alloc: Global, bytes: &[u8]) -> Result<Tag, AllocError>
    ensures { IfOk result (λ tag. tag ≡ bytes.now) }
{
    let mut items = Vec::new(alloc);
    items.extend_from_slice(bytes)?;
    Ok(Tag::from(items))
}

/// Sets a throttle: the number of its refusal, and nothing has changed then.
fn set(
    alloc: Global,
    queue: &mut GrvQueue<u64>,
    priority: Priority,
    bytes: &[u8],
    rate: u64,
    expires: u64,
) -> u8
    ensures set { (result ≡ FDB_OK)
        → IsSet queue.old (Some priority) bytes.now rate expires queue.new }
    ensures too_long { (result ≡ FDB_TAG_TOO_LONG) ↔ (MAX_TAG < length bytes.now) }
    ensures unchanged { (result ≡ FDB_OK → ⊥) → queue.new ≡ queue.old }
    ensures known { (result ≡ FDB_OK) ⊎ ((result ≡ FDB_TAG_TOO_LONG) ⊎ (result ≡ FDB_MEMORY)) }
{
    if bytes.len() as u64 > MAX_TAG {
        return FDB_TAG_TOO_LONG;
    }
    let Ok(tag) = tag_of(alloc, bytes) else {
        return FDB_MEMORY;
    };
    match queue.set_throttle(priority, tag, rate, expires) {
        Ok(()) => FDB_OK,
        Err(_) => FDB_MEMORY,
    }
}

/// Sets the throttle of a tag at a priority, in the place of an older one. Refused, it leaves the
/// queue as it was.
#[unsafe(no_mangle)]
pub extern "C" fn fdb_queue_set_throttle(
    alloc: Global,
    queue: &mut FdbQueue,
    priority: u8,
    tag: &[u8],
    rate: u64,
    expires: u64,
) -> u8
    requires { IsSome queue.old.queue }
    ensures set { (result ≡ FDB_OK) → IfSome queue.old.queue (λ before. IfSome queue.new.queue
        (λ after. IsSet before (priority_of priority) tag.now rate expires after)) }
    ensures bad_op { (result ≡ FDB_BAD_OP) ↔ IsNone (priority_of priority) }
    ensures too_long { (result ≡ FDB_TAG_TOO_LONG)
        ↔ (IsSome (priority_of priority) × (MAX_TAG < length tag.now)) }
    ensures unchanged { (result ≡ FDB_OK → ⊥) → queue.new.queue ≡ queue.old.queue }
    ensures statuses { (result ≡ FDB_OK) ⊎ (result ≡ FDB_BAD_OP) ⊎ (result ≡ FDB_TAG_TOO_LONG)
        ⊎ (result ≡ FDB_MEMORY) }
    ensures held { IsSome queue.new.queue }
{
    let Some(priority) = priority_of(priority) else {
        return FDB_BAD_OP;
    };
    let mut core = queue.swap(Held::none()).into_box(alloc).unwrap();
    let status = set(alloc, &mut core, priority, tag, rate, expires);
    queue.swap(Held::new(core)).gone();
    status
}

/// The throttle of a tag that holds at a moment, unless memory is refused.
fn limit_of_tag(
    alloc: Global,
    queue: &GrvQueue<u64>,
    priority: Priority,
    bytes: &[u8],
    at: u64,
) -> Option<FdbLimit>
    ensures { IfSome result (λ limit. limit
        ≡ limit_shown (limits_of queue.now.throttles priority at (bytes.now ∷ []))) }
{
    let Ok(tag) = tag_of(alloc, bytes) else {
        return None;
    };
    let tags = [tag];
    let Ok(limits) = queue.throttles(priority, &tags, at) else {
        return None;
    };
    match limits.as_slice() {
        [limit, ..] => Some(FdbLimit {
            rate: limit.rate,
            expires: limit.expires,
            holds: true,
        }),
        [] => Some(FdbLimit {
            rate: 0,
            expires: 0,
            holds: false,
        }),
    }
}

/// Tells the throttle of a tag at a priority that holds at a moment, if there is one: the one last
/// set, if it expires later.
#[unsafe(no_mangle)]
pub extern "C" fn fdb_queue_throttle(
    alloc: Global,
    queue: &mut FdbQueue,
    priority: u8,
    tag: &[u8],
    at: u64,
    limit: &mut FdbLimit,
) -> u8
    requires { IsSome queue.old.queue }
    ensures found { (result ≡ FDB_OK) → IfSome queue.old.queue
        (λ before. IfSome (priority_of priority)
        (λ it. limit.new ≡ limit_shown (limits_of before.throttles it at (tag.now ∷ [])))) }
    ensures bad_op { (result ≡ FDB_BAD_OP) ↔ IsNone (priority_of priority) }
    ensures untouched { (result ≡ FDB_OK → ⊥) → limit.new ≡ limit.old }
    ensures statuses { (result ≡ FDB_OK) ⊎ (result ≡ FDB_BAD_OP) ⊎ (result ≡ FDB_MEMORY) }
    ensures kept { queue.new.queue ≡ queue.old.queue }
{
    let Some(priority) = priority_of(priority) else {
        return FDB_BAD_OP;
    };
    let core = queue.swap(Held::none()).into_box(alloc).unwrap();
    let found = limit_of_tag(alloc, &core, priority, tag, at);
    queue.swap(Held::new(core)).gone();
    match found {
        Some(found) => {
            *limit = found;
            FDB_OK
        }
        None => FDB_MEMORY,
    }
}
