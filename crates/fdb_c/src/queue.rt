//! The queue of a GRV proxy: its requests, operations and outcomes as C writes them, and its
//! operations, one at a time.

ghost use Rattle.std.specs.Prelude.{◌≡◌, ◌<◌, Some, None, IfSome, IsNone, Ok};
ghost use Rattle.fdb_queue.specs.Admission.{refusal_of};
ghost use Rattle.fdb_c.specs.Queue.{number_of, offer_of, op_of, priority_of, no_request};
ghost use Rattle.fdb_c.specs.Queue.{request_of, shown, after, after_offer, after_op, out_of_offer};
ghost use Rattle.fdb_c.specs.Queue.{outcome, status_at, status_of};

use crate::status::{
    FDB_BAD_CONFIG, FDB_BAD_COUNT, FDB_BATCH_THROTTLED, FDB_FULL, FDB_MEMORY, FDB_OK,
    FDB_TAG_TOO_LONG,
};
use fdb_history::Priority;
use fdb_queue::{GrvQueue, QueueError, Req};

/// Offers a request.
pub const FDB_OP_OFFER: u8 = 0;

/// Holds a window.
pub const FDB_OP_WINDOW: u8 = 1;

/// Takes the first request out.
pub const FDB_OP_POP: u8 = 2;

/// The capacity of a queue, and its rates: how many transactions a window may start beside what the
/// rate's budget has, which gains as many in two seconds.
#[repr(C)]
#[derive(Clone, Copy)]
pub struct FdbQueueConfig {
    /// The rate that holds back default and batch requests: 1 to 100,000.
    pub normal: u64,
    /// The rate that holds back batch requests too: 0 to 100,000. With 0 no batch request is let
    /// in.
    pub batch: u64,
    /// The most requests that wait.
    pub room: u64,
}

/// An operation on a queue.
#[repr(C)]
#[derive(Clone, Copy)]
pub struct FdbOp {
    /// Of an offer the count, of a window the microseconds since the last one.
    pub amount: u64,
    /// What an offered request carries.
    pub payload: u64,
    /// `FDB_OP_OFFER`, `FDB_OP_WINDOW` or `FDB_OP_POP`.
    pub kind: u8,
    /// The priority of an offered request: 0 system, 1 default, 2 batch.
    pub priority: u8,
}

/// A request for a read version.
#[repr(C)]
#[derive(Clone, Copy)]
pub struct FdbRequest {
    /// How many transactions it starts.
    pub count: u64,
    /// What it carries.
    pub payload: u64,
    /// Its priority: 0 system, 1 default, 2 batch.
    pub priority: u8,
}

/// The outcome of an operation, and what the queue then is.
#[repr(C)]
#[derive(Clone, Copy)]
pub struct FdbOutcome {
    /// The budget of the normal rate, in parts of a transaction: 2,000,000 are one.
    pub normal: u64,
    /// The budget of the batch rate, in parts of a transaction: 2,000,000 are one.
    pub batch: u64,
    /// How many system requests wait.
    pub system_waits: u64,
    /// How many default requests wait.
    pub default_waits: u64,
    /// How many batch requests wait.
    pub batch_waits: u64,
    /// How many requests the operation started.
    pub started: u64,
    /// The request that was pushed out or taken out; where there is none, it is 0.
    pub out: FdbRequest,
    /// Whether there is a request in `out`.
    pub has_out: bool,
    /// `FDB_OK`, or the number of the refusal.
    pub status: u8,
}

/// An operation.
#[derive(Drop)]
pub(crate) enum Op {
    /// Offers a request.
    Offer(Req<u64>),
    /// Holds a window, so many microseconds after the last one.
    Window(u64),
    /// Takes the first request out.
    Pop,
}

/// A priority's number.
fn number_of(priority: Priority) -> u8
    ensures { result ≡ number_of priority }
{
    match priority {
        Priority::System => 0,
        Priority::Default => 1,
        Priority::Batch => 2,
    }
}

/// The priority of a number.
pub(crate) fn priority_of(number: u8) -> Option<Priority>
    ensures { result ≡ priority_of number }
{
    match number {
        0 => Some(Priority::System),
        1 => Some(Priority::Default),
        2 => Some(Priority::Batch),
        _ => None,
    }
}

/// The offer of a request, where there is such a priority.
fn offer_of(priority: Option<Priority>, count: u64, payload: u64) -> Option<Op>
    ensures { result ≡ offer_of priority count payload }
{
    match priority {
        Some(priority) => Some(Op::Offer(Req {
            priority,
            count,
            payload,
        })),
        None => None,
    }
}

/// What an operation of C is, if it is one.
pub(crate) fn op_of(op: FdbOp) -> Option<Op>
    ensures { result ≡ op_of op }
{
    if op.kind == FDB_OP_OFFER {
        return offer_of(priority_of(op.priority), op.amount, op.payload);
    }
    if op.kind == FDB_OP_WINDOW {
        return Some(Op::Window(op.amount));
    }
    if op.kind == FDB_OP_POP {
        return Some(Op::Pop);
    }
    None
}

/// A request, as C is told of it.
pub(crate) fn request_of(request: &Req<u64>) -> FdbRequest
    ensures { result ≡ request_of request.now }
{
    FdbRequest {
        count: request.count,
        payload: request.payload,
        priority: number_of(request.priority),
    }
}

/// What stands where there is no request.
fn no_request() -> FdbRequest
    ensures { result ≡ no_request }
{
    FdbRequest {
        count: 0,
        payload: 0,
        priority: 0,
    }
}

/// What is shown of a queue after an operation.
pub(crate) fn shown(
    queue: &GrvQueue<u64>,
    status: u8,
    out: Option<Req<u64>>,
    started: u64,
) -> FdbOutcome
    ensures { result ≡ shown status out started queue.now }
{
    let budgets = queue.budgets();
    let lengths = queue.lengths();
    let (has_out, out) = match out {
        Some(request) => (true, request_of(&request)),
        None => (false, no_request()),
    };
    FdbOutcome {
        normal: budgets.normal,
        batch: budgets.batch,
        system_waits: lengths.system as u64,
        default_waits: lengths.default_ as u64,
        batch_waits: lengths.batch as u64,
        started,
        out,
        has_out,
        status,
    }
}

/// Offers a request: its refusal's number, and the request that is pushed out. There is none of it
/// where memory is refused, and nothing has changed then.
fn offer(queue: &mut GrvQueue<u64>, request: Req<u64>) -> Option<(u8, Option<Req<u64>>)>
    ensures status { IfSome result (λ given. given.0 ≡ status_of (refusal_of queue.old request)) }
    ensures out { IfSome result
        (λ given. given.1 ≡ out_of_offer (refusal_of queue.old request) queue.old request) }
    ensures after { IfSome result
        (λ _. queue.new ≡ after_offer (refusal_of queue.old request) queue.old request) }
    ensures not_memory { IfSome result (λ given. given.0 ≡ FDB_MEMORY → ⊥) }
    ensures memory { IsNone result → queue.new ≡ queue.old }
    ensures due { IsNone result → refusal_of queue.old request ≡ None }
{
    match queue.offer(request) {
        Ok(out) => Some((FDB_OK, out)),
        Err((QueueError::BadConfig, _)) => Some((FDB_BAD_CONFIG, None)),
        Err((QueueError::BadCount, _)) => Some((FDB_BAD_COUNT, None)),
        Err((QueueError::BatchThrottled, _)) => Some((FDB_BATCH_THROTTLED, None)),
        Err((QueueError::Full, _)) => Some((FDB_FULL, None)),
        Err((QueueError::TagTooLong, _)) => Some((FDB_TAG_TOO_LONG, None)),
        Err((QueueError::Memory, _)) => None,
    }
}

/// Offers a request and shows what the queue then is, unless memory is refused.
pub(crate) fn offer_shown(queue: &mut GrvQueue<u64>, request: Req<u64>) -> Option<FdbOutcome>
    ensures outcome { IfSome result (λ given. given ≡ outcome queue.old (Op.Offer request)) }
    ensures after { IfSome result (λ _. queue.new ≡ after_op queue.old (Op.Offer request)) }
    ensures not_memory { IfSome result (λ given. given.status ≡ FDB_MEMORY → ⊥) }
    ensures memory { IsNone result → queue.new ≡ queue.old }
    ensures due { IsNone result → status_at queue.old (Op.Offer request) ≡ FDB_OK }
{
    match offer(queue, request) {
        Some((status, out)) => Some(shown(queue, status, out, 0)),
        None => None,
    }
}

/// Takes the first request out and shows what the queue then is.
pub(crate) fn pop_shown(queue: &mut GrvQueue<u64>) -> FdbOutcome
    ensures outcome { result ≡ outcome queue.old Op.Pop }
    ensures after { queue.new ≡ after_op queue.old Op.Pop }
{
    let out = queue.pop();
    shown(queue, FDB_OK, out, 0)
}
