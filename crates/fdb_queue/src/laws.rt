//! Laws of the definitions: what a reader would ask of a window, of the budgets and of admission.
//!
//! Each is the contract of a function that does nothing, so that the check proves it. It holds of
//! every queue that the definitions speak of, whatever its limits, budgets and requests, or of
//! every one that keeps to `IsQueue`, as each `GrvQueue` does.

ghost use Rattle.std.specs.Prelude.{◌≡◌, ℕ, ◌+◌, ◌*◌, ◌<◌, ◌≤◌, ◌⊎◌, [], ◌∷◌, ◌++◌, List, length};
ghost use Rattle.std.specs.Prelude.{take, true, false, Some, None, option_to_list};
ghost use Rattle.std.specs.Prelude.{IsPermutation, map, All};
ghost use Rattle.fdb_queue.specs.Admission.{refusal_of, admitted, pushed_out};
ghost use Rattle.fdb_queue.specs.Kept.{IsQueue};
ghost use Rattle.fdb_queue.specs.Laws.{list_of, rank};
ghost use Rattle.fdb_queue.specs.NewRates.{turned_away, under_rates, with_rates};
ghost use Rattle.fdb_queue.specs.Queue.{Queue};
ghost use Rattle.fdb_queue.specs.declared.throttles.Throttle.{Throttle};
ghost use Rattle.fdb_queue.specs.Throttles.{SameThrottles, limits_of};
ghost use Rattle.fdb_history.specs.declared.log.Priority.{Priority};
ghost use Rattle.fdb_queue.specs.Waiting.{row, total};
ghost use Rattle.std.specs.Int.{div_ceil};
ghost use Rattle.fdb_queue.specs.Waits.{after_windows, IsSure, limit_of};
ghost use Rattle.fdb_queue.specs.declared.window.Budgets.{Budgets};
ghost use Rattle.fdb_queue.specs.Window.{may_start, fits, window, after_window};
ghost use Rattle.fdb_queue.specs.Config.{IsConfig};
ghost use Rattle.fdb_queue.specs.declared.config.TheConstants.{MAX_STARTED, RATE_WINDOW};
ghost use Rattle.fdb_queue.specs.declared.waiting.Req.{Req};
ghost use Rattle.fdb_history.specs.declared.log.Priority.TheVariants.{Batch, Default};

/// A window starts a prefix of the row, and so passes over nobody. Each request of it may start,
/// given the sum of the counts before it; no longer prefix would do; and where one is left, it is
/// the head of what is left that may not start, unless as many have started as may.
pub fn windows_pass_over_nobody<T>()
    ensures prefix { (queue : Queue T)
        → window queue ≡ take (length (window queue)) (row queue.waiting) }
    ensures may_start { (queue : Queue T) (before after : List (Req T)) (request : Req T)
        → window queue ≡ before ++ request ∷ after
        → may_start queue.config queue.budgets request.priority (total before + request.count)
        ≡ true }
    ensures in_range { (queue : Queue T) → length (window queue) ≤ MAX_STARTED }
    ensures longest { (queue : Queue T) (count : ℕ) → length (window queue) < count
        → count ≤ length (row queue.waiting) → fits queue (take count (row queue.waiting)) ≡ false }
    ensures head { (queue : Queue T) (left : List (Req T)) (next : Req T)
        → row queue.waiting ≡ window queue ++ next ∷ left
        → (length (window queue) ≡ MAX_STARTED)
        ⊎ (may_start queue.config queue.budgets next.priority (total (window queue) + next.count)
        ≡ false) }
{}

/// The counts that one window starts add up to at most 1,000,000,000.
pub fn windows_are_bounded<T>()
    ensures { (queue : Queue T) → IsQueue queue → total (window queue) ≤ 1000000000 }
{}

/// After a window no budget exceeds its bound, 100,000 transactions, and one for which nothing
/// waits no more than 10.
pub fn budgets_are_bounded<T>()
    ensures normal { (queue : Queue T) (elapsed : ℕ)
        → (after_window elapsed queue).budgets.normal ≤ 200000000000 }
    ensures batch { (queue : Queue T) (elapsed : ℕ)
        → (after_window elapsed queue).budgets.batch ≤ 200000000000 }
    ensures idle_normal { (queue : Queue T) (elapsed : ℕ)
        → (after_window elapsed queue).waiting.system ≡ []
        → (after_window elapsed queue).waiting.default_ ≡ []
        → (after_window elapsed queue).budgets.normal ≤ 20000000 }
    ensures idle_batch { (queue : Queue T) (elapsed : ℕ)
        → row (after_window elapsed queue).waiting ≡ []
        → (after_window elapsed queue).budgets.batch ≤ 20000000 }
{}

/// What a queue keeps to, it keeps to whatever is let in and started: no more requests wait than
/// the capacity allows, each waits in the list of its priority, and the budgets are within their
/// bounds.
pub fn queues_stay_queues<T>()
    ensures admitted { (queue : Queue T) (request : Req T) → IsQueue queue
        → refusal_of queue request ≡ None → IsQueue (admitted queue request) }
    ensures window { (queue : Queue T) (elapsed : ℕ) → IsQueue queue
        → IsQueue (after_window elapsed queue) }
{}

/// Nobody but the oldest request of a lower priority is pushed out, and a default one only where no
/// batch one waits.
pub fn only_the_oldest_is_pushed_out<T>()
    ensures lower { (queue : Queue T) (request out : Req T) → IsQueue queue
        → pushed_out queue request ≡ Some out → rank out.priority < rank request.priority }
    ensures oldest { (queue : Queue T) (request out : Req T) → IsQueue queue
        → pushed_out queue request ≡ Some out
        → take 1 (list_of out.priority queue.waiting) ≡ out ∷ [] }
    ensures batch_first { (queue : Queue T) (request out : Req T) → IsQueue queue
        → pushed_out queue request ≡ Some out → out.priority ≡ Default
        → queue.waiting.batch ≡ [] }
{}

/// Whoever waited and is not pushed out still waits, with the request that was let in: nobody is
/// lost.
pub fn nobody_is_lost<T>()
    ensures { (queue : Queue T) (request : Req T) → refusal_of queue request ≡ None
        → IsPermutation (request ∷ row queue.waiting)
        (option_to_list (pushed_out queue request) ++ row (admitted queue request).waiting) }
{}

/// New rates lose nobody: whoever waited waits on, or is turned away. Only batch requests are, and
/// nobody where the normal rate is no lower and the batch rate is not 0.
pub fn new_rates_lose_nobody<T>()
    ensures nobody { (queue : Queue T) (normal batch : ℕ)
        → IsPermutation (row queue.waiting)
        (map (λ gone. gone.request)
        (turned_away (with_rates normal batch queue.config) (row queue.waiting))
        ++ row (under_rates normal batch queue).waiting) }
    ensures batch { (queue : Queue T) (normal batch : ℕ) → IsQueue queue
        → IsConfig (with_rates normal batch queue.config)
        → All (λ gone. gone.request.priority ≡ Batch)
        (turned_away (with_rates normal batch queue.config) (row queue.waiting)) }
    ensures few { (queue : Queue T) (normal batch : ℕ) → IsQueue queue
        → IsConfig (with_rates normal batch queue.config)
        → length (turned_away (with_rates normal batch queue.config) (row queue.waiting))
        ≤ length queue.waiting.batch }
    ensures higher { (queue : Queue T) (normal batch : ℕ) → IsQueue queue
        → IsConfig (with_rates normal batch queue.config)
        → queue.config.normal ≤ normal → 1 ≤ batch
        → turned_away (with_rates normal batch queue.config) (row queue.waiting) ≡ [] }
    ensures queue { (queue : Queue T) (normal batch : ℕ) → IsQueue queue
        → IsConfig (with_rates normal batch queue.config)
        → IsQueue (under_rates normal batch queue) }
{}

/// A request that is first in the row, in its own list, and sure to start waits no more windows of
/// one length than its count divided by what its limit grants in one, rounded up: whatever the
/// budgets are, more windows with no offer between them do not all start nothing.
pub fn waits_are_bounded<T>()
    ensures { (queue : Queue T) (budgets : Budgets) (first : Req T) (left : List (Req T))
        (elapsed idle : ℕ)
        → IsConfig queue.config → 1 ≤ elapsed → row queue.waiting ≡ first ∷ left
        → take 1 (list_of first.priority queue.waiting) ≡ first ∷ []
        → IsSure queue.config first.priority first.count
        → ((before : ℕ) → before < idle
        → window (after_windows elapsed before (record queue { budgets = budgets })) ≡ [])
        → idle ≤ div_ceil (first.count * RATE_WINDOW)
        (elapsed * limit_of queue.config first.priority) }
{}

/// The throttle that was set last counts. A call that sets a throttle leaves throttles that stand
/// for the new one followed by those that were kept before. So the throttles that are kept always
/// stand for the list of all that were set, the newest first: the limits of any tags are the same
/// by the kept ones and by that list.
pub fn what_was_set_last_counts()
    ensures limits { (these those : List Throttle) (priority : Priority) (at : ℕ)
        (tags : List (List ℕ)) → SameThrottles these those
        → limits_of these priority at tags ≡ limits_of those priority at tags }
    ensures all { (kept before all : List Throttle) (newest : Throttle)
        → SameThrottles kept (newest ∷ before) → SameThrottles before all
        → SameThrottles kept (newest ∷ all) }
{}
