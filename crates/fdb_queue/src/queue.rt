//! The queue of a GRV proxy: what it lets in, what its windows start, and who waits how long.

ghost use Rattle.std.specs.Prelude.{◌≡◌, ℕ, ◌+◌, ◌*◌, ◌<◌, ◌≤◌, ◌⊎◌, ◌↔◌, ◌∷◌, ◌++◌, ◌^◌, ◌==◌, []};
ghost use Rattle.std.specs.Prelude.{false, length, drop, reverse, if◌then◌else◌, Err, OnOk, OnErr};
ghost use Rattle.std.specs.Prelude.{All, IfOk, IfErr, IsTrue, IsSome, IfSome, IsSomeAnd};
ghost use Rattle.std.specs.Prelude.{option_to_list};
ghost use Rattle.std.specs.List.{list_all};
ghost use Rattle.std.specs.Int.{div_ceil};
ghost use Rattle.fdb_queue.specs.Admission.{refusal_of, admitted, pushed_out, is_full, IsCause};
ghost use Rattle.fdb_queue.specs.Config.{IsConfig, IsElapsed};
ghost use Rattle.fdb_queue.specs.Kept.{IsQueue};
ghost use Rattle.fdb_queue.specs.NewRates.{turned_away, under_rates, with_rates};
ghost use Rattle.fdb_queue.specs.Queue.{new_queue};
ghost use Rattle.fdb_queue.specs.Throttles.{is_throttle, limits_of, IsLeftAt, SameFrom};
ghost use Rattle.fdb_queue.specs.Throttles.{SameThrottles};
ghost use Rattle.fdb_queue.specs.Waiting.{first, row, total, without_first};
ghost use Rattle.fdb_queue.specs.Waits.{IsSure, limit_of, StartsAfter, after_windows};
ghost use Rattle.fdb_queue.specs.Window.{window, after_window};
ghost use Rattle.fdb_queue.specs.declared.config.TheConstants.{MAX_COUNT, MAX_ELAPSED};

use crate::config::{self, MAX_TAG, QueueConfig, RATE_WINDOW};
use crate::error::QueueError;
use crate::throttles::{self, Throttle, Throttles};
use crate::waiting::{Lengths, Req, TurnedAway, Waiting};
use crate::window::{self, Budgets};
use fdb_history::{Priority, Tag, TagLimit};
use std::alloc::Global;
use std::marker::Model;

/// The requests that wait at a GRV proxy, and the budgets by which they start (`GrvProxyServer`,
/// FoundationDB 7.1: the three queues, the two `GrvTransactionRateInfo` and the throttled tags).
///
/// Contracts see it as the record `Queue`: its configuration, a list of requests for each priority,
/// the budgets and the throttles.
#[derive(Drop)]
pub struct GrvQueue<T> {
    config: QueueConfig,
    waiting: Waiting<T>,
    budgets: Budgets,
    throttles: Throttles,
}

impl<T> Model for GrvQueue<T> {
    ghost use Rattle.fdb_queue.specs.Queue.{Queue};

    ghost Value = { Queue T };

    ghost use Rattle.fdb_queue.specs.Kept.{IsQueue};

    ghost view = { λ queue.
        record {
          config = queue.config;
          waiting = queue.waiting;
          budgets = queue.budgets;
          throttles = queue.throttles;
        } };

    ghost invariant = { λ queue.
        IsQueue {T = T} (record {
          config = queue.config;
          waiting = queue.waiting;
          budgets = queue.budgets;
          throttles = queue.throttles;
        }) };
}

impl<T> GrvQueue<T> {
    /// A queue in which nothing waits, with budgets of 0. Takes no memory.
    ///
    /// It is refused as `BadConfig` where a member of the configuration is out of range.
    pub fn new(alloc: Global, config: QueueConfig) -> Result<GrvQueue<T>, QueueError>
        ensures ok { IfOk result (λ queue. queue ≡ new_queue config) }
        ensures in_range { OnOk result (IsConfig config) }
        ensures bad_config { IfErr result
            (λ cause. (cause ≡ QueueError.BadConfig) × ¬ IsConfig config) }
    {
        if !config.is_in_range() {
            return Err(QueueError::BadConfig);
        }
        Ok(GrvQueue {
            config,
            waiting: Waiting::new(alloc),
            budgets: Budgets::default(),
            throttles: Throttles::new(alloc),
        })
    }

    /// A queue in which nothing waits, with budgets of 0 and these throttles, set one after
    /// another: of two for one priority and one tag the later counts.
    ///
    /// It is refused as `BadConfig` where a member of the configuration is out of range, as
    /// `TagTooLong` where a tag has more than `MAX_TAG` bytes, the first of these that stands, else
    /// for memory. It takes logarithmic time for each throttle, and memory for a copy of each.
    pub fn with_throttles(
        alloc: Global,
        config: QueueConfig,
        throttles: &[Throttle],
    ) -> Result<GrvQueue<T>, QueueError>
        ensures throttles { IfOk result
            (λ queue. SameThrottles queue.throttles (reverse throttles.now)) }
        ensures rest { IfOk result
            (λ queue. queue ≡ record (new_queue config) { throttles = queue.throttles }) }
        ensures in_range { OnOk result (IsConfig config) }
        ensures tagged { OnOk result (IsTrue (list_all is_throttle throttles.now)) }

        ensures bad_config { (result ≡ Err QueueError.BadConfig) ↔ ¬ IsConfig config }
        ensures too_long { (result ≡ Err QueueError.TagTooLong)
            ↔ (IsConfig config × (list_all is_throttle throttles.now ≡ false)) }
        ensures else_memory { IsConfig config → IsTrue (list_all is_throttle throttles.now)
            → IfErr result (λ cause. cause ≡ QueueError.Memory) }
    {
        if !config.is_in_range() {
            return Err(QueueError::BadConfig);
        }
        if !throttles::are_in_range(throttles) {
            return Err(QueueError::TagTooLong);
        }
        let throttles = Throttles::of(alloc, throttles)?;
        Ok(GrvQueue {
            config,
            waiting: Waiting::new(alloc),
            budgets: Budgets::default(),
            throttles,
        })
    }

    /// Lets a request in, at the end of its list. Where the queue is full, the oldest request of a
    /// lower priority is pushed out, batch requests first, and handed to the caller.
    ///
    /// It is refused as `BadCount`, `BatchThrottled` or `Full`, the first of these that stands,
    /// else for memory. It is then handed back, and the queue is as it was. It takes constant time,
    /// the growth of the list aside.
    pub fn offer(&mut self, request: Req<T>) -> Result<Option<Req<T>>, (QueueError, Req<T>)>
        // It is let in only where the definition has nothing against it.
        ensures let_in { OnOk result (refusal_of self.old request ≡ None) }
        ensures admitted { OnOk result (self.new ≡ admitted self.old request) }
        ensures pushed_out { IfOk result (λ out. out ≡ pushed_out self.old request) }

        ensures cause { IfErr result (λ refused. IsCause (refusal_of self.old request) refused.0) }
        ensures handed_back { IfErr result (λ refused. refused.1 ≡ request) }
        ensures unchanged { OnErr result (self.new ≡ self.old) }
    {
        if let Some(cause) = self.refusal_of(&request) {
            return Err((cause, request));
        }
        let full = self.is_full();
        if let Err(refused) = self.waiting.push(request) {
            return Err((QueueError::Memory, refused.value));
        }
        if !full {
            return Ok(None);
        }
        Ok(self.waiting.pop_lowest())
    }

    /// Starts the longest prefix of the row that may start, and hands it out in order; the budgets
    /// then gain for the time since the last window and pay for what was started.
    ///
    /// `elapsed` is that time in microseconds. It is refused as `BadConfig` where it is 0 or above
    /// `MAX_ELAPSED`, else for memory, which a window that starts nothing does not take; nothing
    /// has changed then. The counts that one window starts add up to at most 1,000,000,000. It
    /// takes time in proportion to what it starts.
    pub fn window(&mut self, elapsed: u64) -> Result<Vec<Req<T>>, QueueError>
        ensures in_range { OnOk result (IsElapsed elapsed) }
        ensures started { IfOk result (λ started. started.items ≡ window self.old) }
        ensures bounded { IfOk result (λ started. total started.items ≤ 1000000000) }
        ensures after { OnOk result (self.new ≡ after_window elapsed self.old) }

        ensures bad_config { (result ≡ Err QueueError.BadConfig)
            ↔ ((elapsed ≡ 0) ⊎ (MAX_ELAPSED < elapsed)) }
        ensures else_memory { IsElapsed elapsed
            → IfErr result (λ cause. (cause ≡ QueueError.Memory) × (0 < length (window self.old))) }
        ensures unchanged { OnErr result (self.new ≡ self.old) }
    {
        if !config::is_elapsed(elapsed) {
            return Err(QueueError::BadConfig);
        }
        let reach = self.waiting.reach(&self.config, &self.budgets);
        let started = self.waiting.take_front(reach.counts)?;
        let left = self.waiting.lengths();
        let unbatched = left.system + left.default_;
        self.budgets = Budgets {
            normal: window::after(
                elapsed,
                self.config.normal,
                reach.unbatched,
                self.budgets.normal,
                unbatched == 0,
            ),
            batch: window::after(
                elapsed,
                self.config.batch,
                reach.all,
                self.budgets.batch,
                unbatched + left.batch == 0,
            ),
        };
        Ok(started)
    }

    /// Sets the limits of the two rates, which hold from the next window on. Those that wait and
    /// that a new queue of these limits would refuse are handed out, in the order of the row, each
    /// with why; all others wait on. The budgets stay, and the next window cuts them as ever.
    ///
    /// It is refused as `BadConfig` where a limit is out of range, else for memory, which is not
    /// taken where nobody is handed out; nothing has changed then. It takes time in proportion to
    /// the batch requests that wait.
    pub fn set_rates(&mut self, normal: u64, batch: u64) -> Result<Vec<TurnedAway<T>>, QueueError>
        ensures in_range { OnOk result (IsConfig (with_rates normal batch self.old.config)) }
        ensures set { OnOk result (self.new ≡ under_rates normal batch self.old) }
        ensures handed_out { IfOk result
            (λ out. out.items ≡ turned_away (with_rates normal batch self.old.config)
            (row self.old.waiting)) }
        ensures kept { IsQueue self.old }

        ensures bad_config { (result ≡ Err QueueError.BadConfig)
            ↔ ¬ IsConfig (with_rates normal batch self.old.config) }
        ensures else_memory { IsConfig (with_rates normal batch self.old.config)
            → IfErr result (λ cause. (cause ≡ QueueError.Memory)
            × (0 < length (turned_away (with_rates normal batch self.old.config)
            (row self.old.waiting)))) }
        ensures unchanged { OnErr result (self.new ≡ self.old) }
    {
        let config = QueueConfig {
            normal,
            batch,
            ..self.config
        };
        if !config.is_in_range() {
            return Err(QueueError::BadConfig);
        }
        let out = self.waiting.turn_away(&config)?;
        self.config = config;
        Ok(out)
    }

    /// Takes the first request of the row out, whatever the rates say of it, for a proxy that
    /// closes. The budgets stay. It takes constant time and no memory.
    pub fn pop(&mut self) -> Option<Req<T>>
        ensures out { result ≡ first (row self.old.waiting) }
        ensures rest { self.new ≡ record self.old { waiting = without_first self.old.waiting } }
        ensures row { row self.old.waiting ≡ option_to_list result ++ row self.new.waiting }
    {
        self.waiting.pop_first()
    }

    /// How many windows of `elapsed` microseconds, with no offer and no new rates between them,
    /// start nothing before one starts something. It is computed from the head of the row and takes
    /// constant time and no memory. Whatever the budgets are, it is at most the head's count times
    /// `RATE_WINDOW`, divided by `elapsed` times the limit (the normal one for a default head, the
    /// batch one for a batch head) and rounded up.
    ///
    /// It is `None` where the head does not wait for its own rate alone: in an empty row, for a
    /// system request, which any window starts, for a batch request that the normal rate may hold
    /// or whose own limit is 0, and for a time out of range.
    pub fn waits(&self, elapsed: u64) -> Option<u64>
        ensures covered { IsSome result
            ↔ (IsElapsed elapsed
            × IsSomeAnd (first (row self.now.waiting))
            (λ head. IsSure self.now.config head.priority head.count)) }
        ensures exact { IfSome result (λ count. StartsAfter elapsed self.now count) }
        ensures bounded { IfSome result
            (λ count. IsSomeAnd (first (row self.now.waiting))
            (λ head. count ≤ div_ceil (head.count * RATE_WINDOW)
            (elapsed * limit_of self.now.config head.priority))) }
    {
        if !config::is_elapsed(elapsed) {
            return None;
        }
        let head = self.waiting.head()?;
        if !self.is_sure(head.priority, head.count) {
            return None;
        }
        Some(self.idle_windows(elapsed))
    }

    /// Holds at once the windows of `elapsed` microseconds that start nothing before the head of
    /// the row starts, with no offer between them, and answers how many they are: the next window
    /// starts it, whatever its priority. Where [`GrvQueue::waits`] tells a number, it is the same.
    /// It takes constant time and no memory.
    ///
    /// It holds none where the head is a system request, which any window starts, in an empty row,
    /// and for a time out of range.
    pub fn skip_idle(&mut self, elapsed: u64) -> u64
        ensures idle { (before : ℕ) → before < result
            → window (after_windows elapsed before self.old) ≡ [] }
        ensures after { self.new ≡ after_windows elapsed result self.old }
        ensures exact { IsElapsed elapsed
            → IfSome (first (row self.old.waiting)) (λ _. StartsAfter elapsed self.old result) }
        ensures system { IfSome (first (row self.old.waiting))
            (λ head. head.priority ≡ Priority.System → result ≡ 0) }
        ensures empty { row self.old.waiting ≡ [] → result ≡ 0 }
        ensures out_of_range { ((elapsed ≡ 0) ⊎ (MAX_ELAPSED < elapsed)) → result ≡ 0 }
    {
        if !config::is_elapsed(elapsed) {
            return 0;
        }
        let windows = self.idle_windows(elapsed);
        let lengths = self.waiting.lengths();
        let unbatched = lengths.system + lengths.default_;
        self.budgets = Budgets {
            normal: window::after_idle(
                windows,
                elapsed,
                self.config.normal,
                self.budgets.normal,
                unbatched == 0,
            ),
            batch: window::after_idle(
                windows,
                elapsed,
                self.config.batch,
                self.budgets.batch,
                unbatched + lengths.batch == 0,
            ),
        };
        windows
    }

    /// How many windows start nothing before one starts the head of the row, and none in an empty
    /// row. A batch request waits until neither rate holds it.
    fn idle_windows(&self, elapsed: u64) -> u64
        requires { IsElapsed elapsed }
        ensures exact { IfSome (first (row self.now.waiting))
            (λ _. StartsAfter elapsed self.now result) }
        ensures system { IfSome (first (row self.now.waiting))
            (λ head. head.priority ≡ Priority.System → result ≡ 0) }
        ensures empty { row self.now.waiting ≡ [] → result ≡ 0 }
    {
        let Some(head) = self.waiting.head() else {
            return 0;
        };
        let (config, budgets) = (self.config, self.budgets);
        let normal = window::windows_held(elapsed, config.normal, budgets.normal, head.count);
        match head.priority {
            Priority::System => 0,
            Priority::Default => normal,
            Priority::Batch => {
                let batch = window::windows_held(elapsed, config.batch, budgets.batch, head.count);
                normal.max(batch)
            }
        }
    }

    /// Whether one rate alone holds a request at the head of the row.
    fn is_sure(&self, priority: Priority, count: u64) -> bool
        requires { count ≤ MAX_COUNT }
        ensures { IsTrue result ↔ IsSure self.now.config priority count }
    {
        match priority {
            Priority::System => false,
            Priority::Default => true,
            Priority::Batch => count <= self.config.normal && self.config.batch > 0,
        }
    }

    /// Sets the throttle of a tag at a priority, in the place of an older one: a rate in
    /// transactions per second, and the moment in microseconds from which on it holds no longer. It
    /// is kept until [`GrvQueue::forget_throttles`] is told a moment from which it holds no longer.
    ///
    /// It is refused as `TagTooLong` where the tag has more than `MAX_TAG` bytes, else for memory;
    /// nothing has changed then. It takes logarithmic time.
    pub fn set_throttle(
        &mut self,
        priority: Priority,
        tag: Tag,
        rate: u64,
        expires: u64,
    ) -> Result<(), QueueError>
        ensures set { OnOk result
            (SameThrottles self.new.throttles
            (record {
              priority = priority;
              tag = tag;
              rate = rate;
              expires = expires;
            } ∷ self.old.throttles)) }
        ensures rest { OnOk result (self.new ≡ record self.old { throttles = self.new.throttles }) }

        ensures too_long { (result ≡ Err QueueError.TagTooLong) ↔ (MAX_TAG < length tag) }
        ensures else_memory { length tag ≤ MAX_TAG
            → IfErr result (λ cause. cause ≡ QueueError.Memory) }
        ensures unchanged { OnErr result (self.new ≡ self.old) }
    {
        if tag.len() as u64 > MAX_TAG {
            return Err(QueueError::TagTooLong);
        }
        self.throttles.set(Throttle {
            priority,
            tag,
            rate,
            expires,
        })?;
        Ok(())
    }

    /// Forgets each throttle that expires at a moment in microseconds or before: at that moment
    /// and from then on each answer is as if none were forgotten. It takes time in proportion to
    /// the throttles that are kept, and no memory.
    pub fn forget_throttles(&mut self, at: u64)
        ensures left { IsLeftAt at self.new.throttles self.old.throttles }
        ensures forgotten { All (λ throttle. at < throttle.expires) self.new.throttles }
        ensures answers { SameFrom at self.new.throttles self.old.throttles }
        ensures rest { self.new ≡ record self.old { throttles = self.new.throttles } }
    {
        self.throttles.forget(at);
    }

    /// The limits of some tags at a priority and a moment: for each tag in order, also for one that
    /// stands twice, the throttle last set, if it expires later than that moment. It fails only
    /// where memory runs out, and only where a limit is due. It takes logarithmic time for each
    /// tag.
    pub fn throttles(
        &self,
        priority: Priority,
        tags: &[Tag],
        at: u64,
    ) -> Result<Vec<TagLimit>, QueueError>
        ensures ok { IfOk result
            (λ limits. limits.items ≡ limits_of self.now.throttles priority at tags.now) }
        ensures err { IfErr result
            (λ cause. (cause ≡ QueueError.Memory)
            × (0 < length (limits_of self.now.throttles priority at tags.now))) }
    {
        let alloc = self.waiting.allocator();
        let limits = self.throttles.limits(alloc, priority, tags, at)?;
        Ok(limits)
    }

    /// Why a request is refused, if it is, and not for memory.
    fn refusal_of(&self, request: &Req<T>) -> Option<QueueError>
        ensures { result ≡ refusal_of self.now request.now }
    {
        if !self.config.admits(request.priority, request.count) {
            return Some(QueueError::BadCount);
        }
        if request.priority == Priority::Batch && self.config.batch == 0 {
            return Some(QueueError::BatchThrottled);
        }
        if self.is_full() && !self.waiting.has_below(request.priority) {
            return Some(QueueError::Full);
        }
        None
    }

    /// Whether as many requests wait as the capacity allows.
    fn is_full(&self) -> bool
        ensures { result ≡ is_full self.now }
    {
        self.waiting.len() as u64 == self.config.room
    }

    /// What each rate may start beyond its limit, as the last window left it. Takes no memory.
    pub fn budgets(&self) -> Budgets
        ensures value { result ≡ self.now.budgets }
        ensures kept { IsQueue self.now }
    {
        self.budgets
    }

    /// How many requests of each priority wait. Takes no memory.
    pub fn lengths(&self) -> Lengths
        ensures system { result.system ≡ length self.now.waiting.system }
        ensures default_ { result.default_ ≡ length self.now.waiting.default_ }
        ensures batch { result.batch ≡ length self.now.waiting.batch }
        ensures room { result.system + result.default_ + result.batch ≤ self.now.config.room }
    {
        self.waiting.lengths()
    }
}
