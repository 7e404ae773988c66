//! The queue of a proxy and its turns.

ghost use Rattle.std.specs.Prelude.{◌≡◌, ◌==◌, ◌+◌, ◌<◌, ◌≤◌, ◌++◌, [], All, IfOk, IfErr, OnErr};
ghost use Rattle.std.specs.Prelude.{length, true, OnOk, option_to_list, vec_len, vec_capacity};
ghost use Rattle.fdb_queue.specs.Config.{IsElapsed};
ghost use Rattle.fdb_queue.specs.NewRates.{turned_away, under_rates, with_rates};
ghost use Rattle.fdb_queue.specs.Waiting.{first, row, without_first};
ghost use Rattle.fdb_queue.specs.Window.{window, after_window};
ghost use Rattle.fdb_proxy.specs.Cause.{is_of_an_offer};
ghost use Rattle.fdb_proxy.specs.private.Turn.{AreOffered, HasReady, IsReady, IsTurn, Offers};
ghost use Rattle.fdb_proxy.specs.private.Turn.{StartsSome};

use crate::error::ProxyError;
use crate::request::Rates;
use fdb_queue::{GrvQueue, QueueError, Req, TurnedAway};

/// What a turn came to: who starts, and who waits no more without a start.
#[derive(Drop)]
pub(crate) struct Turn<T> {
    /// The requests that its window starts, in the order of the row.
    pub(crate) started: Vec<Req<T>>,
    /// Those that were turned away, in the order in which they were, as `Full` where pushed out.
    pub(crate) turned_away: Vec<TurnedAway<T>>,
}

/// The queue of a proxy, and the time between two of its windows in microseconds.
#[derive(Drop)]
pub(crate) struct TimedQueue<T> {
    pub(crate) queue: GrvQueue<T>,
    pub(crate) elapsed: u64,
    pub(crate) ghost in_range: { IsElapsed elapsed },
}

impl<T: Drop> TimedQueue<T> {
    /// Sets the rates of the queue, and gives out whom they turn away, in the order of the row.
    ///
    /// It is refused for memory alone: where some are turned away and there is none for their list.
    /// The queue is then as it was.
    #[tactic(auto, using(crate::proofs::Rerated::all_due))]
    pub(crate) fn set_rates(&mut self, rates: Rates) -> Result<Vec<TurnedAway<T>>, ProxyError>
        ensures set { OnOk result
            (self.new.queue ≡ under_rates rates.normal rates.batch self.old.queue) }
        ensures gone { IfOk result
            (λ gone. gone.items ≡ turned_away
            (with_rates rates.normal rates.batch self.old.queue.config)
            (row self.old.queue.waiting)) }
        ensures due { IfOk result (λ gone.
            All (λ one. is_of_an_offer one.cause ≡ true) gone.items) }
        ensures elapsed { self.new.elapsed ≡ self.old.elapsed }
        ensures memory { IfErr result (λ cause. cause ≡ ProxyError.Memory) }
        ensures some { OnErr result
            (0 < length (turned_away (with_rates rates.normal rates.batch self.old.queue.config)
            (row self.old.queue.waiting))) }
        ensures unchanged { OnErr result (self.new.queue ≡ self.old.queue) }
    {
        match self.queue.set_rates(rates.normal, rates.batch) {
            Ok(gone) => Ok(gone),
            Err(_) => Err(ProxyError::Memory),
        }
    }

    /// Offers each of some requests to the queue, in order, and then holds one
    /// window. Where there is none, the windows before it that start nothing are held
    /// at once. Whoever is turned away is added to the list, which has room for all.
    ///
    /// It is refused for memory alone: where some start and there is none for their list. All have
    /// been offered by then. A growth of the queue that is refused turns away the one that was
    /// offered, as `Memory`.
    pub(crate) fn turn(
        &mut self,
        offered: Vec<Req<T>>,
        mut turned_away: Vec<TurnedAway<T>>,
    ) -> Result<Turn<T>, ProxyError>
        requires none { turned_away.items ≡ [] }
        requires room { vec_len turned_away + vec_len offered ≤ vec_capacity turned_away }
        ensures turn { IfOk result (λ turn.
            IsTurn self.old.elapsed self.old.queue offered.items turn.started.items
            turn.turned_away.items self.new.queue) }
        ensures due { IfOk result (λ turn.
            All (λ gone. is_of_an_offer gone.cause ≡ true) turn.turned_away.items) }
        ensures elapsed { self.new.elapsed ≡ self.old.elapsed }
        ensures memory { IfErr result (λ cause. cause ≡ ProxyError.Memory) }
        ensures ready { OnErr result
            (HasReady self.old.elapsed self.old.queue offered.items self.new.queue) }
        ensures some { IfOk result (λ turn.
            StartsSome self.old.queue offered.items (length turn.started.items)) }
    {
        self.make_ready(offered, &mut turned_away);
        match self.queue.window(self.elapsed) {
            Ok(started) => Ok(Turn {
                started,
                turned_away,
            }),
            Err(_) => Err(ProxyError::Memory),
        }
    }

    /// Offers all, or where there is none holds the windows that start nothing.
    fn make_ready(&mut self, offered: Vec<Req<T>>, turned_away: &mut Vec<TurnedAway<T>>)
        requires none { turned_away.old.items ≡ [] }
        requires room { vec_len turned_away.old + vec_len offered ≤ vec_capacity turned_away.old }
        ensures ready { IsReady self.old.elapsed
            self.old.queue offered.items turned_away.new.items self.new.queue }
        ensures some { StartsSome self.old.queue offered.items (length (window self.new.queue)) }
        ensures due { All (λ gone. is_of_an_offer gone.cause ≡ true) turned_away.new.items }
        ensures elapsed { self.new.elapsed ≡ self.old.elapsed }
    {
        if offered.is_empty() {
            self.queue.skip_idle(self.elapsed);
        } else {
            self.offer_all(offered, turned_away);
        }
    }

    /// Offers each of some requests to the queue, in order. Whoever is turned away is added to the
    /// list. An offer that is refused memory ends nothing: it turns away one.
    fn offer_all(&mut self, offered: Vec<Req<T>>, turned_away: &mut Vec<TurnedAway<T>>)
        requires none { turned_away.old.items ≡ [] }
        requires room { vec_len turned_away.old + vec_len offered ≤ vec_capacity turned_away.old }
        ensures offers { AreOffered
            self.old.queue offered.items turned_away.new.items self.new.queue }
        ensures due { All (λ gone. is_of_an_offer gone.cause ≡ true) turned_away.new.items }
        ensures elapsed { self.new.elapsed ≡ self.old.elapsed }
    {
        for request in offered {
            self.offer(request, turned_away);
        }
    }

    /// Offers a request to the queue. Whoever is turned away is added to the list.
    fn offer(&mut self, request: Req<T>, turned_away: &mut Vec<TurnedAway<T>>)
        requires { vec_len turned_away.old < vec_capacity turned_away.old }
        ensures offers { Offers
            (record { queue = self.old.queue; turned_away = turned_away.old.items }) request
            (record { queue = self.new.queue; turned_away = turned_away.new.items }) }
        ensures due { All (λ gone. is_of_an_offer gone.cause ≡ true) turned_away.old.items
            → All (λ gone. is_of_an_offer gone.cause ≡ true) turned_away.new.items }
        ensures elapsed { self.new.elapsed ≡ self.old.elapsed }
        ensures len { vec_len turned_away.new ≤ vec_len turned_away.old + 1 }
        ensures capacity { vec_capacity turned_away.new ≡ vec_capacity turned_away.old }
    {
        let gone = match self.queue.offer(request) {
            Ok(None) => return,
            Ok(Some(request)) => TurnedAway {
                cause: QueueError::Full,
                request,
            },
            Err((cause, request)) => TurnedAway { cause, request },
        };
        turned_away.push_reserved(gone);
    }

    /// Whether nobody waits at any priority, so that the proxy may wait at its desk.
    pub(crate) fn is_empty(&self) -> bool
        ensures { result ≡ (length (row self.now.queue.waiting) == 0) }
    {
        let lengths = self.queue.lengths();
        lengths.system == 0 && lengths.default_ == 0 && lengths.batch == 0
    }

    /// Lets the first of the row go without a start.
    pub(crate) fn leave(&mut self) -> Option<Req<T>>
        ensures out { result ≡ first (row self.old.queue.waiting) }
        ensures rest { self.new.queue
            ≡ record self.old.queue { waiting = without_first self.old.queue.waiting } }
        ensures row { row self.old.queue.waiting
            ≡ option_to_list result ++ row self.new.queue.waiting }
        ensures elapsed { self.new.elapsed ≡ self.old.elapsed }
    {
        self.queue.pop()
    }
}
