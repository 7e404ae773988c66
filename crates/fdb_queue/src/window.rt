//! How far a window comes in the row, the budgets of the two rates, and what windows leave of them.

ghost use Rattle.std.specs.Prelude.{◌≡◌, ◌≤◌, ◌^◌, All, fold, ◌*◌};
ghost use Rattle.std.specs.Int.{div_ceil};
ghost use Rattle.fdb_queue.specs.Config.{IsConfig, IsElapsed};
ghost use Rattle.fdb_queue.specs.Kept.{AreBudgets, IsBudget};
ghost use Rattle.fdb_queue.specs.private.Walk.{walk_after, IsWithinLimits};
ghost use Rattle.fdb_queue.specs.Window.{may_start};
ghost use Rattle.fdb_queue.specs.Budgets.{can_start, budget_after, cut};
ghost use Rattle.fdb_queue.specs.private.Rates.{idle_budget, lacking};
ghost use Rattle.fdb_queue.specs.declared.config.TheConstants.{MAX_COUNT, MAX_RATE};

use crate::config::{IDLE_BURST, MAX_BURST, MAX_STARTED, QueueConfig, RATE_WINDOW};
use crate::waiting::Req;
use fdb_history::Priority;
use std::collections::VecDeque;

/// What a window has started so far: how many requests, and how many transactions they stand for.
#[derive(Clone, Copy)]
pub(crate) struct Walk {
    pub(crate) requests: u64,
    pub(crate) transactions: u64,
    /// Whether the next request was one that may not start.
    pub(crate) ended: bool,
}

impl Walk {
    /// The walk at the head of the row, before it has started anything.
    pub(crate) const NEW: Walk = Walk {
        requests: 0,
        transactions: 0,
        ended: false,
    };

    /// The walk at its next request: starts it, or ends there.
    fn after<T>(self, config: &QueueConfig, budgets: &Budgets, request: &Req<T>) -> Walk
        requires config { IsConfig config.now }
        requires budgets { AreBudgets budgets.now }
        requires walk { IsWithinLimits self }
        requires count { request.now.count ≤ MAX_COUNT }
        ensures value { result ≡ walk_after config.now budgets.now self request.now }
        ensures walk { IsWithinLimits result }
    {
        if self.ended {
            return self;
        }
        let transactions = self.transactions + request.count;
        if self.requests == MAX_STARTED
            || !may_start(config, budgets, request.priority, transactions)
        {
            return Walk {
                ended: true,
                ..self
            };
        }
        Walk {
            requests: self.requests + 1,
            transactions,
            ended: false,
        }
    }

    /// The walk after it has gone along a list, or has ended in it.
    pub(crate) fn along<T>(
        self,
        config: &QueueConfig,
        budgets: &Budgets,
        list: &VecDeque<Req<T>>,
    ) -> Walk
        requires config { IsConfig config.now }
        requires budgets { AreBudgets budgets.now }
        requires walk { IsWithinLimits self }
        requires counts { All (λ request. request.count ≤ MAX_COUNT) list.now.items }
        ensures value { result ≡ fold (walk_after config.now budgets.now) self list.now.items }
        ensures walk { IsWithinLimits result }
    {
        let mut walk = self;
        for request in list.iter() {
            if walk.ended {
                break;
            }
            walk = walk.after(config, budgets, request);
        }
        walk
    }
}

/// Whether a request of this priority may start, where so many transactions have started with it.
fn may_start(config: &QueueConfig, budgets: &Budgets, priority: Priority, transactions: u64) -> bool
    requires config { IsConfig config.now }
    requires budgets { AreBudgets budgets.now }
    requires transactions { transactions ≤ 2 ^ 40 }
    ensures { result ≡ may_start config.now budgets.now priority transactions }
{
    match priority {
        Priority::System => true,
        Priority::Default => can_start(config.normal, budgets.normal, transactions),
        Priority::Batch => {
            can_start(config.batch, budgets.batch, transactions)
                && can_start(config.normal, budgets.normal, transactions)
        }
    }
}

/// The budgets of a queue's rates: what each may start beyond its limit, in transactions times
/// `RATE_WINDOW`.
#[derive(Clone, Copy, Debug, Default, PartialEq, Eq)]
pub struct Budgets {
    /// The budget of the rate that holds back default and batch requests.
    pub normal: u64,
    /// The budget of the rate that holds back batch requests too.
    pub batch: u64,
}

/// Whether a rate lets so many transactions start in one window.
pub(crate) fn can_start(limit: u64, budget: u64, transactions: u64) -> bool
    requires limit { limit ≤ MAX_RATE }
    requires budget { IsBudget budget }
    requires transactions { transactions ≤ 2 ^ 40 }
    ensures { result ≡ can_start limit budget transactions }
{
    transactions * RATE_WINDOW <= (limit * RATE_WINDOW + budget).min(MAX_BURST * RATE_WINDOW)
}

/// The budget of a rate after a window that started so many transactions, and after which something
/// waits for the rate or nothing does.
pub(crate) fn after(elapsed: u64, limit: u64, started: u64, budget: u64, idle: bool) -> u64
    requires elapsed { IsElapsed elapsed }
    requires limit { limit ≤ MAX_RATE }
    requires budget { IsBudget budget }
    requires started { started ≤ 1000000000 }
    ensures value { result ≡ cut idle (budget_after elapsed limit started budget) }
    ensures in_range { IsBudget result }
{
    let burst = if idle { IDLE_BURST } else { MAX_BURST };
    (budget + elapsed * limit)
        .saturating_sub(elapsed * started)
        .min(burst * RATE_WINDOW)
}

/// The budget of a rate after so many windows that started nothing, while something waits for the
/// rate or nothing does.
pub(crate) fn after_idle(windows: u64, elapsed: u64, limit: u64, budget: u64, idle: bool) -> u64
    requires elapsed { IsElapsed elapsed }
    requires limit { limit ≤ MAX_RATE }
    requires budget { IsBudget budget }
    ensures value { result ≡ idle_budget windows elapsed limit budget idle }
    ensures in_range { IsBudget result }
{
    if windows == 0 {
        return budget;
    }
    let burst = if idle { IDLE_BURST } else { MAX_BURST };
    windows
        .saturating_mul(elapsed * limit)
        .saturating_add(budget)
        .min(burst * RATE_WINDOW)
}

/// How many windows a rate holds so many transactions back, if they start nothing and do not cut
/// its budget.
pub(crate) fn windows_held(elapsed: u64, limit: u64, budget: u64, transactions: u64) -> u64
    requires elapsed { IsElapsed elapsed }
    requires grants { 1 ≤ limit }
    requires limit { limit ≤ MAX_RATE }
    requires budget { IsBudget budget }
    requires transactions { transactions ≤ MAX_COUNT }
    ensures { result ≡ div_ceil (lacking limit budget transactions) (elapsed * limit) }
{
    let lacking = (transactions * RATE_WINDOW).saturating_sub(limit * RATE_WINDOW + budget);
    lacking.div_ceil(elapsed * limit)
}
