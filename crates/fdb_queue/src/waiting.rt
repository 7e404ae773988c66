//! The requests that wait: a list for each priority, and the row that the three make up; and those
//! that wait no more.

ghost use Rattle.std.specs.Prelude.{◌≡◌, [], ◌+◌, ◌<◌, ◌^◌, ◌==◌, ◌++◌, not, length, take, drop};
ghost use Rattle.std.specs.Prelude.{vec_len, vec_capacity, IsOk, IfOk, ◌≤◌, if◌then◌else◌, OnOk};
ghost use Rattle.std.specs.Prelude.{OnErr, IfErr};
ghost use Rattle.std.specs.Option.{option_copied};
ghost use Rattle.fdb_queue.specs.Admission.{below, without_oldest};
ghost use Rattle.fdb_queue.specs.Config.{IsConfig};
ghost use Rattle.fdb_queue.specs.Kept.{IsQueue};
ghost use Rattle.fdb_queue.specs.NewRates.{staying, turned_away};
ghost use Rattle.fdb_queue.specs.private.Reach.{IsReach};
ghost use Rattle.fdb_queue.specs.Waiting.{nothing, row, first, with_last, without_first};

use crate::config::QueueConfig;
use crate::error::QueueError;
use crate::window::{Budgets, Walk};
use fdb_history::Priority;
use std::alloc::{AllocError, AllocFailed, Global};
use std::collections::VecDeque;
use std::marker::Model;

/// How many requests of each priority wait.
#[derive(Clone, Copy, Debug, PartialEq, Eq)]
pub struct Lengths {
    pub system: usize,
    pub default_: usize,
    pub batch: usize,
}

/// How far a window comes in the row.
#[derive(Clone, Copy)]
pub(crate) struct Reach {
    /// How many requests of each priority it starts.
    pub(crate) counts: Lengths,
    /// How many transactions of system and default requests, for which the normal rate pays.
    pub(crate) unbatched: u64,
    /// How many transactions of all three priorities, for which the batch rate pays.
    pub(crate) all: u64,
}

/// The requests that wait: a list for each priority, in which the oldest is the first.
#[derive(Drop)]
pub(crate) struct Waiting<T> {
    system: VecDeque<Req<T>>,
    default_: VecDeque<Req<T>>,
    batch: VecDeque<Req<T>>,
}

impl<T> Model for Waiting<T> {
    ghost use Rattle.fdb_queue.specs.Kept.{IsQueue};
    ghost use Rattle.fdb_queue.specs.private.Reach.{IsReach};
    ghost use Rattle.fdb_queue.specs.Waiting.{Requests};

    ghost Value = { Requests T };

    ghost view = { λ waiting.
        record {
          system = waiting.system.items;
          default_ = waiting.default_.items;
          batch = waiting.batch.items;
        } };
}

impl<T> Waiting<T> {
    /// Three lists with no request, which take no memory.
    pub(crate) fn new(alloc: Global) -> Self
        ensures { result ≡ nothing }
    {
        Waiting {
            system: VecDeque::new(alloc),
            default_: VecDeque::new(alloc),
            batch: VecDeque::new(alloc),
        }
    }

    /// How many requests of each priority there are.
    pub(crate) fn lengths(&self) -> Lengths
        ensures system { result.system ≡ length self.now.system }
        ensures default_ { result.default_ ≡ length self.now.default_ }
        ensures batch { result.batch ≡ length self.now.batch }
    {
        Lengths {
            system: self.system.len(),
            default_: self.default_.len(),
            batch: self.batch.len(),
        }
    }

    pub(crate) fn allocator(&self) -> Global {
        *self.system.allocator()
    }

    /// How many requests wait at all priorities together, which the capacity bounds.
    pub(crate) fn len(&self) -> usize
        requires { length (row self.now) < 2 ^ 62 }
        ensures { result ≡ length (row self.now) }
    {
        self.system.len() + self.default_.len() + self.batch.len()
    }

    /// The first of the row: the oldest request of the highest priority at which one waits.
    pub(crate) fn head(&self) -> Option<&Req<T>>
        ensures { option_copied result ≡ first (row self.now) }
    {
        if let Some(head) = self.system.front() {
            return Some(head);
        }
        if let Some(head) = self.default_.front() {
            return Some(head);
        }
        self.batch.front()
    }

    /// Whether there are requests that one of this priority may push out.
    pub(crate) fn has_below(&self, priority: Priority) -> bool
        ensures { result ≡ not (length (below priority self.now) == 0) }
    {
        match priority {
            Priority::System => !self.batch.is_empty() || !self.default_.is_empty(),
            Priority::Default => !self.batch.is_empty(),
            Priority::Batch => false,
        }
    }

    /// Adds a request to its list, or hands it back where memory is refused.
    pub(crate) fn push(&mut self, request: Req<T>) -> Result<(), AllocFailed<Req<T>>>
        ensures ok { OnOk result (self.new ≡ with_last self.old request request.priority) }
        ensures err { OnErr result (self.new ≡ self.old) }
        ensures handed_back { IfErr result (λ refused. refused.value ≡ request) }
    {
        match request.priority {
            Priority::System => self.system.push_back(request),
            Priority::Default => self.default_.push_back(request),
            Priority::Batch => self.batch.push_back(request),
        }
    }

    /// Takes out the oldest batch request, or the oldest default one where there is none.
    pub(crate) fn pop_lowest(&mut self) -> Option<Req<T>>
        ensures out { result ≡ first (self.old.batch ++ self.old.default_) }
        ensures rest { self.new ≡ without_oldest self.old }
    {
        if self.batch.is_empty() {
            return self.default_.pop_front();
        }
        self.batch.pop_front()
    }

    /// Takes out the first of the row, whatever the rates say of it.
    pub(crate) fn pop_first(&mut self) -> Option<Req<T>>
        ensures out { result ≡ first (row self.old) }
        ensures rest { self.new ≡ without_first self.old }
    {
        if !self.system.is_empty() {
            return self.system.pop_front();
        }
        if self.default_.is_empty() {
            return self.batch.pop_front();
        }
        self.default_.pop_front()
    }

    /// How far a window comes in the row. It takes nothing out.
    pub(crate) fn reach(&self, config: &QueueConfig, budgets: &Budgets) -> Reach
        requires { IsQueue {T = T}
            (record {
              config = config.now;
              waiting = self.now;
              budgets = budgets.now;
              throttles = [];
            }) }
        ensures { IsReach {T = T}
            (record {
              config = config.now;
              waiting = self.now;
              budgets = budgets.now;
              throttles = [];
            }) result }
    {
        let system = Walk::NEW.along(config, budgets, &self.system);
        let default_ = system.along(config, budgets, &self.default_);
        let batch = default_.along(config, budgets, &self.batch);
        Reach {
            counts: Lengths {
                system: system.requests as usize,
                default_: (default_.requests - system.requests) as usize,
                batch: (batch.requests - default_.requests) as usize,
            },
            unbatched: default_.transactions,
            all: batch.transactions,
        }
    }

    /// Takes so many requests from the front of each list, in the order of the row. The memory for
    /// them is asked for first: where it is refused, all is as it was.
    pub(crate) fn take_front(&mut self, counts: Lengths) -> Result<Vec<Req<T>>, AllocError>
        requires system { counts.system ≤ length self.old.system }
        requires default_ { counts.default_ ≤ length self.old.default_ }
        requires batch { counts.batch ≤ length self.old.batch }
        requires together { counts.system + counts.default_ + counts.batch < 2 ^ 62 }
        ensures taken { IfOk result
            (λ taken. taken.items ≡ take counts.system self.old.system
            ++ take counts.default_ self.old.default_ ++ take counts.batch self.old.batch) }
        ensures left { OnOk result
            (self.new ≡ record {
              system = drop counts.system self.old.system;
              default_ = drop counts.default_ self.old.default_;
              batch = drop counts.batch self.old.batch;
            }) }
        ensures err { OnErr result (self.new ≡ self.old) }
        ensures none { counts.system + counts.default_ + counts.batch ≡ 0 → IsOk result }
    {
        let count = counts.system + counts.default_ + counts.batch;
        let mut taken = Vec::with_capacity(self.allocator(), count)?;
        move_front(&mut self.system, counts.system, &mut taken);
        move_front(&mut self.default_, counts.default_, &mut taken);
        move_front(&mut self.batch, counts.batch, &mut taken);
        Ok(taken)
    }

    /// Takes out the batch requests that may not wait under a configuration, in order, each with
    /// why. The memory for them is asked for first: where it is refused, all is as it was.
    pub(crate) fn turn_away(
        &mut self,
        config: &QueueConfig,
    ) -> Result<Vec<TurnedAway<T>>, AllocError>
        requires { IsConfig config.now }
        ensures out { IfOk result (λ out. out.items ≡ turned_away config.now self.old.batch) }
        ensures left { OnOk result
            (self.new ≡ record self.old { batch = staying config.now self.old.batch }) }
        ensures err { OnErr result (self.new ≡ self.old) }
        ensures some { OnErr result (0 < length (turned_away config.now self.old.batch)) }
    {
        let count = count_turned_away(&self.batch, config);
        let mut out = Vec::with_capacity(self.allocator(), count)?;
        move_turned_away(&mut self.batch, config, &mut out);
        Ok(out)
    }
}

/// How many of some requests may not wait under a configuration.
fn count_turned_away<T>(list: &VecDeque<Req<T>>, config: &QueueConfig) -> usize
    requires { IsConfig config.now }
    ensures { result ≡ length (turned_away config.now list.now.items) }
{
    let mut count = 0;
    for request in list.iter() {
        if config.refusal_of(request).is_some() {
            count += 1;
        }
    }
    count
}

/// Moves those requests out of a list that may not wait under a configuration, each with why.
fn move_turned_away<T>(
    list: &mut VecDeque<Req<T>>,
    config: &QueueConfig,
    out: &mut Vec<TurnedAway<T>>,
)
    requires config { IsConfig config.now }
    requires room { vec_len out.old + length (turned_away config.now list.old.items)
        ≤ vec_capacity out.old }
    ensures out { out.new.items ≡ out.old.items ++ turned_away config.now list.old.items }
    ensures left { list.new.items ≡ staying config.now list.old.items }
{
    for _ in 0..list.len() {
        if let Some(next) = list.pop_front() {
            match config.refusal_of(&next) {
                Some(cause) => out.push_reserved(TurnedAway {
                    cause,
                    request: next,
                }),
                None => list.push_back_reserved(next),
            }
        }
    }
}

/// Moves so many requests from the front of a list.
fn move_front<T>(list: &mut VecDeque<Req<T>>, count: usize, taken: &mut Vec<Req<T>>)
    requires count { count ≤ length list.old.items }
    requires room { vec_len taken.old + count ≤ vec_capacity taken.old }
    ensures taken { taken.new.items ≡ taken.old.items ++ take count list.old.items }
    ensures left { list.new.items ≡ drop count list.old.items }
    ensures len { vec_len taken.new ≡ vec_len taken.old + count }
    ensures capacity { vec_capacity taken.new ≡ vec_capacity taken.old }
{
    for _ in 0..count {
        if let Some(request) = list.pop_front() {
            taken.push_reserved(request);
        }
    }
}

/// A request for a read version, as the queue sees it. Its payload comes out as it went in.
#[derive(Debug, PartialEq, Eq, Drop)]
pub struct Req<T> {
    /// Decides in which list the request waits, and which rates hold it back.
    pub priority: Priority,
    /// How many transactions start with it, which is what the rates count.
    pub count: u64,
    pub payload: T,
}

/// A request that waits no more and does not start, and why.
#[derive(Debug, PartialEq, Eq, Drop)]
pub struct TurnedAway<T> {
    pub cause: QueueError,
    pub request: Req<T>,
}
