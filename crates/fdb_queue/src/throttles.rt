//! The throttles of tags: what was last set for each priority and tag.

ghost use Rattle.std.specs.Prelude.{◌≡◌, ◌<◌, [], ◌∷◌, length, reverse, OnOk, OnErr, IfOk};
ghost use Rattle.std.specs.Prelude.{option_map, option_to_list, ℕ, List, All};
ghost use Rattle.std.specs.List.{list_all};
ghost use Rattle.fdb_queue.specs.Throttles.{is_throttle, last_set, limits_of, unexpired};
ghost use Rattle.fdb_queue.specs.Throttles.{IsLeftAt, SameThrottles, still_set};
ghost use Rattle.fdb_queue.specs.private.Kinds.{kept_for};
ghost use Rattle.fdb_history.specs.declared.log.Priority.{Priority};

use crate::config::MAX_TAG;
use fdb_history::{Priority, Tag, TagLimit};
use std::alloc::{AllocError, Global};
use std::collections::BTreeMap;
use std::marker::Model;

/// A throttle that a queue is given: a rate for the transactions with a tag at a priority.
#[derive(Clone, Debug, Drop, PartialEq, Eq)]
pub struct Throttle {
    /// The priority of the requests that it is for.
    pub priority: Priority,
    /// The tag, of at most `MAX_TAG` bytes.
    pub tag: Tag,
    /// How many transactions with the tag may start a second.
    pub rate: u64,
    /// The moment from which on it holds no longer, in microseconds.
    pub expires: u64,
}

impl Throttle {
    /// Whether its tag has at most `MAX_TAG` bytes.
    pub fn is_in_range(&self) -> bool
        ensures { result ≡ is_throttle self.now }
    {
        self.tag.len() as u64 <= MAX_TAG
    }
}

/// Whether the tag of each of these has at most `MAX_TAG` bytes.
pub(crate) fn are_in_range(throttles: &[Throttle]) -> bool
    ensures { result ≡ list_all is_throttle throttles.now }
{
    throttles.iter().all(|throttle| throttle.is_in_range())
}

/// A clone of a throttle, with the clause that it is the same.
fn copy_of(throttle: &Throttle) -> Result<Throttle, AllocError>
    ensures { IfOk result (λ copy. copy ≡ throttle.now) }
{
    throttle.clone()
}

/// What is kept under a tag: a rate in transactions a second, and the moment in microseconds from
/// which on it holds no longer.
#[derive(Clone, Copy)]
struct Limit {
    rate: u64,
    expires: u64,
}

/// The throttles that were set last for each tag, by priority.
#[derive(Drop)]
pub(crate) struct Throttles {
    system: BTreeMap<Vec<u8>, Limit>,
    default_: BTreeMap<Vec<u8>, Limit>,
    batch: BTreeMap<Vec<u8>, Limit>,
}

impl Model for Throttles {
    ghost use Rattle.std.specs.Prelude.{List};
    ghost use Rattle.fdb_queue.specs.declared.throttles.Throttle.{Throttle};

    ghost Value = { List Throttle };

    ghost use Rattle.fdb_queue.specs.private.Kinds.{all_of};

    ghost view = { λ throttles. all_of throttles.system throttles.default_ throttles.batch };
}

impl Throttles {
    /// No throttle at any priority. Takes no memory.
    pub(crate) fn new(alloc: Global) -> Self
        ensures { result ≡ [] }
    {
        Throttles {
            system: BTreeMap::new(alloc),
            default_: BTreeMap::new(alloc),
            batch: BTreeMap::new(alloc),
        }
    }

    /// The throttles of a list, set one after another: of two for one priority and tag the later
    /// counts.
    pub(crate) fn of(alloc: Global, throttles: &[Throttle]) -> Result<Self, AllocError>
        ensures { IfOk result (λ kept. SameThrottles kept (reverse throttles.now)) }
    {
        let mut kept = Throttles::new(alloc);
        for throttle in throttles {
            kept.set(copy_of(throttle)?)?;
        }
        Ok(kept)
    }

    /// Sets the throttle of a priority and a tag. Where memory is refused, nothing has changed.
    pub(crate) fn set(&mut self, throttle: Throttle) -> Result<(), AllocError>
        ensures ok { OnOk result (SameThrottles self.new (throttle ∷ self.old)) }
        ensures err { OnErr result (self.new ≡ self.old) }
    {
        let kept = Limit {
            rate: throttle.rate,
            expires: throttle.expires,
        };
        let tag = throttle.tag.into_vec();
        match throttle.priority {
            Priority::System => self.system.insert(tag, kept)?,
            Priority::Default => self.default_.insert(tag, kept)?,
            Priority::Batch => self.batch.insert(tag, kept)?,
        };
        Ok(())
    }

    /// Forgets each throttle that holds no longer at a moment. Takes no memory.
    pub(crate) fn forget(&mut self, at: u64)
        ensures left { IsLeftAt at self.new self.old }
        ensures forgotten { All (λ throttle. at < throttle.expires) self.new }
    {
        forget_in(&mut self.system, at);
        forget_in(&mut self.default_, at);
        forget_in(&mut self.batch, at);
    }

    /// What was last set for a priority and a tag: the rate and the expiry.
    fn get(&self, priority: Priority, tag: &Tag) -> Option<Limit>
        ensures { option_map
            (λ kept. record { tag = tag.now; rate = kept.rate; expires = kept.expires }) result
            ≡ last_set self.now priority tag.now }
    {
        match priority {
            Priority::System => self.system.get(tag.as_slice()).copied(),
            Priority::Default => self.default_.get(tag.as_slice()).copied(),
            Priority::Batch => self.batch.get(tag.as_slice()).copied(),
        }
    }

    /// The limit of a tag at a moment, if there is one. Memory is asked for only where there is.
    fn limit(&self, priority: Priority, tag: &Tag, at: u64) -> Result<Option<TagLimit>, AllocError>
        ensures ok { IfOk result
            (λ limit. option_to_list limit ≡ unexpired at (last_set self.now priority tag.now)) }
        ensures err { OnErr result
            (0 < length (unexpired at (last_set self.now priority tag.now))) }
    {
        let Some(kept) = self.get(priority, tag) else {
            return Ok(None);
        };
        if kept.expires <= at {
            return Ok(None);
        }
        Ok(Some(TagLimit {
            tag: tag.clone()?,
            rate: kept.rate,
            expires: kept.expires,
        }))
    }

    /// The limits of some tags at a moment, in order. Memory is asked for only where one is due.
    pub(crate) fn limits(
        &self,
        alloc: Global,
        priority: Priority,
        tags: &[Tag],
        at: u64,
    ) -> Result<Vec<TagLimit>, AllocError>
        ensures ok { IfOk result
            (λ limits. limits.items ≡ limits_of self.now priority at tags.now) }
        ensures err { OnErr result (0 < length (limits_of self.now priority at tags.now)) }
    {
        let mut limits = Vec::new(alloc);
        for tag in tags {
            let Some(limit) = self.limit(priority, tag, at)? else {
                continue;
            };
            limits.push(limit)?;
        }
        Ok(limits)
    }
}

/// Forgets what holds no longer at a moment.
fn forget_in(kept: &mut BTreeMap<Vec<u8>, Limit>, at: u64)
    ensures left { (priority : Priority) (tag : List ℕ)
        → last_set (kept_for priority kept.new.entries) priority tag
        ≡ still_set at (last_set (kept_for priority kept.old.entries) priority tag) }
    ensures forgotten { All (λ entry. at < entry.1.expires) kept.new.entries }
{
    kept.retain(|_, limit| limit.expires > at);
}
