//! Queues. Each line of a text is a call, and behind `=>` what it is answered:
//!
//! - `with` tells a throttle (priority, tag, rate and expiry); `made` opens a queue (its normal and
//! its batch limit, and its room) with copies of those that were told, and `set` sets these;
//! - `offer` has a priority, a count and a payload: `in`, or the payload that was pushed `out`;
//! - `skip` has a time: how many idle windows were held at once, and behind a bar the budgets;
//! - `limits` has a priority and a moment: how many limits the tags of the `tag` lines before it
//! have, and the rate and the expiry of the last.
//!
//! A tag is a word, or `of` and how many bytes it has, or `nr` and a number. What is refused is
//! answered by its cause. All other calls, and more of these, are made from C and from Python.

use crate::words::{say_cause, tag_of_bytes};
use fdb_checks::{Player, TableLine, plays};
use fdb_history::{Sequence, Tag};
use fdb_queue::{GrvQueue, QueueConfig, QueueError, Req, Throttle};
use std::alloc::Global;
use std::mem;
use std::test::Fail;

/// A queue, and what the next one is made with or the next limits are asked for.
#[derive(Drop)]
pub(crate) struct Queue {
    alloc: Global,
    queue: GrvQueue<u32>,
    throttles: Vec<Throttle>,
    tags: Vec<Tag>,
}

impl Queue {
    /// A queue whose limits and room are 1.
    pub(crate) fn new(alloc: Global) -> Result<Queue, QueueError> {
        let config = QueueConfig {
            normal: 1,
            batch: 1,
            room: 1,
        };
        Ok(Queue {
            alloc,
            queue: GrvQueue::new(alloc, config)?,
            throttles: Vec::new(alloc),
            tags: Vec::new(alloc),
        })
    }

    /// Makes a queue with copies of the throttles that were told.
    fn made(&mut self, line: &mut TableLine<'_>) {
        let config = QueueConfig {
            normal: line.number(),
            batch: line.number(),
            room: line.number(),
        };
        let throttles = mem::replace(&mut self.throttles, Vec::new(self.alloc));
        let Ok(copies) = throttles.clone() else {
            line.refuse();
            return;
        };
        line.holds(copies == throttles, "another copy");
        match GrvQueue::with_throttles(self.alloc, config, &copies) {
            Ok(made) => {
                self.queue = made;
                self.tags = Vec::new(self.alloc);
                line.say("ok");
            }
            Err(cause) => say_cause(line, cause, cause == QueueError::Memory),
        }
    }

    fn set(&mut self, line: &mut TableLine<'_>) {
        let throttles = mem::replace(&mut self.throttles, Vec::new(self.alloc));
        for throttle in throttles {
            let Throttle {
                priority,
                tag,
                rate,
                expires,
            } = throttle;
            match self.queue.set_throttle(priority, tag, rate, expires) {
                Ok(()) => line.say("ok"),
                Err(cause) => say_cause(line, cause, cause == QueueError::Memory),
            }
        }
    }

    fn offer(&mut self, line: &mut TableLine<'_>) {
        let request = Req {
            priority: line.priority(),
            count: line.number(),
            payload: line.who(),
        };
        match self.queue.offer(request) {
            Ok(None) => line.say("in"),
            Ok(Some(Req { payload, .. })) => line.say(format_args!("out {payload}")),
            Err((cause, _)) => say_cause(line, cause, cause == QueueError::Memory),
        }
    }

    fn skip(&mut self, line: &mut TableLine<'_>) {
        let windows = self.queue.skip_idle(line.number());
        let budgets = self.queue.budgets();
        line.say(format_args!("{windows} | {} {}", budgets.normal, budgets.batch));
    }

    fn limits(&mut self, line: &mut TableLine<'_>) {
        let tags = mem::replace(&mut self.tags, Vec::new(self.alloc));
        let priority = line.priority();
        match self.queue.throttles(priority, &tags, line.number()) {
            Ok(limits) => {
                line.say(limits.len());
                line.say(limits.last().map_or(0, |limit| limit.rate));
                line.say(limits.last().map_or(0, |limit| limit.expires));
            }
            Err(cause) => say_cause(line, cause, cause == QueueError::Memory),
        }
    }
}

impl Player for Queue {
    fn called(&mut self, call: &str, line: &mut TableLine<'_>) {
        match call {
            "with" => {
                let throttle = Throttle {
                    priority: line.priority(),
                    tag: tag_of(line),
                    rate: line.number(),
                    expires: line.number(),
                };
                line.takes(self.throttles.push(throttle));
            }
            "made" => self.made(line),
            "set" => self.set(line),
            "offer" => self.offer(line),
            "skip" => self.skip(line),
            "tag" => {
                let tag = tag_of(line);
                line.takes(self.tags.push(tag));
            }
            "limits" => self.limits(line),
            _ => line.fails("no call"),
        }
    }
}

fn tag_of(line: &mut TableLine<'_>) -> Tag {
    match line.word() {
        "of" => {
            let bytes = line.number();
            tag_of_bytes(line, bytes)
        }
        "nr" => match line.number().to_string(line.alloc) {
            Ok(digits) => line.tag(digits.as_str()),
            Err(_) => {
                line.lacks();
                Sequence::new(line.alloc)
            }
        },
        word => line.tag(word),
    }
}

/// Throttles and idle windows, and each cause of a refusal as it is printed. Of two throttles of one tag
/// the later counts, also among those that a queue is made with. The greatest count of a request starts
/// by the least rate at last, once 199,998,000,000 of the budget are there; and a batch request of 11
/// lacks 10 transactions by both rates.
const QUEUES: &str = "
with default t 4 9000; with default t 5 5000; with system t 6 9000; made 1 1 2 => ok
tag t; tag u; tag t; limits default 4999 => 2 5 5000; tag t; limits default 5000 => 0 0 0
tag u; tag t; limits system 5000 => 1 6 9000; tag t; limits batch 4999 => 0 0 0
with default t 7 8; with batch t 8 9; set => ok ok; tag t; limits default 7 => 1 7 8
tag t; limits batch 8 => 1 8 9; tag t; limits system 0 => 1 6 9000; limits default 0 => 0 0 0
with batch of 16 7 9; with batch of 15 8 9; made 1 0 1 => ok; tag of 16; limits batch 0 => 1 7 9
with batch of 17 7 9; set => the tag is too long; with batch of 17 7 9; made 1 1 1 => the tag is too long
made 0 0 1 => the configuration is out of range
offer batch 1 0 => batch requests are not let in; offer default 0 0 => the request's count is out of range
skip 1000000 => 0 | 0 0; offer default 100000 7 => in; skip 0 => 0 | 0 0; skip 10000001 => 0 | 0 0
offer default 1 8 => the queue is full
skip 1 => 199998000000 | 199998000000 0; skip 1 => 0 | 199998000000 0
made 1 1 2 => ok; offer batch 11 3 => in; skip 1 => 20000000 | 20000000 20000000
offer batch 11 4 => in; offer system 1 6 => out 3
";

#[test]
fn throttles_and_idle_windows(rt: HostRuntime) -> Result<(), Fail> {
    Ok(plays(rt.alloc(), &mut Queue::new(rt.alloc())?, QUEUES)?)
}
