//! How often something that takes time is done, and whether enough lines have come since a watch
//! settled last.

ghost use Rattle.std.specs.Prelude.{◌≡◌, Option};
ghost use Rattle.fdb_audit.specs.Following.{sum_of};
ghost use Rattle.fdb_audit.specs.private.Pace.{due_after, is_due_at};

use fdb_lines::{Settled, SettledKey};
use std::time::Clock;

/// Nanoseconds of a second.
pub(crate) const SECOND: u64 = 1_000_000_000;

/// How often something that takes time is done: many times as long as it took passes before it is
/// done again. So it takes a small part of the time, however much there is to do. Moments and spans
/// are in nanoseconds.
#[derive(Clone, Copy, Debug)]
pub(crate) struct Pace {
    /// So many times as long as it took passes.
    pub times: u64,
    /// So much passes in any case.
    pub least: u64,
    /// So much earlier it may be done: what is soon done is done at once.
    pub ahead: u64,
    /// When all that is to pass has passed.
    pub due: u64,
}

impl Pace {
    /// Whether it may be done now. Where the moment is not known it may.
    pub(crate) fn is_due(&self, now: Option<u64>) -> bool
        ensures { result ≡ is_due_at self.now now }
    {
        match now {
            Some(now) => self.due.saturating_sub(self.ahead) <= now,
            None => true,
        }
    }

    /// Notes when it was begun and ended. Where either is not known, nothing has to pass.
    pub(crate) fn note(&mut self, begun: Option<u64>, ended: Option<u64>)
        ensures due { self.new.due ≡ due_after self.old begun ended }
        ensures times { self.new.times ≡ self.old.times }
        ensures least { self.new.least ≡ self.old.least }
        ensures ahead { self.new.ahead ≡ self.old.ahead }
    {
        if let (Some(begun), Some(ended)) = (begun, ended) {
            let took = ended.saturating_sub(begun);
            let pause = took.saturating_mul(self.times).max(self.least);
            self.due = self.due.max(ended).saturating_add(pause);
        }
    }
}

/// What the clock says, in nanoseconds, if it can be read.
pub(crate) fn moment<R: Clock>(rt: &R) -> Option<u64> {
    let now = rt.monotonic().ok()?;
    u64::try_from(now.as_nanos()).ok()
}

/// After so many lines a watch settles, if more is there to be read.
const STRIDE: u64 = 8_192;

/// So many of the lines that are kept may be gone over for each that has come, where that is soon
/// told.
const FOR_EACH: u64 = 16;

/// The lines that have come since a watch settled last. Where none of those that are not judged
/// began before the moment up to which it would settle, it would tell nothing. Lines that are judged
/// and could be let go are kept until then; they are no more than were kept when it settled last.
#[derive(Clone, Copy, Debug)]
pub(crate) struct Unsettled {
    /// How many lines have come.
    came: u64,
    /// How many were kept when it settled, of keys that may yet have something to tell.
    kept: u64,
    /// The first moment at which one that is not judged began.
    first: u64,
    /// How many lines are not judged that had come when it settled.
    unjudged: u64,
}

impl Unsettled {
    /// No line has come.
    pub(crate) fn new() -> Self {
        Unsettled {
            came: 0,
            kept: 0,
            first: u64::MAX,
            unjudged: 0,
        }
    }

    /// No line has come since it settled up to a moment, and told this.
    pub(crate) fn since(settled_to: u64, told: &[SettledKey]) -> Self {
        let mut unsettled = Unsettled::new();
        for entry in told {
            unsettled.keep(settled_to, &entry.settled);
        }
        unsettled
    }

    /// Adds the lines that are kept on of a key.
    fn keep(&mut self, settled_to: u64, settled: &Settled) {
        let lines = settled.log.lines();
        for place in &settled.kept {
            if let Some(line) = lines.get(*place as usize) {
                self.kept = self.kept.saturating_add(1);
                self.note(line.began(), settled_to);
            }
        }
    }

    /// Notes that a line began, if it has not been judged.
    fn note(&mut self, began: u64, settled_to: u64) {
        if began >= settled_to {
            self.first = self.first.min(began);
            self.unjudged = self.unjudged.saturating_add(1);
        }
    }

    /// Adds a line that has come. One that began before what had been settled is judged next, or let
    /// go.
    pub(crate) fn add(&mut self, began: u64) {
        self.came = self.came.saturating_add(1);
        self.first = self.first.min(began);
    }

    /// How many lines are not judged.
    pub(crate) fn open(&self) -> u64
        ensures { result ≡ sum_of self.now.unjudged self.now.came }
    {
        self.unjudged.saturating_add(self.came)
    }

    /// Whether a line that is not judged began before a moment.
    pub(crate) fn is_due(&self, at: u64) -> bool {
        self.first < at
    }

    /// Whether what is certain is to be told: where no more may come for a while, or many lines have.
    pub(crate) fn are_awaited(&self, is_idle: bool) -> bool {
        is_idle || self.came >= STRIDE
    }

    /// Whether so many lines have come that to settle takes little time for each of them.
    pub(crate) fn are_enough(&self, is_idle: bool) -> bool {
        let few = if is_idle {
            self.kept / FOR_EACH
        } else {
            self.kept
        };
        self.came >= few
    }
}
