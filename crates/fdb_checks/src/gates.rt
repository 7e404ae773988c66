//! A gate that holds whoever passes first while something is done beside it, and bounded looks at
//! what other threads do.

use fdb_history::{Gate, Place};
use std::sync::atomic::{AtomicBool, AtomicU64, Ordering};
use std::thread;

/// Waits for what another thread does, for a million looks. Answers whether it was seen.
pub fn comes<F: Fn() -> bool>(has_come: F) -> bool
    requires { F.IsAlwaysCallable has_come }
{
    !stays_away(1_000_000, has_come)
}

/// Looks `looks` times whether another thread has done something. Answers true where it never had.
pub fn stays_away<F: Fn() -> bool>(looks: u32, has_come: F) -> bool
    requires { F.IsAlwaysCallable has_come }
{
    for _ in 0..looks {
        if has_come() {
            return false;
        }
        thread::yield_now();
    }
    true
}

/// Whoever passes first is held until what is done beside it is done, and a little longer. A second
/// one passes only once the call of the first is answered.
#[derive(Drop)]
pub struct HoldsFirst {
    place: Place,
    first: u32,
    second: u32,
    /// The first is at the gate, or its call is answered.
    held: AtomicBool,
    /// What is done beside it is done.
    beside: AtomicBool,
    /// The call of the first is answered, so that the second may pass.
    answered: AtomicBool,
    /// How often the first has passed, and how often the second.
    passes: [AtomicU64; 2],
    /// Somebody else passed, or at another place, or out of turn; or somebody waited in vain.
    failed: AtomicBool,
}

impl HoldsFirst {
    /// A gate at this place for these two, which nobody has passed.
    pub fn new(place: Place, first: u32, second: u32) -> HoldsFirst {
        HoldsFirst {
            place,
            first,
            second,
            held: AtomicBool::new(false),
            beside: AtomicBool::new(false),
            answered: AtomicBool::new(false),
            passes: [AtomicU64::new(0), AtomicU64::new(0)],
            failed: AtomicBool::new(false),
        }
    }

    /// Waits until the first is held, or answered without that.
    pub fn waits_until_held(&self) {
        self.waits_for(&self.held);
    }

    /// Notes that what is done beside the first is done.
    pub fn is_done_beside(&self) {
        self.beside.store(true, Ordering::SeqCst);
    }

    /// Notes that the call of the first is answered.
    pub fn is_answered(&self) {
        self.answered.store(true, Ordering::SeqCst);
        self.held.store(true, Ordering::SeqCst);
    }

    /// Whether the first and the second have passed so often, in turn and at the place, and nobody
    /// waited in vain.
    pub fn was_passed(&self, by_first: u64, by_second: u64) -> bool {
        let [first, second] = &self.passes;
        first.load(Ordering::SeqCst) == by_first
            && second.load(Ordering::SeqCst) == by_second
            && !self.failed.load(Ordering::SeqCst)
    }

    /// Waits for a flag of its own, and notes a failure where it does not come.
    fn waits_for(&self, flag: &AtomicBool) {
        let in_vain = !comes(|| flag.load(Ordering::SeqCst));
        self.failed.fetch_or(in_vain, Ordering::SeqCst);
    }
}

impl Gate for HoldsFirst {
    /// Holds the first, who looks a hundred times whether the second passes meanwhile.
    fn pass(&self, place: Place, who: u32) {
        let [first, second] = &self.passes;
        let mut right = place == self.place;
        if who == self.first {
            first.fetch_add(1, Ordering::SeqCst);
            self.held.store(true, Ordering::SeqCst);
            self.waits_for(&self.beside);
            right &= stays_away(100, || second.load(Ordering::SeqCst) > 0);
        } else {
            second.fetch_add(1, Ordering::SeqCst);
            self.waits_for(&self.answered);
            right &= who == self.second;
        }
        self.failed.fetch_or(!right, Ordering::SeqCst);
    }
}
