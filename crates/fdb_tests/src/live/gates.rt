//! Calls at a master by its 64 commit proxies in turn, each held in a lock until the next has come to
//! it. What needs not that lock is called meanwhile.

ghost use Rattle.std.specs.Prelude.{◌≡◌, Contains, IsSome, None, true};
ghost use Rattle.fdb_live.specs.Holding.{versions};
ghost use Rattle.fdb_live.specs.Seen.{origin_of};

use crate::words::plain;
use fdb_checks::{CaseError, comes, holds, stays_away};
use fdb_history::{Ask, Gate, Issued, OpenGate, Place, Record};
use fdb_live::{Epoch, Live, LiveRecord, Master, Opened, Seen};
use std::alloc::{AllocError, Global};
use std::collections::VecDeque;
use std::marker::Brand;
use std::sync::Wait;
use std::sync::atomic::{AtomicBool, AtomicU64, Ordering};
use std::thread::{self, Threads};

/// The most commit proxies there may be, each with a turn in each round.
const PROXIES: u32 = 64;

/// How many turns there are: 18 rounds, so that more turns are had than 1,024. In each second round
/// a version is drawn for each proxy, which are more than 512. The last of the asks are refused,
/// since nobody would be held behind their reports.
pub(crate) const TURNS: u64 = 1_152;

/// How many of the turns in the lock of the asks are answered: 12 rounds.
const ANSWERED: u64 = 768;

/// How often who is held looks whether the next one passes meanwhile.
const LOOKS: u32 = 4;

/// Holds whose turn it is in a lock, until the next one has come to it and waits.
#[derive(Drop)]
pub(crate) struct InTurn {
    /// The lock in which each is held: that of the asks, or that of the reports.
    pub(crate) held: Place,
    /// How many have come to that lock, and how many have passed in it.
    come: AtomicU64,
    passed: AtomicU64,
    /// How many have passed in the other lock.
    beside: AtomicU64,
    /// Somebody passed out of turn, or waited in vain. Nobody waits from then on.
    failed: AtomicBool,
}

impl InTurn {
    /// A gate for the turns in this lock, none of which was had.
    pub(crate) fn new(held: Place) -> InTurn {
        InTurn {
            held,
            come: AtomicU64::new(0),
            passed: AtomicU64::new(0),
            beside: AtomicU64::new(0),
            failed: AtomicBool::new(false),
        }
    }

    /// Waits until whoever had the turn before is held.
    pub(crate) fn waits_until(&self, turn: u64) {
        self.waits_for(&self.passed, turn);
    }

    /// Notes that something is not as it should be, unless it is.
    pub(crate) fn holds(&self, is: bool) {
        if !is {
            self.failed.store(true, Ordering::SeqCst);
        }
    }

    /// Waits until so many are counted.
    fn waits_for(&self, count: &AtomicU64, least: u64) {
        let has_come = || count.load(Ordering::SeqCst) >= least
            || self.failed.load(Ordering::SeqCst);
        self.holds(comes(has_come));
    }

    /// Has whose turn it is come to a lock. To the other one it comes while the next is held.
    pub(crate) fn comes_to(&self, place: Place, turn: u64) {
        let next = turn.saturating_add(1);
        if place == self.held {
            self.come.store(next, Ordering::SeqCst);
        } else if place == Place::ReportHeld {
            self.waits_for(&self.passed, TURNS.min(next.saturating_add(1)));
        }
    }

    /// Whether each turn was had, so many called beside it, and nothing was amiss.
    pub(crate) fn was_passed(&self, beside: u64) -> bool {
        self.passed.load(Ordering::SeqCst) == TURNS
            && self.beside.load(Ordering::SeqCst) == beside
            && !self.failed.load(Ordering::SeqCst)
    }
}

impl Gate for InTurn {
    fn pass(&self, place: Place, who: u32) {
        let is_held = place == self.held;
        let count = if is_held { &self.passed } else { &self.beside };
        let turn = count.fetch_add(1, Ordering::SeqCst);
        self.holds(place != Place::ReadAnswered && u64::from(who) == turn % u64::from(PROXIES));
        let next = turn.saturating_add(1);
        if is_held && next < TURNS {
            self.waits_for(&self.come, next.saturating_add(1));
            self.holds(stays_away(LOOKS, || self.passed.load(Ordering::SeqCst) > next));
        }
    }
}

/// The request of a proxy in its turn, and whether it is answered: by the next version or once more;
/// and where the asks are held, some are refused, as number 0 is and one that is too early.
/// In some rounds nothing was processed, in others all. Each second moment is before the last one.
pub(crate) fn request(held: Place, turn: u64, proxy: u32) -> (Ask, bool)
    ensures { result.0.proxy ≡ proxy }
{
    let round = turn / u64::from(PROXIES);
    let drawn = (round + 1) / 2;
    let kind = match round % 2 {
        0 => 0,
        _ if held == Place::SequencerHeld => round / 2 % 3 + 1,
        _ => 1,
    };
    let num = match kind {
        0 => drawn + 1,
        1 => drawn,
        2 => 0,
        _ => u64::MAX,
    };
    let ask = Ask {
        proxy,
        num,
        processed: if round % 8 < 4 { 0 } else { drawn },
        at: turn ^ 1,
    };
    (ask, kind < 2)
}

/// The first version. Those that are drawn go on beyond 2^32.
const FIRST: u64 = 4_294_967_000;

/// What is reported of a version in a turn: in rounds by two, all ways to have a lock, a metadata
/// version and a minimum or none.
fn record_of(version: u64, turn: u64) -> Record
    ensures { result.version ≡ version }
{
    let kind = turn / u64::from(PROXIES) / 2 % 8;
    Record {
        version,
        locked: kind % 2 == 1,
        metadata: (kind / 2 % 2 == 1).then_some([8; 10]),
        min_known: if kind > 3 { version } else { 0 },
    }
}

/// What two threads call, with the tokens of every second proxy.
#[derive(Drop)]
struct Calls<'a, S: Live, R> {
    rt: &'a R,
    master: &'a Master<S>,
    gate: &'a InTurn,
}

impl<S: Live, R: Wait> Calls<'_, S, R> {
    /// Has every second turn, from the first one or the one after it, with the tokens in turn.
    fn play(&self, tokens: &mut VecDeque<Seen<S>>, first: bool) {
        let mut position = 0;
        for place in 0..TURNS / 2 {
            let turn = if first { 2 * place } else { 2 * place + 1 };
            self.gate.waits_until(turn);
            let Some(mut own) = tokens.pop_front() else {
                self.gate.holds(false);
                return;
            };
            if let Some(other) = tokens.front_mut() {
                self.meet_beside(&mut own, other);
                self.learn_beside(&mut own, other);
            }
            self.read_beside(&mut own, position);
            self.ask_beside(&mut own);
            position = self.call(&mut own, turn);
            self.gate.holds(tokens.push_back(own).is_ok());
        }
    }

    /// Compares tokens of less and of more, with and without a number.
    fn meet_beside(&self, less: &mut Seen<S>, more: &mut Seen<S>) {
        let live = self.master.record();
        let (mut one, mut another) = (live.split(less), live.split(more));
        live.meet(self.rt, less, more);
        live.meet(self.rt, more, less);
        live.meet(self.rt, less, &mut another);
        live.meet(self.rt, &mut another, less);
        live.meet(self.rt, &mut one, &mut another);
        live.meet(self.rt, &mut another, &mut one);
        live.meet(self.rt, &mut one, less);
    }

    /// Learns more, as much and less, with a number and without.
    fn learn_beside(&self, less: &mut Seen<S>, more: &mut Seen<S>) {
        let live = self.master.record();
        let (mut one, mut another) = (live.split(less), live.split(more));
        live.learn(self.rt, &mut another, live.split(less));
        live.learn(self.rt, more, live.split(less));
        live.learn(self.rt, &mut one, live.split(more));
        live.learn(self.rt, &mut one, another);
        live.learn(self.rt, less, one);
        live.learn(self.rt, less, live.split(more));
    }

    /// Reads with a number and without, as who has seen less and who has seen all. Where a report is
    /// held, nothing of it is seen.
    fn read_beside(&self, token: &mut Seen<S>, position: u64) {
        let live = self.master.record();
        let mut reader = live.split(token);
        let found = live.read(self.rt, token).position;
        self.gate
            .holds(self.gate.held != Place::ReportHeld || found == position);
        for _ in 0..2 {
            live.read(self.rt, &mut reader);
            live.read(self.rt, token);
        }
    }

    /// Where a report is held, makes requests that are refused: of number 0 and too early, where
    /// nothing was processed and where something was.
    fn ask_beside(&self, token: &mut Seen<S>) {
        if self.gate.held != Place::ReportHeld {
            return;
        }
        for (num, processed) in [(0, 0), (0, 1), (u64::MAX, 0), (u64::MAX, 1)] {
            self.ask_in_vain(token, num, processed);
        }
    }

    fn ask_in_vain(&self, token: &mut Seen<S>, num: u64, processed: u64) {
        let Some(proxy) = token.reporter() else {
            self.gate.holds(false);
            return;
        };
        let ask = Ask {
            proxy,
            num,
            processed,
            at: 0,
        };
        let found = self.master.ask(self.rt, &OpenGate, token, ask);
        self.gate.holds(found.is_err());
    }

    /// Asks, and reports what is answered. Answers the position then.
    fn call(&self, token: &mut Seen<S>, turn: u64) -> u64 {
        let Some(proxy) = token.reporter() else {
            self.gate.holds(false);
            return 0;
        };
        let (ask, is_answered) = request(self.gate.held, turn, proxy);
        self.gate.comes_to(Place::SequencerHeld, turn);
        let found = self.master.ask(self.rt, self.gate, token, ask);
        self.gate.holds(found.is_ok() == is_answered);
        match found {
            Ok(issued) => self.report(token, proxy, issued, turn),
            Err(_) => 0,
        }
    }

    fn report(&self, token: &mut Seen<S>, proxy: u32, issued: Issued, turn: u64) -> u64
        requires numbered { IsSome token.old.reporter }
        requires drawn { Contains (versions token.old.answers) issued.version }
    {
        self.gate.comes_to(Place::ReportHeld, turn);
        let rec = record_of(issued.version, turn);
        let live = self.master.record();
        let found = live.report(self.rt, self.gate, proxy, token, rec);
        self.gate.holds(found.is_ok());
        token.position()
    }
}

/// Whether all have their turns in a lock.
fn are_in_turn<S: Live + Send + Sync, R: Threads + Wait + Sync>(
    rt: &R,
    alloc: Global,
    opened: Opened,
    held: Place,
) -> Result<bool, AllocError>
    requires chained { S.chained ≡ true }
    requires opened { opened
        ≡ origin_of S.table S.start S.reporters S.chained S.epoch_end S.recovery }
{
    let Ok((master, _, tokens)) = opened.master::<S>() else {
        return Err(AllocError);
    };
    let (mut evens, mut odds) = (VecDeque::new(alloc), VecDeque::new(alloc));
    for token in tokens {
        if evens.len() == odds.len() {
            evens.push_back(token)?;
        } else {
            odds.push_back(token)?;
        }
    }
    let gate = InTurn::new(held);
    let calls = Calls {
        rt,
        master: &master,
        gate: &gate,
    };
    thread::join(
        rt,
        || calls.play(&mut evens, true),
        || calls.play(&mut odds, false),
    );
    let all = held == Place::ReportHeld;
    Ok(gate.was_passed(if all { TURNS } else { ANSWERED }))
}

/// Has all commit proxies of a master have turns in a lock, in which each is held.
pub(crate) fn have_turns<R: Threads + Wait + Sync>(
    rt: &R,
    alloc: Global,
    held: Place,
) -> Result<(), CaseError> {
    let epoch = Epoch {
        before: 0,
        recovery: FIRST,
    };
    match LiveRecord::<Brand>::open(rt, alloc, plain(FIRST), PROXIES, Some(epoch)) {
        Ok(opened) => {
            let are = are_in_turn::<Brand, R>(rt, alloc, opened, held)?;
            Ok(holds(are, &format_args!("{held:?}"))?)
        }
        Err(_) => Err(CaseError::Memory),
    }
}
