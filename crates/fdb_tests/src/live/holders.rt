//! Calls on a live record by the holders of its tokens. A token is named by its place: that of a
//! reporter by its number, the first one behind these, and those that are split off behind it. Each
//! line of a text is a call, and behind `=>` what it is answered:
//!
//! - `read` has a token: the record and its position;
//! - `report` has a token and a record: `raised`, `changed` or `same`, and the position, or why it
//! is refused. The gate is passed once, under a number of its own, and not where it is refused;
//! - `split` has a token, `learns` and `meets` have two, and `at` one: the number or `nobody`, and
//! the position, of the new token or of the first;
//! - `threads` has how many reporters there are, whose tokens and all others are given to threads: the
//! last record.

ghost use Rattle.std.specs.Prelude.{◌≡◌, false, Some};

use crate::words::{plain, record, say_cause};
use fdb_checks::{CaseError, TableLine, lines_of, stays_away};
use fdb_history::{Gate, Place};
use fdb_live::{Ack, Live, LiveError, LiveRecord, Seen};
use std::alloc::{AllocError, Global};
use std::sync::Wait;
use std::sync::atomic::{AtomicBool, AtomicU64, Ordering};
use std::thread::{self, Threads};

/// The live record of a service with no chain.
#[derive(Drop)]
pub(crate) struct Bare<S: Live> {
    pub(crate) record: LiveRecord<S>,
    pub(crate) ghost bare: { S.chained ≡ false },
}

/// Counts how often a reporter passes with the lock of the reports, and twice what else passes.
#[derive(Drop)]
struct Passes {
    who: u32,
    passes: AtomicU64,
}

impl Gate for Passes {
    fn pass(&self, place: Place, who: u32) {
        let is_own = place == Place::ReportHeld && who == self.who;
        self.passes
            .fetch_add(if is_own { 1 } else { 2 }, Ordering::SeqCst);
    }
}

/// A live record, and the tokens that nobody calls with just now.
#[derive(Drop)]
pub(crate) struct Holders<'a, S: Live, R> {
    pub(crate) rt: &'a R,
    pub(crate) live: Bare<S>,
    pub(crate) tokens: Vec<Option<Seen<S>>>,
}

impl<'a, S: Live, R: Wait> Holders<'a, S, R> {
    /// The holders of all tokens that a record is opened with.
    pub(crate) fn of(
        rt: &'a R,
        alloc: Global,
        record: LiveRecord<S>,
        first: Seen<S>,
        numbered: Vec<Seen<S>>,
    ) -> Result<Self, AllocError>
        requires { S.chained ≡ false }
    {
        let mut tokens = Vec::new(alloc);
        for token in numbered {
            tokens.push(Some(token))?;
        }
        tokens.push(Some(first))?;
        Ok(Holders {
            rt,
            live: Bare { record },
            tokens,
        })
    }

    /// Makes a call with the token at a place, which nobody else has until it is put back.
    fn call(&mut self, call: &str, line: &mut TableLine<'_>) {
        let place = line.who() as usize;
        let taken = self.tokens.get_mut(place).and_then(|slot| slot.take());
        let Some(mut token) = taken else {
            line.fails("no such token");
            return;
        };
        match call {
            "read" => self.read(&mut token, line),
            "report" => self.report(&mut token, line),
            "split" => self.split(&mut token, line),
            "learns" | "meets" => self.meet(call, &mut token, line),
            "at" => say_token(line, &token),
            _ => line.fails("no call"),
        }
        if let Some(slot) = self.tokens.get_mut(place) {
            *slot = Some(token);
        }
    }

    fn read(&self, token: &mut Seen<S>, line: &mut TableLine<'_>) {
        let fetched = self.live.record.read(self.rt, token);
        line.say(fetched.rec);
        line.say(format_args!("at {}", fetched.position));
    }

    fn report(&self, token: &mut Seen<S>, line: &mut TableLine<'_>) {
        let rec = record(line);
        let Some(number) = token.reporter() else {
            line.fails("no reporter");
            return;
        };
        let who = u32::MAX - number;
        let gate = Passes {
            who,
            passes: AtomicU64::new(0),
        };
        let found = self.live.record.report(self.rt, &gate, who, token, rec);
        let passes = gate.passes.load(Ordering::SeqCst);
        line.holds(passes == u64::from(found.is_ok()), "passes of the gate");
        say_ack(line, found);
    }

    fn split(&mut self, token: &mut Seen<S>, line: &mut TableLine<'_>) {
        let other = self.live.record.split(token);
        say_token(line, &other);
        line.takes(self.tokens.push(Some(other)));
    }

    /// The holder of a token meets that of another, which the next word names, or learns what it has
    /// seen.
    fn meet(&mut self, call: &str, token: &mut Seen<S>, line: &mut TableLine<'_>) {
        if let Some(Some(other)) = self.tokens.get_mut(line.who() as usize) {
            if call == "meets" {
                self.live.record.meet(self.rt, token, other);
            } else {
                let told = self.live.record.split(other);
                self.live.record.learn(self.rt, token, told);
            }
            say_token(line, token);
        }
    }
}

/// Plays a text.
pub(crate) fn play<S: Live + Send + Sync, R: Threads + Wait + Sync>(
    alloc: Global,
    holders: &mut Holders<'_, S, R>,
    text: &str,
) -> Result<(), CaseError> {
    for mut line in lines_of(alloc, text, 0)? {
        match line.word() {
            "threads" => run_all(holders, &mut line),
            call => holders.call(call, &mut line),
        }
        line.ends()?;
    }
    Ok(())
}

/// Says the number and the position of a token.
fn say_token<S: Live>(line: &mut TableLine<'_>, token: &Seen<S>) {
    match token.reporter() {
        Some(number) => line.say(number),
        None => line.say("nobody"),
    }
    line.say(format_args!("at {}", token.position()));
}

/// Says what a report has done to the record, or why it is refused.
fn say_ack(line: &mut TableLine<'_>, found: Result<Ack, LiveError>) {
    match found {
        Ok(ack) => {
            line.say(match (ack.raised, ack.changed) {
                (true, true) => "raised",
                (true, false) => "raised, and not changed",
                (false, true) => "changed",
                (false, false) => "same",
            });
            line.say(format_args!("at {}", ack.position));
        }
        Err(cause) => say_cause(line, cause, cause == LiveError::Memory),
    }
}

/// How many reports or reads each thread makes.
const TURNS: u64 = 500;

/// How often one looks whether another comes while it is at the gate.
const LOOKS: u32 = 20;

/// A gate that each passes alone, since whoever is at it has the lock until its report is done.
#[derive(Drop)]
struct OneByOne {
    passed: AtomicU64,
    /// The sum of the numbers that passed, each of them and 1 more.
    numbers: AtomicU64,
    /// Somebody was not alone, or passed another place.
    failed: AtomicBool,
}

impl OneByOne {
    /// Checks that each of so many reporters has passed as often as it should, and alone.
    fn was_passed(&self, line: &mut TableLine<'_>, reporters: u64) {
        let sum = reporters.saturating_mul(reporters.saturating_add(1));
        let passed = self.numbers.load(Ordering::SeqCst);
        line.holds(passed == sum.saturating_mul(TURNS / 2), "who passed");
        line.holds(!self.failed.load(Ordering::SeqCst), "each passes alone");
    }
}

impl Gate for OneByOne {
    fn pass(&self, place: Place, who: u32) {
        self.numbers.fetch_add(u64::from(who) + 1, Ordering::SeqCst);
        let alone = self.passed.fetch_add(1, Ordering::SeqCst).saturating_add(1);
        let nobody = stays_away(LOOKS, || self.passed.load(Ordering::SeqCst) != alone);
        if !nobody || place != Place::ReportHeld {
            self.failed.store(true, Ordering::SeqCst);
        }
    }
}

/// One that reports if its token has a number, and reads if it has none.
#[derive(Drop)]
struct Worker<S: Live> {
    token: Seen<S>,
    /// The version that it read last, and 0 before it has read.
    version: u64,
    /// How many of its reports raised the record.
    raises: u64,
    /// Whether a position or a version ever fell, or a report was refused.
    failed: bool,
}

impl<S: Live> Worker<S> {
    /// Reports rising versions that no other worker reports, or reads where its token has no number.
    fn work<R: Wait>(&mut self, rt: &R, live: &Bare<S>, gate: &OneByOne, reporters: u64) {
        for turn in 0..TURNS {
            let before = self.token.position();
            match self.token.reporter() {
                Some(who) => {
                    let version = turn.saturating_mul(reporters).saturating_add(101);
                    self.report(rt, live, gate, who, version.saturating_add(u64::from(who)));
                }
                None => self.read(rt, live),
            }
            self.failed |= self.token.position() < before;
        }
    }

    fn report<R: Wait>(&mut self, rt: &R, live: &Bare<S>, gate: &OneByOne, who: u32, version: u64)
        requires { self.old.token.reporter ≡ Some who }
    {
        match live
            .record
            .report(rt, gate, who, &mut self.token, plain(version))
        {
            Ok(ack) => self.raises = self.raises.saturating_add(u64::from(ack.raised)),
            Err(_) => self.failed = true,
        }
    }

    fn read<R: Wait>(&mut self, rt: &R, live: &Bare<S>) {
        let version = live.record.read(rt, &mut self.token).rec.version;
        self.failed |= version < self.version;
        self.version = version;
    }
}

/// A worker for each token.
fn workers_of<S: Live, R: Wait>(
    holders: &mut Holders<'_, S, R>,
    line: &mut TableLine<'_>,
) -> Vec<Worker<S>> {
    let mut workers = Vec::new(line.alloc);
    for token in holders.tokens.iter_mut() {
        if let Some(token) = token.take() {
            line.takes(workers.push(Worker {
                token,
                version: 0,
                raises: 0,
                failed: false,
            }));
        }
    }
    workers
}

/// Every reporter reports rising versions that no other has, and whoever has another token reads beside
/// them. Then the greatest version stands, at the position that counts the raises.
fn run_all<S: Live + Send + Sync, R: Threads + Wait + Sync>(
    holders: &mut Holders<'_, S, R>,
    line: &mut TableLine<'_>,
) {
    let reporters = line.number();
    let mut workers = workers_of(holders, line);
    let gate = OneByOne {
        passed: AtomicU64::new(0),
        numbers: AtomicU64::new(0),
        failed: AtomicBool::new(false),
    };
    let (rt, live, threads) = (holders.rt, &holders.live, workers.len().max(1));
    thread::for_each_mut(
        rt,
        &mut workers,
        threads,
        &|_, worker| {
            worker.work(rt, live, &gate, reporters);
        },
    );
    gate.was_passed(line, reporters);
    let raises = raises_of(line, &workers);
    if let Some(worker) = workers.last_mut() {
        let fetched = holders.live.record.read(holders.rt, &mut worker.token);
        line.holds(fetched.position == raises, "its position");
        line.say(fetched.rec);
    }
}

/// How many reports raised the record. No worker failed.
fn raises_of<S: Live>(line: &mut TableLine<'_>, workers: &[Worker<S>]) -> u64 {
    let mut raises = 0u64;
    for worker in workers {
        line.holds(!worker.failed, "what was seen fell, or was refused");
        raises = raises.saturating_add(worker.raises);
    }
    raises
}
