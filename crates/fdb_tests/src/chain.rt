//! Chains of commit versions, alone and behind the lock of a sequencer. Each line of a text is a
//! call, and behind `=>` what it is answered:
//!
//! - `new` opens a chain (the end of the epoch before, the recovery version, and how many commit
//! proxies), and `behind` one for so many proxies behind a lock, of a service that begins with 100;
//! `used` puts one there that has answered the first request of proxy 0;
//! - `ask` has the members of a request (the proxy, the number, what was processed, the moment): the
//! ordinal, the version before, the version and the moment of the answer, and `fresh` or `kept`, or
//! why there is none;
//! - `patient` has nothing: from here on each request that is refused memory is made once more;
//! - `stand` has nothing: how many answers stand, once the lock is gone.
//!
//! Copies of lists, and the replies that are kept. Each line of a text is a call, and behind `=>` what
//! it is answered:
//!
//! - `copies` has how many tags a read has, and how many bytes each of them and the tag of a limit
//! has: how many tags its copy has;
//! - `of_each` makes replies for so many commit proxies, and `keep` keeps an answer among them; `kept`
//! has a proxy and a number: its place.

ghost use Rattle.std.specs.Prelude.{◌≡◌, IfOk};

use crate::words::{issued, say_cause, tag_of_bytes, untagged};
use fdb_chain::{ChainCore, ChainError, RecentChain, Sequencer};
use fdb_checks::{CaseError, HoldsFirst, Player, TableLine, lines_of, plays};
use fdb_history::{Ask, Issued, OpenGate, Place, Replies, Service, TagLimit};
use std::alloc::Global;
use std::sync::Wait;
use std::test::Fail;
use std::thread::{self, Threads};

/// A service whose epoch begins with version 100, after one that ended with 0.
pub(crate) struct FromHundred;

impl Service for FromHundred {
    ghost use Rattle.std.specs.Prelude.{None, false};

    ghost epoch_end = { 0 };

    ghost recovery = { 100 };

    ghost start = { record { version = 100; locked = false; metadata = None; min_known = 0 } };

    ghost reporters = { 4 };
}

/// A commit proxy that no sequencer knows: what it asks leaves the chain as it is.
const STRANGER: u32 = 1_000;

/// What is asked.
#[derive(Drop)]
enum Asked {
    Nobody,
    Core(ChainCore),
    Behind(Sequencer<FromHundred>),
}

/// What is asked, and whether a request that is refused memory is made once more.
#[derive(Drop)]
pub(crate) struct Chain<'a, R> {
    rt: &'a R,
    asked: Asked,
    patient: bool,
}

/// A chain that has answered the first request of proxy 0.
fn used_chain(alloc: Global, proxies: u32) -> Result<RecentChain, ChainError>
    ensures { IfOk result (λ core. (core.epoch_end ≡ 0) × (core.recovery ≡ 100)) }
{
    let mut core = RecentChain::new(alloc, 0, 100, proxies)?;
    core.ask(Ask {
        proxy: 0,
        num: 1,
        processed: 0,
        at: 0,
    })?;
    Ok(core)
}

impl<'a, R: Wait> Chain<'a, R> {
    /// Nothing that could be asked yet.
    pub(crate) fn new(rt: &'a R) -> Self {
        Chain {
            rt,
            asked: Asked::Nobody,
            patient: false,
        }
    }

    fn open(&mut self, line: &mut TableLine<'_>) {
        let (epoch_end, recovery) = (line.number(), line.number());
        match ChainCore::new(line.alloc, epoch_end, recovery, line.who()) {
            Ok(core) => {
                self.asked = Asked::Core(core);
                line.say("ok");
            }
            Err(cause) => say_cause(line, cause, cause == ChainError::Memory),
        }
    }

    fn open_behind(&mut self, line: &mut TableLine<'_>) {
        let opened = RecentChain::new(line.alloc, 0, 100, line.who());
        self.put_behind(opened, line);
    }

    fn put_behind(&mut self, opened: Result<RecentChain, ChainError>, line: &mut TableLine<'_>)
        requires { IfOk opened (λ core. (core.epoch_end ≡ 0) × (core.recovery ≡ 100)) }
    {
        match opened {
            Ok(core) => {
                self.asked = Asked::Behind(Sequencer::new(core));
                line.say("ok");
            }
            Err(cause) => say_cause(line, cause, cause == ChainError::Memory),
        }
    }

    fn open_used(&mut self, line: &mut TableLine<'_>) {
        let opened = used_chain(line.alloc, line.who());
        self.put_behind(opened, line);
    }

    /// Makes a request, with nobody beside it.
    fn answer(&mut self, ask: Ask) -> Result<Issued, ChainError> {
        let tries = if self.patient { 2 } else { 1 };
        for _ in 0..tries {
            let found = match &mut self.asked {
                Asked::Nobody => Err(ChainError::NoProxy),
                Asked::Core(core) => core.ask(ask),
                Asked::Behind(sequencer) => sequencer.ask(self.rt, &OpenGate, ask),
            };
            if found != Err(ChainError::Memory) {
                return found;
            }
        }
        Err(ChainError::Memory)
    }

    fn stand(&mut self, line: &mut TableLine<'_>) {
        match std::mem::replace(&mut self.asked, Asked::Nobody) {
            Asked::Nobody => line.fails("nobody is asked"),
            Asked::Core(core) => line.say(core.into_answers().len()),
            Asked::Behind(sequencer) => line.say(sequencer.close().drawn()),
        }
    }
}

impl<R: Wait> Player for Chain<'_, R> {
    fn called(&mut self, call: &str, line: &mut TableLine<'_>) {
        match call {
            "new" => self.open(line),
            "behind" => self.open_behind(line),
            "used" => self.open_used(line),
            "ask" => {
                let found = self.answer(ask_of(line));
                say_answer(line, found);
            }
            "stand" => self.stand(line),
            "patient" => self.patient = true,
            _ => line.fails("no call"),
        }
    }
}

/// The members of a request.
fn ask_of(line: &mut TableLine<'_>) -> Ask {
    Ask {
        proxy: line.who(),
        num: line.number(),
        processed: line.number(),
        at: line.number(),
    }
}

/// Says some members of an answer, or why there is none.
fn say_answer(line: &mut TableLine<'_>, found: Result<Issued, ChainError>) {
    match found {
        Ok(issued) => {
            line.say(issued.ordinal);
            line.say(issued.prev);
            line.say(issued.version);
            line.say(issued.at);
            line.say(if issued.fresh { "fresh" } else { "kept" });
        }
        Err(cause) => say_cause(line, cause, cause == ChainError::Memory),
    }
}

/// Plays a text at a number. Each request passes the gate once, and another one comes that has to wait.
fn play_held<R: Threads + Wait + Sync>(
    alloc: Global,
    chain: &mut Chain<'_, R>,
    text: &str,
    number: u64,
) -> Result<(), CaseError> {
    for mut line in lines_of(alloc, text, number)? {
        let call = line.word();
        match &chain.asked {
            Asked::Behind(sequencer) if call == "ask" => {
                let found = held(chain.rt, sequencer, &mut line);
                say_answer(&mut line, found);
            }
            _ => chain.called(call, &mut line),
        }
        line.ends()?;
    }
    Ok(())
}

/// Asks a sequencer while another one comes, who waits until the answer is there, and is refused.
fn held<R: Threads + Wait + Sync>(
    rt: &R,
    sequencer: &Sequencer<FromHundred>,
    line: &mut TableLine<'_>,
) -> Result<Issued, ChainError> {
    let ask = ask_of(line);
    let gate = HoldsFirst::new(Place::SequencerHeld, ask.proxy, STRANGER);
    let (found, behind) = thread::join(
        rt,
        || {
            let found = sequencer.ask(rt, &gate, ask);
            gate.is_answered();
            found
        },
        || answered_behind(rt, sequencer, &gate, ask),
    );
    line.holds(
        behind == Err(ChainError::UnknownProxy),
        "a stranger is answered",
    );
    line.holds(gate.was_passed(1, 1), "one waits for the other");
    found
}

/// What it answers a stranger who comes while another request is held. It has processed something
/// where the other has not.
fn answered_behind<R: Wait>(
    rt: &R,
    sequencer: &Sequencer<FromHundred>,
    gate: &HoldsFirst,
    ask: Ask,
) -> Result<Issued, ChainError> {
    let ask = Ask {
        proxy: STRANGER,
        processed: u64::from(ask.processed == 0),
        ..ask
    };
    gate.waits_until_held();
    gate.is_done_beside();
    sequencer.ask(rt, gate, ask)
}

/// A repeat; the least and the greatest step; an earlier moment; one processed; requests out of
/// range; more processed than asked for.
const ROWS: &str = "
new 0 100 4 => ok; ask 0 1 0 1000 => 0 0 100 1000 fresh; ask 0 2 0 3000 => 1 100 2100 3000 fresh
ask 0 2 0 9000 => 1 100 2100 3000 kept; ask 0 3 0 3000 => 2 2100 2101 3000 fresh
ask 0 4 0 2500 => 3 2101 2102 2500 fresh; ask 0 5 0 20002500 => 4 2102 5002102 20002500 fresh
ask 0 7 0 1 => the next request number is 6; ask 0 7 2 1 => the next request number is 6
ask 0 0 0 1 => the answer is not kept any more; ask 0 0 2 1 => the answer is not kept any more
ask 4 1 0 1 => there is no such commit proxy; ask 4 1 2 1 => there is no such commit proxy
ask 0 6 1 20003000 => 5 5002102 5002602 20003000 fresh; ask 0 1 0 1 => the answer is not kept any more
ask 0 2 2 1 => 1 100 2100 3000 kept; ask 0 2 0 1 => 1 100 2100 3000 kept
ask 0 7 9 20003001 => 6 5002602 5002603 20003001 fresh; ask 0 6 0 1 => the answer is not kept any more
ask 0 7 0 1 => 6 5002602 5002603 20003001 kept; stand => 7
";

/// The last version, and what a chain is not opened with.
const BOUNDS: &str = "
new 0 9223372036854775807 64 => ok; ask 63 1 0 0 => 0 0 9223372036854775807 0 fresh
ask 0 1 0 0 => the versions are used up; stand => 1
new 0 100 65 => the number of commit proxies is out of range
new 100 100 0 => the recovery version is out of range
";

/// A chain that has answered before it stands behind a lock.
const USED: &str = "
used 2 => ok; ask 0 1 0 0 => 0 0 100 0 kept; ask 1 1 0 0 => 1 100 101 0 fresh; stand => 2
";

#[test]
fn requests_through_the_lock(rt: HostRuntime) -> Result<(), Fail> {
    let (alloc, mut chain) = (rt.alloc(), Chain::new(&rt));
    plays(alloc, &mut chain, ROWS)?;
    plays(alloc, &mut chain, BOUNDS)?;
    let behind = ROWS.replace(alloc, "new 0 100", "behind")?;
    play_held(alloc, &mut chain, &behind, 0)?;
    Ok(play_held(alloc, &mut chain, USED, 0)?)
}

/// Proxy 0 and 63 others ask behind a lock, in more than 1,024 turns. No time passes, so that each
/// version is one above the one before: its ordinal and 100. The others ask under ten numbers, process
/// the first, and repeat some.
const OF_64: &str = "
behind 64 => ok; ask 0 1 0 0 => 0 0 100 0 fresh; *ask @1 1 0 0 => @1 @100 @101 0 fresh
*ask @1 2 0 0 => @64 @163 @164 0 fresh; *ask @1 1 1 0 => @1 @100 @101 0 kept
*ask @1 3 1 0 => @127 @226 @227 0 fresh,ask @1 1 0 0 => the answer is not kept any more,\
ask @1 2 0 0 => @64 @163 @164 0 kept,ask @1 3 0 0 => @127 @226 @227 0 kept,\
ask @1 5 3 0 => the next request number is 4,ask 64 1 0 0 => there is no such commit proxy
ask 0 1 0 0 => 0 0 100 0 kept; ask 0 2 0 0 => 190 289 290 0 fresh
*ask @1 4 0 0 => @191 @290 @291 0 fresh; *ask @1 5 0 0 => @254 @353 @354 0 fresh
*ask @1 6 0 0 => @317 @416 @417 0 fresh; *ask @1 7 0 0 => @380 @479 @480 0 fresh
*ask @1 8 0 0 => @443 @542 @543 0 fresh; *ask @1 9 0 0 => @506 @605 @606 0 fresh
*ask @1 10 0 0 => @569 @668 @669 0 fresh; *ask @1 4 4 0 => @191 @290 @291 0 kept; stand => 632
";

#[test]
fn each_of_64_proxies_processes(rt: HostRuntime) -> Result<(), Fail> {
    Ok(play_held(rt.alloc(), &mut Chain::new(&rt), OF_64, 63)?)
}

/// The replies of each commit proxy.
#[derive(Drop)]
pub(crate) struct Lists {
    replies: Vec<Replies>,
}

impl Lists {
    pub(crate) fn new(alloc: Global) -> Lists {
        Lists {
            replies: Vec::new(alloc),
        }
    }

    fn keep(&mut self, line: &mut TableLine<'_>) {
        let answer = issued(line);
        if answer.proxy as usize >= self.replies.len() {
            line.fails("no such proxy");
            return;
        }
        line.takes(Replies::keep_among(self.replies.as_mut_slice(), &answer));
    }

    /// The place of the answer under a number of a commit proxy, if it is kept.
    fn place(&self, line: &mut TableLine<'_>) {
        let (proxy, num) = (line.number(), line.number());
        let own = self.replies.get(proxy as usize);
        match own.and_then(|own| own.place_of(num)) {
            Some(place) => line.say(place),
            None => line.say("none"),
        }
    }
}

/// Copies the options of a read with so many tags, and a limit.
fn copied(line: &mut TableLine<'_>) {
    let (tags, bytes) = (line.number(), line.number());
    let mut opts = untagged(line.alloc);
    for _ in 0..tags {
        let tag = tag_of_bytes(line, bytes);
        line.takes(opts.tags.push(tag));
    }
    let limit = TagLimit {
        tag: tag_of_bytes(line, bytes),
        rate: 5,
        expires: 5_000,
    };
    let Ok(copy) = opts.clone() else {
        line.refuse();
        return;
    };
    match limit.clone() {
        Ok(other) => line.holds(copy == opts && other == limit, "another copy"),
        Err(_) => line.refuse(),
    }
    line.say(copy.tags.len());
}

impl Player for Lists {
    fn called(&mut self, call: &str, line: &mut TableLine<'_>) {
        match call {
            "copies" => copied(line),
            "of_each" => match Replies::of_each(line.alloc, line.who()) {
                Ok(replies) => self.replies = replies,
                Err(_) => line.refuse(),
            },
            "keep" => self.keep(line),
            "kept" => self.place(line),
            _ => line.fails("no call"),
        }
    }
}

/// Enough items that each list grows more than once.
pub(crate) const LISTS: &str = "
copies 9 17 => 9; of_each 3; keep 0 2 1 0 0 100 0 fresh; keep 1 0 1 0 0 100 0 fresh
keep 2 2 2 0 0 100 0 fresh; keep 3 2 3 2 0 100 0 fresh
kept 0 1 => 1; kept 2 1 => none; kept 2 2 => none; kept 2 3 => 3; kept 2 4 => none; kept 1 1 => none
keep 4 0 2 0 0 100 0 fresh; keep 5 0 3 0 0 100 0 fresh; keep 6 0 4 0 0 100 0 fresh
keep 7 0 5 0 0 100 0 fresh; keep 8 0 6 2 0 100 0 fresh; kept 0 3 => 5; kept 0 2 => none
";

#[test]
fn lists_and_replies(rt: HostRuntime) -> Result<(), Fail> {
    Ok(plays(rt.alloc(), &mut Lists::new(rt.alloc()), LISTS)?)
}
