//! The live record and its tokens. Each line of a text is a call, and behind `=>` what it is
//! answered:
//!
//! - `open` has the first record and, behind `for`, how many reporters there are: how many have
//! tokens. What is done with these stands in texts of its own (`holders`);
//! - `master` has a recovery version, how many commit proxies there are, and how often each asks:
//! whether all answers are fresh.

ghost use Rattle.std.specs.Prelude.{◌≡◌, false, true};
ghost use Rattle.fdb_live.specs.Seen.{origin_of};

mod gates;
mod holders;

use crate::words::{plain, record, say_cause};
use fdb_chain::ChainError;
use fdb_checks::{CaseError, Player, TableLine, plays, says};
use fdb_history::{Ask, MAX_VERSION, OpenGate, Place};
use fdb_live::{Epoch, Live, LiveError, LiveRecord, Master, Opened, Seen};
use gates::have_turns;
use holders::{Holders, play};
use std::alloc::Global;
use std::marker::Brand;
use std::sync::Wait;
use std::test::Fail;
use std::thread::Threads;

/// What opens live records and masters.
#[derive(Drop)]
pub(crate) struct Opener<'a, R> {
    rt: &'a R,
}

impl<'a, R: Wait> Opener<'a, R> {
    pub(crate) fn new(rt: &'a R) -> Self {
        Opener { rt }
    }
}

impl<R: Wait> Player for Opener<'_, R> {
    fn called(&mut self, call: &str, line: &mut TableLine<'_>) {
        match call {
            "open" => opened(self.rt, line),
            "master" => asked(self.rt, line),
            _ => line.fails("no call"),
        }
    }
}

/// Opens a live record. Says how many tokens there are.
fn opened<R: Wait>(rt: &R, line: &mut TableLine<'_>) {
    let start = record(line);
    let reporters = u32::try_from(line.number_behind("for")).unwrap_or_default();
    if reporters == 0 || reporters > 64 {
        line.fails("no number of reporters");
        return;
    }
    match LiveRecord::<Brand>::open(rt, line.alloc, start, reporters, None) {
        Ok(opened) => parted::<Brand>(opened, line),
        Err(cause) => say_cause(line, cause, cause == LiveError::Memory),
    }
}

/// Says how many reporters have tokens under the name of the service.
fn parted<S: Live>(opened: Opened, line: &mut TableLine<'_>)
    requires { opened ≡ origin_of S.table S.start S.reporters S.chained S.epoch_end S.recovery }
{
    match opened.parts::<S>() {
        Ok((_, _, tokens)) => line.say(tokens.len()),
        Err(cause) => say_cause(line, cause, cause == LiveError::Memory),
    }
}

/// Plays a text on a live record that is opened with version 100 for so many reporters.
pub(crate) fn played<R: Threads + Wait + Sync>(
    rt: &R,
    alloc: Global,
    reporters: u32,
    text: &str,
) -> Result<(), CaseError> {
    if reporters == 0 || reporters > 64 {
        return Err(CaseError::Failed(Fail::new("no number of reporters")));
    }
    match LiveRecord::<Brand>::open(rt, alloc, plain(100), reporters, None) {
        Ok(opened) => played_named::<Brand, R>(rt, alloc, opened, Text { text }),
        Err(_) => Err(CaseError::Memory),
    }
}

/// A text that is played.
#[derive(Clone, Copy)]
struct Text<'a> {
    text: &'a str,
}

/// The same under the name of the service.
fn played_named<S: Live + Send + Sync, R: Threads + Wait + Sync>(
    rt: &R,
    alloc: Global,
    opened: Opened,
    played: Text<'_>,
) -> Result<(), CaseError>
    requires bare { S.chained ≡ false }
    requires opened { opened
        ≡ origin_of S.table S.start S.reporters S.chained S.epoch_end S.recovery }
{
    let Ok((live, first, tokens)) = opened.parts::<S>() else {
        return Err(CaseError::Memory);
    };
    let mut holders = Holders::of(rt, alloc, live, first, tokens)?;
    play(alloc, &mut holders, played.text)
}

/// The reads and reports of two reporters and of the first token, which nobody tells anything.
const WORKED: &str = "
at 0 => 0 at 0; at 1 => 1 at 0; at 2 => nobody at 0; read 0 => 100 unlocked none at 0
report 0 9223372036854775808 unlocked none => the version is out of range
read 0 => 100 unlocked none at 0
report 0 200 unlocked none => raised at 1; report 0 200 unlocked none => same at 1
read 2 => 200 unlocked none at 1
report 1 150 unlocked none => same at 1; report 1 300 unlocked none => raised at 2
# its token has seen a version as great, and nothing of the raise since
at 0 => 0 at 1; report 0 200 unlocked none => same at 2
";

/// Each of two reporters raises the record and learns what the other has seen, and keeps its number.
const CROSSWISE: &str = "
report 0 200 unlocked none => raised at 1; split 0 => nobody at 1
report 1 300 unlocked none => raised at 2; at 0 => 0 at 1; at 1 => 1 at 2; split 1 => nobody at 2
learns 0 4 => 0 at 2; learns 1 3 => 1 at 2; at 3 => nobody at 1
# told of less, by itself as it was, and by one who saw nothing
learns 0 3 => 0 at 2; learns 0 2 => 0 at 2; meets 0 1 => 0 at 2; meets 3 0 => nobody at 1; at 1 => 1 at 2
report 0 400 unlocked none => raised at 3; at 2 => nobody at 0; learns 2 0 => nobody at 3
";

/// The minimum known committed version: the greatest that was reported.
const MINIMUM: &str = "
report 0 200 unlocked none min 50 => raised at 1; read 1 => 200 unlocked none min 50 at 1
report 1 190 locked 0102030405060708090a min 180 => changed at 2; report 0 180 unlocked none min 120 => same at 2
read 0 => 200 unlocked none min 180 at 2; report 0 300 locked 0102030405060708090a min 10 => raised at 3
read 1 => 300 locked 0102030405060708090a min 180 at 3
";

const TEXTS: &[&str] = &[WORKED, CROSSWISE, MINIMUM];

#[test]
fn reads_and_reports(rt: HostRuntime) -> Result<(), Fail> {
    for text in TEXTS {
        played(&rt, rt.alloc(), 2, text)?;
    }
    Ok(())
}

/// What a record is not opened with, and one that is locked.
const OPENED: &str = "
open 9223372036854775808 unlocked none for 2 => the version is out of range
open 100 unlocked none min 101 for 2 => the minimum known committed version is above the version
open 99 locked 0102030405060708090a min 99 for 2 => 2
";

#[test]
fn versions_in_and_out_of_range(rt: HostRuntime) -> Result<(), Fail> {
    plays(rt.alloc(), &mut Opener::new(&rt), OPENED)?;
    says(rt.alloc(), &LiveError::Memory, "out of memory")
}

/// Reports of each kind by a reporter, each of which passes the gate once, unless it is refused: those
/// that raise the version, that raise the minimum alone, that do neither, and that are refused.
const KINDS: &str = "
report WHO 200 unlocked none => raised at 1; report WHO 201 locked none => raised at 2
report WHO 202 unlocked 00000000000000000000 => raised at 3
report WHO 203 locked 0102030405060708090a => raised at 4
report WHO 204 unlocked none min 1 => raised at 5; report WHO 205 locked none min 1 => raised at 6
report WHO 206 unlocked 0102030405060708090a min 2 => raised at 7
report WHO 207 locked 00000000000000000000 min 3 => raised at 8
report WHO 207 unlocked none min 4 => changed at 9; report WHO 150 locked none min 5 => changed at 10
report WHO 150 unlocked 0102030405060708090a min 6 => changed at 11
report WHO 150 locked 00000000000000000000 min 150 => changed at 12
report WHO 207 unlocked none => same at 12; report WHO 150 locked none => same at 12
report WHO 207 unlocked 0102030405060708090a min 150 => same at 12
report WHO 150 locked 00000000000000000000 min 3 => same at 12
report WHO 208 unlocked none min 209 => the minimum known committed version is above the version
report WHO 150 locked 0102030405060708090a min 151 \
=> the minimum known committed version is above the version
report WHO 9223372036854775808 unlocked none => the version is out of range
report WHO 9223372036854775808 locked none min 9223372036854775809 => the version is out of range
report WHO 208 locked 0102030405060708090a min 208 => raised at 13
report WHO 9223372036854775807 unlocked none min 9223372036854775807 => raised at 14
";

/// Each of 64 reporters makes each kind of report.
#[test]
fn each_kind_of_report_passes_the_gate(rt: HostRuntime) -> Result<(), Fail> {
    for who in 0..64 {
        let who = format!(in rt.alloc(); "{who}")?;
        played(
            &rt,
            rt.alloc(),
            64,
            &KINDS.replace(rt.alloc(), "WHO", &who)?,
        )?;
    }
    Ok(())
}

/// Each of 64 reporters is held in its lock in 1,152 turns, while the next makes each other call.
#[test]
fn no_call_but_a_report_waits_for_one(rt: HostRuntime) -> Result<(), Fail> {
    Ok(have_turns(&rt, rt.alloc(), Place::ReportHeld)?)
}

/// The same of those who ask, with fresh numbers and others, and number 0.
#[test]
fn no_call_but_an_ask_waits_for_one(rt: HostRuntime) -> Result<(), Fail> {
    Ok(have_turns(&rt, rt.alloc(), Place::SequencerHeld)?)
}

/// Two reporters and two readers, and eight and five: the greatest of 500 versions of each.
#[test]
fn reporters_and_readers_in_threads(rt: HostRuntime) -> Result<(), Fail> {
    let two = "split 2 => nobody at 0; threads 2 => 1100 unlocked none";
    let eight = "split 8 => nobody at 0; split 8 => nobody at 0; split 8 => nobody at 0; \
split 8 => nobody at 0; threads 8 => 4100 unlocked none";
    played(&rt, rt.alloc(), 2, two)?;
    Ok(played(&rt, rt.alloc(), 8, eight)?)
}

/// Opens a master for so many commit proxies, and asks it so often for each. Says whether each is
/// given as many versions.
pub(crate) fn asked<R: Wait>(rt: &R, line: &mut TableLine<'_>) {
    let (recovery, members, asks) = (line.number(), line.who(), line.number());
    if members == 0 || members > 64 || recovery == 0 || recovery > MAX_VERSION {
        line.fails("no master");
        return;
    }
    let epoch = Epoch {
        before: 0,
        recovery,
    };
    match LiveRecord::<Brand>::open(rt, line.alloc, plain(0), members, Some(epoch)) {
        Ok(opened) => asked_named::<Brand, R>(rt, opened, asks, line),
        Err(_) => line.refuse(),
    }
}

/// The same under the name of the service.
fn asked_named<S: Live, R: Wait>(rt: &R, opened: Opened, asks: u64, line: &mut TableLine<'_>)
    requires chained { S.chained ≡ true }
    requires opened { opened
        ≡ origin_of S.table S.start S.reporters S.chained S.epoch_end S.recovery }
{
    let Ok((master, _, mut tokens)) = opened.master::<S>() else {
        line.refuse();
        return;
    };
    for token in tokens.iter_mut() {
        match are_fresh(rt, &master, token, asks) {
            Ok(fresh) => line.holds(fresh, "another answer"),
            Err(_) => line.refuse(),
        }
    }
    line.say("fresh");
}

/// Whether so many requests for the proxy of a token get fresh answers.
fn are_fresh<S: Live, R: Wait>(
    rt: &R,
    master: &Master<S>,
    token: &mut Seen<S>,
    asks: u64,
) -> Result<bool, ChainError> {
    let mut fresh = true;
    for processed in 0..asks {
        let Some(proxy) = token.reporter() else {
            return Ok(false);
        };
        let ask = Ask {
            proxy,
            num: processed.saturating_add(1),
            processed,
            at: 0,
        };
        fresh &= master.ask(rt, &OpenGate, token, ask)?.fresh;
    }
    Ok(fresh)
}
