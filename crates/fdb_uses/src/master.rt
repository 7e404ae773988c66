//! Commit versions drawn from a chain, with no sequencer before it, and from a master by two
//! threads, each once it was told of the other's; and the live committed version, with tokens of
//! what was seen of it.

ghost use Rattle.std.specs.Prelude.{◌≡◌, ◌<◌, IfOk, true, ◌≤◌, None};
ghost use Rattle.fdb_live.specs.Holding.{least_above};
ghost use Rattle.fdb_live.specs.Seen.{origin_of};

use crate::START;
use anyhow::{Result, anyhow};
use fdb_chain::{ChainCore, ChainError};
use fdb_history::{Ask, Issued, OpenGate, Record};
use fdb_live::{Epoch, Live, LiveRecord, Master, Opened, Seen, UnderName};
use std::alloc::Global;
use std::marker::Brand;
use std::sync::Wait;
use std::thread::{self, Threads};

/// Has one commit proxy draw two commit versions, and ask for the first one again: it gets the
/// answer that was kept for its number.
pub(crate) fn commit_versions(rt: &impl Print, alloc: Global) -> Result<()> {
    let mut chain = ChainCore::new(alloc, 0, 100, 1)?;
    let (one, two) = two_in_a_row(&mut chain, request(1, 1_000), request(2, 3_000))?;
    let again = chain.ask(request(1, 9_000))?;
    println!(rt;
        "versions {} and {}; again {}, fresh {}",
        one.version, two.version, again.version, again.fresh
    )?;
    Ok(())
}

/// A request under a number, at a time in microseconds.
fn request(num: u64, at: u64) -> Ask {
    Ask {
        proxy: 0,
        num,
        processed: 0,
        at,
    }
}

/// Of two versions that are drawn one after another the second is greater, and names the first as
/// the one before it.
fn two_in_a_row(
    chain: &mut ChainCore,
    first: Ask,
    second: Ask,
) -> Result<(Issued, Issued), ChainError>
    ensures rise { IfOk result (λ both. both.0.fresh ≡ true → both.1.fresh ≡ true
        → both.0.version < both.1.version) }
    ensures names { IfOk result (λ both. both.0.fresh ≡ true → both.1.fresh ≡ true
        → both.1.prev ≡ both.0.version) }
{
    let one = chain.ask(first)?;
    let two = chain.ask(second)?;
    Ok((one, two))
}

/// Opens a master for two commit proxies, and has them draw under a name that stands for it.
pub(crate) fn two_threads<R: Print + Threads + Wait + Sync>(rt: &R, alloc: Global) -> Result<()> {
    let epoch = Epoch {
        before: 0,
        recovery: START.version,
    };
    let opened = LiveRecord::<Brand>::open(rt, alloc, START, 2, Some(epoch))?;
    draw_named::<Brand, R>(rt, opened)
}

/// Shares out a master and the tokens of its commit proxies, under a name that stands for it.
fn draw_named<S: Live + Send + Sync, R: Print + Threads + Wait + Sync>(
    rt: &R,
    opened: Opened,
) -> Result<()>
    requires chained { S.chained ≡ true }
    requires opened { opened
        ≡ origin_of S.table S.start S.reporters S.chained S.epoch_end S.recovery }
{
    let (master, _, mut tokens) = opened.master::<S>()?;
    draw_both(rt, &master, tokens.as_mut_slice())
}

/// Both draw at once, each in a thread of its own, and draw again once told of the other's.
fn draw_both<S: Live + Send + Sync, R: Print + Threads + Wait + Sync>(
    rt: &R,
    master: &Master<S>,
    tokens: &mut [Seen<S>],
) -> Result<()> {
    if tokens.len() != 2 {
        return Err(anyhow!("two commit proxies are wanted"));
    }
    let (zero, one) = tokens.split_at_mut(1);
    let (first, second) = thread::join(
        rt,
        || draw_and_tell(rt, master, &mut zero[0]),
        || draw_and_tell(rt, master, &mut one[0]),
    );
    let (of_first, of_second) = (first?, second?);
    let (by_first, by_second) = thread::join(
        rt,
        || draw_once_told(rt, master, &mut zero[0], of_second),
        || draw_once_told(rt, master, &mut one[0], of_first),
    );
    println!(rt;
        "the last of four versions is {}",
        by_first?.1.max(by_second?.1)
    )?;
    Ok(())
}

/// What one thread hands to another: a version that it drew, and a token of what it has seen.
#[derive(Drop)]
struct Told<S: Live> {
    version: u64,
    token: Seen<S>,
    ghost nobodys: { token.reporter ≡ None },
    ghost drawn: { version < least_above token.answers },
}

/// Draws a version, to be told to another thread.
fn draw_and_tell<S: Live, R: Wait>(
    rt: &R,
    master: &Master<S>,
    token: &mut Seen<S>,
) -> Result<Told<S>> {
    let version = draw(rt, master, token, 1)?;
    let token = master.record().split(token);
    Ok(Told { version, token })
}

/// Draws a version above the one that it was told of, and answers both.
fn draw_once_told<S: Live, R: Wait>(
    rt: &R,
    master: &Master<S>,
    token: &mut Seen<S>,
    told: Told<S>,
) -> Result<(u64, u64)>
    ensures { IfOk result (λ both. both.0 < both.1) }
{
    let Told {
        version,
        token: seen,
    } = told;
    master.record().learn(rt, token, seen);
    Ok((version, draw(rt, master, token, 2)?))
}

/// Draws a version under this number, above all that its commit proxy has seen or was told of.
fn draw<S: Live, R: Wait>(rt: &R, master: &Master<S>, token: &mut Seen<S>, num: u64) -> Result<u64>
    ensures above { IfOk result (λ version. least_above token.old.answers ≤ version) }
    ensures seen { IfOk result (λ version. version < least_above token.new.answers) }
{
    let Some(proxy) = token.reporter() else {
        return Err(anyhow!("the token is nobody's"));
    };
    let ask = Ask {
        proxy,
        num,
        processed: 0,
        at: 0,
    };
    let issued = master.ask(rt, &OpenGate, token, ask)?;
    if !issued.fresh {
        return Err(anyhow!("the version was drawn before"));
    }
    Ok(issued.version)
}

/// Opens a live record for two reporters, and has them report under a name that stands for it, so
/// that no token of another record fits it.
pub(crate) fn two_reporters<R: Print + Wait>(rt: &R, alloc: Global) -> Result<()> {
    let opened = LiveRecord::<Brand>::open(rt, alloc, START, 2, None)?;
    opened.named(rt, TwoReporters)
}

/// Two reporters, to be run under a name that stands for their record.
#[derive(Drop)]
struct TwoReporters;

impl<R: Print + Wait> UnderName<R> for TwoReporters {
    type Output = Result<()>;

    /// Has both report, the greater version first. Then a token that had seen nothing reads.
    fn run<S: Live + Send + Sync>(self, rt: &R, opened: Opened) -> Result<()> {
        let (live, mut reader, mut reporters) = opened.parts::<S>()?;
        if reporters.len() != 2 {
            return Err(anyhow!("two reporters are wanted"));
        }
        let raised = live.report(rt, &OpenGate, 0, &mut reporters[0], at(300))?;
        let late = live.report(rt, &OpenGate, 1, &mut reporters[1], at(200))?;
        let read = live.read(rt, &mut reader);
        println!(rt;
            "raised {} and {}; read version {} at position {}",
            raised.raised, late.raised, read.rec.version, read.position
        )?;
        Ok(())
    }
}

/// The record of a version that was committed.
fn at(version: u64) -> Record {
    Record { version, ..START }
}
