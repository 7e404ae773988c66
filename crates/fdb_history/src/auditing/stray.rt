//! The first answer that nothing justifies, or the first client with an entry that no call drew.

ghost use Rattle.std.specs.Prelude.{◌≡◌, ◌<◌, ◌≤◌, ◌^◌, ◌==◌, ◌&&◌, ◌||◌, ℕ, Bool, true, false};
ghost use Rattle.std.specs.Prelude.{length, slice_get, IfOk, OnOk, IsTrue};
ghost use Rattle.std.specs.Option.{option_map_or};
ghost use Rattle.fdb_history.specs.private.Auditing.{AreMarks, HasUnmarked, IsFirstCall, IsFirstOf};
ghost use Rattle.fdb_history.specs.private.Auditing.{IsLeastIfAny};
ghost use Rattle.fdb_history.specs.private.Justifying.{own_after, drawn_version};
ghost use Rattle.fdb_history.specs.Log.{calls_of};
ghost use Rattle.fdb_history.specs.Strays.{IsStray, NotJustified, is_justified, is_drawn, is_same};
ghost use Rattle.fdb_history.specs.Strays.{goes_with, is_again, is_justified_by, is_due, is_early};
ghost use Rattle.fdb_history.specs.Strays.{is_fresh_answer, is_near_the_end, is_of_chain};
ghost use Rattle.fdb_history.specs.Strays.{is_of_issued, is_rightly_locked_out, may_refuse};
ghost use Rattle.fdb_history.specs.Strays.{number_of};
ghost use Rattle.fdb_history.specs.Replies.{reply};
ghost use Rattle.fdb_history.specs.declared.chain.Issued.{Issued};

use crate::auditing::call_fault::CallName;
use crate::chain::{Issued, MAX_STEP, Replies, answer_at};
use crate::log::{Call, CallAnswer, ClientLog, Input, Refusal};
use crate::register::MAX_VERSION;
use std::alloc::{AllocError, Global};

/// The first call whose answer is not justified, or the end of the calls of the first client that
/// has an entry of the chain that none of its calls drew. A client that has no log has no calls.
///
/// It takes time in proportion to the calls and the chain's entries, and memory
/// for a mark for each entry and a number for each version that a client drew.
pub(crate) fn first_stray(
    alloc: Global,
    chain: &[Issued],
    logs: &[ClientLog],
) -> Result<Option<CallName>, AllocError>
    requires { length logs.now ≤ 2 ^ 32 }
    ensures { IfOk result (IsFirstCall (IsStray chain.now logs.now)) }
{
    let unjustified = first_not_justified(alloc, chain, logs)?;
    let drawn = drawn_entries(alloc, chain, logs)?;
    let Some(client) = least_undrawn(chain, drawn.as_slice()) else {
        return Ok(unjustified);
    };
    match unjustified {
        Some(name) if name.client <= client => Ok(Some(name)),
        _ => Ok(Some(CallName {
            client,
            call: count_calls(logs, client),
        })),
    }
}

/// The first call whose answer is not justified, whatever entries of the chain no call drew.
fn first_not_justified(
    alloc: Global,
    chain: &[Issued],
    logs: &[ClientLog],
) -> Result<Option<CallName>, AllocError>
    requires { length logs.now ≤ 2 ^ 32 }
    ensures { IfOk result (IsFirstCall (NotJustified chain.now logs.now)) }
{
    for (client, log) in logs.iter().enumerate() {
        if let Some(call) = first_of(alloc, chain, client as u32, log.calls.as_slice())? {
            return Ok(Some(CallName {
                client: client as u32,
                call,
            }));
        }
    }
    Ok(None)
}

/// The place of the first of a client's calls whose answer is not justified.
fn first_of(
    alloc: Global,
    chain: &[Issued],
    client: u32,
    calls: &[Call],
) -> Result<Option<u64>, AllocError>
    ensures { IfOk result
        (IsFirstOf (λ before call. is_justified chain.now client before call ≡ false) calls.now) }
{
    let mut own = Replies::new(alloc);
    for (place, call) in calls.iter().enumerate() {
        if !is_justified_by(chain, client, &own, call) {
            return Ok(Some(place as u64));
        }
        keep_drawn(&mut own, &call.answer)?;
    }
    Ok(None)
}

/// Keeps what a call drew, if it drew a version.
fn keep_drawn(own: &mut Replies, answer: &CallAnswer) -> Result<(), AllocError>
    ensures { OnOk result (own.new ≡ own_after own.old answer.now) }
{
    match answer {
        CallAnswer::Answered(issued) if issued.fresh => {
            own.keep(issued.ordinal as usize, issued.processed)
        }
        _ => Ok(()),
    }
}

/// Whether each entry of the chain was drawn by a call of its client.
fn drawn_entries(
    alloc: Global,
    chain: &[Issued],
    logs: &[ClientLog],
) -> Result<Vec<bool>, AllocError>
    requires { length logs.now ≤ 2 ^ 32 }
    ensures { IfOk result (λ drawn. AreMarks chain.now drawn.items
        (λ place entry. is_drawn (calls_of logs.now entry.proxy) place entry)) }
{
    let mut drawn = vec![in alloc; false; chain.len()]?;
    for (client, log) in logs.iter().enumerate() {
        mark_drawn(&mut drawn, chain, client as u32, log.calls.as_slice());
    }
    Ok(drawn)
}

/// Marks the entries of the chain that a client's calls drew.
fn mark_drawn(drawn: &mut [bool], chain: &[Issued], client: u32, calls: &[Call])
    requires { length drawn.old ≡ length chain.now }
    ensures { (was : ℕ → Issued → Bool) → AreMarks chain.now drawn.old was
        → AreMarks chain.now drawn.new (λ place entry. was place entry
        || is_drawn calls.now place entry && (entry.proxy == client)) }
{
    for call in calls {
        if let CallAnswer::Answered(issued) = &call.answer {
            mark(drawn, chain, client, issued);
        }
    }
}

/// Marks the entry of the chain that an answer of a client drew, if it drew one.
fn mark(drawn: &mut [bool], chain: &[Issued], client: u32, issued: &Issued)
    requires { length drawn.old ≡ length chain.now }
    ensures { (was : ℕ → Issued → Bool) → AreMarks chain.now drawn.old was
        → AreMarks chain.now drawn.new (λ place entry. was place entry
        || is_same issued.now (record entry { ordinal = place; fresh = true })
        && (entry.proxy == client)) }
{
    if draws(chain, client, issued) {
        drawn[issued.ordinal as usize] = true;
    }
}

/// Whether an answer of a client, fresh, is the chain's entry at its ordinal, and the client's own.
fn draws(chain: &[Issued], client: u32, issued: &Issued) -> bool
    ensures value { result ≡ option_map_or (λ entry.
        is_same issued.now (record entry { ordinal = issued.now.ordinal; fresh = true })
        && (entry.proxy == client))
        (slice_get chain.now issued.now.ordinal) false }
    ensures within { IsTrue result → issued.now.ordinal < length chain.now }
{
    match chain.get(issued.ordinal as usize) {
        Some(entry) => {
            let drawn = Issued {
                ordinal: issued.ordinal,
                fresh: true,
                ..*entry
            };
            *issued == drawn && entry.proxy == client
        }
        None => false,
    }
}

/// The least client with an entry that has no mark.
fn least_undrawn(chain: &[Issued], drawn: &[bool]) -> Option<u32>
    requires { length drawn.now ≡ length chain.now }
    ensures { IsLeastIfAny (HasUnmarked chain.now drawn.now) result }
{
    let mut least = None;
    for (place, entry) in chain.iter().enumerate() {
        if !drawn[place] {
            least = Some(match least {
                Some(client) => entry.proxy.min(client),
                None => entry.proxy,
            });
        }
    }
    least
}

/// How many calls a client has: 0 where it has no log.
fn count_calls(logs: &[ClientLog], client: u32) -> u64
    ensures { result ≡ length (calls_of logs.now client) }
{
    match logs.get(client as usize) {
        Some(log) => log.calls.len() as u64,
        None => 0,
    }
}

/// Whether a call's answer is justified, where `own` is what its client drew before it.
pub(crate) fn is_justified_by(chain: &[Issued], client: u32, own: &Replies, call: &Call) -> bool
    ensures { result ≡ is_justified_by chain.now client (length own.now.places)
        (reply chain.now own.now (number_of call.now.input))
        (drawn_version chain.now own.now (number_of call.now.input)) call.now }
{
    goes_with(&call.input, &call.answer)
        && is_rightly_locked_out(&call.input, &call.answer)
        && is_of_chain(chain, client, &call.input, &call.answer)
        && is_due(chain, own, &call.input, &call.answer)
        && is_of_issued(chain, own, &call.input, &call.answer)
}

/// Whether an answer is of the kind of its input.
fn goes_with(input: &Input, answer: &CallAnswer) -> bool
    ensures { result ≡ goes_with input.now answer.now }
{
    match answer {
        CallAnswer::Version { .. } => matches!(input, Input::Grv(_)),
        CallAnswer::Answered(_) => matches!(input, Input::Ask { .. }),
        CallAnswer::Acked { .. } => matches!(input, Input::Report { .. }),
        CallAnswer::Told => matches!(input, Input::Tell { .. } | Input::Learn { .. }),
        CallAnswer::Refused(cause) => may_refuse(input, *cause),
    }
}

/// Whether a call of this kind may ever meet this refusal.
fn may_refuse(input: &Input, cause: Refusal) -> bool
    ensures { result ≡ may_refuse input.now cause }
{
    match input {
        Input::Grv(_) => matches!(
            cause,
            Refusal::BadCount
                | Refusal::BatchThrottled
                | Refusal::Full
                | Refusal::ProxyClosed
                | Refusal::Stranger
        ),
        Input::Ask { .. } => matches!(
            cause,
            Refusal::Early { .. } | Refusal::Forgotten | Refusal::Exhausted
        ),
        Input::Report { .. } => matches!(cause, Refusal::NotIssued | Refusal::MinAbove),
        Input::Tell { .. } | Input::Learn { .. } => false,
    }
}

/// Whether a read is turned away exactly where it has to be.
fn is_rightly_locked_out(input: &Input, answer: &CallAnswer) -> bool
    ensures { result ≡ is_rightly_locked_out input.now answer.now }
{
    match (input, answer) {
        (
            Input::Grv(opts),
            CallAnswer::Version {
                rec,
                locked_out,
                ..
            },
        ) => *locked_out == (rec.locked && !opts.lock_aware),
        _ => true,
    }
}

/// Whether a commit version is the client's own, under the number asked
/// for, and the chain's entry at its ordinal, in all but `fresh`.
fn is_of_chain(chain: &[Issued], client: u32, input: &Input, answer: &CallAnswer) -> bool
    ensures { result ≡ is_of_chain chain.now client input.now answer.now }
{
    match (input, answer) {
        (Input::Ask { num, .. }, CallAnswer::Answered(issued)) => {
            issued.proxy == client && issued.num == *num && is_in_chain(chain, issued)
        }
        _ => true,
    }
}

/// Whether the chain's entry at an answer's ordinal is the answer, in all but `fresh`.
fn is_in_chain(chain: &[Issued], issued: &Issued) -> bool
    ensures { result ≡ option_map_or
        (λ entry. is_same issued.now (record entry { fresh = issued.now.fresh }))
        (slice_get chain.now issued.now.ordinal) false }
{
    match chain.get(issued.ordinal as usize) {
        Some(entry) => {
            *issued
                == Issued {
                    fresh: issued.fresh,
                    ..*entry
                }
        }
        None => false,
    }
}

/// Whether the answer to a request is the one that is due.
fn is_due(chain: &[Issued], own: &Replies, input: &Input, answer: &CallAnswer) -> bool
    ensures { result ≡ is_due chain.now (length own.now.places)
        (reply chain.now own.now (number_of input.now)) input.now answer.now }
{
    let Input::Ask { num, processed, at } = input else {
        return true;
    };
    let latest = own.latest();
    if *num > latest + 1 {
        return is_early(latest + 1, answer);
    }
    if *num <= latest {
        return is_again(own.reply(chain, *num), answer);
    }
    is_fresh_answer(chain, *processed, *at, answer)
}

/// Whether a request is told that its number is ahead of this one, the next.
fn is_early(next: u64, answer: &CallAnswer) -> bool
    ensures { result ≡ is_early next answer.now }
{
    match answer {
        CallAnswer::Refused(Refusal::Early { expected }) => *expected == next,
        _ => false,
    }
}

/// Whether a repeated request gets the answer that is kept, or is told that none is.
fn is_again(found: Option<Issued>, answer: &CallAnswer) -> bool
    ensures { result ≡ is_again found answer.now }
{
    match (found, answer) {
        (Some(entry), CallAnswer::Answered(issued)) => {
            *issued
                == Issued {
                    fresh: false,
                    ..entry
                }
        }
        (None, CallAnswer::Refused(Refusal::Forgotten)) => true,
        _ => false,
    }
}

/// Whether the answer to the next request is fresh and has
/// its members, or there is no version left.
fn is_fresh_answer(chain: &[Issued], processed: u64, at: u64, answer: &CallAnswer) -> bool
    ensures { result ≡ is_fresh_answer chain.now processed at answer.now }
{
    match answer {
        CallAnswer::Answered(issued) => {
            issued.fresh && issued.processed == processed && issued.at == at
        }
        CallAnswer::Refused(Refusal::Exhausted) => is_near_the_end(chain),
        _ => false,
    }
}

/// Whether the next version would be above the greatest one at the greatest step.
fn is_near_the_end(chain: &[Issued]) -> bool
    ensures { result ≡ is_near_the_end chain.now }
{
    match chain.last() {
        Some(last) => last.version > MAX_VERSION - MAX_STEP,
        None => false,
    }
}

/// Whether a report is of the version that was drawn under its number, with the flags and the
/// minimum known committed version that it was told; and whether it is refused only where no
/// version was drawn, or where that minimum is above it.
fn is_of_issued(chain: &[Issued], own: &Replies, input: &Input, answer: &CallAnswer) -> bool
    ensures { result ≡ is_of_issued
        (drawn_version chain.now own.now (number_of input.now)) input.now answer.now }
{
    let Input::Report {
        num,
        locked,
        metadata,
        min_known,
    } = input
    else {
        return true;
    };
    match answer {
        CallAnswer::Acked { rec, .. } => {
            drawn_version(chain, own, *num) == Some(rec.version)
                && rec.locked == *locked
                && rec.metadata == *metadata
                && rec.min_known == *min_known
        }
        CallAnswer::Refused(Refusal::NotIssued) => drawn_version(chain, own, *num).is_none(),
        CallAnswer::Refused(Refusal::MinAbove) => match drawn_version(chain, own, *num) {
            Some(version) => version < *min_known,
            None => false,
        },
        _ => true,
    }
}

/// The version that was drawn under a number, whether its answer is still kept or not.
fn drawn_version(chain: &[Issued], own: &Replies, num: u64) -> Option<u64>
    ensures { result ≡ drawn_version chain.now own.now num }
{
    let entry = answer_at(chain, own.drawn_place(num))?;
    Some(entry.version)
}
