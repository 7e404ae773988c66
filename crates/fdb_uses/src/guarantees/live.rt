//! Reads and reports of the live record with no client between, by tokens alone.

ghost use Rattle.std.specs.Prelude.{◌≡◌, ◌*◌, ◌<◌, ◌≤◌, ◌⊎◌, ℕ, [], All, IfOk, IsSome, length};
ghost use Rattle.std.specs.Prelude.{false, true};
ghost use mathlib.Core.List.{IsPrefix};
ghost use Rattle.fdb_live.specs.Gathering.{AreNumbered, IsOwnedOnce};
ghost use Rattle.fdb_live.specs.Holding.{own_answers};
ghost use Rattle.fdb_live.specs.Seen.{last_record, origin_of, own_positions};

use fdb_history::{MAX_VERSION, OpenGate, Record};
use fdb_live::{Ack, Fetched, Live, LiveError, LiveRecord, MAX_REPORTERS, Opened, Seen};
use std::alloc::{AllocError, Global};
use std::marker::Brand;
use std::sync::Wait;

/// Opens a live record, whose first record is in range. It is refused for memory alone.
pub fn open<R: Wait>(
    rt: &R,
    alloc: Global,
    start: Record,
    reporters: u32,
) -> Result<Opened, AllocError>
    requires reporters { (0 < reporters) × (reporters ≤ MAX_REPORTERS) }
    requires in_range { start.version ≤ MAX_VERSION }
    requires within { start.min_known ≤ start.version }
    ensures { IfOk result (λ opened. opened.start ≡ start) }
{
    match LiveRecord::<Brand>::open(rt, alloc, start, reporters, None) {
        Ok(opened) => Ok(opened),
        Err(LiveError::Memory) => Err(AllocError),
        Err(LiveError::TooLarge | LiveError::MinAbove) => unreachable!(),
    }
}

/// The live record that was opened, with a token for who only reads, which has seen no change yet. It
/// is refused for memory alone.
pub fn share<S: Live>(opened: Opened) -> Result<(LiveRecord<S>, Seen<S>), AllocError>
    requires { opened ≡ origin_of S.table S.start S.reporters S.chained S.epoch_end S.recovery }
    ensures { IfOk result (λ parts. parts.1.changes ≡ []) }
{
    match opened.parts::<S>() {
        Ok((live, reader, _)) => Ok((live, reader)),
        Err(LiveError::Memory) => Err(AllocError),
        Err(_) => unreachable!(),
    }
}

/// Who reported a version reads none below it.
pub fn report_and_look<S: Live, R: Wait>(
    rt: &R,
    live: &LiveRecord<S>,
    seen: &mut Seen<S>,
    rec: Record,
) -> Result<Fetched, LiveError>
    requires mine { IsSome seen.old.reporter }
    requires bare { S.chained ≡ false }
    ensures { IfOk result (λ read. rec.version ≤ read.rec.version) }
{
    live.report(rt, &OpenGate, 0, seen, rec)?;
    Ok(live.read(rt, seen))
}

/// Of two reads with one token the second is of no older version, and of no earlier position. A read is
/// within bounds: its minimum known committed version is not above its version, and its position, the
/// number of reports that changed the record, not above twice that.
pub fn look_twice<S: Live, R: Wait>(
    rt: &R,
    live: &LiveRecord<S>,
    seen: &mut Seen<S>,
) -> (Fetched, Fetched)
    ensures rises { result.0.rec.version ≤ result.1.rec.version }
    ensures order { result.0.position ≤ result.1.position }
    ensures minimum { result.1.rec.min_known ≤ result.1.rec.version }
    ensures greatest { result.1.rec.version ≤ MAX_VERSION }
    ensures position { result.1.position ≤ 2 * result.1.rec.version }
{
    let first = live.read(rt, seen);
    let second = live.read(rt, seen);
    (first, second)
}

/// Where there is no chain of commit versions, who looks sees no answer of one.
pub fn look_beside_no_chain<S: Live, R: Wait>(
    rt: &R,
    live: &LiveRecord<S>,
    seen: &mut Seen<S>,
) -> Fetched
    requires { S.chained ≡ false }
    ensures { seen.new.answers ≡ [] }
{
    live.read(rt, seen)
}

/// Who learns what another had read, and what that one had reported, reads no older version.
pub fn look_once_told<S: Live, R: Wait>(
    rt: &R,
    live: &LiveRecord<S>,
    teller: &mut Seen<S>,
    learner: &mut Seen<S>,
    rec: Record,
) -> Result<(Fetched, Fetched), LiveError>
    requires mine { IsSome teller.old.reporter }
    requires bare { S.chained ≡ false }
    ensures reported { IfOk result (λ reads. rec.version ≤ reads.1.rec.version) }
    ensures read { IfOk result (λ reads. reads.0.rec.version ≤ reads.1.rec.version) }
{
    live.report(rt, &OpenGate, 0, teller, rec)?;
    let first = live.read(rt, teller);
    let told = live.split(teller);
    live.learn(rt, learner, told);
    let second = live.read(rt, learner);
    Ok((first, second))
}

/// An acknowledgement is within the same bounds, with the record that its reporter has then seen, whose
/// minimum is not below the one that was reported. Who reports a version above all that it has seen,
/// and is told that this raised the record, has its next look begin from that version; where it is told
/// that this changed the record, from one that is not below it.
pub fn report_within<S: Live, R: Wait>(
    rt: &R,
    live: &LiveRecord<S>,
    seen: &mut Seen<S>,
    rec: Record,
) -> Result<Ack, LiveError>
    requires mine { IsSome seen.old.reporter }
    requires bare { S.chained ≡ false }
    ensures minimum { IfOk result (λ _. (last_record S.start seen.new.changes).min_known
        ≤ (last_record S.start seen.new.changes).version) }
    ensures covers { IfOk result
        (λ _. rec.min_known ≤ (last_record S.start seen.new.changes).min_known) }
    ensures greatest { IfOk result
        (λ _. (last_record S.start seen.new.changes).version ≤ MAX_VERSION) }
    ensures position { IfOk result
        (λ ack. ack.position ≤ 2 * (last_record S.start seen.new.changes).version) }
    ensures begins { IfOk result (λ ack. ack.position ≡ length seen.new.changes) }
    ensures raised { (last_record S.start seen.old.changes).version < rec.version
        → IfOk result (λ ack. ack.raised ≡ true
        → (last_record S.start seen.new.changes).version ≡ rec.version) }
    ensures changed { (last_record S.start seen.old.changes).version < rec.version
        → IfOk result (λ ack. ack.changed ≡ true
        → rec.version ≤ (last_record S.start seen.new.changes).version) }
{
    live.report(rt, &OpenGate, 0, seen, rec)
}

/// Of two tokens one has seen all changes and all answers that the other has, and the changes are those
/// of the service's own reporters.
pub fn compare<S: Live, R: Wait>(
    rt: &R,
    live: &LiveRecord<S>,
    first: &mut Seen<S>,
    second: &mut Seen<S>,
)
    ensures changes { IsPrefix first.new.changes second.new.changes
        ⊎ IsPrefix second.new.changes first.new.changes }
    ensures answers { IsPrefix first.new.answers second.new.answers
        ⊎ IsPrefix second.new.answers first.new.answers }
    ensures reporters { All (λ change. change.reporter < S.reporters) first.new.changes }
{
    live.meet(rt, first, second);
}

/// A second token of what a first has seen, and how much that is: each of these changes is a reporter's.
pub fn second_of<S: Live>(live: &LiveRecord<S>, token: &mut Seen<S>) -> (Seen<S>, u64)
    ensures { All (λ change. change.reporter < S.reporters) result.0.changes }
{
    let second = live.split(token);
    let position = second.position();
    (second, position)
}

/// Once what all have seen is brought together, each position up to there is one reporter's own. The
/// token by which that is done has forgotten no answer, and has reported and drawn what it had.
pub fn bring_together<S: Live, R: Wait>(
    rt: &R,
    live: &LiveRecord<S>,
    first: &mut Seen<S>,
    tokens: &mut [Seen<S>],
) -> u64
    requires count { length tokens.old ≡ S.reporters }
    requires numbered { AreNumbered tokens.old }
    ensures owned { (position : ℕ) → 1 ≤ position → position ≤ result
        → IsOwnedOnce tokens.new position }
    ensures answers { IsPrefix first.old.answers first.new.answers }
    ensures own { own_positions first.new ≡ own_positions first.old }
    ensures own_answers { own_answers first.new ≡ own_answers first.old }
{
    live.gather(rt, first, tokens)
}
