//! The live record, which reports replace under a lock and reads load without it.

ghost use Rattle.std.specs.Prelude.{◌≡◌, ◌≢◌, ◌<◌, ◌≤◌, ◌⊎◌, [], length, None, Contains, IsSome};
ghost use Rattle.std.specs.Prelude.{IfErr, IfOk, OnErr, Some, slice_get, true, false, ℕ};
ghost use mathlib.Core.List.{IsPrefix};
ghost use Rattle.fdb_history.specs.declared.chain.Issued.{Issued};
ghost use Rattle.fdb_live.specs.Holding.{AreDrawn, HasLearnt, HasSeenMore, IsAcked, IsRead};
ghost use Rattle.fdb_live.specs.Holding.{least_above, own_answers, versions};
ghost use Rattle.fdb_live.specs.Seen.{IsBounded, IsLog, IsNotBehind, IsRefusedFor, Sight};
ghost use Rattle.fdb_live.specs.Seen.{last_record, own_positions};
ghost use Rattle.fdb_live.specs.Gathering.{AreNumbered, AreTogether, HasCaughtUp, IsOwnKept};
ghost use Rattle.fdb_live.specs.Gathering.{IsOwnedOnce, IsSameHolder, IsSeenBy};

use crate::held::Fetched;
use crate::passes;
use crate::right::Right;
use crate::seen::{Live, Seen};
use crate::view::Cell;
use fdb_history::{Gate, Issued, MAX_VERSION, Place, Record, laws};
use std::alloc::AllocError;
use std::marker::PhantomData;
use std::sync::{Mutex, Wait};
use thiserror::Error;

/// Why a live record is not opened, or a report not taken.
#[derive(Clone, Copy, Debug, PartialEq, Eq, Error)]
pub enum LiveError {
    /// The version is above the greatest one, `MAX_VERSION` of `fdb_history`.
    #[error("the version is out of range")]
    TooLarge,
    /// The minimum known committed version is above the version. (this product's own: masterserver
    /// takes it as it comes)
    #[error("the minimum known committed version is above the version")]
    MinAbove,
    /// Memory was refused to an opening, or to the tokens; a report takes none.
    #[error("out of memory")]
    Memory,
}

impl From<AllocError> for LiveError {
    ghost use Rattle.std.specs.Prelude.{◌≡◌};
    ghost use Rattle.fdb_live.specs.declared.live_record.LiveError.TheVariants.{Memory};

    ghost from_gives = { λ _ cause. cause ≡ Memory };

    fn from(_refused: AllocError) -> Self {
        LiveError::Memory
    }
}

/// That a report was taken: whether it raised the record, whether it changed it, and the number of
/// changes by then (the reply of `reportLiveCommittedVersion` of masterserver, FoundationDB 7.1; all
/// members are this product's own).
#[derive(Clone, Copy, Debug, PartialEq, Eq)]
pub struct Ack {
    /// Whether the report raised the record: its version was greater.
    pub raised: bool,
    /// Whether it changed the record: its version or its minimum known committed version was
    /// greater.
    pub changed: bool,
    /// How many changes there were by then, with this report where it is one.
    pub position: u64,
}

/// The live committed version of the service `S`, in one register that threads share
/// (`liveCommittedVersion` and its companions in masterserver, FoundationDB 7.1).
///
/// Reports take turns under a lock that only they take. A read does not take it: it loads the six
/// words of a sequence cell, and only where a replacement came between does it take the cell's own
/// lock for a moment. No call on it takes memory, and each takes constant time, waiting aside.
///
/// Where the service has a chain of commit versions, its [`Master`](crate::Master) lends its
/// record, and only versions that the chain has drawn are reported. Where it has no chain, other
/// versions may be reported too, and no token has seen an answer to a request for a commit version.
#[derive(Drop)]
pub struct LiveRecord<S: Live> {
    pub(crate) cell: Cell,
    pub(crate) reports: Mutex<Right<S>>,
    pub(crate) ghost named: { cell.table.shared.table_id ≡ S.table },
}

impl<S: Live> LiveRecord<S> {
    /// The record and its position (`getLiveCommittedVersion` of masterserver): version, lock,
    /// metadata version and minimum known committed version are those of one moment. The holder of
    /// the token has then seen each change up to that position, and the answers by which the versions
    /// of these changes were drawn.
    ///
    /// It waits for a replacement that is under way, and not for the lock of the reports. No clause
    /// says that a read sees a report of which its caller had seen nothing.
    #[inline]
    pub fn read<R: Wait>(&self, rt: &R, seen: &mut Seen<S>) -> Fetched
        ensures read { IsRead S.start S.reporters seen.old seen.new result }
        ensures seen { HasSeenMore S.start seen.old seen.new }
        ensures own { own_positions seen.new ≡ own_positions seen.old }
        ensures drawn { S.chained ≡ true → AreDrawn seen.new.answers seen.new.changes }
        ensures no_chain { S.chained ≡ false → seen.new.answers ≡ [] }
    {
        // The check learns here that the versions of a chain rise.
        laws::versions_rise();
        let fetched = passes::look(rt, &self.cell, &mut seen.pass);
        seen.position = fetched.position;
        fetched
    }

    /// Reports a committed version (`reportLiveCommittedVersion` of masterserver) for the reporter
    /// whose token it is. The record becomes what [`Record::after_report`] makes of it: where the
    /// version is greater, it is replaced with its lock and metadata version, and in either case
    /// the minimum known committed version becomes the greater of the two
    /// (`minKnownCommittedVersion` of `ReportRawCommittedVersionRequest`). Each report that changes
    /// the record has a position of its own; one that does not writes no word. It is acknowledged
    /// in each case. Where the service has a chain, the holder of the token knows that the version
    /// was drawn.
    ///
    /// It is refused as `TooLarge` where the version is above the greatest one, which none that was
    /// drawn is, else as `MinAbove` where the minimum known committed version is above the version,
    /// and for nothing else. It waits for the other reports. While it holds their lock it passes the
    /// gate as `who`, before it looks at the record.
    #[tactic(auto, using(crate::proofs::Rising::never_behind))]
    #[inline]
    pub fn report<R: Wait, G: Gate>(
        &self,
        rt: &R,
        gate: &G,
        who: u32,
        seen: &mut Seen<S>,
        rec: Record,
    ) -> Result<Ack, LiveError>
        requires numbered { IsSome seen.old.reporter }
        requires drawn { S.chained ≡ true → Contains (versions seen.old.answers) rec.version }
        ensures acked { IfOk result (IsAcked S.start rec seen.old seen.new) }
        ensures refused { IfErr result (IsRefusedFor S.chained rec) }
        ensures err { OnErr result (seen.new ≡ seen.old) }
        ensures seen { HasSeenMore S.start seen.old seen.new }
    {
        // The check learns here that the versions of a chain rise.
        laws::versions_rise();
        // And that what its holder has seen is one.
        let _ = seen.position();
        if rec.version > MAX_VERSION {
            return Err(LiveError::TooLarge);
        }
        if rec.min_known > rec.version {
            return Err(LiveError::MinAbove);
        }
        let mut drawer = self.reports.lock(rt);
        gate.pass(Place::ReportHeld, who);
        Ok(drawer.report(rt, &self.cell, seen, rec))
    }

    /// A second token that has seen the same, with no number. It waits for nobody.
    #[inline]
    pub fn split(&self, seen: &mut Seen<S>) -> Seen<S>
        ensures same { seen.new ≡ seen.old }
        ensures given { result ≡ record seen.old { reporter = None } }
    {
        Seen {
            number: None,
            position: seen.position,
            pass: passes::copy(&self.cell, &mut seen.pass),
            of: PhantomData,
        }
    }

    /// The holder of the first token learns what that of the second has seen. It keeps its number.
    #[tactic(auto, using(crate::proofs::Rising::never_behind))]
    #[inline]
    pub fn learn<R: Wait>(&self, rt: &R, seen: &mut Seen<S>, told: Seen<S>)
        requires { told.reporter ≡ None }
        ensures seen { HasSeenMore S.start seen.old seen.new }
        ensures learnt { HasLearnt S.start told seen.old seen.new }
        ensures bounded { IsBounded
            (length seen.new.changes)
            (last_record S.start seen.new.changes) }
        ensures own { own_positions seen.new ≡ own_positions seen.old }
    {
        // The check learns here that the versions of a chain rise.
        laws::versions_rise();
        let Seen {
            number: _,
            position,
            mut pass,
            of: _,
        } = told;
        let told = passes::give_all(&self.cell, &mut pass);
        passes::learn(rt, &self.cell, &mut seen.pass, told);
        if seen.position < position {
            seen.position = position;
        }
    }

    /// Shows by its clauses, and answers nothing, that of two tokens one has seen all changes that
    /// the other has seen, from the first on, and that one has seen all answers that the other has;
    /// and that no two answers that they have seen are of one version. Both tokens stay as they
    /// are.
    #[inline]
    pub fn meet<R: Wait>(&self, rt: &R, first: &mut Seen<S>, second: &mut Seen<S>)
        ensures first { first.new ≡ first.old }
        ensures second { second.new ≡ second.old }
        ensures one { IsPrefix first.old.changes second.old.changes
            ⊎ IsPrefix second.old.changes first.old.changes }
        ensures log { IsLog S.start S.reporters first.new.changes
            × IsLog S.start S.reporters second.new.changes }
        ensures answers { IsPrefix first.old.answers second.old.answers
            ⊎ IsPrefix second.old.answers first.old.answers }
        ensures unique { (one other : Issued) → Contains first.old.answers one
            → Contains second.old.answers other → one.version ≡ other.version → one ≡ other }
    {
        // The check learns here that the versions of a chain rise.
        laws::versions_rise();
        let mut mine = passes::copy(&self.cell, &mut first.pass);
        let theirs = passes::copy(&self.cell, &mut second.pass);
        passes::learn(rt, &self.cell, &mut mine, theirs);
    }

    /// Shows that two answers to two commit proxies are of different versions, where the holders of
    /// two tokens have seen them. Both tokens stay as they are.
    #[inline]
    pub fn distinct<R: Wait>(
        &self,
        rt: &R,
        first: &mut Seen<S>,
        one: Issued,
        second: &mut Seen<S>,
        other: Issued,
    )
        requires one { slice_get first.old.answers one.ordinal
            ≡ Some (record one { fresh = true }) }
        requires other { slice_get second.old.answers other.ordinal
            ≡ Some (record other { fresh = true }) }
        requires proxies { one.proxy ≢ other.proxy }
        ensures first { first.new ≡ first.old }
        ensures second { second.new ≡ second.old }
        ensures versions { one.version ≢ other.version }
    {
        let _ = (one, other);
        self.meet(rt, first, second);
    }
}

impl<S: Live> LiveRecord<S> {
    /// Brings together what the holders of all reporters' tokens, in order, and of another token
    /// have seen. All of them have then seen the same, up to the position that is answered, and each
    /// position is owned by exactly one of the reporters. What each owns is as before.
    ///
    /// It refuses nothing, takes no memory, and waits as a read does. It takes time in proportion to
    /// the number of reporters.
    pub fn gather<R: Wait>(&self, rt: &R, first: &mut Seen<S>, others: &mut [Seen<S>]) -> u64
        requires count { length others.old ≡ S.reporters }
        requires numbered { AreNumbered others.old }
        ensures position { result ≡ length first.new.changes }
        ensures together { AreTogether S.reporters first.new others.new }
        ensures first { IsSameHolder first.old first.new }
        ensures each { (k : ℕ) (token : Sight) → slice_get others.old k ≡ Some token
            → HasCaughtUp first.new token k others.new }
        ensures one_owner { (position : ℕ) → 1 ≤ position → position ≤ result
            → IsOwnedOnce others.new position }
        ensures log { IsLog S.start S.reporters first.new.changes }
    {
        self.learn_from(rt, first, others);
        let position = self.read(rt, first).position;
        self.teach(rt, first, others);
        position
    }

    /// The holder of the first token learns what those of the others have seen.
    fn learn_from<R: Wait>(&self, rt: &R, first: &mut Seen<S>, others: &mut [Seen<S>])
        ensures others { others.new ≡ others.old }
        ensures reporter { first.new.reporter ≡ first.old.reporter }
        ensures extends { IsPrefix first.old.changes first.new.changes }
        ensures answers { IsPrefix first.old.answers first.new.answers }
        ensures each { (k : ℕ) (token : Sight) → slice_get others.old k ≡ Some token
            → IsSeenBy first.new token }
        ensures own { own_positions first.new ≡ own_positions first.old }
        ensures own_answers { own_answers first.new ≡ own_answers first.old }
    {
        for other in others.iter_mut() {
            let told = self.split(other);
            self.learn(rt, first, told);
        }
    }

    /// The holders of the others learn what that of the first token has seen, which is no less.
    fn teach<R: Wait>(&self, rt: &R, first: &mut Seen<S>, others: &mut [Seen<S>])
        requires { (k : ℕ) (token : Sight) → slice_get others.old k ≡ Some token
            → IsSeenBy first.old token }
        ensures first { first.new ≡ first.old }
        ensures count { length others.new ≡ length others.old }
        ensures each { (k : ℕ) (token : Sight) → slice_get others.old k ≡ Some token
            → slice_get others.new k
            ≡ Some (record first.new { reporter = token.reporter }) }
        ensures own { (k : ℕ) (token : Sight) → slice_get others.old k ≡ Some token
            → IsOwnKept first.new token }
    {
        for other in others.iter_mut() {
            let told = self.split(first);
            self.learn(rt, other, told);
        }
    }
}
