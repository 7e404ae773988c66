//! The master of a service: its sequencer and its live record, asked with tokens.

ghost use Rattle.std.specs.Prelude.{◌≡◌, ◌<◌, ℕ, length, List, IfOk, Some, slice_get, true};
ghost use mathlib.Core.List.{IsPrefix};
ghost use Rattle.fdb_chain.specs.ChainCore.{IsEpoch, new_chain};
ghost use Rattle.fdb_history.specs.declared.chain.Issued.{Issued};
ghost use Rattle.fdb_live.specs.Gathering.{AreNumbered, HasCaughtUp, IsClosedAfter};
ghost use Rattle.fdb_live.specs.Holding.{IsAsked, IsDue, IsIssued};
ghost use Rattle.fdb_live.specs.Seen.{Sight};

use crate::live_record::LiveRecord;
use crate::right::Drawer;
use crate::seen::{Live, Seen};
use crate::view::Cell;
use fdb_chain::ChainError;
use fdb_history::{Ask, Gate, Issued, Place, laws};
use std::sync::{Mutex, Wait};

/// The commit versions and the live committed version of the service `S`, for threads to ask for
/// with tokens (masterserver, FoundationDB 7.1, is one process with both).
///
/// Who asks holds the token of a commit proxy, and nobody else draws under its number. A token tells
/// which answers and which changes its holder has seen. So each answer is known by the answers of
/// the asker's own proxy, and a fresh version is above all that its asker had seen or been told.
#[derive(Drop)]
pub struct Master<S: Live> {
    pub(crate) live: LiveRecord<S>,
    pub(crate) drawer: Mutex<Drawer<S>>,
    pub(crate) ghost chained: { S.chained ≡ true },
}

impl<S: Live> Master<S> {
    /// The live record. With it the holders of tokens read and report, split and compare their
    /// tokens, and learn from those of others.
    #[inline]
    pub fn record(&self) -> &LiveRecord<S>
        ensures same { result.now ≡ self.now.live }
    {
        &self.live
    }

    /// Answers a request for a commit version, for the holder of its proxy's token (`getVersion` of
    /// masterserver). While the lock of the asks is held, the gate's `SequencerHeld` is passed with
    /// the proxy's number, before the chain is asked.
    ///
    /// It is refused as `Early`, `Forgotten` or `Exhausted`, or for memory, and the chain is then as
    /// it was. The holder has then seen a fresh answer and all before it, and maybe more answers in
    /// each other case, but no change of the live record. It waits for the other asks, and takes
    /// constant time, the growth of the chain aside.
    #[inline]
    pub fn ask<R: Wait, G: Gate>(
        &self,
        rt: &R,
        gate: &G,
        token: &mut Seen<S>,
        ask: Ask,
    ) -> Result<Issued, ChainError>
        requires numbered { token.old.reporter ≡ Some ask.proxy }
        ensures token { token.new ≡ record token.old { answers = token.new.answers } }
        ensures extends { IsPrefix token.old.answers token.new.answers }
        ensures asked { IsAsked (new_chain S.epoch_end S.recovery S.reporters)
            ask token.old result token.new }
        ensures chain { IsEpoch S.epoch_end S.recovery × (ask.proxy < S.reporters) }
        ensures issued { IfOk result (IsIssued S.start ask token.old token.new) }
        ensures due { IsDue (new_chain S.epoch_end S.recovery S.reporters)
            ask token.old result token.new }
    {
        // The check learns here what holds of each chain.
        laws::versions_rise();
        laws::each_is_next();
        laws::kept_is_first();
        laws::own_answers_decide();
        let mut drawer = self.drawer.lock(rt);
        gate.pass(Place::SequencerHeld, ask.proxy);
        drawer.ask(rt, &self.live.cell, token, ask)
    }

    /// Gives up the service, once nobody asks any more, with the tokens of all commit proxies, in
    /// order, and answers how many commit versions it has drawn. Each holder has then seen all
    /// answers, and what are its own is as before.
    pub fn close<R: Wait>(self, rt: &R, tokens: &mut [Seen<S>]) -> u64
        requires count { length tokens.old ≡ S.reporters }
        requires numbered { AreNumbered tokens.old }
        ensures closed { (answers : List Issued)
            × IsClosedAfter S.epoch_end S.recovery S.reporters answers tokens.old tokens.new
            × (length answers ≡ result) }
        ensures count { length tokens.new ≡ length tokens.old }
    {
        let Master { live, drawer } = self;
        let mut drawer = drawer.into_inner();
        look_each(rt, &live.cell, &mut drawer, tokens);
        drawer.count()
    }
}

/// The holders of all these tokens see all answers so far.
fn look_each<S: Live, R: Wait>(rt: &R, cell: &Cell, drawer: &mut Drawer<S>, tokens: &mut [Seen<S>])
    requires cell { cell.now.table.shared.table_id ≡ S.table }
    requires numbered { AreNumbered tokens.old }
    ensures chain { drawer.new ≡ drawer.old }
    ensures count { length tokens.new ≡ length tokens.old }
    ensures each { (k : ℕ) (token : Sight) → slice_get tokens.old k ≡ Some token
        → HasCaughtUp (record token { answers = drawer.old.answers }) token k tokens.new }
{
    for token in tokens.iter_mut() {
        drawer.look(rt, cell, token);
    }
}
