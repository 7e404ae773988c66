//! The rights to replace the record and to draw commit versions: one pass each, and how it reports
//! or draws for the holder of a token.

ghost use Rattle.std.specs.Prelude.{◌≡◌, ◌≤◌, length, Contains, IsSome, true, false, ◌<◌, All};
ghost use Rattle.std.specs.Prelude.{Some, IfErr, IfOk};
ghost use mathlib.Core.List.{IsPrefix};
ghost use Rattle.fdb_history.specs.Chain.{IsChain};
ghost use Rattle.fdb_chain.specs.ChainCore.{IsEpoch, IsFor, MayRefuse, new_chain};
ghost use Rattle.fdb_chain.specs.Recent.{IsStateOf};
ghost use Rattle.fdb_live.specs.Holding.{own_answers, versions, IsAsked};
ghost use Rattle.fdb_live.specs.Seen.{IsLog, IsRecord, IsChangedBy, IsNotChangedBy};
ghost use Rattle.fdb_live.specs.private.Token.{drawn_of};

use crate::live_record::Ack;
use crate::passes::{self, Pass};
use crate::seen::{Live, Seen};
use crate::view::Cell;
use fdb_chain::{ChainError, RecentChain};
use fdb_history::{Ask, Issued, MAX_VERSION, Record};
use std::marker::{Model, PhantomData};
use std::sync::Wait;

/// The one pass that may replace the record of the service `S`. It lies behind the lock of the
/// reports.
#[derive(Drop)]
pub(crate) struct Right<S: Live> {
    pub(crate) pass: Pass,
    pub(crate) of: PhantomData<S>,
}

impl<S: Live> Model for Right<S> {
    ghost use Rattle.std.specs.Prelude.{◌≡◌};
    ghost use Rattle.crossbeam_utils.specs.Seq.{cell_view};
    ghost use Rattle.fdb_live.specs.private.Token.{IsRight};

    ghost Value = { Unit {0} };

    ghost view = { λ _. tt };

    ghost invariant = { λ r. (r.pass.table_id ≡ S.table)
        × IsRight S.start S.reporters (cell_view r.pass) };
}

impl<S: Live> Right<S> {
    /// Reports a record for the holder of a token. For that, the token's pass is taken in, and its
    /// number is split off again.
    #[inline]
    pub(crate) fn report<R: Wait>(
        &mut self,
        rt: &R,
        cell: &Cell,
        seen: &mut Seen<S>,
        rec: Record,
    ) -> Ack
        requires cell { cell.now.table.shared.table_id ≡ S.table }
        requires numbered { IsSome seen.old.reporter }
        requires taken { IsRecord rec }
        requires drawn { S.chained ≡ true → Contains (versions seen.old.answers) rec.version }
        ensures reporter { seen.new.reporter ≡ seen.old.reporter }
        ensures seen { IsPrefix seen.old.changes seen.new.changes }
        ensures answers { IsPrefix seen.old.answers seen.new.answers }
        ensures own { own_answers seen.new ≡ own_answers seen.old }
        ensures position { result.position ≡ length seen.new.changes }
        ensures chain { IsChain S.epoch_end S.recovery seen.new.answers }
        ensures log { IsLog S.start S.reporters seen.new.changes }
        ensures changed { result.changed ≡ true
            → IsChangedBy S.start rec result.raised seen.old seen.new }
        ensures not_changed { result.changed ≡ false
            → IsNotChangedBy S.start rec result.raised seen.old seen.new }
    {
        let token = passes::give_all(cell, &mut seen.pass);
        passes::take(cell, &mut self.pass, token);
        let ack = passes::report(rt, cell, &mut self.pass, rec);
        seen.pass = passes::give_lowest(cell, &mut self.pass);
        seen.position = ack.position;
        ack
    }
}

/// What the lock of the asks holds: the chain of the service `S`, and the one pass that may draw for
/// it, which has seen just the chain's answers. Contracts see it as that chain.
#[derive(Drop)]
pub(crate) struct Drawer<S: Live> {
    pub(crate) core: RecentChain,
    pub(crate) pass: Pass,
    pub(crate) of: PhantomData<S>,
}

impl<S: Live> Model for Drawer<S> {
    ghost use Rattle.std.specs.Prelude.{◌≡◌, ◌≤◌, true};
    ghost use Rattle.crossbeam_utils.specs.Seq.{cell_view};
    ghost use Rattle.fdb_history.specs.Issuing.{Chain};
    ghost use Rattle.fdb_chain.specs.ChainCore.{chain_of};
    ghost use Rattle.fdb_live.specs.private.Token.{IsDrawer};

    ghost Value = { Chain };

    ghost view = { λ drawer. chain_of S.epoch_end S.recovery S.reporters
        (cell_view drawer.pass).chain.seen };

    ghost invariant = { λ drawer. (S.start.version ≤ S.recovery)
        × (S.chained ≡ true)
        × (drawer.pass.table_id ≡ S.table)
        × IsDrawer S.epoch_end S.recovery S.reporters drawer.core (cell_view drawer.pass) };
}

impl<S: Live> Drawer<S> {
    /// Answers a request for the holder of its proxy's token.
    #[inline]
    pub(crate) fn ask<R: Wait>(
        &mut self,
        rt: &R,
        cell: &Cell,
        token: &mut Seen<S>,
        ask: Ask,
    ) -> Result<Issued, ChainError>
        requires cell { cell.now.table.shared.table_id ≡ S.table }
        requires numbered { token.old.reporter ≡ Some ask.proxy }
        ensures reporter { token.new.reporter ≡ token.old.reporter }
        ensures changes { token.new.changes ≡ token.old.changes }
        ensures asked { IsAsked (new_chain S.epoch_end S.recovery S.reporters)
            ask token.old result token.new }
        ensures request { IfOk result (IsFor ask) }
        ensures in_range { IfOk result (λ issued. issued.version ≤ MAX_VERSION) }
        ensures cause { IfErr result (MayRefuse ask) }
        ensures member { ask.proxy < S.reporters }
        ensures epoch { IsEpoch S.epoch_end S.recovery }
        ensures log { IsChain S.epoch_end S.recovery token.new.answers }
        ensures start { S.start.version ≤ S.recovery }
    {
        let result = self.core.ask(ask);
        self.core.stands_for();
        let drawn = drawn(&result);
        passes::answer::<S, R>(rt, cell, &mut self.pass, &mut token.pass, drawn);
        result
    }

    /// The holder of a token sees all answers so far.
    pub(crate) fn look<R: Wait>(&mut self, rt: &R, cell: &Cell, token: &mut Seen<S>)
        requires cell { cell.now.table.shared.table_id ≡ S.table }
        requires numbered { IsSome token.old.reporter }
        ensures chain { self.new ≡ self.old }
        ensures reporter { token.new.reporter ≡ token.old.reporter }
        ensures changes { token.new.changes ≡ token.old.changes }
        ensures all { token.new.answers ≡ self.old.answers }
        ensures extends { IsPrefix token.old.answers token.new.answers }
        ensures own { own_answers token.new ≡ own_answers token.old }
    {
        passes::answer::<S, R>(rt, cell, &mut self.pass, &mut token.pass, None);
    }

    /// How many commit versions were drawn.
    pub(crate) fn count(&self) -> u64
        ensures count { result ≡ length self.now.answers }
        ensures one_chain { IsChain S.epoch_end S.recovery self.now.answers }
        ensures asked { All (λ answer. answer.proxy < S.reporters) self.now.answers }
    {
        self.core.drawn()
    }
}

/// The answer that is drawn where a request is answered so.
fn drawn(answered: &Result<Issued, ChainError>) -> Option<Issued>
    ensures { result ≡ drawn_of answered.now }
{
    match answered {
        Ok(issued) if issued.fresh => Some(*issued),
        _ => None,
    }
}
