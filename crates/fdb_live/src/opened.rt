//! A service that was opened, and how it gets a name.

ghost use Rattle.std.specs.Prelude.{◌≡◌, ◌+◌, ◌<◌, ◌≤◌, ◌↔◌, ℕ, [], Some, None, IfOk, IfErr};
ghost use Rattle.std.specs.Prelude.{IsSome, option_map, vec_len, slice_get, true, ⊤, false};
ghost use Rattle.std.specs.Prelude.{is_some};
ghost use Rattle.std.specs.Option.{ForSome};
ghost use Rattle.crossbeam_utils.specs.Seq.{cell_view};
ghost use Rattle.fdb_chain.specs.ChainCore.{IsEpoch, IsProxyCount, new_chain};
ghost use Rattle.fdb_chain.specs.Recent.{IsStateOf};
ghost use Rattle.fdb_live.specs.Seen.{IsRecord, MayBegin, epoch_of, origin_of, Origin};
ghost use Rattle.fdb_live.specs.private.Rule.{left_from, opened};
ghost use Rattle.fdb_live.specs.private.Token.{IsMadeFor, IsRight};

use crate::held::{Fetched, Held};
use crate::live_record::{LiveError, LiveRecord};
use crate::master::Master;
use crate::passes::{self, Pass};
use crate::right::{Drawer, Right};
use crate::seen::{Live, Seen};
use crate::view::{Cell, Epoch};
use fdb_chain::RecentChain;
use fdb_history::{MAX_VERSION, Record};
use std::alloc::{AllocError, Global};
use std::marker::{Brand, Model, PhantomData};
use std::sync::{Mutex, Wait};

/// The most reporters that a live record may have.
pub const MAX_REPORTERS: u32 = 64;

/// A service that was opened. Contracts see it as what it was opened with, and where its live
/// record is. [`Opened::parts`] or [`Opened::master`] gives the record, or the master, and its
/// tokens, under a type `S` that is the name of the service in their types, and stands for what
/// contracts see.
#[derive(Drop)]
pub struct Opened {
    core: Option<RecentChain>,
    cell: Cell,
    pass: Pass,
    reporters: u32,
    alloc: Global,
}

impl Model for Opened {
    ghost use Rattle.std.specs.Prelude.{◌≡◌, ◌<◌, ◌≤◌};
    ghost use Rattle.crossbeam_utils.specs.Seq.{cell_view};
    ghost use Rattle.fdb_live.specs.private.Rule.{opened};
    ghost use Rattle.fdb_live.specs.private.Token.{IsMadeFor};
    ghost use Rattle.fdb_live.specs.Seen.{IsRecord, Origin};

    ghost Value = { Origin };

    ghost view = { λ o. record {
      table = o.cell.table.shared.table_id;
      start = (cell_view o.pass).start;
      reporters = o.reporters;
      epoch = (cell_view o.pass).epoch;
    } };

    ghost invariant = { λ o. (o.pass.table_id ≡ o.cell.table.shared.table_id)
        × (0 < o.reporters)
        × IsRecord (cell_view o.pass).start
        × (cell_view o.pass ≡ opened (cell_view o.pass).start (cell_view o.pass).epoch o.reporters)
        × IsMadeFor (cell_view o.pass).start o.reporters (cell_view o.pass).epoch o.core };
}

impl LiveRecord<Brand> {
    /// Opens a live record, with its first record and for this many reporters; with a chain of commit
    /// versions beside it, if an epoch is given. Each reporter is then a commit proxy too.
    ///
    /// It is refused as `TooLarge` where the version is above the greatest one, else as `MinAbove`
    /// where the minimum known committed version is above the version, else for memory.
    pub fn open<R: Wait>(
        rt: &R,
        alloc: Global,
        start: Record,
        reporters: u32,
        epoch: Option<Epoch>,
    ) -> Result<Opened, LiveError>
        requires reporters { (0 < reporters) × (reporters ≤ MAX_REPORTERS) }
        requires epoch { ForSome epoch (λ epoch. MayBegin epoch start reporters) }
        ensures too_large { (result ≡ Err LiveError.TooLarge) ↔ (MAX_VERSION < start.version) }
        ensures min_above { (result ≡ Err LiveError.MinAbove)
            ↔ ((start.version ≤ MAX_VERSION) × (start.version < start.min_known)) }
        ensures start { IfOk result (λ o. o.start ≡ start) }
        ensures reporters { IfOk result (λ o. o.reporters ≡ reporters) }
        ensures epoch { IfOk result (λ o. o.epoch ≡ epoch) }
    {
        if start.version > MAX_VERSION {
            return Err(LiveError::TooLarge);
        }
        if start.min_known > start.version {
            return Err(LiveError::MinAbove);
        }
        let core = core_for(alloc, start, reporters, epoch)?;
        let begun = Fetched {
            rec: start,
            position: 0,
        };
        let (cell, mut pass) = Cell::ruled(alloc, Held::of(begun))?;
        passes::open_as::<Brand, Brand, R>(rt, &cell, &mut pass, start, reporters, epoch);
        Ok(Opened {
            core,
            cell,
            pass,
            reporters,
            alloc,
        })
    }
}

/// The chain of an epoch, if one is given.
fn core_for(
    alloc: Global,
    start: Record,
    reporters: u32,
    epoch: Option<Epoch>,
) -> Result<Option<RecentChain>, AllocError>
    requires { ForSome epoch (λ epoch. MayBegin epoch start reporters) }
    ensures { IfOk result (λ core. IsMadeFor start reporters epoch core) }
{
    let _ = start;
    match epoch {
        None => Ok(None),
        Some(epoch) => match RecentChain::new(alloc, epoch.before, epoch.recovery, reporters) {
            Ok(core) => Ok(Some(core)),
            Err(_) => Err(AllocError),
        },
    }
}

impl Opened {
    /// The live record under a name that stands for it, a token with no number, and one for each
    /// reporter, in order. None of them has seen anything. Where there is a chain, it is given up.
    ///
    /// It is refused where memory runs out, and for nothing else; the service is then given up.
    pub fn parts<S: Live>(self) -> Result<(LiveRecord<S>, Seen<S>, Vec<Seen<S>>), LiveError>
        requires { self ≡ origin_of S.table S.start S.reporters S.chained S.epoch_end S.recovery }
        ensures memory { IfErr result (λ cause. cause ≡ LiveError.Memory) }
        ensures first { IfOk result (λ parts.
            parts.1 ≡ record { reporter = None; changes = []; answers = [] }) }
        ensures count { IfOk result (λ parts. vec_len parts.2 ≡ S.reporters) }
        ensures tokens { IfOk result (λ parts. (k : ℕ) → k < S.reporters →
            slice_get parts.2.items k
            ≡ Some (record { reporter = Some k; changes = []; answers = [] })) }
    {
        let (record, _, first, tokens) = self.share::<S>()?;
        Ok((record, first, tokens))
    }

    /// The master of a service with a chain, and its tokens, as [`Opened::parts`] gives those of a
    /// live record.
    pub fn master<S: Live>(self) -> Result<(Master<S>, Seen<S>, Vec<Seen<S>>), LiveError>
        requires chained { S.chained ≡ true }
        requires opened { self
            ≡ origin_of S.table S.start S.reporters S.chained S.epoch_end S.recovery }
        ensures memory { IfErr result (λ cause. cause ≡ LiveError.Memory) }
        ensures first { IfOk result (λ parts.
            parts.1 ≡ record { reporter = None; changes = []; answers = [] }) }
        ensures count { IfOk result (λ parts. vec_len parts.2 ≡ S.reporters) }
        ensures tokens { IfOk result (λ parts. (k : ℕ) → k < S.reporters →
            slice_get parts.2.items k
            ≡ Some (record { reporter = Some k; changes = []; answers = [] })) }
    {
        let (live, drawer, first, tokens) = self.share::<S>()?;
        let Some(drawer) = drawer else { unreachable!() };
        let master = Master {
            live,
            drawer: Mutex::new(drawer),
        };
        Ok((master, first, tokens))
    }

    /// The live record, the right to draw if there is a chain, and the tokens.
    fn share<S: Live>(self) -> Result<Shared<S>, AllocError>
        requires { self ≡ origin_of S.table S.start S.reporters S.chained S.epoch_end S.recovery }
        ensures drawer { IfOk result (λ parts. S.chained ≡ true → IsSome parts.1) }
        ensures first { IfOk result (λ parts.
            parts.2 ≡ record { reporter = None; changes = []; answers = [] }) }
        ensures count { IfOk result (λ parts. vec_len parts.3 ≡ S.reporters) }
        ensures tokens { IfOk result (λ parts. (k : ℕ) → k < S.reporters →
            slice_get parts.3.items k
            ≡ Some (record { reporter = Some k; changes = []; answers = [] })) }
    {
        let Opened {
            core,
            cell,
            mut pass,
            reporters,
            alloc,
        } = self;
        let tokens = numbered::<S>(alloc, &cell, &mut pass, reporters)?;
        let first = Seen {
            number: None,
            position: 0,
            pass: passes::copy(&cell, &mut pass),
            of: PhantomData,
        };
        let drawer = drawing::<S>(&cell, &mut pass, core);
        let right = Right {
            pass,
            of: PhantomData,
        };
        let record = LiveRecord {
            cell,
            reports: Mutex::new(right),
        };
        Ok((record, drawer, first, tokens))
    }
}

/// What is shared out of a service that was opened.
type Shared<S> = (LiveRecord<S>, Option<Drawer<S>>, Seen<S>, Vec<Seen<S>>);

/// The right to draw, split off the first pass for the chain, if there is one.
fn drawing<S: Live>(cell: &Cell, pass: &mut Pass, core: Option<RecentChain>) -> Option<Drawer<S>>
    requires cell { cell.now.table.shared.table_id ≡ S.table }
    requires pass { pass.old.table_id ≡ S.table }
    requires left { cell_view pass.old
        ≡ left_from S.reporters S.start (epoch_of S.chained S.epoch_end S.recovery) S.reporters }
    requires core { IsMadeFor S.start S.reporters (epoch_of S.chained S.epoch_end S.recovery) core }
    ensures cell { pass.new.table_id ≡ S.table }
    ensures right { IsRight S.start S.reporters (cell_view pass.new) }
    ensures drawer { S.chained ≡ true → IsSome result }
{
    match core {
        None => None,
        Some(core) => Some(drawing_for::<S>(cell, pass, core)),
    }
}

/// The right to draw for this chain.
fn drawing_for<S: Live>(cell: &Cell, pass: &mut Pass, core: RecentChain) -> Drawer<S>
    requires cell { cell.now.table.shared.table_id ≡ S.table }
    requires pass { pass.old.table_id ≡ S.table }
    requires left { cell_view pass.old
        ≡ left_from S.reporters S.start (epoch_of S.chained S.epoch_end S.recovery) S.reporters }
    requires chained { S.chained ≡ true }
    requires core { IsStateOf core (new_chain S.epoch_end S.recovery S.reporters) }
    requires begins { S.start.version ≤ S.recovery }
    ensures cell { pass.new.table_id ≡ S.table }
    ensures right { IsRight S.start S.reporters (cell_view pass.new) }
{
    Drawer {
        core,
        pass: passes::give_drawing(cell, pass),
        of: PhantomData,
    }
}

/// A token for each reporter, split off the first pass.
fn numbered<S: Live>(
    alloc: Global,
    cell: &Cell,
    pass: &mut Pass,
    reporters: u32,
) -> Result<Vec<Seen<S>>, AllocError>
    requires cell { cell.now.table.shared.table_id ≡ S.table }
    requires pass { pass.old.table_id ≡ S.table }
    requires named { reporters ≡ S.reporters }
    requires opened { cell_view pass.old
        ≡ opened S.start (epoch_of S.chained S.epoch_end S.recovery) reporters }
    requires taken { IsRecord S.start }
    ensures cell { pass.new.table_id ≡ S.table }
    ensures left { IfOk result (λ _. cell_view pass.new
        ≡ left_from reporters S.start (epoch_of S.chained S.epoch_end S.recovery) reporters) }
    ensures count { IfOk result (λ tokens. vec_len tokens ≡ reporters) }
    ensures tokens { IfOk result (λ tokens. (k : ℕ) → k < reporters → slice_get tokens.items k
        ≡ Some (record { reporter = Some k; changes = []; answers = [] })) }
{
    let mut tokens = Vec::with_capacity(alloc, reporters as usize)?;
    for number in 0..reporters {
        tokens.push_reserved(token::<S>(cell, pass, number));
    }
    Ok(tokens)
}

/// The token of the reporter with the lowest number that the first pass has left.
fn token<S: Live>(cell: &Cell, pass: &mut Pass, number: u32) -> Seen<S>
    requires cell { cell.now.table.shared.table_id ≡ S.table }
    requires pass { pass.old.table_id ≡ S.table }
    requires below { number < S.reporters }
    requires taken { IsRecord S.start }
    requires left { cell_view pass.old
        ≡ left_from number S.start (epoch_of S.chained S.epoch_end S.recovery) S.reporters }
    ensures cell { pass.new.table_id ≡ S.table }
    ensures left { cell_view pass.new
        ≡ left_from (number + 1) S.start (epoch_of S.chained S.epoch_end S.recovery) S.reporters }
    ensures token { result ≡ record { reporter = Some number; changes = []; answers = [] } }
{
    Seen {
        number: Some(number),
        position: 0,
        pass: passes::give_lowest(cell, pass),
        of: PhantomData,
    }
}

/// What is done with a service under a name that stands for it.
pub trait UnderName<R> {
    /// What [`run`](UnderName::run) answers, whatever the name is.
    type Output;

    // What it takes; where nothing is said, a service with no chain.
    ghost takes: { Self → Origin → Type 0 } = { λ _ opened. is_some opened.epoch ≡ false };

    // What it promises of that, by what was opened, which the name stands for.
    ghost gives: { Self → Origin → Self.Output → Type 0 } = { λ _ _ _. ⊤ };

    /// Does the work, with what was opened for the service.
    fn run<S: Live + Send + Sync>(self, rt: &R, opened: Opened) -> Self::Output
        requires takes { takes self opened }
        requires chained { S.chained ≡ is_some opened.epoch }
        requires opened { opened
            ≡ origin_of S.table S.start S.reporters S.chained S.epoch_end S.recovery }
        ensures gives { gives self opened result };
}

impl Opened {
    /// Has `uses` do its work with what was opened, under a name that stands for that, and answers
    /// what comes of it.
    pub fn named<R, U: UnderName<R>>(self, rt: &R, uses: U) -> U::Output
        requires takes { U.takes uses self }
        ensures gives { U.gives uses self result }
    {
        run_under::<Brand, R, U>(rt, self, uses)
    }
}

/// Does it under a name that the caller picks.
fn run_under<S: Live + Send + Sync, R, U: UnderName<R>>(
    rt: &R,
    opened: Opened,
    uses: U,
) -> U::Output
    requires takes { U.takes uses opened }
    requires chained { S.chained ≡ is_some opened.epoch }
    requires opened { opened
        ≡ origin_of S.table S.start S.reporters S.chained S.epoch_end S.recovery }
    ensures gives { U.gives uses opened result }
{
    uses.run::<S>(rt, opened)
}
