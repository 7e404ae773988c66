//! The steps on passes of the cell: each keeps the rule, and says what has become of the views.

ghost use Rattle.std.specs.Prelude.{◌≡◌, ◌+◌, ◌<◌, ◌≤◌, ◌∷◌, ◌++◌, Contains, IsSome, Some, []};
ghost use Rattle.std.specs.Prelude.{length, true};
ghost use Rattle.std.specs.Option.{ForSome};
ghost use Rattle.crossbeam_utils.specs.Register.{Turns};
ghost use Rattle.crossbeam_utils.specs.Seq.{IsSamePass, cell_view};
ghost use Rattle.fdb_history.specs.Chain.{IsChain};
ghost use Rattle.fdb_history.specs.Register.{after_report, changes};
ghost use Rattle.fdb_live.specs.Holding.{versions};
ghost use Rattle.fdb_live.specs.Seen.{IsRecord, epoch_from, last_record};
ghost use Rattle.fdb_live.specs.private.Token.{DrawsAny, IsReported, IsServed};
ghost use Rattle.fdb_live.specs.private.Rule.{Adds, Draws, InWords, Keeps, Looks, Opens, Settles};
ghost use Rattle.fdb_live.specs.private.Rule.{copy_of, drawer_of, served, without_drawing, first};
ghost use Rattle.fdb_live.specs.private.Rule.{joined, lowest_of, opened, spent, taken};
ghost use Rattle.fdb_live.specs.private.Rule.{without_lowest};
ghost use Rattle.fdb_live.specs.private.Words.{fetched_of};

use crate::held::{Fetched, Held};
use crate::live_record::Ack;
use crate::seen::Live;
use crate::view::{self, AnswerKind, Cell, Epoch, Kind, Reported, View};
use crossbeam_utils::atomic::seq_cell;
use fdb_history::{Issued, Record, Service};
use std::marker::Brand;
use std::sync::Wait;

/// A pass of the cell. It has no bytes.
pub(crate) type Pass = seq_cell::Pass<Held, View>;

/// Opens the service of a name: the first pass writes its first record and gets all numbers.
pub(crate) fn open_as<S: Service, K: Kind, R: Wait>(
    rt: &R,
    cell: &Cell,
    pass: &mut Pass,
    start: Record,
    reporters: u32,
    epoch: Option<Epoch>,
)
    requires cell { pass.old.table_id ≡ cell.now.table.shared.table_id }
    requires first { cell_view pass.old ≡ first }
    requires named { reporters ≡ S.reporters }
    requires kind { epoch ≡ K.epoch }
    requires taken { IsRecord start }
    ensures cell { IsSamePass pass.old pass.new }
    ensures opened { cell_view pass.new ≡ opened start epoch reporters }
{
    let _ = epoch;
    let words = opening::<S, K>(pass, start);
    cell.swap_as::<view::Opens<S, K>, R>(rt, pass, words);
}

/// The words with which the first pass may open the service of a name.
fn opening<S: Service, K: Kind>(pass: &Pass, start: Record) -> Held
    requires first { cell_view pass.now ≡ first }
    requires taken { IsRecord start }
    ensures words { (fetched_of result).rec ≡ start }
    ensures may_open { Turns Keeps pass.now.id (cell_view pass.now) (λ _. result)
        (InWords (Opens K.epoch S.reporters)) }
{
    Held::of(Fetched {
        rec: start,
        position: 0,
    })
}

/// Loads the record. It is always inlined, as is what loads below: LLVM leaves out what the caller
/// does not use, and by itself it inlines a load of no more than four words.
#[tactic(auto, using(crate::proofs::InWords::looks_in_words))]
#[inline(always)]
pub(crate) fn look<R: Wait>(rt: &R, cell: &Cell, pass: &mut Pass) -> Fetched
    requires { pass.old.table_id ≡ cell.now.table.shared.table_id }
    ensures cell { IsSamePass pass.old pass.new }
    ensures looks { Looks (cell_view pass.old) result result (cell_view pass.new) }
{
    cell.load_as::<view::Looks, R>(rt, pass).fetched()
}

/// Replaces the record by what a report makes of it.
#[inline]
pub(crate) fn add<P: Reported, R: Wait>(
    rt: &R,
    cell: &Cell,
    pass: &mut Pass,
    rec: Record,
    next: Fetched,
)
    requires named { rec ≡ P.rec }
    requires cell { pass.old.table_id ≡ cell.now.table.shared.table_id }
    requires right { (cell_view pass.old).replaces ≡ true }
    requires numbered { (cell_view pass.old).low < (cell_view pass.old).high }
    requires next { next.position ≡ length (cell_view pass.old).seen + 1 }
    requires changes { changes
        (last_record (cell_view pass.old).start (cell_view pass.old).seen)
        rec ≡ true }
    requires becomes { next.rec ≡ after_report
        (last_record (cell_view pass.old).start (cell_view pass.old).seen)
        rec }
    requires taken { IsRecord rec }
    requires issued { IsSome (cell_view pass.old).epoch
        → Contains (versions (cell_view pass.old).chain.seen) rec.version }
    ensures cell { IsSamePass pass.old pass.new }
    ensures adds { Adds rec (cell_view pass.old) next next (cell_view pass.new) }
{
    let words = adding::<P>(pass, rec, next);
    cell.swap_as::<view::Adds<P>, R>(rt, pass, words);
}

/// The words by which the pass with the right may replace what the cell keeps.
#[inline]
fn adding<P: Reported>(pass: &Pass, rec: Record, next: Fetched) -> Held
    requires named { rec ≡ P.rec }
    requires right { (cell_view pass.now).replaces ≡ true }
    requires numbered { (cell_view pass.now).low < (cell_view pass.now).high }
    requires next { next.position ≡ length (cell_view pass.now).seen + 1 }
    requires changes { changes
        (last_record (cell_view pass.now).start (cell_view pass.now).seen)
        rec ≡ true }
    requires becomes { next.rec ≡ after_report
        (last_record (cell_view pass.now).start (cell_view pass.now).seen)
        rec }
    requires taken { IsRecord rec }
    requires issued { IsSome (cell_view pass.now).epoch
        → Contains (versions (cell_view pass.now).chain.seen) rec.version }
    ensures { Turns Keeps pass.now.id (cell_view pass.now) (λ _. result) (InWords (Adds P.rec)) }
{
    Held::of(next)
}

/// Splits off a pass that has seen the same, with no number and no right to replace.
#[tactic(auto, using(crate::proofs::InWords::copies_in_words))]
pub(crate) fn copy(cell: &Cell, pass: &mut Pass) -> Pass
    requires { pass.old.table_id ≡ cell.now.table.shared.table_id }
    ensures kept { IsSamePass pass.old pass.new × (cell_view pass.new ≡ cell_view pass.old) }
    ensures given { (result.table_id ≡ pass.old.table_id)
        × (cell_view result ≡ copy_of (cell_view pass.old))
        × (result.me.1 ≡ []) }
{
    cell.split_pass::<view::Copied>(pass)
}

/// Splits off a pass that has the lowest number alone, and has seen the same.
#[tactic(auto, using(crate::proofs::InWords::gives_lowest_in_words))]
pub(crate) fn give_lowest(cell: &Cell, pass: &mut Pass) -> Pass
    requires cell { pass.old.table_id ≡ cell.now.table.shared.table_id }
    requires numbered { (cell_view pass.old).low < (cell_view pass.old).high }
    ensures kept { IsSamePass pass.old pass.new
        × (cell_view pass.new ≡ without_lowest (cell_view pass.old)) }
    ensures given { (result.table_id ≡ pass.old.table_id)
        × (cell_view result ≡ lowest_of (cell_view pass.old))
        × (result.me.1 ≡ []) }
{
    cell.split_pass::<view::Lowest>(pass)
}

/// Splits off a pass that has all that this one had, which is spent then.
#[tactic(auto, using(crate::proofs::InWords::gives_all_in_words))]
pub(crate) fn give_all(cell: &Cell, pass: &mut Pass) -> Pass
    requires { pass.old.table_id ≡ cell.now.table.shared.table_id }
    ensures kept { IsSamePass pass.old pass.new × (cell_view pass.new ≡ spent) }
    ensures given { (result.table_id ≡ pass.old.table_id)
        × (cell_view result ≡ cell_view pass.old)
        × (result.me.1 ≡ []) }
{
    cell.split_pass::<view::Whole>(pass)
}

/// Takes in what another pass has seen. Its numbers and its right stay as they are.
#[inline(always)]
pub(crate) fn learn<R: Wait>(rt: &R, cell: &Cell, pass: &mut Pass, other: Pass) -> Fetched
    requires cell { pass.old.table_id ≡ cell.now.table.shared.table_id }
    requires other { (other.table_id ≡ pass.old.table_id) × (other.me.1 ≡ []) }
    ensures cell { IsSamePass pass.old pass.new }
    ensures learns { Settles (joined (cell_view pass.old) (cell_view other)) result result
        (cell_view pass.new) }
{
    join(cell, pass, other);
    settle(rt, cell, pass)
}

/// Takes in what another pass has seen, and leaves the join to be ended by a load.
fn join(cell: &Cell, pass: &mut Pass, other: Pass)
    requires cell { pass.old.table_id ≡ cell.now.table.shared.table_id }
    requires other { (other.table_id ≡ pass.old.table_id) × (other.me.1 ≡ []) }
    ensures joined { IsSamePass pass.old pass.new
        × (cell_view pass.new ≡ joined (cell_view pass.old) (cell_view other)) }
    ensures may_settle { Turns Keeps pass.new.id (cell_view pass.new) (λ x. x) (InWords Settles) }
{
    cell.join_pass::<view::Joined>(pass, other);
}

/// Ends a join by a load, and leaves what was seen as it is.
#[inline(always)]
fn settle<R: Wait>(rt: &R, cell: &Cell, pass: &mut Pass) -> Fetched
    requires cell { pass.old.table_id ≡ cell.now.table.shared.table_id }
    requires may_settle { Turns Keeps pass.old.id (cell_view pass.old) (λ x. x) (InWords Settles) }
    ensures cell { IsSamePass pass.old pass.new }
    ensures settles { Settles (cell_view pass.old) result result (cell_view pass.new) }
{
    cell.load_as::<view::Settles, R>(rt, pass).fetched()
}

/// The pass with the right to replace takes in another one with its number.
pub(crate) fn take(cell: &Cell, pass: &mut Pass, other: Pass)
    requires cell { pass.old.table_id ≡ cell.now.table.shared.table_id }
    requires other { (other.table_id ≡ pass.old.table_id) × (other.me.1 ≡ []) }
    requires right { (cell_view pass.old).replaces ≡ true }
    requires opened { 0 < (cell_view other).reporters }
    ensures { IsSamePass pass.old pass.new
        × (cell_view pass.new ≡ taken (cell_view pass.old) (cell_view other)) }
{
    cell.join_pass::<view::Numbered>(pass, other);
}

/// Reports a record by the pass with the right to replace, under its lowest number. The words are
/// replaced where that changes the record, and else left as they are.
#[inline]
pub(crate) fn report<R: Wait>(rt: &R, cell: &Cell, pass: &mut Pass, rec: Record) -> Ack
    requires cell { pass.old.table_id ≡ cell.now.table.shared.table_id }
    requires opened { 0 < (cell_view pass.old).reporters }
    requires right { (cell_view pass.old).replaces ≡ true }
    requires numbered { (cell_view pass.old).low < (cell_view pass.old).high }
    requires taken { IsRecord rec }
    requires issued { IsSome (cell_view pass.old).epoch
        → Contains (versions (cell_view pass.old).chain.seen) rec.version }
    ensures cell { IsSamePass pass.old pass.new }
    ensures reported { IsReported (cell_view pass.old) rec
        result.raised result.changed result.position (cell_view pass.new) }
{
    let found = look(rt, cell, pass);
    let raised = found.rec.raises(rec);
    if !found.rec.changes(rec) {
        return Ack {
            raised,
            changed: false,
            position: found.position,
        };
    }
    let next = Fetched {
        rec: found.rec.after_report(rec),
        position: found.position + 1,
    };
    add::<Brand, R>(rt, cell, pass, rec, next);
    Ack {
        raised,
        changed: true,
        position: next.position,
    }
}

/// Splits off a pass that has the right to draw, and has seen the same.
#[tactic(auto, using(crate::proofs::InWords::gives_drawer_in_words))]
pub(crate) fn give_drawing(cell: &Cell, pass: &mut Pass) -> Pass
    requires { pass.old.table_id ≡ cell.now.table.shared.table_id }
    ensures kept { IsSamePass pass.old pass.new
        × (cell_view pass.new ≡ without_drawing (cell_view pass.old)) }
    ensures given { (result.table_id ≡ pass.old.table_id)
        × (cell_view result ≡ drawer_of (cell_view pass.old))
        × (result.me.1 ≡ []) }
{
    cell.split_pass::<view::Drawing>(pass)
}

/// The pass with the right to draw takes in another one with its number.
fn serve(cell: &Cell, pass: &mut Pass, other: Pass)
    requires cell { pass.old.table_id ≡ cell.now.table.shared.table_id }
    requires other { (other.table_id ≡ pass.old.table_id) × (other.me.1 ≡ []) }
    requires right { (cell_view pass.old).chain.draws ≡ true }
    ensures served { IsSamePass pass.old pass.new
        × (cell_view pass.new ≡ served (cell_view pass.old) (cell_view other)) }
    ensures may_settle { Turns Keeps pass.new.id (cell_view pass.new) (λ x. x) (InWords Settles) }
{
    cell.join_pass::<view::Served>(pass, other);
}

/// Draws an answer by the pass with the right to draw, under its lowest number.
#[inline(always)]
fn draw<P: AnswerKind, S: Live, R: Wait>(
    rt: &R,
    cell: &Cell,
    pass: &mut Pass,
    answer: Issued,
) -> Fetched
    requires named { answer ≡ P.answer }
    requires cell { pass.old.table_id ≡ cell.now.table.shared.table_id }
    requires right { (cell_view pass.old).chain.draws ≡ true }
    requires numbered { (cell_view pass.old).low ≡ answer.proxy }
    requires numbers { (cell_view pass.old).low < (cell_view pass.old).high }
    requires epoch { (cell_view pass.old).epoch ≡ Some (epoch_from S.epoch_end S.recovery) }
    requires legal { IsChain S.epoch_end S.recovery
        ((cell_view pass.old).chain.seen ++ answer ∷ []) }
    ensures cell { IsSamePass pass.old pass.new }
    ensures draws { Draws answer (cell_view pass.old) result result (cell_view pass.new) }
{
    let _ = answer;
    cell.load_as::<view::Draws<P>, R>(rt, pass).fetched()
}

/// Ends a join of the pass with the right to draw, and draws an answer if there is one.
#[tactic(auto, using(crate::proofs::Serving::draws_some, crate::proofs::Serving::draws_none))]
#[inline(always)]
fn draw_any<S: Live, R: Wait>(rt: &R, cell: &Cell, pass: &mut Pass, drawn: Option<Issued>)
    requires cell { pass.old.table_id ≡ cell.now.table.shared.table_id }
    requires right { (cell_view pass.old).chain.draws ≡ true }
    requires may_settle { Turns Keeps pass.old.id (cell_view pass.old) (λ x. x) (InWords Settles) }
    requires numbers { (cell_view pass.old).low < (cell_view pass.old).high }
    requires epoch { (cell_view pass.old).epoch ≡ Some (epoch_from S.epoch_end S.recovery) }
    requires numbered { ForSome drawn (λ answer. (cell_view pass.old).low ≡ answer.proxy) }
    requires legal { ForSome drawn (λ answer. IsChain S.epoch_end S.recovery
        ((cell_view pass.old).chain.seen ++ answer ∷ [])) }
    ensures cell { IsSamePass pass.old pass.new }
    ensures draws { DrawsAny drawn (cell_view pass.old) (cell_view pass.new) }
{
    match drawn {
        Some(answer) => {
            draw::<Brand, S, R>(rt, cell, pass, answer);
        }
        None => {
            settle(rt, cell, pass);
        }
    }
}

/// The pass with the right to draw draws an answer for a token, if there is one. For that, the
/// token's pass is taken in, and its number is split off again.
#[inline(always)]
pub(crate) fn answer<S: Live, R: Wait>(
    rt: &R,
    cell: &Cell,
    right: &mut Pass,
    token: &mut Pass,
    drawn: Option<Issued>,
)
    requires cell { right.old.table_id ≡ cell.now.table.shared.table_id }
    requires token { token.old.table_id ≡ cell.now.table.shared.table_id }
    requires right { (cell_view right.old).chain.draws ≡ true }
    requires numbers { (cell_view token.old).high ≡ (cell_view token.old).low + 1 }
    requires epoch { (cell_view token.old).epoch ≡ Some (epoch_from S.epoch_end S.recovery) }
    requires numbered { ForSome drawn (λ answer. (cell_view token.old).low ≡ answer.proxy) }
    requires legal { ForSome drawn (λ answer. IsChain S.epoch_end S.recovery
        ((cell_view right.old).chain.seen ++ answer ∷ [])) }
    ensures cell { (right.new.table_id ≡ right.old.table_id)
        × (token.new.table_id ≡ token.old.table_id) }
    ensures served { IsServed drawn (cell_view right.old) (cell_view token.old)
        (cell_view right.new) (cell_view token.new) }
{
    let mine = give_all(cell, token);
    serve(cell, right, mine);
    draw_any::<S, R>(rt, cell, right, drawn);
    *token = give_lowest(cell, right);
}
