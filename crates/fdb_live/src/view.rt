//! What each pass of the cell knows. It exists in proofs alone: no value of these types is made.

use crate::held::Held;
use atomic_table::{Join, Split};
use crossbeam_utils::atomic::seq_cell::RuledSeqCell;
use crossbeam_utils::rule::{Outcome, Protocol};
use fdb_history::{Issued, Record, Service};
use std::collections::LinkedList;
use std::marker::{Brand, PhantomData};

/// A report that changed the record, as the model of a token has it. Running code keeps no list of
/// them.
#[derive(Clone, Copy, Debug, PartialEq, Eq)]
pub struct Change {
    /// The number of the reporter that made it.
    pub reporter: u32,
    /// The record as it was reported, which the live record need not have become.
    pub rec: Record,
}

/// The versions that an epoch begins from.
#[derive(Clone, Copy, Debug, PartialEq, Eq)]
pub struct Epoch {
    /// The last version of the epoch before.
    pub before: u64,
    /// The first version of this one, its recovery version.
    pub recovery: u64,
}

/// What a pass knows of the service, and what it may do with the record.
pub(crate) struct View {
    /// The record before any report, once the service is opened.
    pub(crate) start: Record,
    /// How many reporters there are, once the service is opened.
    pub(crate) reporters: u32,
    /// The epoch of the service's chain of commit versions, of which each reported version is one;
    /// none, where it has no chain.
    pub(crate) epoch: Option<Epoch>,
    /// It holds the reporters' numbers from here on.
    pub(crate) low: u32,
    /// It holds none from this number on, so that it holds none at all where this is not above
    /// `low`.
    pub(crate) high: u32,
    /// Whether it has the right to replace the record.
    pub(crate) replaces: bool,
    /// The changes that it has seen, from the first of all on and in order.
    pub(crate) seen: LinkedList<Change>,
    /// Those that it had itself seen before a join, until it looks.
    pub(crate) mine: LinkedList<Change>,
    /// Those that the other pass of that join had seen.
    pub(crate) theirs: LinkedList<Change>,
    /// What it knows of the chain, of which a bare live record has none.
    pub(crate) chain: ChainView,
}

/// What a pass knows of the chain of commit versions, and what it may do with it.
pub(crate) struct ChainView {
    /// Whether it has the right to draw.
    pub(crate) draws: bool,
    /// The answers that it has seen, from the first of all on and in order.
    pub(crate) seen: LinkedList<Issued>,
    /// Those that it had itself seen before a join, until it looks.
    pub(crate) mine: LinkedList<Issued>,
    /// Those that the other pass of that join had seen.
    pub(crate) theirs: LinkedList<Issued>,
}

/// The rule of the cell, which each step on a pass keeps: `Keeps` of the words and all views.
pub(crate) struct Law;

impl Protocol<Held, View> for Law {
    ghost use Rattle.fdb_live.specs.private.Rule.{Keeps, first};

    ghost holds = { Keeps };

    ghost first = { first };
}

/// The cell: one record and its position, in six words.
pub(crate) type Cell = RuledSeqCell<Held, View, Law, 6>;

/// Stands for the chain that a service is opened with.
pub(crate) trait Kind {
    ghost use Rattle.std.specs.Prelude.{Option};
    ghost use Rattle.fdb_live.specs.declared.view.Epoch.{Epoch};

    // The epoch of its chain, if it has one.
    ghost epoch: { Option Epoch };
}

/// The kind that a call may pick the epoch of.
impl Kind for Brand {
    ghost use Rattle.std.specs.Prelude.{None};

    ghost epoch = { None };
}

/// A step that opens the service of a name.
pub(crate) struct Opens<S: Service, K: Kind> {
    service: PhantomData<S>,
    kind: PhantomData<K>,
}

impl<S: Service, K: Kind> Outcome<Held, View> for Opens<S, K> {
    ghost use Rattle.fdb_live.specs.private.Rule.{InWords, Opens as HasOpened};

    ghost then = { InWords (HasOpened K.epoch S.reporters) };
}

/// A load of the record, after which its pass has seen all changes so far.
pub(crate) struct Looks;

impl Outcome<Held, View> for Looks {
    ghost use Rattle.fdb_live.specs.private.Rule.{InWords, Looks as HasLooked};

    ghost then = { InWords HasLooked };
}

/// A load that ends a join, after which its pass has seen what the join left it.
pub(crate) struct Settles;

impl Outcome<Held, View> for Settles {
    ghost use Rattle.fdb_live.specs.private.Rule.{InWords, Settles as HasSettled};

    ghost then = { InWords HasSettled };
}

/// Stands for a record that is reported.
pub(crate) trait Reported {
    ghost use Rattle.fdb_history.specs.declared.register.Record.{Record};

    // The record.
    ghost rec: { Record };
}

/// The report that a call may pick the record of.
impl Reported for Brand {
    ghost use Rattle.fdb_live.specs.private.Rule.{no_record};

    ghost rec = { no_record };
}

/// A report that changes the record, under the lowest number of its pass.
pub(crate) struct Adds<P: Reported> {
    report: PhantomData<P>,
}

impl<P: Reported> Outcome<Held, View> for Adds<P> {
    ghost use Rattle.fdb_live.specs.private.Rule.{Adds as HasAdded, InWords};

    ghost then = { InWords (HasAdded P.rec) };
}

/// Stands for an answer that is drawn.
pub(crate) trait AnswerKind {
    ghost use Rattle.fdb_history.specs.declared.chain.Issued.{Issued};

    // The answer.
    ghost answer: { Issued };
}

/// The draw that a call may pick the answer of.
impl AnswerKind for Brand {
    ghost use Rattle.fdb_live.specs.private.Rule.{no_answer};

    ghost answer = { no_answer };
}

/// A load at which an answer is drawn, under the lowest number of its pass.
pub(crate) struct Draws<P: AnswerKind> {
    answer: PhantomData<P>,
}

impl<P: AnswerKind> Outcome<Held, View> for Draws<P> {
    ghost use Rattle.fdb_live.specs.private.Rule.{Draws as HasDrawn, InWords};

    ghost then = { InWords (HasDrawn P.answer) };
}

/// A copy of what was seen is split off.
pub(crate) struct Copied;

impl Split<View> for Copied {
    ghost use Rattle.fdb_live.specs.private.Rule.{copy_of};

    ghost left = { λ v. v };

    ghost right = { copy_of };
}

/// The lowest number is split off, for a pass that has seen the same.
pub(crate) struct Lowest;

impl Split<View> for Lowest {
    ghost use Rattle.fdb_live.specs.private.Rule.{lowest_of, without_lowest};

    ghost left = { without_lowest };

    ghost right = { lowest_of };
}

/// All is split off, since only a pass that is new can be joined.
pub(crate) struct Whole;

impl Split<View> for Whole {
    ghost use Rattle.fdb_live.specs.private.Rule.{spent};

    ghost left = { λ _. spent };

    ghost right = { λ v. v };
}

/// The right to draw is split off.
pub(crate) struct Drawing;

impl Split<View> for Drawing {
    ghost use Rattle.fdb_live.specs.private.Rule.{drawer_of, without_drawing};

    ghost left = { without_drawing };

    ghost right = { drawer_of };
}

/// What the other pass has seen is taken in.
pub(crate) struct Joined;

impl Join<View> for Joined {
    ghost use Rattle.fdb_live.specs.private.Rule.{joined, spent};

    ghost both = { joined };

    ghost spent = { spent };
}

/// The other pass is taken in with its number.
pub(crate) struct Numbered;

impl Join<View> for Numbered {
    ghost use Rattle.fdb_live.specs.private.Rule.{spent, taken};

    ghost both = { taken };

    ghost spent = { spent };
}

/// The pass with the right to draw takes in the other one with its number.
pub(crate) struct Served;

impl Join<View> for Served {
    ghost use Rattle.fdb_live.specs.private.Rule.{served, spent};

    ghost both = { served };

    ghost spent = { spent };
}
