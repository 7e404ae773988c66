//! A run of a cluster, whose logs its clients' tokens have settled, and the chain of commit
//! versions as the logs tell it.

ghost use Rattle.std.specs.Prelude.{◌≡◌, ◌<◌, ◌≤◌, [], IfOk, length, ℕ, Some, slice_get};
ghost use Rattle.std.specs.List.{AllPairs};
ghost use Rattle.fdb_chain.specs.ChainCore.{IsEpoch};
ghost use Rattle.fdb_history.specs.Audit.{Low};
ghost use Rattle.fdb_history.specs.Chain.{IsChain};
ghost use Rattle.fdb_history.specs.Explained.{explained};
ghost use Rattle.fdb_history.specs.Faults.{IsFaultless, Nowhere, changes_in};
ghost use Rattle.fdb_history.specs.Laws.{HaveMinimaWithin};
ghost use Rattle.fdb_history.specs.Linear.{IsLinear};
ghost use Rattle.fdb_history.specs.Strays.{IsStray};
ghost use Rattle.fdb_history.specs.Log.{answers_in};
ghost use Rattle.fdb_live.specs.Gathering.{AreNumbered, HasCaughtUp, IsSameHolder};
ghost use Rattle.fdb_live.specs.Seen.{Sight};
ghost use Rattle.fdb_live.specs.declared.opened.TheConstants.{MAX_REPORTERS};
ghost use Rattle.fdb_client.specs.Merging.{chain_in, goes_on_once, all_placed, placed};
ghost use Rattle.fdb_client.specs.Settling.{AllAgree, AllAgreeWithChain, AreTokensOf, HaveNoFault};

use crate::cluster::Cluster;
use crate::workload::Finished;
use fdb_history::{Call, CallAnswer, ClientLog, History, Issued, Record, history_of, laws};
use fdb_live::{Live, Master, Seen};
use std::alloc::{AllocError, Global};
use std::sync::Wait;

/// What a run of a cluster has left, once it is settled: no fault stands in its logs, neither of the
/// register's history nor of an answer, and their commit versions are one chain.
#[derive(Debug, Drop)]
pub struct SettledRun {
    /// The last version of the epoch before, below that of `start`.
    pub epoch_end: u64,
    /// The live committed version before any report. Its version is the first commit version.
    pub start: Record,
    /// The log of each client, at the place of its number.
    pub logs: Vec<ClientLog>,
    /// How many commit versions were drawn.
    pub drawn: u64,
    /// How many reports changed the record: the position that the run came to.
    pub changes: u64,
    pub ghost epoch: { IsEpoch epoch_end start.version },
    pub ghost few: { length logs.items ≤ MAX_REPORTERS },
    pub ghost one_chain: { IsChain epoch_end start.version (chain_in drawn logs.items) } by { goes_on_once epoch_end start.version [] (chain_in drawn logs.items) },
    pub ghost faultless: { IsFaultless start logs.items },
    pub ghost justified: { Nowhere (IsStray (chain_in drawn logs.items) logs.items) },
    pub ghost above: { Nowhere (Low start logs.items) },
    pub ghost counted: { changes ≡ length (changes_in logs.items) },
}

impl SettledRun {
    /// The commit versions that were drawn, each above the one before, as the logs tell them.
    ///
    /// It takes time in proportion to the calls, and memory for the chain, in one piece.
    pub fn chain(&self, alloc: Global) -> Result<Vec<Issued>, AllocError>
        ensures value { IfOk result
            (λ chain. chain.items ≡ chain_in self.now.drawn self.now.logs.items) }
        ensures one_chain { IfOk result
            (λ chain. IsChain self.now.epoch_end self.now.start.version chain.items) }
        ensures rises { IfOk result
            (λ chain. AllPairs (λ earlier later. earlier.version < later.version) chain.items) }
        ensures justified { IfOk result
            (λ chain. Nowhere (IsStray chain.items self.now.logs.items)) }
    {
        // The check learns here that the versions of a chain rise.
        laws::versions_rise();
        chain_of(alloc, &self.logs, self.drawn)
    }

    /// The history that explains all answered reads and reports, in the fixed order.
    ///
    /// It takes time in proportion to the calls, up to a sort of the reads and reports by position.
    /// Memory may be refused at any time.
    pub fn history(&self, alloc: Global) -> Result<History, AllocError>
        ensures linear { IfOk result
            (λ history. IsLinear self.now.start self.now.logs.items history.events) }
        ensures in_order { IfOk result
            (λ history. history.events ≡ explained self.now.logs.items) }
    {
        history_of(alloc, &self.logs)
    }
}

impl<'c, S: Live> Cluster<'c, S> {
    /// Brings together what the clients of this cluster have seen, and so shows that no fault
    /// stands in their logs. No call was answered from before what its client had seen, each
    /// position has one change, and each read and report was answered as the record at its position
    /// would. Each answer to a request for a commit version is the one that was due, is in the
    /// chain, and is of the client that asked; and each version but the first of the chain is above
    /// what its client had seen. Any token of the cluster's live record serves as `first`.
    ///
    /// It refuses nothing, takes no memory, and waits as a read does. It takes time in proportion
    /// to the number of clients.
    pub fn settle<R: Wait>(self, rt: &R, mut first: Seen<S>, finished: Finished<S>) -> SettledRun
        ensures epoch { (result.epoch_end ≡ S.epoch_end) × (result.start.version ≡ S.recovery) }
        ensures start { result.start ≡ S.start }
        ensures logs { result.logs.items ≡ finished }
        ensures count { length result.logs.items ≡ S.reporters }
        ensures minima { HaveMinimaWithin result.logs.items }
        ensures one_chain { IsChain S.epoch_end S.recovery
            (chain_in result.drawn result.logs.items) }
    {
        let Finished { logs, mut tokens } = finished;
        let Cluster {
            config,
            master,
            desks: _,
        } = self;
        let Closed { drawn, changes } = close(rt, master, &mut first, &mut tokens, &logs);
        SettledRun {
            epoch_end: config.epoch_end,
            start: config.start,
            logs,
            drawn,
            changes,
        }
    }
}

/// Brings together what all clients of a service have seen, each by the token that it left beside
/// its log, and so shows that no fault of the register's history stands in their logs: no call was
/// answered from before what its client had seen, each position has one change, and each read and
/// report was answered as the record at its position would. Nor did a report tell of a minimum known
/// committed version above its version, and no version but the first was drawn that is not above
/// what its asker had seen. Answers how many reports changed the record.
///
/// It refuses nothing, takes no memory, and waits as a read does. It takes time in proportion to
/// the number of clients.
pub fn settle<S: Live, R: Wait>(
    rt: &R,
    master: &Master<S>,
    first: &mut Seen<S>,
    tokens: &mut [Seen<S>],
    logs: &[ClientLog],
) -> u64
    requires count { length tokens.old ≡ S.reporters }
    requires numbered { AreNumbered tokens.old }
    requires logs { length logs.now ≡ S.reporters }
    requires agree { AllAgree S.start logs.now tokens.old }
    ensures changes { result ≡ length (changes_in logs.now) }
    ensures settled { HaveNoFault S.start logs.now }
    ensures position { result ≡ length first.new.changes }
    ensures first { IsSameHolder first.old first.new }
    ensures each { (k : ℕ) (token : Sight) → slice_get tokens.old k ≡ Some token
        → HasCaughtUp first.new token k tokens.new }
    ensures tokens { AreTokensOf S.start S.reporters logs.now tokens.new }
{
    master.record().gather(rt, first, tokens)
}

/// What a service has come to, once nobody calls any more.
#[derive(Drop)]
pub(crate) struct Closed {
    /// How many commit versions were drawn.
    pub(crate) drawn: u64,
    /// How many reports changed the record.
    pub(crate) changes: u64,
}

/// Settles the logs of all clients, and gives up the service: by the chain that these logs tell, no
/// answer of theirs is stray.
pub(crate) fn close<S: Live, R: Wait>(
    rt: &R,
    master: Master<S>,
    first: &mut Seen<S>,
    tokens: &mut [Seen<S>],
    logs: &[ClientLog],
) -> Closed
    requires count { length tokens.old ≡ S.reporters }
    requires numbered { AreNumbered tokens.old }
    requires logs { length logs.now ≡ S.reporters }
    requires agree { AllAgree S.start logs.now tokens.old }
    requires chained { AllAgreeWithChain S.epoch_end S.recovery logs.now tokens.old }
    ensures changes { result.changes ≡ length (changes_in logs.now) }
    ensures faultless { IsFaultless S.start logs.now }
    ensures minima { HaveMinimaWithin logs.now }
    ensures above { Nowhere (Low S.start logs.now) }
    ensures justified { Nowhere (IsStray (chain_in result.drawn logs.now) logs.now) }
    ensures one_chain { IsChain S.epoch_end S.recovery (chain_in result.drawn logs.now) }
{
    // The check learns here that each answer of a chain stands at its ordinal, and is alike no other.
    laws::each_is_next();
    laws::same_are_equal();
    let changes = settle(rt, &master, first, tokens, logs);
    let drawn = master.close(rt, tokens);
    Closed { drawn, changes }
}

/// What stands where no answer was placed yet.
const NO_ANSWER: Issued = Issued {
    ordinal: 0,
    proxy: 0,
    num: 0,
    processed: 0,
    prev: 0,
    version: 0,
    at: 0,
    fresh: false,
};

/// The chain of so many commit versions, as these logs tell it: each fresh answer stands at its
/// ordinal. It looks for no fault.
///
/// It takes time in proportion to the calls, and memory for the chain, in one piece.
fn chain_of(alloc: Global, logs: &[ClientLog], drawn: u64) -> Result<Vec<Issued>, AllocError>
    ensures { IfOk result (λ chain. chain.items ≡ chain_in drawn logs.now) }
{
    let mut chain = vec![in alloc; NO_ANSWER; drawn as usize]?;
    for log in logs {
        place_all(&mut chain, log.calls.as_slice());
    }
    Ok(chain)
}

/// Places the fresh ones of the answers of some calls.
fn place_all(chain: &mut Vec<Issued>, calls: &[Call])
    ensures { chain.new.items ≡ all_placed chain.old.items (answers_in calls.now) }
{
    for call in calls {
        if let CallAnswer::Answered(issued) = &call.answer {
            place(chain, *issued);
        }
    }
}

/// Places an answer, if it is fresh, at its ordinal.
fn place(chain: &mut Vec<Issued>, issued: Issued)
    ensures { chain.new.items ≡ placed chain.old.items issued }
{
    if issued.fresh
        && let Some(entry) = chain.get_mut(issued.ordinal as usize)
    {
        *entry = issued;
    }
}
