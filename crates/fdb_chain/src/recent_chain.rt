//! The chain of commit versions, with the answers that its proxies have processed let go; those
//! that are kept for one of them, whole.

ghost use Rattle.std.specs.Prelude.{◌≡◌, ◌+◌, ◌<◌, ◌≤◌, ◌⊎◌, ◌↔◌, ◌^◌, true, false, length, IsSome};
ghost use Rattle.std.specs.Prelude.{IfSome, Some, OnOk, OnErr, IfOk, IfErr, All};
ghost use Rattle.std.specs.Option.{ForSome};
ghost use Rattle.std.specs.List.{slice_index_or};
ghost use Rattle.fdb_history.specs.Issuing.{Chain, answer_to, kept_answer, with_answer};
ghost use Rattle.fdb_history.specs.Chain.{IsChain, prev_after};
ghost use Rattle.fdb_chain.specs.ChainCore.{IsAnswer, IsEpoch, IsFor, IsOf, IsProxyCount};
ghost use Rattle.fdb_chain.specs.ChainCore.{MayRefuse, new_chain};
ghost use Rattle.fdb_chain.specs.Recent.{IsStateOf, answer_under, latest_num, next_ordinal, own_of};
ghost use Rattle.fdb_chain.specs.Recent.{answers_after, no_answers};
ghost use Rattle.fdb_chain.specs.private.Recent.{IsNextOf, answer_of, fresh_of, next_of};
ghost use Rattle.fdb_chain.specs.private.Recent.{state_after, proxies_after};

use crate::chain_core::{self, MAX_PROXIES};
use crate::error::ChainError;
use fdb_history::{Ask, Issued, MAX_VERSION};
use std::alloc::{AllocError, Global};
use std::collections::VecDeque;
use std::marker::Model;

/// The commit versions that a sequencer has given, in one chain, of which it keeps the last
/// answer and those that its proxies have not said to have processed (the part of `MasterData`
/// of masterserver, FoundationDB 7.1, that `getVersion` reads and writes).
///
/// Contracts see it as what is kept, and say what that has to do with each chain
/// that it stands for. Its memory is that of the most answers that were kept at once.
#[derive(Debug, Drop)]
pub struct RecentChain {
    epoch_end: u64,
    recovery: u64,
    last: Option<Issued>,
    /// What is kept for each commit proxy, at the place of its number.
    replies: Vec<RecentReplies>,
}

impl Model for RecentChain {
    ghost use Rattle.fdb_chain.specs.Recent.{Recent};

    ghost Value = { Recent };

    ghost use Rattle.fdb_chain.specs.private.Recent.{StandsForSome};

    ghost view = { λ core. record {
      epoch_end = core.epoch_end;
      recovery = core.recovery;
      last = core.last;
      proxies = core.replies.items;
    } };

    ghost invariant = { λ core. StandsForSome (record {
      epoch_end = core.epoch_end;
      recovery = core.recovery;
      last = core.last;
      proxies = core.replies.items;
    }) };
}

impl RecentChain {
    /// A chain with no answers yet, for an epoch that begins with the version `recovery`,
    /// after one that ended with `epoch_end`, and for this many commit proxies.
    ///
    /// It is refused as `BadEpoch`, else as `NoProxy`, else for memory.
    pub fn new(
        alloc: Global,
        epoch_end: u64,
        recovery: u64,
        proxies: u32,
    ) -> Result<RecentChain, ChainError>
        ensures ok { IfOk result (λ core. IsStateOf core (new_chain epoch_end recovery proxies)) }
        ensures ok_epoch { OnOk result (IsEpoch epoch_end recovery) }
        ensures ok_proxies { OnOk result (IsProxyCount proxies) }

        ensures bad_epoch { (result ≡ Err ChainError.BadEpoch)
            ↔ ((recovery ≤ epoch_end) ⊎ (MAX_VERSION < recovery)) }
        ensures no_proxy { (result ≡ Err ChainError.NoProxy)
            ↔ (IsEpoch epoch_end recovery × ((proxies ≡ 0) ⊎ (MAX_PROXIES < proxies))) }
        ensures else_memory { IsEpoch epoch_end recovery → IsProxyCount proxies
            → IfErr result (λ cause. cause ≡ ChainError.Memory) }
    {
        if recovery <= epoch_end || recovery > MAX_VERSION {
            return Err(ChainError::BadEpoch);
        }
        if proxies == 0 || proxies > MAX_PROXIES {
            return Err(ChainError::NoProxy);
        }
        let replies = RecentReplies::of_each(alloc, proxies)?;
        Ok(RecentChain {
            epoch_end,
            recovery,
            last: None,
            replies,
        })
    }

    /// Answers a request for a commit version (`getVersion` of masterserver). A request with its
    /// proxy's next number draws the next version; one whose answer is kept gets it again.
    ///
    /// It is refused as `UnknownProxy`, `Early`, `Forgotten` or `Exhausted`, the first of these
    /// that stands, else for memory, which a fresh request alone takes. After a refusal the chain
    /// is as it was. It takes constant time, on the average over all requests.
    #[inline(always)]
    pub fn ask(&mut self, ask: Ask) -> Result<Issued, ChainError>
        ensures answer { (chain : Chain) → IsStateOf self.old chain
            → IsAnswer (answer_to chain ask) result }
        ensures ok { IfOk result (λ issued. (chain : Chain) → IsStateOf self.old chain
            → IsStateOf self.new (with_answer chain issued)) }
        ensures err { OnErr result (self.new ≡ self.old) }

        ensures one_chain { IfOk result (λ issued. (chain : Chain) → IsStateOf self.old chain
            → IsChain chain.epoch_end chain.recovery chain.answers
            → IsChain chain.epoch_end chain.recovery (with_answer chain issued).answers) }
        ensures prev { IfOk result (λ issued. issued.fresh ≡ true
            → issued.prev ≡ prev_after self.old.epoch_end self.old.last) }
        ensures above { IfOk result (λ issued. issued.fresh ≡ true
            → IfSome self.old.last (λ last. last.version < issued.version)) }
        ensures request { IfOk result (IsFor ask) }
        ensures in_range { IfOk result (λ issued. issued.version ≤ MAX_VERSION) }
        ensures refused { IfErr result (MayRefuse ask) }
    {
        let issued = self.answer_to(ask)?;
        if issued.fresh {
            self.append(issued)?;
        }
        Ok(issued)
    }

    /// How many commit versions were drawn.
    pub fn drawn(&self) -> u64
        ensures { (chain : Chain) → IsStateOf self.now chain → result ≡ length chain.answers }
    {
        next_ordinal(self.last)
    }

    /// Does nothing when it runs. Its clauses say that what is kept is the state of some chain of
    /// commit versions, of the epoch that the chain was opened for.
    pub fn stands_for(&self)
        ensures chain { (chain : Chain) × IsStateOf self.now chain
            × IsOf self.now.epoch_end self.now.recovery chain }
        ensures epoch { IsEpoch self.now.epoch_end self.now.recovery }
        ensures proxies { IsProxyCount (length self.now.proxies) }
    {
        let _epoch_end = self.epoch_end;
    }

    /// What a request is to be answered; a fresh answer is not kept yet.
    pub(crate) fn answer_to(&self, ask: Ask) -> Result<Issued, ChainError>
        ensures answer { IsAnswer (answer_of self.now ask) result }
        ensures next { IfOk result (λ issued. issued.fresh ≡ true → IsNextOf self.now issued) }
        ensures request { IfOk result (IsFor ask) }
        ensures in_range { IfOk result (λ issued. issued.version ≤ MAX_VERSION) }
        ensures refused { IfErr result (MayRefuse ask) }
    {
        let Some(latest) = self.latest_num(ask.proxy) else {
            return Err(ChainError::UnknownProxy);
        };
        if ask.num > latest + 1 {
            return Err(ChainError::Early {
                expected: latest + 1,
            });
        }
        if ask.num <= latest {
            return self.kept_answer(ask.proxy, ask.num);
        }
        self.fresh_answer(ask)
    }

    /// The latest number of a commit proxy, if there is this proxy.
    fn latest_num(&self, proxy: u32) -> Option<u64>
        ensures known { IsSome result ↔ (proxy < length self.now.proxies) }
        ensures value { IfSome result (λ num. num ≡ latest_num (own_of self.now proxy)) }
        ensures in_range { IfSome result (λ num. num < 2 ^ 63) }
    {
        if proxy as usize >= self.replies.len() {
            return None;
        }
        Some(self.replies[proxy as usize].latest())
    }

    /// The answer that is kept under a proxy's number, as a repeat gets it: with `fresh` false.
    fn kept_answer(&self, proxy: u32, num: u64) -> Result<Issued, ChainError>
        requires { proxy < length self.now.proxies }
        ensures answer { IsAnswer (kept_answer (answer_under (own_of self.now proxy) num)) result }
        ensures request { IfOk result (λ answer. (answer.proxy ≡ proxy) × (answer.num ≡ num)) }
        ensures again { IfOk result (λ answer. answer.fresh ≡ false) }
        ensures in_range { IfOk result (λ answer. answer.version ≤ MAX_VERSION) }
        ensures refused { IfErr result (λ cause. cause ≡ ChainError.Forgotten) }
    {
        match self.replies[proxy as usize].reply(num) {
            Some(answer) => Ok(Issued {
                fresh: false,
                ..answer
            }),
            None => Err(ChainError::Forgotten),
        }
    }

    /// The next answer, if there is a version for it.
    fn fresh_answer(&self, ask: Ask) -> Result<Issued, ChainError>
        ensures answer { IsAnswer (fresh_of self.now ask) result }
        ensures next { IfOk result (λ issued. issued ≡ next_of self.now ask) }
        ensures request { IfOk result (IsFor ask) }
        ensures in_range { IfOk result (λ answer. answer.version ≤ MAX_VERSION) }
        ensures refused { IfErr result (λ cause. cause ≡ ChainError.Exhausted) }
    {
        let next = self.next_answer(ask);
        if next.version > MAX_VERSION {
            return Err(ChainError::Exhausted);
        }
        Ok(next)
    }

    /// The next answer, with the request's members. Its version may be above the greatest one.
    fn next_answer(&self, ask: Ask) -> Issued
        ensures { result ≡ next_of self.now ask }
    {
        let last = self.last;
        Issued {
            ordinal: next_ordinal(last),
            proxy: ask.proxy,
            num: ask.num,
            processed: ask.processed,
            prev: chain_core::prev_after(self.epoch_end, last),
            version: chain_core::version_after(self.recovery, last, ask.at),
            at: ask.at,
            fresh: true,
        }
    }

    /// Keeps the next answer. Where memory is refused, nothing has changed.
    pub(crate) fn append(&mut self, answer: Issued) -> Result<(), AllocError>
        requires { IsNextOf self.old answer }
        ensures ok { OnOk result (self.new ≡ state_after self.old answer) }
        ensures err { OnErr result (self.new ≡ self.old) }
    {
        RecentReplies::keep_among(self.replies.as_mut_slice(), &answer)?;
        self.last = Some(answer);
        Ok(())
    }
}

/// How many answers there are, by the last of them.
fn next_ordinal(last: Option<Issued>) -> u64
    requires { ForSome last (λ last. last.ordinal < 2 ^ 63) }
    ensures { result ≡ next_ordinal last }
{
    match last {
        None => 0,
        Some(last) => last.ordinal + 1,
    }
}

/// The answers of one commit proxy that have not been erased
/// (`CommitProxyVersionReplies` of masterserver, FoundationDB 7.1).
#[derive(Debug, Drop)]
pub(crate) struct RecentReplies {
    /// No answer up to this number is kept.
    erased: u64,
    /// The answers above, in the order of their numbers.
    answers: VecDeque<Issued>,
}

impl Model for RecentReplies {
    ghost use Rattle.fdb_chain.specs.Recent.{KeptAnswers};

    ghost Value = { KeptAnswers };

    ghost view = { λ own. record { erased = own.erased; answers = own.answers.items } };
}

impl RecentReplies {
    /// The replies of a proxy that got no answer yet. Takes no memory.
    pub(crate) fn new(alloc: Global) -> Self
        ensures { result ≡ no_answers }
    {
        RecentReplies {
            erased: 0,
            answers: VecDeque::new(alloc),
        }
    }

    /// No replies for each of so many proxies. It is refused only where memory runs out.
    pub(crate) fn of_each(alloc: Global, proxies: u32) -> Result<Vec<RecentReplies>, AllocError>
        ensures count { IfOk result (λ all. length all.items ≡ proxies) }
        ensures empty { IfOk result (λ all. All (λ own. own ≡ no_answers) all.items) }
    {
        let mut all = Vec::with_capacity(alloc, proxies as usize)?;
        for _ in 0..proxies {
            all.push_reserved(RecentReplies::new(alloc));
        }
        Ok(all)
    }

    /// The greatest number under which the proxy got an answer, and 0 before the first.
    pub(crate) fn latest(&self) -> u64
        requires { latest_num self.now < 2 ^ 63 }
        ensures { result ≡ latest_num self.now }
    {
        self.erased + self.answers.len() as u64
    }

    /// The answer under a number, if it is kept.
    pub(crate) fn reply(&self, num: u64) -> Option<Issued>
        ensures { result ≡ answer_under self.now num }
    {
        if num <= self.erased {
            return None;
        }
        self.answers.get((num - self.erased - 1) as usize).copied()
    }

    /// Keeps the proxy's next answer among the replies of all. Where
    /// memory is refused, nothing has changed.
    pub(crate) fn keep_among(all: &mut [RecentReplies], answer: &Issued) -> Result<(), AllocError>
        requires known { answer.now.proxy < length all.old }
        requires in_range { latest_num (slice_index_or all.old answer.now.proxy no_answers) < 2 ^ 63 }
        ensures ok { OnOk result (all.new
            ≡ proxies_after all.old answer.now (slice_index_or all.old answer.now.proxy no_answers)) }
        ensures err { OnErr result (all.new ≡ all.old) }
    {
        all[answer.proxy as usize].keep(*answer)
    }

    /// Keeps the proxy's next answer, and erases those that the proxy has processed,
    /// though not this one. Where memory is refused, nothing has changed.
    pub(crate) fn keep(&mut self, answer: Issued) -> Result<(), AllocError>
        requires { latest_num self.old < 2 ^ 63 }
        ensures ok { OnOk result (self.new ≡ answers_after self.old answer) }
        ensures err { OnErr result (self.new ≡ self.old) }
    {
        let latest = self.latest();
        self.answers.push_back(answer)?;
        let erased = answer.processed.max(self.erased).min(latest);
        for _ in self.erased..erased {
            let _processed = self.answers.pop_front();
        }
        self.erased = erased;
        Ok(())
    }
}
