//! What a commit proxy asks of the sequencer for a commit version, what it is answered, and the
//! replies that are kept for it.

ghost use Rattle.std.specs.Prelude.{◌≡◌, ℕ, ◌<◌, ◌^◌, ◌∷◌, ◌++◌, [], List, length, All, OnOk};
ghost use Rattle.std.specs.Prelude.{OnErr, IfOk, IfSome, slice_get};
ghost use Rattle.std.specs.Option.{option_and_then};
ghost use Rattle.fdb_history.specs.Chain.{IsNext};
ghost use Rattle.fdb_history.specs.Replies.{AreRepliesOf, AreRepliesOfAll, all_after, drawn_place};
ghost use Rattle.fdb_history.specs.Replies.{no_replies, place_of, replies_after, reply};
ghost use Rattle.fdb_history.specs.declared.chain.Issued.{Issued};

use std::alloc::{AllocError, Global};
use std::marker::Model;

/// The most that a commit version is above the one before it: five seconds' worth of versions
/// (`MAX_READ_TRANSACTION_LIFE_VERSIONS` of FoundationDB 7.1, at a million versions a second).
pub const MAX_STEP: u64 = 5_000_000;

/// A commit proxy's request for a commit version (`GetCommitVersionRequest`).
#[derive(Clone, Copy, Debug, PartialEq, Eq)]
pub struct Ask {
    /// The commit proxy, numbered from 0 (`requestingProxy`).
    pub proxy: u32,
    /// The proxy's number for the request, from 1 (`requestNum`).
    pub num: u64,
    /// The proxy needs no answer up to this number any more (`mostRecentProcessedRequestNum`).
    pub processed: u64,
    /// The moment of the request, in microseconds.
    pub at: u64,
}

/// The answer to a commit version request (`GetCommitVersionReply`), with the request's members.
#[derive(Clone, Copy, Debug, PartialEq, Eq)]
pub struct Issued {
    /// How many fresh answers of the service came before.
    pub ordinal: u64,
    pub proxy: u32,
    pub num: u64,
    /// What the request that drew the version said of the answers that its proxy has processed.
    pub processed: u64,
    /// The commit version before this one (`prevVersion`).
    pub prev: u64,
    /// The commit version that was drawn, at most `MAX_VERSION`.
    pub version: u64,
    /// The moment of the request that drew the version, in microseconds.
    pub at: u64,
    /// Whether the version was drawn for this very call. A repeated
    /// request gets the answer that was kept, with `false`.
    pub fresh: bool,
}

/// Where the answers of one commit proxy stand in the chain, and which of them have been erased
/// (`CommitProxyVersionReplies` of masterserver, FoundationDB 7.1).
#[derive(Debug, Drop)]
pub struct Replies {
    /// The place of the answer with number `m` stands at `m - 1`.
    places: Vec<usize>,
    /// No answer up to this number is kept.
    erased: u64,
}

impl Model for Replies {
    ghost use Rattle.fdb_history.specs.Replies.{KeptReplies};

    ghost Value = { KeptReplies };

    ghost view = { λ replies. record { places = replies.places.items; erased = replies.erased } };
}

impl Replies {
    /// The replies of a proxy that got no answer yet. Takes no memory.
    pub fn new(alloc: Global) -> Self
        ensures { result ≡ no_replies }
    {
        Replies {
            places: Vec::new(alloc),
            erased: 0,
        }
    }

    /// A list with the replies of `proxies` proxies, none of which got an answer yet. It is refused
    /// only where memory runs out.
    pub fn of_each(alloc: Global, proxies: u32) -> Result<Vec<Replies>, AllocError>
        ensures count { IfOk result (λ all. length all.items ≡ proxies) }
        ensures empty { IfOk result (λ all. All (λ own. own ≡ no_replies) all.items) }
    {
        let mut all = Vec::with_capacity(alloc, proxies as usize)?;
        for _ in 0..proxies {
            all.push_reserved(Replies::new(alloc));
        }
        Ok(all)
    }

    /// The greatest number under which the proxy got an answer, and 0 before the first.
    pub fn latest(&self) -> u64
        ensures value { result ≡ length self.now.places }
        ensures in_range { result < 2 ^ 63 }
    {
        self.places.len() as u64
    }

    /// The place of the answer under a number, if it is kept.
    pub fn place_of(&self, num: u64) -> Option<usize>
        ensures { result ≡ place_of self.now num }
    {
        if num <= self.erased {
            return None;
        }
        self.drawn_place(num)
    }

    /// The answer under a number, if it is kept.
    pub fn reply(&self, answers: &[Issued], num: u64) -> Option<Issued>
        ensures value { result ≡ reply answers.now self.now num }
        ensures of_the_request { (proxy : ℕ) → AreRepliesOf proxy answers.now self.now
            → IfSome result (λ answer. (answer.proxy ≡ proxy) × (answer.num ≡ num)) }
    {
        answer_at(answers, self.place_of(num))
    }

    /// The place of the answer under a number, whether it is still kept or not.
    pub fn drawn_place(&self, num: u64) -> Option<usize>
        ensures { result ≡ drawn_place self.now num }
    {
        if num == 0 {
            return None;
        }
        self.places.get((num - 1) as usize).copied()
    }

    /// Keeps an answer among the replies of all proxies, for the one that
    /// got it, as `keep` does. Where memory is refused, nothing has changed.
    pub fn keep_among(all: &mut [Replies], answer: &Issued) -> Result<(), AllocError>
        requires { answer.now.proxy < length all.old }
        ensures ok { OnOk result (all.new ≡ all_after all.old answer.now) }
        ensures kept { OnOk result ((epoch_end recovery : ℕ) (answers : List Issued)
            → IsNext epoch_end recovery answers answer.now
            → AreRepliesOfAll answers all.old
            → AreRepliesOfAll (answers ++ answer.now ∷ []) all.new) }
        ensures err { OnErr result (all.new ≡ all.old) }
    {
        all[answer.proxy as usize].keep(answer.ordinal as usize, answer.processed)
    }

    /// Keeps the place of the proxy's next answer, and erases those that the proxy has
    /// processed, though not this one. Where memory is refused, nothing has changed.
    pub fn keep(&mut self, place: usize, processed: u64) -> Result<(), AllocError>
        ensures ok { OnOk result (self.new ≡ replies_after self.old place processed) }
        ensures err { OnErr result (self.new ≡ self.old) }
    {
        let latest = self.latest();
        self.places.push(place)?;
        self.erased = processed.max(self.erased).min(latest);
        Ok(())
    }
}

/// The answer at a place, if there is one.
pub(crate) fn answer_at(answers: &[Issued], place: Option<usize>) -> Option<Issued>
    ensures { result ≡ option_and_then (slice_get answers.now) place }
{
    answers.get(place?).copied()
}
