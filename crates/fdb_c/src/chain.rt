//! The chain of commit versions: requests and answers as C writes them, all of them at once, or one
//! after another by the chain's handle.

ghost use Rattle.std.specs.Prelude.{◌≡◌, ◌+◌, ◌<◌, ◌≤◌, ◌⊎◌, ◌↔◌, ◌++◌, length, drop, IfSome};
ghost use Rattle.std.specs.Prelude.{IsNone, IsSome, IsOkAnd, Ok, true, None, Some};
ghost use Rattle.std.specs.Bool.{OnTrue};
ghost use Rattle.fdb_history.specs.Issuing.{Chain, answer_to, chain_after};
ghost use Rattle.fdb_history.specs.declared.register.TheConstants.{MAX_VERSION};
ghost use Rattle.fdb_chain.specs.ChainCore.{IsEpoch, new_chain};
ghost use Rattle.fdb_chain.specs.Recent.{IsStateOf};
ghost use Rattle.fdb_chain.specs.declared.chain_core.TheConstants.{MAX_PROXIES};
ghost use Rattle.fdb_c.specs.Chain.{ask_of, refused, told, told_each, StandsFor};

use crate::handle::{FdbChain, Held, boxed};
use crate::status::{
    FDB_BAD_EPOCH, FDB_EARLY, FDB_EXHAUSTED, FDB_FORGOTTEN, FDB_MEMORY, FDB_NO_PROXY, FDB_OK,
    FDB_ROOM, FDB_UNKNOWN_PROXY,
};
use fdb_chain::{ChainError, RecentChain};
use fdb_history::{Ask, Issued};
use std::alloc::Global;

/// A request for a commit version.
#[repr(C)]
#[derive(Clone, Copy)]
pub struct FdbAsk {
    /// The number of the request among those of its proxy, from 1 on.
    pub num: u64,
    /// The number up to which the proxy has processed its answers.
    pub processed: u64,
    /// The moment of the request, in microseconds.
    pub at: u64,
    /// The commit proxy that asks.
    pub proxy: u32,
}

/// The answer to a request for a commit version, or its refusal. Of a refusal there is the status,
/// and of an early request the number that is expected; all else is 0.
#[repr(C)]
#[derive(Clone, Copy)]
pub struct FdbAnswer {
    /// The place of the version in the chain, from 0 on.
    pub ordinal: u64,
    /// The number of the request, or the one that is expected.
    pub num: u64,
    /// What the request that drew the version said is processed.
    pub processed: u64,
    /// The version before `version` in the chain.
    pub prev: u64,
    /// The commit version.
    pub version: u64,
    /// The moment of the request that drew the version, in microseconds.
    pub at: u64,
    /// The commit proxy that the version was issued to.
    pub proxy: u32,
    /// `FDB_OK`, or the number of the refusal.
    pub status: u8,
    /// Whether this request drew the version; false where a kept answer came again.
    pub fresh: bool,
}

/// A refusal, by its number.
fn refused(status: u8, expected: u64) -> FdbAnswer
    ensures { result ≡ refused status expected }
{
    FdbAnswer {
        ordinal: 0,
        num: expected,
        processed: 0,
        prev: 0,
        version: 0,
        at: 0,
        proxy: 0,
        status,
        fresh: false,
    }
}

/// An answer, as C is told of it.
fn told(issued: Issued) -> FdbAnswer
    ensures { result ≡ told (Ok issued) }
{
    FdbAnswer {
        ordinal: issued.ordinal,
        num: issued.num,
        processed: issued.processed,
        prev: issued.prev,
        version: issued.version,
        at: issued.at,
        proxy: issued.proxy,
        status: FDB_OK,
        fresh: issued.fresh,
    }
}

/// Answers one request, unless memory is refused.
pub(crate) fn step(core: &mut RecentChain, ask: FdbAsk) -> Option<FdbAnswer>
    ensures answer { IfSome result (λ answer. (chain : Chain) → IsStateOf core.old chain
        → answer ≡ told (answer_to chain (ask_of ask))) }
    ensures after { IfSome result (λ _. (chain : Chain) → IsStateOf core.old chain
        → IsStateOf core.new (chain_after chain (answer_to chain (ask_of ask)))) }
    ensures not_memory { IfSome result (λ answer. answer.status ≡ FDB_MEMORY → ⊥) }
    ensures memory { IsNone result → core.new ≡ core.old }
    ensures due { IsNone result → (chain : Chain) → IsStateOf core.old chain
        → IsOkAnd (answer_to chain (ask_of ask)) (λ issued. issued.fresh ≡ true) }
{
    let asked = Ask {
        proxy: ask.proxy,
        num: ask.num,
        processed: ask.processed,
        at: ask.at,
    };
    match core.ask(asked) {
        Ok(issued) => Some(told(issued)),
        Err(ChainError::UnknownProxy) => Some(refused(FDB_UNKNOWN_PROXY, 0)),
        Err(ChainError::Early { expected }) => Some(refused(FDB_EARLY, expected)),
        Err(ChainError::Forgotten) => Some(refused(FDB_FORGOTTEN, 0)),
        Err(ChainError::Exhausted) => Some(refused(FDB_EXHAUSTED, 0)),
        Err(_) => None,
    }
}

/// Answers each request in its turn, unless memory is refused.
fn answer_each(core: &mut RecentChain, asks: &[FdbAsk], answers: &mut [FdbAnswer]) -> bool
    requires { length asks.now ≤ length answers.old }
    ensures answers { OnTrue result ((chain : Chain) → IsStateOf core.old chain
        → answers.new ≡ told_each chain asks.now ++ drop (length asks.now) answers.old) }
{
    for (place, ask) in asks.iter().enumerate() {
        let Some(answer) = step(core, *ask) else {
            return false;
        };
        answers[place] = answer;
    }
    true
}

/// Answers requests to a new chain, each in its turn. `answers` has room for them all, or is left
/// as it was.
#[unsafe(no_mangle)]
pub extern "C" fn fdb_chain_answers(
    alloc: Global,
    epoch_end: u64,
    recovery: u64,
    proxies: u32,
    asks: &[FdbAsk],
    answers: &mut [FdbAnswer],
) -> u8
    ensures ok { (result ≡ FDB_OK) → answers.new
        ≡ told_each (new_chain epoch_end recovery proxies) asks.now
        ++ drop (length asks.now) answers.old }
    ensures untouched { (result ≡ FDB_OK → ⊥) → (result ≡ FDB_MEMORY → ⊥)
        → answers.new ≡ answers.old }
    ensures room { (result ≡ FDB_ROOM) ↔ (length answers.old < length asks.now) }
    ensures bad_epoch { (result ≡ FDB_BAD_EPOCH) ↔ ((length asks.now ≤ length answers.old)
        × ((recovery ≤ epoch_end) ⊎ (MAX_VERSION < recovery))) }
    ensures no_proxy { (result ≡ FDB_NO_PROXY) ↔ ((length asks.now ≤ length answers.old)
        × IsEpoch epoch_end recovery × ((proxies ≡ 0) ⊎ (MAX_PROXIES < proxies))) }
    ensures statuses { (result ≡ FDB_OK) ⊎ (result ≡ FDB_ROOM) ⊎ (result ≡ FDB_BAD_EPOCH)
        ⊎ (result ≡ FDB_NO_PROXY) ⊎ (result ≡ FDB_MEMORY) }
{
    if answers.len() < asks.len() {
        return FDB_ROOM;
    }
    match RecentChain::new(alloc, epoch_end, recovery, proxies) {
        Ok(mut core) => {
            if answer_each(&mut core, asks, answers) {
                FDB_OK
            } else {
                FDB_MEMORY
            }
        }
        Err(ChainError::BadEpoch) => FDB_BAD_EPOCH,
        Err(ChainError::NoProxy) => FDB_NO_PROXY,
        Err(_) => FDB_MEMORY,
    }
}

/// Opens a chain with no answers yet. Refused, it leaves the handle none.
#[unsafe(no_mangle)]
pub extern "C" fn fdb_chain_new(
    alloc: Global,
    epoch_end: u64,
    recovery: u64,
    proxies: u32,
    chain: &mut FdbChain,
) -> u8
    requires { IsNone chain.old.chain }
    ensures ok { (result ≡ FDB_OK)
        → StandsFor chain.new.chain (new_chain epoch_end recovery proxies) }
    ensures refused { (result ≡ FDB_OK → ⊥) → chain.new.chain ≡ None }
    ensures bad_epoch { (result ≡ FDB_BAD_EPOCH)
        ↔ ((recovery ≤ epoch_end) ⊎ (MAX_VERSION < recovery)) }
    ensures no_proxy { (result ≡ FDB_NO_PROXY)
        ↔ (IsEpoch epoch_end recovery × ((proxies ≡ 0) ⊎ (MAX_PROXIES < proxies))) }
    ensures statuses { (result ≡ FDB_OK) ⊎ (result ≡ FDB_BAD_EPOCH) ⊎ (result ≡ FDB_NO_PROXY)
        ⊎ (result ≡ FDB_MEMORY) }
{
    match RecentChain::new(alloc, epoch_end, recovery, proxies) {
        Ok(core) => match boxed(alloc, core) {
            Ok(core) => {
                chain.swap(Held::new(core)).gone();
                FDB_OK
            }
            Err(_) => FDB_MEMORY,
        },
        Err(ChainError::BadEpoch) => FDB_BAD_EPOCH,
        Err(ChainError::NoProxy) => FDB_NO_PROXY,
        Err(_) => FDB_MEMORY,
    }
}

/// Answers a request. Where memory is refused, nothing has changed.
#[unsafe(no_mangle)]
pub extern "C" fn fdb_chain_ask(
    alloc: Global,
    chain: &mut FdbChain,
    ask: &FdbAsk,
    answer: &mut FdbAnswer,
) -> u8
    requires { IsSome chain.old.chain }
    ensures answer { (result ≡ FDB_MEMORY → ⊥) → (before : Chain)
        → StandsFor chain.old.chain before
        → answer.new ≡ told (answer_to before (ask_of ask.now)) }
    ensures status { (result ≡ FDB_MEMORY → ⊥) → result ≡ answer.new.status }
    ensures after { (result ≡ FDB_MEMORY → ⊥) → (before : Chain)
        → StandsFor chain.old.chain before
        → StandsFor chain.new.chain (chain_after before (answer_to before (ask_of ask.now))) }
    ensures memory { (result ≡ FDB_MEMORY)
        → (chain.new.chain ≡ chain.old.chain) × (answer.new ≡ answer.old) }
    ensures due { (result ≡ FDB_MEMORY) → (before : Chain) → StandsFor chain.old.chain before
        → IsOkAnd (answer_to before (ask_of ask.now)) (λ issued. issued.fresh ≡ true) }
    ensures held { IsSome chain.new.chain }
{
    let mut core = chain.swap(Held::none()).into_box(alloc).unwrap();
    let answered = step(&mut core, *ask);
    chain.swap(Held::new(core)).gone();
    match answered {
        Some(given) => {
            *answer = given;
            given.status
        }
        None => FDB_MEMORY,
    }
}

/// Frees a chain, if the handle has one. The handle is then none.
#[unsafe(no_mangle)]
pub extern "C" fn fdb_chain_free(alloc: Global, chain: &mut FdbChain)
    ensures { chain.new.chain ≡ None }
{
    let _core = chain.swap(Held::none()).into_box(alloc);
}
