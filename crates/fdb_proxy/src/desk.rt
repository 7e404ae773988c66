//! The desk at which requests wait for a proxy.

ghost use Rattle.std.specs.Prelude.{◌≡◌, ◌<◌, ◌==◌, ◌&&◌, [], ◌∷◌, ◌++◌, IfErr, OnErr, OnOk, not};
ghost use Rattle.std.specs.Prelude.{true, false, vec_len, None, Some};
ghost use Rattle.std.specs.List.{list_all};
ghost use Rattle.fdb_proxy.specs.Options.{has_own_options};

use crate::error::ProxyError;
use crate::request::{Rates, Request};
use fdb_live::Live;
use fdb_queue::Req;
use std::alloc::Global;
use std::mem;
use std::sync::{Condvar, Mutex, Wait};

/// Where clients leave their requests for one proxy, from any thread
/// (`GrvProxyInterface::getConsistentReadVersion`, FoundationDB 7.1).
///
/// Each request on it has in the queue the priority and the count of its own options.
#[derive(Drop)]
pub struct Desk<S: Live> {
    inbox: Mutex<Inbox<S>>,
    came: Condvar,
}

/// What was taken from a desk in one step, and whether more may come.
#[derive(Drop)]
pub struct Taken<S: Live> {
    /// All requests that waited there, in the order in which they were submitted.
    pub requests: Vec<Req<Request<S>>>,
    /// Whether the desk is closed, so that none will come after these.
    pub closed: bool,
    /// The rates that were left there last, if any were since it was taken from before: they hold
    /// before these requests are offered.
    pub rates: Option<Rates>,
    pub ghost own_options: { list_all has_own_options requests.items ≡ true },
}

impl<S: Live> Desk<S> {
    /// An open desk with no request on it. Takes no memory.
    pub fn new(alloc: Global) -> Self {
        Desk {
            inbox: Mutex::new(Inbox::new(alloc)),
            came: Condvar::new(),
        }
    }

    /// Leaves a request on the desk, behind those that wait there.
    ///
    /// It is refused as `Closed` where the desk is closed, else for memory; the request is then
    /// handed back. It waits for its turn at the desk, and takes constant time, the growth of the
    /// list aside.
    pub fn submit<R: Wait>(
        &self,
        rt: &R,
        request: Req<Request<S>>,
    ) -> Result<(), (ProxyError, Req<Request<S>>)>
        requires priority { request.priority ≡ request.payload.opts.priority }
        requires count { request.count ≡ request.payload.opts.count }
        ensures handed_back { IfErr result (λ refused. refused.1 ≡ request) }
    {
        self.inbox.lock(rt).add(request)?;
        self.came.notify_one();
        Ok(())
    }

    /// Takes all requests that wait on the desk, in the order in which they were submitted. Where
    /// it is told to wait, it waits until there is one or the desk is closed. Takes no memory.
    pub fn take<R: Wait>(&self, rt: &R, wait: bool) -> Taken<S>
        ensures { wait ≡ true → result.closed ≡ false → 0 < vec_len result.requests }
    {
        let mut inbox = self.came.wait_while(rt, self.inbox.lock(rt), |inbox| {
            wait && !inbox.closed && inbox.waiting.is_empty()
        });
        inbox.take()
    }

    /// Leaves new rates on the desk, in the place of any that were left there and not taken: they
    /// hold from the proxy's next turn on, before what it offers there. A proxy that waits at the
    /// desk waits on. Takes no memory.
    pub fn set_rates<R: Wait>(&self, rt: &R, rates: Rates) {
        self.inbox.lock(rt).set_rates(rates);
    }

    /// Closes the desk: from then on it refuses every request. Those that wait there stay. Takes no
    /// memory.
    pub fn close<R: Wait>(&self, rt: &R) {
        self.inbox.lock(rt).close();
        self.came.notify_all();
    }

    /// Closes the desk and takes all requests that wait there, in one step: none comes in between.
    /// Takes no memory.
    pub(crate) fn close_and_take<R: Wait>(&self, rt: &R) -> Taken<S>
        ensures { result.closed ≡ true }
    {
        let taken = self.inbox.lock(rt).close_and_take();
        self.came.notify_all();
        taken
    }
}

/// What the lock of a desk holds: the requests that wait there, whether it is closed, and new rates.
#[derive(Drop)]
struct Inbox<S: Live> {
    alloc: Global,
    waiting: Vec<Req<Request<S>>>,
    closed: bool,
    rates: Option<Rates>,
    ghost own_options: { list_all has_own_options waiting.items ≡ true },
}

impl<S: Live> Inbox<S> {
    /// An open one with nothing on it.
    fn new(alloc: Global) -> Self
        ensures waiting { result.waiting.items ≡ [] }
        ensures open { result.closed ≡ false }
        ensures rates { result.rates ≡ None }
    {
        Inbox {
            alloc,
            waiting: Vec::new(alloc),
            closed: false,
            rates: None,
        }
    }

    /// Adds a request behind those that wait, unless the desk is closed.
    fn add(&mut self, request: Req<Request<S>>) -> Result<(), (ProxyError, Req<Request<S>>)>
        requires { has_own_options request ≡ true }
        ensures added { OnOk result
            (self.new.waiting.items ≡ self.old.waiting.items ++ request ∷ []) }
        ensures open { OnOk result (self.old.closed ≡ false) }
        ensures closed { self.old.closed ≡ true
            → IfErr result (λ refused. refused.0 ≡ ProxyError.Closed) }
        ensures memory { self.old.closed ≡ false
            → IfErr result (λ refused. refused.0 ≡ ProxyError.Memory) }
        ensures handed_back { IfErr result (λ refused. refused.1 ≡ request) }
        ensures unchanged { OnErr result (self.new.waiting.items ≡ self.old.waiting.items) }
        ensures stays { self.new.closed ≡ self.old.closed }
        ensures rates { self.new.rates ≡ self.old.rates }
    {
        if self.closed {
            return Err((ProxyError::Closed, request));
        }
        match self.waiting.push(request) {
            Ok(()) => Ok(()),
            Err(refused) => Err((ProxyError::Memory, refused.value)),
        }
    }

    /// Takes new rates, in the place of those that it has.
    fn set_rates(&mut self, rates: Rates)
        ensures set { self.new.rates ≡ Some rates }
        ensures same { self.new.waiting ≡ self.old.waiting }
        ensures stays { self.new.closed ≡ self.old.closed }
    {
        self.rates = Some(rates);
    }

    /// Takes all that is on it. An open one stays open.
    fn take(&mut self) -> Taken<S>
        ensures requests { result.requests ≡ self.old.waiting }
        ensures closed { result.closed ≡ self.old.closed }
        ensures rates { result.rates ≡ self.old.rates }
        ensures empty { self.new.waiting.items ≡ [] }
        ensures none { self.new.rates ≡ None }
        ensures stays { self.new.closed ≡ self.old.closed }
    {
        let requests = mem::replace(&mut self.waiting, Vec::new(self.alloc));
        let rates = self.rates.take();
        Taken {
            requests,
            closed: self.closed,
            rates,
        }
    }

    /// Closes it. What is on it stays.
    fn close(&mut self)
        ensures closed { self.new.closed ≡ true }
        ensures same { self.new.waiting ≡ self.old.waiting }
        ensures rates { self.new.rates ≡ self.old.rates }
    {
        self.closed = true;
    }

    /// Closes it and takes all that is on it.
    fn close_and_take(&mut self) -> Taken<S>
        ensures requests { result.requests ≡ self.old.waiting }
        ensures last { result.closed ≡ true }
        ensures rates { result.rates ≡ self.old.rates }
        ensures empty { self.new.waiting.items ≡ [] }
        ensures closed { self.new.closed ≡ true }
    {
        self.close();
        self.take()
    }
}
