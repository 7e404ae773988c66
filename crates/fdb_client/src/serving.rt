//! GRV proxies that serve while something else runs.

ghost use Rattle.std.specs.Prelude.{◌≡◌, ◌↔◌, ◌≤◌, [], All, IfOk, IsTrue, true, vec_capacity};
ghost use Rattle.std.specs.Prelude.{vec_len};
ghost use Rattle.fdb_client.specs.private.Serving.{IsMadeFor};

use crate::cluster::Cluster;
use fdb_live::{Live, Seen};
use fdb_proxy::GrvProxy;
use std::alloc::{AllocError, Global};
use std::sync::Wait;
use std::thread;
use std::thread::{JoinHandle, Scope, Threads};

/// How the GRV proxies of a cluster ended, once their threads were joined.
#[derive(Debug, Drop)]
pub struct Ends {
    /// Whether each served until its desk was closed, by its number. One that did not ran out of
    /// memory and closed its desk itself; whoever read there from then on was refused as
    /// `ProxyClosed`.
    pub served: Vec<bool>,
}

impl Ends {
    /// Whether all served until their desks were closed.
    pub fn all_served(&self) -> bool
        ensures { IsTrue result ↔ All (λ served. served ≡ true) self.now.served.items }
    {
        self.served.iter().all(|served| *served)
    }
}

/// What came of a body, and how the GRV proxies ended that served while it ran.
#[derive(Debug, Drop)]
pub struct Served<O> {
    /// What the body returned, of which its own `ensures` holds.
    pub output: O,
    /// Of each proxy, whether it served until its desk was closed.
    pub ends: Ends,
}

/// Runs `body` in this thread while the GRV proxies of the cluster serve, each in a thread of its
/// own and with a token that is split off `first`. Once `body` has ended the desks are closed and
/// the proxies joined. Answers what came of `body`, and of each proxy whether it served until its
/// desk was closed.
///
/// It is refused where memory runs out or a thread cannot be had. `body` has not run then, and
/// what was started has ended.
pub fn serve_while<S: Live + Send + Sync, R: Threads + Wait + Sync, O, F: FnOnce() -> O + Drop>(
    rt: &R,
    alloc: Global,
    cluster: &Cluster<'_, S>,
    first: &mut Seen<S>,
    body: F,
) -> Result<Served<O>, AllocError>
    requires { F.pre body }
    ensures output { IfOk result (λ ran. F.post body ran.output) }
    ensures ends { IfOk result
        (λ ran. vec_len ran.ends.served ≡ cluster.now.config.grv_proxies) }
    ensures first { first.new ≡ first.old }
{
    let own = cluster.live().split(first);
    let proxies = proxies_of(alloc, cluster, own)?;
    let served = Vec::with_capacity(alloc, proxies.len())?;
    thread::scope(
        thread::scope_env(),
        rt,
        move |scope| -> Result<Served<O>, AllocError>
            requires body { F.pre body }
            requires capacity { vec_len proxies ≤ vec_capacity served }
            requires empty { served.items ≡ [] }
            ensures output { IfOk result (λ ran. F.post body ran.output) }
            ensures ends { IfOk result (λ ran. vec_len ran.ends.served ≡ vec_len proxies.entry) }
        {
            let mut threads = Vec::new(alloc);
            if !start_all(rt, scope, proxies, &mut threads) {
                let _ends = end_all(rt, cluster, threads, served);
                return Err(AllocError);
            }
            let output = body();
            let ends = end_all(rt, cluster, threads, served);
            Ok(Served { output, ends })
        },
    )
}

/// A GRV proxy for each desk, in order, each with a token that is split off this one.
fn proxies_of<'a, S: Live>(
    alloc: Global,
    cluster: &'a Cluster<'_, S>,
    mut first: Seen<S>,
) -> Result<Vec<GrvProxy<'a, S>>, AllocError>
    ensures each { IfOk result (λ proxies. vec_len proxies ≡ cluster.now.config.grv_proxies) }
    ensures made { IfOk result
        (λ proxies. All (IsMadeFor cluster.now.config) proxies.items) }
{
    let mut proxies = Vec::new(alloc);
    for number in 0..cluster.config().grv_proxies {
        proxies.push(cluster.grv_proxy(alloc, number, &mut first)?)?;
    }
    Ok(proxies)
}

/// Has each proxy serve its desk in a thread of its own, in order, until one cannot be had. Answers
/// whether there is one for each proxy.
fn start_all<'s, E, S: Live + Send + Sync, R: Threads + Wait + Sync>(
    rt: &'s R,
    scope: &Scope<'s, E>,
    proxies: Vec<GrvProxy<'s, S>>,
    threads: &mut Vec<JoinHandle<bool>>,
) -> bool
    requires { threads.old.items ≡ [] }
    ensures few { vec_len threads.new ≤ vec_len proxies.entry }
    ensures each { result ≡ true → vec_len threads.new ≡ vec_len proxies.entry }
{
    for proxy in proxies {
        let Ok(thread) = scope.spawn(move || proxy.run(rt).is_ok()) else {
            return false;
        };
        if threads.push(thread).is_err() {
            return false;
        }
    }
    true
}

/// Closes the desks and joins the proxies, and keeps for each whether it served until its desk was
/// closed.
fn end_all<S: Live, R: Threads + Wait>(
    rt: &R,
    cluster: &Cluster<'_, S>,
    threads: Vec<JoinHandle<bool>>,
    mut served: Vec<bool>,
) -> Ends
    requires capacity { vec_len threads ≤ vec_capacity served }
    requires empty { served.items ≡ [] }
    ensures { vec_len result.served ≡ vec_len threads }
{
    cluster.close(rt);
    for thread in threads {
        served.push_reserved(thread.join(rt));
    }
    Ends { served }
}
