//! The crates used as libraries: copy this folder, and write your own calls in place of these. What
//! a caller may rely on is in `guarantees`.
#![tactic(auto)]

pub mod guarantees;
mod logs;
mod master;
mod proxies;

use anyhow::Result;
use fdb_history::Record;

/// The live committed version before any report, which is the first commit version too.
const START: Record = Record {
    version: 100,
    locked: false,
    metadata: None,
    min_known: 0,
};

fn main(rt: HostRuntime) -> Result<()> {
    master::commit_versions(&rt, rt.alloc())?;
    proxies::one_window(&rt, rt.alloc())?;
    master::two_reporters(&rt, rt.alloc())?;
    master::two_threads(&rt, rt.alloc())?;
    let run = proxies::two_clients(&rt, rt.alloc())?;
    logs::caught(&rt, rt.alloc(), run)?;
    proxies::two_readers(&rt, rt.alloc())?;
    logs::explained(&rt, rt.alloc())
}
