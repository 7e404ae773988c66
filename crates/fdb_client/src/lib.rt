//! A client of the read-version service, and the log of its calls.
//!
//! A [`Client`] reads through the desks of GRV proxies, asks the master for commit versions as the
//! commit proxy of its own number, and reports them to it. Each call that is not refused for memory
//! adds one entry to its log, which says what was called, what the client had
//! seen before and after it, and what came back. In `specs/`, `Account` says how a client's log
//! grows, `Calls` what may be logged for each call, and `Returned` which value a call returns for
//! what it logged.
#![tactic(auto)]

mod client;
mod cluster;
mod error;
mod journal;
mod reply;
mod serving;
mod settled_run;
mod workload;

pub use client::Client;
pub use cluster::{Cluster, ClusterConfig, ClusterParts, MAX_GRV_PROXIES, OpenedCluster};
pub use error::ClientError;
pub use reply::ReadVersion;
pub use serving::{Ends, Served, serve_while};
pub use settled_run::{SettledRun, settle};
pub use workload::{FinishError, Finished, Workload, WorkloadOutcome, clients_of, run_workload};
