//! The part of the read-version path that one thread runs, for C: the chain of commit versions, the
//! register and the queue of a GRV proxy; and the audit of logs.
//!
//! `include/fdb_read_version.h` declares what is exported here. A chain and a queue are used by a
//! *handle*, a struct of the caller's that has one pointer and owns what it points to, or by
//! arrays: all requests in, all answers out. The clauses say what those of `fdb_chain`,
//! `fdb_history`, `fdb_queue`, `fdb_lines` and `fdb_audit` say, over the structs that cross.
#![tactic(auto)]

mod audit;
mod audit_calls;
mod audit_faults;
mod audit_listing;
mod audited;
mod chain;
mod handle;
mod queue;
mod queue_array;
mod queue_calls;
mod queue_limits;
mod register;
mod status;
mod watch_calls;
mod watch_options;
mod watched;
