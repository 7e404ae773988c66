//! Records, events and logs of a read-version service, and the definitions that its promises are
//! made of.
//!
//! A run of the service leaves a log for each client and a chain of commit versions. This crate has
//! their types, and in `specs/` says what the live committed version is after a list of events
//! (`Register`, `Event`), what a history of the logs is (`Linear`), and how commit versions follow
//! one another (`Chain`, `Issuing`). [`audit`] finds that history, or the first fault that stands
//! (`Faults`, `Strays`, `Audit`).
#![tactic(auto)]

mod auditing;
mod chain;
pub mod laws;
mod log;
mod register;
mod sequence;
mod service;

pub use auditing::{AuditFault, audit, history_of};
pub use chain::{Ask, Issued, MAX_STEP, Replies};
pub use log::{Call, CallAnswer, ClientLog, GrvOpts, Input, Priority, Refusal, Tag, TagLimit};
pub use register::{Event, History, MAX_VERSION, Record, register_after};
pub use sequence::Sequence;
pub use service::{Gate, OpenGate, Place, Service};
