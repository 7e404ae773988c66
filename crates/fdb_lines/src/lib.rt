//! Logs as systems have them: a line for each call, and when lines are explained.
#![tactic(auto)]

mod end_table;
mod fault;
mod finding;
mod key_part;
mod key_parts;
mod key_watch;
mod known;
pub mod laws;
mod line;
mod locators;
mod log;
mod order;
mod pairs;
mod slot;
mod standing_lines;
mod sums;
mod tables;
mod tables_of;
mod watch;

pub use fault::{Fault, Finding, Found, Late, Means, Reason, Witness};
pub use finding::{findings, first_finding, first_finding_in_threads};
pub use key_part::{KeptLine, SettledKey};
pub use key_watch::KeyWatch;
pub use line::{Line, Operation, Times};
pub use log::{AuditOpts, LineError, Log, MAX_LINES, Summary};
pub use order::{KeyOrder, Order, order_or_findings};
pub use slot::{Effect, OrderStep};
pub use standing_lines::standing;
pub use sums::{summary, summary_in_threads};
pub use watch::{Settled, Watch, WatchError};
