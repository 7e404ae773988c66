//! The queue of a GRV proxy: which requests for a read version are let in, and which of them start
//! when.
//!
//! [`GrvQueue`] has a list for each priority and a budget for each rate. It runs in one thread, and
//! the requests' payloads are of any type. What it does is defined in `specs/`: `Waiting` has the
//! lists as one row, `Admission` says what becomes of a request that is offered, and `Window` which
//! requests a window starts and what is left of the budgets after it.
#![tactic(auto)]

mod config;
mod error;
pub mod laws;
mod queue;
mod throttles;
mod waiting;
mod window;

pub use config::{
    IDLE_BURST, MAX_BURST, MAX_COUNT, MAX_ELAPSED, MAX_RATE, MAX_ROOM, MAX_STARTED, MAX_TAG,
    QueueConfig, RATE_WINDOW,
};
pub use error::QueueError;
pub use queue::GrvQueue;
pub use throttles::Throttle;
pub use waiting::{Lengths, Req, TurnedAway};
pub use window::Budgets;
