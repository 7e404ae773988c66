//! The GRV proxies: desks at which clients leave their requests for a read version, and proxies
//! that serve them.
//!
//! A [`Request`] carries a token of what its client has seen. A [`GrvProxy`] takes requests from
//! its [`Desk`], offers them to its queue and holds a window; [`serve_batch`] answers those that
//! start together with one read of the live record. Each [`Reply`] carries a token that proves the
//! record that it has, and extends what its client had seen. In `specs/`, `Batch` says what a reply
//! has to do with its request, and `Turn` what a turn of a proxy is by its queue's definitions.
#![tactic(auto)]

mod batch;
mod desk;
mod error;
mod proxy;
mod request;
mod turn;

pub use batch::serve_batch;
pub use desk::{Desk, Taken};
pub use error::{Cause, ProxyError};
pub use proxy::GrvProxy;
pub use request::{Addressed, Answer, Rates, Refused, Reply, Request};
