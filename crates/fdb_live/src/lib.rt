//! The live committed version in a cell that threads read without the lock of the reports, and
//! tokens that prove what their holders have seen of it.
#![tactic(auto)]

mod held;
mod live_record;
mod master;
mod opened;
mod passes;
mod right;
mod seen;
mod view;

pub use held::Fetched;
pub use live_record::{Ack, LiveError, LiveRecord};
pub use master::Master;
pub use opened::{MAX_REPORTERS, Opened, UnderName};
pub use seen::{Live, Seen};
pub use view::{Change, Epoch};
