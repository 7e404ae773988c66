//! What stands for one service where types and contracts speak of it, and the places at which a
//! test can hold a thread of it.

use std::marker::Brand;

/// A type that names one service in other types and in contracts, and stands for nothing when the
/// program runs. Values of two services have two names in their types, so they cannot be mixed up.
/// All that a contract can know of a service is what its name says: the ghost members below.
pub trait Service {
    ghost use Rattle.std.specs.Prelude.{ℕ};
    ghost use Rattle.fdb_history.specs.declared.register.Record.{Record};

    // The last version of the epoch before, which the first commit version has as its predecessor.
    ghost epoch_end: { ℕ };

    // The version with which the epoch of the service begins.
    ghost recovery: { ℕ };

    // The live committed version before any report.
    ghost start: { Record };

    // How many reporters there are; they are numbered from 0.
    ghost reporters: { ℕ };
}

/// The name that a call may pick the service of.
impl Service for Brand {
    ghost use Rattle.std.specs.Prelude.{false, None};

    ghost epoch_end = { 0 };

    ghost recovery = { 0 };

    ghost start = { record { version = 0; locked = false; metadata = None; min_known = 0 } };

    ghost reporters = { 0 };
}

/// A place in a call that a thread passes, and at which its gate may hold it.
#[derive(Clone, Copy, Debug, PartialEq, Eq)]
pub enum Place {
    /// The sequencer's lock is held, and the chain is not asked yet.
    SequencerHeld,
    /// The lock of the reports is held, and the live record is not looked at yet.
    ReportHeld,
    /// The answer to a read has come, and its client has not looked at it yet.
    ReadAnswered,
}

/// What is called at each place. `pass` comes back, and
/// leaves everything of this library as it was.
pub trait Gate: Sync {
    /// The thread of client or commit proxy `who` is at the place.
    fn pass(&self, place: Place, who: u32);
}

/// The gate of a service in use: every thread passes it at once.
#[derive(Clone, Copy, Debug, PartialEq, Eq)]
pub struct OpenGate;

impl Gate for OpenGate {
    fn pass(&self, _place: Place, _who: u32) {}
}
