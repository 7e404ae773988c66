//! A script as data: its setup, its rounds of commands, its limits, its refusals under the names
//! that the program prints, and what a run of it leaves.

ghost use Rattle.std.specs.Prelude.{◌≡◌};

use fdb_history::{ClientLog, GrvOpts, History, Issued, Sequence};
use fdb_queue::{QueueConfig, Throttle};
use std::alloc::{AllocError, AllocFailed};
use std::error::Error;
use std::fmt;
use std::marker::Model;

/// The most bytes of a script: to the program a longer input is a failure of reading.
pub const MAX_SCRIPT_BYTES: usize = 16_777_216;

/// The most clients of a script, each of which may have a thread of its own in a round.
pub const MAX_CLIENTS: u64 = 64;

/// The most throttles of a script, all of which each GRV proxy is given.
pub const MAX_THROTTLES: usize = 1_000;

/// The most rounds of a script, with commands or without.
pub const MAX_ROUNDS: usize = 10_000;

/// The most commands of a script, over all rounds.
pub const MAX_COMMANDS: usize = 10_000;

/// The most tags of a read in a script.
pub const MAX_TAGS: usize = 5;

/// What a client is to do, with the default for each member that the script left out.
#[derive(Debug, Drop)]
pub enum Act {
    /// Read the read version through a GRV proxy.
    Grv(GrvOpts),
    /// Ask the sequencer for the client's next commit version.
    Ask {
        /// The number up to which the client has processed its answers.
        processed: u64,
        /// The moment of the request, in microseconds.
        at: u64,
    },
    /// Ask the sequencer for the client's commit version under a number, as after a lost answer.
    Reask {
        /// The number of that version, the client's first being 1.
        num: u64,
        /// The number up to which the client has processed its answers.
        processed: u64,
        /// The moment of the request, in microseconds.
        at: u64,
    },
    /// Report the commit version that the client got under a number.
    Report {
        /// The number under which the client got it, from 1 on.
        num: u64,
        /// Whether the database is locked from this version on.
        locked: bool,
        /// The metadata version, if there is one.
        metadata: Option<[u8; 10]>,
        /// The minimum known committed version, 0 where none is told.
        min_known: u64,
    },
    /// Tell another client what was seen, which that one learns when the round is over.
    Tell {
        /// The client that is told, another than the one that tells.
        to: u32,
    },
}

/// A command of a script, which one client does in one round.
#[derive(Debug, Drop)]
pub struct Command {
    /// The client that is to do it, counted from 0.
    pub client: u32,
    /// What it is to do, once it has done its commands before.
    pub act: Act,
}

/// What a script says besides its rounds: from where the service starts, how many clients there
/// are, and what its GRV proxies are made with.
#[derive(Drop)]
pub struct Setup {
    /// The end of the epoch before: the version before the first commit version.
    pub epoch_end: u64,
    /// The version at which the service starts: the first commit version, above `epoch_end`.
    pub recovery: u64,
    /// How many clients there are, 1 to [`MAX_CLIENTS`].
    pub clients: u32,
    /// The rates and the capacity of the queue that each GRV proxy has of its own.
    pub config: QueueConfig,
    /// The time between two windows of a GRV proxy, in microseconds.
    pub elapsed: u64,
    /// The throttles that each GRV proxy is given, in order. Of two for one priority and one tag,
    /// the one further down counts.
    pub throttles: Sequence<Throttle>,
}

/// A script: how its run is set up, and what its clients do in each round.
///
/// Contracts see its plan, which is the record of these parts, and know that it is within the
/// limits (`IsPlan`).
#[derive(Drop)]
pub struct Script {
    setup: Setup,
    rounds: Sequence<Sequence<Command>>,
}

impl Model for Script {
    ghost use Rattle.fdb_script.specs.Plan.{Plan, IsPlan};

    ghost Value = { Plan };

    ghost view = { λ script. record { setup = script.setup; rounds = script.rounds } };

    ghost invariant = { λ script. IsPlan
        (record { setup = script.setup; rounds = script.rounds }) };
}

impl Script {
    ghost use Rattle.fdb_script.specs.Plan.{IsPlan, Plan};

    /// The script of these parts, which are within the limits.
    pub(crate) fn new(setup: Setup, rounds: Sequence<Sequence<Command>>) -> Script
        requires { IsPlan (record { setup = setup; rounds = rounds }) }
        ensures { result ≡ record { setup = setup; rounds = rounds } }
    {
        Script { setup, rounds }
    }

    /// Where the service starts, how many clients there are, and what its GRV proxies are made
    /// with.
    pub fn setup(&self) -> &Setup
        ensures value { result.now ≡ self.now.setup }
        ensures plan { IsPlan self.now }
    {
        &self.setup
    }

    /// The rounds, each a list of commands.
    pub fn rounds(&self) -> &[Sequence<Command>]
        ensures { result.now ≡ self.now.rounds }
    {
        self.rounds.as_slice()
    }
}

/// Why a script is refused, or its text not made.
#[derive(Clone, Copy, Debug, PartialEq, Eq)]
pub enum ScriptError {
    /// The bytes are no UTF-8, or no JSON text that `serde_json` reads.
    NotJson,
    /// A command has a fault: the first that has one is named.
    BadField {
        /// The round that it stands in, counted from 0.
        round: u64,
        /// The command's place in the round, counted from 0.
        command: u64,
    },
    /// A member of the whole script, or of a throttle, is missing, of another kind or beyond its
    /// limit, or a round is no list.
    BadLimit,
    /// Memory was refused, which says nothing of the script.
    Memory,
}

impl fmt::Display for ScriptError {
    fn fmt<W: fmt::Write>(&self, f: &mut fmt::Formatter<W>) -> fmt::Result {
        f.write_str(match self {
            ScriptError::NotJson => "NotJson",
            ScriptError::BadField { round, command } => {
                return write!(f, "BadField {round} {command}");
            }
            ScriptError::BadLimit => "BadLimit",
            ScriptError::Memory => "out of memory",
        })
    }
}

impl Error for ScriptError {}

impl From<AllocError> for ScriptError {
    ghost use Rattle.fdb_script.specs.declared.script.ScriptError.TheVariants.{Memory};

    ghost from_gives = { λ _ e. e ≡ Memory };

    fn from(_error: AllocError) -> Self {
        ScriptError::Memory
    }
}

impl<T: Drop> From<AllocFailed<T>> for ScriptError {
    ghost use Rattle.fdb_script.specs.declared.script.ScriptError.TheVariants.{Memory};

    ghost from_gives = { λ _ e. e ≡ Memory };

    fn from(_error: AllocFailed<T>) -> Self {
        ScriptError::Memory
    }
}

/// What a run leaves: the chain of commit versions, the log of each client, and a history that
/// explains them.
#[derive(Drop)]
pub struct Outcome {
    /// The answers that drew a commit version, each above the one before.
    pub chain: Vec<Issued>,
    /// The log of each client, by its number.
    pub logs: Vec<ClientLog>,
    /// One order of all answered reads and reports that explains the logs.
    pub history: History,
}
