//! Scripts in, text out: what the clients of a run are to do, and how what came of it is printed.
//!
//! [`read_script`] makes a [`Script`] of the bytes of a JSON text, and [`text`] prints what a run
//! of it left. In `specs/`, `Plan` has what contracts see of a script, with its limits, `Reading`
//! the plan that a JSON value stands for, `Answering` when the logs of a run answer a plan, and
//! `Text` the printed lines.
#![tactic(auto)]

pub mod laws;
mod lines;
mod printing;
mod reading;
mod script;

pub use crate::reading::members;
pub use printing::{push_verdict, text};
pub use reading::read_script;
pub use script::{
    Act, Command, MAX_CLIENTS, MAX_COMMANDS, MAX_ROUNDS, MAX_SCRIPT_BYTES, MAX_TAGS, MAX_THROTTLES,
    Outcome, Script, ScriptError, Setup,
};
