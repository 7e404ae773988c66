//! Audits the logs of a system, as the arguments of the command line say, or cuts one into parts. On a
//! terminal it tells how far it is as if `--progress` were given.
#![tactic(auto)]

use std::alloc::{AllocError, Global};
use std::io;
use std::io::IsTerminal;
use std::process::ExitCode;

/// The flag that has progress told.
const PROGRESS: &str = "--progress";

/// The argument that has a log cut, and how it begins with its number; and what stands before names.
const SPLIT: &str = "--split";

const SPLIT_INTO: &str = "--split=";

const NAMES_FOLLOW: &str = "--";

fn main(rt: HostRuntime) -> ExitCode {
    let alloc = rt.alloc();
    let arguments = arguments(
        alloc,
        fdb_audit::command_line(&rt),
        rt.stderr().is_terminal(),
    );
    let (input, out, err) = (&mut rt.stdin(), &mut rt.stdout(), &mut rt.stderr());
    let status = if is_cut(&arguments) {
        fdb_split::drive(&rt, alloc, arguments, input, out, err)
    } else {
        fdb_audit::drive(&rt, alloc, arguments, input, out, err)
    };
    ExitCode::from(status)
}

/// Whether the arguments ask for a log to be cut into parts: behind `--` every one is a name.
fn is_cut(arguments: &io::Result<Vec<String>>) -> bool {
    match arguments {
        Ok(arguments) => arguments
            .iter()
            .take_while(|given| given.as_str() != NAMES_FOLLOW)
            .any(|given| given.as_str() == SPLIT || given.starts_with(SPLIT_INTO)),
        Err(_) => false,
    }
}

/// The arguments that were given, with the flag for progress in front where standard error is a
/// terminal and they do not have it; without it where memory for it is refused.
fn arguments(
    alloc: Global,
    given: io::Result<Vec<String>>,
    on_terminal: bool,
) -> io::Result<Vec<String>> {
    let mut arguments = given?;
    if on_terminal && !arguments.iter().any(|given| given.as_str() == PROGRESS) {
        let _ = ask_for_progress(alloc, &mut arguments);
    }
    Ok(arguments)
}

/// Puts the flag in front.
fn ask_for_progress(alloc: Global, arguments: &mut Vec<String>) -> Result<(), AllocError> {
    let flag = String::from_str(alloc, PROGRESS)?;
    arguments.insert(0, flag)?;
    Ok(())
}
