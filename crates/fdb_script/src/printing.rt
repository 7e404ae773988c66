//! The printed text: the replies by round, client and command, the audit line, and the history
//! where it is wanted.

ghost use Rattle.std.specs.Prelude.{◌≡◌, ◌++◌, ◌∷◌, [], ◌==◌, MatchOption, IfOk, IfErr, OnOk};
ghost use Rattle.std.specs.Prelude.{count_by, drop, map, string_bytes};
ghost use Rattle.fdb_history.specs.Event.{raise_count};
ghost use Rattle.fdb_script.specs.Answering.{Answers};
ghost use Rattle.fdb_script.specs.Text.{audit_text, calls_after, client_lines};
ghost use Rattle.fdb_script.specs.Text.{replies_of, history_lines, line, reply_lines, round_lines};
ghost use Rattle.fdb_script.specs.Text.{text, verdict_text};

use crate::lines::{AuditLine, HistoryLine, ReplyLine};
use crate::script::{Command, Outcome, Script, ScriptError};
use fdb_history::{Call, ClientLog, Event, History, Input, Sequence};
use std::alloc::{AllocError, Global};
use std::fmt::Write;

/// The text of a run: its replies by round, client and command, the audit line, and its history
/// where it is wanted. The logs of the outcome have to answer the script. It fails only where
/// memory runs out.
///
/// It takes time in proportion to the text and the logs, and to the rounds and commands times the
/// clients; and memory for the text, and a slice for each client.
pub fn text(
    alloc: Global,
    script: &Script,
    outcome: &Outcome,
    with_history: bool,
) -> Result<Vec<u8>, ScriptError>
    requires { Answers script.now outcome.now.logs.items }
    ensures ok { IfOk result (λ bytes. bytes.items ≡ text script.now outcome.now with_history) }
    ensures err { IfErr result (λ e. e ≡ ScriptError.Memory) }
{
    let mut printed = String::new(alloc);
    let mut left = logged_calls(alloc, &outcome.logs)?;
    push_replies(&mut printed, script.rounds(), &mut left)?;
    push_verdict(
        &mut printed,
        &outcome.history,
        outcome.chain.len() as u64,
        with_history,
    )?;
    Ok(printed.into_bytes())
}

/// Appends what an audit found in logs without a fault: the audit line, for so many commit
/// versions, and the history where it is wanted. It fails only where memory runs out.
pub fn push_verdict(
    printed: &mut String,
    history: &History,
    versions: u64,
    with_history: bool,
) -> Result<(), AllocError>
    ensures { OnOk result
        (string_bytes printed.new
        ≡ string_bytes printed.old ++ verdict_text history.now.events versions with_history) }
{
    let events = history.events.as_slice();
    push_audit(printed, events, versions)?;
    if with_history {
        push_history(printed, events)?;
    }
    Ok(())
}

/// The calls of each log, of which none is printed yet.
fn logged_calls(alloc: Global, logs: &[ClientLog]) -> Result<Vec<&[Call]>, AllocError>
    ensures { IfOk result
        (λ all. map (λ calls. replies_of calls.now) all.items
        ≡ map (λ log. replies_of log.calls) logs.now) }
{
    let mut all = Vec::new(alloc);
    for log in logs {
        all.push(log.calls.as_slice())?;
    }
    Ok(all)
}

/// Appends the replies of all rounds. Of the calls of each client those are left that answer no
/// command.
fn push_replies(
    printed: &mut String,
    rounds: &[Sequence<Command>],
    left: &mut [&[Call]],
) -> Result<(), AllocError>
    ensures { OnOk result
        (string_bytes printed.new
        ≡ string_bytes printed.old
        ++ reply_lines 0 rounds.now (map (λ calls. replies_of calls.now) left.old)) }
{
    for (round, commands) in rounds.iter().enumerate() {
        push_round(printed, round as u64, commands.as_slice(), left)?;
    }
    Ok(())
}

/// Appends the replies of a round, client by client, and leaves each client's calls after the
/// round.
fn push_round(
    printed: &mut String,
    round: u64,
    commands: &[Command],
    left: &mut [&[Call]],
) -> Result<(), AllocError>
    ensures lines { OnOk result
        (string_bytes printed.new
        ≡ string_bytes printed.old
        ++ round_lines round 0 commands.now (map (λ calls. replies_of calls.now) left.old)) }
    ensures left { OnOk result
        (map (λ calls. replies_of calls.now) left.new
        ≡ calls_after 0 commands.now (map (λ calls. replies_of calls.now) left.old)) }
{
    for client in 0..left.len() {
        left[client] = push_client(printed, round, client as u64, commands, left[client])?;
    }
    Ok(())
}

/// Appends the replies to a client's commands of a round, and gives the calls after them.
fn push_client<'a>(
    printed: &mut String,
    round: u64,
    client: u64,
    commands: &[Command],
    calls: &'a [Call],
) -> Result<&'a [Call], AllocError>
    ensures lines { OnOk result
        (string_bytes printed.new
        ≡ string_bytes printed.old
        ++ client_lines round client 0 commands.now (replies_of calls.now)) }
    ensures left { IfOk result
        (λ left. replies_of left.now
        ≡ drop (count_by (λ command. command.client == client) commands.now)
        (replies_of calls.now)) }
{
    let mut left = calls;
    for (number, command) in commands.iter().enumerate() {
        if u64::from(command.client) != client {
            continue;
        }
        // Logs that answer the script have a call for each command.
        let Some((call, others)) = next_reply(left) else {
            return Ok(left);
        };
        let line = ReplyLine {
            round,
            client,
            number: number as u64,
            act: &command.act,
            call,
        };
        writeln!(printed, "{line}")?;
        left = others;
    }
    Ok(left)
}

/// The next call that answers a command, and the calls after it.
fn next_reply(calls: &[Call]) -> Option<(&Call, &[Call])>
    ensures { MatchOption result (replies_of calls.now ≡ [])
        (λ found. replies_of calls.now ≡ found.0.now ∷ replies_of found.1.now) }
{
    let mut left = calls;
    while let Some((call, others)) = left.split_first() {
        // A call that learns answers no command.
        if !matches!(&call.input, Input::Learn { .. }) {
            return Some((call, others));
        }
        left = others;
    }
    None
}

/// Appends the audit line, with the counts of the history's events.
fn push_audit(printed: &mut String, events: &[Event], versions: u64) -> Result<(), AllocError>
    ensures { OnOk result
        (string_bytes printed.new
        ≡ string_bytes printed.old ++ line (audit_text events.now versions)) }
{
    let line = AuditLine {
        events: events.len() as u64,
        raised: raised_count(events) as u64,
        versions,
    };
    writeln!(printed, "{line}")
}

/// How many reports raised the live committed version.
fn raised_count(events: &[Event]) -> usize
    ensures { result ≡ raise_count events.now }
{
    events
        .iter()
        .filter(|event| matches!(event, Event::Report { raised: true, .. }))
        .count()
}

/// Appends the history, a line for each event.
fn push_history(printed: &mut String, events: &[Event]) -> Result<(), AllocError>
    ensures { OnOk result
        (string_bytes printed.new ≡ string_bytes printed.old ++ history_lines 0 events.now) }
{
    for (number, event) in events.iter().enumerate() {
        let line = HistoryLine {
            number: number as u64,
            event,
        };
        writeln!(printed, "{line}")?;
    }
    Ok(())
}
