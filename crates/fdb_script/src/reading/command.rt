//! The commands of a script: objects with `do`, `client` and the members of that act.

ghost use Rattle.std.specs.Prelude.{◌≡◌, IfOk, map, codes, false};
ghost use Rattle.serde_json.specs.View.{view};
ghost use Rattle.serde_json.specs.Find.{as_bool};
ghost use Rattle.fdb_history.specs.declared.log.Priority.TheVariants.{Default};
ghost use Rattle.fdb_script.specs.Reading.{act_of, ask_of, command_of, commands_from, grv_of};
ghost use Rattle.fdb_script.specs.Reading.{grv_with, IsUnlessMemory, member_or, priority_of};
ghost use Rattle.fdb_script.specs.Reading.{reask_of, report_of, rounds_from, tell_of, whole};

use crate::reading::members::{
    client_member, flag_or_false, metadata_or_none, priority_of, tags_or_none, text_member,
    whole_member, whole_or,
};
use crate::script::{Act, Command, ScriptError};
use fdb_history::{GrvOpts, Priority, Sequence, Tag};
use serde_json::Value;
use std::alloc::{AllocError, Global};

/// The priority of a read, `default` where it names none.
fn priority_or_default(value: &Value) -> Option<Priority>
    ensures { result ≡ member_or Default priority_of (codes "priority") (view value.now) }
{
    match value.get("priority") {
        None => Some(Priority::Default),
        Some(member) => priority_of(member),
    }
}

/// A read with these tags, if its other members can be read.
fn grv_with(value: &Value, tags: Sequence<Tag>) -> Option<Act>
    ensures { result ≡ grv_with (Some tags) (member_or 0 whole (codes "at") (view value.now))
        (member_or Default priority_of (codes "priority") (view value.now))
        (member_or 1 whole (codes "count") (view value.now))
        (member_or false as_bool (codes "lock_aware") (view value.now))
        (member_or false as_bool (codes "use_min") (view value.now)) }
{
    let (Some(at), Some(priority), Some(count), Some(lock_aware), Some(use_min)) = (
        whole_or(value, "at", 0),
        priority_or_default(value),
        whole_or(value, "count", 1),
        flag_or_false(value, "lock_aware"),
        flag_or_false(value, "use_min"),
    ) else {
        return None;
    };
    Some(Act::Grv(GrvOpts {
        priority,
        count,
        tags,
        lock_aware,
        at,
        use_min,
    }))
}

/// A read, if all its members can be read; each may be missing.
fn grv_of(alloc: Global, value: &Value) -> Result<Option<Act>, AllocError>
    ensures { IfOk result (λ act. act ≡ grv_of (view value.now)) }
{
    let Some(tags) = tags_or_none(alloc, value, "tags")? else {
        return Ok(None);
    };
    Ok(grv_with(value, tags))
}

/// A request for the next commit version, of which `at` is required.
fn ask_of(value: &Value) -> Option<Act>
    ensures { result ≡ ask_of (view value.now) }
{
    let at = whole_member(value, "at")?;
    let processed = whole_or(value, "processed", 0)?;
    Some(Act::Ask { processed, at })
}

/// A request for the commit version under a number; `num` and `at` are required.
fn reask_of(value: &Value) -> Option<Act>
    ensures { result ≡ reask_of (view value.now) }
{
    let (Some(num), Some(at), Some(processed)) = (
        whole_member(value, "num"),
        whole_member(value, "at"),
        whole_or(value, "processed", 0),
    ) else {
        return None;
    };
    Some(Act::Reask { num, processed, at })
}

/// A report, of which `num` alone is required.
fn report_of(value: &Value) -> Option<Act>
    ensures { result ≡ report_of (view value.now) }
{
    let (Some(num), Some(locked), Some(metadata), Some(min_known)) = (
        whole_member(value, "num"),
        flag_or_false(value, "locked"),
        metadata_or_none(value),
        whole_or(value, "min_known", 0),
    ) else {
        return None;
    };
    Some(Act::Report {
        num,
        locked,
        metadata,
        min_known,
    })
}

/// A tell to another client; to tell oneself is a fault.
fn tell_of(value: &Value, client: u32, clients: u32) -> Option<Act>
    ensures { result ≡ tell_of clients client (view value.now) }
{
    let to = client_member(value, "to", clients)?;
    if to == client {
        return None;
    }
    Some(Act::Tell { to })
}

/// What a command's client is to do.
fn act_of(
    alloc: Global,
    value: &Value,
    client: u32,
    clients: u32,
) -> Result<Option<Act>, AllocError>
    ensures { IfOk result (λ act. act ≡ act_of clients client (view value.now)) }
{
    let Some(name) = text_member(value, "do") else {
        return Ok(None);
    };
    match name {
        "grv" => grv_of(alloc, value),
        "ask" => Ok(ask_of(value)),
        "reask" => Ok(reask_of(value)),
        "report" => Ok(report_of(value)),
        "tell" => Ok(tell_of(value, client, clients)),
        _ => Ok(None),
    }
}

/// A command of a script with this many clients.
fn command_of(alloc: Global, value: &Value, clients: u32) -> Result<Option<Command>, AllocError>
    ensures { IfOk result (λ command. command ≡ command_of clients (view value.now)) }
{
    let Some(client) = client_member(value, "client", clients) else {
        return Ok(None);
    };
    let Some(act) = act_of(alloc, value, client, clients)? else {
        return Ok(None);
    };
    Ok(Some(Command { client, act }))
}

/// The commands of a round, or the first that is faulty.
fn commands_of(
    alloc: Global,
    values: &[Value],
    clients: u32,
    round: u64,
) -> Result<Sequence<Command>, ScriptError>
    ensures { IsUnlessMemory result (commands_from clients round 0 (map view values.now)) }
{
    let mut commands = Sequence::new(alloc);
    for (place, value) in values.iter().enumerate() {
        let Some(command) = command_of(alloc, value, clients)? else {
            return Err(ScriptError::BadField {
                round,
                command: place as u64,
            });
        };
        commands.push(command)?;
    }
    Ok(commands)
}

/// The commands of each round, or the first that is faulty.
pub(crate) fn rounds_of(
    alloc: Global,
    rounds: &[&[Value]],
    clients: u32,
) -> Result<Sequence<Sequence<Command>>, ScriptError>
    ensures { IsUnlessMemory result
        (rounds_from clients 0 (map (λ round. map view round.now) rounds.now)) }
{
    let mut all = Sequence::new(alloc);
    for (number, round) in rounds.iter().enumerate() {
        let commands = commands_of(alloc, round, clients, number as u64)?;
        all.push(commands)?;
    }
    Ok(all)
}
