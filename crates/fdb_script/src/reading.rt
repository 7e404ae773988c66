//! From the bytes of a script to the script: first the whole, with its numbers, its throttles and
//! its rounds as lists of values, then its commands.

ghost use Rattle.std.specs.Prelude.{◌≡◌, ◌<◌, ◌≤◌, [], codes, length, map, nat_le, nat_lt, ◌&&◌};
ghost use Rattle.std.specs.Prelude.{sum_by, IfOk, IfSome};
ghost use Rattle.std.specs.Option.{option_map};
ghost use Rattle.serde_json.specs.View.{view};
ghost use Rattle.fdb_history.specs.declared.register.TheConstants.{MAX_VERSION};
ghost use Rattle.fdb_queue.specs.Config.{IsConfig, IsElapsed};
ghost use Rattle.fdb_queue.specs.declared.config.TheConstants.{MAX_ELAPSED};
ghost use Rattle.fdb_script.specs.Reading.{frame_of, framed_plan, IsUnlessMemory, ReadsAs};
ghost use Rattle.fdb_script.specs.Reading.{arrays_of, checked, config_of, frame_with, is_frame};
ghost use Rattle.fdb_script.specs.Reading.{member, member_or, priority_of, throttle_of};
ghost use Rattle.fdb_script.specs.Reading.{throttle_with, throttles_of, whole, whole_within};
ghost use Rattle.fdb_script.specs.declared.script.TheConstants.{MAX_CLIENTS, MAX_COMMANDS};

mod command;
pub mod members;

use crate::script::{
    MAX_CLIENTS, MAX_COMMANDS, MAX_ROUNDS, MAX_THROTTLES, Script, ScriptError, Setup,
};
use command::rounds_of;
use fdb_history::{MAX_VERSION, Sequence, Tag};
use fdb_queue::{MAX_ELAPSED, MAX_RATE, MAX_ROOM, QueueConfig, Throttle};
use members::{items, items_within, member_within, priority_of, tag_of, whole_member, within_or};
use serde_json::Value;
use std::alloc::{AllocError, Global};

/// The script that the bytes stand for.
///
/// It is refused as `NotJson` where the bytes are no JSON text that `serde_json` reads, then as
/// `BadLimit` for a fault in the whole, then as `BadField` with the first command that has a fault,
/// and as `Memory` where memory is refused. The time grows with the bytes, and with the logarithm
/// of how many members an object has. Until it returns, it holds the JSON value of the whole text,
/// also of what is ignored, which may take up to 170 times as much memory as the bytes.
pub fn read_script(alloc: Global, bytes: &[u8]) -> Result<Script, ScriptError>
    ensures { ReadsAs bytes.now result }
{
    match Value::from_slice(alloc, bytes) {
        Ok(value) => script_of(alloc, &value),
        Err(error) if error.is_memory() => Err(ScriptError::Memory),
        Err(_) => Err(ScriptError::NotJson),
    }
}

/// The script of a JSON value.
fn script_of(alloc: Global, value: &Value) -> Result<Script, ScriptError>
    ensures { IsUnlessMemory result (framed_plan (frame_of (view value.now))) }
{
    let Some(frame) = frame_of(alloc, value)? else {
        return Err(ScriptError::BadLimit);
    };
    let rounds = rounds_of(alloc, &frame.rounds, frame.setup.clients)?;
    Ok(Script::new(frame.setup, rounds))
}

/// A script whose commands are not read yet, its numbers within their limits.
#[derive(Drop)]
pub(crate) struct Frame<'a> {
    pub(crate) setup: Setup,
    /// The values of each round, from which its commands are read.
    pub(crate) rounds: Vec<&'a [Value]>,
    ghost epoch_ends_before: { setup.epoch_end < setup.recovery },
    ghost recovery_in_range: { setup.recovery ≤ MAX_VERSION },
    ghost some_client: { 1 ≤ setup.clients },
    ghost clients_in_range: { setup.clients ≤ MAX_CLIENTS },
    ghost config_in_range: { IsConfig setup.config },
    ghost elapsed_in_range: { IsElapsed setup.elapsed },
}

/// The rates and the capacity of the queues, with a default for each.
fn config_of(value: &Value) -> Option<QueueConfig>
    ensures value { result ≡ config_of (view value.now) }
    ensures in_range { IfSome result IsConfig }
{
    let (Some(normal), Some(batch), Some(room)) = (
        within_or(value, "normal", 1_000, 1, MAX_RATE),
        within_or(value, "batch", 500, 0, MAX_RATE),
        within_or(value, "room", 1_000, 1, MAX_ROOM),
    ) else {
        return None;
    };
    Some(QueueConfig {
        normal,
        batch,
        room,
    })
}

/// A throttle of this tag, if its other members can be read; all are required.
fn throttle_with(value: &Value, tag: Tag) -> Option<Throttle>
    ensures { result ≡ throttle_with (Some tag)
        (member priority_of (codes "priority") (view value.now))
        (member whole (codes "rate") (view value.now))
        (member whole (codes "expires") (view value.now)) }
{
    let (Some(priority), Some(rate), Some(expires)) = (
        priority_of(value.get("priority")?),
        whole_member(value, "rate"),
        whole_member(value, "expires"),
    ) else {
        return None;
    };
    Some(Throttle {
        priority,
        tag,
        rate,
        expires,
    })
}

/// A throttle, if all its members are there and can be read.
fn throttle_of(alloc: Global, value: &Value) -> Result<Option<Throttle>, AllocError>
    ensures { IfOk result (λ throttle. throttle ≡ throttle_of (view value.now)) }
{
    let Some(member) = value.get("tag") else {
        return Ok(None);
    };
    let Some(tag) = tag_of(alloc, member)? else {
        return Ok(None);
    };
    Ok(throttle_with(value, tag))
}

/// The throttles of a list of at most [`MAX_THROTTLES`], if each can be read.
fn throttles_of(alloc: Global, value: &Value) -> Result<Option<Sequence<Throttle>>, AllocError>
    ensures { IfOk result (λ throttles. throttles ≡ throttles_of (view value.now)) }
{
    let Some(items) = items_within(value, MAX_THROTTLES) else {
        return Ok(None);
    };
    let mut throttles = Sequence::new(alloc);
    for item in items {
        let Some(throttle) = throttle_of(alloc, item)? else {
            return Ok(None);
        };
        throttles.push(throttle)?;
    }
    Ok(Some(throttles))
}

/// The throttles of a script, which are none where it has no such member.
fn throttles_or_none(alloc: Global, value: &Value) -> Result<Option<Sequence<Throttle>>, AllocError>
    ensures { IfOk result
        (λ throttles. throttles ≡ member_or [] throttles_of (codes "throttles") (view value.now)) }
{
    match value.get("throttles") {
        None => Ok(Some(Sequence::new(alloc))),
        Some(member) => throttles_of(alloc, member),
    }
}

/// The values of each round, if the rounds are at most [`MAX_ROUNDS`] and each is an array.
fn arrays_of(alloc: Global, value: &Value) -> Result<Option<Vec<&[Value]>>, AllocError>
    ensures { IfOk result
        (λ found. option_map (λ arrays. map (λ array. map view array.now) arrays.items) found
        ≡ arrays_of (view value.now)) }
{
    let Some(values) = items_within(value, MAX_ROUNDS) else {
        return Ok(None);
    };
    let mut arrays = Vec::new(alloc);
    for value in values {
        let Some(array) = items(value) else {
            return Ok(None);
        };
        arrays.push(array)?;
    }
    Ok(Some(arrays))
}

/// Whether the rounds have no more commands in all than a script may have.
fn has_few_commands(rounds: &[&[Value]]) -> bool
    ensures { result ≡ nat_le (sum_by (λ round. length round.now) rounds.now) MAX_COMMANDS }
{
    let mut count = 0;
    for round in rounds {
        if round.len() > MAX_COMMANDS - count {
            return false;
        }
        count += round.len();
    }
    true
}

/// Whether the epoch before ends before the recovery version, and there are not too many commands.
fn is_frame(epoch_end: u64, recovery: u64, rounds: &[&[Value]]) -> bool
    ensures { result ≡
        (nat_lt epoch_end recovery
        && nat_le (sum_by length (map (λ round. map view round.now) rounds.now)) MAX_COMMANDS) }
{
    epoch_end < recovery && has_few_commands(rounds)
}

/// A script of these throttles and rounds, if its numbers are there and within their limits.
fn frame_with<'a>(
    value: &Value,
    throttles: Sequence<Throttle>,
    rounds: Vec<&'a [Value]>,
) -> Option<Frame<'a>>
    ensures { option_map
        (λ frame. record {
          setup = frame.setup;
          rounds = map (λ round. map view round.now) frame.rounds.items;
        }) result
        ≡ checked is_frame
        (frame_with (Some throttles)
        (Some (map (λ round. map view round.now) rounds.entry.items))
        (member whole (codes "epoch_end") (view value.now))
        (member (whole_within 0 MAX_VERSION) (codes "recovery") (view value.now))
        (member (whole_within 1 MAX_CLIENTS) (codes "clients") (view value.now))
        (config_of (view value.now))
        (member_or 1000000 (whole_within 1 MAX_ELAPSED) (codes "elapsed") (view value.now))) }
{
    let (Some(epoch_end), Some(recovery), Some(clients), Some(config), Some(elapsed)) = (
        whole_member(value, "epoch_end"),
        member_within(value, "recovery", 0, MAX_VERSION),
        member_within(value, "clients", 1, MAX_CLIENTS),
        config_of(value),
        within_or(value, "elapsed", 1_000_000, 1, MAX_ELAPSED),
    ) else {
        return None;
    };
    if !is_frame(epoch_end, recovery, &rounds) {
        return None;
    }
    let setup = Setup {
        epoch_end,
        recovery,
        clients: clients as u32,
        config,
        elapsed,
        throttles,
    };
    Some(Frame { setup, rounds })
}

/// What a JSON value says as a whole, or nothing where that is a `BadLimit`.
fn frame_of(alloc: Global, value: &Value) -> Result<Option<Frame<'_>>, AllocError>
    ensures { IfOk result
        (λ found. option_map
        (λ frame. record {
          setup = frame.setup;
          rounds = map (λ round. map view round.now) frame.rounds.items;
        }) found
        ≡ frame_of (view value.now)) }
{
    let Some(throttles) = throttles_or_none(alloc, value)? else {
        return Ok(None);
    };
    let Some(rounds) = value.get("rounds") else {
        return Ok(None);
    };
    let Some(rounds) = arrays_of(alloc, rounds)? else {
        return Ok(None);
    };
    Ok(frame_with(value, throttles, rounds))
}
