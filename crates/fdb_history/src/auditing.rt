//! The audit of a run's logs: their history, or the first fault that stands.

ghost use Rattle.std.specs.Prelude.{◌≡◌, ◌≤◌, ◌^◌, ◌⊎◌, length, map, List, OnOk, IfOk, IfErr, Ok};
ghost use Rattle.std.specs.Prelude.{Err, ◌++◌};
ghost use Rattle.fdb_history.specs.Audit.{IsAudited, IsFirstFault, Low};
ghost use Rattle.fdb_history.specs.Explained.{explained, placed_in};
ghost use Rattle.fdb_history.specs.private.Auditing.{AreChangesOf, AreRegisters, IsWithin};
ghost use Rattle.fdb_history.specs.private.Explaining.{AreEventsByPosition, changes_of};
ghost use Rattle.fdb_history.specs.Faults.{IsFaultless, Nowhere, OutOfOrder};
ghost use Rattle.fdb_history.specs.Linear.{IsLinear};
ghost use Rattle.fdb_history.specs.Strays.{IsStray};
ghost use Rattle.fdb_history.specs.Log.{event_of_answer, placed_from};
ghost use Rattle.fdb_history.specs.declared.chain.Issued.{Issued};
ghost use Rattle.fdb_history.specs.declared.register.Event.{Event};
ghost use Rattle.fdb_history.specs.declared.register.Record.{Record};

mod call_fault;
mod registers;
mod stray;

use crate::chain::Issued;
use crate::log::{Call, CallAnswer, ClientLog};
use crate::register::{Event, History, Placed, Record};
use crate::sequence::Sequence;
use call_fault::CallName;
use registers::Registers;
use std::alloc::{AllocError, Global};
use std::error::Error;
use std::fmt;

/// Why the logs of a run, with the chain of its commit versions, have no explanation. Clients are
/// places in the list of logs and calls are places in a log, both counted from 0. A position is
/// that of a change of the register, counted from 1.
#[derive(Clone, Copy, Debug, PartialEq, Eq)]
pub enum AuditFault {
    /// A call was answered from before what its client had seen; or it changed the register, but
    /// its position is not above the one from which it was asked.
    Order {
        client: u32,
        call: u64,
    },
    /// Two or more changes of the register have this one position.
    Clash {
        position: u64,
    },
    /// No change has this position, and some call has one at least as great.
    Gap {
        /// The least position, from 1 on, that no change has.
        position: u64,
    },
    /// A read, or a report's answer, that the register would not have given at its position.
    Wrong {
        client: u32,
        call: u64,
    },
    /// A reply that nothing justifies: it is at odds with its call, the chain or the
    /// client's own log. Where the chain has an entry of the client that none of its
    /// calls drew, the call is the end of its log, and call 0 where it has no log.
    Stray {
        client: u32,
        /// The place of the call in the client's log, or the length of that log where a call is
        /// missing.
        call: u64,
    },
    /// A commit version that was drawn, but for the first of
    /// the chain, and is not above what its asker had seen.
    NotAbove {
        client: u32,
        call: u64,
    },
    /// Memory was refused, which says nothing of the logs.
    Memory,
}

/// The fault's name, and where it stands.
impl fmt::Display for AuditFault {
    fn fmt<W: fmt::Write>(&self, f: &mut fmt::Formatter<W>) -> fmt::Result {
        let (name, client, call) = match *self {
            AuditFault::Order { client, call } => ("Order", client, call),
            AuditFault::Wrong { client, call } => ("Wrong", client, call),
            AuditFault::Stray { client, call } => ("Stray", client, call),
            AuditFault::NotAbove { client, call } => ("NotAbove", client, call),
            AuditFault::Clash { position } => return write!(f, "Clash {position}"),
            AuditFault::Gap { position } => return write!(f, "Gap {position}"),
            AuditFault::Memory => return f.write_str("out of memory"),
        };
        write!(f, "{name} {client} {call}")
    }
}

impl Error for AuditFault {}

/// The history of the logs of a run, in the fixed order, or the first fault
/// that stands in them or in the chain of commit versions that was issued to
/// them. There are at most 2^32 logs, and the one at a place is that of the
/// client of this number. `start` is the record that the register began with.
///
/// The faults are looked for in the order of [`AuditFault`], each kind in all logs
/// before the next: the least client and in it the least call, or the least position,
/// is named. Memory may be refused at any time. It takes time in proportion to the
/// calls and to the chain, up to a sort of the register's events by position.
pub fn audit(
    alloc: Global,
    start: Record,
    chain: &[Issued],
    logs: &[ClientLog],
) -> Result<History, AuditFault>
    requires { length logs.now ≤ 2 ^ 32 }
    ensures audited { IsAudited start chain.now logs.now result }
    ensures linear { IfOk result (λ history. IsLinear start logs.now history.events) }
    ensures complete { (history : List Event) → IsLinear start logs.now history
        → Nowhere (IsStray chain.now logs.now) → Nowhere (Low start logs.now)
        → IfErr result (λ fault. fault ≡ AuditFault.Memory) }
{
    history_or_fault(alloc, start, chain, logs)
}

/// The history of logs, in the fixed order, where no fault of the register's history stands in
/// them, as is so once their clients' tokens were brought together. It looks for no fault. There
/// are at most 2^32 logs.
///
/// Memory may be refused at any time. It takes time in proportion to the calls, up to a sort of the
/// register's events by position.
pub fn history_of(alloc: Global, logs: &[ClientLog]) -> Result<History, AllocError>
    requires { length logs.now ≤ 2 ^ 32 }
    ensures in_order { IfOk result (λ history. (start : Record) → IsFaultless start logs.now
        → history.events ≡ explained logs.now) }
    ensures linear { IfOk result (λ history. (start : Record) → IsFaultless start logs.now
        → IsLinear start logs.now history.events) }
{
    let events = events_by_position(alloc, logs)?;
    explain(alloc, events)
}

/// The history, or the first fault of an answer: the half of an audit that looks at answers. The
/// register's history has no fault.
fn answers_or_fault(
    alloc: Global,
    chain: &[Issued],
    logs: &[ClientLog],
    events: Vec<Placed>,
    registers: &Registers,
) -> Result<History, AuditFault>
    requires few { length logs.now ≤ 2 ^ 32 }
    requires faultless { IsFaultless registers.now.start logs.now }
    requires right { AreRegisters registers.now.start logs.now registers.now }
    requires history { map (λ p. p.event) events.items ≡ explained logs.now }
    ensures { IsAudited registers.now.start chain.now logs.now result }
{
    if let Some(CallName { client, call }) = stray::first_stray(alloc, chain, logs)? {
        return Err(AuditFault::Stray { client, call });
    }
    if let Some(CallName { client, call }) = call_fault::first_low(registers, logs) {
        return Err(AuditFault::NotAbove { client, call });
    }
    Ok(explain(alloc, events)?)
}

/// What [`audit`] does, with the one clause of which its others are consequences.
fn history_or_fault(
    alloc: Global,
    start: Record,
    chain: &[Issued],
    logs: &[ClientLog],
) -> Result<History, AuditFault>
    requires { length logs.now ≤ 2 ^ 32 }
    ensures { IsAudited start chain.now logs.now result }
{
    if let Some(CallName { client, call }) = call_fault::first_out_of_order(logs) {
        return Err(AuditFault::Order { client, call });
    }
    let events = events_by_position(alloc, logs)?;
    let registers = faultless_registers(alloc, start, &events, logs)?;
    answers_or_fault(alloc, chain, logs, events, &registers)
}

/// The register at each position that a call has reached, or the first fault of the
/// history. No call is out of order, and `events` are those of the logs, by position.
fn faultless_registers(
    alloc: Global,
    start: Record,
    events: &[Placed],
    logs: &[ClientLog],
) -> Result<Registers, AuditFault>
    requires clients { length logs.now ≤ 2 ^ 32 }
    requires order { Nowhere (OutOfOrder logs.now) }
    requires sorted { AreEventsByPosition events.now }
    requires changes { AreChangesOf logs.now (changes_of events.now) }
    ensures faultless { OnOk result (IsFaultless start logs.now) }
    ensures begins { IfOk result (λ registers. registers.start ≡ start) }
    ensures right { IfOk result (λ registers. AreRegisters start logs.now registers) }
    ensures err { IfErr result
        (λ fault. (chain : List Issued) → IsFirstFault start chain logs.now fault) }
{
    let changes = registers::changes_of(alloc, events)?;
    let registers = registers::registers_of(alloc, start, &changes, logs)?;
    if let Some(CallName { client, call }) = call_fault::first_wrong(&registers, logs) {
        return Err(AuditFault::Wrong { client, call });
    }
    Ok(registers)
}

impl From<AllocError> for AuditFault {
    ghost use Rattle.std.specs.Prelude.{◌≡◌};
    ghost use Rattle.fdb_history.specs.declared.auditing.AuditFault.TheVariants.{Memory};

    ghost from_gives = { λ _ fault. fault ≡ Memory };

    fn from(_refused: AllocError) -> Self {
        AuditFault::Memory
    }
}

/// The register's events in the logs: position by position, at
/// each the change and then the others, by client and then by call.
///
/// Linear in the calls up to one sort of the events. An error only where memory is refused.
pub(crate) fn events_by_position(
    alloc: Global,
    logs: &[ClientLog],
) -> Result<Vec<Placed>, AllocError>
    requires { length logs.now ≤ 2 ^ 32 }
    ensures sorted { IfOk result (λ events. AreEventsByPosition events.items) }
    ensures changes { IfOk result (λ events. AreChangesOf logs.now (changes_of events.items)) }
    ensures history { IfOk result
        (λ events. IsWithin logs.now → map (λ p. p.event) events.items ≡ explained logs.now) }
{
    let mut all = placed_in(alloc, logs)?;
    // At each position the change comes first, and the sort
    // is stable: the others stay by client and by call.
    all.sort_by_key(|p| (p.position, !p.event.is_change()))?;
    Ok(all)
}

/// The register's events in the logs with their positions, by client and then by call.
fn placed_in(alloc: Global, logs: &[ClientLog]) -> Result<Vec<Placed>, AllocError>
    requires { length logs.now ≤ 2 ^ 32 }
    ensures { IfOk result (λ all. all.items ≡ placed_in 0 logs.now) }
{
    let mut all = Vec::new(alloc);
    for (client, log) in logs.iter().enumerate() {
        add_events(&mut all, client as u32, log.calls.as_slice())?;
    }
    Ok(all)
}

/// Adds the register's events in one client's calls, in their order.
fn add_events(all: &mut Vec<Placed>, client: u32, calls: &[Call]) -> Result<(), AllocError>
    ensures { OnOk result (all.new.items ≡ all.old.items ++ placed_from client 0 calls.now) }
{
    for (place, call) in calls.iter().enumerate() {
        if let Some(event) = event_of_answer(client, place as u64, &call.answer) {
            all.push(Placed {
                event,
                position: call.position,
            })?;
        }
    }
    Ok(())
}

/// The event that a call was, if the register answered it.
fn event_of_answer(client: u32, call: u64, answer: &CallAnswer) -> Option<Event>
    ensures { result ≡ event_of_answer client call answer.now }
{
    match answer {
        CallAnswer::Version { rec, .. } => Some(Event::Read {
            client,
            call,
            rec: *rec,
        }),
        CallAnswer::Acked {
            rec,
            raised,
            changed,
        } => Some(Event::Report {
            client,
            call,
            rec: *rec,
            raised: *raised,
            changed: *changed,
        }),
        CallAnswer::Answered(_) | CallAnswer::Told | CallAnswer::Refused(_) => None,
    }
}

/// The history of the events, in their order. An error only where memory is refused.
pub(crate) fn explain(alloc: Global, placed: Vec<Placed>) -> Result<History, AllocError>
    ensures { IfOk result (λ history. history.events ≡ map (λ p. p.event) placed.items) }
{
    let events: Vec<Event> = placed.into_iter().map(|p| p.event).collect(alloc)?;
    Ok(History {
        events: Sequence::from(events),
    })
}
