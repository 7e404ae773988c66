//! The register at each position, by the changes among the events of the logs.

ghost use Rattle.std.specs.Prelude.{◌≡◌, IfOk, OnOk, IfErr};
ghost use Rattle.fdb_history.specs.private.Auditing.{AreByPosition, AreChangesOf, AreRegisters};
ghost use Rattle.fdb_history.specs.private.Auditing.{IsChangeFault, by_table, farthest};
ghost use Rattle.fdb_history.specs.private.Auditing.{farthest_in, table_of, clash_in, missing_in};
ghost use Rattle.fdb_history.specs.Faults.{OutOfOrder, IsClash, IsGap, AtNoPosition, Nowhere};
ghost use Rattle.fdb_history.specs.private.Explaining.{changes_of};

use crate::auditing::AuditFault;
use crate::log::{Call, ClientLog};
use crate::register::{Event, Placed, Record};
use std::alloc::{AllocError, Global};

/// The register at each position that a call has reached.
#[derive(Drop)]
pub(crate) struct Registers {
    /// The register before any change, which the table has at 0 too.
    pub(crate) start: Record,
    /// The register at each position, from 0 on.
    pub(crate) table: Vec<Record>,
}

impl Registers {
    /// The register at a position that a call has reached. Beyond the table it is the start record.
    pub(crate) fn at(&self, position: u64) -> Record
        ensures { result ≡ by_table self.now position }
    {
        match self.table.get(position as usize) {
            Some(record) => *record,
            None => self.start,
        }
    }
}

/// The register at each position that a call has reached, or the first fault of the changes: two
/// at one position, or none where one is owed. `changes` are those of the logs, by position.
pub(crate) fn registers_of(
    alloc: Global,
    start: Record,
    changes: &[PlacedChange],
    logs: &[ClientLog],
) -> Result<Registers, AuditFault>
    requires order { Nowhere (OutOfOrder logs.now) }
    requires sorted { AreByPosition changes.now }
    requires same { AreChangesOf logs.now changes.now }
    ensures no_clash { OnOk result (AtNoPosition (IsClash logs.now)) }
    ensures no_gap { OnOk result (AtNoPosition (IsGap logs.now)) }
    ensures begins { IfOk result (λ registers. registers.start ≡ start) }
    ensures ok { IfOk result (λ registers. AreRegisters start logs.now registers) }
    ensures err { IfErr result (IsChangeFault logs.now) }
{
    if let Some(position) = first_clash(changes) {
        return Err(AuditFault::Clash { position });
    }
    let position = first_missing(changes);
    if position <= greatest_position(logs) {
        return Err(AuditFault::Gap { position });
    }
    let table = table_of(alloc, start, changes)?;
    Ok(Registers { start, table })
}

/// The register before any change, and then after each change in turn.
fn table_of(
    alloc: Global,
    start: Record,
    changes: &[PlacedChange],
) -> Result<Vec<Record>, AllocError>
    ensures { IfOk result (λ table. table.items ≡ table_of start changes.now) }
{
    let mut table = Vec::with_capacity(alloc, changes.len() + 1)?;
    let mut current = start;
    for change in changes {
        table.push(current)?;
        current = current.after_report(change.rec);
    }
    table.push(current)?;
    Ok(table)
}

/// The greatest position of a call, or 0 where there is no call.
fn greatest_position(logs: &[ClientLog]) -> u64
    ensures { result ≡ farthest 0 logs.now }
{
    let mut greatest = 0;
    for log in logs {
        greatest = greatest_in(greatest, log.calls.as_slice());
    }
    greatest
}

/// The greatest of a position and those of a log's calls.
fn greatest_in(far: u64, calls: &[Call]) -> u64
    ensures { result ≡ farthest_in far calls.now }
{
    let mut greatest = far;
    for call in calls {
        greatest = greatest.max(call.position);
    }
    greatest
}

/// A report that changed the register, as it was reported, and its position: it is the change of
/// this number, counted from 1.
#[derive(Clone, Copy)]
pub struct PlacedChange {
    pub position: u64,
    pub rec: Record,
}

/// The changes among some events, in their order.
pub(crate) fn changes_of(alloc: Global, events: &[Placed]) -> Result<Vec<PlacedChange>, AllocError>
    ensures { IfOk result (λ changes. changes.items ≡ changes_of events.now) }
{
    let mut changes = Vec::new(alloc);
    for placed in events {
        if let Event::Report {
            rec,
            changed: true,
            ..
        } = &placed.event
        {
            changes.push(PlacedChange {
                position: placed.position,
                rec: *rec,
            })?;
        }
    }
    Ok(changes)
}

/// The first position that two changes share, where they stand by position and none at 0.
pub(crate) fn first_clash(changes: &[PlacedChange]) -> Option<u64>
    ensures { result ≡ clash_in 0 changes.now }
{
    let mut before = 0;
    for change in changes {
        if change.position == before {
            return Some(before);
        }
        before = change.position;
    }
    None
}

/// The least position, from 1 on, that no change has, where they rise from 1 on. The
/// changes before it have each position in turn.
pub(crate) fn first_missing(changes: &[PlacedChange]) -> u64
    ensures { result ≡ missing_in 1 changes.now }
{
    for (place, change) in changes.iter().enumerate() {
        let position = place as u64 + 1;
        if change.position != position {
            return position;
        }
    }
    changes.len() as u64 + 1
}
