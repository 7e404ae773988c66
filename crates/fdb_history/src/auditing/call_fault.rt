//! The first call of all logs that has a fault: one that was answered from before what its client
//! had seen, an answer that the register would not have given, and a commit version that is not
//! above what its asker had seen.

ghost use Rattle.std.specs.Prelude.{◌≡◌, ◌<◌, ◌≤◌, ◌^◌, ◌↔◌, List, length, IsTrue};
ghost use Rattle.fdb_history.specs.private.Auditing.{IsFirstCall, IsFirstOf, AreRegisters};
ghost use Rattle.fdb_history.specs.Faults.{StandsAt, OutOfOrder, Nowhere, WronglyAnswered};
ghost use Rattle.fdb_history.specs.Linear.{GoesForward};
ghost use Rattle.fdb_history.specs.Log.{answer_changes, position_after_calls};
ghost use Rattle.fdb_history.specs.Audit.{Low};
ghost use Rattle.fdb_history.specs.declared.log.Call.{Call};

use crate::auditing::registers::Registers;
use crate::log::{Call, CallAnswer, ClientLog};

/// A call, by its client and its place in the client's log.
#[derive(Clone, Copy)]
pub(crate) struct CallName {
    pub(crate) client: u32,
    pub(crate) call: u64,
}

/// A fault that a call may have, given the calls before it in its log.
pub(crate) trait CallFault {
    ghost Stands: { Self → List Call → Call → Type 0 };

    /// Whether the call has the fault; `before` are all calls before it in its log.
    fn stands_at(&self, before: &[Call], call: &Call) -> bool
        ensures { IsTrue result ↔ Stands self.now before.now call.now };
}

/// The first call of all logs that has the fault.
pub(crate) fn first_call<F: CallFault>(fault: &F, logs: &[ClientLog]) -> Option<CallName>
    requires { length logs.now ≤ 2 ^ 32 }
    ensures { IsFirstCall (StandsAt (F.Stands fault.now) logs.now) result }
{
    for (client, log) in logs.iter().enumerate() {
        if let Some(call) = first_of(fault, log.calls.as_slice()) {
            return Some(CallName {
                client: client as u32,
                call,
            });
        }
    }
    None
}

/// The place of the first of a log's calls that has the fault.
fn first_of<F: CallFault>(fault: &F, calls: &[Call]) -> Option<u64>
    ensures { IsFirstOf (F.Stands fault.now) calls.now result }
{
    for (place, call) in calls.iter().enumerate() {
        if fault.stands_at(&calls[..place], call) {
            return Some(place as u64);
        }
    }
    None
}

/// The first call, by client and then by place, that goes back behind what its client had seen.
pub(crate) fn first_out_of_order(logs: &[ClientLog]) -> Option<CallName>
    requires { length logs.now ≤ 2 ^ 32 }
    ensures { IsFirstCall (OutOfOrder logs.now) result }
{
    first_call(&Order {}, logs)
}

#[derive(Drop)]
struct Order {}

impl CallFault for Order {
    ghost Stands = { λ fault before call. GoesForward (position_after_calls 0 before) call → ⊥ };

    fn stands_at(&self, before: &[Call], call: &Call) -> bool {
        !goes_forward(position_after_calls(before), call)
    }
}

/// Whether a call does not go back behind a position.
fn goes_forward(before: u64, call: &Call) -> bool
    ensures { IsTrue result ↔ GoesForward before call.now }
{
    before <= call.asked
        && call.asked <= call.position
        && (call.asked < call.position || !answer_changes(&call.answer))
}

/// The position that a client has come to after some calls.
fn position_after_calls(calls: &[Call]) -> u64
    ensures { result ≡ position_after_calls 0 calls.now }
{
    match calls {
        [] => 0,
        [.., last] => last.position,
    }
}

/// Whether an answer says that its call changed the register.
fn answer_changes(answer: &CallAnswer) -> bool
    ensures { result ≡ answer_changes answer.now }
{
    matches!(answer, CallAnswer::Acked { changed: true, .. })
}

/// The first call that the register would not have answered so at its position.
pub(crate) fn first_wrong(registers: &Registers, logs: &[ClientLog]) -> Option<CallName>
    requires clients { length logs.now ≤ 2 ^ 32 }
    requires registers { AreRegisters registers.now.start logs.now registers.now }
    ensures { IsFirstCall (WronglyAnswered registers.now.start logs.now) result }
{
    first_call(&Wrong { registers }, logs)
}

/// The first commit version that was drawn and is not above what its asker had seen.
pub(crate) fn first_low(registers: &Registers, logs: &[ClientLog]) -> Option<CallName>
    requires clients { length logs.now ≤ 2 ^ 32 }
    requires order { Nowhere (OutOfOrder logs.now) }
    requires registers { AreRegisters registers.now.start logs.now registers.now }
    ensures { IsFirstCall (Low registers.now.start logs.now) result }
{
    first_call(&NotAbove { registers }, logs)
}

/// The fault of an answer that the register would not have given.
#[derive(Drop)]
struct Wrong<'a> {
    registers: &'a Registers,
}

impl<'a> CallFault for Wrong<'a> {
    ghost use Rattle.fdb_history.specs.private.Auditing.{by_table};
    ghost use Rattle.fdb_history.specs.Faults.{IsWrongBy};

    ghost Stands = { λ fault before call. IsWrongBy
        (by_table fault.registers.now) call.position call.answer };

    fn stands_at(&self, _before: &[Call], call: &Call) -> bool {
        match &call.answer {
            CallAnswer::Version { rec, .. } => *rec != self.registers.at(call.position),
            CallAnswer::Acked {
                rec,
                raised,
                changed: true,
            } => {
                let current = self.registers.at(call.position.saturating_sub(1));
                *raised != current.raises(*rec) || !current.changes(*rec)
            }
            CallAnswer::Acked {
                rec,
                raised,
                changed: false,
            } => {
                let current = self.registers.at(call.position);
                *raised != current.raises(*rec) || current.changes(*rec)
            }
            _ => false,
        }
    }
}

/// The fault of a commit version that is not above what its asker had seen. The
/// first of a chain is exempt, since a register may begin with that very version.
#[derive(Drop)]
struct NotAbove<'a> {
    registers: &'a Registers,
}

impl<'a> CallFault for NotAbove<'a> {
    ghost use Rattle.fdb_history.specs.Audit.{IsNotAbove};
    ghost use Rattle.fdb_history.specs.private.Auditing.{by_table};

    ghost Stands = { λ fault before call. IsNotAbove
        (by_table fault.registers.now) call.asked call.answer };

    fn stands_at(&self, _before: &[Call], call: &Call) -> bool {
        match &call.answer {
            CallAnswer::Answered(issued) => {
                issued.fresh
                    && issued.ordinal != 0
                    && issued.version <= self.registers.at(call.asked).version
            }
            _ => false,
        }
    }
}
