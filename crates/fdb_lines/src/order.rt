//! Orders that explain the lines of a log: of all lines, or for each key of its lines.

ghost use Rattle.std.specs.Prelude.{◌≡◌, ◌≢◌, ◌++◌, None, IfErr, IfOk, OnErr, OnOk, length, map};
ghost use Rattle.std.specs.Prelude.{option_copied, option_map, option_to_list, Some};
ghost use Rattle.fdb_lines.specs.Audit.{AreExplained, case_of};
ghost use Rattle.fdb_lines.specs.Judged.{AreAll, AreExplainedIn, HasOrders, HaveKeys, AreOrders};
ghost use Rattle.fdb_lines.specs.Log.{lines_of};
ghost use Rattle.fdb_lines.specs.OrderSteps.{IsOrderOf};
ghost use Rattle.fdb_lines.specs.private.Slots.{entries_below, entry_of, steps_from};
ghost use Rattle.fdb_lines.specs.private.Tables.{case_in};
ghost use Rattle.fdb_lines.specs.Keys.{AreExplainedByKey};
ghost use Rattle.fdb_lines.specs.KeyOrders.{placed_step};

use crate::fault::Finding;
use crate::finding::{add_placed, findings_in, place_in, sort_by_line};
use crate::log::{AuditOpts, Log, parts_of};
use crate::slot::{OrderStep, Slot};
use crate::tables::Tables;
use crate::tables_of::tables_of;
use std::alloc::{AllocError, Global};

/// A key, and the steps of an order that explains its lines.
#[derive(Debug, Drop)]
pub struct KeyOrder {
    /// The key; none for the lines without one.
    pub key: Option<u32>,
    /// The steps of the order. Each step's line is told at its place in the whole log.
    pub steps: Vec<OrderStep>,
}

/// An order that explains all lines of a log, or one for each key.
#[derive(Debug, Drop)]
pub enum Order {
    /// The steps of one order that explains all lines, where they have no keys.
    One(Vec<OrderStep>),
    /// An order for each key. They stand in the order of the keys' first lines.
    ByKey(Vec<KeyOrder>),
}

/// An order of the effects of a log that explains its lines; or, where `keys` are given, such an
/// order for each key, in the order of the keys' first lines. Where no order explains the lines, or
/// those of some key, the inner error has all faults, as [`findings`](crate::findings) tells them.
/// The outer error says that memory was refused.
///
/// `n log n` in how many lines there are, whatever the keys.
pub fn order_or_findings(
    alloc: Global,
    log: &Log,
    keys: Option<&[Option<u32>]>,
    opts: &AuditOpts,
) -> Result<Result<Order, Vec<Finding>>, AllocError>
    requires { HaveKeys (lines_of log.now) (option_copied keys) }
    ensures orders { IfOk result (λ it. IfOk it
        (HasOrders (lines_of log.now) (option_copied keys.entry) opts.now)) }
    ensures explained { IfOk result (λ it. OnOk it
        (AreExplainedIn (lines_of log.now) (option_copied keys.entry) opts.now)) }
    ensures unexplained { IfOk result (λ it. OnErr it
        (¬ (AreExplainedIn (lines_of log.now) (option_copied keys.entry) opts.now))) }
    ensures all { IfOk result (λ it. IfErr it
        (λ found. AreAll (lines_of log.now) (option_copied keys.entry) opts.now found.items)) }
    ensures some { IfOk result (λ it. IfErr it (λ found. length found.items ≢ 0)) }
{
    match keys {
        Some(keys) => match orders_by_key(alloc, log, keys, opts)? {
            Ok(orders) => Ok(Ok(Order::ByKey(orders))),
            Err(found) => Ok(Err(found)),
        },
        None => match order_of(alloc, log, opts)? {
            Ok(steps) => Ok(Ok(Order::One(steps))),
            Err(found) => Ok(Err(found)),
        },
    }
}

/// An order of the lines of a log as of one register, or all faults.
pub(crate) fn order_of(
    alloc: Global,
    log: &Log,
    opts: &AuditOpts,
) -> Result<Result<Vec<OrderStep>, Vec<Finding>>, AllocError>
    ensures explains { IfOk result (λ it. IfOk it
        (λ steps. IsOrderOf (case_of (lines_of log.now) opts.now) steps.items)) }
    ensures unexplained { IfOk result
        (λ it. OnErr it (¬ (AreExplained (case_of (lines_of log.now) opts.now)))) }
    ensures all { IfOk result
        (λ it. IfErr it (λ found. AreAll (lines_of log.now) None opts.now found.items)) }
    ensures some { IfOk result (λ it. IfErr it (λ found. length found.items ≢ 0)) }
{
    let made = tables_of(alloc, log, opts)?;
    let tables = Tables::new(log, opts, &made);
    let found = findings_in(alloc, &tables)?;
    if !found.is_empty() {
        return Ok(Err(found));
    }
    let mut slots = slots_of(alloc, &tables)?;
    // Others come after the lines that share their effect.
    slots.sort_unstable_by_key(|slot| (slot.key, slot.place.is_none(), slot.place));
    let steps = steps_in(alloc, &slots)?;
    Ok(Ok(steps))
}

/// The slots of all lines, line by line and not yet sorted.
fn slots_of(alloc: Global, tables: &Tables<'_>) -> Result<Vec<Slot>, AllocError>
    ensures { IfOk result (λ slots. map entry_of slots.items
        ≡ entries_below (case_in tables.now) (length (case_in tables.now).lines)) }
{
    let start = tables.opts().start();
    let mut slots = Vec::new(alloc);
    for (place, line) in tables.lines().iter().enumerate() {
        let known = tables.knows(place);
        let reported = tables.is_reported(place);
        add_slot(&mut slots, Slot::ask(line, place as u32, start))?;
        add_slot(&mut slots, Slot::take(line, place as u32, known))?;
        add_slot(&mut slots, Slot::report(line, start, reported))?;
    }
    Ok(slots)
}

fn add_slot(slots: &mut Vec<Slot>, slot: Option<Slot>) -> Result<(), AllocError>
    ensures { OnOk result (map entry_of slots.new.items
        ≡ map entry_of slots.old.items ++ option_to_list (option_map entry_of slot)) }
{
    if let Some(slot) = slot {
        slots.push(slot)?;
    }
    Ok(())
}

/// The steps of slots, in their order. Others have none beside a line that did the same.
fn steps_in(alloc: Global, slots: &[Slot]) -> Result<Vec<OrderStep>, AllocError>
    ensures { IfOk result (λ steps. steps.items ≡ steps_from None slots.now) }
{
    let mut steps = Vec::new(alloc);
    let mut above = None;
    for slot in slots {
        let shared = Some(slot.key) == above;
        above = Some(slot.key);
        if shared && slot.place.is_none() {
            continue;
        }
        steps.push(OrderStep {
            effect: slot.effect,
            place: slot.place,
            shared,
        })?;
    }
    Ok(steps)
}

/// For each key of a log, in the order of its first line, an order that explains its lines; where
/// the lines of some key have none, all faults.
pub(crate) fn orders_by_key(
    alloc: Global,
    log: &Log,
    keys: &[Option<u32>],
    opts: &AuditOpts,
) -> Result<Result<Vec<KeyOrder>, Vec<Finding>>, AllocError>
    requires as_many { length keys.now ≡ length (lines_of log.now).lines }
    ensures orders { IfOk result (λ it. IfOk it
        (λ orders. AreOrders (lines_of log.now) keys.now opts.now orders.items)) }
    ensures explained { IfOk result
        (λ it. OnOk it (AreExplainedByKey (lines_of log.now) keys.now opts.now)) }
    ensures unexplained { IfOk result
        (λ it. OnErr it (¬ (AreExplainedByKey (lines_of log.now) keys.now opts.now))) }
    ensures all { IfOk result (λ it. IfErr it
        (λ found. AreAll (lines_of log.now) (Some keys.now) opts.now found.items)) }
    ensures some { IfOk result (λ it. IfErr it (λ found. length found.items ≢ 0)) }
{
    let parts = parts_of(alloc, keys)?;
    let mut orders = Vec::with_capacity(alloc, parts.len())?;
    let mut found = Vec::new(alloc);
    for part in 0..parts.len() {
        let places = &parts[part].places;
        let lines = log.part(alloc, places)?;
        match order_of(alloc, &lines, opts)? {
            Ok(steps) => {
                let steps = placed_steps(alloc, places, &steps)?;
                let key = parts[part].key;
                orders.push(KeyOrder { key, steps })?;
            }
            Err(here) => add_placed(&mut found, &here, places)?,
        }
    }
    if found.is_empty() {
        return Ok(Ok(orders));
    }
    sort_by_line(&mut found)?;
    Ok(Err(found))
}

/// Steps, with their lines told of the whole log.
fn placed_steps(
    alloc: Global,
    places: &[u32],
    steps: &[OrderStep],
) -> Result<Vec<OrderStep>, AllocError>
    ensures { IfOk result (λ placed. placed.items ≡ map (placed_step places.now) steps.now) }
{
    let mut placed = Vec::with_capacity(alloc, steps.len())?;
    for step in steps {
        placed.push(placed_step(places, *step))?;
    }
    Ok(placed)
}

fn placed_step(places: &[u32], step: OrderStep) -> OrderStep
    ensures { result ≡ placed_step places.now step }
{
    let place = match step.place {
        Some(place) => Some(place_in(places, place)),
        None => None,
    };
    OrderStep {
        effect: step.effect,
        place,
        shared: step.shared,
    }
}
