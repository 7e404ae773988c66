//! What is printed of a log without a fault: how much that stands on, and an order, a line of words
//! or an object for each step.

ghost use Rattle.std.specs.Prelude.{◌≡◌, ◌++◌, IfOk, None, OnOk, Option, false, map, string_bytes};
ghost use Rattle.std.specs.Prelude.{true};
ghost use Rattle.fdb_lines.specs.Judged.{HasOrders, IsSummary};
ghost use Rattle.fdb_audit.specs.Figures.{summary_figures, step_figures};
ghost use Rattle.fdb_audit.specs.Judged.{head_text, key_text, orders_text, passed_text, total_line};
ghost use Rattle.fdb_audit.specs.Judged.{steps_text, IsPassed, step_text};
ghost use Rattle.fdb_audit.specs.Text.{line, step_owner};
ghost use Rattle.fdb_audit.specs.private.{beside_of, figure_of, keys_in, log_in, order_text};
ghost use Rattle.fdb_audit.specs.private.{shown_in, HasKeys};
ghost use Rattle.fdb_audit.specs.Objects.{step_field};

use crate::figures::{Figure, KindCounts, push_figures, push_line, push_total_object};
use crate::judgement::{Judgement, Wanted};
use crate::members::Column;
use crate::printer::{Printer, Subject};
use crate::reason::push_or_null;
use fdb_lines::{Effect, KeyOrder, Order, OrderStep, Summary, summary};
use std::alloc::{AllocError, Global};
use std::fmt::Write;

/// What is said of a log without a fault, by its counts.
pub(crate) fn passed(
    alloc: Global,
    subject: Subject<'_>,
    counts: Summary,
    wanted: Wanted,
) -> Result<Judgement, AllocError>
    requires counts { IsSummary (log_in subject) (keys_in subject) subject.opts.now counts }
    requires unwanted { wanted.history ≡ false }
    ensures none { IfOk result (λ found. found.fault ≡ None) }
    ensures text { IfOk result (λ found. IsPassed (log_in subject.entry) (shown_in subject.entry.printer)
        (keys_in subject.entry) subject.entry.opts.now wanted (string_bytes found.text)) }
{
    let mut text = String::new(alloc);
    push_head(&mut text, subject, counts, wanted.json)?;
    Ok(Judgement { fault: None, text })
}

/// The same, with an order that explains the lines.
pub(crate) fn explained(
    alloc: Global,
    subject: Subject<'_>,
    order: &Order,
    wanted: Wanted,
) -> Result<Judgement, AllocError>
    requires keys { HasKeys subject }
    requires order { HasOrders (log_in subject) (keys_in subject) subject.opts.now order.now }
    requires wanted { wanted.history ≡ true }
    ensures none { IfOk result (λ found. found.fault ≡ None) }
    ensures text { IfOk result (λ found. IsPassed (log_in subject.entry) (shown_in subject.entry.printer)
        (keys_in subject.entry) subject.entry.opts.now wanted (string_bytes found.text)) }
{
    let counts = summary(alloc, subject.printer.log, subject.keys, subject.opts)?;
    let mut text = String::new(alloc);
    push_explained(&mut text, subject, counts, order, wanted.json)?;
    Ok(Judgement { fault: None, text })
}

/// Writes how much a verdict stands on, behind the line of a verdict or in front of its object.
fn push_explained(
    out: &mut String,
    subject: Subject<'_>,
    counts: Summary,
    order: &Order,
    json: bool,
) -> Result<(), AllocError>
    ensures { let it = shown_in subject.entry.printer in OnOk result (string_bytes out.new
        ≡ string_bytes out.old ++ passed_text json
        (head_text json it (keys_in subject.entry) subject.entry.opts.now counts)
        (order_text json it order.now)) }
{
    if json {
        subject.printer.push_order(out, true, order)?;
        push_head(out, subject, counts, true)
    } else {
        push_head(out, subject, counts, false)?;
        subject.printer.push_order(out, false, order)
    }
}

/// Writes how much a verdict stands on.
fn push_head(
    out: &mut String,
    subject: Subject<'_>,
    counts: Summary,
    json: bool,
) -> Result<(), AllocError>
    ensures { OnOk result (string_bytes out.new ≡ string_bytes out.old ++ head_text json
        (shown_in subject.entry.printer) (keys_in subject.entry) subject.entry.opts.now counts) }
{
    if json {
        push_total_line(out, subject, counts, true)?;
        KindCounts::new().push_line(out, true)
    } else {
        push_line(out, "audit ok", &summary_figures(counts))
    }
}

/// Writes how much was judged.
#[tactic(auto, using(crate::proofs::NamedMembers::named_beside))]
pub(crate) fn push_total_line(
    out: &mut String,
    subject: Subject<'_>,
    counts: Summary,
    json: bool,
) -> Result<(), AllocError>
    ensures { OnOk result (string_bytes out.new ≡ string_bytes out.old ++ line (total_line json
        (shown_in subject.entry.printer) (keys_in subject.entry) subject.entry.opts.now counts)) }
{
    let figures = summary_figures(counts);
    if json {
        let arguments = [
            Figure("complete", subject.opts.complete),
            Figure("margin", Some(subject.opts.margin)),
        ];
        let by_key = subject.keys.is_some();
        push_total_object(out, &figures, &arguments, by_key, subject.printer.beside)
    } else {
        push_line(out, "audit total", &figures)
    }
}

/// What a verdict stands on.
fn summary_figures(counts: Summary) -> [Figure; 9]
    ensures { map figure_of result ≡ summary_figures counts }
{
    [
        Figure("lines", Some(counts.lines)),
        Figure("timed", Some(counts.timed)),
        Figure("reads", Some(counts.reads)),
        Figure("commits", Some(counts.commits)),
        Figure("asks", Some(counts.asks)),
        Figure("reports", Some(counts.reports)),
        Figure("learns", Some(counts.learns)),
        Figure("unreported", Some(counts.unreported)),
        Figure("ordered", counts.ordered),
    ]
}

impl Printer<'_> {
    /// Writes the steps of an order, or of one for each key.
    fn push_order(self, out: &mut String, json: bool, order: &Order) -> Result<(), AllocError>
        ensures { OnOk result (string_bytes out.new
            ≡ string_bytes out.old ++ order_text json (shown_in self.entry) order.now) }
    {
        match order {
            Order::One(steps) => self.push_steps(out, json, "", steps),
            Order::ByKey(orders) => self.push_orders(out, json, orders),
        }
    }

    /// Writes the steps of each key, one key behind the other.
    fn push_orders(
        self,
        out: &mut String,
        json: bool,
        orders: &[KeyOrder],
    ) -> Result<(), AllocError>
        ensures { OnOk result (string_bytes out.new
            ≡ string_bytes out.old ++ orders_text json (shown_in self.entry) orders.now) }
    {
        for order in orders {
            let mut key = String::new(*out.allocator());
            push_key(&mut key, json, self.beside, order.key)?;
            self.push_steps(out, json, &key, &order.steps)?;
        }
        Ok(())
    }
}

/// Writes a key as it is told of a step: by the first member that is printed beside the calls.
fn push_key(
    out: &mut String,
    json: bool,
    beside: &[Column],
    key: Option<u32>,
) -> Result<(), AllocError>
    ensures { OnOk result (string_bytes out.new
        ≡ string_bytes out.old ++ key_text json (map beside_of beside.now) key) }
{
    let Some(member) = beside.first() else {
        return Ok(());
    };
    let member = member.member();
    if json {
        write!(out, ",\"key\":")?;
        push_or_null(out, member.value(key))
    } else {
        member.push_owner(out, key)
    }
}

impl Printer<'_> {
    /// Writes a line for each step of an order, counted from 0, with the key of its lines.
    pub(crate) fn push_steps(
        self,
        out: &mut String,
        json: bool,
        key: &str,
        steps: &[OrderStep],
    ) -> Result<(), AllocError>
        ensures { OnOk result (string_bytes out.new ≡ string_bytes out.old
            ++ steps_text json (shown_in self.entry) key.now 0 steps.now) }
    {
        for (number, step) in steps.iter().enumerate() {
            self.push_step(out, json, key, number as u64, step)?;
        }
        Ok(())
    }

    /// Writes a step of an order, with its number.
    fn push_step(
        self,
        out: &mut String,
        json: bool,
        key: &str,
        number: u64,
        step: &OrderStep,
    ) -> Result<(), AllocError>
        ensures { OnOk result (string_bytes out.new ≡ string_bytes out.old
            ++ line (step_text json (shown_in self.entry) key.now number step.now)) }
    {
        let figures = step_figures(number, step.effect);
        if json {
            write!(out, "{{")?;
            push_figures(out, true, &figures)?;
            self.push_step_field(out, step.place)?;
            writeln!(out, "{key},\"shared\":{}}}", step.shared)
        } else {
            push_figures(out, false, &figures)?;
            self.push_whose_step(out, key, step.place)?;
            if step.shared {
                writeln!(out, " shared")
            } else {
                writeln!(out)
            }
        }
    }

    /// Writes the line whose step it is; null for others.
    fn push_step_field(self, out: &mut String, place: Option<u32>) -> Result<(), AllocError>
        ensures { OnOk result (string_bytes out.new
            ≡ string_bytes out.old ++ step_field (shown_in self.entry) place) }
    {
        match place {
            Some(place) => {
                write!(out, ",\"at\":")?;
                self.push_line_object(out, place)
            }
            None => write!(out, ",\"at\":null"),
        }
    }

    /// Writes whose a step is: of which line, with its client, or of callers who logged
    /// nothing, with the key.
    fn push_whose_step(
        self,
        out: &mut String,
        key: &str,
        place: Option<u32>,
    ) -> Result<(), AllocError>
        ensures { OnOk result (string_bytes out.new
            ≡ string_bytes out.old ++ step_owner (shown_in self.entry) key.now place) }
    {
        match place {
            Some(place) => {
                write!(out, " ")?;
                self.push_line_text(out, place)?;
                self.push_client_or(out, " client ", self.line(place).client, "")?;
                self.push_members(out, place)
            }
            None => write!(out, " others{key}"),
        }
    }
}

/// The number of a step, and its effect with its version, by the names that these have in a log.
fn step_figures(number: u64, effect: Effect) -> [Figure; 2]
    ensures { map figure_of result ≡ step_figures number effect }
{
    let number = Figure("history", Some(number));
    match effect {
        Effect::Asks(version) => [number, Figure("ask", Some(version))],
        Effect::Reports(version) => [number, Figure("report", Some(version))],
        Effect::Reads(version) => [number, Figure("read", Some(version))],
    }
}
