//! What is told of a log that is followed, as it is printed, and what is left to be said at its
//! end.

ghost use Rattle.std.specs.Prelude.{◌≡◌, ◌&&◌, ◌++◌, ◌∷◌, ℕ, [], All, Bool, IfOk, List, None, OnOk};
ghost use Rattle.std.specs.Prelude.{Option, Result, is_some, map, not, option_map, option_to_list};
ghost use Rattle.std.specs.Prelude.{slice_get, string_bytes, ◌<◌};
ghost use Rattle.std.specs.Option.{option_or};
ghost use Rattle.fdb_lines.specs.KeyWatch.{AreTold, IsToldOf, SettledTo, settled_in, settled_of};
ghost use Rattle.fdb_lines.specs.Reasons.{found_of};
ghost use Rattle.fdb_lines.specs.declared.key_part.KeyPart.{KeyPart};
ghost use Rattle.fdb_log_reader.specs.LineReader.{line_names};
ghost use Rattle.fdb_log_reader.specs.ReadLine.{SaidLine};
ghost use Rattle.fdb_log_reader.specs.Printed.{printed};
ghost use Rattle.fdb_log_reader.specs.declared.error.Why.{Why};
ghost use Rattle.fdb_audit.specs.Following.{keys_taken, lines_taken, told_text, total_head, IsEnd};
ghost use Rattle.fdb_audit.specs.Following.{KeptBefore};
ghost use Rattle.fdb_audit.specs.Text.{fault_of};
ghost use Rattle.fdb_audit.specs.ToldFaults.{told_at, ToldFault};
ghost use Rattle.fdb_audit.specs.private.{members_of, shown_in};
ghost use Rattle.fdb_audit.specs.private.Followed.{counted_in, told_with, AreNumbered, CountsOn};
ghost use Rattle.fdb_audit.specs.private.Followed.{HasCounted, HasTotals, HasTotalsIn};
ghost use Rattle.fdb_audit.specs.private.Followed.{IsSameTeller, IsWatchedBy, TellsOn};

use crate::arguments::AuditArguments;
use crate::figures::{Figure, push_line, push_total_object};
use crate::judgement::Wanted;
use crate::members::Column;
use crate::printer::{ClientNames, LogFault, Printer};
use crate::progress::Carried;
use crate::refusal::KeptRefused;
use crate::taken_lines::Taking;
use crate::told_faults::ToldFaults;
use fdb_lines::{Finding, SettledKey};
use fdb_log_reader::{LineReader, ReadError, printed_name};
use std::alloc::{AllocError, Global};
use std::mem::replace;

/// What is to be said of a log that is followed.
#[derive(Debug, Drop)]
pub struct Said {
    /// For the output: sentences or objects, a line for each.
    pub text: String,
    /// For standard error: a line for each line that was refused; and one for the first, second,
    /// fourth and so on that came early, which means that it began before what had been settled, or
    /// that shows that a clock is ahead.
    pub warnings: String,
}

/// What is left to be said at the end of a log that was followed.
#[derive(Debug, Drop)]
pub struct Followed {
    pub said: Said,
    /// The first fault that was told, if one was.
    pub found: Option<LogFault>,
    /// The last line that was refused, if one was. Where the log had no line, it is [`Why::Empty`].
    pub refused: Option<ReadError>,
    /// The last line, counted from 1, that had begun before what was settled when it came, if there
    /// is one: then not all of the log was judged.
    pub last_early: Option<u64>,
}

/// A log that is no longer followed, to be followed on later.
#[derive(Debug, Drop)]
pub struct Stopped {
    pub followed: Followed,
    /// The text that [`Follower::restore`] goes on from. The error is that this text, read back,
    /// does not say what is kept.
    pub kept: Result<String, KeptRefused>,
    /// How many lines were read in all.
    pub read: u64,
    /// Up to when all was told, in the unit of the log's times: who goes on from `kept` has it, where
    /// [`Follower::progress`] says the same moment.
    pub settled_to: u64,
}

/// What is told of a log that is followed, and what it takes to print it.
#[derive(Drop)]
pub(crate) struct Teller {
    pub(crate) wanted: Wanted,
    pub(crate) margin: u64,
    /// The member that has the keys, as its name is printed, if they are kept.
    pub(crate) key: Option<String>,
    /// The faults that were told, where totals are wanted.
    pub(crate) told: Option<ToldFaults>,
    /// The first fault that was found, if one was.
    pub(crate) first: Option<LogFault>,
    /// What is to be written to the output next.
    pub(crate) text: String,
}

impl Teller {
    /// Nothing has been told.
    pub(crate) fn new(
        alloc: Global,
        asked: &AuditArguments,
        members: &[String],
    ) -> Result<Self, AllocError>
        ensures text { IfOk result (λ teller. string_bytes teller.text ≡ []) }
        ensures first { IfOk result (λ teller. teller.first ≡ None) }
        ensures wanted { IfOk result (λ teller. teller.wanted ≡ asked.now.wanted) }
        ensures margin { IfOk result (λ teller. teller.margin ≡ asked.now.opts.margin) }
        ensures key { IfOk result (λ teller. is_some teller.key ≡ is_some asked.now.key) }
        ensures totals { IfOk result (λ teller. HasTotals
            (option_to_list (option_map (λ name. printed (string_bytes name)) asked.now.key)
            ++ map string_bytes members.now) teller []) }
    {
        let key = key_name(alloc, asked)?;
        let told = if asked.wanted.totals {
            Some(ToldFaults::new(alloc, key.as_deref(), members)?)
        } else {
            None
        };
        Ok(Teller {
            wanted: asked.wanted,
            margin: asked.opts.margin,
            key,
            told,
            first: None,
            text: String::new(alloc),
        })
    }

    /// Tells what was found of each key.
    pub(crate) fn tell_all(
        &mut self,
        alloc: Global,
        reader: &LineReader,
        taking: &Taking,
        told: &[SettledKey],
    ) -> Result<(), AllocError>
        ensures { OnOk result ((kept : KeptBefore) → (read : List (Result SaidLine Why))
            → (to : Option ℕ) → (parts : List KeyPart) → (margin behind : ℕ)
            → AreNumbered kept taking.now read → All (IsWatchedBy margin behind to) parts
            → AreTold to (lines_taken read) (keys_taken read) parts told.now
            → TellsOn kept self.old self.new margin behind read (line_names reader.now).clients
            (settled_in parts) to told.now) }
    {
        for entry in told {
            if !entry.settled.found.is_empty() {
                self.tell(alloc, reader, taking, entry)?;
            }
        }
        Ok(())
    }

    /// Tells what was found of a key.
    fn tell(
        &mut self,
        alloc: Global,
        reader: &LineReader,
        taking: &Taking,
        entry: &SettledKey,
    ) -> Result<(), AllocError>
        ensures { OnOk result ((kept : KeptBefore) → (read : List (Result SaidLine Why))
            → (to : Option ℕ) → (part : KeyPart) → (far : Option ℕ → SettledTo)
            → (margin behind : ℕ) → AreNumbered kept taking.now read
            → IsWatchedBy margin behind to part → far part.key ≡ settled_of part
            → IsToldOf to (lines_taken read) (keys_taken read) entry.now part
            → TellsOn kept self.old self.new margin behind read (line_names reader.now).clients
            far to (entry.now ∷ [])) }
    {
        let settled = &entry.settled;
        let own = taking.numbering.lines_at(alloc, &settled.numbers)?;
        let mut beside = Vec::new(alloc);
        self.add_key(alloc, reader, entry, &mut beside)?;
        taking.rows.add_beside(alloc, settled, &mut beside)?;
        let printer = Printer {
            log: &settled.log,
            names: ClientNames::OfLog(reader.names()),
            own: &own,
            beside: &beside,
        };
        self.add(alloc, printer, &settled.found)?;
        Ok(())
    }

    /// Adds a key as it is printed beside its lines, if keys are kept.
    fn add_key(
        &self,
        alloc: Global,
        reader: &LineReader,
        entry: &SettledKey,
        beside: &mut Vec<Column>,
    ) -> Result<(), AllocError> {
        let Some(member) = &self.key else {
            return Ok(());
        };
        let name = match reader.key_names().zip(entry.key) {
            Some((names, key)) => names.name(key),
            None => None,
        };
        let text = match name {
            Some(name) => Some(printed_name(alloc, name)?),
            None => None,
        };
        let mut column = Column::new(alloc, member)?;
        for _ in &entry.settled.numbers {
            column.add(alloc, text.as_deref())?;
        }
        beside.push(column)?;
        Ok(())
    }

    /// Adds faults of the lines.
    fn add(
        &mut self,
        alloc: Global,
        printer: Printer<'_>,
        found: &[Finding],
    ) -> Result<(), AllocError>
        ensures text { OnOk result (string_bytes self.new.text ≡ string_bytes self.old.text
            ++ told_text self.old.wanted (shown_in printer.entry) found.now) }
        ensures first { OnOk result (self.new.first ≡ option_or self.old.first (option_map
            (λ finding. fault_of (shown_in printer.entry).own (found_of finding))
            (slice_get found.now 0))) }
        ensures counts { let it = shown_in printer.entry in OnOk result (CountsOn self.old self.new
            (map (λ finding. told_at it.lines it.names it.beside finding.found) found.now)) }
        ensures same { IsSameTeller self.old self.new }
    {
        if self.wanted.all || !self.wanted.totals {
            printer.push_list(&mut self.text, self.wanted.json, found)?;
        }
        if self.first.is_none()
            && let Some(finding) = found.first()
        {
            self.first = Some(printer.fault(finding.found));
        }
        count(alloc, &mut self.told, printer, found)
    }

    /// Says that no fault was found, and whether all was judged; or how many were, where totals are
    /// wanted: of all that is counted.
    pub(crate) fn end(
        &mut self,
        alloc: Global,
        all: &Carried,
        behind: u64,
    ) -> Result<(), AllocError>
        ensures text { OnOk result ((members : List (List ℕ)) → (told : List ToldFault)
            → HasTotals members self.old told → (end : List ℕ)
            × IsEnd (not (is_some self.old.first) && not self.old.wanted.json)
            self.old.wanted.totals self.old.wanted.json
            (counted_in all.now.counts all.now.refused) (told_with behind self.old members) told end
            × (string_bytes self.new.text ≡ string_bytes self.old.text ++ end)) }
        ensures first { self.new.first ≡ self.old.first }
    {
        if self.first.is_none() && !self.wanted.json {
            let figures = all.counts.figures(alloc, all.refused)?;
            return push_line(&mut self.text, all.counts.verdict(), &figures);
        }
        let Some(told) = replace(&mut self.told, None) else {
            return Ok(());
        };
        self.push_head(alloc, all, behind, &told.columns)?;
        told.push(alloc, &mut self.text, self.wanted.json)?;
        Ok(())
    }

    /// Writes how much was read, in front of how many faults were told.
    fn push_head(
        &mut self,
        alloc: Global,
        all: &Carried,
        behind: u64,
        columns: &[Column],
    ) -> Result<(), AllocError>
        ensures text { OnOk result (string_bytes self.new.text ≡ string_bytes self.old.text
            ++ total_head self.old.wanted.json (counted_in all.now.counts all.now.refused)
            (told_with behind self.old (members_of columns.now))) }
        ensures first { self.new.first ≡ self.old.first }
        ensures wanted { self.new.wanted ≡ self.old.wanted }
    {
        let figures = all.counts.figures(alloc, all.refused)?;
        if self.wanted.json {
            let arguments = [
                Figure("follow", Some(behind)),
                Figure("margin", Some(self.margin)),
            ];
            let by_key = self.key.is_some();
            push_total_object(&mut self.text, &figures, &arguments, by_key, columns)
        } else {
            push_line(&mut self.text, "audit total", &figures)
        }
    }
}

/// The member that has the keys, as its name is printed, if they are kept.
fn key_name(alloc: Global, asked: &AuditArguments) -> Result<Option<String>, AllocError>
    ensures { IfOk result (λ key. option_map string_bytes key
        ≡ option_map (λ name. printed (string_bytes name)) asked.now.key) }
{
    match &asked.key {
        Some(key) => Ok(Some(printed_name(alloc, key)?)),
        None => Ok(None),
    }
}

/// Counts faults that are told, where totals are wanted.
fn count(
    alloc: Global,
    told: &mut Option<ToldFaults>,
    printer: Printer<'_>,
    found: &[Finding],
) -> Result<(), AllocError>
    ensures { let it = shown_in printer.entry in OnOk result ((totals : Bool)
        → (members : List (List ℕ)) → (before : List ToldFault)
        → HasTotalsIn totals members told.old before → HasTotalsIn totals members told.new
        (before ++ map (λ finding. told_at it.lines it.names it.beside finding.found) found.now)) }
{
    match told {
        Some(told) => count_in(alloc, told, printer, found),
        None => Ok(()),
    }
}

fn count_in(
    alloc: Global,
    told: &mut ToldFaults,
    printer: Printer<'_>,
    found: &[Finding],
) -> Result<(), AllocError>
    ensures { let it = shown_in printer.entry in OnOk result ((members : List (List ℕ))
        → (before : List ToldFault) → HasCounted members told.old before
        → HasCounted members told.new
        (before ++ map (λ finding. told_at it.lines it.names it.beside finding.found) found.now)) }
{
    for finding in found {
        told.add(alloc, printer, finding.found)?;
    }
    Ok(())
}

/// What is said at the end of a log, behind what is said in front of it.
pub(crate) fn behind(front: Said, followed: Followed) -> Result<Followed, AllocError>
    ensures text { IfOk result (λ it. string_bytes it.said.text
        ≡ string_bytes front.text ++ string_bytes followed.said.text) }
    ensures same { IfOk result (λ it. (it.found ≡ followed.found) × (it.refused ≡ followed.refused)
        × (it.last_early ≡ followed.last_early)) }
{
    let Followed {
        said,
        found,
        refused,
        last_early,
    } = followed;
    let mut all = front;
    all.text.push_str(&said.text)?;
    all.warnings.push_str(&said.warnings)?;
    Ok(Followed {
        said: all,
        found,
        refused,
        last_early,
    })
}
