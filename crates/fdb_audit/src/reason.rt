//! Faults as they are printed, with why they stand: in words of the log, a line for each, or as
//! JSON objects, with their lines.

ghost use Rattle.std.specs.Prelude.{◌≡◌, ◌++◌, OnOk, string_bytes, map, option_map};
ghost use Rattle.fdb_lines.specs.Before.{began, ended};
ghost use Rattle.fdb_lines.specs.Lines.{line_at};
ghost use Rattle.fdb_audit.specs.Text.{deed_text, ended_text, finding_text, is_by, is_told};
ghost use Rattle.fdb_audit.specs.Text.{known_text, late_text, line, reason_text, sentence_text};
ghost use Rattle.fdb_audit.specs.Text.{since, wait_text};
ghost use Rattle.fdb_audit.specs.private.{shown_in, beside_of};
ghost use Rattle.fdb_audit.specs.Objects.{by_field, call_field, fault_object, late_field};
ghost use Rattle.fdb_audit.specs.Objects.{line_object, means_field, member_field, members_field};
ghost use Rattle.fdb_audit.specs.Objects.{reason_field, text_or_null, times_field};

use crate::figures::{Figure, push_figures};
use crate::members::Column;
use crate::printer::Printer;
use fdb_lines::{Finding, Late, Means, Operation, Reason, Times, Witness};
use std::alloc::AllocError;
use std::fmt::Write;

impl Printer<'_> {
    /// Writes a line for a fault, with why it stands.
    pub(crate) fn push_finding(self, out: &mut String, finding: Finding) -> Result<(), AllocError>
        ensures { OnOk result (string_bytes out.new ≡ string_bytes out.old
            ++ line (finding_text (shown_in self.entry) finding)) }
    {
        let found = finding.found;
        let fault = self.fault(found);
        write!(out, "audit fault: {fault}: ")?;
        self.push_sentence(out, found.place, finding.late, finding.reason)?;
        writeln!(out)
    }

    /// Writes what the caller of the line at a place did, and why that is a fault.
    fn push_sentence(
        self,
        out: &mut String,
        place: u32,
        late: Option<Late>,
        reason: Reason,
    ) -> Result<(), AllocError>
        ensures { OnOk result (string_bytes out.new ≡ string_bytes out.old
            ++ sentence_text (shown_in self.entry) place late reason) }
    {
        let line = self.line(place);
        self.push_client_or(out, "client ", line.client, "its caller")?;
        push_deed(out, line.call)?;
        self.push_members(out, place)?;
        self.push_reason(out, place, late, reason)
    }

    /// Writes why a fault stands, behind what the caller of the line at a place did.
    fn push_reason(
        self,
        out: &mut String,
        place: u32,
        late: Option<Late>,
        reason: Reason,
    ) -> Result<(), AllocError>
        ensures { OnOk result (string_bytes out.new ≡ string_bytes out.old
            ++ reason_text (shown_in self.entry) place late reason) }
    {
        match reason {
            Reason::Known { version, by } => {
                self.push_late(out, place, late, by)?;
                write!(out, "{version} was known: ")?;
                self.push_known(out, place, version, by)
            }
            Reason::Unreported => write!(out, ", which nobody reported"),
            Reason::Reported {
                place: reporter,
                version,
                by,
            } => {
                if is_by(place, by) {
                    write!(out, ", which was reported only after this: ")?;
                    self.push_known(out, reporter, version, by)
                } else {
                    write!(out, ", which ")?;
                    self.push_mention(out, reporter)?;
                    write!(out, " reported when {version} was known: ")?;
                    self.push_known(out, reporter, version, by)
                }
            }
            Reason::Drawn { place: other } => {
                if self.line(place).call.draws() {
                    write!(out, ", and so did ")?;
                    self.push_mention(out, other)
                } else {
                    write!(out, ", which ")?;
                    self.push_mention(out, other)?;
                    write!(out, " drew")
                }
            }
            Reason::Undrawn => write!(out, ", which nobody drew"),
        }
    }

    /// Writes how late a call was, and after which line, where that is told by no other line.
    fn push_late(
        self,
        out: &mut String,
        place: u32,
        late: Option<Late>,
        by: Option<Witness>,
    ) -> Result<(), AllocError>
        ensures { OnOk result (string_bytes out.new ≡ string_bytes out.old
            ++ late_text (shown_in self.entry) place late by) }
    {
        match late {
            Some(late) if late.by > 0 && !is_told(late.place, by) => {
                write!(out, ", {} too late: ", late.by)?;
                self.push_ended(out, place, late.place)?;
                write!(out, ", and ")
            }
            _ => write!(out, ", but "),
        }
    }

    /// Writes that a line had ended before the call at a place began, and how long.
    fn push_ended(self, out: &mut String, place: u32, other: u32) -> Result<(), AllocError>
        ensures { OnOk result (string_bytes out.new ≡ string_bytes out.old
            ++ ended_text (shown_in self.entry) place other) }
    {
        self.push_mention(out, other)?;
        self.push_wait(out, place, self.wait(other, place))
    }

    /// Writes how the call at a place knew of a version.
    fn push_known(
        self,
        out: &mut String,
        place: u32,
        version: u64,
        by: Option<Witness>,
    ) -> Result<(), AllocError>
        ensures { OnOk result (string_bytes out.new ≡ string_bytes out.old
            ++ known_text (shown_in self.entry) place version by) }
    {
        let Some(by) = by else {
            return write!(out, "all began with {version}");
        };
        match by.means {
            Means::Ended => self.push_ended(out, place, by.place),
            Means::Own => {
                self.push_mention(out, by.place)?;
                write!(out, " is an earlier call of its client")
            }
            Means::Learnt(teller) => {
                self.push_line_text(out, teller)?;
                write!(out, " had learnt of ")?;
                self.push_mention(out, by.place)
            }
        }
    }

    /// Writes how long a line had ended when the call at a place began.
    fn push_wait(self, out: &mut String, place: u32, wait: u64) -> Result<(), AllocError>
        ensures { OnOk result (string_bytes out.new
            ≡ string_bytes out.old ++ wait_text (shown_in self.entry).own place wait) }
    {
        write!(out, " had ended {wait} before ")?;
        self.push_line_text(out, place)?;
        write!(out, " began")
    }

    /// How long a line had ended when a call began; 0 where its end is not known.
    fn wait(self, other: u32, place: u32) -> u64
        ensures { result ≡ since (ended (line_at (shown_in self.entry).lines other))
            (began (line_at (shown_in self.entry).lines place)) }
    {
        match self.line(other).ended() {
            Some(end) => self.line(place).began().saturating_sub(end),
            None => 0,
        }
    }
}

/// Writes what a caller did: it read, drew or reported a version.
fn push_deed(out: &mut String, call: Operation) -> Result<(), AllocError>
    ensures { OnOk result (string_bytes out.new ≡ string_bytes out.old ++ deed_text call) }
{
    match call {
        Operation::Read(version) => write!(out, " read {version}"),
        Operation::Commit(version) | Operation::Ask(version) => write!(out, " drew {version}"),
        Operation::Report(version) => write!(out, " reported {version}"),
        Operation::Learn(client) => write!(out, " learnt of {client}"),
    }
}

/// Whether a version was known by the line at a place.
fn is_by(place: u32, by: Option<Witness>) -> bool
    ensures { result ≡ is_by place by }
{
    matches!(by, Some(by) if by.place == place)
}

/// Whether a line is told by its end as how a version was known.
fn is_told(place: u32, by: Option<Witness>) -> bool
    ensures { result ≡ is_told place by }
{
    matches!(by, Some(Witness { place: other, means: Means::Ended }) if other == place)
}

impl Printer<'_> {
    /// Writes an object for a fault.
    pub(crate) fn push_fault_object(
        self,
        out: &mut String,
        finding: Finding,
    ) -> Result<(), AllocError>
        ensures { OnOk result (string_bytes out.new
            ≡ string_bytes out.old ++ line (fault_object (shown_in self.entry) finding)) }
    {
        let fault = finding.found.fault;
        write!(out, "{{\"fault\":\"{fault}\",\"at\":")?;
        self.push_line_object(out, finding.found.place)?;
        self.push_late_field(out, finding.late)?;
        self.push_reason_field(out, finding.reason)?;
        writeln!(out, "}}")
    }

    /// Writes a line of the log as an object.
    pub(crate) fn push_line_object(self, out: &mut String, place: u32) -> Result<(), AllocError>
        ensures { OnOk result (string_bytes out.new
            ≡ string_bytes out.old ++ line_object (shown_in self.entry) place) }
    {
        let line = self.line(place);
        let printed = self.printed_line(place);
        write!(out, "{{\"line\":{printed}")?;
        self.push_client_or(out, ",\"client\":", line.client, "")?;
        self.push_call_field(out, line.call)?;
        push_times_field(out, line.times)?;
        push_members_field(out, self.beside, place)?;
        write!(out, "}}")
    }

    /// Writes what was done.
    fn push_call_field(self, out: &mut String, call: Operation) -> Result<(), AllocError>
        ensures { OnOk result (string_bytes out.new
            ≡ string_bytes out.old ++ call_field (shown_in self.entry).names call) }
    {
        match call {
            Operation::Read(version) => write!(out, ",\"read\":{version}"),
            Operation::Commit(version) => write!(out, ",\"commit\":{version}"),
            Operation::Ask(version) => write!(out, ",\"ask\":{version}"),
            Operation::Report(version) => write!(out, ",\"report\":{version}"),
            Operation::Learn(client) => {
                write!(out, ",\"learn\":")?;
                self.push_name(out, client)
            }
        }
    }

    /// Writes how late a call was, and which line first let be known what made it late.
    fn push_late_field(self, out: &mut String, late: Option<Late>) -> Result<(), AllocError>
        ensures { OnOk result (string_bytes out.new
            ≡ string_bytes out.old ++ late_field (shown_in self.entry) late) }
    {
        match late {
            Some(late) => {
                write!(out, ",\"late\":{},\"first\":", late.by)?;
                self.push_line_object(out, late.place)
            }
            None => Ok(()),
        }
    }

    /// Writes why a fault stands.
    fn push_reason_field(self, out: &mut String, reason: Reason) -> Result<(), AllocError>
        ensures { OnOk result (string_bytes out.new
            ≡ string_bytes out.old ++ reason_field (shown_in self.entry) reason) }
    {
        match reason {
            Reason::Known { version, by } => {
                write!(out, ",\"reason\":\"known\",\"known\":{version}")?;
                self.push_by_field(out, by)
            }
            Reason::Unreported => write!(out, ",\"reason\":\"unreported\""),
            Reason::Reported { place, version, by } => {
                write!(out, ",\"reason\":\"reported\",\"reported\":")?;
                self.push_line_object(out, place)?;
                write!(out, ",\"known\":{version}")?;
                self.push_by_field(out, by)
            }
            Reason::Drawn { place } => {
                write!(out, ",\"reason\":\"drawn\",\"drawn\":")?;
                self.push_line_object(out, place)
            }
            Reason::Undrawn => write!(out, ",\"reason\":\"undrawn\""),
        }
    }

    /// Writes by which line a version was known, and how.
    fn push_by_field(self, out: &mut String, by: Option<Witness>) -> Result<(), AllocError>
        ensures { OnOk result (string_bytes out.new
            ≡ string_bytes out.old ++ by_field (shown_in self.entry) by) }
    {
        let Some(by) = by else {
            return write!(out, ",\"by\":null");
        };
        write!(out, ",\"by\":")?;
        self.push_line_object(out, by.place)?;
        self.push_means_field(out, by.means)
    }

    /// Writes how a call knew of a line.
    fn push_means_field(self, out: &mut String, means: Means) -> Result<(), AllocError>
        ensures { OnOk result (string_bytes out.new
            ≡ string_bytes out.old ++ means_field (shown_in self.entry) means) }
    {
        match means {
            Means::Ended => write!(out, ",\"means\":\"ended\""),
            Means::Own => write!(out, ",\"means\":\"own\""),
            Means::Learnt(teller) => {
                write!(out, ",\"means\":\"learnt\",\"teller\":")?;
                self.push_line_object(out, teller)
            }
        }
    }
}

/// Writes when a call began and ended; nothing where that is not known.
fn push_times_field(out: &mut String, times: Option<Times>) -> Result<(), AllocError>
    ensures { OnOk result (string_bytes out.new ≡ string_bytes out.old ++ times_field times) }
{
    match times {
        Some(times) => {
            let figures = [
                Figure("began", Some(times.began)),
                Figure("ended", times.ended),
            ];
            write!(out, ",")?;
            push_figures(out, true, &figures)
        }
        None => Ok(()),
    }
}

/// Writes what is printed beside a line, as an object.
fn push_members_field(out: &mut String, beside: &[Column], place: u32) -> Result<(), AllocError>
    ensures { OnOk result (string_bytes out.new
        ≡ string_bytes out.old ++ members_field (map beside_of beside.now) place) }
{
    let Some((first, more)) = beside.split_first() else {
        return Ok(());
    };
    write!(out, ",\"members\":{{")?;
    push_member_field(out, first, place)?;
    for member in more {
        write!(out, ",")?;
        push_member_field(out, member, place)?;
    }
    write!(out, "}}")
}

/// Writes a member's text at a line, or null.
fn push_member_field(out: &mut String, member: &Column, place: u32) -> Result<(), AllocError>
    ensures { OnOk result (string_bytes out.new
        ≡ string_bytes out.old ++ member_field (beside_of member.now) place) }
{
    write!(out, "{}:", member.member)?;
    push_or_null(out, member.text(place))
}

/// Writes a text that is JSON by itself, or null.
pub(crate) fn push_or_null(out: &mut String, value: Option<&str>) -> Result<(), AllocError>
    ensures { OnOk result (string_bytes out.new
        ≡ string_bytes out.old ++ text_or_null (option_map (λ text. text.now) value.entry)) }
{
    match value {
        Some(text) => write!(out, "{text}"),
        None => write!(out, "null"),
    }
}
