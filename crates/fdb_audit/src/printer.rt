//! The lines that are printed, the names of their clients as they are printed, and a fault by the
//! line at which it stands.

ghost use Rattle.std.specs.Prelude.{◌≡◌, ◌++◌, IfOk, OnOk, option_map, slice_get, string_bytes};
ghost use Rattle.std.specs.Prelude.{map};
ghost use Rattle.fdb_lines.specs.Lines.{line_at};
ghost use Rattle.fdb_log_reader.specs.Names.{names_of};
ghost use Rattle.fdb_log_reader.specs.Printed.{printed};
ghost use Rattle.fdb_audit.specs.Text.{call_text, client_or, fault_of, members_text, mention};
ghost use Rattle.fdb_audit.specs.Text.{name_or_number, printed_line, line_text, whose_text};
ghost use Rattle.fdb_audit.specs.ToldFaults.{client_text};
ghost use Rattle.fdb_audit.specs.private.{shown_in, names_in};

use crate::members::Column;
use fdb_lines::{AuditOpts, Fault, Found, Line, Log, Operation};
use fdb_log_reader::{Names, printed_name};
use std::alloc::{AllocError, Global};
use std::fmt::{self, Write};

/// A log, with what is printed of it, that is judged as one register or, where its lines have keys,
/// as one for each key.
#[derive(Clone, Copy)]
pub(crate) struct Subject<'a> {
    pub printer: Printer<'a>,
    pub keys: Option<&'a [Option<u32>]>,
    pub opts: &'a AuditOpts,
}

/// What stands past the last line: nothing.
const NOBODY: Line = Line {
    client: None,
    call: Operation::Learn(0),
    times: None,
};

/// What is printed of a log: its lines; the names of their clients, by the clients' numbers; what
/// each line is told as, by its place; and the members that are printed beside the calls. A client
/// beyond the names is printed by its number, and a line beyond the others by its place, counted
/// from 1.
#[derive(Clone, Copy)]
pub(crate) struct Printer<'a> {
    pub log: &'a Log,
    pub names: ClientNames<'a>,
    pub own: &'a [u64],
    pub beside: &'a [Column],
}

impl Printer<'_> {
    /// The line at a place, counted from 0; [`NOBODY`] past the last.
    pub(crate) fn line(self, place: u32) -> Line
        ensures { result ≡ line_at (shown_in self.entry).lines place }
    {
        let line = self.log.lines().get(place as usize);
        line.copied().unwrap_or(NOBODY)
    }

    /// What the line at a place is told as.
    pub(crate) fn printed_line(self, place: u32) -> u64
        ensures { result ≡ printed_line (shown_in self.entry).own place }
    {
        printed_line(self.own, place)
    }

    /// A fault, by its line.
    pub(crate) fn fault(self, found: Found) -> LogFault
        ensures { result ≡ fault_of (shown_in self.entry).own found }
    {
        LogFault {
            fault: found.fault,
            line: self.printed_line(found.place),
        }
    }

    /// The name of the client of the line at a place, or its number where it has none, if it is known.
    pub(crate) fn client(self, alloc: Global, place: u32) -> Result<Option<String>, AllocError>
        ensures { let it = shown_in self.entry in IfOk result (λ text.
            option_map string_bytes text
            ≡ client_text it.names (line_at it.lines place).client) }
    {
        match self.line(place).client {
            Some(number) => {
                let mut text = String::new(alloc);
                self.push_name(&mut text, number)?;
                Ok(Some(text))
            }
            None => Ok(None),
        }
    }

    /// Writes the name of a client, or its number where it has none.
    pub(crate) fn push_name(self, out: &mut String, number: u32) -> Result<(), AllocError>
        ensures { let names = (shown_in self.entry).names in OnOk result (string_bytes out.new
            ≡ string_bytes out.old ++ name_or_number number (slice_get names number)) }
    {
        self.names.push(out, number)
    }

    /// Writes a client behind a text, or another text where it is not known.
    pub(crate) fn push_client_or(
        self,
        out: &mut String,
        before: &str,
        client: Option<u32>,
        none: &str,
    ) -> Result<(), AllocError>
        ensures { OnOk result (string_bytes out.new ≡ string_bytes out.old
            ++ client_or (shown_in self.entry).names before.now none.now client) }
    {
        match client {
            Some(number) => {
                write!(out, "{before}")?;
                self.push_name(out, number)
            }
            None => write!(out, "{none}"),
        }
    }

    /// Writes a line: what it is told as, with whose it is, what was done, and what is printed
    /// beside it.
    pub(crate) fn push_mention(self, out: &mut String, place: u32) -> Result<(), AllocError>
        ensures { OnOk result
            (string_bytes out.new ≡ string_bytes out.old ++ mention (shown_in self.entry) place) }
    {
        let line = self.line(place);
        self.push_line_text(out, place)?;
        write!(out, " (")?;
        self.push_whose(out, line.client)?;
        push_call(out, line.call)?;
        self.push_members(out, place)?;
        write!(out, ")")
    }

    /// Writes what the line at a place is told as.
    pub(crate) fn push_line_text(self, out: &mut String, place: u32) -> Result<(), AllocError>
        ensures { OnOk result (string_bytes out.new
            ≡ string_bytes out.old ++ line_text (shown_in self.entry).own place) }
    {
        let printed = self.printed_line(place);
        write!(out, "line {printed}")
    }

    /// Writes what is printed beside a line.
    pub(crate) fn push_members(self, out: &mut String, place: u32) -> Result<(), AllocError>
        ensures { OnOk result (string_bytes out.new
            ≡ string_bytes out.old ++ members_text (shown_in self.entry).beside place) }
    {
        for member in self.beside {
            member.push(out, place)?;
        }
        Ok(())
    }

    /// Writes whose a line is, in front of what was done.
    fn push_whose(self, out: &mut String, client: Option<u32>) -> Result<(), AllocError>
        ensures { OnOk result (string_bytes out.new
            ≡ string_bytes out.old ++ whose_text (shown_in self.entry).names client) }
    {
        match client {
            Some(number) => {
                write!(out, "client ")?;
                self.push_name(out, number)?;
                write!(out, ", ")
            }
            None => Ok(()),
        }
    }
}

/// Writes what a line says that was done, with the version, or of whom it has learnt, by number.
fn push_call(out: &mut String, call: Operation) -> Result<(), AllocError>
    ensures { OnOk result (string_bytes out.new ≡ string_bytes out.old ++ call_text call) }
{
    match call {
        Operation::Read(version) => write!(out, "read {version}"),
        Operation::Commit(version) => write!(out, "commit {version}"),
        Operation::Ask(version) => write!(out, "ask {version}"),
        Operation::Report(version) => write!(out, "report {version}"),
        Operation::Learn(client) => write!(out, "learn {client}"),
    }
}

/// The names of clients, each at its client's number. A name is looked up where it is printed, so
/// that no others cost anything.
#[derive(Clone, Copy)]
pub(crate) enum ClientNames<'a> {
    /// Texts that are printed as they stand.
    Texts(&'a [String]),
    /// Names of a log, which are printed as JSON strings.
    OfLog(&'a Names),
}

impl ClientNames<'_> {
    /// Writes the name of a client, or its number where it has none.
    pub(crate) fn push(self, out: &mut String, number: u32) -> Result<(), AllocError>
        ensures { OnOk result (string_bytes out.new ≡ string_bytes out.old
            ++ name_or_number number (slice_get (names_in self.entry) number)) }
    {
        match self {
            ClientNames::Texts(texts) => push_text(out, texts, number),
            ClientNames::OfLog(names) => push_name(out, names, number),
        }
    }
}

/// Writes one of some texts, or its number where there is none.
fn push_text(out: &mut String, texts: &[String], number: u32) -> Result<(), AllocError>
    ensures { OnOk result (string_bytes out.new ≡ string_bytes out.old
        ++ name_or_number number (slice_get (map string_bytes texts.now) number)) }
{
    match texts.get(number as usize) {
        Some(text) => write!(out, "{text}"),
        None => write!(out, "{number}"),
    }
}

/// Writes a client's name of a log as a JSON string, or its number where it has none.
fn push_name(out: &mut String, names: &Names, number: u32) -> Result<(), AllocError>
    ensures { OnOk result (string_bytes out.new ≡ string_bytes out.old
        ++ name_or_number number (slice_get (map printed (names_of names.now)) number)) }
{
    match names.name(number) {
        Some(name) => {
            let text = printed_name(*out.allocator(), name)?;
            write!(out, "{text}")
        }
        None => write!(out, "{number}"),
    }
}

/// A fault, and the line at which it stands: its own number, or counted from 1.
#[derive(Clone, Copy, Debug, PartialEq, Eq)]
pub struct LogFault {
    pub fault: Fault,
    pub line: u64,
}

impl fmt::Display for LogFault {
    ghost use Rattle.std.specs.Prelude.{Some};
    ghost use Rattle.fdb_audit.specs.Text.{fault_text};

    ghost output = { λ it. Some (fault_text it) };

    fn fmt<W: fmt::Write>(&self, f: &mut fmt::Formatter<W>) -> fmt::Result {
        write!(f, "{} {}", self.fault, self.line)
    }
}

/// What the line at a place is told as: one of these, or else its place counted from 1.
pub(crate) fn printed_line(own: &[u64], place: u32) -> u64
    ensures { result ≡ printed_line own.now place }
{
    let line = own.get(place as usize);
    line.copied().unwrap_or(place as u64 + 1)
}

/// The first fault of a log, by its line, if there is one.
pub(crate) fn told(own: &[u64], first: Option<Found>) -> Option<LogFault>
    ensures { result ≡ option_map (fault_of own.now) first }
{
    let found = first?;
    Some(LogFault {
        fault: found.fault,
        line: printed_line(own, found.place),
    })
}
