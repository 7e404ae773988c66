//! Numbers by their names, in words or as members of an object; and how many faults were found, of
//! each kind.

ghost use Rattle.std.specs.Prelude.{◌≡◌, ◌++◌, OnOk, map, string_bytes, ◌∷◌, [], List};
ghost use Rattle.fdb_lines.specs.declared.fault.Fault.{Fault};
ghost use Rattle.fdb_audit.specs.Figures.{between, figure_text, figures_text, figures_words};
ghost use Rattle.fdb_audit.specs.Objects.{member_names, total_object};
ghost use Rattle.fdb_audit.specs.Text.{line};
ghost use Rattle.fdb_audit.specs.private.{figure_of, members_of};
ghost use Rattle.fdb_audit.specs.Totals.{fault_figures, faults_line, kinds};
ghost use Rattle.fdb_audit.specs.private.Followed.{one_more};
ghost use Rattle.fdb_audit.specs.Counting.{same_fault};
ghost use Rattle.fdb_audit.specs.Tallied.{no_kinds, HasKinds};

use crate::members::Column;
use crate::progress::add_one;
use fdb_lines::Fault;
use std::alloc::AllocError;
use std::fmt::Write;

/// A name, and its number; that may be missing.
#[derive(Drop)]
pub(crate) struct Figure(pub &'static str, pub Option<u64>);

impl Figure {
    /// Writes it behind a text: in words, which leave out a number that is missing, or as a member of
    /// an object.
    fn push(&self, out: &mut String, json: bool, before: &str) -> Result<(), AllocError>
        ensures { let it = figure_of self.now in OnOk result (string_bytes out.new
            ≡ string_bytes out.old ++ figure_text json before.now it.name it.number) }
    {
        let name = self.0;
        match (json, self.1) {
            (false, None) => Ok(()),
            (false, Some(number)) => write!(out, "{before}{name} {number}"),
            (true, None) => write!(out, "{before}\"{name}\":null"),
            (true, Some(number)) => write!(out, "{before}\"{name}\":{number}"),
        }
    }
}

/// Writes some figures.
pub(crate) fn push_figures(
    out: &mut String,
    json: bool,
    figures: &[Figure],
) -> Result<(), AllocError>
    ensures { OnOk result (string_bytes out.new
        ≡ string_bytes out.old ++ figures_text json (map figure_of figures.now)) }
{
    let Some((first, more)) = figures.split_first() else {
        return Ok(());
    };
    first.push(out, json, "")?;
    let between = if json { "," } else { " " };
    for figure in more {
        figure.push(out, json, between)?;
    }
    Ok(())
}

/// Writes a line of words in front of figures.
pub(crate) fn push_line(out: &mut String, words: &str, figures: &[Figure]) -> Result<(), AllocError>
    ensures { OnOk result (string_bytes out.new ≡ string_bytes out.old
        ++ line (figures_words words.now (map figure_of figures.now))) }
{
    write!(out, "{words} ")?;
    push_figures(out, false, figures)?;
    writeln!(out)
}

/// Writes how much was judged or read, and by which arguments, as an object.
pub(crate) fn push_total_object(
    out: &mut String,
    counts: &[Figure],
    arguments: &[Figure],
    by_key: bool,
    beside: &[Column],
) -> Result<(), AllocError>
    ensures { OnOk result (string_bytes out.new ≡ string_bytes out.old
        ++ line (total_object (map figure_of counts.now) (map figure_of arguments.now) by_key
        (members_of beside.now))) }
{
    write!(out, "{{\"total\":{{")?;
    push_figures(out, true, counts)?;
    write!(out, "}},\"arguments\":{{")?;
    push_figures(out, true, arguments)?;
    write!(out, ",\"by_key\":{by_key},\"members\":[")?;
    push_names(out, beside)?;
    writeln!(out, "]}}}}")
}

/// Writes the names of some members, with commas between them.
fn push_names(out: &mut String, beside: &[Column]) -> Result<(), AllocError>
    ensures { OnOk result (string_bytes out.new
        ≡ string_bytes out.old ++ member_names (members_of beside.now)) }
{
    let Some((first, more)) = beside.split_first() else {
        return Ok(());
    };
    write!(out, "{}", first.member)?;
    for member in more {
        write!(out, ",{}", member.member)?;
    }
    Ok(())
}

/// How many faults there are, in all and of each kind.
#[derive(Clone, Copy)]
pub(crate) struct KindCounts {
    pub faults: u64,
    pub order: u64,
    pub wrong: u64,
    pub not_above: u64,
    pub twice: u64,
    pub stray: u64,
}

impl KindCounts {
    /// Of no fault.
    pub(crate) fn new() -> Self
        ensures none { result ≡ no_kinds }
        ensures counted { HasKinds result [] }
    {
        KindCounts {
            faults: 0,
            order: 0,
            wrong: 0,
            not_above: 0,
            twice: 0,
            stray: 0,
        }
    }

    /// Counts one more. A count that is full is refused as memory is.
    pub(crate) fn add(&mut self, fault: Fault) -> Result<(), AllocError>
        ensures { OnOk result ((faults : List Fault) → HasKinds self.old faults
            → HasKinds self.new (faults ++ fault ∷ [])) }
    {
        if self.faults == u64::MAX {
            return Err(AllocError);
        }
        self.faults += 1;
        self.add_kind(fault);
        Ok(())
    }

    /// Counts one more of its kind.
    fn add_kind(&mut self, fault: Fault)
        ensures order { self.new.order ≡ one_more (same_fault fault Fault.Order) self.old.order }
        ensures wrong { self.new.wrong ≡ one_more (same_fault fault Fault.Wrong) self.old.wrong }
        ensures not_above { self.new.not_above
            ≡ one_more (same_fault fault Fault.NotAbove) self.old.not_above }
        ensures twice { self.new.twice ≡ one_more (same_fault fault Fault.Twice) self.old.twice }
        ensures stray { self.new.stray ≡ one_more (same_fault fault Fault.Stray) self.old.stray }
        ensures faults { self.new.faults ≡ self.old.faults }
    {
        match fault {
            Fault::Order => add_one(&mut self.order),
            Fault::Wrong => add_one(&mut self.wrong),
            Fault::NotAbove => add_one(&mut self.not_above),
            Fault::Twice => add_one(&mut self.twice),
            Fault::Stray => add_one(&mut self.stray),
        }
    }

    /// Writes how many there are, in words or as a JSON object, on a line.
    pub(crate) fn push_line(self, out: &mut String, json: bool) -> Result<(), AllocError>
        ensures { OnOk result ((faults : List Fault) → HasKinds self faults
            → string_bytes out.new ≡ string_bytes out.old ++ line (faults_line json faults)) }
    {
        if json {
            write!(out, "{{")?;
        } else {
            write!(out, "audit total")?;
        }
        self.push(out, json, false)?;
        writeln!(out)
    }

    /// Writes how many there are, in all and of each kind, and whether there are more.
    pub(crate) fn push(self, out: &mut String, json: bool, more: bool) -> Result<(), AllocError>
        ensures { OnOk result ((faults : List Fault) → HasKinds self faults
            → string_bytes out.new ≡ string_bytes out.old ++ kinds json more faults) }
    {
        let figures = self.figures();
        match (json, more) {
            (true, true) => {
                push_figures(out, true, &figures)?;
                write!(out, ",\"more\":true}}")
            }
            (true, false) => {
                push_figures(out, true, &figures)?;
                write!(out, "}}")
            }
            (false, true) => {
                write!(out, " ")?;
                push_figures(out, false, &figures)?;
                write!(out, " more")
            }
            (false, false) => {
                write!(out, " ")?;
                push_figures(out, false, &figures)
            }
        }
    }

    /// How many there are, in all and of each kind.
    fn figures(self) -> [Figure; 6]
        ensures { (faults : List Fault) → HasKinds self faults
            → map figure_of result ≡ fault_figures faults }
    {
        [
            Figure("faults", Some(self.faults)),
            Figure("Order", Some(self.order)),
            Figure("Wrong", Some(self.wrong)),
            Figure("NotAbove", Some(self.not_above)),
            Figure("Twice", Some(self.twice)),
            Figure("Stray", Some(self.stray)),
        ]
    }
}
