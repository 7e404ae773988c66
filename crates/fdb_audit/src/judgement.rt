//! From a log to what is said of it; and what is printed of one with faults: these, each with why
//! it stands, and totals.

ghost use Rattle.std.specs.Prelude.{◌≡◌, ◌⊎◌, ◌↔◌, IfOk, IfErr, Err, None, Some, map, option_map};
ghost use Rattle.std.specs.Prelude.{string_bytes, ◌++◌, ◌<◌, ℕ, List, OnOk, length, false};
ghost use Rattle.std.specs.Prelude.{slice_get, true};
ghost use Rattle.std.specs.Thread.{IsSync};
ghost use Rattle.fdb_lines.specs.Audit.{AreExplained, case_of};
ghost use Rattle.fdb_lines.specs.Judged.{IsFirstFound, IsSummary, AreAll, HasLateIn, HasReasonIn};
ghost use Rattle.fdb_lines.specs.Log.{lines_of};
ghost use Rattle.fdb_lines.specs.Reasons.{found_of};
ghost use Rattle.fdb_lines.specs.declared.fault.Found.{Found};
ghost use Rattle.fdb_log_reader.specs.Reading.{reading_in, reading_of, ReadsAs};
ghost use Rattle.fdb_audit.specs.Judged.{IsJudgement, IsText, IsTextOf, keys_of_lines, own_numbers};
ghost use Rattle.fdb_audit.specs.Judged.{HasOwnKeys, IsTextOfReading, list_text, AreTotals};
ghost use Rattle.fdb_audit.specs.Judged.{IsFaulted, IsListing};
ghost use Rattle.fdb_audit.specs.private.{keys_in, log_in, shown_in, HasKeys};

use crate::groups::push_totals;
use crate::members::members_beside;
use crate::printer::{ClientNames, Printer, Subject};
use crate::summary::{explained, passed, push_total_line};
use fdb_lines::{
    AuditOpts, Finding, Found, Log, Summary, findings, first_finding, first_finding_in_threads,
    order_or_findings, summary, summary_in_threads,
};
use fdb_log_reader::{LogReader, NamedLog, ReadError, Why};
use std::alloc::{AllocError, Global};
use std::thread::{Threads, join};

/// What an audit prints besides its verdict. Whether a fault stands decides which of these counts.
#[derive(Clone, Copy, Debug, PartialEq, Eq)]
pub struct Wanted {
    /// An order that explains the lines, where no fault stands; one for each key, where they have
    /// keys.
    pub history: bool,
    /// All faults, where one stands, and not the first alone.
    pub all: bool,
    /// Where a fault stands, at the end how much was judged and how many faults there are of each
    /// kind; without [`Wanted::all`] these alone.
    pub totals: bool,
    /// JSON objects, one a line, in place of sentences: docs/LOG.md has their members.
    pub json: bool,
}

/// What an audit of a log found.
#[derive(Debug, Drop)]
pub struct Judgement {
    /// The first fault, if there is one.
    pub fault: Option<Found>,
    /// What is printed: how much the verdict stands on, with an order that explains the lines where
    /// that is wanted; or the first fault, or all, each with why it stands, and totals.
    pub text: String,
}

/// Audits a log. Its clients are printed by these names, and those beyond them by their numbers. It
/// fails only where memory is refused.
///
/// `n log n` in how many lines there are, and linear in what is printed.
pub fn judge<'x>(
    alloc: Global,
    log: &'x Log,
    names: &'x [String],
    opts: &'x AuditOpts,
    wanted: Wanted,
) -> Result<Judgement, AllocError>
    ensures { IfOk result (λ found. IsText (lines_of log.now) (map string_bytes names.now)
        opts.now wanted found.fault (string_bytes found.text)) }
{
    let printer = Printer {
        log,
        names: ClientNames::Texts(names),
        own: &[],
        beside: &[],
    };
    let subject = Subject {
        printer,
        keys: None,
        opts,
    };
    judge_subject(alloc, subject, wanted)
}

/// Audits a log.
pub(crate) fn judge_subject(
    alloc: Global,
    subject: Subject<'_>,
    wanted: Wanted,
) -> Result<Judgement, AllocError>
    requires { HasKeys subject }
    ensures { IfOk result (λ found. IsTextOf (log_in subject.entry) (shown_in subject.entry.printer)
        (keys_in subject.entry) subject.entry.opts.now wanted found.fault (string_bytes found.text)) }
{
    let (log, keys, opts) = (subject.printer.log, subject.keys, subject.opts);
    if wanted.history {
        return match order_or_findings(alloc, log, keys, opts)? {
            Ok(order) => explained(alloc, subject, &order, wanted),
            Err(found) if wanted.all || wanted.totals => listed(alloc, subject, &found, wanted),
            Err(found) => one_fault(alloc, subject, found[0], wanted),
        };
    }
    if wanted.all || wanted.totals {
        let found = findings(alloc, log, keys, opts)?;
        if found.is_empty() {
            return passed(alloc, subject, summary(alloc, log, keys, opts)?, wanted);
        }
        return listed(alloc, subject, &found, wanted);
    }
    match first_finding(alloc, log, keys, opts)? {
        Some(first) => one_fault(alloc, subject, first, wanted),
        None => passed(alloc, subject, summary(alloc, log, keys, opts)?, wanted),
    }
}

/// Audits a log as [`judge_subject`] does. Where the first fault alone is wanted, and lines have no
/// keys, it is looked for in threads, beside one that counts what a verdict stands on.
pub(crate) fn judge_subject_in_threads<R: Threads + Sync>(
    rt: &R,
    alloc: Global,
    subject: Subject<'_>,
    wanted: Wanted,
) -> Result<Judgement, AllocError>
    requires { HasKeys subject }
    ensures { IfOk result (λ found. IsTextOf (log_in subject.entry) (shown_in subject.entry.printer)
        (keys_in subject.entry) subject.entry.opts.now wanted found.fault (string_bytes found.text)) }
{
    if wanted.all || wanted.totals || wanted.history || subject.keys.is_some() {
        return judge_subject(alloc, subject, wanted);
    }
    let (log, opts) = (subject.printer.log, subject.opts);
    let (first, counts) = join(
        rt,
        || -> Result<Option<Finding>, AllocError>
            requires { IsSync R.row }
            ensures first { IfOk result
                (IsFirstFound (lines_of log.entry.now) None opts.entry.now) }
            ensures explained { IfOk result (λ first. first ≡ None
                ↔ AreExplained (case_of (lines_of log.entry.now) opts.entry.now)) }
        { first_finding_in_threads(rt, alloc, log, opts) },
        || -> Result<Summary, AllocError>
            requires { IsSync R.row }
            ensures { IfOk result (IsSummary (lines_of log.entry.now) None opts.entry.now) }
        { summary_in_threads(rt, alloc, log, opts) },
    );
    match first? {
        Some(first) => one_fault(alloc, subject, first, wanted),
        None => passed(alloc, subject, counts?, wanted),
    }
}

/// Audits the log that a text of JSON Lines stands for. Its clients are printed as JSON strings, as
/// [`fdb_log_reader::Names::printed`] has them. It is refused as [`fdb_log_reader::read_log`] refuses it; an error
/// of memory says nothing of the text.
///
/// `n log n` in how many lines there are, and linear in the text and in what is printed.
pub fn judge_text(
    alloc: Global,
    bytes: &[u8],
    opts: &AuditOpts,
    wanted: Wanted,
) -> Result<Judgement, ReadError>
    ensures ok { IfOk result
        (λ found. IsJudgement bytes.now opts.now wanted found.fault (string_bytes found.text)) }
    ensures err { IfErr result
        (λ error. (error.why ≡ Why.Memory) ⊎ (reading_in bytes.now ≡ Err error)) }
{
    let named = read(alloc, bytes)?;
    judge_named(alloc, &named, opts, wanted).map_err(|_| ReadError {
        line: 0,
        why: Why::Memory,
    })
}

/// Reads a log as [`fdb_log_reader::read_log`] does.
fn read(alloc: Global, bytes: &[u8]) -> Result<NamedLog, ReadError>
    ensures read { ReadsAs bytes.now result }
    ensures keys { IfOk result (λ named. HasOwnKeys (reading_of named)) }
{
    let reader = LogReader::new(alloc).feed(bytes)?;
    reader.finish()
}

/// Audits a log that was read: by key, where the keys of its lines were kept, as a
/// [`fdb_log_reader::LogReader`] keeps one for each line. Clients and keys are printed as JSON strings,
/// what is shown of lines as JSON, and lines
/// by their own numbers, where they have such. It fails only where memory is refused.
///
/// `n log n` in how many lines there are, and linear in what is printed.
pub fn judge_named<'x>(
    alloc: Global,
    named: &'x NamedLog,
    opts: &'x AuditOpts,
    wanted: Wanted,
) -> Result<Judgement, AllocError>
    requires { HasOwnKeys (reading_of named.now) }
    ensures { IfOk result (λ found. IsTextOfReading (reading_of named.entry.now) opts.entry.now wanted
        found.fault (string_bytes found.text)) }
{
    let beside = members_beside(alloc, named)?;
    let printer = Printer {
        log: &named.log,
        names: ClientNames::OfLog(&named.names),
        own: own_numbers(named),
        beside: &beside,
    };
    let subject = Subject {
        printer,
        keys: numbers_of(named),
        opts,
    };
    judge_subject(alloc, subject, wanted)
}

/// The same, by threads.
pub(crate) fn judge_named_in_threads<'x, R: Threads + Sync>(
    rt: &R,
    alloc: Global,
    named: &'x NamedLog,
    opts: &'x AuditOpts,
    wanted: Wanted,
) -> Result<Judgement, AllocError>
    requires { HasOwnKeys (reading_of named.now) }
    ensures { IfOk result (λ found. IsTextOfReading (reading_of named.entry.now) opts.entry.now wanted
        found.fault (string_bytes found.text)) }
{
    let beside = members_beside(alloc, named)?;
    let printer = Printer {
        log: &named.log,
        names: ClientNames::OfLog(&named.names),
        own: own_numbers(named),
        beside: &beside,
    };
    let subject = Subject {
        printer,
        keys: numbers_of(named),
        opts,
    };
    judge_subject_in_threads(rt, alloc, subject, wanted)
}

/// For each line the number of its key, where keys were kept.
fn numbers_of(named: &NamedLog) -> Option<&[Option<u32>]>
    ensures { option_map (λ keys. keys.now) result ≡ keys_of_lines (reading_of named.now).keys }
{
    match &named.keys {
        Some(keys) => Some(keys.numbers()),
        None => None,
    }
}

/// The lines' own numbers; none where they have none.
pub(crate) fn own_numbers(named: &NamedLog) -> &[u64]
    ensures { result.now ≡ own_numbers (reading_of named.now).numbers }
{
    match &named.numbers {
        Some(own) => own.numbers(),
        None => &[],
    }
}

/// What is said of a log by its first fault.
pub(crate) fn one_fault(
    alloc: Global,
    subject: Subject<'_>,
    first: Finding,
    wanted: Wanted,
) -> Result<Judgement, AllocError>
    requires alone { (wanted.all ≡ false) × (wanted.totals ≡ false) }
    requires reason { HasReasonIn (log_in subject) (keys_in subject) subject.opts.now first }
    requires late { HasLateIn (log_in subject) (keys_in subject) subject.opts.now first }
    ensures fault { IfOk result (λ found. found.fault ≡ Some first.found) }
    ensures text { IfOk result (λ found. IsFaulted (log_in subject.entry) (shown_in subject.entry.printer)
        (keys_in subject.entry) subject.entry.opts.now wanted first.found (string_bytes found.text)) }
{
    let mut text = String::new(alloc);
    subject.printer.push_list(&mut text, wanted.json, &[first])?;
    Ok(Judgement {
        fault: Some(first.found),
        text,
    })
}

/// What is said of a log by all its faults.
pub(crate) fn listed(
    alloc: Global,
    subject: Subject<'_>,
    found: &[Finding],
    wanted: Wanted,
) -> Result<Judgement, AllocError>
    requires keys { HasKeys subject }
    requires some { 0 < length found.now }
    requires more { (wanted.all ≡ true) ⊎ (wanted.totals ≡ true) }
    requires all { AreAll (log_in subject) (keys_in subject) subject.opts.now found.now }
    ensures { IfOk result (λ it. (first : Found) × (it.fault ≡ Some first)
        × (slice_get (map found_of found.entry.now) 0 ≡ Some first)
        × IsFaulted (log_in subject.entry) (shown_in subject.entry.printer) (keys_in subject.entry)
        subject.entry.opts.now wanted first (string_bytes it.text)) }
{
    let mut text = String::new(alloc);
    add_listing(&mut text, subject, found, wanted)?;
    add_totals(alloc, &mut text, subject, found, wanted)?;
    Ok(Judgement {
        fault: Some(found[0].found),
        text,
    })
}

/// Writes the faults, unless the totals alone are wanted.
fn add_listing(
    out: &mut String,
    subject: Subject<'_>,
    found: &[Finding],
    wanted: Wanted,
) -> Result<(), AllocError>
    requires more { (wanted.all ≡ true) ⊎ (wanted.totals ≡ true) }
    requires all { AreAll (log_in subject) (keys_in subject) subject.opts.now found.now }
    ensures { OnOk result ((first : Found) → (text : List ℕ)
        × IsListing (log_in subject.entry) (shown_in subject.entry.printer) (keys_in subject.entry)
        subject.entry.opts.now wanted wanted.all wanted.totals first text
        × (string_bytes out.new ≡ string_bytes out.old ++ text)) }
{
    if wanted.all {
        subject.printer.push_list(out, wanted.json, found)
    } else {
        Ok(())
    }
}

/// Writes how much was judged, and how many faults were found, if that is wanted.
fn add_totals(
    alloc: Global,
    out: &mut String,
    subject: Subject<'_>,
    found: &[Finding],
    wanted: Wanted,
) -> Result<(), AllocError>
    requires keys { HasKeys subject }
    requires all { AreAll (log_in subject) (keys_in subject) subject.opts.now found.now }
    ensures { OnOk result ((text : List ℕ) × AreTotals (log_in subject.entry) (shown_in subject.entry.printer)
        (keys_in subject.entry) subject.entry.opts.now wanted wanted.totals text
        × (string_bytes out.new ≡ string_bytes out.old ++ text)) }
{
    if !wanted.totals {
        return Ok(());
    }
    let counts = summary(alloc, subject.printer.log, subject.keys, subject.opts)?;
    push_total_line(out, subject, counts, wanted.json)?;
    let faults = faults_of(alloc, found)?;
    push_totals(alloc, out, wanted.json, subject.printer, &faults)
}

/// The faults that were found, without why they stand.
fn faults_of(alloc: Global, found: &[Finding]) -> Result<Vec<Found>, AllocError>
    ensures { IfOk result (λ faults. faults.items ≡ map found_of found.now) }
{
    found.iter().map(|finding| finding.found).collect(alloc)
}

impl Printer<'_> {
    /// Writes some faults, in their order: a sentence or an object for each.
    pub(crate) fn push_list(
        self,
        out: &mut String,
        json: bool,
        found: &[Finding],
    ) -> Result<(), AllocError>
        ensures { OnOk result (string_bytes out.new
            ≡ string_bytes out.old ++ list_text json (shown_in self.entry) found.now) }
    {
        for finding in found {
            if json {
                self.push_fault_object(out, *finding)?;
            } else {
                self.push_finding(out, *finding)?;
            }
        }
        Ok(())
    }
}
