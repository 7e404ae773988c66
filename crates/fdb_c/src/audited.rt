//! A log that is audited piece by piece, by its handle, and what was found.

ghost use Rattle.std.specs.Prelude.{◌≡◌, ◌≢◌, ◌↔◌, ◌⊎◌, Err, IfOk, IfSome, IsNone, IsSome, None};
ghost use Rattle.std.specs.Prelude.{Some, map, string_bytes};
ghost use Rattle.fdb_lines.specs.Judged.{AreAll};
ghost use Rattle.fdb_lines.specs.declared.fault.Found.{Found};
ghost use Rattle.fdb_log_reader.specs.Reading.{reading_of};
ghost use Rattle.fdb_audit.specs.Judged.{keys_of_lines, HasOwnKeys};
ghost use Rattle.core.specs.Str.{IsUtf8};
ghost use Rattle.fdb_c.specs.Audit.{IsGiven, IsRefusal, IsToldWhy, IsUntold, asked_by, asked_in};
ghost use Rattle.fdb_c.specs.Audit.{told};
ghost use Rattle.fdb_c.specs.Audited.{HasEnded, IsFoundOf, IsRefusedFor, IsVerdict, fed};
ghost use Rattle.fdb_c.specs.Audited.{new_audit, over, reading_by};

use crate::audit::{FdbAuditOptions, FdbRefused, asked_with, opts_of, refuse, texts_of, wanted_of};
use crate::audit_faults::FdbFault;
use crate::audit_listing::{write_faults, write_text};
use crate::handle::{FdbAudit, Held, boxed};
use crate::status::{
    FDB_BAD_MEMBER, FDB_FAULT, FDB_MEMORY, FDB_OK, FDB_OVER, FDB_ROOM, status_of_writing,
};
use crate::watch_options::Story;
use fdb_audit::{AuditArguments, judge_named};
use fdb_lines::{AuditOpts, Finding, Found, findings};
use fdb_log_reader::{LogReader, NamedLog};
use std::alloc::{AllocError, Global};
use std::marker::Model;
use std::mem;

/// A log of which a part has come, or what was found of it.
#[derive(Drop)]
pub struct Audited {
    asked: AuditArguments,
    /// None once the log has ended or was refused, or memory was.
    reader: Option<LogReader>,
    /// What was found, once the log has ended.
    text: String,
    faults: Vec<Finding>,
    story: Story,
}

impl Model for Audited {
    ghost use Rattle.std.specs.Prelude.{IfSome, is_none, map, string_bytes};
    ghost use Rattle.fdb_c.specs.Audit.{asked_in, told};
    ghost use Rattle.fdb_c.specs.Audited.{AuditState, ReadsOn};

    ghost Value = { AuditState };

    ghost view = { λ it.
        record {
          asked = asked_in it.asked;
          bytes = it.story.bytes;
          text = string_bytes it.text;
          faults = map told it.faults.items;
          is_over = is_none it.reader;
        } };

    ghost invariant = { λ it. IfSome it.reader (ReadsOn (asked_in it.asked) it.story.bytes) };
}

/// What was found of a log.
#[derive(Drop)]
pub(crate) struct FoundOf {
    first: Option<Found>,
    text: String,
    faults: Vec<Finding>,
}

/// What is found of a log that was read.
fn found_of(alloc: Global, named: &NamedLog, asked: &AuditArguments) -> Result<FoundOf, AllocError>
    requires { HasOwnKeys (reading_of named.now) }
    ensures { IfOk result (λ it. IsFoundOf (reading_of named.now) (asked_in asked.now)
        it.first (string_bytes it.text) (map told it.faults.items)) }
{
    let judged = judge_named(alloc, named, &asked.opts, asked.wanted)?;
    let faults = faults_of(alloc, named, &asked.opts)?;
    Ok(FoundOf {
        first: judged.fault,
        text: judged.text,
        faults,
    })
}

/// All faults of a log that was read, or of the lines of each key where their keys were kept.
fn faults_of(alloc: Global, named: &NamedLog, opts: &AuditOpts) -> Result<Vec<Finding>, AllocError>
    requires { HasOwnKeys (reading_of named.now) }
    ensures { IfOk result (λ found. AreAll (reading_of named.now).log
        (keys_of_lines (reading_of named.now).keys) opts.now found.items) }
{
    match &named.keys {
        Some(keys) => findings(alloc, &named.log, Some(keys.numbers()), opts),
        None => findings(alloc, &named.log, None, opts),
    }
}

/// The verdict.
fn verdict_of(first: Option<Found>) -> u8
    ensures ok { (result ≡ FDB_OK) → first ≡ None }
    ensures fault { (result ≡ FDB_FAULT) → (it : Found) × (first ≡ Some it) }
    ensures statuses { (result ≡ FDB_OK) ⊎ (result ≡ FDB_FAULT) }
{
    match first {
        Some(_) => FDB_FAULT,
        None => FDB_OK,
    }
}

impl Audited {
    /// An audit of a log of which nothing has come.
    pub(crate) fn new(
        alloc: Global,
        options: FdbAuditOptions,
        key: &str,
        shown: &str,
    ) -> Result<Self, AllocError>
        ensures { IfOk result
            (λ audited. audited ≡ new_audit (asked_by options key.now shown.now)) }
    {
        let asked = asked_with(
            alloc,
            opts_of(options),
            None,
            wanted_of(options),
            key,
            shown,
        )?;
        let reader = LogReader::with_columns(alloc, asked.key.as_deref(), &asked.shown, None)?;
        Ok(Audited {
            asked,
            reader: Some(reader),
            text: String::new(alloc),
            faults: Vec::new(alloc),
            story: Story::new(),
        })
    }

    /// What was found, as a text.
    pub(crate) fn text(&self) -> &str
        ensures { result.now ≡ self.now.text }
    {
        self.text.as_str()
    }

    /// What was found, as faults.
    pub(crate) fn faults(&self) -> &[Finding]
        ensures { map told result.now ≡ self.now.faults }
    {
        self.faults.as_slice()
    }

    /// Reads on. Where the log or memory is refused, the audit is over.
    pub(crate) fn push(&mut self, bytes: &[u8], refused: &mut FdbRefused) -> u8
        ensures ok { (result ≡ FDB_OK) → self.new ≡ fed self.old bytes.now }
        ensures refused { IsRefusal result → (result ≢ FDB_OVER)
            → IsToldWhy (IsRefusedFor self.old bytes.now) refused.new result }
        ensures untold { IsUntold (IsRefusal result) self.old.is_over
            refused.old refused.new result }
        ensures ends { (result ≢ FDB_OK) → self.new ≡ over self.old }
        ensures statuses { (result ≡ FDB_OK) ⊎ (result ≡ FDB_MEMORY) ⊎ IsRefusal result }
    {
        let Some(reader) = mem::replace(&mut self.reader, None) else {
            return FDB_OVER;
        };
        match reader.feed(bytes) {
            Ok(reader) => {
                self.story = Story::with_bytes(&self.story, &bytes);
                self.reader = Some(reader);
                FDB_OK
            }
            Err(error) => refuse(error, refused),
        }
    }

    /// Finds what there is, where the log ends here: the audit is then over.
    pub(crate) fn end(&mut self, alloc: Global, refused: &mut FdbRefused) -> u8
        ensures ended { HasEnded self.old self.new result }
        ensures verdict { IsVerdict self.new result }
        ensures refused { IsRefusal result → (result ≢ FDB_OVER)
            → IsToldWhy (λ error. reading_by self.old.asked self.old.bytes ≡ Err error)
            refused.new result }
        ensures untold { IsUntold (IsRefusal result) self.old.is_over
            refused.old refused.new result }
        ensures statuses { (result ≡ FDB_OK) ⊎ (result ≡ FDB_FAULT) ⊎ (result ≡ FDB_MEMORY)
            ⊎ IsRefusal result }
    {
        let Some(reader) = mem::replace(&mut self.reader, None) else {
            return FDB_OVER;
        };
        let named = match reader.finish() {
            Ok(named) => named,
            Err(error) => return refuse(error, refused),
        };
        match found_of(alloc, &named, &self.asked) {
            Ok(found) => {
                self.text = found.text;
                self.faults = found.faults;
                verdict_of(found.first)
            }
            Err(_) => FDB_MEMORY,
        }
    }
}

/// An audit in a box of its own.
fn opened(
    alloc: Global,
    options: FdbAuditOptions,
    key: &str,
    shown: &str,
) -> Result<Box<Audited>, AllocError>
    ensures { IfOk result
        (λ made. made.value ≡ new_audit (asked_by options key.now shown.now)) }
{
    let made = Audited::new(alloc, options, key, shown)?;
    boxed(alloc, made)
}

/// Opens an audit of a log of which nothing has come. `key` names the member that has the keys, and
/// `shown` those that are shown, parted by commas; either may be empty. Refused, it leaves the handle
/// none.
#[unsafe(no_mangle)]
pub extern "C" fn fdb_audit_new(
    alloc: Global,
    options: &FdbAuditOptions,
    key: &[u8],
    shown: &[u8],
    audit: &mut FdbAudit,
) -> u8
    requires { IsNone audit.old.audit }
    ensures ok { (result ≡ FDB_OK)
        → audit.new.audit ≡ Some (new_audit (asked_by options.now key.now shown.now)) }
    ensures refused { (result ≢ FDB_OK) → audit.new.audit ≡ None }
    ensures bad_member { (result ≡ FDB_BAD_MEMBER) ↔ ¬ (IsUtf8 key.now × IsUtf8 shown.now) }
    ensures statuses { (result ≡ FDB_OK) ⊎ (result ≡ FDB_BAD_MEMBER) ⊎ (result ≡ FDB_MEMORY) }
{
    let Some((key, shown)) = texts_of(key, shown) else {
        return FDB_BAD_MEMBER;
    };
    match opened(alloc, *options, key, shown) {
        Ok(made) => {
            audit.swap(Held::new(made)).gone();
            FDB_OK
        }
        Err(_) => FDB_MEMORY,
    }
}

/// Takes the next bytes of the log, cut anywhere. Where the log or memory is refused, the audit is
/// over.
#[unsafe(no_mangle)]
pub extern "C" fn fdb_audit_push(
    alloc: Global,
    audit: &mut FdbAudit,
    bytes: &[u8],
    refused: &mut FdbRefused,
) -> u8
    requires { IsSome audit.old.audit }
    ensures ok { (result ≡ FDB_OK) → IfSome audit.old.audit
        (λ before. audit.new.audit ≡ Some (fed before bytes.now)) }
    ensures refused { IsRefusal result → (result ≢ FDB_OVER) → IfSome audit.old.audit
        (λ before. IsToldWhy (IsRefusedFor before bytes.now) refused.new result) }
    ensures untold { IfSome audit.old.audit
        (λ before. IsUntold (IsRefusal result) before.is_over refused.old refused.new result) }
    ensures ends { (result ≢ FDB_OK) → IfSome audit.old.audit
        (λ before. audit.new.audit ≡ Some (over before)) }
    ensures statuses { (result ≡ FDB_OK) ⊎ (result ≡ FDB_MEMORY) ⊎ IsRefusal result }
    ensures held { IsSome audit.new.audit }
{
    let mut core = audit.swap(Held::none()).into_box(alloc).unwrap();
    let status = core.push(bytes, refused);
    audit.swap(Held::new(core)).gone();
    status
}

/// Audits the log, which ends here. The audit is then over; with `FDB_OK` and `FDB_FAULT` it has a
/// text and faults.
#[unsafe(no_mangle)]
pub extern "C" fn fdb_audit_end(alloc: Global, audit: &mut FdbAudit, refused: &mut FdbRefused) -> u8
    requires { IsSome audit.old.audit }
    ensures ended { IfSome audit.old.audit
        (λ before. IfSome audit.new.audit (λ after. HasEnded before after result)) }
    ensures verdict { IfSome audit.new.audit (λ it. IsVerdict it result) }
    ensures refused { IsRefusal result → (result ≢ FDB_OVER) → IfSome audit.old.audit
        (λ before. IsToldWhy (λ error. reading_by before.asked before.bytes ≡ Err error)
        refused.new result) }
    ensures untold { IfSome audit.old.audit
        (λ before. IsUntold (IsRefusal result) before.is_over refused.old refused.new result) }
    ensures statuses { (result ≡ FDB_OK) ⊎ (result ≡ FDB_FAULT) ⊎ (result ≡ FDB_MEMORY)
        ⊎ IsRefusal result }
    ensures held { IsSome audit.new.audit }
{
    let mut core = audit.swap(Held::none()).into_box(alloc).unwrap();
    let status = core.end(alloc, refused);
    audit.swap(Held::new(core)).gone();
    status
}

/// Writes the text of what was found to the start of `text`, and to `size` how long it is, also
/// where there is no room for it.
#[unsafe(no_mangle)]
pub extern "C" fn fdb_audit_text(
    alloc: Global,
    audit: &mut FdbAudit,
    text: &mut [u8],
    size: &mut u64,
) -> u8
    requires { IsSome audit.old.audit }
    ensures given { IfSome audit.old.audit
        (λ it. IsGiven it.text text.old text.new size.new result) }
    ensures kept { audit.new.audit ≡ audit.old.audit }
{
    let core = audit.swap(Held::none()).into_box(alloc).unwrap();
    let is_written = write_text(core.text(), text, size);
    audit.swap(Held::new(core)).gone();
    status_of_writing(is_written)
}

/// Writes the faults that were found to the start of `faults`, and to `size` how many there are,
/// also where there is no room for them.
#[unsafe(no_mangle)]
pub extern "C" fn fdb_audit_faults(
    alloc: Global,
    audit: &mut FdbAudit,
    faults: &mut [FdbFault],
    size: &mut u64,
) -> u8
    requires { IsSome audit.old.audit }
    ensures given { IfSome audit.old.audit
        (λ it. IsGiven it.faults faults.old faults.new size.new result) }
    ensures kept { audit.new.audit ≡ audit.old.audit }
{
    let core = audit.swap(Held::none()).into_box(alloc).unwrap();
    let is_written = write_faults(core.faults(), faults, size);
    audit.swap(Held::new(core)).gone();
    status_of_writing(is_written)
}

/// Frees an audit, if the handle has one. The handle is then none.
#[unsafe(no_mangle)]
pub extern "C" fn fdb_audit_free(alloc: Global, audit: &mut FdbAudit)
    ensures { audit.new.audit ≡ None }
{
    let _core = audit.swap(Held::none()).into_box(alloc);
}
