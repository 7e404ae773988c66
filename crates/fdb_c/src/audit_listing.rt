//! The audit of a log that an array of calls stands for, as a list of faults or as a text.

ghost use Rattle.std.specs.Prelude.{◌≡◌, ◌⊎◌, ◌≤◌, ◌++◌, List, None, IfOk, OnErr, false, true};
ghost use Rattle.std.specs.Prelude.{Some, [], drop, length, map, string_bytes};
ghost use Rattle.fdb_lines.specs.Audit.{AreExplained, case_of};
ghost use Rattle.fdb_lines.specs.Log.{lines_of};
ghost use Rattle.fdb_lines.specs.declared.fault.Found.{Found};
ghost use Rattle.fdb_log_reader.specs.Reading.{reading_in};
ghost use Rattle.fdb_audit.specs.Judged.{IsText, IsTextOfReading};
ghost use Rattle.fdb_c.specs.Audit.{AreFaults, HasNoRoom, IsWritten, log_in, opts_of, told};
ghost use Rattle.fdb_c.specs.Audit.{wanted_of};
ghost use Rattle.fdb_c.specs.Listed.{IsListed, IsRefusedAs, IsSaid};

use crate::audit::{FdbAuditOptions, FdbRefused, opts_of, refuse, wanted_of};
use crate::audit_calls::{FdbCall, log_of};
use crate::audit_faults::{FdbFault, told};
use crate::status::{FDB_FAULT, FDB_MEMORY, FDB_OK, FDB_ROOM};
use fdb_audit::{Judgement, judge, judge_text};
use fdb_lines::{Finding, Log, findings};
use fdb_log_reader::read_log;
use std::alloc::{AllocError, Global};

/// Writes faults to the start of a slice.
fn write_all(faults: &mut [FdbFault], found: &[Finding])
    requires { length found.now ≤ length faults.old }
    ensures { faults.new ≡ map told found.now ++ drop (length found.now) faults.old }
{
    for (place, finding) in found.iter().enumerate() {
        faults[place] = told(*finding);
    }
}

/// Writes faults to the start of a slice, and how many there are, unless there is no room for them.
pub(crate) fn write_faults(found: &[Finding], faults: &mut [FdbFault], size: &mut u64) -> bool
    ensures fits { (result ≡ true)
        → IsWritten (map told found.now) faults.old faults.new size.new }
    ensures no_room { (result ≡ false)
        → HasNoRoom (map told found.now) faults.old faults.new size.new }
{
    *size = found.len() as u64;
    if faults.len() < found.len() {
        return false;
    }
    write_all(faults, found);
    true
}

/// Writes the faults of a log, and how many there are. The status is the verdict, or that there is
/// no room for them. An error only where memory is refused.
fn list(
    alloc: Global,
    log: &Log,
    options: FdbAuditOptions,
    faults: &mut [FdbFault],
    size: &mut u64,
) -> Result<u8, AllocError>
    ensures ok { IfOk result (λ status. (status ≡ FDB_OK)
        → AreExplained (case_of (lines_of log.now) (opts_of options))
        × (faults.new ≡ faults.old) × (size.new ≡ 0)) }
    ensures fault { IfOk result (λ status. (status ≡ FDB_FAULT)
        → (¬ (AreExplained (case_of (lines_of log.now) (opts_of options))))
        × (written : List FdbFault) × AreFaults (lines_of log.now) None (opts_of options) written
        × IsWritten written faults.old faults.new size.new) }
    ensures room { IfOk result (λ status. (status ≡ FDB_ROOM)
        → (¬ (AreExplained (case_of (lines_of log.now) (opts_of options))))
        × (written : List FdbFault) × AreFaults (lines_of log.now) None (opts_of options) written
        × HasNoRoom written faults.old faults.new size.new) }
    ensures statuses { IfOk result
        (λ status. (status ≡ FDB_OK) ⊎ (status ≡ FDB_FAULT) ⊎ (status ≡ FDB_ROOM)) }
    ensures memory { OnErr result ((faults.new ≡ faults.old) × (size.new ≡ size.old)) }
{
    let found = findings(alloc, log, None, &opts_of(options))?;
    *size = found.len() as u64;
    if found.is_empty() {
        return Ok(FDB_OK);
    }
    if faults.len() < found.len() {
        return Ok(FDB_ROOM);
    }
    write_all(faults, found.as_slice());
    Ok(FDB_FAULT)
}

/// Audits the log that a text of JSON Lines stands for. All its faults go to the start of `faults`,
/// and to `size` how many there are, also where there is no room for them. A refused log is told in
/// `refused`.
#[unsafe(no_mangle)]
pub extern "C" fn fdb_audit_log_faults(
    alloc: Global,
    log: &[u8],
    options: &FdbAuditOptions,
    faults: &mut [FdbFault],
    size: &mut u64,
    refused: &mut FdbRefused,
) -> u8
    ensures verdict { IsListed (reading_in log.now) (λ reading. reading.log) (opts_of options.now)
        faults.old faults.new size.new result }
    ensures refusal { IsRefusedAs (reading_in log.now) faults.old faults.new size.old size.new
        refused.old refused.new result }
{
    match read_log(alloc, log) {
        Ok(named) => match list(alloc, &named.log, *options, faults, size) {
            Ok(status) => status,
            Err(_) => FDB_MEMORY,
        },
        Err(error) => refuse(error, refused),
    }
}

/// Audits the log that calls stand for, each a line, as `fdb_audit_log_faults` does.
#[unsafe(no_mangle)]
pub extern "C" fn fdb_audit_calls_faults(
    alloc: Global,
    calls: &[FdbCall],
    options: &FdbAuditOptions,
    faults: &mut [FdbFault],
    size: &mut u64,
    refused: &mut FdbRefused,
) -> u8
    ensures verdict { IsListed (log_in calls.now) (λ log. log) (opts_of options.now)
        faults.old faults.new size.new result }
    ensures refusal { IsRefusedAs (log_in calls.now) faults.old faults.new size.old size.new
        refused.old refused.new result }
{
    match log_of(alloc, calls) {
        Ok(log) => match list(alloc, &log, *options, faults, size) {
            Ok(status) => status,
            Err(_) => FDB_MEMORY,
        },
        Err(error) => refuse(error, refused),
    }
}

/// Writes a text to the start of a slice, and its size, unless there is no room for it.
pub(crate) fn write_text(written: &str, text: &mut [u8], size: &mut u64) -> bool
    ensures fits { (result ≡ true) → IsWritten written.now text.old text.new size.new }
    ensures no_room { (result ≡ false) → HasNoRoom written.now text.old text.new size.new }
{
    let bytes = written.as_bytes();
    *size = bytes.len() as u64;
    if text.len() < bytes.len() {
        return false;
    }
    text[..bytes.len()].copy_from_slice(bytes);
    true
}

/// Writes what an audit found, unless there is no room for it: the status is the verdict then.
fn tell(found: &Judgement, text: &mut [u8], size: &mut u64) -> u8
    ensures ok { (result ≡ FDB_OK) → (found.now.fault ≡ None)
        × IsWritten (string_bytes found.now.text) text.old text.new size.new }
    ensures fault { (result ≡ FDB_FAULT) → (first : Found) × (found.now.fault ≡ Some first)
        × IsWritten (string_bytes found.now.text) text.old text.new size.new }
    ensures room { (result ≡ FDB_ROOM)
        → HasNoRoom (string_bytes found.now.text) text.old text.new size.new }
    ensures statuses { (result ≡ FDB_OK) ⊎ (result ≡ FDB_FAULT) ⊎ (result ≡ FDB_ROOM) }
{
    if !write_text(found.text.as_str(), text, size) {
        return FDB_ROOM;
    }
    match found.fault {
        Some(_) => FDB_FAULT,
        None => FDB_OK,
    }
}

/// Audits the log that a text of JSON Lines stands for. What is found goes to the start of `text`,
/// and to `size` how long that is, also where there is no room for it. A refused log is told in
/// `refused`.
#[unsafe(no_mangle)]
pub extern "C" fn fdb_audit_log_text(
    alloc: Global,
    log: &[u8],
    options: &FdbAuditOptions,
    text: &mut [u8],
    size: &mut u64,
    refused: &mut FdbRefused,
) -> u8
    ensures verdict { IsSaid (reading_in log.now) (λ reading. IsTextOfReading reading
        (opts_of options.now) (wanted_of options.now)) text.old text.new size.new result }
    ensures refusal { IsRefusedAs (reading_in log.now) text.old text.new size.old size.new
        refused.old refused.new result }
{
    match judge_text(alloc, log, &opts_of(*options), wanted_of(*options)) {
        Ok(found) => tell(&found, text, size),
        Err(error) => refuse(error, refused),
    }
}

/// Audits the log that calls stand for, each a line, as `fdb_audit_log_text` does. Clients are
/// named by their numbers.
#[unsafe(no_mangle)]
pub extern "C" fn fdb_audit_calls_text(
    alloc: Global,
    calls: &[FdbCall],
    options: &FdbAuditOptions,
    text: &mut [u8],
    size: &mut u64,
    refused: &mut FdbRefused,
) -> u8
    ensures verdict { IsSaid (log_in calls.now) (λ log. IsText log [] (opts_of options.now)
        (wanted_of options.now)) text.old text.new size.new result }
    ensures refusal { IsRefusedAs (log_in calls.now) text.old text.new size.old size.new
        refused.old refused.new result }
{
    match log_of(alloc, calls) {
        Ok(log) => match judge(alloc, &log, &[], &opts_of(*options), wanted_of(*options)) {
            Ok(found) => tell(&found, text, size),
            Err(_) => FDB_MEMORY,
        },
        Err(error) => refuse(error, refused),
    }
}
