//! The watch of a log that grows, by its handle.

ghost use Rattle.std.specs.Prelude.{◌≡◌, ◌≢◌, ◌↔◌, ◌⊎◌, IfOk, IfSome, IsNone, IsSome, None, Some};
ghost use Rattle.std.specs.Prelude.{false, true};
ghost use Rattle.core.specs.Str.{IsUtf8};
ghost use Rattle.fdb_c.specs.Audit.{IsGiven, IsRefusal, IsUntold, asked_with};
ghost use Rattle.fdb_c.specs.Watch.{GoesOnOrEnds, HasCounted, HasTold, IsKeptGiven, IsKeptRefused};
ghost use Rattle.fdb_c.specs.Watch.{IsToldBesides, IsWatchEnded, IsWatchVerdict, new_watch};
ghost use Rattle.fdb_c.specs.Watch.{opts_in, restored, wanted_in, with_bytes};

use crate::audit::{FdbRefused, texts_of};
use crate::audit_listing::write_text;
use crate::handle::{FdbWatch, Held, boxed};
use crate::status::{
    FDB_BAD_MEMBER, FDB_FAULT, FDB_MEMORY, FDB_NOT_KEPT, FDB_OK, FDB_OVER, FDB_ROOM, FDB_UNJUDGED,
    status_of_writing,
};
use crate::watch_options::{FdbWatchCounted, FdbWatchOptions};
use crate::watched::{Watched, refuse_kept};
use fdb_audit::KeptRefused;
use std::alloc::{AllocError, Global};

/// A watch in a box of its own.
fn opened(
    alloc: Global,
    options: FdbWatchOptions,
    key: &str,
    shown: &str,
) -> Result<Box<Watched>, AllocError>
    ensures { IfOk result (λ made. made.value ≡ new_watch
        (asked_with (opts_in options) (wanted_in options) key.now shown.now) options.behind) }
{
    let made = Watched::new(alloc, options, key, shown)?;
    boxed(alloc, made)
}

/// Opens a watch of a log of which nothing has come. `key` names the member that has the keys, and
/// `shown` those that are shown, parted by commas; either may be empty. Refused, it leaves the handle
/// none.
#[unsafe(no_mangle)]
pub extern "C" fn fdb_watch_new(
    alloc: Global,
    options: &FdbWatchOptions,
    key: &[u8],
    shown: &[u8],
    watch: &mut FdbWatch,
) -> u8
    requires { IsNone watch.old.watch }
    ensures ok { (result ≡ FDB_OK) → watch.new.watch ≡ Some (new_watch
        (asked_with (opts_in options.now) (wanted_in options.now) key.now shown.now)
        options.now.behind) }
    ensures refused { (result ≢ FDB_OK) → watch.new.watch ≡ None }
    ensures bad_member { (result ≡ FDB_BAD_MEMBER) ↔ ¬ (IsUtf8 key.now × IsUtf8 shown.now) }
    ensures statuses { (result ≡ FDB_OK) ⊎ (result ≡ FDB_BAD_MEMBER) ⊎ (result ≡ FDB_MEMORY) }
{
    let Some((key, shown)) = texts_of(key, shown) else {
        return FDB_BAD_MEMBER;
    };
    match opened(alloc, *options, key, shown) {
        Ok(made) => {
            watch.swap(Held::new(made)).gone();
            FDB_OK
        }
        Err(_) => FDB_MEMORY,
    }
}

/// A watch in a box of its own that goes on by a text of kept lines, or why that is refused.
fn reopened(
    alloc: Global,
    options: FdbWatchOptions,
    key: &str,
    shown: &str,
    text: &[u8],
) -> Result<Result<Box<Watched>, KeptRefused>, AllocError>
    ensures made { IfOk result (λ it. IfOk it (λ made. made.value ≡ restored
        (asked_with (opts_in options) (wanted_in options) key.now shown.now)
        options.behind text.now)) }
    ensures told { IfOk result (λ it. IfOk it (λ made. HasTold made.value)) }
{
    match Watched::restore(alloc, options, key, shown, text)? {
        Ok(made) => {
            let made = boxed(alloc, made)?;
            Ok(Ok(made))
        }
        Err(refused) => Ok(Err(refused)),
    }
}

/// Opens a watch, as `fdb_watch_new` does, that goes on by a text of lines that were kept by the same
/// arguments. What is wrong with the text is told in `refused`.
#[unsafe(no_mangle)]
pub extern "C" fn fdb_watch_restore(
    alloc: Global,
    options: &FdbWatchOptions,
    key: &[u8],
    shown: &[u8],
    kept: &[u8],
    watch: &mut FdbWatch,
    refused: &mut FdbRefused,
) -> u8
    requires { IsNone watch.old.watch }
    ensures ok { (result ≡ FDB_OK) → watch.new.watch ≡ Some (restored
        (asked_with (opts_in options.now) (wanted_in options.now) key.now shown.now)
        options.now.behind kept.now) }
    ensures told { (result ≡ FDB_OK) → IfSome watch.new.watch HasTold }
    ensures refused { (result ≢ FDB_OK) → watch.new.watch ≡ None }
    ensures refusal { IsKeptRefused key.now shown.now refused.old refused.new result }
    ensures statuses { (result ≡ FDB_OK) ⊎ (result ≡ FDB_MEMORY) ⊎ IsRefusal result }
{
    let Some((key, shown)) = texts_of(key, shown) else {
        *refused = FdbRefused { line: 0, member: 0 };
        return FDB_BAD_MEMBER;
    };
    match reopened(alloc, *options, key, shown, kept) {
        Ok(Ok(made)) => {
            watch.swap(Held::new(made)).gone();
            FDB_OK
        }
        Ok(Err(it)) => refuse_kept(it, refused),
        Err(_) => FDB_MEMORY,
    }
}

/// Takes the next bytes of the log, cut anywhere. Where memory is refused, the watch is over.
#[unsafe(no_mangle)]
pub extern "C" fn fdb_watch_push(alloc: Global, watch: &mut FdbWatch, bytes: &[u8]) -> u8
    requires { IsSome watch.old.watch }
    ensures ok { (result ≡ FDB_OK) → IfSome watch.old.watch
        (λ before. watch.new.watch ≡ Some (with_bytes before bytes.now)) }
    ensures told { (result ≡ FDB_OK) → IfSome watch.new.watch HasTold }
    ensures goes_on { IfSome watch.old.watch
        (λ before. IfSome watch.new.watch (λ after. GoesOnOrEnds before after result)) }
    ensures held { IsSome watch.new.watch }
{
    let mut core = watch.swap(Held::none()).into_box(alloc).unwrap();
    let status = core.push(bytes);
    watch.swap(Held::new(core)).gone();
    status
}

/// Says what has become certain since it was last said. Where memory is refused, the watch is over.
#[unsafe(no_mangle)]
pub extern "C" fn fdb_watch_tell(alloc: Global, watch: &mut FdbWatch, is_idle: bool) -> u8
    requires { IsSome watch.old.watch }
    ensures ok { (result ≡ FDB_OK) → IfSome watch.old.watch (λ before. IfSome watch.new.watch
        (λ after. IsToldBesides before after × (after.is_over ≡ false))) }
    ensures told { (result ≡ FDB_OK) → IfSome watch.new.watch HasTold }
    ensures goes_on { IfSome watch.old.watch
        (λ before. IfSome watch.new.watch (λ after. GoesOnOrEnds before after result)) }
    ensures held { IsSome watch.new.watch }
{
    let mut core = watch.swap(Held::none()).into_box(alloc).unwrap();
    let status = core.tell(is_idle);
    watch.swap(Held::new(core)).gone();
    status
}

/// Says what is left, where the log ends here: the watch is then over. A refused line, or the last
/// that came early, is told in `refused`.
#[unsafe(no_mangle)]
pub extern "C" fn fdb_watch_end(alloc: Global, watch: &mut FdbWatch, refused: &mut FdbRefused) -> u8
    requires { IsSome watch.old.watch }
    ensures ended { IfSome watch.old.watch
        (λ before. IfSome watch.new.watch (λ after. IsWatchEnded before after result)) }
    ensures verdict { IfSome watch.new.watch (λ it. IsWatchVerdict it refused.new result) }
    ensures untold { IfSome watch.old.watch
        (λ before. IsUntold (IsRefusal result ⊎ (result ≡ FDB_UNJUDGED)) before.is_over
        refused.old refused.new result) }
    ensures statuses { (result ≡ FDB_OK) ⊎ (result ≡ FDB_FAULT) ⊎ (result ≡ FDB_MEMORY)
        ⊎ (result ≡ FDB_UNJUDGED) ⊎ IsRefusal result }
    ensures held { IsSome watch.new.watch }
{
    let mut core = watch.swap(Held::none()).into_box(alloc).unwrap();
    let status = core.end(refused);
    watch.swap(Held::new(core)).gone();
    status
}

/// Writes what was said last to the start of `text`, and to `size` how long it is, also where there
/// is no room for it.
#[unsafe(no_mangle)]
pub extern "C" fn fdb_watch_text(
    alloc: Global,
    watch: &mut FdbWatch,
    text: &mut [u8],
    size: &mut u64,
) -> u8
    requires { IsSome watch.old.watch }
    ensures given { IfSome watch.old.watch
        (λ it. IsGiven it.text text.old text.new size.new result) }
    ensures kept { watch.new.watch ≡ watch.old.watch }
{
    let core = watch.swap(Held::none()).into_box(alloc).unwrap();
    let is_written = write_text(core.text(), text, size);
    watch.swap(Held::new(core)).gone();
    status_of_writing(is_written)
}

/// Writes the warnings of what was said last, as `fdb_watch_text` the text.
#[unsafe(no_mangle)]
pub extern "C" fn fdb_watch_warnings(
    alloc: Global,
    watch: &mut FdbWatch,
    text: &mut [u8],
    size: &mut u64,
) -> u8
    requires { IsSome watch.old.watch }
    ensures given { IfSome watch.old.watch
        (λ it. IsGiven it.warnings text.old text.new size.new result) }
    ensures kept { watch.new.watch ≡ watch.old.watch }
{
    let core = watch.swap(Held::none()).into_box(alloc).unwrap();
    let is_written = write_text(core.warnings(), text, size);
    watch.swap(Held::new(core)).gone();
    status_of_writing(is_written)
}

/// Writes the text of the lines that are kept, by which another watch goes on, to the start of `text`,
/// and to `size` how long it is, also where there is no room for it. It is then held, until it is
/// written or more comes or is told.
#[unsafe(no_mangle)]
pub extern "C" fn fdb_watch_keep(
    alloc: Global,
    watch: &mut FdbWatch,
    text: &mut [u8],
    size: &mut u64,
) -> u8
    requires { IsSome watch.old.watch }
    ensures given { IfSome watch.old.watch
        (λ it. IsKeptGiven it text.old text.new size.old size.new result) }
    ensures kept { watch.new.watch ≡ watch.old.watch }
{
    let mut core = watch.swap(Held::none()).into_box(alloc).unwrap();
    let status = core.keep(text, size);
    watch.swap(Held::new(core)).gone();
    status
}

/// Tells how much has come, and how far it was told.
#[unsafe(no_mangle)]
pub extern "C" fn fdb_watch_counts(
    alloc: Global,
    watch: &mut FdbWatch,
    counts: &mut FdbWatchCounted,
) -> u8
    requires { IsSome watch.old.watch }
    ensures ok { (result ≡ FDB_OK) → IfSome watch.old.watch (λ it. HasCounted it counts.new) }
    ensures over { (result ≡ FDB_OVER)
        ↔ IfSome watch.old.watch (λ before. before.is_over ≡ true) }
    ensures untold { (result ≢ FDB_OK) → counts.new ≡ counts.old }
    ensures statuses { (result ≡ FDB_OK) ⊎ (result ≡ FDB_OVER) }
    ensures kept { watch.new.watch ≡ watch.old.watch }
{
    let core = watch.swap(Held::none()).into_box(alloc).unwrap();
    let counted = core.counts();
    watch.swap(Held::new(core)).gone();
    match counted {
        Some(it) => {
            *counts = it;
            FDB_OK
        }
        None => FDB_OVER,
    }
}

/// Frees a watch, if the handle has one. The handle is then none.
#[unsafe(no_mangle)]
pub extern "C" fn fdb_watch_free(alloc: Global, watch: &mut FdbWatch)
    ensures { watch.new.watch ≡ None }
{
    let _core = watch.swap(Held::none()).into_box(alloc);
}
