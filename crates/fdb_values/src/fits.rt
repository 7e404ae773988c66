//! Which lines can be judged by value.

ghost use Rattle.std.specs.Prelude.{◌≡◌, ◌<◌, ◌↔◌, ◌==◌, ◌&&◌, ◌||◌, ℕ, IfOk, IfSome, None};
ghost use Rattle.std.specs.Prelude.{false, length, true};
ghost use Rattle.std.specs.BTreeSet.{contains};
ghost use Rattle.std.specs.Ordering.{nat_cmp};
ghost use Rattle.fdb_lines.specs.Lines.{is_commit, kind_of, version_of};
ghost use Rattle.fdb_values.specs.ByValue.{AreByValue};
ghost use Rattle.fdb_values.specs.Fits.{fits, fits_with};

use fdb_lines::{Line, Operation};
use std::alloc::{AllocError, Global};
use std::collections::BTreeSet;

/// The first line that cannot be judged by value with those above it, if there is one: it is neither
/// a read nor a commit, or it commits a value that a line above commits, or 0, with which all
/// begins. `n log n` in how many lines there are.
pub fn first_misfit(alloc: Global, lines: &[Line]) -> Result<Option<usize>, AllocError>
    ensures by_value { IfOk result (λ first. (first ≡ None) ↔ AreByValue lines.now) }
    ensures place { IfOk result (λ first. IfSome first
        (λ k. (k < length lines.now) × (fits lines.now k ≡ false))) }
{
    let mut committed = BTreeSet::new(alloc);
    for (place, line) in lines.iter().enumerate() {
        if !take(&mut committed, line.call)? {
            return Ok(Some(place));
        }
    }
    Ok(None)
}

/// Whether a call fits those that committed these values; its own is added.
fn take(committed: &mut BTreeSet<u64>, call: Operation) -> Result<bool, AllocError>
    ensures answer { IfOk result (λ answer. answer
        ≡ fits_with (contains nat_cmp committed.old) (kind_of call) (version_of call)) }
    ensures added { IfOk result (λ answer. answer ≡ true → (q : ℕ)
        → contains nat_cmp committed.new q ≡ (is_commit (kind_of call) && version_of call == q
        || contains nat_cmp committed.old q)) }
{
    match call {
        Operation::Read(_) => Ok(true),
        Operation::Commit(value) if value != 0 => Ok(committed.insert(value)?),
        _ => Ok(false),
    }
}
