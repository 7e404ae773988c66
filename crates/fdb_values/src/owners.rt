//! Of which key each value is.

ghost use Rattle.std.specs.Prelude.{◌≡◌, ◌<◌, ◌↔◌, ◌==◌, ◌&&◌, ◌||◌, ℕ, cond, IfOk, IfSome, None};
ghost use Rattle.std.specs.Prelude.{length, not, true, Option, Some};
ghost use Rattle.std.specs.BTreeMap.{get};
ghost use Rattle.std.specs.Ordering.{nat_cmp};
ghost use Rattle.fdb_values.specs.Owners.{is_shared, owns};
ghost use Rattle.fdb_values.specs.ValuesByKey.{HaveOwnValues};

use fdb_lines::Line;
use std::alloc::{AllocError, Global};
use std::collections::BTreeMap;

/// The first line whose value, other than 0, a line of another key above it has too, if there is
/// one. `n log n` in how many lines there are.
pub fn first_shared(
    alloc: Global,
    lines: &[Line],
    keys: &[Option<u32>],
) -> Result<Option<usize>, AllocError>
    requires { length keys.now ≡ length lines.now }
    ensures own { IfOk result (λ first. (first ≡ None) ↔ HaveOwnValues lines.now keys.now) }
    ensures place { IfOk result (λ first. IfSome first
        (λ k. (k < length lines.now) × (is_shared lines.now keys.now k ≡ true))) }
{
    let mut owners = BTreeMap::new(alloc);
    for (place, line) in lines.iter().enumerate() {
        let key = &keys[place];
        if !own(&mut owners, line.call.version(), *key)? {
            return Ok(Some(place));
        }
    }
    Ok(None)
}

/// Whether a value is of this key, where it is of one; else it is of this one from now on.
fn own(
    owners: &mut BTreeMap<u64, Option<u32>>,
    value: u64,
    key: Option<u32>,
) -> Result<bool, AllocError>
    ensures answer { IfOk result
        (λ answer. answer ≡ (value == 0 || owns (get nat_cmp owners.old value) key)) }
    ensures added { IfOk result (λ answer. answer ≡ true → (q : ℕ) → get nat_cmp owners.new q
        ≡ cond (not (value == 0) && value == q) (Some key) (get nat_cmp owners.old q)) }
{
    if value == 0 {
        return Ok(true);
    }
    match owners.get(&value) {
        Some(owner) => Ok(*owner == key),
        None => {
            owners.insert(value, key)?;
            Ok(true)
        }
    }
}
