//! Laws of the definitions. The functions do nothing: each stands for its contract.

ghost use Rattle.std.specs.Prelude.{◌↔◌, ◌<◌, ◌≡◌, ◌≢◌, ◌⊎◌, ℕ, List, Option, IfSome, length, true};
ghost use Rattle.fdb_lines.specs.declared.fault.Fault.TheVariants.{NotAbove, Order, Wrong};
ghost use Rattle.fdb_lines.specs.declared.line.Line.{Line};
ghost use Rattle.fdb_lines.specs.Faults.{stands, IsFaultless};
ghost use Rattle.fdb_lines.specs.Judged.{AreExplainedIn};
ghost use Rattle.fdb_lines.specs.Lines.{Commit, Lines};
ghost use Rattle.fdb_values.specs.ByValue.{ranked, AreByValue, AreExplainedByValue};
ghost use Rattle.fdb_values.specs.ByValue.{call_at, comes_first, start_value, value_at};
ghost use Rattle.fdb_values.specs.ByValue.{IsOrderOfValues, SomeComesFirst};
ghost use Rattle.fdb_values.specs.ValuesByKey.{opts_by_rank, AreExplainedByValueIn, HaveOwnValues};
ghost use Rattle.fdb_values.specs.ValuesByKey.{IsRankedLog};
ghost use Rattle.fdb_values.specs.Zones.{rank_by_zone};

use fdb_lines::laws::no_fault_exactly_where_explained;

/// Where each value is committed once, and values are ordered by when their calls were, no fault
/// stands at the lines with ranks for versions exactly where the lines are explained by value.
pub fn no_fault_by_rank_exactly_where_explained_by_value()
    ensures { (margin : ℕ) (lines : List Line) (rank : ℕ → ℕ) → AreByValue lines
        → IsOrderOfValues margin lines rank
        → IsFaultless (ranked margin lines rank) ↔ AreExplainedByValue margin lines }
{}

/// The order of values by zones is an order of values, whatever the lines are.
pub fn zones_order_values()
    ensures { (margin : ℕ) (lines : List Line)
        → IsOrderOfValues margin lines (rank_by_zone margin lines) }
{}

/// So no fault stands at lines by zones exactly where they are explained by value.
pub fn no_fault_by_zones_exactly_where_explained_by_value()
    ensures { (margin : ℕ) (lines : List Line) → AreByValue lines
        → IsFaultless (ranked margin lines (rank_by_zone margin lines))
        ↔ AreExplainedByValue margin lines }
{}

/// A log of ranked lines, audited as one of all calls that begins with version 0, is explained exactly
/// where the lines are explained by value: all together, or, where each key has its own values, those
/// of each key by themselves.
pub fn ranked_logs_are_explained_exactly_where_lines_are_by_value()
    ensures { (margin : ℕ) (lines : List Line) (keys : Option (List (Option ℕ))) (log : Lines)
        → AreByValue lines → IfSome keys (HaveOwnValues lines) → IsRankedLog margin lines log
        → AreExplainedIn log keys (opts_by_rank margin) ↔ AreExplainedByValueIn margin lines keys }
{
    no_fault_exactly_where_explained();
}

/// What a fault by rank shows of the values, in whose order it is told. A stale read (`Order`) came
/// after a call of another value of which a call came after one of its own value, or it is of the value
/// with which all begins. So it is of a commit that is not above (`NotAbove`), or a call of its own
/// value came before it. What is read and is not there (`Wrong`) nobody committed, or its commit is not
/// above.
pub fn what_a_fault_by_rank_shows()
    ensures order { (margin : ℕ) (lines : List Line) (rank : ℕ → ℕ) (k : ℕ) → AreByValue lines
        → IsOrderOfValues margin lines rank → k < length lines
        → stands (ranked margin lines rank) Order k ≡ true
        → (j : ℕ) × (j < length lines) × (comes_first margin lines j k ≡ true)
        × (value_at lines j ≢ value_at lines k) × ((value_at lines k ≡ start_value)
        ⊎ SomeComesFirst margin lines (value_at lines k) (value_at lines j)) }
    ensures not_above { (margin : ℕ) (lines : List Line) (rank : ℕ → ℕ) (k : ℕ) → AreByValue lines
        → IsOrderOfValues margin lines rank → k < length lines
        → stands (ranked margin lines rank) NotAbove k ≡ true
        → (j : ℕ) × (j < length lines) × (comes_first margin lines j k ≡ true)
        × ((value_at lines j ≡ value_at lines k)
        ⊎ SomeComesFirst margin lines (value_at lines k) (value_at lines j)) }
    ensures wrong { (margin : ℕ) (lines : List Line) (rank : ℕ → ℕ) (k : ℕ) → AreByValue lines
        → IsOrderOfValues margin lines rank → k < length lines
        → stands (ranked margin lines rank) Wrong k ≡ true
        → ((i : ℕ) → i < length lines → call_at lines i ≡ Commit
        → value_at lines i ≢ value_at lines k)
        ⊎ ((i : ℕ) × (i < length lines) × (call_at lines i ≡ Commit)
        × (value_at lines i ≡ value_at lines k)
        × (stands (ranked margin lines rank) NotAbove i ≡ true)) }
{}
