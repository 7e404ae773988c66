//! Whether lines are explained by value.

ghost use Rattle.std.specs.Prelude.{◌≡◌, ◌↔◌, IfErr, IfOk, IfSome, true};
ghost use Rattle.std.specs.Option.{option_copied};
ghost use Rattle.fdb_lines.specs.declared.log.LineError.TheVariants.{Memory};
ghost use Rattle.fdb_lines.specs.Log.{lines_of};
ghost use Rattle.fdb_values.specs.ByValue.{AreByValue};
ghost use Rattle.fdb_values.specs.ValuesByKey.{AreExplainedByValueIn, HaveOwnValues};

use crate::laws::ranked_logs_are_explained_exactly_where_lines_are_by_value;
use crate::ranks::ranked_log;
use fdb_lines::{AuditOpts, LineError, Log, first_finding};
use std::alloc::Global;

/// Whether the lines of a log are explained by value, all together, or, if keys are given, those of
/// each key by themselves. An error only where memory is refused. `n log n` in how many lines there
/// are, whatever the values and the keys.
pub fn is_explained_by_value(
    alloc: Global,
    log: &Log,
    keys: Option<&[Option<u32>]>,
    margin: u64,
) -> Result<bool, LineError>
    requires timed { (lines_of log.now).timed ≡ true }
    requires by_value { AreByValue (lines_of log.now).lines }
    requires own { IfSome (option_copied keys) (HaveOwnValues (lines_of log.now).lines) }
    ensures answer { IfOk result (λ answer. (answer ≡ true) ↔ AreExplainedByValueIn margin
        (lines_of log.now).lines (option_copied keys.entry)) }
    ensures error { IfErr result (λ error. error ≡ Memory) }
{
    ranked_logs_are_explained_exactly_where_lines_are_by_value();
    let ranked = ranked_log(alloc, log, margin)?;
    let opts = AuditOpts {
        complete: Some(0),
        margin,
    };
    match first_finding(alloc, &ranked, keys, &opts) {
        Ok(first) => Ok(first.is_none()),
        Err(_) => Err(LineError::Memory),
    }
}
