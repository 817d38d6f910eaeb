//! Whether a row meets a condition.
ghost use Rattle.std.specs.Prelude.{◌≡◌, ◌≤◌, IfErr, IfOk};
ghost use Rattle.bt_types.specs.Sources.{IsCaused};
ghost use Rattle.bt_cond.specs.Conditions.{is_met};

use bt_filter_run::{Node, filter_row};
use bt_types::{Reading, RowKey, Rows, SourceFault};
use std::alloc::Global;

/// Whether a filter leaves cells of the row of that key; without a filter, whether the row has a cell
/// (`google.bigtable.v2.CheckAndMutateRowRequest.predicate_filter`). `rows` is over that one row, and
/// nothing was pulled from it; a row that is not there has no cells. Other errors than those of the rows
/// come only for want of memory.
pub fn choose<X: Reading, R: Rows<X>>(
    alloc: Global,
    predicate: Option<Node>,
    key: &RowKey,
    rows: &mut R,
    x: &mut X,
) -> Result<bool, SourceFault>
    ensures met { X.tells x.old → IfOk result (λ met. met ≡ is_met predicate key.now (R.left rows.old x.old).rows) }
    ensures same { X.same x.old x.new }
    ensures fault { IfErr result (IsCaused (X.tells x.new) (X.faults x.old) (X.faults x.new) (X.failing x.new) (X.broken x.new)) }
    ensures most { R.most rows.new ≤ R.most rows.old }
{
    if rows.next_row(x)?.is_none() {
        return Ok(false);
    }
    match predicate {
        Some(mut node) => {
            let cells = filter_row(alloc, &mut node, key, rows, x)?;
            Ok(!cells.is_empty())
        }
        None => {
            let cell = rows.next_cell(x)?;
            Ok(cell.is_some())
        }
    }
}
