//! Rows that are filtered.
ghost use Rattle.std.specs.Prelude.{◌≡◌, ◌≤◌, IfErr, IfOk, OnOk};
ghost use Rattle.bt_types.specs.Cells.{AreInOrder, AreShort};
ghost use Rattle.bt_types.specs.Sources.{IsCaused};
ghost use Rattle.bt_filter.specs.Meaning.{final_cells};

use crate::Node;
use bt_types::{CellList, Reading, RowKey, Rows, SourceFault};
use std::alloc::Global;

/// What the filter leaves of the row at hand, which has that key: its cells that were not given yet,
/// and that pass. Other errors than those of the rows come only for want of memory.
pub fn filter_row<X: Reading, R: Rows<X>>(
    alloc: Global,
    node: &mut Node,
    key: &RowKey,
    rows: &mut R,
    x: &mut X,
) -> Result<CellList, SourceFault>
    ensures cells { X.tells x.old → IfOk result (λ cells. cells ≡ final_cells node.old key.now (R.left rows.old x.old).cells) }
    ensures rows { X.tells x.old → OnOk result ((R.left rows.new x.new).rows ≡ (R.left rows.old x.old).rows) }
    ensures node { node.new ≡ node.old }
    ensures order { IfOk result AreInOrder }
    ensures short { IfOk result AreShort }
    ensures key { OnOk result (R.key_at_hand rows.new ≡ R.key_at_hand rows.old) }
    ensures same { X.same x.old x.new }
    ensures fault { IfErr result (IsCaused (X.tells x.new) (X.faults x.old) (X.faults x.new) (X.failing x.new) (X.broken x.new)) }
    ensures most { R.most rows.new ≤ R.most rows.old }
{
    let cells = cells_left(alloc, rows, x)?;
    let cells = node.cells_of(alloc, key, cells)?;
    Ok(cells)
}

// The cells left of the row at hand.
fn cells_left<X: Reading, R: Rows<X>>(
    alloc: Global,
    rows: &mut R,
    x: &mut X,
) -> Result<CellList, SourceFault>
    ensures cells { X.tells x.old → IfOk result (λ cells. cells ≡ (R.left rows.old x.old).cells) }
    ensures order { IfOk result AreInOrder }
    ensures short { IfOk result AreShort }
    ensures rows { X.tells x.old → OnOk result ((R.left rows.new x.new).rows ≡ (R.left rows.old x.old).rows) }
    ensures key { OnOk result (R.key_at_hand rows.new ≡ R.key_at_hand rows.old) }
    ensures same { X.same x.old x.new }
    ensures fault { IfErr result (IsCaused (X.tells x.new) (X.faults x.old) (X.faults x.new) (X.failing x.new) (X.broken x.new)) }
    ensures most { R.most rows.new ≤ R.most rows.old }
{
    let mut cells = CellList::new(alloc);
    while let Some(cell) = rows.next_cell(x)? {
        cells.push(cell)?;
    }
    Ok(cells)
}
