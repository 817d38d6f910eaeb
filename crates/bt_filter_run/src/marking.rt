//! Cells that are changed one by one.
ghost use Rattle.std.specs.Prelude.{◌≡◌, IfOk, map};
ghost use Rattle.bt_filter.specs.Meaning.{with_label, without_value};

use bt_base::{Blob, OutOfMemory, Plain};
use bt_types::{CellList, Label};
use std::alloc::Global;

/// The cells, each without its value.
pub(crate) fn stripped(alloc: Global, cells: CellList) -> CellList
    ensures { result ≡ map without_value cells }
{
    let mut cells = cells.into_vec();
    for cell in cells.iter_mut() {
        cell.value = Blob::from_vec(Vec::new(alloc));
    }
    CellList::from_vec(cells)
}

/// The cells, each with the label.
pub(crate) fn labelled(
    alloc: Global,
    cells: CellList,
    label: &Label,
) -> Result<CellList, OutOfMemory>
    ensures { IfOk result (λ marked. marked ≡ map (with_label label.now) cells) }
{
    let mut cells = cells.into_vec();
    for cell in cells.iter_mut() {
        cell.label = Some(label.copy(alloc)?);
    }
    Ok(CellList::from_vec(cells))
}
