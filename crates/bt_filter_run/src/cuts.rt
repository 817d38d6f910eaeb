//! Cells that are counted off.
ghost use Rattle.std.specs.Prelude.{◌≡◌, IfOk, [], drop, take};
ghost use Rattle.bt_filter.specs.Meaning as spec;
ghost use Rattle.bt_types.specs.Cells.{AreInOrder};
ghost use Rattle.bt_filter_run.specs.Columns.{continues};

use bt_base::OutOfMemory;
use bt_types::{Cell, CellList};

/// All but the first `count` cells.
pub(crate) fn behind(cells: CellList, count: u32) -> Result<CellList, OutOfMemory>
    ensures { IfOk result (λ rest. rest ≡ drop count cells) }
{
    let mut cells = cells.into_vec();
    let place = cells.len().min(count as usize);
    if place == 0 {
        return Ok(CellList::from_vec(cells));
    }
    let rest = cells.split_off(place)?;
    Ok(CellList::from_vec(rest))
}

/// The first `count` cells.
pub(crate) fn first(cells: CellList, count: u32) -> CellList
    ensures { result ≡ take count cells }
{
    let mut cells = cells.into_vec();
    cells.truncate(count as usize);
    CellList::from_vec(cells)
}

/// The first `most` cells of each column.
pub(crate) fn first_of_columns(cells: CellList, most: u32) -> CellList
    requires { AreInOrder cells }
    ensures { result ≡ spec.first_of_columns most [] cells }
{
    let mut cells = cells.into_vec();
    let mut kept = 0;
    // How many of those that are kept are of the column of the last one.
    let mut count = 0;
    for place in 0..cells.len() {
        if !continues(&cells[..kept], &cells[place]) {
            count = 0;
        }
        if count < most {
            cells.swap(kept, place);
            kept += 1;
            count += 1;
        }
    }
    cells.truncate(kept);
    CellList::from_vec(cells)
}

// Whether the cell is of the column of the last one before it.
fn continues(before: &[Cell], cell: &Cell) -> bool
    ensures { result ≡ continues before.now cell.now }
{
    match before.last() {
        Some(last) => are_of_one_column(cell, last),
        None => false,
    }
}

fn are_of_one_column(one: &Cell, other: &Cell) -> bool
    ensures { result ≡ spec.is_of_column one.now other.now }
{
    other.family.bytes() == one.family.bytes() && other.qualifier.bytes() == one.qualifier.bytes()
}
