//! Cells of two lists in one.
ghost use Rattle.std.specs.Prelude.{◌≡◌, ◌-◌, ◌++◌, IfOk, OnOk, drop, take, vec_len};
ghost use Rattle.bt_types.specs.Cells.{merge, AreInOrder};

use bt_base::OutOfMemory;
use bt_types::{Cell, CellList, cell_order};
use std::alloc::Global;
use std::cmp::Ordering;

/// The cells of both in order; among cells with one key those of the first come first. What stands
/// before all cells of the other list is not moved.
pub(crate) fn merged(
    alloc: Global,
    first: CellList,
    second: CellList,
) -> Result<CellList, OutOfMemory>
    requires first { AreInOrder first }
    requires second { AreInOrder second }
    ensures { IfOk result (λ cells. cells ≡ merge first second) }
{
    let mut first = first.into_vec();
    let mut second = second.into_vec();
    let mut behind = Vec::new(alloc);
    while let (Some(one), Some(other)) = (first.last(), second.last()) {
        if cell_order(one, other) == Ordering::Greater {
            move_last(&mut first, &mut behind)?;
        } else {
            move_last(&mut second, &mut behind)?;
        }
    }
    behind.reverse();
    // One of the two is empty.
    let mut cells = if first.is_empty() { second } else { first };
    cells.append(&mut behind)?;
    Ok(CellList::from_vec(cells))
}

// Moves the last cell, if there is one, to the end of the other list.
fn move_last(from: &mut Vec<Cell>, to: &mut Vec<Cell>) -> Result<(), OutOfMemory>
    ensures rest { from.new.items ≡ take (vec_len from.old - 1) from.old.items }
    ensures moved { OnOk result (to.new.items ≡ to.old.items ++ drop (vec_len from.old - 1) from.old.items) }
{
    if let Some(cell) = from.pop() {
        to.push(cell)?;
    }
    Ok(())
}
