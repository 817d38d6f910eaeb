//! Rows, one after another.
ghost use Rattle.std.specs.Prelude.{◌≡◌, ℕ, List, Option, IfOk, IfErr};
ghost use Rattle.bt_types.specs.declared.cell.Cell.{Cell};
ghost use Rattle.bt_types.specs.Sources.{Left, IsCaused, GivesRow, GivesCell, Falls, CountsRow, CountsCell, GoesOnRow, GoesOnCell};

use crate::{Cell, Reading, RowKey, SourceFault};

/// Rows in the order of their keys, and the cells of each in cell order, read over a reading.
/// After a refusal the object is only dropped.
pub trait Rows<X: Reading> {
    /// Whether the object counts what it gives.
    ghost tells_given: { Type 0 };

    /// For each row given so far the number of its cells given.
    ghost given: { Self → List ℕ };

    /// The cells left of the row at hand, and the rows behind it.
    ghost left: { Self → X → Left };

    /// How many answers are left at most.
    ghost most: { Self → ℕ };

    /// The key of the row at hand.
    ghost key_at_hand: { Self → Option (List ℕ) };

    /// The last cell given of the row at hand.
    ghost last_cell: { Self → Option Cell };

    /// Goes to the next row, whether or not all cells of the row at hand were read.
    fn next_row(&mut self, x: &mut X) -> Result<Option<RowKey>, SourceFault>
        ensures gives { X.tells x.old → IfOk result (λ row. GivesRow row (left self.old x.old) (left self.new x.new)) }
        ensures order { IfOk result (λ row. GoesOnRow row (key_at_hand self.old) (key_at_hand self.new) (last_cell self.old) (last_cell self.new)) }
        ensures same { X.same x.old x.new }
        ensures fault { IfErr result (IsCaused (X.tells x.new) (X.faults x.old) (X.faults x.new) (X.failing x.new) (X.broken x.new)) }
        ensures most { Falls result (most self.old) (most self.new) }
        ensures given { tells_given → CountsRow result (given self.old) (given self.new) };

    /// The next cell of the row at hand, or `None` at its end.
    fn next_cell(&mut self, x: &mut X) -> Result<Option<Cell>, SourceFault>
        ensures gives { X.tells x.old → IfOk result (λ cell. GivesCell cell (left self.old x.old) (left self.new x.new)) }
        ensures order { IfOk result (λ cell. GoesOnCell cell (key_at_hand self.old) (key_at_hand self.new) (last_cell self.old) (last_cell self.new)) }
        ensures same { X.same x.old x.new }
        ensures fault { IfErr result (IsCaused (X.tells x.new) (X.faults x.old) (X.faults x.new) (X.failing x.new) (X.broken x.new)) }
        ensures most { Falls result (most self.old) (most self.new) }
        ensures given { tells_given → CountsCell result (given self.old) (given self.new) };

    /// What is left is the same over readings that are the same.
    ghost same_left: { (r : Self) (x y : X) → X.same x y → left r x ≡ left r y };
}
