//! Tests that cells pass one by one.
ghost use Rattle.std.specs.Prelude.{◌≡◌, IfOk, filter};
ghost use Rattle.bt_filter_run.specs.Steps.{passes};

use bt_base::{Blob, OutOfMemory};
use bt_pattern::Pattern;
use bt_range::{ByteRange, TimeRange};
use bt_types::{Cell, CellList};

/// What a filter asks of each cell alone.
#[derive(Drop)]
pub(crate) enum CellTest {
    Family(Pattern),
    Qualifier(Pattern),
    Value(Pattern),
    /// It is of the family, and its qualifier is in the range.
    Columns { family: Blob, range: ByteRange },
    ValueRange(ByteRange),
    Times(TimeRange),
}

impl CellTest {
    /// Whether the cell passes.
    pub(crate) fn passes(&mut self, cell: &Cell) -> Result<bool, OutOfMemory>
        ensures answer { IfOk result (λ b. b ≡ passes self.old cell.now) }
        ensures same { self.new ≡ self.old }
    {
        match self {
            CellTest::Family(pattern) => pattern.is_match(cell.family.bytes()),
            CellTest::Qualifier(pattern) => pattern.is_match(cell.qualifier.bytes()),
            CellTest::Value(pattern) => pattern.is_match(cell.value.bytes()),
            CellTest::Columns { family, range } => {
                Ok(cell.family.bytes() == family.bytes() && range.holds(cell.qualifier.bytes()))
            }
            CellTest::ValueRange(range) => Ok(range.holds(cell.value.bytes())),
            CellTest::Times(range) => Ok(range.holds(cell.at)),
        }
    }

    /// The cells that pass.
    pub(crate) fn kept(&mut self, cells: CellList) -> Result<CellList, OutOfMemory>
        ensures kept { IfOk result (λ kept. kept ≡ filter (passes self.old) cells) }
        ensures same { self.new ≡ self.old }
    {
        let mut cells = cells.into_vec();
        let mut kept = 0;
        for place in 0..cells.len() {
            if self.passes(&cells[place])? {
                cells.swap(kept, place);
                kept += 1;
            }
        }
        cells.truncate(kept);
        Ok(CellList::from_vec(cells))
    }
}
