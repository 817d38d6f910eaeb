//! Filters without parts.
ghost use Rattle.std.specs.Prelude.{◌≡◌, IfOk};
ghost use Rattle.bt_types.specs.Cells.{AreInOrder};
ghost use Rattle.bt_filter_run.specs.Steps.{IsGiven, leaf_gives};

use crate::cell_test::CellTest;
use crate::cuts::{behind, first, first_of_columns};
use crate::given::Given;
use crate::marking::{labelled, stripped};
use bt_base::OutOfMemory;
use bt_pattern::Pattern;
use bt_types::{CellList, Label, RowKey};
use std::alloc::Global;

/// A filter without parts as it runs, one variant a kind (`google.bigtable.v2.RowFilter`). Each run
/// may change it, since patterns keep the tables of their searches.
#[derive(Drop)]
pub(crate) enum Leaf {
    Unset,
    Pass,
    Block,
    Sink,
    Strip,
    RowKey(Pattern),
    /// The cells that pass a test.
    Cells(CellTest),
    RowOffset(u32),
    RowLimit(u32),
    ColumnLimit(u32),
    Label(Label),
}

impl Leaf {
    /// What the filter gives of the cells of the row with that key.
    pub(crate) fn run(
        &mut self,
        alloc: Global,
        key: &RowKey,
        cells: CellList,
    ) -> Result<Given, OutOfMemory>
        requires { AreInOrder cells }
        ensures given { IfOk result (λ given. IsGiven given (leaf_gives self.old key.now cells)) }
        ensures same { self.new ≡ self.old }
    {
        match self {
            Leaf::Unset => Ok(Given::only(alloc, cells)),
            Leaf::Pass => Ok(Given::only(alloc, cells)),
            Leaf::Block => Ok(Given::none(alloc)),
            Leaf::Sink => Ok(Given::sunk(alloc, cells)),
            Leaf::Strip => Ok(Given::only(alloc, stripped(alloc, cells))),
            Leaf::RowKey(pattern) => {
                if pattern.is_match(key.bytes())? {
                    Ok(Given::only(alloc, cells))
                } else {
                    Ok(Given::none(alloc))
                }
            }
            Leaf::Cells(test) => Ok(Given::only(alloc, test.kept(cells)?)),
            Leaf::RowOffset(count) => Ok(Given::only(alloc, behind(cells, *count)?)),
            Leaf::RowLimit(count) => Ok(Given::only(alloc, first(cells, *count))),
            Leaf::ColumnLimit(count) => Ok(Given::only(alloc, first_of_columns(cells, *count))),
            Leaf::Label(label) => Ok(Given::only(alloc, labelled(alloc, cells, label)?)),
        }
    }
}
