//! Filters that run.
ghost use Rattle.std.specs.Prelude.{◌≡◌, IfOk};
ghost use Rattle.bt_types.specs.Cells.{AreInOrder};
ghost use Rattle.bt_filter.specs.Meaning.{final_cells};

use crate::building::step_of;
use crate::merging::merged;
use crate::step::{Step, run};
use bt_base::OutOfMemory;
use bt_filter::Filter;
use bt_types::{CellList, RowKey};
use std::alloc::Global;
use std::marker::Model;

/// A filter that runs over rows, one after another (`google.bigtable.v2.RowFilter`). A contract sees
/// the filter.
#[derive(Drop)]
pub struct Node {
    step: Step,
}

impl Model for Node {
    ghost use Rattle.bt_filter.specs.declared.filter.Filter.{Filter};

    ghost Value = { Filter };

    ghost use Rattle.bt_filter.specs.contracts.filter.Filter as e;
    ghost use Rattle.std.specs.Coded.{codes};

    ghost coded = { Prim.hlevel (codes, e.the_row.coded) };

    ghost use Rattle.bt_filter_run.specs.Steps.{filter_of};

    ghost view = { λ n. filter_of n.step };
}

impl Node {
    /// Makes ready to run a filter. All that the filter holds is moved.
    pub fn new(alloc: Global, filter: Filter) -> Result<Node, OutOfMemory>
        ensures { IfOk result (λ node. node ≡ filter) }
    {
        let step = step_of(alloc, filter)?;
        Ok(Node { step })
    }

    // What is left of a row: what the filter gives, and the cells that it sinks.
    pub(crate) fn cells_of(
        &mut self,
        alloc: Global,
        key: &RowKey,
        cells: CellList,
    ) -> Result<CellList, OutOfMemory>
        requires { AreInOrder cells }
        ensures cells { IfOk result (λ out. out ≡ final_cells self.old key.now cells) }
        ensures same { self.new ≡ self.old }
    {
        let given = run(alloc, &mut self.step, key, cells)?;
        merged(alloc, given.out, given.sunk)
    }
}
