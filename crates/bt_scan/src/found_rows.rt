//! The rows that a read finds, one after another.
ghost use Rattle.std.specs.Prelude.{◌≡◌, [], IfOk, IfSome, filter, option_map, unwrap_or};
ghost use Rattle.bt_types.specs.Cells.{AreShort};
ghost use Rattle.bt_range.specs.RowSets.{is_in_any};
ghost use Rattle.bt_read.specs.Answers.{GivesFound, found, limit_of, limited};

use crate::selected_rows::SelectedRows;
use bt_base::OutOfMemory;
use bt_contents::Contents;
use bt_filter_run::Node;
use bt_range::RowSet;
use bt_read::RowsRead;
use bt_types::{FoundRow, NoReads};
use std::alloc::Global;
use std::marker::Model;

/// The rows of a read of a table in memory. A contract sees the rows that are left. After a refusal it
/// is only dropped.
#[derive(Drop)]
pub struct FoundRows<'a> {
    alloc: Global,
    rows: SelectedRows<'a>,
    read: RowsRead,
}

impl<'a> Model for FoundRows<'a> {
    ghost use Rattle.std.specs.Prelude.{List};
    ghost use Rattle.bt_types.specs.declared.found_row.FoundRow.{FoundRow};
    ghost use Rattle.bt_read.specs.Answers.{left_of};

    ghost Value = { List FoundRow };

    ghost view = { λ s. left_of s.read s.rows.rows };
}

impl<'a> FoundRows<'a> {
    /// No row is looked for yet. `table` is `None` for a table without rows, and a `rows_limit` of 0 is
    /// no limit.
    pub fn new(
        alloc: Global,
        table: Option<&'a Contents>,
        set: RowSet,
        node: Node,
        rows_limit: u64,
    ) -> FoundRows<'a>
        ensures { result ≡ limited (limit_of rows_limit) (found node (filter (λ r. is_in_any set r.0) (unwrap_or (option_map (λ c. c.now) table.entry) []))) }
    {
        FoundRows {
            alloc,
            rows: SelectedRows::new(alloc, table, set),
            read: RowsRead::new(node, rows_limit),
        }
    }

    /// The next row, or `None` at the end. Once the limit is used up no further row is looked for.
    pub fn next_row(&mut self) -> Result<Option<FoundRow>, OutOfMemory>
        ensures row { IfOk result (λ row. GivesFound row self.old self.new) }
        ensures short { IfOk result (λ row. IfSome row (λ r. AreShort r.cells)) }
    {
        // Rows in memory refuse only where memory is short.
        self.read
            .next_row(self.alloc, &mut self.rows, &mut NoReads)
            .map_err(|_| OutOfMemory)
    }
}
