//! The rows of a table that a set of rows holds, one after another.
ghost use Rattle.std.specs.Prelude.{◌≡◌, ◌+◌, [], IfOk, drop, option_map, unwrap_or};
ghost use Rattle.bt_contents.specs.Ranges.{unread};
ghost use Rattle.bt_scan.specs.Selection.{AreSorted, Begins, Moves, Takes, selected};

use bt_base::OutOfMemory;
use bt_contents::{Contents, ContentsRows};
use bt_range::RowSet;
use bt_types::{Cell, NoReads, RowKey, Rows, SourceFault};
use std::alloc::Global;
use std::marker::Model;

/// The rows of a table that a set of rows holds, read from memory. Each range of the set is looked up
/// once the rows before it were given. It refuses only where memory is short, and then has no rows left.
#[derive(Drop)]
pub struct SelectedRows<'a> {
    alloc: Global,
    // `None` for a table without rows.
    table: Option<&'a Contents>,
    set: RowSet,
    // How many of the set's ranges were looked up.
    looked_up: usize,
    // The rows of the range that has the row at hand.
    rows: ContentsRows<'a>,
}

impl<'a> Model for SelectedRows<'a> {
    ghost use Rattle.std.specs.Prelude.{◌++◌, [], drop, option_map, unwrap_or};
    ghost use Rattle.bt_contents.specs.Ranges.{Unread};
    ghost use Rattle.bt_scan.specs.Selection.{GoOn, selected};

    ghost Value = { Unread };

    ghost view = { λ s. record { rows = s.rows.rows ++ selected (drop s.looked_up s.set) (unwrap_or (option_map (λ c. c.now) s.table) []); cells = s.rows.cells; key = s.rows.key; last = s.rows.last } };

    ghost invariant = { λ s. GoOn s.rows.key (s.rows.rows ++ selected (drop s.looked_up s.set) (unwrap_or (option_map (λ c. c.now) s.table) [])) (unwrap_or (option_map (λ c. c.now) s.table) []) };
}

impl<'a> SelectedRows<'a> {
    /// No range is looked up yet, and it takes no memory. `table` is `None` for a table without rows.
    pub fn new(alloc: Global, table: Option<&'a Contents>, set: RowSet) -> SelectedRows<'a>
        ensures { result ≡ unread (selected set (unwrap_or (option_map (λ c. c.now) table.entry) [])) }
    {
        SelectedRows {
            alloc,
            table: with_rows(table),
            set,
            looked_up: 0,
            rows: ContentsRows::empty(alloc),
        }
    }
}

impl<'a> Rows<NoReads> for SelectedRows<'a> {
    ghost use Rattle.std.specs.Prelude.{◌+◌, [], length};
    ghost use Rattle.bt_contents.specs.Ranges.{answers_of};

    ghost tells_given = { ⊥ };

    ghost given = { λ _. [] };

    ghost left = { λ s _. record { cells = s.cells; rows = s.rows } };

    ghost most = { λ s. length s.cells + answers_of s.rows };

    ghost key_at_hand = { λ s. s.key };

    ghost last_cell = { λ s. s.last };

    fn next_row(&mut self, _x: &mut NoReads) -> Result<Option<RowKey>, SourceFault> {
        match next_row(
            self.alloc,
            self.table,
            &self.set,
            &mut self.looked_up,
            &mut self.rows,
        ) {
            Ok(key) => Ok(key),
            Err(OutOfMemory) => {
                self.table = None;
                self.rows = ContentsRows::empty(self.alloc);
                Err(SourceFault::OutOfMemory)
            }
        }
    }

    fn next_cell(&mut self, x: &mut NoReads) -> Result<Option<Cell>, SourceFault> {
        match self.rows.next_cell(x) {
            Ok(cell) => Ok(cell),
            Err(fault) => {
                self.table = None;
                self.rows = ContentsRows::empty(self.alloc);
                Err(fault)
            }
        }
    }

    ghost use Rattle.std.specs.Prelude.{refl};

    ghost same_left = { λ _ _ _ _. refl };
}

// The table, unless it has no rows.
#[tactic(auto, using(crate::proofs::Moving::none_sorted))]
fn with_rows<'a>(table: Option<&'a Contents>) -> Option<&'a Contents>
    ensures rows { unwrap_or (option_map (λ c. c.now) result) [] ≡ unwrap_or (option_map (λ c. c.now) table.entry) [] }
    ensures ordered { AreSorted (unwrap_or (option_map (λ c. c.now) result) []) }
{
    match table {
        Some(table) if !table.is_empty() => Some(table),
        _ => None,
    }
}

// Goes to the next row of the range at hand, or of a later one.
fn next_row<'a>(
    alloc: Global,
    table: Option<&'a Contents>,
    set: &RowSet,
    looked_up: &mut usize,
    rows: &mut ContentsRows<'a>,
) -> Result<Option<RowKey>, OutOfMemory>
    requires { AreSorted (unwrap_or (option_map (λ c. c.now) table) []) }
    ensures { IfOk result (λ key. Moves key rows.old (selected (drop looked_up.old set.now) (unwrap_or (option_map (λ c. c.now) table.entry) [])) rows.new (selected (drop looked_up.new set.now) (unwrap_or (option_map (λ c. c.now) table.entry) []))) }
{
    if let Some(key) = take_row(rows)? {
        return Ok(Some(key));
    }
    begin_range(alloc, table, set, looked_up, rows)
}

// Goes to the first row of the next range that has one. The range at hand has no row left.
fn begin_range<'a>(
    alloc: Global,
    table: Option<&'a Contents>,
    set: &RowSet,
    looked_up: &mut usize,
    rows: &mut ContentsRows<'a>,
) -> Result<Option<RowKey>, OutOfMemory>
    requires { AreSorted (unwrap_or (option_map (λ c. c.now) table) []) }
    ensures { IfOk result (λ key. Begins key rows.old (selected (drop looked_up.old set.now) (unwrap_or (option_map (λ c. c.now) table.entry) [])) rows.new (selected (drop looked_up.new set.now) (unwrap_or (option_map (λ c. c.now) table.entry) []))) }
{
    let Some(table) = table else {
        return Ok(None);
    };
    let ranges = set.ranges();
    while let Some(range) = ranges.get(*looked_up) {
        *looked_up += 1;
        let mut found = table.rows_in(alloc, range);
        if let Some(key) = take_row(&mut found)? {
            *rows = found;
            return Ok(Some(key));
        }
    }
    Ok(None)
}

fn take_row(rows: &mut ContentsRows<'_>) -> Result<Option<RowKey>, OutOfMemory>
    ensures { IfOk result (λ key. Takes key rows.old rows.new) }
{
    // Rows in memory refuse only where memory is short.
    rows.next_row(&mut NoReads).map_err(|_| OutOfMemory)
}
