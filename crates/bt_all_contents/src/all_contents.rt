//! The rows of all tables.
ghost use Rattle.std.specs.Prelude.{◌≡◌, [], false, OnOk, OnErr, if◌then◌else◌, option_map, unwrap_or};
ghost use Rattle.bt_all_contents.specs.AllContents.{AreNewRows, ArePlans, AreShortChanges, AreTables, RowAt, all_changed, cells_there, is_wanted_there, new_at, one_changed, placed_or, plan_at, row_or, rows_of, without_rows};
ghost use Rattle.bt_row.specs.Sound.{HaveShort};
ghost use Rattle.bt_row.specs.declared.cell_key.CellKey.{CellKey};
ghost use Rattle.bt_row.specs.Plans.{value_at};

use crate::RowChangeList;
use crate::changes::{Plans, make_all, settle_all};
use crate::new_rows::{NewRows, put_all};
use crate::planned::{Planned, plan_all};
use crate::row_change::RowChange;
use bt_base::OutOfMemory;
use bt_contents::Contents;
use bt_row::Ending;
use std::alloc::Global;
use std::collections::BTreeMap;
use std::marker::Model;

/// The rows of all tables, by the tables' incarnations. A contract sees those of the tables that have a
/// row, in the order of incarnations.
#[derive(Drop)]
pub struct AllContents {
    tables: BTreeMap<u64, Contents>,
}

impl Model for AllContents {
    ghost use Rattle.std.specs.Prelude.{List, ℕ};
    ghost use Rattle.bt_types.specs.declared.cell.Cell.{Cell};
    ghost use Rattle.bt_all_contents.specs.AllContents.{AreTables};

    ghost Value = { List (ℕ × List (List ℕ × List Cell)) };

    ghost view = { λ c. c.tables.entries };

    ghost invariant = { λ c. AreTables c.tables.entries };
}

impl AllContents {
    /// No rows, which takes no memory yet.
    pub fn new(alloc: Global) -> AllContents
        ensures { result ≡ [] }
    {
        AllContents {
            tables: BTreeMap::new(alloc),
        }
    }

    /// The rows of the table of that incarnation; `None` where it has none.
    pub fn rows_of(&self, incarnation: u64) -> Option<&Contents>
        ensures rows { unwrap_or (option_map (λ c. c.now) result) [] ≡ rows_of incarnation self.now }
        ensures tables { AreTables self.now }
    {
        self.tables.get(&incarnation)
    }

    /// Lets the rows of the table of that incarnation go, which takes no memory.
    pub fn forget(&mut self, incarnation: u64)
        ensures { self.new ≡ without_rows incarnation self.old }
    {
        self.tables.remove(&incarnation);
    }

    /// Makes a change. A table or a row without cells is not there.
    pub fn change(&mut self, alloc: Global, change: RowChange) -> Result<(), OutOfMemory>
        requires { HaveShort change.mutations }
        ensures ok { OnOk result (self.new ≡ one_changed change self.old) }
        ensures err { OnErr result (self.new ≡ self.old) }
    {
        let mut changes = RowChangeList::new(alloc);
        changes.push(change)?;
        self.change_all(alloc, changes)
    }

    /// Makes these changes in order, all or none. A table or a row without cells is not there.
    pub fn change_all(&mut self, alloc: Global, changes: RowChangeList) -> Result<(), OutOfMemory>
        requires { AreShortChanges changes }
        ensures ok { OnOk result (self.new ≡ all_changed changes self.old) }
        ensures err { OnErr result (self.new ≡ self.old) }
    {
        let Planned { plans, new_rows } = plan_all(&self.tables, alloc, changes)?;
        if prepare(&mut self.tables, alloc, &plans, new_rows).is_err() {
            settle_all(&mut self.tables, plans, Ending::TakeBack);
            return Err(OutOfMemory);
        }
        settle_all(&mut self.tables, plans, Ending::CarryOut);
        Ok(())
    }
}

// Makes the cells that the plans want, and puts the new rows in, which alone takes memory.
fn prepare(
    tables: &mut BTreeMap<u64, Contents>,
    alloc: Global,
    plans: &Plans,
    new_rows: NewRows,
) -> Result<(), OutOfMemory>
    requires tables { AreTables tables.old.entries }
    requires plans { ArePlans plans.now.entries tables.old.entries }
    requires rows { AreNewRows new_rows.entries tables.old.entries }
    ensures tables { AreTables tables.new.entries }
    ensures others { OnErr result ((a : RowAt) (k : CellKey) → is_wanted_there plans.now.entries a k ≡ false → value_at (cells_there tables.new.entries a) k ≡ value_at (cells_there tables.old.entries a) k) }
    ensures values { OnOk result ((a : RowAt) (k : CellKey) → value_at (cells_there tables.new.entries a) k ≡ placed_or (plan_at plans.now.entries a) (row_or (new_at new_rows.entries a) (cells_there tables.old.entries a)) k) }
{
    make_all(tables, alloc, plans)?;
    put_all(tables, alloc, new_rows)?;
    Ok(())
}
