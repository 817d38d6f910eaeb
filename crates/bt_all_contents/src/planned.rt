//! Changes of rows of several tables, planned before any is made.
ghost use Rattle.std.specs.Prelude.{◌≡◌, [], false, IfNone, IfOk, IfSome, OnOk, if◌then◌else◌};
ghost use Rattle.std.specs.BTreeMap.{is_at};
ghost use Rattle.bt_row.specs.declared.cell_key.CellKey.{CellKey};
ghost use Rattle.bt_all_contents.specs.AllContents.{AreNewRows, ArePlans, AreShortChanges, AreTables, RowAt, all_planned, at_cmp, cells_there, mutations_at, new_at, planned_or, plan_at, row_or};
ghost use Rattle.bt_row.specs.Sound.{HaveShort, IsHeld, IsSound};
ghost use Rattle.bt_row.specs.Plans.{IsPlan, value_at, values_after};

use crate::RowChangeList;
use crate::changes::Plans;
use crate::new_rows::NewRows;
use crate::row_change::RowChange;
use bt_base::OutOfMemory;
use bt_contents::Contents;
use bt_row::{Plan, Row};
use bt_types::{MutationList, RowKey};
use std::alloc::Global;
use std::collections::BTreeMap;

/// What changes make of rows: plans of those that are there, and the rows that are not there yet.
#[derive(Drop)]
pub(crate) struct Planned {
    pub plans: Plans,
    pub new_rows: NewRows,
}

/// Plans these changes in order, for which nothing is changed yet.
pub(crate) fn plan_all(
    tables: &BTreeMap<u64, Contents>,
    alloc: Global,
    changes: RowChangeList,
) -> Result<Planned, OutOfMemory>
    requires short { AreShortChanges changes }
    requires tables { AreTables tables.now.entries }
    ensures plans { IfOk result (λ planned. ArePlans planned.plans.entries tables.now.entries) }
    ensures rows { IfOk result (λ planned. AreNewRows planned.new_rows.entries tables.now.entries) }
    ensures ok { IfOk result (λ planned. (a : RowAt) (k : CellKey) → all_planned planned.plans.entries planned.new_rows.entries tables.now.entries a k ≡ values_after (mutations_at changes a) (value_at (cells_there tables.now.entries a)) k) }
{
    let mut planned = Planned {
        plans: BTreeMap::new(alloc),
        new_rows: BTreeMap::new(alloc),
    };
    for change in changes.into_vec() {
        add_change(&mut planned, tables, alloc, change)?;
    }
    Ok(planned)
}

fn add_change(
    planned: &mut Planned,
    tables: &BTreeMap<u64, Contents>,
    alloc: Global,
    change: RowChange,
) -> Result<(), OutOfMemory>
    requires short { HaveShort change.mutations }
    requires tables { AreTables tables.now.entries }
    requires plans { ArePlans planned.old.plans.entries tables.now.entries }
    requires rows { AreNewRows planned.old.new_rows.entries tables.now.entries }
    ensures plans { OnOk result (ArePlans planned.new.plans.entries tables.now.entries) }
    ensures rows { OnOk result (AreNewRows planned.new.new_rows.entries tables.now.entries) }
    ensures ok { OnOk result ((a : RowAt) (k : CellKey) → all_planned planned.new.plans.entries planned.new.new_rows.entries tables.now.entries a k ≡ values_after (if is_at (at_cmp a) (change.incarnation, change.key) then change.mutations else []) (all_planned planned.old.plans.entries planned.old.new_rows.entries tables.now.entries a) k) }
{
    let RowChange {
        incarnation,
        key,
        mutations,
    } = change;
    let at = (incarnation, key);
    match row_there(tables, &at) {
        Some(row) => add_to_plan(&mut planned.plans, alloc, at, row, mutations)?,
        None => add_to_row(&mut planned.new_rows, alloc, at, mutations)?,
    }
    Ok(())
}

fn row_there<'a>(tables: &'a BTreeMap<u64, Contents>, at: &(u64, RowKey)) -> Option<&'a Row>
    requires { AreTables tables.now.entries }
    ensures found { IfSome result (λ row. IsHeld row.now × (cells_there tables.now.entries at.now ≡ row.now.cells.entries)) }
    ensures absent { IfNone result (cells_there tables.now.entries at.now ≡ []) }
{
    match tables.get(&at.0) {
        Some(rows) => rows.get(&at.1),
        None => None,
    }
}

fn add_to_plan(
    plans: &mut Plans,
    alloc: Global,
    at: (u64, RowKey),
    row: &Row,
    mutations: MutationList,
) -> Result<(), OutOfMemory>
    requires short { HaveShort mutations }
    requires row { IsHeld row.now }
    requires plan { IfSome (plan_at plans.old.entries at) (λ p. IsPlan p row.now.cells.entries) }
    ensures plan { OnOk result (IfSome (plan_at plans.new.entries at) (λ p. IsPlan p row.now.cells.entries)) }
    ensures ok { OnOk result ((k : CellKey) → planned_or (plan_at plans.new.entries at) row.now.cells.entries k ≡ values_after mutations (planned_or (plan_at plans.old.entries at) row.now.cells.entries) k) }
    ensures others { OnOk result ((a : RowAt) → is_at (at_cmp a) at ≡ false → plan_at plans.new.entries a ≡ plan_at plans.old.entries a) }
{
    match plans.get_mut(&at) {
        Some(plan) => plan.add_all(alloc, &row.cells, mutations),
        None => {
            let mut plan = Plan::new(alloc);
            plan.add_all(alloc, &row.cells, mutations)?;
            plans.insert(at, plan)?;
            Ok(())
        }
    }
}

fn add_to_row(
    new_rows: &mut NewRows,
    alloc: Global,
    at: (u64, RowKey),
    mutations: MutationList,
) -> Result<(), OutOfMemory>
    requires short { HaveShort mutations }
    requires row { IfSome (new_at new_rows.old.entries at) (λ r. IsSound r.cells.entries) }
    ensures row { OnOk result (IfSome (new_at new_rows.new.entries at) (λ r. IsSound r.cells.entries)) }
    ensures ok { OnOk result ((k : CellKey) → value_at (row_or (new_at new_rows.new.entries at) []) k ≡ values_after mutations (value_at (row_or (new_at new_rows.old.entries at) [])) k) }
    ensures others { OnOk result ((a : RowAt) → is_at (at_cmp a) at ≡ false → new_at new_rows.new.entries a ≡ new_at new_rows.old.entries a) }
{
    match new_rows.get_mut(&at) {
        Some(row) => row.apply(alloc, mutations),
        None => {
            let mut row = Row::new(alloc);
            row.apply(alloc, mutations)?;
            new_rows.insert(at, row)?;
            Ok(())
        }
    }
}
