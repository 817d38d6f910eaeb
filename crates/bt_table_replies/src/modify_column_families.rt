//! ModifyColumnFamilies.
ghost use Rattle.std.specs.Prelude.{◌≡◌, ◌≤◌, IfOk, OnOk, map};
ghost use Rattle.bt_entry.specs.Grammar.{last_moment};
ghost use Rattle.bt_plans.specs.Plans.{IsPlan};
ghost use Rattle.bt_plans.specs.Replies.{event};
ghost use Rattle.bt_schema.specs.Schema.{table_of};
ghost use Rattle.bt_state.specs.State.{AreLawful, rows_of};
ghost use Rattle.bt_table_replies.specs.Losses.{AreFound, modified, modified_entries};
ghost use Rattle.bt_table_replies.specs.Modifications.{modify_reply};

use crate::family_changes::{change_families, dropped_names};
use crate::losses::{loss_entries, losses};
use bt_base::{OutOfMemory, Plain};
use bt_entry::{Entry, TableInfo};
use bt_messages::{Refusal, table_lines};
use bt_plans::{Answer, NoPlan, Plan, as_record, next_sequence, plan_of, put_entry};
use bt_requests::ModificationList;
use bt_state::Present;
use bt_types::{FamilyList, TableName};
use std::alloc::Global;

/// Families of the table of that name are made, changed and dropped, all or none, and the cells of
/// a family that is dropped go (`google.bigtable.admin.v2.ModifyColumnFamiliesRequest`). Each row
/// is searched once for each of those.
pub fn modify_column_families(
    alloc: Global,
    present: &Present,
    name: &TableName,
    changes: ModificationList,
    moment: u64,
) -> Result<Plan, OutOfMemory>
    requires not_before { present.now.floor ≤ moment }
    requires not_past { moment ≤ last_moment }
    ensures { IfOk result (λ plan. IsPlan plan present.now (modify_reply present.now moment changes (table_of name.now present.now.schema))) }
{
    let Some(table) = present.table(name) else {
        return Ok(Plan::refuses(Refusal::TableNotFound));
    };
    if changes.is_empty() {
        return Ok(Plan::refuses(Refusal::NoModifications));
    }
    let dropped = dropped_names(alloc, table, changes.items())?;
    let mut changed = table.copy(alloc)?;
    match change_families(alloc, &mut changed.families, changes) {
        Ok(()) => modification(alloc, present, changed, &dropped, moment),
        Err(NoPlan::Refused(refusal)) => Ok(Plan::refuses(refusal)),
        Err(NoPlan::OutOfMemory) => Err(OutOfMemory),
    }
}

// The plan of the table's change, whose rows lose the cells of these families first.
fn modification(
    alloc: Global,
    present: &Present,
    table: TableInfo,
    dropped: &FamilyList,
    moment: u64,
) -> Result<Plan, OutOfMemory>
    ensures plan { let entries = modified_entries dropped.now (rows_of table.incarnation present.now.contents) table in IfOk result (λ plan. AreLawful present.now (map (event moment) entries) → IsPlan plan present.now (modified moment entries table)) }
    ensures found { OnOk result (AreFound dropped.now table.incarnation present.now) }
{
    let first = next_sequence(present);
    let incarnation = table.incarnation;
    let all = losses(alloc, present.rows_of(incarnation), dropped)?;
    let mut batch = loss_entries(alloc, incarnation, all, first, moment)?;
    let lines = table_lines(alloc, &table)?;
    let entry = Entry::Alter {
        incarnation,
        families: table.families,
    };
    put_entry(&mut batch, first, moment, entry)?;
    let records = as_record(alloc, batch)?;
    Ok(plan_of(records, Answer::Lines(lines)))
}
