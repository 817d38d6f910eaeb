//! MutateRow.
ghost use Rattle.std.specs.Prelude.{◌≡◌, ◌≤◌, IfOk};
ghost use Rattle.bt_entry.specs.Grammar.{last_moment};
ghost use Rattle.bt_plans.specs.Plans.{IsPlan};
ghost use Rattle.bt_row_replies.specs.Rows.{mutate_reply};
ghost use Rattle.bt_schema.specs.Schema.{table_of};

use bt_base::{Blob, OutOfMemory};
use bt_messages::Refusal;
use bt_mutation::AskedMutationList;
use bt_plans::row_entry::row_entry;
use bt_plans::{Answer, NoPlan, Plan};
use bt_state::Present;
use bt_types::TableName;
use std::alloc::Global;

/// Mutations of the row at a key, in order, all or none
/// (`google.bigtable.v2.MutateRowRequest`).
pub fn mutate_row(
    alloc: Global,
    present: &Present,
    name: &TableName,
    key: Blob,
    mutations: AskedMutationList,
    moment: u64,
) -> Result<Plan, OutOfMemory>
    requires not_before { present.now.floor ≤ moment }
    requires not_past { moment ≤ last_moment }
    ensures { IfOk result (λ plan. IsPlan plan present.now (mutate_reply moment key mutations (table_of name.now present.now.schema))) }
{
    let Some(table) = present.table(name) else {
        return Ok(Plan::refuses(Refusal::TableNotFound));
    };
    match row_entry(alloc, table, key, mutations, moment) {
        Ok(entry) => Plan::changes(alloc, present, moment, entry, Answer::Empty),
        Err(NoPlan::Refused(refusal)) => Ok(Plan::refuses(refusal)),
        Err(NoPlan::OutOfMemory) => Err(OutOfMemory),
    }
}
