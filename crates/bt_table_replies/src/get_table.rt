//! GetTable.
ghost use Rattle.std.specs.Prelude.{◌≡◌, IfOk};
ghost use Rattle.bt_plans.specs.Plans.{IsPlan};
ghost use Rattle.bt_schema.specs.Schema.{table_of};
ghost use Rattle.bt_table_replies.specs.Tables.{get_reply};

use bt_base::OutOfMemory;
use bt_messages::{Refusal, table_lines};
use bt_plans::{Answer, Plan};
use bt_state::Present;
use bt_types::TableName;
use std::alloc::Global;

/// The table of that name (`google.bigtable.admin.v2.GetTableRequest`).
pub fn get_table(alloc: Global, present: &Present, name: &TableName) -> Result<Plan, OutOfMemory>
    ensures { IfOk result (λ plan. IsPlan plan present.now (get_reply (table_of name.now present.now.schema))) }
{
    let Some(table) = present.table(name) else {
        return Ok(Plan::refuses(Refusal::TableNotFound));
    };
    let lines = table_lines(alloc, table)?;
    Ok(Plan::Says(Answer::Lines(lines)))
}
