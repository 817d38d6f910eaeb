//! DeleteTable.
ghost use Rattle.std.specs.Prelude.{◌≡◌, ◌≤◌, IfOk};
ghost use Rattle.bt_entry.specs.Grammar.{last_moment};
ghost use Rattle.bt_plans.specs.Plans.{IsPlan};
ghost use Rattle.bt_schema.specs.Schema.{table_of};
ghost use Rattle.bt_table_replies.specs.Tables.{delete_reply};

use bt_base::OutOfMemory;
use bt_entry::Entry;
use bt_messages::Refusal;
use bt_plans::{Answer, Plan, incarnation_of};
use bt_state::Present;
use bt_types::TableName;
use std::alloc::Global;

/// The table of that name goes (`google.bigtable.admin.v2.DeleteTableRequest`).
pub fn delete_table(
    alloc: Global,
    present: &Present,
    name: &TableName,
    moment: u64,
) -> Result<Plan, OutOfMemory>
    requires not_before { present.now.floor ≤ moment }
    requires not_past { moment ≤ last_moment }
    ensures { IfOk result (λ plan. IsPlan plan present.now (delete_reply moment (table_of name.now present.now.schema))) }
{
    let Some(table) = present.table(name) else {
        return Ok(Plan::refuses(Refusal::TableNotFound));
    };
    let incarnation = incarnation_of(table);
    let entry = Entry::Delete { incarnation };
    Plan::changes(alloc, present, moment, entry, Answer::Empty)
}
