//! ListTables.
ghost use Rattle.std.specs.Prelude.{◌≡◌, ◌++◌, codes, IfOk};
ghost use Rattle.bt_plans.specs.Plans.{IsPlan};
ghost use Rattle.bt_plans.specs.Beginnings.{begins_with};
ghost use Rattle.bt_table_replies.specs.Tables.{list_reply, names_under};

use bt_base::{OutOfMemory, Plain};
use bt_messages::{Refusal, Response, TableNameList, served_lines};
use bt_plans::{Answer, Plan};
use bt_schema::Schema;
use bt_state::Present;
use bt_types::Text;
use std::alloc::Global;

/// The names of an instance's tables, all on one page
/// (`google.bigtable.admin.v2.ListTablesRequest`).
pub fn list_tables(
    alloc: Global,
    present: &Present,
    parent: &Text,
    page_token: &Text,
) -> Result<Plan, OutOfMemory>
    ensures { IfOk result (λ plan. IsPlan plan present.now (list_reply present.now parent.now page_token.now)) }
{
    if !page_token.text().is_empty() {
        return Ok(Plan::refuses(Refusal::BadPageToken));
    }
    let names = names_under(alloc, parent, present.schema())?;
    let lines = served_lines(alloc, &Response::ListTables(names))?;
    Ok(Plan::Says(Answer::Lines(lines)))
}

fn names_under(alloc: Global, parent: &Text, schema: &Schema) -> Result<TableNameList, OutOfMemory>
    ensures { IfOk result (λ names. names ≡ names_under parent.now schema.now) }
{
    let front = front_of_names(alloc, parent)?;
    let mut names = TableNameList::new(alloc);
    for name in schema.tables().keys() {
        if begins_with(name.bytes(), &front) {
            names.push(name.copy(alloc)?)?;
        }
    }
    Ok(names)
}

fn front_of_names(alloc: Global, parent: &Text) -> Result<Vec<u8>, OutOfMemory>
    ensures { IfOk result (λ front. front.items ≡ parent.now ++ codes "/tables/") }
{
    let mut front = Vec::from_slice(alloc, parent.text().as_bytes())?;
    front.extend_from_slice(b"/tables/")?;
    Ok(front)
}

fn begins_with(bytes: &[u8], front: &[u8]) -> bool
    ensures { result ≡ begins_with front.now bytes.now }
{
    bytes.starts_with(front)
}
