//! The request ListTables.
ghost use Rattle.std.specs.Prelude.{◌≡◌, IfOk};
ghost use Rattle.bt_json.specs.View.{view};
ghost use Rattle.bt_types.specs.Grammar.{is_parent, lawful};
ghost use Rattle.bt_requests.specs.Readers.{IsInOrder, list_tables};

use crate::request::Request;
use bt_base::OutOfMemory;
use bt_json::Value;
use bt_members::{names, text_at};
use bt_types::{TableName, Text};
use std::alloc::Global;

pub(crate) fn list_tables(alloc: Global, value: &Value<'_>) -> Result<Option<Request>, OutOfMemory>
    ensures exact { IfOk result (λ r. r ≡ list_tables (view value.now)) }
    ensures order { IfOk result IsInOrder }
{
    let Some(parent) = lawful_parent(alloc, text_at(value, names::PARENT))? else {
        return Ok(None);
    };
    let page_token = Text::new(alloc, text_at(value, names::PAGE_TOKEN))?;
    Ok(Some(Request::ListTables { parent, page_token }))
}

fn lawful_parent(alloc: Global, text: &str) -> Result<Option<Text>, OutOfMemory>
    ensures { IfOk result (λ parent. parent ≡ lawful is_parent text.now) }
{
    if !is_parent(alloc, text)? {
        return Ok(None);
    }
    Ok(Some(Text::new(alloc, text)?))
}

// A parent is lawful exactly where a table in it may have a name.
#[tactic(auto, using(crate::proofs::Parents::has_table))]
fn is_parent(alloc: Global, text: &str) -> Result<bool, OutOfMemory>
    ensures { IfOk result (λ b. b ≡ is_parent text.now) }
{
    let table = TableName::in_instance(alloc, text, "t")?;
    Ok(table.is_some())
}
