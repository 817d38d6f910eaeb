//! The lines of responses and statuses.
ghost use Rattle.std.specs.Prelude.{◌≡◌, ◌++◌, false, IfOk, codes};
ghost use Rattle.serde_json.specs.View.{view};
ghost use Rattle.bt_messages.specs.Lines.{line_of, object_with, ok_line, response_data, status_data};
ghost use Rattle.bt_messages.specs.Responses.{shown, shown_match, shown_table};
ghost use Rattle.bt_messages.specs.Rows.{shown_row};
ghost use Rattle.bt_messages.specs.Statuses.{has_statuses};

use crate::chunk_value::chunks_value;
use crate::lines::{line, ok_line};
use crate::members::put_true;
use crate::response::Response;
use crate::row_value::row_value;
use crate::status_value::status_members;
use crate::statuses::statuses_line;
use crate::table_value::{table_names_value, table_value};
use bt_base::{Blob, OutOfMemory};
use bt_entry::TableInfo;
use bt_types::{Cell, RowKey};
use serde_json::{Map, Value, json};
use std::alloc::Global;

/// The line of a response, with its line feed: `{"response":{..}}` without spaces, its members in
/// the order of their names (protobuf documentation, "ProtoJSON Format"). Members that are 0, empty
/// or false are left out, but for the wrappers `familyName` and `qualifier` of a chunk.
pub fn response_line(alloc: Global, response: &Response) -> Result<Blob, OutOfMemory>
    ensures { IfOk result (λ out. out ≡ line_of (response_data (shown response.now))) }
{
    let out = response_bytes(alloc, response)?;
    Ok(Blob::from_vec(out))
}

/// The lines of a request that was served with one response: the line of that response, and the
/// status of success.
pub fn served_lines(alloc: Global, response: &Response) -> Result<Blob, OutOfMemory>
    ensures { IfOk result (λ out. out ≡ line_of (response_data (shown response.now)) ++ ok_line) }
{
    let mut out = response_bytes(alloc, response)?;
    out.extend_from_slice(ok_line())?;
    Ok(Blob::from_vec(out))
}

/// The lines of a request whose one response is a table: the line of that table
/// (`google.bigtable.admin.v2.Table`), and the status of success.
pub fn table_lines(alloc: Global, table: &TableInfo) -> Result<Blob, OutOfMemory>
    ensures { IfOk result (λ out. out ≡ line_of (response_data (shown_table table.now)) ++ ok_line) }
{
    let value = table_response(alloc, table)?;
    let mut out = line(alloc, &value)?;
    out.extend_from_slice(ok_line())?;
    Ok(Blob::from_vec(out))
}

fn table_response(alloc: Global, table: &TableInfo) -> Result<Value, OutOfMemory>
    ensures { IfOk result (λ v. view v ≡ response_data (shown_table table.now)) }
{
    let shown = table_value(alloc, table)?;
    response_object(alloc, shown)
}

fn response_object(alloc: Global, shown: Value) -> Result<Value, OutOfMemory>
    ensures { IfOk result (λ v. view v ≡ response_data (view shown)) }
{
    let value = json!(in alloc; {"response": shown})?;
    Ok(value)
}

/// The line of a status (`google.rpc.Status`), with its line feed. Code 0 and an empty text are left
/// out, so that success is `{"status":{}}`.
pub fn status_line(alloc: Global, code: u8, text: &str) -> Result<Blob, OutOfMemory>
    ensures { IfOk result (λ out. out ≡ line_of (status_data code text.now)) }
{
    let value = status_value(alloc, code, text)?;
    let out = line(alloc, &value)?;
    Ok(Blob::from_vec(out))
}

fn response_bytes(alloc: Global, response: &Response) -> Result<Vec<u8>, OutOfMemory>
    ensures { IfOk result (λ out. out.items ≡ line_of (response_data (shown response.now))) }
{
    match response {
        Response::MutateRows(statuses) => statuses_line(alloc, statuses.items()),
        _ => value_line(alloc, response),
    }
}

// The line of a response that is first made as a value.
fn value_line(alloc: Global, response: &Response) -> Result<Vec<u8>, OutOfMemory>
    requires { has_statuses response.now ≡ false }
    ensures { IfOk result (λ out. out.items ≡ line_of (response_data (shown response.now))) }
{
    let value = response_value(alloc, response)?;
    line(alloc, &value)
}

fn response_value(alloc: Global, response: &Response) -> Result<Value, OutOfMemory>
    requires { has_statuses response.now ≡ false }
    ensures { IfOk result (λ v. view v ≡ response_data (shown response.now)) }
{
    let shown = shown_value(alloc, response)?;
    response_object(alloc, shown)
}

fn shown_value(alloc: Global, response: &Response) -> Result<Value, OutOfMemory>
    requires { has_statuses response.now ≡ false }
    ensures { IfOk result (λ v. view v ≡ shown response.now) }
{
    match response {
        Response::CreateTable(table) => table_value(alloc, table),
        Response::GetTable(table) => table_value(alloc, table),
        Response::ListTables(names) => table_names_value(alloc, names.items()),
        Response::DeleteTable => Ok(Value::Object(Map::new(alloc))),
        Response::UpdateTable(table) => table_value(alloc, table),
        Response::ModifyColumnFamilies(table) => table_value(alloc, table),
        Response::DropRowRange => Ok(Value::Object(Map::new(alloc))),
        Response::MutateRow => Ok(Value::Object(Map::new(alloc))),
        Response::MutateRows(_) => unreachable!(),
        Response::ReadRows(chunks) => chunks_value(alloc, chunks),
        Response::CheckAndMutateRow(matched) => match_value(alloc, *matched),
        Response::ReadModifyWriteRow { key, cells } => row_response(alloc, key, cells.items()),
    }
}

fn match_value(alloc: Global, matched: bool) -> Result<Value, OutOfMemory>
    ensures { IfOk result (λ v. view v ≡ shown_match matched) }
{
    let mut members = Map::new(alloc);
    put_true(alloc, &mut members, matched, "predicateMatched")?;
    Ok(Value::Object(members))
}

fn row_response(alloc: Global, key: &RowKey, cells: &[Cell]) -> Result<Value, OutOfMemory>
    ensures { IfOk result (λ v. view v ≡ object_with (codes "row") (shown_row key.now cells.now)) }
{
    let row = row_value(alloc, key, cells)?;
    let value = json!(in alloc; {"row": row})?;
    Ok(value)
}

fn status_value(alloc: Global, code: u8, text: &str) -> Result<Value, OutOfMemory>
    ensures { IfOk result (λ v. view v ≡ status_data code text.now) }
{
    let status = status_members(alloc, code, text)?;
    let value = json!(in alloc; {"status": status})?;
    Ok(value)
}
