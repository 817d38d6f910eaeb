//! From a method and a value to a request, or to the refusal that comes first.
ghost use Rattle.std.specs.Prelude.{◌≡◌, IfOk};
ghost use Rattle.bt_json.specs.View.{view};
ghost use Rattle.bt_requests.specs.Order.{InOrder};
ghost use Rattle.bt_requests.specs.Readers.{HasOrder, IsInOrder};
ghost use Rattle.bt_requests.specs.Refusals.{Answers};
ghost use Rattle.bt_requests.specs.Requests.{request_in, message_of, asked_of};

use crate::check_and_mutate::check_and_mutate_row;
use crate::create_table::create_table;
use crate::drop_row_range::drop_row_range;
use crate::list_tables::list_tables;
use crate::method::Method;
use crate::modifications::modify_column_families;
use crate::mutations::{mutate_row, mutate_rows};
use crate::named_table::{delete_table, get_table, update_table};
use crate::read_modify_write::read_modify_write_row;
use crate::read_rows::read_rows;
use crate::refusal::{RequestRefusal, members_refusal};
use crate::request::Request;
use crate::request_object::RequestObject;
use bt_base::OutOfMemory;
use bt_json::Value;
use bt_members::kinds;
use std::alloc::Global;

/// What a request asks for, by its object, as `read_envelope` gives it. Each refusal comes
/// exactly where none of those before it does: `NotBuilt`, `Unsupported`, `BadField`, `BadName`.
pub fn read_request(
    alloc: Global,
    method: Method,
    object: &RequestObject<'_>,
) -> Result<Request, RequestRefusal>
    ensures exact { Answers (request_in method (view object.now.value)) result }
    ensures order { IfOk result HasOrder }
{
    let Some(message) = message_of(method) else {
        return Err(RequestRefusal::NotBuilt);
    };
    let value = &object.value;
    if let Some(refusal) = members_refusal(alloc, message, value)? {
        return Err(refusal);
    }
    match asked_of(alloc, method, value)? {
        Some(request) => Ok(request),
        None => Err(RequestRefusal::BadName),
    }
}

// The message of a method that is built.
fn message_of(method: Method) -> Option<u8>
    ensures { result ≡ message_of method }
{
    match method {
        Method::CreateTable => Some(kinds::CREATE_TABLE),
        Method::GetTable => Some(kinds::GET_TABLE),
        Method::ListTables => Some(kinds::LIST_TABLES),
        Method::DeleteTable => Some(kinds::DELETE_TABLE),
        Method::UpdateTable => Some(kinds::UPDATE_TABLE),
        Method::ModifyColumnFamilies => Some(kinds::MODIFY_COLUMN_FAMILIES),
        Method::DropRowRange => Some(kinds::DROP_ROW_RANGE),
        Method::MutateRows => Some(kinds::MUTATE_ROWS),
        Method::ReadRows => Some(kinds::READ_ROWS),
        Method::MutateRow => Some(kinds::MUTATE_ROW),
        Method::CheckAndMutateRow => Some(kinds::CHECK_AND_MUTATE_ROW),
        Method::ReadModifyWriteRow => Some(kinds::READ_MODIFY_WRITE_ROW),
        _ => None,
    }
}

// The request of a method, or `None` where a name in it is not lawful.
fn asked_of(
    alloc: Global,
    method: Method,
    value: &Value<'_>,
) -> Result<Option<Request>, OutOfMemory>
    requires in_order { ∥ InOrder (view value.now) ∥₁ }
    ensures exact { IfOk result (λ r. r ≡ asked_of method (view value.now)) }
    ensures order { IfOk result IsInOrder }
{
    match method {
        Method::CreateTable => create_table(alloc, value),
        Method::GetTable => get_table(alloc, value),
        Method::ListTables => list_tables(alloc, value),
        Method::DeleteTable => delete_table(alloc, value),
        Method::UpdateTable => update_table(alloc, value),
        Method::ModifyColumnFamilies => modify_column_families(alloc, value),
        Method::DropRowRange => drop_row_range(alloc, value),
        Method::ReadRows => read_rows(alloc, value),
        Method::MutateRow => mutate_row(alloc, value),
        Method::MutateRows => mutate_rows(alloc, value),
        Method::CheckAndMutateRow => check_and_mutate_row(alloc, value),
        Method::ReadModifyWriteRow => read_modify_write_row(alloc, value),
        _ => Ok(None),
    }
}
