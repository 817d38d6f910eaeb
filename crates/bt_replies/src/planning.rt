//! From a line to its plan.
ghost use Rattle.std.specs.Prelude.{◌≡◌, ◌≤◌, IfOk};
ghost use Rattle.bt_json.specs.View.{view};
ghost use Rattle.bt_entry.specs.Grammar.{last_moment};
ghost use Rattle.bt_plans.specs.Plans.{IsPlan, IsPlanOf};
ghost use Rattle.bt_plans.specs.Replies.{refused_by};
ghost use Rattle.bt_replies.specs.Lines.{IsAskedReply, IsOfRows, IsReplyTo, IsRequestReply, envelope_refusal, request_refusal_line};
ghost use Rattle.bt_requests.specs.Readers.{HasOrder};
ghost use Rattle.bt_requests.specs.Requests.{request_in};
ghost use Rattle.bt_state.specs.State.{Present};

use bt_base::OutOfMemory;
use bt_json::Scratch;
use bt_messages::{Refusal, bad_field_line, unsupported_line};
use bt_plans::{Answer, Plan};
use bt_read_write_replies::check_and_mutate_row::{Check, check_and_mutate_row};
use bt_read_write_replies::read_modify_write_row::read_modify_write_row;
use bt_requests::{
    LineRefusal, Method, Request, RequestObject, RequestRefusal, read_envelope, read_request,
};
use bt_row_replies::drop_row_range::drop_row_range;
use bt_row_replies::mutate_row::mutate_row;
use bt_row_replies::mutate_rows::mutate_rows;
use bt_row_replies::read_rows::read_rows;
use bt_state::Present;
use bt_table_replies::create_table::create_table;
use bt_table_replies::delete_table::delete_table;
use bt_table_replies::get_table::get_table;
use bt_table_replies::list_tables::list_tables;
use bt_table_replies::modify_column_families::modify_column_families;
use bt_table_replies::update_table::update_table;
use std::alloc::Global;

/// What a line is answered at a moment, in microseconds since 1970, over the tables as they are, and
/// the records of its change, whose entries may come next. A change that is too large for the log, or
/// for which no sequence is left, is not yet refused.
pub fn planned(
    alloc: Global,
    present: &Present,
    line: &[u8],
    moment: u64,
) -> Result<Plan, OutOfMemory>
    requires not_before { present.now.floor ≤ moment }
    requires not_past { moment ≤ last_moment }
    ensures { IfOk result (λ plan. IsPlanOf plan present.now (IsReplyTo present.now moment line.now)) }
{
    let mut scratch = Scratch::new(alloc);
    match read_envelope(alloc, line, &mut scratch) {
        Ok((method, object)) => asked_plan(alloc, present, method, &object, moment),
        Err(LineRefusal::OutOfMemory) => Err(OutOfMemory),
        Err(refusal) => Ok(Plan::refuses(envelope_refusal(refusal))),
    }
}

fn envelope_refusal(refusal: LineRefusal) -> Refusal
    ensures { result ≡ envelope_refusal refusal }
{
    match refusal {
        LineRefusal::NotJson => Refusal::NotJson,
        LineRefusal::BadEnvelope => Refusal::BadEnvelope,
        LineRefusal::UnknownMethod => Refusal::UnknownMethod,
        LineRefusal::OutOfMemory => Refusal::OutOfMemory,
    }
}

fn asked_plan(
    alloc: Global,
    present: &Present,
    method: Method,
    object: &RequestObject<'_>,
    moment: u64,
) -> Result<Plan, OutOfMemory>
    requires not_before { present.now.floor ≤ moment }
    requires not_past { moment ≤ last_moment }
    ensures { IfOk result (λ plan. IsPlanOf plan present.now (IsAskedReply present.now moment (request_in method (view object.now.value)))) }
{
    match read_request(alloc, method, object) {
        Ok(request) => request_plan(alloc, present, request, moment),
        Err(RequestRefusal::OutOfMemory) => Err(OutOfMemory),
        Err(refusal) => refusal_plan(alloc, refusal),
    }
}

fn refusal_plan(alloc: Global, refusal: RequestRefusal) -> Result<Plan, OutOfMemory>
    ensures { IfOk result (λ plan. (p : Present) → IsPlan plan p (refused_by (request_refusal_line refusal))) }
{
    match refusal {
        RequestRefusal::NotBuilt => Ok(Plan::refuses(Refusal::NotBuilt)),
        RequestRefusal::Unsupported { name } => {
            let line = unsupported_line(alloc, name.bytes())?;
            Ok(Plan::Says(Answer::Lines(line)))
        }
        RequestRefusal::BadField { name } => {
            let line = bad_field_line(alloc, name.bytes())?;
            Ok(Plan::Says(Answer::Lines(line)))
        }
        RequestRefusal::BadName => Ok(Plan::refuses(Refusal::BadName)),
        RequestRefusal::OutOfMemory => Err(OutOfMemory),
    }
}

// One line for each method on tables.
fn request_plan(
    alloc: Global,
    present: &Present,
    request: Request,
    moment: u64,
) -> Result<Plan, OutOfMemory>
    requires order { HasOrder request }
    requires not_before { present.now.floor ≤ moment }
    requires not_past { moment ≤ last_moment }
    ensures { IfOk result (λ plan. IsPlanOf plan present.now (IsRequestReply present.now moment request)) }
{
    match request {
        Request::CreateTable {
            name,
            families,
            retention,
        } => create_table(alloc, present, name, families, retention, moment),
        Request::GetTable { name } => get_table(alloc, present, &name),
        Request::ListTables { parent, page_token } => {
            list_tables(alloc, present, &parent, &page_token)
        }
        Request::DeleteTable { name } => delete_table(alloc, present, &name, moment),
        Request::UpdateTable {
            name,
            mask,
            retention,
        } => update_table(alloc, present, &name, &mask, retention, moment),
        Request::ModifyColumnFamilies { name, changes } => {
            modify_column_families(alloc, present, &name, changes, moment)
        }
        request => row_plan(alloc, present, request, moment),
    }
}

// One line for each method on rows.
fn row_plan(
    alloc: Global,
    present: &Present,
    request: Request,
    moment: u64,
) -> Result<Plan, OutOfMemory>
    requires of_rows { IsOfRows request }
    requires not_before { present.now.floor ≤ moment }
    requires not_past { moment ≤ last_moment }
    ensures { IfOk result (λ plan. IsPlanOf plan present.now (IsRequestReply present.now moment request)) }
{
    match request {
        Request::DropRowRange { name, target } => {
            drop_row_range(alloc, present, &name, target, moment)
        }
        Request::MutateRow {
            name,
            key,
            mutations,
        } => mutate_row(alloc, present, &name, key, mutations, moment),
        Request::MutateRows { name, entries } => {
            mutate_rows(alloc, present, &name, entries, moment)
        }
        Request::ReadRows {
            name,
            keys,
            ranges,
            filter,
            rows_limit,
        } => read_rows(alloc, present, &name, keys, ranges, filter, rows_limit),
        Request::CheckAndMutateRow {
            name,
            key,
            predicate,
            yes,
            no,
        } => {
            let check = Check {
                key,
                predicate,
                yes,
                no,
            };
            check_and_mutate_row(alloc, present, &name, check, moment)
        }
        Request::ReadModifyWriteRow { name, key, rules } => {
            read_modify_write_row(alloc, present, &name, &key, rules, moment)
        }
        _ => unreachable!(),
    }
}
