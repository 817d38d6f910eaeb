//! DropRowRange.
ghost use Rattle.std.specs.Prelude.{◌≡◌, ◌<◌, ◌≤◌, ◌+◌, [], Some, All, IfOk, OnOk, map, option_map, unwrap_or};
ghost use Rattle.std.specs.List.{AllByRecursion};
ghost use Rattle.std.specs.Map.{keys_of};
ghost use Rattle.std.specs.Result.{result_err};
ghost use Rattle.bt_contents.specs.Ranges.{rows_within};
ghost use Rattle.bt_entry.specs.Grammar.{last_moment};
ghost use Rattle.bt_plans.specs.Plans.{IsPlan};
ghost use Rattle.bt_plans.specs.Records.{numbered_on};
ghost use Rattle.bt_row_replies.specs.Drops.{IsKey, cut_every, deletion_of, drop_reply, is_full, target_range, target_refusal, with_item};
ghost use Rattle.bt_schema.specs.Schema.{table_of};
ghost use Rattle.bt_state.specs.State.{greatest_sequence};

use crate::prefix::prefix_range;
use bt_base::{Blob, OutOfMemory};
use bt_contents::Contents;
use bt_entry::{Batch, Entry, Numbered, TableInfo};
use bt_messages::Refusal;
use bt_plans::{Answer, Plan, RecordList, incarnation_of, next_sequence, plan_of};
use bt_requests::DropTarget;
use bt_state::Present;
use bt_types::{KeyList, Mutation, MutationList, RowKey, RowRange, TableName};
use std::alloc::Global;

const MOST_IN_RECORD: usize = 1000;

/// The rows whose keys begin with a prefix go, or all rows of the table
/// (`google.bigtable.admin.v2.DropRowRangeRequest`). Rows are looked up by their keys.
pub fn drop_row_range(
    alloc: Global,
    present: &Present,
    name: &TableName,
    target: Option<DropTarget>,
    moment: u64,
) -> Result<Plan, OutOfMemory>
    requires not_before { present.now.floor ≤ moment }
    requires not_past { moment ≤ last_moment }
    ensures { IfOk result (λ plan. IsPlan plan present.now (drop_reply present.now moment target (table_of name.now present.now.schema))) }
{
    let Some(table) = present.table(name) else {
        return Ok(Plan::refuses(Refusal::TableNotFound));
    };
    let target = match lawful_target(target) {
        Ok(target) => target,
        Err(refusal) => return Ok(Plan::refuses(refusal)),
    };
    let Some(range) = target_range(alloc, target)? else {
        return Ok(Plan::Says(Answer::Empty));
    };
    let keys = keys_in(alloc, present.rows_of(table.incarnation), &range)?;
    let records = deletions(alloc, table, keys, next_sequence(present), moment)?;
    Ok(plan_of(records, Answer::Empty))
}

fn lawful_target(target: Option<DropTarget>) -> Result<DropTarget, Refusal>
    ensures refusal { result_err result ≡ target_refusal target }
    ensures target { IfOk result (λ lawful. target ≡ Some lawful) }
{
    match target {
        None => Err(Refusal::NoTarget),
        Some(DropTarget::Prefix(front)) => {
            if front.bytes().is_empty() {
                return Err(Refusal::NoTarget);
            }
            Ok(DropTarget::Prefix(front))
        }
        Some(DropTarget::All(all)) => Ok(DropTarget::All(all)),
    }
}

// The range of the rows, or none where no row is to go.
fn target_range(alloc: Global, target: DropTarget) -> Result<Option<RowRange>, OutOfMemory>
    ensures { IfOk result (λ range. range ≡ target_range target) }
{
    match target {
        DropTarget::Prefix(front) => Ok(Some(prefix_range(alloc, front)?)),
        DropTarget::All(false) => Ok(None),
        DropTarget::All(true) => {
            let front = Blob::from_vec(Vec::new(alloc));
            Ok(Some(prefix_range(alloc, front)?))
        }
    }
}

fn keys_in(alloc: Global, rows: Option<&Contents>, range: &RowRange) -> Result<KeyList, OutOfMemory>
    ensures { IfOk result (λ keys. keys ≡ keys_of (rows_within range.now (unwrap_or (option_map (λ c. c.now) rows.entry) []))) }
{
    match rows {
        Some(rows) => rows.keys_in(alloc, range),
        None => Ok(KeyList::new(alloc)),
    }
}

// A deletion of each row, of which the first has that sequence.
fn deletions(
    alloc: Global,
    table: &TableInfo,
    keys: KeyList,
    first: u64,
    moment: u64,
) -> Result<RecordList, OutOfMemory>
    requires { first ≤ greatest_sequence + 1 }
    ensures records { IfOk result (λ records. records ≡ numbered_on first moment (cut_every 1000 (map (deletion_of table.now) keys))) }
    ensures keys { OnOk result (AllByRecursion IsKey keys) }
{
    let mut records = Vec::new(alloc);
    let mut sequence = first;
    for key in keys.into_vec() {
        let entry = deletion(alloc, table, key)?;
        let deletion = Numbered {
            sequence,
            moment,
            entry,
        };
        put(alloc, &mut records, deletion)?;
        sequence += 1;
    }
    Ok(RecordList::from_vec(records))
}

fn deletion(alloc: Global, table: &TableInfo, key: RowKey) -> Result<Entry, OutOfMemory>
    ensures entry { IfOk result (λ entry. entry ≡ deletion_of table.now key) }
    ensures key { OnOk result (IsKey key) }
{
    are_bytes(key.bytes());
    let mut mutations = MutationList::new(alloc);
    mutations.push(Mutation::DeleteRow)?;
    Ok(Entry::Row {
        incarnation: incarnation_of(table),
        key,
        by_rule: false,
        mutations,
    })
}

// Tells that each item is a byte.
fn are_bytes(bytes: &[u8])
    ensures { All (λ b. b < 256) bytes.now }
{
    let _first = bytes.first();
}

// Puts an entry in the last record, or in a new one where that has as many as it may have.
fn put(alloc: Global, records: &mut Vec<Batch>, entry: Numbered) -> Result<(), OutOfMemory>
    ensures { OnOk result (records.new.items ≡ with_item 1000 records.old.items entry) }
{
    if is_full(records.as_slice()) {
        let mut record = Batch::new(alloc);
        record.push(entry)?;
        records.push(record)?;
        return Ok(());
    }
    match records.last_mut() {
        Some(record) => record.push(entry),
        None => unreachable!(),
    }
}

// Whether a further entry has to be in a new record.
fn is_full(records: &[Batch]) -> bool
    ensures { result ≡ is_full 1000 records.now }
{
    match records.last() {
        Some(record) => record.items().len() >= MOST_IN_RECORD,
        None => true,
    }
}
