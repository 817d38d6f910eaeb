//! What the entries of a batch change, taken apart.
ghost use Rattle.std.specs.Prelude.{◌≡◌, IfOk, OnOk, unwrap_or};
ghost use Rattle.std.specs.List.{list_all};
ghost use Rattle.bt_state.specs.Batches.{AreChanges, deleted_by, deleted_of, floor_after, keeps_schema, row_change_of, row_changes_of, schema_by_all, without_all};

use bt_all_contents::{AllContents, RowChange, RowChangeList};
use bt_base::{OutOfMemory, Plain};
use bt_entry::{Batch, Entry, Numbered};
use bt_schema::Schema;
use std::alloc::Global;

// The tables after the entries, as a copy; `None` where they stay as they are.
pub(crate) fn changed_schema(
    alloc: Global,
    schema: &Schema,
    batch: &[Numbered],
) -> Result<Option<Schema>, OutOfMemory>
    requires { AreChanges schema.now batch.now }
    ensures { IfOk result (λ changed. unwrap_or changed schema.now ≡ schema_by_all schema.now batch.now) }
{
    if keep_schema(batch) {
        return Ok(None);
    }
    let mut changed = schema.copy(alloc)?;
    change_schema(alloc, &mut changed, batch)?;
    Ok(Some(changed))
}

fn keep_schema(batch: &[Numbered]) -> bool
    ensures { result ≡ list_all (λ n. keeps_schema n.entry) batch.now }
{
    batch.iter().all(|numbered| keeps_schema(&numbered.entry))
}

fn keeps_schema(entry: &Entry) -> bool
    ensures { result ≡ keeps_schema entry.now }
{
    match entry {
        Entry::Row { .. } => true,
        Entry::Create { .. } => false,
        Entry::Delete { .. } => false,
        Entry::Alter { .. } => false,
        Entry::Stream { .. } => false,
        Entry::Floor => true,
    }
}

// Where it fails, some of the changes may have been made.
fn change_schema(alloc: Global, schema: &mut Schema, batch: &[Numbered]) -> Result<(), OutOfMemory>
    requires { AreChanges schema.old batch.now }
    ensures { OnOk result (schema.new ≡ schema_by_all schema.old batch.now) }
{
    for change in batch {
        schema.apply_change(alloc, change)?;
    }
    Ok(())
}

pub(crate) fn put_schema(schema: &mut Schema, changed: Option<Schema>)
    ensures { schema.new ≡ unwrap_or changed schema.old }
{
    match changed {
        Some(changed) => *schema = changed,
        None => {}
    }
}

// The incarnations of the tables that the entries delete.
pub(crate) fn deleted_tables(alloc: Global, batch: &[Numbered]) -> Result<Vec<u64>, OutOfMemory>
    ensures { IfOk result (λ deleted. deleted.items ≡ deleted_of batch.now) }
{
    let mut deleted = Vec::new(alloc);
    for numbered in batch {
        if let Some(incarnation) = deleted_table(&numbered.entry) {
            deleted.push(incarnation)?;
        }
    }
    Ok(deleted)
}

fn deleted_table(entry: &Entry) -> Option<u64>
    ensures { result ≡ deleted_by entry.now }
{
    match entry {
        Entry::Row { .. } => None,
        Entry::Create { .. } => None,
        Entry::Delete { incarnation } => Some(*incarnation),
        Entry::Alter { .. } => None,
        Entry::Stream { .. } => None,
        Entry::Floor => None,
    }
}

// The changes of rows, without a copy.
pub(crate) fn row_changes(alloc: Global, batch: Batch) -> Result<RowChangeList, OutOfMemory>
    ensures { IfOk result (λ changes. changes ≡ row_changes_of batch) }
{
    let changes = batch
        .into_vec()
        .into_iter()
        .filter_map(row_change)
        .collect(alloc)?;
    Ok(RowChangeList::from_vec(changes))
}

fn row_change(numbered: Numbered) -> Option<RowChange>
    ensures { result ≡ row_change_of numbered.entry }
{
    match numbered.entry {
        Entry::Row {
            incarnation,
            key,
            mutations,
            ..
        } => Some(RowChange {
            incarnation,
            key,
            mutations,
        }),
        Entry::Create { .. } => None,
        Entry::Delete { .. } => None,
        Entry::Alter { .. } => None,
        Entry::Stream { .. } => None,
        Entry::Floor => None,
    }
}

pub(crate) fn forget_all(contents: &mut AllContents, incarnations: Vec<u64>)
    ensures { contents.new ≡ without_all incarnations.items contents.old }
{
    for incarnation in incarnations {
        contents.forget(incarnation);
    }
}

// The moment of the last entry; where there is none, the floor.
pub(crate) fn floor_after(floor: u64, batch: &[Numbered]) -> u64
    ensures { result ≡ floor_after floor batch.now }
{
    match batch.last() {
        Some(numbered) => numbered.moment,
        None => floor,
    }
}
