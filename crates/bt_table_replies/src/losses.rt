//! Rows that lose the cells of families.
ghost use Rattle.std.specs.Prelude.{◌≡◌, ◌+◌, ◌≤◌, [], IfOk, IsTrue, OnOk, fold, map, option_map, unwrap_or};
ghost use Rattle.std.specs.List.{AllByRecursion};
ghost use Rattle.std.specs.List.Sorted.{IsStrictlySortedBy};
ghost use Rattle.std.specs.Ordering.{nat_cmp};
ghost use Rattle.std.specs.Cmp.Lexicographic.{slice_cmp};
ghost use Rattle.std.specs.Map.{keys_of};
ghost use Rattle.bt_contents.specs.Contents.{keys_with};
ghost use Rattle.bt_plans.specs.Records.{numbered_from};
ghost use Rattle.bt_state.specs.State.{greatest_sequence};
ghost use Rattle.bt_table_replies.specs.Losses.{loss_entry, losses, with_loss};
ghost use Rattle.bt_types.specs.Grammar.{is_row_key};

use bt_base::{OutOfMemory, Plain};
use bt_contents::Contents;
use bt_entry::{Batch, Entry};
use bt_plans::put_entry;
use bt_types::{FamilyList, FamilyName, Mutation, MutationList, RowKey};
use std::alloc::Global;
use std::collections::BTreeMap;

/// The rows that lose cells, by their keys, each with the deletions that it is given.
pub(crate) type Losses = BTreeMap<RowKey, MutationList>;

/// The rows that have a cell of one of the families, with a deletion of each family that a row has,
/// in the order of the names. Each row is searched once for each family.
pub(crate) fn losses(
    alloc: Global,
    rows: Option<&Contents>,
    families: &FamilyList,
) -> Result<Losses, OutOfMemory>
    ensures losses { IfOk result (λ all. all.entries ≡ losses families.now (unwrap_or (option_map (λ c. c.now) rows.entry) [])) }
    ensures sorted { OnOk result (IsStrictlySortedBy (slice_cmp nat_cmp) (keys_of (unwrap_or (option_map (λ c. c.now) rows.entry) []))) }
{
    match rows {
        Some(rows) => losses_in(alloc, rows, families),
        None => Ok(BTreeMap::new(alloc)),
    }
}

fn losses_in(alloc: Global, rows: &Contents, families: &FamilyList) -> Result<Losses, OutOfMemory>
    ensures losses { IfOk result (λ all. all.entries ≡ losses families.now rows.now) }
    ensures sorted { OnOk result (IsStrictlySortedBy (slice_cmp nat_cmp) (keys_of rows.now)) }
{
    let mut all = BTreeMap::new(alloc);
    if rows.is_empty() {
        return Ok(all);
    }
    for family in families.items() {
        add_losses(alloc, &mut all, rows, family)?;
    }
    Ok(all)
}

// The rows that have a cell of the family lose it too.
fn add_losses(
    alloc: Global,
    all: &mut Losses,
    rows: &Contents,
    family: &FamilyName,
) -> Result<(), OutOfMemory>
    ensures { OnOk result (all.new.entries ≡ fold (with_loss family.now) all.old.entries (keys_with family.now rows.now)) }
{
    for key in rows.keys_with(alloc, family)?.into_vec() {
        add_loss(alloc, all, key, family)?;
    }
    Ok(())
}

fn add_loss(
    alloc: Global,
    all: &mut Losses,
    key: RowKey,
    family: &FamilyName,
) -> Result<(), OutOfMemory>
    ensures { OnOk result (all.new.entries ≡ with_loss family.now all.old.entries key) }
{
    let family = family.copy(alloc)?;
    let deletion = Mutation::DeleteFamily { family };
    match all.get_mut(&key) {
        Some(deletions) => deletions.push(deletion),
        None => {
            let mut deletions = MutationList::new(alloc);
            deletions.push(deletion)?;
            all.insert(key, deletions)?;
            Ok(())
        }
    }
}

/// An entry for each of the rows, in the order of their keys. The first has that sequence.
pub(crate) fn loss_entries(
    alloc: Global,
    incarnation: u64,
    all: Losses,
    first: u64,
    moment: u64,
) -> Result<Batch, OutOfMemory>
    requires { first ≤ greatest_sequence + 1 }
    ensures entries { IfOk result (λ batch. batch ≡ numbered_from first moment (map (loss_entry incarnation) all.entries)) }
    ensures keys { OnOk result (AllByRecursion (λ l. IsTrue (is_row_key l.0)) all.entries) }
{
    let mut batch = Batch::new(alloc);
    for (key, deletions) in all {
        let entry = loss_entry(incarnation, key, deletions);
        put_entry(&mut batch, first, moment, entry)?;
    }
    Ok(batch)
}

fn loss_entry(incarnation: u64, key: RowKey, deletions: MutationList) -> Entry
    ensures entry { result ≡ loss_entry incarnation (key, deletions) }
    ensures key { IsTrue (is_row_key key) }
{
    let _bytes = key.bytes();
    Entry::Row {
        incarnation,
        key,
        by_rule: false,
        mutations: deletions,
    }
}
