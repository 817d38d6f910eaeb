//! The rows of a table.
ghost use Rattle.std.specs.Prelude.{◌≡◌, ◌↔◌, [], IfNone, IfOk, IfSome, IsTrue, OnOk, OnErr, bytes_eq, filter, length, ◌<◌};
ghost use Rattle.std.specs.List.{list_any};
ghost use Rattle.std.specs.Map.{keys_of, values_of};
ghost use Rattle.bt_types.specs.declared.mutation.Mutation.TheVariants as mutations;
ghost use Rattle.bt_contents.specs.Contents.{AreHeld, IsTable, is_used, keyed_at, keys_with, row_at, seen, with_row};
ghost use Rattle.bt_row.specs.Sound.{IsHeld};
ghost use Rattle.bt_row.specs.Keys.{cells_of};
ghost use Rattle.bt_row.specs.Extents.{Covers, is_covered};
ghost use Rattle.bt_row.specs.declared.cell_key.CellKey.{CellKey};
ghost use Rattle.bt_row.specs.Plans.{AreLawful, CanSettle, IsPlan, placed, settled, value_at};
ghost use Rattle.bt_contents.specs.Ranges.{rows_within, unread};

use crate::contents_rows::ContentsRows;
use crate::ranges::rows_within;
use bt_base::{OutOfMemory, Plain};
use bt_row::{Ending, Extent, Plan, Row};
use bt_types::{FamilyName, KeyList, RowKey, RowRange};
use std::alloc::Global;
use std::collections::BTreeMap;
use std::collections::btree_map::Range;
use std::marker::Model;

/// The rows of a table by their keys: each has a cell, and a value has at most 4,194,304 bytes. A
/// contract sees the list of keys and cells in the order of keys.
#[derive(Drop)]
pub struct Contents {
    alloc: Global,
    pub(crate) rows: BTreeMap<RowKey, Row>,
}

impl Model for Contents {
    ghost use Rattle.std.specs.Prelude.{List, ℕ};
    ghost use Rattle.bt_types.specs.declared.cell.Cell.{Cell};
    ghost use Rattle.bt_contents.specs.Contents.{AreHeld, seen};

    ghost Value = { List (List ℕ × List Cell) };

    ghost view = { λ c. seen c.rows.entries };

    ghost invariant = { λ c. AreHeld c.rows.entries };
}

impl Contents {
    /// No rows, which takes no memory yet.
    pub fn new(alloc: Global) -> Contents
        ensures { result ≡ [] }
    {
        Contents {
            alloc,
            rows: BTreeMap::new(alloc),
        }
    }

    /// Whether there is no row.
    pub fn is_empty(&self) -> bool
        ensures empty { IsTrue result ↔ (self.now ≡ []) }
        ensures table { IsTable self.now }
    {
        self.rows.is_empty()
    }

    /// The rows whose keys are in the range, in the order of keys. The first one is searched for.
    /// Where memory for the search is short, or a bound is longer than a key, the rows before it are
    /// gone through instead.
    pub fn rows_in(&self, alloc: Global, range: &RowRange) -> ContentsRows<'_>
        ensures { result ≡ unread (rows_within range.now self.now) }
    {
        ContentsRows::new(alloc, rows_within(alloc, &self.rows, range))
    }

    /// The keys of the rows in the range, in order, of which the first is searched for as in `rows_in`.
    pub fn keys_in(&self, alloc: Global, range: &RowRange) -> Result<KeyList, OutOfMemory>
        ensures { IfOk result (λ keys. keys ≡ keys_of (rows_within range.now self.now)) }
    {
        match rows_within(alloc, &self.rows, range) {
            Some(rows) => keys_of(alloc, rows),
            None => Ok(KeyList::new(alloc)),
        }
    }

    /// The keys of the rows that have a cell of the family, in order. Each row is searched once.
    pub fn keys_with(&self, alloc: Global, family: &FamilyName) -> Result<KeyList, OutOfMemory>
        ensures { IfOk result (λ keys. keys ≡ keys_with family.now self.now) }
    {
        let extent = Extent::of_family(alloc, family.copy(alloc)?)?;
        keys_of_rows_with(alloc, &self.rows, &extent)
    }

    /// Whether a row has a cell of the family. Each row is searched once; where memory for the search is
    /// short, its cells are gone through instead.
    pub fn has_family(&self, family: &FamilyName) -> bool
        ensures { result ≡ is_used family.now self.now }
    {
        match extent_of(self.alloc, family) {
            Some(extent) => some_row_has(&self.rows, &extent),
            None => some_row_is_of(&self.rows, family),
        }
    }

    /// The row at a key, which is searched for; `None` where it is not there.
    pub fn get(&self, key: &RowKey) -> Option<&Row>
        ensures found { IfSome result (λ row. IsHeld row.now × (keyed_at key.now self.now ≡ row.now.cells.entries)) }
        ensures absent { IfNone result (keyed_at key.now self.now ≡ []) }
    {
        self.rows.get(key)
    }

    /// Puts a row with cells at a key, in the place of one that is there.
    pub fn put(&mut self, key: RowKey, row: Row) -> Result<(), OutOfMemory>
        requires { IsHeld row }
        ensures ok { OnOk result (self.new ≡ with_row key (cells_of row.cells.entries) self.old) }
        ensures err { OnErr result (self.new ≡ self.old) }
        ensures table { IsTable self.new }
    {
        self.rows.insert(key, row)?;
        Ok(())
    }

    /// Takes out the row at a key, which takes no memory.
    pub fn remove(&mut self, key: &RowKey)
        ensures row { self.new ≡ with_row key.now [] self.old }
        ensures table { IsTable self.new }
    {
        self.rows.remove(key);
    }
}

impl Contents {
    /// Makes the cells that a plan of the row at a key wants, without bytes yet, all or none.
    pub fn make_places(
        &mut self,
        alloc: Global,
        key: &RowKey,
        plan: &Plan,
    ) -> Result<(), OutOfMemory>
        requires there { 0 < length (row_at key.now self.old) }
        requires plan { IsPlan plan.now (keyed_at key.now self.old) }
        ensures row { OnOk result (self.new ≡ with_row key.now (row_at key.now self.new) self.old) }
        ensures values { OnOk result ((k : CellKey) → value_at (keyed_at key.now self.new) k ≡ placed plan.now.outcomes.entries (value_at (keyed_at key.now self.old)) k) }
        ensures filled { OnOk result (0 < length self.old → 0 < length self.new) }
        ensures err { OnErr result (self.new ≡ self.old) }
        ensures table { IsTable self.new }
    {
        make_row_places(&mut self.rows, alloc, key, plan)
    }

    /// Ends a plan of the row at a key, which takes no memory.
    pub fn settle(&mut self, key: &RowKey, plan: Plan, ending: Ending)
        requires lawful { AreLawful plan.outcomes.entries }
        requires can { CanSettle ending plan (keyed_at key.now self.old) }
        ensures row { self.new ≡ with_row key.now (row_at key.now self.new) self.old }
        ensures values { (k : CellKey) → value_at (keyed_at key.now self.new) k ≡ settled ending plan (keyed_at key.now self.old) k }
        ensures table { IsTable self.new }
    {
        settle_row(&mut self.rows, key, plan, ending);
    }
}

fn make_row_places(
    rows: &mut BTreeMap<RowKey, Row>,
    alloc: Global,
    key: &RowKey,
    plan: &Plan,
) -> Result<(), OutOfMemory>
    requires held { AreHeld rows.old.entries }
    requires there { 0 < length (row_at key.now (seen rows.old.entries)) }
    requires plan { IsPlan plan.now (keyed_at key.now (seen rows.old.entries)) }
    ensures row { OnOk result (seen rows.new.entries ≡ with_row key.now (row_at key.now (seen rows.new.entries)) (seen rows.old.entries)) }
    ensures values { OnOk result ((k : CellKey) → value_at (keyed_at key.now (seen rows.new.entries)) k ≡ placed plan.now.outcomes.entries (value_at (keyed_at key.now (seen rows.old.entries))) k) }
    ensures filled { OnOk result (0 < length (seen rows.old.entries) → 0 < length (seen rows.new.entries)) }
    ensures err { OnErr result (seen rows.new.entries ≡ seen rows.old.entries) }
    ensures held { AreHeld rows.new.entries }
{
    match rows.get_mut(key) {
        Some(row) => {
            row.make_places(alloc, plan)?;
            Ok(())
        }
        None => unreachable!(),
    }
}

fn settle_row(rows: &mut BTreeMap<RowKey, Row>, key: &RowKey, plan: Plan, ending: Ending)
    requires held { AreHeld rows.old.entries }
    requires lawful { AreLawful plan.outcomes.entries }
    requires can { CanSettle ending plan (keyed_at key.now (seen rows.old.entries)) }
    ensures row { seen rows.new.entries ≡ with_row key.now (row_at key.now (seen rows.new.entries)) (seen rows.old.entries) }
    ensures values { (k : CellKey) → value_at (keyed_at key.now (seen rows.new.entries)) k ≡ settled ending plan (keyed_at key.now (seen rows.old.entries)) k }
    ensures held { AreHeld rows.new.entries }
{
    let Some(row) = rows.get_mut(key) else {
        return;
    };
    row.settle(plan, ending);
    if row.is_empty() {
        rows.remove(key);
    }
}

fn keys_of(alloc: Global, rows: Range<'_, RowKey, Row>) -> Result<KeyList, OutOfMemory>
    ensures { IfOk result (λ keys. keys ≡ keys_of rows.entry) }
{
    let mut keys = KeyList::new(alloc);
    for (key, _) in rows {
        keys.push(key.copy(alloc)?)?;
    }
    Ok(keys)
}

fn keys_of_rows_with(
    alloc: Global,
    rows: &BTreeMap<RowKey, Row>,
    extent: &Extent,
) -> Result<KeyList, OutOfMemory>
    ensures { IfOk result (λ keys. keys ≡ keys_of (filter (λ r. list_any (is_covered extent.now) (keys_of r.1.cells.entries)) rows.now.entries)) }
{
    let mut keys = KeyList::new(alloc);
    for (key, row) in rows {
        if extent.has_any(&row.cells) {
            keys.push(key.copy(alloc)?)?;
        }
    }
    Ok(keys)
}

// The cells of a family, where there is memory for the search.
fn extent_of(alloc: Global, family: &FamilyName) -> Option<Extent>
    ensures { IfSome result (λ extent. Covers extent (mutations.DeleteFamily family.now)) }
{
    let family = family.copy(alloc).ok()?;
    Extent::of_family(alloc, family).ok()
}

fn some_row_has(rows: &BTreeMap<RowKey, Row>, extent: &Extent) -> bool
    ensures { result ≡ list_any (λ r. list_any (is_covered extent.now) (keys_of r.cells.entries)) (values_of rows.now.entries) }
{
    rows.values().any(|row| extent.has_any(&row.cells))
}

fn some_row_is_of(rows: &BTreeMap<RowKey, Row>, family: &FamilyName) -> bool
    ensures { result ≡ list_any (λ r. list_any (λ k. bytes_eq k.family family.now) (keys_of r.cells.entries)) (values_of rows.now.entries) }
{
    rows.values().any(|row| row.is_of(family))
}
