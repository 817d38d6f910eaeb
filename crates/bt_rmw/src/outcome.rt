//! What rules make of a row.
ghost use Rattle.std.specs.Prelude.{◌≡◌, ◌<◌, ◌≤◌, ◌^◌, List, ◌∷◌, length, map, Option, Ok, IfOk, IfErr, OnOk};
ghost use Rattle.std.specs.List.{AllByRecursion};
ghost use Rattle.std.specs.List.Sorted.{IsStrictlySortedBy};
ghost use Rattle.std.specs.Map.{keys_of};
ghost use Rattle.std.specs.Option.{option_or};
ghost use Rattle.bt_types.specs.declared.cell.Cell.{Cell};
ghost use Rattle.bt_entry.specs.Grammar.{IsSpellableMutation, last_moment, most_of_value};
ghost use Rattle.bt_rmw.specs.declared.column.Column.{Column};
ghost use Rattle.bt_rmw.specs.Columns.{column_order};
ghost use Rattle.bt_rmw.specs.Held.{AreShort, Stamped, cell_in, cells_of, held_at, latest_stamped, put_stamped, stamped_after};
ghost use Rattle.bt_rmw.specs.Modified.{modified, set_of};
ghost use Rattle.bt_rmw.specs.Rules.{RefusesToModify, column_of};

use crate::column::Column;
use crate::refusal::ModifyRefusal;
use crate::rule::{ModifyRule, ModifyRuleList};
use crate::version::{Version, version_after};
use bt_base::{Blob, OutOfMemory, Plain};
use bt_types::{Cell, CellList, Mutation, MutationList};
use std::alloc::Global;
use std::collections::BTreeMap;

type Versions = BTreeMap<Column, Version>;

/// The cells that rules make of the latest cells of a row's columns, one for each column that a rule names, in
/// the order of columns, and the mutations that set them (`google.bigtable.v2.ReadModifyWriteRowRequest`).
/// `latest` has the latest cell of each such column that the row has; of several cells of a column the first
/// counts. `moment` is in microseconds since 1970. The timestamp of a new cell is the moment, cut down to a
/// multiple of 1,000, or that of the cell before where it is later. A rule takes three searches, and what it
/// appends is put behind the value in place.
pub fn modify(
    alloc: Global,
    rules: ModifyRuleList,
    latest: CellList,
    moment: u64,
) -> Result<(MutationList, CellList), ModifyRefusal>
    requires few { length rules < 2 ^ 32 }
    requires moment { moment ≤ last_moment }
    ensures cells { IfOk result (λ made. modified moment rules latest ≡ Ok made.1) }
    ensures mutations { IfOk result (λ made. made.0 ≡ map set_of made.1) }
    ensures refusal { IfErr result (λ why. RefusesToModify (modified moment rules latest) why) }
    ensures spellable { IfOk result (λ made. AllByRecursion IsSpellableMutation made.0) }
{
    let mut latest = latest_of(alloc, latest)?;
    let mut made = BTreeMap::new(alloc);
    let mut index = 0;
    for rule in rules.into_vec() {
        carry_out(alloc, &mut latest, &mut made, rule, moment, index)?;
        index += 1;
    }
    Ok(written(alloc, made)?)
}

// The first cell of each column.
fn latest_of(alloc: Global, cells: CellList) -> Result<Versions, OutOfMemory>
    ensures { IfOk result (λ latest. (k : Column) → held_at latest.entries k ≡ latest_stamped cells k) }
{
    let mut latest = BTreeMap::new(alloc);
    for cell in cells.into_vec() {
        add_later(alloc, &mut latest, cell)?;
    }
    Ok(latest)
}

// Adds what is read of a cell, where its column has nothing yet.
fn add_later(alloc: Global, latest: &mut Versions, cell: Cell) -> Result<(), OutOfMemory>
    ensures { OnOk result ((k : Column) (rest : List Cell) → option_or (held_at latest.new.entries k) (latest_stamped rest k) ≡ option_or (held_at latest.old.entries k) (latest_stamped (cell ∷ rest) k)) }
{
    let Cell {
        family,
        qualifier,
        at,
        value,
        ..
    } = cell;
    let column = Column { family, qualifier };
    if latest.contains_key(&column) {
        return Ok(());
    }
    let value = Vec::from_slice(alloc, value.bytes())?;
    latest.insert(column, Version { at, value })?;
    Ok(())
}

// What a rule makes of its column is made anew.
fn carry_out(
    alloc: Global,
    latest: &mut Versions,
    made: &mut Versions,
    rule: ModifyRule,
    moment: u64,
    index: u32,
) -> Result<(), ModifyRefusal>
    requires moment { moment ≤ last_moment }
    requires sorted { IsStrictlySortedBy column_order (keys_of made.old.entries) }
    requires short { AreShort made.old.entries }
    ensures made { OnOk result (put_stamped (column_of rule) (stamped_after moment index rule.action (option_or (held_at made.old.entries (column_of rule)) (held_at latest.old.entries (column_of rule)))) made.old.entries ≡ Ok (cells_of made.new.entries)) }
    ensures refusal { IfErr result (λ why. RefusesToModify (stamped_after moment index rule.action (option_or (held_at made.old.entries (column_of rule)) (held_at latest.old.entries (column_of rule)))) why) }
    ensures before { OnOk result ((k : Column) (o : Option Stamped) → option_or (held_at made.old.entries k) (held_at latest.old.entries k) ≡ option_or (held_at made.old.entries k) o → option_or (held_at made.new.entries k) (held_at latest.new.entries k) ≡ option_or (held_at made.new.entries k) o) }
    ensures sorted { OnOk result (IsStrictlySortedBy column_order (keys_of made.new.entries)) }
    ensures short { OnOk result (AreShort made.new.entries) }
{
    let ModifyRule {
        family,
        qualifier,
        action,
    } = rule;
    let column = Column { family, qualifier };
    let before = made.remove(&column).or(latest.remove(&column));
    let after = version_after(alloc, before, action, moment, index)?;
    match made.insert(column, after) {
        Ok(_) => Ok(()),
        Err(_) => Err(ModifyRefusal::OutOfMemory),
    }
}

// The cells of columns, and the mutations that set them.
fn written(alloc: Global, made: Versions) -> Result<(MutationList, CellList), OutOfMemory>
    requires { AreShort made.entries }
    ensures cells { IfOk result (λ written. written.1 ≡ cells_of made.entries) }
    ensures mutations { IfOk result (λ written. written.0 ≡ map set_of written.1) }
    ensures spellable { IfOk result (λ written. AllByRecursion IsSpellableMutation written.0) }
{
    let mut mutations = MutationList::new(alloc);
    let mut cells = CellList::new(alloc);
    for (column, version) in made {
        let cell = cell_of(column, version);
        mutations.push(setting(alloc, &cell)?)?;
        cells.push(cell)?;
    }
    Ok((mutations, cells))
}

fn cell_of(column: Column, version: Version) -> Cell
    ensures { result ≡ cell_in column version }
{
    let Column { family, qualifier } = column;
    Cell::plain(family, qualifier, version.at, Blob::from_vec(version.value))
}

// The mutation that sets a cell, whose names and time are lawful by their types.
fn setting(alloc: Global, cell: &Cell) -> Result<Mutation, OutOfMemory>
    requires { length cell.now.value ≤ most_of_value }
    ensures exact { IfOk result (λ mutation. mutation ≡ set_of cell.now) }
    ensures spellable { IfOk result IsSpellableMutation }
{
    let is_named = !cell.family.bytes().is_empty() && cell.qualifier.bytes().len() <= 16_384;
    prove!(is_named);
    let is_timed = cell.at.number() >= 0;
    prove!(is_timed);
    Ok(Mutation::SetCell {
        family: cell.family.copy(alloc)?,
        qualifier: cell.qualifier.copy(alloc)?,
        at: cell.at,
        value: cell.value.copy(alloc)?,
    })
}
