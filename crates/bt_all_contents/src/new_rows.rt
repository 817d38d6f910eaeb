//! Rows that are not there yet, made apart and put in whole.
ghost use Rattle.std.specs.Prelude.{◌≡◌, [], None, false, IfOk, OnOk, OnErr, if◌then◌else◌};
ghost use Rattle.std.specs.BTreeMap.{is_at};
ghost use Rattle.std.specs.List.{list_any};
ghost use Rattle.std.specs.Map.{keys_of};
ghost use Rattle.bt_all_contents.specs.AllContents.{AreNewRows, AreTables, RowAt, at_cmp, cells_there, new_at, row_or};
ghost use Rattle.bt_row.specs.Sound.{IsSound};

use bt_base::{OutOfMemory, Plain};
use bt_contents::Contents;
use bt_row::Row;
use bt_types::RowKey;
use std::alloc::Global;
use std::collections::BTreeMap;

/// Rows that are not there yet, by the incarnations of their tables and by their keys.
pub(crate) type NewRows = BTreeMap<(u64, RowKey), Row>;

/// Puts these rows in, all or none; a row without cells is not there.
pub(crate) fn put_all(
    tables: &mut BTreeMap<u64, Contents>,
    alloc: Global,
    new_rows: NewRows,
) -> Result<(), OutOfMemory>
    requires tables { AreTables tables.old.entries }
    requires rows { AreNewRows new_rows.entries tables.old.entries }
    ensures tables { AreTables tables.new.entries }
    ensures ok { OnOk result ((a : RowAt) → cells_there tables.new.entries a ≡ row_or (new_at new_rows.entries a) (cells_there tables.old.entries a)) }
    ensures err { OnErr result ((a : RowAt) → cells_there tables.new.entries a ≡ cells_there tables.old.entries a) }
{
    let places = places_of(alloc, &new_rows)?;
    if put_each(tables, alloc, new_rows).is_err() {
        take_out(tables, places);
        return Err(OutOfMemory);
    }
    Ok(())
}

fn places_of(alloc: Global, new_rows: &NewRows) -> Result<Vec<(u64, RowKey)>, OutOfMemory>
    ensures { IfOk result (λ places. places.items ≡ keys_of new_rows.now.entries) }
{
    let mut places = Vec::new(alloc);
    for (at, _) in new_rows {
        places.push((at.0, at.1.copy(alloc)?))?;
    }
    Ok(places)
}

fn put_each(
    tables: &mut BTreeMap<u64, Contents>,
    alloc: Global,
    new_rows: NewRows,
) -> Result<(), OutOfMemory>
    requires tables { AreTables tables.old.entries }
    requires rows { AreNewRows new_rows.entries tables.old.entries }
    ensures tables { AreTables tables.new.entries }
    ensures others { (a : RowAt) → new_at new_rows.entries a ≡ None → cells_there tables.new.entries a ≡ cells_there tables.old.entries a }
    ensures ok { OnOk result ((a : RowAt) → cells_there tables.new.entries a ≡ row_or (new_at new_rows.entries a) (cells_there tables.old.entries a)) }
{
    for (at, row) in new_rows {
        put_there(tables, alloc, at, row)?;
    }
    Ok(())
}

fn put_there(
    tables: &mut BTreeMap<u64, Contents>,
    alloc: Global,
    at: (u64, RowKey),
    row: Row,
) -> Result<(), OutOfMemory>
    requires tables { AreTables tables.old.entries }
    requires row { IsSound row.cells.entries }
    requires absent { cells_there tables.old.entries at ≡ [] }
    ensures tables { AreTables tables.new.entries }
    ensures elsewhere { (a : RowAt) → is_at (at_cmp a) at ≡ false → cells_there tables.new.entries a ≡ cells_there tables.old.entries a }
    ensures ok { OnOk result (cells_there tables.new.entries at ≡ row.cells.entries) }
{
    if row.is_empty() {
        return Ok(());
    }
    let (incarnation, key) = at;
    match tables.get_mut(&incarnation) {
        Some(rows) => {
            rows.put(key, row)?;
            Ok(())
        }
        None => {
            let mut rows = Contents::new(alloc);
            rows.put(key, row)?;
            tables.insert(incarnation, rows)?;
            Ok(())
        }
    }
}

fn take_out(tables: &mut BTreeMap<u64, Contents>, places: Vec<(u64, RowKey)>)
    requires { AreTables tables.old.entries }
    ensures tables { AreTables tables.new.entries }
    ensures rows { (a : RowAt) → cells_there tables.new.entries a ≡ (if list_any (is_at (at_cmp a)) places.items then [] else cells_there tables.old.entries a) }
{
    for at in places {
        remove_there(tables, &at);
    }
}

fn remove_there(tables: &mut BTreeMap<u64, Contents>, at: &(u64, RowKey))
    requires { AreTables tables.old.entries }
    ensures tables { AreTables tables.new.entries }
    ensures rows { (a : RowAt) → cells_there tables.new.entries a ≡ (if is_at (at_cmp a) at.now then [] else cells_there tables.old.entries a) }
{
    let Some(rows) = tables.get_mut(&at.0) else {
        return;
    };
    rows.remove(&at.1);
    if rows.is_empty() {
        tables.remove(&at.0);
    }
}
