//! The JSON of rows.
ghost use Rattle.std.specs.Prelude.{◌≡◌, map, IfOk};
ghost use Rattle.serde_json.specs.View.{view};
ghost use Rattle.bt_messages.specs.Rows.{is_same_column, is_same_family, runs_of, shown_cell, shown_column, shown_family, shown_row};

use crate::members::{put_bytes, put_int64, put_items, put_text};
use bt_base::OutOfMemory;
use bt_types::{Cell, RowKey};
use serde_json::{Map, Value};
use std::alloc::Global;

pub(crate) fn row_value(alloc: Global, key: &RowKey, cells: &[Cell]) -> Result<Value, OutOfMemory>
    ensures { IfOk result (λ v. view v ≡ shown_row key.now cells.now) }
{
    let families = family_values(alloc, cells)?;
    let mut members = Map::new(alloc);
    put_bytes(alloc, &mut members, "key", key.bytes())?;
    put_items(alloc, &mut members, "families", families)?;
    Ok(Value::Object(members))
}

fn family_values(alloc: Global, cells: &[Cell]) -> Result<Vec<Value>, OutOfMemory>
    ensures { IfOk result (λ items. map view items.items ≡ map shown_family (runs_of is_same_family cells.now)) }
{
    let mut items = Vec::new(alloc);
    for family in cells.chunk_by(|a, b| a.family.bytes() == b.family.bytes()) {
        let item = family_value(alloc, family)?;
        items.push(item)?;
    }
    Ok(items)
}

// The cells are those of a family.
fn family_value(alloc: Global, cells: &[Cell]) -> Result<Value, OutOfMemory>
    ensures { IfOk result (λ v. view v ≡ shown_family cells.now) }
{
    let columns = column_values(alloc, cells)?;
    let mut members = Map::new(alloc);
    if let Some(first) = cells.first() {
        let name = first.family.text();
        put_text(alloc, &mut members, !name.is_empty(), "name", name)?;
    }
    put_items(alloc, &mut members, "columns", columns)?;
    Ok(Value::Object(members))
}

fn column_values(alloc: Global, cells: &[Cell]) -> Result<Vec<Value>, OutOfMemory>
    ensures { IfOk result (λ items. map view items.items ≡ map shown_column (runs_of is_same_column cells.now)) }
{
    let mut items = Vec::new(alloc);
    for column in cells.chunk_by(|a, b| a.qualifier.bytes() == b.qualifier.bytes()) {
        let item = column_value(alloc, column)?;
        items.push(item)?;
    }
    Ok(items)
}

// The cells are those of a column.
fn column_value(alloc: Global, cells: &[Cell]) -> Result<Value, OutOfMemory>
    ensures { IfOk result (λ v. view v ≡ shown_column cells.now) }
{
    let items = cell_values(alloc, cells)?;
    let mut members = Map::new(alloc);
    if let Some(first) = cells.first() {
        put_bytes(alloc, &mut members, "qualifier", first.qualifier.bytes())?;
    }
    put_items(alloc, &mut members, "cells", items)?;
    Ok(Value::Object(members))
}

fn cell_values(alloc: Global, cells: &[Cell]) -> Result<Vec<Value>, OutOfMemory>
    ensures { IfOk result (λ items. map view items.items ≡ map shown_cell cells.now) }
{
    let mut items = Vec::with_capacity(alloc, cells.len())?;
    for cell in cells {
        let item = cell_value(alloc, cell)?;
        items.push(item)?;
    }
    Ok(items)
}

fn cell_value(alloc: Global, cell: &Cell) -> Result<Value, OutOfMemory>
    ensures { IfOk result (λ v. view v ≡ shown_cell cell.now) }
{
    let mut members = Map::new(alloc);
    put_bytes(alloc, &mut members, "value", cell.value.bytes())?;
    put_int64(alloc, &mut members, "timestampMicros", cell.at.number())?;
    Ok(Value::Object(members))
}
