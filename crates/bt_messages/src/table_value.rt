//! The JSON of tables.
ghost use Rattle.std.specs.Prelude.{◌≡◌, ◌==◌, not, map, IfOk, OnOk, codes};
ghost use Rattle.serde_json.specs.View.{view, members_view};
ghost use Rattle.bt_messages.specs.Lines.{is_nonempty, with_if};
ghost use Rattle.bt_messages.specs.Responses.{shown_families, shown_family, shown_stream, shown_table, shown_table_name, shown_table_names};

use crate::members::put_text;
use crate::rule_value::rule_value;
use bt_base::OutOfMemory;
use bt_entry::TableInfo;
use bt_rules::Family;
use bt_text::print_duration;
use bt_types::TableName;
use serde_json::{Map, Value, json, put};
use std::alloc::Global;

pub(crate) fn table_value(alloc: Global, table: &TableInfo) -> Result<Value, OutOfMemory>
    ensures { IfOk result (λ v. view v ≡ shown_table table.now) }
{
    let mut members = Map::new(alloc);
    put_text(alloc, &mut members, true, "name", table.name.text())?;
    put_text(alloc, &mut members, true, "granularity", "MILLIS")?;
    put_families(alloc, &mut members, table.families.items())?;
    put_stream(alloc, &mut members, table.retention)?;
    Ok(Value::Object(members))
}

fn put_families(
    alloc: Global,
    members: &mut Map<String, Value>,
    families: &[Family],
) -> Result<(), OutOfMemory>
    ensures { OnOk result (members_view members.new.entries
        ≡ with_if (is_nonempty families.now) (codes "columnFamilies") (shown_families families.now) (members_view members.old.entries)) }
{
    if !families.is_empty() {
        let shown = families_value(alloc, families)?;
        put(members, alloc, "columnFamilies", shown)?;
    }
    Ok(())
}

fn families_value(alloc: Global, families: &[Family]) -> Result<Value, OutOfMemory>
    ensures { IfOk result (λ v. view v ≡ shown_families families.now) }
{
    let mut members = Map::new(alloc);
    for family in families {
        let shown = family_value(alloc, family)?;
        put(&mut members, alloc, family.name.text(), shown)?;
    }
    Ok(Value::Object(members))
}

fn family_value(alloc: Global, family: &Family) -> Result<Value, OutOfMemory>
    ensures { IfOk result (λ v. view v ≡ shown_family family.now) }
{
    let mut members = Map::new(alloc);
    if let Some(rule) = &family.rule {
        let shown = rule_value(alloc, rule)?;
        put(&mut members, alloc, "gcRule", shown)?;
    }
    Ok(Value::Object(members))
}

fn put_stream(
    alloc: Global,
    members: &mut Map<String, Value>,
    retention: u64,
) -> Result<(), OutOfMemory>
    ensures { OnOk result (members_view members.new.entries
        ≡ with_if (not (retention == 0)) (codes "changeStreamConfig") (shown_stream retention) (members_view members.old.entries)) }
{
    if retention != 0 {
        let shown = stream_value(alloc, retention)?;
        put(members, alloc, "changeStreamConfig", shown)?;
    }
    Ok(())
}

fn stream_value(alloc: Global, retention: u64) -> Result<Value, OutOfMemory>
    ensures { IfOk result (λ v. view v ≡ shown_stream retention) }
{
    let period = print_duration(alloc, retention)?;
    let value = json!(in alloc; {"retentionPeriod": period})?;
    Ok(value)
}

pub(crate) fn table_names_value(alloc: Global, names: &[TableName]) -> Result<Value, OutOfMemory>
    ensures { IfOk result (λ v. view v ≡ shown_table_names names.now) }
{
    let mut members = Map::new(alloc);
    if !names.is_empty() {
        let items = table_name_values(alloc, names)?;
        put(&mut members, alloc, "tables", Value::Array(items))?;
    }
    Ok(Value::Object(members))
}

fn table_name_values(alloc: Global, names: &[TableName]) -> Result<Vec<Value>, OutOfMemory>
    ensures { IfOk result (λ items. map view items.items ≡ map shown_table_name names.now) }
{
    let mut items = Vec::with_capacity(alloc, names.len())?;
    for name in names {
        let item = table_name_value(alloc, name)?;
        items.push(item)?;
    }
    Ok(items)
}

fn table_name_value(alloc: Global, name: &TableName) -> Result<Value, OutOfMemory>
    ensures { IfOk result (λ v. view v ≡ shown_table_name name.now) }
{
    let value = json!(in alloc; {"name": name.text()})?;
    Ok(value)
}
