//! The JSON of chunks.
ghost use Rattle.std.specs.Prelude.{◌≡◌, IfOk, OnOk, codes, map};
ghost use Rattle.serde_json.specs.View.{view, members_view};
ghost use Rattle.bt_messages.specs.Lines.{with_bytes, with_some};
ghost use Rattle.bt_messages.specs.Values.{shown_bytes, shown_label, shown_name};
ghost use Rattle.bt_messages.specs.Responses.{shown_chunk, shown_chunks};

use crate::members::{put_bytes, put_int64, put_number, put_true};
use bt_base::{Blob, OutOfMemory};
use bt_chunks::{Chunk, ChunkList};
use bt_text::print_bytes;
use bt_types::Label;
use serde_json::{Map, Value, json, put};
use std::alloc::Global;

pub(crate) fn chunks_value(alloc: Global, chunks: &ChunkList) -> Result<Value, OutOfMemory>
    ensures { IfOk result (λ v. view v ≡ shown_chunks chunks.now) }
{
    let mut members = Map::new(alloc);
    let chunks = chunks.items();
    if !chunks.is_empty() {
        let items = chunk_values(alloc, chunks)?;
        put(&mut members, alloc, "chunks", Value::Array(items))?;
    }
    Ok(Value::Object(members))
}

fn chunk_values(alloc: Global, chunks: &[Chunk]) -> Result<Vec<Value>, OutOfMemory>
    ensures { IfOk result (λ items. map view items.items ≡ map shown_chunk chunks.now) }
{
    let mut items = Vec::with_capacity(alloc, chunks.len())?;
    for chunk in chunks {
        let item = chunk_value(alloc, chunk)?;
        items.push(item)?;
    }
    Ok(items)
}

fn chunk_value(alloc: Global, chunk: &Chunk) -> Result<Value, OutOfMemory>
    ensures { IfOk result (λ v. view v ≡ shown_chunk chunk.now) }
{
    let mut members = Map::new(alloc);
    put_number(alloc, &mut members, "valueSize", chunk.size)?;
    put_blob(alloc, &mut members, "value", &chunk.value)?;
    put_int64(alloc, &mut members, "timestampMicros", chunk.at)?;
    put_blob(alloc, &mut members, "rowKey", &chunk.key)?;
    put_qualifier(alloc, &mut members, &chunk.qualifier)?;
    put_label(alloc, &mut members, &chunk.label)?;
    put_family(alloc, &mut members, &chunk.family)?;
    put_true(alloc, &mut members, chunk.commit, "commitRow")?;
    Ok(Value::Object(members))
}

fn put_blob(
    alloc: Global,
    members: &mut Map<String, Value>,
    name: &str,
    bytes: &Blob,
) -> Result<(), OutOfMemory>
    ensures { OnOk result (members_view members.new.entries
        ≡ with_bytes name.now bytes.now (members_view members.old.entries)) }
{
    put_bytes(alloc, members, name, bytes.bytes())
}

// The wrapper is printed also where the qualifier is empty.
#[tactic(auto, unfolding(crate::specs::Values::base64))]
fn put_qualifier(
    alloc: Global,
    members: &mut Map<String, Value>,
    qualifier: &Option<Blob>,
) -> Result<(), OutOfMemory>
    ensures { OnOk result (members_view members.new.entries
        ≡ with_some (codes "qualifier") shown_bytes qualifier.now (members_view members.old.entries)) }
{
    if let Some(qualifier) = qualifier {
        let text = print_bytes(alloc, qualifier.bytes())?;
        put(members, alloc, "qualifier", text)?;
    }
    Ok(())
}

fn put_label(
    alloc: Global,
    members: &mut Map<String, Value>,
    label: &Option<Label>,
) -> Result<(), OutOfMemory>
    ensures { OnOk result (members_view members.new.entries
        ≡ with_some (codes "labels") shown_label label.now (members_view members.old.entries)) }
{
    if let Some(label) = label {
        let labels = labels_value(alloc, label)?;
        put(members, alloc, "labels", labels)?;
    }
    Ok(())
}

fn labels_value(alloc: Global, label: &Label) -> Result<Value, OutOfMemory>
    ensures { IfOk result (λ v. view v ≡ shown_label label.now) }
{
    let value = json!(in alloc; [label.text()])?;
    Ok(value)
}

// The wrapper is printed also where the name is empty.
fn put_family(
    alloc: Global,
    members: &mut Map<String, Value>,
    family: &Option<Blob>,
) -> Result<(), OutOfMemory>
    ensures { OnOk result (members_view members.new.entries
        ≡ with_some (codes "familyName") shown_name family.now (members_view members.old.entries)) }
{
    if let Some(family) = family {
        let text = String::from_utf8_lossy(alloc, family.bytes())?;
        put(members, alloc, "familyName", Value::String(text))?;
    }
    Ok(())
}
