//! Members of JSON objects that are left out where they say nothing.
ghost use Rattle.std.specs.Prelude.{◌≡◌, true, map, OnOk};
ghost use Rattle.serde_json.specs.Data.{boolean, string};
ghost use Rattle.serde_json.specs.View.{members_view, view};
ghost use Rattle.bt_messages.specs.Lines.{with_bytes, with_if, with_int64, with_items, with_number};

use bt_base::OutOfMemory;
use bt_text::{print_bytes, print_int64};
use serde_json::{Map, Value, put};
use std::alloc::Global;

pub(crate) fn put_true(
    alloc: Global,
    members: &mut Map<String, Value>,
    asked: bool,
    name: &str,
) -> Result<(), OutOfMemory>
    ensures { OnOk result (members_view members.new.entries
        ≡ with_if asked name.now (boolean true) (members_view members.old.entries)) }
{
    if asked {
        put(members, alloc, name, Value::Bool(true))?;
    }
    Ok(())
}

pub(crate) fn put_text(
    alloc: Global,
    members: &mut Map<String, Value>,
    asked: bool,
    name: &str,
    text: &str,
) -> Result<(), OutOfMemory>
    ensures { OnOk result (members_view members.new.entries
        ≡ with_if asked name.now (string text.now) (members_view members.old.entries)) }
{
    if asked {
        let text = Value::try_from_str(alloc, text)?;
        put(members, alloc, name, text)?;
    }
    Ok(())
}

// Bytes, unless there are none.
#[tactic(auto, unfolding(crate::specs::Values::base64))]
pub(crate) fn put_bytes(
    alloc: Global,
    members: &mut Map<String, Value>,
    name: &str,
    bytes: &[u8],
) -> Result<(), OutOfMemory>
    ensures { OnOk result (members_view members.new.entries
        ≡ with_bytes name.now bytes.now (members_view members.old.entries)) }
{
    if !bytes.is_empty() {
        let text = print_bytes(alloc, bytes)?;
        put(members, alloc, name, text)?;
    }
    Ok(())
}

// An int64, which is a string, unless it is 0.
pub(crate) fn put_int64(
    alloc: Global,
    members: &mut Map<String, Value>,
    name: &str,
    number: i64,
) -> Result<(), OutOfMemory>
    ensures { OnOk result (members_view members.new.entries
        ≡ with_int64 name.now number (members_view members.old.entries)) }
{
    if number != 0 {
        let text = print_int64(alloc, number)?;
        put(members, alloc, name, text)?;
    }
    Ok(())
}

// A number, unless it is 0.
pub(crate) fn put_number(
    alloc: Global,
    members: &mut Map<String, Value>,
    name: &str,
    number: u32,
) -> Result<(), OutOfMemory>
    ensures { OnOk result (members_view members.new.entries
        ≡ with_number name.now number (members_view members.old.entries)) }
{
    if number != 0 {
        put(members, alloc, name, Value::from(number))?;
    }
    Ok(())
}

// Items, unless there are none.
pub(crate) fn put_items(
    alloc: Global,
    members: &mut Map<String, Value>,
    name: &str,
    items: Vec<Value>,
) -> Result<(), OutOfMemory>
    ensures { OnOk result (members_view members.new.entries
        ≡ with_items name.now (map view items.items) (members_view members.old.entries)) }
{
    if !items.is_empty() {
        put(members, alloc, name, Value::Array(items))?;
    }
    Ok(())
}
