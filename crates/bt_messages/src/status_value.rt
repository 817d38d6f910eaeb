//! The JSON of statuses.
ghost use Rattle.std.specs.Prelude.{◌≡◌, IfOk};
ghost use Rattle.serde_json.specs.View.{view};
ghost use Rattle.bt_messages.specs.Lines.{status_members};

use crate::members::{put_number, put_text};
use bt_base::OutOfMemory;
use serde_json::{Map, Value};
use std::alloc::Global;

pub(crate) fn status_members(alloc: Global, code: u8, text: &str) -> Result<Value, OutOfMemory>
    ensures { IfOk result (λ v. view v ≡ status_members code text.now) }
{
    let mut members = Map::new(alloc);
    let said = !text.as_bytes().is_empty();
    put_text(alloc, &mut members, said, "message", text)?;
    put_number(alloc, &mut members, "code", u32::from(code))?;
    Ok(Value::Object(members))
}
