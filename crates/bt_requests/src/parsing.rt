//! The JSON value of a line.
ghost use Rattle.std.specs.Prelude.{◌≡◌, IfOk, option_map};
ghost use Rattle.serde_json.specs.Find.{get_member};
ghost use Rattle.serde_json.specs.Read.{read};
ghost use Rattle.bt_json.specs.View.{view, members_view};
ghost use Rattle.bt_requests.specs.Envelopes.{value_of, text_of, member_count};

use bt_base::OutOfMemory;
use bt_json::{Members, ReadRefusal, Scratch, Value, read};
use std::alloc::Global;
use std::str;

pub(crate) fn value_of<'t>(
    alloc: Global,
    line: &'t [u8],
    scratch: &'t mut Scratch,
) -> Result<Option<Value<'t>>, OutOfMemory>
    ensures { IfOk result (λ v. option_map view v ≡ value_of line.now) }
{
    match text_of(line) {
        Some(text) => parsed(alloc, text, scratch),
        None => Ok(None),
    }
}

fn parsed<'t>(
    alloc: Global,
    text: &'t str,
    scratch: &'t mut Scratch,
) -> Result<Option<Value<'t>>, OutOfMemory>
    ensures { IfOk result (λ v. option_map view v ≡ read text.now) }
{
    match read(alloc, text, scratch) {
        Ok(value) => Ok(Some(value)),
        Err(ReadRefusal::IllFormed) => Ok(None),
        Err(ReadRefusal::OutOfMemory) => Err(OutOfMemory),
    }
}

fn text_of(line: &[u8]) -> Option<&str>
    ensures { option_map (λ s. s.now) result ≡ text_of line.now }
{
    match str::from_utf8(line) {
        Ok(text) => Some(text),
        Err(_) => None,
    }
}

pub(crate) fn member_count(value: &Value<'_>) -> Option<usize>
    ensures { result ≡ member_count (view value.now) }
{
    match value.as_object() {
        Some(members) => Some(members.len()),
        None => None,
    }
}

// The member of that name, taken out.
pub(crate) fn taken<'t>(members: Members<'t>, name: &str) -> Option<Value<'t>>
    ensures { option_map view result ≡ get_member name.now (members_view members.entry.items) }
{
    for (other, value) in members {
        if name == other {
            return Some(value);
        }
    }
    None
}
