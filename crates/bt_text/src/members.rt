//! The members of JSON objects, by their names.
ghost use Rattle.std.specs.Prelude.{◌≡◌, bytes_eq, option_map};
ghost use Rattle.bt_json.specs.View.{view, members_view};
ghost use Rattle.bt_text.specs.Members.{Passes, first_fault, holds, is_doubled, is_fault, members_fault};
ghost use Rattle.bt_text.specs.Names.{listed, original_name};

use crate::names::{is_json_name, is_listed, is_original};
use crate::refusal::FieldRefusal;
use bt_json::{Members, Value};
use std::alloc::Global;

/// Whether `value` is an object with members of the list `names` alone, each by one name. `names` is a
/// list of JSON names joined by commas, and the empty text lists none. Each has besides its original
/// name, with `_` and a lower-case letter for each capital (protobuf documentation, "ProtoJSON
/// Format", field names). `BadField` comes where `value` is no object, with `name`; and where a member
/// has another name, whatever its value, or where a JSON name and its original name are both members
/// that are not null, with the first of these in byte order. A name that is not listed stands at itself
/// and is told, a doubled one stands at its JSON name, which is told.
pub fn check_members(
    alloc: Global,
    value: &Value<'_>,
    name: &str,
    names: &str,
) -> Result<(), FieldRefusal>
    ensures { Passes (members_fault name.now names.now (view value.now)) result }
{
    let Some(members) = value.as_object() else {
        return Err(FieldRefusal::bad_field(alloc, name));
    };
    match first_fault(members, names.as_bytes()) {
        Some(fault) => Err(FieldRefusal::bad_field(alloc, fault)),
        None => Ok(()),
    }
}

fn first_fault<'m>(members: &'m Members<'_>, names: &[u8]) -> Option<&'m str>
    ensures { option_map (λ s. s.now) result
        ≡ first_fault (listed names.now) (members_view members.now.items) (members_view members.now.items) }
{
    for (key, _value) in members.iter() {
        if is_fault(members, names, key.as_bytes()) {
            return Some(*key);
        }
    }
    None
}

fn is_fault(members: &Members<'_>, names: &[u8], key: &[u8]) -> bool
    ensures { result ≡ is_fault (listed names.now) (members_view members.now.items) key.now }
{
    !is_listed(names, key) || (is_json_name(names, key) && is_doubled(members, key))
}

fn is_doubled(members: &Members<'_>, name: &[u8]) -> bool
    ensures { result ≡ is_doubled (members_view members.now.items) name.now }
{
    !is_original(name, name) && holds_name(members, name) && holds_original(members, name)
}

fn holds_name(members: &Members<'_>, name: &[u8]) -> bool
    ensures { result ≡ holds (λ k. bytes_eq k name.now) (members_view members.now.items) }
{
    for (key, value) in members.iter() {
        if !value.is_null() && key.as_bytes() == name {
            return true;
        }
    }
    false
}

fn holds_original(members: &Members<'_>, name: &[u8]) -> bool
    ensures { result ≡ holds (λ k. bytes_eq (original_name name.now) k) (members_view members.now.items) }
{
    for (key, value) in members.iter() {
        if !value.is_null() && is_original(name, key.as_bytes()) {
            return true;
        }
    }
    false
}
