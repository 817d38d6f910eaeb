//! The members of a value, by either of their names: one that is absent, null or ill-formed is zero or
//! empty.
ghost use Rattle.std.specs.Prelude.{◌≡◌, [], option_map, IfOk};
ghost use Rattle.bt_json.specs.View.{view, items_view, members_view};
ghost use Rattle.bt_members.specs.Values.{present, value_of, text_of, text_or_empty, bytes_of, bytes_or_empty, int64_of, int32_or_zero, micros_of, micros_or_zero, is_yes, items_of, items_in, members_of};

use bt_base::{Blob, OutOfMemory};
use bt_json::{Members, Value};
use bt_text::{FieldRefusal, read_bytes, read_duration, read_int32, read_int64};
use bt_walk::Name;
use std::alloc::Global;

/// The value at either name of a member, where null is absent.
pub fn value_at<'v, 't>(value: &'v Value<'t>, name: Name) -> Option<&'v Value<'t>>
    ensures { option_map (λ v. view v.now) result
        ≡ value_of name.0.now name.1.now (view value.now) }
{
    match present(value.get(name.0)) {
        Some(found) => Some(found),
        None => present(value.get(name.1)),
    }
}

fn present<'v, 't>(found: Option<&'v Value<'t>>) -> Option<&'v Value<'t>>
    ensures { option_map (λ v. view v.now) result
        ≡ present (option_map (λ v. view v.now) found.entry) }
{
    match found {
        Some(value) if value.is_null() => None,
        found => found,
    }
}

/// The text of a member.
pub fn text_at<'v>(value: &'v Value<'_>, name: Name) -> &'v str
    ensures { result.now ≡ text_of name.0.now name.1.now (view value.now) }
{
    match value_at(value, name) {
        Some(found) => found.as_str().unwrap_or(""),
        None => "",
    }
}

/// The bytes of a text.
pub fn text_bytes(alloc: Global, value: &Value<'_>) -> Result<Blob, OutOfMemory>
    ensures { IfOk result (λ b. b ≡ text_or_empty (view value.now)) }
{
    Blob::new(alloc, value.as_str().unwrap_or("").as_bytes())
}

/// The bytes of a member's text.
pub fn text_bytes_at(alloc: Global, value: &Value<'_>, name: Name) -> Result<Blob, OutOfMemory>
    ensures { IfOk result (λ b. b ≡ text_of name.0.now name.1.now (view value.now)) }
{
    Blob::new(alloc, text_at(value, name).as_bytes())
}

/// The bytes of a member that is base64.
pub fn bytes_at(alloc: Global, value: &Value<'_>, name: Name) -> Result<Blob, OutOfMemory>
    ensures { IfOk result (λ b. b ≡ bytes_of name.0.now name.1.now (view value.now)) }
{
    match value_at(value, name) {
        Some(found) => bytes_or_empty(alloc, found),
        None => Blob::new(alloc, &[]),
    }
}

/// The bytes of a text that is base64.
pub fn bytes_or_empty(alloc: Global, value: &Value<'_>) -> Result<Blob, OutOfMemory>
    ensures { IfOk result (λ b. b ≡ bytes_or_empty (view value.now)) }
{
    match read_bytes(alloc, value, "") {
        Ok(bytes) => Ok(bytes),
        Err(FieldRefusal::BadField { .. }) => Blob::new(alloc, &[]),
        Err(FieldRefusal::OutOfMemory) => Err(OutOfMemory),
    }
}

/// The number of a member that is an int64, written as a number or as a text.
pub fn int64_at(alloc: Global, value: &Value<'_>, name: Name) -> Result<i64, OutOfMemory>
    ensures { IfOk result (λ n. n ≡ int64_of name.0.now name.1.now (view value.now)) }
{
    let Some(found) = value_at(value, name) else {
        return Ok(0);
    };
    match read_int64(alloc, found, "") {
        Ok(number) => Ok(number),
        Err(FieldRefusal::BadField { .. }) => Ok(0),
        Err(FieldRefusal::OutOfMemory) => Err(OutOfMemory),
    }
}

/// The number of an int32.
pub fn int32_or_zero(alloc: Global, value: &Value<'_>) -> Result<i32, OutOfMemory>
    ensures { IfOk result (λ n. n ≡ int32_or_zero (view value.now)) }
{
    match read_int32(alloc, value, "") {
        Ok(number) => Ok(number),
        Err(FieldRefusal::BadField { .. }) => Ok(0),
        Err(FieldRefusal::OutOfMemory) => Err(OutOfMemory),
    }
}

/// The microseconds of a member that is a duration.
pub fn micros_at(alloc: Global, value: &Value<'_>, name: Name) -> Result<i64, OutOfMemory>
    ensures { IfOk result (λ n. n ≡ micros_of name.0.now name.1.now (view value.now)) }
{
    match value_at(value, name) {
        Some(found) => micros_or_zero(alloc, found),
        None => Ok(0),
    }
}

/// The microseconds of a duration.
pub fn micros_or_zero(alloc: Global, value: &Value<'_>) -> Result<i64, OutOfMemory>
    ensures { IfOk result (λ n. n ≡ micros_or_zero (view value.now)) }
{
    match read_duration(alloc, value, "") {
        Ok(micros) => Ok(micros),
        Err(FieldRefusal::BadField { .. }) => Ok(0),
        Err(FieldRefusal::OutOfMemory) => Err(OutOfMemory),
    }
}

/// Whether the value is true.
pub fn is_yes(value: &Value<'_>) -> bool
    ensures { result ≡ is_yes (view value.now) }
{
    value.as_bool().unwrap_or(false)
}

/// The items of a member that is an array.
pub fn items_at<'v, 't>(value: &'v Value<'t>, name: Name) -> &'v [Value<'t>]
    ensures { items_view result.now ≡ items_of name.0.now name.1.now (view value.now) }
{
    match value_at(value, name) {
        Some(found) => items_in(found),
        None => no_items(),
    }
}

fn items_in<'v, 't>(value: &'v Value<'t>) -> &'v [Value<'t>]
    ensures { items_view result.now ≡ items_in (view value.now) }
{
    match value.as_array() {
        Some(items) => items.as_slice(),
        None => no_items(),
    }
}

fn no_items<'v, 't>() -> &'v [Value<'t>]
    ensures { result.now ≡ [] }
{
    &[]
}

/// The entries of a member that is a map.
pub fn members_at<'v, 't>(value: &'v Value<'t>, name: Name) -> Option<&'v Members<'t>>
    ensures { option_map (λ m. members_view m.now.items) result
        ≡ members_of name.0.now name.1.now (view value.now) }
{
    match value_at(value, name) {
        Some(found) => found.as_object(),
        None => None,
    }
}
