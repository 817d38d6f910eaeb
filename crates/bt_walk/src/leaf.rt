//! Values that are not walked into.
ghost use Rattle.std.specs.Prelude.{◌≡◌, option_map};
ghost use Rattle.bt_json.specs.View.{view};
ghost use Rattle.serde_json.specs.Find.{as_str};
ghost use Rattle.bt_walk.specs.Values.{fits, leaf, is_zero, is_blank, has_nothing};
ghost use Rattle.bt_walk.specs.declared.found.Pass.TheVariants.{ForBad};

use crate::shape::{Many, Schema, Shape};
use bt_json::Value;
use bt_text::{is_bytes, is_duration, is_enum, is_int32, is_int64};

/// What is bad of a value that has no parts of its shape.
pub(crate) fn bad_leaf<'v, S: Schema>(
    schema: &S,
    many: Many,
    shape: Shape,
    name: &'v str,
    value: &Value<'_>,
) -> Option<&'v str>
    ensures { option_map (λ n. n.now) result
        ≡ leaf (S.Schema.table schema.now).names ForBad many shape name.now (view value.now) }
{
    match many {
        Many::One if fits(schema, shape, value) => None,
        _ => Some(name),
    }
}

/// Whether the value has no parts and is in the grammar of its shape.
pub(crate) fn fits<S: Schema>(schema: &S, shape: Shape, value: &Value<'_>) -> bool
    ensures { result ≡ fits (S.Schema.table schema.now).names shape (view value.now) }
{
    match shape {
        Shape::Anything => true,
        Shape::AnyEnum => value.as_str().is_some() || is_int32(value),
        Shape::Bool => value.as_bool().is_some(),
        Shape::Bytes => is_bytes(value),
        Shape::Duration => is_duration(value),
        Shape::Enum(list) => is_enum(value, schema.names(list)),
        Shape::Int32 => is_int32(value),
        Shape::Int64 => is_int64(value),
        Shape::Of(_) => false,
        Shape::Text => value.as_str().is_some(),
    }
}

/// Whether the value is false, 0, "0", "" or [].
pub(crate) fn is_zero(value: &Value<'_>) -> bool
    ensures { result ≡ is_zero (view value.now) }
{
    value.as_bool() == Some(false)
        || value.as_u64() == Some(0)
        || is_blank(value)
        || has_nothing(value)
}

fn is_blank(value: &Value<'_>) -> bool
    ensures { result ≡ is_blank (as_str (view value.now)) }
{
    match value.as_str() {
        Some(text) => text == "" || text == "0",
        None => false,
    }
}

fn has_nothing(value: &Value<'_>) -> bool
    ensures { result ≡ has_nothing (view value.now) }
{
    match value.as_array() {
        Some(items) => items.is_empty(),
        None => false,
    }
}
