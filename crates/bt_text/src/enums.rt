//! Values of enums, which JSON has as a name or as a number.
ghost use Rattle.std.specs.Prelude.{◌≡◌, is_some, option_and_then};
ghost use Rattle.serde_json.specs.Find.{as_str};
ghost use Rattle.bt_json.specs.View.{view};
ghost use Rattle.bt_text.specs.Enum.{as_place, enum_in, place_of_name, place_of_number};
ghost use Rattle.bt_text.specs.Names.{listed};
ghost use Rattle.bt_text.specs.Refusal.{Gives};

use crate::names::{count_of, place_of};
use crate::numbers::short_number_in;
use crate::refusal::FieldRefusal;
use bt_json::Value;
use std::alloc::Global;

/// The place of an enum's value in `names`, a list of its names joined by commas, from 0: a string
/// that is a listed name tells the first place of the name, and else a value that `read_int32` reads
/// tells its number, where the list has so many names (protobuf documentation, "ProtoJSON Format",
/// enum). The empty text lists no name. `BadField` carries `name`.
pub fn read_enum(
    alloc: Global,
    value: &Value<'_>,
    name: &str,
    names: &str,
) -> Result<u32, FieldRefusal>
    ensures { Gives name.now (enum_in names.now (view value.now)) result }
{
    let Some(place) = place_in(names.as_bytes(), value) else {
        return Err(FieldRefusal::bad_field(alloc, name));
    };
    Ok(place)
}

/// Whether `read_enum` gives a place. Takes no memory.
pub fn is_enum(value: &Value<'_>, names: &str) -> bool
    ensures { result ≡ is_some (enum_in names.now (view value.now)) }
{
    place_in(names.as_bytes(), value).is_some()
}

fn place_in(names: &[u8], value: &Value<'_>) -> Option<u32>
    ensures { result ≡ enum_in names.now (view value.now) }
{
    match named_place(names, value) {
        Some(place) => Some(place),
        None => place_of_number(names, short_number_in(value)?),
    }
}

fn named_place(names: &[u8], value: &Value<'_>) -> Option<u32>
    ensures { result ≡ option_and_then (place_of_name (listed names.now)) (as_str (view value.now)) }
{
    place_of_name(names, value.as_str()?.as_bytes())
}

fn place_of_name(names: &[u8], name: &[u8]) -> Option<u32>
    ensures { result ≡ place_of_name (listed names.now) name.now }
{
    to_place(place_of(names, name)?)
}

fn to_place(place: usize) -> Option<u32>
    ensures { result ≡ as_place place }
{
    if place < 1 << 32 {
        Some(place as u32)
    } else {
        None
    }
}

fn place_of_number(names: &[u8], number: i32) -> Option<u32>
    ensures { result ≡ place_of_number (listed names.now) number }
{
    if 0 <= number && (number as usize) < count_of(names) {
        Some(number as u32)
    } else {
        None
    }
}
