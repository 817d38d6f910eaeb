//! Numbers of 64 bits with a sign, which JSON has as text.
ghost use Rattle.std.specs.Prelude.{◌≡◌, is_some};
ghost use Rattle.bt_json.specs.View.{view};
ghost use Rattle.bt_text.specs.Int32.{as_int32, int32_in};
ghost use Rattle.bt_text.specs.Int64.{int64_in, int64_text, is_digits, positive, negative};
ghost use Rattle.bt_text.specs.Refusal.{Gives};

use crate::numerals::{is_numeral, numeral};
use crate::refusal::FieldRefusal;
use bt_base::OutOfMemory;
use bt_json::Value;
use std::alloc::Global;

/// The number of a field of type int64: a string of an optional `-` and 1 to 19 decimal digits, or a
/// JSON number without fraction or exponent (protobuf documentation, "ProtoJSON Format", int64).
/// `BadField` carries `name`. The number `-0` is refused, the string `"-0"` is zero.
pub fn read_int64(alloc: Global, value: &Value<'_>, name: &str) -> Result<i64, FieldRefusal>
    ensures { Gives name.now (int64_in (view value.now)) result }
{
    let Some(number) = number_in(value) else {
        return Err(FieldRefusal::bad_field(alloc, name));
    };
    Ok(number)
}

/// The number of a field of type int32: what `read_int64` reads, in the range of 32 bits with a sign
/// (protobuf documentation, "ProtoJSON Format", int32). `BadField` carries `name`.
pub fn read_int32(alloc: Global, value: &Value<'_>, name: &str) -> Result<i32, FieldRefusal>
    ensures { Gives name.now (int32_in (view value.now)) result }
{
    let Some(number) = short_number_in(value) else {
        return Err(FieldRefusal::bad_field(alloc, name));
    };
    Ok(number)
}

/// Whether `read_int64` gives a number. Takes no memory.
pub fn is_int64(value: &Value<'_>) -> bool
    ensures { result ≡ is_some (int64_in (view value.now)) }
{
    number_in(value).is_some()
}

/// Whether `read_int32` gives a number. Takes no memory.
pub fn is_int32(value: &Value<'_>) -> bool
    ensures { result ≡ is_some (int32_in (view value.now)) }
{
    short_number_in(value).is_some()
}

pub(crate) fn short_number_in(value: &Value<'_>) -> Option<i32>
    ensures { result ≡ int32_in (view value.now) }
{
    to_int32(number_in(value)?)
}

fn to_int32(number: i64) -> Option<i32>
    ensures { result ≡ as_int32 number }
{
    if number < -(1 << 31) || number >= 1 << 31 {
        None
    } else {
        Some(number as i32)
    }
}

fn number_in(value: &Value<'_>) -> Option<i64>
    ensures { result ≡ int64_in (view value.now) }
{
    match value.as_str() {
        Some(text) => int64_of(text),
        None => value.as_i64(),
    }
}

fn int64_of(text: &str) -> Option<i64>
    ensures { result ≡ int64_text text.now }
{
    let bytes = text.as_bytes();
    match bytes {
        [b'-', digits @ ..] => to_negative(numeral(19, digits)?),
        _ => to_positive(numeral(19, bytes)?),
    }
}

fn to_positive(number: u64) -> Option<i64>
    ensures { result ≡ positive number }
{
    if number < 1 << 63 {
        Some(number as i64)
    } else {
        None
    }
}

fn to_negative(number: u64) -> Option<i64>
    ensures { result ≡ negative number }
{
    if number < 1 << 63 {
        Some(-(number as i64))
    } else if number == 1 << 63 {
        Some(i64::MIN)
    } else {
        None
    }
}

/// Whether the text is 1 to 19 decimal digits, as a string of a field of type int64 is behind its
/// sign. Whether they fit 64 bits is not tested.
pub fn are_int64_digits(text: &str) -> bool
    ensures { result ≡ is_digits text.now }
{
    is_numeral(19, text.as_bytes())
}
