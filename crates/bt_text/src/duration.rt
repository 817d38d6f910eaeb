//! Spans of time, which JSON has as seconds with a fraction.
ghost use Rattle.std.specs.Prelude.{◌≡◌, ◌<◌, ◌≤◌, ◌^◌, IfSome, is_some, length, position};
ghost use Rattle.bt_json.specs.View.{view};
ghost use Rattle.bt_text.specs.Duration.{duration_in, duration_text, is_dot, micros_up_to_bound, seconds_text, signed_seconds_text, whole_len};
ghost use Rattle.bt_text.specs.Refusal.{Gives};

use crate::fraction::fraction_in;
use crate::numerals::numeral;
use crate::refusal::FieldRefusal;
use bt_json::Value;
use std::alloc::Global;

const GREATEST_SECONDS: u64 = 315_576_000_000;

/// The microseconds of a field of type Duration: a string of an optional `-`, 1 to 12 digits of
/// seconds, optionally `.` and 1 to 9 digits, and `s`, at most 315,576,000,000 seconds either way
/// (protobuf documentation, "ProtoJSON Format", Duration). Digits beyond microseconds are cut towards
/// zero; the bound is that of the whole text. `BadField` carries `name`.
pub fn read_duration(alloc: Global, value: &Value<'_>, name: &str) -> Result<i64, FieldRefusal>
    ensures { Gives name.now (duration_in (view value.now)) result }
{
    let Some(micros) = duration_in(value) else {
        return Err(FieldRefusal::bad_field(alloc, name));
    };
    Ok(micros)
}

/// Whether `read_duration` gives a number. Takes no memory.
pub fn is_duration(value: &Value<'_>) -> bool
    ensures { result ≡ is_some (duration_in (view value.now)) }
{
    duration_in(value).is_some()
}

fn duration_in(value: &Value<'_>) -> Option<i64>
    ensures { result ≡ duration_in (view value.now) }
{
    duration_of(value.as_str()?.as_bytes())
}

fn duration_of(text: &[u8]) -> Option<i64>
    ensures { result ≡ duration_text text.now }
{
    let [seconds @ .., b's'] = text else {
        return None;
    };
    signed_micros_of(seconds)
}

fn signed_micros_of(text: &[u8]) -> Option<i64>
    ensures { result ≡ signed_seconds_text text.now }
{
    match text {
        [b'-', seconds @ ..] => Some(-(micros_of(seconds)? as i64)),
        _ => Some(micros_of(text)? as i64),
    }
}

#[tactic(auto, unfolding(crate::specs::Duration::seconds_text))]
fn micros_of(text: &[u8]) -> Option<u64>
    ensures value { result ≡ seconds_text text.now }
    ensures small { IfSome result (λ micros. micros < 2 ^ 63) }
{
    let (whole, fraction) = text.split_at(whole_len(text));
    let seconds = numeral(12, whole)?;
    let nanos = fraction_in(fraction)?;
    micros_up_to_bound(seconds, nanos)
}

// The number of bytes before the first dot, or of all.
fn whole_len(text: &[u8]) -> usize
    ensures value { result ≡ whole_len text.now }
    ensures within { result ≤ length text.now }
{
    match first_dot(text) {
        Some(place) => place,
        None => text.len(),
    }
}

fn first_dot(text: &[u8]) -> Option<usize>
    ensures value { result ≡ position is_dot text.now }
    ensures within { IfSome result (λ place. place < length text.now) }
{
    text.iter().position(|b| *b == b'.')
}

fn micros_up_to_bound(seconds: u64, nanos: u32) -> Option<u64>
    requires { nanos < 10 ^ 9 }
    ensures value { result ≡ micros_up_to_bound seconds nanos }
    ensures small { IfSome result (λ micros. micros < 2 ^ 63) }
{
    if seconds < GREATEST_SECONDS || (seconds == GREATEST_SECONDS && nanos == 0) {
        Some(seconds * 1_000_000 + (nanos / 1000) as u64)
    } else {
        None
    }
}
