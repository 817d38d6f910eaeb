//! Moments, which JSON has as dates and times of day.
ghost use Rattle.std.specs.Prelude.{◌≡◌, ◌+◌, ◌<◌, ◌≤◌, ◌*◌, IfSome, is_some, length};
ghost use Rattle.bt_json.specs.View.{view};
ghost use Rattle.bt_text.specs.Refusal.{Gives};
ghost use Rattle.bt_text.specs.Timestamp.{clock_text, days_text, has_marks, in_utc, in_years, instant_text, is_zulu, local_text, numeric_offset, offset_text, signed_offset, since_1970, timestamp_in, timestamp_text, zone_place};
ghost use Rattle.bt_text.specs.Offsets.{IsSmall};

use crate::calendar::{ALL_DAYS, DAY_OF_1970, day_number};
use crate::fraction::fraction_in;
use crate::numerals::{field, two_digits};
use crate::refusal::FieldRefusal;
use bt_json::Value;
use std::alloc::Global;

const DAY_SECONDS: u64 = 86_400;

const FIRST_DAY: u64 = 366;

// By how many seconds a clock is ahead of UTC, or behind it.
#[derive(Clone, Copy)]
pub(crate) enum Offset {
    East(u64),
    West(u64),
}

/// The microseconds since 1970 of a field of type Timestamp, by RFC 3339, section 5.6: a string
/// `YYYY-MM-DDThh:mm:ss`, optionally `.` and 1 to 9 digits, then `Z` or an offset `+hh:mm` or
/// `-hh:mm` with hh at most 23 and mm at most 59. `t` and `z` are accepted. The calendar has the date,
/// the hour is at most 23, the minute and the second are at most 59, and in UTC the instant lies in
/// the years 1 to 9999 (protobuf documentation, "ProtoJSON Format", Timestamp). Digits beyond
/// microseconds are cut down to the earlier microsecond. `BadField` carries `name`.
pub fn read_timestamp(alloc: Global, value: &Value<'_>, name: &str) -> Result<i64, FieldRefusal>
    ensures { Gives name.now (timestamp_in (view value.now)) result }
{
    let Some(micros) = timestamp_in(value) else {
        return Err(FieldRefusal::bad_field(alloc, name));
    };
    Ok(micros)
}

/// Whether `read_timestamp` gives a number. Takes no memory.
pub fn is_timestamp(value: &Value<'_>) -> bool
    ensures { result ≡ is_some (timestamp_in (view value.now)) }
{
    timestamp_in(value).is_some()
}

fn timestamp_in(value: &Value<'_>) -> Option<i64>
    ensures { result ≡ timestamp_in (view value.now) }
{
    timestamp_of(value.as_str()?.as_bytes())
}

#[tactic(auto, unfolding(crate::specs::Timestamp::timestamp_text))]
fn timestamp_of(text: &[u8]) -> Option<i64>
    ensures { result ≡ timestamp_text text.now }
{
    let shown = local_seconds(text)?;
    instant_of(shown, &text[19..])
}

#[tactic(auto, unfolding(crate::specs::Timestamp::local_text))]
fn local_seconds(text: &[u8]) -> Option<u64>
    ensures value { result ≡ local_text text.now }
    ensures small { IfSome result (λ n. n < ALL_DAYS * DAY_SECONDS) }
    ensures within { IfSome result (λ _. 19 ≤ length text.now) }
{
    let days = days_of(text)?;
    let seconds = clock_of(text)?;
    if has_marks(text) {
        Some(days * DAY_SECONDS + seconds)
    } else {
        None
    }
}

#[tactic(auto, unfolding(crate::specs::Timestamp::days_text))]
fn days_of(text: &[u8]) -> Option<u64>
    ensures value { result ≡ days_text text.now }
    ensures small { IfSome result (λ n. n < ALL_DAYS) }
{
    let year = field(text, 0, 4)?;
    let month = field(text, 5, 2)?;
    let day = field(text, 8, 2)?;
    day_number(year, month, day)
}

#[tactic(auto, unfolding(crate::specs::Timestamp::clock_text))]
fn clock_of(text: &[u8]) -> Option<u64>
    ensures value { result ≡ clock_text text.now }
    ensures small { IfSome result (λ n. n < DAY_SECONDS) }
    ensures within { IfSome result (λ _. 19 ≤ length text.now) }
{
    let hour = two_digits(text, 11, 0, 23)?;
    let minute = two_digits(text, 14, 0, 59)?;
    let second = two_digits(text, 17, 0, 59)?;
    Some((hour * 60 + minute) * 60 + second)
}

fn has_marks(text: &[u8]) -> bool
    requires { 19 ≤ length text.now }
    ensures { result ≡ has_marks text.now }
{
    text[4] == b'-'
        && text[7] == b'-'
        && (text[10] == b'T' || text[10] == b't')
        && text[13] == b':'
        && text[16] == b':'
}

#[tactic(auto, unfolding(crate::specs::Timestamp::instant_text))]
fn instant_of(shown: u64, text: &[u8]) -> Option<i64>
    requires { shown < ALL_DAYS * DAY_SECONDS }
    ensures { result ≡ instant_text shown text.now }
{
    let (fraction, zone) = text.split_at(zone_place(text));
    let nanos = fraction_in(fraction)?;
    let offset = offset_of(zone)?;
    let seconds = in_years(in_utc(shown, offset))?;
    Some(since_1970(seconds, nanos))
}

fn zone_place(text: &[u8]) -> usize
    ensures value { result ≡ zone_place text.now }
    ensures within { result ≤ length text.now }
{
    match text {
        [.., last] if is_zulu(*last) => text.len() - 1,
        _ => text.len().saturating_sub(6),
    }
}

fn is_zulu(byte: u8) -> bool
    ensures { result ≡ is_zulu byte }
{
    byte == b'Z' || byte == b'z'
}

fn offset_of(text: &[u8]) -> Option<Offset>
    ensures value { result ≡ offset_text text.now }
    ensures small { IfSome result IsSmall }
{
    match text {
        [only] if is_zulu(*only) => Some(Offset::East(0)),
        _ => numeric_offset(text),
    }
}

#[tactic(auto, unfolding(crate::specs::Timestamp::numeric_offset))]
fn numeric_offset(text: &[u8]) -> Option<Offset>
    ensures value { result ≡ numeric_offset text.now }
    ensures small { IfSome result IsSmall }
{
    let hour = two_digits(text, 1, 0, 23)?;
    let minute = two_digits(text, 4, 0, 59)?;
    if text.len() == 6 && text[3] == b':' {
        signed_offset(text[0], (hour * 60 + minute) * 60)
    } else {
        None
    }
}

fn signed_offset(sign: u8, seconds: u64) -> Option<Offset>
    requires { seconds < DAY_SECONDS }
    ensures value { result ≡ signed_offset sign seconds }
    ensures small { IfSome result IsSmall }
{
    match sign {
        b'+' => Some(Offset::East(seconds)),
        b'-' => Some(Offset::West(seconds)),
        _ => None,
    }
}

fn in_utc(seconds: u64, offset: Offset) -> u64
    requires shown { seconds < ALL_DAYS * DAY_SECONDS }
    requires offset { IsSmall offset }
    ensures { result ≡ in_utc seconds offset }
{
    match offset {
        Offset::East(ahead) => seconds.saturating_sub(ahead),
        Offset::West(behind) => seconds + behind,
    }
}

fn in_years(seconds: u64) -> Option<u64>
    ensures value { result ≡ in_years seconds }
    ensures small { IfSome result (λ n. n < ALL_DAYS * DAY_SECONDS) }
{
    if FIRST_DAY * DAY_SECONDS <= seconds && seconds < ALL_DAYS * DAY_SECONDS {
        Some(seconds)
    } else {
        None
    }
}

fn since_1970(seconds: u64, nanos: u32) -> i64
    requires { seconds < ALL_DAYS * DAY_SECONDS }
    ensures { result ≡ since_1970 seconds nanos }
{
    let micros = seconds * 1_000_000 + (nanos / 1000) as u64;
    micros as i64 - (DAY_OF_1970 * DAY_SECONDS * 1_000_000) as i64
}
