//! Fields, printed: bytes, numbers, moments and spans of time.
ghost use Rattle.std.specs.Prelude.{◌≡◌, ◌+◌, ◌/◌, ◌≤◌, ◌∷◌, [], ◌++◌, IfOk, OnOk, string_bytes, unsigned_abs};
ghost use Rattle.std.specs.Fmt.{signed_decimal};
ghost use Rattle.base64.specs.Engines.{standard};
ghost use Rattle.base64.specs.GeneralPurpose.{encode_of};
ghost use Rattle.serde_json.specs.Data.{string};
ghost use Rattle.serde_json.specs.View.{view};
ghost use Rattle.bt_text.specs.Printed.{IsMoment, IsMomentPrinted, clock_printed, date_printed, duration_printed, four_places, fraction_printed, last_digit, three_places, two_places};

use crate::calendar::date_of;
use base64::engine::general_purpose::STANDARD;
use bt_base::OutOfMemory;
use jiff_core::civil;
use serde_json::Value;
use std::alloc::Global;

const SECOND: u64 = 1_000_000;

const DAY: u64 = 86_400_000_000;

/// The bytes as a string of base64 in the standard alphabet with padding (RFC 4648, section 4).
pub fn print_bytes(alloc: Global, bytes: &[u8]) -> Result<Value, OutOfMemory>
    ensures { IfOk result (λ v. view v ≡ string (encode_of standard bytes.now)) }
{
    let text = STANDARD.encode(alloc, bytes)?;
    Ok(Value::String(text))
}

/// The number as a string in decimal, as a field of type int64 is written.
pub fn print_int64(alloc: Global, number: i64) -> Result<Value, OutOfMemory>
    ensures { IfOk result (λ v. view v ≡ string (signed_decimal number)) }
{
    let text = number.to_string(alloc)?;
    Ok(Value::String(text))
}

/// The moment of so many microseconds since 1970, as a string by RFC 3339 in UTC with `Z` and a
/// fraction of 0, 3 or 6 digits, the shortest that is exact (protobuf documentation, "ProtoJSON
/// Format", Timestamp).
pub fn print_timestamp(alloc: Global, moment: u64) -> Result<Value, OutOfMemory>
    requires { moment ≤ 253402300799999999 }
    ensures { IfOk result (λ v. IsMoment moment (view v)) }
{
    let text = moment_text(alloc, moment)?;
    Ok(Value::String(text))
}

fn moment_text(alloc: Global, moment: u64) -> Result<String, OutOfMemory>
    requires { moment ≤ 253402300799999999 }
    ensures { IfOk result (λ text. IsMomentPrinted moment (string_bytes text)) }
{
    let date = date_of(moment / DAY);
    let mut text = String::new(alloc);
    put_date(&mut text, date)?;
    text.push('T')?;
    put_clock(&mut text, moment / SECOND % 86_400)?;
    put_fraction(&mut text, moment % SECOND)?;
    text.push('Z')?;
    Ok(text)
}

/// The span of so many microseconds, as a string of seconds with a fraction of 0, 3 or 6 digits, the
/// shortest that is exact, and `s` (protobuf documentation, "ProtoJSON Format", Duration). Spans of
/// more than 315,576,000,000 seconds are printed too, though `read_duration` refuses them.
pub fn print_duration(alloc: Global, micros: u64) -> Result<Value, OutOfMemory>
    ensures { IfOk result (λ v. view v ≡ string (duration_printed micros)) }
{
    let mut text = (micros / SECOND).to_string(alloc)?;
    put_fraction(&mut text, micros % SECOND)?;
    text.push('s')?;
    Ok(Value::String(text))
}

fn put_date(text: &mut String, date: civil::Date) -> Result<(), OutOfMemory>
    ensures { OnOk result (string_bytes text.new
        ≡ string_bytes text.old ++ date_printed (unsigned_abs date.year) date.month date.day) }
{
    let year = date.year.unsigned_abs() as u64;
    put_year_month_day(text, year, date.month as u64, date.day as u64)
}

fn put_year_month_day(text: &mut String, year: u64, month: u64, day: u64) -> Result<(), OutOfMemory>
    ensures { OnOk result (string_bytes text.new
        ≡ string_bytes text.old ++ date_printed year month day) }
{
    put_four_places(text, year)?;
    text.push('-')?;
    put_two_places(text, month)?;
    text.push('-')?;
    put_two_places(text, day)
}

fn put_clock(text: &mut String, seconds: u64) -> Result<(), OutOfMemory>
    ensures { OnOk result (string_bytes text.new ≡ string_bytes text.old ++ clock_printed seconds) }
{
    put_two_places(text, seconds / 3600)?;
    text.push(':')?;
    put_two_places(text, seconds / 60 % 60)?;
    text.push(':')?;
    put_two_places(text, seconds % 60)
}

fn put_fraction(text: &mut String, micros: u64) -> Result<(), OutOfMemory>
    ensures { OnOk result (string_bytes text.new ≡ string_bytes text.old ++ fraction_printed micros) }
{
    if micros == 0 {
        return Ok(());
    }
    put_behind_dot(text, micros / 1000)?;
    if micros % 1000 == 0 {
        return Ok(());
    }
    put_three_places(text, micros % 1000)
}

fn put_behind_dot(text: &mut String, millis: u64) -> Result<(), OutOfMemory>
    ensures { OnOk result (string_bytes text.new ≡ string_bytes text.old ++ 46 ∷ three_places millis) }
{
    text.push('.')?;
    put_three_places(text, millis)
}

fn put_four_places(text: &mut String, number: u64) -> Result<(), OutOfMemory>
    ensures { OnOk result (string_bytes text.new ≡ string_bytes text.old ++ four_places number) }
{
    put_two_places(text, number / 100)?;
    put_two_places(text, number)
}

fn put_three_places(text: &mut String, number: u64) -> Result<(), OutOfMemory>
    ensures { OnOk result (string_bytes text.new ≡ string_bytes text.old ++ three_places number) }
{
    put_last_digit(text, number / 100)?;
    put_two_places(text, number)
}

fn put_two_places(text: &mut String, number: u64) -> Result<(), OutOfMemory>
    ensures { OnOk result (string_bytes text.new ≡ string_bytes text.old ++ two_places number) }
{
    put_last_digit(text, number / 10)?;
    put_last_digit(text, number)
}

fn put_last_digit(text: &mut String, number: u64) -> Result<(), OutOfMemory>
    ensures { OnOk result (string_bytes text.new ≡ string_bytes text.old ++ last_digit number ∷ []) }
{
    let digit = b'0' + (number % 10) as u8;
    text.push(digit as char)?;
    Ok(())
}
