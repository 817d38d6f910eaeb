//! Reads and prints fields of JSON, a line each, for a table of texts with their values.
//!
//! A line is a kind and what follows a blank: `int64 JSON`, and so `int32`, `bytes`, `timestamp` and
//! `duration`; `is_int64 JSON` and the other tests likewise; `enum NAMES JSON`, `is_enum NAMES JSON` and
//! `members NAMES JSON`; `is_json TEXT`, and `serde_json TEXT` for whether that crate reads it, which
//! takes the time of reading alone; `are_int64_digits TEXT` and `is_standard_text TEXT`; `print_int64 NUMBER`,
//! `print_bytes TEXT`, `print_timestamp NUMBER` and `print_duration NUMBER`. The answer is a number,
//! bytes in hexadecimal, `ok`, `yes`, `no`, a JSON text, or `bad` with the name that the refusal tells,
//! where the field is called `field`.
#![tactic(auto)]

use bt_base::{Blob, OutOfMemory};
use bt_json::{ReadRefusal, Scratch, Value};
use bt_text::{
    FieldRefusal, are_int64_digits, check_members, is_bytes, is_duration, is_enum, is_int32,
    is_int64, is_standard_text, is_timestamp, print_bytes, print_duration, print_int64,
    print_timestamp, read_bytes, read_duration, read_enum, read_int32, read_int64, read_timestamp,
};
use std::alloc::Global;
use std::io::{Read, Write};
use std::process::ExitCode;
use std::str;

const GREATEST_MOMENT: u64 = 253_402_300_799_999_999;

fn said(alloc: Global, text: &str) -> Result<String, OutOfMemory> {
    let said = String::from_str(alloc, text)?;
    Ok(said)
}

fn refused(alloc: Global, refusal: FieldRefusal) -> Result<String, OutOfMemory> {
    match refusal {
        FieldRefusal::BadField { name } => {
            let mut text = said(alloc, "bad ")?;
            match str::from_utf8(name.bytes()) {
                Ok(name) => text.push_str(name)?,
                Err(_) => text.push('?')?,
            }
            Ok(text)
        }
        FieldRefusal::OutOfMemory => Err(OutOfMemory),
    }
}

fn number(alloc: Global, read: Result<i64, FieldRefusal>) -> Result<String, OutOfMemory> {
    match read {
        Ok(number) => {
            let text = number.to_string(alloc)?;
            Ok(text)
        }
        Err(refusal) => refused(alloc, refusal),
    }
}

fn short_number(alloc: Global, read: Result<i32, FieldRefusal>) -> Result<String, OutOfMemory> {
    match read {
        Ok(read) => number(alloc, Ok(i64::from(read))),
        Err(refusal) => refused(alloc, refusal),
    }
}

fn place(alloc: Global, read: Result<u32, FieldRefusal>) -> Result<String, OutOfMemory> {
    match read {
        Ok(place) => number(alloc, Ok(i64::from(place))),
        Err(refusal) => refused(alloc, refusal),
    }
}

fn bytes(alloc: Global, read: Result<Blob, FieldRefusal>) -> Result<String, OutOfMemory> {
    match read {
        Ok(blob) => {
            let mut text = String::new(alloc);
            for byte in blob.bytes() {
                let digits = format!(in alloc; "{byte:02x}")?;
                text.push_str(digits.as_str())?;
            }
            Ok(text)
        }
        Err(refusal) => refused(alloc, refusal),
    }
}

fn members(alloc: Global, checked: Result<(), FieldRefusal>) -> Result<String, OutOfMemory> {
    match checked {
        Ok(()) => said(alloc, "ok"),
        Err(refusal) => refused(alloc, refusal),
    }
}

fn value_of<'t>(
    alloc: Global,
    text: &'t str,
    scratch: &'t mut Scratch,
) -> Result<Option<Value<'t>>, OutOfMemory> {
    match bt_json::read(alloc, text, scratch) {
        Ok(value) => Ok(Some(value)),
        Err(ReadRefusal::IllFormed) => Ok(None),
        Err(ReadRefusal::OutOfMemory) => Err(OutOfMemory),
    }
}

fn is_json(alloc: Global, text: &str) -> Result<String, OutOfMemory> {
    let mut scratch = Scratch::new(alloc);
    let value = value_of(alloc, text, &mut scratch)?;
    tested(alloc, value.is_some())
}

fn read(alloc: Global, kind: &str, text: &str) -> Result<String, OutOfMemory> {
    let mut scratch = Scratch::new(alloc);
    let Some(value) = value_of(alloc, text, &mut scratch)? else {
        return said(alloc, "no JSON");
    };
    match kind {
        "int64" => number(alloc, read_int64(alloc, &value, "field")),
        "int32" => short_number(alloc, read_int32(alloc, &value, "field")),
        "bytes" => bytes(alloc, read_bytes(alloc, &value, "field")),
        "timestamp" => number(alloc, read_timestamp(alloc, &value, "field")),
        "duration" => number(alloc, read_duration(alloc, &value, "field")),
        _ => tested(alloc, test(kind, &value)),
    }
}

fn test(kind: &str, value: &Value<'_>) -> bool {
    match kind {
        "is_int64" => is_int64(value),
        "is_int32" => is_int32(value),
        "is_bytes" => is_bytes(value),
        "is_timestamp" => is_timestamp(value),
        _ => is_duration(value),
    }
}

fn tested(alloc: Global, holds: bool) -> Result<String, OutOfMemory> {
    said(alloc, if holds { "yes" } else { "no" })
}

fn read_with_names(alloc: Global, kind: &str, rest: &str) -> Result<String, OutOfMemory> {
    let Some((names, text)) = rest.split_once(' ') else {
        return said(alloc, "no names");
    };
    let mut scratch = Scratch::new(alloc);
    let Some(value) = value_of(alloc, text, &mut scratch)? else {
        return said(alloc, "no JSON");
    };
    match kind {
        "enum" => place(alloc, read_enum(alloc, &value, "field", names)),
        "is_enum" => tested(alloc, is_enum(&value, names)),
        _ => members(alloc, check_members(alloc, &value, "field", names)),
    }
}

fn printed(
    alloc: Global,
    printed: Result<serde_json::Value, OutOfMemory>,
) -> Result<String, OutOfMemory> {
    let text = printed?.to_string(alloc)?;
    Ok(text)
}

fn print_number(alloc: Global, text: &str) -> Result<String, OutOfMemory> {
    match text.parse::<i64>() {
        Ok(number) => printed(alloc, print_int64(alloc, number)),
        Err(_) => said(alloc, "no number"),
    }
}

fn print_moment(alloc: Global, text: &str) -> Result<String, OutOfMemory> {
    match text.parse::<u64>() {
        Ok(moment) if moment <= GREATEST_MOMENT => printed(alloc, print_timestamp(alloc, moment)),
        _ => said(alloc, "no moment"),
    }
}

fn print_span(alloc: Global, text: &str) -> Result<String, OutOfMemory> {
    match text.parse::<u64>() {
        Ok(micros) => printed(alloc, print_duration(alloc, micros)),
        Err(_) => said(alloc, "no number"),
    }
}

fn print(alloc: Global, kind: &str, text: &str) -> Result<String, OutOfMemory> {
    match kind {
        "print_int64" => print_number(alloc, text),
        "print_bytes" => printed(alloc, print_bytes(alloc, text.as_bytes())),
        "print_timestamp" => print_moment(alloc, text),
        _ => print_span(alloc, text),
    }
}

fn answer(alloc: Global, kind: &str, rest: &str) -> Result<String, OutOfMemory> {
    match kind {
        "enum" | "is_enum" | "members" => read_with_names(alloc, kind, rest),
        "is_json" => is_json(alloc, rest),
        "serde_json" => tested(alloc, serde_json::Value::from_str(alloc, rest).is_ok()),
        "are_int64_digits" => tested(alloc, are_int64_digits(rest)),
        "is_standard_text" => tested(alloc, is_standard_text(rest)),
        _ if kind.starts_with("print_") => print(alloc, kind, rest),
        _ => read(alloc, kind, rest),
    }
}

fn answers(alloc: Global, lines: &str) -> Result<String, OutOfMemory> {
    let mut answers = String::new(alloc);
    for line in lines.lines() {
        if let Some((kind, rest)) = line.split_once(' ') {
            let answer = answer(alloc, kind, rest)?;
            answers.push_str(answer.as_str())?;
        }
        answers.push('\n')?;
    }
    Ok(answers)
}

fn main(rt: HostRuntime) -> ExitCode {
    let alloc = rt.alloc();
    let mut input = Vec::new(alloc);
    if rt.stdin().read_to_end(&mut input).is_err() {
        return ExitCode::from(1);
    }
    let Ok(lines) = str::from_utf8(&input) else {
        return ExitCode::from(1);
    };
    let Ok(answers) = answers(alloc, lines) else {
        return ExitCode::from(3);
    };
    match rt.stdout().write_all(answers.as_bytes()) {
        Ok(()) => ExitCode::from(0),
        Err(_) => ExitCode::from(1),
    }
}
