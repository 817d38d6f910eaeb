//! Bytes, which JSON has as base64.
ghost use Rattle.std.specs.Prelude.{◌≡◌, ◌++◌, map, replicate, IfOk, is_some};
ghost use Rattle.std.specs.List.{list_any};
ghost use Rattle.base64.specs.Engines.{standard};
ghost use Rattle.base64.specs.GeneralPurpose.{decoded_of};
ghost use Rattle.bt_json.specs.View.{view};
ghost use Rattle.bt_text.specs.Bytes.{bytes_in, bytes_of_text, is_standard_text, is_url_safe_digit, missing_padding, standard_digit};
ghost use Rattle.bt_text.specs.Refusal.{Gives};

use crate::base64_form::is_base64;
use crate::refusal::FieldRefusal;
use base64::DecodeAllocError;
use base64::engine::general_purpose::STANDARD;
use bt_base::{Blob, OutOfMemory};
use bt_json::Value;
use std::alloc::Global;
use std::iter::repeat_n;

/// The bytes of a field of type bytes: a string of base64 in the standard or the URL-safe alphabet
/// (RFC 4648, sections 4 and 5), with or without padding (protobuf documentation, "ProtoJSON
/// Format", bytes). `BadField` carries `name`.
pub fn read_bytes(alloc: Global, value: &Value<'_>, name: &str) -> Result<Blob, FieldRefusal>
    ensures { Gives name.now (bytes_in (view value.now)) result }
{
    let Some(text) = value.as_str() else {
        return Err(FieldRefusal::bad_field(alloc, name));
    };
    match decoded(alloc, text) {
        Ok(Some(bytes)) => Ok(bytes),
        Ok(None) => Err(FieldRefusal::bad_field(alloc, name)),
        Err(OutOfMemory) => Err(FieldRefusal::OutOfMemory),
    }
}

/// Whether `read_bytes` gives bytes. Takes no memory.
pub fn is_bytes(value: &Value<'_>) -> bool
    ensures { result ≡ is_some (bytes_in (view value.now)) }
{
    match value.as_str() {
        Some(text) => is_base64(text.as_bytes()),
        None => false,
    }
}

#[tactic(auto, using(crate::proofs::StandardForms::read_as_it_is, crate::proofs::StandardForms::read_in_standard_form))]
fn decoded(alloc: Global, text: &str) -> Result<Option<Blob>, OutOfMemory>
    ensures { IfOk result (λ bytes. bytes ≡ bytes_of_text text.now) }
{
    if is_standard_text(text) {
        return standard_decoded(alloc, text.as_bytes());
    }
    let form = standard_form(alloc, text.as_bytes())?;
    standard_decoded(alloc, &form)
}

/// Whether the text has whole groups of four bytes and neither `-` nor `_`. `read_bytes` then reads
/// it as it is, as base64 of the standard alphabet with padding, and makes no copy.
pub fn is_standard_text(text: &str) -> bool
    ensures { result ≡ is_standard_text text.now }
{
    text.len() % 4 == 0 && !has_url_safe_digit(text.as_bytes())
}

fn has_url_safe_digit(text: &[u8]) -> bool
    ensures { result ≡ list_any is_url_safe_digit text.now }
{
    text.iter().any(|c| *c == b'-' || *c == b'_')
}

// The text in the standard alphabet and with its padding, in memory taken once.
fn standard_form(alloc: Global, text: &[u8]) -> Result<Vec<u8>, OutOfMemory>
    ensures { IfOk result (λ form. form.items
        ≡ map standard_digit text.now ++ replicate (missing_padding text.now) 61) }
{
    let digits = text.iter().map(|c| standard_digit(*c));
    let padding = repeat_n(b'=', missing_padding(text));
    let form = digits.chain(padding).collect(alloc)?;
    Ok(form)
}

pub(crate) fn missing_padding(text: &[u8]) -> usize
    ensures { result ≡ missing_padding text.now }
{
    if text.contains(&b'=') {
        0
    } else {
        (4 - text.len() % 4) % 4
    }
}

pub(crate) fn standard_digit(c: u8) -> u8
    ensures { result ≡ standard_digit c }
{
    match c {
        b'-' => b'+',
        b'_' => b'/',
        _ => c,
    }
}

#[tactic(auto, unfolding(base64::specs::GeneralPurpose::decoded_of))]
fn standard_decoded(alloc: Global, text: &[u8]) -> Result<Option<Blob>, OutOfMemory>
    ensures { IfOk result (λ bytes. bytes ≡ decoded_of standard text.now) }
{
    match STANDARD.decode(alloc, text) {
        Ok(bytes) => Ok(Some(Blob::from_vec(bytes))),
        Err(DecodeAllocError::OutOfMemory) => Err(OutOfMemory),
        Err(DecodeAllocError::DecodeError(_)) => Ok(None),
    }
}
