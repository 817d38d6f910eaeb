//! Whether a text is base64, tested without memory for its bytes.
ghost use Rattle.std.specs.Prelude.{◌≡◌, ◌%◌, ◌&&◌, ◌<◌, ◌==◌, ◌≤◌, drop, false, if◌then◌else◌, is_some, length};
ghost use Rattle.std.specs.Bool.{OnFalse, OnTrue};
ghost use Rattle.std.specs.List.{list_all};
ghost use Rattle.bt_text.specs.Bytes.{bytes_of_text, is_digit};
ghost use Rattle.bt_text.specs.Groups.{digit_bits, is_one_byte, is_two_bytes, is_whole_group};

use crate::bytes::standard_digit;

pub(crate) fn is_base64(text: &[u8]) -> bool
    ensures { result ≡ is_some (bytes_of_text text.now) }
{
    let mut rest = text;
    while rest.len() > 4 {
        if !begins_with_group(rest) {
            return false;
        }
        rest = &rest[4..];
    }
    is_last_group(rest)
}

// Whether the first four bytes are digits of either alphabet. The rest then decides.
#[tactic(auto, using(crate::proofs::Base64Groups::goes_on, crate::proofs::Base64Groups::ends))]
fn begins_with_group(text: &[u8]) -> bool
    requires { 4 < length text.now }
    ensures goes_on { OnTrue result (is_some (bytes_of_text (drop 4 text.now)) ≡ is_some (bytes_of_text text.now)) }
    ensures ends { OnFalse result (is_some (bytes_of_text text.now) ≡ false) }
{
    are_digits(&text[..4])
}

fn are_digits(text: &[u8]) -> bool
    ensures { result ≡ list_all is_digit text.now }
{
    text.iter().all(|c| is_digit(*c))
}

fn is_digit(c: u8) -> bool
    ensures { result ≡ is_digit c }
{
    c.is_ascii_alphanumeric() || c == b'+' || c == b'/' || c == b'-' || c == b'_'
}

// The same of a text of at most one group.
#[tactic(auto, using(crate::proofs::Base64Groups::of_one_group))]
fn is_last_group(text: &[u8]) -> bool
    requires { length text.now ≤ 4 }
    ensures { result ≡ is_some (bytes_of_text text.now) }
{
    match text {
        [] => true,
        [a, b] => is_one_byte(*a, *b),
        [a, b, c] => is_two_bytes(*a, *b, *c),
        [a, b, c, d] => is_whole_group(*a, *b, *c, *d),
        _ => false,
    }
}

fn is_whole_group(a: u8, b: u8, c: u8, d: u8) -> bool
    ensures { result ≡ is_whole_group a b c d }
{
    match (c, d) {
        (b'=', b'=') => is_one_byte(a, b),
        (_, b'=') => is_two_bytes(a, b, c),
        _ => is_digit(a) && is_digit(b) && is_digit(c) && is_digit(d),
    }
}

// No bit of the second digit is left over.
fn is_one_byte(a: u8, b: u8) -> bool
    ensures { result ≡ is_one_byte a b }
{
    is_digit(a) && digit_bits(b) % 16 == 0
}

// No bit of the third digit is left over.
fn is_two_bytes(a: u8, b: u8, c: u8) -> bool
    ensures { result ≡ is_two_bytes a b c }
{
    is_digit(a) && is_digit(b) && digit_bits(c) % 4 == 0
}

// The six bits of a digit; 255 for any other byte.
#[tactic(auto, using(crate::proofs::Base64Groups::bits_by_ranges))]
fn digit_bits(c: u8) -> u8
    ensures { result ≡ digit_bits c }
{
    if c.is_ascii_uppercase() {
        c - b'A'
    } else if c.is_ascii_lowercase() {
        c - b'a' + 26
    } else if c.is_ascii_digit() {
        c - b'0' + 52
    } else {
        sign_bits(standard_digit(c))
    }
}

// The same of a digit that is neither a letter nor a number.
fn sign_bits(c: u8) -> u8
    ensures { result ≡ if c == 43 then 62 else (if c == 47 then 63 else 255) }
{
    match c {
        b'+' => 62,
        b'/' => 63,
        _ => 255,
    }
}
