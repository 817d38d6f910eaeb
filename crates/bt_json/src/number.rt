//! Numbers of JSON texts.
ghost use Rattle.std.specs.Prelude.{◌≡◌, ◌<◌, ◌==◌, IsTrue, false, length, option_map, slice_index, true};
ghost use Rattle.serde_json.specs.Find.{as_i64, as_u64, of_float};
ghost use Rattle.serde_json.specs.Read.{float_of, number_from, number_of};
ghost use Rattle.bt_json.specs.View.{number_view};

use fast_float::Numeral;

/// A number: an integer of 64 bits, or the nearest finite float.
#[derive(Clone, Copy, Debug, Drop)]
pub enum Number {
    Unsigned(u64),
    /// Below zero.
    Negative(i64),
    Float(f64),
}

impl Number {
    /// The number, where it is not below zero and is no float.
    pub fn as_u64(self) -> Option<u64>
        ensures { result ≡ as_u64 (number_view self) }
    {
        match self {
            Number::Unsigned(number) => Some(number),
            Number::Negative(_) | Number::Float(_) => None,
        }
    }

    /// The number, where it fits 63 bits and a sign and is no float.
    pub fn as_i64(self) -> Option<i64>
        ensures { result ≡ as_i64 (number_view self) }
    {
        match self {
            Number::Unsigned(number) => {
                if number <= i64::MAX as u64 {
                    Some(number as i64)
                } else {
                    None
                }
            }
            Number::Negative(number) => Some(number),
            Number::Float(_) => None,
        }
    }

    /// The number that a token writes, where it is in the range of floats.
    pub(crate) fn parse(text: &str) -> Option<Number>
        ensures { option_map number_view result ≡ number_of text.now }
    {
        let bytes = text.as_bytes();
        if has_minus(bytes) {
            Number::below_zero(&Numeral::scan(&bytes[1..]))
        } else {
            Number::not_below_zero(&Numeral::scan(bytes))
        }
    }

    fn not_below_zero(numeral: &Numeral<'_>) -> Option<Number>
        ensures { option_map number_view result ≡ number_from false numeral.now }
    {
        match numeral.to_u64() {
            Some(number) => Some(Number::Unsigned(number)),
            None => Number::nearest(false, numeral),
        }
    }

    fn below_zero(numeral: &Numeral<'_>) -> Option<Number>
        ensures { option_map number_view result ≡ number_from true numeral.now }
    {
        match numeral.to_i64(true) {
            Some(number) if number < 0 => Some(Number::Negative(number)),
            _ => Number::nearest(true, numeral),
        }
    }

    fn nearest(is_negative: bool, numeral: &Numeral<'_>) -> Option<Number>
        ensures { option_map number_view result ≡ float_of is_negative numeral.now }
    {
        let number = numeral.to_float::<f64>(is_negative);
        if number.is_finite() {
            Some(Number::Float(number))
        } else {
            None
        }
    }
}

fn has_minus(bytes: &[u8]) -> bool
    ensures value { result ≡ (slice_index bytes.now 0 == 45) }
    ensures some { IsTrue result → 0 < length bytes.now }
{
    !bytes.is_empty() && bytes[0] == b'-'
}
