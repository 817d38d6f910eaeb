//! Fractions of a second.
ghost use Rattle.std.specs.Prelude.{◌≡◌, ◌<◌, ◌^◌, IfSome};
ghost use Rattle.bt_text.specs.Fraction.{fraction_in, nanos_of};

use crate::numerals::numeral;

// The nanoseconds of nothing, or of a dot and 1 to 9 digits.
pub(crate) fn fraction_in(text: &[u8]) -> Option<u32>
    ensures value { result ≡ fraction_in text.now }
    ensures small { IfSome result (λ nanos. nanos < 10 ^ 9) }
{
    match text {
        [] => Some(0),
        [b'.', digits @ ..] => nanos_of(digits),
        _ => None,
    }
}

#[tactic(auto, using(crate::proofs::Fractions::below_second))]
fn nanos_of(digits: &[u8]) -> Option<u32>
    ensures value { result ≡ nanos_of digits.now }
    ensures small { IfSome result (λ nanos. nanos < 10 ^ 9) }
{
    let number = numeral(9, digits)?;
    let places = 9 - digits.len() as u32;
    Some((number * 10u64.pow(places)) as u32)
}
