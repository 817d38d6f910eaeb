//! Decimal numbers in a text.
ghost use Rattle.std.specs.Prelude.{◌≡◌, ◌+◌, ◌<◌, ◌≤◌, ◌^◌, IfSome, IsTrue, length};
ghost use Rattle.std.specs.Char.{is_ascii_digit};
ghost use Rattle.std.specs.List.{list_all};
ghost use Rattle.std.specs.Str.Parse.{digits_value};
ghost use Rattle.bt_text.specs.Numerals.{between, exact_numeral, field, is_numeral, numeral, two_digits};

// The number of at least one and at most so many digits.
pub(crate) fn numeral(most: usize, digits: &[u8]) -> Option<u64>
    requires { most ≤ 19 }
    ensures { result ≡ numeral most digits.now }
{
    if is_numeral(most, digits) {
        Some(value_of(digits))
    } else {
        None
    }
}

pub(crate) fn is_numeral(most: usize, bytes: &[u8]) -> bool
    ensures { result ≡ is_numeral most bytes.now }
{
    !bytes.is_empty() && bytes.len() <= most && are_digits(bytes)
}

// The number of exactly so many digits at a place of a text.
#[tactic(auto, using(crate::proofs::Fields::outside))]
pub(crate) fn field(text: &[u8], place: usize, count: usize) -> Option<u64>
    requires place { place ≤ 19 }
    requires some { 0 < count }
    requires few { count ≤ 4 }
    ensures value { result ≡ field place count text.now }
    ensures small { IfSome result (λ n. n < 10 ^ count) }
    ensures within { IfSome result (λ _. place + count ≤ length text.now) }
{
    if text.len() < place + count {
        return None;
    }
    let from = &text[place..];
    exact_numeral(&from[..count])
}

#[tactic(auto, using(crate::proofs::Fields::small))]
fn exact_numeral(digits: &[u8]) -> Option<u64>
    requires { length digits.now ≤ 4 }
    ensures value { result ≡ exact_numeral (length digits.now) digits.now }
    ensures small { IfSome result (λ n. n < 10 ^ length digits.now) }
{
    if are_digits(digits) {
        Some(value_of(digits))
    } else {
        None
    }
}

// The number from low to high of two digits at a place of a text.
pub(crate) fn two_digits(text: &[u8], place: usize, low: u64, high: u64) -> Option<u64>
    requires { place ≤ 19 }
    ensures value { result ≡ two_digits place low high text.now }
    ensures least { IfSome result (λ n. low ≤ n) }
    ensures most { IfSome result (λ n. n ≤ high) }
    ensures within { IfSome result (λ _. place + 2 ≤ length text.now) }
{
    between(low, high, field(text, place, 2)?)
}

fn between(low: u64, high: u64, number: u64) -> Option<u64>
    ensures value { result ≡ between low high number }
    ensures least { IfSome result (λ n. low ≤ n) }
    ensures most { IfSome result (λ n. n ≤ high) }
{
    if low <= number && number <= high {
        Some(number)
    } else {
        None
    }
}

fn are_digits(bytes: &[u8]) -> bool
    ensures { result ≡ list_all is_ascii_digit bytes.now }
{
    bytes.iter().all(|b| b.is_ascii_digit())
}

fn value_of(digits: &[u8]) -> u64
    requires short { length digits.now ≤ 19 }
    requires digits { IsTrue (list_all is_ascii_digit digits.now) }
    ensures { result ≡ digits_value 10 digits.now }
{
    let mut n = 0;
    for b in digits {
        n = n * 10 + (*b - b'0') as u64;
    }
    n
}
