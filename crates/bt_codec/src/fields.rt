//! Fields, read from the left. Each function gives what it read and the bytes behind it.
ghost use Rattle.std.specs.Prelude.{nat_le};
ghost use Rattle.std.specs.Int.{w8, w16, w32, w64};
ghost use Rattle.bt_codec.specs.Reading.{Gives, bytes_at, number_at, number_with, text_at};

use crate::Fault;

/// One byte, as a number.
pub fn u8_at(bytes: &[u8]) -> Result<(u8, &[u8]), Fault>
    ensures { Gives (λ x. (x.0, x.1.now)) result (number_at w8 bytes.now) }
{
    if bytes.is_empty() {
        return Err(Fault::Bad { left: bytes.len() });
    }
    let (front, rest) = bytes.split_at(1);
    let number = u8::from_be_bytes([front[0]]);
    Ok((number, rest))
}

/// A number in two bytes, the higher one first.
pub fn u16_at(bytes: &[u8]) -> Result<(u16, &[u8]), Fault>
    ensures { Gives (λ x. (x.0, x.1.now)) result (number_at w16 bytes.now) }
{
    if bytes.len() < 2 {
        return Err(Fault::Bad { left: bytes.len() });
    }
    let (front, rest) = bytes.split_at(2);
    let number = u16::from_be_bytes([front[0], front[1]]);
    Ok((number, rest))
}

/// A number in four bytes, the highest one first.
pub fn u32_at(bytes: &[u8]) -> Result<(u32, &[u8]), Fault>
    ensures { Gives (λ x. (x.0, x.1.now)) result (number_at w32 bytes.now) }
{
    if bytes.len() < 4 {
        return Err(Fault::Bad { left: bytes.len() });
    }
    let (front, rest) = bytes.split_at(4);
    let number = u32::from_be_bytes([front[0], front[1], front[2], front[3]]);
    Ok((number, rest))
}

/// A number in eight bytes, the highest one first.
pub fn u64_at(bytes: &[u8]) -> Result<(u64, &[u8]), Fault>
    ensures { Gives (λ x. (x.0, x.1.now)) result (number_at w64 bytes.now) }
{
    if bytes.len() < 8 {
        return Err(Fault::Bad { left: bytes.len() });
    }
    let (front, rest) = bytes.split_at(8);
    let number = u64::from_be_bytes([
        front[0], front[1], front[2], front[3], front[4], front[5], front[6], front[7],
    ]);
    Ok((number, rest))
}

/// How many items follow: at least one.
#[tactic(auto, unfolding(crate::specs::Reading::number_with))]
pub fn count_at(bytes: &[u8]) -> Result<(u32, &[u8]), Fault>
    ensures { Gives (λ x. (x.0, x.1.now)) result (number_with w32 (λ n. nat_le 1 n) bytes.now) }
{
    let (count, rest) = u32_at(bytes)?;
    if count == 0 {
        return Err(Fault::Bad { left: bytes.len() });
    }
    Ok((count, rest))
}

/// A text behind its length in one byte. A length outside `least` to `most` is a fault at the
/// length, and one that the bytes do not have a fault at the text.
#[tactic(auto, unfolding(crate::specs::Reading::number_with, crate::specs::Reading::text_at))]
pub fn text8_at(least: usize, most: usize, bytes: &[u8]) -> Result<(&[u8], &[u8]), Fault>
    ensures { Gives (λ x. (x.0.now, x.1.now)) result (text_at w8 least most bytes.now) }
{
    let (len, rest) = u8_at(bytes)?;
    let len = len as usize;
    if len < least || most < len {
        return Err(Fault::Bad { left: bytes.len() });
    }
    bytes_at(len, rest)
}

/// As `text8_at`, with a length in two bytes.
#[tactic(auto, unfolding(crate::specs::Reading::number_with, crate::specs::Reading::text_at))]
pub fn text16_at(least: usize, most: usize, bytes: &[u8]) -> Result<(&[u8], &[u8]), Fault>
    ensures { Gives (λ x. (x.0.now, x.1.now)) result (text_at w16 least most bytes.now) }
{
    let (len, rest) = u16_at(bytes)?;
    let len = len as usize;
    if len < least || most < len {
        return Err(Fault::Bad { left: bytes.len() });
    }
    bytes_at(len, rest)
}

/// As `text8_at`, with a length in four bytes.
#[tactic(auto, unfolding(crate::specs::Reading::number_with, crate::specs::Reading::text_at))]
pub fn text32_at(least: usize, most: usize, bytes: &[u8]) -> Result<(&[u8], &[u8]), Fault>
    ensures { Gives (λ x. (x.0.now, x.1.now)) result (text_at w32 least most bytes.now) }
{
    let (len, rest) = u32_at(bytes)?;
    let len = len as usize;
    if len < least || most < len {
        return Err(Fault::Bad { left: bytes.len() });
    }
    bytes_at(len, rest)
}

fn bytes_at(len: usize, bytes: &[u8]) -> Result<(&[u8], &[u8]), Fault>
    ensures { Gives (λ x. (x.0.now, x.1.now)) result (bytes_at len bytes.now) }
{
    if bytes.len() < len {
        return Err(Fault::Bad { left: bytes.len() });
    }
    Ok(bytes.split_at(len))
}
