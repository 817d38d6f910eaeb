//! The fields of a batch, read from the left. Each function gives what it read and the bytes
//! behind it.
ghost use Rattle.std.specs.Prelude.{◌≡◌, nat_le, if◌then◌else◌, Some, None};
ghost use Rattle.std.specs.Int.{w16, w32, w64};
ghost use Rattle.bt_types.specs.Grammar.{is_qualifier, is_row_key};
ghost use Rattle.bt_types.specs.Time.{is_micros};
ghost use Rattle.bt_entry.specs.Grammar.{is_retention, last_moment, most_of_value};
ghost use Rattle.bt_codec.specs.Reading.{Gives, number_with, text_at, text_with};
ghost use Rattle.bt_entry.specs.Reading.{time_at};

use bt_base::Blob;
use bt_codec::{Fault, text16_at, text32_at, u64_at};
use bt_types::{Micros, Qualifier, RowKey};
use std::alloc::Global;

const LAST_MOMENT: u64 = 253_402_300_799_999_999;

const LAST_TIME: u64 = 9_223_372_036_854_775_807;

// One day and seven days.
const LEAST_RETENTION: u64 = 86_400_000_000;

const MOST_RETENTION: u64 = 604_800_000_000;

const MOST_OF_VALUE: usize = 4_194_304;

/// A moment, in microseconds since 1970.
#[tactic(auto, unfolding(bt_codec::specs::Reading::number_with))]
pub fn moment_at(bytes: &[u8]) -> Result<(u64, &[u8]), Fault>
    ensures { Gives (λ x. (x.0, x.1.now)) result (number_with w64 (λ n. nat_le n last_moment) bytes.now) }
{
    let (moment, rest) = u64_at(bytes)?;
    if moment > LAST_MOMENT {
        return Err(Fault::Bad { left: bytes.len() });
    }
    Ok((moment, rest))
}

// A start or an end of the times that are removed of a column.
#[tactic(auto, unfolding(bt_codec::specs::Reading::number_with))]
pub(crate) fn time_at(bytes: &[u8]) -> Result<(u64, &[u8]), Fault>
    ensures { Gives (λ x. (x.0, x.1.now)) result (time_at bytes.now) }
{
    let (time, rest) = u64_at(bytes)?;
    if time > LAST_TIME {
        return Err(Fault::Bad { left: bytes.len() });
    }
    Ok((time, rest))
}

/// For how many microseconds changes are kept for streams: 0, or one to seven days.
#[tactic(auto, unfolding(bt_codec::specs::Reading::number_with))]
pub fn retention_at(bytes: &[u8]) -> Result<(u64, &[u8]), Fault>
    ensures { Gives (λ x. (x.0, x.1.now)) result (number_with w64 is_retention bytes.now) }
{
    let (retention, rest) = u64_at(bytes)?;
    if !is_retention(retention) {
        return Err(Fault::Bad { left: bytes.len() });
    }
    Ok((retention, rest))
}

fn is_retention(retention: u64) -> bool
    ensures { result ≡ is_retention retention }
{
    retention == 0 || (LEAST_RETENTION <= retention && retention <= MOST_RETENTION)
}

#[tactic(auto, unfolding(bt_codec::specs::Reading::number_with))]
pub(crate) fn micros_at(bytes: &[u8]) -> Result<(Micros, &[u8]), Fault>
    ensures { Gives (λ x. (x.0, x.1.now)) result (number_with w64 is_micros bytes.now) }
{
    let (number, rest) = u64_at(bytes)?;
    match micros(number) {
        Some(at) => Ok((at, rest)),
        None => Err(Fault::Bad { left: bytes.len() }),
    }
}

fn micros(number: u64) -> Option<Micros>
    ensures { result ≡ (if is_micros number then Some number else None) }
{
    match i64::try_from(number) {
        Ok(number) => Micros::new(number),
        Err(_) => None,
    }
}

#[tactic(auto, unfolding(bt_codec::specs::Reading::text_with))]
pub(crate) fn key_at(alloc: Global, bytes: &[u8]) -> Result<(RowKey, &[u8]), Fault>
    ensures { Gives (λ x. (x.0, x.1.now)) result (text_with w16 1 4096 is_row_key bytes.now) }
{
    let (text, rest) = text16_at(1, 4096, bytes)?;
    match RowKey::new(alloc, text)? {
        Some(key) => Ok((key, rest)),
        None => Err(Fault::Bad {
            left: text.len() + rest.len(),
        }),
    }
}

#[tactic(auto, unfolding(bt_codec::specs::Reading::text_with))]
pub(crate) fn qualifier_at(alloc: Global, bytes: &[u8]) -> Result<(Qualifier, &[u8]), Fault>
    ensures { Gives (λ x. (x.0, x.1.now)) result (text_with w16 0 16384 is_qualifier bytes.now) }
{
    let (text, rest) = text16_at(0, 16384, bytes)?;
    match Qualifier::new(alloc, text)? {
        Some(qualifier) => Ok((qualifier, rest)),
        None => Err(Fault::Bad {
            left: text.len() + rest.len(),
        }),
    }
}

pub(crate) fn value_at(alloc: Global, bytes: &[u8]) -> Result<(Blob, &[u8]), Fault>
    ensures { Gives (λ x. (x.0, x.1.now)) result (text_at w32 0 most_of_value bytes.now) }
{
    let (text, rest) = text32_at(0, MOST_OF_VALUE, bytes)?;
    let value = Blob::new(alloc, text)?;
    Ok((value, rest))
}
