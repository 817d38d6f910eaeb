//! Names of families and tables, read from the left.
ghost use Rattle.std.specs.Prelude.{◌≡◌, IfOk};
ghost use Rattle.std.specs.Int.{w8, w16};
ghost use Rattle.bt_types.specs.Grammar.{is_family_name, is_table_name, lawful};
ghost use Rattle.bt_entry.specs.Grammar.{is_below, is_family_behind, is_table_behind};
ghost use Rattle.bt_codec.specs.Reading.{Gives, text_with};

use bt_base::OutOfMemory;
use bt_codec::{Fault, text8_at, text16_at};
use bt_types::{FamilyName, TableName};
use std::alloc::Global;
use std::cmp::Ordering;

// projects/P/instances/I/tables/T with one character for each of P, I and T, and with the most.
const LEAST_OF_TABLE: usize = 31;

const MOST_OF_TABLE: usize = 278;

#[tactic(auto, unfolding(bt_codec::specs::Reading::text_with))]
pub(crate) fn family_name_at(alloc: Global, bytes: &[u8]) -> Result<(FamilyName, &[u8]), Fault>
    ensures { Gives (λ x. (x.0, x.1.now)) result (text_with w8 1 64 is_family_name bytes.now) }
{
    let (text, rest) = text8_at(1, 64, bytes)?;
    match FamilyName::from_bytes(alloc, text)? {
        Some(name) => Ok((name, rest)),
        None => Err(Fault::Bad {
            left: text.len() + rest.len(),
        }),
    }
}

// A name that comes behind the one before it.
#[tactic(auto, unfolding(bt_codec::specs::Reading::text_with))]
pub(crate) fn next_family_name_at<'a>(
    alloc: Global,
    before: &[u8],
    bytes: &'a [u8],
) -> Result<(FamilyName, &'a [u8]), Fault>
    ensures { Gives (λ x. (x.0, x.1.now)) result (text_with w8 1 64 (is_family_behind before.now) bytes.now) }
{
    let (text, rest) = text8_at(1, 64, bytes)?;
    match next_family_name(alloc, before, text)? {
        Some(name) => Ok((name, rest)),
        None => Err(Fault::Bad {
            left: text.len() + rest.len(),
        }),
    }
}

#[tactic(auto, unfolding(bt_codec::specs::Reading::text_with))]
pub(crate) fn table_name_at(alloc: Global, bytes: &[u8]) -> Result<(TableName, &[u8]), Fault>
    ensures { Gives (λ x. (x.0, x.1.now)) result (text_with w16 31 278 is_table_name bytes.now) }
{
    let (text, rest) = text16_at(LEAST_OF_TABLE, MOST_OF_TABLE, bytes)?;
    match TableName::from_bytes(alloc, text)? {
        Some(name) => Ok((name, rest)),
        None => Err(Fault::Bad {
            left: text.len() + rest.len(),
        }),
    }
}

/// A name that comes behind the one before it.
#[tactic(auto, unfolding(bt_codec::specs::Reading::text_with))]
pub fn next_table_name_at<'a>(
    alloc: Global,
    before: &[u8],
    bytes: &'a [u8],
) -> Result<(TableName, &'a [u8]), Fault>
    ensures { Gives (λ x. (x.0, x.1.now)) result (text_with w16 31 278 (is_table_behind before.now) bytes.now) }
{
    let (text, rest) = text16_at(LEAST_OF_TABLE, MOST_OF_TABLE, bytes)?;
    match next_table_name(alloc, before, text)? {
        Some(name) => Ok((name, rest)),
        None => Err(Fault::Bad {
            left: text.len() + rest.len(),
        }),
    }
}

fn next_table_name(
    alloc: Global,
    before: &[u8],
    bytes: &[u8],
) -> Result<Option<TableName>, OutOfMemory>
    ensures { IfOk result (λ name. name ≡ lawful (is_table_behind before.now) bytes.now) }
{
    if !is_below(before, bytes) {
        return Ok(None);
    }
    TableName::from_bytes(alloc, bytes)
}

fn next_family_name(
    alloc: Global,
    before: &[u8],
    bytes: &[u8],
) -> Result<Option<FamilyName>, OutOfMemory>
    ensures { IfOk result (λ name. name ≡ lawful (is_family_behind before.now) bytes.now) }
{
    if !is_below(before, bytes) {
        return Ok(None);
    }
    FamilyName::from_bytes(alloc, bytes)
}

fn is_below(a: &[u8], b: &[u8]) -> bool
    ensures { result ≡ is_below a.now b.now }
{
    matches!(a.cmp(b), Ordering::Less)
}
