//! Ranges of rows.
ghost use Rattle.std.specs.Prelude.{◌≡◌, ℕ, List, IsTrue, IfOk};
ghost use Rattle.bt_types.specs.Grammar.{is_row_key};
ghost use Rattle.bt_range.specs.Bounds.{end_key, first_key, is_asked, is_in, just_past, least, normal, or_least, row_end};

use crate::Bound;
use bt_base::{Blob, OutOfMemory, Plain};
use bt_types::RowRange;
use std::alloc::Global;

/// A range of rows as it was asked for (`google.bigtable.v2.RowRange`). A start that is unset or
/// empty is before all row keys. An end that is unset or empty is no bound.
#[derive(Debug, Drop)]
pub struct AskedRange {
    pub start: Bound,
    pub end: Bound,
}

impl Plain for AskedRange {
    fn copy(&self, alloc: Global) -> Result<AskedRange, OutOfMemory> {
        Ok(AskedRange {
            start: self.start.copy(alloc)?,
            end: self.end.copy(alloc)?,
        })
    }
}

/// The range from a first row key up to an end that has the same row keys: bytes followed by 00
/// are the least that are past them, and 00 alone is the least row key.
pub fn normal_range(alloc: Global, asked: &AskedRange) -> Result<RowRange, OutOfMemory>
    ensures value { IfOk result (λ range. range ≡ normal asked.now) }
    ensures rows { IfOk result (λ range. (k : List ℕ) → IsTrue (is_row_key k) → is_in range k ≡ is_asked asked.now k) }
{
    let start = first_key(alloc, &asked.start)?;
    let end = end_key(alloc, &asked.end)?;
    Ok(RowRange { start, end })
}

fn first_key(alloc: Global, start: &Bound) -> Result<Blob, OutOfMemory>
    ensures { IfOk result (λ key. key ≡ first_key start.now) }
{
    match start {
        Bound::Unset => least(alloc),
        Bound::Closed(key) => or_least(alloc, key),
        Bound::Past(key) => just_past(alloc, key),
    }
}

fn end_key(alloc: Global, end: &Bound) -> Result<Option<Blob>, OutOfMemory>
    ensures { IfOk result (λ key. key ≡ end_key (row_end end.now)) }
{
    match end {
        Bound::Closed(key) if !key.bytes().is_empty() => Ok(Some(just_past(alloc, key)?)),
        Bound::Past(key) if !key.bytes().is_empty() => Ok(Some(key.copy(alloc)?)),
        _ => Ok(None),
    }
}

fn or_least(alloc: Global, key: &Blob) -> Result<Blob, OutOfMemory>
    ensures { IfOk result (λ key'. key' ≡ or_least key.now) }
{
    if key.bytes().is_empty() {
        let least = least(alloc)?;
        return Ok(least);
    }
    let key = key.copy(alloc)?;
    Ok(key)
}

pub(crate) fn least(alloc: Global) -> Result<Blob, OutOfMemory>
    ensures { IfOk result (λ key. key ≡ least) }
{
    Blob::new(alloc, &[0u8])
}

// The least bytes past these.
pub(crate) fn just_past(alloc: Global, key: &Blob) -> Result<Blob, OutOfMemory>
    ensures { IfOk result (λ key'. key' ≡ just_past key.now) }
{
    let mut held = Vec::from_slice(alloc, key.bytes())?;
    held.push(0)?;
    Ok(Blob::from_vec(held))
}
