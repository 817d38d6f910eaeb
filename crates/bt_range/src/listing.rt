//! The ranges of what is listed.
ghost use Rattle.std.specs.Prelude.{◌≡◌, IfOk, map};
ghost use Rattle.bt_range.specs.Bounds.{normal};
ghost use Rattle.bt_range.specs.RowSets.{all_rows, key_range, listed};

use crate::AskedRange;
use crate::asked_range::{just_past, least, normal_range};
use bt_base::{Blob, OutOfMemory, Plain};
use bt_types::RowRange;
use std::alloc::Global;

// A range for each key and each range, or the one of all rows where nothing is listed.
pub fn listed(
    alloc: Global,
    keys: &[Blob],
    ranges: &[AskedRange],
) -> Result<Vec<RowRange>, OutOfMemory>
    ensures { IfOk result (λ all. all.items ≡ listed keys.now ranges.now) }
{
    let mut all = key_ranges(alloc, keys)?;
    let mut more = normal_ranges(alloc, ranges)?;
    if keys.is_empty() && ranges.is_empty() {
        more.push(all_rows(alloc)?)?;
    }
    all.append(&mut more)?;
    Ok(all)
}

fn all_rows(alloc: Global) -> Result<RowRange, OutOfMemory>
    ensures { IfOk result (λ range. range ≡ all_rows) }
{
    let start = least(alloc)?;
    Ok(RowRange { start, end: None })
}

fn key_ranges(alloc: Global, keys: &[Blob]) -> Result<Vec<RowRange>, OutOfMemory>
    ensures { IfOk result (λ all. all.items ≡ map key_range keys.now) }
{
    let mut all = Vec::with_capacity(alloc, keys.len())?;
    for key in keys {
        all.push(key_range(alloc, key)?)?;
    }
    Ok(all)
}

// The range that has this key alone.
fn key_range(alloc: Global, key: &Blob) -> Result<RowRange, OutOfMemory>
    ensures { IfOk result (λ range. range ≡ key_range key.now) }
{
    let start = key.copy(alloc)?;
    let end = just_past(alloc, key)?;
    Ok(RowRange {
        start,
        end: Some(end),
    })
}

fn normal_ranges(alloc: Global, ranges: &[AskedRange]) -> Result<Vec<RowRange>, OutOfMemory>
    ensures { IfOk result (λ all. all.items ≡ map normal ranges.now) }
{
    let mut all = Vec::with_capacity(alloc, ranges.len())?;
    for range in ranges {
        all.push(normal_range(alloc, range)?)?;
    }
    Ok(all)
}
