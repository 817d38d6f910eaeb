//! Parts that cover a range.
ghost use Rattle.std.specs.Prelude.{◌≡◌, ◌↔◌, Some, IsTrue, IfOk};
ghost use Rattle.bt_range.specs.Covers.{IsExactCover, is_chain, is_cover, is_same_end};

use crate::sorting::{is_filled, sorted};
use bt_base::{Blob, OutOfMemory, Plain};
use bt_types::RowRange;
use std::alloc::Global;

/// Whether the parts have together what the whole has, each byte string once: each that is in the
/// whole is in one part, and each that is not is in none. All byte strings count, also those that
/// are no row keys, so that a gap between two parts is never overlooked. A part that is empty
/// counts as nothing, and parts may be given in any order
/// (`google.bigtable.v2.StreamContinuationToken.partition`).
pub fn covers_exactly(
    alloc: Global,
    parts: &[RowRange],
    whole: &RowRange,
) -> Result<bool, OutOfMemory>
    ensures { IfOk result (λ exact. IsTrue exact ↔ IsExactCover parts.now whole.now) }
{
    let all = copied(alloc, parts)?;
    let all = sorted(all)?;
    let exact = is_cover(alloc, all.as_slice(), whole)?;
    Ok(exact)
}

fn copied(alloc: Global, parts: &[RowRange]) -> Result<Vec<RowRange>, OutOfMemory>
    ensures { IfOk result (λ all. all.items ≡ parts.now) }
{
    let mut all = Vec::with_capacity(alloc, parts.len())?;
    for part in parts {
        all.push(part.copy(alloc)?)?;
    }
    Ok(all)
}

// The same of parts that are not empty and stand in the order of their starts.
fn is_cover(alloc: Global, parts: &[RowRange], whole: &RowRange) -> Result<bool, OutOfMemory>
    ensures { IfOk result (λ exact. exact ≡ is_cover parts.now whole.now) }
{
    if !is_filled(whole) {
        return Ok(parts.is_empty());
    }
    let start = Some(whole.start.copy(alloc)?);
    Ok(is_chain(&start, parts, &whole.end))
}

// Whether each part starts where the one before ended, from the start on up to the end.
fn is_chain(start: &Option<Blob>, parts: &[RowRange], end: &Option<Blob>) -> bool
    ensures { result ≡ is_chain start.now parts.now end.now }
{
    let mut at = start;
    for part in parts {
        if !ends_at(at, part.start.bytes()) {
            return false;
        }
        at = &part.end;
    }
    is_same_end(at, end)
}

fn ends_at(end: &Option<Blob>, bytes: &[u8]) -> bool
    ensures { result ≡ is_same_end end.now (Some bytes.now) }
{
    match end {
        Some(end) => end.bytes() == bytes,
        None => false,
    }
}

fn is_same_end(one: &Option<Blob>, other: &Option<Blob>) -> bool
    ensures { result ≡ is_same_end one.now other.now }
{
    match other {
        Some(other) => ends_at(one, other.bytes()),
        None => one.is_none(),
    }
}
