//! The keys that begin with some bytes.
ghost use Rattle.std.specs.Prelude.{◌≡◌, IfOk};
ghost use Rattle.bt_row_replies.specs.Prefixes.{prefix_range, successor};

use bt_base::{Blob, OutOfMemory};
use bt_types::RowRange;
use std::alloc::Global;

/// The range of the keys that begin with these bytes: all keys, where they are none.
pub(crate) fn prefix_range(alloc: Global, front: Blob) -> Result<RowRange, OutOfMemory>
    ensures { IfOk result (λ range. range ≡ prefix_range front) }
{
    let end = successor(alloc, front.bytes())?;
    Ok(RowRange { start: front, end })
}

// The least bytes past all that begin with these: the last byte that is not the greatest is one
// greater, and those behind it are gone.
fn successor(alloc: Global, front: &[u8]) -> Result<Option<Blob>, OutOfMemory>
    ensures { IfOk result (λ end. end ≡ successor front.now) }
{
    let mut end = Vec::from_slice(alloc, front)?;
    while let Some(last) = end.pop() {
        if last < u8::MAX {
            end.push(last + 1)?;
            return Ok(Some(Blob::from_vec(end)));
        }
    }
    Ok(None)
}
