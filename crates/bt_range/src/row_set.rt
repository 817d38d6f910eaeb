//! Sets of rows.
ghost use Rattle.std.specs.Prelude.{◌≡◌, ℕ, List, IsTrue, IfOk};
ghost use Rattle.bt_types.specs.Grammar.{is_row_key};
ghost use Rattle.bt_range.specs.RowSets.{AreApart, is_in_any, is_selected, side};

use crate::AskedRange;
use crate::listing::listed;
use crate::merging::merged;
use crate::order::is_below;
use crate::sorting::{is_before, sorted};
use bt_base::{Blob, OutOfMemory};
use bt_types::{RowKey, RowRange};
use std::alloc::Global;
use std::cmp::Ordering;
use std::marker::Model;

/// The rows that a read goes through (`google.bigtable.v2.RowSet`). A contract sees the ranges.
#[derive(Debug, Drop)]
pub struct RowSet {
    held: Vec<RowRange>,
}

impl Model for RowSet {
    ghost use Rattle.std.specs.Prelude.{List};
    ghost use Rattle.bt_types.specs.declared.row_range.RowRange.{RowRange};
    ghost use Rattle.bt_range.specs.RowSets.{AreApart};

    ghost Value = { List RowRange };

    ghost view = { λ s. s.held.items };

    ghost invariant = { λ s. AreApart s.held.items };
}

impl RowSet {
    /// The rows of these keys and of these ranges, or all rows where neither a key nor a range is
    /// listed. A key or a range may be listed twice, and ranges may overlap. A listed key that no
    /// row can have selects nothing.
    pub fn new(alloc: Global, keys: &[Blob], ranges: &[AskedRange]) -> Result<RowSet, OutOfMemory>
        ensures { IfOk result (λ set. (k : List ℕ) → IsTrue (is_row_key k) → is_in_any set k ≡ is_selected keys.now ranges.now k) }
    {
        let all = listed(alloc, keys, ranges)?;
        let all = sorted(all)?;
        let held = merged(alloc, all)?;
        Ok(RowSet { held })
    }

    /// The ranges of the set, in order. None is empty, none overlaps another, and there is a gap
    /// between each two.
    pub fn ranges(&self) -> &[RowRange]
        ensures value { result.now ≡ self.now }
        ensures apart { AreApart self.now }
    {
        self.held.as_slice()
    }

    /// Whether the row is in the set.
    pub fn selects(&self, key: &RowKey) -> bool
        ensures { result ≡ is_in_any self.now key.now }
    {
        is_among(self.held.as_slice(), key.bytes())
    }
}

// Whether one of the ranges, which stand apart, has the key.
fn is_among(ranges: &[RowRange], key: &[u8]) -> bool
    requires { AreApart ranges.now }
    ensures { result ≡ is_in_any ranges.now key.now }
{
    ranges.binary_search_by(|range| side(range, key)).is_ok()
}

// Whether the range ends before the key, has it, or starts past it.
fn side(range: &RowRange, key: &[u8]) -> Ordering
    ensures { result ≡ side range.now key.now }
{
    if is_below(key, range.start.bytes()) {
        return Ordering::Greater;
    }
    if is_before(range, key) {
        return Ordering::Equal;
    }
    Ordering::Less
}
