//! The key of a row.
ghost use Rattle.std.specs.Prelude.{◌≡◌, IsTrue, IfOk, nat_eq, refl};
ghost use Rattle.std.specs.Ordering.{nat_cmp, as_partial_cmp};
ghost use Rattle.std.specs.Cmp.Lexicographic.{pointwise, slice_cmp};
ghost use Rattle.std.specs.Cmp.{partial_order_from_own_ties};
ghost use Rattle.std.specs.Cmp.Rules.{comparing};
ghost use Rattle.std.proofs.Common.{rules};
ghost use Rattle.bt_types.specs.Grammar.{is_row_key, lawful};

use bt_base::{Blob, OutOfMemory, Plain};
use std::alloc::Global;
use std::cmp::Ordering;
use std::marker::Model;

const MOST_BYTES: usize = 4096;

/// The key of a row: 1 to 4,096 bytes (`google.bigtable.v2.Row.key`). A contract sees its
/// bytes, and keys are ordered by them.
#[derive(Debug, Drop)]
pub struct RowKey {
    held: Vec<u8>,
}

impl Model for RowKey {
    ghost use Rattle.std.specs.Prelude.{List, ℕ, IsTrue};
    ghost use Rattle.bt_types.specs.Grammar.{is_row_key};

    ghost Value = { List ℕ };

    ghost view = { λ k. k.held.items };

    ghost invariant = { λ k. IsTrue (is_row_key k.held.items) };
}

impl RowKey {
    /// The key that the bytes are, or `None` where they are none or too many.
    pub fn new(alloc: Global, bytes: &[u8]) -> Result<Option<RowKey>, OutOfMemory>
        ensures { IfOk result (λ key. key ≡ lawful is_row_key bytes.now) }
    {
        if bytes.is_empty() || bytes.len() > MOST_BYTES {
            return Ok(None);
        }
        let held = Vec::from_slice(alloc, bytes)?;
        Ok(Some(RowKey { held }))
    }

    /// The same without a copy.
    pub fn from_blob(bytes: Blob) -> Option<RowKey>
        ensures { result ≡ lawful is_row_key bytes }
    {
        let held = bytes.into_vec();
        if held.is_empty() || held.len() > MOST_BYTES {
            return None;
        }
        Some(RowKey { held })
    }

    pub fn bytes(&self) -> &[u8]
        ensures value { result.now ≡ self.now }
        ensures lawful { IsTrue (is_row_key self.now) }
    {
        &self.held
    }
}

impl Plain for RowKey {
    fn copy(&self, alloc: Global) -> Result<RowKey, OutOfMemory> {
        let held = Vec::from_slice(alloc, &self.held)?;
        Ok(RowKey { held })
    }
}

impl PartialEq for RowKey {
    ghost eq = { pointwise nat_eq };

    ghost laws = { Prim.search (comparing, rules) };

    fn eq(&self, other: &RowKey) -> bool {
        self.held == other.held
    }
}

impl Eq for RowKey {
    ghost laws = { Prim.search (comparing, rules) };
}

impl PartialOrd for RowKey {
    ghost partial_cmp = { as_partial_cmp (slice_cmp nat_cmp) };

    ghost laws = { partial_order_from_own_ties (Prim.search (comparing, rules)) (Prim.search (comparing, rules)) };

    fn partial_cmp(&self, other: &RowKey) -> Option<Ordering> {
        Some(self.cmp(other))
    }
}

impl Ord for RowKey {
    ghost cmp = { slice_cmp nat_cmp };

    ghost total = { Prim.search (comparing, rules) };

    ghost matches_partial_cmp = { λ x y. refl };

    ghost matches_eq = { Prim.search (comparing, rules) };

    fn cmp(&self, other: &RowKey) -> Ordering {
        self.held.cmp(&other.held)
    }
}
