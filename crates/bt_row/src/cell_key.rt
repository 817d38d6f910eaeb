//! The key of a cell within its row.
ghost use Rattle.std.specs.Prelude.{◌≡◌, IfOk};
ghost use Rattle.bt_row.specs.Extents.{IsTimed};
ghost use Rattle.bt_row.specs.Keys.{cell_at};

use bt_base::{Blob, OutOfMemory, Plain};
use bt_types::{Cell, FamilyName, Micros, Qualifier};
use std::alloc::Global;
use std::cmp::Ordering;

/// The key of a cell within its row. Keys are ordered as rows are read: family ascending, qualifier
/// ascending, timestamp descending.
#[derive(Debug, Drop)]
pub struct CellKey {
    pub family: FamilyName,
    pub qualifier: Qualifier,
    pub at: Micros,
}

impl CellKey {
    pub(crate) fn new(family: FamilyName, qualifier: Qualifier, at: Micros) -> CellKey
        ensures value { result ≡ record { family = family; qualifier = qualifier; at = at } }
        ensures timed { IsTimed result }
    {
        let is_timed = at.number() >= 0;
        prove!(is_timed);
        CellKey {
            family,
            qualifier,
            at,
        }
    }
}

impl Plain for CellKey {
    fn copy(&self, alloc: Global) -> Result<CellKey, OutOfMemory> {
        Ok(CellKey {
            family: self.family.copy(alloc)?,
            qualifier: self.qualifier.copy(alloc)?,
            at: self.at,
        })
    }
}

impl PartialEq for CellKey {
    ghost use Rattle.std.specs.Cmp.{partial_equiv_from_equiv};
    ghost use Rattle.std.specs.Ordering.{eq_by_cmp};
    ghost use Rattle.std.proofs.lemmas.Cmp.{eq_by_cmp_equiv};
    ghost use Rattle.bt_row.specs.Keys.{key_cmp, key_total};

    ghost eq = { eq_by_cmp key_cmp };

    ghost laws = { partial_equiv_from_equiv (eq_by_cmp_equiv key_total) };

    fn eq(&self, other: &CellKey) -> bool {
        self.cmp(other).is_eq()
    }
}

impl Eq for CellKey {
    ghost use Rattle.std.proofs.lemmas.Cmp.{eq_by_cmp_equiv};
    ghost use Rattle.bt_row.specs.Keys.{key_total};

    ghost laws = { eq_by_cmp_equiv key_total };
}

impl PartialOrd for CellKey {
    ghost use Rattle.std.specs.Prelude.{refl};
    ghost use Rattle.std.specs.Ordering.{as_partial_cmp};
    ghost use Rattle.std.specs.Cmp.{po};
    ghost use Rattle.bt_row.specs.Keys.{key_cmp, key_total};

    ghost partial_cmp = { as_partial_cmp key_cmp };

    ghost laws = { po key_total (λ x y. refl) };

    fn partial_cmp(&self, other: &CellKey) -> Option<Ordering> {
        Some(self.cmp(other))
    }
}

impl Ord for CellKey {
    ghost use Rattle.std.specs.Prelude.{refl};
    ghost use Rattle.bt_row.specs.Keys.{key_cmp, key_total};

    ghost cmp = { key_cmp };

    ghost total = { key_total };

    ghost matches_partial_cmp = { λ x y. refl };

    ghost matches_eq = { λ x y. refl };

    fn cmp(&self, other: &CellKey) -> Ordering {
        let families = self.family.bytes().cmp(other.family.bytes());
        let qualifiers = self.qualifier.bytes().cmp(other.qualifier.bytes());
        let times = other.at.number().cmp(&self.at.number());
        families.then(qualifiers.then(times))
    }
}

/// A copy of the cell that this value at this key is.
pub fn copy_of(alloc: Global, key: &CellKey, value: &Blob) -> Result<Cell, OutOfMemory>
    ensures { IfOk result (λ cell. cell ≡ cell_at key.now value.now) }
{
    let key = key.copy(alloc)?;
    let value = value.copy(alloc)?;
    Ok(Cell::plain(key.family, key.qualifier, key.at, value))
}
