//! A cell, and the order of cells.
ghost use Rattle.std.specs.Prelude.{◌≡◌};
ghost use Rattle.bt_types.specs.Cells.{cell_cmp, plain};

use crate::{FamilyName, Label, Micros, Qualifier};
use bt_base::{Blob, OutOfMemory, Plain};
use std::alloc::Global;
use std::cmp::Ordering;

/// A cell of a row: a value of a column at a timestamp. Only a filter puts a label on it
/// (`google.bigtable.v2.Cell`). Values have at most 4,194,304 bytes.
#[derive(Debug, Drop)]
pub struct Cell {
    pub family: FamilyName,
    pub qualifier: Qualifier,
    pub at: Micros,
    pub value: Blob,
    pub label: Option<Label>,
}

impl Cell {
    /// A cell without a label.
    pub fn plain(family: FamilyName, qualifier: Qualifier, at: Micros, value: Blob) -> Cell
        ensures { result ≡ plain family qualifier at value }
    {
        Cell {
            family,
            qualifier,
            at,
            value,
            label: None,
        }
    }
}

impl Plain for Cell {
    fn copy(&self, alloc: Global) -> Result<Cell, OutOfMemory> {
        let label = match &self.label {
            Some(label) => Some(label.copy(alloc)?),
            None => None,
        };
        Ok(Cell {
            family: self.family.copy(alloc)?,
            qualifier: self.qualifier.copy(alloc)?,
            at: self.at,
            value: self.value.copy(alloc)?,
            label,
        })
    }
}

/// Family ascending, qualifier ascending, timestamp descending, as rows are read
/// (`google.bigtable.v2.Family.columns`, `Column.cells`; the order of families is this service's own).
pub fn cell_order(a: &Cell, b: &Cell) -> Ordering
    ensures { result ≡ cell_cmp a.now b.now }
{
    let families = a.family.bytes().cmp(b.family.bytes());
    let qualifiers = a.qualifier.bytes().cmp(b.qualifier.bytes());
    let times = b.at.number().cmp(&a.at.number());
    families.then(qualifiers.then(times))
}
