//! Columns.
ghost use Rattle.std.specs.Prelude.{◌≡◌, ◌≤◌, length, IfOk, IsTrue};
ghost use Rattle.std.specs.List.{AllByRecursion};
ghost use Rattle.std.specs.List.Sorted.{IsStrictlySortedBy};
ghost use Rattle.bt_rmw.specs.Columns.{column_order, has_column};
ghost use Rattle.bt_rmw.specs.Rules.{column_of};

use crate::rule::ModifyRule;
use bt_base::{ListOf, OutOfMemory, Plain};
use bt_types::{FamilyName, Qualifier};
use std::alloc::Global;
use std::cmp::Ordering;
use std::collections::BTreeSet;

/// A column of a row: a family, and a qualifier within it. Columns are ordered as rows are read: family
/// ascending, qualifier ascending.
#[derive(Debug, Drop)]
pub struct Column {
    pub family: FamilyName,
    pub qualifier: Qualifier,
}

/// Columns.
pub type ColumnList = ListOf<Column>;

impl Plain for Column {
    fn copy(&self, alloc: Global) -> Result<Column, OutOfMemory> {
        Ok(Column {
            family: self.family.copy(alloc)?,
            qualifier: self.qualifier.copy(alloc)?,
        })
    }
}

impl PartialEq for Column {
    ghost use Rattle.std.specs.Cmp.{partial_equiv_from_equiv};
    ghost use Rattle.std.specs.Ordering.{eq_by_cmp};
    ghost use Rattle.std.proofs.lemmas.Cmp.{eq_by_cmp_equiv};
    ghost use Rattle.bt_rmw.specs.Columns.{column_order, column_total};

    ghost eq = { eq_by_cmp column_order };

    ghost laws = { partial_equiv_from_equiv (eq_by_cmp_equiv column_total) };

    fn eq(&self, other: &Column) -> bool {
        self.cmp(other).is_eq()
    }
}

impl Eq for Column {
    ghost use Rattle.std.proofs.lemmas.Cmp.{eq_by_cmp_equiv};
    ghost use Rattle.bt_rmw.specs.Columns.{column_total};

    ghost laws = { eq_by_cmp_equiv column_total };
}

impl PartialOrd for Column {
    ghost use Rattle.std.specs.Prelude.{refl};
    ghost use Rattle.std.specs.Ordering.{as_partial_cmp};
    ghost use Rattle.std.specs.Cmp.{po};
    ghost use Rattle.bt_rmw.specs.Columns.{column_order, column_total};

    ghost partial_cmp = { as_partial_cmp column_order };

    ghost laws = { po column_total (λ x y. refl) };

    fn partial_cmp(&self, other: &Column) -> Option<Ordering> {
        Some(self.cmp(other))
    }
}

impl Ord for Column {
    ghost use Rattle.std.specs.Prelude.{refl};
    ghost use Rattle.bt_rmw.specs.Columns.{column_order, column_total};

    ghost cmp = { column_order };

    ghost total = { column_total };

    ghost matches_partial_cmp = { λ x y. refl };

    ghost matches_eq = { λ x y. refl };

    fn cmp(&self, other: &Column) -> Ordering {
        let families = self.family.bytes().cmp(other.family.bytes());
        let qualifiers = self.qualifier.bytes().cmp(other.qualifier.bytes());
        families.then(qualifiers)
    }
}

/// The columns that rules name, each once, in the order of columns.
pub fn columns_of(alloc: Global, rules: &[ModifyRule]) -> Result<ColumnList, OutOfMemory>
    ensures all { IfOk result (λ columns. AllByRecursion (λ rule. IsTrue (has_column columns (column_of rule))) rules.now) }
    ensures ascending { IfOk result (λ columns. IsStrictlySortedBy column_order columns) }
    ensures few { IfOk result (λ columns. length columns ≤ length rules.now) }
{
    let mut columns = BTreeSet::new(alloc);
    for rule in rules {
        columns.insert(Column {
            family: rule.family.copy(alloc)?,
            qualifier: rule.qualifier.copy(alloc)?,
        })?;
    }
    list_of(alloc, columns)
}

fn list_of(alloc: Global, columns: BTreeSet<Column>) -> Result<ColumnList, OutOfMemory>
    ensures { IfOk result (λ list. list ≡ columns.keys) }
{
    let mut list = ColumnList::new(alloc);
    for column in columns {
        list.push(column)?;
    }
    Ok(list)
}
