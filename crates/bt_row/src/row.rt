//! The cells of a row.
ghost use Rattle.std.specs.Prelude.{◌≡◌, ◌↔◌, [], None, Some, true, false, IfOk, OnOk, OnErr, IsTrue, bytes_eq, if◌then◌else◌};
ghost use Rattle.std.specs.List.{find, list_any};
ghost use Rattle.std.specs.Map.{keys_of};
ghost use Rattle.std.specs.BTreeMap.{is_at};
ghost use Rattle.bt_types.specs.Mutations.{applied, is_in_column};
ghost use Rattle.bt_row.specs.declared.cell_key.CellKey.{CellKey};
ghost use Rattle.bt_row.specs.Sound.{HaveShort, IsShort, IsSound};
ghost use Rattle.bt_row.specs.Extents.{is_covered};
ghost use Rattle.bt_row.specs.Keys.{AreSorted, cells_of, key_cmp};
ghost use Rattle.bt_row.specs.Plans.{AreLawful, CanSettle, IsPlan, placed, settled, value_after, value_at, values_after};

use crate::cell_key::{CellKey, copy_of};
use crate::extent::Extent;
use crate::plan::{Ending, Plan};
use bt_base::{Blob, OutOfMemory};
use bt_types::{Cell, FamilyName, Mutation, MutationList, Qualifier};
use std::alloc::Global;
use std::collections::BTreeMap;

/// The values of a row's cells, by their keys.
#[derive(Drop)]
pub struct Row {
    pub cells: BTreeMap<CellKey, Blob>,
}

impl Row {
    /// A row without cells, which takes no memory yet.
    pub fn new(alloc: Global) -> Row
        ensures { result.cells.entries ≡ [] }
    {
        Row {
            cells: BTreeMap::new(alloc),
        }
    }

    /// Whether the row has no cells.
    pub fn is_empty(&self) -> bool
        ensures { IsTrue result ↔ (self.now.cells.entries ≡ []) }
    {
        self.cells.is_empty()
    }

    /// Whether a cell is of the family, for which its cells are gone through.
    pub fn is_of(&self, family: &FamilyName) -> bool
        ensures { result ≡ list_any (λ k. bytes_eq k.family family.now) (keys_of self.now.cells.entries) }
    {
        self.cells
            .keys()
            .any(|key| key.family.bytes() == family.bytes())
    }

    /// The latest cell of a column, which is searched for.
    pub fn latest(
        &self,
        alloc: Global,
        family: FamilyName,
        qualifier: Qualifier,
    ) -> Result<Option<Cell>, OutOfMemory>
        requires { IsSound self.now.cells.entries }
        ensures { IfOk result (λ cell. cell ≡ find (is_in_column family qualifier 0 0) (cells_of self.now.cells.entries)) }
    {
        let column = Extent::of_column(family, qualifier, 0, 0);
        let Some((key, value)) = column.first_in(&self.cells) else {
            return Ok(None);
        };
        let cell = copy_of(alloc, key, value)?;
        Ok(Some(cell))
    }

    /// Makes the changes of a list in order, of which some may be made where memory is short. It takes a
    /// search a cell that is set or removed.
    pub fn apply(&mut self, alloc: Global, mutations: MutationList) -> Result<(), OutOfMemory>
        requires sound { IsSound self.old.cells.entries }
        requires short { HaveShort mutations }
        ensures ok { OnOk result (cells_of self.new.cells.entries ≡ applied mutations (cells_of self.old.cells.entries)) }
        ensures values { OnOk result ((k : CellKey) → value_at self.new.cells.entries k ≡ values_after mutations (value_at self.old.cells.entries) k) }
        ensures sound { IsSound self.new.cells.entries }
    {
        for mutation in mutations.into_vec() {
            self.apply_one(alloc, mutation)?;
        }
        Ok(())
    }

    fn apply_one(&mut self, alloc: Global, mutation: Mutation) -> Result<(), OutOfMemory>
        requires sound { IsSound self.old.cells.entries }
        requires short { IsShort mutation }
        ensures values { OnOk result ((k : CellKey) → value_at self.new.cells.entries k ≡ value_after mutation (value_at self.old.cells.entries) k) }
        ensures sound { IsSound self.new.cells.entries }
    {
        match mutation {
            Mutation::SetCell {
                family,
                qualifier,
                at,
                value,
            } => {
                let key = CellKey::new(family, qualifier, at);
                self.cells.insert(key, value)?;
                Ok(())
            }
            Mutation::DeleteColumn {
                family,
                qualifier,
                start,
                end,
            } => {
                let extent = Extent::of_column(family, qualifier, start, end);
                self.remove(alloc, &extent)
            }
            Mutation::DeleteFamily { family } => {
                let extent = Extent::of_family(alloc, family)?;
                self.remove(alloc, &extent)
            }
            Mutation::DeleteRow => {
                self.cells.clear();
                Ok(())
            }
        }
    }

    fn remove(&mut self, alloc: Global, extent: &Extent) -> Result<(), OutOfMemory>
        requires sound { IsSound self.old.cells.entries }
        ensures values { OnOk result ((k : CellKey) → value_at self.new.cells.entries k ≡ (if is_covered extent.now k then None else value_at self.old.cells.entries k)) }
        ensures sound { IsSound self.new.cells.entries }
    {
        for key in extent.keys_in(alloc, &self.cells)? {
            self.cells.remove(&key);
        }
        Ok(())
    }

    /// Makes the cells that a plan wants, without bytes yet, all or none.
    pub fn make_places(&mut self, alloc: Global, plan: &Plan) -> Result<(), OutOfMemory>
        requires sound { IsSound self.old.cells.entries }
        requires plan { IsPlan plan.now self.old.cells.entries }
        ensures sound { IsSound self.new.cells.entries }
        ensures values { OnOk result ((k : CellKey) → value_at self.new.cells.entries k ≡ placed plan.now.outcomes.entries (value_at self.old.cells.entries) k) }
        ensures err { OnErr result (self.new.cells.entries ≡ self.old.cells.entries) }
    {
        let keys = plan.new_keys(alloc)?;
        if put_places(&mut self.cells, alloc, keys).is_err() {
            plan.take_back(&mut self.cells);
            return Err(OutOfMemory);
        }
        Ok(())
    }

    /// Ends a plan, which takes no memory.
    pub fn settle(&mut self, plan: Plan, ending: Ending)
        requires sound { IsSound self.old.cells.entries }
        requires lawful { AreLawful plan.outcomes.entries }
        requires can { CanSettle ending plan self.old.cells.entries }
        ensures sound { IsSound self.new.cells.entries }
        ensures values { (k : CellKey) → value_at self.new.cells.entries k ≡ settled ending plan self.old.cells.entries k }
    {
        plan.settle(&mut self.cells, ending);
    }
}

fn put_places(
    cells: &mut BTreeMap<CellKey, Blob>,
    alloc: Global,
    keys: Vec<CellKey>,
) -> Result<(), OutOfMemory>
    requires { AreSorted cells.old.entries }
    ensures sorted { AreSorted cells.new.entries }
    ensures places { OnOk result ((k : CellKey) → list_any (is_at (key_cmp k)) keys.items ≡ true → value_at cells.new.entries k ≡ Some []) }
    ensures others { (k : CellKey) → list_any (is_at (key_cmp k)) keys.items ≡ false → value_at cells.new.entries k ≡ value_at cells.old.entries k }
{
    for key in keys {
        cells.insert(key, Blob::from_vec(Vec::new(alloc)))?;
    }
    Ok(())
}
