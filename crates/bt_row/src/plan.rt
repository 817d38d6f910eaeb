//! What a list of mutations makes of a row, worked out before anything is changed.
ghost use Rattle.std.specs.Prelude.{◌≡◌, [], false, None, IfOk, OnOk, IsSome, is_some, if◌then◌else◌};
ghost use Rattle.std.specs.List.{list_any};
ghost use Rattle.std.specs.Map.{keys_of};
ghost use Rattle.std.specs.BTreeMap.{is_at};
ghost use Rattle.bt_row.specs.declared.cell_key.CellKey.{CellKey};
ghost use Rattle.bt_row.specs.Sound.{HaveShort, IsShort};
ghost use Rattle.bt_row.specs.Extents.{AreTimed, IsTimed, is_covered};
ghost use Rattle.bt_row.specs.Keys.{AreSorted, key_cmp};
ghost use Rattle.bt_row.specs.Plans.{CanSettle, HasPlaces, IsPlan, IsShortOrNone, is_new_at, is_wanted_at, outcome_or, planned, settled, value_after, value_at, values_after, without};

use crate::cell_key::CellKey;
use crate::extent::Extent;
use bt_base::{Blob, OutOfMemory, Plain};
use bt_types::{Mutation, MutationList};
use std::alloc::Global;
use std::collections::BTreeMap;

/// What becomes of the cell of a key.
#[derive(Drop)]
pub struct Outcome {
    /// Its new value; `None` where there is to be no such cell.
    pub value: Option<Blob>,
    /// Whether the row has no such cell yet.
    pub is_new: bool,
}

/// What a list of mutations makes of the cells of a row.
#[derive(Drop)]
pub struct Plan {
    /// Whether the cells that have no outcome go; else they stay.
    pub clears: bool,
    pub outcomes: BTreeMap<CellKey, Outcome>,
}

/// How a plan ends: by its outcomes, or without the cells that were made for it.
#[derive(Clone, Copy)]
pub enum Ending {
    CarryOut,
    TakeBack,
}

impl Plan {
    /// All cells stay as they are.
    pub fn new(alloc: Global) -> Plan
        ensures bare { result.outcomes.entries ≡ [] }
        ensures keeps { result.clears ≡ false }
    {
        Plan {
            clears: false,
            outcomes: BTreeMap::new(alloc),
        }
    }

    /// Plans a further mutation of a row that has these cells.
    pub(crate) fn add(
        &mut self,
        alloc: Global,
        cells: &BTreeMap<CellKey, Blob>,
        mutation: Mutation,
    ) -> Result<(), OutOfMemory>
        requires short { IsShort mutation }
        requires timed { AreTimed (keys_of cells.now.entries) }
        requires plan { IsPlan self.old cells.now.entries }
        ensures ok { OnOk result ((k : CellKey) → planned self.new cells.now.entries k ≡ value_after mutation (planned self.old cells.now.entries) k) }
        ensures plan { OnOk result (IsPlan self.new cells.now.entries) }
    {
        match mutation {
            Mutation::SetCell {
                family,
                qualifier,
                at,
                value,
            } => self.put(cells, CellKey::new(family, qualifier, at), Some(value)),
            Mutation::DeleteColumn {
                family,
                qualifier,
                start,
                end,
            } => {
                let extent = Extent::of_column(family, qualifier, start, end);
                self.delete(alloc, cells, &extent)
            }
            Mutation::DeleteFamily { family } => {
                let extent = Extent::of_family(alloc, family)?;
                self.delete(alloc, cells, &extent)
            }
            Mutation::DeleteRow => {
                self.clears = true;
                self.outcomes.clear();
                Ok(())
            }
        }
    }

    /// Plans these mutations in order.
    pub fn add_all(
        &mut self,
        alloc: Global,
        cells: &BTreeMap<CellKey, Blob>,
        mutations: MutationList,
    ) -> Result<(), OutOfMemory>
        requires short { HaveShort mutations }
        requires timed { AreTimed (keys_of cells.now.entries) }
        requires plan { IsPlan self.old cells.now.entries }
        ensures ok { OnOk result ((k : CellKey) → planned self.new cells.now.entries k ≡ values_after mutations (planned self.old cells.now.entries) k) }
        ensures plan { OnOk result (IsPlan self.new cells.now.entries) }
    {
        for mutation in mutations.into_vec() {
            self.add(alloc, cells, mutation)?;
        }
        Ok(())
    }

    /// The keys of the cells that have to be made.
    pub(crate) fn new_keys(&self, alloc: Global) -> Result<Vec<CellKey>, OutOfMemory>
        ensures { IfOk result (λ keys. (k : CellKey) → list_any (is_at (key_cmp k)) keys.items ≡ is_wanted_at self.now.outcomes.entries k) }
    {
        let mut keys = Vec::new(alloc);
        for (key, outcome) in &self.outcomes {
            if outcome.is_new && outcome.value.is_some() {
                keys.push(key.copy(alloc)?)?;
            }
        }
        Ok(keys)
    }

    /// Ends the plan, which takes no memory.
    pub(crate) fn settle(self, cells: &mut BTreeMap<CellKey, Blob>, ending: Ending)
        requires can { CanSettle ending self cells.old.entries }
        requires sorted { AreSorted cells.old.entries }
        ensures sorted { AreSorted cells.new.entries }
        ensures values { (k : CellKey) → value_at cells.new.entries k ≡ settled ending self cells.old.entries k }
    {
        match ending {
            Ending::CarryOut => self.carry_out(cells),
            Ending::TakeBack => self.take_back(cells),
        }
    }

    fn carry_out(self, cells: &mut BTreeMap<CellKey, Blob>)
        requires places { HasPlaces self.outcomes.entries cells.old.entries }
        requires sorted { AreSorted cells.old.entries }
        ensures sorted { AreSorted cells.new.entries }
        ensures values { (k : CellKey) → value_at cells.new.entries k ≡ planned self cells.old.entries k }
    {
        let Plan { clears, outcomes } = self;
        if clears {
            keep_only(cells, &outcomes);
        }
        settle_all(cells, outcomes);
    }

    /// Takes out the cells that were made for the plan.
    pub(crate) fn take_back(&self, cells: &mut BTreeMap<CellKey, Blob>)
        requires { AreSorted cells.old.entries }
        ensures sorted { AreSorted cells.new.entries }
        ensures values { (k : CellKey) → value_at cells.new.entries k ≡ (if is_new_at self.now.outcomes.entries k then None else value_at cells.old.entries k) }
    {
        for (key, outcome) in &self.outcomes {
            if outcome.is_new {
                settle(cells, key, None);
            }
        }
    }

    fn delete(
        &mut self,
        alloc: Global,
        cells: &BTreeMap<CellKey, Blob>,
        extent: &Extent,
    ) -> Result<(), OutOfMemory>
        requires timed { AreTimed (keys_of cells.now.entries) }
        requires plan { IsPlan self.old cells.now.entries }
        ensures ok { OnOk result ((k : CellKey) → planned self.new cells.now.entries k ≡ (if is_covered extent.now k then None else planned self.old cells.now.entries k)) }
        ensures plan { OnOk result (IsPlan self.new cells.now.entries) }
    {
        let planned = extent.keys_in(alloc, &self.outcomes)?;
        let present = extent.keys_in(alloc, cells)?;
        self.drop_all(cells, planned)?;
        self.drop_all(cells, present)
    }

    fn drop_all(
        &mut self,
        cells: &BTreeMap<CellKey, Blob>,
        keys: Vec<CellKey>,
    ) -> Result<(), OutOfMemory>
        requires timed { AreTimed keys.items }
        requires plan { IsPlan self.old cells.now.entries }
        ensures ok { OnOk result ((k : CellKey) → planned self.new cells.now.entries k ≡ without keys.items (planned self.old cells.now.entries) k) }
        ensures plan { OnOk result (IsPlan self.new cells.now.entries) }
    {
        for key in keys {
            self.put(cells, key, None)?;
        }
        Ok(())
    }

    fn put(
        &mut self,
        cells: &BTreeMap<CellKey, Blob>,
        key: CellKey,
        value: Option<Blob>,
    ) -> Result<(), OutOfMemory>
        requires timed { IsTimed key }
        requires short { IsShortOrNone value }
        requires plan { IsPlan self.old cells.now.entries }
        ensures ok { OnOk result ((k : CellKey) → planned self.new cells.now.entries k ≡ (if is_at (key_cmp k) key then value else planned self.old cells.now.entries k)) }
        ensures plan { OnOk result (IsPlan self.new cells.now.entries) }
    {
        let is_new = !cells.contains_key(&key);
        self.outcomes.insert(key, Outcome { value, is_new })?;
        Ok(())
    }
}

// Keeps the cells that have an outcome.
fn keep_only(cells: &mut BTreeMap<CellKey, Blob>, outcomes: &BTreeMap<CellKey, Outcome>)
    ensures sorted { AreSorted cells.new.entries }
    ensures values { (k : CellKey) → value_at cells.new.entries k ≡ (if is_some (value_at outcomes.now.entries k) then value_at cells.old.entries k else None) }
{
    cells.retain(|key, _| outcomes.contains_key(key));
}

fn settle_all(cells: &mut BTreeMap<CellKey, Blob>, outcomes: BTreeMap<CellKey, Outcome>)
    requires places { HasPlaces outcomes.entries cells.old.entries }
    requires sorted { AreSorted cells.old.entries }
    ensures sorted { AreSorted cells.new.entries }
    ensures values { (k : CellKey) → value_at cells.new.entries k ≡ outcome_or (value_at outcomes.entries k) (value_at cells.old.entries k) }
{
    for (key, outcome) in outcomes {
        settle(cells, &key, outcome.value);
    }
}

fn settle(cells: &mut BTreeMap<CellKey, Blob>, key: &CellKey, value: Option<Blob>)
    requires { IsSome value → IsSome (value_at cells.old.entries key.now) }
    ensures sorted { AreSorted cells.new.entries }
    ensures value { (k : CellKey) → value_at cells.new.entries k ≡ (if is_at (key_cmp k) key.now then value else value_at cells.old.entries k) }
{
    match value {
        Some(value) => match cells.get_mut(key) {
            Some(place) => *place = value,
            None => unreachable!(),
        },
        None => {
            cells.remove(key);
        }
    }
}
