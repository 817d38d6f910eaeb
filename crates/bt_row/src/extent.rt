//! Parts of a row, by the keys of their cells.
ghost use Rattle.std.specs.Prelude.{◌≡◌, IfOk, filter, option_map};
ghost use Rattle.std.specs.List.{find, list_any};
ghost use Rattle.std.specs.Map.{keys_of};
ghost use Rattle.bt_types.specs.declared.mutation.Mutation.TheVariants as mutations;
ghost use Rattle.bt_row.specs.Extents.{IsLatestBefore, Covers, first_of, is_covered, reaches};

use crate::cell_key::CellKey;
use bt_base::{OutOfMemory, Plain};
use bt_types::{FamilyName, Micros, Qualifier};
use std::alloc::Global;
use std::collections::BTreeMap;

const LATEST: i64 = 9223372036854775000;

/// A part of a row: the cells of a family, or those of a column between two times. It covers the keys
/// from the first one on that are of its family, or of its column and not before the start, in
/// microseconds.
#[derive(Drop)]
pub enum Extent {
    Family { from: CellKey },
    Column { from: CellKey, start: u64 },
}

impl Extent {
    /// The cells of a family.
    pub fn of_family(alloc: Global, family: FamilyName) -> Result<Extent, OutOfMemory>
        ensures { IfOk result (λ d. Covers d (mutations.DeleteFamily family)) }
    {
        let Some(qualifier) = Qualifier::new(alloc, &[])? else {
            unreachable!();
        };
        let at = latest_before(0);
        let from = CellKey {
            family,
            qualifier,
            at,
        };
        Ok(Extent::Family { from })
    }

    /// The cells of a column from `start` up to and without `end`; an `end` of 0 is without bound.
    pub(crate) fn of_column(
        family: FamilyName,
        qualifier: Qualifier,
        start: u64,
        end: u64,
    ) -> Extent
        ensures { Covers result (mutations.DeleteColumn family qualifier start end) }
    {
        let at = latest_before(end);
        let from = CellKey {
            family,
            qualifier,
            at,
        };
        Extent::Column { from, start }
    }

    /// The keys that it covers, which are searched for.
    pub(crate) fn keys_in<V>(
        &self,
        alloc: Global,
        cells: &BTreeMap<CellKey, V>,
    ) -> Result<Vec<CellKey>, OutOfMemory>
        ensures { IfOk result (λ keys. keys.items ≡ filter (is_covered self.now) (keys_of cells.now.entries)) }
    {
        let mut keys = Vec::new(alloc);
        for (key, _) in cells.range(self.first()..) {
            if !self.reaches(key) {
                break;
            }
            keys.push(key.copy(alloc)?)?;
        }
        Ok(keys)
    }

    /// Whether it covers a key, which is searched for.
    pub fn has_any<V>(&self, cells: &BTreeMap<CellKey, V>) -> bool
        ensures { result ≡ list_any (is_covered self.now) (keys_of cells.now.entries) }
    {
        self.first_in(cells).is_some()
    }

    /// The first of the entries that it covers, which is searched for.
    pub(crate) fn first_in<'a, V>(
        &self,
        cells: &'a BTreeMap<CellKey, V>,
    ) -> Option<(&'a CellKey, &'a V)>
        ensures { option_map (λ e. (e.0.now, e.1.now)) result ≡ find (λ e. is_covered self.now e.0) cells.now.entries }
    {
        match cells.range(self.first()..).next() {
            Some((key, value)) if self.reaches(key) => Some((key, value)),
            _ => None,
        }
    }

    fn first(&self) -> &CellKey
        ensures { result.now ≡ first_of self.now }
    {
        match self {
            Extent::Family { from } => from,
            Extent::Column { from, .. } => from,
        }
    }

    fn reaches(&self, key: &CellKey) -> bool
        ensures { result ≡ reaches self.now key.now }
    {
        match self {
            Extent::Family { from } => key.family.bytes() == from.family.bytes(),
            Extent::Column { from, start } => {
                key.family.bytes() == from.family.bytes()
                    && key.qualifier.bytes() == from.qualifier.bytes()
                    && *start <= key.at.number() as u64
            }
        }
    }
}

// The latest timestamp before the end, or of all where the end is 0.
fn latest_before(end: u64) -> Micros
    ensures { IsLatestBefore end result }
{
    let number = if end == 0 || end > LATEST as u64 {
        LATEST
    } else {
        (end - 1) as i64 / 1000 * 1000
    };
    match Micros::new(number) {
        Some(at) => at,
        None => unreachable!(),
    }
}
