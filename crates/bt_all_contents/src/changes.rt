//! Plans of rows that are there, prepared and then carried out.
ghost use Rattle.std.specs.Prelude.{◌≡◌, ◌<◌, false, length, OnOk, OnErr};
ghost use Rattle.std.specs.BTreeMap.{is_at};
ghost use Rattle.bt_row.specs.declared.cell_key.CellKey.{CellKey};
ghost use Rattle.bt_all_contents.specs.AllContents.{AreAllLawful, ArePlans, AreTables, CanSettleAll, RowAt, all_placed, all_settled, at_cmp, cells_there, is_wanted_there};
ghost use Rattle.bt_row.specs.Plans.{AreLawful, CanSettle, IsPlan, placed, settled, value_at};

use bt_base::OutOfMemory;
use bt_contents::Contents;
use bt_row::{Ending, Plan};
use bt_types::RowKey;
use std::alloc::Global;
use std::collections::BTreeMap;

/// Plans of rows, by the incarnations of their tables and by their keys.
pub(crate) type Plans = BTreeMap<(u64, RowKey), Plan>;

/// Makes the cells that the plans want, without bytes yet. Where memory is short, some may be made.
pub(crate) fn make_all(
    tables: &mut BTreeMap<u64, Contents>,
    alloc: Global,
    plans: &Plans,
) -> Result<(), OutOfMemory>
    requires tables { AreTables tables.old.entries }
    requires plans { ArePlans plans.now.entries tables.old.entries }
    ensures tables { AreTables tables.new.entries }
    ensures others { (a : RowAt) (k : CellKey) → is_wanted_there plans.now.entries a k ≡ false → value_at (cells_there tables.new.entries a) k ≡ value_at (cells_there tables.old.entries a) k }
    ensures values { OnOk result ((a : RowAt) (k : CellKey) → value_at (cells_there tables.new.entries a) k ≡ all_placed plans.now.entries tables.old.entries a k) }
{
    for (at, plan) in plans {
        make_there(tables, alloc, at, plan)?;
    }
    Ok(())
}

fn make_there(
    tables: &mut BTreeMap<u64, Contents>,
    alloc: Global,
    at: &(u64, RowKey),
    plan: &Plan,
) -> Result<(), OutOfMemory>
    requires tables { AreTables tables.old.entries }
    requires there { 0 < length (cells_there tables.old.entries at.now) }
    requires plan { IsPlan plan.now (cells_there tables.old.entries at.now) }
    ensures tables { AreTables tables.new.entries }
    ensures elsewhere { OnOk result ((a : RowAt) → is_at (at_cmp a) at.now ≡ false → cells_there tables.new.entries a ≡ cells_there tables.old.entries a) }
    ensures values { OnOk result ((k : CellKey) → value_at (cells_there tables.new.entries at.now) k ≡ placed plan.now.outcomes.entries (value_at (cells_there tables.old.entries at.now)) k) }
    ensures err { OnErr result (tables.new.entries ≡ tables.old.entries) }
{
    let Some(rows) = tables.get_mut(&at.0) else {
        unreachable!();
    };
    rows.make_places(alloc, &at.1, plan)?;
    Ok(())
}

/// Ends the plans, which takes no memory.
pub(crate) fn settle_all(tables: &mut BTreeMap<u64, Contents>, plans: Plans, ending: Ending)
    requires tables { AreTables tables.old.entries }
    requires lawful { AreAllLawful plans.entries }
    requires can { CanSettleAll ending plans.entries tables.old.entries }
    ensures tables { AreTables tables.new.entries }
    ensures values { (a : RowAt) (k : CellKey) → value_at (cells_there tables.new.entries a) k ≡ all_settled ending plans.entries tables.old.entries a k }
{
    for (at, plan) in plans {
        settle_there(tables, &at, plan, ending);
    }
}

fn settle_there(
    tables: &mut BTreeMap<u64, Contents>,
    at: &(u64, RowKey),
    plan: Plan,
    ending: Ending,
)
    requires tables { AreTables tables.old.entries }
    requires lawful { AreLawful plan.outcomes.entries }
    requires can { CanSettle ending plan (cells_there tables.old.entries at.now) }
    ensures tables { AreTables tables.new.entries }
    ensures elsewhere { (a : RowAt) → is_at (at_cmp a) at.now ≡ false → cells_there tables.new.entries a ≡ cells_there tables.old.entries a }
    ensures values { (k : CellKey) → value_at (cells_there tables.new.entries at.now) k ≡ settled ending plan (cells_there tables.old.entries at.now) k }
{
    let Some(rows) = tables.get_mut(&at.0) else {
        return;
    };
    rows.settle(&at.1, plan, ending);
    if rows.is_empty() {
        tables.remove(&at.0);
    }
}
