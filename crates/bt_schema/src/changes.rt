//! What an entry changes in the tables without their rows.
ghost use Rattle.std.specs.Prelude.{◌≡◌, None, IfOk, OnOk, OnErr};
ghost use Rattle.bt_schema.specs.Schema.{IsNew, change_refusal, new_table, schema_after};

use crate::Schema;
use bt_base::{OutOfMemory, Plain};
use bt_entry::{Entry, Numbered, TableInfo};
use bt_rules::Families;
use bt_types::TableName;
use std::alloc::Global;

impl Schema {
    /// Makes the change of an entry that may come next. A new table takes the entry's sequence as
    /// its incarnation.
    pub fn apply_change(&mut self, alloc: Global, change: &Numbered) -> Result<(), OutOfMemory>
        requires allowed { change_refusal change.now.entry self.old ≡ None }
        requires new { IsNew change.now.sequence change.now.entry self.old }
        ensures ok { OnOk result (self.new ≡ schema_after change.now.sequence change.now.moment change.now.entry self.old) }
        ensures err { OnErr result (self.new ≡ self.old) }
    {
        match &change.entry {
            Entry::Row { .. } => Ok(()),
            Entry::Create {
                name,
                families,
                retention,
            } => {
                let table = new_table(alloc, change, name, families, *retention)?;
                self.add(alloc, table)
            }
            Entry::Delete { incarnation } => {
                self.remove(*incarnation);
                Ok(())
            }
            Entry::Alter {
                incarnation,
                families,
            } => {
                let families = families.copy(alloc)?;
                self.set_families(*incarnation, families);
                Ok(())
            }
            Entry::Stream {
                incarnation,
                retention,
            } => {
                self.set_retention(*incarnation, change.sequence, change.moment, *retention);
                Ok(())
            }
            Entry::Floor => Ok(()),
        }
    }
}

fn new_table(
    alloc: Global,
    change: &Numbered,
    name: &TableName,
    families: &Families,
    retention: u64,
) -> Result<TableInfo, OutOfMemory>
    ensures { IfOk result (λ table. table ≡ new_table change.now.sequence change.now.moment name.now families.now retention) }
{
    let (since, since_moment) = if retention == 0 {
        (0, 0)
    } else {
        (change.sequence, change.moment)
    };
    Ok(TableInfo {
        name: name.copy(alloc)?,
        incarnation: change.sequence,
        families: families.copy(alloc)?,
        since,
        since_moment,
        retention,
    })
}
