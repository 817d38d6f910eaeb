//! Copies of the tables.
ghost use Rattle.std.specs.Prelude.{◌≡◌, IfOk};

use super::Schema;
use bt_base::{OutOfMemory, Plain};
use bt_entry::TableInfo;
use bt_types::TableName;
use std::alloc::Global;
use std::collections::BTreeMap;

impl Plain for Schema {
    fn copy(&self, alloc: Global) -> Result<Schema, OutOfMemory> {
        Ok(Schema {
            tables: copy_tables(alloc, &self.tables)?,
            names: copy_names(alloc, &self.names)?,
        })
    }
}

fn copy_tables(
    alloc: Global,
    tables: &BTreeMap<TableName, TableInfo>,
) -> Result<BTreeMap<TableName, TableInfo>, OutOfMemory>
    ensures { IfOk result (λ copy. copy.entries ≡ tables.now.entries) }
{
    let mut copy = BTreeMap::new(alloc);
    for (name, table) in tables {
        copy.insert(name.copy(alloc)?, table.copy(alloc)?)?;
    }
    Ok(copy)
}

fn copy_names(
    alloc: Global,
    names: &BTreeMap<u64, TableName>,
) -> Result<BTreeMap<u64, TableName>, OutOfMemory>
    ensures { IfOk result (λ copy. copy.entries ≡ names.now.entries) }
{
    let mut copy = BTreeMap::new(alloc);
    for (incarnation, name) in names {
        copy.insert(*incarnation, name.copy(alloc)?)?;
    }
    Ok(copy)
}
