//! The one spelling of the tables.
ghost use Rattle.std.specs.Prelude.{◌≡◌, ◌++◌, IfOk, OnOk};
ghost use Rattle.bt_schema.specs.Grammar.{AreSpellableTables, IsSpellable, IsSpellableTable, IsWritable, IsWritableTable};
ghost use Rattle.bt_schema.specs.Spelling.{spelling, table};

use super::Schema;
use bt_base::{Blob, OutOfMemory};
use bt_codec::{put_u32, put_u64};
use bt_entry::{TableInfo, put_families, put_table_name};
use bt_types::TableName;
use std::alloc::{AllocError, Global};
use std::collections::BTreeMap;

impl Schema {
    /// The bytes of the tables: their count, and then each of them in the order of names. What it
    /// gave can be read again: names are lawful by their type and stand in order, and no two tables
    /// have the same incarnation.
    pub fn to_bytes(&self, alloc: Global) -> Result<Blob, OutOfMemory>
        requires { IsWritable self.now }
        ensures spelled { IfOk result (λ b. b ≡ spelling self.now) }
        ensures spellable { OnOk result (IsSpellable self.now) }
    {
        let mut out = Vec::new(alloc);
        put_tables(&mut out, &self.tables)?;
        Ok(Blob::from_vec(out))
    }
}

fn put_tables(out: &mut Vec<u8>, tables: &BTreeMap<TableName, TableInfo>) -> Result<(), AllocError>
    requires { IsWritable tables.now.entries }
    ensures spelled { OnOk result (out.new.items ≡ out.old.items ++ spelling tables.now.entries) }
    ensures spellable { OnOk result (AreSpellableTables tables.now.entries) }
{
    put_u32(out, tables.len() as u32)?;
    for (_, table) in tables {
        put_table(out, table)?;
    }
    Ok(())
}

fn put_table(out: &mut Vec<u8>, t: &TableInfo) -> Result<(), AllocError>
    requires { IsWritableTable t.now }
    ensures spelled { OnOk result (out.new.items ≡ out.old.items ++ table t.now) }
    ensures spellable { OnOk result (IsSpellableTable t.now) }
{
    put_table_name(out, &t.name)?;
    put_u64(out, t.incarnation)?;
    put_u64(out, t.since)?;
    put_u64(out, t.since_moment)?;
    put_u64(out, t.retention)?;
    put_families(out, &t.families)?;
    Ok(())
}
