//! The tables by their names and by their incarnations.
ghost use Rattle.std.specs.Prelude.{◌≡◌, ◌==◌, [], None, Some, IfSome, IsSome, OnOk, OnErr, filter, not, option_map};
ghost use Rattle.std.specs.Ordering.{nat_cmp};
ghost use Rattle.std.specs.Cmp.Lexicographic.{slice_cmp};
ghost use Rattle.std.specs.BTreeMap.{insert_entry};
ghost use Rattle.bt_schema.specs.Schema.{changed_at, table_at, table_of, with_families, with_retention, without};

mod copies;
mod writing;

use bt_base::{OutOfMemory, Plain};
use bt_entry::TableInfo;
use bt_rules::Families;
use bt_types::TableName;
use std::alloc::Global;
use std::collections::BTreeMap;
use std::marker::Model;

/// The tables without their rows, by their names. A contract sees the list of names and tables in
/// the order of names.
#[derive(Drop)]
pub struct Schema {
    tables: BTreeMap<TableName, TableInfo>,
    // The names of the tables by their incarnations.
    names: BTreeMap<u64, TableName>,
}

impl Model for Schema {
    ghost use Rattle.std.specs.Prelude.{List, ℕ};
    ghost use Rattle.bt_entry.specs.declared.table_info.TableInfo.{TableInfo};
    ghost use Rattle.bt_schema.specs.Indexed.{AreIndexed, AreNamed};
    ghost use Rattle.bt_rules.specs.contracts.rule.Rule as rule;
    ghost use Rattle.std.specs.Coded.{codes};

    ghost Value = { List (List ℕ × TableInfo) };

    ghost coded = { Prim.hlevel (codes, rule.the_row.coded) };

    ghost view = { λ s. s.tables.entries };

    ghost invariant = { λ s. AreIndexed s.names.entries s.tables.entries × AreNamed s.tables.entries };
}

impl Schema {
    /// No tables, which takes no memory yet.
    pub fn new(alloc: Global) -> Schema
        ensures { result ≡ [] }
    {
        Schema {
            tables: BTreeMap::new(alloc),
            names: BTreeMap::new(alloc),
        }
    }

    /// The table of that name. No other has its incarnation.
    pub fn table(&self, name: &TableName) -> Option<&TableInfo>
        ensures table { option_map (λ t. t.now) result ≡ table_of name.now self.now }
        ensures own { IfSome result (λ t. table_at t.now.incarnation self.now ≡ Some t.now) }
    {
        self.tables.get(name)
    }

    /// The table of that incarnation.
    pub fn table_at(&self, incarnation: u64) -> Option<&TableInfo>
        ensures { option_map (λ t. t.now) result ≡ table_at incarnation self.now }
    {
        let Some(name) = self.names.get(&incarnation) else {
            return None;
        };
        let Some(table) = self.tables.get(name) else {
            return None;
        };
        if table.incarnation == incarnation {
            Some(table)
        } else {
            None
        }
    }

    /// All tables by their names, for listing them in the order of the bytes of names.
    pub fn tables(&self) -> &BTreeMap<TableName, TableInfo>
        ensures { result.now.entries ≡ self.now }
    {
        &self.tables
    }

    pub(crate) fn add(&mut self, alloc: Global, table: TableInfo) -> Result<(), OutOfMemory>
        requires absent { table_of table.name self.old ≡ None }
        requires new { table_at table.incarnation self.old ≡ None }
        ensures ok { OnOk result (self.new ≡ insert_entry (slice_cmp nat_cmp) self.old table.name table) }
        ensures err { OnErr result (self.new ≡ self.old) }
    {
        let name = table.name.copy(alloc)?;
        let indexed = table.name.copy(alloc)?;
        self.names.insert(table.incarnation, indexed)?;
        self.tables.insert(name, table)?;
        Ok(())
    }

    pub(crate) fn remove(&mut self, incarnation: u64)
        requires { IsSome (table_at incarnation self.old) }
        ensures { self.new ≡ without incarnation self.old }
    {
        let Some(name) = self.names.remove(&incarnation) else {
            unreachable!()
        };
        self.tables.remove(&name);
    }

    pub(crate) fn set_families(&mut self, incarnation: u64, families: Families)
        requires { IsSome (table_at incarnation self.old) }
        ensures { self.new ≡ changed_at incarnation (with_families families) self.old }
    {
        let Some(name) = self.names.get(&incarnation) else {
            unreachable!()
        };
        let Some(table) = self.tables.get_mut(name) else {
            unreachable!()
        };
        table.families = families;
    }

    pub(crate) fn set_retention(
        &mut self,
        incarnation: u64,
        sequence: u64,
        moment: u64,
        retention: u64,
    )
        requires { IsSome (table_at incarnation self.old) }
        ensures { self.new ≡ changed_at incarnation (with_retention sequence moment retention) self.old }
    {
        let Some(name) = self.names.get(&incarnation) else {
            unreachable!()
        };
        let Some(table) = self.tables.get_mut(name) else {
            unreachable!()
        };
        set_retention(table, sequence, moment, retention);
    }
}

/// The table keeps changes for streams for `retention` microseconds. Its stream begins at that
/// sequence and moment, in microseconds since 1970, or goes on; with a retention of 0 it ends.
pub fn set_retention(table: &mut TableInfo, sequence: u64, moment: u64, retention: u64)
    ensures { table.new ≡ with_retention sequence moment retention table.old }
{
    if retention == 0 {
        table.since = 0;
        table.since_moment = 0;
    } else if table.since == 0 {
        table.since = sequence;
        table.since_moment = moment;
    }
    table.retention = retention;
}
