//! Which entries may come next, as far as the tables without their rows tell.
ghost use Rattle.std.specs.Prelude.{◌≡◌, None};
ghost use Rattle.std.specs.List.{list_all};
ghost use Rattle.std.specs.Result.{result_err};
ghost use Rattle.bt_rules.specs.Rules.{is_lawful_or_none};
ghost use Rattle.bt_schema.specs.Schema.{change_refusal, create_refusal, families_refusal, is_of_family, mutations_refusal, of_table, table_at};

use crate::{Schema, SchemaRefusal, has_family};
use bt_entry::{Entry, TableInfo};
use bt_rules::{Family, check_rule};
use bt_types::{Mutation, TableName};

const MOST_TABLES: usize = 1000;

const MOST_FAMILIES: usize = 100;

impl Schema {
    /// Checks whether the entry may come next, as far as the tables tell. A new table must have a
    /// name that no table has. The rules of families must be within the limits of rules, and a table
    /// has at most 100 families. There are at most 1,000 tables. The table of any other entry must
    /// be there, with the families that the mutations of a row name. The answer is the first fault.
    /// No memory is taken.
    pub fn check_change(&self, entry: &Entry) -> Result<(), SchemaRefusal>
        ensures exact { result_err result ≡ change_refusal entry.now self.now }
    {
        match entry {
            Entry::Row {
                incarnation,
                mutations,
                ..
            } => self.check_mutations(*incarnation, mutations.items()),
            Entry::Create { name, families, .. } => self.check_create(name, families.items()),
            Entry::Delete { incarnation } => self.check_table(*incarnation),
            Entry::Alter {
                incarnation,
                families,
            } => self.check_families(*incarnation, families.items()),
            Entry::Stream { incarnation, .. } => self.check_table(*incarnation),
            Entry::Floor => Ok(()),
        }
    }

    fn check_mutations(&self, incarnation: u64, mutations: &[Mutation]) -> Result<(), SchemaRefusal>
        ensures { result_err result ≡ mutations_refusal mutations.now (table_at incarnation self.now) }
    {
        match self.table_at(incarnation) {
            Some(table) if are_of_families(table, mutations) => Ok(()),
            _ => Err(SchemaRefusal::NotFound),
        }
    }

    fn check_create(&self, name: &TableName, families: &[Family]) -> Result<(), SchemaRefusal>
        ensures { result_err result ≡ create_refusal name.now families.now self.now }
    {
        if self.table(name).is_some() {
            return Err(SchemaRefusal::AlreadyExists);
        }
        check_families(families)?;
        if self.tables().len() >= MOST_TABLES {
            return Err(SchemaRefusal::TooManyTables);
        }
        Ok(())
    }

    fn check_families(&self, incarnation: u64, families: &[Family]) -> Result<(), SchemaRefusal>
        ensures { result_err result ≡ of_table (table_at incarnation self.now) (families_refusal families.now) }
    {
        self.check_table(incarnation)?;
        check_families(families)
    }

    fn check_table(&self, incarnation: u64) -> Result<(), SchemaRefusal>
        ensures { result_err result ≡ of_table (table_at incarnation self.now) None }
    {
        match self.table_at(incarnation) {
            Some(_) => Ok(()),
            None => Err(SchemaRefusal::NotFound),
        }
    }
}

fn check_families(families: &[Family]) -> Result<(), SchemaRefusal>
    ensures { result_err result ≡ families_refusal families.now }
{
    if !have_lawful_rules(families) {
        return Err(SchemaRefusal::BadRule);
    }
    if families.len() > MOST_FAMILIES {
        return Err(SchemaRefusal::TooManyFamilies);
    }
    Ok(())
}

fn have_lawful_rules(families: &[Family]) -> bool
    ensures { result ≡ list_all (λ f. is_lawful_or_none f.rule) families.now }
{
    families.iter().all(|family| has_lawful_rule(family))
}

fn has_lawful_rule(family: &Family) -> bool
    ensures { result ≡ is_lawful_or_none family.now.rule }
{
    match &family.rule {
        Some(rule) => check_rule(rule).is_ok(),
        None => true,
    }
}

fn are_of_families(table: &TableInfo, mutations: &[Mutation]) -> bool
    ensures { result ≡ list_all (is_of_family table.now) mutations.now }
{
    mutations
        .iter()
        .all(|mutation| is_of_family(table, mutation))
}

fn is_of_family(table: &TableInfo, mutation: &Mutation) -> bool
    ensures { result ≡ is_of_family table.now mutation.now }
{
    match mutation {
        Mutation::SetCell { family, .. } => has_family(table, family),
        Mutation::DeleteColumn { family, .. } => has_family(table, family),
        Mutation::DeleteFamily { family } => has_family(table, family),
        Mutation::DeleteRow => true,
    }
}
