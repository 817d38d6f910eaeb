//! The one spelling of a batch.
ghost use Rattle.std.specs.Prelude.{◌≡◌, ◌++◌, IsTrue, OnOk, IfOk};
ghost use Rattle.std.specs.Int.{w32};
ghost use Rattle.bt_entry.specs.Grammar.{AreWritableFamilies, IsSpellable, IsSpellableEntry, IsSpellableMutation, IsSpellableMutations, IsSpellableNumbered, RulesFitIn, is_retention, IsWritable, IsWritableEntry, IsWritableMutation, IsWritableMutations, IsWritableNumbered};
ghost use Rattle.bt_codec.specs.Spelling.{list};
ghost use Rattle.bt_entry.specs.Spelling.{entry, mutation, numbered, row_tag, spelling};

use crate::writing_families::put_families;
use crate::writing_fields::{
    put_family_name, put_key, put_micros, put_qualifier, put_table_name, put_value,
};
use crate::{Batch, Entry, Numbered};
use bt_base::{Blob, OutOfMemory};
use bt_codec::{put_u32, put_u64};
use bt_rules::Families;
use bt_types::{FamilyName, Micros, Mutation, MutationList, Qualifier, RowKey, TableName};
use std::alloc::{AllocError, Global};

/// The bytes of a batch, as one record of the log holds them: the count of its entries and then
/// each of them. Sequences are not written. What it gave can be read again: names, keys and
/// timestamps are lawful by their types.
pub fn write_batch(alloc: Global, batch: &Batch) -> Result<Blob, OutOfMemory>
    requires { IsWritable batch.now }
    ensures spelled { IfOk result (λ b. b ≡ spelling batch.now) }
    ensures spellable { OnOk result (IsSpellable batch.now) }
{
    let mut out = Vec::new(alloc);
    put_batch(&mut out, batch)?;
    Ok(Blob::from_vec(out))
}

fn put_batch(out: &mut Vec<u8>, batch: &Batch) -> Result<(), AllocError>
    requires { IsWritable batch.now }
    ensures spelled { OnOk result (out.new.items ≡ out.old.items ++ spelling batch.now) }
    ensures spellable { OnOk result (IsSpellable batch.now) }
{
    let batch = batch.items();
    put_u32(out, batch.len() as u32)?;
    for numbered in batch {
        put_numbered(out, numbered)?;
    }
    Ok(())
}

fn put_numbered(out: &mut Vec<u8>, n: &Numbered) -> Result<(), AllocError>
    requires { IsWritableNumbered n.now }
    ensures spelled { OnOk result (out.new.items ≡ out.old.items ++ numbered n.now) }
    ensures spellable { OnOk result (IsSpellableNumbered n.now) }
    ensures fits { OnOk result (RulesFitIn n.now.entry) }
{
    put_u64(out, n.moment)?;
    put_entry(out, &n.entry)
}

fn put_entry(out: &mut Vec<u8>, e: &Entry) -> Result<(), AllocError>
    requires { IsWritableEntry e.now }
    ensures spelled { OnOk result (out.new.items ≡ out.old.items ++ entry e.now) }
    ensures spellable { OnOk result (IsSpellableEntry e.now) }
    ensures fits { OnOk result (RulesFitIn e.now) }
{
    match e {
        Entry::Row {
            incarnation,
            key,
            by_rule,
            mutations,
        } => put_row(out, *incarnation, key, *by_rule, mutations),
        Entry::Create {
            name,
            families,
            retention,
        } => put_create(out, name, families, *retention),
        Entry::Delete { incarnation } => put_delete(out, *incarnation),
        Entry::Alter {
            incarnation,
            families,
        } => put_alter(out, *incarnation, families),
        Entry::Stream {
            incarnation,
            retention,
        } => put_stream(out, *incarnation, *retention),
        Entry::Floor => {
            out.push(7)?;
            Ok(())
        }
    }
}

fn put_row(
    out: &mut Vec<u8>,
    incarnation: u64,
    key: &RowKey,
    by_rule: bool,
    mutations: &MutationList,
) -> Result<(), AllocError>
    requires { IsWritableMutations mutations.now }
    ensures spelled { OnOk result (out.new.items ≡ out.old.items ++ entry (Entry.Row incarnation key.now by_rule mutations.now)) }
    ensures spellable { OnOk result (IsSpellableEntry (Entry.Row incarnation key.now by_rule mutations.now)) }
{
    let tag = row_tag(by_rule);
    out.push(tag)?;
    put_u64(out, incarnation)?;
    put_key(out, key)?;
    put_mutations(out, mutations)?;
    Ok(())
}

fn row_tag(by_rule: bool) -> u8
    ensures { result ≡ row_tag by_rule }
{
    if by_rule { 2 } else { 1 }
}

fn put_create(
    out: &mut Vec<u8>,
    name: &TableName,
    families: &Families,
    retention: u64,
) -> Result<(), AllocError>
    requires families { AreWritableFamilies families.now }
    requires retention { IsTrue (is_retention retention) }
    ensures spelled { OnOk result (out.new.items ≡ out.old.items ++ entry (Entry.Create name.now families.now retention)) }
    ensures spellable { OnOk result (IsSpellableEntry (Entry.Create name.now families.now retention)) }
    ensures fits { OnOk result (RulesFitIn (Entry.Create name.now families.now retention)) }
{
    out.push(3)?;
    put_table_name(out, name)?;
    put_families(out, families)?;
    put_u64(out, retention)?;
    Ok(())
}

fn put_delete(out: &mut Vec<u8>, incarnation: u64) -> Result<(), AllocError>
    ensures spelled { OnOk result (out.new.items ≡ out.old.items ++ entry (Entry.Delete incarnation)) }
    ensures spellable { OnOk result (IsSpellableEntry (Entry.Delete incarnation)) }
{
    out.push(4)?;
    put_u64(out, incarnation)
}

fn put_alter(out: &mut Vec<u8>, incarnation: u64, families: &Families) -> Result<(), AllocError>
    requires { AreWritableFamilies families.now }
    ensures spelled { OnOk result (out.new.items ≡ out.old.items ++ entry (Entry.Alter incarnation families.now)) }
    ensures spellable { OnOk result (IsSpellableEntry (Entry.Alter incarnation families.now)) }
    ensures fits { OnOk result (RulesFitIn (Entry.Alter incarnation families.now)) }
{
    out.push(5)?;
    put_u64(out, incarnation)?;
    put_families(out, families)?;
    Ok(())
}

fn put_stream(out: &mut Vec<u8>, incarnation: u64, retention: u64) -> Result<(), AllocError>
    requires { IsTrue (is_retention retention) }
    ensures spelled { OnOk result (out.new.items ≡ out.old.items ++ entry (Entry.Stream incarnation retention)) }
    ensures spellable { OnOk result (IsSpellableEntry (Entry.Stream incarnation retention)) }
{
    out.push(6)?;
    put_u64(out, incarnation)?;
    put_u64(out, retention)?;
    Ok(())
}

fn put_mutations(out: &mut Vec<u8>, mutations: &MutationList) -> Result<(), AllocError>
    requires { IsWritableMutations mutations.now }
    ensures spelled { OnOk result (out.new.items ≡ out.old.items ++ list w32 mutation mutations.now) }
    ensures spellable { OnOk result (IsSpellableMutations mutations.now) }
{
    let mutations = mutations.items();
    put_u32(out, mutations.len() as u32)?;
    for mutation in mutations {
        put_mutation(out, mutation)?;
    }
    Ok(())
}

fn put_mutation(out: &mut Vec<u8>, m: &Mutation) -> Result<(), AllocError>
    requires { IsWritableMutation m.now }
    ensures spelled { OnOk result (out.new.items ≡ out.old.items ++ mutation m.now) }
    ensures spellable { OnOk result (IsSpellableMutation m.now) }
{
    match m {
        Mutation::SetCell {
            family,
            qualifier,
            at,
            value,
        } => put_set_cell(out, family, qualifier, *at, value),
        Mutation::DeleteColumn {
            family,
            qualifier,
            start,
            end,
        } => put_delete_column(out, family, qualifier, *start, *end),
        Mutation::DeleteFamily { family } => put_delete_family(out, family),
        Mutation::DeleteRow => {
            out.push(4)?;
            Ok(())
        }
    }
}

fn put_set_cell(
    out: &mut Vec<u8>,
    family: &FamilyName,
    qualifier: &Qualifier,
    at: Micros,
    value: &Blob,
) -> Result<(), AllocError>
    requires { IsWritableMutation (Mutation.SetCell family.now qualifier.now at value.now) }
    ensures spelled { OnOk result (out.new.items ≡ out.old.items ++ mutation (Mutation.SetCell family.now qualifier.now at value.now)) }
    ensures spellable { OnOk result (IsSpellableMutation (Mutation.SetCell family.now qualifier.now at value.now)) }
{
    out.push(1)?;
    put_family_name(out, family)?;
    put_qualifier(out, qualifier)?;
    put_micros(out, at)?;
    put_value(out, value)?;
    Ok(())
}

fn put_delete_column(
    out: &mut Vec<u8>,
    family: &FamilyName,
    qualifier: &Qualifier,
    start: u64,
    end: u64,
) -> Result<(), AllocError>
    requires { IsWritableMutation (Mutation.DeleteColumn family.now qualifier.now start end) }
    ensures spelled { OnOk result (out.new.items ≡ out.old.items ++ mutation (Mutation.DeleteColumn family.now qualifier.now start end)) }
    ensures spellable { OnOk result (IsSpellableMutation (Mutation.DeleteColumn family.now qualifier.now start end)) }
{
    out.push(2)?;
    put_family_name(out, family)?;
    put_qualifier(out, qualifier)?;
    put_u64(out, start)?;
    put_u64(out, end)?;
    Ok(())
}

fn put_delete_family(out: &mut Vec<u8>, family: &FamilyName) -> Result<(), AllocError>
    ensures spelled { OnOk result (out.new.items ≡ out.old.items ++ mutation (Mutation.DeleteFamily family.now)) }
    ensures spellable { OnOk result (IsSpellableMutation (Mutation.DeleteFamily family.now)) }
{
    out.push(3)?;
    put_family_name(out, family)
}
