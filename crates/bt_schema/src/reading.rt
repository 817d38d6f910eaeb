//! The tables that bytes spell.
ghost use Rattle.std.specs.Prelude.{◌≡◌, IfOk, Ok};
ghost use Rattle.std.specs.Int.{w64};
ghost use Rattle.bt_codec.specs.Reading.{Gives, number_with};
ghost use Rattle.bt_schema.specs.Schema.{Schema};
ghost use Rattle.bt_schema.specs.Grammar.{IsSpellable, last_name};
ghost use Rattle.bt_schema.specs.Spelling.{spelling};
ghost use Rattle.bt_schema.specs.Reading.{Answers, is_free, schema_at, schema_in, table_behind_at, tables_at};

use crate::Schema;
use bt_codec::{Fault, u32_at, u64_at};
use bt_entry::{
    BatchRefusal, TableInfo, family_list_at, moment_at, next_table_name_at, retention_at,
};
use std::alloc::Global;

impl Schema {
    /// The tables that the bytes spell.
    ///
    /// Nothing is read that the format does not have: the names ascend strictly, no two tables have
    /// the same incarnation, and nothing may stand behind the last table. Reading stops at the
    /// first field from the left that is cut off or that breaks a rule. The place that the refusal
    /// names is where that field begins: a name that is not above the one before it stops reading
    /// at the bytes of the name, and a table that has the incarnation of an earlier one at its
    /// incarnation.
    pub fn from_bytes(alloc: Global, bytes: &[u8]) -> Result<Schema, BatchRefusal>
        // What is read is spelled so.
        ensures found { IfOk result (λ s. IsSpellable s × (bytes.now ≡ spelling s)) }
        // What is spelled so is read, unless memory runs out.
        ensures only { (s : Schema) → IsSpellable s → bytes.now ≡ spelling s → Answers result (Ok s) }
        // Where the first bad field begins.
        ensures exact { Answers result (schema_in bytes.now) }
    {
        match schema_at(alloc, bytes) {
            Ok(schema) => Ok(schema),
            Err(Fault::Bad { left }) => Err(BatchRefusal::BadEntry {
                at: (bytes.len() - left) as u64,
            }),
            Err(Fault::OutOfMemory) => Err(BatchRefusal::OutOfMemory),
        }
    }
}

#[tactic(auto, unfolding(crate::specs::Reading::schema_at))]
fn schema_at(alloc: Global, bytes: &[u8]) -> Result<Schema, Fault>
    ensures { Gives (λ s. s) result (schema_at bytes.now) }
{
    let (count, rest) = u32_at(bytes)?;
    let (schema, rest) = tables_at(alloc, count, rest)?;
    if !rest.is_empty() {
        return Err(Fault::Bad { left: rest.len() });
    }
    Ok(schema)
}

fn tables_at(alloc: Global, count: u32, bytes: &[u8]) -> Result<(Schema, &[u8]), Fault>
    ensures { Gives (λ x. (x.0, x.1.now)) result (tables_at count bytes.now) }
{
    let mut schema = Schema::new(alloc);
    let mut rest = bytes;
    for _ in 0..count {
        let (table, after) = table_behind_at(alloc, &schema, rest)?;
        schema.add(alloc, table)?;
        rest = after;
    }
    Ok((schema, rest))
}

#[tactic(auto, unfolding(crate::specs::Reading::table_behind_at))]
fn table_behind_at<'a>(
    alloc: Global,
    before: &Schema,
    bytes: &'a [u8],
) -> Result<(TableInfo, &'a [u8]), Fault>
    ensures { Gives (λ x. ((x.0.name, x.0), x.1.now)) result (table_behind_at before.now bytes.now) }
{
    let (name, rest) = next_table_name_at(alloc, last_name(before), bytes)?;
    let (incarnation, rest) = free_incarnation_at(before, rest)?;
    let (since, rest) = u64_at(rest)?;
    let (since_moment, rest) = moment_at(rest)?;
    let (retention, rest) = retention_at(rest)?;
    let (families, rest) = family_list_at(alloc, rest)?;
    let table = TableInfo {
        name,
        incarnation,
        families,
        since,
        since_moment,
        retention,
    };
    Ok((table, rest))
}

// The name of the last table, or no bytes, which come before every name.
fn last_name(schema: &Schema) -> &[u8]
    ensures { result.now ≡ last_name schema.now }
{
    match schema.tables().last_key_value() {
        Some((name, _)) => name.bytes(),
        None => &[],
    }
}

// An incarnation that none of the tables has.
#[tactic(auto, unfolding(bt_codec::specs::Reading::number_with))]
fn free_incarnation_at<'a>(before: &Schema, bytes: &'a [u8]) -> Result<(u64, &'a [u8]), Fault>
    ensures { Gives (λ x. (x.0, x.1.now)) result (number_with w64 (is_free before.now) bytes.now) }
{
    let (incarnation, rest) = u64_at(bytes)?;
    if before.table_at(incarnation).is_some() {
        return Err(Fault::Bad { left: bytes.len() });
    }
    Ok((incarnation, rest))
}
