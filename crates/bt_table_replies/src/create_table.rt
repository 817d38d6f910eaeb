//! CreateTable.
ghost use Rattle.std.specs.Prelude.{◌≡◌, ◌≤◌, ◌+◌, None, IfOk, length, nat_le, nat_lt};
ghost use Rattle.std.specs.Result.{result_err};
ghost use Rattle.bt_entry.specs.Grammar.{last_moment, most_families};
ghost use Rattle.bt_entry.specs.declared.entry.Entry.TheVariants.{Create};
ghost use Rattle.bt_messages.specs.declared.refusal.Refusal.TheVariants as refusal;
ghost use Rattle.bt_messages.specs.declared.response.Response.TheVariants.{CreateTable};
ghost use Rattle.bt_plans.specs.NoPlans.{Refuses};
ghost use Rattle.bt_plans.specs.Plans.{IsPlan};
ghost use Rattle.bt_plans.specs.Replies.{changes, event, refused_if};
ghost use Rattle.bt_requests.specs.Readers.{Ascend};
ghost use Rattle.bt_schema.specs.Schema.{most_tables, new_table, table_of};
ghost use Rattle.bt_state.specs.State.{IsLawful};
ghost use Rattle.bt_table_replies.specs.Tables.{create_refusal, create_reply, families_of, retention_used};

use crate::families::{MOST_FAMILIES, lawful_families};
use crate::retention::lawful_retention;
use bt_base::OutOfMemory;
use bt_entry::{Entry, TableInfo};
use bt_messages::{Refusal, table_lines};
use bt_plans::{Answer, NoPlan, Plan, next_sequence};
use bt_requests::AskedFamilyList;
use bt_rules::Families;
use bt_schema::set_retention;
use bt_state::Present;
use bt_types::TableName;
use std::alloc::Global;

const MOST_TABLES: usize = 1000;

/// A table of that name, with these families and this retention of changes
/// (`google.bigtable.admin.v2.CreateTableRequest`).
pub fn create_table(
    alloc: Global,
    present: &Present,
    name: TableName,
    families: AskedFamilyList,
    retention: Option<i64>,
    moment: u64,
) -> Result<Plan, OutOfMemory>
    requires order { Ascend families }
    requires not_before { present.now.floor ≤ moment }
    requires not_past { moment ≤ last_moment }
    ensures { IfOk result (λ plan. IsPlan plan present.now (create_reply present.now moment name families retention (table_of name present.now.schema))) }
{
    if present.table(&name).is_some() {
        return Ok(Plan::refuses(Refusal::TableExists));
    }
    match lawful_table(alloc, present, name, families, retention, moment) {
        Ok(table) => creation(alloc, present, table, moment),
        Err(NoPlan::Refused(refusal)) => Ok(Plan::refuses(refusal)),
        Err(NoPlan::OutOfMemory) => Err(OutOfMemory),
    }
}

// The table that is to be made.
fn lawful_table(
    alloc: Global,
    present: &Present,
    name: TableName,
    families: AskedFamilyList,
    retention: Option<i64>,
    moment: u64,
) -> Result<TableInfo, NoPlan>
    ensures refusal { Refuses (create_refusal present.now families retention) result }
    ensures table { IfOk result (λ t. t ≡ new_table (present.now.last + 1) moment name (families_of families) (retention_used retention)) }
{
    let families = lawful_families(alloc, families)?;
    check_number(&families)?;
    let retention = lawful_retention(retention)?;
    check_room(present)?;
    let sequence = next_sequence(present);
    Ok(new_table(name, families, sequence, moment, retention))
}

fn check_number(families: &Families) -> Result<(), Refusal>
    ensures { result_err result ≡ refused_if (nat_lt most_families (length families.now)) refusal.TooManyFamilies }
{
    if families.items().len() > MOST_FAMILIES {
        return Err(Refusal::TooManyFamilies);
    }
    Ok(())
}

fn check_room(present: &Present) -> Result<(), Refusal>
    ensures { result_err result ≡ refused_if (nat_le most_tables (length present.now.schema)) refusal.TooManyTables }
{
    if present.schema().tables().len() >= MOST_TABLES {
        return Err(Refusal::TooManyTables);
    }
    Ok(())
}

fn new_table(
    name: TableName,
    families: Families,
    sequence: u64,
    moment: u64,
    retention: u64,
) -> TableInfo
    ensures { result ≡ new_table sequence moment name families retention }
{
    let mut table = TableInfo {
        name,
        incarnation: sequence,
        families,
        since: 0,
        since_moment: 0,
        retention: 0,
    };
    set_retention(&mut table, sequence, moment, retention);
    table
}

// The plan of making the table.
fn creation(
    alloc: Global,
    present: &Present,
    table: TableInfo,
    moment: u64,
) -> Result<Plan, OutOfMemory>
    requires { IsLawful present.now (event moment (Create table.name table.families table.retention)) }
    ensures { IfOk result (λ plan. IsPlan plan present.now (changes (CreateTable table) moment (Create table.name table.families table.retention))) }
{
    let lines = table_lines(alloc, &table)?;
    let entry = Entry::Create {
        name: table.name,
        families: table.families,
        retention: table.retention,
    };
    Plan::changes(alloc, present, moment, entry, Answer::Lines(lines))
}
