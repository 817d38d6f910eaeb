//! ReadModifyWriteRow.
ghost use Rattle.std.specs.Prelude.{◌≡◌, ◌<◌, ◌≤◌, ◌^◌, true, Ok, [], IfErr, IfOk, length, map, option_map, unwrap_or};
ghost use Rattle.std.specs.List.{AllByRecursion};
ghost use Rattle.bt_contents.specs.Contents.{row_at};
ghost use Rattle.bt_entry.specs.Grammar.{IsSpellableMutation, last_moment};
ghost use Rattle.bt_mutation.specs.Checks.{has_family};
ghost use Rattle.bt_plans.specs.Comings.{MayCome};
ghost use Rattle.bt_plans.specs.NoPlans.{Refuses};
ghost use Rattle.bt_plans.specs.Plans.{IsPlan};
ghost use Rattle.bt_read_write_replies.specs.ReadModifyWrite.{IsModified, IsRefusedForRow, modify_refusal, modify_row_reply, most_rules, refusal_for_rules};
ghost use Rattle.bt_rmw.specs.Columns.{latest_of_each};
ghost use Rattle.bt_rmw.specs.Modified.{latest_in, modified, set_of};
ghost use Rattle.bt_rmw.specs.Rules.{rules_of, rules_refusal};
ghost use Rattle.bt_schema.specs.Schema.{table_of};

use bt_base::{Blob, OutOfMemory, Plain};
use bt_contents::Contents;
use bt_entry::{Entry, TableInfo};
use bt_messages::{Refusal, Response, served_lines};
use bt_plans::{Answer, NoPlan, Plan, incarnation_of};
use bt_rmw::{
    AskedRuleList, ColumnList, ModifyRefusal, ModifyRule, ModifyRuleList, RulesRefusal, columns_of,
    lawful_rules, modify,
};
use bt_rules::Families;
use bt_state::Present;
use bt_types::{CellList, MutationList, RowKey, TableName};
use std::alloc::Global;

/// A request has no more rules (`google.bigtable.v2.ReadModifyWriteRowRequest.rules`).
const MOST_RULES: u32 = 100_000;

/// What a row is to become: its key, its new cells, and the entry that sets them.
#[derive(Drop)]
struct Modified {
    key: RowKey,
    cells: CellList,
    entry: Entry,
}

/// Rules over the latest cells of the row at a key, in order, all or none
/// (`google.bigtable.v2.ReadModifyWriteRowRequest`). It takes a search of the row for each column that
/// the rules name.
pub fn read_modify_write_row(
    alloc: Global,
    present: &Present,
    name: &TableName,
    key: &Blob,
    rules: AskedRuleList,
    moment: u64,
) -> Result<Plan, OutOfMemory>
    requires not_before { present.now.floor ≤ moment }
    requires not_past { moment ≤ last_moment }
    ensures { IfOk result (λ plan. IsPlan plan present.now (modify_row_reply present.now moment key.now rules (table_of name.now present.now.schema))) }
{
    let Some(table) = present.table(name) else {
        return Ok(Plan::refuses(Refusal::TableNotFound));
    };
    let rows = present.rows_of(table.incarnation);
    match modified_row(alloc, table, rows, key, rules, moment) {
        Ok(Modified { key, cells, entry }) => {
            let lines = served_lines(alloc, &Response::ReadModifyWriteRow { key, cells })?;
            Plan::changes(alloc, present, moment, entry, Answer::Lines(lines))
        }
        Err(NoPlan::Refused(refusal)) => Ok(Plan::refuses(refusal)),
        Err(NoPlan::OutOfMemory) => Err(OutOfMemory),
    }
}

fn modified_row(
    alloc: Global,
    table: &TableInfo,
    rows: Option<&Contents>,
    key: &Blob,
    rules: AskedRuleList,
    moment: u64,
) -> Result<Modified, NoPlan>
    requires { moment ≤ last_moment }
    ensures modified { IsModified (modify_refusal key.now rules table.now) table.now key.now (modified moment (rules_of rules) (row_at key.now (unwrap_or (option_map (λ c. c.now) rows.entry) []))) result }
    ensures may_come { IfOk result (λ x. MayCome table.now moment x.entry) }
{
    let Some(key) = RowKey::new(alloc, key.bytes())? else {
        return Err(NoPlan::Refused(Refusal::BadRowKey));
    };
    let rules = checked_rules(alloc, rules, &table.families)?;
    let latest = latest_cells(alloc, rows, &key, rules.items())?;
    let (mutations, cells) = new_cells(alloc, rules, latest, moment)?;
    let entry = Entry::Row {
        incarnation: incarnation_of(table),
        key: key.copy(alloc)?,
        by_rule: false,
        mutations,
    };
    Ok(Modified { key, cells, entry })
}

fn checked_rules(
    alloc: Global,
    rules: AskedRuleList,
    families: &Families,
) -> Result<ModifyRuleList, NoPlan>
    ensures refusal { Refuses (option_map refusal_for_rules (rules_refusal families.now most_rules rules)) result }
    ensures rules { IfOk result (λ lawful. lawful ≡ rules_of rules) }
    ensures some { IfOk result (λ lawful. (1 ≤ length lawful) × (length lawful ≤ most_rules)) }
    ensures families { IfOk result (λ lawful. AllByRecursion (λ rule. has_family families.now rule.family ≡ true) lawful) }
{
    match lawful_rules(alloc, rules, families, MOST_RULES) {
        Ok(rules) => Ok(rules),
        Err(RulesRefusal::NoRules) => Err(NoPlan::Refused(Refusal::NoRules)),
        Err(RulesRefusal::TooMany) => Err(NoPlan::Refused(Refusal::TooManyRules)),
        Err(RulesRefusal::Kind { .. }) => Err(NoPlan::Refused(Refusal::RuleWithoutKind)),
        Err(RulesRefusal::UnknownFamily { .. }) => Err(NoPlan::Refused(Refusal::FamilyNotFound)),
        Err(RulesRefusal::LongQualifier { .. }) => Err(NoPlan::Refused(Refusal::QualifierTooLong)),
        Err(RulesRefusal::OutOfMemory) => Err(NoPlan::OutOfMemory),
    }
}

// The latest cell of each column that the rules name and the row has.
fn latest_cells(
    alloc: Global,
    rows: Option<&Contents>,
    key: &RowKey,
    rules: &[ModifyRule],
) -> Result<CellList, OutOfMemory>
    ensures { IfOk result (λ latest. AllByRecursion (λ rule. latest_in rule.family rule.qualifier latest ≡ latest_in rule.family rule.qualifier (row_at key.now (unwrap_or (option_map (λ c. c.now) rows.entry) []))) rules.now) }
{
    match rows {
        Some(rows) => {
            let columns = columns_of(alloc, rules)?;
            latest_of(alloc, rows, key, columns)
        }
        None => Ok(CellList::new(alloc)),
    }
}

fn latest_of(
    alloc: Global,
    rows: &Contents,
    key: &RowKey,
    columns: ColumnList,
) -> Result<CellList, OutOfMemory>
    ensures { IfOk result (λ latest. latest ≡ latest_of_each (row_at key.now rows.now) columns) }
{
    let mut latest = CellList::new(alloc);
    for column in columns.into_vec() {
        let found = rows.latest(alloc, key, column.family, column.qualifier)?;
        if let Some(cell) = found {
            latest.push(cell)?;
        }
    }
    Ok(latest)
}

fn new_cells(
    alloc: Global,
    rules: ModifyRuleList,
    latest: CellList,
    moment: u64,
) -> Result<(MutationList, CellList), NoPlan>
    requires few { length rules < 2 ^ 32 }
    requires moment { moment ≤ last_moment }
    ensures cells { IfOk result (λ made. modified moment rules latest ≡ Ok made.1) }
    ensures mutations { IfOk result (λ made. made.0 ≡ map set_of made.1) }
    ensures refusal { IfErr result (IsRefusedForRow (modified moment rules latest)) }
    ensures spellable { IfOk result (λ made. AllByRecursion IsSpellableMutation made.0) }
{
    match modify(alloc, rules, latest, moment) {
        Ok(made) => Ok(made),
        Err(ModifyRefusal::NotEightBytes { .. }) => Err(NoPlan::Refused(Refusal::NotEightBytes)),
        Err(ModifyRefusal::IncrementRange { .. }) => Err(NoPlan::Refused(
            Refusal::IncrementOutOfRange,
        )),
        Err(ModifyRefusal::ValueTooLarge { .. }) => Err(NoPlan::Refused(Refusal::ValueTooLarge)),
        Err(ModifyRefusal::OutOfMemory) => Err(NoPlan::OutOfMemory),
    }
}
