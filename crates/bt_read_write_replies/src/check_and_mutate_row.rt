//! CheckAndMutateRow.
ghost use Rattle.std.specs.Prelude.{◌≡◌, ◌≤◌, [], None, IfOk, IfSome, OnOk, length, option_map, unwrap_or};
ghost use Rattle.std.specs.List.{AllByRecursion};
ghost use Rattle.std.specs.Result.{result_err};
ghost use Rattle.bt_cond.specs.Conditions.{is_met};
ghost use Rattle.bt_contents.specs.Ranges.{row_with};
ghost use Rattle.bt_entry.specs.Grammar.{last_moment};
ghost use Rattle.bt_mutation.specs.Checks.{IsResolvable};
ghost use Rattle.bt_plans.specs.Comings.{MayCome};
ghost use Rattle.bt_plans.specs.NoPlans.{Refuses};
ghost use Rattle.bt_plans.specs.Plans.{IsPlanOf};
ghost use Rattle.bt_plans.specs.RowEntries.{most_mutations};
ghost use Rattle.bt_read_write_replies.specs.CheckAndMutate.{IsBuilt, IsCheckReply, IsCheckedReply, LeadsTo, branch_refusal, branches_refusal, check_refusal, entry_of};
ghost use Rattle.bt_schema.specs.Schema.{table_of};

use bt_base::{Blob, OutOfMemory};
use bt_cond::choose;
use bt_contents::Contents;
use bt_entry::{Entry, TableInfo};
use bt_filter::{AskedFilter, FilterRefusal};
use bt_filter_run::Node;
use bt_messages::{Refusal, Response, served_lines};
use bt_mutation::{AskedMutation, AskedMutationList, resolve};
use bt_plans::row_entry::{MOST_MUTATIONS, check_mutations};
use bt_plans::{Answer, NoPlan, Plan, incarnation_of, refusal_for_filter};
use bt_rules::Families;
use bt_state::Present;
use bt_types::{NoReads, RowKey, TableName};
use std::alloc::Global;

/// A change of a row by a condition (`google.bigtable.v2.CheckAndMutateRowRequest`).
#[derive(Drop)]
pub struct Check {
    pub key: Blob,
    /// The condition is that this filter leaves cells of the row; without one, that the row is there.
    pub predicate: Option<AskedFilter>,
    /// The mutations where the condition is met.
    pub yes: AskedMutationList,
    /// The mutations where it is not.
    pub no: AskedMutationList,
}

/// Whether the condition is met, and the entry of what is then done.
#[derive(Drop)]
struct Choice {
    met: bool,
    entry: Option<Entry>,
}

/// One of two lists of mutations of the row at a key, all or none
/// (`google.bigtable.v2.CheckAndMutateRowRequest`).
pub fn check_and_mutate_row(
    alloc: Global,
    present: &Present,
    name: &TableName,
    check: Check,
    moment: u64,
) -> Result<Plan, OutOfMemory>
    requires not_before { present.now.floor ≤ moment }
    requires not_past { moment ≤ last_moment }
    ensures { IfOk result (λ plan. IsPlanOf plan present.now (IsCheckReply present.now moment check (table_of name.now present.now.schema))) }
{
    let Some(table) = present.table(name) else {
        return Ok(Plan::refuses(Refusal::TableNotFound));
    };
    let rows = present.rows_of(table.incarnation);
    match chosen(alloc, table, rows, check, moment) {
        Ok(Choice { met, entry }) => {
            let lines = served_lines(alloc, &Response::CheckAndMutateRow(met))?;
            let answer = Answer::Lines(lines);
            match entry {
                Some(entry) => Plan::changes(alloc, present, moment, entry, answer),
                None => Ok(Plan::Says(answer)),
            }
        }
        Err(NoPlan::Refused(refusal)) => Ok(Plan::refuses(refusal)),
        Err(NoPlan::OutOfMemory) => Err(OutOfMemory),
    }
}

// Both lists are checked before the row is looked at.
fn chosen(
    alloc: Global,
    table: &TableInfo,
    rows: Option<&Contents>,
    check: Check,
    moment: u64,
) -> Result<Choice, NoPlan>
    requires { moment ≤ last_moment }
    ensures reply { LeadsTo moment (IsCheckedReply moment table.now check (unwrap_or (option_map (λ c. c.now) rows.entry) [])) result }
    ensures may_come { IfOk result (λ c. IfSome c.entry (MayCome table.now moment)) }
{
    let key = checked_key(alloc, &check)?;
    let Check {
        predicate,
        yes,
        no,
        ..
    } = check;
    let predicate = built(alloc, predicate)?;
    check_branches(&table.families, yes.items(), no.items())?;
    let met = is_met(alloc, rows, predicate, &key)?;
    let mutations = if met { yes } else { no };
    let entry = entry_of(alloc, table, key, mutations, moment)?;
    Ok(Choice { met, entry })
}

fn checked_key(alloc: Global, check: &Check) -> Result<RowKey, NoPlan>
    ensures refusal { Refuses (check_refusal check.now) result }
    ensures key { IfOk result (λ key. key ≡ check.now.key) }
{
    let Some(key) = RowKey::new(alloc, check.key.bytes())? else {
        return Err(NoPlan::Refused(Refusal::BadRowKey));
    };
    let yes = check.yes.items().len();
    let no = check.no.items().len();
    if yes == 0 && no == 0 {
        return Err(NoPlan::Refused(Refusal::NoMutations));
    }
    let most = MOST_MUTATIONS as usize;
    if yes > most || no > most {
        return Err(NoPlan::Refused(Refusal::TooManyMutations));
    }
    Ok(key)
}

// The filter, ready to run.
fn built(alloc: Global, predicate: Option<AskedFilter>) -> Result<Option<Node>, NoPlan>
    ensures { IsBuilt predicate result }
{
    let Some(predicate) = predicate else {
        return Ok(None);
    };
    match predicate.build(alloc) {
        Ok(filter) => Ok(Some(Node::new(alloc, filter)?)),
        Err(FilterRefusal::BadFilter { why, .. }) => Err(NoPlan::Refused(refusal_for_filter(why))),
        Err(FilterRefusal::OutOfMemory) => Err(NoPlan::OutOfMemory),
    }
}

fn check_branches(
    families: &Families,
    yes: &[AskedMutation],
    no: &[AskedMutation],
) -> Result<(), Refusal>
    ensures refusal { result_err result ≡ branches_refusal families.now yes.now no.now }
    ensures yes { OnOk result (AllByRecursion IsResolvable yes.now) }
    ensures no { OnOk result (AllByRecursion IsResolvable no.now) }
    ensures few { OnOk result ((length yes.now ≤ most_mutations) × (length no.now ≤ most_mutations)) }
{
    check_branch(families, yes)?;
    check_branch(families, no)
}

fn check_branch(families: &Families, mutations: &[AskedMutation]) -> Result<(), Refusal>
    ensures refusal { result_err result ≡ branch_refusal families.now mutations.now }
    ensures lawful { OnOk result (AllByRecursion IsResolvable mutations.now) }
    ensures few { OnOk result (length mutations.now ≤ most_mutations) }
{
    if mutations.is_empty() {
        return Ok(());
    }
    check_mutations(mutations, families)
}

// The rows are in memory, so that nothing fails but for want of it.
fn is_met(
    alloc: Global,
    rows: Option<&Contents>,
    predicate: Option<Node>,
    key: &RowKey,
) -> Result<bool, OutOfMemory>
    ensures { IfOk result (λ met. met ≡ is_met predicate key.now (row_with key.now (unwrap_or (option_map (λ c. c.now) rows.entry) []))) }
{
    let Some(rows) = rows else {
        return Ok(false);
    };
    let mut row = rows.row(alloc, key);
    match choose(alloc, predicate, key, &mut row, &mut NoReads) {
        Ok(met) => Ok(met),
        Err(_) => Err(OutOfMemory),
    }
}

fn entry_of(
    alloc: Global,
    table: &TableInfo,
    key: RowKey,
    mutations: AskedMutationList,
    moment: u64,
) -> Result<Option<Entry>, OutOfMemory>
    requires lawful { branch_refusal table.now.families mutations ≡ None }
    requires resolvable { AllByRecursion IsResolvable mutations }
    requires few { length mutations ≤ most_mutations }
    requires moment { moment ≤ last_moment }
    ensures entry { IfOk result (λ entry. entry ≡ entry_of moment table.now key mutations) }
    ensures may_come { IfOk result (λ entry. IfSome entry (MayCome table.now moment)) }
{
    if mutations.is_empty() {
        return Ok(None);
    }
    let mutations = resolve(alloc, mutations, moment)?;
    Ok(Some(Entry::Row {
        incarnation: incarnation_of(table),
        key,
        by_rule: false,
        mutations,
    }))
}
