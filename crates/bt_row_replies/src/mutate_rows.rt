//! MutateRows.
ghost use Rattle.std.specs.Prelude.{◌≡◌, ◌+◌, ◌++◌, ◌∷◌, ◌≤◌, [], None, Some, IfOk, OnOk, length, map, nat_lt};
ghost use Rattle.std.specs.List.{AllByRecursion};
ghost use Rattle.std.specs.Result.{result_err};
ghost use Rattle.bt_entry.specs.Grammar.{IsSpellableEntry, last_moment};
ghost use Rattle.bt_plans.specs.Records.{numbered_from};
ghost use Rattle.bt_plans.specs.Plans.{IsPlan};
ghost use Rattle.bt_plans.specs.RowEntries.{most_mutations};
ghost use Rattle.bt_row_replies.specs.MutateRows.{accepted, entries_refusal, entry_refusal, mutate_rows_reply, mutation_count, row_of, status_of};
ghost use Rattle.bt_schema.specs.Schema.{table_of};
ghost use Rattle.bt_state.specs.State.{greatest_sequence};

use bt_base::OutOfMemory;
use bt_entry::{Batch, TableInfo};
use bt_messages::{EntryStatus, EntryStatusList, Refusal, Response, served_lines};
use bt_plans::row_entry::{MOST_MUTATIONS, row_entry};
use bt_plans::{Answer, NoPlan, Plan, as_record, next_sequence, plan_of, put_entry};
use bt_requests::{AskedEntry, AskedEntryList};
use bt_state::Present;
use bt_types::{TableName, Text};
use std::alloc::Global;

/// Mutations of several rows: each entry is accepted or refused by itself, and those that are
/// accepted are one record (`google.bigtable.v2.MutateRowsRequest`).
pub fn mutate_rows(
    alloc: Global,
    present: &Present,
    name: &TableName,
    entries: AskedEntryList,
    moment: u64,
) -> Result<Plan, OutOfMemory>
    requires not_before { present.now.floor ≤ moment }
    requires not_past { moment ≤ last_moment }
    ensures { IfOk result (λ plan. IsPlan plan present.now (mutate_rows_reply moment entries (table_of name.now present.now.schema))) }
{
    let Some(table) = present.table(name) else {
        return Ok(Plan::refuses(Refusal::TableNotFound));
    };
    if let Err(refusal) = check_entries(entries.items()) {
        return Ok(Plan::refuses(refusal));
    }
    let first = next_sequence(present);
    let judged = judge_all(alloc, table, entries, first, moment)?;
    let lines = served_lines(alloc, &Response::MutateRows(judged.statuses))?;
    let records = as_record(alloc, judged.rows)?;
    Ok(plan_of(records, Answer::Lines(lines)))
}

fn check_entries(entries: &[AskedEntry]) -> Result<(), Refusal>
    ensures { result_err result ≡ entries_refusal entries.now }
{
    if entries.is_empty() {
        return Err(Refusal::NoEntries);
    }
    if have_too_many(entries) {
        return Err(Refusal::TooManyMutations);
    }
    Ok(())
}

// Whether they have more mutations together than a request may have.
fn have_too_many(entries: &[AskedEntry]) -> bool
    ensures { result ≡ nat_lt most_mutations (mutation_count entries.now) }
{
    let mut left = MOST_MUTATIONS as usize;
    for entry in entries {
        let count = entry.mutations.items().len();
        if count > left {
            return true;
        }
        left -= count;
    }
    false
}

/// What became of entries: a status for each, and an entry of the log for each that is accepted.
#[derive(Drop)]
struct Judged {
    statuses: EntryStatusList,
    rows: Batch,
}

fn judge_all(
    alloc: Global,
    table: &TableInfo,
    entries: AskedEntryList,
    first: u64,
    moment: u64,
) -> Result<Judged, OutOfMemory>
    requires first { first ≤ greatest_sequence + 1 }
    requires not_past { moment ≤ last_moment }
    ensures statuses { IfOk result (λ j. j.statuses ≡ map (λ e. status_of (entry_refusal table.now e)) entries) }
    ensures rows { IfOk result (λ j. j.rows ≡ numbered_from first moment (map (row_of moment table.now) (accepted table.now entries))) }
    ensures spellable { IfOk result (λ j. AllByRecursion (λ n. IsSpellableEntry n.entry) j.rows) }
{
    let mut judged = Judged {
        statuses: EntryStatusList::new(alloc),
        rows: Batch::new(alloc),
    };
    for entry in entries.into_vec() {
        judged.add(alloc, table, entry, first, moment)?;
    }
    Ok(judged)
}

impl Judged {
    fn add(
        &mut self,
        alloc: Global,
        table: &TableInfo,
        asked: AskedEntry,
        first: u64,
        moment: u64,
    ) -> Result<(), OutOfMemory>
        requires first { first ≤ greatest_sequence + 1 }
        requires not_past { moment ≤ last_moment }
        requires spellable { AllByRecursion (λ n. IsSpellableEntry n.entry) self.old.rows }
        ensures statuses { OnOk result (self.new.statuses ≡ self.old.statuses ++ status_of (entry_refusal table.now asked) ∷ []) }
        ensures rows { OnOk result (self.new.rows ≡ self.old.rows ++ numbered_from (first + length self.old.rows) moment (map (row_of moment table.now) (accepted table.now (asked ∷ [])))) }
        ensures spellable { OnOk result (AllByRecursion (λ n. IsSpellableEntry n.entry) self.new.rows) }
    {
        let AskedEntry { key, mutations } = asked;
        match row_entry(alloc, table, key, mutations, moment) {
            Ok(entry) => {
                self.statuses.push(accepted_status(alloc)?)?;
                put_entry(&mut self.rows, first, moment, entry)
            }
            Err(NoPlan::Refused(refusal)) => self.statuses.push(refused_status(alloc, refusal)?),
            Err(NoPlan::OutOfMemory) => Err(OutOfMemory),
        }
    }
}

fn accepted_status(alloc: Global) -> Result<EntryStatus, OutOfMemory>
    ensures { IfOk result (λ status. status ≡ status_of None) }
{
    let text = Text::new(alloc, "")?;
    Ok(EntryStatus { code: 0, text })
}

fn refused_status(alloc: Global, refusal: Refusal) -> Result<EntryStatus, OutOfMemory>
    ensures { IfOk result (λ status. status ≡ status_of (Some refusal)) }
{
    let text = Text::new(alloc, refusal.text())?;
    let code = refusal.code();
    Ok(EntryStatus { code, text })
}
