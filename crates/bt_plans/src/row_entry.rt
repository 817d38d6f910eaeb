//! The entry of a row whose mutations are asked for.
ghost use Rattle.std.specs.Prelude.{◌≡◌, ◌≤◌, false, None, IfOk, OnOk, length, option_map};
ghost use Rattle.std.specs.List.{AllByRecursion};
ghost use Rattle.std.specs.Result.{result_err};
ghost use Rattle.bt_entry.specs.Grammar.{IsSpellableEntry, last_moment};
ghost use Rattle.bt_entry.specs.declared.entry.Entry.TheVariants.{Row};
ghost use Rattle.bt_mutation.specs.Checks.{IsResolvable, list_refusal};
ghost use Rattle.bt_mutation.specs.Resolution.{resolved};
ghost use Rattle.bt_plans.specs.NoPlans.{Refuses};
ghost use Rattle.bt_plans.specs.RowEntries.{most_mutations, mutate_refusal, refusal_for};

use crate::no_plan::NoPlan;
use crate::plan::incarnation_of;
use bt_base::Blob;
use bt_entry::{Entry, TableInfo};
use bt_messages::Refusal;
use bt_mutation::{AskedMutation, AskedMutationList, MutationRefusal, check_list, resolve};
use bt_rules::Families;
use bt_types::RowKey;
use std::alloc::Global;

/// A request has no more mutations (`google.bigtable.v2.MutateRowRequest.mutations`,
/// `google.bigtable.v2.MutateRowsRequest.entries`).
pub const MOST_MUTATIONS: u32 = 100_000;

/// Mutations of the row at a key of the table, in order, all or none. What it is given is moved,
/// but for the names of families.
pub fn row_entry(
    alloc: Global,
    table: &TableInfo,
    key: Blob,
    mutations: AskedMutationList,
    moment: u64,
) -> Result<Entry, NoPlan>
    requires { moment ≤ last_moment }
    ensures refusal { Refuses (mutate_refusal key mutations table.now) result }
    ensures entry { IfOk result (λ e. e ≡ Row table.now.incarnation key false (resolved moment mutations)) }
    ensures spellable { IfOk result IsSpellableEntry }
{
    let Some(key) = RowKey::from_blob(key) else {
        return Err(NoPlan::Refused(Refusal::BadRowKey));
    };
    check_mutations(mutations.items(), &table.families)?;
    let mutations = resolve(alloc, mutations, moment)?;
    Ok(Entry::Row {
        incarnation: incarnation_of(table),
        key,
        by_rule: false,
        mutations,
    })
}

/// Checks mutations of a row against the families of its table. No memory is taken.
pub fn check_mutations(mutations: &[AskedMutation], families: &Families) -> Result<(), Refusal>
    ensures exact { result_err result ≡ option_map refusal_for (list_refusal families.now most_mutations mutations.now) }
    ensures lawful { OnOk result (AllByRecursion IsResolvable mutations.now) }
    ensures some { OnOk result ((1 ≤ length mutations.now) × (length mutations.now ≤ most_mutations)) }
{
    match check_list(mutations, families, MOST_MUTATIONS) {
        Ok(()) => Ok(()),
        Err(refusal) => Err(refusal_for(refusal)),
    }
}

fn refusal_for(refusal: MutationRefusal) -> Refusal
    ensures { result ≡ refusal_for refusal }
{
    match refusal {
        MutationRefusal::NoMutations => Refusal::NoMutations,
        MutationRefusal::TooMany => Refusal::TooManyMutations,
        MutationRefusal::Kind { .. } => Refusal::MutationWithoutKind,
        MutationRefusal::UnknownFamily { .. } => Refusal::FamilyNotFound,
        MutationRefusal::LongQualifier { .. } => Refusal::QualifierTooLong,
        MutationRefusal::BadTimestamp { .. } => Refusal::BadTimestamp,
        MutationRefusal::TooLarge { .. } => Refusal::ValueTooLarge,
        MutationRefusal::BadTimeRange { .. } => Refusal::BadTimeRange,
    }
}
