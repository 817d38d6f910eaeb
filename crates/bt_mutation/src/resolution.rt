//! Mutations, resolved at the moment of their request.
ghost use Rattle.std.specs.Prelude.{◌≡◌, ◌≤◌, length, IsTrue, IfOk};
ghost use Rattle.std.specs.List.{AllByRecursion};
ghost use Rattle.bt_types.specs.Grammar.{is_family_name, is_qualifier};
ghost use Rattle.bt_types.specs.Time.{is_micros};
ghost use Rattle.bt_entry.specs.Grammar.{IsSpellableMutation, last_moment};
ghost use Rattle.bt_mutation.specs.Checks.{IsResolvable, is_asked_time};
ghost use Rattle.bt_mutation.specs.Resolution.{resolved, resolved_mutation, time_used};

use crate::asked::SERVER_TIME;
use crate::{AskedMutation, AskedMutationList};
use bt_base::{Blob, OutOfMemory};
use bt_types::{FamilyName, Micros, Mutation, MutationList, Qualifier};
use std::alloc::Global;

/// The mutations as they are applied and logged. A `timestamp_micros` of -1 asks for the server's
/// time (`google.bigtable.v2.Mutation.SetCell`): it becomes `moment`, in microseconds since 1970,
/// cut down to a multiple of 1,000. Another timestamp stays. The list must be one that
/// `check_list` accepts. Values and qualifiers are moved, not copied. It fails only where an allocation is refused.
pub fn resolve(
    alloc: Global,
    list: AskedMutationList,
    moment: u64,
) -> Result<MutationList, OutOfMemory>
    requires lawful { AllByRecursion IsResolvable list }
    requires moment { moment ≤ last_moment }
    ensures exact { IfOk result (λ ms. ms ≡ resolved moment list) }
    ensures spellable { IfOk result (λ ms. AllByRecursion IsSpellableMutation ms) }
    ensures length { IfOk result (λ ms. length ms ≡ length list) }
{
    let mut mutations = MutationList::new(alloc);
    for asked in list.into_vec() {
        let mutation = resolve_mutation(alloc, asked, moment)?;
        mutations.push(mutation)?;
    }
    Ok(mutations)
}

fn resolve_mutation(
    alloc: Global,
    asked: AskedMutation,
    moment: u64,
) -> Result<Mutation, OutOfMemory>
    requires lawful { IsResolvable asked }
    requires moment { moment ≤ last_moment }
    ensures exact { IfOk result (λ m. m ≡ resolved_mutation moment asked) }
    ensures spellable { IfOk result (λ m. IsSpellableMutation m) }
{
    match asked {
        AskedMutation::SetCell {
            family,
            qualifier,
            at,
            value,
        } => Ok(Mutation::SetCell {
            family: lawful_family(alloc, family.bytes())?,
            qualifier: lawful_qualifier(qualifier),
            at: time_used(at, moment),
            value,
        }),
        AskedMutation::DeleteColumn {
            family,
            qualifier,
            start,
            end,
        } => Ok(Mutation::DeleteColumn {
            family: lawful_family(alloc, family.bytes())?,
            qualifier: lawful_qualifier(qualifier),
            start: start as u64,
            end: end as u64,
        }),
        AskedMutation::DeleteFamily { family } => Ok(Mutation::DeleteFamily {
            family: lawful_family(alloc, family.bytes())?,
        }),
        AskedMutation::DeleteRow => Ok(Mutation::DeleteRow),
        AskedMutation::Missing => unreachable!(),
    }
}

fn lawful_family(alloc: Global, bytes: &[u8]) -> Result<FamilyName, OutOfMemory>
    requires { IsTrue (is_family_name bytes.now) }
    ensures { IfOk result (λ name. name ≡ bytes.now) }
{
    match FamilyName::from_bytes(alloc, bytes)? {
        Some(name) => Ok(name),
        None => unreachable!(),
    }
}

fn lawful_qualifier(bytes: Blob) -> Qualifier
    requires { IsTrue (is_qualifier bytes) }
    ensures { result ≡ bytes }
{
    match Qualifier::from_blob(bytes) {
        Some(name) => name,
        None => unreachable!(),
    }
}

fn time_used(at: i64, moment: u64) -> Micros
    requires asked { IsTrue (is_asked_time at) }
    requires moment { moment ≤ last_moment }
    ensures { result ≡ time_used moment at }
{
    let used = if at == SERVER_TIME {
        (moment - moment % 1000) as i64
    } else {
        at
    };
    match Micros::new(used) {
        Some(micros) => micros,
        None => unreachable!(),
    }
}
