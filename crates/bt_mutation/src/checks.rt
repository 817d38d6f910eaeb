//! The rules of a list of mutations, which are checked before it is resolved.
ghost use Rattle.std.specs.Prelude.{◌≡◌, ◌+◌, ◌^◌, ◌<◌, ◌≤◌, length, IsTrue, OnOk};
ghost use Rattle.std.specs.List.{AllByRecursion};
ghost use Rattle.std.specs.Result.{result_err};
ghost use Rattle.bt_types.specs.Grammar.{is_family_name, is_qualifier};
ghost use Rattle.bt_mutation.specs.Checks.{IsResolvable, column_refusal, family_refusal, first_refusal, has_family, is_asked_time, list_refusal, mutation_refusal};

use crate::asked::SERVER_TIME;
use crate::{AskedMutation, MutationRefusal};
use bt_rules::{Families, Family};

const MOST_OF_QUALIFIER: usize = 16_384;

const MOST_OF_VALUE: usize = 4_194_304;

/// Checks the mutations of one row against the families of its table, before they are resolved. The
/// list must have from 1 to `at_most` mutations (`google.bigtable.v2.MutateRowRequest.mutations`).
/// Each, in order, must have a kind, the name of one of the families, a qualifier of at most 16,384
/// bytes, a timestamp that is -1 (the server's time) or a multiple of 1,000 microseconds from 0 on,
/// a value of at most 4,194,304 bytes, and times to be removed that are not negative. The answer is
/// the first fault. No memory is taken.
pub fn check_list(
    list: &[AskedMutation],
    families: &Families,
    at_most: u32,
) -> Result<(), MutationRefusal>
    ensures exact { result_err result ≡ list_refusal families.now at_most list.now }
    ensures lawful { OnOk result (AllByRecursion IsResolvable list.now) }
    ensures some { OnOk result ((1 ≤ length list.now) × (length list.now ≤ at_most)) }
{
    if list.is_empty() {
        return Err(MutationRefusal::NoMutations);
    }
    if list.len() > at_most as usize {
        return Err(MutationRefusal::TooMany);
    }
    check_each(list, families.items())?;
    Ok(())
}

fn check_each(list: &[AskedMutation], families: &[Family]) -> Result<(), MutationRefusal>
    requires { length list.now < 2 ^ 32 }
    ensures exact { result_err result ≡ first_refusal families.now 0 list.now }
    ensures lawful { OnOk result (AllByRecursion IsResolvable list.now) }
{
    for (index, mutation) in list.iter().enumerate() {
        check_mutation(mutation, families, index as u32)?;
    }
    Ok(())
}

fn check_mutation(
    mutation: &AskedMutation,
    families: &[Family],
    index: u32,
) -> Result<(), MutationRefusal>
    ensures exact { result_err result ≡ mutation_refusal families.now index mutation.now }
    ensures lawful { OnOk result (IsResolvable mutation.now) }
{
    match mutation {
        AskedMutation::SetCell {
            family,
            qualifier,
            at,
            value,
        } => {
            check_column(families, family.bytes(), qualifier.bytes(), index)?;
            if !is_asked_time(*at) {
                return Err(MutationRefusal::BadTimestamp { index });
            }
            if value.bytes().len() > MOST_OF_VALUE {
                return Err(MutationRefusal::TooLarge { index });
            }
            Ok(())
        }
        AskedMutation::DeleteColumn {
            family,
            qualifier,
            start,
            end,
        } => {
            check_column(families, family.bytes(), qualifier.bytes(), index)?;
            if *start < 0 || *end < 0 {
                return Err(MutationRefusal::BadTimeRange { index });
            }
            Ok(())
        }
        AskedMutation::DeleteFamily { family } => check_family(families, family.bytes(), index),
        AskedMutation::DeleteRow => Ok(()),
        AskedMutation::Missing => Err(MutationRefusal::Kind { index }),
    }
}

fn check_column(
    families: &[Family],
    family: &[u8],
    qualifier: &[u8],
    index: u32,
) -> Result<(), MutationRefusal>
    ensures exact { result_err result ≡ column_refusal families.now index family.now qualifier.now }
    ensures lawful { OnOk result (IsTrue (is_family_name family.now) × IsTrue (is_qualifier qualifier.now)) }
{
    check_family(families, family, index)?;
    if qualifier.len() > MOST_OF_QUALIFIER {
        return Err(MutationRefusal::LongQualifier { index });
    }
    Ok(())
}

fn check_family(families: &[Family], family: &[u8], index: u32) -> Result<(), MutationRefusal>
    ensures exact { result_err result ≡ family_refusal families.now index family.now }
    ensures lawful { OnOk result (IsTrue (is_family_name family.now)) }
{
    if !has_family(families, family) {
        return Err(MutationRefusal::UnknownFamily { index });
    }
    Ok(())
}

/// Whether some family has this name, which is then lawful, by the type of families.
pub fn has_family(families: &[Family], name: &[u8]) -> bool
    ensures value { result ≡ has_family families.now name.now }
    ensures lawful { IsTrue result → IsTrue (is_family_name name.now) }
{
    for family in families {
        if family.name.bytes() == name {
            return true;
        }
    }
    false
}

fn is_asked_time(at: i64) -> bool
    ensures { result ≡ is_asked_time at }
{
    at == SERVER_TIME || (at >= 0 && at % 1000 == 0)
}
