//! Families that are to be made.
ghost use Rattle.std.specs.Prelude.{◌≡◌, IfOk, not};
ghost use Rattle.std.specs.Result.{result_err};
ghost use Rattle.bt_messages.specs.declared.refusal.Refusal.TheVariants as refusal;
ghost use Rattle.bt_plans.specs.NoPlans.{Refuses};
ghost use Rattle.bt_plans.specs.Replies.{refused_if};
ghost use Rattle.bt_rules.specs.Rules.{is_lawful_or_none};
ghost use Rattle.bt_table_replies.specs.Tables.{families_of, family_refusal, first_bad_family};
ghost use Rattle.bt_types.specs.Grammar.{is_family_name, lawful};

use bt_base::OutOfMemory;
use bt_messages::Refusal;
use bt_plans::NoPlan;
use bt_requests::{AskedFamily, AskedFamilyList};
use bt_rules::{Families, Family, Rule, check_rule};
use bt_types::FamilyName;
use std::alloc::Global;

/// A table has no more families, which is this service's own limit.
pub(crate) const MOST_FAMILIES: usize = 100;

/// The families of a new table, where each name and each rule is lawful.
pub(crate) fn lawful_families(alloc: Global, asked: AskedFamilyList) -> Result<Families, NoPlan>
    ensures refusal { Refuses (first_bad_family asked) result }
    ensures families { IfOk result (λ fs. fs ≡ families_of asked) }
{
    let mut families = Families::new(alloc);
    for family in asked.into_vec() {
        families.push(lawful_family(alloc, family)?)?;
    }
    Ok(families)
}

fn lawful_family(alloc: Global, asked: AskedFamily) -> Result<Family, NoPlan>
    ensures refusal { Refuses (family_refusal asked) result }
    ensures family { IfOk result (λ f. f ≡ record { name = asked.name; rule = asked.rule }) }
{
    let name = lawful_name(alloc, asked.name.bytes())?;
    let rule = lawful_rule(asked.rule)?;
    Ok(Family { name, rule })
}

/// The name that the bytes are, where they are one.
pub(crate) fn lawful_name(alloc: Global, bytes: &[u8]) -> Result<FamilyName, NoPlan>
    ensures refusal { Refuses (refused_if (not (is_family_name bytes.now)) refusal.BadFamilyName) result }
    ensures name { IfOk result (λ name. name ≡ bytes.now) }
{
    match FamilyName::from_bytes(alloc, bytes)? {
        Some(name) => Ok(name),
        None => Err(NoPlan::Refused(Refusal::BadFamilyName)),
    }
}

/// The rule, where it is lawful or there is none.
pub(crate) fn lawful_rule(asked: Option<Rule>) -> Result<Option<Rule>, Refusal>
    ensures refusal { result_err result ≡ refused_if (not (is_lawful_or_none asked)) refusal.BadGcRule }
    ensures rule { IfOk result (λ rule. rule ≡ asked) }
{
    let Some(rule) = asked else {
        return Ok(None);
    };
    match check_rule(&rule) {
        Ok(()) => Ok(Some(rule)),
        Err(_) => Err(Refusal::BadGcRule),
    }
}
