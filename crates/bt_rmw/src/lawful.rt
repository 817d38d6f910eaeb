//! The rules of a request, checked.
ghost use Rattle.std.specs.Prelude.{◌≡◌, ◌≤◌, ◌<◌, ◌^◌, List, ◌∷◌, length, true, IfOk, OnOk, IsSome, IsTrue};
ghost use Rattle.std.specs.List.{AllByRecursion};
ghost use Rattle.std.specs.Result.{result_err};
ghost use Rattle.bt_types.specs.Grammar.{is_family_name, is_qualifier};
ghost use Rattle.bt_mutation.specs.Checks.{has_family};
ghost use Rattle.bt_rmw.specs.declared.rule.ModifyRule.{ModifyRule};
ghost use Rattle.bt_rmw.specs.Rules.{IsLawfulRule, RefusesRules, first_refusal, rule_refusal, rules_of, rules_refusal, with_action};

use crate::asked::{AskedRule, AskedRuleList};
use crate::refusal::RulesRefusal;
use crate::rule::{ModifyRule, ModifyRuleList};
use bt_base::{Blob, OutOfMemory};
use bt_mutation::has_family;
use bt_rules::{Families, Family};
use bt_types::{FamilyName, Qualifier};
use std::alloc::Global;

const MOST_OF_QUALIFIER: usize = 16_384;

/// Checks the rules of one row against the families of its table. The list must have from 1 to `at_most` rules
/// (`google.bigtable.v2.ReadModifyWriteRowRequest.rules`). Each, in order, must have a kind, the name of one of
/// the families, and a qualifier of at most 16,384 bytes. The answer is the first fault. What is appended is
/// moved, not copied.
pub fn lawful_rules(
    alloc: Global,
    rules: AskedRuleList,
    families: &Families,
    at_most: u32,
) -> Result<ModifyRuleList, RulesRefusal>
    ensures refusal { RefusesRules (rules_refusal families.now at_most rules) result }
    ensures rules { IfOk result (λ lawful. lawful ≡ rules_of rules) }
    ensures some { IfOk result (λ lawful. (1 ≤ length lawful) × (length lawful ≤ at_most)) }
    ensures families { IfOk result (λ lawful. AllByRecursion (λ rule. has_family families.now rule.family ≡ true) lawful) }
{
    check_rules(rules.items(), families.items(), at_most)?;
    let mut lawful = ModifyRuleList::new(alloc);
    for rule in rules.into_vec() {
        lawful.push(lawful_rule(alloc, rule)?)?;
    }
    Ok(lawful)
}

fn check_rules(rules: &[AskedRule], families: &[Family], at_most: u32) -> Result<(), RulesRefusal>
    ensures exact { result_err result ≡ rules_refusal families.now at_most rules.now }
    ensures some { OnOk result ((1 ≤ length rules.now) × (length rules.now ≤ at_most)) }
    ensures lawful { OnOk result (AllByRecursion (IsLawfulRule families.now) rules.now) }
{
    if rules.is_empty() {
        return Err(RulesRefusal::NoRules);
    }
    if rules.len() > at_most as usize {
        return Err(RulesRefusal::TooMany);
    }
    check_each(rules, families)
}

fn check_each(rules: &[AskedRule], families: &[Family]) -> Result<(), RulesRefusal>
    requires { length rules.now < 2 ^ 32 }
    ensures exact { result_err result ≡ first_refusal families.now 0 rules.now }
    ensures lawful { OnOk result (AllByRecursion (IsLawfulRule families.now) rules.now) }
{
    for (index, rule) in rules.iter().enumerate() {
        check_rule(rule, families, index as u32)?;
    }
    Ok(())
}

fn check_rule(rule: &AskedRule, families: &[Family], index: u32) -> Result<(), RulesRefusal>
    ensures exact { result_err result ≡ rule_refusal families.now index rule.now }
    ensures lawful { OnOk result (IsLawfulRule families.now rule.now) }
{
    if rule.action.is_none() {
        return Err(RulesRefusal::Kind { index });
    }
    if !has_family(families, rule.family.bytes()) {
        return Err(RulesRefusal::UnknownFamily { index });
    }
    if rule.qualifier.bytes().len() > MOST_OF_QUALIFIER {
        return Err(RulesRefusal::LongQualifier { index });
    }
    Ok(())
}

fn lawful_rule(alloc: Global, rule: AskedRule) -> Result<ModifyRule, OutOfMemory>
    requires family { IsTrue (is_family_name rule.family) }
    requires qualifier { IsTrue (is_qualifier rule.qualifier) }
    requires kind { IsSome rule.action }
    ensures family { IfOk result (λ lawful. lawful.family ≡ rule.family) }
    ensures rules { IfOk result (λ lawful. (rest : List ModifyRule) → with_action rule rule.action rest ≡ lawful ∷ rest) }
{
    let AskedRule {
        family,
        qualifier,
        action,
    } = rule;
    let Some(action) = action else { unreachable!() };
    Ok(ModifyRule {
        family: lawful_family(alloc, family.bytes())?,
        qualifier: lawful_qualifier(qualifier),
        action,
    })
}

fn lawful_family(alloc: Global, bytes: &[u8]) -> Result<FamilyName, OutOfMemory>
    requires { IsTrue (is_family_name bytes.now) }
    ensures { IfOk result (λ name. name ≡ bytes.now) }
{
    match FamilyName::from_bytes(alloc, bytes)? {
        Some(name) => Ok(name),
        None => unreachable!(),
    }
}

fn lawful_qualifier(bytes: Blob) -> Qualifier
    requires { IsTrue (is_qualifier bytes) }
    ensures { result ≡ bytes }
{
    match Qualifier::from_blob(bytes) {
        Some(name) => name,
        None => unreachable!(),
    }
}
