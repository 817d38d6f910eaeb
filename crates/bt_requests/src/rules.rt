//! Rules of collection as requests ask for them (`google.bigtable.admin.v2.GcRule`).
ghost use Rattle.std.specs.Prelude.{◌≡◌, [], IfOk, unwrap_or};
ghost use Rattle.bt_json.specs.View.{view};
ghost use Rattle.bt_rules.specs.declared.rule.Rule.TheVariants.{Versions, Age, Union};
ghost use Rattle.bt_requests.specs.Rules.{at_least_zero, rules_in, kind_in, rule_in, rule_of_family};
ghost use Rattle.bt_members.specs.Values.{int32_or_zero, micros_or_zero};

use bt_base::OutOfMemory;
use bt_json::Value;
use bt_members::{int32_or_zero, items_at, micros_or_zero, names, value_at};
use bt_rules::{Rule, RuleList};
use std::alloc::Global;

const MOST_LEVELS: u8 = 8;

/// The rule of a `ColumnFamily`, or `None` where it has none, or one without a kind.
pub(crate) fn rule_of_family(alloc: Global, value: &Value<'_>) -> Result<Option<Rule>, OutOfMemory>
    ensures { IfOk result (λ r. r ≡ rule_of_family (view value.now)) }
{
    match value_at(value, names::GC_RULE) {
        Some(found) => rule_in(alloc, MOST_LEVELS, found),
        None => Ok(None),
    }
}

// The first levels of a rule.
#[tactic(auto, using(crate::proofs::RuleLevels::no_level, crate::proofs::RuleLevels::one_level))]
#[cycle(rule_in)]
fn rule_in(alloc: Global, levels: u8, value: &Value<'_>) -> Result<Option<Rule>, OutOfMemory>
    ensures { IfOk result (λ r. r ≡ rule_in levels (view value.now)) }
{
    if levels == 0 {
        return Ok(None);
    }
    kind_in(alloc, levels - 1, value)
}

// By the kind that is set, with so many levels below it.
#[cycle(rule_in)]
fn kind_in(alloc: Global, below: u8, value: &Value<'_>) -> Result<Option<Rule>, OutOfMemory>
    ensures { IfOk result (λ r. r ≡ kind_in (rule_in below) (view value.now)) }
{
    if let Some(found) = value_at(value, names::MAX_NUM_VERSIONS) {
        return Ok(Some(versions_in(alloc, found)?));
    }
    if let Some(found) = value_at(value, names::MAX_AGE) {
        return Ok(Some(age_in(alloc, found)?));
    }
    if let Some(found) = value_at(value, names::INTERSECTION) {
        return Ok(Some(Rule::Intersection(rules_in(alloc, below, found)?)));
    }
    if let Some(found) = value_at(value, names::UNION) {
        return Ok(Some(Rule::Union(rules_in(alloc, below, found)?)));
    }
    Ok(None)
}

#[cycle(rule_in)]
fn rules_in(alloc: Global, levels: u8, value: &Value<'_>) -> Result<RuleList, OutOfMemory>
    ensures { IfOk result (λ list. list ≡ rules_in (rule_in levels) (view value.now)) }
{
    let mut rules = RuleList::new(alloc);
    for item in items_at(value, names::RULES) {
        let rule = rule_in(alloc, levels, item)?;
        rules.push(or_empty_union(alloc, rule))?;
    }
    Ok(rules)
}

fn or_empty_union(alloc: Global, rule: Option<Rule>) -> Rule
    ensures { result ≡ unwrap_or rule (Union []) }
{
    match rule {
        Some(rule) => rule,
        None => Rule::Union(RuleList::new(alloc)),
    }
}

fn versions_in(alloc: Global, value: &Value<'_>) -> Result<Rule, OutOfMemory>
    ensures { IfOk result (λ r. r ≡ Versions (at_least_zero (int32_or_zero (view value.now)))) }
{
    let count = int32_or_zero(alloc, value)?;
    Ok(Rule::Versions(if count < 0 { 0 } else { count as u32 }))
}

fn age_in(alloc: Global, value: &Value<'_>) -> Result<Rule, OutOfMemory>
    ensures { IfOk result (λ r. r ≡ Age (at_least_zero (micros_or_zero (view value.now)))) }
{
    let micros = micros_or_zero(alloc, value)?;
    Ok(Rule::Age(if micros < 0 { 0 } else { micros as u64 }))
}
