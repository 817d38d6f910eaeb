//! The JSON of rules of collection.
ghost use Rattle.std.specs.Prelude.{◌≡◌, map, IfOk};
ghost use Rattle.serde_json.specs.View.{view};
ghost use Rattle.bt_messages.specs.Responses.{shown_rule, shown_rules};

use bt_base::OutOfMemory;
use bt_rules::Rule;
use bt_text::print_duration;
use serde_json::{Value, json};
use std::alloc::Global;

#[cycle(rule_value)]
pub(crate) fn rule_value(alloc: Global, rule: &Rule) -> Result<Value, OutOfMemory>
    ensures { IfOk result (λ v. view v ≡ shown_rule rule.now) }
{
    match rule {
        Rule::Versions(count) => {
            let value = json!(in alloc; {"maxNumVersions": *count})?;
            Ok(value)
        }
        Rule::Age(age) => {
            let age = print_duration(alloc, *age)?;
            let value = json!(in alloc; {"maxAge": age})?;
            Ok(value)
        }
        Rule::Intersection(rules) => {
            let rules = rules_value(alloc, rules.as_slice())?;
            let value = json!(in alloc; {"intersection": rules})?;
            Ok(value)
        }
        Rule::Union(rules) => {
            let rules = rules_value(alloc, rules.as_slice())?;
            let value = json!(in alloc; {"union": rules})?;
            Ok(value)
        }
    }
}

#[cycle(rule_value)]
fn rules_value(alloc: Global, rules: &[Rule]) -> Result<Value, OutOfMemory>
    ensures { IfOk result (λ v. view v ≡ shown_rules (map shown_rule rules.now)) }
{
    let mut items = Vec::with_capacity(alloc, rules.len())?;
    for rule in rules {
        let item = rule_value(alloc, rule)?;
        items.push(item)?;
    }
    let value = json!(in alloc; {"rules": Value::Array(items)})?;
    Ok(value)
}
