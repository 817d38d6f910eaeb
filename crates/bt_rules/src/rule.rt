//! The tree of a rule.
ghost use Rattle.std.specs.Prelude.{◌≡◌, IfOk};

use bt_base::{OutOfMemory, Plain};
use sqlite_items::Items;
use std::alloc::Global;

/// Rules, in the order of the request.
pub type RuleList = Items<Rule>;

/// Which cells of a column are condemned, that is, may be let go
/// (`google.bigtable.admin.v2.GcRule`).
#[derive(Debug, Drop)]
pub enum Rule {
    /// All but so many of the newest cells.
    Versions(u32),
    /// The cells that are older than so many microseconds.
    Age(u64),
    /// The cells that each of these rules condemns.
    Intersection(RuleList),
    /// The cells that at least one of these rules condemns.
    Union(RuleList),
}

impl Plain for Rule {
    fn copy(&self, alloc: Global) -> Result<Rule, OutOfMemory> {
        rule_copy(alloc, self)
    }
}

#[cycle(rule_copy)]
fn rule_copy(alloc: Global, rule: &Rule) -> Result<Rule, OutOfMemory>
    ensures { IfOk result (λ copy. copy ≡ rule.now) }
{
    match rule {
        Rule::Versions(count) => Ok(Rule::Versions(*count)),
        Rule::Age(age) => Ok(Rule::Age(*age)),
        Rule::Intersection(rules) => {
            let rules = list_copy(alloc, rules.as_slice())?;
            Ok(Rule::Intersection(rules))
        }
        Rule::Union(rules) => {
            let rules = list_copy(alloc, rules.as_slice())?;
            Ok(Rule::Union(rules))
        }
    }
}

#[cycle(rule_copy)]
fn list_copy(alloc: Global, rules: &[Rule]) -> Result<RuleList, OutOfMemory>
    ensures { IfOk result (λ copy. copy ≡ rules.now) }
{
    let mut copy = Items::new(alloc);
    for rule in rules {
        let item = rule_copy(alloc, rule)?;
        copy.push(item)?;
    }
    Ok(copy)
}
