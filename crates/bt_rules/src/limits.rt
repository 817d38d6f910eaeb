//! Which rules a column family may have.
ghost use Rattle.std.specs.Prelude.{◌≡◌, ◌↔◌, IsTrue, IsOk, map};
ghost use Rattle.bt_rules.specs.Rules as spec;

use crate::Rule;

const LEAST_AGE: u64 = 1000;

const MOST_LEVELS: usize = 8;

const MOST_NODES: usize = 32;

/// The rule is outside the limits of rules.
#[derive(Clone, Copy, Debug, PartialEq, Eq)]
pub struct BadRule;

/// `BadRule` exactly where a number of versions is below 1, an age is below 1,000 microseconds, an
/// intersection or a union is empty, the tree has more than 32 nodes, or its depth is above 8. A
/// rule of one node has depth 1. It takes no memory, and looks at no more than 33 nodes and 8
/// levels of any tree.
pub fn check_rule(rule: &Rule) -> Result<(), BadRule>
    ensures { IsOk result ↔ IsTrue (spec.is_lawful rule.now) }
{
    match nodes_left(rule, MOST_LEVELS, MOST_NODES) {
        Some(_) => Ok(()),
        None => Err(BadRule),
    }
}

// How many of the nodes allowed are left, or `None` where the rule is outside the limits.
#[cycle(nodes_left)]
fn nodes_left(rule: &Rule, levels: usize, nodes: usize) -> Option<usize>
    ensures { result ≡ spec.nodes_left rule.now levels nodes }
{
    if levels == 0 || nodes == 0 {
        return None;
    }
    match rule {
        Rule::Versions(count) => {
            if *count < 1 {
                return None;
            }
            Some(nodes - 1)
        }
        Rule::Age(age) => {
            if *age < LEAST_AGE {
                return None;
            }
            Some(nodes - 1)
        }
        Rule::Intersection(rules) | Rule::Union(rules) => {
            if rules.is_empty() {
                return None;
            }
            nodes_left_by_all(rules.as_slice(), levels - 1, nodes - 1)
        }
    }
}

#[cycle(nodes_left)]
fn nodes_left_by_all(rules: &[Rule], levels: usize, nodes: usize) -> Option<usize>
    ensures { result ≡ spec.nodes_left_by_all rules.now levels nodes }
{
    let mut left = nodes;
    for rule in rules {
        left = nodes_left(rule, levels, left)?;
    }
    Some(left)
}
