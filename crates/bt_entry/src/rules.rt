//! Rules of collection, read from the left.
ghost use Rattle.std.specs.Prelude.{◌≡◌, ◌+◌, ◌-◌, ◌≤◌, ◌&&◌, nat_le, map, sum, IfOk};
ghost use Rattle.std.specs.Int.{w8, w64};
ghost use Rattle.bt_rules.specs.Rules.{count_of};
ghost use Rattle.bt_codec.specs.Reading.{Gives, many_at, number_with};
ghost use Rattle.bt_entry.specs.Reading.{left_behind, node_at, parts_at, rule_at, rule_or_none_at};

use bt_codec::{Fault, count_at, u8_at, u64_at};
use bt_rules::{Rule, RuleList};
use std::alloc::Global;

const MOST_LEVELS: usize = 8;

const MOST_NODES: usize = 32;

const LEAST_AGE: u64 = 1000;

#[tactic(auto, unfolding(crate::specs::Reading::rule_or_none_at))]
pub(crate) fn rule_or_none_at(alloc: Global, bytes: &[u8]) -> Result<(Option<Rule>, &[u8]), Fault>
    ensures { Gives (λ x. (x.0, x.1.now)) result (rule_or_none_at bytes.now) }
{
    let (tag, rest) = u8_at(bytes)?;
    if tag == 0 {
        return Ok((None, rest));
    }
    let (rule, _, rest) = rule_at(alloc, MOST_LEVELS, MOST_NODES - 1, bytes)?;
    Ok((Some(rule), rest))
}

// A rule of at most so many levels. So many nodes may still come that no list has counted yet; the
// second part of the answer is how many of them may come behind the rule.
#[cycle(rule_at)]
fn rule_at(
    alloc: Global,
    levels: usize,
    left: usize,
    bytes: &[u8],
) -> Result<(Rule, usize, &[u8]), Fault>
    ensures read { Gives (λ x. (x.0, x.2.now)) result (rule_at levels left bytes.now) }
    ensures left { IfOk result (λ x. x.1 ≡ left_behind left x.0) }
{
    if levels == 0 {
        return Err(Fault::Bad { left: bytes.len() });
    }
    node_at(alloc, levels - 1, left, bytes)
}

// A rule with parts of at most so many levels.
#[cycle(rule_at)]
#[tactic(auto, unfolding(crate::specs::Reading::node_at, crate::specs::Reading::versions_at, crate::specs::Reading::age_at))]
fn node_at(
    alloc: Global,
    levels: usize,
    left: usize,
    bytes: &[u8],
) -> Result<(Rule, usize, &[u8]), Fault>
    ensures read { Gives (λ x. (x.0, x.2.now)) result (node_at (rule_at levels) left bytes.now) }
    ensures left { IfOk result (λ x. x.1 ≡ left_behind left x.0) }
{
    let (tag, rest) = u8_at(bytes)?;
    match tag {
        1 => {
            let (count, rest) = count_at(rest)?;
            Ok((Rule::Versions(count), left, rest))
        }
        2 => {
            let (age, rest) = age_at(rest)?;
            Ok((Rule::Age(age), left, rest))
        }
        3 => {
            let (parts, left, rest) = parts_at(alloc, levels, left, rest)?;
            Ok((Rule::Intersection(parts), left, rest))
        }
        4 => {
            let (parts, left, rest) = parts_at(alloc, levels, left, rest)?;
            Ok((Rule::Union(parts), left, rest))
        }
        _ => Err(Fault::Bad { left: bytes.len() }),
    }
}

#[cycle(rule_at)]
#[tactic(auto, unfolding(crate::specs::Reading::parts_at))]
fn parts_at(
    alloc: Global,
    levels: usize,
    left: usize,
    bytes: &[u8],
) -> Result<(RuleList, usize, &[u8]), Fault>
    ensures read { Gives (λ x. (x.0, x.2.now)) result (parts_at (rule_at levels) left bytes.now) }
    ensures left { IfOk result (λ x. x.1 ≡ left - sum (map count_of x.0)) }
{
    let (count, rest) = part_count_at(left, bytes)?;
    let (parts, left, rest) = rules_at(alloc, levels, left - count as usize, count, rest)?;
    Ok((parts, left, rest))
}

#[cycle(rule_at)]
fn rules_at(
    alloc: Global,
    levels: usize,
    left: usize,
    count: u8,
    bytes: &[u8],
) -> Result<(RuleList, usize, &[u8]), Fault>
    ensures read { Gives (λ x. (x.0, x.2.now)) result (many_at (rule_at levels) left_behind left count bytes.now) }
    ensures left { IfOk result (λ x. x.1 ≡ left + count - sum (map count_of x.0)) }
{
    let mut rules = RuleList::new(alloc);
    let mut nodes = left;
    let mut rest = bytes;
    for _ in 0..count {
        let (rule, behind, after) = rule_at(alloc, levels, nodes, rest)?;
        rules.push(rule)?;
        nodes = behind;
        rest = after;
    }
    Ok((rules, nodes, rest))
}

// How many rules a list has: at least one, and no more than nodes are left.
#[tactic(auto, unfolding(bt_codec::specs::Reading::number_with))]
fn part_count_at(left: usize, bytes: &[u8]) -> Result<(u8, &[u8]), Fault>
    ensures read { Gives (λ x. (x.0, x.1.now)) result (number_with w8 (λ n. nat_le 1 n && nat_le n left) bytes.now) }
    ensures within { IfOk result (λ x. x.0 ≤ left) }
{
    let (count, rest) = u8_at(bytes)?;
    if count == 0 || left < count as usize {
        return Err(Fault::Bad { left: bytes.len() });
    }
    Ok((count, rest))
}

#[tactic(auto, unfolding(bt_codec::specs::Reading::number_with))]
fn age_at(bytes: &[u8]) -> Result<(u64, &[u8]), Fault>
    ensures { Gives (λ x. (x.0, x.1.now)) result (number_with w64 (λ n. nat_le 1000 n) bytes.now) }
{
    let (age, rest) = u64_at(bytes)?;
    if age < LEAST_AGE {
        return Err(Fault::Bad { left: bytes.len() });
    }
    Ok((age, rest))
}
