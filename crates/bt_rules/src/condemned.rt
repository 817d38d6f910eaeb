//! Which cells a rule condemns.
ghost use Rattle.std.specs.Prelude.{◌≡◌, ◌<◌, ◌++◌, Bool, Some, length, map, take, drop, filter, slice_get};
ghost use Rattle.std.specs.Option.{option_copied};
ghost use Rattle.bt_types.specs.declared.cell.Cell.{Cell};
ghost use Rattle.bt_rules.specs.Rules as spec;

use crate::Rule;
use bt_types::Cell;

#[cycle(condemns)]
fn condemns(rule: &Rule, place: usize, at: u64, moment: u64) -> bool
    ensures { result ≡ spec.condemns place at moment rule.now }
{
    match rule {
        Rule::Versions(count) => *count as usize <= place,
        Rule::Age(age) => at < moment.saturating_sub(*age),
        Rule::Intersection(rules) => all_condemn(rules.as_slice(), place, at, moment),
        Rule::Union(rules) => any_condemns(rules.as_slice(), place, at, moment),
    }
}

#[cycle(condemns)]
fn all_condemn(rules: &[Rule], place: usize, at: u64, moment: u64) -> bool
    ensures { result ≡ spec.all_of (map (spec.condemns place at moment) rules.now) }
{
    for rule in rules {
        if !condemns(rule, place, at, moment) {
            return false;
        }
    }
    true
}

#[cycle(condemns)]
fn any_condemns(rules: &[Rule], place: usize, at: u64, moment: u64) -> bool
    ensures { result ≡ spec.any_of (map (spec.condemns place at moment) rules.now) }
{
    for rule in rules {
        if condemns(rule, place, at, moment) {
            return true;
        }
    }
    false
}

/// How many cells of a column the rule does not condemn at that moment, in microseconds. They are
/// the first ones. Without a rule it is all of them. If any of the others are let go, the rest of
/// them are still condemned, and the first ones still are not. It takes no memory, and asks the
/// rule about no more cells than the column's length has binary digits.
pub fn keep_count(rule: Option<&Rule>, column: &[Cell], moment: u64) -> usize
    requires { spec.IsColumn column.now }
    ensures exact { spec.Splits (option_copied rule.entry) moment column.now result }
    ensures again { (keeps : Cell → Bool) → spec.Splits (option_copied rule.entry) moment (take result column.now ++ filter keeps (drop result column.now)) result }
{
    match rule {
        Some(rule) => kept_by(rule, column, moment),
        None => column.len(),
    }
}

// Half of the cells that are left is put aside at each step.
fn kept_by(rule: &Rule, column: &[Cell], moment: u64) -> usize
    requires { spec.IsColumn column.now }
    ensures { spec.Splits (Some rule.now) moment column.now result }
{
    let mut low = 0;
    let mut high = column.len();
    while low < high {
        let middle = low + (high - low) / 2;
        if condemns_at(rule, column, middle, moment) {
            high = middle;
        } else {
            low = middle + 1;
        }
    }
    low
}

pub(crate) fn condemns_at(rule: &Rule, column: &[Cell], place: usize, moment: u64) -> bool
    requires { place < length column.now }
    ensures { (c : Cell) → slice_get column.now place ≡ Some c → result ≡ spec.is_condemned (Some rule.now) place c.at moment }
{
    let at = column[place].at.number();
    condemns(rule, place, at as u64, moment)
}
