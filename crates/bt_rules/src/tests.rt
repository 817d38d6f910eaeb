use crate::condemned::condemns_at;
use crate::{BadRule, Rule, RuleList, check_rule, keep_count};
use bt_base::{Blob, Plain};
use bt_types::{Cell, CellList, FamilyName, Micros, Qualifier};
use std::alloc::Global;
use std::test::Fail;

fn cell(alloc: Global, at: i64) -> Result<Cell, Fail> {
    Ok(Cell::plain(
        FamilyName::new(alloc, "f")?.ok_or("family")?,
        Qualifier::new(alloc, b"q")?.ok_or("qualifier")?,
        Micros::new(at).ok_or("timestamp")?,
        Blob::new(alloc, b"v")?,
    ))
}

// All but the two newest cells, as soon as they are older than a millisecond.
fn two_and_a_millisecond(alloc: Global) -> Result<Rule, Fail> {
    let mut rules = RuleList::new(alloc);
    rules.push(Rule::Versions(2))?;
    rules.push(Rule::Age(1000))?;
    Ok(Rule::Intersection(rules))
}

#[test]
fn a_cell_is_condemned_once_it_is_older(rt: HostRuntime) -> Result<(), Fail> {
    let alloc = rt.alloc();
    let rule = two_and_a_millisecond(alloc)?.copy(alloc)?;
    let mut column = CellList::new(alloc);
    for at in [4000, 3000, 2000, 1000] {
        column.push(cell(alloc, at)?)?;
    }
    let cells = column.items();
    for place in 0..cells.len() {
        assert!(rt; !condemns_at(&rule, cells, place, 2000));
        assert_eq!(rt; condemns_at(&rule, cells, place, 2001), place == 3);
    }
    assert_eq!(rt; keep_count(Some(&rule), &[], 2001), 0);
    Ok(())
}

#[test]
fn lists_without_rules_are_bad(rt: HostRuntime) -> Result<(), Fail> {
    let alloc = rt.alloc();
    assert!(rt; check_rule(&two_and_a_millisecond(alloc)?).is_ok());
    assert!(rt; matches!(check_rule(&Rule::Union(RuleList::new(alloc))), Err(BadRule)));
    Ok(())
}
