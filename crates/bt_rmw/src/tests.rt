use super::*;
use bt_base::Blob;
use bt_rules::{Families, Family};
use bt_types::{Cell, CellList, FamilyName, Micros, Qualifier};
use std::alloc::Global;
use std::test::Fail;

// A rule for the column f:q.
fn rule(alloc: Global, action: Action) -> Result<ModifyRule, Fail> {
    Ok(ModifyRule {
        family: FamilyName::new(alloc, "f")?.ok_or("family")?,
        qualifier: Qualifier::new(alloc, b"q")?.ok_or("qualifier")?,
        action,
    })
}

fn append(alloc: Global, bytes: &[u8]) -> Result<ModifyRule, Fail> {
    rule(alloc, Action::Append(Blob::new(alloc, bytes)?))
}

// The latest cell of f:q.
fn cell(alloc: Global, at: i64, value: &[u8]) -> Result<Cell, Fail> {
    Ok(Cell::plain(
        FamilyName::new(alloc, "f")?.ok_or("family")?,
        Qualifier::new(alloc, b"q")?.ok_or("qualifier")?,
        Micros::new(at).ok_or("time")?,
        Blob::new(alloc, value)?,
    ))
}

// What two rules make of f:q at 5 seconds and a part of a millisecond.
fn made(
    alloc: Global,
    first: ModifyRule,
    second: ModifyRule,
    latest: Option<Cell>,
) -> Result<Result<CellList, ModifyRefusal>, Fail> {
    let mut rules = ModifyRuleList::new(alloc);
    rules.push(first)?;
    rules.push(second)?;
    let mut cells = CellList::new(alloc);
    if let Some(cell) = latest {
        cells.push(cell)?;
    }
    Ok(modify(alloc, rules, cells, 5_000_999).map(|made| made.1))
}

fn read(cells: &CellList) -> Option<(i64, &[u8])> {
    match cells.items() {
        [cell] => Some((cell.at.number(), cell.value.bytes())),
        _ => None,
    }
}

#[test]
fn later_rules_see_what_earlier_ones_made(rt: HostRuntime) -> Result<(), Fail> {
    let alloc = rt.alloc();
    let none = made(alloc, append(alloc, b"a")?, append(alloc, b"b")?, None)??;
    assert_eq!(rt; read(&none), Some((5_000_000, b"ab".as_slice())));
    let later = cell(alloc, 9_000_000, b"x")?;
    let later = made(
        alloc,
        append(alloc, b"a")?,
        append(alloc, b"b")?,
        Some(later),
    )??;
    assert_eq!(rt; read(&later), Some((9_000_000, b"xab".as_slice())));
    Ok(())
}

// What an increment by 1 and then one by `amount` make of f:q.
fn counted(
    alloc: Global,
    amount: i64,
    latest: Option<Cell>,
) -> Result<Result<CellList, ModifyRefusal>, Fail> {
    let first = rule(alloc, Action::Increment(1))?;
    made(
        alloc,
        first,
        rule(alloc, Action::Increment(amount))?,
        latest,
    )
}

#[test]
fn eight_bytes_are_a_number(rt: HostRuntime) -> Result<(), Fail> {
    let alloc = rt.alloc();
    let none = counted(alloc, 255, None)??;
    assert_eq!(rt;
        read(&none),
        Some((5_000_000, b"\0\0\0\0\0\0\x01\0".as_slice()))
    );
    let lowest = cell(alloc, 0, b"\x80\0\0\0\0\0\0\0")?;
    let lowest = counted(alloc, -1, Some(lowest))??;
    assert_eq!(rt;
        read(&lowest),
        Some((5_000_000, b"\x80\0\0\0\0\0\0\0".as_slice()))
    );
    Ok(())
}

#[test]
fn the_rule_that_cannot_be_carried_out_is_named(rt: HostRuntime) -> Result<(), Fail> {
    let alloc = rt.alloc();
    let short = counted(alloc, 1, Some(cell(alloc, 0, b"\0\0\x01")?))?;
    assert_eq!(rt;
        short.err(),
        Some(ModifyRefusal::NotEightBytes { index: 0 })
    );
    let high = cell(alloc, 0, b"\x7f\xff\xff\xff\xff\xff\xff\xfe")?;
    let high = counted(alloc, 1, Some(high))?;
    assert_eq!(rt;
        high.err(),
        Some(ModifyRefusal::IncrementRange { index: 1 })
    );
    let low = cell(alloc, 0, b"\x80\0\0\0\0\0\0\0")?;
    let low = counted(alloc, -2, Some(low))?;
    assert_eq!(rt; low.err(), Some(ModifyRefusal::IncrementRange { index: 1 }));
    let full = rule(
        alloc,
        Action::Append(Blob::from_vec(vec![in alloc; b'v'; 4_194_304]?)),
    )?;
    let large = made(alloc, full, append(alloc, b"a")?, None)?;
    assert_eq!(rt;
        large.err(),
        Some(ModifyRefusal::ValueTooLarge { index: 1 })
    );
    Ok(())
}

// A rule as it was read, of so long a qualifier.
fn asked(
    alloc: Global,
    family: &[u8],
    qualifier: usize,
    action: Option<Action>,
) -> Result<AskedRule, Fail> {
    Ok(AskedRule {
        family: Blob::new(alloc, family)?,
        qualifier: Blob::from_vec(vec![in alloc; b'q'; qualifier]?),
        action,
    })
}

// The rules of a lawful one and this one, for a table that has f alone.
fn checked(
    alloc: Global,
    second: AskedRule,
    at_most: u32,
) -> Result<Result<ModifyRuleList, RulesRefusal>, Fail> {
    let name = FamilyName::new(alloc, "f")?.ok_or("family")?;
    let mut families = Families::new(alloc);
    families.push(Family { name, rule: None })?;
    let mut rules = AskedRuleList::new(alloc);
    rules.push(asked(alloc, b"f", 16_384, Some(Action::Increment(1)))?)?;
    rules.push(second)?;
    Ok(lawful_rules(alloc, rules, &families, at_most))
}

#[test]
fn the_first_fault_of_rules_is_named(rt: HostRuntime) -> Result<(), Fail> {
    let alloc = rt.alloc();
    let none = lawful_rules(alloc, AskedRuleList::new(alloc), &Families::new(alloc), 2);
    assert_eq!(rt; none.err(), Some(RulesRefusal::NoRules));
    let many = checked(alloc, asked(alloc, b"g", 16_385, None)?, 1)?;
    assert_eq!(rt; many.err(), Some(RulesRefusal::TooMany));
    let kind = checked(alloc, asked(alloc, b"g", 16_385, None)?, 2)?;
    assert_eq!(rt; kind.err(), Some(RulesRefusal::Kind { index: 1 }));
    let action = Some(Action::Increment(1));
    let unknown = checked(alloc, asked(alloc, b"g", 16_385, action)?, 2)?;
    assert_eq!(rt;
        unknown.err(),
        Some(RulesRefusal::UnknownFamily { index: 1 })
    );
    let action = Some(Action::Increment(1));
    let long = checked(alloc, asked(alloc, b"f", 16_385, action)?, 2)?;
    assert_eq!(rt; long.err(), Some(RulesRefusal::LongQualifier { index: 1 }));
    Ok(())
}

#[test]
fn each_column_stands_once(rt: HostRuntime) -> Result<(), Fail> {
    let alloc = rt.alloc();
    let action = Some(Action::Increment(1));
    let rules = checked(alloc, asked(alloc, b"f", 16_384, action)?, 2)??;
    let columns = columns_of(alloc, rules.items())?;
    assert_eq!(rt; columns.items().len(), 1);
    Ok(())
}
