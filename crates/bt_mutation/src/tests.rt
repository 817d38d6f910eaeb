use super::*;
use bt_base::{Blob, Plain};
use bt_rules::{Families, Family};
use bt_types::{FamilyName, Mutation};
use std::alloc::Global;
use std::test::Fail;

// A cell of so long a qualifier and value.
fn cell(
    alloc: Global,
    family: &[u8],
    qualifier: usize,
    at: i64,
    value: usize,
) -> Result<AskedMutation, Fail> {
    Ok(AskedMutation::SetCell {
        family: Blob::new(alloc, family)?,
        qualifier: Blob::from_vec(vec![in alloc; b'q'; qualifier]?),
        at,
        value: Blob::from_vec(vec![in alloc; b'v'; value]?),
    })
}

// The families of a table that has f alone.
fn families(alloc: Global) -> Result<Families, Fail> {
    let name = FamilyName::new(alloc, "f")?.ok_or("family")?;
    let mut families = Families::new(alloc);
    families.push(Family { name, rule: None })?;
    Ok(families)
}

// Why the list of a lawful mutation and this one is refused.
fn refusal(alloc: Global, second: AskedMutation, at_most: u32) -> Result<MutationRefusal, Fail> {
    let list = [cell(alloc, b"f", 0, -1, 0)?, second];
    let refusal = check_list(&list, &families(alloc)?, at_most).err();
    Ok(refusal.ok_or("accepted")?)
}

fn time(mutation: Option<&Mutation>) -> Option<i64> {
    match mutation {
        Some(Mutation::SetCell { at, .. }) => Some(at.number()),
        _ => None,
    }
}

#[test]
fn a_list_is_copied(rt: HostRuntime) -> Result<(), Fail> {
    let alloc = rt.alloc();
    let mut list = AskedMutationList::new(alloc);
    list.push(cell(alloc, b"f", 1, -1, 1)?)?;
    list.push(AskedMutation::Missing)?;
    let copy = list.copy(alloc)?;
    let listed = format!(in alloc; "{list:?}")?;
    let copied = format!(in alloc; "{copy:?}")?;
    assert_eq!(rt; copied.as_str(), listed.as_str());
    Ok(())
}

#[test]
fn the_first_rule_that_is_broken_is_named(rt: HostRuntime) -> Result<(), Fail> {
    let alloc = rt.alloc();
    let none = check_list(&[], &families(alloc)?, 2);
    assert_eq!(rt; none, Err(MutationRefusal::NoMutations));
    assert_eq!(rt;
        refusal(alloc, AskedMutation::Missing, 1)?,
        MutationRefusal::TooMany
    );
    assert_eq!(rt;
        refusal(alloc, AskedMutation::Missing, 2)?,
        MutationRefusal::Kind { index: 1 }
    );
    let unknown = cell(alloc, b"g", 16_385, 1, 4_194_305)?;
    assert_eq!(rt;
        refusal(alloc, unknown, 2)?,
        MutationRefusal::UnknownFamily { index: 1 }
    );
    let long = cell(alloc, b"f", 16_385, 1, 4_194_305)?;
    assert_eq!(rt;
        refusal(alloc, long, 2)?,
        MutationRefusal::LongQualifier { index: 1 }
    );
    let uneven = cell(alloc, b"f", 16_384, 1, 4_194_305)?;
    assert_eq!(rt;
        refusal(alloc, uneven, 2)?,
        MutationRefusal::BadTimestamp { index: 1 }
    );
    let large = cell(alloc, b"f", 16_384, 1000, 4_194_305)?;
    assert_eq!(rt;
        refusal(alloc, large, 2)?,
        MutationRefusal::TooLarge { index: 1 }
    );
    Ok(())
}

#[test]
fn the_time_of_the_server_is_cut_to_milliseconds(rt: HostRuntime) -> Result<(), Fail> {
    let alloc = rt.alloc();
    let mut list = AskedMutationList::new(alloc);
    list.push(cell(alloc, b"f", 16_384, -1, 4_194_304)?)?;
    list.push(cell(alloc, b"f", 0, 7000, 0)?)?;
    check_list(list.items(), &families(alloc)?, 2)?;
    let mutations = resolve(alloc, list, 1_234_567)?;
    assert_eq!(rt; time(mutations.items().first()), Some(1_234_000));
    assert_eq!(rt; time(mutations.items().last()), Some(7000));
    Ok(())
}

// The cells of the column f:q from `start` to `end`.
fn times(alloc: Global, start: i64, end: i64) -> Result<AskedMutation, Fail> {
    Ok(AskedMutation::DeleteColumn {
        family: Blob::new(alloc, b"f")?,
        qualifier: Blob::new(alloc, b"q")?,
        start,
        end,
    })
}

fn bounds(mutation: Option<&Mutation>) -> Option<(u64, u64)> {
    match mutation {
        Some(Mutation::DeleteColumn { start, end, .. }) => Some((*start, *end)),
        _ => None,
    }
}

#[test]
fn times_to_be_removed_are_not_negative(rt: HostRuntime) -> Result<(), Fail> {
    let alloc = rt.alloc();
    let early = refusal(alloc, times(alloc, -1, 0)?, 2)?;
    assert_eq!(rt; early, MutationRefusal::BadTimeRange { index: 1 });
    let late = refusal(alloc, times(alloc, 7, -2)?, 2)?;
    assert_eq!(rt; late, MutationRefusal::BadTimeRange { index: 1 });
    let mut list = AskedMutationList::new(alloc);
    list.push(times(alloc, 7, 3)?)?;
    list.push(AskedMutation::DeleteRow)?;
    check_list(list.items(), &families(alloc)?, 2)?;
    let mutations = resolve(alloc, list, 1_234_567)?;
    assert_eq!(rt; bounds(mutations.items().first()), Some((7, 3)));
    Ok(())
}
