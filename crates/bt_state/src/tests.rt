ghost use Rattle.std.specs.Prelude.{◌≡◌, IfOk, OnOk, length};
ghost use Rattle.std.specs.List.{AllByRecursion};
ghost use Rattle.bt_entry.specs.Grammar.{AreNumbered, IsSpellableEntry, IsSpellableNumbered};
ghost use Rattle.bt_state.specs.State.{AreLawful, events_of};

use crate::Present;
use bt_base::{Blob, Plain};
use bt_entry::{Batch, Entry, Numbered};
use bt_rules::{Families, Family};
use bt_types::{
    FamilyName, Micros, Mutation, MutationList, Qualifier, RowKey, RowRange, TableName,
};
use std::alloc::Global;
use std::test::Fail;

const YEAR_10000: u64 = 253402300800000000;

#[test]
fn moments_never_fall(rt: HostRuntime) -> Result<(), Fail> {
    let alloc = rt.alloc();
    let present = Present::with_floor(alloc, 7);
    assert!(rt; present.rows_of(1).is_none());
    assert_eq!(rt; present.moment_used(6), 7);
    assert_eq!(rt; present.moment_used(8), 8);
    assert_eq!(rt; present.moment_used(YEAR_10000), YEAR_10000 - 1);
    Ok(())
}

fn create(alloc: Global, id: &str) -> Result<Entry, Fail>
    ensures { IfOk result IsSpellableEntry }
{
    let name = TableName::in_instance(alloc, "projects/p/instances/i", id)?.ok_or("table")?;
    let family = FamilyName::new(alloc, "f")?.ok_or("family")?;
    let mut families = Families::new(alloc);
    families.push(Family {
        name: family,
        rule: None,
    })?;
    Ok(Entry::Create {
        name,
        families,
        retention: 0,
    })
}

fn set_cell(alloc: Global, incarnation: u64, key: &[u8]) -> Result<Entry, Fail>
    ensures { IfOk result IsSpellableEntry }
{
    let key = RowKey::new(alloc, key)?.ok_or("key")?;
    let family = FamilyName::new(alloc, "f")?.ok_or("family")?;
    let qualifier = Qualifier::new(alloc, b"q")?.ok_or("qualifier")?;
    let at = Micros::new(1000).ok_or("timestamp")?;
    let value = Blob::new(alloc, b"v")?;
    let mut mutations = MutationList::new(alloc);
    mutations.push(Mutation::SetCell {
        family,
        qualifier,
        at,
        value,
    })?;
    Ok(Entry::Row {
        incarnation,
        key,
        by_rule: false,
        mutations,
    })
}

// At the next moment.
fn apply(alloc: Global, present: &mut Present, entry: Entry) -> Result<(), Fail>
    requires { IsSpellableEntry entry }
{
    if !present.has_room(1) || present.floor() > 1000 || !present.allows(&entry) {
        return Err(Fail::from("entry"));
    }
    let moment = present.floor() + 1;
    present.apply(alloc, entry, moment)?;
    Ok(())
}

#[test]
fn a_family_with_cells_stays(rt: HostRuntime) -> Result<(), Fail> {
    let alloc = rt.alloc();
    let mut present = Present::new(alloc);
    apply(alloc, &mut present, create(alloc, "t")?)?;
    let without_families = Entry::Alter {
        incarnation: 1,
        families: Families::new(alloc),
    };
    assert!(rt; present.allows(&without_families));
    apply(alloc, &mut present, set_cell(alloc, 1, b"r")?)?;
    assert!(rt; !present.allows(&without_families));
    assert_eq!(rt; present.last_sequence(), 2);
    assert_eq!(rt; present.floor(), 2);
    apply(alloc, &mut present, Entry::Delete { incarnation: 1 })?;
    assert!(rt; present.rows_of(1).is_none());
    assert!(rt; present.schema().table_at(1).is_none());
    Ok(())
}

// Two tables with rows, and one of them deleted, at moments from 10 on.
fn batch(alloc: Global) -> Result<Batch, Fail>
    ensures length { IfOk result (λ batch. length batch ≡ 6) }
    ensures numbered { IfOk result (AreNumbered 1) }
    ensures spellable { IfOk result (AllByRecursion IsSpellableNumbered) }
{
    let batch = vec![in alloc;
        at(10, 1, create(alloc, "t")?),
        at(10, 2, create(alloc, "u")?),
        at(11, 3, set_cell(alloc, 1, b"r")?),
        at(12, 4, set_cell(alloc, 2, b"r")?),
        at(12, 5, set_cell(alloc, 1, b"s")?),
        at(13, 6, Entry::Delete { incarnation: 2 }),
    ]?;
    Ok(Batch::from_vec(batch))
}

fn at(moment: u64, sequence: u64, entry: Entry) -> Numbered
    ensures { result ≡ (record { sequence = sequence; moment = moment; entry = entry }) }
{
    Numbered {
        sequence,
        moment,
        entry,
    }
}

// Applies copies of the entries in turn.
fn apply_copies(alloc: Global, present: &mut Present, batch: &[Numbered]) -> Result<(), Fail>
    requires { AllByRecursion IsSpellableNumbered batch.now }
    ensures { OnOk result (AreLawful present.old (events_of batch.now)) }
{
    let [first, rest @ ..] = batch else {
        return Ok(());
    };
    if !present.has_room(1) || first.moment < present.floor() || !present.allows(&first.entry) {
        return Err(Fail::from("entry"));
    }
    present.apply(alloc, first.entry.copy(alloc)?, first.moment)?;
    apply_copies(alloc, present, rest)
}

fn all_keys(alloc: Global) -> RowRange {
    RowRange {
        start: Blob::from_vec(Vec::new(alloc)),
        end: None,
    }
}

#[test]
fn a_batch_is_applied_in_order(rt: HostRuntime) -> Result<(), Fail> {
    let alloc = rt.alloc();
    let batch = batch(alloc)?;
    let mut in_turn = Present::new(alloc);
    apply_copies(alloc, &mut in_turn, batch.items())?;
    let mut present = Present::new(alloc);
    present.apply_all(alloc, batch)?;
    assert_eq!(rt; present.last_sequence(), 6);
    assert_eq!(rt; present.floor(), 13);
    assert!(rt; present.schema().table_at(1).is_some());
    assert!(rt; present.schema().table_at(2).is_none());
    let rows = present.rows_of(1).ok_or("rows")?;
    assert_eq!(rt; rows.keys_in(alloc, &all_keys(alloc))?.items().len(), 2);
    assert!(rt; present.rows_of(2).is_none());
    Ok(())
}
