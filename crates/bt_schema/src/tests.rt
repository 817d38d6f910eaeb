use crate::{Schema, SchemaRefusal, has_family, is_family_of};
use bt_base::Blob;
use bt_entry::{BatchRefusal, Entry, Numbered};
use bt_rules::{Families, Family, Rule};
use bt_types::{FamilyName, Mutation, MutationList, RowKey, TableName};
use std::alloc::Global;
use std::test::Fail;

const DAY: u64 = 86_400_000_000;

fn family(alloc: Global, name: &str) -> Result<FamilyName, Fail> {
    Ok(FamilyName::new(alloc, name)?.ok_or("family")?)
}

fn table_name(alloc: Global, id: &str) -> Result<TableName, Fail> {
    Ok(TableName::in_instance(alloc, "projects/p/instances/i", id)?.ok_or("table")?)
}

fn families(alloc: Global, name: &str, rule: Option<Rule>) -> Result<Families, Fail> {
    let mut families = Families::new(alloc);
    let name = family(alloc, name)?;
    families.push(Family { name, rule })?;
    Ok(families)
}

fn create(alloc: Global, id: &str, retention: u64) -> Result<Entry, Fail> {
    Ok(Entry::Create {
        name: table_name(alloc, id)?,
        families: families(alloc, "f", None)?,
        retention,
    })
}

fn row(alloc: Global, incarnation: u64, name: &str) -> Result<Entry, Fail> {
    let mut mutations = MutationList::new(alloc);
    let family = family(alloc, name)?;
    mutations.push(Mutation::DeleteFamily { family })?;
    Ok(Entry::Row {
        incarnation,
        key: RowKey::new(alloc, b"r")?.ok_or("key")?,
        by_rule: false,
        mutations,
    })
}

// At the moment of ten times the sequence.
fn apply(alloc: Global, schema: &mut Schema, sequence: u64, entry: Entry) -> Result<(), Fail> {
    schema.check_change(&entry)?;
    if schema.table_at(sequence).is_some() {
        return Err(Fail::from("sequence"));
    }
    let change = Numbered {
        sequence,
        moment: sequence.saturating_mul(10),
        entry,
    };
    schema.apply_change(alloc, &change)?;
    Ok(())
}

fn stream_of(schema: &Schema, incarnation: u64) -> Result<(u64, u64, u64), Fail> {
    let table = schema.table_at(incarnation).ok_or("table")?;
    Ok((table.since, table.since_moment, table.retention))
}

#[test]
fn a_stream_begins_with_its_table(rt: HostRuntime) -> Result<(), Fail> {
    let alloc = rt.alloc();
    let mut schema = Schema::new(alloc);
    apply(alloc, &mut schema, 5, create(alloc, "t", DAY)?)?;
    apply(alloc, &mut schema, 6, create(alloc, "s", 0)?)?;
    assert_eq!(rt; stream_of(&schema, 5)?, (5, 50, DAY));
    assert_eq!(rt; stream_of(&schema, 6)?, (0, 0, 0));
    assert!(rt; schema.table_at(7).is_none());
    let table = schema.table(&table_name(alloc, "s")?).ok_or("table")?;
    assert_eq!(rt; table.incarnation, 6);
    assert_eq!(rt; schema.tables().len(), 2);
    Ok(())
}

#[test]
fn a_stream_ends_and_begins_again(rt: HostRuntime) -> Result<(), Fail> {
    let alloc = rt.alloc();
    let mut schema = Schema::new(alloc);
    apply(alloc, &mut schema, 1, create(alloc, "t", 0)?)?;
    let incarnation = 1;
    for (sequence, retention) in [(2, DAY), (3, 2 * DAY), (4, 0), (5, DAY)] {
        let stream = Entry::Stream {
            incarnation,
            retention,
        };
        apply(alloc, &mut schema, sequence, stream)?;
        let expected = match sequence {
            2 => (2, 20, DAY),
            3 => (2, 20, 2 * DAY),
            4 => (0, 0, 0),
            _ => (5, 50, DAY),
        };
        assert_eq!(rt; stream_of(&schema, 1)?, expected);
    }
    Ok(())
}

#[test]
fn a_deleted_table_is_gone(rt: HostRuntime) -> Result<(), Fail> {
    let alloc = rt.alloc();
    let mut schema = Schema::new(alloc);
    apply(alloc, &mut schema, 1, create(alloc, "t", 0)?)?;
    apply(alloc, &mut schema, 2, create(alloc, "u", 0)?)?;
    apply(alloc, &mut schema, 3, row(alloc, 1, "f")?)?;
    apply(alloc, &mut schema, 4, Entry::Floor)?;
    let altered = Entry::Alter {
        incarnation: 1,
        families: families(alloc, "g", Some(Rule::Versions(1)))?,
    };
    apply(alloc, &mut schema, 5, altered)?;
    let table = schema.table_at(1).ok_or("table")?;
    assert!(rt; has_family(table, &family(alloc, "g")?));
    assert!(rt; !is_family_of(table.families.items(), b"f"));
    apply(alloc, &mut schema, 6, Entry::Delete { incarnation: 1 })?;
    assert!(rt; schema.table_at(1).is_none());
    assert!(rt; schema.table(&table_name(alloc, "t")?).is_none());
    assert!(rt; schema.table_at(2).is_some());
    Ok(())
}

fn refusal(schema: &Schema, entry: &Entry) -> Option<SchemaRefusal> {
    schema.check_change(entry).err()
}

#[test]
fn an_entry_is_refused(rt: HostRuntime) -> Result<(), Fail> {
    let alloc = rt.alloc();
    let mut schema = Schema::new(alloc);
    apply(alloc, &mut schema, 1, create(alloc, "t", 0)?)?;
    let again = create(alloc, "t", 0)?;
    assert_eq!(rt;
        refusal(&schema, &again),
        Some(SchemaRefusal::AlreadyExists)
    );
    let absent = Entry::Delete { incarnation: 2 };
    assert_eq!(rt; refusal(&schema, &absent), Some(SchemaRefusal::NotFound));
    let of_another_family = row(alloc, 1, "g")?;
    assert_eq!(rt;
        refusal(&schema, &of_another_family),
        Some(SchemaRefusal::NotFound)
    );
    let altered = Entry::Alter {
        incarnation: 1,
        families: families(alloc, "f", Some(Rule::Versions(0)))?,
    };
    assert_eq!(rt; refusal(&schema, &altered), Some(SchemaRefusal::BadRule));
    Ok(())
}

#[test]
fn families_and_tables_are_limited(rt: HostRuntime) -> Result<(), Fail> {
    let alloc = rt.alloc();
    let mut schema = Schema::new(alloc);
    for sequence in 1..=1000u64 {
        let id = format!(in alloc; "t{sequence}")?;
        apply(alloc, &mut schema, sequence, create(alloc, id.as_str(), 0)?)?;
    }
    let one_more = create(alloc, "u", 0)?;
    assert_eq!(rt;
        refusal(&schema, &one_more),
        Some(SchemaRefusal::TooManyTables)
    );
    let mut families = Families::new(alloc);
    for _ in 0..101 {
        let name = family(alloc, "f")?;
        families.push(Family { name, rule: None })?;
    }
    let altered = Entry::Alter {
        incarnation: 1,
        families,
    };
    assert_eq!(rt;
        refusal(&schema, &altered),
        Some(SchemaRefusal::TooManyFamilies)
    );
    Ok(())
}

// The table projects/p/instances/i/tables/t, made by the fifth entry, with a stream that the sixth
// began at 60 and that keeps changes for a day, and with the family f.
const STREAM: &[u8] = b"\0\0\0\x01\
\0\x1Fprojects/p/instances/i/tables/t\
\0\0\0\0\0\0\0\x05\
\0\0\0\0\0\0\0\x06\
\0\0\0\0\0\0\0\x3C\
\0\0\0\x14\x1D\xD7\x60\0\
\0\x01\x01f\0";

const NO_TABLES: &[u8] = b"\0\0\0\0";

// The tables t and u without families, both made by the fifth entry.
const SAME_INCARNATION: &[u8] = b"\0\0\0\x02\
\0\x1Fprojects/p/instances/i/tables/t\
\0\0\0\0\0\0\0\x05\0\0\0\0\0\0\0\0\0\0\0\0\0\0\0\0\0\0\0\0\0\0\0\0\0\0\
\0\x1Fprojects/p/instances/i/tables/u\
\0\0\0\0\0\0\0\x05\0\0\0\0\0\0\0\0\0\0\0\0\0\0\0\0\0\0\0\0\0\0\0\0\0\0";

// The table t twice, made by the fifth and the sixth entry.
const SAME_NAME: &[u8] = b"\0\0\0\x02\
\0\x1Fprojects/p/instances/i/tables/t\
\0\0\0\0\0\0\0\x05\0\0\0\0\0\0\0\0\0\0\0\0\0\0\0\0\0\0\0\0\0\0\0\0\0\0\
\0\x1Fprojects/p/instances/i/tables/t\
\0\0\0\0\0\0\0\x06\0\0\0\0\0\0\0\0\0\0\0\0\0\0\0\0\0\0\0\0\0\0\0\0\0\0";

fn written_again(alloc: Global, bytes: &[u8]) -> Result<(Schema, Blob), Fail> {
    let Ok(schema) = Schema::from_bytes(alloc, bytes) else {
        return Err(Fail::from("refused"));
    };
    let written = schema.to_bytes(alloc)?;
    Ok((schema, written))
}

#[test]
fn a_table_is_read_and_written(rt: HostRuntime) -> Result<(), Fail> {
    let alloc = rt.alloc();
    let (schema, bytes) = written_again(alloc, STREAM)?;
    assert_eq!(rt; bytes.bytes(), STREAM);
    assert_eq!(rt; stream_of(&schema, 5)?, (6, 60, DAY));
    let table = schema.table(&table_name(alloc, "t")?).ok_or("table")?;
    assert_eq!(rt; table.incarnation, 5);
    assert!(rt; has_family(table, &family(alloc, "f")?));
    Ok(())
}

#[test]
fn no_tables_are_four_bytes(rt: HostRuntime) -> Result<(), Fail> {
    let alloc = rt.alloc();
    let bytes = Schema::new(alloc).to_bytes(alloc)?;
    assert_eq!(rt; bytes.bytes(), NO_TABLES);
    let (schema, _bytes) = written_again(alloc, NO_TABLES)?;
    assert_eq!(rt; schema.tables().len(), 0);
    Ok(())
}

fn place_of_fault(alloc: Global, bytes: &[u8]) -> Option<u64> {
    match Schema::from_bytes(alloc, bytes) {
        Err(BatchRefusal::BadEntry { at }) => Some(at),
        _ => None,
    }
}

#[test]
fn the_first_bad_field_is_named(rt: HostRuntime) -> Result<(), Fail> {
    let alloc = rt.alloc();
    // Cut within the count, within the bytes of the name, and before the rule of the family.
    assert_eq!(rt; place_of_fault(alloc, &STREAM[..3]), Some(0));
    assert_eq!(rt; place_of_fault(alloc, &STREAM[..20]), Some(6));
    assert_eq!(rt; place_of_fault(alloc, &STREAM[..73]), Some(73));
    // The second name, and the second incarnation.
    assert_eq!(rt; place_of_fault(alloc, SAME_NAME), Some(73));
    assert_eq!(rt; place_of_fault(alloc, SAME_INCARNATION), Some(104));
    // A byte behind the last table.
    let mut longer = Vec::from_slice(alloc, STREAM)?;
    longer.push(0)?;
    assert_eq!(rt; place_of_fault(alloc, &longer), Some(74));
    Ok(())
}
