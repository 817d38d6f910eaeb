use crate::{
    Cell, CellList, FamilyName, FoundRow, Label, Micros, Mutation, Qualifier, RowKey, RowRange,
    SourceFault, TableName, Text, cell_order,
};
use bt_base::{Blob, OutOfMemory, Plain};
use std::alloc::Global;
use std::cmp::Ordering;
use std::test::Fail;

fn cell(alloc: Global, family: &str, qualifier: &[u8], at: i64) -> Result<Cell, Fail> {
    Ok(Cell::plain(
        FamilyName::new(alloc, family)?.ok_or("family")?,
        Qualifier::new(alloc, qualifier)?.ok_or("qualifier")?,
        Micros::new(at).ok_or("timestamp")?,
        Blob::new(alloc, b"v")?,
    ))
}

#[test]
fn names_are_made(rt: HostRuntime) -> Result<(), Fail> {
    let alloc = rt.alloc();
    let name = TableName::in_instance(alloc, "projects/p/instances/i", "t")?.ok_or("table")?;
    assert_eq!(rt; name.text(), "projects/p/instances/i/tables/t");
    assert!(rt; TableName::in_instance(alloc, "projects", "instances/i/tables/t")?.is_none());
    assert!(rt; RowKey::new(alloc, b"r")?.is_some());
    assert!(rt; Label::new(alloc, "foo-1")?.is_some());
    assert!(rt; Label::new(alloc, "Foo")?.is_none());
    Ok(())
}

#[test]
fn newer_cells_come_first(rt: HostRuntime) -> Result<(), Fail> {
    let alloc = rt.alloc();
    let old = cell(alloc, "f", b"q", 1000)?;
    let new = cell(alloc, "f", b"q", 2000)?;
    assert!(rt; matches!(cell_order(&new, &old), Ordering::Less));
    assert!(rt; matches!(cell_order(&old, &old.copy(alloc)?), Ordering::Equal));
    Ok(())
}

#[test]
fn copies_have_what_their_sources_have(rt: HostRuntime) -> Result<(), Fail> {
    let alloc = rt.alloc();
    let mut cells = CellList::new(alloc);
    cells.push(cell(alloc, "f", b"q", 1000)?)?;
    let key = RowKey::new(alloc, b"r")?.ok_or("key")?;
    let row = FoundRow { key, cells }.copy(alloc)?;
    assert_eq!(rt; row.key.bytes(), b"r".as_slice());
    assert_eq!(rt; row.cells.items().len(), 1);
    let range = RowRange {
        start: Blob::new(alloc, b"a")?,
        end: Some(Blob::new(alloc, b"b")?),
    };
    assert!(rt; range.copy(alloc)?.end.is_some());
    assert!(rt; matches!(Mutation::DeleteRow.copy(alloc)?, Mutation::DeleteRow));
    assert_eq!(rt; Text::new(alloc, "run")?.copy(alloc)?.text(), "run");
    assert_eq!(rt; SourceFault::from(OutOfMemory), SourceFault::OutOfMemory);
    Ok(())
}
