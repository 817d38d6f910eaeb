//! A store over a disk in memory, and what a crash leaves of it.
ghost use Rattle.std.specs.Prelude.{◌≡◌, ◌<◌, ◌+◌, ◌^◌, [], ◌∷◌, IfOk};
ghost use Rattle.bt_entry.specs.declared.entry.Entry.TheVariants as entries;

use crate::{Limits, Store, StoreFault, TableCursor};
use bt_base::{Blob, OutOfMemory};
use bt_entry::{Batch, Entry, Numbered};
use bt_outside::{Disk, MemoryDisk};
use bt_rules::Families;
use bt_types::{RowRange, Rows, TableName};
use std::alloc::Global;
use std::test::Fail;

fn load(alloc: Global, disk: &mut MemoryDisk) -> Result<Store, StoreFault> {
    Store::load(alloc, disk, &Limits::standard())
}

fn table_name(alloc: Global) -> Result<TableName, Fail> {
    Ok(TableName::in_instance(alloc, "projects/p/instances/i", "t")?.ok_or("table")?)
}

fn has_table(alloc: Global, disk: &mut MemoryDisk) -> Result<bool, Fail> {
    let store = load(alloc, disk)?;
    Ok(store.schema().table(&table_name(alloc)?).is_some())
}

// Loads the store, commits a table without families and the moment behind it in one record, and
// gives the sequence of the table's entry.
fn create_table(alloc: Global, disk: &mut MemoryDisk, name: TableName) -> Result<u64, StoreFault> {
    let mut store = Store::load(alloc, disk, &Limits::standard())?;
    let _lawful = name.bytes();
    let entry = Entry::Create {
        name,
        families: Families::new(alloc),
        retention: 0,
    };
    let present = store.present();
    if present.floor() > 5 || !present.has_room(2) || !present.allows(&entry) {
        return Ok(0);
    }
    let sequence = present.last_sequence() + 1;
    let batch = table_and_moment(alloc, sequence, entry)?;
    store.commit(alloc, disk, batch)?;
    Ok(sequence)
}

fn table_and_moment(alloc: Global, sequence: u64, entry: Entry) -> Result<Batch, OutOfMemory>
    requires { sequence < 2 ^ 63 }
    ensures { IfOk result (λ batch. batch ≡ record { sequence = sequence; moment = 5; entry = entry } ∷ record { sequence = sequence + 1; moment = 6; entry = entries.Floor } ∷ []) }
{
    let mut batch = Batch::new(alloc);
    batch.push(Numbered {
        sequence,
        moment: 5,
        entry,
    })?;
    batch.push(Numbered {
        sequence: sequence + 1,
        moment: 6,
        entry: Entry::Floor,
    })?;
    Ok(batch)
}

#[test]
fn a_table_is_there_again(rt: HostRuntime) -> Result<(), Fail> {
    let mut disk = MemoryDisk::new(rt.alloc());
    assert!(rt; !has_table(rt.alloc(), &mut disk)?);
    assert_eq!(rt;
        create_table(rt.alloc(), &mut disk, table_name(rt.alloc())?)?,
        1
    );
    assert!(rt; has_table(rt.alloc(), &mut disk)?);
    let store = load(rt.alloc(), &mut disk)?;
    assert_eq!(rt; store.last_sequence(), 2);
    assert_eq!(rt; store.present().floor(), 6);
    Ok(())
}

fn calls_to_load(alloc: Global) -> Result<u64, Fail> {
    let mut disk = MemoryDisk::new(alloc);
    let _store = load(alloc, &mut disk)?;
    Ok(disk.moment())
}

// Whether a crash leaves the table where this call of a commit fails, and all behind it.
fn table_after(alloc: Global, call: u64, choice: u8) -> Result<bool, Fail> {
    let mut disk = MemoryDisk::new(alloc);
    disk.stop_at(calls_to_load(alloc)?.saturating_add(call));
    let _result = create_table(alloc, &mut disk, table_name(alloc)?);
    let image = disk.image(choice)?;
    let mut left = MemoryDisk::from_image(alloc, image);
    has_table(alloc, &mut left)
}

#[test]
fn a_table_is_absent_or_whole(rt: HostRuntime) -> Result<(), Fail> {
    for choice in 0..4 {
        assert!(rt; !table_after(rt.alloc(), 1, choice)?);
        assert!(rt; !table_after(rt.alloc(), 2, choice)?);
        let _either = table_after(rt.alloc(), 3, choice)?;
        let _either_still = table_after(rt.alloc(), 4, choice)?;
        assert!(rt; table_after(rt.alloc(), 5, choice)?);
    }
    Ok(())
}

#[test]
fn a_new_table_has_no_rows(rt: HostRuntime) -> Result<(), Fail> {
    let alloc = rt.alloc();
    let mut disk = MemoryDisk::new(alloc);
    let incarnation = create_table(alloc, &mut disk, table_name(alloc)?)?;
    let store = load(alloc, &mut disk)?;
    assert_eq!(rt; store.limits().slice, 256);
    let range = RowRange {
        start: Blob::new(alloc, b"a")?,
        end: None,
    };
    let TableCursor {
        mut rows,
        mut reads,
    } = store.cursor(alloc, incarnation, &range);
    assert!(rt; rows.next_row(&mut reads)?.is_none());
    Ok(())
}
