use crate::{AskedRange, AskedRangeList, Bound, ByteRange, RowSet, TimeRange, covers_exactly};
use bt_base::{Blob, BlobList, Plain};
use bt_types::{Micros, RowKey, RowRange};
use std::alloc::Global;
use std::test::Fail;

fn closed(alloc: Global, bytes: &[u8]) -> Result<Bound, Fail> {
    Ok(Bound::Closed(Blob::new(alloc, bytes)?))
}

fn past(alloc: Global, bytes: &[u8]) -> Result<Bound, Fail> {
    Ok(Bound::Past(Blob::new(alloc, bytes)?))
}

fn keys(alloc: Global) -> Result<BlobList, Fail> {
    let mut keys = BlobList::new(alloc);
    keys.push(Blob::new(alloc, b"k2")?)?;
    keys.push(Blob::new(alloc, b"k2")?)?;
    keys.push(Blob::new(alloc, b"k3")?)?;
    Ok(keys)
}

// From k1 up to k3, from z to a, and from k3 on.
fn ranges(alloc: Global) -> Result<AskedRangeList, Fail> {
    let mut ranges = AskedRangeList::new(alloc);
    ranges.push(AskedRange {
        start: closed(alloc, b"k1")?,
        end: past(alloc, b"k3")?,
    })?;
    ranges.push(AskedRange {
        start: closed(alloc, b"z")?,
        end: past(alloc, b"a")?,
    })?;
    ranges.push(AskedRange {
        start: closed(alloc, b"k3")?,
        end: past(alloc, b"")?,
    })?;
    Ok(ranges)
}

fn selects(alloc: Global, set: &RowSet, key: &[u8]) -> Result<bool, Fail> {
    let key = RowKey::new(alloc, key)?.ok_or("key")?;
    Ok(set.selects(&key))
}

#[test]
fn rows_are_gone_through_once(rt: HostRuntime) -> Result<(), Fail> {
    let alloc = rt.alloc();
    let listed = ranges(alloc)?.copy(alloc)?;
    let set = RowSet::new(alloc, keys(alloc)?.items(), listed.items())?;
    assert_eq!(rt; set.ranges().len(), 1);
    assert!(rt; selects(alloc, &set, b"k1")?);
    assert!(rt; selects(alloc, &set, b"k9")?);
    assert!(rt; !selects(alloc, &set, b"k0")?);
    let all = RowSet::new(alloc, &[], &[])?;
    assert!(rt; selects(alloc, &all, &[0u8])?);
    Ok(())
}

#[test]
fn bounds_of_columns_and_times(rt: HostRuntime) -> Result<(), Fail> {
    let alloc = rt.alloc();
    let behind = ByteRange {
        start: past(alloc, b"q")?,
        end: Bound::Unset,
    };
    assert!(rt; !behind.holds(b"q"));
    let up_to = ByteRange {
        start: Bound::Unset,
        end: closed(alloc, b"q")?,
    };
    assert!(rt; up_to.copy(alloc)?.holds(b"q"));
    let at = Micros::new(2000).ok_or("time")?;
    let before = TimeRange {
        start: 1000,
        end: 2000,
    };
    assert!(rt; !before.copy(alloc)?.holds(at));
    Ok(())
}

#[test]
fn parts_in_any_order(rt: HostRuntime) -> Result<(), Fail> {
    let alloc = rt.alloc();
    let low = RowRange {
        start: Blob::new(alloc, b"a")?,
        end: Some(Blob::new(alloc, b"b")?),
    };
    let high = RowRange {
        start: Blob::new(alloc, b"b")?,
        end: None,
    };
    let whole = RowRange {
        start: Blob::new(alloc, b"a")?,
        end: None,
    };
    let parts = vec![in alloc; high, low]?;
    assert!(rt; covers_exactly(alloc, parts.as_slice(), &whole)?);
    assert!(rt; !covers_exactly(alloc, &parts[..1], &whole)?);
    Ok(())
}
