use crate::{Blob, BlobList, ListOf, Plain};
use std::test::Fail;

#[test]
fn bytes_are_kept(rt: HostRuntime) -> Result<(), Fail> {
    let alloc = rt.alloc();
    let blob = Blob::new(alloc, b"row")?;
    assert_eq!(rt; blob.bytes(), b"row".as_slice());
    assert_eq!(rt; blob.copy(alloc)?.bytes(), b"row".as_slice());
    let owned = Blob::from_vec(vec![in alloc; 1u8, 2]?);
    assert_eq!(rt; owned.bytes(), [1u8, 2].as_slice());
    Ok(())
}

#[test]
fn lists_keep_their_order(rt: HostRuntime) -> Result<(), Fail> {
    let alloc = rt.alloc();
    let mut list = ListOf::new(alloc);
    assert!(rt; list.is_empty());
    list.push(1u64)?;
    list.push(3)?;
    list.insert(1, 2)?;
    list.set(0, 7);
    assert_eq!(rt; list.items(), [7u64, 2, 3].as_slice());
    let mut blobs = BlobList::new(alloc);
    blobs.push(Blob::new(alloc, b"a")?)?;
    assert_eq!(rt; blobs.copy(alloc)?.items().len(), 1);
    Ok(())
}
