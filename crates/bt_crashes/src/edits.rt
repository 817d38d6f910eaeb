//! Changes of files by hand.

use bt_base::{Blob, OutOfMemory};
use bt_outside::{DiskImage, FileBytes, FileList};
use std::alloc::Global;

/// What is done to a file.
#[derive(Clone, Copy, Debug)]
pub enum Edit {
    /// This byte is put at that place.
    Put(usize, u8),
    /// So many bytes are kept.
    Keep(usize),
}

fn put(bytes: &mut [u8], at: usize, byte: u8) {
    if let Some(place) = bytes.get_mut(at) {
        *place = byte;
    }
}

fn edited(alloc: Global, bytes: &[u8], edit: Edit) -> Result<Blob, OutOfMemory> {
    match edit {
        Edit::Put(at, byte) => {
            let mut copy = bytes.to_vec(alloc)?;
            put(&mut copy, at, byte);
            Ok(Blob::from_vec(copy))
        }
        Edit::Keep(count) => {
            let (front, _) = bytes.split_at(count.min(bytes.len()));
            Blob::new(alloc, front)
        }
    }
}

/// These files, of which one is changed.
pub fn with_edit(
    alloc: Global,
    image: &DiskImage,
    number: u64,
    edit: Edit,
) -> Result<DiskImage, OutOfMemory> {
    let mut files = FileList::new(alloc);
    for file in image.files.items() {
        let bytes = if file.number == number {
            edited(alloc, file.bytes.bytes(), edit)?
        } else {
            Blob::new(alloc, file.bytes.bytes())?
        };
        files.push(FileBytes {
            number: file.number,
            bytes,
        })?;
    }
    Ok(DiskImage { files })
}
